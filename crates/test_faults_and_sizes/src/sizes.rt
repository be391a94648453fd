//! Runs that give one quantity each size, through a layer with its registry and through bare
//! layers over both kinds of live spans, and single values that are far larger.

mod bare;
mod deep;
mod long;
mod quantity;
mod run;
mod setting;
mod sweep;
