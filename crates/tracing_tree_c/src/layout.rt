// The sizes of the structs that C and Rust share. `bindings/layouts.py` compares each field's
// offset with the header.

use crate::foreign::{AttributesRef, ContextRef, EventRef, FieldRef, TimeRef};
use crate::settings::{SIZE, SettingsRef};
use crate::tree::Tree;
use std::mem::size_of;

const _: () = prove!(size_of::<Tree>() == 16);

const _: () = prove!(size_of::<FieldRef<'static>>() == 32);

const _: () = prove!(size_of::<SettingsRef>() == 56);

const _: () = prove!(size_of::<ContextRef<'static>>() == 56);

const _: () = prove!(size_of::<AttributesRef<'static>>() == 48);

const _: () = prove!(size_of::<EventRef<'static>>() == 32);

const _: () = prove!(size_of::<TimeRef<'static>>() == 32);

const _: () = prove!(size_of::<SettingsRef>() as u64 == SIZE);
