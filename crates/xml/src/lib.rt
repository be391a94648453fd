//! A reader of XML, token by token.
//!
//! [`Reader`] yields the tokens of a document, which borrow from it, and [`push_text`],
//! [`push_attribute`] and [`push_cdata`] decode them. It doesn't validate, and it loads nothing. A
//! document type declaration is skipped, and a reference to an entity that XML doesn't define is
//! unchanged.
#![tactic(auto)]

mod cut;
pub mod decode;
pub mod reader;

pub use decode::{push_attribute, push_cdata, push_text};
pub use reader::{Reader, Token, Unfinished};
