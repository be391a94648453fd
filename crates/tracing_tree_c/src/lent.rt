//! An output that holds what one call drew, and lends it.

ghost use Rattle.std.specs.Prelude.{◌≡◌, []};

use std::alloc::Global;
use std::marker::Model;
use std::mem;
use tracing_tree_output::{Output, OutputFault};

/// An output that holds what a call drew. If it is empty, it takes the layer's string without a
/// copy or an allocation.
#[derive(Drop)]
pub struct Lent {
    text: String,
    faults: u64,
}

impl Model for Lent {
    ghost use Rattle.std.specs.Prelude.{string_bytes};
    ghost use Rattle.tracing_tree_output.specs.Outputs.{TapeView};

    ghost Value = { TapeView };

    ghost view = { λ l. record { bytes = string_bytes l.text; faults = l.faults } };
}

impl Lent {
    /// Returns an empty output. Never allocates.
    pub fn new(alloc: Global) -> Lent
        ensures { result ≡ record { bytes = []; faults = 0 } }
    {
        Lent {
            text: String::new(alloc),
            faults: 0,
        }
    }

    /// Returns the bytes.
    pub fn bytes(&self) -> &[u8]
        ensures { result.now ≡ self.now.bytes }
    {
        self.text.as_bytes()
    }

    /// Returns the output with the same capacity, without its bytes and faults.
    pub fn emptied(self) -> Lent
        ensures { result ≡ record { bytes = []; faults = 0 } }
    {
        let mut text = self.text;
        text.clear();
        Lent { text, faults: 0 }
    }
}

impl Output for Lent {
    ghost use Rattle.std.specs.Prelude.{true, Some};

    ghost contents = { λ l. Some l.bytes };

    ghost fault_count = { λ l. l.faults };

    ghost WHOLE = { true };

    const WHOLE: bool = true;

    // Bytes that aren't UTF-8 are refused. The layer never writes such bytes.
    fn write(&mut self, bytes: &[u8]) -> Result<usize, OutputFault> {
        let written = match str::from_utf8(bytes) {
            Ok(text) => self.text.push_str(text).is_ok(),
            Err(_) => false,
        };
        if written {
            return Ok(bytes.len());
        }
        self.faults += 1;
        Err(OutputFault)
    }

    fn faults(&self) -> u64 {
        self.faults
    }

    fn flush(&mut self) {}

    fn keep(&mut self, text: &mut String) -> bool {
        if !self.text.is_empty() {
            return false;
        }
        mem::swap(&mut self.text, text);
        true
    }
}
