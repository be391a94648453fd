//! Short ASCII strings on the stack. A date and a time are put together in one, and appended at
//! once.

ghost use Rattle.std.specs.Prelude.{◌≡◌, ◌+◌, ◌^◌, ◌<◌, ◌≤◌, ◌++◌, ◌∷◌, [], Some, length, string_bytes};
ghost use Rattle.tracing_tree_time.specs.Timers.{AppendsStated};
ghost use Rattle.tracing_tree_time.specs.Numbers.{digits_in};

use super::TimeFault;
use std::marker::Model;
use std::str;

// A date, a time and an offset together have at most 40 bytes.
const ROOM: usize = 40;

/// An ASCII string of at most 40 bytes.
#[derive(Drop)]
pub(super) struct ShortText {
    bytes: [u8; ROOM],
    length: usize,
}

impl Model for ShortText {
    ghost use Rattle.std.specs.Prelude.{◌≤◌, List, ℕ, take};
    ghost use Rattle.std.specs.Str.{IsAscii};

    ghost Value = { List ℕ };

    ghost view = { λ t. take t.length t.bytes };

    ghost invariant = { λ t. (t.length ≤ 40) × IsAscii (take t.length t.bytes) };
}

impl ShortText {
    /// Returns an empty string.
    pub(super) fn new() -> ShortText
        ensures { result ≡ [] }
    {
        ShortText {
            bytes: [0; ROOM],
            length: 0,
        }
    }

    /// Appends an ASCII character.
    pub(super) fn push(&mut self, byte: u8)
        requires ascii { byte < 128 }
        requires room { length self.old < 40 }
        ensures text { self.new ≡ self.old ++ byte ∷ [] }
        ensures len { length self.new ≡ length self.old + 1 }
    {
        self.bytes[self.length] = byte;
        self.length += 1;
    }

    /// Appends a number below 100 in two digits.
    pub(super) fn push_pair(&mut self, number: u64)
        requires below { number < 100 }
        requires room { length self.old + 2 ≤ 40 }
        ensures text { self.new ≡ self.old ++ digits_in 2 number }
        ensures len { length self.new ≡ length self.old + 2 }
    {
        self.push(b'0' + (number / 10) as u8);
        self.push(b'0' + (number % 10) as u8);
    }

    /// Appends a number in `places` digits.
    pub(super) fn push_digits(&mut self, places: usize, number: u64)
        requires some { 1 ≤ places }
        requires below { number < 10 ^ places }
        requires room { length self.old + places ≤ 40 }
        ensures text { self.new ≡ self.old ++ digits_in places number }
        ensures len { length self.new ≡ length self.old + places }
    {
        if places == 1 {
            self.push(b'0' + (number % 10) as u8);
            return;
        }
        if places > 2 {
            self.push_digits(places - 2, number / 100);
        }
        self.push_pair(number % 100);
    }

    /// Appends the string to another.
    ///
    /// # Errors
    ///
    /// `Memory` if an allocation fails. `out` is unchanged then.
    pub(super) fn append_to(&self, out: &mut String) -> Result<(), TimeFault>
        ensures { AppendsStated (Some self.now)
            (string_bytes out.old) (string_bytes out.new) result }
    {
        out.push_str(self.as_str()).map_err(|_| TimeFault::Memory)
    }

    fn as_str(&self) -> &str
        ensures { result.now ≡ self.now }
    {
        match str::from_utf8(&self.bytes[..self.length]) {
            Ok(text) => text,
            Err(_) => "",
        }
    }
}
