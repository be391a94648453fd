//! Outputs, which take bytes and count the writes that they refuse.

ghost use Rattle.std.specs.Prelude.{◌≡◌, ℕ, ◌+◌, ◌-◌, ◌<◌, ◌≤◌, List, [], Bool, false, IsErr, IsTrue, Option, Some, IfOk, IfSome, IfNone, length, take, string_bytes};
ghost use Rattle.std.specs.Io.KnownBytes.{Appends, Keeps, WriteAppends};
ghost use Rattle.tracing_tree_output.specs.Outputs.{TakesSome, CountsFault, KeepsText};

use crate::retry::{flush_tried, write_tried};
use std::alloc::Global;
use std::io::Write;
use std::marker::Model;

/// A write that was refused.
#[derive(Clone, Copy, Debug, PartialEq, Eq)]
pub struct OutputFault;

/// A destination that takes bytes and counts its faults.
///
/// An output that counts the bytes and doesn't store them:
/// ```rust
/// impl Output for Counter {
///     ghost use Rattle.std.specs.Prelude.{None, true};
///
///     ghost contents = { λ _. None };
///
///     ghost fault_count = { λ _. 0 };
///
///     ghost WHOLE = { true };
///
///     const WHOLE: bool = true;
///
///     fn write(&mut self, bytes: &[u8]) -> Result<usize, OutputFault> {
///         self.bytes = self.bytes.saturating_add(bytes.len());
///         Ok(bytes.len())
///     }
///
///     fn faults(&self) -> u64 {
///         0
///     }
///
///     fn flush(&mut self) {}
/// }
/// ```
pub trait Output {
    /// The bytes that it has taken, if they are known.
    ghost contents: { Self → Option (List ℕ) };

    /// The number of writes that it has refused.
    ghost fault_count: { Self → ℕ };

    /// Whether its buffer may have some of what it has taken.
    ghost holds_back: { Self → Bool } = { λ _. false };

    /// Whether it has refused a flush.
    ghost stuck: { Self → Bool } = { λ _. false };

    ghost WHOLE: { Bool };

    /// Whether each accepted write takes all bytes.
    const WHOLE: bool;

    /// Takes some of the bytes, and returns how many: at least one if the slice isn't empty, and
    /// all if `WHOLE`.
    ///
    /// # Errors
    ///
    /// `OutputFault` if the write is refused. The bytes taken so far are unchanged then, and the
    /// count of faults rises by one. After a refused flush each write is refused.
    fn write(&mut self, bytes: &[u8]) -> Result<usize, OutputFault>
        requires { fault_count self.old < u64.MAX }
        ensures taken { IfOk result (TakesSome WHOLE bytes.now) }
        ensures contents { WriteAppends (contents self.old) (contents self.new) result bytes.now }
        ensures count { CountsFault (fault_count self.old) (fault_count self.new) result }
        ensures stuck { IsTrue (stuck self.old) → IsErr result }
        ensures stays { stuck self.new ≡ stuck self.old };

    /// Returns the number of writes that it has refused.
    fn faults(&self) -> u64
        ensures { result ≡ fault_count self.now };

    /// Flushes the buffer. Does nothing if the buffer is empty. If it can't be flushed, it stays in
    /// the buffer, and each later write is refused. The count of faults doesn't change.
    fn flush(&mut self)
        ensures contents { Keeps (contents self.old) (contents self.new) }
        ensures count { fault_count self.new ≡ fault_count self.old }
        ensures shown { IsTrue (holds_back self.new) → IsTrue (stuck self.new) };

    /// Takes over a string if that needs no copy, and leaves an empty one in its place. Returns
    /// whether it did. Otherwise nothing has changed, and the caller must write the string.
    fn keep(&mut self, text: &mut String) -> bool
        ensures kept { KeepsText result (string_bytes text.old) (string_bytes text.new)
            (contents self.old) (contents self.new) }
        ensures count { fault_count self.new ≡ fault_count self.old }
        ensures stuck { IsTrue (stuck self.old) → IsTrue result → ⊥ }
        ensures stays { stuck self.new ≡ stuck self.old }
    {
        let _ = text;
        false
    }
}

/// An output in memory. Each write takes all bytes. A write is refused if an allocation fails.
#[derive(Drop)]
pub struct Tape {
    bytes: Vec<u8>,
    faults: u64,
}

impl Model for Tape {
    ghost use Rattle.tracing_tree_output.specs.Outputs.{TapeView};

    ghost Value = { TapeView };

    ghost view = { λ t. record { bytes = t.bytes.items; faults = t.faults } };
}

impl Tape {
    /// Returns an empty output. Never allocates.
    pub fn new(alloc: Global) -> Tape
        ensures { result ≡ record { bytes = []; faults = 0 } }
    {
        Tape {
            bytes: Vec::new(alloc),
            faults: 0,
        }
    }

    /// Returns the bytes that it has taken.
    pub fn bytes(&self) -> &[u8]
        ensures { result.now ≡ self.now.bytes }
    {
        self.bytes.as_slice()
    }
}

impl Output for Tape {
    ghost use Rattle.std.specs.Prelude.{true, Some};

    ghost contents = { λ t. Some t.bytes };

    ghost fault_count = { λ t. t.faults };

    ghost WHOLE = { true };

    const WHOLE: bool = true;

    fn write(&mut self, bytes: &[u8]) -> Result<usize, OutputFault> {
        match self.bytes.extend_from_slice(bytes) {
            Ok(()) => Ok(bytes.len()),
            Err(_) => {
                self.faults += 1;
                Err(OutputFault)
            }
        }
    }

    fn faults(&self) -> u64 {
        self.faults
    }

    fn flush(&mut self) {}
}

/// An output over a writer of std. An interrupted write or flush is tried again at most 8 times. A
/// write that is still interrupted, a count of 0 for a nonempty slice and another error are faults.
/// After a refused flush each write is a fault.
#[derive(Drop)]
pub struct Wrap<W: Write> {
    writer: W,
    faults: u64,
    // Whether the writer has taken bytes since the last flush that succeeded.
    holds_back: bool,
    // Whether a flush was refused.
    stuck: bool,
}

impl<W: Write> Model for Wrap<W> {
    ghost use Rattle.tracing_tree_output.specs.Outputs.{WrapView};

    ghost Value = { WrapView W };

    ghost view = { λ w. record {
      writer = w.writer;
      faults = w.faults;
      holds_back = w.holds_back;
      stuck = w.stuck;
    } };
}

impl<W: Write> Wrap<W> {
    /// Makes an output over this writer, without faults.
    pub fn new(writer: W) -> Wrap<W>
        ensures { result ≡ record {
          writer = writer;
          faults = 0;
          holds_back = false;
          stuck = false;
        } }
    {
        Wrap {
            writer,
            faults: 0,
            holds_back: false,
            stuck: false,
        }
    }

    /// Returns whether a flush was refused. Each write is then a fault.
    pub fn is_stuck(&self) -> bool
        ensures { result ≡ self.now.stuck }
    {
        self.stuck
    }

    /// Returns the writer.
    pub fn into_inner(self) -> W
        ensures { result ≡ self.writer }
    {
        self.writer
    }
}

impl<W: Write> Output for Wrap<W> {
    ghost use Rattle.std.specs.Prelude.{false};

    ghost contents = { λ w. W.contents w.writer };

    ghost fault_count = { λ w. w.faults };

    ghost holds_back = { λ w. w.holds_back };

    ghost stuck = { λ w. w.stuck };

    ghost WHOLE = { false };

    const WHOLE: bool = false;

    fn write(&mut self, bytes: &[u8]) -> Result<usize, OutputFault> {
        if !self.stuck {
            if let Some(taken) = write_tried(&mut self.writer, bytes) {
                self.holds_back = true;
                return Ok(taken);
            }
        }
        self.faults += 1;
        Err(OutputFault)
    }

    fn faults(&self) -> u64 {
        self.faults
    }

    fn flush(&mut self) {
        if flush_tried(&mut self.writer) {
            self.holds_back = false;
        } else {
            self.stuck = true;
        }
    }
}
