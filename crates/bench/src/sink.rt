//! An output that counts bytes and doesn't store them.

use tracing_tree::format::{Output, OutputFault};

#[derive(Drop)]
pub struct Sink {
    pub bytes: u64,
}

impl Output for Sink {
    ghost use Rattle.std.specs.Prelude.{None, true};

    ghost contents = { λ sink. None };

    ghost fault_count = { λ sink. 0 };

    ghost WHOLE = { true };

    const WHOLE: bool = true;

    fn write(&mut self, bytes: &[u8]) -> Result<usize, OutputFault> {
        self.bytes = self.bytes.wrapping_add(bytes.len() as u64);
        Ok(bytes.len())
    }

    fn faults(&self) -> u64 {
        0
    }

    fn flush(&mut self) {}
}
