//! Writers and readers that meet trouble at one place.

use std::alloc::Global;
use std::io;
use std::io::{ErrorKind, Read, Write};

/// The kinds of errors that aren't retried.
pub const ERRORS: [ErrorKind; 41] = [
    ErrorKind::NotFound,
    ErrorKind::PermissionDenied,
    ErrorKind::ConnectionRefused,
    ErrorKind::ConnectionReset,
    ErrorKind::HostUnreachable,
    ErrorKind::NetworkUnreachable,
    ErrorKind::ConnectionAborted,
    ErrorKind::NotConnected,
    ErrorKind::AddrInUse,
    ErrorKind::AddrNotAvailable,
    ErrorKind::NetworkDown,
    ErrorKind::BrokenPipe,
    ErrorKind::AlreadyExists,
    ErrorKind::WouldBlock,
    ErrorKind::NotADirectory,
    ErrorKind::IsADirectory,
    ErrorKind::DirectoryNotEmpty,
    ErrorKind::ReadOnlyFilesystem,
    ErrorKind::FilesystemLoop,
    ErrorKind::StaleNetworkFileHandle,
    ErrorKind::InvalidInput,
    ErrorKind::InvalidData,
    ErrorKind::TimedOut,
    ErrorKind::WriteZero,
    ErrorKind::StorageFull,
    ErrorKind::NotSeekable,
    ErrorKind::QuotaExceeded,
    ErrorKind::FileTooLarge,
    ErrorKind::ResourceBusy,
    ErrorKind::ExecutableFileBusy,
    ErrorKind::Deadlock,
    ErrorKind::CrossesDevices,
    ErrorKind::TooManyLinks,
    ErrorKind::InvalidFilename,
    ErrorKind::ArgumentListTooLong,
    ErrorKind::Unsupported,
    ErrorKind::UnexpectedEof,
    ErrorKind::OutOfMemory,
    ErrorKind::InProgress,
    ErrorKind::Other,
    ErrorKind::Uncategorized,
];

/// A fault of attempts: `times` attempts fail with this kind, from number `first` on, counted from
/// 1.
#[derive(Clone, Copy, Debug)]
pub struct Failure {
    pub first: usize,
    pub times: usize,
    pub kind: ErrorKind,
}

impl Failure {
    /// No attempt fails.
    pub const NONE: Failure = Failure {
        first: 0,
        times: 0,
        kind: ErrorKind::Other,
    };

    /// One attempt fails, and later ones do not.
    pub fn once(first: usize, kind: ErrorKind) -> Failure {
        Failure {
            first,
            times: 1,
            kind,
        }
    }

    /// Interrupts `times` attempts from number `first` on.
    pub fn interrupted(first: usize, times: usize) -> Failure {
        Failure {
            first,
            times,
            kind: ErrorKind::Interrupted,
        }
    }

    fn meets(self, number: usize) -> io::Result<()> {
        let past = number.wrapping_sub(self.first);
        if past < self.times {
            return Err(io::Error::from(self.kind));
        }
        Ok(())
    }
}

/// A writer that takes at most a piece of what it is given. It counts its writes, and notes how
/// much it had taken at each flush.
#[derive(Drop)]
pub struct Choppy {
    pub taken: Vec<u8>,
    pub writes: usize,
    pub shown: Vec<usize>,
    piece: usize,
    writing: Failure,
    flushing: Failure,
}

impl Choppy {
    pub fn new(alloc: Global, piece: usize, writing: Failure) -> Choppy {
        Choppy {
            taken: Vec::new(alloc),
            writes: 0,
            shown: Vec::new(alloc),
            piece,
            writing,
            flushing: Failure::NONE,
        }
    }

    /// Takes everything, with this fault in its flushes.
    pub fn flushing(alloc: Global, flushing: Failure) -> Choppy {
        Choppy {
            taken: Vec::new(alloc),
            writes: 0,
            shown: Vec::new(alloc),
            piece: usize::MAX,
            writing: Failure::NONE,
            flushing,
        }
    }
}

impl Write for Choppy {
    fn write(&mut self, bytes: &[u8]) -> io::Result<usize> {
        self.writes = self.writes.wrapping_add(1);
        self.writing.meets(self.writes)?;
        let count = bytes.len().min(self.piece);
        self.taken.extend_from_slice(&bytes[..count])?;
        Ok(count)
    }

    fn flush(&mut self) -> io::Result<()> {
        self.shown.push(self.taken.len())?;
        self.flushing.meets(self.shown.len())
    }
}

/// A reader that returns `first` bytes in the first read, and then at most `piece` bytes per read.
#[derive(Drop)]
pub struct Halting<'a> {
    pub rest: &'a [u8],
    pub first: usize,
    pub piece: usize,
    pub reads: usize,
    pub failure: Failure,
}

impl<'a> Halting<'a> {
    pub fn new(rest: &'a [u8], piece: usize, failure: Failure) -> Halting<'a> {
        Halting {
            rest,
            first: 0,
            piece,
            reads: 0,
            failure,
        }
    }
}

impl Read for Halting<'_> {
    fn read(&mut self, buf: &mut [u8]) -> io::Result<usize> {
        self.reads = self.reads.wrapping_add(1);
        self.failure.meets(self.reads)?;
        let most = if self.first > 0 {
            self.first
        } else {
            self.piece
        };
        self.first = 0;
        let count = buf.len().min(self.rest.len()).min(most);
        let (given, rest) = self.rest.split_at(count);
        buf[..count].copy_from_slice(given);
        self.rest = rest;
        Ok(count)
    }
}
