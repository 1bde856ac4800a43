//! Readers and writers over arrays.
ghost use Rattle.std.specs.Prelude.{IfOk, ◌≡◌, ◌≤◌};

use std::io::{self, ErrorKind, Read, Write};

/// The behavior of a stream from its call `at` on, at that call alone, or up to that call.
#[derive(Clone, Copy, PartialEq, Eq)]
pub(crate) enum Fault {
    Fails,
    IsInterrupted,
    IsInterruptedOnce,
    IsInterruptedUpTo,
    TakesNothing,
}

impl Fault {
    /// Whether a call is faulty.
    fn comes(self, call: usize, at: usize) -> bool {
        match self {
            Fault::IsInterruptedOnce => call == at,
            Fault::IsInterruptedUpTo => call <= at,
            _ => call >= at,
        }
    }
}

/// A reader that gives its bytes, at most a given number per call, up to its fault.
#[derive(Drop)]
pub(crate) struct Source<'a> {
    pub(crate) bytes: &'a [u8],
    pub(crate) most: usize,
    pub(crate) fault: Fault,
    pub(crate) at: usize,
    pub(crate) calls: usize,
    /// The least number of bytes that a call asked for.
    pub(crate) least: usize,
}

impl<'a> Source<'a> {
    /// A source without a fault.
    pub(crate) fn of(bytes: &'a [u8]) -> Source<'a> {
        Source::with_fault(bytes, Fault::Fails, usize::MAX)
    }

    /// A source with a fault from its call `at` on.
    pub(crate) fn with_fault(bytes: &'a [u8], fault: Fault, at: usize) -> Source<'a> {
        Source {
            bytes,
            most: 3,
            fault,
            at,
            calls: 0,
            least: usize::MAX,
        }
    }
}

impl Read for Source<'_> {
    fn read(&mut self, buf: &mut [u8]) -> io::Result<usize> {
        self.calls = self.calls.saturating_add(1);
        self.least = self.least.min(buf.len());
        if self.fault.comes(self.calls, self.at) {
            return faulty(self.fault);
        }
        let count = self.bytes.len().min(buf.len()).min(self.most);
        let (piece, rest) = self.bytes.split_at(count);
        buf[..count].copy_from_slice(piece);
        self.bytes = rest;
        Ok(count)
    }
}

/// The number of bytes that a sink can hold.
pub(crate) const PAPER: usize = 512;

/// A writer that takes two bytes per call, up to its fault, while it has room.
#[derive(Drop)]
pub(crate) struct Sink {
    paper: [u8; PAPER],
    len: usize,
    fault: Fault,
    at: usize,
    pub(crate) calls: usize,
    ghost in_range: { len ≤ 512 },
}

impl Sink {
    /// A sink without a fault.
    pub(crate) fn new() -> Sink {
        Sink::with_fault(Fault::Fails, usize::MAX)
    }

    /// A sink with a fault from its call `at` on.
    pub(crate) fn with_fault(fault: Fault, at: usize) -> Sink {
        Sink {
            paper: [0; PAPER],
            len: 0,
            fault,
            at,
            calls: 0,
        }
    }

    /// The bytes that were written.
    pub(crate) fn written(&self) -> &[u8] {
        &self.paper[..self.len]
    }
}

impl Write for Sink {
    fn write(&mut self, buf: &[u8]) -> io::Result<usize> {
        self.calls = self.calls.saturating_add(1);
        if self.fault.comes(self.calls, self.at) {
            return faulty(self.fault);
        }
        let count = buf.len().min(2).min(PAPER - self.len);
        self.paper[self.len..self.len + count].copy_from_slice(&buf[..count]);
        self.len += count;
        Ok(count)
    }

    fn flush(&mut self) -> io::Result<()> {
        Ok(())
    }
}

/// The result of a faulty call.
fn faulty(fault: Fault) -> io::Result<usize>
    ensures { IfOk result (λ count. count ≡ 0) }
{
    match fault {
        Fault::Fails => Err(io::Error::from(ErrorKind::Other)),
        Fault::IsInterrupted | Fault::IsInterruptedOnce | Fault::IsInterruptedUpTo => {
            Err(io::Error::from(ErrorKind::Interrupted))
        }
        Fault::TakesNothing => Ok(0),
    }
}
