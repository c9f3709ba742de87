//! A reader and a writer that take part in no operating system: they give and take little at a
//! time, fail where they are told to, and count their calls.
use std::alloc::Global;
use std::io;
use std::io::{ErrorKind, Read, Write};

/// In which way a call fails.
#[derive(Clone, Copy, PartialEq, Eq)]
pub enum Way {
    Error,
    Interruption,
    /// A writer takes no byte. (A reader that gives none is at its end.)
    NoByte,
}

/// The call of a device that fails.
#[derive(Clone, Copy)]
pub struct Failure {
    /// Which call, counted from 1.
    pub call: u64,
    pub way: Way,
    /// Whether the calls after it work again.
    pub heals: bool,
}

impl Failure {
    /// This call is an error, and those after it work.
    pub fn once(call: u64) -> Failure {
        Failure {
            call,
            way: Way::Error,
            heals: true,
        }
    }
}

/// The calls of a device, one of which fails.
#[derive(Clone, Copy)]
struct Calls {
    made: u64,
    failure: Option<Failure>,
}

impl Calls {
    /// Before the first call.
    fn new(failure: Option<Failure>) -> Calls {
        Calls { made: 0, failure }
    }

    /// Counts one more call, and tells in which way it fails if it does.
    fn next(&mut self) -> Option<Way> {
        self.made = self.made.wrapping_add(1);
        let failure = self.failure?;
        let fails = self.made == failure.call || !failure.heals && self.made > failure.call;
        if fails { Some(failure.way) } else { None }
    }
}

fn error_of(way: Way) -> io::Error {
    match way {
        Way::Interruption => io::Error::from(ErrorKind::Interrupted),
        Way::Error | Way::NoByte => io::Error::from(ErrorKind::Other),
    }
}

/// A reader of a text, or of a text over and over.
#[derive(Drop)]
pub struct Source<'a> {
    text: &'a [u8],
    rest: &'a [u8],
    // How many bytes are still to come.
    left: usize,
    step: usize,
    calls: Calls,
    given: u64,
}

impl<'a> Source<'a> {
    /// A reader of the text that gives all it can and never fails.
    pub fn new(text: &'a [u8]) -> Source<'a> {
        Source::repeating(text, text.len())
    }

    /// A reader of so many bytes, the text over and over.
    pub fn repeating(text: &'a [u8], bytes: usize) -> Source<'a> {
        Source {
            text,
            rest: text,
            left: bytes,
            step: usize::MAX,
            calls: Calls::new(None),
            given: 0,
        }
    }

    /// A reader of the text over and over, without an end.
    pub fn endless(text: &'a [u8]) -> Source<'a> {
        Source::repeating(text, usize::MAX)
    }

    /// The same with at most so many bytes a call.
    pub fn by(mut self, step: usize) -> Source<'a> {
        self.step = step;
        self
    }

    /// The same with a call that fails.
    pub fn failing(mut self, failure: Failure) -> Source<'a> {
        self.calls = Calls::new(Some(failure));
        self
    }

    /// How often it was called.
    pub fn calls(&self) -> u64 {
        self.calls.made
    }

    /// How many bytes it gave.
    pub fn given(&self) -> u64 {
        self.given
    }
}

impl Read for Source<'_> {
    fn read(&mut self, buf: &mut [u8]) -> io::Result<usize> {
        if let Some(way) = self.calls.next() {
            return Err(error_of(way));
        }
        if self.rest.is_empty() {
            self.rest = self.text;
        }
        let most = self.left.min(self.rest.len());
        let n = self.step.min(buf.len()).min(most);
        buf[..n].copy_from_slice(&self.rest[..n]);
        self.rest = &self.rest[n..];
        self.left -= n;
        self.given = self.given.wrapping_add(n as u64);
        Ok(n)
    }
}

/// A writer that keeps what it takes.
#[derive(Drop)]
pub struct Sink {
    taken: Vec<u8>,
    step: usize,
    calls: Calls,
}

impl Sink {
    /// A writer that takes all it is given and never fails.
    pub fn new(alloc: Global) -> Sink {
        Sink {
            taken: Vec::new(alloc),
            step: usize::MAX,
            calls: Calls::new(None),
        }
    }

    /// The same with at most so many bytes a call.
    pub fn by(mut self, step: usize) -> Sink {
        self.step = step;
        self
    }

    /// The same with a call that fails.
    pub fn failing(mut self, failure: Failure) -> Sink {
        self.calls = Calls::new(Some(failure));
        self
    }

    /// What it took.
    pub fn taken(&self) -> &[u8] {
        &self.taken
    }

    /// How often it was called.
    pub fn calls(&self) -> u64 {
        self.calls.made
    }
}

impl Write for Sink {
    fn write(&mut self, buf: &[u8]) -> io::Result<usize> {
        match self.calls.next() {
            Some(Way::NoByte) => return Ok(0),
            Some(way) => return Err(error_of(way)),
            None => {}
        }
        let n = self.step.min(buf.len());
        self.taken.extend_from_slice(&buf[..n])?;
        Ok(n)
    }

    fn flush(&mut self) -> io::Result<()> {
        Ok(())
    }
}
