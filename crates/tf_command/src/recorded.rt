//! Sources that keep what they gave, so that it can be explained when a run over them has ended.
ghost use Rattle.std.specs.Prelude.{◌≡◌, IfOk, take};
ghost use Rattle.std.specs.Io.{ReadsAtMost};
ghost use Rattle.std.specs.Io.KnownBytes.{ReadConsumes};
ghost use Rattle.tf_command.specs.Recorded.{KeepsMore, kept_of, bytes_left};

use std::alloc::Global;
use std::io;
use std::io::Read;
use tf_advice::source::Source;
use tf_model::limit::MOST_BYTES;

/// The most bytes that are kept of a text: as many as a text may have.
pub const MOST_KEPT: usize = MOST_BYTES;

/// The most bytes that are kept of an answer beside its instance: 24 MiB, several times what an
/// answer to the longest instance takes.
pub const MOST_BESIDE: usize = 25_165_824;

/// Room for a text of about this many bytes, of which so many are kept at most; none where it is
/// too long to be kept, or where there is no memory.
pub fn room(alloc: Global, size: Option<usize>, most: usize) -> Option<Vec<u8>> {
    match size {
        Some(size) if size > most => None,
        Some(size) => Vec::with_capacity(alloc, size).ok(),
        None => Some(Vec::new(alloc)),
    }
}

/// A source that was opened, its name, the bytes that it gave, where they are kept, and why it
/// failed, if it did.
#[derive(Drop)]
pub struct Recorded<'a, R> {
    name: &'a str,
    inner: R,
    most: usize,
    kept: Option<Vec<u8>>,
    error: Option<io::Error>,
}

impl<'a, R> Recorded<'a, R> {
    /// A source of which nothing was read, and of which this many bytes are kept at most.
    pub fn new(name: &'a str, inner: R, most: usize, kept: Option<Vec<u8>>) -> Recorded<'a, R>
        ensures { result.inner ≡ inner }
    {
        Recorded {
            name,
            inner,
            most,
            kept,
            error: None,
        }
    }

    /// The name and the bytes that the source gave, where all of them were kept.
    pub fn source(&self) -> Option<Source<'_>> {
        match &self.kept {
            Some(text) => Some(Source {
                name: self.name,
                text: text.as_slice(),
            }),
            None => None,
        }
    }

    /// What failed, and why.
    pub fn failure(&self) -> Option<(&'a str, io::Error)> {
        let error = self.error?;
        Some((self.name, error))
    }

    /// Keeps these bytes behind the others, or nothing any longer where they are too many or there
    /// is no memory.
    fn keep(&mut self, bytes: &[u8])
        ensures inner { self.new.inner ≡ self.old.inner }
        ensures kept { KeepsMore (kept_of self.old) (kept_of self.new) bytes.now }
    {
        let most = self.most;
        let is_kept = match &mut self.kept {
            Some(text) => {
                text.len().saturating_add(bytes.len()) <= most
                    && text.extend_from_slice(bytes).is_ok()
            }
            None => true,
        };
        if !is_kept {
            self.kept = None;
        }
    }
}

impl<R: Read> Read for Recorded<'_, R> {
    ghost remaining = { bytes_left R.remaining };

    fn read(&mut self, buf: &mut [u8]) -> io::Result<usize>
        ensures bound { ReadsAtMost result buf.new }
        ensures bytes { ReadConsumes (bytes_left R.remaining self.old)
            (bytes_left R.remaining self.new) result buf.new }
        ensures kept { IfOk result
            (λ n. KeepsMore (kept_of self.old) (kept_of self.new) (take n buf.new)) }
    {
        match self.inner.read(buf) {
            Ok(n) => {
                self.keep(&buf[..n]);
                Ok(n)
            }
            Err(error) => {
                self.error = Some(error);
                Err(error)
            }
        }
    }
}
