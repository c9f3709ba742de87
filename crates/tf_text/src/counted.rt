//! Readers and writers that remember a failure, and readers that count what they gave.
ghost use Rattle.std.specs.Prelude.{◌≡◌, ℕ, ◌<◌, ◌≤◌, true, false, length, take, OnOk, OnErr, IfOk};
ghost use Rattle.std.specs.Prelude.{IsErr};
ghost use Rattle.std.specs.Io.KnownBytes.{Keeps, Appends, Consumes, IsAtEnd};

use std::io::{Read, Write};
use thiserror::Error;

/// A call of the reader or the writer failed, now or before.
#[derive(Clone, Copy, Debug, PartialEq, Eq, Error)]
#[error("device fault")]
pub struct Device;

/// A reader or a writer, how many bytes were pulled from it, as far as 64 bits count, and whether
/// it has failed. After a failure it is not called again.
#[derive(Drop)]
pub struct Counted<T> {
    inner: T,
    pulled: u64,
    failed: bool,
}

impl<T> Counted<T> {
    ghost use Rattle.tf_text.specs.Counted.{inner_of, pulled_of, has_failed};

    /// Wraps a reader or a writer that has not failed, and from which nothing was pulled.
    pub fn new(inner: T) -> Counted<T>
        ensures inner { inner_of result ≡ inner }
        ensures unpulled { pulled_of result ≡ 0 }
        ensures unfailed { has_failed result ≡ false }
    {
        Counted {
            inner,
            pulled: 0,
            failed: false,
        }
    }

    /// What is wrapped.
    pub fn inner(&self) -> &T
        ensures { result.now ≡ inner_of self.now }
    {
        &self.inner
    }

    /// How many bytes were pulled. Beyond 64 bits it stays at the greatest number.
    pub fn pulled(&self) -> u64
        ensures { result ≡ pulled_of self.now }
    {
        self.pulled
    }

    /// Whether a call of the reader or the writer has failed.
    pub fn failed(&self) -> bool
        ensures { result ≡ has_failed self.now }
    {
        self.failed
    }

    fn fail(&mut self) -> Device
        ensures { self.new ≡ record self.old { failed = true } }
    {
        self.failed = true;
        Device
    }
}

impl<R: Read> Counted<R> {
    ghost use Rattle.tf_text.specs.Counted.{inner_of, pulled_of, has_failed, CountsMore};

    /// Hands on the reader's next bytes, and tells how many. None in a slice that is not empty is
    /// the end. Every error of the reader counts as a failure, an interruption among them.
    pub fn pull(&mut self, buf: &mut [u8]) -> Result<usize, Device>
        ensures within { IfOk result (λ n. n ≤ length buf.new) }
        ensures bytes { IfOk result (λ n. Consumes (R.remaining (inner_of self.old))
            (R.remaining (inner_of self.new)) (take n buf.new)) }
        ensures counted { IfOk result
            (λ n. CountsMore n (pulled_of self.old) (pulled_of self.new)) }
        ensures uncounted { OnErr result (pulled_of self.new ≡ pulled_of self.old) }
        ensures end { IfOk result (λ n. n ≡ 0 → 0 < length buf.new →
            IsAtEnd (R.remaining (inner_of self.new))) }
        ensures kept { OnErr result (Keeps (R.remaining (inner_of self.old))
            (R.remaining (inner_of self.new))) }
        ensures unfailed { OnOk result (has_failed self.new ≡ false) }
        ensures device { OnErr result (has_failed self.new ≡ true) }
        ensures failed_before { has_failed self.old ≡ true →
            IsErr result × (self.new ≡ self.old) × (buf.new ≡ buf.old) }
    {
        if self.failed {
            return Err(Device);
        }
        match self.inner.read(buf) {
            Ok(n) => {
                self.pulled = self.pulled.saturating_add(n as u64);
                Ok(n)
            }
            Err(_) => Err(self.fail()),
        }
    }
}

impl<W: Write> Counted<W> {
    ghost use Rattle.tf_text.specs.Counted.{inner_of, has_failed, AppendsPrefix};

    /// Writes all the bytes, in as many calls as it takes, or a prefix of them before a failure.
    /// Every error of the writer counts as a failure, and so does a write of 0 bytes.
    pub fn push_all(&mut self, bytes: &[u8]) -> Result<(), Device>
        ensures written { OnOk result (Appends (W.contents (inner_of self.old))
            (W.contents (inner_of self.new)) bytes.now) }
        ensures prefix { OnErr result (AppendsPrefix (W.contents (inner_of self.old))
            (W.contents (inner_of self.new)) bytes.now) }
        ensures unfailed { OnOk result (has_failed self.new ≡ false) }
        ensures device { OnErr result (has_failed self.new ≡ true) }
        ensures failed_before { has_failed self.old ≡ true →
            IsErr result × (self.new ≡ self.old) }
    {
        let mut at = 0;
        if self.failed {
            return Err(Device);
        }
        while at < bytes.len() {
            match self.inner.write(&bytes[at..]) {
                Ok(n) if n > 0 => at += n,
                _ => return Err(self.fail()),
            }
        }
        Ok(())
    }
}
