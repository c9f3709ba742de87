//! Whole texts from a reader.
ghost use Rattle.tf_model.specs.Limit.{most_bytes};
ghost use Rattle.std.specs.Prelude.{◌≡◌, ◌+◌, ◌<◌, ◌≤◌, true, false, length, OnOk, IfOk, OnErr};
ghost use Rattle.std.specs.Prelude.{IfSome, IfErr, IsErr, IsErrOf};
ghost use Rattle.std.specs.Io.KnownBytes.{IsAtEnd};
ghost use Rattle.tf_text.specs.Counted.{inner_of, pulled_of, has_failed, ConsumesAtMost};
ghost use Rattle.tf_text.specs.Input.{is_device, IsTextOf, Drains};
ghost use Rattle.tf_text.specs.declared.input.InputFault.TheVariants.{Device as DeviceFault};

use crate::counted::{Counted, Device};
use std::alloc::Allocator;
use std::io::Read;
use tf_model::limit::MOST_BYTES;
use tf_words::feed::Feed;
use thiserror::Error;

/// A text that is read on the way is pulled by so many bytes.
const CHUNK: usize = 4096;

/// One that is kept, by so many.
const LARGE_CHUNK: usize = 16_384;

/// Why a text was not read.
#[derive(Clone, Copy, Debug, PartialEq, Eq, Error)]
pub enum InputFault {
    /// The reader failed.
    #[error("device fault")]
    Device,
    /// The text has more than [`MOST_BYTES`] bytes.
    #[error("the text is too long")]
    TooLong,
    /// A growth was refused.
    #[error("want of memory")]
    OutOfMemory,
}

impl From<Device> for InputFault {
    ghost from_gives = { λ _ e. e ≡ DeviceFault };

    fn from(_: Device) -> InputFault {
        InputFault::Device
    }
}

/// Feeds what the reader gives, by pieces of the length of a chunk at most.
fn drain_by<R: Read, F: Feed>(
    reader: &mut Counted<R>,
    into: &mut F,
    chunk: &mut [u8],
) -> Result<(), Device>
    requires { 0 < length chunk.old }
    ensures taken { Drains F.Takes (R.remaining (inner_of reader.old))
        (R.remaining (inner_of reader.new))
        into.old into.new result }
    ensures counted { pulled_of reader.new ≤ pulled_of reader.old + (most_bytes + 1) }
    ensures unfailed { OnOk result (has_failed reader.new ≡ false) }
    ensures device { OnErr result (has_failed reader.new ≡ true) }
    ensures failed_before { has_failed reader.old ≡ true → IsErr result
        × (reader.new ≡ reader.old) }
{
    let mut left = MOST_BYTES + 1;
    while left > 0 {
        let most = chunk.len().min(left);
        let n = reader.pull(&mut chunk[..most])?;
        if n == 0 {
            return Ok(());
        }
        into.feed(&chunk[..n]);
        left -= n;
    }
    Ok(())
}

/// Feeds what the reader gives up to its end, or one byte more than [`MOST_BYTES`] where there are
/// more.
///
/// Where the reader fails, what it gave before was fed.
pub fn drain<R: Read, F: Feed>(reader: &mut Counted<R>, into: &mut F) -> Result<(), Device>
    ensures taken { Drains F.Takes (R.remaining (inner_of reader.old))
        (R.remaining (inner_of reader.new))
        into.old into.new result }
    ensures counted { pulled_of reader.new ≤ pulled_of reader.old + (most_bytes + 1) }
    ensures unfailed { OnOk result (has_failed reader.new ≡ false) }
    ensures device { OnErr result (has_failed reader.new ≡ true) }
    ensures failed_before { has_failed reader.old ≡ true → IsErr result
        × (reader.new ≡ reader.old) }
{
    drain_by(reader, into, &mut [0u8; CHUNK])
}

// A text that is kept, as far as there was memory for it.
#[derive(Drop)]
struct Kept<A: Allocator> {
    text: Vec<u8, A>,
    is_whole: bool,
}

impl<A: Allocator> Feed for Kept<A> {
    ghost use Rattle.std.specs.Prelude.{◌≡◌, ◌++◌, true};
    ghost use Rattle.std.proofs.Common.{sym, ap, ◌∙◌, append_assoc};
    ghost use Rattle.std.proofs.lemmas.List.{append-nil};

    ghost Takes = { λ old piece new. new.is_whole ≡ true →
        (old.is_whole ≡ true) × (new.text.items ≡ old.text.items ++ piece) };

    fn feed(&mut self, piece: &[u8]) {
        if self.is_whole {
            self.is_whole = self.text.extend_from_slice(piece).is_ok();
        }
    }

    ghost took_nothing = { λ x whole. (whole, sym (append-nil x.text.items)) };

    ghost took_both = { λ x y z front back first second whole.
        let after = second whole in
        let before = first after.0 in (
          before.0,
          after.1 ∙ ap (λ bs. bs ++ back) before.1
              ∙ append_assoc x.text.items front back,
        ) };
}

/// All bytes that the reader gives up to its end. It takes no more than one byte past
/// [`MOST_BYTES`].
pub fn read_all<A: Allocator, R: Read>(
    alloc: A,
    reader: &mut Counted<R>,
) -> Result<Vec<u8, A>, InputFault>
    ensures text { IfOk result (λ text. IsTextOf (R.remaining (inner_of reader.old)) text.items) }
    ensures fits { IfOk result (λ text. length text.items ≤ most_bytes) }
    ensures end { OnOk result (IsAtEnd (R.remaining (inner_of reader.new))) }
    ensures too_long { IsErrOf result InputFault.TooLong →
        IfSome (R.remaining (inner_of reader.old)) (λ all. most_bytes < length all) }
    ensures unfailed { OnOk result (has_failed reader.new ≡ false) }
    ensures device { IfErr result (λ e. has_failed reader.new ≡ is_device e) }
    ensures pulled { ConsumesAtMost (most_bytes + 1) (R.remaining (inner_of reader.old))
        (R.remaining (inner_of reader.new)) }
    ensures counted { pulled_of reader.new ≤ pulled_of reader.old + (most_bytes + 1) }
    ensures failed_before { has_failed reader.old ≡ true →
        IsErrOf result InputFault.Device × (reader.new ≡ reader.old) }
{
    let mut kept = Kept {
        text: Vec::new(alloc),
        is_whole: true,
    };
    drain_by(reader, &mut kept, &mut [0u8; LARGE_CHUNK])?;
    let Kept { text, is_whole } = kept;
    if !is_whole {
        return Err(InputFault::OutOfMemory);
    }
    if text.len() > MOST_BYTES {
        return Err(InputFault::TooLong);
    }
    Ok(text)
}
