//! From a reader of the text of a bound to the sheet that it says.
ghost use Rattle.std.specs.Prelude.{◌≡◌, ◌+◌, ◌≤◌, false, OnOk};
ghost use Rattle.tf_model.specs.Limit.{most_bytes};
ghost use Rattle.tf_text.specs.Counted.{inner_of, pulled_of, has_failed, use_of, ConsumesAtMost};
ghost use Rattle.tf_assess.specs.BoundRead.{of_text, ReadsBound};

use std::alloc::Allocator;
use std::io::Read;
use tf_bound_text::fault::BoundTextFault;
use tf_bound_text::reading::read_bound;
use tf_bound_text::sheet::BoundSheet;
use tf_text::counted::Counted;
use tf_text::input::{InputFault, read_all};
use thiserror::Error;

/// Why no bound was read. Want of memory is never within another variant.
#[derive(Clone, Copy, Debug, PartialEq, Eq, Error)]
pub enum BoundReadFault {
    /// The text is at fault.
    #[error("the bound's text is at fault: {0}")]
    Text(BoundTextFault),
    /// The reader failed.
    #[error("device fault")]
    Device,
    /// An allocation failed.
    #[error("want of memory")]
    OutOfMemory,
}

impl From<BoundTextFault> for BoundReadFault {
    ghost from_gives = { λ f e. e ≡ of_text f };

    fn from(fault: BoundTextFault) -> BoundReadFault {
        match fault {
            BoundTextFault::OutOfMemory => BoundReadFault::OutOfMemory,
            fault => BoundReadFault::Text(fault),
        }
    }
}

/// The sheet that the reader's text says.
pub fn bound_read<A: Allocator + Copy, R: Read>(
    alloc: A,
    reader: &mut Counted<R>,
) -> Result<BoundSheet<A>, BoundReadFault>
    ensures read { ReadsBound (use_of R.remaining reader.old reader.new) result }
    ensures unfailed { OnOk result (has_failed reader.new ≡ false) }
    ensures pulled { ConsumesAtMost (most_bytes + 1) (R.remaining (inner_of reader.old))
        (R.remaining (inner_of reader.new)) }
    ensures counted { pulled_of reader.new ≤ pulled_of reader.old + (most_bytes + 1) }
{
    match read_all(alloc, reader) {
        Ok(text) => Ok(read_bound(alloc, text.as_slice())?),
        Err(InputFault::TooLong) => Err(BoundReadFault::Text(BoundTextFault::TooLong)),
        Err(InputFault::Device) => Err(BoundReadFault::Device),
        Err(InputFault::OutOfMemory) => Err(BoundReadFault::OutOfMemory),
    }
}
