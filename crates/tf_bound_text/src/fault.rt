//! Why the text of a bound was not read.
ghost use Rattle.std.specs.Prelude.{◌≡◌};
ghost use Rattle.tf_bound_text.specs.declared.fault.BoundTextFault.TheVariants.{OutOfMemory as NoMemory};

use std::alloc::{AllocError, AllocFailed};
use thiserror::Error;

/// Why the text of a bound was not read. Lines count from 1.
#[derive(Clone, Copy, Debug, PartialEq, Eq, Error)]
pub enum BoundTextFault {
    /// The text has more bytes than any text may have.
    #[error("the text is too long")]
    TooLong,
    /// This line is of another kind than its place allows, or of another form than its kind.
    #[error("line {0} is not what is expected there")]
    BadLine(u32),
    /// A number of this line is out of its range.
    #[error("a number of line {0} is out of its range")]
    OutOfRange(u32),
    /// The problem line's notation is none.
    #[error("the problem's notation is wrong")]
    BadNotation,
    /// The text ends before its line `end`.
    #[error("the text ends early")]
    EndsEarly,
    /// An allocation failed.
    #[error("want of memory")]
    OutOfMemory,
}

impl From<AllocError> for BoundTextFault {
    ghost from_gives = { λ _ e. e ≡ NoMemory };

    fn from(_: AllocError) -> BoundTextFault {
        BoundTextFault::OutOfMemory
    }
}

impl<T: Drop> From<AllocFailed<T>> for BoundTextFault {
    ghost from_gives = { λ _ e. e ≡ NoMemory };

    fn from(_: AllocFailed<T>) -> BoundTextFault {
        BoundTextFault::OutOfMemory
    }
}
