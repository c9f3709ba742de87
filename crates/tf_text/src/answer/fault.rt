//! Why an answer text was not read.
ghost use Rattle.std.specs.Prelude.{◌≡◌};
ghost use Rattle.tf_text.specs.declared.answer.fault.AnswerFault.TheVariants.{OutOfMemory as MemoryFault};

use std::alloc::{AllocError, AllocFailed};
use thiserror::Error;

/// Why an answer text was not read. Lines count from 1.
#[derive(Clone, Copy, Debug, PartialEq, Eq, Error)]
pub enum AnswerFault {
    /// The text has more bytes than any text may have.
    #[error("the text is too long")]
    TooLong,
    /// This line is of another kind than its place allows or of another form than its kind, or one
    /// of its jobs or machines is below 1.
    #[error("line {0} is not what is expected there")]
    BadLine(u32),
    /// A number of this line is out of its range.
    #[error("a number of line {0} is out of range")]
    NumberTooLarge(u32),
    /// The problem line's notation is none.
    #[error("the problem's notation is wrong")]
    BadNotation,
    /// The text ends before its line `end`.
    #[error("the text ends early")]
    EndsEarly,
    /// A growth was refused.
    #[error("want of memory")]
    OutOfMemory,
}

impl From<AllocError> for AnswerFault {
    ghost from_gives = { λ _ e. e ≡ MemoryFault };

    fn from(_: AllocError) -> AnswerFault {
        AnswerFault::OutOfMemory
    }
}

impl<T: Drop> From<AllocFailed<T>> for AnswerFault {
    ghost from_gives = { λ _ e. e ≡ MemoryFault };

    fn from(_: AllocFailed<T>) -> AnswerFault {
        AnswerFault::OutOfMemory
    }
}
