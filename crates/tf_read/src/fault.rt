//! Why a text holds no instance.
ghost use Rattle.std.specs.Prelude.{◌≡◌};
ghost use Rattle.tf_read.specs.declared.fault.ReadFault.TheVariants.{OutOfMemory};

use std::alloc::{AllocError, AllocFailed};
use tf_model::memory::OutOfMemory as NoMemory;
use thiserror::Error;

/// Why a text holds no instance: the first fault from its front on. A fault's number is that of its
/// line, from 1.
#[derive(Clone, Copy, Debug, PartialEq, Eq, Error)]
pub enum ReadFault {
    /// The text has more than [`MOST_BYTES`](tf_model::limit::MOST_BYTES) bytes.
    #[error("the text is too long")]
    TooLong,
    /// A word should be a number and is none.
    #[error("line {0}: a word is no number")]
    BadNumber(u32),
    /// The absolute value of a number is above the limit.
    #[error("line {0}: a number is too large")]
    NumberTooLarge(u32),
    /// A time, a weight or a release date is negative.
    #[error("line {0}: a number is negative")]
    Negative(u32),
    /// The text ends before the instance does.
    #[error("the text ends early")]
    EndsEarly,
    /// The instance that was asked for is not there.
    #[error("there is no such instance")]
    NoInstance,
    /// The machines of a job are not in their order.
    #[error("line {0}: the machines are not in their order")]
    NotAFlowShop(u32),
    /// The two machines that were asked for are the same, or one of them is not there.
    #[error("there is no such pair of machines")]
    BadPair,
    /// The line is of another kind or form than its place allows.
    #[error("line {0}: another line is wanted")]
    BadLine(u32),
    /// The cost of a job falls, or its times do not rise.
    #[error("line {0}: the times of a cost do not rise, or its values fall")]
    BadCost(u32),
    /// The instance has no job, or none was asked for.
    #[error("there is no job")]
    NoJobs,
    /// There are more than [`MOST_JOBS`](tf_model::limit::MOST_JOBS) jobs.
    #[error("there are too many jobs")]
    TooManyJobs,
    /// There are more than [`MOST_ARCS`](tf_model::limit::MOST_ARCS) arcs.
    #[error("there are too many arcs")]
    TooManyArcs,
    /// An arc names a job that is not there.
    #[error("line {0}: an arc names a job that is not there")]
    BadArc(u32),
    /// A growth was refused.
    #[error("want of memory")]
    OutOfMemory,
}

impl From<AllocError> for ReadFault {
    ghost from_gives = { λ _ e. e ≡ OutOfMemory };

    fn from(_: AllocError) -> ReadFault {
        ReadFault::OutOfMemory
    }
}

impl From<NoMemory> for ReadFault {
    ghost from_gives = { λ _ e. e ≡ OutOfMemory };

    fn from(_: NoMemory) -> ReadFault {
        ReadFault::OutOfMemory
    }
}

impl<T: Drop> From<AllocFailed<T>> for ReadFault {
    ghost from_gives = { λ _ e. e ≡ OutOfMemory };

    fn from(_: AllocFailed<T>) -> ReadFault {
        ReadFault::OutOfMemory
    }
}
