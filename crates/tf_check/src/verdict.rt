//! What a check of an answer says.
use crate::fault::BoundFault;
use tf_schedule::fit::Misfit;
use tf_schedule::schedule::PieceFault;

/// Why an answer is rejected: the first that applies.
#[derive(Debug, Drop, PartialEq, Eq)]
pub enum Reason {
    /// The pieces make no schedule.
    Pieces(PieceFault),

    /// The schedule does not fit the task.
    Misfit(Misfit),

    /// The value is not what the schedule costs.
    WrongValue,

    /// The certificate bounds nothing.
    Bound(BoundFault),

    /// The certificate's bound is below the value.
    BoundBelowValue,
}

/// What a check says of an answer.
#[derive(Debug, Drop, PartialEq, Eq)]
pub enum Verdict {
    /// The answer is best.
    Accepted,

    /// The answer is not shown to be best.
    Rejected(Reason),
}
