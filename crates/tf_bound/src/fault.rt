//! Why a task or a certificate is refused.
ghost use Rattle.std.specs.Prelude.{◌≡◌};
ghost use Rattle.tf_bound.specs.declared.fault.BoundFault.TheVariants.{OutOfMemory as NoMemory};

use tf_model::ids::JobId;
use tf_model::memory::OutOfMemory;
use thiserror::Error;

/// Why a task of a problem is refused.
#[derive(Clone, Copy, Debug, PartialEq, Eq, Error)]
pub enum TaskFault {
    /// The definitions say nothing of this problem.
    #[error("no definition covers this problem")]
    NotCovered,

    /// It has no job or too many.
    #[error("there is no job, or there are too many")]
    Jobs,

    /// It has no machine, too many, or more than one where the problem has one.
    #[error("the number of machines is wrong")]
    Machines,

    /// The job at this place, counted from 0, does not have the times that the problem asks for, or
    /// it has a number beyond the limit.
    #[error("the job at place {0} has wrong times")]
    Times(usize),

    /// A number or a total is beyond the limit.
    #[error("a number or a total is beyond the limit")]
    TooLarge,

    /// An arc names a job that is not there.
    #[error("an arc names a job that is not there")]
    Arc,
}

/// Why a certificate bounds nothing.
#[derive(Clone, Copy, Debug, PartialEq, Eq, Error)]
pub enum BoundFault {
    /// The kind bounds no task of this problem.
    #[error("the certificate's kind is not for this problem")]
    OtherKind,

    /// The denominator is 0.
    #[error("the denominator is 0")]
    NoDenominator,

    /// The task does not have this machine, counted from 0.
    #[error("the task has no machine {0}")]
    BadMachine(usize),

    /// The task does not have this job.
    #[error("the task has no job {}", .0.get())]
    BadJob(JobId),

    /// The list names this job twice.
    #[error("job {} stands twice", .0.get())]
    Repeated(JobId),

    /// The list has no job, or too few.
    #[error("the list has too few jobs")]
    TooFew,

    /// There are not as many numerators as jobs, or as arcs.
    #[error("there are not as many numerators as jobs or arcs")]
    Numerators,

    /// This job breaks the kind's condition.
    #[error("job {} breaks the certificate's condition", .0.get())]
    Condition(JobId),

    /// The first of two machines does not come before the second.
    #[error("the first machine does not come before the second")]
    MachineOrder,

    /// No job that has to reach the certificate's delta does.
    #[error("no job reaches delta")]
    BadDelta,

    /// The machines have room for all that the jobs have to do in the interval.
    #[error("the machines have room for the work in the interval")]
    HasRoom,

    /// A number of the certificate is beyond the limit.
    #[error("a number of the certificate is beyond the limit")]
    TooLarge,

    /// An allocation failed.
    #[error("want of memory")]
    OutOfMemory,
}

impl From<OutOfMemory> for BoundFault {
    ghost from_gives = { λ _ e. e ≡ NoMemory };

    fn from(_: OutOfMemory) -> BoundFault {
        BoundFault::OutOfMemory
    }
}
