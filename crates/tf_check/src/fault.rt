//! Why a certificate bounds nothing.
use tf_model::ids::{JobId, MachineId};
use thiserror::Error;

/// Why a certificate bounds nothing on a task.
#[derive(Clone, Copy, Debug, PartialEq, Eq, Error)]
pub enum BoundFault {
    /// The kind bounds no task of this class.
    #[error("the certificate's kind is not for this class")]
    OtherKind,

    /// The task does not have this machine.
    #[error("the task has no machine {}", .0.get())]
    BadMachine(MachineId),

    /// The task does not have this job.
    #[error("the task has no job {}", .0.get())]
    BadJob(JobId),

    /// The list names this job twice.
    #[error("job {} stands twice", .0.get())]
    Repeated(JobId),

    /// The list has no job.
    #[error("the list is empty")]
    EmptySet,

    /// This job breaks the kind's condition.
    #[error("job {} breaks the certificate's condition", .0.get())]
    Condition(JobId),

    /// The delta is negative, or no job of its side reaches it.
    #[error("delta is negative or not reached")]
    BadDelta,

    /// A growth was refused.
    #[error("want of memory")]
    OutOfMemory,
}
