//! Why a schedule does not fit the task of a problem.
use crate::fit::Misfit;
use tf_model::ids::JobId;
use thiserror::Error;

/// Why a schedule does not fit the task of a problem, in the order in which it is judged: each kind
/// over all jobs before the next, always with the smallest job.
#[derive(Clone, Copy, Debug, Drop, PartialEq, Eq, Error)]
pub enum ProblemMisfit {
    /// What a schedule of a class may break too. Memory is never the reason.
    #[error("{0}")]
    Plain(Misfit),
    /// In a flow shop: the job is on a machine before it is over on an earlier one.
    #[error("job {} visits the machines in another order", .0.get())]
    OffRoute(JobId),
    /// There is no order in which the jobs pass all machines.
    #[error("the jobs pass the machines in different orders")]
    NoOneOrder,
    /// The job waits after its first start and before it is over.
    #[error("job {} waits", .0.get())]
    Waits(JobId),
}
