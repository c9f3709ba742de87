//! Steps of a certificate's arithmetic.
use tf_model::ids::{JobId, MachineId};

/// The numbers that a step is made of, in time steps unless it is said otherwise.
#[derive(Clone, Copy, Debug, Drop, PartialEq, Eq)]
pub enum Terms {
    /// The total processing time, shared out among the machines and rounded up.
    Load { work: u64, machines: u32 },
    /// The processing time of one job.
    JobTime { job: JobId, time: u64 },
    /// The processing times of one job of a shop, on machine 1 and on machine 2.
    ShopTimes { job: JobId, first: u64, second: u64 },
    /// The total processing time on one machine.
    MachineWork { machine: MachineId, work: u64 },
    /// The weighted processing times, and the weighted waiting times in Smith's order.
    Smith { own: u128, waiting: u128 },
    /// The total processing time of a set.
    SetWork { work: u64 },
    /// The least cost of completing then, over the jobs of a set without a successor in it.
    LeastCost { completion: u64, cost: i128 },
    /// The least release date and the total processing time, less the greatest due date.
    Window { release: u64, work: u64, due: i64 },
    /// The processing times of the side on machine 1, of the others on machine 2, and delta.
    Split { side: u64, others: u128, delta: u64 },
    /// How often the last of so many jobs counts by its rank: the jobs shared out among the
    /// machines, rounded up.
    GreatestFactor { jobs: u64, machines: u32 },
    /// The total processing time, and the least total waiting time.
    Ranks { work: u64, waiting: u128 },
}

/// A step: its numbers, and what they come to.
#[derive(Clone, Copy, Debug, Drop, PartialEq, Eq)]
pub struct Step {
    pub terms: Terms,
    pub result: i128,
}
