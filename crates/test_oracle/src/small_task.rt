//! Tasks so small that all their timetables can be looked at.
use tf_model::ids::JobId;

/// What the jobs run on.
#[derive(Clone, Copy, PartialEq, Eq)]
pub enum Machines {
    /// One machine.
    Single,
    /// So many identical machines in parallel.
    Parallel(u32),
    /// Two machines, which every job visits in their order.
    FlowShop,
    /// Two machines, which a job visits in any order.
    OpenShop,
}

/// What is minimized.
#[derive(Clone, Copy, PartialEq, Eq)]
pub enum Objective {
    /// The greatest completion time.
    Makespan,
    /// The greatest lateness: the completion time minus the due date.
    Lateness,
    /// The greatest cost of a completion time.
    Cost,
    /// The total completion time.
    Completions,
    /// The total weighted completion time.
    WeightedCompletions,
}

impl Objective {
    /// Whether it adds up what the jobs contribute; else it is the greatest of that.
    pub fn is_sum(self) -> bool {
        matches!(
            self,
            Objective::Completions | Objective::WeightedCompletions
        )
    }
}

/// A machine environment, conditions and an objective.
#[derive(Clone, Copy, PartialEq, Eq)]
pub struct Kind {
    pub machines: Machines,
    /// Whether jobs have release dates.
    pub is_released: bool,
    /// Whether arcs order the jobs.
    pub is_ordered: bool,
    /// Whether a job may be preempted.
    pub may_break: bool,
    pub objective: Objective,
}

impl Kind {
    /// One machine, no condition, and the total completion time.
    pub const PLAIN: Kind = Kind {
        machines: Machines::Single,
        is_released: false,
        is_ordered: false,
        may_break: false,
        objective: Objective::Completions,
    };
}

/// What completing costs, by the time.
#[derive(Clone, Copy, PartialEq, Eq)]
pub enum Cost {
    /// 1 at each time.
    Flat,
    /// 0, 2 from time 2 on, and 3 from time 4 on.
    Rising,
    /// -1, 0 from time 2 on, and 5 from time 3 on.
    Steep,
}

impl Cost {
    /// What completing before the first step costs.
    pub fn base(self) -> i64 {
        match self {
            Cost::Flat => 1,
            Cost::Rising => 0,
            Cost::Steep => -1,
        }
    }

    /// Times, which rise, and what completing from each on costs, up to the next.
    pub fn steps(self) -> [(i64, i64); 2] {
        match self {
            Cost::Flat => [(1, 1), (2, 1)],
            Cost::Rising => [(2, 2), (4, 3)],
            Cost::Steep => [(2, 0), (3, 5)],
        }
    }

    /// What completing at a time costs.
    pub fn at(self, completion: i64) -> i64 {
        let mut cost = self.base();
        for (time, value) in self.steps() {
            if time <= completion {
                cost = value;
            }
        }
        cost
    }
}

/// A job. Its times are counts of time steps.
#[derive(Clone, Copy, PartialEq, Eq)]
pub struct SmallJob {
    pub id: JobId,
    /// The time, or in a shop the time on machine 1.
    pub first: usize,
    /// In a shop, the time on machine 2.
    pub second: usize,
    pub weight: i64,
    pub due: i64,
    pub release: usize,
    pub cost: Cost,
}

impl SmallJob {
    /// The time on a machine of a shop, or the only time: machine 1 is at place 0.
    pub fn time_on(&self, place: usize) -> usize {
        match place {
            0 => self.first,
            _ => self.second,
        }
    }

    /// What completing at a time contributes to the objective.
    pub fn price(&self, objective: Objective, completion: i64) -> i64 {
        match objective {
            Objective::Makespan | Objective::Completions => completion,
            Objective::Lateness => completion.saturating_sub(self.due),
            Objective::Cost => self.cost.at(completion),
            Objective::WeightedCompletions => self.weight.saturating_mul(completion),
        }
    }
}

/// Jobs, numbered from 1, and arcs between them.
#[derive(Drop)]
pub struct SmallTask {
    pub kind: Kind,
    pub jobs: Vec<SmallJob>,
    /// The first job of each is over before the second starts.
    pub arcs: Vec<(JobId, JobId)>,
}

impl SmallTask {
    /// The number of machines.
    pub fn machine_count(&self) -> usize {
        match self.kind.machines {
            Machines::Single => 1,
            Machines::Parallel(count) => count as usize,
            Machines::FlowShop | Machines::OpenShop => 2,
        }
    }

    /// Whether a job has a time of its own for each machine.
    pub fn is_shop(&self) -> bool {
        matches!(self.kind.machines, Machines::FlowShop | Machines::OpenShop)
    }

    /// The time of all jobs on all machines.
    pub fn work(&self) -> usize {
        let mut work: usize = 0;
        for job in self.jobs.iter() {
            work = work.saturating_add(job.first).saturating_add(job.second);
        }
        work
    }

    /// A length within which there is a best timetable, at least 1: a row without work behind the
    /// last release date can be left out, which makes no completion later. One machine gets a row
    /// more, so that it can idle.
    pub fn horizon(&self) -> usize {
        let mut last: usize = 0;
        for job in self.jobs.iter() {
            last = last.max(job.release);
        }
        let length = last.saturating_add(self.work());
        if self.kind.machines == Machines::Single {
            length.saturating_add(1)
        } else {
            length.max(1)
        }
    }
}
