//! A scheduling problem in three-field notation (Graham, Lawler, Lenstra and Rinnooy Kan 1979;
//! Pinedo, chapter 2).
ghost use Rattle.std.specs.Prelude.{◌≡◌};
ghost use Rattle.tf_model.specs.ClassTable.{is_shop_env, plain_problem};

/// A machine environment, the first field.
#[derive(Clone, Copy, Debug, PartialEq, Eq)]
pub enum Env {
    /// `1`: one machine.
    Single,
    /// `P`: identical machines in parallel.
    Parallel,
    /// `Q`: machines in parallel with different speeds.
    Uniform,
    /// `R`: unrelated machines in parallel.
    Unrelated,
    /// `F`: every job visits the machines in the same order.
    Flow,
    /// `O`: every job visits the machines in any order.
    OpenShop,
    /// `J`: every job has its own route.
    JobShop,
}

/// An objective, the third field: what is minimized.
#[derive(Clone, Copy, Debug, PartialEq, Eq)]
pub enum Goal {
    /// The makespan: the greatest completion time.
    Cmax,
    /// The greatest lateness.
    Lmax,
    /// The greatest cost, each job by a nondecreasing function of its completion time.
    Hmax,
    /// The total completion time.
    SumC,
    /// The total weighted completion time.
    SumWC,
    /// The total tardiness.
    SumT,
    /// The total weighted tardiness.
    SumWT,
    /// The number of late jobs.
    SumU,
    /// The weighted number of late jobs.
    SumWU,
}

/// A scheduling problem: environment, conditions and objective.
#[derive(Clone, Copy, Debug, PartialEq, Eq)]
pub struct Problem {
    pub env: Env,
    /// The number of machines where the notation names one. It means nothing beside
    /// [`Env::Single`].
    pub count: Option<u32>,
    /// `rj`: a job has a release date.
    pub release: bool,
    /// `prec`: arcs between jobs.
    pub prec: bool,
    /// `prmp`: preemption is allowed.
    pub prmp: bool,
    /// `prmu`: the jobs pass all machines in one order.
    pub prmu: bool,
    /// `nwt`: a job may not wait between two machines.
    pub nwt: bool,
    /// `block`: a job blocks its machine until the next one is free.
    pub block: bool,
    /// `rcrc`: a job may visit a machine more than once.
    pub rcrc: bool,
    pub goal: Goal,
}

impl Env {
    /// Whether a job has a time of its own for each machine.
    pub fn is_shop(self) -> bool
        ensures { result ≡ is_shop_env self }
    {
        matches!(self, Env::Flow | Env::OpenShop | Env::JobShop)
    }
}

impl Problem {
    /// The problem with no condition, and no number of machines in its notation.
    pub fn plain(env: Env, goal: Goal) -> Problem
        ensures { result ≡ plain_problem env goal }
    {
        Problem {
            env,
            count: None,
            release: false,
            prec: false,
            prmp: false,
            prmu: false,
            nwt: false,
            block: false,
            rcrc: false,
            goal,
        }
    }
}
