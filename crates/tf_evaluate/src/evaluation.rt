//! What an evaluation says.
ghost use Rattle.std.specs.Prelude.{◌≡◌};
ghost use Rattle.tf_evaluate.specs.EvaluationData.{problem_fit, value_in};

use crate::reference::Reference;
use std::alloc::{Allocator, Global};
use std::marker::Model;
use tf_check::judgement::Fit;
use tf_model::ids::JobId;
use tf_model::problem::Problem;
use tf_schedule::misfit::ProblemMisfit;
use tf_schedule::schedule::PieceFault;

/// How much is reported of an answer.
#[derive(Clone, Copy, Debug, Drop, PartialEq, Eq)]
pub enum Detail {
    /// How good it is, and what happens to each job.
    Summary,
    /// The arithmetic of its certificate as well.
    WithArithmetic,
}

/// How the pieces of an answer stand to its task, as one of any problem.
#[derive(Debug, Drop, PartialEq, Eq)]
pub enum ProblemFit {
    /// They draw a timetable that fits, and this is what it costs: none where that is 2^127 or
    /// more.
    Fits(Option<i128>),
    /// They make no schedule.
    NoSchedule(PieceFault),
    /// The schedule does not fit.
    Misfit(ProblemMisfit),
}

/// How pieces stand, as to a task of any problem, that stand so to a task of a class.
pub fn problem_fit(fit: Fit) -> ProblemFit
    ensures { result ≡ problem_fit fit }
{
    match fit {
        Fit::Fits(value) => ProblemFit::Fits(Some(value)),
        Fit::NoSchedule(fault) => ProblemFit::NoSchedule(fault),
        Fit::Misfit(misfit) => ProblemFit::Misfit(ProblemMisfit::Plain(misfit)),
    }
}

/// What a schedule costs, if it fits.
pub fn value_in(fit: &Option<ProblemFit>) -> Option<i128>
    ensures { result ≡ value_in fit.now }
{
    match fit {
        Some(ProblemFit::Fits(value)) => *value,
        _ => None,
    }
}

/// Why a schedule does not fit.
#[derive(Clone, Copy, Debug, Drop, PartialEq, Eq)]
pub enum WhyUnfit {
    /// It is for another task.
    OtherTask,
    /// The pieces make no schedule.
    NoSchedule(PieceFault),
    /// The first thing in which the schedule does not fit the task.
    Misfit(ProblemMisfit),
}

/// What a schedule comes to.
#[derive(Clone, Copy, Debug, Drop, PartialEq, Eq)]
pub enum Standing {
    /// It fits, and none that fits costs less.
    Best,
    /// It fits, and one that fits costs less.
    Beaten,
    /// It fits, and whether one that fits costs less is not known: where no solver gives the least
    /// cost.
    Unproved,
    /// It does not fit.
    Unfit(WhyUnfit),
}

/// What happens to a job.
#[derive(Clone, Copy, Debug, Drop, PartialEq, Eq)]
pub struct JobOutcome {
    pub job: JobId,
    /// The first start of its pieces, in time steps; 0 where it has none.
    pub start: u64,
    /// The last stop of its pieces, in time steps; 0 where it has none.
    pub completion: u64,
    /// What the class counts of it: the completion itself, the lateness, the value of its cost
    /// function, or the weighted completion.
    pub price: i128,
}

/// An answer, or a schedule of which nothing is claimed, as it stands to a task.
#[derive(Drop)]
pub struct Evaluation<R, A: Allocator = Global> {
    /// The problem that is asked.
    pub problem: Problem,
    /// The task's numbers of jobs and of machines.
    pub jobs: u32,
    pub machines: u32,
    /// How the pieces stand to the task; `None` for an answer to another task.
    pub fit: Option<ProblemFit>,
    /// The value that the answer claims; `None` for a schedule of which nothing is claimed.
    pub claimed: Option<i64>,
    /// What the cost is held against: the optimum, or a lower bound.
    pub reference: R,
    /// The jobs from 1 on, where the pieces make a schedule and the answer is for the task.
    pub outcomes: Vec<JobOutcome, A>,
}

impl<R, A: Allocator> Model for Evaluation<R, A> {
    ghost use Rattle.tf_evaluate.specs.EvaluationData.{EvaluationData};

    ghost Value = { EvaluationData R };

    ghost view = { λ e. record {
      problem = e.problem;
      jobs = e.jobs;
      machines = e.machines;
      fit = e.fit;
      claimed = e.claimed;
      reference = e.reference;
      outcomes = e.outcomes.items;
    } };
}

impl<R: Reference, A: Allocator> Evaluation<R, A> {
    ghost use Rattle.std.specs.Prelude.{◌≡◌};
    ghost use Rattle.tf_evaluate.specs.EvaluationData.{standing_by};

    /// What the schedule comes to.
    pub fn standing(&self) -> Standing
        ensures { result ≡ standing_by (R.rated self.now.reference) self.now.fit }
    {
        match &self.fit {
            Some(ProblemFit::Fits(value)) => self.reference.standing(*value),
            Some(ProblemFit::NoSchedule(fault)) => Standing::Unfit(WhyUnfit::NoSchedule(*fault)),
            Some(ProblemFit::Misfit(misfit)) => Standing::Unfit(WhyUnfit::Misfit(*misfit)),
            None => Standing::Unfit(WhyUnfit::OtherTask),
        }
    }
}
