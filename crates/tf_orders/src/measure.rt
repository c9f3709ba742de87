//! What the schedules of orders are measured by.
ghost use Rattle.std.specs.Prelude.{◌≡◌, None, MatchResult};
ghost use Rattle.tf_engine.specs.Faults.{stop_of};
ghost use Rattle.tf_orders.specs.OrderParts.{IsUnmeasured, Measures, with_others};

use crate::case_read::Posed;
use std::alloc::{Allocator, Global};
use tf_assess::measures::PosedInstance;
use tf_assess::offered::{Aids, Weighed, weigh};
use tf_bound::task::ProblemTask;
use tf_bounding::feasible::check_feasible;
use tf_engine::case::Asked;
use tf_engine::fault::RunFault;
use tf_evaluate::evaluate::find_optimum;
use tf_evaluate::evaluation::Detail;
use tf_evaluate::reference::Optimum;
use tf_evaluate::step::Step;
use tf_model::problem::Problem;
use tf_model::task::Task;
use tf_search::effort::Progress;
use tf_search::strongest::strongest;

/// A task, and the optimum or a lower bound of it. `others` is the instance by which schedules are
/// measured by the other objectives too, where that is asked for.
#[derive(Drop)]
pub enum Measure<A: Allocator = Global> {
    /// A task of a class, the least cost of a timetable that fits, and the arithmetic of a
    /// certificate that none costs less, where that is asked for.
    Optimum {
        problem: Problem,
        task: Task<A>,
        best: i64,
        steps: Vec<Step, A>,
        others: Option<PosedInstance<A>>,
    },
    /// A task, the strongest lower bound that is found or offered, and what the bound that was
    /// offered comes to, where one was.
    Bound {
        task: ProblemTask<A>,
        weighed: Weighed<A>,
        others: Option<PosedInstance<A>>,
    },
}

impl<A: Allocator> Measure<A> {
    /// The same with the instance by which schedules are measured by the other objectives too.
    pub(crate) fn with_others(self, others: Option<PosedInstance<A>>) -> Measure<A>
        ensures { result ≡ with_others self others }
    {
        match self {
            Measure::Optimum {
                problem,
                task,
                best,
                steps,
                ..
            } => Measure::Optimum {
                problem,
                task,
                best,
                steps,
                others,
            },
            Measure::Bound { task, weighed, .. } => Measure::Bound {
                task,
                weighed,
                others,
            },
        }
    }
}

/// Solves the task, or searches for a lower bound of it beside the one that is offered. There are
/// no other objectives.
pub(crate) fn measured<A: Allocator + Copy, P: Progress + Drop>(
    alloc: A,
    posed: Posed<A>,
    aids: Aids<P, A>,
    detail: Detail,
) -> Result<Measure<A>, RunFault<A>>
    ensures { MatchResult result (Measures detail aids.offered None posed)
        (λ e. IsUnmeasured posed (stop_of e)) }
{
    match posed {
        Posed::Solved(asked) => {
            let Asked { problem, task } = asked;
            let Optimum { best, steps, .. } = find_optimum(alloc, &task, detail)?;
            Ok(Measure::Optimum {
                problem,
                task,
                best,
                steps,
                others: None,
            })
        }
        Posed::Unsolved(task) => {
            check_feasible(alloc, &task)?;
            let Aids { effort, offered } = aids;
            let found = strongest(alloc, &task, effort)?;
            let weighed = weigh(alloc, &task, offered, found)?;
            Ok(Measure::Bound {
                task,
                weighed,
                others: None,
            })
        }
    }
}
