//! Whether some timetable fits the task of a problem: only a cycle of its arcs is in the way.
ghost use Rattle.std.specs.Prelude.{MatchResult};
ghost use Rattle.tf_engine.specs.Faults.{stop_of};
ghost use Rattle.tf_engine.specs.Parts.{StopsBy};
ghost use Rattle.tf_plan.specs.Order.{IsFeasible, IsNoOrder};
ghost use Rattle.tf_posed.specs.ProblemData.{ProblemData};
ghost use Rattle.tf_bounding.specs.Feasible.{IsCyclicTask};

use std::alloc::Allocator;
use tf_bound::task::ProblemTask;
use tf_engine::fault::RunFault;
use tf_plan::order::{OrderFault, order_of};

/// Refuses a task whose arcs form a cycle, with the jobs of one. Some timetable fits any other.
pub fn check_feasible<A: Allocator + Copy, B: Allocator>(
    alloc: A,
    task: &ProblemTask<B>,
) -> Result<(), RunFault<A>>
    ensures { MatchResult result (λ _. IsFeasible task.now)
        (λ e. StopsBy (IsCyclicTask task.now) (stop_of e)) }
{
    if !task.problem().prec {
        return Ok(());
    }
    match order_of(alloc, task) {
        Ok(_) => Ok(()),
        Err(fault) => Err(unordered(fault)),
    }
}

/// Why there is no order of the jobs that keeps the arcs.
pub fn unordered<A: Allocator>(fault: OrderFault<A>) -> RunFault<A>
    ensures { (k : ProblemData) → IsNoOrder k fault → StopsBy (IsCyclicTask k) (stop_of result) }
{
    match fault {
        OrderFault::Cycle(jobs) => RunFault::Cycle(jobs),
        OrderFault::OutOfMemory => RunFault::OutOfMemory,
    }
}
