//! A solver for each class.
ghost use Rattle.std.specs.Prelude.{IfOk, IfErr};
ghost use Rattle.tf_model.specs.Sound.{IsSound};
ghost use Rattle.tf_check.specs.Accepted.{IsAccepted, IsBestAnswer};
ghost use Rattle.tf_engine.specs.Rules.{IsByRule};
ghost use Rattle.tf_single.specs.NotSolved.{IsNotSolved};

use std::alloc::Allocator;
use tf_check::answer::Answer;
use tf_model::class::Class;
use tf_model::task::Task;
use tf_multi::johnson::johnson;
use tf_multi::mcnaughton::mcnaughton;
use tf_multi::open_two::open_two;
use tf_multi::spt::spt;
use tf_single::edd::edd;
use tf_single::lawler::{lawler, lawler_by_due};
pub use tf_single::lawler_fault::LawlerFault as SolveFault;
use tf_single::wspt::wspt;

/// A best timetable of the task, what it costs, and the certificate that none costs less. The class
/// alone decides which solver is asked; a cycle of arcs is refused, since then no timetable fits.
/// Of several cycles it is the one that [`lawler`] names.
pub fn solve<A: Allocator + Copy, B: Allocator>(
    alloc: A,
    task: &Task<B>,
) -> Result<Answer<A>, SolveFault<A>>
    ensures accepted { IfOk result (IsAccepted task.now) }
    ensures best { IfOk result (IsBestAnswer task.now) }
    ensures rule { IfOk result (IsByRule task.now) }
    ensures refused { IfErr result (IsNotSolved task.now) }
{
    answer_of(alloc, task)
}

// The answer of the class's solver, and that the task is sound.
fn answer_of<A: Allocator + Copy, B: Allocator>(
    alloc: A,
    task: &Task<B>,
) -> Result<Answer<A>, SolveFault<A>>
    ensures sound { IsSound task.now }
    ensures accepted { IfOk result (IsAccepted task.now) }
    ensures rule { IfOk result (IsByRule task.now) }
    ensures refused { IfErr result (IsNotSolved task.now) }
{
    match task.class() {
        Class::WeightedSum | Class::PlainSum | Class::PrmpWeightedSum | Class::PrmpPlainSum => Ok(
            wspt(alloc, task)?,
        ),
        Class::Hmax | Class::PrecHmax | Class::PrmpHmax | Class::PrmpPrecHmax => {
            lawler(alloc, task, task.step_costs())
        }
        Class::Lmax | Class::PrecLmax | Class::PrmpLmax | Class::PrmpPrecLmax => {
            lawler_by_due(alloc, task)
        }
        Class::ReleaseLmax => Ok(edd(alloc, task)?),
        Class::FlowTwo | Class::PrmpFlowTwo => Ok(johnson(alloc, task)?),
        Class::OpenTwo | Class::PrmpOpenTwo => Ok(open_two(alloc, task)?),
        Class::ParallelPrmp => Ok(mcnaughton(alloc, task)?),
        Class::ParallelSum => Ok(spt(alloc, task)?),
    }
}
