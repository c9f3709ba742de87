//! A certificate of any kind.
use crate::evidence::Evidence;
use crate::fault::BoundFault;
use crate::last_of::LastOf;
use crate::load::Load;
use crate::machine_load::MachineLoad;
use crate::one_job::OneJob;
use crate::pairs::Pairs;
use crate::ranks::Ranks;
use crate::split::Split;
use crate::window::Window;
use std::alloc::{Allocator, Global};
use tf_model::task::Task;

/// What an answer hands over to show that it is best: no timetable of the task costs less than its
/// bound.
#[derive(Drop)]
pub enum Certificate<A: Allocator = Global> {
    Pairs(Pairs),
    LastOf(LastOf<A>),
    Window(Window<A>),
    Split(Split<A>),
    Load(Load),
    Machine(MachineLoad),
    OneJob(OneJob),
    Ranks(Ranks<A>),
}

impl<A: Allocator> Evidence for Certificate<A> {
    ghost use Rattle.std.specs.Prelude.{◌≡◌, IsTrue};
    ghost use Rattle.tf_check.specs.Bound.{bound_by, takes_no_memory, IsBoundOrNoMemory};
    ghost use Rattle.tf_check.specs.Certificate.{claim_of};
    ghost use Rattle.tf_check.specs.Laws.{bound_law};

    ghost bound_of = { λ c. bound_by (claim_of c) };

    ghost law = { λ c. bound_law (claim_of c) };

    fn bound<B: Allocator + Copy, C: Allocator>(
        &self,
        alloc: B,
        task: &Task<C>,
    ) -> Result<i128, BoundFault>
        ensures bound { IsBoundOrNoMemory result (bound_by (claim_of self.now) task.now) }
        ensures exact { IsTrue (takes_no_memory (claim_of self.now)) →
            result ≡ bound_by (claim_of self.now) task.now }
    {
        match self {
            Certificate::Pairs(pairs) => pairs.bound(alloc, task),
            Certificate::LastOf(last) => last.bound(alloc, task),
            Certificate::Window(window) => window.bound(alloc, task),
            Certificate::Split(split) => split.bound(alloc, task),
            Certificate::Load(load) => load.bound(alloc, task),
            Certificate::Machine(load) => load.bound(alloc, task),
            Certificate::OneJob(one) => one.bound(alloc, task),
            Certificate::Ranks(ranks) => ranks.bound(alloc, task),
        }
    }
}
