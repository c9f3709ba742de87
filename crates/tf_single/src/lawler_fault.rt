//! Why a task is not solved.
ghost use Rattle.std.specs.Prelude.{◌≡◌};
ghost use Rattle.tf_single.specs.declared.lawler_fault.LawlerFault.TheVariants.{OutOfMemory as NoMemory};

use std::alloc::{AllocError, Allocator, Global};
use tf_model::job_list::JobList;
use tf_model::memory::OutOfMemory;
use thiserror::Error;

/// Why a task is not solved.
#[derive(Drop, Error)]
#[derive_where(Debug, PartialEq, Eq)]
pub enum LawlerFault<A: Allocator = Global> {
    /// Each of these jobs precedes the next by an arc, and the last precedes the first, so that no
    /// timetable fits.
    #[error("the arcs form a cycle")]
    Cycle(JobList<A>),
    /// A growth was refused.
    #[error("want of memory")]
    OutOfMemory,
}

impl<A: Allocator> From<OutOfMemory> for LawlerFault<A> {
    ghost from_gives = { λ _ e. e ≡ NoMemory };

    fn from(_: OutOfMemory) -> LawlerFault<A> {
        LawlerFault::OutOfMemory
    }
}

impl<A: Allocator> From<AllocError> for LawlerFault<A> {
    ghost from_gives = { λ _ e. e ≡ NoMemory };

    fn from(_: AllocError) -> LawlerFault<A> {
        LawlerFault::OutOfMemory
    }
}
