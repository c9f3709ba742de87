//! Lists of jobs.
ghost use Rattle.std.specs.Prelude.{◌≡◌, ℕ, List};

use crate::ids::JobId;
use std::alloc::{Allocator, Global};
use std::marker::Model;

/// A list of jobs, in any order, with or without repetitions.
#[derive(Drop)]
#[derive_where(Debug)]
pub struct JobList<A: Allocator = Global> {
    jobs: Vec<JobId, A>,
}

impl<A: Allocator> Model for JobList<A> {
    ghost Value = { List ℕ };

    ghost view = { λ l. l.jobs.items };
}

impl<A: Allocator> JobList<A> {
    /// The list of these jobs. It takes no memory.
    pub fn new(jobs: Vec<JobId, A>) -> Self
        ensures { result ≡ jobs.items }
    {
        JobList { jobs }
    }

    /// The jobs in their order.
    pub fn as_slice(&self) -> &[JobId]
        ensures { result.now ≡ self.now }
    {
        self.jobs.as_slice()
    }
}

impl<A: Allocator> PartialEq for JobList<A> {
    ghost use Rattle.std.specs.Prelude.{◌==◌};
    ghost use Rattle.std.specs.Cmp.Lexicographic.{pointwise};
    ghost use Rattle.std.proofs.Common.{rules};
    ghost use Rattle.std.specs.Cmp.Rules.{comparing};

    ghost eq = { pointwise ◌==◌ };

    ghost laws = { Prim.search (comparing, rules) };

    fn eq(&self, other: &Self) -> bool {
        self.jobs.as_slice() == other.jobs.as_slice()
    }
}

impl<A: Allocator> Eq for JobList<A> {
    ghost use Rattle.std.proofs.Common.{rules};
    ghost use Rattle.std.specs.Cmp.Rules.{comparing};

    ghost laws = { Prim.search (comparing, rules) };
}
