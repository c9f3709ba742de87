//! A random job table, or flow shop file, for a problem in three-field notation.
ghost use Rattle.std.specs.Prelude.{◌≡◌, MatchResult};
ghost use Rattle.tf_random.specs.Asked.{IsFaultOf, IsTableFor};

use crate::plan::Plan;
use crate::table::random_table;
use std::alloc::Global;
use tf_model::memory::OutOfMemory;
use tf_notation::reading::{NotationFault, read};

/// What a random table is to be like.
#[derive(Clone, Copy, Debug)]
pub struct Wanted<'a> {
    /// The problem in three-field notation.
    pub problem: &'a str,
    /// The number of jobs, from 1.
    pub jobs: u32,
    /// The number of machines, where there may be several and the problem names none.
    pub machines: Option<u32>,
    /// The longest processing time, from 1.
    pub most: u32,
    pub seed: u32,
}

/// Why there is no random table.
#[derive(Debug, Drop)]
pub enum RandomFault {
    /// The problem is not in three-field notation.
    Notation(NotationFault),
    /// Neither a job table nor a flow shop file has a place for what the problem needs.
    NotInATable,
    OutOfMemory,
}

/// The random table or flow shop file that is wanted.
pub fn run_random(alloc: Global, wanted: &Wanted<'_>) -> Result<Vec<u8>, RandomFault>
    ensures { MatchResult result (λ text. IsTableFor wanted.now text.items) (IsFaultOf wanted.now) }
{
    let problem = match read(wanted.problem.as_bytes()) {
        Ok(problem) => problem,
        Err(fault) => return Err(RandomFault::Notation(fault)),
    };
    let Some(plan) = Plan::of(
        &problem,
        wanted.jobs,
        wanted.machines,
        wanted.most,
        wanted.seed,
    ) else {
        return Err(RandomFault::NotInATable);
    };
    match random_table(alloc, &problem, &plan) {
        Ok(text) => Ok(text),
        Err(_) => Err(RandomFault::OutOfMemory),
    }
}
