//! The arcs of a task by job.
use std::alloc::{Allocator, Global};
use tf_model::ids::JobId;
use tf_model::memory::OutOfMemory;

/// For each job, counted from 0, the jobs at the other ends of its arcs.
#[derive(Drop)]
pub struct Neighbours<A: Allocator = Global> {
    // Where the neighbours of each job end in the list of all; those of the next begin there.
    ends: Vec<u32, A>,
    jobs: Vec<u32, A>,
}

/// At which end of an arc a job stands.
#[derive(Clone, Copy, Debug, PartialEq, Eq)]
pub enum Side {
    First,
    Second,
}

// The job of an arc at this side, and that at the other.
fn ends_of(side: Side, arc: (JobId, JobId)) -> (usize, u32) {
    let (own, other) = match side {
        Side::First => arc,
        Side::Second => (arc.1, arc.0),
    };
    (own.place(), other.get() - 1)
}

impl<A: Allocator + Copy> Neighbours<A> {
    /// The neighbours of so many jobs, each of which stands at this side of its arcs.
    pub fn new(
        alloc: A,
        jobs: usize,
        arcs: &[(JobId, JobId)],
        side: Side,
    ) -> Result<Self, OutOfMemory> {
        let mut found = Neighbours {
            ends: vec![in alloc; 0_u32; jobs]?,
            jobs: vec![in alloc; 0_u32; arcs.len()]?,
        };
        found.count(arcs, side);
        found.fill(arcs, side);
        Ok(found)
    }
}

impl<A: Allocator> Neighbours<A> {
    // Writes where the neighbours of each job begin.
    fn count(&mut self, arcs: &[(JobId, JobId)], side: Side) {
        for arc in arcs {
            if let Some(count) = self.ends.get_mut(ends_of(side, *arc).0) {
                *count = count.wrapping_add(1);
            }
        }
        let mut all: u32 = 0;
        for end in self.ends.iter_mut() {
            let count = *end;
            *end = all;
            all = all.wrapping_add(count);
        }
    }

    // Moves each beginning to its end, along with its neighbours.
    fn fill(&mut self, arcs: &[(JobId, JobId)], side: Side) {
        for arc in arcs {
            let (own, other) = ends_of(side, *arc);
            if let Some(end) = self.ends.get_mut(own) {
                if let Some(entry) = self.jobs.get_mut(*end as usize) {
                    *entry = other;
                }
                *end = end.wrapping_add(1);
            }
        }
    }

    /// The neighbours of a job.
    #[inline(always)]
    pub fn of(&self, job: usize) -> &[u32] {
        let from = match job.checked_sub(1) {
            Some(last) => self.end_of(last),
            None => 0,
        };
        self.jobs.get(from..self.end_of(job)).unwrap_or(&[])
    }

    #[inline(always)]
    fn end_of(&self, job: usize) -> usize {
        self.ends.get(job).copied().unwrap_or(0) as usize
    }
}
