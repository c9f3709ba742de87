//! The arcs of a task, in an order in which each job has what others give it before it gives.

use std::alloc::Allocator;
use tf_bound::pushed::pushed_task;
use tf_bound::task::ProblemTask;
use tf_model::ids::JobId;
use tf_model::memory::OutOfMemory;

/// An arc, by its place and those of its jobs.
#[derive(Clone, Copy)]
pub(crate) struct Link {
    pub(crate) place: usize,
    pub(crate) first: usize,
    pub(crate) second: usize,
    // The time of its second job on all machines.
    pub(crate) work: u64,
    // Its multiplier, the best so far, and how fast the bound grows with it.
    pub(crate) own: i128,
    pub(crate) best: i128,
    pub(crate) slope: i128,
}

/// The arcs that count, the last second jobs first. None where they form a cycle.
pub(crate) fn links_of<A: Allocator + Copy, B: Allocator>(
    alloc: A,
    task: &ProblemTask<B>,
) -> Result<Option<Vec<Link, A>>, OutOfMemory> {
    if !task.problem().prec || task.arcs().is_empty() {
        return Ok(Some(Vec::new(alloc)));
    }
    let Some(dated) = pushed_task(alloc, task)? else {
        return Ok(None);
    };
    let dates = releases_of(alloc, &dated)?;
    let mut keys = Vec::with_capacity(alloc, task.arcs().len())?;
    for (place, arc) in task.arcs().iter().enumerate() {
        let second = arc.1.place();
        let date = dates.get(second).copied().unwrap_or(0);
        keys.push((u64::MAX - date, second, place))?;
    }
    keys.sort_unstable();
    let works = works_of(alloc, task)?;
    let mut links = Vec::with_capacity(alloc, keys.len())?;
    for key in keys.iter() {
        let first = match task.arcs().get(key.2) {
            Some(arc) => arc.0.place(),
            None => key.1,
        };
        links.push(link_of(*key, first, works.get(key.1).copied().unwrap_or(0)))?;
    }
    Ok(Some(links))
}

fn link_of(key: (u64, usize, usize), first: usize, work: u64) -> Link {
    Link {
        place: key.2,
        first,
        second: key.1,
        work,
        own: 0,
        best: 0,
        slope: 0,
    }
}

fn releases_of<A: Allocator, B: Allocator>(
    alloc: A,
    task: &ProblemTask<B>,
) -> Result<Vec<u64, A>, OutOfMemory> {
    let mut releases = Vec::with_capacity(alloc, task.len())?;
    for k in 0..task.len() {
        releases.push(task.release(JobId::at(k)))?;
    }
    Ok(releases)
}

fn works_of<A: Allocator, B: Allocator>(
    alloc: A,
    task: &ProblemTask<B>,
) -> Result<Vec<u64, A>, OutOfMemory> {
    let mut works = Vec::with_capacity(alloc, task.len())?;
    for k in 0..task.len() {
        works.push(task.work(JobId::at(k)))?;
    }
    Ok(works)
}
