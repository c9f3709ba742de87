//! The strongest window of jobs that have release dates and due dates.
//!
//! A window is of the jobs that are released from a time on and due up to another, and there is
//! none stronger on identical machines. Nothing is promised of the search: the judge computes what
//! its window bounds.

use crate::ranked::{Rank, jobs_by_rank};
use std::alloc::{Allocator, Global};
use tf_bound::task::ProblemTask;
use tf_model::ids::JobId;
use tf_model::memory::OutOfMemory;

/// The jobs that are released from a time on, and due up to another.
#[derive(Clone, Copy)]
pub(crate) struct Window {
    release: u64,
    due: i64,
}

// A stretch of the jobs by falling release dates, of which some count.
#[derive(Clone, Copy)]
struct Stretch {
    // The time of those that count together.
    work: u64,
    // When the machines are over at least with those that count up to one of them, times the
    // number of machines; the greatest, and the release date of that one.
    end: i128,
    release: u64,
}

impl Stretch {
    // No job counts.
    fn new() -> Stretch {
        Stretch {
            work: 0,
            end: i128::MIN,
            release: 0,
        }
    }

    // This stretch and the one behind it.
    fn then(self, next: Stretch) -> Stretch {
        let end = next.end.saturating_add(i128::from(self.work));
        Stretch {
            work: self.work.saturating_add(next.work),
            end: self.end.max(end),
            release: if end > self.end {
                next.release
            } else {
                self.release
            },
        }
    }
}

// Stretches, each behind the first with its two halves at twice its place.
#[derive(Drop)]
struct Halves<A: Allocator = Global> {
    stretches: Vec<Stretch, A>,
    // The place of the first job.
    first: usize,
}

impl<A: Allocator> Halves<A> {
    // So many jobs, of which none counts.
    fn new(alloc: A, jobs: usize) -> Result<Self, OutOfMemory> {
        let first = jobs.min(1 << 32).next_power_of_two();
        Ok(Halves {
            stretches: vec![in alloc; Stretch::new(); 2 * first]?,
            first,
        })
    }

    fn at(&self, place: usize) -> Stretch {
        self.stretches.get(place).copied().unwrap_or(Stretch::new())
    }

    fn put(&mut self, place: usize, stretch: Stretch) {
        if let Some(at) = self.stretches.get_mut(place) {
            *at = stretch;
        }
    }

    // One job more counts.
    fn count(&mut self, place: usize, alone: Stretch) {
        let mut place = self.first.saturating_add(place);
        self.put(place, alone);
        while place > 1 {
            place /= 2;
            self.put(place, self.at(2 * place).then(self.at(2 * place + 1)));
        }
    }
}

// The places of the jobs in an order.
fn places_in<A: Allocator>(alloc: A, jobs: &[JobId]) -> Result<Vec<usize, A>, OutOfMemory> {
    let mut places = vec![in alloc; 0usize; jobs.len()]?;
    for (place, job) in jobs.iter().enumerate() {
        if let Some(at) = places.get_mut(job.place()) {
            *at = place;
        }
    }
    Ok(places)
}

/// The strongest window, in n log n steps for n jobs.
pub(crate) fn strongest_window<A: Allocator + Copy, B: Allocator>(
    alloc: A,
    task: &ProblemTask<B>,
) -> Result<Option<Window>, OutOfMemory> {
    let places = places_in(alloc, &jobs_by_rank(alloc, task, Rank::LastReleased)?)?;
    let mut halves = Halves::new(alloc, task.len())?;
    let order = jobs_by_rank(alloc, task, Rank::FirstDue(0))?;
    Ok(window_along(task, &order, &places, &mut halves))
}

// The strongest of the windows of the first jobs of the order.
fn window_along<A: Allocator, B: Allocator>(
    task: &ProblemTask<B>,
    order: &[JobId],
    places: &[usize],
    halves: &mut Halves<A>,
) -> Option<Window> {
    let machines = i128::from(task.machines());
    let mut most = i128::MIN;
    let mut best = None;
    for job in order {
        let place = job.place();
        if place >= task.len() || place >= places.len() {
            continue;
        }
        let (release, work, due) = (task.release(*job), task.work(*job), task.due(*job));
        let end = i128::from(release)
            .wrapping_mul(machines)
            .wrapping_add(i128::from(work));
        halves.count(places[place], Stretch { work, end, release });
        let whole = halves.at(1);
        let value = whole
            .end
            .saturating_sub(i128::from(due).wrapping_mul(machines));
        if value > most {
            most = value;
            best = Some(Window {
                release: whole.release,
                due,
            });
        }
    }
    best
}

/// The jobs of a window, by number.
pub(crate) fn jobs_within<A: Allocator, B: Allocator>(
    alloc: A,
    task: &ProblemTask<B>,
    window: Window,
) -> Result<Vec<JobId, A>, OutOfMemory> {
    let mut jobs = Vec::new(alloc);
    for k in 0..task.len() {
        let job = JobId::at(k);
        if task.release(job) >= window.release && task.due(job) <= window.due {
            jobs.push(job)?;
        }
    }
    Ok(jobs)
}
