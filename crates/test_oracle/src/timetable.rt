//! Timetables of whole time steps.
ghost use Rattle.std.specs.Prelude.{◌<◌};
ghost use Rattle.std.specs.Slice.Iter.{chunks_size};

use crate::arrangement::{advance, fill_next};
use crate::small_task::{Machines, SmallJob, SmallTask};
use std::alloc::{AllocError, Global};
use std::slice::Chunks;
use tf_model::ids::JobId;

/// What a machine does in one time step: it works on a job, or on none.
pub type Cell = Option<JobId>;

/// A timetable: what each machine does in each time step.
#[derive(Drop)]
pub struct Timetable {
    // Machine by machine, each from time 0 on.
    cells: Vec<Cell>,
    length: usize,
    ghost long: { 0 < length },
}

// The cells of a job in a line.
#[derive(Clone, Copy)]
struct Span {
    // The time of its first cell, or 0 where it has none.
    start: usize,
    // The end of its last cell, or 0 where it has none.
    end: usize,
    // How many there are.
    units: usize,
}

fn span_of(line: &[Cell], job: JobId) -> Span {
    let mut span = Span {
        start: 0,
        end: 0,
        units: 0,
    };
    for (time, cell) in line.iter().enumerate() {
        if *cell == Some(job) {
            if span.units == 0 {
                span.start = time;
            }
            span.end = time.saturating_add(1);
            span.units = span.units.saturating_add(1);
        }
    }
    span
}

// Whether the cells are consecutive.
fn is_run(span: Span) -> bool {
    span.end.saturating_sub(span.start) == span.units
}

impl Timetable {
    /// The first of the timetables of this many time steps in which each job has its time.
    pub fn first_of(
        alloc: Global,
        task: &SmallTask,
        length: usize,
    ) -> Result<Timetable, AllocError> {
        let length = length.max(1);
        let mut cells = Vec::new(alloc);
        if task.is_shop() {
            push_jobs(&mut cells, task, 0, length)?;
            push_jobs(&mut cells, task, 1, length)?;
        } else {
            let room = length.saturating_mul(task.machine_count());
            push_jobs(&mut cells, task, 0, room)?;
        }
        Ok(Timetable { cells, length })
    }

    /// The timetable of this many time steps without work.
    pub fn idle(alloc: Global, task: &SmallTask, length: usize) -> Result<Timetable, AllocError> {
        let length = length.max(1);
        let mut cells = Vec::new(alloc);
        for _ in 0..length.saturating_mul(task.machine_count()) {
            cells.push(None)?;
        }
        Ok(Timetable { cells, length })
    }

    /// Goes on to the next timetable, whatever time each job has. After the last one comes the one
    /// without work, and then the answer is `false`.
    pub fn next_filling(&mut self, task: &SmallTask) -> bool {
        fill_next(self.cells.as_mut_slice(), task.jobs.len())
    }

    /// Goes on to the next timetable in which each job has its time. After the last one comes the
    /// first, and then the answer is `false`.
    pub fn next_of(&mut self, task: &SmallTask) -> bool {
        if !task.is_shop() {
            return advance(self.cells.as_mut_slice());
        }
        for line in self.cells.chunks_mut(self.length) {
            if advance(line) {
                return true;
            }
        }
        false
    }

    /// What each machine does from time 0 on.
    pub fn lines(&self) -> Chunks<'_, Cell>
        ensures { 0 < chunks_size result }
    {
        self.cells.chunks(self.length)
    }

    // What machine 1 does, and what machine 2 does, where there are two.
    fn of_two(&self) -> (&[Cell], &[Cell]) {
        self.cells.split_at(self.length.min(self.cells.len()))
    }

    /// The end of the job's last time step, or 0 where it has none.
    pub fn completion(&self, job: JobId) -> usize {
        let mut completion: usize = 0;
        for line in self.lines() {
            completion = completion.max(span_of(line, job).end);
        }
        completion
    }

    // Whether no cell of the job on any machine comes before this time.
    fn starts_from(&self, job: JobId, time: usize) -> bool {
        for line in self.lines() {
            let span = span_of(line, job);
            if span.units > 0 && span.start < time {
                return false;
            }
        }
        true
    }

    /// Whether it fits the task.
    pub fn fits(&self, task: &SmallTask) -> bool {
        for job in task.jobs.iter() {
            if !self.fits_job(task, job) {
                return false;
            }
        }
        !task.kind.is_ordered || self.keeps_arcs(task)
    }

    fn fits_job(&self, task: &SmallTask, job: &SmallJob) -> bool {
        let kind = task.kind;
        self.is_in_one_place(job.id)
            && self.has_its_time(task, job)
            && (kind.may_break || self.is_unbroken(task, job.id))
            && (!kind.is_released || self.starts_from(job.id, job.release))
            && (kind.machines != Machines::FlowShop || self.is_in_order(job.id))
    }

    // No time step has the job on two machines.
    fn is_in_one_place(&self, job: JobId) -> bool {
        for time in 0..self.length {
            if self.places_at(job, time) > 1 {
                return false;
            }
        }
        true
    }

    // How many machines work on the job in a time step.
    fn places_at(&self, job: JobId, time: usize) -> usize {
        let mut count: usize = 0;
        for line in self.lines() {
            if line.get(time) == Some(&Some(job)) {
                count = count.saturating_add(1);
            }
        }
        count
    }

    fn has_its_time(&self, task: &SmallTask, job: &SmallJob) -> bool {
        if !task.is_shop() {
            return span_of(&self.cells, job.id).units == job.first;
        }
        let (first, second) = self.of_two();
        span_of(first, job.id).units == job.first && span_of(second, job.id).units == job.second
    }

    // On each machine the job's time steps are consecutive, and outside shops it has one machine.
    fn is_unbroken(&self, task: &SmallTask, job: JobId) -> bool {
        let mut places: usize = 0;
        for line in self.lines() {
            let span = span_of(line, job);
            if !is_run(span) {
                return false;
            }
            places = places.saturating_add(usize::from(span.units > 0));
        }
        task.is_shop() || places < 2
    }

    // All of the job on machine 1 comes before all of it on machine 2.
    fn is_in_order(&self, job: JobId) -> bool {
        let (first, second) = self.of_two();
        let second = span_of(second, job);
        second.units == 0 || span_of(first, job).end <= second.start
    }

    fn keeps_arcs(&self, task: &SmallTask) -> bool {
        for (before, after) in task.arcs.iter() {
            if !self.starts_from(*after, self.completion(*before)) {
                return false;
            }
        }
        true
    }

    // What the job's completion contributes to the objective.
    fn price(&self, task: &SmallTask, job: &SmallJob) -> i64 {
        let completion = i64::try_from(self.completion(job.id)).unwrap_or(i64::MAX);
        job.price(task.kind.objective, completion)
    }

    /// What it costs the task.
    pub fn cost(&self, task: &SmallTask) -> i64 {
        let is_sum = task.kind.objective.is_sum();
        let mut cost: Option<i64> = None;
        for job in task.jobs.iter() {
            let price = self.price(task, job);
            cost = Some(match cost {
                None => price,
                Some(cost) if is_sum => cost.saturating_add(price),
                Some(cost) => cost.max(price),
            });
        }
        cost.unwrap_or(0)
    }
}

// Cells of idle time, and then of each job as many as its time at a place: `room` cells in all.
fn push_jobs(
    cells: &mut Vec<Cell>,
    task: &SmallTask,
    place: usize,
    room: usize,
) -> Result<(), AllocError> {
    let mut work: usize = 0;
    for job in task.jobs.iter() {
        work = work.saturating_add(job.time_on(place));
    }
    for _ in work..room {
        cells.push(None)?;
    }
    for job in task.jobs.iter() {
        for _ in 0..job.time_on(place) {
            cells.push(Some(job.id))?;
        }
    }
    Ok(())
}

/// The least cost of a timetable that fits the task, if any fits.
pub fn least_cost(alloc: Global, task: &SmallTask) -> Result<Option<i64>, AllocError> {
    let mut timetable = Timetable::first_of(alloc, task, task.horizon())?;
    let mut least: Option<i64> = None;
    for _ in 0..u64::MAX {
        if timetable.fits(task) {
            let cost = timetable.cost(task);
            least = Some(match least {
                None => cost,
                Some(least) => least.min(cost),
            });
        }
        if !timetable.next_of(task) {
            break;
        }
    }
    Ok(least)
}
