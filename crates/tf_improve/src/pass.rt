//! Passes over a list of jobs: their heads from the front, or their tails from the back.
ghost use Rattle.std.specs.Prelude.{◌≡◌, length};

use std::alloc::Allocator;
use tf_decode::slots::item_at;
use tf_decode::table::TaskTable;
use tf_model::memory::OutOfMemory;

/// Less than any head and tail together.
pub(crate) const NOTHING: i64 = i64::MIN / 4;

/// The end of the list at which a pass begins.
#[derive(Clone, Copy, Debug, PartialEq, Eq)]
pub(crate) enum Side {
    /// The first job: from when on each machine is free.
    Front,
    /// The last job: how long it takes from each machine on, from the last machine to the first,
    /// up to the cost.
    Back,
}

/// A pass over a list. Each row is the state of the machines before the first job, or behind one
/// more job than the row before it.
#[derive(Drop)]
pub(crate) struct Pass<A: Allocator> {
    side: Side,
    machines: usize,
    // The times of each job, in the order in which the pass comes to its machines.
    times: Vec<i64, A>,
    // When the pass may begin each job, and what is added when it leaves the job.
    begins: Vec<i64, A>,
    ends: Vec<i64, A>,
    rows: Vec<i64, A>,
    // What the jobs before each row cost.
    costs: Vec<i64, A>,
    // How many jobs are passed: the rows up to the last of them hold.
    passed: usize,
}

// The entry at a place, 0 beyond the end.
#[inline(always)]
fn entry(list: &[i64], place: usize) -> i64 {
    list.get(place).copied().unwrap_or(0)
}

// A number of a task, which is not too great here.
fn signed(number: u64) -> i64 {
    i64::try_from(number).unwrap_or(i64::MAX)
}

impl<A: Allocator + Copy> Pass<A> {
    /// A pass that has not begun.
    pub(crate) fn new<B: Allocator>(
        alloc: A,
        table: &TaskTable<B>,
        side: Side,
    ) -> Result<Self, OutOfMemory> {
        let rows = table.jobs.len().wrapping_add(1);
        let machines = table.machines;
        let mut pass = Pass {
            side,
            machines,
            times: Vec::with_capacity(alloc, table.times.len())?,
            begins: Vec::with_capacity(alloc, table.jobs.len())?,
            ends: Vec::with_capacity(alloc, table.jobs.len())?,
            rows: vec![in alloc; NOTHING; rows.wrapping_mul(machines)]?,
            costs: vec![in alloc; NOTHING; rows]?,
            passed: 0,
        };
        for job in 0..table.jobs.len() {
            pass.push_job(table, job)?;
        }
        Ok(pass)
    }
}

impl<A: Allocator> Pass<A> {
    fn push_job<B: Allocator>(
        &mut self,
        table: &TaskTable<B>,
        job: usize,
    ) -> Result<(), OutOfMemory> {
        let release = signed(table.job(job).release);
        let lateness = 0_i64.wrapping_sub(table.job(job).due);
        if self.side == Side::Front {
            self.begins.push(release)?;
            self.ends.push(lateness)?;
            for time in table.times_of(job) {
                self.times.push(signed(*time))?;
            }
        } else {
            self.begins.push(lateness)?;
            self.ends.push(release)?;
            for time in table.times_of(job).iter().rev() {
                self.times.push(signed(*time))?;
            }
        }
        Ok(())
    }

    /// The number of machines.
    pub(crate) fn machines(&self) -> usize {
        self.machines
    }

    /// What the jobs before a row cost.
    #[inline(always)]
    pub(crate) fn cost(&self, row: usize) -> i64 {
        entry(&self.costs, row)
    }

    /// A row.
    #[inline(always)]
    pub(crate) fn row(&self, row: usize) -> &[i64] {
        part(&self.rows, row, self.machines)
    }

    /// The times of a job.
    #[inline(always)]
    pub(crate) fn times_of(&self, job: usize) -> &[i64] {
        part(&self.times, job, self.machines)
    }

    /// When the pass may begin a job.
    #[inline(always)]
    pub(crate) fn begin(&self, job: usize) -> i64 {
        entry(&self.begins, job)
    }

    /// What is added when the pass leaves a job.
    #[inline(always)]
    pub(crate) fn end(&self, job: usize) -> i64 {
        entry(&self.ends, job)
    }

    /// No more rows hold than those before so many jobs.
    #[inline(always)]
    pub(crate) fn forget(&mut self, jobs: usize) {
        self.passed = self.passed.min(jobs);
    }

    /// Passes all jobs of a list, and returns how many had not been passed.
    pub(crate) fn fill(&mut self, list: &[u32]) -> usize {
        let first = self.passed;
        for passed in first..list.len() {
            let job = match self.side {
                Side::Front => item_at(list, passed),
                Side::Back => item_at(list, list.len() - 1 - passed),
            };
            self.append(passed, job);
        }
        self.passed = list.len();
        list.len().saturating_sub(first)
    }

    // Writes the row behind a job.
    #[inline(always)]
    fn append(&mut self, row: usize, job: usize) {
        let from = row.wrapping_mul(self.machines);
        let begin = entry(&self.begins, job);
        let times = part(&self.times, job, self.machines);
        let end = append_at(&mut self.rows, from, times, begin);
        let cost = end.wrapping_add(entry(&self.ends, job));
        let cost = cost.max(entry(&self.costs, row));
        if let Some(entry) = self.costs.get_mut(row.wrapping_add(1)) {
            *entry = cost;
        }
    }
}

// The row of a table at a place.
#[inline(always)]
fn part(list: &[i64], place: usize, width: usize) -> &[i64] {
    let from = place.wrapping_mul(width);
    list.get(from..from.wrapping_add(width)).unwrap_or(&[])
}

// Writes the row behind the one that begins at a place, and returns when the job is completed.
#[inline(always)]
fn append_at(rows: &mut [i64], from: usize, times: &[i64], begin: i64) -> i64 {
    let middle = from.wrapping_add(times.len());
    let Some((before, after)) = rows.split_at_mut_checked(middle) else {
        return begin;
    };
    let before = before.get(from..).unwrap_or(&[]);
    match after.get_mut(..times.len()) {
        Some(after) if before.len() == times.len() => next_row(times, begin, before, after),
        _ => begin,
    }
}

// Each machine in turn, none before it is free; one on which the job has no time stays as it is.
#[inline(always)]
fn next_row(times: &[i64], begin: i64, before: &[i64], after: &mut [i64]) -> i64
    requires before { length before.now ≡ length times.now }
    requires after { length after.old ≡ length times.now }
{
    let mut end = begin;
    for machine in 0..times.len() {
        let time = times[machine];
        if time > 0 {
            end = end.max(before[machine]).wrapping_add(time);
            after[machine] = end;
        } else {
            after[machine] = before[machine];
        }
    }
    end
}
