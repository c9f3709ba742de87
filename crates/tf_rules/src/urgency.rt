//! Apparent tardiness cost: at each time the most urgent job (Vepsalainen and Morton 1987).
use std::alloc::Allocator;
use tf_decode::slots::{number_at, set_number};
use tf_decode::table::TaskTable;
use tf_model::memory::OutOfMemory;

// What the jobs are compared by.
#[derive(Drop)]
struct Urgencies<A: Allocator> {
    // The ratio of the weight of each job to its work.
    ratios: Vec<u128, A>,
    // How many of its predecessors are not listed, and one more once it is listed itself.
    missing: Vec<u64, A>,
    // When those that are listed are completed.
    ready: Vec<u64, A>,
    // The slack that halves the urgency.
    reach: u64,
}

/// The jobs by urgency. So many tenths of the mean work halve it.
pub(crate) fn urgent_first<A: Allocator + Copy, B: Allocator>(
    alloc: A,
    table: &TaskTable<B>,
    look: u64,
) -> Result<Vec<u32, A>, OutOfMemory> {
    let mut urgencies = Urgencies::new(alloc, table, look)?;
    let mut list = Vec::with_capacity(alloc, table.jobs.len())?;
    let mut now: u64 = 0;
    for _ in 0..table.jobs.len() {
        let job = urgencies.most_urgent(table, now);
        list.push(u32::try_from(job).unwrap_or(u32::MAX))?;
        let share = table
            .job(job)
            .work
            .checked_div(table.machines as u64)
            .unwrap_or(0);
        now = now
            .max(number_at(&urgencies.ready, job))
            .wrapping_add(share);
        urgencies.list(table, job, now);
    }
    Ok(list)
}

impl<A: Allocator + Copy> Urgencies<A> {
    fn new<B: Allocator>(alloc: A, table: &TaskTable<B>, look: u64) -> Result<Self, OutOfMemory> {
        let count = table.jobs.len();
        let mut urgencies = Urgencies {
            ratios: Vec::with_capacity(alloc, count)?,
            missing: Vec::with_capacity(alloc, count)?,
            ready: Vec::with_capacity(alloc, count)?,
            reach: 1,
        };
        let mut all: u64 = 0;
        for (job, numbers) in table.jobs.iter().enumerate() {
            let ratio = (u128::from(numbers.weight.max(1)) << 60) / u128::from(numbers.work).max(1);
            urgencies.ratios.push(ratio)?;
            urgencies.missing.push(table.before.of(job).len() as u64)?;
            urgencies.ready.push(numbers.release)?;
            all = all.saturating_add(numbers.work);
        }
        let mean = all.checked_div(count as u64).unwrap_or(0);
        urgencies.reach = (mean.saturating_mul(look) / 10).max(1);
        Ok(urgencies)
    }
}

impl<A: Allocator> Urgencies<A> {
    // The most urgent job of those whose predecessors are listed, the smallest number among equals.
    fn most_urgent<B: Allocator>(&self, table: &TaskTable<B>, now: u64) -> usize {
        let mut best: usize = 0;
        let mut most: u128 = 0;
        for job in 0..table.jobs.len() {
            if number_at(&self.missing, job) == 0 {
                let urgency = self.urgency(table, job, now);
                if urgency > most {
                    most = urgency;
                    best = job;
                }
            }
        }
        best
    }

    // How urgent a job is, at least 1: it falls by half for each reach of slack, and four times as
    // fast for a wait until the job is ready.
    fn urgency<B: Allocator>(&self, table: &TaskTable<B>, job: usize, now: u64) -> u128 {
        let numbers = table.job(job);
        let ready = number_at(&self.ready, job);
        let end = i128::from(now.max(ready)).wrapping_add(i128::from(numbers.work));
        let slack = u64::try_from(i128::from(numbers.due).wrapping_sub(end)).unwrap_or(0);
        let wait = ready.saturating_sub(now).saturating_mul(4);
        let distance = slack.saturating_add(wait).saturating_mul(1_024);
        let halves = distance.checked_div(self.reach).unwrap_or(0).min(60_000);
        let part = u128::from(halves % 1_024);
        let ratio = self.ratios.get(job).copied().unwrap_or(0);
        ((ratio >> (halves / 1_024) as u32).wrapping_mul(2_048_u128.saturating_sub(part))
            / 2_048).max(1)
    }

    // The job is listed, and completed at a time.
    fn list<B: Allocator>(&mut self, table: &TaskTable<B>, job: usize, end: u64) {
        set_number(&mut self.missing, job, 1);
        for other in table.after.of(job) {
            let next = *other as usize;
            let missing = number_at(&self.missing, next).saturating_sub(1);
            set_number(&mut self.missing, next, missing);
            let ready = number_at(&self.ready, next).max(end);
            set_number(&mut self.ready, next, ready);
        }
    }
}
