//! The state of the machines, and what a job makes of it.
ghost use Rattle.std.specs.Prelude.{◌≡◌, ◌<◌, length};

use crate::measure::{LATE, Measure};
use crate::routes::Operation;
use crate::slots::{number_at, set_number};
use crate::table::{Decoder, TaskTable};
use std::alloc::Allocator;

impl<A: Allocator> TaskTable<A> {
    /// Appends a job that is ready at a time, and returns when it is completed: [`LATE`] where it
    /// would be late and only the late jobs cost, or where it waits for one that is. Then it takes
    /// no time now.
    #[inline(always)]
    pub fn append(&self, job: usize, ready: u64, before: &[u64], after: &mut [u64]) -> u64 {
        if before.is_empty() || after.len() != before.len() {
            return 0;
        }
        if !matches!(self.measure, Measure::LateWeight) {
            return self.append_in_time(job, ready, before, after);
        }
        if ready < LATE {
            let end = self.append_in_time(job, ready, before, after);
            if i128::from(end) <= i128::from(self.job(job).due) {
                return end;
            }
        }
        if after.len() == before.len() {
            after.copy_from_slice(before);
        }
        LATE
    }

    /// Appends a job that is late, and returns when it is completed.
    pub fn append_late(&self, job: usize, ready: u64, before: &[u64], after: &mut [u64]) -> u64 {
        if before.is_empty() || after.len() != before.len() {
            return 0;
        }
        self.append_in_time(job, ready, before, after)
    }

    // Appends a job, late or not.
    #[inline(always)]
    fn append_in_time(&self, job: usize, ready: u64, before: &[u64], after: &mut [u64]) -> u64
        requires machines { 0 < length before.now }
        requires after { length after.old ≡ length before.now }
    {
        let times = self.times_of(job);
        match self.decoder {
            Decoder::Parallel => append_parallel(self.job(job).work, ready, before, after),
            Decoder::Machine | Decoder::Priorities => {
                let end = before[0].max(ready).wrapping_add(self.job(job).work);
                after[0] = end;
                end
            }
            _ if times.len() != before.len() => 0,
            Decoder::Flow => append_flow(times, ready, before, after),
            Decoder::FlowWithoutWait => append_without_wait(times, ready, before, after),
            Decoder::JobOrder => {
                let route = self.routes.of(job);
                append_route(route, self.is_without_wait, ready, before, after)
            }
            _ => append_open(times, self.is_without_wait, ready, before, after),
        }
    }
}

// The machine that is free last among those that are free when the job is ready, else the first
// that is free, gets free when the job is completed.
#[inline(always)]
fn append_parallel(time: u64, ready: u64, before: &[u64], after: &mut [u64]) -> u64
    requires machines { 0 < length before.now }
    requires after { length after.old ≡ length before.now }
{
    let chosen = last_free(before, ready);
    let end = before[chosen].max(ready).wrapping_add(time);
    for machine in 0..chosen {
        after[machine] = before[machine];
    }
    let last = before.len() - 1;
    for machine in chosen..last {
        after[machine] = before[machine + 1].min(before[machine].max(end));
    }
    after[last] = before[last].max(end);
    end
}

// The last machine that is free at a time, and the first where none is.
#[inline(always)]
fn last_free(free: &[u64], ready: u64) -> usize
    requires { 0 < length free.now }
    ensures { result < length free.now }
{
    for machine in 1..free.len() {
        if free[machine] > ready {
            return machine - 1;
        }
    }
    free.len() - 1
}

#[inline(always)]
fn append_flow(times: &[u64], ready: u64, before: &[u64], after: &mut [u64]) -> u64
    requires times { length times.now ≡ length before.now }
    requires after { length after.old ≡ length before.now }
{
    let mut end = ready;
    for machine in 0..times.len() {
        let time = times[machine];
        if time > 0 {
            end = end.max(before[machine]).wrapping_add(time);
            after[machine] = end;
        } else {
            after[machine] = before[machine];
        }
    }
    end
}

// The job starts so late that it finds each of its machines free.
fn append_without_wait(times: &[u64], ready: u64, before: &[u64], after: &mut [u64]) -> u64
    requires times { length times.now ≡ length before.now }
    requires after { length after.old ≡ length before.now }
{
    let mut start = ready;
    let mut work: u64 = 0;
    for machine in 0..times.len() {
        if times[machine] > 0 {
            start = start.max(before[machine].saturating_sub(work));
            work = work.wrapping_add(times[machine]);
        }
    }
    let mut end = start;
    for machine in 0..times.len() {
        if times[machine] > 0 {
            end = end.wrapping_add(times[machine]);
            after[machine] = end;
        } else {
            after[machine] = before[machine];
        }
    }
    end
}

// The machines of the job in the order of its route, without a wait if that is asked for.
fn append_route(
    route: &[Operation],
    is_without_wait: bool,
    ready: u64,
    before: &[u64],
    after: &mut [u64],
) -> u64
    requires after { length after.old ≡ length before.now }
{
    after.copy_from_slice(before);
    let mut end = ready;
    if is_without_wait {
        end = start_on_route(route, ready, before);
    }
    for operation in route {
        let free = number_at(before, operation.machine());
        end = end.max(free).wrapping_add(operation.time);
        set_number(after, operation.machine(), end);
    }
    end
}

// From when on a job finds each machine of its route free.
fn start_on_route(route: &[Operation], ready: u64, before: &[u64]) -> u64 {
    let mut start = ready;
    let mut work: u64 = 0;
    for operation in route {
        let free = number_at(before, operation.machine());
        start = start.max(free.saturating_sub(work));
        work = work.wrapping_add(operation.time);
    }
    start
}

// The machines of the job by when they are free, the one of the longest time first among equals;
// without a wait if that is asked for.
fn append_open(
    times: &[u64],
    is_without_wait: bool,
    ready: u64,
    before: &[u64],
    after: &mut [u64],
) -> u64
    requires times { length times.now ≡ length before.now }
    requires after { length after.old ≡ length before.now }
{
    after.copy_from_slice(before);
    let mut end = ready;
    if is_without_wait {
        end = start_without_wait(times, ready, before);
    }
    let mut last: Option<OpenPlace> = None;
    for _ in 0..times.len() {
        let Some(next) = next_machine(times, before, last) else {
            return end;
        };
        if next.machine < after.len() {
            end = end.max(next.free).wrapping_add(next.time);
            after[next.machine] = end;
        }
        last = Some(next);
    }
    end
}

// From when on a job finds each machine free, in the order in which it takes them.
fn start_without_wait(times: &[u64], ready: u64, before: &[u64]) -> u64
    requires { length times.now ≡ length before.now }
{
    let mut start = ready;
    let mut work: u64 = 0;
    let mut last: Option<OpenPlace> = None;
    for _ in 0..times.len() {
        let Some(next) = next_machine(times, before, last) else {
            return start;
        };
        start = start.max(next.free.saturating_sub(work));
        work = work.wrapping_add(next.time);
        last = Some(next);
    }
    start
}

// A machine, since when it is free, and the time of a job on it.
#[derive(Clone, Copy)]
struct OpenPlace {
    machine: usize,
    free: u64,
    time: u64,
}

impl OpenPlace {
    // Whether the job takes this machine before the other.
    fn is_before(self, other: OpenPlace) -> bool {
        if self.free != other.free {
            return self.free < other.free;
        }
        if self.time != other.time {
            return self.time > other.time;
        }
        self.machine < other.machine
    }
}

// The first machine that the job takes after the last one.
fn next_machine(times: &[u64], before: &[u64], last: Option<OpenPlace>) -> Option<OpenPlace>
    requires { length times.now ≡ length before.now }
{
    let mut first: Option<OpenPlace> = None;
    for machine in 0..times.len() {
        let place = OpenPlace {
            machine,
            free: before[machine],
            time: times[machine],
        };
        let is_later = last.is_none_or(|last| last.is_before(place));
        let is_first = first.is_none_or(|first| place.is_before(first));
        if place.time > 0 && is_later && is_first {
            first = Some(place);
        }
    }
    first
}
