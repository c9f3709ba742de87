//! A job shop or an open shop into which one job after another is inserted, each operation into the
//! first gap of its machine that is long enough.
use crate::measure::{LATE, Measure};
use crate::routes::Operation;
use crate::slots::{number_at, set_number};
use crate::table::{Decoder, TaskTable};
use std::alloc::{Allocator, Global};
use tf_model::memory::OutOfMemory;

// When a machine is busy.
#[derive(Clone, Copy, Debug)]
struct Busy {
    start: u64,
    end: u64,
}

// A gap of a machine that is long enough.
#[derive(Clone, Copy)]
struct Gap {
    // When the operation starts.
    start: u64,
    // How many others are before it on its machine.
    place: usize,
}

// An operation of the last job, and its gap.
#[derive(Clone, Copy)]
struct Placed {
    operation: Operation,
    gap: Gap,
}

impl Placed {
    // One that is not there.
    const NONE: Placed = Placed {
        operation: Operation::NONE,
        gap: Gap { start: 0, place: 0 },
    };
}

// The most operations of a job of an open shop that are tried in all their orders.
const MOST_IN_ALL_ORDERS: usize = 4;

/// When the machines of a shop are busy.
#[derive(Drop)]
pub struct Gaps<A: Allocator = Global> {
    // A row for each machine, in the order of time, with room for all its operations.
    busy: Vec<Busy, A>,
    // Where the row of each machine begins; the last one ends at the end.
    begins: Vec<u64, A>,
    // How many entries of each row are used.
    used: Vec<u64, A>,
    // The operations of the last job in the order in which they run, and in the best one of the
    // orders that were tried.
    placed: Vec<Placed, A>,
    best: Vec<Placed, A>,
    // How many operations the last job has.
    count: usize,
    /// How many entries were looked at or moved.
    pub steps: u64,
}

impl<A: Allocator + Copy> Gaps<A> {
    /// Of no machine.
    pub fn none(alloc: A) -> Self {
        Gaps {
            busy: Vec::new(alloc),
            begins: Vec::new(alloc),
            used: Vec::new(alloc),
            placed: Vec::new(alloc),
            best: Vec::new(alloc),
            count: 0,
            steps: 0,
        }
    }

    /// No machine is busy.
    pub fn new<B: Allocator>(alloc: A, table: &TaskTable<B>) -> Result<Self, OutOfMemory> {
        let nothing = Busy { start: 0, end: 0 };
        Ok(Gaps {
            busy: vec![in alloc; nothing; table.routes.all().len()]?,
            begins: begins_of(alloc, table)?,
            used: vec![in alloc; 0_u64; table.machines]?,
            placed: vec![in alloc; Placed::NONE; table.machines]?,
            best: vec![in alloc; Placed::NONE; table.machines]?,
            count: 0,
            steps: 0,
        })
    }
}

// Where the operations of each machine begin if they stand one machine after another, and where the
// last ones end.
fn begins_of<A: Allocator, B: Allocator>(
    alloc: A,
    table: &TaskTable<B>,
) -> Result<Vec<u64, A>, OutOfMemory> {
    let mut begins = vec![in alloc; 0_u64; table.machines.wrapping_add(1)]?;
    for operation in table.routes.all() {
        let next = operation.machine().wrapping_add(1);
        let count = number_at(&begins, next).wrapping_add(1);
        set_number(&mut begins, next, count);
    }
    let mut all: u64 = 0;
    for begin in begins.iter_mut() {
        all = all.wrapping_add(*begin);
        *begin = all;
    }
    Ok(begins)
}

impl<A: Allocator> Gaps<A> {
    /// Takes all jobs out.
    pub fn clear(&mut self) {
        self.used.fill(0);
    }

    /// Inserts a job that is ready at a time, and returns when it is completed: [`LATE`] where it
    /// would be late and only the late jobs cost, or where it waits for one that is. Then it is
    /// not inserted.
    pub fn insert<B: Allocator>(&mut self, table: &TaskTable<B>, job: usize, ready: u64) -> u64 {
        if !matches!(table.measure, Measure::LateWeight) {
            return self.insert_late(table, job, ready);
        }
        if ready < LATE {
            let end = self.find(table, job, ready);
            if i128::from(end) <= i128::from(table.job(job).due) {
                self.fill();
                return end;
            }
        }
        LATE
    }

    /// Inserts a job, late or not, and returns when it is completed.
    pub fn insert_late<B: Allocator>(
        &mut self,
        table: &TaskTable<B>,
        job: usize,
        ready: u64,
    ) -> u64 {
        let end = self.find(table, job, ready);
        self.fill();
        end
    }

    /// The operations of the job that was inserted last, and when each starts.
    pub fn last(&self, step: usize) -> Option<(Operation, u64)> {
        if step < self.count {
            let placed = self.at(step);
            Some((placed.operation, placed.gap.start))
        } else {
            None
        }
    }

    #[inline(always)]
    fn at(&self, step: usize) -> Placed {
        self.placed.get(step).copied().unwrap_or(Placed::NONE)
    }

    // Finds a gap for each operation of a job, and returns when the last is completed.
    fn find<B: Allocator>(&mut self, table: &TaskTable<B>, job: usize, ready: u64) -> u64 {
        let route = table.routes.of(job);
        self.count = route.len();
        for (placed, operation) in self.placed.iter_mut().zip(route) {
            placed.operation = *operation;
        }
        let end = self.find_along(table.is_without_wait, ready);
        if matches!(table.decoder, Decoder::OpenGaps) {
            return self.find_best(table.is_without_wait, ready, end);
        }
        end
    }

    // Finds the order of an open shop's operations in which they are completed first, all of them
    // where they are few, else those that begin at each operation in turn, both ways around. In the
    // first one they are completed at `end`.
    fn find_best(&mut self, is_without_wait: bool, ready: u64, end: u64) -> u64 {
        let mut least = end;
        self.keep();
        for tried in 1..orders_of(self.count) {
            self.reorder(tried);
            let end = self.find_along(is_without_wait, ready);
            if end < least {
                least = end;
                self.keep();
            }
        }
        if self.placed.len() == self.best.len() {
            self.placed.copy_from_slice(&self.best);
        }
        least
    }

    // The order that was tried last is the best one.
    fn keep(&mut self) {
        if self.placed.len() == self.best.len() {
            self.best.copy_from_slice(&self.placed);
        }
    }

    // The next order after so many: of few operations the first ones are turned by one place, more
    // of them each time when all orders of those are through.
    fn reorder(&mut self, tried: usize) {
        let count = self.count;
        let Some(placed) = self.placed.as_mut_slice().get_mut(..count) else {
            return;
        };
        if count > MOST_IN_ALL_ORDERS {
            if tried == count {
                placed.reverse();
            }
            turn(placed);
            return;
        }
        let mut orders: usize = 1;
        for length in 2..count.saturating_add(1) {
            if let Some(part) = placed.get_mut(..length) {
                turn(part);
            }
            orders = orders.wrapping_mul(length);
            if tried.checked_rem(orders) != Some(0) {
                return;
            }
        }
    }

    // Finds gaps for the operations of a job in their order.
    fn find_along(&mut self, is_without_wait: bool, ready: u64) -> u64 {
        if !is_without_wait {
            return self.find_each(ready);
        }
        let mut begin = ready;
        for _ in 0..self.busy.len().saturating_add(1) {
            let end = self.find_at(begin);
            match end {
                Ok(end) => return end,
                Err(later) => begin = later,
            }
        }
        begin
    }

    // Finds the first gaps: each operation waits for its own.
    fn find_each(&mut self, ready: u64) -> u64 {
        let mut end = ready;
        for step in 0..self.count {
            let operation = self.at(step).operation;
            let gap = self.gap(operation, end);
            self.choose(step, gap);
            end = gap.start.wrapping_add(operation.time);
        }
        end
    }

    // Finds the gaps of a job that begins at a time and never waits: when it is completed, or else
    // a later time before which it cannot begin.
    fn find_at(&mut self, begin: u64) -> Result<u64, u64> {
        let mut end = begin;
        for step in 0..self.count {
            let operation = self.at(step).operation;
            let gap = self.gap(operation, end);
            if gap.start > end {
                return Err(begin.wrapping_add(gap.start - end));
            }
            self.choose(step, gap);
            end = end.wrapping_add(operation.time);
        }
        Ok(end)
    }

    // The first gap that an operation fits from a time on.
    fn gap(&mut self, operation: Operation, ready: u64) -> Gap {
        let row = self.row(operation.machine());
        let first = row.partition_point(|busy| busy.end <= ready);
        let mut gap = Gap {
            start: ready,
            place: first,
        };
        for busy in row.get(first..).unwrap_or(&[]) {
            if busy.start >= gap.start.wrapping_add(operation.time) {
                break;
            }
            gap.start = gap.start.max(busy.end);
            gap.place = gap.place.wrapping_add(1);
        }
        let looked = gap.place.wrapping_sub(first).wrapping_add(1);
        self.steps = self.steps.wrapping_add(looked as u64);
        gap
    }

    // The entries of a machine that are used.
    fn row(&self, machine: usize) -> &[Busy] {
        let from = number_at(&self.begins, machine) as usize;
        let count = number_at(&self.used, machine) as usize;
        self.busy.get(from..from.wrapping_add(count)).unwrap_or(&[])
    }

    fn choose(&mut self, step: usize, gap: Gap) {
        if let Some(placed) = self.placed.get_mut(step) {
            placed.gap = gap;
        }
    }

    // The operations of a job go into the gaps that were found for them.
    fn fill(&mut self) {
        for step in 0..self.count {
            let Placed { operation, gap } = self.at(step);
            let busy = Busy {
                start: gap.start,
                end: gap.start.wrapping_add(operation.time),
            };
            self.put(operation.machine(), gap.place, busy);
        }
    }

    // Puts an entry into a row, where there is room.
    fn put(&mut self, machine: usize, place: usize, busy: Busy) {
        let from = number_at(&self.begins, machine);
        let count = number_at(&self.used, machine);
        let last = from.wrapping_add(count);
        if last >= number_at(&self.begins, machine.wrapping_add(1)) {
            return;
        }
        let first = (from as usize).wrapping_add(place);
        let stop = (last as usize).wrapping_add(1);
        let Some(part) = self.busy.as_mut_slice().get_mut(first..stop) else {
            return;
        };
        if part.is_empty() {
            return;
        }
        part.rotate_right(1);
        part[0] = busy;
        self.steps = self.steps.wrapping_add(1);
        set_number(&mut self.used, machine, count.wrapping_add(1));
    }
}

// In how many orders the operations of a job are tried.
fn orders_of(count: usize) -> usize {
    match count {
        0 | 1 => 1,
        2 => 2,
        3 => 6,
        MOST_IN_ALL_ORDERS => 24,
        _ => count.saturating_mul(2),
    }
}

// The first one goes behind the others.
fn turn(placed: &mut [Placed]) {
    if !placed.is_empty() {
        placed.rotate_left(1);
    }
}
