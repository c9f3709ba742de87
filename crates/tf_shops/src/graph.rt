//! The disjunctive graph of a job shop (Roy and Sussmann 1964), with the longest paths to and from
//! each operation.
use crate::links::{Links, NOWHERE, Pair, number_of};
use std::alloc::Allocator;
use tf_decode::slots::{item_at, number_at, set_item, set_number};
use tf_decode::table::TaskTable;
use tf_model::memory::OutOfMemory;

/// A schedule as a graph.
#[derive(Drop)]
pub(crate) struct Graph<A: Allocator> {
    pub(crate) links: Links<A>,
    /// The operations, none before those that it waits for.
    pub(crate) order: Vec<u32, A>,
    // The place of each operation in the order.
    places: Vec<u32, A>,
    // When each operation starts, and how much follows its end.
    heads: Vec<u64, A>,
    tails: Vec<u64, A>,
    // What follows the end of each job: the latest due date less its own.
    rests: Vec<u64, A>,
    // The operations that move behind others.
    is_moved: Vec<bool, A>,
    moved: Vec<u32, A>,
    /// How many operations were looked at.
    pub(crate) steps: u64,
}

/// The longest path: its length, and the last operation on it.
#[derive(Clone, Copy)]
pub(crate) struct Longest {
    pub(crate) length: u64,
    pub(crate) last: usize,
}

/// The latest due date of all jobs.
pub(crate) fn latest_due<B: Allocator>(table: &TaskTable<B>) -> i64 {
    let mut latest = i64::MIN;
    for job in &table.jobs {
        latest = latest.max(job.due);
    }
    latest
}

impl<A: Allocator + Copy> Graph<A> {
    /// A graph whose machines have no order yet.
    pub(crate) fn new<B: Allocator>(alloc: A, table: &TaskTable<B>) -> Result<Self, OutOfMemory> {
        let count = table.routes.all().len();
        let latest = latest_due(table);
        let mut rests = Vec::with_capacity(alloc, table.jobs.len())?;
        for job in &table.jobs {
            rests.push(u64::try_from(latest.wrapping_sub(job.due)).unwrap_or(0))?;
        }
        Ok(Graph {
            links: Links::new(alloc, table)?,
            order: vec![in alloc; 0_u32; count]?,
            places: vec![in alloc; 0_u32; count]?,
            heads: vec![in alloc; 0_u64; count]?,
            tails: vec![in alloc; 0_u64; count]?,
            rests,
            is_moved: vec![in alloc; false; count]?,
            moved: vec![in alloc; 0_u32; count]?,
            steps: 0,
        })
    }
}

impl<A: Allocator> Graph<A> {
    /// Takes over the orders of a list, in which no operation stands before one that it waits for.
    pub(crate) fn read<B: Allocator>(&mut self, table: &TaskTable<B>, list: &[u32]) {
        if self.order.len() != list.len() {
            return;
        }
        self.order.copy_from_slice(list);
        for (place, operation) in list.iter().enumerate() {
            set_item(&mut self.places, *operation as usize, number_of(place));
        }
        self.links.order(table, list);
        self.measure(table, 0, list.len());
    }

    // When an operation ends; 0 where it is not there.
    #[inline(always)]
    fn end<B: Allocator>(&self, table: &TaskTable<B>, operation: usize) -> u64 {
        number_at(&self.heads, operation).wrapping_add(table.routes.at(operation).time)
    }

    // How much follows the start of an operation; 0 where it is not there.
    #[inline(always)]
    fn rest<B: Allocator>(&self, table: &TaskTable<B>, operation: usize) -> u64 {
        number_at(&self.tails, operation).wrapping_add(table.routes.at(operation).time)
    }

    // When an operation can start by its job.
    #[inline(always)]
    fn job_head<B: Allocator>(&self, table: &TaskTable<B>, operation: usize) -> u64 {
        let previous = self.links.previous(operation);
        if previous != NOWHERE {
            return self.end(table, previous);
        }
        let job = table.job_of(operation);
        let mut head = table.job(job).release;
        if table.has_arcs {
            for other in table.before.of(job) {
                let last = table.routes.end(*other as usize).wrapping_sub(1);
                head = head.max(self.end(table, last));
            }
        }
        head
    }

    // How much follows the end of an operation by its job.
    #[inline(always)]
    fn job_tail<B: Allocator>(&self, table: &TaskTable<B>, operation: usize) -> u64 {
        let next = self.links.next(operation);
        if next != NOWHERE {
            return self.rest(table, next);
        }
        let job = table.job_of(operation);
        let mut tail = number_at(&self.rests, job);
        if table.has_arcs {
            for other in table.after.of(job) {
                let first = table.routes.begin(*other as usize);
                tail = tail.max(self.rest(table, first));
            }
        }
        tail
    }

    // Computes the heads from a place of the order on, and the tails up to another.
    fn measure<B: Allocator>(&mut self, table: &TaskTable<B>, from: usize, to: usize) {
        for place in from..self.order.len() {
            let operation = item_at(&self.order, place);
            let free = self.end(table, self.links.before(operation));
            let head = self.job_head(table, operation).max(free);
            set_number(&mut self.heads, operation, head);
        }
        for done in 0..to {
            let operation = item_at(&self.order, to - 1 - done);
            let follows = self.rest(table, self.links.after(operation));
            let tail = self.job_tail(table, operation).max(follows);
            set_number(&mut self.tails, operation, tail);
        }
        let looked = self.order.len().saturating_sub(from).wrapping_add(to);
        self.steps = self.steps.wrapping_add(looked as u64);
    }

    /// The longest path.
    pub(crate) fn longest<B: Allocator>(&self, table: &TaskTable<B>) -> Longest {
        let mut longest = Longest {
            length: 0,
            last: NOWHERE,
        };
        for job in 0..table.jobs.len() {
            let last = table.routes.end(job).wrapping_sub(1);
            let end = self.end(table, last);
            let length = end.wrapping_add(number_at(&self.rests, job));
            if length > longest.length {
                longest = Longest { length, last };
            }
        }
        longest
    }

    /// The operations before this one that delay it: in its job, and on its machine.
    pub(crate) fn delaying<B: Allocator>(
        &self,
        table: &TaskTable<B>,
        operation: usize,
    ) -> (Option<usize>, Option<usize>) {
        let head = number_at(&self.heads, operation);
        let before = self.links.before(operation);
        let is_by_machine = before != NOWHERE && self.end(table, before) == head;
        let machine = if is_by_machine { Some(before) } else { None };
        (self.delaying_in_job(table, operation, head), machine)
    }

    // The operation before one in its job, or the last of a job before it, that ends at a time.
    fn delaying_in_job<B: Allocator>(
        &self,
        table: &TaskTable<B>,
        operation: usize,
        time: u64,
    ) -> Option<usize> {
        let previous = self.links.previous(operation);
        if previous != NOWHERE {
            return if self.end(table, previous) == time {
                Some(previous)
            } else {
                None
            };
        }
        if table.has_arcs {
            for other in table.before.of(table.job_of(operation)) {
                let last = table.routes.end(*other as usize).wrapping_sub(1);
                if self.end(table, last) == time {
                    return Some(last);
                }
            }
        }
        None
    }

    /// The longest path through two operations once they are turned round, at most (Taillard
    /// 1994).
    pub(crate) fn estimate<B: Allocator>(&self, table: &TaskTable<B>, pair: Pair) -> u64 {
        let first_time = table.routes.at(pair.first).time;
        let second_time = table.routes.at(pair.second).time;
        let free = self.end(table, self.links.before(pair.first));
        let second_head = self.job_head(table, pair.second).max(free);
        let second_end = second_head.wrapping_add(second_time);
        let first_head = self.job_head(table, pair.first).max(second_end);
        let follows = self.rest(table, self.links.after(pair.second));
        let first_tail = self.job_tail(table, pair.first).max(follows);
        let first_rest = first_tail.wrapping_add(first_time);
        let second_tail = self.job_tail(table, pair.second).max(first_rest);
        let by_first = first_head.wrapping_add(first_rest);
        let by_second = second_end.wrapping_add(second_tail);
        by_first.max(by_second)
    }

    /// Turns two operations of a longest path round.
    pub(crate) fn swap<B: Allocator>(&mut self, table: &TaskTable<B>, pair: Pair) {
        let from = item_at(&self.places, pair.first);
        let to = item_at(&self.places, pair.second);
        self.links.swap(pair);
        self.reorder(table, pair.first, from, to);
        let count = self.order.len();
        self.measure(table, from.min(count), to.wrapping_add(1).min(count));
    }

    // Puts an operation, and those between two places that wait for it, behind all others there.
    fn reorder<B: Allocator>(
        &mut self,
        table: &TaskTable<B>,
        first: usize,
        from: usize,
        to: usize,
    ) {
        let mut behind: usize = 0;
        for place in from..to.min(self.order.len()).wrapping_add(1) {
            let operation = item_at(&self.order, place);
            if operation == first || self.waits_for_moved(table, operation) {
                self.mark(operation, true);
                set_item(&mut self.moved, behind, number_of(operation));
                behind = behind.wrapping_add(1);
            } else {
                self.put(place.wrapping_sub(behind), operation);
            }
        }
        let begin = to.wrapping_add(1).wrapping_sub(behind);
        for k in 0..behind {
            let operation = item_at(&self.moved, k);
            self.mark(operation, false);
            self.put(begin.wrapping_add(k), operation);
        }
    }

    // Whether an operation waits for one that moves.
    fn waits_for_moved<B: Allocator>(&self, table: &TaskTable<B>, operation: usize) -> bool {
        let previous = self.links.previous(operation);
        if self.is_moved(previous) || self.is_moved(self.links.before(operation)) {
            return true;
        }
        if previous == NOWHERE && table.has_arcs {
            for other in table.before.of(table.job_of(operation)) {
                if self.is_moved(table.routes.end(*other as usize).wrapping_sub(1)) {
                    return true;
                }
            }
        }
        false
    }

    fn is_moved(&self, operation: usize) -> bool {
        self.is_moved.get(operation).copied().unwrap_or(false)
    }

    fn mark(&mut self, operation: usize, is_moved: bool) {
        if let Some(entry) = self.is_moved.get_mut(operation) {
            *entry = is_moved;
        }
    }

    // Puts an operation at a place of the order.
    fn put(&mut self, place: usize, operation: usize) {
        set_item(&mut self.order, place, number_of(operation));
        set_item(&mut self.places, operation, number_of(place));
    }
}
