//! The orders of the operations on the machines.
use std::alloc::Allocator;
use tf_decode::slots::{item_at, set_item};
use tf_decode::table::TaskTable;
use tf_model::memory::OutOfMemory;

/// No operation.
pub(crate) const NOWHERE: usize = u32::MAX as usize;

/// Two operations, one directly after the other on their machine.
#[derive(Clone, Copy)]
pub(crate) struct Pair {
    pub(crate) first: usize,
    pub(crate) second: usize,
}

/// The neighbours of each operation in its job and on its machine.
#[derive(Drop)]
pub(crate) struct Links<A: Allocator> {
    previous: Vec<u32, A>,
    next: Vec<u32, A>,
    before: Vec<u32, A>,
    after: Vec<u32, A>,
    // The last operation of each machine so far.
    last: Vec<u32, A>,
}

// The number of an operation.
pub(crate) fn number_of(operation: usize) -> u32 {
    u32::try_from(operation).unwrap_or(u32::MAX)
}

impl<A: Allocator + Copy> Links<A> {
    /// The neighbours in the jobs, and none on the machines.
    pub(crate) fn new<B: Allocator>(alloc: A, table: &TaskTable<B>) -> Result<Self, OutOfMemory> {
        let count = table.routes.all().len();
        let mut links = Links {
            previous: vec![in alloc; u32::MAX; count]?,
            next: vec![in alloc; u32::MAX; count]?,
            before: vec![in alloc; u32::MAX; count]?,
            after: vec![in alloc; u32::MAX; count]?,
            last: vec![in alloc; u32::MAX; table.machines]?,
        };
        for operation in 1..count {
            let earlier = operation - 1;
            if table.job_of(earlier) == table.job_of(operation) {
                set_item(&mut links.previous, operation, number_of(earlier));
                set_item(&mut links.next, earlier, number_of(operation));
            }
        }
        Ok(links)
    }
}

impl<A: Allocator> Links<A> {
    /// The operation before one in its job.
    #[inline(always)]
    pub(crate) fn previous(&self, operation: usize) -> usize {
        item_at(&self.previous, operation)
    }

    /// The operation after one in its job.
    #[inline(always)]
    pub(crate) fn next(&self, operation: usize) -> usize {
        item_at(&self.next, operation)
    }

    /// The operation before one on its machine.
    #[inline(always)]
    pub(crate) fn before(&self, operation: usize) -> usize {
        item_at(&self.before, operation)
    }

    /// The operation after one on its machine.
    #[inline(always)]
    pub(crate) fn after(&self, operation: usize) -> usize {
        item_at(&self.after, operation)
    }

    /// Orders the operations on each machine as in a list.
    pub(crate) fn order<B: Allocator>(&mut self, table: &TaskTable<B>, list: &[u32]) {
        self.last.fill(u32::MAX);
        for item in list {
            let operation = *item as usize;
            let machine = table.routes.at(operation).machine();
            let last = item_at(&self.last, machine);
            self.join(last, operation);
            set_item(&mut self.after, operation, u32::MAX);
            set_item(&mut self.last, machine, *item);
        }
    }

    /// Turns two operations round.
    pub(crate) fn swap(&mut self, pair: Pair) {
        let before = self.before(pair.first);
        let after = self.after(pair.second);
        self.join(before, pair.second);
        self.join(pair.second, pair.first);
        self.join(pair.first, after);
    }

    // One operation directly after another on their machine.
    fn join(&mut self, first: usize, second: usize) {
        set_item(&mut self.after, first, number_of(second));
        set_item(&mut self.before, second, number_of(first));
    }
}
