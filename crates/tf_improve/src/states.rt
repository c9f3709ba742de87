//! The states of the machines before each place of a list.
use crate::change::Window;
use std::alloc::Allocator;
use tf_decode::slots::{number_at, set_number};
use tf_decode::table::TaskTable;
use tf_model::memory::OutOfMemory;

/// The states of the machines before each place of a list, and behind the last.
#[derive(Drop)]
pub(crate) struct States<A: Allocator> {
    /// Since when the machines are free before each place.
    pub(crate) free: Vec<u64, A>,
    /// What the jobs before each place cost together.
    pub(crate) costs: Vec<i128, A>,
    /// When each job is completed.
    pub(crate) ends: Vec<u64, A>,
}

impl<A: Allocator + Copy> States<A> {
    /// States before so many places, of which nothing is known.
    pub(crate) fn new<B: Allocator>(
        alloc: A,
        table: &TaskTable<B>,
        places: usize,
    ) -> Result<Self, OutOfMemory> {
        let count = places.wrapping_mul(table.machines);
        Ok(States {
            free: vec![in alloc; 0_u64; count]?,
            costs: vec![in alloc; table.measure.nothing(); places]?,
            ends: vec![in alloc; 0_u64; table.jobs.len()]?,
        })
    }
}

impl<A: Allocator> States<A> {
    /// What the jobs before a place cost together.
    #[inline(always)]
    pub(crate) fn cost_before(&self, place: usize) -> i128 {
        self.costs.get(place).copied().unwrap_or(0)
    }

    /// Since when the machines are free before a place.
    #[inline(always)]
    pub(crate) fn before(&self, place: usize, machines: usize) -> &[u64] {
        let from = place.wrapping_mul(machines);
        self.free
            .get(from..from.wrapping_add(machines))
            .unwrap_or(&[])
    }

    /// Appends a job at a place, and returns when it is completed.
    #[inline(always)]
    pub(crate) fn append<B: Allocator>(
        &mut self,
        table: &TaskTable<B>,
        place: usize,
        job: usize,
    ) -> u64 {
        let ready = table.ready(job, &self.ends);
        let end = append_at(table, &mut self.free, place, job, ready);
        set_number(&mut self.ends, job, end);
        end
    }

    /// Writes what the jobs before a place cost together.
    #[inline(always)]
    pub(crate) fn set_cost(&mut self, place: usize, cost: i128) {
        if let Some(entry) = self.costs.get_mut(place) {
            *entry = cost;
        }
    }

    /// Takes over the states before the places of a window, and behind it.
    pub(crate) fn copy(&mut self, other: &States<A>, window: Window, machines: usize) {
        let stop = window.last.wrapping_add(1);
        copy_part(&mut self.costs, &other.costs, window.first, stop);
        let from = window.first.wrapping_mul(machines);
        copy_part(
            &mut self.free,
            &other.free,
            from,
            stop.wrapping_mul(machines),
        );
    }

    /// Takes over when a job is completed.
    #[inline(always)]
    pub(crate) fn copy_end(&mut self, other: &States<A>, job: usize) {
        set_number(&mut self.ends, job, number_at(&other.ends, job));
    }

    /// Adds to what the jobs before each place cost together, from a place on.
    pub(crate) fn shift_costs(&mut self, place: usize, shift: i128) {
        if let Some(costs) = self.costs.as_mut_slice().get_mut(place..) {
            for cost in costs.iter_mut() {
                *cost = cost.wrapping_add(shift);
            }
        }
    }
}

// Appends a job at a place to the states, and returns when it is completed.
#[inline(always)]
fn append_at<B: Allocator>(
    table: &TaskTable<B>,
    free: &mut [u64],
    place: usize,
    job: usize,
    ready: u64,
) -> u64 {
    let from = place.wrapping_mul(table.machines);
    let middle = from.wrapping_add(table.machines);
    let Some((before, after)) = free.split_at_mut_checked(middle) else {
        return 0;
    };
    let Some(after) = after.get_mut(..table.machines) else {
        return 0;
    };
    let before = before.get(from..).unwrap_or(&[]);
    table.append(job, ready, before, after)
}

// Copies the entries of a part to the same places of another list.
fn copy_part<T: Copy>(into: &mut [T], list: &[T], from: usize, to: usize) {
    let Some(part) = list.get(from..to) else {
        return;
    };
    if let Some(copy) = into.get_mut(from..to) {
        if copy.len() == part.len() {
            copy.copy_from_slice(part);
        }
    }
}
