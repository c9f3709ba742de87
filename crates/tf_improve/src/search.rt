//! The present list of a search, and what a change of it would cost.
use crate::change::{Change, Window};
use crate::random::Random;
use crate::states::States;
use std::alloc::Allocator;
use tf_decode::gaps::Gaps;
use tf_decode::measure::Measure;
use tf_decode::preemption::Preemption;
use tf_decode::slots::{item_at, number_at, set_item};
use tf_decode::table::{Decoder, TaskTable};
use tf_model::memory::OutOfMemory;

// The steps of a change besides those of its operations.
const STEPS_OF_CHANGE: u64 = 16;

/// A search, its present list and its best.
#[derive(Drop)]
pub(crate) struct Search<A: Allocator> {
    pub(crate) list: Vec<u32, A>,
    pub(crate) cost: i128,
    pub(crate) best_list: Vec<u32, A>,
    pub(crate) best: i128,
    pub(crate) steps: u64,
    pub(crate) random: Random,
    /// What trial changes add to the cost.
    pub(crate) samples: Vec<i128, A>,
    // The place of each item, where anything depends on it.
    pub(crate) places: Vec<u32, A>,
    // The states of the present list, and those of the list that is tried up to a place.
    kept: States<A>,
    pub(crate) tried: States<A>,
    stop: usize,
    // What the jobs from each place on cost, where the cost is a maximum.
    rest: Vec<i128, A>,
    pub(crate) preemption: Preemption<A>,
    pub(crate) gaps: Gaps<A>,
}

// Whether the cost of a change follows from the states before its first place.
fn is_by_places<B: Allocator>(table: &TaskTable<B>) -> bool {
    !matches!(
        table.decoder,
        Decoder::Priorities | Decoder::OpenOperations | Decoder::JobGaps | Decoder::OpenGaps
    )
}

impl<A: Allocator + Copy> Search<A> {
    /// A search that begins with a list.
    pub(crate) fn new<B: Allocator>(
        alloc: A,
        table: &TaskTable<B>,
        list: Vec<u32, A>,
        samples: usize,
    ) -> Result<Self, OutOfMemory> {
        let count = list.len();
        let states = if is_by_places(table) {
            count.wrapping_add(1)
        } else {
            1
        };
        Ok(Search {
            list: vec![in alloc; 0_u32; count]?,
            cost: i128::MAX,
            best_list: list,
            best: i128::MAX,
            steps: 0,
            random: Random { state: 1 },
            samples: vec![in alloc; 0_i128; samples]?,
            places: vec![in alloc; 0_u32; count]?,
            kept: States::new(alloc, table, states)?,
            tried: States::new(alloc, table, states)?,
            stop: 0,
            rest: vec![in alloc; i128::MIN; states]?,
            preemption: match table.decoder {
                Decoder::Priorities => Preemption::new(alloc, table)?,
                _ => Preemption::idle(alloc),
            },
            gaps: match table.decoder {
                Decoder::JobGaps | Decoder::OpenGaps => Gaps::new(alloc, table)?,
                _ => Gaps::none(alloc),
            },
        })
    }
}

impl<A: Allocator> Search<A> {
    /// Goes back to the best list, and returns whether its cost is known.
    pub(crate) fn restart<B: Allocator>(&mut self, table: &TaskTable<B>) -> bool {
        if self.list.len() != self.best_list.len() {
            return false;
        }
        self.list.copy_from_slice(&self.best_list);
        let all = Window {
            first: 0,
            last: self.list.len().wrapping_sub(1),
        };
        match self.cost_of(table, all, i128::MAX) {
            Some(cost) => {
                self.keep(table, all, cost);
                true
            }
            None => false,
        }
    }

    /// Makes a change, and returns what the list costs then if that is at most the limit. The
    /// change is to be kept or undone before the next.
    pub(crate) fn cost_with<B: Allocator>(
        &mut self,
        table: &TaskTable<B>,
        change: Change,
        limit: i128,
    ) -> Option<i128> {
        change.apply(&mut self.list);
        self.cost_of(table, change.window(), limit)
    }

    // What the list costs if that is at most the limit. Outside a window it is the present one.
    fn cost_of<B: Allocator>(
        &mut self,
        table: &TaskTable<B>,
        window: Window,
        limit: i128,
    ) -> Option<i128> {
        self.steps = self.steps.wrapping_add(STEPS_OF_CHANGE);
        self.number(table, window);
        match table.decoder {
            Decoder::OpenOperations => self.cost_of_operations(table, limit),
            Decoder::Priorities => self.cost_of_runs(table, limit),
            Decoder::JobGaps | Decoder::OpenGaps => self.cost_in_gaps(table, limit),
            _ => self.cost_by_places(table, window, limit),
        }
    }

    // Writes the places of the items in a window, where anything depends on them.
    fn number<B: Allocator>(&mut self, table: &TaskTable<B>, window: Window) {
        if table.has_arcs || matches!(table.decoder, Decoder::Priorities) {
            for place in window.first..window.last.wrapping_add(1) {
                let number = u32::try_from(place).unwrap_or(u32::MAX);
                set_item(&mut self.places, item_at(&self.list, place), number);
            }
        }
    }

    // From the first changed place on, up to a place behind which nothing is changed.
    fn cost_by_places<B: Allocator>(
        &mut self,
        table: &TaskTable<B>,
        window: Window,
        limit: i128,
    ) -> Option<i128> {
        self.tried.copy(
            &self.kept,
            Window {
                first: window.first,
                last: window.first,
            },
            table.machines,
        );
        let mut cost = self.kept.cost_before(window.first);
        let mut is_equal = true;
        for place in window.first..self.list.len() {
            let job = item_at(&self.list, place);
            let end = self.tried.append(table, place, job);
            cost = table
                .measure
                .joined(cost, table.measure.price(table.job(job), end));
            self.stop = place.wrapping_add(1);
            self.steps = self.steps.wrapping_add(table.machines as u64);
            if cost > limit {
                return None;
            }
            self.tried.set_cost(self.stop, cost);
            if table.has_arcs {
                is_equal = is_equal && end == number_at(&self.kept.ends, job);
            }
            if place >= window.last && is_equal && self.is_settled(table.machines) {
                let all = self.joined_with_rest(table, cost);
                return if all > limit { None } else { Some(all) };
            }
        }
        Some(cost)
    }

    // Whether the machines are free when they were at this place of the present list.
    #[inline(always)]
    fn is_settled(&self, machines: usize) -> bool {
        self.tried.before(self.stop, machines) == self.kept.before(self.stop, machines)
    }

    // What all jobs cost where those from a place on cost the same as in the present list.
    fn joined_with_rest<B: Allocator>(&self, table: &TaskTable<B>, cost: i128) -> i128 {
        match table.measure {
            Measure::MaximumLateness => cost.max(self.rest_from(self.stop)),
            _ => {
                let all = self.kept.cost_before(self.list.len());
                cost.wrapping_add(all.wrapping_sub(self.kept.cost_before(self.stop)))
            }
        }
    }

    fn rest_from(&self, place: usize) -> i128 {
        self.rest.get(place).copied().unwrap_or(i128::MIN)
    }

    /// Keeps a change that was made, of a list that costs so much.
    pub(crate) fn keep<B: Allocator>(&mut self, table: &TaskTable<B>, window: Window, cost: i128) {
        if is_by_places(table) {
            self.keep_states(table, window);
        }
        self.cost = cost;
        if cost < self.best && self.list.len() == self.best_list.len() {
            self.best = cost;
            self.best_list.copy_from_slice(&self.list);
        }
    }

    fn keep_states<B: Allocator>(&mut self, table: &TaskTable<B>, window: Window) {
        let stop = self.stop;
        for place in window.first..stop {
            self.kept.copy_end(&self.tried, item_at(&self.list, place));
        }
        let before = self.kept.cost_before(stop);
        let changed = Window {
            first: window.first,
            last: stop,
        };
        self.kept.copy(&self.tried, changed, table.machines);
        if matches!(table.measure, Measure::MaximumLateness) {
            self.keep_maxima(table, window.first);
        } else if self.kept.cost_before(stop) != before {
            let shift = self.kept.cost_before(stop).wrapping_sub(before);
            self.kept.shift_costs(stop.wrapping_add(1), shift);
        }
    }

    // The maxima behind the last place that was tried, and those from each place on.
    fn keep_maxima<B: Allocator>(&mut self, table: &TaskTable<B>, first: usize) {
        let stop = self.stop;
        for place in stop..self.list.len() {
            let cost = self
                .kept
                .cost_before(place)
                .max(self.price_at(table, place));
            if cost == self.kept.cost_before(place.wrapping_add(1)) {
                break;
            }
            self.kept.set_cost(place.wrapping_add(1), cost);
        }
        for done in 0..stop {
            let place = stop - 1 - done;
            let behind = self.rest_from(place.wrapping_add(1));
            let rest = behind.max(self.price_at(table, place));
            if place < first && rest == self.rest_from(place) {
                return;
            }
            if let Some(entry) = self.rest.get_mut(place) {
                *entry = rest;
            }
        }
    }

    // What the job at a place of the present list costs.
    fn price_at<B: Allocator>(&self, table: &TaskTable<B>, place: usize) -> i128 {
        let job = item_at(&self.list, place);
        table
            .measure
            .price(table.job(job), number_at(&self.kept.ends, job))
    }

    /// Takes a change back that was made.
    pub(crate) fn undo<B: Allocator>(&mut self, table: &TaskTable<B>, change: Change) {
        if table.has_arcs && is_by_places(table) {
            for place in change.window().first..self.stop {
                self.tried.copy_end(&self.kept, item_at(&self.list, place));
            }
        }
        change.reversed().apply(&mut self.list);
        self.number(table, change.window());
    }
}
