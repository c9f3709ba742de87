//! Simulated annealing by insertions and exchanges.
use crate::change::Change;
use crate::search::Search;
use crate::watch::Watch;
use std::alloc::Allocator;
use tf_decode::slots::item_at;
use tf_decode::table::TaskTable;

/// The most trial changes, whose median gives the first temperature.
pub(crate) const TRIALS: usize = 400;

// The steps of a change that the arcs forbid.
const STEPS_OF_PROPOSAL: u64 = 16;

// The changes at one temperature.
const CHANGES: u64 = 64;

// The changes of each item below which the first temperature is lower.
const USUAL_CHANGES: i128 = 1_000;

// The natural logarithm of 2 in units of 1/1,024.
const LOGARITHM_OF_TWO: i128 = 710;

/// One annealing.
#[derive(Clone, Copy)]
pub(crate) struct Annealing {
    /// Between these steps.
    pub(crate) begin: u64,
    pub(crate) end: u64,
    /// The first temperature, in units of 1/1,024 of the median of what changes add.
    pub(crate) heat: i128,
    /// How many times the temperature halves.
    pub(crate) halvings: i128,
    /// It ends at a cost of at most the target.
    pub(crate) target: i128,
}

// Trial changes.
#[derive(Clone, Copy)]
struct Sample {
    trials: usize,
    // The median of what they add to the cost or take off it, at least 1.
    median: i128,
}

// The median of those that are not 0, at least 1.
fn median(samples: Option<&mut [i128]>) -> i128 {
    let Some(samples) = samples else {
        return 1;
    };
    samples.sort_unstable();
    let nothing = samples.partition_point(|added| *added == 0);
    let middle = nothing.wrapping_add(samples.len()) / 2;
    samples.get(middle).copied().unwrap_or(1).max(1)
}

impl Annealing {
    // Whether it is over for a search.
    fn is_over<A: Allocator>(self, search: &Search<A>) -> bool {
        search.steps >= self.end || search.best <= self.target
    }

    // The first temperature, in units of 1/1,024, lower where there are few changes of each item.
    fn first_temperature<A: Allocator>(self, search: &Search<A>, sample: Sample) -> i128 {
        let all = i128::from(self.end.saturating_sub(self.begin));
        let sampled = i128::from(search.steps.saturating_sub(self.begin));
        let each = sampled.wrapping_mul(search.list.len() as i128);
        let changes = all.wrapping_mul(sample.trials as i128).checked_div(each);
        let heat = self
            .heat
            .wrapping_mul(changes.unwrap_or(0).min(USUAL_CHANGES))
            / USUAL_CHANGES;
        sample.median.saturating_mul(heat).max(256)
    }

    // The temperature after so many steps.
    fn temperature(self, first: i128, steps: u64) -> i128 {
        let all = i128::from(self.end.saturating_sub(self.begin)).max(1);
        let done = i128::from(steps.saturating_sub(self.begin)).wrapping_mul(
            self.halvings.wrapping_mul(1_024),
        ) / all;
        let halved = u32::try_from(done / 1_024).unwrap_or(u32::MAX);
        let part = 2_048_i128.wrapping_sub(done % 1_024);
        first.checked_shr(halved).unwrap_or(0).saturating_mul(part) / 2_048
    }
}

impl<A: Allocator> Search<A> {
    /// Anneals the present list.
    pub(crate) fn anneal<B: Allocator, W: Watch>(
        &mut self,
        table: &TaskTable<B>,
        annealing: Annealing,
        watch: &mut W,
    ) {
        let sample = self.sample(table, annealing);
        let first = annealing.first_temperature(self, sample);
        let most = annealing.end.saturating_sub(annealing.begin) / (CHANGES * STEPS_OF_PROPOSAL);
        for _ in 0..most {
            watch.at_steps(self.steps, self.best);
            let temperature = annealing.temperature(first, self.steps);
            for _ in 0..CHANGES {
                if annealing.is_over(self) {
                    return;
                }
                self.try_change(table, temperature);
            }
        }
    }

    // Trial changes, for an eighth of the steps at most.
    fn sample<B: Allocator>(&mut self, table: &TaskTable<B>, annealing: Annealing) -> Sample {
        let share = annealing.end.saturating_sub(annealing.begin) / 8;
        let end = annealing.begin.saturating_add(share);
        let mut trials: usize = 0;
        for trial in 0..TRIALS {
            if self.steps >= end {
                break;
            }
            let added = self.trial_change(table);
            if let Some(entry) = self.samples.get_mut(trial) {
                *entry = added;
            }
            trials = trial.wrapping_add(1);
        }
        Sample {
            trials,
            median: median(self.samples.as_mut_slice().get_mut(..trials)),
        }
    }

    // What a random change adds to the cost or takes off it, 0 where the arcs forbid it.
    fn trial_change<B: Allocator>(&mut self, table: &TaskTable<B>) -> i128 {
        let Some(change) = self.proposal(table) else {
            return 0;
        };
        let cost = self
            .cost_with(table, change, i128::MAX)
            .unwrap_or(self.cost);
        self.undo(table, change);
        cost.wrapping_sub(self.cost).wrapping_abs()
    }

    // Keeps a random change if the temperature allows what it adds to the cost.
    fn try_change<B: Allocator>(&mut self, table: &TaskTable<B>, temperature: i128) {
        let Some(change) = self.proposal(table) else {
            return;
        };
        let factor = self.random.logarithm().wrapping_mul(LOGARITHM_OF_TWO);
        let allowed = temperature.saturating_mul(factor) / (1 << 30);
        let limit = self.cost.saturating_add(allowed);
        match self.cost_with(table, change, limit) {
            Some(cost) => self.keep(table, change.window(), cost),
            None => self.undo(table, change),
        }
    }

    // A random change; none where there is no other place or the arcs forbid it.
    fn proposal<B: Allocator>(&mut self, table: &TaskTable<B>) -> Option<Change> {
        let from = self.random.below(self.list.len());
        let proposed = self.other_place(from).map(|to| Change {
            is_exchange: self.random.coin(),
            from,
            to,
        });
        match proposed {
            Some(change) if self.keeps_arcs(table, change) => Some(change),
            _ => {
                self.steps = self.steps.wrapping_add(STEPS_OF_PROPOSAL);
                None
            }
        }
    }

    // A random place at a distance below a random power of 2, so that near places are as frequent
    // as far ones.
    fn other_place(&mut self, place: usize) -> Option<usize> {
        let count = self.list.len();
        let bits = usize::BITS.saturating_sub(count.saturating_sub(1).leading_zeros());
        let power = self.random.below(bits as usize).wrapping_add(1);
        let power = u32::try_from(power).unwrap_or(0);
        let reach = 1_usize.checked_shl(power).unwrap_or(count).min(count);
        let distance = self.random.below(reach.saturating_sub(1)).wrapping_add(1);
        let later = place.wrapping_add(distance);
        let has_later = later < count;
        match place.checked_sub(distance) {
            Some(earlier) if !has_later || self.random.coin() => Some(earlier),
            _ if has_later => Some(later),
            _ => None,
        }
    }

    // Whether a change leaves each job behind its predecessors and before its successors.
    fn keeps_arcs<B: Allocator>(&self, table: &TaskTable<B>, change: Change) -> bool {
        if !table.has_arcs {
            return true;
        }
        self.may_move(table, change.from, change.to)
            && (!change.is_exchange || self.may_move(table, change.to, change.from))
    }

    // Whether no predecessor or successor of the job at a place lies between it and another place.
    fn may_move<B: Allocator>(&self, table: &TaskTable<B>, from: usize, to: usize) -> bool {
        let job = item_at(&self.list, from);
        if from < to {
            for other in table.after.of(job) {
                if item_at(&self.places, *other as usize) <= to {
                    return false;
                }
            }
        } else {
            for other in table.before.of(job) {
                if item_at(&self.places, *other as usize) >= to {
                    return false;
                }
            }
        }
        true
    }
}
