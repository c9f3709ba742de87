//! A list improved.
use crate::anneal::{Annealing, TRIALS};
use crate::greedy::{by_insertion, is_by_insertion};
use crate::search::Search;
use crate::watch::Watch;
use std::alloc::Allocator;
use tf_decode::table::TaskTable;
use tf_model::memory::OutOfMemory;

// The largest number of jobs times machines of which a list is improved, since the states of the
// machines are kept for each place.
const MOST_STATES: usize = 2_000_000;

const ROUNDS: u64 = 3;

/// When a search ends.
#[derive(Clone, Copy, Debug)]
pub struct SearchEffort {
    /// After so many steps: operations that are placed, and 16 for each change.
    pub steps: u64,
    /// At a cost of at most this, as a lower bound.
    pub target: Option<i128>,
}

/// A list that costs no more by its decoder than the one that it begins with. It has the same
/// items, and keeps the arcs where the first one does. Very long lists are returned as they are.
pub fn improved<A: Allocator + Copy, B: Allocator, W: Watch>(
    alloc: A,
    table: &TaskTable<B>,
    list: Vec<u32, A>,
    effort: SearchEffort,
    watch: &mut W,
) -> Result<Vec<u32, A>, OutOfMemory> {
    if list.len() < 2 || table.jobs.len().saturating_mul(table.machines) > MOST_STATES {
        return Ok(list);
    }
    if is_by_insertion(table) {
        return by_insertion(alloc, table, list, effort, watch);
    }
    annealed(alloc, table, list, effort, watch)
}

// A list found by simulated annealing (Kirkpatrick, Gelatt and Vecchi 1983).
fn annealed<A: Allocator + Copy, B: Allocator, W: Watch>(
    alloc: A,
    table: &TaskTable<B>,
    list: Vec<u32, A>,
    effort: SearchEffort,
    watch: &mut W,
) -> Result<Vec<u32, A>, OutOfMemory> {
    let mut search = Search::new(alloc, table, list, TRIALS)?;
    for round in 0..ROUNDS {
        if !search.restart(table) {
            break;
        }
        let annealing = annealing_of(round, search.steps, effort);
        search.anneal(table, annealing, watch);
    }
    Ok(search.best_list)
}

// The annealing of a round that begins after so many steps. The first round begins hot; the others
// begin at a quarter of its temperature, with the best list.
fn annealing_of(round: u64, steps: u64, effort: SearchEffort) -> Annealing {
    let rounds = ROUNDS.saturating_sub(round).max(1);
    let share = effort.steps.saturating_sub(steps) / rounds;
    Annealing {
        begin: steps,
        end: steps.saturating_add(share),
        heat: if round == 0 { 512 } else { 128 },
        halvings: if round == 0 { 10 } else { 8 },
        target: effort.target.unwrap_or(i128::MIN),
    }
}
