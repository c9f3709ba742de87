//! Tabu search by swaps at the ends of the blocks of a longest path (Nowicki and Smutnicki 1996).
use crate::graph::{Graph, latest_due};
use crate::links::{NOWHERE, Pair, number_of};
use std::alloc::Allocator;
use tf_decode::slots::{item_at, number_at, set_item, set_number};
use tf_decode::table::TaskTable;
use tf_improve::improve::SearchEffort;
use tf_improve::random::Random;
use tf_improve::watch::Watch;
use tf_model::memory::OutOfMemory;

// The most operations of which an order is searched.
const MOST_OPERATIONS: usize = 200_000;

// How many swaps are remembered, in a table by a hash of their operations.
const MEMORY: usize = 65_536;

// After so many swaps without a better schedule the search goes back to the best one.
const PATIENCE: u64 = 1_000;

// How long a swap is not taken back at least, with few jobs for each machine.
const SHORTEST: usize = 10;

// The fewest random swaps of a new beginning.
const SHAKES: usize = 10;

/// A search, its present schedule and its best.
#[derive(Drop)]
struct Search<A: Allocator> {
    graph: Graph<A>,
    // A longest path, from its end to its beginning, and its length in operations.
    path: Vec<u32, A>,
    on_path: usize,
    // Until which swap each is forbidden, by hash.
    forbidden: Vec<u64, A>,
    swaps: u64,
    // How many swaps there were since the best schedule or the new beginning.
    idle: u64,
    best_list: Vec<u32, A>,
    best: u64,
    // A path that is no longer is the shortest.
    target: u64,
    random: Random,
}

// The swap to be made.
#[derive(Clone, Copy)]
struct Choice {
    // The one of the least estimate that is allowed.
    allowed: Option<Pair>,
    estimate: u64,
    // A random one of those that are forbidden, and their number.
    forbidden: Option<Pair>,
    count: usize,
}

/// A list that costs no more than the one that it begins with, by the makespan or the maximum
/// lateness. It has the same operations, none before those that it waits for. Very long lists are
/// returned as they are.
pub fn improved<A: Allocator + Copy, B: Allocator, W: Watch>(
    alloc: A,
    table: &TaskTable<B>,
    list: Vec<u32, A>,
    effort: SearchEffort,
    watch: &mut W,
) -> Result<Vec<u32, A>, OutOfMemory> {
    let count = list.len();
    if count < 2 || count > MOST_OPERATIONS || count != table.items() {
        return Ok(list);
    }
    let mut search = Search::new(alloc, table, list, effort)?;
    search.run(table, effort.steps, watch);
    Ok(search.best_list)
}

impl<A: Allocator + Copy> Search<A> {
    fn new<B: Allocator>(
        alloc: A,
        table: &TaskTable<B>,
        list: Vec<u32, A>,
        effort: SearchEffort,
    ) -> Result<Self, OutOfMemory> {
        let target = match effort.target {
            Some(target) => target.saturating_add(i128::from(latest_due(table))),
            None => 0,
        };
        Ok(Search {
            graph: Graph::new(alloc, table)?,
            path: vec![in alloc; u32::MAX; list.len()]?,
            on_path: 0,
            forbidden: vec![in alloc; 0_u64; MEMORY]?,
            swaps: 0,
            idle: 0,
            best_list: list,
            best: u64::MAX,
            target: u64::try_from(target).unwrap_or(0),
            random: Random { state: 1 },
        })
    }
}

impl<A: Allocator> Search<A> {
    // Makes so many steps, or fewer.
    fn run<B: Allocator, W: Watch>(&mut self, table: &TaskTable<B>, steps: u64, watch: &mut W) {
        let latest = i128::from(latest_due(table));
        self.graph.read(table, &self.best_list);
        for _ in 0..steps {
            self.look(table);
            watch.at_steps(self.graph.steps, i128::from(self.best).wrapping_sub(latest));
            let is_over = self.graph.steps >= steps || self.best <= self.target;
            if is_over || !self.make_swap(table) {
                return;
            }
            if self.idle >= PATIENCE {
                self.begin_anew(table);
            }
        }
    }

    // Finds a longest path, and keeps the schedule if it is the best.
    fn look<B: Allocator>(&mut self, table: &TaskTable<B>) {
        let longest = self.graph.longest(table);
        self.trace(table, longest.last);
        let is_better = longest.length < self.best;
        if is_better && self.best_list.len() == self.graph.order.len() {
            self.best = longest.length;
            self.best_list.copy_from_slice(&self.graph.order);
            self.idle = 0;
        }
    }

    // Follows a longest path from its end to its beginning.
    fn trace<B: Allocator>(&mut self, table: &TaskTable<B>, last: usize) {
        let mut operation = last;
        self.on_path = 0;
        for place in 0..self.path.len() {
            set_item(&mut self.path, place, number_of(operation));
            self.on_path = place.wrapping_add(1);
            operation = match self.graph.delaying(table, operation) {
                (Some(job), Some(machine)) => if self.random.coin() { job } else { machine },
                (Some(job), None) => job,
                (None, Some(machine)) => machine,
                (None, None) => break,
            };
        }
        let looked = self.on_path.wrapping_add(table.jobs.len());
        self.graph.steps = self.graph.steps.wrapping_add(looked as u64);
    }

    // The operation at a place of the path, if it is on the machine of another.
    fn beside<B: Allocator>(&self, table: &TaskTable<B>, place: usize, other: usize) -> bool {
        let machine = table.routes.at(item_at(&self.path, place)).machine;
        place < self.on_path && machine == table.routes.at(other).machine
    }

    // The operations at a place of the path and behind it, if they are on the same machine.
    fn pair_at<B: Allocator>(&self, table: &TaskTable<B>, place: usize) -> Option<Pair> {
        let pair = Pair {
            first: item_at(&self.path, place.wrapping_add(1)),
            second: item_at(&self.path, place),
        };
        if self.beside(table, place.wrapping_add(1), pair.second) {
            Some(pair)
        } else {
            None
        }
    }

    // Whether a pair at a place of the path is at an end of its block.
    fn is_at_end<B: Allocator>(&self, table: &TaskTable<B>, place: usize, pair: Pair) -> bool {
        place == 0
            || !self.beside(table, place.wrapping_sub(1), pair.second)
            || !self.beside(table, place.wrapping_add(2), pair.first)
    }

    // Makes the best swap at an end of a block. False where there is none: then no schedule is
    // better.
    fn make_swap<B: Allocator>(&mut self, table: &TaskTable<B>) -> bool {
        let mut choice = Choice {
            allowed: None,
            estimate: u64::MAX,
            forbidden: None,
            count: 0,
        };
        for place in 0..self.on_path {
            if let Some(pair) = self.pair_at(table, place) {
                if self.is_at_end(table, place, pair) {
                    self.consider(table, pair, &mut choice);
                }
            }
        }
        let Some(pair) = choice.allowed.or(choice.forbidden) else {
            return false;
        };
        self.forbid_return(table, pair);
        self.graph.swap(table, pair);
        true
    }

    // Takes a swap where it is better than those before. One that is forbidden has to promise a
    // schedule better than the best.
    fn consider<B: Allocator>(&mut self, table: &TaskTable<B>, pair: Pair, choice: &mut Choice) {
        let estimate = self.graph.estimate(table, pair);
        let is_forbidden = number_at(&self.forbidden, hash(pair)) > self.swaps;
        if estimate < choice.estimate && (!is_forbidden || estimate < self.best) {
            choice.allowed = Some(pair);
            choice.estimate = estimate;
        }
        if is_forbidden {
            choice.count = choice.count.wrapping_add(1);
            if self.random.below(choice.count) == 0 {
                choice.forbidden = Some(pair);
            }
        }
    }

    // Forbids to take a swap back, for a random while.
    fn forbid_return<B: Allocator>(&mut self, table: &TaskTable<B>, pair: Pair) {
        let each = table.jobs.len().checked_div(table.machines).unwrap_or(0);
        let least = SHORTEST.wrapping_add(each);
        let time = least.wrapping_add(self.random.below((least / 2).wrapping_add(1)));
        let reverse = Pair {
            first: pair.second,
            second: pair.first,
        };
        self.swaps = self.swaps.wrapping_add(1);
        self.idle = self.idle.wrapping_add(1);
        set_number(
            &mut self.forbidden,
            hash(reverse),
            self.swaps.wrapping_add(time as u64),
        );
    }

    // Goes back to the best schedule, forgets what is forbidden and makes random swaps on longest
    // paths.
    fn begin_anew<B: Allocator>(&mut self, table: &TaskTable<B>) {
        self.idle = 0;
        self.forbidden.fill(0);
        self.graph.read(table, &self.best_list);
        let shakes = self
            .random
            .below(self.best_list.len() / 5)
            .wrapping_add(SHAKES);
        for _ in 0..shakes {
            let longest = self.graph.longest(table);
            self.trace(table, longest.last);
            let Some(pair) = self.random_pair(table) else {
                return;
            };
            self.graph.swap(table, pair);
        }
    }

    // A random pair of the path on the same machine.
    fn random_pair<B: Allocator>(&mut self, table: &TaskTable<B>) -> Option<Pair> {
        let mut chosen = None;
        let mut count: usize = 0;
        for place in 0..self.on_path {
            if let Some(pair) = self.pair_at(table, place) {
                count = count.wrapping_add(1);
                if self.random.below(count) == 0 {
                    chosen = Some(pair);
                }
            }
        }
        chosen
    }
}

// The place of a swap in the memory.
fn hash(pair: Pair) -> usize {
    let first = pair.first.wrapping_mul(2_654_435_761);
    let second = pair.second.wrapping_mul(2_246_822_507);
    (first.wrapping_add(second) >> 7) % MEMORY
}
