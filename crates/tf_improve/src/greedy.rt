//! Iterated greedy: jobs taken out of the list and inserted again, each at its best place.
ghost use Rattle.std.specs.Prelude.{◌≡◌, length};

use crate::change::Change;
use crate::improve::SearchEffort;
use crate::pass::{NOTHING, Pass, Side};
use crate::random::Random;
use crate::watch::Watch;
use std::alloc::Allocator;
use tf_decode::measure::Measure;
use tf_decode::slots::item_at;
use tf_decode::table::{Decoder, TaskTable};
use tf_model::memory::OutOfMemory;

// The most that all work, release dates and due dates may be together.
const MOST_NUMBERS: i128 = 1 << 59;

// How many jobs are taken out at once.
const TAKEN: usize = 4;

// The temperature, in units of 1/1,024 of the mean time of an operation.
const HEAT: i128 = 61;

// The natural logarithm of 2 in units of 1/1,024.
const LOGARITHM_OF_TWO: i128 = 710;

/// Whether insertions are costed by heads and tails: for a maximum on one machine or in a flow
/// shop, without arcs and waits, where no sum leaves 64 bits.
pub(crate) fn is_by_insertion<B: Allocator>(table: &TaskTable<B>) -> bool {
    let is_serial = matches!(table.decoder, Decoder::Machine | Decoder::Flow);
    let is_maximum = matches!(table.measure, Measure::MaximumLateness);
    if !is_serial || !is_maximum || table.has_arcs {
        return false;
    }
    let mut sum: i128 = 0;
    for job in &table.jobs {
        sum = sum.saturating_add(i128::from(job.work));
        sum = sum.saturating_add(i128::from(job.release));
        sum = sum.saturating_add(i128::from(job.due).wrapping_abs());
    }
    sum < MOST_NUMBERS
}

/// A list that costs no more than the one that it begins with, found by iterated greedy (Ruiz and
/// Stuetzle 2007).
pub(crate) fn by_insertion<A: Allocator + Copy, B: Allocator, W: Watch>(
    alloc: A,
    table: &TaskTable<B>,
    list: Vec<u32, A>,
    effort: SearchEffort,
    watch: &mut W,
) -> Result<Vec<u32, A>, OutOfMemory> {
    let order = by_tail(alloc, table)?;
    let mut greedy = Greedy::new(alloc, table, list, effort)?;
    greedy.begin(&order);
    greedy.run(watch);
    Ok(greedy.best_list)
}

// The jobs by how long they take, less their due dates, the greatest first.
fn by_tail<A: Allocator + Copy, B: Allocator>(
    alloc: A,
    table: &TaskTable<B>,
) -> Result<Vec<u32, A>, OutOfMemory> {
    let mut keys = Vec::with_capacity(alloc, table.jobs.len())?;
    for (job, numbers) in table.jobs.iter().enumerate() {
        let key = i128::from(numbers.due).wrapping_sub(i128::from(numbers.work));
        keys.push((key, u32::try_from(job).unwrap_or(u32::MAX)))?;
    }
    keys.sort_unstable();
    let mut order = Vec::with_capacity(alloc, keys.len())?;
    for key in &keys {
        order.push(key.1)?;
    }
    Ok(order)
}

// The best place of a job, and what the list costs with it there.
#[derive(Clone, Copy, Debug)]
struct Insertion {
    place: usize,
    cost: i64,
}

/// A search, its present list, the one that it goes back to, and its best.
#[derive(Drop)]
struct Greedy<A: Allocator> {
    heads: Pass<A>,
    tails: Pass<A>,
    // All jobs: so many of them are in the list, and the others are out.
    list: Vec<u32, A>,
    count: usize,
    cost: i64,
    kept: Vec<u32, A>,
    kept_cost: i64,
    best_list: Vec<u32, A>,
    best: i64,
    // The jobs in the order in which they are tried.
    turns: Vec<u32, A>,
    temperature: i128,
    random: Random,
    steps: u64,
    end: u64,
    target: i128,
}

impl<A: Allocator + Copy> Greedy<A> {
    fn new<B: Allocator>(
        alloc: A,
        table: &TaskTable<B>,
        list: Vec<u32, A>,
        effort: SearchEffort,
    ) -> Result<Self, OutOfMemory> {
        let mut work: i128 = 0;
        for job in &table.jobs {
            work = work.wrapping_add(i128::from(job.work));
        }
        let operations = table.times.len() as i128;
        Ok(Greedy {
            heads: Pass::new(alloc, table, Side::Front)?,
            tails: Pass::new(alloc, table, Side::Back)?,
            list: list.clone()?,
            count: list.len(),
            cost: i64::MAX,
            kept: list.clone()?,
            kept_cost: i64::MAX,
            turns: list.clone()?,
            best_list: list,
            best: i64::MAX,
            temperature: work.wrapping_mul(HEAT) / operations.max(1),
            random: Random { state: 1 },
            steps: 0,
            end: effort.steps,
            target: effort.target.unwrap_or(i128::MIN),
        })
    }
}

impl<A: Allocator> Greedy<A> {
    fn is_over(&self) -> bool {
        self.steps >= self.end || i128::from(self.best) <= self.target
    }

    // Costs the first list, and the one that inserts the jobs in an order, if the steps suffice
    // (Nawaz, Enscore and Ham 1983). The better one is kept.
    fn begin(&mut self, order: &[u32]) {
        self.pass();
        self.cost = self.heads.cost(self.count);
        self.keep();
        let each = self.list.len().saturating_mul(self.heads.machines());
        let steps = each.saturating_mul(self.list.len()).saturating_mul(2);
        if self.is_over() || steps as u64 >= self.end || order.len() != self.list.len() {
            return;
        }
        self.list.copy_from_slice(order);
        self.count = 0;
        self.heads.forget(0);
        self.tails.forget(0);
        self.insert_all();
        if self.cost < self.kept_cost {
            self.keep();
        } else {
            self.go_back();
        }
    }

    fn run<W: Watch>(&mut self, watch: &mut W) {
        self.descend();
        self.keep();
        for _ in 0..self.end {
            if self.is_over() {
                return;
            }
            watch.at_steps(self.steps, i128::from(self.best));
            for _ in 0..TAKEN {
                let place = self.random.below(self.count);
                self.take(place);
            }
            self.insert_all();
            self.descend();
            let factor = self.random.logarithm().wrapping_mul(LOGARITHM_OF_TWO);
            let allowed = self.temperature.saturating_mul(factor) / (1 << 30);
            let limit = i128::from(self.kept_cost).saturating_add(allowed);
            if i128::from(self.cost) <= limit {
                self.keep();
            } else {
                self.go_back();
            }
        }
    }

    // Keeps the present list.
    fn keep(&mut self) {
        if self.list.len() != self.kept.len() || self.list.len() != self.best_list.len() {
            return;
        }
        self.kept.copy_from_slice(&self.list);
        self.kept_cost = self.cost;
        if self.cost < self.best {
            self.best = self.cost;
            self.best_list.copy_from_slice(&self.list);
        }
    }

    // Goes back to the list that was kept.
    fn go_back(&mut self) {
        if self.list.len() == self.kept.len() {
            self.list.copy_from_slice(&self.kept);
            self.cost = self.kept_cost;
            self.heads.forget(0);
            self.tails.forget(0);
        }
    }

    // Reinserts jobs, each at its best place, until no one helps.
    fn descend(&mut self) {
        let mut failed: usize = 0;
        let mut turn = self.turns.len();
        for _ in 0..self.end {
            if failed >= self.turns.len() || self.is_over() {
                return;
            }
            if turn >= self.turns.len() {
                self.shuffle();
                turn = 0;
            }
            let job = item_at(&self.turns, turn);
            turn = turn.wrapping_add(1);
            failed = if self.reinsert(job) {
                0
            } else {
                failed.wrapping_add(1)
            };
        }
    }

    // Puts the turns into a random order.
    fn shuffle(&mut self) {
        for place in 1..self.turns.len() {
            let other = self.random.below(place.wrapping_add(1));
            if place < self.turns.len() && other < self.turns.len() {
                self.turns.swap(place, other);
            }
        }
    }

    // Takes a job out and inserts it at its best place, or at its old one if that is better.
    // Returns whether the list costs less then.
    fn reinsert(&mut self, job: usize) -> bool {
        let place = self.place_of(job);
        self.take(place);
        let best = self.best_place();
        if best.cost > self.cost {
            self.put(place);
            return false;
        }
        self.put(best.place);
        let is_better = best.cost < self.cost;
        self.cost = best.cost;
        is_better
    }

    fn place_of(&self, job: usize) -> usize {
        for (place, item) in self.list.iter().enumerate() {
            if *item as usize == job {
                return place;
            }
        }
        0
    }

    // Inserts all jobs that are out, each at its best place.
    fn insert_all(&mut self) {
        for _ in self.count..self.list.len() {
            let best = self.best_place();
            self.put(best.place);
            self.cost = best.cost;
        }
    }

    // Takes the job at a place out.
    fn take(&mut self, place: usize) {
        let last = self.count.saturating_sub(1);
        self.change(place.min(last), last);
        self.count = last;
        self.heads.forget(place);
        self.tails.forget(last.saturating_sub(place));
    }

    // Inserts the job that was taken out last.
    fn put(&mut self, place: usize) {
        self.change(self.count, place);
        self.heads.forget(place);
        self.tails.forget(self.count.saturating_sub(place));
        self.count = self.count.wrapping_add(1);
    }

    // Moves a job to another place.
    fn change(&mut self, from: usize, to: usize) {
        let change = Change {
            is_exchange: false,
            from,
            to,
        };
        change.apply(&mut self.list);
    }

    // Passes the jobs in the list from both sides.
    fn pass(&mut self) {
        let jobs = self.list.get(..self.count).unwrap_or(&[]);
        let passed = self.heads.fill(jobs).wrapping_add(self.tails.fill(jobs));
        let steps = passed.wrapping_mul(self.heads.machines());
        self.steps = self.steps.wrapping_add(steps as u64);
    }

    // The best place of the job that was taken out last, one of them by chance among equals.
    fn best_place(&mut self) -> Insertion {
        self.pass();
        let job = item_at(&self.list, self.count);
        let mut best = Insertion {
            place: 0,
            cost: i64::MAX,
        };
        let mut equal: usize = 0;
        let places = self.count.wrapping_add(1);
        for place in 0..places {
            let cost = self.cost_at(place, job, best.cost);
            if cost < best.cost {
                best = Insertion { place, cost };
                equal = 1;
            } else if cost == best.cost {
                equal = equal.wrapping_add(1);
                if self.random.below(equal) == 0 {
                    best.place = place;
                }
            }
        }
        let steps = places.wrapping_mul(self.heads.machines());
        self.steps = self.steps.wrapping_add(steps as u64);
        best
    }

    // What the list costs with a job at a place; more than a limit where it is above it.
    #[inline(always)]
    fn cost_at(&self, place: usize, job: usize, limit: i64) -> i64 {
        let behind = self.count.saturating_sub(place);
        let cost = self.heads.cost(place).max(self.tails.cost(behind));
        if cost > limit {
            return cost;
        }
        let times = self.heads.times_of(job);
        let before = self.heads.row(place);
        let after = self.tails.row(behind);
        if before.len() != times.len() || after.len() != times.len() {
            return cost;
        }
        let through = cost_through(times, self.heads.begin(job), before, after);
        cost.max(through.longest)
            .max(through.end.wrapping_add(self.heads.end(job)))
    }
}

// What a job does between a head and a tail.
#[derive(Clone, Copy)]
struct Through {
    // When it is completed.
    end: i64,
    // The longest way through the job or beside it.
    longest: i64,
}

// The way through a job between a head and a tail; the tail counts the machines from the last one.
#[inline(always)]
fn cost_through(times: &[i64], begin: i64, before: &[i64], after: &[i64]) -> Through
    requires before { length before.now ≡ length times.now }
    requires after { length after.now ≡ length times.now }
{
    let mut end = begin;
    let mut longest: i64 = NOTHING;
    for machine in 0..times.len() {
        let time = times[machine];
        let tail = after[times.len() - 1 - machine];
        if time > 0 {
            end = end.max(before[machine]).wrapping_add(time);
            longest = longest.max(end.wrapping_add(tail));
        } else {
            longest = longest.max(before[machine].wrapping_add(tail));
        }
    }
    Through { end, longest }
}
