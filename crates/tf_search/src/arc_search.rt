//! Multipliers of the jobs and of the arcs, improved step by step along subgradients.
//!
//! Nothing is promised of them: the judge computes what they bound.
ghost use Rattle.std.specs.Prelude.{◌<◌, IsTrue};
ghost use Rattle.tf_posed.specs.ProblemData.{IsProblemJob};
ghost use Rattle.tf_problem.specs.ProblemBounds.{is_by_machine};

use crate::arc_links::Link;
use std::alloc::{Allocator, Global};
use tf_bound::task::ProblemTask;
use tf_model::ids::JobId;
use tf_model::limit::LIMIT;
use tf_model::memory::OutOfMemory;
use tf_model::problem::Env;

// How many jobs and arcs the steps on all machines visit at most, without the first step on each.
const MOST_VISITS: usize = 1_000_000;

const MOST_STEPS: usize = 1_000;

// After so many steps that find nothing better a step gets shorter, by a fifth.
const PATIENCE: u32 = 10;

// The greatest denominator, and smaller ones that are taken where they bound as much.
const DENOMINATOR: u64 = 1_000_000;

const SMALL_DENOMINATORS: [u64; 8] = [1, 2, 3, 4, 6, 12, 60, 1_000];

/// Multipliers over q, job by job and arc by arc.
#[derive(Drop)]
pub(crate) struct ArcMultipliers<A: Allocator = Global> {
    pub(crate) q: u64,
    pub(crate) jobs: Vec<u64, A>,
    pub(crate) arcs: Vec<u64, A>,
}

// A job on a machine.
#[derive(Clone, Copy)]
struct Item {
    time: u64,
    weight: u64,
    // What a unit of its moved multiplier adds beside the completion, and a unit of its own takes
    // off.
    margin: i128,
    due: i128,
    own: i128,
    best: i128,
    // Its own multiplier and those of the arcs from it, those of the arcs to it, and the
    // difference.
    income: i128,
    taken: i128,
    moved: i128,
    // How fast the bound grows with its moved multiplier, and with its own within the limits.
    growth: i128,
    slope: i128,
}

// The jobs and arcs on a machine. What the multipliers bound is multiplied by q and the scale.
#[derive(Drop)]
struct Network<A: Allocator> {
    q: u64,
    scale: i128,
    // How often completions count.
    factor: i128,
    items: Vec<Item, A>,
    links: Vec<Link, A>,
    ranks: Vec<(u128, usize), A>,
}

/// Multipliers on a machine, counted from 0. None where the weights are too great.
pub(crate) fn arc_multipliers<A: Allocator + Copy, B: Allocator>(
    alloc: A,
    task: &ProblemTask<B>,
    machine: usize,
    links: &[Link],
) -> Result<Option<ArcMultipliers<A>>, OutOfMemory> {
    let Some(mut network) = Network::new(alloc, task, machine, links)? else {
        return Ok(None);
    };
    let machines = match task.problem().env {
        Env::Parallel => 1,
        _ => task.machines() as usize,
    };
    let visits = task
        .len()
        .saturating_add(links.len())
        .saturating_mul(machines);
    let steps = (MOST_VISITS / visits.max(1)).min(MOST_STEPS).max(1);
    let best = network.climb(steps);
    let q = network.shorten(best);
    network.result(alloc, q)
}

// Whether the jobs have heads and tails: on one machine, and on each of a shop.
fn has_heads<B: Allocator>(task: &ProblemTask<B>, machine: usize) -> bool
    ensures env { IsTrue result → IsTrue (is_by_machine task.now.problem.env) }
    ensures machine { IsTrue result → machine < task.now.machines }
{
    let is_by_machine = match task.problem().env {
        Env::Single | Env::Flow | Env::OpenShop | Env::JobShop => true,
        Env::Parallel | Env::Uniform | Env::Unrelated => false,
    };
    is_by_machine && machine < task.machines() as usize
}

// Before this time a job is not on the machine.
fn head_of<B: Allocator>(task: &ProblemTask<B>, machine: usize, job: JobId) -> i128
    requires { IsProblemJob task.now job }
{
    if has_heads(task, machine) {
        i128::from(task.head(machine, job))
    } else {
        i128::from(task.release(job))
    }
}

// So much later than on the machine a job completes at least.
fn tail_of<B: Allocator>(task: &ProblemTask<B>, machine: usize, job: JobId) -> i128
    requires { IsProblemJob task.now job }
{
    if has_heads(task, machine) {
        i128::from(task.tail(machine, job))
    } else {
        0
    }
}

fn least_head<B: Allocator>(task: &ProblemTask<B>, machine: usize) -> i128 {
    let mut least = i128::MAX;
    for k in 0..task.len() {
        least = least.min(head_of(task, machine, JobId::at(k)));
    }
    least
}

// A job on a machine of several identical ones, or on one of a shop.
fn item_of<B: Allocator>(task: &ProblemTask<B>, machine: usize, least: i128, job: JobId) -> Item
    requires { IsProblemJob task.now job }
{
    let env = task.problem().env;
    let times = task.times(job);
    let time = times.get(machine).copied().unwrap_or(0);
    let scale = scale_of(task);
    let margin = match env {
        Env::Parallel => {
            let others = i128::from(task.machines()) - 1;
            others
                .saturating_mul(i128::from(time))
                .saturating_add(least.saturating_mul(scale))
        }
        _ => least.saturating_add(tail_of(task, machine, job)),
    };
    Item {
        time,
        weight: task.weight(job),
        margin,
        due: i128::from(task.due(job)).saturating_mul(scale),
        own: 0,
        best: 0,
        income: 0,
        taken: 0,
        moved: 0,
        growth: 0,
        slope: 0,
    }
}

// On identical machines two times the number of machines, else 1.
fn scale_of<B: Allocator>(task: &ProblemTask<B>) -> i128 {
    match task.problem().env {
        Env::Parallel => 2 * i128::from(task.machines()),
        _ => 1,
    }
}

fn total_weight<B: Allocator>(task: &ProblemTask<B>) -> u64 {
    let mut total: u64 = 0;
    for k in 0..task.len() {
        total = total.saturating_add(task.weight(JobId::at(k)));
    }
    total
}

// How urgent a job is, in falling order: its multiplier for its time.
fn rank_of(item: &Item) -> u128 {
    let weight = u64::try_from(item.moved).unwrap_or(0);
    u128::MAX.saturating_sub((u128::from(weight) << 60) / u128::from(item.time).max(1))
}

// How fast the bound grows with the moved multiplier of a job.
fn growth_at(items: &[Item], place: usize) -> i128 {
    match items.get(place) {
        Some(item) => item.growth,
        None => 0,
    }
}

fn give(items: &mut [Item], place: usize, number: i128) {
    if let Some(item) = items.get_mut(place) {
        item.moved = item.moved.saturating_add(number);
    }
}

// What an arc moves: of what is taken of its second job its part, where that is too much.
fn part_of(item: Option<&Item>, own: i128) -> i128 {
    match item {
        Some(item) if item.taken > item.income => own
            .saturating_mul(item.income)
            .checked_div(item.taken)
            .unwrap_or(0),
        _ => own,
    }
}

// What is as much over another denominator.
fn rescaled(number: i128, from: u64, to: u64) -> i128 {
    number
        .saturating_mul(i128::from(to))
        .saturating_mul(2)
        .saturating_add(i128::from(from))
        .checked_div(2 * i128::from(from))
        .unwrap_or(0)
}

fn share_up(value: i128, parts: i128) -> i128 {
    let more = value.max(0).saturating_add(parts.saturating_sub(1));
    more.checked_div(parts).unwrap_or(0)
}

fn stepped(own: i128, slope: i128, step: i128, largest: i128) -> i128 {
    let change = step.saturating_mul(slope).checked_div(largest).unwrap_or(0);
    own.saturating_add(change).max(0)
}

impl<A: Allocator + Copy> Network<A> {
    // The weights are the multipliers, and no arc moves any.
    fn new<B: Allocator>(
        alloc: A,
        task: &ProblemTask<B>,
        machine: usize,
        links: &[Link],
    ) -> Result<Option<Self>, OutOfMemory> {
        let q = (LIMIT as u64 / total_weight(task).max(1)).min(DENOMINATOR);
        if q == 0 {
            return Ok(None);
        }
        let least = least_head(task, machine);
        let mut items = Vec::with_capacity(alloc, task.len())?;
        let mut ranks = Vec::with_capacity(alloc, task.len())?;
        for k in 0..task.len() {
            let mut item = item_of(task, machine, least, JobId::at(k));
            item.own = i128::from(item.weight).saturating_mul(i128::from(q));
            items.push(item)?;
            ranks.push((0, k))?;
        }
        Ok(Some(Network {
            q,
            scale: scale_of(task),
            factor: scale_of(task).min(2),
            items,
            links: Vec::from_slice(alloc, links)?,
            ranks,
        }))
    }

    // Moves the multipliers of the arcs, of no job more than it has.
    fn move_along(&mut self) {
        for item in self.items.iter_mut() {
            item.income = item.own;
            item.moved = item.own;
            item.taken = 0;
        }
        for link in self.links.iter() {
            if let Some(item) = self.items.get_mut(link.second) {
                item.taken = item.taken.saturating_add(link.own);
            }
        }
        for link in self.links.iter_mut() {
            link.own = part_of(self.items.get(link.second), link.own);
            give(&mut self.items, link.second, link.own.saturating_neg());
            give(&mut self.items, link.first, link.own);
            if let Some(item) = self.items.get_mut(link.first) {
                item.income = item.income.saturating_add(link.own);
            }
        }
    }

    // What the multipliers bound, by the order of the ratios.
    fn value(&mut self) -> i128 {
        for rank in self.ranks.iter_mut() {
            if let Some(item) = self.items.get(rank.1) {
                rank.0 = rank_of(item);
            }
        }
        self.ranks.sort_unstable();
        let mut end: i128 = 0;
        let mut value: i128 = 0;
        for rank in self.ranks.iter() {
            if let Some(item) = self.items.get_mut(rank.1) {
                end = end.saturating_add(i128::from(item.time));
                item.growth = self.factor.saturating_mul(end).saturating_add(item.margin);
                let gain = item.moved.saturating_mul(item.growth);
                let loss = item.own.saturating_mul(item.due);
                value = value.saturating_add(gain).saturating_sub(loss);
            }
        }
        for link in self.links.iter() {
            let gain = self.scale.saturating_mul(i128::from(link.work));
            value = value.saturating_add(link.own.saturating_mul(gain));
        }
        value
    }

    // Finds how fast the bound grows with each multiplier, and the most of it.
    fn set_slopes(&mut self) -> i128 {
        let mut largest: i128 = 0;
        for item in self.items.iter_mut() {
            let slope = item.growth.saturating_sub(item.due);
            let most = i128::from(item.weight).saturating_mul(i128::from(self.q));
            let is_free = if slope > 0 {
                item.own < most
            } else {
                item.own > 0
            };
            item.slope = if is_free { slope } else { 0 };
            largest = largest.max(item.slope.saturating_abs());
        }
        for link in self.links.iter_mut() {
            let first = growth_at(&self.items, link.first);
            let second = growth_at(&self.items, link.second);
            let gain = self.scale.saturating_mul(i128::from(link.work));
            let slope = first.saturating_sub(second).saturating_add(gain);
            link.slope = if link.own == 0 { slope.max(0) } else { slope };
            largest = largest.max(link.slope.saturating_abs());
        }
        largest
    }

    // Takes a step, of the full length where the bound grows fastest.
    fn advance(&mut self, step: i128, largest: i128) {
        for item in self.items.iter_mut() {
            let most = i128::from(item.weight).saturating_mul(i128::from(self.q));
            item.own = stepped(item.own, item.slope, step, largest).min(most);
        }
        for link in self.links.iter_mut() {
            link.own = stepped(link.own, link.slope, step, largest);
        }
    }

    fn keep(&mut self) {
        for item in self.items.iter_mut() {
            item.best = item.own;
        }
        for link in self.links.iter_mut() {
            link.best = link.own;
        }
    }

    // Half of the mean multiplier.
    fn first_step(&self) -> i128 {
        let mut sum: i128 = 0;
        for item in self.items.iter() {
            sum = sum.saturating_add(item.own);
        }
        let jobs = self.items.len() as i128;
        (sum / 2).checked_div(jobs).unwrap_or(0).max(1)
    }

    // Keeps the best multipliers of so many steps, and returns what they bound.
    fn climb(&mut self, steps: usize) -> i128 {
        let mut best = i128::MIN;
        let mut step = self.first_step();
        let mut since: u32 = 0;
        for _ in 0..steps {
            self.move_along();
            let value = self.value();
            since = since.saturating_add(1);
            if value > best {
                best = value;
                since = 0;
                self.keep();
            }
            if since == PATIENCE {
                step = step.saturating_mul(4) / 5;
                since = 0;
            }
            let largest = self.set_slopes();
            if largest == 0 || step == 0 {
                return best;
            }
            self.advance(step, largest);
        }
        best
    }

    // Takes the best multipliers over a denominator.
    fn take_over(&mut self, q: u64) {
        for item in self.items.iter_mut() {
            item.own = rescaled(item.best, self.q, q);
        }
        for link in self.links.iter_mut() {
            link.own = rescaled(link.best, self.q, q);
        }
        self.move_along();
    }

    // Takes the smallest denominator that bounds as much.
    fn shorten(&mut self, best: i128) -> u64 {
        let bound = share_up(best, self.scale.saturating_mul(i128::from(self.q)));
        for q in SMALL_DENOMINATORS.iter() {
            self.take_over(*q);
            let value = self.value();
            let parts = self.scale.saturating_mul(i128::from(*q));
            if *q <= self.q && share_up(value, parts) >= bound {
                return *q;
            }
        }
        self.take_over(self.q);
        self.q
    }

    // The multipliers as they are, in the instance's order. None where one is too great.
    fn result(self, alloc: A, q: u64) -> Result<Option<ArcMultipliers<A>>, OutOfMemory> {
        let mut jobs = Vec::with_capacity(alloc, self.items.len())?;
        for item in self.items.iter() {
            jobs.push(u64::try_from(item.own).unwrap_or(u64::MAX))?;
        }
        let mut arcs = vec![in alloc; 0_u64; self.links.len()]?;
        for link in self.links.iter() {
            if let Some(entry) = arcs.get_mut(link.place) {
                *entry = u64::try_from(link.own).unwrap_or(u64::MAX);
            }
        }
        Ok(Some(ArcMultipliers { q, jobs, arcs }))
    }
}
