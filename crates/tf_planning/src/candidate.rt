//! The schedule that rules and a search find. Nothing is promised of it: whoever takes it judges
//! it.
use crate::progress::{PlanProgress, Watched};
use std::alloc::Allocator;
use std::cmp::Reverse;
use tf_bound::task::ProblemTask;
use tf_decode::lay::lay;
use tf_decode::measure::Measure;
use tf_decode::routes::Routes;
use tf_decode::slots::number_at;
use tf_decode::table::{Decoder, JobNumbers, TaskNumbers, TaskTable};
use tf_improve::improve::{SearchEffort, improved};
use tf_improve::watch::Watch;
use tf_model::ids::JobId;
use tf_model::memory::OutOfMemory;
use tf_model::problem::Env;
use tf_plan::plan::plan_of_pieces;
use tf_rules::rule::{list_by, rules_for};
use tf_schedule::piece::Piece;
use tf_shops::tabu;

// How many operations all rules together may place. The first rules are tried in any case.
const MOST_PLACED: usize = 20_000_000;

const LEAST_RULES: usize = 4;

// How many steps a search takes where the caller does not say it: so many for each job, within
// limits.
const USUAL_STEPS: u64 = 400_000;

const LEAST_STEPS: u64 = 1_000_000;

const MOST_STEPS: u64 = 100_000_000;

// The most jobs of which a schedule is searched, since each change may move as many costs.
const MOST_SEARCHED: usize = 5_000;

// A job shop is harder: so many times the usual steps.
const JOB_SHOP_FACTOR: u64 = 5;

// How many steps a search takes for each one that the caller grants.
const STEPS_GRANTED: u64 = 10_000;

/// What the search for a schedule is given.
#[derive(Clone, Copy, Debug)]
pub(crate) struct Given {
    /// The steps that the caller grants, where it says how many.
    pub steps: Option<u32>,
    /// The lower bound that was found: a schedule of this cost is optimal.
    pub bound: i128,
}

impl Given {
    // The effort of a search over so many jobs, in a job shop or not.
    fn effort(self, jobs: usize, is_job_shop: bool) -> SearchEffort {
        let factor = if is_job_shop { JOB_SHOP_FACTOR } else { 1 };
        let usual = USUAL_STEPS
            .saturating_mul(factor)
            .saturating_mul(jobs as u64);
        let steps = match self.steps {
            Some(steps) => STEPS_GRANTED.saturating_mul(u64::from(steps)),
            None => usual.clamp(LEAST_STEPS, MOST_STEPS),
        };
        SearchEffort {
            steps,
            target: Some(self.bound),
        }
    }
}

/// The pieces of the best schedule of all rules, improved by a search where there are not too many
/// jobs. All jobs in this order keep the arcs.
pub(crate) fn best_pieces<A: Allocator + Copy, B: Allocator, P: PlanProgress>(
    alloc: A,
    task: &ProblemTask<B>,
    order: &[JobId],
    given: Given,
    progress: &mut Option<P>,
) -> Result<Vec<Piece, A>, OutOfMemory> {
    let table = table_of(alloc, task, order)?;
    let first = best_list(alloc, task, &table, given.bound)?;
    if task.len() > MOST_SEARCHED {
        return lay(alloc, &table, &first);
    }
    let is_job_shop = matches!(task.problem().env, Env::JobShop);
    let effort = given.effort(task.len(), is_job_shop);
    let mut watched = Watched {
        progress,
        all: effort.steps,
        bound: given.bound,
    };
    let list = searched(alloc, &table, first, effort, &mut watched)?;
    lay(alloc, &table, &list)
}

// A list that costs no more than the first. Large job shops with sums keep it.
fn searched<A: Allocator + Copy, W: Watch>(
    alloc: A,
    table: &TaskTable<A>,
    first: Vec<u32, A>,
    effort: SearchEffort,
    watch: &mut W,
) -> Result<Vec<u32, A>, OutOfMemory> {
    match (table.decoder, table.measure) {
        (Decoder::JobOperations, Measure::MaximumLateness) => {
            tabu::improved(alloc, table, first, effort, watch)
        }
        (Decoder::JobOperations, _) => Ok(first),
        _ => improved(alloc, table, first, effort, watch),
    }
}

// The numbers of a task as a search reads them.
fn table_of<A: Allocator + Copy, B: Allocator>(
    alloc: A,
    task: &ProblemTask<B>,
    order: &[JobId],
) -> Result<TaskTable<A>, OutOfMemory> {
    let numbers = TaskNumbers {
        jobs: jobs_of(alloc, task)?,
        times: times_of(alloc, task)?,
        routes: routes_of(alloc, task)?,
        machines: task.machines() as usize,
    };
    TaskTable::new(alloc, &task.problem(), numbers, task.arcs(), order)
}

fn jobs_of<A: Allocator, B: Allocator>(
    alloc: A,
    task: &ProblemTask<B>,
) -> Result<Vec<JobNumbers, A>, OutOfMemory> {
    let mut jobs = Vec::with_capacity(alloc, task.len())?;
    for k in 0..task.len() {
        let job = JobId::at(k);
        jobs.push(JobNumbers {
            work: task.work(job),
            weight: task.weight(job),
            release: task.release(job),
            due: task.due(job),
        })?;
    }
    Ok(jobs)
}

fn times_of<A: Allocator, B: Allocator>(
    alloc: A,
    task: &ProblemTask<B>,
) -> Result<Vec<u64, A>, OutOfMemory> {
    let mut times = Vec::with_capacity(alloc, task.len())?;
    for k in 0..task.len() {
        times.extend_from_slice(task.times(JobId::at(k)))?;
    }
    Ok(times)
}

// The operations of each job of a job shop, or of an open shop whose jobs go into gaps.
fn routes_of<A: Allocator + Copy, B: Allocator>(
    alloc: A,
    task: &ProblemTask<B>,
) -> Result<Routes<A>, OutOfMemory> {
    let mut routes = Routes::none(alloc);
    let operations = task.len().saturating_mul(task.machines() as usize);
    if matches!(task.problem().env, Env::JobShop) {
        for k in 0..task.len() {
            let job = JobId::at(k);
            routes.push_job(task.route(job), task.times(job))?;
        }
    } else if matches!(
        Decoder::of(&task.problem(), task.len(), operations),
        Decoder::OpenGaps
    ) {
        let machines = busiest_first(alloc, task)?;
        for k in 0..task.len() {
            routes.push_job(&machines, task.times(JobId::at(k)))?;
        }
    }
    Ok(routes)
}

// The machines of a shop, those of the most work first.
fn busiest_first<A: Allocator + Copy, B: Allocator>(
    alloc: A,
    task: &ProblemTask<B>,
) -> Result<Vec<u32, A>, OutOfMemory> {
    let count = task.machines();
    let mut works = Vec::with_capacity(alloc, count as usize)?;
    for machine in 0..count {
        let mut work: u64 = 0;
        for k in 0..task.len() {
            let time = number_at(task.times(JobId::at(k)), machine as usize);
            work = work.saturating_add(time);
        }
        works.push((Reverse(work), machine))?;
    }
    works.sort_unstable();
    let mut machines = Vec::with_capacity(alloc, works.len())?;
    for (_, machine) in &works {
        machines.push(*machine)?;
    }
    Ok(machines)
}

// The list of the rule whose schedule costs least, or of the first that costs as much as the bound.
fn best_list<A: Allocator + Copy, B: Allocator>(
    alloc: A,
    task: &ProblemTask<B>,
    table: &TaskTable<A>,
    bound: i128,
) -> Result<Vec<u32, A>, OutOfMemory> {
    let rules = rules_for(alloc, table)?;
    let mut best = Vec::new(alloc);
    let mut least = i128::MAX;
    for rule in rules.as_slice().iter().take(most_rules(table)) {
        if least <= bound {
            break;
        }
        let list = list_by(alloc, table, *rule)?;
        let cost = cost_of(alloc, task, table, &list)?;
        if best.is_empty() || cost < least {
            least = cost;
            best = list;
        }
    }
    Ok(best)
}

// How many rules are tried.
fn most_rules<A: Allocator>(table: &TaskTable<A>) -> usize {
    let operations = table.times.len().max(1);
    (MOST_PLACED / operations).max(LEAST_RULES)
}

// What the schedule of a list costs; more than any other where it does not fit.
fn cost_of<A: Allocator + Copy, B: Allocator>(
    alloc: A,
    task: &ProblemTask<B>,
    table: &TaskTable<A>,
    list: &[u32],
) -> Result<i128, OutOfMemory> {
    let pieces = lay(alloc, table, list)?;
    match plan_of_pieces(alloc, task, pieces)? {
        Some(plan) => Ok(plan.value),
        None => Ok(i128::MAX),
    }
}
