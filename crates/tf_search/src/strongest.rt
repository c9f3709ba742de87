//! The strongest of the lower bounds that judges and searches give of a task.
ghost use Rattle.std.specs.Prelude.{◌≡◌, ◌⊎◌, IfOk, IfSome, IsTrue, IsFalse};
ghost use Rattle.tf_model.specs.ClassTable.{is_shop_env};
ghost use Rattle.tf_posed.specs.ProblemData.{ProblemData, IsProblemJob};
ghost use Rattle.tf_problem.specs.ProblemBounds.{is_max_goal, is_sum_goal};
ghost use Rattle.tf_search.specs.Strongest.{IsFound, IsFoundOn};

use crate::arc_links::{Link, links_of};
use crate::arc_search::arc_multipliers;
use crate::assignment::potentials;
use crate::due_prices::crossed_out_cost;
use crate::effort::{Effort, Progress};
use crate::intervals::{crammed_interval, jobs_at_work};
use crate::machine_search::search_machines;
use crate::multiplier_search::multiplier_bound;
use crate::pair_search::pair_certificate;
use crate::price_search::{Steps, search_prices, steps_for};
use crate::price_start::{Prices, coarser_prices, prices_by_due, sequence_prices};
use crate::ranked::{Rank, crowd_front, crowded_above, jobs_by_rank, release_dates, window_front};
use crate::row_prices::row_prices;
use crate::sequence::best_order;
use crate::shop_prices::{dearest_machines, prices_on};
use crate::windows::{jobs_within, strongest_window};
use std::alloc::{Allocator, Global};
use tf_bound::alike::{one_job_value, takes_windows};
use tf_bound::alone::alone_value;
use tf_bound::certificate::BoundCertificate;
use tf_bound::fault::BoundFault;
use tf_bound::kept_weight::{MOST_ENTRIES, takes_kept_weight};
use tf_bound::multipliers::takes_multipliers;
use tf_bound::parts::Interval;
use tf_bound::prices::is_by_unit;
use tf_bound::pushed::{is_of_maximum, judged_task};
use tf_bound::task::ProblemTask;
use tf_model::ids::JobId;
use tf_model::limit::LIMIT;
use tf_model::memory::OutOfMemory;
use tf_model::problem::{Env, Goal, Problem};

// The most jobs of which a sequence is searched, which takes the square of their number.
const MOST_SEQUENCED: usize = 1_000;

// How many jobs the lists may have together of which the late jobs are counted.
const MOST_COUNTED: usize = 500_000;

/// A certificate of a task, and its value.
#[derive(Drop)]
pub struct Found<A: Allocator = Global> {
    pub value: i128,
    pub certificate: BoundCertificate<A>,
}

/// The strongest bound that is found with an effort.
pub fn strongest<A: Allocator + Copy, B: Allocator, P: Progress + Drop>(
    alloc: A,
    task: &ProblemTask<B>,
    mut effort: Effort<P>,
) -> Result<Found<A>, OutOfMemory>
    ensures { IfOk result (IsFound task.now) }
{
    match judged_task(alloc, task)? {
        Some(judged) => strongest_on(alloc, &judged, &mut effort),
        None => strongest_on(alloc, task, &mut effort),
    }
}

// The strongest bound of the task as it is.
fn strongest_on<A: Allocator + Copy, B: Allocator, P: Progress>(
    alloc: A,
    task: &ProblemTask<B>,
    effort: &mut Effort<P>,
) -> Result<Found<A>, OutOfMemory>
    ensures { IfOk result (IsFoundOn task.now) }
{
    if is_of_maximum(task.problem().goal) {
        return of_maximum(alloc, task);
    }
    match by_rule(alloc, task)? {
        Some(found) if is_met_by_rule(task.problem()) => Ok(found),
        found => Ok(stronger(by_search(alloc, task, effort)?, found)),
    }
}

// The strongest bound of a sum that a search finds.
fn by_search<A: Allocator + Copy, B: Allocator, P: Progress>(
    alloc: A,
    task: &ProblemTask<B>,
    effort: &mut Effort<P>,
) -> Result<Found<A>, OutOfMemory>
    requires { IsTrue (is_sum_goal task.now.problem.goal) }
    ensures { IfOk result (IsFoundOn task.now) }
{
    let best = without_arcs(alloc, task, effort)?;
    let best = stronger(best, by_arcs(alloc, task)?);
    Ok(stronger(best, by_rows(alloc, task)?))
}

// The bound by the rule for late jobs or completion times that is optimal where nothing more is
// asked.
fn by_rule<A: Allocator + Copy, B: Allocator>(
    alloc: A,
    task: &ProblemTask<B>,
) -> Result<Option<Found<A>>, OutOfMemory>
    ensures { IfOk result (λ best. IfSome best (IsFoundOn task.now)) }
{
    let problem = task.problem();
    match problem.goal {
        _ if problem.env.is_shop() => Ok(None),
        Goal::SumU | Goal::SumWU => by_kept(alloc, task),
        Goal::SumC if matches!(problem.env, Env::Single) => by_shortest(alloc, task),
        Goal::SumC => by_ranks(alloc, task),
        _ => Ok(None),
    }
}

// Whether its bound is the optimum, so that nothing else is searched. On one machine without
// release dates the multipliers of completion times are so too.
fn is_met_by_rule(problem: Problem) -> bool {
    let is_single = matches!(problem.env, Env::Single);
    if problem.prec || problem.prmu || problem.nwt {
        return false;
    }
    match problem.goal {
        Goal::SumU | Goal::SumWU => is_single && !problem.release,
        Goal::SumC => problem.prmp && problem.release == is_single,
        _ => false,
    }
}

// The late jobs by the rule of Moore and Hodgson, or their weight by the table of Lawler and Moore,
// of those that are released from some date on.
fn by_kept<A: Allocator + Copy, B: Allocator>(
    alloc: A,
    task: &ProblemTask<B>,
) -> Result<Option<Found<A>>, OutOfMemory>
    ensures { IfOk result (λ best. IfSome best (IsFoundOn task.now)) }
{
    let dates = release_dates(alloc, task, most_lists(task))?;
    let mut best: Option<Found<A>> = None;
    for date in dates.as_slice() {
        let jobs = jobs_by_rank(alloc, task, Rank::FirstDue(*date))?;
        best = improved(best, judged(alloc, task, BoundCertificate::Kept { jobs }))?;
    }
    Ok(best)
}

// How many lists of jobs are judged by due date. Each takes a table where the late jobs are
// weighed.
fn most_lists<B: Allocator>(task: &ProblemTask<B>) -> usize {
    let jobs = task.len().max(1);
    let most = MOST_COUNTED / jobs;
    if !takes_kept_weight(task) {
        return most;
    }
    let mut time: u64 = 0;
    for k in 0..task.len() {
        time = time.saturating_add(task.work(JobId::at(k)));
    }
    let entries = (jobs as u64).saturating_mul(time).max(1);
    most.min((MOST_ENTRIES / entries) as usize)
}

// The completion times where the shortest remaining time always goes first.
fn by_shortest<A: Allocator + Copy, B: Allocator>(
    alloc: A,
    task: &ProblemTask<B>,
) -> Result<Option<Found<A>>, OutOfMemory>
    ensures { IfOk result (λ best. IfSome best (IsFoundOn task.now)) }
{
    let jobs = jobs_by_rank(alloc, task, Rank::FirstReleased)?;
    judged(alloc, task, BoundCertificate::Shortest { jobs })
}

// The completion times where the longest jobs go last on each machine.
fn by_ranks<A: Allocator + Copy, B: Allocator>(
    alloc: A,
    task: &ProblemTask<B>,
) -> Result<Option<Found<A>>, OutOfMemory>
    ensures { IfOk result (λ best. IfSome best (IsFoundOn task.now)) }
{
    let jobs = jobs_by_rank(alloc, task, Rank::LongerThan(0))?;
    judged(alloc, task, BoundCertificate::Ranks { jobs })
}

// The strongest bound of a sum that needs no multipliers of the arcs.
fn without_arcs<A: Allocator + Copy, B: Allocator, P: Progress>(
    alloc: A,
    task: &ProblemTask<B>,
    effort: &mut Effort<P>,
) -> Result<Found<A>, OutOfMemory>
    requires { IsTrue (is_sum_goal task.now.problem.goal) }
    ensures { IfOk result (IsFoundOn task.now) }
{
    let alone = by_each_alone(alloc, task)?;
    let best = match of_sum(alloc, task, effort)? {
        Some(best) => stronger(best, Some(alone)),
        None => alone,
    };
    Ok(stronger(best, by_machine_prices(alloc, task, effort)?))
}

// The jobs of a sum, each alone.
fn by_each_alone<A: Allocator + Copy, B: Allocator>(
    alloc: A,
    task: &ProblemTask<B>,
) -> Result<Found<A>, OutOfMemory>
    requires { IsTrue (is_sum_goal task.now.problem.goal) }
    ensures { IfOk result (IsFoundOn task.now) }
{
    Ok(Found {
        value: alone_value(alloc, task)?,
        certificate: BoundCertificate::Alone,
    })
}

// The job of a maximum that costs most by itself.
fn by_longest_job<A: Allocator, B: Allocator>(task: &ProblemTask<B>) -> Found<A>
    requires { IsTrue (is_max_goal task.now.problem.goal) }
    ensures { IsFoundOn task.now result }
{
    let job = longest_job(task);
    Found {
        value: one_job_value(task, job),
        certificate: BoundCertificate::OneJob { job },
    }
}

// The one of the greater value.
fn stronger<A: Allocator>(one: Found<A>, other: Option<Found<A>>) -> Found<A>
    ensures { (k : ProblemData) → IsFoundOn k one → IfSome other (IsFoundOn k)
        → IsFoundOn k result }
{
    match other {
        Some(other) if one.value < other.value => other,
        _ => one,
    }
}

// The value of a certificate, where the judge accepts it.
fn judged<A: Allocator + Copy, B: Allocator>(
    alloc: A,
    task: &ProblemTask<B>,
    certificate: BoundCertificate<A>,
) -> Result<Option<Found<A>>, OutOfMemory>
    ensures { IfOk result (λ best. IfSome best (IsFoundOn task.now)) }
{
    match certificate.bound_on(alloc, task) {
        Ok(value) => Ok(Some(Found { value, certificate })),
        Err(BoundFault::OutOfMemory) => Err(OutOfMemory),
        Err(_) => Ok(None),
    }
}

// The one of the greater value.
fn better<A: Allocator>(one: Option<Found<A>>, other: Option<Found<A>>) -> Option<Found<A>>
    ensures { (result ≡ one) ⊎ (result ≡ other) }
{
    match (one, other) {
        (Some(one), Some(other)) => {
            if one.value < other.value {
                Some(other)
            } else {
                Some(one)
            }
        }
        (Some(one), None) => Some(one),
        (None, other) => other,
    }
}

// The one of the greater value, where there was memory for the other.
fn improved<A: Allocator>(
    best: Option<Found<A>>,
    found: Result<Option<Found<A>>, OutOfMemory>,
) -> Result<Option<Found<A>>, OutOfMemory>
    ensures { (k : ProblemData) → IfSome best (IsFoundOn k)
        → IfOk found (λ other. IfSome other (IsFoundOn k))
        → IfOk result (λ both. IfSome both (IsFoundOn k)) }
{
    Ok(better(best, found?))
}

// What a search found, and none where it was refused.
fn searched<T: Drop>(outcome: Result<T, BoundFault>) -> Result<Option<T>, OutOfMemory> {
    match outcome {
        Ok(found) => Ok(Some(found)),
        Err(BoundFault::OutOfMemory) => Err(OutOfMemory),
        Err(_) => Ok(None),
    }
}

// The makespan or the maximum lateness: one job and one machine; in a flow shop without waiting
// potentials, and in a permutation flow shop two machines; on parallel machines windows and crowds;
// and on one and on these the parts of jobs in one interval.
fn of_maximum<A: Allocator + Copy, B: Allocator>(
    alloc: A,
    task: &ProblemTask<B>,
) -> Result<Found<A>, OutOfMemory>
    requires { IsTrue (is_max_goal task.now.problem.goal) }
    ensures { IfOk result (IsFoundOn task.now) }
{
    let alone = by_longest_job(task);
    let best = if matches!(task.problem().env, Env::Parallel) {
        let best = stronger(alone, by_windows(alloc, task)?);
        let value = best.value;
        stronger(best, by_crowd(alloc, task, value)?)
    } else {
        stronger(alone, by_machines(alloc, task)?)
    };
    let value = best.value;
    Ok(stronger(best, by_parts(alloc, task, value)?))
}

// One machine, or in a flow shop two, or potentials.
fn by_machines<A: Allocator + Copy, B: Allocator>(
    alloc: A,
    task: &ProblemTask<B>,
) -> Result<Option<Found<A>>, OutOfMemory>
    requires { IsTrue (is_max_goal task.now.problem.goal) }
    ensures { IfOk result (λ best. IfSome best (IsFoundOn task.now)) }
{
    let best = by_machine(alloc, task)?;
    let best = improved(best, by_potentials(alloc, task))?;
    improved(best, by_pair(alloc, task))
}

// The potentials of a no-wait flow shop.
fn by_potentials<A: Allocator + Copy, B: Allocator>(
    alloc: A,
    task: &ProblemTask<B>,
) -> Result<Option<Found<A>>, OutOfMemory>
    ensures { IfOk result (λ best. IfSome best (IsFoundOn task.now)) }
{
    match potentials(alloc, task)? {
        Some(numbers) => judged(alloc, task, BoundCertificate::Potentials { numbers }),
        None => Ok(None),
    }
}

// An interval in which jobs have too much to do, where it shows more than this value.
fn by_parts<A: Allocator + Copy, B: Allocator>(
    alloc: A,
    task: &ProblemTask<B>,
    value: i128,
) -> Result<Option<Found<A>>, OutOfMemory>
    ensures { IfOk result (λ best. IfSome best (IsFoundOn task.now)) }
{
    let Ok(above) = i64::try_from(value) else {
        return Ok(None);
    };
    if !takes_windows(task) {
        return Ok(None);
    }
    let Some(interval) = crammed_interval(alloc, task, above)? else {
        return Ok(None);
    };
    let jobs = jobs_at_work(alloc, task, interval)?;
    let Interval { from, until, late } = interval;
    let certificate = BoundCertificate::Parts {
        from,
        until,
        late,
        jobs,
    };
    judged(alloc, task, certificate)
}

// The job that completes latest after its due date, if it runs alone.
fn longest_job<B: Allocator>(task: &ProblemTask<B>) -> JobId
    ensures { IsProblemJob task.now result }
{
    let mut longest = JobId::at(0);
    let mut most = 0;
    for k in 0..task.len() {
        let job = JobId::at(k);
        let late = task.release(job) + task.work(job) + (LIMIT - task.due(job)) as u64;
        if late > most {
            most = late;
            longest = job;
        }
    }
    longest
}

// The strongest window: of a front of the jobs where they differ in one date at most.
fn by_windows<A: Allocator + Copy, B: Allocator>(
    alloc: A,
    task: &ProblemTask<B>,
) -> Result<Option<Found<A>>, OutOfMemory>
    ensures { IfOk result (λ best. IfSome best (IsFoundOn task.now)) }
{
    let problem = task.problem();
    match problem.goal {
        Goal::Lmax if problem.release => by_dates(alloc, task),
        Goal::Lmax => by_front(alloc, task, Rank::FirstDue(0)),
        _ => by_front(alloc, task, Rank::LastReleased),
    }
}

fn by_dates<A: Allocator + Copy, B: Allocator>(
    alloc: A,
    task: &ProblemTask<B>,
) -> Result<Option<Found<A>>, OutOfMemory>
    ensures { IfOk result (λ best. IfSome best (IsFoundOn task.now)) }
{
    let Some(window) = strongest_window(alloc, task)? else {
        return Ok(None);
    };
    let jobs = jobs_within(alloc, task, window)?;
    judged(alloc, task, BoundCertificate::Window { jobs })
}

fn by_front<A: Allocator + Copy, B: Allocator>(
    alloc: A,
    task: &ProblemTask<B>,
    rank: Rank,
) -> Result<Option<Found<A>>, OutOfMemory>
    ensures { IfOk result (λ best. IfSome best (IsFoundOn task.now)) }
{
    let mut jobs = jobs_by_rank(alloc, task, rank)?;
    let len = window_front(task, &jobs);
    jobs.truncate(len);
    judged(alloc, task, BoundCertificate::Window { jobs })
}

// The value that was found, and less than any where none was.
fn value_of<A: Allocator>(best: &Option<Found<A>>) -> i128 {
    match best {
        Some(found) => found.value,
        None => i128::MIN,
    }
}

// A crowd that is stronger than the value, if there is one.
fn by_crowd<A: Allocator + Copy, B: Allocator>(
    alloc: A,
    task: &ProblemTask<B>,
    value: i128,
) -> Result<Option<Found<A>>, OutOfMemory>
    ensures { IfOk result (λ best. IfSome best (IsFoundOn task.now)) }
{
    let mut jobs = jobs_by_rank(alloc, task, Rank::LongerThan(crowded_above(task, value)))?;
    let (h, len) = crowd_front(task, &jobs);
    jobs.truncate(len);
    judged(alloc, task, BoundCertificate::Crowd { h, jobs })
}

// The two machines of a permutation flow shop that bound it most.
fn by_pair<A: Allocator + Copy, B: Allocator>(
    alloc: A,
    task: &ProblemTask<B>,
) -> Result<Option<Found<A>>, OutOfMemory>
    ensures { IfOk result (λ best. IfSome best (IsFoundOn task.now)) }
{
    match pair_certificate(alloc, task)? {
        Some(certificate) => judged(alloc, task, certificate),
        None => Ok(None),
    }
}

fn by_machine<A: Allocator + Copy, B: Allocator>(
    alloc: A,
    task: &ProblemTask<B>,
) -> Result<Option<Found<A>>, OutOfMemory>
    ensures { IfOk result (λ best. IfSome best (IsFoundOn task.now)) }
{
    let Some(Some(set)) = searched(search_machines(alloc, task))? else {
        return Ok(None);
    };
    let certificate = BoundCertificate::Machine {
        machine: set.machine,
        jobs: set.jobs,
    };
    judged(alloc, task, certificate)
}

// A sum: multipliers of the jobs, and without preemption prices.
fn of_sum<A: Allocator + Copy, B: Allocator, P: Progress>(
    alloc: A,
    task: &ProblemTask<B>,
    effort: &mut Effort<P>,
) -> Result<Option<Found<A>>, OutOfMemory>
    ensures { IfOk result (λ best. IfSome best (IsFoundOn task.now)) }
{
    let weighed = by_weights(alloc, task)?;
    if task.problem().env.is_shop() || task.len() > MOST_SEQUENCED {
        return Ok(weighed);
    }
    let best = improved(weighed, by_multipliers(alloc, task))?;
    improved(best, by_prices(alloc, task, effort))
}

// The weights themselves as multipliers, on the best machine.
fn by_weights<A: Allocator + Copy, B: Allocator>(
    alloc: A,
    task: &ProblemTask<B>,
) -> Result<Option<Found<A>>, OutOfMemory>
    ensures { IfOk result (λ best. IfSome best (IsFoundOn task.now)) }
{
    let mut best: Option<Found<A>> = None;
    if matches!(task.problem().env, Env::Parallel) {
        return Ok(best);
    }
    for machine in 0..task.machines() as usize {
        let certificate = BoundCertificate::Multipliers {
            machine,
            q: 1,
            numerators: weights(alloc, task)?,
            arcs: Vec::new(alloc),
        };
        best = improved(best, judged(alloc, task, certificate))?;
    }
    Ok(best)
}

fn weights<A: Allocator, B: Allocator>(
    alloc: A,
    task: &ProblemTask<B>,
) -> Result<Vec<u64, A>, OutOfMemory> {
    let mut weights = Vec::with_capacity(alloc, task.len())?;
    for k in 0..task.len() {
        weights.push(task.weight(JobId::at(k)))?;
    }
    Ok(weights)
}

fn by_multipliers<A: Allocator + Copy, B: Allocator>(
    alloc: A,
    task: &ProblemTask<B>,
) -> Result<Option<Found<A>>, OutOfMemory>
    ensures { IfOk result (λ best. IfSome best (IsFoundOn task.now)) }
{
    let Some(found) = searched(multiplier_bound(alloc, task))? else {
        return Ok(None);
    };
    let certificate = BoundCertificate::Multipliers {
        machine: 0,
        q: found.q,
        numerators: found.multipliers,
        arcs: Vec::new(alloc),
    };
    judged(alloc, task, certificate)
}

// Multipliers of the jobs and of the arcs on the best machine, and on identical machines also those
// of the jobs alone.
fn by_arcs<A: Allocator + Copy, B: Allocator>(
    alloc: A,
    task: &ProblemTask<B>,
) -> Result<Option<Found<A>>, OutOfMemory>
    ensures { IfOk result (λ best. IfSome best (IsFoundOn task.now)) }
{
    let mut best: Option<Found<A>> = None;
    if !takes_multipliers(task) {
        return Ok(best);
    }
    let Some(links) = links_of(alloc, task)? else {
        return Ok(best);
    };
    for machine in 0..machines_of(task, links.is_empty()) {
        best = improved(best, by_arcs_on(alloc, task, machine, &links))?;
    }
    Ok(best)
}

// How many machines are searched for multipliers of the arcs: identical ones as one.
fn machines_of<B: Allocator>(task: &ProblemTask<B>, has_none: bool) -> usize {
    match task.problem().env {
        Env::Parallel => 1,
        _ if has_none => 0,
        _ => task.machines() as usize,
    }
}

fn by_arcs_on<A: Allocator + Copy, B: Allocator>(
    alloc: A,
    task: &ProblemTask<B>,
    machine: usize,
    links: &[Link],
) -> Result<Option<Found<A>>, OutOfMemory>
    ensures { IfOk result (λ best. IfSome best (IsFoundOn task.now)) }
{
    let Some(found) = arc_multipliers(alloc, task, machine, links)? else {
        return Ok(None);
    };
    let certificate = BoundCertificate::Multipliers {
        machine,
        q: found.q,
        numerators: found.jobs,
        arcs: found.arcs,
    };
    judged(alloc, task, certificate)
}

fn by_prices<A: Allocator + Copy, B: Allocator, P: Progress>(
    alloc: A,
    task: &ProblemTask<B>,
    effort: &mut Effort<P>,
) -> Result<Option<Found<A>>, OutOfMemory>
    requires { IsFalse (is_shop_env task.now.problem.env) }
    ensures { IfOk result (λ best. IfSome best (IsFoundOn task.now)) }
{
    let steps = steps_for(task, effort.steps, 1);
    if steps == 0 || task.problem().prmp {
        return Ok(None);
    }
    let (order, target) = match best_order(alloc, task) {
        Ok(best) => best,
        Err(BoundFault::OutOfMemory) => return Err(OutOfMemory),
        Err(_) => return Ok(None),
    };
    let Some(start) = searched(sequence_prices(alloc, task, &order))? else {
        return Ok(None);
    };
    let best = from_start(alloc, task, start, target, steps, effort)?;
    effort.is_over();
    Ok(best)
}

// The prices on the better of two machines of a shop.
fn by_machine_prices<A: Allocator + Copy, B: Allocator, P: Progress>(
    alloc: A,
    task: &ProblemTask<B>,
    effort: &mut Effort<P>,
) -> Result<Option<Found<A>>, OutOfMemory>
    ensures { IfOk result (λ best. IfSome best (IsFoundOn task.now)) }
{
    if effort.steps == Some(0) || task.len() > MOST_SEQUENCED {
        return Ok(None);
    }
    let Some(machines) = searched(dearest_machines(alloc, task))? else {
        return Ok(None);
    };
    let best = by_prices_on(alloc, task, machines.first, false, effort)?;
    let best = improved(
        best,
        by_prices_on(alloc, task, machines.second, true, effort),
    )?;
    effort.is_over();
    Ok(best)
}

// The best prices that are found on a machine, rounded where that costs nothing.
fn by_prices_on<A: Allocator + Copy, B: Allocator, P: Progress>(
    alloc: A,
    task: &ProblemTask<B>,
    machine: usize,
    is_second: bool,
    effort: &mut Effort<P>,
) -> Result<Option<Found<A>>, OutOfMemory>
    ensures { IfOk result (λ best. IfSome best (IsFoundOn task.now)) }
{
    let Some(prices) = searched(prices_on(alloc, task, machine, is_second, effort))? else {
        return Ok(None);
    };
    let coarse = coarser_prices(alloc, &prices)?;
    let best = judged_on(alloc, task, machine, coarse)?;
    improved(best, judged_on(alloc, task, machine, prices))
}

// The value of prices on a machine.
fn judged_on<A: Allocator + Copy, B: Allocator>(
    alloc: A,
    task: &ProblemTask<B>,
    machine: usize,
    prices: Prices<A>,
) -> Result<Option<Found<A>>, OutOfMemory>
    ensures { IfOk result (λ best. IfSome best (IsFoundOn task.now)) }
{
    let certificate = BoundCertificate::MachinePrices {
        machine,
        q: prices.q,
        rows: prices.rows,
    };
    judged(alloc, task, certificate)
}

// The prices of the rows that jobs share, where they may be preempted.
fn by_rows<A: Allocator + Copy, B: Allocator>(
    alloc: A,
    task: &ProblemTask<B>,
) -> Result<Option<Found<A>>, OutOfMemory>
    ensures { IfOk result (λ best. IfSome best (IsFoundOn task.now)) }
{
    match row_prices(alloc, task)? {
        Some(prices) => rounded_prices(alloc, task, prices),
        None => Ok(None),
    }
}

// The best prices that are found from those of a sequence, which costs the target.
fn from_start<A: Allocator + Copy, B: Allocator, P: Progress>(
    alloc: A,
    task: &ProblemTask<B>,
    start: Prices<A>,
    target: u64,
    steps: u32,
    effort: &mut Effort<P>,
) -> Result<Option<Found<A>>, OutOfMemory>
    ensures { IfOk result (λ best. IfSome best (IsFoundOn task.now)) }
{
    if is_by_unit(task.problem().goal) {
        return by_due_dates(alloc, task, start, target, steps, effort);
    }
    let steps = Steps {
        before: 0,
        number: steps,
        all: steps,
    };
    by_steps(alloc, task, start, target, steps, effort)
}

// The value of prices.
fn judged_prices<A: Allocator + Copy, B: Allocator>(
    alloc: A,
    task: &ProblemTask<B>,
    prices: Prices<A>,
) -> Result<Option<Found<A>>, OutOfMemory>
    ensures { IfOk result (λ best. IfSome best (IsFoundOn task.now)) }
{
    let certificate = BoundCertificate::Prices {
        q: prices.q,
        rows: prices.rows,
    };
    judged(alloc, task, certificate)
}

// The value of prices, rounded where that costs nothing.
fn rounded_prices<A: Allocator + Copy, B: Allocator>(
    alloc: A,
    task: &ProblemTask<B>,
    prices: Prices<A>,
) -> Result<Option<Found<A>>, OutOfMemory>
    ensures { IfOk result (λ best. IfSome best (IsFoundOn task.now)) }
{
    let coarse = coarser_prices(alloc, &prices)?;
    let best = judged_prices(alloc, task, coarse)?;
    improved(best, judged_prices(alloc, task, prices))
}

// The best prices that steps find from a start, rounded where that costs nothing.
fn by_steps<A: Allocator + Copy, B: Allocator, P: Progress>(
    alloc: A,
    task: &ProblemTask<B>,
    start: Prices<A>,
    target: u64,
    steps: Steps,
    effort: &mut Effort<P>,
) -> Result<Option<Found<A>>, OutOfMemory>
    ensures { IfOk result (λ best. IfSome best (IsFoundOn task.now)) }
{
    let Some(prices) = searched(search_prices(alloc, task, start, target, steps, effort))? else {
        return Ok(None);
    };
    rounded_prices(alloc, task, prices)
}

// From prices that fall at due dates, and from none, unless the former bounds the cost of a known
// schedule.
fn by_due_dates<A: Allocator + Copy, B: Allocator, P: Progress>(
    alloc: A,
    task: &ProblemTask<B>,
    start: Prices<A>,
    target: u64,
    steps: u32,
    effort: &mut Effort<P>,
) -> Result<Option<Found<A>>, OutOfMemory>
    ensures { IfOk result (λ best. IfSome best (IsFoundOn task.now)) }
{
    let least = target.min(known_cost(alloc, task)?);
    let due = prices_by_due(alloc, task, &start)?;
    let first = Steps {
        before: 0,
        number: steps,
        all: steps.saturating_mul(2),
    };
    let best = by_steps(alloc, task, due, least, first, effort)?;
    if value_of(&best) >= i128::from(least) {
        return Ok(best);
    }
    let second = Steps {
        before: steps,
        ..first
    };
    improved(best, by_steps(alloc, task, start, target, second, effort))
}

// The cost of a schedule of late jobs that the rule of Moore and Hodgson gives, where it has one.
fn known_cost<A: Allocator, B: Allocator>(
    alloc: A,
    task: &ProblemTask<B>,
) -> Result<u64, OutOfMemory> {
    let problem = task.problem();
    if matches!(problem.env, Env::Single) && !problem.release && !problem.prec {
        return crossed_out_cost(alloc, task);
    }
    Ok(u64::MAX)
}
