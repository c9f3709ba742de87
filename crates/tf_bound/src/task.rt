//! A task of any problem, as it is written.
ghost use Rattle.std.specs.Prelude.{◌≡◌, ◌↔◌, ◌+◌, ◌≤◌, ◌<◌, sum, IfOk, IfErr, IfSome, IfNone};
ghost use Rattle.std.specs.Prelude.{ℕ, length, IsTrue, IsFalse, MatchResult};
ghost use Rattle.std.specs.List.{All, sum_by};
ghost use Rattle.tf_model.specs.ClassTable.{is_single_env, is_flow_env};
ghost use Rattle.tf_model.specs.Limit.{limit};
ghost use Rattle.tf_posed.specs.ProblemData.{ProblemData, is_covered, is_job_shop, needs_time};
ghost use Rattle.tf_bound.specs.Refused.{IsCounted, IsFitJob, IsJobsFault, IsTaskFault};
ghost use Rattle.tf_bound.specs.Route.{IsRouted};
ghost use Rattle.tf_bound.specs.Sized.{IsSized, IsSizedJob, task_of, work};

use crate::fault::TaskFault;
use crate::job_times::JobTimes;
use crate::route_time::{time_before, time_behind};
use std::alloc::{Allocator, Global};
use std::marker::Model;
use tf_model::ids::JobId;
use tf_model::limit::{LIMIT, MOST_JOBS, MOST_MACHINES};
use tf_model::problem::{Env, Goal, Problem};

/// A job: one time, or in a shop one for each machine, from the first on, and in a job shop a
/// route.
#[derive(Drop)]
pub struct ProblemJob<A: Allocator = Global> {
    pub times: JobTimes<A>,
    pub weight: u64,
    /// In time steps: the job does not start before.
    pub release: u64,
    /// In time steps.
    pub due: i64,
}

impl<A: Allocator> Model for ProblemJob<A> {
    ghost use Rattle.tf_posed.specs.ProblemData.{ProblemJobData};
    ghost use Rattle.tf_bound.specs.JobTimes.{listed, route_in};

    ghost Value = { ProblemJobData };

    ghost view = { λ j.
        record {
          times = listed j.times;
          route = route_in j.times;
          weight = j.weight;
          release = j.release;
          due = j.due;
        } };
}

/// The problem, its machines, jobs and arcs, within the limits. What the problem's conditions and
/// objective do not name is not looked at.
#[derive(Drop)]
pub struct ProblemTask<A: Allocator = Global> {
    problem: Problem,
    machines: u32,
    jobs: Vec<ProblemJob<A>, A>,
    arcs: Vec<(JobId, JobId), A>,
}

impl<A: Allocator> Model for ProblemTask<A> {
    ghost use Rattle.tf_posed.specs.ProblemData.{ProblemData};
    ghost use Rattle.tf_bound.specs.Sized.{IsSized};

    ghost Value = { ProblemData };

    ghost view = { λ t.
        record {
          problem = t.problem;
          machines = t.machines;
          jobs = t.jobs.items;
          arcs = t.arcs.items;
        } };

    ghost invariant = { λ t. IsSized
        (record {
          problem = t.problem;
          machines = t.machines;
          jobs = t.jobs.items;
          arcs = t.arcs.items;
        }) };
}

/// Whether the definitions speak of the problem. Some kind of certificate bounds the tasks of each
/// such problem.
pub fn is_taken(problem: &Problem) -> bool
    ensures { result ≡ is_covered problem.now }
{
    let env = !matches!(problem.env, Env::Uniform | Env::Unrelated);
    let goal = !matches!(problem.goal, Goal::Hmax);
    env && goal && !problem.block && !problem.rcrc
}

/// Whether each job has to take some time: outside shops, and wherever a job waits for its release
/// date or for another job. Else a job of a shop may take none, and is then over from the first.
pub fn needs_time(problem: &Problem) -> bool
    ensures { result ≡ needs_time problem.now }
{
    !problem.env.is_shop() || problem.release || problem.prec
}

fn is_single(env: Env) -> bool
    ensures { result ≡ is_single_env env }
{
    matches!(env, Env::Single)
}

fn is_flow(env: Env) -> bool
    ensures { result ≡ is_flow_env env }
{
    matches!(env, Env::Flow)
}

pub(crate) fn is_job_shop(env: Env) -> bool
    ensures { result ≡ is_job_shop env }
{
    matches!(env, Env::JobShop)
}

// The sum of times that is within the limit.
fn total_of(times: &[u64]) -> u64
    requires { sum times.now ≤ limit }
    ensures { result ≡ sum times.now }
{
    times.iter().sum()
}

/// The sum of some numbers, where it is within the limit.
pub(crate) fn sum_within(numbers: &[u64]) -> Option<u64>
    ensures value { IfSome result (λ total. total ≡ sum numbers.now) }
    ensures small { IfSome result (λ total. total ≤ limit) }
    ensures large { IfNone result (limit < sum numbers.now) }
{
    let mut total: u64 = 0;
    for number in numbers {
        if *number > LIMIT as u64 - total {
            return None;
        }
        total += *number;
    }
    Some(total)
}

// Whether the job is of a job shop and has no route.
fn is_unrouted<A: Allocator>(problem: &Problem, job: &ProblemJob<A>) -> bool
    ensures routed { IsFalse result → IsTrue (is_job_shop problem.now.env) →
        IsRouted (length job.now.times) job.now.times job.now.route }
    ensures some { IsFalse result → IsTrue (is_job_shop problem.now.env) →
        1 ≤ length job.now.route }
    ensures unfit { IsTrue result → (machines : ℕ) → ¬ (IsFitJob problem.now machines job.now) }
{
    is_job_shop(problem.env) && !job.times.is_routed()
}

// The time of a job that is as the problem asks. None where it is not, or its time is beyond the
// limit.
fn sized_work<A: Allocator>(problem: &Problem, machines: u32, job: &ProblemJob<A>) -> Option<u64>
    ensures sized { IfSome result (λ _. IsSizedJob problem.now machines job.now) }
    ensures value { IfSome result (λ time. time ≡ work job.now) }
    ensures small { IfSome result (λ time. time ≤ limit) }
    ensures unfit { IfNone result (¬ (IsFitJob problem.now machines job.now)) }
{
    let asked = if problem.env.is_shop() {
        machines as usize
    } else {
        1
    };
    let times = job.times.as_slice();
    if times.len() != asked {
        return None;
    }
    let limit = LIMIT as u64;
    if job.weight > limit || job.release > limit || job.due < -LIMIT || job.due > LIMIT {
        return None;
    }
    let work = sum_within(times)?;
    if work == 0 && needs_time(problem) {
        return None;
    }
    if is_unrouted(problem, job) {
        return None;
    }
    Some(work)
}

// The time of all jobs, each of which is as the problem asks; or what is wrong with the first that
// is not, or with the first time of the jobs up to one.
fn all_work<A: Allocator>(
    problem: &Problem,
    machines: u32,
    jobs: &[ProblemJob<A>],
) -> Result<u64, TaskFault>
    ensures sized { IfOk result (λ _. All (IsSizedJob problem.now machines) jobs.now) }
    ensures value { IfOk result (λ all. all ≡ sum_by work jobs.now) }
    ensures small { IfOk result (λ all. all ≤ limit) }
    ensures fault { IfErr result (IsJobsFault problem.now machines jobs.now) }
{
    let mut all: u64 = 0;
    for (place, job) in jobs.iter().enumerate() {
        let Some(work) = sized_work(problem, machines, job) else {
            return Err(TaskFault::Times(place));
        };
        if work > LIMIT as u64 - all {
            return Err(TaskFault::TooLarge);
        }
        all += work;
    }
    Ok(all)
}

// Whether all the work after any release date is within the limit.
fn is_within<A: Allocator>(jobs: &[ProblemJob<A>], all: u64) -> bool
    requires { all ≤ limit }
    ensures { IsTrue result ↔ All (λ x. x.release + all ≤ limit) jobs.now }
{
    let last = LIMIT as u64 - all;
    for job in jobs {
        if job.release > last {
            return false;
        }
    }
    true
}

// Whether each arc is between two of so many jobs.
fn are_in(arcs: &[(JobId, JobId)], jobs: usize) -> bool
    ensures { IsTrue result ↔ All
        (λ arc. ((1 ≤ arc.0) × (arc.0 ≤ jobs)) × ((1 ≤ arc.1) × (arc.1 ≤ jobs))) arcs.now }
{
    for (before, after) in arcs {
        if before.get() as usize > jobs || after.get() as usize > jobs {
            return false;
        }
    }
    true
}

// The first fault of the problem, of the number of jobs, or of that of machines.
fn judge_counts(problem: &Problem, machines: u32, jobs: usize) -> Result<(), TaskFault>
    ensures { (k : ProblemData) → k.problem ≡ problem.now → k.machines ≡ machines →
        length k.jobs ≡ jobs → MatchResult result (λ _. IsCounted k) (IsTaskFault k) }
{
    if !is_taken(problem) {
        return Err(TaskFault::NotCovered);
    }
    if jobs == 0 || jobs > MOST_JOBS {
        return Err(TaskFault::Jobs);
    }
    if machines == 0 || machines > MOST_MACHINES {
        return Err(TaskFault::Machines);
    }
    if is_single(problem.env) && machines != 1 {
        return Err(TaskFault::Machines);
    }
    Ok(())
}

// The first fault of the parts of a task.
fn judge_parts<A: Allocator>(
    problem: &Problem,
    machines: u32,
    jobs: &[ProblemJob<A>],
    arcs: &[(JobId, JobId)],
) -> Result<(), TaskFault>
    ensures { MatchResult result (λ _. IsSized (task_of problem.now machines jobs.now arcs.now))
        (IsTaskFault (task_of problem.now machines jobs.now arcs.now)) }
{
    judge_counts(problem, machines, jobs.len())?;
    let all = all_work(problem, machines, jobs)?;
    if !is_within(jobs, all) {
        return Err(TaskFault::TooLarge);
    }
    if !are_in(arcs, jobs.len()) {
        return Err(TaskFault::Arc);
    }
    Ok(())
}

impl<A: Allocator> ProblemTask<A> {
    ghost use Rattle.std.specs.Prelude.{◌≡◌, ◌*◌, ◌-◌, ◌<◌, ◌≤◌, length, slice_index, IfOk, IfErr};
    ghost use Rattle.std.specs.Prelude.{IsTrue, IsFalse};
    ghost use Rattle.tf_model.specs.ClassTable.{is_shop_env};
    ghost use Rattle.tf_model.specs.Limit.{limit};
    ghost use Rattle.tf_model.specs.Whole.{IsWithin};
    ghost use Rattle.tf_posed.specs.ProblemData.{IsProblemJob, problem_job, problem_time};
    ghost use Rattle.tf_posed.specs.ProblemData.{problem_time_on, problem_release};
    ghost use Rattle.tf_posed.specs.ProblemData.{problem_weight, problem_due};
    ghost use Rattle.tf_problem.specs.ProblemBounds.{is_by_machine, head, problem_work, tail};
    ghost use Rattle.tf_problem.specs.Split.{lag};
    ghost use Rattle.tf_bound.specs.Split.{ArePair};
    ghost use Rattle.tf_bound.specs.Sized.{IsSized, task_of};
    ghost use Rattle.tf_bound.specs.Steps.{steps_of};
    ghost use Rattle.tf_bound.specs.Refused.{IsTaskFault};

    /// The task of these parts, or the first fault: of the problem, the number of jobs, that of
    /// machines, the jobs and their times together, the work after a release date, and the arcs.
    pub fn new(
        problem: Problem,
        machines: u32,
        jobs: Vec<ProblemJob<A>, A>,
        arcs: Vec<(JobId, JobId), A>,
    ) -> Result<Self, TaskFault>
        ensures task { IfOk result (λ task. task
            ≡ task_of problem machines jobs.items arcs.items) }
        ensures sized { IfOk result IsSized }
        ensures fault { IfErr result (IsTaskFault
            (task_of problem machines jobs.items arcs.items)) }
        ensures refused { IfErr result (λ _.
            ¬ (IsSized (task_of problem machines jobs.items arcs.items))) }
    {
        judge_parts(&problem, machines, &jobs, &arcs)?;
        Ok(ProblemTask {
            problem,
            machines,
            jobs,
            arcs,
        })
    }

    /// The problem.
    pub fn problem(&self) -> Problem
        ensures value { result ≡ self.now.problem }
        ensures sized { IsSized self.now }
    {
        self.problem
    }

    /// The number of its machines.
    pub fn machines(&self) -> u32
        ensures value { result ≡ self.now.machines }
        ensures sized { IsSized self.now }
    {
        self.machines
    }

    /// The number of its jobs, at least 1.
    pub fn len(&self) -> usize
        ensures value { result ≡ length self.now.jobs }
        ensures sized { IsSized self.now }
    {
        self.jobs.len()
    }

    /// The arcs: of each, the first job is over before the second starts.
    pub fn arcs(&self) -> &[(JobId, JobId)]
        ensures value { result.now ≡ self.now.arcs }
        ensures sized { IsSized self.now }
    {
        &self.arcs
    }

    /// What is known of a job that is there.
    pub fn job(&self, job: JobId) -> &ProblemJob<A>
        requires { IsProblemJob self.now job }
        ensures value { result.now ≡ problem_job self.now job }
        ensures sized { IsSized self.now }
    {
        &self.jobs[job.place()]
    }

    /// The times of a job that is there: one, or in a shop one for each machine.
    pub fn times(&self, job: JobId) -> &[u64]
        requires { IsProblemJob self.now job }
        ensures value { result.now ≡ (problem_job self.now job).times }
        ensures sized { IsSized self.now }
    {
        self.job(job).times.as_slice()
    }

    /// The time of a job that is there, in a shop on all machines together.
    pub fn work(&self, job: JobId) -> u64
        requires { IsProblemJob self.now job }
        ensures value { result ≡ problem_work self.now job }
        ensures small { result ≤ limit }
        ensures sized { IsSized self.now }
    {
        total_of(self.times(job))
    }

    /// The time of a job that is there, where each has one.
    pub fn time(&self, job: JobId) -> u64
        requires job { IsProblemJob self.now job }
        requires one { IsFalse (is_shop_env self.now.problem.env) }
        ensures value { result ≡ problem_time self.now job }
        ensures small { result ≤ limit }
    {
        self.times(job)[0]
    }

    /// The release date of a job that is there, 0 where the problem has none.
    pub fn release(&self, job: JobId) -> u64
        requires { IsProblemJob self.now job }
        ensures value { result ≡ problem_release self.now job }
        ensures small { result ≤ limit }
    {
        if self.problem.release {
            self.job(job).release
        } else {
            0
        }
    }

    /// The weight of a job that is there, 1 where the objective has none.
    pub fn weight(&self, job: JobId) -> u64
        requires { IsProblemJob self.now job }
        ensures value { result ≡ problem_weight self.now job }
        ensures small { result ≤ limit }
    {
        match self.problem.goal {
            Goal::SumWC | Goal::SumWT | Goal::SumWU => self.job(job).weight,
            _ => 1,
        }
    }

    /// The due date of a job that is there, 0 where the objective has none.
    pub fn due(&self, job: JobId) -> i64
        requires { IsProblemJob self.now job }
        ensures value { result ≡ problem_due self.now job }
        ensures small { IsWithin result }
    {
        match self.problem.goal {
            Goal::Lmax | Goal::SumT | Goal::SumWT | Goal::SumU | Goal::SumWU => self.job(job).due,
            _ => 0,
        }
    }

    /// The time of a job that is there on a machine, counted from 0.
    pub fn time_on(&self, machine: usize, job: JobId) -> u64
        requires machine { machine < self.now.machines }
        requires env { IsTrue (is_by_machine self.now.problem.env) }
        requires job { IsProblemJob self.now job }
        ensures value { result ≡ problem_time_on self.now job machine }
        ensures small { result ≤ limit }
    {
        self.times(job)[machine]
    }

    /// The machines in the order in which a job that is there visits them, counted from 0, in a job
    /// shop.
    pub fn route(&self, job: JobId) -> &[u32]
        requires { IsProblemJob self.now job }
        ensures value { result.now ≡ (problem_job self.now job).route }
        ensures sized { IsSized self.now }
    {
        match self.job(job).times.route() {
            Some(route) => route,
            None => &[],
        }
    }

    /// The number of steps of a job that is there: in a job shop of its route, elsewhere one for
    /// each of its times.
    pub fn steps(&self, job: JobId) -> usize
        requires { IsProblemJob self.now job }
        ensures value { result ≡ length (steps_of self.now job) }
        ensures sized { IsSized self.now }
    {
        if is_job_shop(self.problem().env) {
            self.route(job).len()
        } else {
            self.times(job).len()
        }
    }

    /// The machine of a step, both counted from 0.
    pub fn step(&self, job: JobId, place: usize) -> usize
        requires job { IsProblemJob self.now job }
        requires place { place < length (steps_of self.now job) }
        ensures value { result ≡ slice_index (steps_of self.now job) place }
        ensures timed { result < length (problem_job self.now job).times }
        ensures within { result < self.now.machines }
    {
        if is_job_shop(self.problem().env) {
            self.route(job)[place] as usize
        } else {
            place
        }
    }

    /// Before this time the job is not on the machine, counted from 0: its release date, and in a
    /// flow shop or a job shop its time on the machines before.
    pub fn head(&self, machine: usize, job: JobId) -> u64
        requires machine { machine < self.now.machines }
        requires env { IsTrue (is_by_machine self.now.problem.env) }
        requires job { IsProblemJob self.now job }
        ensures value { result ≡ head self.now machine job }
        ensures small { result ≤ 2 * limit }
    {
        let release = self.release(job);
        let env = self.problem().env;
        if is_flow(env) {
            release + total_of(&self.times(job)[..machine])
        } else if is_job_shop(env) {
            release + time_before(self.times(job), self.route(job), machine)
        } else {
            release
        }
    }

    /// The time of a job that is there on the machines between two of a flow shop, counted from 0.
    pub fn lag(&self, first: usize, second: usize, job: JobId) -> u64
        requires pair { ArePair self.now first second }
        requires job { IsProblemJob self.now job }
        ensures value { result ≡ lag self.now first second job }
        ensures small { result ≤ limit }
    {
        total_of(&self.times(job)[first + 1..second])
    }

    /// So much later than on the machine, counted from 0, a job completes at least: in a flow shop
    /// or a job shop its time on the machines after.
    pub fn tail(&self, machine: usize, job: JobId) -> u64
        requires machine { machine < self.now.machines }
        requires env { IsTrue (is_by_machine self.now.problem.env) }
        requires job { IsProblemJob self.now job }
        ensures value { result ≡ tail self.now machine job }
        ensures small { result ≤ limit }
    {
        let env = self.problem().env;
        if is_flow(env) {
            total_of(&self.times(job)[machine + 1..])
        } else if is_job_shop(env) {
            time_behind(self.times(job), self.route(job), machine)
        } else {
            0
        }
    }
}
