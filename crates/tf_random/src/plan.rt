//! What a random table has.
ghost use Rattle.std.specs.Prelude.{◌≡◌, ◌<◌, ◌≤◌};
ghost use Rattle.tf_random.specs.Plan.{machines_of, number_of_step, plan_of, shop_times};
ghost use Rattle.tf_random.specs.Plan.{step_time, swapped, times_of, value, work_of};

use crate::draw::below;
use crate::fields::{has_cost, has_due, has_times_alone, has_weight};
use tf_model::problem::{Env, Problem};

/// The numbers drawn for each job, used or not: so that the same seed gives the same processing
/// times whatever the problem.
pub const DRAWS: u64 = 10;

/// The first number that is drawn for a step beyond the second, or for a route.
const FIRST_OF_STEPS: u64 = 4_294_967_296;

/// How many of these numbers each job has: one for the time and one for the place in the route of
/// each of the most machines.
const DRAWS_OF_STEPS: u64 = 2_000;

/// How the processing times of a job are written.
#[derive(Clone, Copy, Debug, PartialEq, Eq)]
pub enum Times {
    /// In a table: one time.
    One,
    /// In a table: the times on machines 1 and 2 of a shop.
    Two,
    /// In a table: a route over all machines.
    Route,
    /// In a flow shop file: each machine with the time on it.
    Each,
}

/// The jobs, the machines and the fields of a table, and the seed of its numbers.
#[derive(Clone, Copy, Debug)]
pub struct Plan {
    pub jobs: u32,
    /// The number of machines that the text names, or 0 where it names none.
    pub machines: u32,
    /// The longest processing time, from 1.
    pub most: u32,
    pub seed: u32,
    pub times: Times,
    pub weight: bool,
    pub due: bool,
    pub release: bool,
    pub cost: bool,
    pub arcs: bool,
    /// About how long the jobs take, in time steps.
    pub work: u64,
}

impl Plan {
    /// The plan of a table for a problem, or of a flow shop file, if one can be written for it. The
    /// number of machines is used where there may be several and the problem names none; it is 2 if
    /// it is not given. The longest processing time is at least 1.
    pub fn of(
        problem: &Problem,
        jobs: u32,
        machines: Option<u32>,
        most: u32,
        seed: u32,
    ) -> Option<Plan>
        ensures { result ≡ plan_of problem.now jobs machines most seed }
    {
        let machines = machines_of(problem, machines);
        let times = times_of(problem, machines)?;
        Some(Plan {
            jobs,
            machines,
            most,
            seed,
            times,
            weight: has_weight(problem.goal),
            due: has_due(problem.goal),
            release: problem.release,
            cost: has_cost(problem.goal),
            arcs: problem.prec,
            work: work_of(problem, jobs, machines, most),
        })
    }

    /// Draw i of job k, i from 1 to [`DRAWS`] and k from 1: a number below `most`.
    pub fn value(&self, k: u32, i: u64, most: u64) -> u64
        requires job { 0 < k }
        requires draw { i ≤ DRAWS }
        requires some { 0 < most }
        ensures value { result ≡ value self.now k i most }
        ensures small { result < most }
    {
        below(self.seed, u64::from(k - 1) * DRAWS + i, most)
    }

    /// The time of step i of job k, i and k from 1.
    pub fn step_time(&self, k: u32, i: u32) -> u64
        requires job { 0 < k }
        ensures value { result ≡ step_time self.now k i }
    {
        let most = u64::from(self.most.max(1));
        if i <= 2 {
            return self.value(k, u64::from(i), most) + 1;
        }
        below(self.seed, number_of_step(k, i), most) + 1
    }

    /// Which of the machines from place i of its route on job k visits next, i and k from 1: how
    /// many of them, of `rest`, come before it.
    pub fn swapped(&self, k: u32, i: u32, rest: u32) -> u64
        requires job { 0 < k }
        requires some { 0 < rest }
        ensures value { result ≡ swapped self.now k i rest }
        ensures small { result < rest }
    {
        below(self.seed, number_of_step(k, i) + 1_000, u64::from(rest))
    }
}

// The number that is drawn for step i of job k.
fn number_of_step(k: u32, i: u32) -> u64
    requires job { 0 < k }
    ensures { result ≡ number_of_step k i }
{
    FIRST_OF_STEPS + u64::from(k - 1) * DRAWS_OF_STEPS + u64::from(i)
}

// How the times of a job are written, if a text has a place for all that the problem needs.
fn times_of(problem: &Problem, machines: u32) -> Option<Times>
    ensures { result ≡ times_of problem.now machines }
{
    match problem.env {
        Env::Single | Env::Parallel => Some(Times::One),
        Env::Flow | Env::OpenShop => shop_times(problem, machines),
        Env::JobShop => Some(Times::Route),
        Env::Uniform | Env::Unrelated => None,
    }
}

// The same of a flow shop or an open shop.
fn shop_times(problem: &Problem, machines: u32) -> Option<Times>
    ensures { result ≡ shop_times problem.now machines }
{
    if machines == 2 {
        return Some(Times::Two);
    }
    if has_times_alone(problem) {
        return Some(Times::Each);
    }
    None
}

// The number of machines that the text of a problem names, or 0.
fn machines_of(problem: &Problem, machines: Option<u32>) -> u32
    ensures { result ≡ machines_of problem.now machines }
{
    match problem.env {
        Env::Single | Env::Uniform | Env::Unrelated => 0,
        Env::Parallel | Env::Flow | Env::OpenShop | Env::JobShop => {
            problem.count.unwrap_or(machines.unwrap_or(2))
        }
    }
}

// About how long so many jobs take of at most so many time steps: half of that each, on all
// machines where they are parallel.
fn work_of(problem: &Problem, jobs: u32, machines: u32, most: u32) -> u64
    ensures { result ≡ work_of problem.now jobs machines most }
{
    let work = u64::from(jobs) * u64::from(most) / 2;
    match problem.env {
        Env::Parallel => work / u64::from(machines.max(1)),
        _ => work,
    }
}
