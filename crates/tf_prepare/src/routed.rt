//! From an instance with routes to the task of a job shop, or to the first refusal.
ghost use Rattle.std.specs.Prelude.{◌≡◌, ◌<◌, ◌≤◌, length, position, IfOk, IfErr};
ghost use Rattle.std.specs.List.{All};
ghost use Rattle.std.specs.Option.{ForSome, option_map};
ghost use Rattle.tf_model.specs.InstanceData.{first_with};
ghost use Rattle.tf_model.specs.Limit.{most_jobs, most_machines};
ghost use Rattle.tf_model.specs.declared.prepare.Refusal.TheVariants.{WrongTimes, ZeroTime};
ghost use Rattle.tf_routes.specs.RoutedData.{AreSteps, HasRoutes};
ghost use Rattle.tf_prepare.specs.Preparing.{greatest_named, greatest_on, is_beyond, is_idle_route};
ghost use Rattle.tf_prepare.specs.Preparing.{where_needed};
ghost use Rattle.tf_prepare.specs.Preparing.{is_unrouted, job_in, machines_of, much_in, PreparesIn};
ghost use Rattle.tf_prepare.specs.Preparing.{routed_in, routed_jobs_in, routed_machines_in};
ghost use Rattle.tf_prepare.specs.Preparing.{routed_task_in, routes_refusal_in, times_by, IsOfSize};

use crate::prepare::{agreed, arcs_in, count_in, first_missing, job_in};
use std::alloc::{AllocError, Allocator};
use tf_bound::job_times::JobTimes;
use tf_bound::routed_times::RoutedTimes;
use tf_bound::task::{ProblemJob, ProblemTask, needs_time};
use tf_model::ids::JobId;
use tf_model::instance::Instance;
use tf_model::job::Job;
use tf_model::prepare::Refusal;
use tf_model::problem::Problem;
use tf_routes::route::Route;

/// The most processing times of a shop: its jobs times its machines.
pub const MOST_TIMES: u64 = 2_000_000;

/// The task of a job shop of these jobs and routes, or the first refusal.
pub(crate) fn prepare_routed<A: Allocator + Copy, B: Allocator>(
    alloc: A,
    instance: &Instance<B>,
    routes: &[Route<B>],
    problem: &Problem,
    argument: Option<u32>,
) -> Result<ProblemTask<A>, Refusal>
    requires { HasRoutes most_machines
        (record { instance = instance.now; routes = routes.now }) }
    ensures { PreparesIn result (routed_in routes.now instance.now problem.now argument) }
{
    let jobs = instance.jobs();
    if let Some(refusal) = first_unrouted(routes) {
        return Err(refusal);
    }
    let machines = routed_machines(problem, argument, instance.machines(), routes)?;
    if let Some(refusal) = routes_refusal(problem, machines, jobs, routes) {
        return Err(refusal);
    }
    assemble(alloc, problem, machines, instance, routes)
}

fn unrouted_at<A: Allocator>(routes: &[Route<A>]) -> Option<usize>
    ensures value { result ≡ position is_unrouted routes.now }
    ensures within { ForSome result (λ k. k < length routes.now) }
{
    routes.iter().position(|route| is_unrouted(route))
}

// The first job without a route.
fn first_unrouted<A: Allocator>(routes: &[Route<A>]) -> Option<Refusal>
    requires { length routes.now ≤ most_jobs }
    ensures { result ≡ option_map WrongTimes (first_with is_unrouted routes.now) }
{
    match unrouted_at(routes) {
        Some(place) => Some(Refusal::WrongTimes(JobId::at(place))),
        None => None,
    }
}

fn beyond_at<A: Allocator>(machines: u32, routes: &[Route<A>]) -> Option<usize>
    ensures value { result ≡ position (is_beyond machines) routes.now }
    ensures within { ForSome result (λ k. k < length routes.now) }
{
    routes.iter().position(|route| is_beyond(machines, route))
}

// The first job whose route names a machine beyond so many.
fn first_beyond<A: Allocator>(machines: u32, routes: &[Route<A>]) -> Option<Refusal>
    requires { length routes.now ≤ most_jobs }
    ensures { result ≡ option_map WrongTimes (first_with (is_beyond machines) routes.now) }
{
    match beyond_at(machines, routes) {
        Some(place) => Some(Refusal::WrongTimes(JobId::at(place))),
        None => None,
    }
}

fn idle_at<A: Allocator>(routes: &[Route<A>]) -> Option<usize>
    ensures value { result ≡ position is_idle_route routes.now }
    ensures within { ForSome result (λ k. k < length routes.now) }
{
    routes.iter().position(|route| is_idle(route))
}

// The first job whose route has no time at all.
fn first_idle<A: Allocator>(routes: &[Route<A>]) -> Option<Refusal>
    requires { length routes.now ≤ most_jobs }
    ensures { result ≡ option_map ZeroTime (first_with is_idle_route routes.now) }
{
    match idle_at(routes) {
        Some(place) => Some(Refusal::ZeroTime(JobId::at(place))),
        None => None,
    }
}

// The same, where the problem needs time of each job.
fn idle_refusal<A: Allocator>(problem: &Problem, routes: &[Route<A>]) -> Option<Refusal>
    requires { length routes.now ≤ most_jobs }
    ensures { result
        ≡ where_needed problem.now (option_map ZeroTime (first_with is_idle_route routes.now)) }
{
    if needs_time(problem) {
        first_idle(routes)
    } else {
        None
    }
}

// Whether a job has no route.
fn is_unrouted<A: Allocator>(route: &Route<A>) -> bool
    ensures { result ≡ is_unrouted route.now }
{
    route.as_slice().is_empty()
}

// Whether a route names a machine beyond so many.
fn is_beyond<A: Allocator>(machines: u32, route: &Route<A>) -> bool
    ensures { result ≡ is_beyond machines route.now }
{
    route.as_slice().iter().any(|step| machines <= step.machine)
}

// Whether a route has no time at all.
fn is_idle<A: Allocator>(route: &Route<A>) -> bool
    ensures { result ≡ is_idle_route route.now }
{
    route.as_slice().iter().all(|step| step.time == 0)
}

// The number of machines: what the notation, the caller and the instance say, else as many as the
// routes name.
fn routed_machines<A: Allocator>(
    problem: &Problem,
    argument: Option<u32>,
    instance: Option<u32>,
    routes: &[Route<A>],
) -> Result<u32, Refusal>
    requires { All (AreSteps most_machines) routes.now }
    ensures { result ≡ routed_machines_in problem.now argument instance routes.now }
{
    let count = agreed(problem.count, argument)?;
    match agreed(count, instance)? {
        Some(m) => count_in(problem, true, m),
        None => count_in(problem, true, greatest_named(routes)),
    }
}

// The greatest machine that the routes name, counted from 1.
fn greatest_named<A: Allocator>(routes: &[Route<A>]) -> u32
    requires { All (AreSteps most_machines) routes.now }
    ensures { result ≡ greatest_named routes.now }
{
    let mut greatest = 0;
    for route in routes {
        greatest = greatest_on(greatest, route);
    }
    greatest
}

// The greatest of a number and of the machines that a route names, counted from 1.
fn greatest_on<A: Allocator>(most: u32, route: &Route<A>) -> u32
    requires { AreSteps most_machines route.now }
    ensures { result ≡ greatest_on most route.now }
{
    let mut greatest = most;
    for step in route.as_slice() {
        greatest = greatest.max(step.machine + 1);
    }
    greatest
}

// The first refusal for the jobs' sake.
fn routes_refusal<A: Allocator>(
    problem: &Problem,
    machines: u32,
    jobs: &[Job<A>],
    routes: &[Route<A>],
) -> Option<Refusal>
    requires jobs { length jobs.now ≤ most_jobs }
    requires routes { length routes.now ≤ most_jobs }
    ensures { result ≡ routes_refusal_in problem.now machines jobs.now routes.now }
{
    if let Some(refusal) = first_beyond(machines, routes) {
        return Some(refusal);
    }
    if let Some(refusal) = first_missing(problem, jobs) {
        return Some(refusal);
    }
    if let Some(refusal) = idle_refusal(problem, routes) {
        return Some(refusal);
    }
    much_in(machines, routes)
}

// Whether there are too many processing times.
fn much_in<A: Allocator>(machines: u32, routes: &[Route<A>]) -> Option<Refusal>
    requires { length routes.now ≤ most_jobs }
    ensures { result ≡ much_in machines routes.now }
{
    if routes.len() as u64 * u64::from(machines) > MOST_TIMES {
        Some(Refusal::TotalTooLarge)
    } else {
        None
    }
}

// The times on the machines, from the first on.
fn times_by<A: Allocator, B: Allocator>(
    alloc: A,
    machines: u32,
    route: &Route<B>,
) -> Result<Vec<u64, A>, AllocError>
    requires { AreSteps machines route.now }
    ensures { IfOk result (λ times. times.items ≡ times_by machines route.now) }
{
    let mut times = vec![in alloc; 0; machines as usize]?;
    for step in route.as_slice() {
        times[step.machine as usize] = step.time;
    }
    Ok(times)
}

// The machines in the order in which the job visits them.
fn machines_of<A: Allocator, B: Allocator>(
    alloc: A,
    route: &Route<B>,
) -> Result<Vec<u32, A>, AllocError>
    ensures { IfOk result (λ machines. machines.items ≡ machines_of route.now) }
{
    let steps = route.as_slice();
    let mut machines = Vec::with_capacity(alloc, steps.len())?;
    for step in steps {
        machines.push(step.machine)?;
    }
    Ok(machines)
}

// The times and the machines of a route.
fn routed_times<A: Allocator + Copy, B: Allocator>(
    alloc: A,
    machines: u32,
    route: &Route<B>,
) -> Result<RoutedTimes<A>, AllocError>
    requires { AreSteps machines route.now }
    ensures times { IfOk result (λ routed. routed.times ≡ times_by machines route.now) }
    ensures route { IfOk result (λ routed. routed.route ≡ machines_of route.now) }
{
    let times = times_by(alloc, machines, route)?;
    let visited = machines_of(alloc, route)?;
    match RoutedTimes::new(alloc, times, visited)? {
        Some(routed) => Ok(routed),
        None => unreachable!(),
    }
}

fn routed_jobs<A: Allocator + Copy, B: Allocator>(
    alloc: A,
    problem: &Problem,
    machines: u32,
    routes: &[Route<B>],
    jobs: &[Job<B>],
) -> Result<Vec<ProblemJob<A>, A>, AllocError>
    requires count { length routes.now ≡ length jobs.now }
    requires routes { All (AreSteps machines) routes.now }
    ensures { IfOk result (λ rows. rows.items
        ≡ routed_jobs_in problem.now machines routes.now jobs.now) }
{
    let mut rows = Vec::with_capacity(alloc, jobs.len())?;
    for (k, job) in jobs.iter().enumerate() {
        let times = JobTimes::Routed(routed_times(alloc, machines, &routes[k])?);
        rows.push(job_in(problem, times, job))?;
    }
    Ok(rows)
}

// The task of what was accepted, or the total that is beyond the limit.
fn assemble<A: Allocator + Copy, B: Allocator>(
    alloc: A,
    problem: &Problem,
    machines: u32,
    instance: &Instance<B>,
    routes: &[Route<B>],
) -> Result<ProblemTask<A>, Refusal>
    requires { HasRoutes machines (record { instance = instance.now; routes = routes.now }) }
    ensures ok { IfOk result (λ task. task
        ≡ routed_task_in problem.now machines instance.now routes.now) }
    ensures err { IfErr result (IsOfSize
        (routed_task_in problem.now machines instance.now routes.now)) }
{
    let jobs = routed_jobs(alloc, problem, machines, routes, instance.jobs())?;
    let arcs = arcs_in(alloc, problem, instance.arcs())?;
    match ProblemTask::new(*problem, machines, jobs, arcs) {
        Ok(task) => Ok(task),
        Err(_) => Err(Refusal::TotalTooLarge),
    }
}
