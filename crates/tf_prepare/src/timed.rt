//! An instance with the processing times of its jobs.
ghost use Rattle.std.specs.Prelude.{◌≡◌, ◌==◌, [], slice_index, map, IfOk};
ghost use Rattle.std.specs.List.{list_all};
ghost use Rattle.tf_model.specs.Whole.{as_time};
ghost use Rattle.tf_bound.specs.JobTimes.{listed, route_in};
ghost use Rattle.tf_prepare.specs.Preparing.{times_of, is_idle};

use std::alloc::{AllocError, Allocator, Global};
use std::marker::Model;
use tf_bound::job_times::JobTimes;
use tf_model::instance::Instance;
use tf_model::job::{Job, Times};
use tf_routes::route::Route;
use tf_routes::routed::RoutedInstance;

/// The processing times of all jobs on one machine, in the order of the jobs.
#[derive(Drop)]
pub struct MachineTimes<A: Allocator = Global> {
    /// In time steps.
    times: Vec<u64, A>,
}

impl<A: Allocator> Model for MachineTimes<A> {
    ghost use Rattle.std.specs.Prelude.{ℕ, List};

    ghost Value = { List ℕ };

    ghost view = { λ t. t.times.items };
}

impl<A: Allocator> MachineTimes<A> {
    ghost use Rattle.std.specs.Prelude.{◌≡◌, slice_index};

    /// These times of the jobs on the machine.
    pub fn new(times: Vec<u64, A>) -> Self
        ensures { result ≡ times.items }
    {
        MachineTimes { times }
    }

    /// The time of the job at a place, counted from 0, and 0 past the end.
    pub(crate) fn at(&self, place: usize) -> u64
        ensures { result ≡ slice_index self.now place }
    {
        self.times.get(place).copied().unwrap_or(0)
    }
}

/// An instance, and the processing times of its jobs: those that the jobs have themselves, or for a
/// shop those on each of its machines, or for a job shop those of the steps of each job's route.
#[derive(Drop)]
pub struct TimedInstance<A: Allocator = Global> {
    instance: Instance<A>,
    by_machine: Option<Vec<MachineTimes<A>, A>>,
    routes: Option<Vec<Route<A>, A>>,
}

impl<A: Allocator> Model for TimedInstance<A> {
    ghost use Rattle.std.specs.Option.{option_map};
    ghost use Rattle.tf_prepare.specs.TimedData.{HaveRoutes, TimedData};

    ghost Value = { TimedData };

    ghost view = { λ t.
        record {
          instance = t.instance;
          by_machine = option_map (λ machines. machines.items) t.by_machine;
          routes = option_map (λ routes. routes.items) t.routes;
        } };

    ghost invariant = { λ t.
        HaveRoutes t.instance (option_map (λ routes. routes.items) t.routes) };
}

impl<A: Allocator> TimedInstance<A> {
    ghost use Rattle.std.specs.Prelude.{◌≡◌, None, Some, [], is_some, IfOk, IfSome, IfNone};
    ghost use Rattle.tf_bound.specs.JobTimes.{listed, route_in};
    ghost use Rattle.tf_model.specs.Limit.{most_machines};
    ghost use Rattle.tf_routes.specs.RoutedData.{HasRoutes};
    ghost use Rattle.tf_prepare.specs.TimedData.{self_timed, with_routes};
    ghost use Rattle.tf_prepare.specs.Preparing.{times_in, is_idle};

    /// With the times of the jobs themselves.
    pub fn self_timed(instance: Instance<A>) -> Self
        ensures { result ≡ self_timed instance }
    {
        TimedInstance {
            instance,
            by_machine: None,
            routes: None,
        }
    }

    /// With the times on each machine of a shop, from the first on.
    pub fn by_machine(instance: Instance<A>, machines: Vec<MachineTimes<A>, A>) -> Self
        ensures { result ≡ record {
          instance = instance;
          by_machine = Some machines.items;
          routes = None;
        } }
    {
        TimedInstance {
            instance,
            by_machine: Some(machines),
            routes: None,
        }
    }

    /// With the routes of the jobs, of which none visits a machine twice.
    pub fn routed(routed: RoutedInstance<A>) -> Self
        requires { HasRoutes most_machines routed }
        ensures { result ≡ with_routes routed }
    {
        TimedInstance {
            instance: routed.instance,
            by_machine: None,
            routes: Some(routed.routes),
        }
    }

    /// The routes of the jobs, where they have some.
    pub(crate) fn routes(&self) -> Option<&[Route<A>]>
        ensures none { IfNone result (self.now.routes ≡ None) }
        ensures some { IfSome result (λ routes. self.now.routes ≡ Some routes.now) }
        ensures routed { IfSome result (λ routes. HasRoutes most_machines
            (record { instance = self.now.instance; routes = routes.now })) }
    {
        match &self.routes {
            Some(routes) => Some(routes),
            None => None,
        }
    }

    /// The instance.
    pub(crate) fn instance(&self) -> &Instance<A>
        ensures { result.now ≡ self.now.instance }
    {
        &self.instance
    }

    /// Whether the times are those on each machine of a shop.
    pub(crate) fn is_by_machine(&self) -> bool
        ensures { result ≡ is_some self.now.by_machine }
    {
        self.by_machine.is_some()
    }

    /// The times of a job of the instance, which stands at this place, counted from 0.
    pub(crate) fn times<B: Allocator>(
        &self,
        alloc: B,
        place: usize,
        job: &Job<A>,
    ) -> Result<JobTimes<B>, AllocError>
        ensures times { IfOk result
            (λ all. listed all ≡ times_in self.now.by_machine place job.now) }
        ensures unrouted { IfOk result (λ all. route_in all ≡ []) }
    {
        match &self.by_machine {
            Some(machines) => Ok(JobTimes::Each(times_at(alloc, machines, place)?)),
            None => times_of(alloc, job.times),
        }
    }

    /// Whether all the times of a job of the instance are 0.
    pub(crate) fn is_idle(&self, place: usize, job: &Job<A>) -> bool
        ensures { result ≡ is_idle (times_in self.now.by_machine place job.now) }
    {
        match &self.by_machine {
            Some(machines) => is_idle_at(machines, place),
            None => is_idle(job.times),
        }
    }
}

// A number that is not negative.
pub(crate) fn as_time(number: i64) -> u64
    ensures { result ≡ as_time number }
{
    number.max(0) as u64
}

fn times_of<A: Allocator>(alloc: A, times: Times) -> Result<JobTimes<A>, AllocError>
    ensures times { IfOk result (λ all. listed all ≡ times_of times) }
    ensures unrouted { IfOk result (λ all. route_in all ≡ []) }
{
    match times {
        Times::One(time) => Ok(JobTimes::One(as_time(time))),
        Times::Two(first, second) => {
            let times = Vec::from_slice(alloc, &[as_time(first), as_time(second)])?;
            Ok(JobTimes::Each(times))
        }
    }
}

fn is_idle(times: Times) -> bool
    ensures { result ≡ is_idle (times_of times) }
{
    match times {
        Times::One(time) => as_time(time) == 0,
        Times::Two(first, second) => as_time(first) == 0 && as_time(second) == 0,
    }
}

// The times of the job at a place on each machine.
fn times_at<A: Allocator, B: Allocator>(
    alloc: A,
    machines: &[MachineTimes<B>],
    place: usize,
) -> Result<Vec<u64, A>, AllocError>
    ensures { IfOk result (λ all. all.items
        ≡ map (λ times. slice_index times place) machines.now) }
{
    let mut all = Vec::with_capacity(alloc, machines.len())?;
    for machine in machines {
        all.push(machine.at(place))?;
    }
    Ok(all)
}

fn is_idle_at<A: Allocator>(machines: &[MachineTimes<A>], place: usize) -> bool
    ensures { result ≡ list_all (λ times. slice_index times place == 0) machines.now }
{
    machines.iter().all(|machine| machine.at(place) == 0)
}
