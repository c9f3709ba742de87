//! The processing times of a job, and in a job shop its route.
ghost use Rattle.std.specs.Prelude.{◌≡◌, ◌≤◌, [], length, IfOk, IfSome, IfNone, IsTrue, IsFalse};
ghost use Rattle.tf_bound.specs.JobTimes.{listed, route_in};
ghost use Rattle.tf_bound.specs.Route.{IsRouted};

use crate::routed_times::RoutedTimes;
use std::alloc::{AllocError, Allocator, Global};

/// The processing times of a job, in time steps. One alone takes no memory of its own.
#[derive(Drop)]
pub enum JobTimes<A: Allocator = Global> {
    /// The time on whichever machine the job runs.
    One(u64),
    /// The times on the machines of a shop, from the first on.
    Each(Vec<u64, A>),
    /// Those on the machines of a job shop, with the route of the job.
    Routed(RoutedTimes<A>),
}

impl<A: Allocator> JobTimes<A> {
    /// The times as a list.
    #[inline(always)]
    pub fn as_slice(&self) -> &[u64]
        ensures { result.now ≡ listed self.now }
    {
        match self {
            JobTimes::One(time) => std::slice::from_ref(time),
            JobTimes::Each(times) => times,
            JobTimes::Routed(routed) => routed.times(),
        }
    }

    /// The machines in the order in which the job visits them, counted from 0, where it has a
    /// route.
    pub(crate) fn route(&self) -> Option<&[u32]>
        ensures none { IfNone result (route_in self.now ≡ []) }
        ensures route { IfSome result (λ route. route.now ≡ route_in self.now) }
        ensures routed { IfSome result (λ _.
            IsRouted (length (listed self.now)) (listed self.now) (route_in self.now)) }
    {
        match self {
            JobTimes::One(_) => None,
            JobTimes::Each(_) => None,
            JobTimes::Routed(routed) => Some(routed.route()),
        }
    }

    // Whether the job has a route, of some machine.
    pub(crate) fn is_routed(&self) -> bool
        ensures route { IsTrue result →
            IsRouted (length (listed self.now)) (listed self.now) (route_in self.now) }
        ensures some { IsTrue result → 1 ≤ length (route_in self.now) }
        ensures none { IsFalse result → length (route_in self.now) ≡ 0 }
    {
        match self.route() {
            Some(route) => !route.is_empty(),
            None => false,
        }
    }

    /// The same times, with memory from elsewhere.
    pub(crate) fn copied<B: Allocator>(&self, alloc: B) -> Result<JobTimes<B>, AllocError>
    where
        B: Copy,
        ensures times { IfOk result (λ times. listed times ≡ listed self.now) }
        ensures route { IfOk result (λ times. route_in times ≡ route_in self.now) }
    {
        match self {
            JobTimes::One(time) => Ok(JobTimes::One(*time)),
            JobTimes::Each(times) => Ok(JobTimes::Each(Vec::from_slice(alloc, times)?)),
            JobTimes::Routed(routed) => Ok(JobTimes::Routed(routed.copied(alloc)?)),
        }
    }
}
