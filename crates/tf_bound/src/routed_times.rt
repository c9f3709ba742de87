//! The processing times of a job of a job shop, and its route.
ghost use Rattle.std.specs.Prelude.{◌≡◌, ◌↔◌, ℕ, ◌<◌, length, slice_index, slice_index_or, true};
ghost use Rattle.std.specs.Prelude.{IfOk, IsTrue, false};
ghost use Rattle.tf_bound.specs.Route.{IsRouted};

use std::alloc::{AllocError, Allocator, Global};
use std::marker::Model;

/// The processing times of a job on each machine, in time steps, and the machines in the order in
/// which it visits them: none twice, and each on which it has time.
#[derive(Drop)]
pub struct RoutedTimes<A: Allocator = Global> {
    times: Vec<u64, A>,
    // machines, counted from 0
    route: Vec<u32, A>,
}

impl<A: Allocator> Model for RoutedTimes<A> {
    ghost use Rattle.std.specs.Prelude.{length};
    ghost use Rattle.tf_bound.specs.Route.{RouteData, IsRouted};

    ghost Value = { RouteData };

    ghost view = { λ r. record { times = r.times.items; route = r.route.items } };

    ghost invariant = { λ r. IsRouted (length r.times.items) r.times.items r.route.items };
}

// Whether these machines, counted from 0, are so many at most, and none stands twice; and each on
// which there is time is among them.
fn is_routed<A: Allocator>(alloc: A, times: &[u64], route: &[u32]) -> Result<bool, AllocError>
    ensures { IfOk result (λ is. IsTrue is ↔ IsRouted (length times.now) times.now route.now) }
{
    let mut seen = vec![in alloc; false; times.len()]?;
    for machine in route {
        let machine = *machine as usize;
        if machine >= times.len() || seen[machine] {
            return Ok(false);
        }
        seen[machine] = true;
    }
    Ok(has_all(times, &seen))
}

// Whether each place with time is marked.
fn has_all(times: &[u64], seen: &[bool]) -> bool
    requires { length seen.now ≡ length times.now }
    ensures { IsTrue result ↔ ((a : ℕ) → a < length times.now → 0 < slice_index times.now a
        → slice_index_or seen.now a false ≡ true) }
{
    for machine in 0..times.len() {
        if times[machine] > 0 && !seen[machine] {
            return false;
        }
    }
    true
}

impl<A: Allocator> RoutedTimes<A> {
    ghost use Rattle.std.specs.Prelude.{◌≡◌, length, IfOk, MatchOption};
    ghost use Rattle.tf_bound.specs.Route.{IsRouted};

    /// These times on the machines, from the first on, with this route. None where it is no route
    /// of them. It takes memory only while it judges.
    pub fn new(alloc: A, times: Vec<u64, A>, route: Vec<u32, A>) -> Result<Option<Self>, AllocError>
    where
        A: Copy,
        ensures { IfOk result (λ found. MatchOption found
            (¬ (IsRouted (length times.items) times.items route.items))
            (λ routed. routed ≡ record { times = times.items; route = route.items })) }
    {
        if is_routed(alloc, &times, &route)? {
            Ok(Some(RoutedTimes { times, route }))
        } else {
            Ok(None)
        }
    }

    /// The times on the machines, from the first on.
    #[inline(always)]
    pub(crate) fn times(&self) -> &[u64]
        ensures { result.now ≡ self.now.times }
    {
        &self.times
    }

    /// The machines in the order in which the job visits them.
    #[inline(always)]
    pub(crate) fn route(&self) -> &[u32]
        ensures value { result.now ≡ self.now.route }
        ensures routed { IsRouted (length self.now.times) self.now.times self.now.route }
    {
        &self.route
    }

    /// The same, with memory from elsewhere.
    pub(crate) fn copied<B: Allocator + Copy>(&self, alloc: B) -> Result<RoutedTimes<B>, AllocError>
        ensures { IfOk result (λ same. same ≡ self.now) }
    {
        let times = Vec::from_slice(alloc, &self.times)?;
        let route = Vec::from_slice(alloc, &self.route)?;
        Ok(RoutedTimes { times, route })
    }
}
