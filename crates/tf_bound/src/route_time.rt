//! The time of a job along its route.
ghost use Rattle.std.specs.Prelude.{◌≡◌, ◌+◌, ◌≤◌, ◌<◌, length, slice_index, sum, take, drop};
ghost use Rattle.std.specs.List.{All, sum_by};
ghost use Rattle.tf_model.specs.Limit.{limit};
ghost use Rattle.tf_problem.specs.ProblemBounds.{before, behind};
ghost use Rattle.tf_bound.specs.Route.{IsRouted};

// The machines of a route before a machine and behind it; all of them and none where it is not
// there.
fn parted(route: &[u32], machine: usize) -> (&[u32], &[u32])
    ensures before { before machine route.now ≡ result.0.now }
    ensures behind { behind machine route.now ≡ result.1.now }
{
    for place in 0..route.len() {
        if route[place] as usize == machine {
            return (&route[..place], &route[place + 1..]);
        }
    }
    (route, &[])
}

// The time on the machines of a part of a route.
fn time_on(times: &[u64], part: &[u32]) -> u64
    requires machines { All (λ a. a < length times.now) part.now }
    requires small { sum_by (slice_index times.now) part.now ≤ limit }
    ensures { result ≡ sum_by (slice_index times.now) part.now }
{
    let mut time: u64 = 0;
    for machine in part {
        time += times[*machine as usize];
    }
    time
}

/// The time on the machines of a route before one of them; on the whole route where it is not
/// there.
pub(crate) fn time_before(times: &[u64], route: &[u32], machine: usize) -> u64
    requires route { IsRouted (length times.now) times.now route.now }
    requires small { sum times.now ≤ limit }
    ensures value { result ≡ sum_by (slice_index times.now) (before machine route.now) }
    ensures small { result ≤ limit }
{
    let (part, _) = parted(route, machine);
    time_on(times, part)
}

/// The time on the machines of a route behind one of them; none where it is not there.
pub(crate) fn time_behind(times: &[u64], route: &[u32], machine: usize) -> u64
    requires route { IsRouted (length times.now) times.now route.now }
    requires small { sum times.now ≤ limit }
    ensures value { result ≡ sum_by (slice_index times.now) (behind machine route.now) }
    ensures small { result ≤ limit }
{
    let (_, part) = parted(route, machine);
    time_on(times, part)
}
