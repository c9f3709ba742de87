//! The best multipliers under which a sequence of the jobs is in the order by ratio, in closed form
//! (Potts and Van Wassenhove 1985).
//!
//! Nothing is promised of the multipliers: the judge computes what they bound.
ghost use Rattle.std.specs.Prelude.{◌≡◌, ◌≤◌, length, IfOk, IsTrue, IsFalse};
ghost use Rattle.std.specs.List.{All};
ghost use Rattle.tf_model.specs.ClassTable.{is_shop_env};
ghost use Rattle.tf_posed.specs.ProblemData.{IsProblemJob};
ghost use Rattle.tf_posed.specs.ProblemCost.{IsLowerBound};

use crate::sequence::best_order;
use std::alloc::{Allocator, Global};
use tf_bound::fault::BoundFault;
use tf_bound::multipliers::multipliers_bound;
use tf_bound::task::ProblemTask;
use tf_model::ids::JobId;
use tf_model::problem::Env;

/// The denominator of the multipliers that are found.
pub const DENOMINATOR: u64 = 1_000_000;

/// Multipliers job by job over q, what they bound on machine 0, and what the sequence cost from
/// which they were found.
#[derive(Drop)]
pub struct MultiplierBound<A: Allocator = Global> {
    pub q: u64,
    pub multipliers: Vec<u64, A>,
    pub value: i128,
    pub target: u64,
}

/// The bound by multipliers along a good sequence of the only machine.
pub fn multiplier_bound<A: Allocator + Copy, B: Allocator>(
    alloc: A,
    task: &ProblemTask<B>,
) -> Result<MultiplierBound<A>, BoundFault>
    ensures { IfOk result (λ found. IsLowerBound task.now found.value) }
{
    if !is_single(task) {
        return Err(BoundFault::OtherKind);
    }
    let (multipliers, target) = best_multipliers(alloc, task)?;
    let value = multipliers_bound(alloc, task, 0, &multipliers, &[], DENOMINATOR)?;
    Ok(MultiplierBound {
        q: DENOMINATOR,
        multipliers,
        value,
        target,
    })
}

// The multipliers along the best sequence, and what that costs.
fn best_multipliers<A: Allocator + Copy, B: Allocator>(
    alloc: A,
    task: &ProblemTask<B>,
) -> Result<(Vec<u64, A>, u64), BoundFault>
    requires { IsFalse (is_shop_env task.now.problem.env) }
{
    let (order, target) = best_order(alloc, task)?;
    Ok((along(alloc, task, &order)?, target))
}

fn is_single<B: Allocator>(task: &ProblemTask<B>) -> bool
    ensures { IsTrue result → IsFalse (is_shop_env task.now.problem.env) }
{
    matches!(task.problem().env, Env::Single)
}

// What a place of the sequence adds up: times by lateness up to here, and the least ratio of weight
// to time, over DENOMINATOR.
#[derive(Clone, Copy)]
struct Place {
    late: i128,
    ratio: u64,
}

// The multipliers: the height between two ratios goes to the place before with the greatest sum.
fn along<A: Allocator + Copy, B: Allocator>(
    alloc: A,
    task: &ProblemTask<B>,
    order: &[JobId],
) -> Result<Vec<u64, A>, BoundFault>
    requires one_time { IsFalse (is_shop_env task.now.problem.env) }
    requires jobs { All (IsProblemJob task.now) order.now }
{
    let heights = heights_along(alloc, task, order)?;
    let Ok(mut multipliers) = vec![in alloc; 0_u64; task.len()] else {
        return Err(BoundFault::OutOfMemory);
    };
    give(task, order, &heights, &mut multipliers);
    Ok(multipliers)
}

// The height that goes to each place.
fn heights_along<A: Allocator + Copy, B: Allocator>(
    alloc: A,
    task: &ProblemTask<B>,
    order: &[JobId],
) -> Result<Vec<u64, A>, BoundFault>
    requires one_time { IsFalse (is_shop_env task.now.problem.env) }
    requires jobs { All (IsProblemJob task.now) order.now }
{
    let places = places_of(alloc, task, order)?;
    let Ok(mut heights) = vec![in alloc; 0_u64; places.len()] else {
        return Err(BoundFault::OutOfMemory);
    };
    share_heights(&places, &mut heights);
    Ok(heights)
}

// Place by place of the sequence.
fn places_of<A: Allocator, B: Allocator>(
    alloc: A,
    task: &ProblemTask<B>,
    order: &[JobId],
) -> Result<Vec<Place, A>, BoundFault>
    requires one_time { IsFalse (is_shop_env task.now.problem.env) }
    requires jobs { All (IsProblemJob task.now) order.now }
{
    let Ok(mut places) = Vec::with_capacity(alloc, order.len()) else {
        return Err(BoundFault::OutOfMemory);
    };
    let mut end: u64 = 0;
    let mut late: i128 = 0;
    let mut ratio = u64::MAX;
    for job in order {
        let time = task.time(*job);
        end = end.saturating_add(time);
        let its = i128::from(end) - i128::from(task.due(*job));
        late = late.saturating_add(i128::from(time).saturating_mul(its));
        let scaled = task.weight(*job).saturating_mul(DENOMINATOR);
        ratio = ratio.min(scaled / time.max(1));
        let Ok(()) = places.push(Place { late, ratio }) else {
            return Err(BoundFault::OutOfMemory);
        };
    }
    Ok(places)
}

// Gives the height between the ratio of a place and that of the next to the place before, or here,
// of the greatest positive sum.
fn share_heights(places: &[Place], heights: &mut [u64])
    requires { length heights.old ≡ length places.now }
{
    let mut best = 0;
    for place in 0..places.len() {
        if places[place].late > places[best].late {
            best = place;
        }
        let next = if place + 1 < places.len() {
            places[place + 1].ratio
        } else {
            0
        };
        let height = places[place].ratio.saturating_sub(next);
        if places[best].late > 0 {
            heights[best] = heights[best].saturating_add(height);
        }
    }
}

// Each job's time by the heights of its place and of those after.
fn give<B: Allocator>(
    task: &ProblemTask<B>,
    order: &[JobId],
    heights: &[u64],
    multipliers: &mut [u64],
)
    requires one_time { IsFalse (is_shop_env task.now.problem.env) }
    requires jobs { All (IsProblemJob task.now) order.now }
    requires len { length multipliers.old ≡ length task.now.jobs }
{
    let mut height: u64 = 0;
    for place in (0..order.len().min(heights.len())).rev() {
        height = height.saturating_add(heights[place]);
        let job = order[place];
        multipliers[job.place()] = task.time(job).saturating_mul(height);
    }
}
