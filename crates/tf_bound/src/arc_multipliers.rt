//! Multipliers of arcs: what each job has after the arcs have moved theirs, and what they gain.
ghost use Rattle.std.specs.Prelude.{◌≡◌, ℕ, ◌+◌, ◌*◌, ◌-◌, ◌^◌, ◌≤◌, ◌==◌, cond, is_none, nat_le};
ghost use Rattle.std.specs.Prelude.{map, length, slice_index, IfErr, IfOk, IfSome, MatchOption};
ghost use Rattle.std.specs.List.{All, list_any};
ghost use Rattle.tf_posed.specs.ProblemData.{IsProblemJob, problem_jobs};
ghost use Rattle.tf_problem.specs.ProblemBounds.{arcs_from, arcs_gain, arcs_to, moved, numerator};
ghost use Rattle.tf_problem.specs.ProblemBounds.{over_arcs, problem_arcs};
ghost use Rattle.tf_bound.specs.Faulted.{first_job, is_overdrawn, too_large, NamesFault};
ghost use Rattle.tf_bound.specs.ArcEnds.{end_of, given_at, AreArcSums};
ghost use Rattle.tf_bound.specs.declared.fault.BoundFault.TheVariants.{OutOfMemory};

use crate::fault::BoundFault;
use crate::task::ProblemTask;
use std::alloc::Allocator;
use tf_model::ids::JobId;

// The arcs that are asked for.
fn asked_arcs<B: Allocator>(task: &ProblemTask<B>) -> &[(JobId, JobId)]
    ensures arcs { result.now ≡ problem_arcs task.now }
    ensures jobs { All (λ arc. IsProblemJob task.now arc.0 × IsProblemJob task.now arc.1)
        result.now }
{
    if task.problem().prec {
        task.arcs()
    } else {
        &task.arcs()[..0]
    }
}

// A sum with one product more, where it is small enough.
pub(crate) fn with_multiple(sum: u128, times: u64, number: u128) -> Option<u128>
    ensures { MatchOption result (2 ^ 128 ≤ sum + times * number)
        (λ more. more ≡ sum + times * number) }
{
    sum.checked_add(u128::from(times).checked_mul(number)?)
}

// What the arcs gain, where it is small enough.
pub(crate) fn gain_of<B: Allocator>(task: &ProblemTask<B>, l: &[u64]) -> Option<u128>
    ensures { MatchOption result (2 ^ 128 ≤ arcs_gain task.now l.now)
        (λ gain. gain ≡ arcs_gain task.now l.now) }
{
    let arcs = asked_arcs(task);
    let mut gain: u128 = 0;
    for i in 0..arcs.len().min(l.len()) {
        let work = u128::from(task.work(arcs[i].1));
        gain = with_multiple(gain, l[i], work)?;
    }
    Some(gain)
}

// The job before an arc, or the one after it.
fn end_of(arc: (JobId, JobId), is_after: bool) -> JobId
    ensures { result ≡ end_of is_after arc }
{
    if is_after { arc.1 } else { arc.0 }
}

// Adds to each job the multipliers of the arcs that have it at that end.
fn add_arcs(arcs: &[(JobId, JobId)], l: &[u64], is_after: bool, sums: &mut [u128])
    requires zero { (i : ℕ) → slice_index sums.old i ≡ 0 }
    requires jobs { All (λ arc. ((1 ≤ arc.0) × (arc.0 ≤ length sums.old))
        × ((1 ≤ arc.1) × (arc.1 ≤ length sums.old))) arcs.now }
    ensures len { length sums.new ≡ length sums.old }
    ensures sums { (j : ℕ) → 1 ≤ j → slice_index sums.new (j - 1)
        ≡ over_arcs (given_at is_after j) arcs.now l.now }
    ensures small { (i : ℕ) → slice_index sums.new i ≤ length l.now * 2 ^ 64 }
{
    for i in 0..arcs.len().min(l.len()) {
        let place = end_of(arcs[i], is_after).place();
        sums[place] += u128::from(l[i]);
    }
}

// Job by job the multipliers of the arcs that have it at that end.
fn arc_sums<A: Allocator, B: Allocator>(
    alloc: A,
    task: &ProblemTask<B>,
    l: &[u64],
    is_after: bool,
) -> Result<Vec<u128, A>, BoundFault>
    ensures fault { IfErr result (λ fault. fault ≡ OutOfMemory) }
    ensures sums { IfOk result (λ sums. AreArcSums task.now l.now is_after sums.items) }
{
    let Ok(mut sums) = vec![in alloc; 0_u128; task.len()] else {
        return Err(BoundFault::OutOfMemory);
    };
    add_arcs(asked_arcs(task), l, is_after, sums.as_mut_slice());
    Ok(sums)
}

/// What each job has after the arcs have moved their multipliers. A job from which they take more
/// than it has is the fault.
pub(crate) fn moved_multipliers<A: Allocator + Copy, B: Allocator>(
    alloc: A,
    task: &ProblemTask<B>,
    v: &[u64],
    l: &[u64],
) -> Result<Vec<u128, A>, BoundFault>
    requires { length v.now ≡ length task.now.jobs }
    ensures fault { NamesFault (first_job task.now (is_overdrawn task.now v.now l.now)) result }
    ensures moved { IfOk result (λ u.
        u.items ≡ map (moved task.now v.now l.now) (problem_jobs task.now)) }
    ensures enough { IfOk result (λ _. (j : ℕ) → IsProblemJob task.now j
        → arcs_to task.now l.now j ≤ numerator v.now j + arcs_from task.now l.now j) }
{
    let from = arc_sums(alloc, task, l, false)?;
    let to = arc_sums(alloc, task, l, true)?;
    let Ok(mut moved) = Vec::with_capacity(alloc, task.len()) else {
        return Err(BoundFault::OutOfMemory);
    };
    for k in 0..task.len() {
        let has = u128::from(v[k]) + from[k];
        if to[k] > has {
            return Err(BoundFault::Condition(JobId::at(k)));
        }
        let Ok(()) = moved.push(has - to[k]) else {
            return Err(BoundFault::OutOfMemory);
        };
    }
    Ok(moved)
}

// The same number, where it needs no more than 64 bits.
fn small_of(number: u128) -> Option<u64>
    ensures wide { is_none result ≡ nat_le (2 ^ 64) number }
    ensures value { IfSome result (λ small. small ≡ number) }
{
    u64::try_from(number).ok()
}

/// The same numbers, where each needs no more than 64 bits.
pub(crate) fn narrowed<A: Allocator>(alloc: A, numbers: &[u128]) -> Result<Vec<u64, A>, BoundFault>
    ensures fault { NamesFault (too_large (list_any (nat_le (2 ^ 64)) numbers.now)) result }
    ensures same { IfOk result (λ narrow. narrow.items ≡ numbers.now) }
{
    let Ok(mut narrow) = Vec::with_capacity(alloc, numbers.len()) else {
        return Err(BoundFault::OutOfMemory);
    };
    for number in numbers {
        let Some(small) = small_of(*number) else {
            return Err(BoundFault::TooLarge);
        };
        let Ok(()) = narrow.push(small) else {
            return Err(BoundFault::OutOfMemory);
        };
    }
    Ok(narrow)
}
