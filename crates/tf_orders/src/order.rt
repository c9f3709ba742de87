//! Orders of jobs, as a text says them.
ghost use Rattle.std.specs.Prelude.{◌≡◌, ◌^◌, ◌<◌, ◌≤◌, ◌↔◌, IsTrue, IfOk, IfSome, MatchOption};
ghost use Rattle.std.specs.Prelude.{Some, None};
ghost use Rattle.std.specs.List.{All};
ghost use Rattle.tf_words.specs.Words.{words};
ghost use Rattle.tf_model.specs.Distinct.{IsDistinct};
ghost use Rattle.tf_model.specs.Limit.{most_machines};
ghost use Rattle.tf_orders.specs.Orders.{IsOrder, IsNoOrder, IsTurn, job_in, jobs_of, turns_from};

use std::alloc::Allocator;
use tf_model::ids::{JobId, MachineId};
use tf_model::memory::OutOfMemory;
use tf_words::ranged::{Ranged, number_in};
use tf_words::word::{first_word, is};

/// A job in an order, and the machine that it begins on.
#[derive(Clone, Copy, Debug)]
pub struct Turn {
    pub job: JobId,
    pub machine: MachineId,
}

/// The order that a text says, of the jobs from 1 to `jobs`, machine by machine for so many
/// machines. `None` where it says none: a word is no job, a job is missing or stands twice, or
/// there are not as many machines. Only want of memory is an error.
pub fn order_in<A: Allocator + Copy>(
    alloc: A,
    jobs: u32,
    machines: u32,
    text: &[u8],
) -> Result<Option<Vec<Turn, A>>, OutOfMemory>
    requires { (1 ≤ machines) × (machines ≤ most_machines) }
    ensures order { IfOk result (λ found. MatchOption found (IsNoOrder jobs machines text.now)
        (λ turns. IsOrder jobs machines text.now turns.items)) }
    ensures turns { IfOk result (λ found. IfSome found
        (λ turns. All (IsTurn jobs machines) turns.items)) }
{
    let Some(turns) = turns_in(alloc, jobs, machines, text)? else {
        return Ok(None);
    };
    if turns.len() != jobs as usize {
        return Ok(None);
    }
    let named = jobs_of(alloc, turns.as_slice())?;
    let are_once = are_distinct(alloc, jobs, named.as_slice())?;
    if !are_once {
        return Ok(None);
    }
    Ok(Some(turns))
}

/// The turns that the words say, machine by machine. `None` where a word is no job, or there are
/// not so many machines. Only want of memory is an error.
pub(crate) fn turns_in<A: Allocator + Copy>(
    alloc: A,
    jobs: u32,
    machines: u32,
    text: &[u8],
) -> Result<Option<Vec<Turn, A>>, OutOfMemory>
    requires { (1 ≤ machines) × (machines ≤ most_machines) }
    ensures says { IfOk result (λ found. MatchOption found
        (turns_from jobs machines 1 (words text.now) ≡ None)
        (λ turns. turns_from jobs machines 1 (words text.now) ≡ Some turns.items)) }
    ensures turns { IfOk result (λ found. IfSome found
        (λ turns. All (IsTurn jobs machines) turns.items)) }
{
    let mut turns = Vec::new(alloc);
    let mut machine = MachineId::FIRST;
    let mut rest = text;
    while let Some((word, after)) = first_word(rest) {
        if is(word, b"/") {
            if machine.get() >= machines {
                return Ok(None);
            }
            machine = machine.next();
        } else {
            let Some(job) = job_in(word, jobs) else {
                return Ok(None);
            };
            turns.push(Turn { job, machine })?;
        }
        rest = after;
    }
    if machine.get() == machines {
        Ok(Some(turns))
    } else {
        Ok(None)
    }
}

/// The job from 1 to `jobs` that a word names.
pub(crate) fn job_in(word: &[u8], jobs: u32) -> Option<JobId>
    ensures job { result ≡ job_in jobs word.now }
    ensures known { IfSome result (λ j. (1 ≤ j) × (j ≤ jobs)) }
{
    match number_in(word, 1, i64::from(jobs)) {
        Ranged::Within(number) => JobId::new(number as u32),
        Ranged::NotANumber | Ranged::Below | Ranged::Above => None,
    }
}

// The jobs of turns.
fn jobs_of<A: Allocator>(alloc: A, turns: &[Turn]) -> Result<Vec<JobId, A>, OutOfMemory>
    ensures { IfOk result (λ jobs. jobs.items ≡ jobs_of turns.now) }
{
    let mut jobs = Vec::with_capacity(alloc, turns.len())?;
    for turn in turns {
        jobs.push(turn.job)?;
    }
    Ok(jobs)
}

// Whether no job stands twice, of jobs from 1 to `count`.
fn are_distinct<A: Allocator>(alloc: A, count: u32, jobs: &[JobId]) -> Result<bool, OutOfMemory>
    requires { All (λ j. (1 ≤ j) × (j ≤ count)) jobs.now }
    ensures { IfOk result (λ test. IsTrue test ↔ IsDistinct jobs.now) }
{
    let mut seen = vec![in alloc; false; count as usize]?;
    for job in jobs {
        let place = job.place();
        if seen[place] {
            return Ok(false);
        }
        seen[place] = true;
    }
    Ok(true)
}
