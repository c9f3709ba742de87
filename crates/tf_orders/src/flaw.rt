//! Why a text says no order.
ghost use Rattle.std.specs.Prelude.{◌≡◌, ◌≤◌, length, IfOk, IfSome};
ghost use Rattle.std.specs.List.{count_by};
ghost use Rattle.tf_words.specs.Words.{words};
ghost use Rattle.tf_orders.specs.Orders.{IsFlaw, IsOtherWord, is_named};

use crate::order::job_in;
use std::alloc::Allocator;
use tf_model::ids::JobId;
use tf_model::memory::OutOfMemory;
use tf_words::word::{first_word, is};

/// What is wrong with a text that says no order.
#[derive(Clone, Copy, Debug, PartialEq, Eq)]
pub enum Flaw {
    /// The word at this place, counted from 1, is neither the number of a job nor a `/`.
    Word(usize),
    /// There is not a list for each machine that has an order of its own.
    Lists,
    /// This job stands twice or more.
    Twice(JobId),
    /// This job is missing.
    Missing(JobId),
    /// In a job shop, this job stands, but not as often as its route has operations.
    Seldom(JobId),
    /// In a job shop, this job stands more often than its route has operations.
    Often(JobId),
}

/// What a word may stand for.
#[derive(Drop)]
pub(crate) enum Named {
    /// The next machine.
    Slash,
    Job(JobId),
}

impl Named {
    /// Whether the word stands for it, where jobs count from 1 to `jobs`.
    fn is(&self, jobs: u32, word: &[u8]) -> bool
        ensures { result ≡ is_named jobs self.now word.now }
    {
        match self {
            Named::Slash => is(word, b"/"),
            Named::Job(job) => match job_in(word, jobs) {
                Some(found) => found == *job,
                None => false,
            },
        }
    }
}

/// What is wrong with a text that says no order of the jobs from 1 to `jobs` on so many machines
/// that have orders of their own, as far as it is found. Only want of memory is an error.
pub fn flaw_in<A: Allocator>(
    alloc: A,
    jobs: u32,
    machines: u32,
    text: &[u8],
) -> Result<Option<Flaw>, OutOfMemory>
    ensures { IfOk result (λ found. IfSome found (IsFlaw jobs machines text.now)) }
{
    if let Some(place) = other_word(jobs, text) {
        return Ok(Some(Flaw::Word(place)));
    }
    if count(jobs, text, &Named::Slash) + 1 != machines as usize {
        return Ok(Some(Flaw::Lists));
    }
    let Some(job) = suspect(alloc, jobs, text)? else {
        return Ok(None);
    };
    match count(jobs, text, &Named::Job(job)) {
        0 => Ok(Some(Flaw::Missing(job))),
        1 => Ok(None),
        _ => Ok(Some(Flaw::Twice(job))),
    }
}

// The place of the first word, counted from 1, that is neither a job nor a `/`.
fn other_word(jobs: u32, text: &[u8]) -> Option<usize>
    ensures { IfSome result (IsOtherWord jobs text.now) }
{
    let mut place: usize = 0;
    let mut rest = text;
    while let Some((word, after)) = first_word(rest) {
        place += 1;
        if !is(word, b"/") && job_in(word, jobs).is_none() {
            return Some(place);
        }
        rest = after;
    }
    None
}

/// How many words of the text stand for this.
pub(crate) fn count(jobs: u32, text: &[u8], named: &Named) -> usize
    ensures value { result ≡ count_by (is_named jobs named.now) (words text.now) }
    ensures small { result ≤ length text.now }
{
    let mut total: usize = 0;
    let mut rest = text;
    while let Some((word, after)) = first_word(rest) {
        total += usize::from(named.is(jobs, word));
        rest = after;
    }
    total
}

// The first job that stands twice, or else the first one that is missing.
fn suspect<A: Allocator>(alloc: A, jobs: u32, text: &[u8]) -> Result<Option<JobId>, OutOfMemory>
    ensures { IfOk result (λ found. IfSome found (λ job. (1 ≤ job) × (job ≤ jobs))) }
{
    let mut seen = vec![in alloc; false; jobs as usize]?;
    let mut rest = text;
    while let Some((word, after)) = first_word(rest) {
        if let Some(job) = job_in(word, jobs)
            && let Some(mark) = seen.get_mut(job.place())
        {
            if *mark {
                return Ok(Some(job));
            }
            *mark = true;
        }
        rest = after;
    }
    for k in 0..jobs {
        if seen.get(k as usize) == Some(&false) {
            return Ok(JobId::new(k + 1));
        }
    }
    Ok(None)
}
