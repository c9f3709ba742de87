//! The job list of a certificate: job numbers and, in version 2, ranges of them.
ghost use Rattle.std.specs.Prelude.{◌≡◌, ◌<◌, ◌≤◌, ◌++◌, option_map, OnOk, IfOk};
ghost use Rattle.std.specs.List.{list_all};
ghost use Rattle.tf_words.specs.Words.{words};
ghost use Rattle.tf_text.specs.JobWords.{run_jobs};
ghost use Rattle.tf_text.specs.AnswerReading.{Gives, range_ends, is_item, run_in};
ghost use Rattle.tf_text.specs.AnswerReading.{name_many, jobs_listed, jobs_from, jobs_in};

use crate::answer::fault::AnswerFault;
use crate::answer::field::{MOST_JOB, count_in};
use crate::answer::layout::Layout;
use crate::answer::run::Run;
use std::alloc::{AllocError, Allocator};
use tf_model::ids::JobId;
use tf_model::job_list::JobList;
use tf_model::limit::MOST_JOBS;
use tf_words::digits::is_numeral;
use tf_words::part::divided;
use tf_words::ranged::is_number;
use tf_words::word::first_word;

/// Returns the two numerals of a range, as of `3-7`.
#[tactic(auto, unfolding(crate::specs::AnswerReading::range_ends))]
fn range_ends(word: &[u8]) -> Option<(&[u8], &[u8])>
    ensures { option_map (λ ends. (ends.0.now, ends.1.now)) result ≡ range_ends word.now }
{
    let (first, last) = divided(word, b'-')?;
    if !(is_numeral(first) && is_numeral(last)) {
        return None;
    }
    Some((first, last))
}

/// Whether the word may stand in a job list of this version.
fn is_item(layout: Layout, word: &[u8]) -> bool
    ensures { result ≡ is_item layout word.now }
{
    match layout {
        Layout::One => is_number(word),
        Layout::Two => is_number(word) || range_ends(word).is_some(),
    }
}

/// Whether each word may stand in a job list of this version.
pub(crate) fn are_items(layout: Layout, text: &[u8]) -> bool
    ensures { result ≡ list_all (is_item layout) (words text.now) }
{
    let mut rest = text;
    while let Some((word, after)) = first_word(rest) {
        if !is_item(layout, word) {
            return false;
        }
        rest = after;
    }
    true
}

/// Reads a job or a range of jobs, the first below the last.
#[tactic(auto, unfolding(crate::specs::AnswerReading::run_in))]
fn run_in(line: u32, word: &[u8]) -> Result<Run, AnswerFault>
    ensures read { Gives (λ run. run) result (run_in line word.now) }
    ensures within { IfOk result (λ run. (0 < run.first) × (run.first ≤ run.last)
        × (run.last ≤ MOST_JOB)) }
{
    match range_ends(word) {
        None => {
            let job = count_in(line, MOST_JOB, word)?;
            Ok(Run {
                first: job,
                last: job,
            })
        }
        Some((first, last)) => {
            let first = count_in(line, MOST_JOB, first)?;
            let last = count_in(line, MOST_JOB, last)?;
            if first >= last {
                return Err(AnswerFault::BadLine(line));
            }
            Ok(Run { first, last })
        }
    }
}

/// Whether the words name more jobs than an instance may have.
fn are_too_many(line: u32, text: &[u8]) -> Result<bool, AnswerFault>
    ensures { Gives (λ b. b) result (name_many line (words text.now)) }
{
    let mut count: usize = 0;
    let mut rest = text;
    while let Some((word, after)) = first_word(rest) {
        let run = run_in(line, word)?;
        let jobs = (run.last - run.first) as usize + 1;
        count = (count + jobs).min(MOST_JOBS + 1);
        rest = after;
    }
    Ok(count > MOST_JOBS)
}

/// Appends the jobs of a range.
fn push_run<A: Allocator>(jobs: &mut Vec<JobId, A>, run: Run) -> Result<(), AllocError>
    requires { (0 < run.first) × (run.first ≤ run.last) × (run.last ≤ MOST_JOB) }
    ensures { OnOk result (jobs.new.items ≡ jobs.old.items ++ run_jobs run) }
{
    for number in run.first..run.last + 1 {
        jobs.push(JobId::new(number).unwrap())?;
    }
    Ok(())
}

/// Reads the jobs that the words name, however many.
fn jobs_from<A: Allocator + Copy>(
    alloc: A,
    line: u32,
    text: &[u8],
) -> Result<JobList<A>, AnswerFault>
    ensures { Gives (λ jobs. jobs) result (jobs_from line (words text.now)) }
{
    let mut jobs = Vec::new(alloc);
    let mut rest = text;
    while let Some((word, after)) = first_word(rest) {
        let run = run_in(line, word)?;
        push_run(&mut jobs, run)?;
        rest = after;
    }
    Ok(JobList::new(jobs))
}

/// Reads the jobs of a list whose words all have the right form. Those of version 2 are counted
/// before memory is asked for.
pub(crate) fn jobs_listed<A: Allocator + Copy>(
    alloc: A,
    layout: Layout,
    line: u32,
    text: &[u8],
) -> Result<JobList<A>, AnswerFault>
    ensures { Gives (λ jobs. jobs) result (jobs_listed layout line (words text.now)) }
{
    match layout {
        Layout::One => jobs_from(alloc, line, text),
        Layout::Two => {
            if are_too_many(line, text)? {
                return Err(AnswerFault::BadLine(line));
            }
            jobs_from(alloc, line, text)
        }
    }
}

/// Reads a job list: first the form of all its words, then the numbers.
#[tactic(auto, unfolding(crate::specs::AnswerReading::jobs_in))]
pub(crate) fn jobs_in<A: Allocator + Copy>(
    alloc: A,
    layout: Layout,
    line: u32,
    text: &[u8],
) -> Result<JobList<A>, AnswerFault>
    ensures { Gives (λ jobs. jobs) result (jobs_in layout line (words text.now)) }
{
    if !are_items(layout, text) {
        return Err(AnswerFault::BadLine(line));
    }
    jobs_listed(alloc, layout, line, text)
}
