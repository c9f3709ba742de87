//! The job table: a line for each job.
ghost use Rattle.std.specs.Prelude.{◌≡◌, ◌≤◌, None, IfOk, MatchOption, MatchResult};
ghost use Rattle.std.specs.List.{before_first};
ghost use Rattle.tf_words.specs.Words.{words};
ghost use Rattle.tf_words.specs.Lines.{word_line_of, word_lines_of};
ghost use Rattle.tf_model.specs.InstanceData.{count_fault};
ghost use Rattle.tf_read.specs.Faults.{Gives, each_from};
ghost use Rattle.tf_read.specs.NextJob.{HasNoJob, BeginsWithJob, BeginsWithFault};
ghost use Rattle.tf_read.specs.JobTable.{machines_at, job_line, is_arc, since_first, body_of};
ghost use Rattle.tf_read.specs.JobTable.{below_heading, is_table_heading, job_table};

use crate::arc::{arcs_of, is_arc};
use crate::fault::ReadFault;
use crate::field::job_of;
use crate::usual::usual_job;
use std::alloc::Allocator;
use tf_model::instance::Instance;
use tf_model::job::Job;
use tf_model::limit::{MOST_BYTES, MOST_JOBS, MOST_MACHINES};
use tf_words::line::{Line, Lines};
use tf_words::number::{Number, number_of, plain_of};
use tf_words::word::{behind_key, first_word, is};

/// The bytes of the shortest line of a job, `job 1 p=1` and a line feed.
pub(crate) const SHORTEST_LINE: usize = 10;

#[tactic(auto, unfolding(crate::specs::JobTable::machines_at))]
fn machines_at(line: u32, text: &[u8]) -> Result<u32, ReadFault>
    ensures { result ≡ machines_at line (words text.now) }
{
    let Some((word, after)) = first_word(text) else {
        return Err(ReadFault::BadLine(line));
    };
    if first_word(after).is_some() {
        return Err(ReadFault::BadLine(line));
    }
    match number_of(word) {
        Number::NotANumber => Err(ReadFault::BadNumber(line)),
        Number::Value(value) if 1 <= value && value <= i64::from(MOST_MACHINES) => {
            Ok(value as u32)
        }
        _ => Err(ReadFault::BadLine(line)),
    }
}

#[tactic(auto, unfolding(crate::specs::JobTable::job_line))]
fn job_at<A: Allocator + Copy>(alloc: A, k: u32, line: &Line<'_>) -> Result<Job<A>, ReadFault>
    ensures { Gives (λ j. j) result (job_line k (word_line_of line.now)) }
{
    let Some(text) = behind_key(line.bytes, b"job") else {
        return Err(ReadFault::BadLine(line.number));
    };
    if k as usize > MOST_JOBS {
        return Err(ReadFault::TooManyJobs);
    }
    let Some((word, after)) = first_word(text) else {
        return Err(ReadFault::BadLine(line.number));
    };
    if plain_of(word, MOST_JOBS as u32) != Some(k) {
        return Err(ReadFault::BadLine(line.number));
    }
    job_of(alloc, line.number, after)
}

/// Job k, whose line comes first, and the lines behind it.
#[inline(always)]
pub(crate) fn next_job<'a, A: Allocator + Copy>(
    alloc: A,
    k: u32,
    lines: &Lines<'a>,
) -> Result<Option<(Job<A>, Lines<'a>)>, ReadFault>
    ensures { MatchResult result
        (λ next. MatchOption next (HasNoJob (word_lines_of lines.now))
        (λ x. BeginsWithJob k (word_lines_of lines.now) x.0 (word_lines_of x.1)))
        (λ e. BeginsWithFault k (word_lines_of lines.now) e) }
{
    if let Some(next) = usual_job(k, lines) {
        return Ok(Some(next));
    }
    let Some((line, after)) = lines.split_first() else {
        return Ok(None);
    };
    if is_arc(&line) {
        return Ok(None);
    }
    let job = job_at(alloc, k, &line)?;
    Ok(Some((job, after)))
}

/// The jobs, a line for each, up to the first arc, and the lines from it on.
fn jobs_of<'a, A: Allocator + Copy>(
    alloc: A,
    lines: &Lines<'a>,
) -> Result<(Vec<Job<A>, A>, Lines<'a>), ReadFault>
    ensures jobs { Gives (λ x. x.0.items) result
        (each_from job_line 1 (before_first is_arc (word_lines_of lines.now))) }
    ensures rest { IfOk result
        (λ x. word_lines_of x.1 ≡ since_first is_arc (word_lines_of lines.now)) }
{
    let room = MOST_JOBS.min((lines.bytes_left().len() + 1) / SHORTEST_LINE);
    let mut jobs = Vec::with_capacity(alloc, room)?;
    let mut rest = *lines;
    loop {
        match next_job(alloc, jobs.len() as u32 + 1, &rest) {
            Err(fault) => return Err(fault),
            Ok(None) => return Ok((jobs, rest)),
            Ok(Some((job, after))) => {
                jobs.push(job)?;
                rest = after;
            }
        }
    }
}

fn is_heading(line: &Line<'_>) -> bool
    ensures { result ≡ is_table_heading (words line.now.bytes.now) }
{
    match behind_key(line.bytes, b"table") {
        None => false,
        Some(text) => match first_word(text) {
            None => false,
            Some((word, after)) => is(word, b"1") && first_word(after).is_none(),
        },
    }
}

#[tactic(auto, unfolding(crate::specs::JobTable::body_of))]
fn body_of<A: Allocator + Copy>(
    alloc: A,
    machines: Option<u32>,
    lines: &Lines<'_>,
) -> Result<Instance<A>, ReadFault>
    requires { count_fault machines ≡ None }
    ensures { Gives (λ i. i) result (body_of machines (word_lines_of lines.now)) }
{
    let (jobs, rest) = jobs_of(alloc, lines)?;
    let arcs = arcs_of(alloc, jobs.len() as u32, &rest)?;
    Ok(Instance::of(jobs, arcs, machines))
}

/// The number of machines that a table gives, and the lines of its jobs and arcs: what stands below
/// the heading.
#[tactic(auto, unfolding(crate::specs::JobTable::below_heading))]
fn below_heading<'a>(lines: &Lines<'a>) -> Result<(Option<u32>, Lines<'a>), ReadFault>
    ensures body { MatchResult result
        (λ x. below_heading (word_lines_of lines.now) ≡ body_of x.0 (word_lines_of x.1))
        (λ e. below_heading (word_lines_of lines.now) ≡ Err e) }
    ensures count { IfOk result (λ x. count_fault x.0 ≡ None) }
{
    let Some((line, after)) = lines.split_first() else {
        return Ok((None, *lines));
    };
    let Some(text) = behind_key(line.bytes, b"machines") else {
        return Ok((None, *lines));
    };
    let machines = machines_at(line.number, text)?;
    Ok((Some(machines), after))
}

/// The same of a whole text.
#[tactic(auto, unfolding(crate::specs::JobTable::job_table, crate::specs::JobTable::table_of, tf_words::specs::Words::kept_from))]
pub(crate) fn body_in(text: &[u8]) -> Result<(Option<u32>, Lines<'_>), ReadFault>
    ensures body { MatchResult result
        (λ x. job_table text.now ≡ body_of x.0 (word_lines_of x.1))
        (λ e. job_table text.now ≡ Err e) }
    ensures count { IfOk result (λ x. count_fault x.0 ≡ None) }
{
    if text.len() > MOST_BYTES {
        return Err(ReadFault::TooLong);
    }
    match Lines::new(text).split_first() {
        None => Err(ReadFault::EndsEarly),
        Some((heading, lines)) => {
            if !is_heading(&heading) {
                return Err(ReadFault::BadLine(heading.number));
            }
            below_heading(&lines)
        }
    }
}

/// The instance that a job table says, or its first fault: the kept lines from the first to the
/// last, in each line the words from left to right.
pub fn read_table<A: Allocator + Copy>(alloc: A, text: &[u8]) -> Result<Instance<A>, ReadFault>
    ensures { Gives (λ i. i) result (job_table text.now) }
{
    let (machines, lines) = body_in(text)?;
    body_of(alloc, machines, &lines)
}
