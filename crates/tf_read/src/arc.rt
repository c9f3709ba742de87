//! The arc lines of a job table.
ghost use Rattle.std.specs.Prelude.{◌≡◌, [], MatchOption, MatchResult};
ghost use Rattle.tf_words.specs.Number.{number};
ghost use Rattle.tf_words.specs.Words.{words};
ghost use Rattle.tf_words.specs.Lines.{word_line_of, word_lines_of};
ghost use Rattle.tf_read.specs.Faults.{Gives, each_from};
ghost use Rattle.tf_read.specs.NextArc.{BeginsWithArc, BeginsWithBadArc};
ghost use Rattle.tf_read.specs.JobTable.{is_arc, arc_job, arc_of, arc_line, arcs_of};

use crate::fault::ReadFault;
use crate::usual::usual_arc;
use std::alloc::Allocator;
use tf_model::ids::JobId;
use tf_model::limit::MOST_ARCS;
use tf_words::line::{Line, Lines};
use tf_words::number::{Number, number_of};
use tf_words::word::{behind_key, first_word};

/// The bytes of the shortest line of an arc, `prec 1 1` and a line feed.
const SHORTEST_LINE: usize = 9;

fn arc_job(jobs: u32, line: u32, word: &[u8]) -> Result<JobId, ReadFault>
    ensures { result ≡ arc_job jobs line (number word.now) }
{
    match number_of(word) {
        Number::NotANumber => Err(ReadFault::BadNumber(line)),
        Number::TooLarge => Err(ReadFault::BadArc(line)),
        Number::Value(value) => {
            if value < 1 || value > i64::from(jobs) {
                Err(ReadFault::BadArc(line))
            } else {
                Ok(JobId::new(value as u32).unwrap())
            }
        }
    }
}

#[tactic(auto, unfolding(crate::specs::JobTable::arc_of))]
fn arc_of(jobs: u32, line: u32, text: &[u8]) -> Result<(JobId, JobId), ReadFault>
    ensures { result ≡ arc_of jobs line (words text.now) }
{
    let Some((first, more)) = first_word(text) else {
        return Err(ReadFault::BadLine(line));
    };
    let Some((second, after)) = first_word(more) else {
        return Err(ReadFault::BadLine(line));
    };
    if first_word(after).is_some() {
        return Err(ReadFault::BadLine(line));
    }
    let first = arc_job(jobs, line, first)?;
    let second = arc_job(jobs, line, second)?;
    Ok((first, second))
}

/// Whether the line is one of an arc.
pub(crate) fn is_arc(line: &Line<'_>) -> bool
    ensures { result ≡ is_arc (word_line_of line.now) }
{
    behind_key(line.bytes, b"prec").is_some()
}

#[tactic(auto, unfolding(crate::specs::JobTable::arc_line))]
fn arc_at(jobs: u32, k: usize, line: &Line<'_>) -> Result<(JobId, JobId), ReadFault>
    ensures { result ≡ arc_line jobs k (word_line_of line.now) }
{
    let Some(text) = behind_key(line.bytes, b"prec") else {
        return Err(ReadFault::BadLine(line.number));
    };
    if k > MOST_ARCS {
        return Err(ReadFault::TooManyArcs);
    }
    arc_of(jobs, line.number, text)
}

/// Arc k, whose line comes first, and the lines behind it.
fn next_arc<'a>(
    jobs: u32,
    k: usize,
    lines: &Lines<'a>,
) -> Result<Option<((JobId, JobId), Lines<'a>)>, ReadFault>
    ensures { MatchResult result
        (λ next. MatchOption next (word_lines_of lines.now ≡ [])
        (λ x. BeginsWithArc jobs k (word_lines_of lines.now) x.0 (word_lines_of x.1)))
        (λ e. BeginsWithBadArc jobs k (word_lines_of lines.now) e) }
{
    if let Some(next) = usual_arc(jobs, k, lines) {
        return Ok(Some(next));
    }
    let Some((line, after)) = lines.split_first() else {
        return Ok(None);
    };
    let arc = arc_at(jobs, k, &line)?;
    Ok(Some((arc, after)))
}

fn arcs_from<A: Allocator>(
    alloc: A,
    jobs: u32,
    lines: &Lines<'_>,
) -> Result<Vec<(JobId, JobId), A>, ReadFault>
    ensures { Gives (λ v. v.items) result (each_from (arc_line jobs) 1 (word_lines_of lines.now)) }
{
    let room = MOST_ARCS.min((lines.bytes_left().len() + 1) / SHORTEST_LINE);
    let mut arcs = Vec::with_capacity(alloc, room)?;
    let mut rest = *lines;
    loop {
        match next_arc(jobs, arcs.len() + 1, &rest) {
            Err(fault) => return Err(fault),
            Ok(None) => return Ok(arcs),
            Ok(Some((arc, after))) => {
                arcs.push(arc)?;
                rest = after;
            }
        }
    }
}

/// The arcs between this many jobs, a line for each.
#[tactic(auto, unfolding(crate::specs::JobTable::arcs_of))]
pub(crate) fn arcs_of<A: Allocator>(
    alloc: A,
    jobs: u32,
    lines: &Lines<'_>,
) -> Result<Vec<(JobId, JobId), A>, ReadFault>
    ensures { Gives (λ v. v.items) result (arcs_of jobs (word_lines_of lines.now)) }
{
    if jobs == 0 {
        return match lines.split_first() {
            None => Err(ReadFault::NoJobs),
            Some((line, _)) => Err(ReadFault::BadLine(line.number)),
        };
    }
    arcs_from(alloc, jobs, lines)
}
