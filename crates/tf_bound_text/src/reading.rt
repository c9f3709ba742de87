//! Texts of bounds, read line by line.
ghost use Rattle.std.specs.Prelude.{◌≡◌, ◌<◌, ◌≤◌, ◌∷◌, [], codes, IfOk};
ghost use Rattle.std.specs.Str.{bytes_eq};
ghost use Rattle.tf_model.specs.Limit.{most_jobs};
ghost use Rattle.tf_words.specs.Words.{words, lines};
ghost use Rattle.tf_words.specs.Lines.{line_of, lines_of};
ghost use Rattle.tf_bound_text.specs.BoundSheetData.{basis_of};
ghost use Rattle.tf_bound_text.specs.BoundReading.{Gives, next, word_at, heading_at, problem_in};
ghost use Rattle.tf_bound_text.specs.BoundReading.{problem_at, count_at, value_at, certificate_at};
ghost use Rattle.tf_bound_text.specs.BoundReading.{arcs_in, arcs_at, multipliers_at, with_arcs};
ghost use Rattle.tf_bound_text.specs.BoundReading.{is_end, end_at, bound_at, sheet_of, bound_in};

use crate::certificate::certificate_in;
use crate::fault::BoundTextFault;
use crate::number::{natural, numbers_from, only, value_in};
use crate::sheet::BoundSheet;
use std::alloc::Allocator;
use tf_bound::certificate::BoundCertificate;
use tf_model::limit::{MOST_BYTES, MOST_JOBS, MOST_MACHINES};
use tf_model::problem::Problem;
use tf_notation::reading::read;
use tf_words::line::{Line, Lines, after_word, without_return};
use tf_words::word::{behind_key, first_word, is};

/// A word and the number of its line.
#[derive(Clone, Copy)]
struct Word<'a> {
    line: u32,
    bytes: &'a [u8],
}

/// Returns the first line that is kept, and the lines after it.
fn next<'a>(lines: &Lines<'a>) -> Result<(Line<'a>, Lines<'a>), BoundTextFault>
    ensures { Gives (λ x. (line_of x.0, lines_of x.1)) result (next (lines_of lines.now)) }
{
    lines.split_first().ok_or(BoundTextFault::EndsEarly)
}

/// Reads a line of a key and one word, and returns the lines after it.
#[tactic(auto, unfolding(crate::specs::BoundReading::word_at))]
fn word_at<'a>(lines: &Lines<'a>, key: &[u8]) -> Result<(Word<'a>, Lines<'a>), BoundTextFault>
    ensures { Gives (λ x. (x.0.line, x.0.bytes.now, lines_of x.1)) result
        (word_at key.now (lines_of lines.now)) }
{
    let (line, more) = next(lines)?;
    let Some(text) = behind_key(line.bytes, key) else {
        return Err(BoundTextFault::BadLine(line.number));
    };
    let bytes = only(line.number, text)?;
    let word = Word {
        line: line.number,
        bytes,
    };
    Ok((word, more))
}

/// Reads the heading, and returns the lines after it.
#[tactic(auto, unfolding(crate::specs::BoundReading::heading_at))]
fn heading_at<'a>(lines: &Lines<'a>) -> Result<Lines<'a>, BoundTextFault>
    ensures { Gives lines_of result (heading_at (lines_of lines.now)) }
{
    let (version, more) = word_at(lines, b"bound")?;
    if !is(version.bytes, b"1") {
        return Err(BoundTextFault::BadLine(version.line));
    }
    Ok(more)
}

/// Reads the line `problem`.
#[tactic(auto, unfolding(crate::specs::BoundReading::problem_in))]
fn problem_in(line: &Line<'_>) -> Result<Problem, BoundTextFault>
    ensures { Gives (λ p. p) result (problem_in (line_of line.now)) }
{
    if behind_key(line.bytes, b"problem").is_none() {
        return Err(BoundTextFault::BadLine(line.number));
    }
    match read(without_return(after_word(line.bytes))) {
        Ok(problem) => Ok(problem),
        Err(_) => Err(BoundTextFault::BadNotation),
    }
}

/// Reads the line `problem`, and returns the lines after it.
#[tactic(auto, unfolding(crate::specs::BoundReading::problem_at))]
fn problem_at<'a>(lines: &Lines<'a>) -> Result<(Problem, Lines<'a>), BoundTextFault>
    ensures { Gives (λ x. (x.0, lines_of x.1)) result (problem_at (lines_of lines.now)) }
{
    let (line, more) = next(lines)?;
    let problem = problem_in(&line)?;
    Ok((problem, more))
}

/// Reads a line of a key and a count, and returns the lines after it.
#[tactic(auto, unfolding(crate::specs::BoundReading::count_at))]
fn count_at<'a>(
    lines: &Lines<'a>,
    key: &[u8],
    most: u32,
) -> Result<(u32, Lines<'a>), BoundTextFault>
    ensures { Gives (λ x. (x.0, lines_of x.1)) result
        (count_at key.now most (lines_of lines.now)) }
{
    let (word, more) = word_at(lines, key)?;
    let count = natural(word.line, 1, u64::from(most), word.bytes)?;
    Ok((count as u32, more))
}

/// Reads the line `value`, and returns the lines after it.
#[tactic(auto, unfolding(crate::specs::BoundReading::value_at))]
fn value_at<'a>(lines: &Lines<'a>) -> Result<(i64, Lines<'a>), BoundTextFault>
    ensures { Gives (λ x. (x.0, lines_of x.1)) result (value_at (lines_of lines.now)) }
{
    let (word, more) = word_at(lines, b"value")?;
    let value = value_in(word.line, word.bytes)?;
    Ok((value, more))
}

/// Reads the numbers of a line `arcs`.
fn arcs_in<A: Allocator>(alloc: A, line: u32, text: &[u8]) -> Result<Vec<u64, A>, BoundTextFault>
    ensures { Gives (λ numbers. numbers.items) result (arcs_in line (words text.now)) }
{
    match first_word(text) {
        None => Err(BoundTextFault::BadLine(line)),
        Some(_) => numbers_from(alloc, line, text),
    }
}

/// Reads the line `arcs` where it comes first, and returns the lines after it.
#[tactic(auto, unfolding(crate::specs::BoundReading::arcs_at))]
fn arcs_at<'a, A: Allocator>(
    alloc: A,
    lines: Lines<'a>,
) -> Result<(Vec<u64, A>, Lines<'a>), BoundTextFault>
    ensures { Gives (λ x. (x.0.items, lines_of x.1)) result (arcs_at (lines_of lines.entry)) }
{
    let Some((line, more)) = lines.split_first() else {
        return Ok((Vec::new(alloc), lines));
    };
    let Some(text) = behind_key(line.bytes, b"arcs") else {
        return Ok((Vec::new(alloc), lines));
    };
    let arcs = arcs_in(alloc, line.number, text)?;
    Ok((arcs, more))
}

/// Reads what may follow multipliers, and returns the lines after it.
#[tactic(auto, unfolding(crate::specs::BoundReading::multipliers_at))]
fn multipliers_at<'a, A: Allocator>(
    alloc: A,
    machine: usize,
    q: u64,
    numerators: Vec<u64, A>,
    lines: Lines<'a>,
) -> Result<(BoundCertificate<A>, Lines<'a>), BoundTextFault>
    ensures { Gives (λ x. (basis_of x.0, lines_of x.1)) result
        (multipliers_at machine q numerators.items (lines_of lines.entry)) }
{
    let (arcs, lines) = arcs_at(alloc, lines)?;
    let certificate = BoundCertificate::Multipliers {
        machine,
        q,
        numerators,
        arcs,
    };
    Ok((certificate, lines))
}

/// Reads what may follow the first line of the certificate.
fn with_arcs<'a, A: Allocator>(
    alloc: A,
    certificate: BoundCertificate<A>,
    lines: Lines<'a>,
) -> Result<(BoundCertificate<A>, Lines<'a>), BoundTextFault>
    ensures { Gives (λ x. (basis_of x.0, lines_of x.1)) result
        (with_arcs (basis_of certificate) (lines_of lines.entry)) }
{
    match certificate {
        BoundCertificate::Machine { machine, jobs } => {
            Ok((BoundCertificate::Machine { machine, jobs }, lines))
        }
        BoundCertificate::Window { jobs } => Ok((BoundCertificate::Window { jobs }, lines)),
        BoundCertificate::Crowd { h, jobs } => Ok((BoundCertificate::Crowd { h, jobs }, lines)),
        BoundCertificate::OneJob { job } => Ok((BoundCertificate::OneJob { job }, lines)),
        BoundCertificate::Multipliers {
            machine,
            q,
            numerators,
            ..
        } => multipliers_at(alloc, machine, q, numerators, lines),
        BoundCertificate::Prices { q, rows } => Ok((BoundCertificate::Prices { q, rows }, lines)),
        BoundCertificate::MachinePrices { machine, q, rows } => {
            Ok((BoundCertificate::MachinePrices { machine, q, rows }, lines))
        }
        BoundCertificate::Alone => Ok((BoundCertificate::Alone, lines)),
        BoundCertificate::Kept { jobs } => Ok((BoundCertificate::Kept { jobs }, lines)),
        BoundCertificate::Shortest { jobs } => Ok((BoundCertificate::Shortest { jobs }, lines)),
        BoundCertificate::Ranks { jobs } => Ok((BoundCertificate::Ranks { jobs }, lines)),
        BoundCertificate::Split {
            first,
            second,
            delta,
            by_first,
            side,
        } => {
            let split = BoundCertificate::Split {
                first,
                second,
                delta,
                by_first,
                side,
            };
            Ok((split, lines))
        }
        BoundCertificate::Parts {
            from,
            until,
            late,
            jobs,
        } => {
            let parts = BoundCertificate::Parts {
                from,
                until,
                late,
                jobs,
            };
            Ok((parts, lines))
        }
        BoundCertificate::Potentials { numbers } => {
            Ok((BoundCertificate::Potentials { numbers }, lines))
        }
    }
}

/// Reads the lines of the certificate, and returns the lines after them.
#[tactic(auto, unfolding(crate::specs::BoundReading::certificate_at))]
fn certificate_at<'a, A: Allocator + Copy>(
    alloc: A,
    lines: &Lines<'a>,
) -> Result<(BoundCertificate<A>, Lines<'a>), BoundTextFault>
    ensures { Gives (λ x. (basis_of x.0, lines_of x.1)) result
        (certificate_at (lines_of lines.now)) }
{
    let (line, more) = next(lines)?;
    let certificate = certificate_in(alloc, line.number, line.bytes)?;
    with_arcs(alloc, certificate, more)
}

/// Whether the line is `end`.
fn is_end(text: &[u8]) -> bool
    ensures { result ≡ is_end (words text.now) }
{
    match first_word(text) {
        None => false,
        Some((first, after)) => is(first, b"end") && first_word(after).is_none(),
    }
}

/// Reads the line `end`, after which no line follows.
#[tactic(auto, unfolding(crate::specs::BoundReading::end_at))]
fn end_at(lines: &Lines<'_>) -> Result<(), BoundTextFault>
    ensures { Gives (λ u. tt) result (end_at (lines_of lines.now)) }
{
    let (line, more) = next(lines)?;
    if !is_end(line.bytes) {
        return Err(BoundTextFault::BadLine(line.number));
    }
    match more.split_first() {
        None => Ok(()),
        Some((line, _)) => Err(BoundTextFault::BadLine(line.number)),
    }
}

/// Reads the bound: value, certificate and end.
#[tactic(auto, unfolding(crate::specs::BoundReading::bound_at))]
fn bound_at<A: Allocator + Copy>(
    alloc: A,
    lines: &Lines<'_>,
) -> Result<(i64, BoundCertificate<A>), BoundTextFault>
    ensures { Gives (λ x. (x.0, basis_of x.1)) result (bound_at (lines_of lines.now)) }
{
    let (value, lines) = value_at(lines)?;
    let (certificate, lines) = certificate_at(alloc, &lines)?;
    end_at(&lines)?;
    Ok((value, certificate))
}

/// Reads all lines of a bound's text.
#[tactic(auto, unfolding(crate::specs::BoundReading::sheet_of))]
fn sheet_of<A: Allocator + Copy>(
    alloc: A,
    lines: &Lines<'_>,
) -> Result<BoundSheet<A>, BoundTextFault>
    ensures { Gives (λ s. s) result (sheet_of (lines_of lines.now)) }
{
    let lines = heading_at(lines)?;
    let (problem, lines) = problem_at(&lines)?;
    let (jobs, lines) = count_at(&lines, b"jobs", MOST_JOBS as u32)?;
    let (machines, lines) = count_at(&lines, b"machines", MOST_MACHINES)?;
    let (value, certificate) = bound_at(alloc, &lines)?;
    Ok(BoundSheet {
        problem,
        jobs,
        machines,
        value,
        certificate,
    })
}

/// The sheet that the text of a bound says. Lines without words and lines whose first word begins
/// with `#` are skipped, words are divided by any white space, and numbers may have leading zeros.
/// Nothing is compared between lines.
///
/// # Errors
///
/// The first fault of the text, from its first line to its last. In each line the form of what
/// comes first is judged before what follows it.
#[tactic(auto, unfolding(crate::specs::BoundReading::bound_in))]
pub fn read_bound<A: Allocator + Copy>(
    alloc: A,
    text: &[u8],
) -> Result<BoundSheet<A>, BoundTextFault>
    ensures { Gives (λ s. s) result (bound_in text.now) }
{
    if text.len() > MOST_BYTES {
        return Err(BoundTextFault::TooLong);
    }
    sheet_of(alloc, &Lines::new(text))
}
