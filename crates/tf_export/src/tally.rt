//! How many of the orders of a text are optimal, how many are wrong and how, and the mean gap.
ghost use Rattle.std.specs.Prelude.{◌≡◌, ◌++◌, ◌+◌, ◌*◌, ◌/◌, ◌<◌, ◌^◌, ◌==◌, ◌∷◌, [], IfOk, OnOk};
ghost use Rattle.std.specs.List.{count_by, flat_map, position, sum_by};
ghost use Rattle.tf_words.specs.Words.{words, lines};
ghost use Rattle.tf_export.specs.Tally.{behind_blank, count_line, counts, gap_of, gap_or_zero};
ghost use Rattle.tf_export.specs.Tally.{hundredths, is_counted, is_rated, is_wrong, mean};
ghost use Rattle.tf_export.specs.Tally.{mean_line, reasons, standings, name_of, summarized};
ghost use Rattle.tf_export.specs.Tally.{summary_of, summary_text, unnumbered};

use crate::line::{behind_first, behind_heading, first_of, next_line};
use crate::orders::{row_of, standing_of};
use itoa::Buffer;
use std::alloc::Global;
use tf_model::limit::LIMIT;
use tf_model::memory::OutOfMemory;
use tf_words::ranged::{Ranged, number_in};
use tf_words::word::{behind_key, first_word, is};

/// What an order is counted as.
#[derive(Clone, Copy, Debug, PartialEq, Eq)]
pub(crate) enum Mark {
    Order,
    Optimal,
    Fits,
    Misfit,
    Wrong,
    WrongWord,
    WrongLists,
    WrongTwice,
    WrongMissing,
    WrongSeldom,
    WrongOften,
    /// It fits, and its gap is known.
    Gap,
}

impl Mark {
    /// What stands before the count.
    fn name(self) -> &'static [u8]
        ensures { result.now ≡ name_of self }
    {
        match self {
            Mark::Order => b"# orders ",
            Mark::Optimal => b"# optimal ",
            Mark::Fits => b"# fits ",
            Mark::Misfit => b"# misfit ",
            Mark::Wrong => b"# wrong ",
            Mark::WrongWord => b"# wrong_word ",
            Mark::WrongLists => b"# wrong_lists ",
            Mark::WrongTwice => b"# wrong_twice ",
            Mark::WrongMissing => b"# wrong_missing ",
            Mark::WrongSeldom => b"# wrong_seldom ",
            Mark::WrongOften => b"# wrong_often ",
            Mark::Gap => b"# gaps ",
        }
    }

    /// Whether an order that comes to this is counted.
    fn counts(self, row: &[u8]) -> bool
        ensures { result ≡ counts self (words row.now) }
    {
        match self {
            Mark::Order => true,
            Mark::Optimal => is_rated(row) && is(standing_of(row), b"optimal"),
            Mark::Fits => is_rated(row) && is(standing_of(row), b"fits"),
            Mark::Misfit => behind_key(row, b"misfit").is_some(),
            Mark::Wrong => behind_key(row, b"wrong").is_some(),
            Mark::WrongWord => is_wrong(row, b"word"),
            Mark::WrongLists => is_wrong(row, b"lists"),
            Mark::WrongTwice => is_wrong(row, b"twice"),
            Mark::WrongMissing => is_wrong(row, b"missing"),
            Mark::WrongSeldom => is_wrong(row, b"seldom"),
            Mark::WrongOften => is_wrong(row, b"often"),
            Mark::Gap => gap_of(row).is_some(),
        }
    }
}

/// Whether an order fits.
fn is_rated(row: &[u8]) -> bool
    ensures { result ≡ is_rated (words row.now) }
{
    behind_key(row, b"misfit").is_none() && behind_key(row, b"wrong").is_none()
}

/// Whether a row says that an order is wrong for this reason.
fn is_wrong(row: &[u8], reason: &[u8]) -> bool
    ensures { result ≡ is_wrong reason.now (words row.now) }
{
    match behind_key(row, b"wrong") {
        Some(row) => behind_key(row, reason).is_some(),
        None => false,
    }
}

/// The gap of an order, where it has one within the limit of numbers.
fn gap_of(row: &[u8]) -> Option<u64>
    ensures { result ≡ gap_of (words row.now) }
{
    if !is_rated(row) {
        return None;
    }
    let (word, _) = first_word(behind_first(row))?;
    match number_in(word, 0, LIMIT) {
        Ranged::Within(gap) => Some(gap as u64),
        _ => None,
    }
}

/// How many orders of a text are counted as this.
fn count_of(mark: Mark, text: &[u8]) -> usize
    ensures { result ≡ count_by (is_counted mark) (lines text.now) }
{
    let mut rest = text;
    let mut count = 0;
    while !rest.is_empty() {
        let (line, more) = next_line(rest);
        if mark.counts(row_of(line)) {
            count += 1;
        }
        rest = more;
    }
    count
}

/// The sum of all gaps that are known of a text's orders.
fn sum_of_gaps(text: &[u8]) -> u128
    ensures { result ≡ sum_by gap_or_zero (lines text.now) }
{
    let mut rest = text;
    let mut sum: u128 = 0;
    while !rest.is_empty() {
        let (line, more) = next_line(rest);
        sum += u128::from(gap_of(row_of(line)).unwrap_or(0));
        rest = more;
    }
    sum
}

/// Adds the mean of so many gaps, cut off behind two digits; `null` where there is none.
fn push_mean(summary: &mut Vec<u8>, count: u64, sum: u128) -> Result<(), OutOfMemory>
    ensures { OnOk result (summary.new.items ≡ summary.old.items ++ mean count sum) }
{
    let count = u128::from(count);
    if count == 0 {
        summary.extend_from_slice(b"null")?;
        return Ok(());
    }
    let mut digits = Buffer::new();
    summary.extend_from_slice(digits.format(sum / count).as_bytes())?;
    summary.push(b'.')?;
    push_hundredths(summary, sum % count, count)
}

/// Adds two digits of a part of a whole.
fn push_hundredths(summary: &mut Vec<u8>, part: u128, whole: u128) -> Result<(), OutOfMemory>
    requires part { part < whole }
    requires whole { whole < 2 ^ 64 }
    ensures { OnOk result (summary.new.items ≡ summary.old.items ++ hundredths part whole) }
{
    let tenths = part * 10;
    summary.push(digit_of(tenths, whole))?;
    summary.push(digit_of(tenths % whole * 10, whole))?;
    Ok(())
}

/// The digit of a number of tenths of a whole.
fn digit_of(tenths: u128, whole: u128) -> u8
    requires { tenths < whole * 10 }
    ensures { result ≡ 48 + tenths / whole }
{
    b'0' + (tenths / whole) as u8
}

/// Adds a line of the summary.
fn push_count(summary: &mut Vec<u8>, mark: Mark, text: &[u8]) -> Result<(), OutOfMemory>
    ensures { OnOk result (summary.new.items
        ≡ summary.old.items ++ count_line (lines text.now) mark) }
{
    let mut digits = Buffer::new();
    summary.extend_from_slice(mark.name())?;
    summary.extend_from_slice(digits.format(count_of(mark, text)).as_bytes())?;
    summary.push(b'\n')?;
    Ok(())
}

/// Adds the line of the mean gap.
fn push_mean_line(summary: &mut Vec<u8>, text: &[u8]) -> Result<(), OutOfMemory>
    ensures { OnOk result (summary.new.items ≡ summary.old.items ++ mean_line (lines text.now)) }
{
    summary.extend_from_slice(b"# mean_gap ")?;
    push_mean(summary, count_of(Mark::Gap, text) as u64, sum_of_gaps(text))?;
    summary.push(b'\n')?;
    Ok(())
}

/// Adds how the orders of a text stand.
fn push_standings(summary: &mut Vec<u8>, text: &[u8]) -> Result<(), OutOfMemory>
    ensures { OnOk result (summary.new.items ≡ summary.old.items ++ standings (lines text.now)) }
{
    push_count(summary, Mark::Order, text)?;
    push_count(summary, Mark::Optimal, text)?;
    push_count(summary, Mark::Fits, text)?;
    push_count(summary, Mark::Misfit, text)
}

/// Adds how many orders of a text are wrong, and why.
fn push_reasons(summary: &mut Vec<u8>, text: &[u8]) -> Result<(), OutOfMemory>
    ensures { OnOk result (summary.new.items ≡ summary.old.items ++ reasons (lines text.now)) }
{
    push_count(summary, Mark::Wrong, text)?;
    push_count(summary, Mark::WrongWord, text)?;
    push_count(summary, Mark::WrongLists, text)?;
    push_count(summary, Mark::WrongTwice, text)?;
    push_count(summary, Mark::WrongMissing, text)?;
    push_count(summary, Mark::WrongSeldom, text)?;
    push_count(summary, Mark::WrongOften, text)
}

/// Adds the summary of the orders of a text.
#[tactic(auto, unfolding(crate::specs::Tally::summary_text))]
fn push_summary(summary: &mut Vec<u8>, text: &[u8]) -> Result<(), OutOfMemory>
    ensures { OnOk result (summary.new.items ≡ summary.old.items ++ summary_text (lines text.now)) }
{
    push_standings(summary, text)?;
    push_reasons(summary, text)?;
    push_mean_line(summary, text)
}

/// The summary of the orders of a text, a line `# NAME NUMBER` for each count.
///
/// # Errors
///
/// There was no memory.
pub(crate) fn summary_of(alloc: Global, text: &[u8]) -> Result<Vec<u8>, OutOfMemory>
    ensures { IfOk result (λ summary. summary.items ≡ summary_of text.now) }
{
    let mut summary = Vec::new(alloc);
    push_summary(&mut summary, behind_heading(text))?;
    Ok(summary)
}

/// The lines of orders without their numbers, and a summary of them in comments: the optimum or the
/// bound, how many are optimal, how many are wrong and how, and the mean gap.
///
/// # Errors
///
/// There was no memory.
#[tactic(auto, unfolding(crate::specs::Tally::summarized))]
pub fn summarized(alloc: Global, text: &[u8]) -> Result<Vec<u8>, OutOfMemory>
    ensures { IfOk result (λ all. all.items ≡ summarized text.now) }
{
    let mut all = Vec::new(alloc);
    let orders = behind_heading(text);
    push_unnumbered(&mut all, orders)?;
    all.extend_from_slice(b"# ")?;
    all.extend_from_slice(first_of(text))?;
    all.push(b'\n')?;
    push_summary(&mut all, orders)?;
    Ok(all)
}

/// Adds each line without its number.
fn push_unnumbered(all: &mut Vec<u8>, text: &[u8]) -> Result<(), OutOfMemory>
    ensures { OnOk result (all.new.items ≡ all.old.items ++ flat_map unnumbered (lines text.now)) }
{
    let mut rest = text;
    while !rest.is_empty() {
        let (line, more) = next_line(rest);
        push_line(all, behind_blank(line))?;
        rest = more;
    }
    Ok(())
}

fn push_line(all: &mut Vec<u8>, line: &[u8]) -> Result<(), OutOfMemory>
    ensures { OnOk result (all.new.items ≡ all.old.items ++ (line.now ++ 10 ∷ [])) }
{
    all.extend_from_slice(line)?;
    all.push(b'\n')?;
    Ok(())
}

/// Where the first blank of a line stands.
fn blank_in(line: &[u8]) -> Option<usize>
    ensures { result ≡ position (λ b. b == 32) line.now }
{
    line.iter().position(|byte| *byte == b' ')
}

/// What stands behind the first blank of a line.
fn behind_blank(line: &[u8]) -> &[u8]
    ensures { result.now ≡ behind_blank line.now }
{
    match blank_in(line) {
        None => line,
        Some(place) => &line[place + 1..],
    }
}
