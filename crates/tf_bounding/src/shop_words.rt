//! The times of a shop among the words of a flow shop file, which is gone through once.
ghost use Rattle.std.specs.Prelude.{◌≡◌, ◌≢◌, ◌*◌, ◌<◌, ◌≤◌, ◌∷◌, [], drop, length, IfOk};
ghost use Rattle.std.specs.Prelude.{MatchOption};
ghost use Rattle.tf_words.specs.Words.{words, lines};
ghost use Rattle.tf_read.specs.FlowShop.{is_name_line};
ghost use Rattle.tf_bounding.specs.ShopTimes.{times_by_machine};
ghost use Rattle.tf_bounding.specs.ShopWords.{HasSizes, behind, behind_sizes, is_sizes_line};
ghost use Rattle.tf_bounding.specs.ShopWords.{on_machine, paired_times, time_at, time_of};

use std::alloc::{AllocError, Allocator};
use tf_export::line::next_line;
use tf_model::memory::OutOfMemory;
use tf_prepare::timed::MachineTimes;
use tf_words::digits::is_numeral;
use tf_words::number::{Number, number_of};
use tf_words::word::{first_word, is};

/// The times of all jobs on each machine, of the instance of this name, which has these jobs and
/// machines. The text is gone through once.
pub(crate) fn times_by_machine<A: Allocator + Copy>(
    alloc: A,
    name: &[u8],
    sizes: (usize, usize),
    text: &[u8],
) -> Result<Vec<MachineTimes<A>, A>, OutOfMemory>
    requires has { HasSizes name.now text.now sizes.0 sizes.1 }
    requires small { sizes.0 * sizes.1 ≤ 2000000 }
    ensures { IfOk result (λ all. all.items ≡ times_by_machine name.now sizes.1 text.now) }
{
    let (jobs, machines) = sizes;
    let times = paired_times(alloc, behind_sizes(name, text), jobs * machines)?;
    let mut all = Vec::with_capacity(alloc, machines)?;
    for i in 0..machines {
        all.push(MachineTimes::new(on_machine(alloc, &times, sizes, i)?))?;
    }
    Ok(all)
}

// What follows the line of the sizes of the instance of this name; nothing where there is none.
fn behind_sizes<'a>(name: &[u8], text: &'a [u8]) -> &'a [u8]
    ensures { lines result.now ≡ behind_sizes name.now (lines text.now) }
{
    let mut rest = behind_heading(name, text);
    while !rest.is_empty() {
        let (line, below) = next_line(rest);
        if is_sizes_line(line) {
            return below;
        }
        rest = below;
    }
    rest
}

// What follows the heading of this name; nothing where there is none.
fn behind_heading<'a>(name: &[u8], text: &'a [u8]) -> &'a [u8]
    ensures { lines result.now ≡ behind (is_name_line name.now) (lines text.now) }
{
    let mut rest = text;
    while !rest.is_empty() {
        let (line, below) = next_line(rest);
        if is_heading(name, line) {
            return below;
        }
        rest = below;
    }
    rest
}

// Whether the line is the heading of this name.
fn is_heading(name: &[u8], line: &[u8]) -> bool
    ensures { result ≡ is_name_line name.now (words line.now) }
{
    match two_words(line) {
        Some((key, word)) => is(key, b"instance") && is(word, name),
        None => false,
    }
}

// Whether the line has two words of digits alone.
fn is_sizes_line(line: &[u8]) -> bool
    ensures { result ≡ is_sizes_line (words line.now) }
{
    match two_words(line) {
        Some((jobs, machines)) => is_numeral(jobs) && is_numeral(machines),
        None => false,
    }
}

// The words of a line that has two.
fn two_words(line: &[u8]) -> Option<(&[u8], &[u8])>
    ensures { MatchOption result (length (words line.now) ≢ 2)
        (λ x. words line.now ≡ x.0.now ∷ x.1.now ∷ []) }
{
    let (first, rest) = first_word(line)?;
    let (second, rest) = first_word(rest)?;
    match first_word(rest) {
        Some(_) => None,
        None => Some((first, second)),
    }
}

// Of so many pairs of words the second of each, as times.
fn paired_times<A: Allocator>(
    alloc: A,
    text: &[u8],
    count: usize,
) -> Result<Vec<u64, A>, AllocError>
    ensures { IfOk result (λ times. times.items ≡ paired_times (words text.now) count) }
{
    let mut times = Vec::with_capacity(alloc, count)?;
    let mut rest = text;
    for _ in 0..count {
        let (time, behind) = second_time(rest);
        times.push(time)?;
        rest = behind;
    }
    Ok(times)
}

// The time that the second word of a text writes, 0 where it writes none, and what follows it.
fn second_time(text: &[u8]) -> (u64, &[u8])
    ensures time { result.0 ≡ time_at (words text.now) 1 }
    ensures words { words result.1.now ≡ drop 2 (words text.now) }
{
    let Some((_, rest)) = first_word(text) else {
        return (0, &[]);
    };
    match first_word(rest) {
        Some((word, rest)) => (time_of(number_of(word)), rest),
        None => (0, &[]),
    }
}

fn time_of(number: Number) -> u64
    ensures { result ≡ time_of number }
{
    match number {
        Number::Value(value) if value > 0 => value as u64,
        _ => 0,
    }
}

// Of the times of jobs on so many machines, job by job, those on machine i.
fn on_machine<A: Allocator>(
    alloc: A,
    times: &[u64],
    sizes: (usize, usize),
    i: usize,
) -> Result<Vec<u64, A>, AllocError>
    requires length { length times.now ≡ sizes.0 * sizes.1 }
    requires within { i < sizes.1 }
    ensures { IfOk result (λ all. all.items ≡ on_machine times.now sizes.0 sizes.1 i) }
{
    let (jobs, machines) = sizes;
    let mut all = Vec::with_capacity(alloc, jobs)?;
    for j in 0..jobs {
        all.push(times[j * machines + i])?;
    }
    Ok(all)
}
