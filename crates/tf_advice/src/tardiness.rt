//! What is wrong with a weighted tardiness file.
ghost use Rattle.std.specs.Prelude.{◌<◌};

use crate::number::{fault_of_number, fault_of_size};
use crate::page::Page;
use crate::source::{Source, SourceLine, Word};
use std::alloc::AllocError;
use tf_read::fault::ReadFault;

const NEGATIVE: &str = "\
A negative number stands where a time or a weight is read.
Due dates alone may be negative, so the usual cause is a wrong --jobs.";

const NO_INSTANCE: &str = "The file ends before the instance that --index names.";

const ENDS_EARLY: &str = "The file ends within the instance: it is cut off, or --jobs is wrong.";

/// What is wrong, where the file was read as instances of so many jobs.
pub fn explain_tardiness(
    page: &mut Page,
    source: &Source<'_>,
    jobs: u32,
    fault: &ReadFault,
) -> Result<(), AllocError> {
    if is_table(source) {
        page.say("This is a job table: leave --format wt out.")?;
        return page.quote_number(source, 1);
    }
    match *fault {
        ReadFault::BadNumber(line) | ReadFault::NumberTooLarge(line) => {
            quote_bad_word(page, source, line as usize, false)?;
            page.say("A weighted tardiness file has whole numbers alone.")
        }
        ReadFault::Negative(line) => {
            quote_bad_word(page, source, line as usize, true)?;
            say_size(page, source, jobs, NEGATIVE)
        }
        ReadFault::NoInstance => say_size(page, source, jobs, NO_INSTANCE),
        ReadFault::EndsEarly => say_size(page, source, jobs, ENDS_EARLY),
        _ => Ok(()),
    }
}

// A sentence, and how many instances of this size the file has room for.
fn say_size(
    page: &mut Page,
    source: &Source<'_>,
    jobs: u32,
    sentence: &str,
) -> Result<(), AllocError> {
    page.say(sentence)?;
    say_counts(page, source, jobs)
}

/// Whether the text begins as a job table does.
pub fn is_table(source: &Source<'_>) -> bool {
    source.text.trim_ascii().starts_with(b"table 1")
}

// The line with the first word of it that is at fault.
fn quote_bad_word(
    page: &mut Page,
    source: &Source<'_>,
    number: usize,
    is_size: bool,
) -> Result<(), AllocError> {
    let Some(line) = source.line(number) else {
        return Ok(());
    };
    let word = bad_word(&line, is_size);
    page.quote(source, &line, word)?;
    match word.and_then(|word| fault_of_number(word.bytes)?.advice()) {
        Some(advice) => page.say(advice.wrong),
        None => Ok(()),
    }
}

/// The first word of a line that is no number, or that is negative where a size is wanted.
fn bad_word<'a>(line: &SourceLine<'a>, is_size: bool) -> Option<Word<'a>> {
    for word in line.words() {
        let fault = if is_size {
            fault_of_size(word.bytes)
        } else {
            fault_of_number(word.bytes)
        };
        if fault.is_some() {
            return Some(word);
        }
    }
    None
}

/// Says so where the numbers of the file are not those of whole instances of this size.
pub fn explain_rest(page: &mut Page, source: &Source<'_>, jobs: u32) -> Result<(), AllocError> {
    if source.word_count() % numbers_of(jobs) == 0 {
        Ok(())
    } else {
        say_counts(page, source, jobs)
    }
}

/// How many numbers an instance of this size takes.
fn numbers_of(jobs: u32) -> usize
    ensures { 0 < result }
{
    (jobs.max(1) as usize).saturating_mul(3)
}

// How many instances of this size the file has room for.
fn say_counts(page: &mut Page, source: &Source<'_>, jobs: u32) -> Result<(), AllocError> {
    let words = source.word_count();
    let each = numbers_of(jobs);
    let instances = words / each;
    let rest = words % each;
    writeln!(
        page.text,
        "The file has {words} numbers, and an instance of {jobs} jobs takes {each}:"
    )?;
    if rest == 0 {
        writeln!(page.text, "it has {instances} of them, counted from 1.")
    } else {
        writeln!(
            page.text,
            "that is {instances} of them and {rest} numbers more, so --jobs may be wrong."
        )
    }
}
