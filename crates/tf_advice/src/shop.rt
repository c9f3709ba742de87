//! What is wrong with a flow shop file.
use crate::page::{Page, push_word};
use crate::source::{Front, Source, Word};
use crate::tardiness::is_table;
use std::alloc::{AllocError, Global};
use tf_read::fault::ReadFault;
use tf_read::flow_shop::read_flowshop;
use tf_words::word::is;

/// The most names that are told.
const MOST_NAMES: usize = 20;

const ENDS_EARLY: &str = "\
The file ends before the instance does: it is cut off, or no line has the
numbers of jobs and machines, two numbers alone.";

const NOT_A_FLOW_SHOP: &str = "\
In each job the machines stand in the order 0, 1, 2, .., each with its time.
A file in which they do not is one of a job shop: \"threefield plan\" reads it with
--format jobshop, for a problem such as J||Cmax.";

const BAD_NUMBER: &str = "After the sizes come whole numbers only: machine and time in turn.";

const BAD_LINE: &str = "The second number is that of the machines, from 1 to 1000.";

const BAD_ROUTE: &str = "\
In each job every machine stands once, counted from 0, each with its time. Where this
line is right, a number is missing or too many before it.";

/// What is wrong, where the instance of this name was read.
pub fn explain_shop(
    alloc: Global,
    page: &mut Page,
    source: &Source<'_>,
    name: &str,
    fault: &ReadFault,
) -> Result<(), AllocError> {
    if is_table(source) {
        page.say("This is a job table: leave --format flow out.")?;
        return page.quote_number(source, 1);
    }
    match *fault {
        ReadFault::NoInstance => say_names(page, source, name),
        ReadFault::BadPair => say_machines(alloc, page, source, name),
        ReadFault::EndsEarly => page.say(ENDS_EARLY),
        ReadFault::BadLine(line) if !is_of_sizes(source, line as usize) => {
            page.quote_number(source, line as usize)?;
            page.say(BAD_ROUTE)
        }
        _ => match line_at_fault(fault) {
            Some((line, wrong)) => {
                page.quote_number(source, line as usize)?;
                page.say(wrong)
            }
            None => Ok(()),
        },
    }
}

// Whether a line may be that of the sizes, with a number of machines that is out of range.
fn is_of_sizes(source: &Source<'_>, number: usize) -> bool {
    let Some(line) = source.line(number) else {
        return true;
    };
    let front = Front::new(line.bytes);
    let machines = front.value(1);
    front.len() == 2 && !machines.is_some_and(|machines| (1..=1000).contains(&machines))
}

// The line that a fault is of, and what is wrong there.
fn line_at_fault(fault: &ReadFault) -> Option<(u32, &'static str)> {
    match *fault {
        ReadFault::NotAFlowShop(line) => Some((line, NOT_A_FLOW_SHOP)),
        ReadFault::BadNumber(line) | ReadFault::NumberTooLarge(line) => Some((line, BAD_NUMBER)),
        ReadFault::Negative(line) => Some((line, "A time is at least 0.")),
        ReadFault::BadLine(line) => Some((line, BAD_LINE)),
        _ => None,
    }
}

// The names of the instances that the file has.
fn say_names(page: &mut Page, source: &Source<'_>, name: &str) -> Result<(), AllocError> {
    page.text.push_str("The file has no line \"instance ")?;
    page.say_of(name, "\".")?;
    let names = push_names(&mut page.text, source)?;
    page.say(match names {
        0 => "It has no line \"instance NAME\" at all: perhaps it is another file.",
        1..=MOST_NAMES => ".",
        _ => " and more.",
    })
}

// Adds the first names, and tells how many there are.
fn push_names(text: &mut String, source: &Source<'_>) -> Result<usize, AllocError> {
    let mut names: usize = 0;
    for line in source.lines() {
        if let Some(found) = name_in(line.bytes) {
            push_found(text, names, found.bytes)?;
            names = names.saturating_add(1);
        }
    }
    Ok(names)
}

// Adds a name behind so many others, if it is one of the first.
fn push_found(text: &mut String, before: usize, name: &[u8]) -> Result<(), AllocError> {
    if before >= MOST_NAMES {
        return Ok(());
    }
    text.push_str(if before == 0 { "It has: " } else { ", " })?;
    push_word(text, name)
}

fn name_in(line: &[u8]) -> Option<Word<'_>> {
    let front = Front::new(line);
    if front.len() == 2 && is(front.word(0)?.bytes, b"instance") {
        front.word(1)
    } else {
        None
    }
}

fn say_machines(
    alloc: Global,
    page: &mut Page,
    source: &Source<'_>,
    name: &str,
) -> Result<(), AllocError> {
    page.say("--pair takes two different machines of the instance, counted from 0.")?;
    match machines_of(alloc, source, name) {
        Some(machines) => {
            let last = machines.saturating_sub(1);
            writeln!(page.text, "This one has the machines 0 to {last}.")
        }
        None => Ok(()),
    }
}

fn machines_of(alloc: Global, source: &Source<'_>, name: &str) -> Option<u32> {
    match read_flowshop(alloc, source.text, name.as_bytes(), None) {
        Ok(instance) => instance.machines(),
        Err(_) => None,
    }
}
