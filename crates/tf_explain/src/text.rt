//! What is wrong with the text of an instance.
use std::alloc::{AllocError, Global};
use tf_advice::advice::Place;
use tf_advice::page::Page;
use tf_advice::shop::explain_shop;
use tf_advice::source::Source;
use tf_advice::table::explain_table;
use tf_advice::tardiness::explain_tardiness;
use tf_engine::request::Form;
use tf_model::limit::{MOST_ARCS, MOST_BYTES, MOST_JOBS};
use tf_read::fault::ReadFault;

/// What is wrong with a route in a problem that is no job shop.
const ROUTE: &str = "A route, as in p=3@2,5@1, is read in a job shop alone, such as J||Cmax.";

/// What is wrong with the text of an instance that was read in this form.
pub(crate) fn explain_text(
    alloc: Global,
    page: &mut Page,
    source: &Source<'_>,
    form: &Form,
    fault: &ReadFault,
) -> Result<(), AllocError> {
    if say_whole(page, source, form, fault)? {
        return Ok(());
    }
    match form {
        Form::Table => {
            if !explain_table(page, source)? {
                say_first(page, source, fault)?;
            }
            Ok(())
        }
        Form::Wt { jobs, .. } => explain_tardiness(page, source, *jobs, fault),
        Form::Flow { name, .. } => explain_shop(alloc, page, source, name.as_str(), fault),
    }
}

// What is wrong with the text as a whole, if that is it.
fn say_whole(
    page: &mut Page,
    source: &Source<'_>,
    form: &Form,
    fault: &ReadFault,
) -> Result<bool, AllocError> {
    if source.text.trim_ascii().is_empty() {
        page.say_of_source(
            source,
            " is empty: has it been written, and is the name right?",
        )?;
        return Ok(true);
    }
    match fault {
        ReadFault::TooLong => say_more(page, source, MOST_BYTES, "bytes")?,
        ReadFault::NoJobs => {
            page.say_of_source(source, " has no job.")?;
            say_jobs(page, form)?;
        }
        ReadFault::TooManyJobs => say_more(page, source, MOST_JOBS, "jobs")?,
        ReadFault::TooManyArcs => say_more(page, source, MOST_ARCS, "precedence constraints")?,
        _ => return Ok(false),
    }
    Ok(true)
}

// Says that a source has more than so many of these.
pub(crate) fn say_more(
    page: &mut Page,
    source: &Source<'_>,
    most: usize,
    what: &str,
) -> Result<(), AllocError> {
    source.push_title(&mut page.text)?;
    writeln!(page.text, " has more than {most} {what}.")
}

// How a text of this form has jobs.
fn say_jobs(page: &mut Page, form: &Form) -> Result<(), AllocError> {
    match form {
        Form::Table => {
            page.say("A job line is \"job 1 p=3\", with the fields that the problem needs.")
        }
        Form::Flow { .. } => {
            page.say("The first of its two sizes is the number of jobs, and that is 0 here.")
        }
        Form::Wt { .. } => Ok(()),
    }
}

// Says where a route is read, if the line has one.
fn say_route(page: &mut Page, source: &Source<'_>, number: usize) -> Result<(), AllocError> {
    match source.line(number) {
        Some(line) if line.bytes.contains(&b'@') => page.say(ROUTE),
        _ => Ok(()),
    }
}

// The line that was refused, where nothing more is known of it.
fn say_first(page: &mut Page, source: &Source<'_>, fault: &ReadFault) -> Result<(), AllocError> {
    match *fault {
        ReadFault::BadLine(line)
        | ReadFault::BadNumber(line)
        | ReadFault::NumberTooLarge(line)
        | ReadFault::Negative(line)
        | ReadFault::BadCost(line)
        | ReadFault::BadArc(line) => {
            page.quote_number(source, line as usize)?;
            say_route(page, source, line as usize)
        }
        ReadFault::EndsEarly => {
            page.say("The file has comments alone: the heading is missing.")?;
            page.say(Place::Heading.allows())
        }
        _ => Ok(()),
    }
}
