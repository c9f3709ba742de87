//! What may be said of a run that is over.
use crate::answer::{explain_answer, explain_pieces};
use crate::critical::explain_critical;
use crate::refusal::{class_in, explain_refusal};
use crate::text::explain_text;
use crate::verdict::{Case, explain_unfit, explain_verdict};
use crate::worked::explain_rule;
use std::alloc::{AllocError, Global};
use std::io;
use tf_advice::cycle::explain_cycle;
use tf_advice::notation::explain_notation;
use tf_advice::page::{Page, escape};
use tf_advice::piece_lines::say_zero;
use tf_advice::source::Source;
use tf_advice::tardiness::explain_rest;
use tf_advice::unused::{Said, explain_unused};
use tf_bounding::instance_read::task_read;
use tf_engine::fault::RunFault;
use tf_engine::request::{Form, Request};
use tf_engine::run_check::Checked;
use tf_evaluate::evaluation::WhyUnfit;
use tf_model::problem::{Env, Goal};
use tf_notation::reading::read;
use tf_read::fault::ReadFault;
use tf_schedule::piece::Piece;
use tf_text::answer::fault::AnswerFault;
use tf_text::answer::reading::read_answer;
use tf_text::counted::Counted;
use tf_trace::board::Style;

/// What is said of an answer at fault whose text was not kept.
const NOT_KEPT: &str = "\
The answer is not explained: it is longer than 24 MiB, or there was no memory to keep
its text beside the instance.";

/// What is said of an order that stands where a file is wanted.
const IS_ORDER: &str = "\
This looks like an order of the jobs, and a file is wanted here: \"threefield evaluate\"
takes an order in place of ANSWER as --order \"3 1 2\".";

/// What is said of an answer that is longer than a text may be.
const TOO_LONG: &str = "The answer is longer than 67108864 bytes, the most that a text may have.";

/// What a solved problem did not use of its instance, and nothing where it used all of it.
///
/// # Errors
///
/// There was no memory.
pub fn solved(
    alloc: Global,
    request: &Request,
    instance: &Source<'_>,
) -> Result<String, AllocError> {
    let mut page = Page::new(alloc);
    say_unused(alloc, &mut page, request, instance)?;
    Ok(page.text)
}

fn say_unused(
    alloc: Global,
    page: &mut Page,
    request: &Request,
    instance: &Source<'_>,
) -> Result<(), AllocError> {
    if let Form::Wt { jobs, .. } = request.form {
        explain_rest(page, instance, jobs)?;
    }
    let problem = request.problem.as_str();
    match class_in(problem) {
        Some(class) => {
            let problem = escape(alloc, problem)?;
            let said = said_by(&request.form, instance);
            explain_unused(page, problem.as_str(), class, request.machines, &said)
        }
        None => Ok(()),
    }
}

// What an instance says that was read in this form.
fn said_by(form: &Form, instance: &Source<'_>) -> Said {
    match form {
        Form::Table => Said::of_table(instance),
        Form::Wt { jobs, .. } => Said::of_tardiness(*jobs as usize),
        Form::Flow { .. } => Said::times_alone(),
    }
}

/// What is wrong and how to fix it, where a run over an instance, and perhaps an answer, was
/// refused. There is no answer where the run had none, or its text was not kept.
///
/// # Errors
///
/// There was no memory.
pub fn refused(
    alloc: Global,
    fault: &RunFault,
    request: &Request,
    instance: &Source<'_>,
    answer: Option<&Source<'_>>,
) -> Result<String, AllocError> {
    let mut page = Page::new(alloc);
    match answer {
        Some(answer) if is_of_answer(fault) => say_undrawn(&mut page, fault, answer)?,
        _ => say_refused(&mut page, fault, request, instance)?,
    }
    Ok(page.text)
}

// Whether a run was refused for its answer.
fn is_of_answer(fault: &RunFault) -> bool {
    matches!(fault, RunFault::Answer(_) | RunFault::Pieces(_))
}

fn say_refused(
    page: &mut Page,
    fault: &RunFault,
    request: &Request,
    instance: &Source<'_>,
) -> Result<(), AllocError> {
    let alloc = page.alloc;
    match fault {
        RunFault::Notation(fault) => {
            explain_notation(alloc, page, request.problem.as_str(), fault.byte)
        }
        RunFault::Text(fault) => explain_text(alloc, page, instance, &request.form, fault),
        RunFault::Task(refusal) => explain_refusal(alloc, page, request, instance, refusal),
        RunFault::Cycle(jobs) => explain_cycle(page, instance, jobs.as_slice()),
        RunFault::Device => say_output(page),
        RunFault::Answer(AnswerFault::TooLong) => page.say(TOO_LONG),
        RunFault::Answer(_) | RunFault::Pieces(_) => page.say(NOT_KEPT),
        RunFault::OutOfMemory => Ok(()),
    }
}

/// A line that is no order or no piece, and what such a line is.
///
/// # Errors
///
/// There was no memory.
pub fn not_a_line(
    alloc: Global,
    source: &Source<'_>,
    number: u32,
    wanted: &str,
) -> Result<String, AllocError> {
    let mut page = Page::new(alloc);
    page.quote_number(source, number as usize)?;
    page.text.push_str(wanted)?;
    if let Some(line) = source.line(number as usize) {
        say_zero(&mut page, &line)?;
    }
    Ok(page.text)
}

/// What is wrong with an answer that was not read or not drawn.
///
/// # Errors
///
/// There was no memory.
pub fn not_drawn(
    alloc: Global,
    fault: &RunFault,
    answer: &Source<'_>,
) -> Result<String, AllocError> {
    let mut page = Page::new(alloc);
    say_undrawn(&mut page, fault, answer)?;
    Ok(page.text)
}

fn say_undrawn(page: &mut Page, fault: &RunFault, answer: &Source<'_>) -> Result<(), AllocError> {
    match fault {
        RunFault::Answer(fault) => explain_answer(page, answer, fault),
        RunFault::Pieces(fault) => explain_pieces(page, answer, fault),
        RunFault::Device => say_output(page),
        _ => Ok(()),
    }
}

// A source that failed is named before, so the device was that of the output.
fn say_output(page: &mut Page) -> Result<(), AllocError> {
    page.say("Standard output failed: the disk is full, or the reader closed the pipe.")
}

/// What is wrong with a job table by itself.
///
/// # Errors
///
/// There was no memory.
pub fn not_listed(
    alloc: Global,
    fault: &ReadFault,
    table: &Source<'_>,
) -> Result<String, AllocError> {
    not_an_instance(alloc, fault, &Form::Table, table)
}

/// What is wrong with an instance of this form by itself.
///
/// # Errors
///
/// There was no memory.
pub fn not_an_instance(
    alloc: Global,
    fault: &ReadFault,
    form: &Form,
    instance: &Source<'_>,
) -> Result<String, AllocError> {
    let mut page = Page::new(alloc);
    explain_text(alloc, &mut page, instance, form, fault)?;
    Ok(page.text)
}

/// Why an answer was rejected, with the numbers, if its text was kept; where it was accepted, what
/// the problem did not use of the instance.
///
/// # Errors
///
/// There was no memory.
pub fn checked(
    alloc: Global,
    checked: &Checked,
    request: &Request,
    instance: &Source<'_>,
    answer: Option<&Source<'_>>,
) -> Result<String, AllocError> {
    let mut page = Page::new(alloc);
    match (checked, answer) {
        (Checked::Accepted, _) => say_unused(alloc, &mut page, request, instance)?,
        (_, None) => page.say(NOT_KEPT)?,
        (_, Some(answer)) => {
            let case = Case {
                alloc,
                request,
                instance: *instance,
                answer: *answer,
            };
            explain_verdict(&mut page, &case, checked)?;
        }
    }
    Ok(page.text)
}

/// Why an answer or a schedule that was evaluated does not fit, if its text was kept.
///
/// # Errors
///
/// There was no memory.
pub fn unfit(
    alloc: Global,
    why: &WhyUnfit,
    request: &Request,
    instance: &Source<'_>,
    answer: Option<&Source<'_>>,
) -> Result<String, AllocError> {
    let mut page = Page::new(alloc);
    match answer {
        None => page.say(NOT_KEPT)?,
        Some(answer) => {
            let case = Case {
                alloc,
                request,
                instance: *instance,
                answer: *answer,
            };
            explain_unfit(&mut page, &case, why)?;
        }
    }
    Ok(page.text)
}

/// The working of the rule that gives the optimum of the problem, and a critical path of an answer
/// that was evaluated and fits, in a job shop or a flow shop, where the answer's text was kept.
///
/// # Errors
///
/// There was no memory.
pub fn fit(
    alloc: Global,
    request: &Request,
    instance: &Source<'_>,
    answer: Option<&Source<'_>>,
    style: Style,
) -> Result<String, AllocError> {
    match answer {
        Some(answer) if may_have_working(request) => {
            match read_answer(alloc, answer.text) {
                Ok(sheet) => {
                    let pieces = sheet.into_answer().pieces.into_vec();
                    fit_pieces(alloc, request, instance, pieces, style)
                }
                Err(_) => Ok(String::new(alloc)),
            }
        }
        _ => Ok(String::new(alloc)),
    }
}

/// The same of the schedule of an order, or of a text with these pieces, of a problem that
/// [`may_have_working`].
///
/// # Errors
///
/// There was no memory.
pub fn fit_pieces(
    alloc: Global,
    request: &Request,
    instance: &Source<'_>,
    pieces: Vec<Piece>,
    style: Style,
) -> Result<String, AllocError> {
    let mut page = Page::new(alloc);
    if let Ok(task) = task_read(alloc, request, &mut Counted::new(instance.text)) {
        explain_rule(&mut page, &task, style)?;
        explain_critical(&mut page, &task, pieces, style)?;
    }
    Ok(page.text)
}

/// Whether the operations of a job follow one another, or a rule may give the optimum.
pub fn may_have_working(request: &Request) -> bool {
    match read(request.problem.as_str().as_bytes()) {
        Ok(problem) => {
            matches!(problem.env, Env::JobShop | Env::Flow)
                || matches!(problem.goal, Goal::SumU | Goal::SumC)
        }
        Err(_) => false,
    }
}

/// Why the schedule of an order, of these pieces, does not fit.
///
/// # Errors
///
/// There was no memory.
pub fn unfit_order(
    alloc: Global,
    why: &WhyUnfit,
    request: &Request,
    instance: &Source<'_>,
    pieces: &[Piece],
) -> Result<String, AllocError> {
    let text = piece_lines(alloc, pieces)?;
    let schedule = Source {
        name: "the schedule of the order",
        text: text.as_bytes(),
    };
    unfit(alloc, why, request, instance, Some(&schedule))
}

// A line for each piece.
fn piece_lines(alloc: Global, pieces: &[Piece]) -> Result<String, AllocError> {
    let mut text = String::new(alloc);
    for piece in pieces {
        let (job, machine) = (piece.job.get(), piece.machine.get());
        let (start, stop) = (piece.start, piece.stop);
        writeln!(text, "piece {job} {machine} {start} {stop}")?;
    }
    Ok(text)
}

/// Which source failed, and the system's reason.
///
/// # Errors
///
/// There was no memory.
pub fn not_read(alloc: Global, name: &str, error: &io::Error) -> Result<String, AllocError> {
    let mut page = Page::new(alloc);
    Source { name, text: b"" }.push_title(&mut page.text)?;
    writeln!(page.text, ": {error}")?;
    if is_order(name) {
        page.say(IS_ORDER)?;
    }
    Ok(page.text)
}

// Whether a name is numbers with commas or spaces between them.
fn is_order(name: &str) -> bool {
    let is_mark = |byte: &u8| matches!(byte, b',' | b' ' | b'/');
    let bytes = name.as_bytes();
    bytes.iter().any(|byte| matches!(byte, b',' | b' '))
        && bytes.first().is_some_and(|byte| byte.is_ascii_digit())
        && bytes
            .iter()
            .all(|byte| byte.is_ascii_digit() || is_mark(byte))
}
