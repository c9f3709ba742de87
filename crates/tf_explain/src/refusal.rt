//! Why an instance is no task of a problem.
use crate::instance::instance_in;
use std::alloc::{AllocError, Global};
use tf_advice::notation::explain_unsolved;
use tf_advice::page::{Page, push_name};
use tf_advice::source::Source;
use tf_advice::unused::{count, letter_of};
use tf_engine::request::{Form, Request};
use tf_model::class::{Class, class_of};
use tf_model::ids::JobId;
use tf_model::instance::Instance;
use tf_model::limit::{LIMIT, MOST_COSTED_JOBS};
use tf_model::prepare::{Field, Refusal};
use tf_model::problem::{Env, Problem};
use tf_notation::reading::read;
use tf_notation::writing::notation_text;

/// Why the source's instance is no task of what was asked for.
pub(crate) fn explain_refusal(
    alloc: Global,
    page: &mut Page,
    request: &Request,
    source: &Source<'_>,
    refusal: &Refusal,
) -> Result<(), AllocError> {
    let problem = request.problem.as_str();
    match *refusal {
        Refusal::NoSolver => explain_unsolved(alloc, page, problem),
        Refusal::TooManyJobs => {
            push_name(&mut page.text, problem)?;
            writeln!(
                page.text,
                " gives each job a cost of its own: at most {MOST_COSTED_JOBS} jobs."
            )
        }
        Refusal::MachinesMissing => page.say_of(problem, NO_MACHINES),
        Refusal::MachinesDisagree => say_machines(alloc, page, request, source),
        Refusal::MachineCount(m) => say_count(alloc, page, request, m),
        Refusal::WrongTimes(job) => say_times(page, request, source, job),
        Refusal::MissingField(job, field) => say_field(page, request, source, job, field),
        Refusal::ZeroTime(job) => {
            quote_job(page, request, source, job)?;
            page.say(ZERO_TIME)
        }
        Refusal::TotalTooLarge => {
            writeln!(
                page.text,
                "All times together, or times by weights, are above {LIMIT}.\n\
                 Take a coarser unit of time or of weight."
            )?;
            if matches!(request.form, Form::Flow { pair: None, .. }) {
                page.say(TOO_LARGE_A_SHOP)?;
            }
            Ok(())
        }
        Refusal::OutOfMemory => Ok(()),
    }
}

/// Why a shop on all machines of a flow shop file may be too large.
const TOO_LARGE_A_SHOP: &str = "\
Or the shop has more than 2000000 times, or its file, which is read once for each
machine, is too long: put the instance into a file of its own.";

const NO_MACHINES: &str = " needs a number of machines, and no place gives one.
Write it in the notation, as in P3 or F2, as --machines 3, or as a line \"machines 3\".";

const ZERO_TIME: &str = "\
A time is at least 1, except that of an operation of a shop.
Leave the job out, or count it as 1.";

/// What is known of a shop of one machine without a solver.
const ONE_MACHINE: &str =
    "On one machine the makespan is the same in every order without idle time.";

// Another number of machines than the two of a shop.
fn say_count(
    alloc: Global,
    page: &mut Page,
    request: &Request,
    machines: u32,
) -> Result<(), AllocError> {
    writeln!(
        page.text,
        "Shops are solved on two machines, and here are {machines}."
    )?;
    if machines <= 2 {
        return page.say(ONE_MACHINE);
    }
    page.say("Take two machines of a flow shop file with --pair, as in --pair 0,2.")?;
    match request.form {
        Form::Flow { .. } => say_all_machines(alloc, page, request, machines),
        _ => Ok(()),
    }
}

// The problem of a shop on all machines of a flow shop file, which has lower bounds.
fn say_all_machines(
    alloc: Global,
    page: &mut Page,
    request: &Request,
    machines: u32,
) -> Result<(), AllocError> {
    let Ok(problem) = read(request.problem.as_str().as_bytes()) else {
        return Ok(());
    };
    let shop = Problem {
        count: Some(machines),
        ..problem
    };
    let Ok(notation) = notation_text(alloc, &shop) else {
        return Err(AllocError);
    };
    let notation = notation.as_str();
    writeln!(
        page.text,
        "\"threefield bound\" and \"threefield evaluate\" take all of them, as {notation}."
    )
}

// The line of a job, where the instance is a table: other files have no line for each.
fn quote_job(
    page: &mut Page,
    request: &Request,
    source: &Source<'_>,
    job: JobId,
) -> Result<(), AllocError> {
    if !matches!(request.form, Form::Table) {
        return Ok(());
    }
    match source.job_line(page.alloc, job.get())? {
        Some(line) => page.quote(source, &line, None),
        None => Ok(()),
    }
}

// The number of machines in each place that gives one.
fn say_machines(
    alloc: Global,
    page: &mut Page,
    request: &Request,
    source: &Source<'_>,
) -> Result<(), AllocError> {
    page.say("The number of machines is given in two places, and they disagree:")?;
    say_asked_machines(page, request)?;
    let in_file = machines_in(alloc, request, source);
    if let Some(m) = in_file {
        write!(page.text, "    {m} in ")?;
        page.say_of_source(source, "")?;
    }
    match (&request.form, in_file) {
        (Form::Flow { .. }, Some(m)) => say_flow_machines(page, request, m),
        _ => page.say("Leave out all but one."),
    }
}

fn say_asked_machines(page: &mut Page, request: &Request) -> Result<(), AllocError> {
    if let Ok(problem) = read(request.problem.as_str().as_bytes())
        && let Some(m) = problem.count
    {
        writeln!(page.text, "    {m} in the notation")?;
    }
    match request.machines {
        Some(m) => writeln!(page.text, "    {m} by --machines"),
        None => Ok(()),
    }
}

// The number of machines that the file gives.
fn machines_in(alloc: Global, request: &Request, source: &Source<'_>) -> Option<u32> {
    instance_in(alloc, &request.form, source)?.machines()
}

// What to do about a flow shop file of this number of machines.
fn say_flow_machines(page: &mut Page, request: &Request, machines: u32) -> Result<(), AllocError> {
    if machines == 2 || !is_solved_shop(request) {
        page.say("A flow shop file always gives this number: leave it out in the other places.")
    } else if machines > 2 {
        page.say("Take two machines of the file with --pair, as in --pair 0,2.")
    } else {
        page.say("The file has one machine, and shops are solved on two.")?;
        page.say(ONE_MACHINE)
    }
}

// Whether the problem is one of a shop.
fn is_shop(request: &Request) -> bool {
    read(request.problem.as_str().as_bytes()).is_ok_and(|problem| problem.env.is_shop())
}

// Whether the problem is one of a job shop.
fn is_job_shop(request: &Request) -> bool {
    read(request.problem.as_str().as_bytes()).is_ok_and(|problem| matches!(
        problem.env,
        Env::JobShop
    ))
}

// Whether the problem is of a class of shops, which have two machines.
fn is_solved_shop(request: &Request) -> bool {
    read(request.problem.as_str().as_bytes()).is_ok_and(|problem| problem.env.is_shop()
        && class_of(&problem).is_some())
}

fn say_times(
    page: &mut Page,
    request: &Request,
    source: &Source<'_>,
    job: JobId,
) -> Result<(), AllocError> {
    quote_job(page, request, source, job)?;
    let sentence = if is_job_shop(request) {
        ROUTE
    } else if is_shop(request) {
        " is a shop: a job has two times, as in p=3,4."
    } else if matches!(request.form, Form::Table) {
        TWO_TIMES
    } else {
        ONE_TIME
    };
    page.say_of(request.problem.as_str(), sentence)
}

const ROUTE: &str = " is a job shop: a job has a route, as in p=3@2,5@1.
It is for 3 time steps on machine 2 and then for 5 on machine 1, and no machine
is beyond the number of machines.";

const ONE_TIME: &str = " is no shop: a job has one time, as in p=3.";

const TWO_TIMES: &str = " is no shop: a job has one time, as in p=3.
p=3,5 is two times of a shop, and not three and a half: all numbers are whole.";

fn say_field(
    page: &mut Page,
    request: &Request,
    source: &Source<'_>,
    job: JobId,
    field: Field,
) -> Result<(), AllocError> {
    quote_job(page, request, source, job)?;
    push_name(&mut page.text, request.problem.as_str())?;
    let (letter, name) = letter_of(field);
    writeln!(page.text, " needs {letter} (the {name}) of each job.")?;
    match instance_in(page.alloc, &request.form, source) {
        Some(instance) => say_lacking(page, &request.form, &instance, field),
        None => Ok(()),
    }
}

// How many jobs lack a field, and what to do if it is all of them.
fn say_lacking(
    page: &mut Page,
    form: &Form,
    instance: &Instance,
    field: Field,
) -> Result<(), AllocError> {
    let jobs = instance.len();
    let lacking = jobs.saturating_sub(count(instance.jobs(), field));
    let (letter, _) = letter_of(field);
    writeln!(page.text, "Jobs without {letter}: {lacking} of {jobs}.")?;
    if lacking < jobs {
        return Ok(());
    }
    page.say(match form {
        Form::Table => {
            "Or name a problem that the table has the fields for: \"threefield problems FILE\"."
        }
        Form::Wt { .. } => {
            "A weighted tardiness file has times, weights and due dates, and no other field."
        }
        Form::Flow { .. } => "A flow shop file has processing times, and no other field.",
    })
}

/// The class of a problem line, if it is of one.
pub(crate) fn class_in(problem: &str) -> Option<Class> {
    class_of(&read(problem.as_bytes()).ok()?)
}
