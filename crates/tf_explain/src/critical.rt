//! A critical path of the schedule of a job shop or a flow shop, and how much later its other
//! operations can start.
use crate::critical_tables::push_tables;
use std::alloc::{AllocError, Global};
use tf_advice::page::Page;
use tf_bound::task::ProblemTask;
use tf_model::ids::JobId;
use tf_model::problem::{Env, Goal};
use tf_schedule::piece::Piece;
use tf_trace::board::Style;

/// The most operations of a schedule that is gone through.
const MOST_OPERATIONS: usize = 400;

/// The most operations of one of which those beside the path are listed.
const MOST_LISTED: usize = 40;

/// Why an operation does not start earlier.
#[derive(Clone, Copy)]
pub(crate) enum Reason {
    /// Its job is in this operation until then.
    Job(Piece),
    /// Its machine is in this operation until then.
    Machine(Piece),
    /// The job of this operation has to be completed before, and is so then.
    Arc(Piece),
    /// Its job is released then.
    Release,
    /// There is none.
    Idle,
}

/// An operation of a critical path.
#[derive(Clone, Copy)]
pub(crate) struct Step {
    pub operation: Piece,
    pub reason: Reason,
}

/// A critical path, and what is said beside it.
#[derive(Drop)]
pub(crate) struct Critical {
    /// In the order of time.
    pub path: Vec<Step>,
    /// The makespan or the maximum lateness.
    pub value: i64,
    /// The other operations that are listed, each with by how much it can start later.
    pub others: Vec<(Piece, i64)>,
}

/// What is said of the path.
pub(crate) const PATH: &str =
    "A critical path, each operation with the reason why it starts no earlier:";

/// What is said of a path that begins with the schedule or a release date.
pub(crate) const IS_LEAST: &str =
    "No schedule with the same order on each machine has a smaller one.";

/// What is said of the other operations.
pub(crate) const OTHERS: &str =
    "By so much can each other operation start later, with the same value:";

/// A critical path of a schedule that fits, with the reason why each of its operations does not
/// start earlier, and by how much each other operation can start later without a greater value.
/// Only of job shops and flow shops whose makespan or maximum lateness is minimized, without
/// preemption and with waiting.
pub(crate) fn explain_critical(
    page: &mut Page,
    task: &ProblemTask,
    pieces: Vec<Piece>,
    style: Style,
) -> Result<(), AllocError> {
    if !has_critical_path(task) || pieces.len() > MOST_OPERATIONS {
        return Ok(());
    }
    let mut operations = pieces;
    operations.sort_unstable_by_key(|piece| (piece.start, piece.machine.get()));
    let value = value_of(task, &operations);
    let path = path_to(page.alloc, task, &operations, value)?;
    let others = others_of(page.alloc, task, &operations, &path, value)?;
    let found = Critical {
        path,
        value,
        others,
    };
    match style {
        Style::Plain => say_critical(page, task, &found),
        Style::Latex => push_tables(page, task, &found),
    }
}

fn say_critical(page: &mut Page, task: &ProblemTask, found: &Critical) -> Result<(), AllocError> {
    say_path(page, &found.path)?;
    push_length(&mut page.text, task, found)?;
    page.text.push('\n')?;
    if found.is_tight() {
        page.say(IS_LEAST)?;
    }
    say_others(page, &found.others)
}

impl Critical {
    /// Whether the path begins with the schedule or with a release date.
    pub(crate) fn is_tight(&self) -> bool {
        match self.path.first() {
            Some(first) => !matches!(first.reason, Reason::Idle),
            None => false,
        }
    }
}

fn has_critical_path(task: &ProblemTask) -> bool {
    let problem = task.problem();
    matches!(problem.env, Env::JobShop | Env::Flow)
        && matches!(problem.goal, Goal::Cmax | Goal::Lmax)
        && !problem.prmp
        && !problem.nwt
}

// The due date of a job, 0 for the makespan.
fn due_of(task: &ProblemTask, job: JobId) -> i64 {
    if job.place() < task.len() {
        task.due(job)
    } else {
        0
    }
}

// By how much an operation ends behind the due date of its job.
fn lateness_of(task: &ProblemTask, operation: &Piece) -> i64 {
    operation.stop.saturating_sub(due_of(task, operation.job))
}

// The makespan or the maximum lateness.
fn value_of(task: &ProblemTask, operations: &[Piece]) -> i64 {
    let mut value = i64::MIN;
    for operation in operations {
        value = value.max(lateness_of(task, operation));
    }
    value
}

// Whether an arc leads from one job to the other.
fn is_before(task: &ProblemTask, first: JobId, second: JobId) -> bool {
    task.problem().prec && task.arcs().contains(&(first, second))
}

// ---- the path

// A critical path to an operation that has the value, in the order of time.
fn path_to(
    alloc: Global,
    task: &ProblemTask,
    operations: &[Piece],
    value: i64,
) -> Result<Vec<Step>, AllocError> {
    let mut path = Vec::new(alloc);
    let mut next = operations
        .iter()
        .find(|piece| lateness_of(task, piece) == value)
        .copied();
    for _ in 0..operations.len() {
        let Some(operation) = next else {
            break;
        };
        let reason = reason_of(task, operations, &operation);
        next = before(&reason);
        path.push(Step { operation, reason })?;
    }
    path.reverse();
    Ok(path)
}

// The operation that a reason names.
fn before(reason: &Reason) -> Option<Piece> {
    match reason {
        Reason::Job(piece) | Reason::Machine(piece) | Reason::Arc(piece) => Some(*piece),
        Reason::Release | Reason::Idle => None,
    }
}

fn reason_of(task: &ProblemTask, operations: &[Piece], operation: &Piece) -> Reason {
    for other in operations {
        if other.stop == operation.start && other.job == operation.job {
            return Reason::Job(*other);
        }
    }
    for other in operations {
        if other.stop == operation.start && other.machine == operation.machine {
            return Reason::Machine(*other);
        }
    }
    for other in operations {
        if other.stop == operation.start && is_before(task, other.job, operation.job) {
            return Reason::Arc(*other);
        }
    }
    if is_released(task, operation) {
        Reason::Release
    } else {
        Reason::Idle
    }
}

// Whether an operation starts at the release date of its job.
fn is_released(task: &ProblemTask, operation: &Piece) -> bool {
    operation.job.place() < task.len() && operation.start == task.release(operation.job) as i64
}

fn say_path(page: &mut Page, path: &[Step]) -> Result<(), AllocError> {
    page.say(PATH)?;
    for step in path {
        push_operation(page, &step.operation)?;
        push_reason(&mut page.text, step)?;
        page.text.push('\n')?;
    }
    Ok(())
}

fn push_operation(page: &mut Page, operation: &Piece) -> Result<(), AllocError> {
    let (job, machine) = (operation.job.get(), operation.machine.get());
    let (start, stop) = (operation.start, operation.stop);
    write!(
        page.text,
        "    job {job} on machine {machine} from {start} to {stop}: "
    )
}

/// Adds why an operation does not start earlier.
pub(crate) fn push_reason(text: &mut String, step: &Step) -> Result<(), AllocError> {
    let start = step.operation.start;
    match step.reason {
        Reason::Job(before) => {
            let machine = before.machine.get();
            write!(text, "the job is on machine {machine} until {start}")
        }
        Reason::Machine(before) => {
            let job = before.job.get();
            write!(text, "the machine is busy with job {job} until {start}")
        }
        Reason::Arc(before) => {
            let job = before.job.get();
            write!(text, "job {job} is completed at {start}")
        }
        Reason::Release if start == 0 => text.push_str("the schedule begins"),
        Reason::Release => write!(text, "the job is released at {start}"),
        Reason::Idle => text.push_str("no reason: it can start earlier"),
    }
}

/// Adds how long the path is, against the value.
pub(crate) fn push_length(
    text: &mut String,
    task: &ProblemTask,
    found: &Critical,
) -> Result<(), AllocError> {
    let (Some(first), Some(last)) = (found.path.first(), found.path.last()) else {
        return Ok(());
    };
    let (start, stop) = (first.operation.start, last.operation.stop);
    if !matches!(task.problem().goal, Goal::Lmax) {
        return write!(text, "It lasts from {start} to {stop}, the makespan.");
    }
    let (job, due) = (last.operation.job.get(), due_of(task, last.operation.job));
    let value = found.value;
    write!(
        text,
        "It lasts from {start} to {stop}. Job {job} is due at {due}, so the maximum lateness is \
         {value}."
    )
}

// ---- the other operations

// The latest start of each operation with which no operation that has to follow is later than it
// may be for the value.
fn latest_starts(
    alloc: Global,
    task: &ProblemTask,
    operations: &[Piece],
    value: i64,
) -> Result<Vec<i64>, AllocError> {
    let mut latest = vec![in alloc; 0i64; operations.len()]?;
    for k in (0..operations.len()).rev() {
        let start = latest_start(task, &operations[k..], &latest[k..], value);
        latest[k] = start;
    }
    Ok(latest)
}

// That of the first of these operations, where those of the others are known.
fn latest_start(task: &ProblemTask, operations: &[Piece], latest: &[i64], value: i64) -> i64 {
    let Some(first) = operations.first() else {
        return 0;
    };
    let mut stop = value.saturating_add(due_of(task, first.job));
    for (other, start) in operations.iter().zip(latest).skip(1) {
        if has_to_follow(task, first, other) {
            stop = stop.min(*start);
        }
    }
    stop.saturating_sub(first.stop.saturating_sub(first.start))
}

// Whether an operation that starts later has to follow this one.
fn has_to_follow(task: &ProblemTask, first: &Piece, later: &Piece) -> bool {
    first.job == later.job
        || first.machine == later.machine
        || is_before(task, first.job, later.job)
}

// The operations beside the path, each with by how much it can start later; none where there are
// too many of them.
fn others_of(
    alloc: Global,
    task: &ProblemTask,
    operations: &[Piece],
    path: &[Step],
    value: i64,
) -> Result<Vec<(Piece, i64)>, AllocError> {
    let mut others = Vec::new(alloc);
    if operations.len() > MOST_LISTED {
        return Ok(others);
    }
    let latest = latest_starts(alloc, task, operations, value)?;
    for (operation, latest) in operations.iter().zip(&latest) {
        if !path.iter().any(|step| step.operation == *operation) {
            others.push((*operation, latest.saturating_sub(operation.start)))?;
        }
    }
    Ok(others)
}

fn say_others(page: &mut Page, others: &[(Piece, i64)]) -> Result<(), AllocError> {
    if others.is_empty() {
        return Ok(());
    }
    page.say(OTHERS)?;
    for (operation, slack) in others {
        push_operation(page, operation)?;
        writeln!(page.text, "{slack}")?;
    }
    Ok(())
}
