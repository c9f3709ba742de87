//! Why no schedule costs less, in sentences.
use crate::board::Board;
use crate::trace::row_of;
use std::alloc::AllocError;
use tf_check::answer::Answer;
use tf_check::certificate::Certificate;
use tf_check::split::Split;
use tf_model::ids::JobId;
use tf_model::task::Task;

/// Why no schedule costs less than the answer's.
pub(crate) fn write_certificate(
    board: &mut Board,
    task: &Task,
    answer: &Answer,
) -> Result<(), AllocError> {
    say_bound(board, task, &answer.certificate, answer.value)?;
    board.end_sentence()?;
    board.say("Hence no schedule costs less: this one is optimal.")
}

fn say_bound(
    board: &mut Board,
    task: &Task,
    certificate: &Certificate,
    value: i64,
) -> Result<(), AllocError> {
    match certificate {
        Certificate::Pairs(_) => say_pairs(board, task, i128::from(value)),
        Certificate::LastOf(last) => say_last(board, task, last.jobs.as_slice(), value),
        Certificate::Window(window) => say_window(board, task, window.jobs.as_slice()),
        Certificate::Split(split) => say_split(board, task, split),
        Certificate::Load(_) => {
            write!(
                board.text,
                "Some machine works for {value} time steps or more."
            )
        }
        Certificate::Machine(load) => {
            let machine = load.machine.get();
            write!(
                board.text,
                "All jobs together take {value} on machine {machine}."
            )
        }
        Certificate::OneJob(one) => {
            let job = one.job.get();
            write!(board.text, "Job {job} alone takes {value}.")
        }
        Certificate::Ranks(_) => write!(
            board.text,
            "In any schedule at most m processing times count once, at most m twice, and so on. \
             The sum is least where the longest count least: {value}.",
        ),
    }
}

// The processing times of some jobs together.
fn work_of(task: &Task, jobs: &[JobId]) -> u64 {
    let mut work: u64 = 0;
    for job in jobs {
        if let Some(row) = row_of(task, *job) {
            work = work.saturating_add(row.first);
        }
    }
    work
}

fn say_pairs(board: &mut Board, task: &Task, value: i128) -> Result<(), AllocError> {
    let mut own: i128 = 0;
    for k in 0..task.len() {
        let row = task.job(JobId::at(k));
        own = own.saturating_add(i128::from(row.weight).saturating_mul(i128::from(row.first)));
    }
    let waiting = value.saturating_sub(own);
    if !task.class().is_weighted() {
        return write!(
            board.text,
            "Each job waits for its own processing time: the sum of p is {own}. Of each two jobs \
             one waits for the other, which costs at least the smaller of their times, together \
             {waiting}. {own} + {waiting} = {value}."
        );
    }
    write!(
        board.text,
        "Each job waits for its own processing time: the sum of wp is {own}. Of each two jobs, \
         with w, p and w', p', one waits for the other, which costs at least the smaller of wp' \
         and w'p, together {waiting}. {own} + {waiting} = {value}."
    )
}

fn say_last(board: &mut Board, task: &Task, jobs: &[JobId], value: i64) -> Result<(), AllocError> {
    let work = work_of(task, jobs);
    if let [job] = jobs {
        return write!(
            board.text,
            "Job {} takes {work}. It completes at {work} or later, and costs at least {value} \
             then.",
            job.get()
        );
    }
    board.list("The jobs", jobs)?;
    let among = if task.class().is_ordered() {
        " has no successor among them,"
    } else {
        ""
    };
    write!(
        board.text,
        " take {work} together. The one that completes last{among} completes at {work} or later, \
         and costs at least {value} then."
    )
}

fn say_window(board: &mut Board, task: &Task, jobs: &[JobId]) -> Result<(), AllocError> {
    let work = work_of(task, jobs);
    let mut release = u64::MAX;
    let mut due = i64::MIN;
    for job in jobs {
        if let Some(row) = row_of(task, *job) {
            release = release.min(row.release);
            due = due.max(row.due);
        }
    }
    let bound = i128::from(release)
        .saturating_add(i128::from(work))
        .saturating_sub(i128::from(due));
    if let [job] = jobs {
        write!(
            board.text,
            "Job {} is released at {release}, takes {work}, and is due at {due}: ",
            job.get()
        )?;
    } else {
        board.list("The jobs", jobs)?;
        write!(
            board.text,
            " are released at {release} or later and take {work} together, and each is due at \
             {due} or earlier: "
        )?;
    }
    if due < 0 {
        write!(board.text, "{release} + {work} - ({due}) = {bound}.")
    } else {
        write!(board.text, "{release} + {work} - {due} = {bound}.")
    }
}

fn say_split(board: &mut Board, task: &Task, split: &Split) -> Result<(), AllocError> {
    let side = split.side.as_slice();
    let (first, rest) = counted(task, side);
    let delta = split.delta;
    let sum = first.saturating_add(rest).saturating_add(i128::from(delta));
    board.list("Set S:", side)?;
    board.text.push('.')?;
    board.end_sentence()?;
    let job = if split.first {
        "first job outside S that takes at least"
    } else {
        "last job of S that takes at least"
    };
    let machine = if split.first { 1 } else { 2 };
    write!(
        board.text,
        "The jobs of S count with their times on machine 1, together {first}, the others with \
         those on machine 2, together {rest}. In any order let k be the {job} {delta} on machine \
         {machine}: one after another, the jobs before k pass machine 1, k both machines, and \
         those after k machine 2. Each takes at least what it counts, and k {delta} more: \
         {first} + {rest} + {delta} = {sum}."
    )
}

// The times of these jobs on machine 1, and those of the others on machine 2.
fn counted(task: &Task, side: &[JobId]) -> (i128, i128) {
    let mut first: i128 = 0;
    let mut rest: i128 = 0;
    for k in 0..task.len() {
        rest = rest.saturating_add(i128::from(task.job(JobId::at(k)).second));
    }
    for job in side {
        if let Some(row) = row_of(task, *job) {
            first = first.saturating_add(i128::from(row.first));
            rest = rest.saturating_sub(i128::from(row.second));
        }
    }
    (first, rest)
}
