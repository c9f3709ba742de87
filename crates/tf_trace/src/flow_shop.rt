//! Johnson's rule for two machines in a flow shop.
use crate::board::{Board, MOST_ROWS};
use crate::exchange::say_tie;
use crate::table::Cell;
use crate::trace::{row_of, say_preemption};
use std::alloc::{AllocError, Global};
use tf_model::ids::JobId;
use tf_model::job_rows::JobRow;
use tf_model::task::Task;

/// The two sets, the order, and when each job is on each machine.
pub(crate) fn write_johnson(board: &mut Board, task: &Task) -> Result<(), AllocError> {
    board.say(
        "Johnson's rule (Johnson 1954): first the jobs that take no longer on machine 1 than on \
         machine 2, by rising time a on machine 1; then the others, by falling time b on machine \
         2; of equal times the smaller number first.",
    )?;
    say_preemption(board, task)?;
    let order = order_of(board.alloc, task)?;
    let early = order.iter().take_while(|job| is_early(task, **job)).count();
    board.say_list("First:", order.get(..early).unwrap_or(&[]))?;
    board.say_list("Then:", order.get(early..).unwrap_or(&[]))?;
    show_times(board, task, &order)?;
    say_tie(board, tie_in(task, &order))
}

// The first two neighbours, of the first ones, that another optimal schedule exchanges.
fn tie_in(task: &Task, order: &[JobId]) -> Option<(JobId, JobId)> {
    let makespan = makespan_exchanged(task, order, order.len());
    let first = order.get(..=MOST_ROWS).unwrap_or(order);
    for (place, pair) in first.windows(2).enumerate() {
        if let [job, next] = pair
            && makespan_exchanged(task, order, place) == makespan
        {
            return Some((*job, *next));
        }
    }
    None
}

// When the jobs are done in this order, but with the one at a place, if it is there, behind the
// next one.
fn makespan_exchanged(task: &Task, order: &[JobId], place: usize) -> u64 {
    let mut front = Front {
        first: 0,
        second: 0,
    };
    let mut held = None;
    for (k, job) in order.iter().enumerate() {
        if k == place {
            held = row_of(task, *job);
            continue;
        }
        if let Some(row) = row_of(task, *job) {
            front = front.behind(row).0;
        }
        if let Some(row) = held {
            front = front.behind(row).0;
            held = None;
        }
    }
    front.second
}

// Whether a job takes no longer on machine 1.
fn is_early(task: &Task, job: JobId) -> bool {
    match row_of(task, job) {
        Some(row) => row.first <= row.second,
        None => false,
    }
}

// The jobs in their order, those first that take no longer on machine 1.
fn order_of(alloc: Global, task: &Task) -> Result<Vec<JobId>, AllocError> {
    let mut keyed: Vec<(bool, u64, JobId)> = Vec::new(alloc);
    for k in 0..task.len() {
        let job = JobId::at(k);
        let row = task.job(job);
        keyed.push(if row.first <= row.second {
            (false, row.first, job)
        } else {
            (true, u64::MAX - row.second, job)
        })?;
    }
    keyed.sort_unstable();
    let mut jobs = Vec::with_capacity(alloc, keyed.len())?;
    for (_, _, job) in keyed.iter() {
        jobs.push(*job)?;
    }
    Ok(jobs)
}

// When the work so far ends on each machine.
#[derive(Clone, Copy)]
struct Front {
    first: u64,
    second: u64,
}

impl Front {
    // Behind one job more, and when that starts on machine 2.
    fn behind(self, row: JobRow) -> (Front, u64) {
        let first = self.first.saturating_add(row.first);
        let start = first.max(self.second);
        let second = start.saturating_add(row.second);
        (Front { first, second }, start)
    }
}

fn show_times(board: &mut Board, task: &Task, order: &[JobId]) -> Result<(), AllocError> {
    board.table.begin(&[
        "job", "a", "b", "from 1", "to 1", "idle 2", "from 2", "to 2",
    ])?;
    let mut front = Front {
        first: 0,
        second: 0,
    };
    for (place, job) in order.iter().enumerate() {
        let Some(row) = row_of(task, *job) else {
            break;
        };
        let (next, start) = front.behind(row);
        let cells = [
            Cell::Number(i128::from(job.get())),
            Cell::Number(i128::from(row.first)),
            Cell::Number(i128::from(row.second)),
            Cell::Number(i128::from(front.first)),
            Cell::Number(i128::from(next.first)),
            Cell::Number(i128::from(start.saturating_sub(front.second))),
            Cell::Number(i128::from(start)),
            Cell::Number(i128::from(next.second)),
        ];
        board.row(place, order.len(), &cells)?;
        front = next;
    }
    board.show()
}
