//! Smith's rule for sums of completion times on one machine.
use crate::board::{Board, Visible, shown};
use crate::table::{Cell, Table};
use crate::trace::{row_of, say_preemption};
use std::alloc::AllocError;
use tf_model::ids::JobId;
use tf_model::job_rows::JobRow;
use tf_model::task::Task;
use tf_schedule::piece::Piece;

/// The jobs by their ratios, and what each costs.
pub(crate) fn write_smith(
    board: &mut Board,
    task: &Task,
    pieces: &[Piece],
) -> Result<(), AllocError> {
    let is_weighted = task.class().is_weighted();
    board.say(if is_weighted {
        "Smith's rule (Smith 1956): one job after another without idle time, by the ratio of \
         weight w and processing time p, greatest first; of equal ratios the smaller number first."
    } else {
        "Shortest processing time first (Smith 1956): one job after another without idle time; \
         of equal times the smaller number first."
    })?;
    say_preemption(board, task)?;
    show_jobs(board, task, pieces, is_weighted)?;
    say_tie(board, task, pieces, is_weighted)
}

fn show_jobs(
    board: &mut Board,
    task: &Task,
    pieces: &[Piece],
    is_weighted: bool,
) -> Result<(), AllocError> {
    board.table.begin(if is_weighted {
        &["job", "w", "p", "w/p", "start", "C", "wC"]
    } else {
        &["job", "p", "start", "C"]
    })?;
    for (place, piece) in pieces.iter().enumerate() {
        match (shown(place, pieces.len()), row_of(task, piece.job)) {
            (Visible::Row, Some(row)) => push_job(&mut board.table, piece, row, is_weighted)?,
            (Visible::Gap, _) => board.table.gap()?,
            _ => {}
        }
    }
    board.show()
}

fn push_job(
    table: &mut Table,
    piece: &Piece,
    row: JobRow,
    is_weighted: bool,
) -> Result<(), AllocError> {
    let job = Cell::Number(i128::from(piece.job.get()));
    let time = Cell::Number(i128::from(row.first));
    let start = Cell::Number(i128::from(piece.start));
    let completion = Cell::Number(i128::from(piece.stop));
    if !is_weighted {
        return table.row(&[job, time, start, completion]);
    }
    let weight = Cell::Number(i128::from(row.weight));
    let ratio = Cell::Ratio(row.weight, row.first);
    let cost = Cell::Number(i128::from(row.weight).saturating_mul(i128::from(piece.stop)));
    table.row(&[job, weight, time, ratio, start, completion, cost])
}

// Whether another optimal schedule exchanges two neighbours.
fn say_tie(
    board: &mut Board,
    task: &Task,
    pieces: &[Piece],
    is_weighted: bool,
) -> Result<(), AllocError> {
    let Some((job, next)) = tie_in(task, pieces) else {
        return Ok(());
    };
    let same = if is_weighted { "ratios" } else { "times" };
    write!(
        board.text,
        "Jobs {job} and {next} have equal {same}: exchanged, they give another optimal schedule."
    )?;
    board.end_sentence()
}

// The first two neighbours that are equal.
fn tie_in(task: &Task, pieces: &[Piece]) -> Option<(u32, u32)> {
    for pair in pieces.windows(2) {
        if let [piece, next] = pair
            && are_equal(task, piece.job, next.job)
        {
            return Some((piece.job.get(), next.job.get()));
        }
    }
    None
}

fn are_equal(task: &Task, job: JobId, other: JobId) -> bool {
    match (row_of(task, job), row_of(task, other)) {
        (Some(job), Some(other)) => {
            let one = u128::from(job.weight).saturating_mul(u128::from(other.first));
            one == u128::from(other.weight).saturating_mul(u128::from(job.first))
        }
        _ => false,
    }
}
