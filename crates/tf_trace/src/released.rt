//! Horn's rule for release dates, preemption and the greatest lateness on one machine.
use crate::board::{Board, Visible, shown};
use crate::exchange::say_exchange;
use crate::shortened::Shortened;
use crate::table::Cell;
use std::alloc::{AllocError, Global};
use tf_model::ids::JobId;
use tf_model::memory::OutOfMemory;
use tf_model::task::Task;
use tf_schedule::piece::Piece;

/// Each time at which a job starts or goes on, and who waits there.
pub(crate) fn write_released(
    board: &mut Board,
    task: &Task,
    pieces: &[Piece],
    value: i128,
) -> Result<(), OutOfMemory> {
    board.say(
        "Earliest due date first, with preemption (Horn 1974): at each time the released \
         unfinished job with the earliest due date d is processed, the smaller number among \
         equals.",
    )?;
    let ends = ends_of(board.alloc, task, pieces)?;
    show_events(board, task, pieces, &ends)?;
    show_jobs(board, task, &ends)?;
    say_exchange(board, task, pieces, value)
}

// The completion times, job by job.
fn ends_of(alloc: Global, task: &Task, pieces: &[Piece]) -> Result<Vec<i64>, AllocError> {
    let mut ends = Vec::with_capacity(alloc, task.len())?;
    for _ in 0..task.len() {
        ends.push(0)?;
    }
    for piece in pieces {
        if let Some(end) = ends.get_mut(piece.job.place()) {
            *end = piece.stop.max(*end);
        }
    }
    Ok(ends)
}

fn show_events(
    board: &mut Board,
    task: &Task,
    pieces: &[Piece],
    ends: &[i64],
) -> Result<(), AllocError> {
    board.table.begin_ragged(&[
        "from",
        "to",
        "job",
        "then",
        "released and unfinished: job (d)",
    ])?;
    for (place, piece) in pieces.iter().enumerate() {
        match shown(place, pieces.len()) {
            Visible::Row => push_event(board, task, ends, piece)?,
            Visible::Gap => board.table.gap()?,
            Visible::Hidden => {}
        }
    }
    board.show()
}

fn push_event(
    board: &mut Board,
    task: &Task,
    ends: &[i64],
    piece: &Piece,
) -> Result<(), AllocError> {
    let waiting = waiting_at(board.alloc, task, ends, piece)?;
    let is_done = ends.get(piece.job.place()) == Some(&piece.stop);
    board.table.row(&[
        Cell::Number(i128::from(piece.start)),
        Cell::Number(i128::from(piece.stop)),
        Cell::Number(i128::from(piece.job.get())),
        Cell::Words(if is_done { "done" } else { "interrupted" }),
        Cell::Words(waiting.as_str()),
    ])
}

// The jobs that are released and unfinished where a piece starts, with their due dates.
fn waiting_at(
    alloc: Global,
    task: &Task,
    ends: &[i64],
    piece: &Piece,
) -> Result<String, AllocError> {
    let mut list = Shortened::new(alloc, piece.job);
    for k in 0..task.len() {
        let job = JobId::at(k);
        let row = task.job(job);
        let is_done = matches!(ends.get(k), Some(end) if *end <= piece.start);
        if !is_done && i128::from(row.release) <= i128::from(piece.start) {
            list.push(job, i128::from(row.due))?;
        }
    }
    list.into_text()
}

fn show_jobs(board: &mut Board, task: &Task, ends: &[i64]) -> Result<(), AllocError> {
    board.table.begin(&["job", "p", "r", "d", "C", "C - d"])?;
    for k in 0..task.len() {
        let job = JobId::at(k);
        let row = task.job(job);
        if let Some(end) = ends.get(k) {
            let cells = [
                Cell::Number(i128::from(job.get())),
                Cell::Number(i128::from(row.first)),
                Cell::Number(i128::from(row.release)),
                Cell::Number(i128::from(row.due)),
                Cell::Number(i128::from(*end)),
                Cell::Number(i128::from(*end) - i128::from(row.due)),
            ];
            board.row(k, task.len(), &cells)?;
        }
    }
    board.show()
}
