//! The method of Gonzalez and Sahni for two machines in an open shop.
use crate::board::Board;
use crate::exchange::say_exchange;
use crate::table::Cell;
use crate::trace::{row_of, say_preemption};
use std::alloc::AllocError;
use tf_model::ids::JobId;
use tf_model::memory::OutOfMemory;
use tf_model::task::Task;
use tf_schedule::piece::Piece;

/// The two groups, the job that leads, and the pieces.
pub(crate) fn write_open_shop(
    board: &mut Board,
    task: &Task,
    pieces: &[Piece],
    value: i128,
) -> Result<(), OutOfMemory> {
    board.say(
        "Two machines in an open shop (Gonzalez and Sahni 1976): a job is early if it takes no \
         longer on machine 1 than on machine 2, and otherwise late. The job whose smaller time is \
         the greatest leads, an early one among equals.",
    )?;
    say_preemption(board, task)?;
    say_group(board, task, "Early:", true)?;
    say_group(board, task, "Late:", false)?;
    say_leader(board, task, leader_of(task))?;
    show_pieces(board, task, pieces)?;
    say_exchange(board, task, pieces, value)
}

fn is_early(task: &Task, job: JobId) -> bool {
    match row_of(task, job) {
        Some(row) => row.first <= row.second,
        None => false,
    }
}

// The smaller time of a job, and whether it is early.
fn rank_of(task: &Task, job: JobId) -> (u64, bool) {
    match row_of(task, job) {
        Some(row) => (row.first.min(row.second), row.first <= row.second),
        None => (0, false),
    }
}

fn leader_of(task: &Task) -> JobId {
    let mut leader = JobId::at(0);
    for k in 1..task.len() {
        let job = JobId::at(k);
        if rank_of(task, job) > rank_of(task, leader) {
            leader = job;
        }
    }
    leader
}

fn say_group(board: &mut Board, task: &Task, words: &str, early: bool) -> Result<(), AllocError> {
    let mut jobs = Vec::new(board.alloc);
    for k in 0..task.len() {
        let job = JobId::at(k);
        if is_early(task, job) == early {
            jobs.push(job)?;
        }
    }
    board.say_list(words, &jobs)
}

fn say_leader(board: &mut Board, task: &Task, leader: JobId) -> Result<(), AllocError> {
    let leads_early = is_early(task, leader);
    let (first, second) = if leads_early { (1, 2) } else { (2, 1) };
    let (group, others) = if leads_early {
        ("early", "late")
    } else {
        ("late", "early")
    };
    write!(
        board.text,
        "Job {} leads, and is {group}: machine {first} processes the other {group} jobs, then the \
         {others} ones, and job {} last; machine {second} starts with job {}, and then goes on in \
         the same order.",
        leader.get(),
        leader.get(),
        leader.get()
    )?;
    board.end_sentence()
}

fn show_pieces(board: &mut Board, task: &Task, pieces: &[Piece]) -> Result<(), AllocError> {
    board
        .table
        .begin(&["machine", "job", "time", "start", "C"])?;
    for (place, piece) in pieces.iter().enumerate() {
        if let Some(row) = row_of(task, piece.job) {
            let is_first = piece.machine.get() == 1;
            let time = if is_first { row.first } else { row.second };
            board.row(place, pieces.len(), &piece_cells(piece, time))?;
        }
    }
    board.show()
}

/// The machine, the job, so much time, the start and the end of a piece.
pub(crate) fn piece_cells(piece: &Piece, time: u64) -> [Cell<'static>; 5] {
    [
        Cell::Number(i128::from(piece.machine.get())),
        Cell::Number(i128::from(piece.job.get())),
        Cell::Number(i128::from(time)),
        Cell::Number(i128::from(piece.start)),
        Cell::Number(i128::from(piece.stop)),
    ]
}
