//! Other optimal schedules, by exchanging two neighbours on a machine.
use crate::board::{Board, MOST_ROWS};
use std::alloc::{AllocError, Global};
use tf_model::ids::JobId;
use tf_model::memory::OutOfMemory;
use tf_model::task::Task;
use tf_schedule::judge::judge;
use tf_schedule::piece::Piece;
use tf_schedule::schedule::Schedule;

/// Says which two neighbouring pieces may be exchanged, the first such pair, where the schedule
/// then still fits and costs the same. Longer schedules than the tables show are not looked at.
pub(crate) fn say_exchange(
    board: &mut Board,
    task: &Task,
    pieces: &[Piece],
    value: i128,
) -> Result<(), OutOfMemory> {
    if pieces.len() > MOST_ROWS {
        return Ok(());
    }
    if let Some((piece, next)) = exchange_in(board.alloc, task, pieces, value)? {
        say_pieces(board, &piece, next.job)?;
    }
    Ok(())
}

// The first two neighbouring pieces that may be exchanged.
fn exchange_in(
    alloc: Global,
    task: &Task,
    pieces: &[Piece],
    value: i128,
) -> Result<Option<(Piece, Piece)>, OutOfMemory> {
    for (place, pair) in pieces.windows(2).enumerate() {
        if let [piece, next] = pair
            && piece.machine == next.machine
            && piece.stop == next.start
            && costs_exchanged(alloc, task, pieces, place)? == Some(value)
        {
            return Ok(Some((*piece, *next)));
        }
    }
    Ok(None)
}

fn say_pieces(board: &mut Board, piece: &Piece, next: JobId) -> Result<(), AllocError> {
    write!(
        board.text,
        "On machine {}, job {} from {} to {} and job {} after it may be exchanged: that is another \
         optimal schedule.",
        piece.machine.get(),
        piece.job.get(),
        piece.start,
        piece.stop,
        next.get()
    )?;
    board.end_sentence()
}

/// Says that two jobs may be exchanged, if there are such.
pub(crate) fn say_tie(board: &mut Board, tie: Option<(JobId, JobId)>) -> Result<(), AllocError> {
    let Some((job, next)) = tie else {
        return Ok(());
    };
    write!(
        board.text,
        "Jobs {} and {} may be exchanged: that is another optimal schedule.",
        job.get(),
        next.get()
    )?;
    board.end_sentence()
}

// What the pieces cost with the one at a place and the next one exchanged, if they still fit.
fn costs_exchanged(
    alloc: Global,
    task: &Task,
    pieces: &[Piece],
    place: usize,
) -> Result<Option<i128>, OutOfMemory> {
    let mut exchanged = pieces.to_vec(alloc)?;
    exchange(&mut exchanged, place);
    match Schedule::new(exchanged) {
        Ok(schedule) => Ok(judge(alloc, task, &schedule)?.fit.ok()),
        Err(_) => Ok(None),
    }
}

// Exchanges the piece at a place with the next one, if both are there.
fn exchange(pieces: &mut [Piece], place: usize) {
    let behind = place.saturating_add(1);
    let (Some(piece), Some(next)) = (pieces.get(place), pieces.get(behind)) else {
        return;
    };
    let (piece, next) = (*piece, *next);
    let turn = piece
        .start
        .saturating_add(next.stop.saturating_sub(next.start));
    pieces[place] = moved(&next, piece.start, turn);
    pieces[behind] = moved(&piece, turn, next.stop);
}

fn moved(piece: &Piece, start: i64, stop: i64) -> Piece {
    Piece {
        job: piece.job,
        machine: piece.machine,
        start,
        stop,
    }
}
