//! Machines in parallel: McNaughton's wrap-around rule, and the shortest processing time first.
use crate::board::Board;
use crate::exchange::say_exchange;
use crate::open_shop::piece_cells;
use crate::table::Cell;
use crate::trace::row_of;
use std::alloc::AllocError;
use tf_check::answer::Answer;
use tf_check::certificate::Certificate;
use tf_model::ids::JobId;
use tf_model::memory::OutOfMemory;
use tf_model::task::Task;
use tf_schedule::piece::Piece;

/// The length of the schedule, and how the machines are filled up to it.
pub(crate) fn write_wrap_around(
    board: &mut Board,
    task: &Task,
    pieces: &[Piece],
    value: i128,
) -> Result<(), OutOfMemory> {
    board.say(
        "McNaughton's rule (McNaughton 1959): the schedule is as long as the longest job, or as \
         the total processing time shared out among the machines, whichever is more. The machines \
         are filled up to that length one after another, in the order of the jobs; what does not \
         fit on a machine starts the next one at time 0.",
    )?;
    let total = task.total_time();
    let machines = task.machines();
    write!(
        board.text,
        "Total processing time {total} on {machines} machines: {total}/{machines} over real times, \
         {} in whole time steps. The longest job takes {}.",
        task.load(),
        longest_time(task)
    )?;
    board.end_sentence()?;
    show_filling(board, pieces)?;
    say_exchange(board, task, pieces, value)
}

fn longest_time(task: &Task) -> u64 {
    let mut longest = 0;
    for k in 0..task.len() {
        longest = task.time(JobId::at(k)).max(longest);
    }
    longest
}

fn show_filling(board: &mut Board, pieces: &[Piece]) -> Result<(), AllocError> {
    board
        .table
        .begin_ragged(&["machine", "job", "start", "C", ""])?;
    for (place, piece) in pieces.iter().enumerate() {
        let note = if wraps(pieces, place) {
            "the rest on the next machine"
        } else {
            ""
        };
        let cells = [
            Cell::Number(i128::from(piece.machine.get())),
            Cell::Number(i128::from(piece.job.get())),
            Cell::Number(i128::from(piece.start)),
            Cell::Number(i128::from(piece.stop)),
            Cell::Words(note),
        ];
        board.row(place, pieces.len(), &cells)?;
    }
    board.show()
}

// Whether the job of a piece goes on with the next one.
fn wraps(pieces: &[Piece], place: usize) -> bool {
    match (pieces.get(place), pieces.get(place.saturating_add(1))) {
        (Some(piece), Some(next)) => piece.job == next.job,
        _ => false,
    }
}

/// The ranks of the jobs, and the machines.
pub(crate) fn write_shortest_first(
    board: &mut Board,
    task: &Task,
    answer: &Answer,
) -> Result<(), AllocError> {
    board.say(
        "Shortest processing time first (Conway, Maxwell and Miller 1967): the jobs, by rising \
         processing time p and then by number, go to the machines in turn.",
    )?;
    if let Certificate::Ranks(ranks) = &answer.certificate {
        show_ranks(board, task, ranks.jobs.as_slice())?;
    }
    show_machines(board, task, answer.pieces.as_slice())
}

// Whether two jobs count as often as each other.
fn jobs_exchange(task: &Task) -> bool {
    task.len() > 1 && task.machines() > 1
}

fn show_ranks(board: &mut Board, task: &Task, jobs: &[JobId]) -> Result<(), AllocError> {
    board.say(
        "A processing time counts once for the job itself and once for each job after it on \
         its machine. From the longest job on, the first m are the last on their machines and \
         count once, the next m count twice, and so on.",
    )?;
    let machines = u64::from(task.machines()).max(1);
    board
        .table
        .begin(&["rank", "job", "p", "times", "product"])?;
    for (place, job) in jobs.iter().enumerate() {
        let rank = (place as u64).saturating_add(1);
        if let Some(row) = row_of(task, *job) {
            let coefficient = i128::from(rank.div_ceil(machines));
            let cells = [
                Cell::Number(i128::from(rank)),
                Cell::Number(i128::from(job.get())),
                Cell::Number(i128::from(row.first)),
                Cell::Number(coefficient),
                Cell::Number(coefficient.saturating_mul(i128::from(row.first))),
            ];
            board.row(place, jobs.len(), &cells)?;
        }
    }
    board.show()?;
    if jobs_exchange(task) {
        board.say("Two jobs that count as often may exchange places: the sum stays the same.")?;
    }
    Ok(())
}

fn show_machines(board: &mut Board, task: &Task, pieces: &[Piece]) -> Result<(), AllocError> {
    board.table.begin(&["machine", "job", "p", "start", "C"])?;
    for (place, piece) in pieces.iter().enumerate() {
        if let Some(row) = row_of(task, piece.job) {
            board.row(place, pieces.len(), &piece_cells(piece, row.first))?;
        }
    }
    board.show()
}
