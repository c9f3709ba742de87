//! Lawler's algorithm for the greatest cost on one machine.
use crate::board::{Board, MOST_ROWS, Visible, shown};
use crate::exchange::say_tie;
use crate::shortened::Shortened;
use crate::table::Cell;
use crate::trace::{price_at, row_of, say_preemption};
use std::alloc::{AllocError, Global};
use tf_model::ids::JobId;
use tf_model::task::Task;
use tf_schedule::piece::Piece;

/// The steps from the last place to the first, and then the schedule.
pub(crate) fn write_lawler(
    board: &mut Board,
    task: &Task,
    pieces: &[Piece],
    value: i128,
) -> Result<(), AllocError> {
    board.say(
        "Lawler's algorithm (Lawler 1973), from the last place to the first. A job whose \
         successors all have their places is a candidate; t is when all jobs without a place are \
         done. The candidate that costs least at t gets the place, the greater number among \
         equals.",
    )?;
    if task.class().is_due() {
        board.say("The cost of a job is its lateness C - d.")?;
    }
    say_preemption(board, task)?;
    let places = Places::new(board.alloc, task, pieces)?;
    show_steps(board, task, pieces, &places)?;
    show_schedule(board, task, pieces)?;
    say_tie(board, tie_in(task, pieces, value))
}

// The first two neighbours, of the first ones, that another optimal schedule exchanges.
fn tie_in(task: &Task, pieces: &[Piece], value: i128) -> Option<(JobId, JobId)> {
    let first = pieces.get(..=MOST_ROWS).unwrap_or(pieces);
    for pair in first.windows(2) {
        if let [piece, next] = pair
            && may_exchange(task, piece, next, value)
        {
            return Some((piece.job, next.job));
        }
    }
    None
}

// Whether two neighbours, exchanged, keep their precedence, and neither costs more than this.
fn may_exchange(task: &Task, piece: &Piece, next: &Piece, value: i128) -> bool {
    let time = next.stop.saturating_sub(next.start);
    let sooner = price_at(task, next.job, piece.start.saturating_add(time));
    let later = price_at(task, piece.job, next.stop);
    if sooner > value || later > value {
        return false;
    }
    let arc = (piece.job, next.job);
    !task.arcs().iter().any(|other| *other == arc)
}

/// The place of each job in the schedule, and the first place of its successors.
#[derive(Drop)]
struct Places {
    own: Vec<usize>,
    successors: Vec<usize>,
}

impl Places {
    fn new(alloc: Global, task: &Task, pieces: &[Piece]) -> Result<Self, AllocError> {
        let mut own = Vec::with_capacity(alloc, task.len())?;
        let mut successors = Vec::with_capacity(alloc, task.len())?;
        for _ in 0..task.len() {
            own.push(0)?;
            successors.push(pieces.len())?;
        }
        for (place, piece) in pieces.iter().enumerate() {
            if let Some(own) = own.get_mut(piece.job.place()) {
                *own = place;
            }
        }
        let mut places = Places { own, successors };
        for (job, successor) in task.arcs() {
            places.put_before(*job, *successor);
        }
        Ok(places)
    }

    // With one precedence constraint more.
    fn put_before(&mut self, job: JobId, successor: JobId) {
        let Some(place) = self.own.get(successor.place()) else {
            return;
        };
        let place = *place;
        if let Some(first) = self.successors.get_mut(job.place()) {
            *first = place.min(*first);
        }
    }

    // Whether the job may get this place, where those behind it are given.
    fn is_candidate(&self, job: usize, place: usize) -> bool {
        match (self.own.get(job), self.successors.get(job)) {
            (Some(own), Some(first)) => *own <= place && place < *first,
            _ => false,
        }
    }
}

fn show_steps(
    board: &mut Board,
    task: &Task,
    pieces: &[Piece],
    places: &Places,
) -> Result<(), AllocError> {
    let headings = ["place", "t", "job", "cost", "candidates: job (cost at t)"];
    board.table.begin_ragged(&headings)?;
    for (k, piece) in pieces.iter().rev().enumerate() {
        match shown(k, pieces.len()) {
            Visible::Row => push_step(
                board,
                task,
                places,
                pieces.len().saturating_sub(k + 1),
                piece,
            )?,
            Visible::Gap => board.table.gap()?,
            Visible::Hidden => {}
        }
    }
    board.show()
}

fn push_step(
    board: &mut Board,
    task: &Task,
    places: &Places,
    place: usize,
    piece: &Piece,
) -> Result<(), AllocError> {
    let candidates = candidates_at(board.alloc, task, places, place, piece)?;
    board.table.row(&[
        Cell::Number(place as i128 + 1),
        Cell::Number(i128::from(piece.stop)),
        Cell::Number(i128::from(piece.job.get())),
        Cell::Number(price_at(task, piece.job, piece.stop)),
        Cell::Words(candidates.as_str()),
    ])
}

// The candidates for a place with what each costs at the end of the piece of the one that gets it,
// which is always shown.
fn candidates_at(
    alloc: Global,
    task: &Task,
    places: &Places,
    place: usize,
    piece: &Piece,
) -> Result<String, AllocError> {
    let mut list = Shortened::new(alloc, piece.job);
    for k in 0..task.len() {
        if places.is_candidate(k, place) {
            let job = JobId::at(k);
            list.push(job, price_at(task, job, piece.stop))?;
        }
    }
    list.into_text()
}

fn show_schedule(board: &mut Board, task: &Task, pieces: &[Piece]) -> Result<(), AllocError> {
    board.table.begin(if task.class().is_due() {
        &["job", "p", "start", "C", "d", "C - d"]
    } else {
        &["job", "p", "start", "C", "cost"]
    })?;
    for (place, piece) in pieces.iter().enumerate() {
        push_piece(board, task, pieces.len(), place, piece)?;
    }
    board.show()
}

fn push_piece(
    board: &mut Board,
    task: &Task,
    rows: usize,
    place: usize,
    piece: &Piece,
) -> Result<(), AllocError> {
    let Some(row) = row_of(task, piece.job) else {
        return Ok(());
    };
    let job = Cell::Number(i128::from(piece.job.get()));
    let time = Cell::Number(i128::from(row.first));
    let start = Cell::Number(i128::from(piece.start));
    let stop = Cell::Number(i128::from(piece.stop));
    let cost = Cell::Number(price_at(task, piece.job, piece.stop));
    if task.class().is_due() {
        let due = Cell::Number(i128::from(row.due));
        board.row(place, rows, &[job, time, start, stop, due, cost])
    } else {
        board.row(place, rows, &[job, time, start, stop, cost])
    }
}
