//! The pieces of an answer, with their lines.
use crate::page::Page;
use crate::source::{Front, Source, SourceLine};
use std::alloc::AllocError;
use tf_words::word::is;

/// The most pieces that are shown.
const MOST_PIECES: usize = 8;

/// A line `piece`.
#[derive(Clone, Copy)]
struct PieceLine<'a> {
    line: SourceLine<'a>,
    job: i64,
    machine: i64,
    start: i64,
    stop: i64,
}

/// Which pieces of an answer are looked at.
#[derive(Clone, Copy)]
pub enum Pieces {
    /// The one that has so many before it.
    Behind(usize),
    OfJob(u32),
    /// Those of a job that are going on at a time.
    OfJobAt(u32, i64),
    /// Those on a machine that are going on at a time.
    OnMachineAt(u32, i64),
}

impl Pieces {
    // Whether a piece with so many before it is among them.
    fn has(self, before: usize, piece: &PieceLine<'_>) -> bool {
        match self {
            Pieces::Behind(wanted) => before == wanted,
            Pieces::OfJob(job) => piece.job == i64::from(job),
            Pieces::OfJobAt(job, time) => piece.job == i64::from(job) && piece.covers(time),
            Pieces::OnMachineAt(machine, time) => {
                piece.machine == i64::from(machine) && piece.covers(time)
            }
        }
    }
}

impl PieceLine<'_> {
    // Whether the piece is going on at a time.
    fn covers(&self, time: i64) -> bool {
        self.start <= time && time < self.stop
    }
}

fn piece_in(line: SourceLine<'_>) -> Option<PieceLine<'_>> {
    if !line.bytes.trim_ascii_start().starts_with(b"piece") {
        return None;
    }
    let front = Front::new(line.bytes);
    if front.len() != 5 || !is(front.word(0)?.bytes, b"piece") {
        return None;
    }
    match (
        front.value(1),
        front.value(2),
        front.value(3),
        front.value(4),
    ) {
        (Some(job), Some(machine), Some(start), Some(stop)) => Some(PieceLine {
            line,
            job,
            machine,
            start,
            stop,
        }),
        _ => None,
    }
}

/// Lines of some of the pieces, those first that stand first.
pub fn quote_pieces(
    page: &mut Page,
    source: &Source<'_>,
    pieces: Pieces,
) -> Result<(), AllocError> {
    let mut before: usize = 0;
    let mut shown: usize = 0;
    for line in source.lines() {
        let Some(piece) = piece_in(line) else {
            continue;
        };
        if pieces.has(before, &piece) {
            if shown == MOST_PIECES {
                return page.say("And more pieces.");
            }
            shown = shown.saturating_add(1);
            page.quote(source, &piece.line, None)?;
        }
        before = before.saturating_add(1);
    }
    Ok(())
}

/// Says from where jobs and machines are counted, where a line `piece` counts one from 0.
pub fn say_zero(page: &mut Page, line: &SourceLine<'_>) -> Result<(), AllocError> {
    let front = Front::new(line.bytes);
    let is_piece = front.word(0).is_some_and(|word| is(word.bytes, b"piece"));
    if is_piece && (front.value(1) == Some(0) || front.value(2) == Some(0)) {
        return page.say("Jobs and machines are counted from 1, and times from 0.");
    }
    Ok(())
}

/// How many time steps the pieces of a job are together.
pub fn steps_of(source: &Source<'_>, job: u32) -> i64 {
    let mut steps: i64 = 0;
    for line in source.lines() {
        if let Some(piece) = piece_in(line)
            && piece.job == i64::from(job)
        {
            steps = steps.saturating_add(piece.stop.saturating_sub(piece.start));
        }
    }
    steps
}
