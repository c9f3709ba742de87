//! The lines of pieces in an answer text.
ghost use Rattle.std.specs.Prelude.{◌≡◌, ◌+◌, ◌^◌, ◌<◌, ◌≤◌, length, option_map, IfOk};
ghost use Rattle.tf_words.specs.Words.{words};
ghost use Rattle.tf_words.specs.Lines.{lines_of};
ghost use Rattle.tf_text.specs.NextPiece.{Moves};
ghost use Rattle.tf_text.specs.AnswerReading.{Gives, four, piece_in, pieces_at, finished};

use crate::answer::fault::AnswerFault;
use crate::answer::field::{job_in, machine_in, time_in};
use crate::answer::usual::usual_line;
use std::alloc::Allocator;
use tf_model::memory::OutOfMemory;
use tf_schedule::piece::Piece;
use tf_schedule::piece_list::PieceList;
use tf_words::line::Lines;
use tf_words::ranged::is_number;
use tf_words::word::{behind_key, first_word};

/// Returns the words of a text that has exactly four.
fn four(text: &[u8]) -> Option<(&[u8], &[u8], &[u8], &[u8])>
    ensures { option_map (λ w. (w.0.now, w.1.now, w.2.now, w.3.now)) result
        ≡ four (words text.now) }
{
    let (job, rest) = first_word(text)?;
    let (machine, rest) = first_word(rest)?;
    let (start, rest) = first_word(rest)?;
    let (stop, rest) = first_word(rest)?;
    if first_word(rest).is_some() {
        return None;
    }
    Some((job, machine, start, stop))
}

/// Reads a piece: first the form of its words, then the numbers from left to right.
#[tactic(auto, unfolding(crate::specs::AnswerReading::piece_in))]
pub(crate) fn piece_in(line: u32, text: &[u8]) -> Result<Piece, AnswerFault>
    ensures { Gives (λ p. p) result (piece_in line (words text.now)) }
{
    let Some((job, machine, start, stop)) = four(text) else {
        return Err(AnswerFault::BadLine(line));
    };
    if !(is_number(job) && is_number(machine) && is_number(start) && is_number(stop)) {
        return Err(AnswerFault::BadLine(line));
    }
    let job = job_in(line, job)?;
    let machine = machine_in(line, machine)?;
    let start = time_in(line, start)?;
    let stop = time_in(line, stop)?;
    Ok(Piece {
        job,
        machine,
        start,
        stop,
    })
}

/// Reads all lines `piece` that come first, and returns the lines after them.
pub fn pieces_at<'a, A: Allocator + Copy>(
    alloc: A,
    lines: &Lines<'a>,
) -> Result<(PieceList<A>, Lines<'a>), AnswerFault>
    ensures { Gives (λ x. (x.0, lines_of x.1)) result (pieces_at (lines_of lines.now)) }
{
    let mut pieces = Vec::new(alloc);
    let mut rest = *lines;
    while let Some((line, after)) = rest.split_first() {
        let Some(words) = behind_key(line.bytes, b"piece") else {
            break;
        };
        pieces.push(piece_in(line.number, words)?)?;
        rest = after;
    }
    Ok((PieceList::new(pieces), rest))
}

/// Refuses any line.
pub fn finished(lines: &Lines<'_>) -> Result<(), AnswerFault>
    ensures { Gives (λ u. tt) result (finished (lines_of lines.now)) }
{
    match lines.split_first() {
        None => Ok(()),
        Some((line, _)) => Err(AnswerFault::BadLine(line.number)),
    }
}

/// Adds the pieces of the lines with which a text begins, as far as each has its usual form, and
/// returns the number of the line behind them and what follows them.
pub(crate) fn push_usual<'a, A: Allocator>(
    pieces: &mut Vec<Piece, A>,
    number: u32,
    text: &'a [u8],
) -> Result<(u32, &'a [u8]), OutOfMemory>
    requires { number + length text.now < 2 ^ 32 }
    ensures later { IfOk result (λ x. x.0 + length x.1.now ≤ number + length text.now) }
    ensures fewer { IfOk result (λ x. length x.1.now ≤ length text.now) }
    ensures pieces { IfOk result (λ x.
        Moves pieces.old.items number text.now pieces.new.items x.0 x.1.now) }
{
    let mut number = number;
    let mut rest = text;
    while let Some((piece, after)) = usual_line(rest) {
        pieces.push(piece)?;
        number += 1;
        rest = after;
    }
    Ok((number, rest))
}
