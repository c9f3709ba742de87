//! The pieces of a schedule, as a text says them.
ghost use Rattle.std.specs.Prelude.{◌≡◌, ◌≤◌, length};
ghost use Rattle.tf_words.specs.Words.{first_is, kept_lines, lines, words};
ghost use Rattle.tf_words.specs.Lines.{lines_of};
ghost use Rattle.tf_model.specs.Limit.{most_bytes};
ghost use Rattle.tf_text.specs.AnswerReading.{Gives};
ghost use Rattle.tf_orders.specs.Pieces.{is_of_part, past, pieces_of};

use std::alloc::Allocator;
use tf_schedule::piece::Piece;
use tf_text::answer::fault::AnswerFault;
use tf_text::answer::pieces::{finished, pieces_at};
use tf_words::line::Lines;
use tf_words::word::behind_key;

/// What an answer has beside its pieces.
#[derive(Clone, Copy)]
enum Part {
    /// The lines before them.
    Front,
    /// The lines after them.
    Back,
}

impl Part {
    /// Whether the line is of this part, by its first word.
    fn has(self, line: &[u8]) -> bool
        ensures { result ≡ is_of_part self (words line.now) }
    {
        match self {
            Part::Front => is_front(line),
            Part::Back => begins(line, b"cert") || begins(line, b"end"),
        }
    }
}

fn is_front(line: &[u8]) -> bool
    ensures { result ≡ is_of_part Part.Front (words line.now) }
{
    begins(line, b"answer")
        || begins(line, b"problem")
        || begins(line, b"jobs")
        || begins(line, b"machines")
        || begins(line, b"value")
}

fn begins(line: &[u8], key: &[u8]) -> bool
    ensures { result ≡ first_is key.now (words line.now) }
{
    behind_key(line, key).is_some()
}

/// The pieces that the lines `piece` of a text say. The other lines of an answer may stand before
/// and after them, and aren't looked at.
///
/// # Errors
///
/// The first fault of a line `piece`, or the first line that no answer has there.
pub(crate) fn pieces_in<A: Allocator + Copy>(
    alloc: A,
    text: &[u8],
) -> Result<Vec<Piece, A>, AnswerFault>
    requires { length text.now ≤ most_bytes }
    ensures { Gives (λ v. v.items) result (pieces_of (kept_lines 1 (lines text.now))) }
{
    let front = Lines::new(text);
    let (pieces, back) = pieces_at(alloc, &past(front, Part::Front))?;
    finished(&past(back, Part::Back))?;
    Ok(pieces.into_vec())
}

/// The lines after those of a part.
#[tactic(auto, unfolding(crate::specs::Pieces::past))]
fn past(lines: Lines<'_>, part: Part) -> Lines<'_>
    ensures { lines_of result ≡ past part (lines_of lines.entry) }
{
    let mut rest = lines;
    while let Some((line, more)) = rest.split_first() {
        if !part.has(line.bytes) {
            return rest;
        }
        rest = more;
    }
    rest
}
