//! Piece lines in their usual form: one blank between the words, digits, and a line feed, maybe
//! behind a carriage return.
ghost use Rattle.std.specs.Prelude.{IfSome};
ghost use Rattle.tf_text.specs.NextPiece.{IsUsual};

use tf_model::ids::{JobId, MachineId};
use tf_model::limit::{MOST_JOBS, MOST_MACHINES};
use tf_schedule::piece::Piece;
use tf_words::first_line::{behind_line_feed, next_number};

/// The piece of the line with which a text begins, which is read in one pass, and what follows its
/// line feed. Nothing is said of a line of another form.
pub(crate) fn usual_line(text: &[u8]) -> Option<(Piece, &[u8])>
    ensures { IfSome result (λ x. IsUsual text.now x.0 x.1.now) }
{
    let from = text.strip_prefix(b"piece")?;
    let (job, from) = next_number(from)?;
    let (machine, from) = next_number(from)?;
    let (start, from) = next_number(from)?;
    let (stop, from) = next_number(from)?;
    let rest = behind_line_feed(from)?;
    if job > MOST_JOBS as u64 || machine > u64::from(MOST_MACHINES) {
        return None;
    }
    let (Some(job), Some(machine)) = (JobId::new(job as u32), MachineId::new(machine as u32)) else {
        return None;
    };
    let piece = Piece {
        job,
        machine,
        start: start as i64,
        stop: stop as i64,
    };
    Some((piece, rest))
}
