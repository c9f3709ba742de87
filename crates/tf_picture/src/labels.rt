//! The numbers in the bars.
ghost use Rattle.std.specs.Prelude.{◌≡◌, ◌+◌, ◌/◌, ◌≤◌, ◌++◌, OnOk};
ghost use Rattle.std.specs.List.{All, flat_map};
ghost use Rattle.tf_schedule.specs.Piece.{as_time};
ghost use Rattle.tf_schedule.specs.Schedule.{IsPiece};
ghost use Rattle.tf_picture.specs.Picture.{has_room, label, label_group, number_if_shown};
ghost use Rattle.tf_picture.specs.Sound.{HasPiece};
ghost use Rattle.tf_picture.specs.Strips.{across, base};

use crate::bars::{Bar, is_shown, width};
use crate::frame::Frame;
use crate::writing::{push_label, push_parts};
use itoa::Buffer;
use std::alloc::Allocator;
use tf_model::memory::OutOfMemory;
use tf_schedule::piece::Piece;

/// Adds the job's number for each bar that the frame shows and that has room for it.
pub fn push_labels<A: Allocator>(
    text: &mut Vec<u8, A>,
    frame: &Frame,
    bars: &[Bar],
) -> Result<(), OutOfMemory>
    requires { All HasPiece bars.now }
    ensures { OnOk result (text.new.items ≡ text.old.items ++ label_group frame.now bars.now) }
{
    push_parts(
        text,
        &[(b"<g text-anchor=\"middle\" font-size=\"", frame.font())],
        b"\" pointer-events=\"none\">\n",
    )?;
    for bar in bars {
        push_if_shown(text, frame, bar)?;
    }
    text.extend_from_slice(b"</g>\n")?;
    Ok(())
}

fn push_if_shown<A: Allocator>(
    text: &mut Vec<u8, A>,
    frame: &Frame,
    bar: &Bar,
) -> Result<(), OutOfMemory>
    requires { HasPiece bar.now }
    ensures { OnOk result (text.new.items ≡ text.old.items
        ++ number_if_shown frame.now bar.now) }
{
    if is_shown(frame, &bar.piece) && has_room(frame, &bar.piece) {
        return push_job(text, frame, &bar.piece);
    }
    Ok(())
}

fn push_job<A: Allocator>(
    text: &mut Vec<u8, A>,
    frame: &Frame,
    piece: &Piece,
) -> Result<(), OutOfMemory>
    requires { IsPiece piece.now }
    ensures { OnOk result (text.new.items ≡ text.old.items
        ++ label ((across frame.now (as_time piece.now.start)
        + across frame.now (as_time piece.now.stop)) / 2)
        (base frame.now piece.now.machine) piece.now.job) }
{
    let from = frame.across(piece.start as u64);
    let to = frame.across(piece.stop as u64);
    let y = frame.line(piece.machine.get());
    push_label(text, (from + to) / 2, y, u64::from(piece.job.get()))
}

// Whether the job's number is less wide than the bar.
fn has_room(frame: &Frame, piece: &Piece) -> bool
    requires { IsPiece piece.now }
    ensures { result ≡ has_room frame.now piece.now }
{
    let mut digits = Buffer::new();
    let wide = digits.format(piece.job.get()).len() as u64 * frame.font() * 13 / 20 + 300;
    wide <= width(frame, piece)
}
