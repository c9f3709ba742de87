//! The lines between the pieces of a job that was preempted.
ghost use Rattle.std.specs.Prelude.{◌≡◌, ◌++◌, None, IfOk, IfSome, OnOk};
ghost use Rattle.std.specs.List.{All, AllPairs};
ghost use Rattle.std.specs.List.Sorted.{IsPermutation};
ghost use Rattle.tf_schedule.specs.Piece.{job_of};
ghost use Rattle.tf_schedule.specs.Schedule.{ComesBeforeBy, IsPiece};
ghost use Rattle.tf_picture.specs.Picture.{IsResumed, foot, is_linked, link, link_group};
ghost use Rattle.tf_picture.specs.Picture.{link_if_shown, links};

use crate::bars::is_shown;
use crate::frame::Frame;
use crate::writing::push_parts;
use std::alloc::Allocator;
use tf_model::memory::OutOfMemory;
use tf_schedule::piece::Piece;

/// The pieces by job and start where jobs may be preempted, otherwise none.
pub fn resumed<A: Allocator>(
    alloc: A,
    preemptive: bool,
    pieces: &[Piece],
) -> Result<Vec<Piece, A>, OutOfMemory>
    ensures { IfOk result (λ sorted. IsResumed preemptive pieces.now sorted.items) }
{
    if !preemptive {
        return Ok(Vec::new(alloc));
    }
    let mut sorted = Vec::from_slice(alloc, pieces)?;
    sort_by_job(&mut sorted);
    Ok(sorted)
}

// Sorts pieces by job, and by start in each.
fn sort_by_job<A: Allocator>(pieces: &mut Vec<Piece, A>)
    ensures kept { IsPermutation pieces.old.items pieces.new.items }
    ensures in_order { AllPairs (ComesBeforeBy job_of) pieces.new.items }
{
    pieces.sort_unstable_by_key(|piece| (piece.job.get(), piece.start));
}

/// Adds a line from each piece to the next one of its job, where the frame shows both.
pub fn push_links<A: Allocator>(
    text: &mut Vec<u8, A>,
    frame: &Frame,
    pieces: &[Piece],
) -> Result<(), OutOfMemory>
    requires { All IsPiece pieces.now }
    ensures { OnOk result (text.new.items ≡ text.old.items ++ link_group frame.now pieces.now) }
{
    text.extend_from_slice(
        b"<g stroke=\"#222222\" stroke-width=\"70\" stroke-dasharray=\"300 200\">\n",
    )?;
    push_each(text, frame, pieces)?;
    text.extend_from_slice(b"</g>\n")?;
    Ok(())
}

fn push_each<A: Allocator>(
    text: &mut Vec<u8, A>,
    frame: &Frame,
    pieces: &[Piece],
) -> Result<(), OutOfMemory>
    requires { All IsPiece pieces.now }
    ensures { OnOk result (text.new.items ≡ text.old.items ++ links frame.now None pieces.now) }
{
    let mut before: Option<Piece> = None;
    for piece in pieces {
        push_if_shown(text, frame, &before, piece)?;
        before = Some(*piece);
    }
    Ok(())
}

fn push_if_shown<A: Allocator>(
    text: &mut Vec<u8, A>,
    frame: &Frame,
    before: &Option<Piece>,
    piece: &Piece,
) -> Result<(), OutOfMemory>
    requires before { IfSome before.now IsPiece }
    requires piece { IsPiece piece.now }
    ensures { OnOk result (text.new.items
        ≡ text.old.items ++ link_if_shown frame.now before.now piece.now) }
{
    match before {
        Some(before) if is_linked(frame, before, piece) => push_link(text, frame, before, piece),
        _ => Ok(()),
    }
}

// Whether the pieces are of one job, and the frame shows both and the line between them.
fn is_linked(frame: &Frame, before: &Piece, piece: &Piece) -> bool
    requires before { IsPiece before.now }
    requires piece { IsPiece piece.now }
    ensures { result ≡ is_linked frame.now before.now piece.now }
{
    before.job == piece.job
        && is_shown(frame, before)
        && is_shown(frame, piece)
        && frame.shows_time(before.stop as u64)
        && frame.shows_time(piece.start as u64)
}

fn push_link<A: Allocator>(
    text: &mut Vec<u8, A>,
    frame: &Frame,
    before: &Piece,
    piece: &Piece,
) -> Result<(), OutOfMemory>
    requires before { IsPiece before.now }
    requires piece { IsPiece piece.now }
    ensures { OnOk result (text.new.items
        ≡ text.old.items ++ link frame.now before.now piece.now) }
{
    push_parts(
        text,
        &[
            (b"<line x1=\"", frame.across(before.stop as u64)),
            (b"\" y1=\"", foot(frame, before)),
            (b"\" x2=\"", frame.across(piece.start as u64)),
            (b"\" y2=\"", foot(frame, piece)),
        ],
        b"\"/>\n",
    )
}

// Where the lines meet the bar of a piece: below its number.
fn foot(frame: &Frame, piece: &Piece) -> u64
    ensures { result ≡ foot frame.now piece.now.machine }
{
    frame.top(piece.machine.get()) + frame.bar() * 9 / 10
}
