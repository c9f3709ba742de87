//! The dates of jobs in a picture.
ghost use Rattle.std.specs.Prelude.{◌≡◌, ◌++◌, ◌<◌, OnOk};
ghost use Rattle.std.specs.List.{All, flat_map};
ghost use Rattle.tf_schedule.specs.Schedule.{IsPiece};
ghost use Rattle.tf_picture.specs.Dates.{due_of, release_of, tardiness};
ghost use Rattle.tf_picture.specs.Picture.{date_mark, date_group, date_if_shown, date_name};
ghost use Rattle.tf_picture.specs.Picture.{dates_shown, late_group, late_if_shown, late_mark};
ghost use Rattle.tf_picture.specs.Picture.{mark_title, marks, shown_at, side, time_shown, tip};
ghost use Rattle.tf_picture.specs.Sound.{HasPiece};

use crate::bars::{Bar, fill, is_shown, push_rect};
use crate::dates::{JobDates, due_of, release_of, tardiness};
use crate::frame::Frame;
use crate::writing::push_parts;
use std::alloc::Allocator;
use tf_model::memory::OutOfMemory;
use tf_schedule::piece::Piece;

/// Which date of a job a mark shows.
#[derive(Clone, Copy, Debug, PartialEq, Eq)]
pub enum DateKind {
    /// The release date: a triangle above the bars that points down.
    Release,
    /// The due date: a triangle below the bars that points up.
    Due,
}

/// Adds the dates that the frame shows, and which bars are late: nothing where no dates are known.
pub fn push_marks<A: Allocator>(
    text: &mut Vec<u8, A>,
    frame: &Frame,
    dates: &[JobDates],
    bars: &[Bar],
) -> Result<(), OutOfMemory>
    requires { All HasPiece bars.now }
    ensures { OnOk result (text.new.items ≡ text.old.items ++ marks frame.now dates.now bars.now) }
{
    if dates.is_empty() {
        return Ok(());
    }
    push_late_group(text, frame, dates, bars)?;
    push_date_group(text, frame, dates, bars)
}

fn push_late_group<A: Allocator>(
    text: &mut Vec<u8, A>,
    frame: &Frame,
    dates: &[JobDates],
    bars: &[Bar],
) -> Result<(), OutOfMemory>
    requires { All HasPiece bars.now }
    ensures { OnOk result (text.new.items
        ≡ text.old.items ++ late_group frame.now dates.now bars.now) }
{
    text.extend_from_slice(b"<g fill=\"#000000\">\n")?;
    for bar in bars {
        push_late_if_shown(text, frame, dates, bar)?;
    }
    text.extend_from_slice(b"</g>\n")?;
    Ok(())
}

fn push_late_if_shown<A: Allocator>(
    text: &mut Vec<u8, A>,
    frame: &Frame,
    dates: &[JobDates],
    bar: &Bar,
) -> Result<(), OutOfMemory>
    requires { HasPiece bar.now }
    ensures { OnOk result (text.new.items
        ≡ text.old.items ++ late_if_shown frame.now dates.now bar.now) }
{
    let steps = tardiness(dates, &bar.piece);
    if is_shown(frame, &bar.piece) && 0 < steps {
        return push_late(text, frame, &bar.piece, steps);
    }
    Ok(())
}

// A strip along the upper edge of the bar of a piece that stops so many steps too late.
fn push_late<A: Allocator>(
    text: &mut Vec<u8, A>,
    frame: &Frame,
    piece: &Piece,
    steps: u64,
) -> Result<(), OutOfMemory>
    requires { IsPiece piece.now }
    ensures { OnOk result (text.new.items
        ≡ text.old.items ++ late_mark frame.now steps piece.now) }
{
    push_rect(text, frame, piece, frame.bar() / 8, b"\">")?;
    push_parts(
        text,
        &[
            (b"<title>job ", u64::from(piece.job.get())),
            (b", late by ", steps),
        ],
        b"</title></rect>\n",
    )
}

fn push_date_group<A: Allocator>(
    text: &mut Vec<u8, A>,
    frame: &Frame,
    dates: &[JobDates],
    bars: &[Bar],
) -> Result<(), OutOfMemory>
    ensures { OnOk result (text.new.items
        ≡ text.old.items ++ date_group frame.now dates.now bars.now) }
{
    text.extend_from_slice(b"<g stroke=\"#222222\" stroke-width=\"60\">\n")?;
    for bar in bars {
        push_dates(text, frame, dates, bar)?;
    }
    text.extend_from_slice(b"</g>\n")?;
    Ok(())
}

// The marks of the dates of a bar's job.
fn push_dates<A: Allocator>(
    text: &mut Vec<u8, A>,
    frame: &Frame,
    dates: &[JobDates],
    bar: &Bar,
) -> Result<(), OutOfMemory>
    ensures { OnOk result (text.new.items
        ≡ text.old.items ++ dates_shown frame.now dates.now bar.now) }
{
    let job = bar.piece.job;
    push_if_shown(text, frame, DateKind::Release, release_of(dates, job), bar)?;
    push_if_shown(text, frame, DateKind::Due, due_of(dates, job), bar)
}

fn push_if_shown<A: Allocator>(
    text: &mut Vec<u8, A>,
    frame: &Frame,
    kind: DateKind,
    date: Option<i64>,
    bar: &Bar,
) -> Result<(), OutOfMemory>
    ensures { OnOk result (text.new.items
        ≡ text.old.items ++ date_if_shown frame.now kind date bar.now) }
{
    match shown_at(frame, date) {
        Some(time) if bar.piece.machine.get() <= frame.machines => {
            push_mark(text, frame, kind, time, bar)
        }
        _ => Ok(()),
    }
}

// The date as a time, where it lies in the strip.
fn shown_at(frame: &Frame, date: Option<i64>) -> Option<u64>
    ensures { result ≡ shown_at frame.now date }
{
    match date {
        Some(date) => time_shown(frame, date),
        None => None,
    }
}

fn time_shown(frame: &Frame, date: i64) -> Option<u64>
    ensures { result ≡ time_shown frame.now date }
{
    if date < 0 {
        return None;
    }
    let time = date as u64;
    if frame.shows_time(time) {
        Some(time)
    } else {
        None
    }
}

// The mark of a date that is this time: its tip is at the edge of the bars.
fn push_mark<A: Allocator>(
    text: &mut Vec<u8, A>,
    frame: &Frame,
    kind: DateKind,
    time: u64,
    bar: &Bar,
) -> Result<(), OutOfMemory>
    ensures { OnOk result (text.new.items
        ≡ text.old.items ++ date_mark frame.now kind time bar.now) }
{
    push_parts(
        text,
        &[
            (b"<path d=\"M", frame.across(time)),
            (b" ", tip(frame, kind, &bar.piece)),
            (side(kind), frame.row() / 10),
        ],
        b"h800z\" fill=\"",
    )?;
    text.extend_from_slice(fill(bar.fill))?;
    push_title(text, kind, time, &bar.piece)
}

// How far down the tip is.
fn tip(frame: &Frame, kind: DateKind, piece: &Piece) -> u64
    ensures { result ≡ tip frame.now kind piece.now }
{
    let top = frame.top(piece.machine.get());
    match kind {
        DateKind::Release => top,
        DateKind::Due => top + frame.bar(),
    }
}

// The side from the tip, up or down.
fn side(kind: DateKind) -> &'static [u8]
    ensures { result.now ≡ side kind }
{
    match kind {
        DateKind::Release => b"l-400 -",
        DateKind::Due => b"l-400 ",
    }
}

// What a reader sees who points at the mark.
fn push_title<A: Allocator>(
    text: &mut Vec<u8, A>,
    kind: DateKind,
    time: u64,
    piece: &Piece,
) -> Result<(), OutOfMemory>
    ensures { OnOk result (text.new.items ≡ text.old.items ++ mark_title kind time piece.now) }
{
    push_parts(
        text,
        &[
            (b"\"><title>job ", u64::from(piece.job.get())),
            (date_name(kind), time),
        ],
        b"</title></path>\n",
    )
}

fn date_name(kind: DateKind) -> &'static [u8]
    ensures { result.now ≡ date_name kind }
{
    match kind {
        DateKind::Release => b", release date ",
        DateKind::Due => b", due date ",
    }
}
