//! The picture of a schedule.
ghost use Rattle.std.specs.Prelude.{◌≡◌, ◌++◌, ◌<◌, None, IfOk, OnOk};
ghost use Rattle.std.specs.List.{All};
ghost use Rattle.std.specs.List.Sorted.{IsPermutation};
ghost use Rattle.tf_schedule.specs.Schedule.{IsPiece};
ghost use Rattle.tf_text.specs.AnswerText.{SheetData};
ghost use Rattle.tf_schedule.specs.Drawing.{greatest_stop};
ghost use Rattle.tf_picture.specs.Bars.{bars_of};
ghost use Rattle.tf_picture.specs.Picture.{IsDatedPicture, IsResumed, all_strips, heading_of};
ghost use Rattle.tf_picture.specs.Picture.{strip};
ghost use Rattle.tf_picture.specs.Strips.{strips_of};
ghost use Rattle.tf_picture.specs.Sound.{HasPiece};

use crate::axis::{push_axis, step_of};
use crate::bars::{Bar, bars_of, push_bars};
use crate::dates::JobDates;
use crate::frame::Frame;
use crate::front::{Heading, push_front};
use crate::labels::push_labels;
use crate::links::{push_links, resumed};
use crate::marks::push_marks;
use crate::rows::push_rows;
use crate::strips::Strips;
use crate::view::View;
use std::alloc::Allocator;
use tf_model::memory::OutOfMemory;
use tf_schedule::piece::Piece;
use tf_schedule::schedule::Schedule;

/// The picture of a schedule under a heading, as SVG: in each strip a row for each of the heading's
/// machines, a bar for each piece on one of them, and an axis of time. Pieces on further machines
/// are not shown, but their stops count in the length. Where dates of the jobs are given, by the
/// numbers of the jobs, they are marked, and so are the bars of pieces that stop after the due
/// date.
pub fn picture<A: Allocator + Copy, B: Allocator>(
    alloc: A,
    view: &View,
    heading: &Heading,
    dates: &[JobDates],
    schedule: &Schedule<B>,
) -> Result<Vec<u8, A>, OutOfMemory>
    ensures { (sheet : SheetData) → heading_of sheet ≡ heading.now →
        IsPermutation sheet.answer.pieces schedule.now →
        IfOk result (λ text. IsDatedPicture dates.now view.now sheet text.items) }
{
    let strips = strips_for(view, heading, schedule);
    let shown = shown_of(alloc, heading.problem.prmp, &strips, schedule.pieces())?;
    let mut text = Vec::new(alloc);
    push_front(alloc, &mut text, heading, view.size, &strips)?;
    push_strips(&mut text, &strips, &shown, dates)?;
    text.extend_from_slice(b"</svg>\n")?;
    Ok(text)
}

fn strips_for<B: Allocator>(view: &View, heading: &Heading, schedule: &Schedule<B>) -> Strips
    ensures { result ≡ strips_of view.now heading.now.machines (greatest_stop schedule.now) }
{
    Strips::of(view, heading.machines, schedule.length() as u64)
}

/// What is shown in each strip.
#[derive(Drop)]
pub struct Shown<A: Allocator> {
    // From one line of the axis to the next, in time steps.
    step: u64,
    bars: Vec<Bar, A>,
    // The pieces by job, where a job may be preempted.
    resumed: Vec<Piece, A>,
}

fn shown_of<A: Allocator + Copy>(
    alloc: A,
    preemptive: bool,
    strips: &Strips,
    pieces: &[Piece],
) -> Result<Shown<A>, OutOfMemory>
    requires { All IsPiece pieces.now }
    ensures step { IfOk result (λ shown. 0 < shown.step) }
    ensures bars { IfOk result (λ shown. shown.bars.items ≡ bars_of None pieces.now) }
    ensures resumed { IfOk result (λ shown. IsResumed preemptive pieces.now shown.resumed.items) }
    ensures sound { IfOk result (λ shown. All HasPiece shown.bars.items) }
    ensures pieces { IfOk result (λ shown. All IsPiece shown.resumed.items) }
{
    let bars = bars_of(alloc, pieces)?;
    let resumed = resumed(alloc, preemptive, pieces)?;
    Ok(Shown {
        step: step_of(strips),
        bars,
        resumed,
    })
}

#[tactic(auto, using(crate::proofs::Texts::each_more))]
fn push_strips<A: Allocator>(
    text: &mut Vec<u8, A>,
    strips: &Strips,
    shown: &Shown<A>,
    dates: &[JobDates],
) -> Result<(), OutOfMemory>
    requires step { 0 < shown.now.step }
    requires bars { All HasPiece shown.now.bars.items }
    requires resumed { All IsPiece shown.now.resumed.items }
    ensures { OnOk result (text.new.items ≡ text.old.items
        ++ all_strips shown.now.step shown.now.bars.items shown.now.resumed.items dates.now
        strips.now) }
{
    for number in 0..strips.count() {
        push_strip(text, &strips.strip(number), shown, dates)?;
    }
    Ok(())
}

fn push_strip<A: Allocator>(
    text: &mut Vec<u8, A>,
    frame: &Frame,
    shown: &Shown<A>,
    dates: &[JobDates],
) -> Result<(), OutOfMemory>
    requires step { 0 < shown.now.step }
    requires bars { All HasPiece shown.now.bars.items }
    requires resumed { All IsPiece shown.now.resumed.items }
    ensures { OnOk result (text.new.items ≡ text.old.items
        ++ strip shown.now.step shown.now.bars.items shown.now.resumed.items dates.now frame.now) }
{
    push_rows(text, frame)?;
    push_axis(text, frame, shown.step)?;
    push_bars(text, frame, shown.bars.as_slice())?;
    push_links(text, frame, shown.resumed.as_slice())?;
    push_marks(text, frame, dates, shown.bars.as_slice())?;
    push_labels(text, frame, shown.bars.as_slice())?;
    Ok(())
}
