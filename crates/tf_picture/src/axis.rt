//! The axis of time.
ghost use Rattle.std.specs.Prelude.{◌≡◌, ◌*◌, ◌/◌, ◌<◌, ◌≤◌, ◌++◌, OnOk};
ghost use Rattle.std.specs.List.{flat_map};
ghost use Rattle.tf_picture.specs.Picture.{axis, end_mark, is_marked, last_mark, line, line_at};
ghost use Rattle.tf_picture.specs.Picture.{multiples, time_labels, time_labels_at};

use crate::frame::{Frame, SPAN};
use crate::strips::Strips;
use crate::writing::{push_label, push_parts};
use itoa::Buffer;
use std::alloc::Allocator;
use tf_model::memory::OutOfMemory;

/// The round number of time steps from one line of the axis to the next.
pub fn step_of(strips: &Strips) -> u64
    ensures { 0 < result }
{
    round_step(strips.length, most_steps(strips.to))
}

/// Adds a line through all rows for each multiple of a step, with its time above and below, and one
/// for the last stop.
pub fn push_axis<A: Allocator>(
    text: &mut Vec<u8, A>,
    frame: &Frame,
    step: u64,
) -> Result<(), OutOfMemory>
    requires { 0 < step }
    ensures { OnOk result (text.new.items ≡ text.old.items ++ axis frame.now step) }
{
    text.extend_from_slice(b"<g stroke=\"#bbbbbb\" stroke-width=\"50\">\n")?;
    push_lines(text, frame, step)?;
    text.extend_from_slice(b"</g>\n<g font-size=\"1100\" text-anchor=\"middle\">\n")?;
    push_times(text, frame, step)?;
    text.extend_from_slice(b"</g>\n")?;
    push_end(text, frame)
}

#[tactic(auto, using(crate::proofs::Texts::each_later))]
fn push_lines<A: Allocator>(
    text: &mut Vec<u8, A>,
    frame: &Frame,
    step: u64,
) -> Result<(), OutOfMemory>
    requires { 0 < step }
    ensures { OnOk result (text.new.items ≡ text.old.items
        ++ flat_map (line_at frame.now step) (multiples frame.now step)) }
{
    for n in frame.from / step..=frame.to / step {
        push_line_at(text, frame, step, n)?;
    }
    Ok(())
}

#[tactic(auto, using(crate::proofs::Texts::each_later))]
fn push_times<A: Allocator>(
    text: &mut Vec<u8, A>,
    frame: &Frame,
    step: u64,
) -> Result<(), OutOfMemory>
    requires { 0 < step }
    ensures { OnOk result (text.new.items ≡ text.old.items
        ++ flat_map (time_labels_at frame.now step) (multiples frame.now step)) }
{
    for n in frame.from / step..=frame.to / step {
        push_time_at(text, frame, step, n)?;
    }
    Ok(())
}

fn push_line_at<A: Allocator>(
    text: &mut Vec<u8, A>,
    frame: &Frame,
    step: u64,
    n: u64,
) -> Result<(), OutOfMemory>
    requires positive { 0 < step }
    requires within { n ≤ frame.now.to / step }
    ensures { OnOk result (text.new.items ≡ text.old.items ++ line_at frame.now step n) }
{
    let time = time_at(frame, step, n);
    if is_marked(frame, step, time) {
        return push_line(text, frame, time);
    }
    Ok(())
}

fn push_time_at<A: Allocator>(
    text: &mut Vec<u8, A>,
    frame: &Frame,
    step: u64,
    n: u64,
) -> Result<(), OutOfMemory>
    requires positive { 0 < step }
    requires within { n ≤ frame.now.to / step }
    ensures { OnOk result (text.new.items ≡ text.old.items ++ time_labels_at frame.now step n) }
{
    let time = time_at(frame, step, n);
    if is_marked(frame, step, time) {
        return push_time(text, frame, time);
    }
    Ok(())
}

// The time after so many steps.
fn time_at(frame: &Frame, step: u64, steps: u64) -> u64
    requires positive { 0 < step }
    requires within { steps ≤ frame.now.to / step }
    ensures value { result ≡ steps * step }
{
    steps * step
}

// Whether a time lies in the strip and leaves room for the number of the last stop.
fn is_marked(frame: &Frame, step: u64, time: u64) -> bool
    ensures { result ≡ is_marked frame.now step time }
{
    let gap = time.max(frame.last) - time.min(frame.last);
    frame.shows_time(time) && !(frame.shows_time(frame.last) && gap < step - step / 3)
}

// A darker line and a bold number at the last stop.
fn push_end<A: Allocator>(text: &mut Vec<u8, A>, frame: &Frame) -> Result<(), OutOfMemory>
    ensures { OnOk result (text.new.items ≡ text.old.items ++ end_mark frame.now) }
{
    if frame.shows_time(frame.last) {
        return push_end_mark(text, frame);
    }
    Ok(())
}

fn push_end_mark<A: Allocator>(text: &mut Vec<u8, A>, frame: &Frame) -> Result<(), OutOfMemory>
    ensures { OnOk result (text.new.items ≡ text.old.items ++ last_mark frame.now) }
{
    text.extend_from_slice(b"<g stroke=\"#555555\" stroke-width=\"100\">\n")?;
    push_line(text, frame, frame.last)?;
    text.extend_from_slice(
        b"</g>\n<g font-size=\"1100\" font-weight=\"bold\" text-anchor=\"middle\">\n",
    )?;
    push_time(text, frame, frame.last)?;
    text.extend_from_slice(b"</g>\n")?;
    Ok(())
}

fn push_line<A: Allocator>(
    text: &mut Vec<u8, A>,
    frame: &Frame,
    time: u64,
) -> Result<(), OutOfMemory>
    ensures { OnOk result (text.new.items ≡ text.old.items ++ line frame.now time) }
{
    push_parts(
        text,
        &[
            (b"<line x1=\"", frame.across(time)),
            (b"\" y1=\"", frame.down() - 400),
            (b"\" x2=\"", frame.across(time)),
            (b"\" y2=\"", frame.bottom() + 300),
        ],
        b"\"/>\n",
    )
}

fn push_time<A: Allocator>(
    text: &mut Vec<u8, A>,
    frame: &Frame,
    time: u64,
) -> Result<(), OutOfMemory>
    ensures { OnOk result (text.new.items ≡ text.old.items ++ time_labels frame.now time) }
{
    push_label(text, frame.across(time), frame.down() - 700, time)?;
    push_label(text, frame.across(time), frame.bottom() + 1_500, time)
}

// How many steps there is room for, where the numbers go up to this one.
fn most_steps(length: u64) -> u64 {
    let mut digits = Buffer::new();
    SPAN / (digits.format(length).len() as u64 * 700 + 4_500)
}

// A step of 1, 2 or 5 times a power of ten that goes into the length so many times at most.
fn round_step(length: u64, most: u64) -> u64
    ensures { 0 < result }
{
    let mut power: u64 = 1;
    for _ in 0..19 {
        let times = length / power;
        if times <= most {
            return power;
        }
        if times / 2 <= most {
            return power.saturating_mul(2);
        }
        if times / 5 <= most {
            return power.saturating_mul(5);
        }
        power = power.saturating_mul(10);
    }
    power
}
