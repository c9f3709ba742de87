//! The rows of a strip.
ghost use Rattle.std.specs.Prelude.{◌≡◌, ◌<◌, ◌++◌, OnOk};
ghost use Rattle.std.specs.List.{flat_map, range_with_len};
ghost use Rattle.tf_picture.specs.Picture.{names, number, number_font, row, rows};

use crate::bars::LEAST;
use crate::frame::{Frame, LEFT};
use crate::writing::{push_label, push_parts};
use std::alloc::Allocator;
use tf_model::memory::OutOfMemory;

/// Adds a row for each machine, its number, and what the numbers are.
pub fn push_rows<A: Allocator>(text: &mut Vec<u8, A>, frame: &Frame) -> Result<(), OutOfMemory>
    ensures { OnOk result (text.new.items ≡ text.old.items ++ rows frame.now) }
{
    text.extend_from_slice(b"<g fill=\"url(#idle)\" stroke=\"#bbbbbb\" stroke-width=\"50\">\n")?;
    push_each_row(text, frame)?;
    push_font(text, frame)?;
    push_each_number(text, frame)?;
    push_names(text, frame)
}

fn push_font<A: Allocator>(text: &mut Vec<u8, A>, frame: &Frame) -> Result<(), OutOfMemory>
    ensures { OnOk result (text.new.items ≡ text.old.items ++ number_font frame.now) }
{
    push_parts(
        text,
        &[(b"</g>\n<g text-anchor=\"end\" font-size=\"", frame.font())],
        b"\">\n",
    )
}

// What the numbers beside the rows and below them are.
fn push_names<A: Allocator>(text: &mut Vec<u8, A>, frame: &Frame) -> Result<(), OutOfMemory>
    ensures { OnOk result (text.new.items ≡ text.old.items ++ names frame.now) }
{
    push_parts(
        text,
        &[
            (b"<text x=\"4700\" y=\"", frame.down() - 700),
            (
                b"\" font-size=\"1100\">machine</text>\n<text x=\"4700\" y=\"",
                frame.bottom() + 1_500,
            ),
        ],
        b"\" font-size=\"1100\">time</text>\n</g>\n",
    )
}

fn push_each_row<A: Allocator>(text: &mut Vec<u8, A>, frame: &Frame) -> Result<(), OutOfMemory>
    ensures { OnOk result (text.new.items ≡ text.old.items
        ++ flat_map (row frame.now) (range_with_len 1 frame.now.machines)) }
{
    for place in 0..frame.machines {
        push_row(text, frame, place + 1)?;
    }
    Ok(())
}

fn push_each_number<A: Allocator>(text: &mut Vec<u8, A>, frame: &Frame) -> Result<(), OutOfMemory>
    ensures { OnOk result (text.new.items ≡ text.old.items
        ++ flat_map (number frame.now) (range_with_len 1 frame.now.machines)) }
{
    for place in 0..frame.machines {
        push_machine(text, frame, place + 1)?;
    }
    Ok(())
}

// The row of a machine.
fn push_row<A: Allocator>(
    text: &mut Vec<u8, A>,
    frame: &Frame,
    machine: u32,
) -> Result<(), OutOfMemory>
    requires { 0 < machine }
    ensures { OnOk result (text.new.items ≡ text.old.items ++ row frame.now machine) }
{
    let wide = (frame.across(frame.to) - LEFT).max(LEAST);
    push_parts(
        text,
        &[
            (b"<rect x=\"", LEFT),
            (b"\" y=\"", frame.top(machine)),
            (b"\" width=\"", wide),
            (b"\" height=\"", frame.bar()),
        ],
        b"\"/>\n",
    )
}

// The number of a machine.
fn push_machine<A: Allocator>(
    text: &mut Vec<u8, A>,
    frame: &Frame,
    machine: u32,
) -> Result<(), OutOfMemory>
    requires { 0 < machine }
    ensures { OnOk result (text.new.items ≡ text.old.items ++ number frame.now machine) }
{
    push_label(text, LEFT - 800, frame.line(machine), u64::from(machine))
}
