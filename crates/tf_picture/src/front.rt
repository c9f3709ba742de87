//! What a picture shows before its strips.
ghost use Rattle.std.specs.Prelude.{◌≡◌, ◌++◌, IfOk, OnOk};
ghost use Rattle.tf_picture.specs.Picture.{front, opening, sizes, title, titles};

use crate::frame::WIDTH;
use crate::strips::Strips;
use crate::view::Size;
use crate::writing::push_parts;
use std::alloc::Allocator;
use tf_model::memory::OutOfMemory;
use tf_model::problem::Problem;
use tf_notation::writing::notation_text;
use tf_text::answer::sheet::Sheet;
use tf_text::answer::writing::push_number;

/// What a picture says of the answer that it shows.
#[derive(Clone, Copy, Debug)]
pub struct Heading {
    pub problem: Problem,
    /// The number of jobs.
    pub jobs: u32,
    /// The number of machines.
    pub machines: u32,
    /// The value that the answer claims.
    pub value: i64,
}

impl Heading {
    ghost use Rattle.std.specs.Prelude.{◌≡◌};
    ghost use Rattle.tf_picture.specs.Picture.{heading_of};

    /// The heading of a sheet.
    pub fn of<A: Allocator>(sheet: &Sheet<A>) -> Self
        ensures { result ≡ heading_of sheet.now }
    {
        Heading {
            problem: sheet.problem,
            jobs: sheet.jobs,
            machines: sheet.machines,
            value: sheet.answer.value,
        }
    }
}

// The end of the opening, the hatching of idle time, and the beginning of the title.
const HATCHING: &[u8] = b"\" font-family=\"sans-serif\">\n\
<defs><pattern id=\"idle\" width=\"500\" height=\"500\" patternUnits=\"userSpaceOnUse\" \
patternTransform=\"rotate(45)\"><rect width=\"500\" height=\"500\" fill=\"#fdfdfd\"/>\
<rect width=\"90\" height=\"500\" fill=\"#cccccc\"/></pattern></defs>\n";

// What stands between the title for a reader who points and the one for all.
const TITLE: &[u8] = b"</title>\n<rect width=\"100%\" height=\"100%\" fill=\"#ffffff\"/>\n\
<text x=\"7000\" y=\"3200\" font-size=\"2000\">";

/// Adds the picture up to its strips.
pub(crate) fn push_front<A: Allocator + Copy>(
    alloc: A,
    text: &mut Vec<u8, A>,
    heading: &Heading,
    size: Size,
    strips: &Strips,
) -> Result<(), OutOfMemory>
    ensures { OnOk result (text.new.items
        ≡ text.old.items ++ front heading.now size strips.now) }
{
    push_opening(text, size, strips.height())?;
    let title = title(alloc, heading)?;
    push_titles(text, title.as_slice())?;
    push_sizes(text, heading, strips.last)
}

// The problem and the value that the answer claims.
fn title<A: Allocator + Copy>(alloc: A, heading: &Heading) -> Result<Vec<u8, A>, OutOfMemory>
    ensures { IfOk result (λ text. text.items ≡ title heading.now) }
{
    let notation = notation_text(alloc, &heading.problem)?;
    let mut title = Vec::from_slice(alloc, notation.as_bytes())?;
    title.extend_from_slice(b", value")?;
    push_number(&mut title, heading.value)?;
    Ok(title)
}

// The size of the picture, which is so many hundredths of a pixel high, and the hatching.
fn push_opening<A: Allocator>(
    text: &mut Vec<u8, A>,
    size: Size,
    high: u64,
) -> Result<(), OutOfMemory>
    ensures { OnOk result (text.new.items ≡ text.old.items ++ opening size high) }
{
    let width = size.width(high);
    push_parts(
        text,
        &[(
            b"<svg xmlns=\"http://www.w3.org/2000/svg\" role=\"img\" width=\"",
            width,
        )],
        size.unit(),
    )?;
    push_parts(text, &[(b"\" height=\"", size.height(high))], size.unit())?;
    push_parts(
        text,
        &[(b"\" viewBox=\"0 0 ", WIDTH), (b" ", high)],
        HATCHING,
    )
}

// The title, for a reader who points at the picture and, on white, for all.
fn push_titles<A: Allocator>(text: &mut Vec<u8, A>, title: &[u8]) -> Result<(), OutOfMemory>
    ensures { OnOk result (text.new.items ≡ text.old.items ++ titles title.now) }
{
    text.extend_from_slice(b"<title>")?;
    text.extend_from_slice(title)?;
    text.extend_from_slice(TITLE)?;
    text.extend_from_slice(title)?;
    Ok(())
}

// The numbers of jobs, machines and time steps.
fn push_sizes<A: Allocator>(
    text: &mut Vec<u8, A>,
    heading: &Heading,
    length: u64,
) -> Result<(), OutOfMemory>
    ensures { OnOk result (text.new.items ≡ text.old.items ++ sizes heading.now length) }
{
    push_parts(
        text,
        &[
            (
                b"</text>\n<text x=\"7000\" y=\"5200\" font-size=\"1300\">jobs ",
                u64::from(heading.jobs),
            ),
            (b", machines ", u64::from(heading.machines)),
            (b", length ", length),
        ],
        b"</text>\n",
    )
}
