//! The bars of a picture.
ghost use Rattle.std.specs.Prelude.{◌≡◌, ◌++◌, ◌≤◌, None, IfOk, IfSome, OnOk};
ghost use Rattle.std.specs.List.{All, flat_map};
ghost use Rattle.tf_schedule.specs.Piece.{as_time};
ghost use Rattle.tf_schedule.specs.Schedule.{IsPiece};
ghost use Rattle.tf_picture.specs.Bars.{IsApart, bar_of, bars_of, fill_of, has_fill, is_taken};
ghost use Rattle.tf_picture.specs.Picture.{bar_group, bar_if_shown, bar_text, edge, fill};
ghost use Rattle.tf_picture.specs.Picture.{told, is_shown, rect, width};
ghost use Rattle.tf_picture.specs.Sound.{HasPiece};

use crate::frame::Frame;
use crate::writing::push_parts;
use std::alloc::Allocator;
use tf_model::memory::OutOfMemory;
use tf_schedule::piece::Piece;

/// The least width of a bar.
pub const LEAST: u64 = 50;

// A bar that is less wide has no edge, so that its fill is seen.
const EDGED: u64 = 300;

// Eleven fills, dark and light in turn; black is legible on each.
const FILLS: &[u8] =
    b"#7fb2e5#f2dc7d#e58a7b#cdeac0#b08fd8#ffd8a8#5fb8a5#f7cfe3#d9a441#cfe3f7#a3a3a3";

/// A piece with its fill.
#[derive(Clone, Copy, Debug)]
pub struct Bar {
    pub piece: Piece,
    /// The number of the fill, up to 10.
    pub fill: u32,
    /// Whether the bar before it on its machine has the same fill, so that an edge must part them.
    pub edged: bool,
}

/// The bars of pieces by machine and start.
pub fn bars_of<A: Allocator>(alloc: A, pieces: &[Piece]) -> Result<Vec<Bar, A>, OutOfMemory>
    ensures { IfOk result (λ bars. bars.items ≡ bars_of None pieces.now) }
{
    let mut bars = Vec::with_capacity(alloc, pieces.len())?;
    let mut before: Option<Bar> = None;
    for piece in pieces {
        bars.push(bar_of(&before, *piece))?;
        before = Some(bar_of(&before, *piece));
    }
    Ok(bars)
}

fn bar_of(before: &Option<Bar>, piece: Piece) -> Bar
    ensures value { result ≡ bar_of before.now piece }
    ensures apart { IfSome before.now (IsApart result) }
{
    let fill = fill_of(before, &piece);
    Bar {
        piece,
        fill,
        edged: has_fill(before, &piece, fill),
    }
}

// The fill by the job's number; where the bar before it on its machine has it, another one.
fn fill_of(before: &Option<Bar>, piece: &Piece) -> u32
    ensures { result ≡ fill_of before.now piece.now }
{
    let own = piece.job.get() % 11;
    if is_taken(before, piece, own) {
        return (own + 5) % 11;
    }
    own
}

// Whether the bar of another job before it on its machine has this fill.
fn is_taken(before: &Option<Bar>, piece: &Piece, fill: u32) -> bool
    ensures { result ≡ is_taken before.now piece.now fill }
{
    match before {
        None => false,
        Some(bar) => {
            bar.piece.machine == piece.machine && bar.fill == fill && bar.piece.job != piece.job
        }
    }
}

// Whether the bar before it on its machine has this fill.
fn has_fill(before: &Option<Bar>, piece: &Piece, fill: u32) -> bool
    ensures { result ≡ has_fill before.now piece.now fill }
{
    match before {
        None => false,
        Some(bar) => bar.piece.machine == piece.machine && bar.fill == fill,
    }
}

/// Adds the bars that the frame shows.
pub fn push_bars<A: Allocator>(
    text: &mut Vec<u8, A>,
    frame: &Frame,
    bars: &[Bar],
) -> Result<(), OutOfMemory>
    requires { All HasPiece bars.now }
    ensures { OnOk result (text.new.items ≡ text.old.items ++ bar_group frame.now bars.now) }
{
    text.extend_from_slice(b"<g stroke=\"#222222\" stroke-width=\"60\">\n")?;
    for bar in bars {
        push_if_shown(text, frame, bar)?;
    }
    text.extend_from_slice(b"</g>\n")?;
    Ok(())
}

fn push_if_shown<A: Allocator>(
    text: &mut Vec<u8, A>,
    frame: &Frame,
    bar: &Bar,
) -> Result<(), OutOfMemory>
    requires { HasPiece bar.now }
    ensures { OnOk result (text.new.items ≡ text.old.items ++ bar_if_shown frame.now bar.now) }
{
    if is_shown(frame, &bar.piece) {
        return push_bar(text, frame, bar);
    }
    Ok(())
}

/// Whether the piece is on a machine of the frame, and some of it lies in the strip.
pub fn is_shown(frame: &Frame, piece: &Piece) -> bool
    requires { IsPiece piece.now }
    ensures { result ≡ is_shown frame.now piece.now }
{
    piece.machine.get() <= frame.machines
        && (piece.start as u64) < frame.to
        && frame.from < piece.stop as u64
}

fn push_bar<A: Allocator>(
    text: &mut Vec<u8, A>,
    frame: &Frame,
    bar: &Bar,
) -> Result<(), OutOfMemory>
    requires { HasPiece bar.now }
    ensures { OnOk result (text.new.items ≡ text.old.items ++ bar_text frame.now bar.now) }
{
    push_rect(text, frame, &bar.piece, frame.bar(), b"\" fill=\"")?;
    text.extend_from_slice(fill(bar.fill))?;
    text.extend_from_slice(edge(width(frame, &bar.piece), bar.edged))?;
    push_told(text, &bar.piece)
}

/// Adds a rectangle where the bar of a piece lies, as high as this, up to an end.
pub fn push_rect<A: Allocator>(
    text: &mut Vec<u8, A>,
    frame: &Frame,
    piece: &Piece,
    high: u64,
    end: &[u8],
) -> Result<(), OutOfMemory>
    requires { IsPiece piece.now }
    ensures { OnOk result (text.new.items
        ≡ text.old.items ++ rect frame.now piece.now high end.now) }
{
    push_parts(
        text,
        &[
            (b"<rect x=\"", frame.across(piece.start as u64)),
            (b"\" y=\"", frame.top(piece.machine.get())),
            (b"\" width=\"", width(frame, piece).max(LEAST)),
            (b"\" height=\"", high),
        ],
        end,
    )
}

/// How wide the bar of a piece is, to scale.
pub fn width(frame: &Frame, piece: &Piece) -> u64
    requires { IsPiece piece.now }
    ensures value { result ≡ width frame.now piece.now }
{
    let start = frame.across(piece.start as u64);
    frame.across(piece.stop as u64).saturating_sub(start)
}

// What a reader sees who points at the bar.
fn push_told<A: Allocator>(text: &mut Vec<u8, A>, piece: &Piece) -> Result<(), OutOfMemory>
    ensures { OnOk result (text.new.items ≡ text.old.items ++ told piece.now) }
{
    push_parts(
        text,
        &[
            (b"<title>job ", u64::from(piece.job.get())),
            (b", machine ", u64::from(piece.machine.get())),
            (b", ", steps(piece.start)),
            (b" to ", steps(piece.stop)),
        ],
        b"</title></rect>\n",
    )
}

// The time steps before a time of a piece.
fn steps(time: i64) -> u64
    ensures { result ≡ as_time time }
{
    time.max(0) as u64
}

/// The fill of this number, which counts on from 0 after 10.
pub fn fill(number: u32) -> &'static [u8]
    ensures { result.now ≡ fill number }
{
    let at = (number % 11) as usize * 7;
    &FILLS[at..at + 7]
}

// The end of a bar's attributes.
fn edge(width: u64, edged: bool) -> &'static [u8]
    ensures { result.now ≡ edge width edged }
{
    if width < EDGED && !edged {
        b"\" stroke=\"none\">"
    } else {
        b"\">"
    }
}
