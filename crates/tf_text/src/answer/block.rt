//! The lines of pieces, written through one block.
ghost use Rattle.std.specs.Prelude.{◌≡◌, ◌≤◌, ◌++◌, false, true, length, drop, IsErr, OnOk, OnErr};
ghost use Rattle.std.specs.Io.KnownBytes.{Appends};
ghost use Rattle.tf_text.specs.Counted.{inner_of, has_failed, AppendsPrefix};
ghost use Rattle.tf_text.specs.AnswerText.{pieces_text};

use crate::answer::line::{ROOM, line_before};
use crate::counted::{Counted, Device};
use std::io::Write;
use tf_schedule::piece::Piece;

const BLOCK: usize = 16_384;

// So many pieces have room in a block.
const MANY: usize = BLOCK / ROOM;

/// The lines of pieces up to the end of the block; where they begin.
fn fill(pieces: &[Piece], block: &mut [u8; BLOCK]) -> usize
    requires { length pieces.now ≤ MANY }
    ensures within { result ≤ BLOCK }
    ensures lines { drop result block.new ≡ pieces_text pieces.now }
{
    let mut at = BLOCK;
    let mut rest = pieces;
    while let Some((piece, earlier)) = rest.split_last() {
        at = line_before(piece, block, at);
        rest = earlier;
    }
    at
}

/// Writes the lines of pieces.
fn write_pieces<W: Write>(writer: &mut Counted<W>, pieces: &[Piece]) -> Result<(), Device>
    requires { has_failed writer.old ≡ false }
    ensures written { OnOk result (Appends (W.contents (inner_of writer.old))
        (W.contents (inner_of writer.new)) (pieces_text pieces.now)) }
    ensures unfailed { OnOk result (has_failed writer.new ≡ false) }
    ensures prefix { OnErr result (AppendsPrefix (W.contents (inner_of writer.old))
        (W.contents (inner_of writer.new)) (pieces_text pieces.now)) }
    ensures device { OnErr result (has_failed writer.new ≡ true) }
{
    let mut block = [0; BLOCK];
    let mut rest = pieces;
    while !rest.is_empty() {
        let (next, later) = rest.split_at(rest.len().min(MANY));
        let from = fill(next, &mut block);
        writer.push_all(&block[from..])?;
        rest = later;
    }
    Ok(())
}

/// Writes a text, then the lines of pieces, and then another text.
pub(crate) fn write_around<W: Write>(
    writer: &mut Counted<W>,
    front: &[u8],
    pieces: &[Piece],
    back: &[u8],
) -> Result<(), Device>
    ensures written { OnOk result (Appends (W.contents (inner_of writer.old))
        (W.contents (inner_of writer.new)) (front.now ++ (pieces_text pieces.now ++ back.now))) }
    ensures unfailed { OnOk result (has_failed writer.new ≡ false) }
    ensures prefix { OnErr result (AppendsPrefix (W.contents (inner_of writer.old))
        (W.contents (inner_of writer.new)) (front.now ++ (pieces_text pieces.now ++ back.now))) }
    ensures device { OnErr result (has_failed writer.new ≡ true) }
    ensures failed_before { has_failed writer.old ≡ true →
        IsErr result × (writer.new ≡ writer.old) }
{
    writer.push_all(front)?;
    write_pieces(writer, pieces)?;
    writer.push_all(back)?;
    Ok(())
}
