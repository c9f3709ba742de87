//! Piece lines, written from their ends.
ghost use Rattle.std.specs.Prelude.{◌≡◌, ◌+◌, ◌≤◌, ◌<◌, ◌∷◌, ◌++◌, length, drop, codes};
ghost use Rattle.std.specs.Fmt.{decimal, signed_decimal};
ghost use Rattle.tf_text.specs.AnswerText.{piece_words, line_text};

use itoa::write_digits;
use tf_schedule::piece::Piece;

/// No line of a piece is longer: a key, four blanks, four numbers of at most 20 digits, a feed.
pub(crate) const ROOM: usize = 96;

/// The text from `end` on with one byte more before it; where it begins then.
fn byte_before(byte: u8, text: &mut [u8], end: usize) -> usize
    requires { (0 < end) × (end ≤ length text.old) }
    ensures from { result + 1 ≡ end }
    ensures written { drop result text.new ≡ byte ∷ drop end text.old }
    ensures length { length text.new ≡ length text.old }
{
    text[end - 1] = byte;
    end - 1
}

/// The same with a blank and a number.
fn number_before(number: u64, text: &mut [u8], end: usize) -> usize
    requires { (21 ≤ end) × (end ≤ length text.old) }
    ensures from { (end ≤ result + 21) × (result ≤ end) }
    ensures written { drop result text.new ≡ (32 ∷ decimal number) ++ drop end text.old }
    ensures length { length text.new ≡ length text.old }
{
    let digits = write_digits(number, text, end);
    byte_before(b' ', text, digits)
}

/// The same with a blank and a time.
fn time_before(time: i64, text: &mut [u8], end: usize) -> usize
    requires { (22 ≤ end) × (end ≤ length text.old) }
    ensures from { (end ≤ result + 22) × (result ≤ end) }
    ensures written { drop result text.new ≡ (32 ∷ signed_decimal time) ++ drop end text.old }
    ensures length { length text.new ≡ length text.old }
{
    let number = time.unsigned_abs();
    if time >= 0 {
        return number_before(number, text, end);
    }
    let digits = write_digits(number, text, end);
    let sign = byte_before(b'-', text, digits);
    byte_before(b' ', text, sign)
}

/// The same with the word `piece`.
fn key_before(text: &mut [u8], end: usize) -> usize
    requires { (5 ≤ end) × (end ≤ length text.old) }
    ensures from { result + 5 ≡ end }
    ensures written { drop result text.new ≡ codes "piece" ++ drop end text.old }
    ensures length { length text.new ≡ length text.old }
{
    let at = byte_before(b'e', text, end);
    let at = byte_before(b'c', text, at);
    let at = byte_before(b'e', text, at);
    let at = byte_before(b'i', text, at);
    byte_before(b'p', text, at)
}

/// The same with the line of a piece.
pub(crate) fn line_before(piece: &Piece, text: &mut [u8], end: usize) -> usize
    requires { (ROOM ≤ end) × (end ≤ length text.old) }
    ensures from { (end ≤ result + ROOM) × (result ≤ end) }
    ensures written { drop result text.new
        ≡ line_text (piece_words piece.now) ++ drop end text.old }
    ensures length { length text.new ≡ length text.old }
{
    let at = byte_before(b'\n', text, end);
    let at = time_before(piece.stop, text, at);
    let at = time_before(piece.start, text, at);
    let at = number_before(u64::from(piece.machine.get()), text, at);
    let at = number_before(u64::from(piece.job.get()), text, at);
    key_before(text, at)
}
