//! Numbers that are judged for their line.
ghost use Rattle.std.specs.Prelude.{◌≡◌};
ghost use Rattle.tf_words.specs.Number.{number};
ghost use Rattle.tf_read.specs.Faults.{natural, integer};

use crate::fault::ReadFault;
use tf_words::number::{Number, number_of};

/// A number that may be negative.
pub(crate) fn integer_of(line: u32, number: Number) -> Result<i64, ReadFault>
    ensures { result ≡ integer line number }
{
    match number {
        Number::NotANumber => Err(ReadFault::BadNumber(line)),
        Number::TooLarge => Err(ReadFault::NumberTooLarge(line)),
        Number::Value(value) => Ok(value),
    }
}

/// A number that may not be negative.
pub(crate) fn natural_of(line: u32, number: Number) -> Result<i64, ReadFault>
    ensures { result ≡ natural line number }
{
    let value = integer_of(line, number)?;
    if value < 0 {
        return Err(ReadFault::Negative(line));
    }
    Ok(value)
}

/// The number that a word is, which may not be negative.
pub(crate) fn natural(line: u32, word: &[u8]) -> Result<i64, ReadFault>
    ensures { result ≡ natural line (number word.now) }
{
    natural_of(line, number_of(word))
}

/// The number that a word is, which may be negative.
pub(crate) fn integer(line: u32, word: &[u8]) -> Result<i64, ReadFault>
    ensures { result ≡ integer line (number word.now) }
{
    integer_of(line, number_of(word))
}
