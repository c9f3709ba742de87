//! The processing time that a word is.
ghost use Rattle.std.specs.Prelude.{◌≡◌};
ghost use Rattle.tf_routes.specs.Routes.{time_in};

use tf_read::fault::ReadFault;
use tf_words::number::{Number, number_of};

/// The processing time that a word of this line is.
pub(crate) fn time_in(line: u32, word: &[u8]) -> Result<u64, ReadFault>
    ensures { result ≡ time_in line word.now }
{
    match number_of(word) {
        Number::NotANumber => Err(ReadFault::BadNumber(line)),
        Number::TooLarge => Err(ReadFault::NumberTooLarge(line)),
        Number::Value(value) => {
            if value < 0 {
                return Err(ReadFault::Negative(line));
            }
            Ok(value as u64)
        }
    }
}
