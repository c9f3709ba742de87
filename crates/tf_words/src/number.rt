//! Words as numbers.
ghost use Rattle.std.specs.Prelude.{◌≡◌, pos, neg_ℤ};
ghost use Rattle.tf_words.specs.Number.{number, limit, signed, plain, within_limit};
ghost use Rattle.tf_words.specs.Ranged.{judged};

use crate::digits::{is_numeral, size_of};
use crate::limit::LIMIT;
use crate::ranged::{Ranged, number_in};

/// What a word is as a number.
#[derive(Clone, Copy, Debug, PartialEq, Eq)]
pub enum Number {
    /// It is no number.
    NotANumber,
    /// Its absolute value is above the limit.
    TooLarge,
    Value(i64),
}

/// The number of the range of the limit.
fn within_limit(ranged: Ranged) -> Number
    ensures { result ≡ within_limit ranged }
{
    match ranged {
        Ranged::NotANumber => Number::NotANumber,
        Ranged::Below | Ranged::Above => Number::TooLarge,
        Ranged::Within(value) => Number::Value(value),
    }
}

/// The number of this sign and this size.
pub(crate) fn number_sized(negative: bool, size: u64) -> Number
    ensures { result
        ≡ within_limit (judged (neg_ℤ (pos limit)) (pos limit) (signed negative size)) }
{
    if size > LIMIT as u64 {
        return Number::TooLarge;
    }
    let value = size as i64;
    Number::Value(if negative { -value } else { value })
}

/// What a word is as a number.
#[tactic(auto, unfolding(crate::specs::Number::number))]
pub fn number_of(word: &[u8]) -> Number
    ensures { result ≡ number word.now }
{
    within_limit(number_in(word, -LIMIT, LIMIT))
}

/// The number that a word writes in digits without a leading zero, if it is from 1 to the greatest.
#[tactic(auto, unfolding(crate::specs::Number::plain))]
pub fn plain_of(word: &[u8], most: u32) -> Option<u32>
    ensures { result ≡ plain most word.now }
{
    if !is_numeral(word) {
        return None;
    }
    if word[0] == b'0' {
        return None;
    }
    let size = size_of(word);
    if size <= u64::from(most) {
        Some(size as u32)
    } else {
        None
    }
}
