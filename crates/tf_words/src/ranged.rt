//! Words as numbers of a range.
ghost use Rattle.std.specs.Prelude.{◌≡◌, is_some};
ghost use Rattle.tf_words.specs.Digits.{signed, cut, written};
ghost use Rattle.tf_words.specs.Ranged.{is_number, judged, placed, number_in};

use crate::digits::{is_numeral, size_of};

/// What a word is as a number of a range.
#[derive(Clone, Copy, Debug, PartialEq, Eq)]
pub enum Ranged {
    /// It is no number.
    NotANumber,
    /// A number below the range, however small.
    Below,
    /// A number above the range, however large.
    Above,
    /// A number of the range.
    Within(i64),
}

fn signed(negative: bool, size: u64) -> i128
    ensures { result ≡ signed negative size }
{
    let size = i128::from(size);
    if negative { -size } else { size }
}

/// Where the number of this size and sign lies.
fn judged(negative: bool, size: u64, least: i64, most: i64) -> Ranged
    ensures { result ≡ judged least most (signed negative size) }
{
    let value = signed(negative, size);
    if value < i128::from(least) {
        Ranged::Below
    } else if value > i128::from(most) {
        Ranged::Above
    } else {
        Ranged::Within(value as i64)
    }
}

fn place_of(negative: bool, digits: &[u8], least: i64, most: i64) -> Ranged
    ensures { result ≡ placed least most (written negative digits.now) }
{
    if !is_numeral(digits) {
        return Ranged::NotANumber;
    }
    judged(negative, size_of(digits), least, most)
}

/// Whether the word is a number: an optional `-`, and one digit or more.
#[tactic(auto, unfolding(crate::specs::Digits::numeral))]
pub fn is_number(word: &[u8]) -> bool
    ensures { result ≡ is_number word.now }
{
    match word {
        [b'-', digits @ ..] => is_numeral(digits),
        _ => is_numeral(word),
    }
}

/// The word as a number from `least` to `most`. Leading zeros are allowed, and `-0` is 0.
#[tactic(auto, unfolding(crate::specs::Digits::numeral))]
pub fn number_in(word: &[u8], least: i64, most: i64) -> Ranged
    ensures { result ≡ number_in least most word.now }
{
    match word {
        [b'-', digits @ ..] => place_of(true, digits, least, most),
        _ => place_of(false, word, least, most),
    }
}
