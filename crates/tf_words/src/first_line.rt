//! The first line of a text in its usual form: a key and numbers, one blank before each.
//!
//! Each byte is looked at once. Where one of these functions gives nothing, the line has another
//! form, and nothing is said of it.
ghost use Rattle.std.specs.Prelude.{◌≡◌, ◌∷◌, ◌++◌, ◌<◌, ◌≤◌, ℕ, List, Some, true, not, take};
ghost use Rattle.std.specs.Prelude.{length, IfSome, ◌⊎◌};
ghost use Rattle.std.specs.List.{list_all};
ghost use Rattle.std.specs.Char.{is_ascii_digit};
ghost use Rattle.std.specs.Str.Parse.{digits_value};
ghost use Rattle.tf_words.specs.Words.{is_white};
ghost use Rattle.tf_words.specs.Number.{plain};
ghost use Rattle.tf_words.specs.FirstLine.{IsWordBefore, IsLineEnd, IsNumeralOf, BeginsWhite};

use crate::word::is;

/// So many digits are read at most.
const MOST_DIGITS: usize = 18;

/// The number of the digits with which a text begins, and how many these are.
#[inline(always)]
fn digits_at(text: &[u8]) -> (u64, usize)
    ensures within { result.1 ≤ length text.now }
    ensures digits { list_all is_ascii_digit (take result.1 text.now) ≡ true }
    ensures value { digits_value 10 (take result.1 text.now) ≡ result.0 }
    ensures few { result.0 < 1000000000000000000 }
{
    let most = text.len().min(MOST_DIGITS);
    let mut value: u64 = 0;
    let mut at: usize = 0;
    while at < most && text[at].is_ascii_digit() {
        value = value * 10 + u64::from(text[at] - b'0');
        at += 1;
    }
    (value, at)
}

/// The digits with which a text begins, as a number, and what follows them.
#[inline(always)]
pub fn digits_first(text: &[u8]) -> Option<(u64, &[u8])>
    ensures digits { IfSome result (λ x. (digits : List ℕ) × IsNumeralOf digits x.0
        × (text.now ≡ digits ++ x.1.now)) }
    ensures few { IfSome result (λ x. x.0 < 1000000000000000000) }
{
    let (value, len) = digits_at(text);
    if len == 0 {
        return None;
    }
    let (_, rest) = text.split_at(len);
    Some((value, rest))
}

/// Whether a word that ends here is over, as a blank or the end of a line tells.
#[inline(always)]
pub fn is_over(rest: &[u8]) -> bool
    ensures { result ≡ true → BeginsWhite rest.now }
{
    match rest {
        [b' ' | b'\n' | b'\r', ..] => true,
        _ => false,
    }
}

/// The word behind one blank, if it is a number, and what follows it.
#[inline(always)]
pub fn next_number(text: &[u8]) -> Option<(u64, &[u8])>
    ensures word { IfSome result (λ x. (word : List ℕ) × IsNumeralOf word x.0
        × IsWordBefore text.now word x.1.now × (text.now ≡ 32 ∷ (word ++ x.1.now))) }
    ensures few { IfSome result (λ x. x.0 < 1000000000000000000) }
{
    let [b' ', from @ ..] = text else {
        return None;
    };
    let (number, rest) = digits_first(from)?;
    if is_over(rest) {
        Some((number, rest))
    } else {
        None
    }
}

/// The same of a number up to a greatest one that has no leading zero.
pub fn next_plain(text: &[u8], most: u32) -> Option<(u32, &[u8])>
    ensures word { IfSome result (λ x. (word : List ℕ) × (plain most word ≡ Some x.0)
        × IsWordBefore text.now word x.1.now) }
    ensures few { IfSome result (λ x. x.0 ≤ most) }
{
    let (number, rest) = next_number(text)?;
    if text[1] == b'0' || number > u64::from(most) {
        return None;
    }
    Some((number as u32, rest))
}

/// What follows this key, if the text begins with it.
pub fn behind_first_key<'a>(text: &'a [u8], key: &[u8]) -> Option<&'a [u8]>
    requires some { 0 < length key.now }
    requires word { list_all (λ b. not (is_white b)) key.now ≡ true }
    ensures { IfSome result (λ rest. IsWordBefore text.now key.now rest.now) }
{
    if text.len() < key.len() {
        return None;
    }
    let (front, rest) = text.split_at(key.len());
    if is(front, key) && is_over(rest) {
        Some(rest)
    } else {
        None
    }
}

/// What follows the line feed with which a text begins, maybe behind a carriage return.
pub fn behind_line_feed(text: &[u8]) -> Option<&[u8]>
    ensures end { IfSome result (λ rest. IsLineEnd text.now rest.now) }
    ensures bytes { IfSome result
        (λ rest. (text.now ≡ 10 ∷ rest.now) ⊎ (text.now ≡ 13 ∷ 10 ∷ rest.now)) }
{
    if let [b'\n', rest @ ..] = text {
        return Some(rest);
    }
    match text {
        [b'\r', b'\n', rest @ ..] => Some(rest),
        _ => None,
    }
}
