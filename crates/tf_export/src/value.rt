//! JSON values, added to a text.
ghost use Rattle.std.specs.Prelude.{◌≡◌, ◌/◌, ◌%◌, ◌<◌, ◌∷◌, ◌++◌, [], false, IfSome, IfNone, OnOk};
ghost use Rattle.std.specs.List.{flat_map, join_with_byte};
ghost use Rattle.tf_words.specs.Words.{words};
ghost use Rattle.tf_export.specs.Json.{hex_digit, escaped, string, is_natural, is_integer, scalar};
ghost use Rattle.tf_export.specs.Members.{is_number, phrase, said};

use std::alloc::Global;
use tf_model::memory::OutOfMemory;
use tf_words::digits::is_numeral;
use tf_words::word::{first_word, is};

/// A digit to the base 16.
fn hex_digit(value: u8) -> u8
    requires { value < 16 }
    ensures { result ≡ hex_digit value }
{
    if value < 10 {
        b'0' + value
    } else {
        b'a' - 10 + value
    }
}

/// Adds a byte of a string.
fn push_escaped(text: &mut Vec<u8>, byte: u8) -> Result<(), OutOfMemory>
    ensures { OnOk result (text.new.items ≡ text.old.items ++ escaped byte) }
{
    if byte == b'"' {
        text.extend_from_slice(b"\\\"")?;
        return Ok(());
    }
    if byte == b'\\' {
        text.extend_from_slice(b"\\\\")?;
        return Ok(());
    }
    if byte == b'\n' {
        text.extend_from_slice(b"\\n")?;
        return Ok(());
    }
    if byte > 31 && byte < 127 {
        text.push(byte)?;
        return Ok(());
    }
    push_code(text, byte)
}

/// Adds a byte by its number.
fn push_code(text: &mut Vec<u8>, byte: u8) -> Result<(), OutOfMemory>
    ensures { OnOk result (text.new.items ≡ text.old.items
        ++ 92 ∷ 117 ∷ 48 ∷ 48 ∷ hex_digit (byte / 16) ∷ hex_digit (byte % 16) ∷ []) }
{
    text.extend_from_slice(b"\\u00")?;
    text.push(hex_digit(byte / 16))?;
    text.push(hex_digit(byte % 16))?;
    Ok(())
}

fn push_bytes(text: &mut Vec<u8>, bytes: &[u8]) -> Result<(), OutOfMemory>
    ensures { OnOk result (text.new.items ≡ text.old.items ++ flat_map escaped bytes.now) }
{
    for byte in bytes {
        push_escaped(text, *byte)?;
    }
    Ok(())
}

/// Adds a string.
#[tactic(auto, unfolding(crate::specs::Json::string))]
pub(crate) fn push_string(text: &mut Vec<u8>, bytes: &[u8]) -> Result<(), OutOfMemory>
    ensures { OnOk result (text.new.items ≡ text.old.items ++ string bytes.now) }
{
    text.push(b'"')?;
    push_bytes(text, bytes)?;
    text.push(b'"')?;
    Ok(())
}

/// Whether a word is of digits without a leading zero.
fn is_natural(digits: &[u8]) -> bool
    ensures { result ≡ is_natural digits.now }
{
    if !is_numeral(digits) {
        return false;
    }
    digits.len() == 1 || digits[0] != b'0'
}

/// The same, maybe behind a minus sign.
fn is_integer(word: &[u8]) -> bool
    ensures { result ≡ is_integer word.now }
{
    match word {
        [b'-', digits @ ..] => is_natural(digits),
        _ => is_natural(word),
    }
}

/// Adds `null` for `-`, which stands for what is not known, a whole number as it is written, and
/// every other word as a string.
#[tactic(auto, unfolding(crate::specs::Json::scalar))]
pub(crate) fn push_scalar(text: &mut Vec<u8>, word: &[u8]) -> Result<(), OutOfMemory>
    ensures { OnOk result (text.new.items ≡ text.old.items ++ scalar word.now) }
{
    if is(word, b"-") {
        text.extend_from_slice(b"null")?;
        return Ok(());
    }
    if !is_integer(word) {
        return push_string(text, word);
    }
    text.extend_from_slice(word)?;
    Ok(())
}

/// Adds words, each behind this byte.
pub(crate) fn push_behind(text: &mut Vec<u8>, separator: u8, row: &[u8]) -> Result<(), OutOfMemory>
    ensures { OnOk result (text.new.items
        ≡ text.old.items ++ flat_map (λ word. separator ∷ word) (words row.now)) }
{
    let mut rest = row;
    while let Some((word, more)) = first_word(rest) {
        text.push(separator)?;
        text.extend_from_slice(word)?;
        rest = more;
    }
    Ok(())
}

/// Adds words with this byte between each two.
pub(crate) fn push_joined(text: &mut Vec<u8>, separator: u8, row: &[u8]) -> Result<(), OutOfMemory>
    ensures { OnOk result (text.new.items
        ≡ text.old.items ++ join_with_byte separator (words row.now)) }
{
    let Some((word, more)) = first_word(row) else {
        return Ok(());
    };
    text.extend_from_slice(word)?;
    push_behind(text, separator, more)?;
    Ok(())
}

/// Adds words as one string, with a blank between each two.
pub(crate) fn push_phrase(alloc: Global, text: &mut Vec<u8>, row: &[u8]) -> Result<(), OutOfMemory>
    ensures { OnOk result (text.new.items ≡ text.old.items ++ phrase (words row.now)) }
{
    let mut joined = Vec::new(alloc);
    push_joined(&mut joined, b' ', row)?;
    push_string(text, joined.as_slice())
}

/// The word of a text that has one word.
fn only_word(row: &[u8]) -> Option<&[u8]>
    ensures one { IfSome result (λ word. words row.now ≡ word.now ∷ []) }
    ensures other { IfNone result (said (words row.now) ≡ phrase (words row.now)) }
    ensures no_number { IfNone result (is_number (words row.now) ≡ false) }
{
    let (word, more) = first_word(row)?;
    match first_word(more) {
        None => Some(word),
        Some(_) => None,
    }
}

/// Whether words are one whole number.
pub(crate) fn is_number(row: &[u8]) -> bool
    ensures { result ≡ is_number (words row.now) }
{
    match only_word(row) {
        Some(word) => is_integer(word),
        None => false,
    }
}

/// Adds one word by itself, and otherwise a phrase.
pub(crate) fn push_said(alloc: Global, text: &mut Vec<u8>, row: &[u8]) -> Result<(), OutOfMemory>
    ensures { OnOk result (text.new.items ≡ text.old.items ++ said (words row.now)) }
{
    match only_word(row) {
        Some(word) => push_scalar(text, word),
        None => push_phrase(alloc, text, row),
    }
}
