//! Why a word of a table is no number of its place.
use crate::advice::Cause;
use tf_words::digits::is_numeral;
use tf_words::number::{Number, number_of};

/// What is wrong with a number that has to be at least 0, if something is.
pub(crate) fn fault_of_size(word: &[u8]) -> Option<Cause> {
    match number_of(word) {
        Number::Value(value) if value < 0 => Some(Cause::Negative),
        _ => fault_of_number(word),
    }
}

/// What is wrong with a number, if something is.
pub(crate) fn fault_of_number(word: &[u8]) -> Option<Cause> {
    match number_of(word) {
        Number::Value(_) => None,
        Number::TooLarge => Some(Cause::TooLarge),
        Number::NotANumber => Some(cause_of_no_number(word)),
    }
}

// The usual reason.
fn cause_of_no_number(word: &[u8]) -> Cause {
    if word.is_empty() {
        Cause::BlankInField
    } else if word.starts_with(b"+") {
        Cause::PlusSign
    } else if is_among(word, b".") && word.iter().filter(|byte| **byte == b'.').count() == 1 {
        Cause::DecimalPoint
    } else if is_among(word, b",") {
        Cause::DecimalComma
    } else if is_among(word, b"'_") {
        Cause::Thousands
    } else if has_unit(word) {
        Cause::Unit
    } else if is_among(word, b":") {
        Cause::Clock
    } else if is_range(word) {
        Cause::Range
    } else if is_date(word) {
        Cause::Date
    } else if word.iter().any(|byte| *byte >= 128) {
        Cause::NoAscii
    } else {
        Cause::NotANumber
    }
}

// Whether the word is two numbers with a dash or dots between them.
fn is_range(word: &[u8]) -> bool {
    let digits = digits_of(word);
    let rest = word.get(digits..).unwrap_or(&[]);
    let marks = rest
        .iter()
        .take_while(|byte| !byte.is_ascii_digit())
        .count();
    let mark: &[u8] = rest.get(..marks).unwrap_or(&[]);
    let behind = rest.get(marks..).unwrap_or(&[]);
    digits > 0 && matches!(mark, b"-" | b".." | b"...") && is_numeral(behind)
}

// How many digits a word begins with.
fn digits_of(word: &[u8]) -> usize {
    word.iter().take_while(|byte| byte.is_ascii_digit()).count()
}

// Whether the word is three numbers with a mark between each two.
fn is_date(word: &[u8]) -> bool {
    let marks = word.iter().filter(|byte| !byte.is_ascii_digit()).count();
    word.first().is_some_and(|byte| byte.is_ascii_digit()) && marks == 2 && is_among(word, b"-/.")
}

// Whether the word has digits, and beside them these marks and a sign alone.
fn is_among(word: &[u8], marks: &[u8]) -> bool {
    word.iter().any(|byte| byte.is_ascii_digit())
        && word.iter().any(|byte| marks.contains(byte))
        && word.iter().all(|byte| byte.is_ascii_digit() || *byte == b'-' || marks.contains(byte))
}

// Whether the word is digits and then letters.
fn has_unit(word: &[u8]) -> bool {
    match word.iter().position(|byte| !byte.is_ascii_digit()) {
        Some(digits) if digits > 0 => {
            word.iter()
                .skip(digits)
                .all(|byte| byte.is_ascii_alphabetic())
        }
        _ => false,
    }
}
