//! A text in two parts, of which the first has so many words.
ghost use Rattle.std.specs.Prelude.{◌≡◌, [], take, drop, MatchOption};
ghost use Rattle.tf_words.specs.Words.{words};
ghost use Rattle.tf_held.specs.Cuts.{EndsWord};

use tf_words::word::{white_at, word_at};

/// The number of bytes up to the end of the first word, if there is one.
fn word_end(text: &[u8]) -> Option<usize>
    ensures { MatchOption result (words text.now ≡ []) (EndsWord text.now) }
{
    match word_at(text) {
        None => None,
        Some(start) => {
            let (_, from) = text.split_at(start);
            match white_at(from) {
                Some(len) => Some(start + len),
                None => Some(text.len()),
            }
        }
    }
}

/// The text up to the end of so many words, or all of it where it has fewer, and what is behind
/// them.
pub(crate) fn split_words(text: &[u8], count: u64) -> (&[u8], &[u8])
    ensures front { words result.0.now ≡ take count (words text.now) }
    ensures rest { words result.1.now ≡ drop count (words text.now) }
{
    let mut at = 0;
    for _passed in 0..count {
        let (_, rest) = text.split_at(at);
        match word_end(rest) {
            Some(len) => at += len,
            None => return (text, rest),
        }
    }
    text.split_at(at)
}
