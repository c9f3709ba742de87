//! Lines, and the words in them.
ghost use Rattle.std.specs.Prelude.{◌≡◌, ◌<◌, ◌∷◌, [], drop, length, MatchOption};
ghost use Rattle.tf_words.specs.Words.{words, lines};
ghost use Rattle.tf_export.specs.Members.{row_in};
ghost use Rattle.tf_export.specs.Lines.{first_of, has_line};
ghost use Rattle.tf_export.specs.Faults.{first_line, behind_line};

use tf_words::line::line_len;
use tf_words::word::{behind_key, first_word};

/// The first line of a text, and what follows its line feed.
pub fn next_line(text: &[u8]) -> (&[u8], &[u8])
    requires { 0 < length text.now }
    ensures lines { lines text.now ≡ result.0.now ∷ lines result.1.now }
    ensures first { result.0.now ≡ first_line text.now }
    ensures behind { result.1.now ≡ behind_line text.now }
    ensures shorter { length result.1.now < length text.now }
{
    let len = line_len(text);
    if len == text.len() {
        return (text, &[]);
    }
    let (line, from) = text.split_at(len);
    let (_, rest) = from.split_at(1);
    (line, rest)
}

/// The first line of a text, and an empty one where it has none.
pub(crate) fn first_of(text: &[u8]) -> &[u8]
    ensures { result.now ≡ first_of (lines text.now) }
{
    if text.is_empty() {
        return text;
    }
    let (line, _) = next_line(text);
    line
}

/// What follows the first line of a text.
pub(crate) fn behind_heading(text: &[u8]) -> &[u8]
    ensures { lines result.now ≡ drop 1 (lines text.now) }
{
    if text.is_empty() {
        return text;
    }
    let (_, rest) = next_line(text);
    rest
}

/// What stands behind the first word of a line.
pub(crate) fn behind_first(line: &[u8]) -> &[u8]
    ensures { words result.now ≡ drop 1 (words line.now) }
{
    match first_word(line) {
        None => line,
        Some((_, rest)) => rest,
    }
}

/// Whether a word begins a line of a text.
pub(crate) fn has_line(text: &[u8], word: &[u8]) -> bool
    ensures { result ≡ has_line word.now (lines text.now) }
{
    let mut rest = text;
    while !rest.is_empty() {
        let (line, more) = next_line(rest);
        if behind_key(line, word).is_some() {
            return true;
        }
        rest = more;
    }
    false
}

/// How many words a text has.
pub(crate) fn count_words(text: &[u8]) -> usize
    ensures { result ≡ length (words text.now) }
{
    let mut rest = text;
    let mut count = 0;
    while let Some((_, more)) = first_word(rest) {
        count += 1;
        rest = more;
    }
    count
}

/// What stands behind a key in a line, if that many words do.
pub(crate) fn row_in<'a>(line: &'a [u8], key: &[u8], count: usize) -> Option<&'a [u8]>
    ensures { MatchOption result (row_in key.now count (words line.now) ≡ [])
        (λ row. row_in key.now count (words line.now) ≡ words row.now ∷ []) }
{
    let row = behind_key(line, key)?;
    if count_words(row) == count {
        Some(row)
    } else {
        None
    }
}
