//! A text of several answers or orders, one after the other.
ghost use Rattle.std.specs.Prelude.{◌≡◌, ◌++◌};
ghost use Rattle.tf_words.specs.Words.{lines, words};
ghost use Rattle.tf_held.specs.AnswerTexts.{IsNextOrder, after_end, are_end};

use tf_export::line::next_line;
use tf_words::line::{is_kept, line_len};
use tf_words::word::{first_word, is};

/// The first answer of a text, up to its line `end`, and what follows it.
pub(crate) fn next_answer(text: &[u8]) -> (&[u8], &[u8])
    ensures whole { text.now ≡ result.0.now ++ result.1.now }
    ensures after { lines result.1.now ≡ after_end (lines text.now) }
{
    let mut len = 0;
    while len < text.len() {
        let line = line_len(&text[len..]);
        let is_last = is_end(&text[len..len + line]);
        len = (len + line + 1).min(text.len());
        if is_last {
            break;
        }
    }
    text.split_at(len)
}

/// Whether a line is the word `end` alone.
fn is_end(line: &[u8]) -> bool
    ensures { result ≡ are_end (words line.now) }
{
    match first_word(line) {
        Some((word, more)) => is(word, b"end") && first_word(more).is_none(),
        None => false,
    }
}

/// The first order of a text, which is its first line that has a word and is no comment, and what
/// follows it. Where the text has no such line, the order is empty, which is none of any jobs.
pub(crate) fn next_order(text: &[u8]) -> (&[u8], &[u8])
    ensures { IsNextOrder text.now result.0.now result.1.now }
{
    let mut rest = text;
    while !rest.is_empty() {
        let (line, more) = next_line(rest);
        if is_kept(line) {
            return (line, more);
        }
        rest = more;
    }
    (rest, rest)
}
