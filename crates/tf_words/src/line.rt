//! The lines of a text that have a word and are no comment.
ghost use Rattle.std.specs.Prelude.{◌≡◌, ℕ, ◌+◌, ◌^◌, ◌<◌, ◌≤◌, ◌∷◌, [], ◌-◌, ◌==◌, true, List};
ghost use Rattle.std.specs.Prelude.{length, drop, position, MatchOption, IfSome};
ghost use Rattle.std.specs.List.{position_or_len};
ghost use Rattle.std.specs.Option.{option_map_or};
ghost use Rattle.tf_words.specs.Words.{is_front, words, lines, is_kept, kept_lines};
ghost use Rattle.tf_words.specs.LineParts.{from_first, after_word, without_return};

use crate::word::{is_white, white_at, word_at};
use memchr::memchr;

/// A line that has a word and is no comment.
#[derive(Clone, Copy, Debug)]
pub struct Line<'a> {
    /// Its number, counted from 1.
    pub number: u32,
    /// All of it, without its line feed.
    pub bytes: &'a [u8],
}

/// The lines that are left of a text.
#[derive(Clone, Copy, Debug)]
pub struct Lines<'a> {
    rest: &'a [u8],
    // the number of the first line that is left
    number: u32,
    ghost room: { number + length rest.now < 2 ^ 32 },
}

fn line_feed_at(text: &[u8]) -> Option<usize>
    ensures { result ≡ position (λ b. b == 10) text.now }
{
    memchr(b'\n', text)
}

/// How many bytes stand before the first line feed, or how many there are where there is none.
pub fn line_len(text: &[u8]) -> usize
    ensures place { result ≡ position_or_len (λ b. b == 10) text.now }
    ensures within { result ≤ length text.now }
{
    match line_feed_at(text) {
        None => text.len(),
        Some(at) => at,
    }
}

/// The place of the first byte that is of a word or a line feed.
fn front_at(text: &[u8]) -> Option<usize>
    ensures { result ≡ position is_front text.now }
{
    text.iter()
        .position(|byte| *byte == b'\n' || !is_white(*byte))
}

/// The first line of a text, and what follows its line feed.
fn next_line(text: &[u8]) -> (&[u8], &[u8])
    requires { 0 < length text.now }
    ensures lines { lines text.now ≡ result.0.now ∷ lines result.1.now }
    ensures shorter { length result.1.now < length text.now }
{
    match line_feed_at(text) {
        None => (text, &[]),
        Some(at) => {
            let (line, from) = text.split_at(at);
            let (_, rest) = from.split_at(1);
            (line, rest)
        }
    }
}

/// Whether the line has a word and is no comment, which its front tells.
pub fn is_kept(line: &[u8]) -> bool
    ensures { result ≡ is_kept (words line.now) }
{
    match word_at(line) {
        None => false,
        Some(at) => line[at] != b'#',
    }
}

/// The first line of a text, if it is kept, and what follows it.
fn if_kept(text: &[u8]) -> (Option<&[u8]>, &[u8])
    requires { 0 < length text.now }
    ensures lines { (n : ℕ) → MatchOption result.0
        (kept_lines n (lines text.now) ≡ kept_lines (n + 1) (lines result.1.now))
        (λ line. kept_lines n (lines text.now)
        ≡ record { number = n; bytes = line.now } ∷ kept_lines (n + 1) (lines result.1.now)) }
    ensures shorter { length result.1.now < length text.now }
{
    // A blank line is over at its front, without a search for its end.
    match front_at(text) {
        None => return (None, &[]),
        Some(at) => {
            if text[at] == b'\n' {
                let (_, rest) = text.split_at(at + 1);
                return (None, rest);
            }
        }
    }
    let (line, rest) = next_line(text);
    if is_kept(line) {
        (Some(line), rest)
    } else {
        (None, rest)
    }
}

impl<'a> Lines<'a> {
    ghost use Rattle.tf_words.specs.Lines.{line_of, lines_of, word_line_of, word_lines_of};
    ghost use Rattle.tf_words.specs.Lines.{bytes_left, number_left};
    ghost use Rattle.tf_words.specs.FirstLine.{line_words, lines_behind};

    /// All lines of a text.
    pub fn new(text: &'a [u8]) -> Lines<'a>
        requires { length text.now < 2 ^ 32 - 1 }
        ensures { lines_of result ≡ kept_lines 1 (lines text.now) }
    {
        Lines {
            rest: text,
            number: 1,
        }
    }

    /// The bytes from which the lines that are left are taken.
    pub fn bytes_left(&self) -> &'a [u8]
        ensures { result.now ≡ bytes_left self.now }
    {
        self.rest
    }

    /// The lines behind the first one, which is kept, from the text behind its line feed on.
    pub fn behind_first(&self, rest: &'a [u8]) -> Lines<'a>
        requires kept { is_kept (line_words (bytes_left self.now)) ≡ true }
        requires rest { lines_behind (bytes_left self.now) ≡ lines rest.now }
        requires shorter { length rest.now < length (bytes_left self.now) }
        ensures lines { (bytes : List ℕ) × (words bytes ≡ line_words (bytes_left self.now))
            × (lines_of self.now ≡ record { number = number_left self.now; bytes = bytes }
            ∷ lines_of result) }
        ensures words { word_lines_of self.now
            ≡ record { number = number_left self.now; words = line_words (bytes_left self.now) }
            ∷ word_lines_of result }
    {
        Lines {
            rest,
            number: self.number + 1,
        }
    }

    /// The first line that is kept, and the lines after it.
    pub fn split_first(&self) -> Option<(Line<'a>, Lines<'a>)>
        ensures lines { MatchOption result (lines_of self.now ≡ [])
            (λ x. lines_of self.now ≡ line_of x.0 ∷ lines_of x.1) }
        ensures words { MatchOption result (word_lines_of self.now ≡ [])
            (λ x. word_lines_of self.now ≡ word_line_of x.0 ∷ word_lines_of x.1) }
    {
        let mut rest = self.rest;
        let mut number = self.number;
        while !rest.is_empty() {
            let (line, after) = if_kept(rest);
            if let Some(bytes) = line {
                let lines = Lines {
                    rest: after,
                    number: number + 1,
                };
                return Some((Line { number, bytes }, lines));
            }
            rest = after;
            number += 1;
        }
        None
    }
}

fn from(text: &[u8], place: Option<usize>) -> &[u8]
    requires { IfSome place (λ k. k ≤ length text.now) }
    ensures { result.now ≡ option_map_or (λ k. drop k text.now) place [] }
{
    match place {
        None => &[],
        Some(at) => &text[at..],
    }
}

/// What stands after the first word of a line.
pub fn after_word(line: &[u8]) -> &[u8]
    ensures { result.now ≡ after_word line.now }
{
    let word = from(line, word_at(line));
    from(word, white_at(word))
}

/// The text without one carriage return at its very end.
pub fn without_return(text: &[u8]) -> &[u8]
    ensures { result.now ≡ without_return text.now }
{
    match text {
        [front @ .., b'\r'] => front,
        _ => text,
    }
}
