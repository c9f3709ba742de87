//! The texts that a run was over, by lines and words.
ghost use Rattle.std.specs.Prelude.{◌+◌, length};
ghost use Rattle.std.specs.Iterator.{at_most};
ghost use Rattle.std.specs.Option.{option_map_or};

use crate::page::push_name;
use std::alloc::{AllocError, Global};
use tf_words::line::{line_len, without_return};
use tf_words::number::{Number, number_of};
use tf_words::word::first_word;

/// The most words of a line that are looked at together.
const MOST_WORDS: usize = 6;

/// A text, and what the command line calls it.
#[derive(Clone, Copy, Debug)]
pub struct Source<'a> {
    /// The name of a file, or `-` for standard input.
    pub name: &'a str,
    pub text: &'a [u8],
}

/// A line of a text.
#[derive(Clone, Copy, Debug)]
pub struct SourceLine<'a> {
    /// Its number, from 1.
    pub number: usize,
    /// All of it, without a carriage return at its end.
    pub bytes: &'a [u8],
}

/// A word of a line.
#[derive(Clone, Copy, Debug)]
pub struct Word<'a> {
    /// How many bytes of the line stand before it.
    pub start: usize,
    pub bytes: &'a [u8],
}

impl<'a> Source<'a> {
    /// Adds what the source is called in a sentence.
    pub fn push_title(&self, text: &mut String) -> Result<(), AllocError> {
        if self.name == "-" {
            text.push_str("standard input")
        } else {
            push_name(text, self.name)
        }
    }

    /// The line of that number, from 1.
    pub fn line(&self, number: usize) -> Option<SourceLine<'a>> {
        self.lines().nth(number.checked_sub(1)?)
    }

    /// All its lines.
    pub fn lines(&self) -> Lines<'a> {
        Lines {
            rest: Some(self.text),
            before: 0,
        }
    }

    /// The first line whose words begin with these; a number may be written with leading zeros.
    pub fn line_beginning(&self, front: &[&[u8]]) -> Option<SourceLine<'a>> {
        for line in self.lines() {
            if begins_with(line.bytes, front) {
                return Some(line);
            }
        }
        None
    }

    /// The line of a job in a table.
    pub fn job_line(&self, alloc: Global, job: u32) -> Result<Option<SourceLine<'a>>, AllocError> {
        let number = job.to_string(alloc)?;
        Ok(self.line_beginning(&[b"job", number.as_bytes()]))
    }

    /// How many words the text has.
    pub fn word_count(&self) -> usize {
        Words::new(self.text).count()
    }
}

/// The lines of a text that are left.
#[derive(Drop)]
pub struct Lines<'a> {
    rest: Option<&'a [u8]>,
    before: usize,
}

impl<'a> Iterator for Lines<'a> {
    type Item = SourceLine<'a>;

    ghost remaining = { λ s. at_most (option_map_or (λ r. length r.now + 1) s.rest 0) };

    fn next(&mut self) -> Option<SourceLine<'a>> {
        let text = self.rest?;
        let (bytes, behind) = text.split_at(line_len(text));
        let line = SourceLine::new(self.before, bytes);
        self.rest = behind.get(1..);
        self.before = line.number;
        Some(line)
    }
}

/// The words of a line that are left.
#[derive(Drop)]
pub struct Words<'a> {
    rest: &'a [u8],
    // how many bytes the line has
    len: usize,
}

impl<'a> Words<'a> {
    pub fn new(line: &'a [u8]) -> Words<'a> {
        Words {
            rest: line,
            len: line.len(),
        }
    }
}

impl<'a> Iterator for Words<'a> {
    type Item = Word<'a>;

    ghost remaining = { λ s. at_most (length s.rest.now) };

    fn next(&mut self) -> Option<Word<'a>> {
        let (bytes, rest) = first_word(self.rest)?;
        self.rest = rest;
        let stop = self.len.saturating_sub(rest.len());
        Some(Word {
            start: stop.saturating_sub(bytes.len()),
            bytes,
        })
    }
}

impl<'a> SourceLine<'a> {
    /// A line of these bytes behind so many others.
    pub fn new(before: usize, bytes: &'a [u8]) -> SourceLine<'a> {
        SourceLine {
            number: before.saturating_add(1),
            bytes: without_return(bytes),
        }
    }

    /// The word of the line that has so many before it.
    pub fn word(&self, before: usize) -> Option<Word<'a>> {
        self.words().nth(before)
    }

    /// All its words.
    pub fn words(&self) -> Words<'a> {
        Words::new(self.bytes)
    }
}

/// The first words of a line, at most six of them.
#[derive(Clone, Copy)]
pub struct Front<'a> {
    words: [Word<'a>; MOST_WORDS],
    len: usize,
}

impl<'a> Front<'a> {
    pub fn new(line: &'a [u8]) -> Front<'a> {
        let none = Word {
            start: 0,
            bytes: b"",
        };
        let mut front = Front {
            words: [none; MOST_WORDS],
            len: 0,
        };
        for word in Words::new(line) {
            if !front.push(word) {
                break;
            }
        }
        front
    }

    // Adds a word, and tells whether there was room.
    fn push(&mut self, word: Word<'a>) -> bool {
        let len = self.len;
        match self.words.get_mut(len) {
            None => false,
            Some(place) => {
                *place = word;
                self.len = len.saturating_add(1);
                true
            }
        }
    }

    /// How many words there are, and six where there are more.
    pub fn len(&self) -> usize {
        self.len
    }

    /// The word that has so many before it.
    pub fn word(&self, before: usize) -> Option<Word<'a>> {
        if before < self.len {
            self.words.get(before).copied()
        } else {
            None
        }
    }

    /// The value of that word, where it is a number.
    pub fn value(&self, before: usize) -> Option<i64> {
        match number_of(self.word(before)?.bytes) {
            Number::Value(value) => Some(value),
            _ => None,
        }
    }
}

/// Whether the first words of a line are these.
fn begins_with(line: &[u8], front: &[&[u8]]) -> bool {
    let mut rest = line;
    for wanted in front {
        match first_word(rest) {
            Some((word, after)) if is_same(word, *wanted) => rest = after,
            _ => return false,
        }
    }
    true
}

/// Whether a word is this one, or the same number.
fn is_same(word: &[u8], wanted: &[u8]) -> bool {
    if word == wanted {
        return true;
    }
    match (number_of(word), number_of(wanted)) {
        (Number::Value(one), Number::Value(other)) => one == other,
        _ => false,
    }
}
