//! The words of a text, with the numbers of their lines.
ghost use Rattle.std.specs.Prelude.{◌≡◌, ◌∷◌, [], MatchOption};
ghost use Rattle.tf_words.specs.Words.{words_from};

use crate::text_lines::TextLines;
use tf_words::word::first_word;

/// A word of a text.
#[derive(Clone, Copy)]
pub(crate) struct TextWord<'a> {
    /// The number of its line, from 1.
    pub(crate) line: u32,
    /// Its bytes.
    pub(crate) bytes: &'a [u8],
}

/// The words of a text from a place on.
#[derive(Clone, Copy)]
pub(crate) struct TextWords<'a> {
    // what is left of a line, and the number of the line
    line: &'a [u8],
    number: u32,
    below: TextLines<'a>,
}

impl<'a> TextWords<'a> {
    ghost use Rattle.tf_routes.specs.TextLeft.{lines_of, word_of, words_of};

    /// The words of some lines.
    pub(crate) fn new(lines: &TextLines<'a>) -> Self
        ensures { words_of result ≡ words_from lines.now.number (lines_of lines.now) }
    {
        TextWords {
            line: &[],
            number: 0,
            below: *lines,
        }
    }

    /// The first word, and the words after it.
    pub(crate) fn split_first(&self) -> Option<(TextWord<'a>, TextWords<'a>)>
        ensures { MatchOption result (words_of self.now ≡ [])
            (λ x. words_of self.now ≡ word_of x.0 ∷ words_of x.1) }
    {
        let mut line = self.line;
        let mut number = self.number;
        let mut below = self.below;
        loop {
            if let Some((bytes, rest)) = first_word(line) {
                let words = TextWords {
                    line: rest,
                    number,
                    below,
                };
                return Some((
                    TextWord {
                        line: number,
                        bytes,
                    },
                    words,
                ));
            }
            let Some((next, more)) = below.split_first() else {
                return None;
            };
            line = next;
            number = below.number;
            below = more;
        }
    }
}
