//! The lines of a text, with their numbers.
ghost use Rattle.std.specs.Prelude.{◌≡◌, ◌+◌, ◌-◌, ◌^◌, ◌<◌, ◌∷◌, [], length, IfSome, MatchOption};
ghost use Rattle.tf_words.specs.Words.{lines};

use tf_words::line::line_len;

/// The lines of a text from a numbered one on.
#[derive(Clone, Copy)]
pub(crate) struct TextLines<'a> {
    /// The number of the first of them, where the lines of the whole text count from 1.
    pub(crate) number: u32,
    /// Their bytes.
    pub(crate) text: &'a [u8],
    ghost room: { number + length text.now < 2 ^ 32 },
}

/// The first line of a text, and what follows its line feed.
fn next_line(text: &[u8]) -> (&[u8], &[u8])
    requires { 0 < length text.now }
    ensures lines { lines text.now ≡ result.0.now ∷ lines result.1.now }
    ensures shorter { length result.1.now < length text.now }
{
    let len = line_len(text);
    if len == text.len() {
        return (text, &[]);
    }
    let (line, from) = text.split_at(len);
    let (_, rest) = from.split_at(1);
    (line, rest)
}

impl<'a> TextLines<'a> {
    ghost use Rattle.tf_routes.specs.TextLeft.{lines_of};

    /// All lines of a text.
    pub(crate) fn new(text: &'a [u8]) -> Self
        requires { length text.now < 2 ^ 32 - 1 }
        ensures number { result.number ≡ 1 }
        ensures lines { lines_of result ≡ lines text.now }
    {
        TextLines { number: 1, text }
    }

    /// The first line, and the lines below it.
    pub(crate) fn split_first(&self) -> Option<(&'a [u8], TextLines<'a>)>
        ensures lines { MatchOption result (lines_of self.now ≡ [])
            (λ x. lines_of self.now ≡ x.0.now ∷ lines_of x.1) }
        ensures number { IfSome result (λ x. x.1.number ≡ self.now.number + 1) }
        ensures shorter { IfSome result (λ x. length x.1.text.now < length self.now.text.now) }
    {
        if self.text.is_empty() {
            return None;
        }
        let (line, text) = next_line(self.text);
        let below = TextLines {
            number: self.number + 1,
            text,
        };
        Some((line, below))
    }
}
