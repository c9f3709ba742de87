//! Reading the words of a text byte by byte, as numbers.
ghost use Rattle.std.specs.Prelude.{◌≡◌, ℕ, ◌+◌, ◌^◌, ◌<◌, ◌≤◌, ◌++◌, List, [], ◌∷◌, length, take};
ghost use Rattle.std.specs.Prelude.{MatchOption, IfSome, None};
ghost use Rattle.tf_words.specs.Words.{Word, lines, words_from};
ghost use Rattle.tf_words.specs.Scan.{number_shown, line_after, AreBlanks, IsAt, IsOf, IsInRange};

use crate::first_line::digits_first;
use crate::number::{Number, number_sized};
use crate::so_far::SoFar;
use crate::word::is_white;

/// Where the reading of a text stands: the line's number, and what the bytes of the present word
/// have shown.
#[derive(Clone, Copy, Debug)]
pub struct Scan {
    pub line: u32,
    pub shown: SoFar,
}

fn line_after(line: u32, byte: u8) -> u32
    requires { line + 1 < 2 ^ 32 }
    ensures { result ≡ line_after line byte }
{
    if byte == b'\n' { line + 1 } else { line }
}

/// What follows the blanks with which a text begins.
#[inline(always)]
fn behind_blanks(text: &[u8]) -> &[u8]
    ensures { (blanks : List ℕ) × AreBlanks blanks × (text.now ≡ blanks ++ result.now) }
{
    let mut rest = text;
    while let [b' ', from @ ..] = rest {
        rest = from;
    }
    rest
}

fn number_shown(shown: SoFar) -> Number
    ensures value { result ≡ number_shown shown }
    ensures range { IsInRange result }
{
    match shown {
        SoFar::Digits(negative, size) => number_sized(negative, size),
        SoFar::Empty | SoFar::Minus | SoFar::Bad => Number::NotANumber,
    }
}

impl Scan {
    /// The front of a text that begins on this line.
    pub fn new(line: u32) -> Scan
        ensures front { IsAt line [] [] result.line result.shown }
        ensures line { result.line ≡ line }
    {
        Scan {
            line,
            shown: SoFar::Empty,
        }
    }

    /// The word so far, if there is one: its line and its number.
    pub fn ended(&self) -> Option<(u32, Number)>
        ensures range { IfSome result (λ w. IsInRange w.1) }
        ensures word { (first : ℕ) (fed : List ℕ) (seen : List Word) →
            IsAt first fed seen self.now.line self.now.shown →
            MatchOption result (words_from first (lines fed) ≡ seen)
            (λ w. (word : Word) × IsOf word w.0 w.1
            × (words_from first (lines fed) ≡ seen ++ word ∷ [])) }
    {
        match self.shown {
            SoFar::Empty => None,
            shown => Some((self.line, number_shown(shown))),
        }
    }

    /// With one byte more, and the word that it ends, if it does.
    pub fn push(&mut self, byte: u8) -> Option<(u32, Number)>
        requires { self.old.line + 1 < 2 ^ 32 }
        ensures later { self.new.line ≤ self.old.line + 1 }
        ensures range { IfSome result (λ w. IsInRange w.1) }
        ensures fed { (first : ℕ) (fed : List ℕ) (seen : List Word) →
            IsAt first fed seen self.old.line self.old.shown →
            MatchOption result (IsAt first (fed ++ byte ∷ []) seen self.new.line self.new.shown)
            (λ w. (word : Word) × IsOf word w.0 w.1
            × IsAt first (fed ++ byte ∷ []) (seen ++ word ∷ []) self.new.line self.new.shown) }
    {
        if !is_white(byte) {
            self.shown = self.shown.push(byte);
            return None;
        }
        let line = self.line;
        let shown = self.shown;
        self.line = line_after(line, byte);
        self.shown = SoFar::Empty;
        match shown {
            SoFar::Empty => None,
            shown => Some((line, number_shown(shown))),
        }
    }

    /// With the number with which a piece begins, maybe behind blanks, and the white byte that ends
    /// it: the line, the number, and what follows. None where a word has begun before, and where
    /// the piece begins otherwise.
    #[inline(always)]
    pub fn numeral<'a>(&mut self, piece: &'a [u8]) -> Option<(u32, i64, &'a [u8])>
        requires { self.old.line + length piece.now < 2 ^ 32 }
        ensures later { IfSome result (λ w.
            self.new.line + length w.2.now ≤ self.old.line + length piece.now) }
        ensures shorter { IfSome result (λ w. length w.2.now < length piece.now) }
        ensures none { result ≡ None → self.new ≡ self.old }
        ensures range { IfSome result (λ w. IsInRange (Number.Value w.1)) }
        ensures fed { IfSome result (λ w. (first : ℕ) (fed : List ℕ) (seen : List Word) →
            IsAt first fed seen self.old.line self.old.shown →
            (word : Word) × (before : List ℕ) × IsOf word w.0 (Number.Value w.1)
            × IsAt first before (seen ++ word ∷ []) self.new.line self.new.shown
            × (before ++ w.2.now ≡ fed ++ piece.now)) }
    {
        let SoFar::Empty = self.shown else {
            return None;
        };
        let (size, behind) = digits_first(behind_blanks(piece))?;
        let [end, rest @ ..] = behind else {
            return None;
        };
        if !is_white(*end) {
            return None;
        }
        let line = self.line;
        self.line = line_after(line, *end);
        Some((line, size as i64, rest))
    }

    /// With the bytes of a piece up to the first that ends a word, or with all of them: how many
    /// these are, and the word.
    #[inline(never)]
    pub fn advance(&mut self, piece: &[u8]) -> (usize, Option<(u32, Number)>)
        requires { self.old.line + length piece.now < 2 ^ 32 }
        ensures some { 0 < length piece.now → 0 < result.0 }
        ensures within { result.0 ≤ length piece.now }
        ensures later { self.new.line ≤ self.old.line + result.0 }
        ensures range { IfSome result.1 (λ w. IsInRange w.1) }
        ensures fed { (first : ℕ) (fed : List ℕ) (seen : List Word) →
            IsAt first fed seen self.old.line self.old.shown →
            MatchOption result.1
            (IsAt first (fed ++ take result.0 piece.now) seen self.new.line self.new.shown)
            (λ w. (word : Word) × IsOf word w.0 w.1 ×
            IsAt first (fed ++ take result.0 piece.now) (seen ++ word ∷ []) self.new.line
            self.new.shown) }
    {
        let mut scan = *self;
        for k in 0..piece.len() {
            match scan.push(piece[k]) {
                None => {}
                Some(word) => {
                    *self = scan;
                    return (k + 1, Some(word));
                }
            }
        }
        *self = scan;
        (piece.len(), None)
    }
}
