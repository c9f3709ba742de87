//! A number, followed byte by byte.
ghost use Rattle.std.specs.Prelude.{◌≡◌, ℕ, List, [], ◌∷◌, ◌++◌};
ghost use Rattle.tf_words.specs.SoFar.{next, with_byte, so_far};

use crate::digits::with_digit;

/// What the bytes of a word have shown so far, as a number.
#[derive(Clone, Copy, Debug, PartialEq, Eq)]
pub enum SoFar {
    /// There was none.
    Empty,
    /// A '-' alone.
    Minus,
    /// Digits: whether a '-' stands before them, and what they write, or the greatest number of 64
    /// bits if that is less.
    Digits(bool, u64),
    /// No number, however the word goes on.
    Bad,
}

fn with_byte(negative: bool, size: u64, byte: u8) -> SoFar
    ensures { result ≡ with_byte negative size byte }
{
    if byte.is_ascii_digit() {
        SoFar::Digits(negative, with_digit(size, byte))
    } else {
        SoFar::Bad
    }
}

fn next(so_far: SoFar, byte: u8) -> SoFar
    ensures { result ≡ next so_far byte }
{
    match so_far {
        SoFar::Empty => {
            if byte == b'-' {
                SoFar::Minus
            } else {
                with_byte(false, 0, byte)
            }
        }
        SoFar::Minus => with_byte(true, 0, byte),
        SoFar::Digits(negative, size) => with_byte(negative, size, byte),
        SoFar::Bad => SoFar::Bad,
    }
}

impl SoFar {
    /// With one byte more of the word.
    pub fn push(self, byte: u8) -> SoFar
        ensures { (word : List ℕ) → self ≡ so_far word → result ≡ so_far (word ++ byte ∷ []) }
    {
        next(self, byte)
    }
}
