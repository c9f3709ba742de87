//! The heading of a flow shop, a line of `instance` and a name, byte by byte.
ghost use Rattle.std.specs.Prelude.{◌≡◌, ℕ, List, [], ◌∷◌, ◌++◌, length, true, false};
ghost use Rattle.tf_words.specs.Words.{words, is_white};
ghost use Rattle.tf_read.specs.FlowShop.{is_name_line};
ghost use Rattle.tf_read.specs.Heading.{spelling, HeadingShown};

use tf_words::word::is_white;

#[derive(Clone, Copy)]
pub(crate) enum HeadingWord {
    Instance,
    Name,
}

/// What the bytes of a line have shown of a heading.
#[derive(Clone, Copy)]
pub(crate) enum HeadingLine {
    /// The words before this one are over, and of this one so many bytes are there.
    Spelled(HeadingWord, usize),
    /// Both words, and white space.
    Whole,
    /// No heading, however the line goes on.
    Other,
}

fn spelling(word: HeadingWord, name: &[u8]) -> &[u8]
    ensures { result.now ≡ spelling word name.now }
{
    match word {
        HeadingWord::Instance => b"instance",
        HeadingWord::Name => name,
    }
}

/// With a byte more, which is not white, where so many bytes of the wanted word are there.
fn grown(word: HeadingWord, matched: usize, wanted: &[u8], byte: u8) -> HeadingLine
    ensures { (name : List ℕ) (bytes : List ℕ) → wanted.now ≡ spelling word name →
        is_white byte ≡ false →
        HeadingShown name bytes (HeadingLine.Spelled word matched) →
        HeadingShown name (bytes ++ byte ∷ []) result }
{
    if matched >= wanted.len() {
        return HeadingLine::Other;
    }
    if wanted[matched] != byte {
        return HeadingLine::Other;
    }
    HeadingLine::Spelled(word, matched + 1)
}

/// With a white byte more, where so many bytes are there of a word of this length.
fn ended(word: HeadingWord, matched: usize, len: usize) -> HeadingLine
    ensures { (name : List ℕ) (bytes : List ℕ) (byte : ℕ) → len ≡ length (spelling word name) →
        is_white byte ≡ true →
        HeadingShown name bytes (HeadingLine.Spelled word matched) →
        HeadingShown name (bytes ++ byte ∷ []) result }
{
    if matched == 0 {
        return HeadingLine::Spelled(word, 0);
    }
    if matched < len {
        return HeadingLine::Other;
    }
    match word {
        HeadingWord::Instance => HeadingLine::Spelled(HeadingWord::Name, 0),
        HeadingWord::Name => HeadingLine::Whole,
    }
}

impl HeadingLine {
    /// With one byte more of the line.
    pub(crate) fn push(self, name: &[u8], byte: u8) -> HeadingLine
        ensures { (bytes : List ℕ) → HeadingShown name.now bytes self →
            HeadingShown name.now (bytes ++ byte ∷ []) result }
    {
        match self {
            HeadingLine::Other => HeadingLine::Other,
            HeadingLine::Whole => {
                if is_white(byte) {
                    HeadingLine::Whole
                } else {
                    HeadingLine::Other
                }
            }
            HeadingLine::Spelled(word, matched) => {
                let wanted = spelling(word, name);
                if is_white(byte) {
                    ended(word, matched, wanted.len())
                } else {
                    grown(word, matched, wanted, byte)
                }
            }
        }
    }

    /// Whether the line is a heading, where it ends here.
    pub(crate) fn is_heading(self, name: &[u8]) -> bool
        ensures { (bytes : List ℕ) → HeadingShown name.now bytes self →
            result ≡ is_name_line name.now (words bytes) }
    {
        match self {
            HeadingLine::Whole => true,
            HeadingLine::Spelled(word, matched) => match word {
                HeadingWord::Instance => false,
                HeadingWord::Name => matched > 0 && matched == name.len(),
            },
            HeadingLine::Other => false,
        }
    }
}
