//! Words of a text.
ghost use Rattle.std.specs.Prelude.{◌≡◌, ◌<◌, ◌≤◌, [], ◌∷◌, length, drop, true, false, not};
ghost use Rattle.std.specs.Prelude.{MatchOption, IfSome, position};
ghost use Rattle.std.specs.Str.{bytes_eq};
ghost use Rattle.tf_words.specs.Words.{is_white, words, first_is};

/// Whether the word is spelled like this, in the same case.
pub fn is(word: &[u8], spelling: &[u8]) -> bool
    ensures { result ≡ bytes_eq word.now spelling.now }
{
    word == spelling
}

/// Whether the byte divides words: a blank, a tab, a carriage return or a line feed.
pub fn is_white(byte: u8) -> bool
    ensures { result ≡ is_white byte }
{
    // Of most bytes the first comparison is enough.
    byte <= b' ' && matches!(byte, b' ' | b'\t' | b'\r' | b'\n')
}

/// The place of the first byte that divides words.
pub fn white_at(text: &[u8]) -> Option<usize>
    ensures { result ≡ position is_white text.now }
{
    text.iter().position(|byte| is_white(*byte))
}

/// The place of the first byte of a word.
pub fn word_at(text: &[u8]) -> Option<usize>
    ensures { result ≡ position (λ b. not (is_white b)) text.now }
{
    text.iter().position(|byte| !is_white(*byte))
}

/// The first word of a text, and what follows it.
pub fn first_word(text: &[u8]) -> Option<(&[u8], &[u8])>
    ensures words { MatchOption result (words text.now ≡ [])
        (λ x. words text.now ≡ x.0.now ∷ words x.1.now) }
    ensures shorter { IfSome result (λ x. length x.1.now < length text.now) }
    ensures some { IfSome result (λ x. 0 < length x.0.now) }
{
    match word_at(text) {
        None => None,
        Some(start) => {
            let (_, from) = text.split_at(start);
            match white_at(from) {
                None => Some((from, &[])),
                Some(len) => Some(from.split_at(len)),
            }
        }
    }
}

/// What follows the first word of a text, if that word is this key.
pub fn behind_key<'a>(text: &'a [u8], key: &[u8]) -> Option<&'a [u8]>
    ensures { MatchOption result (first_is key.now (words text.now) ≡ false)
        (λ after. (first_is key.now (words text.now) ≡ true)
        × (words after.now ≡ drop 1 (words text.now))) }
{
    let (first, after) = first_word(text)?;
    if is(first, key) { Some(after) } else { None }
}
