//! The parts of a word.
ghost use Rattle.std.specs.Prelude.{◌≡◌, ◌==◌, ◌<◌, [], ◌∷◌, length, position, option_map};
ghost use Rattle.std.specs.Prelude.{MatchOption, IfSome};
ghost use Rattle.std.specs.List.{before_first, position_or_len};
ghost use Rattle.tf_words.specs.WordParts.{divided, is_comma, parts, later_parts};

fn place_of(word: &[u8], byte: u8) -> Option<usize>
    ensures { result ≡ position (λ b. b == byte) word.now }
{
    word.iter().position(|b| *b == byte)
}

/// A word in two, at the first of a byte.
pub fn divided(word: &[u8], byte: u8) -> Option<(&[u8], &[u8])>
    ensures { option_map (λ x. (x.0.now, x.1.now)) result ≡ divided byte word.now }
{
    match place_of(word, byte) {
        None => None,
        Some(at) => {
            let (front, _) = word.split_at(at);
            let (_, back) = word.split_at(at + 1);
            Some((front, back))
        }
    }
}

/// The first part of a word, and the word from the first ',' on.
pub fn first_part(word: &[u8]) -> (&[u8], &[u8])
    ensures { parts word.now ≡ result.0.now ∷ later_parts result.1.now }
{
    match place_of(word, b',') {
        None => (word, &[]),
        Some(at) => word.split_at(at),
    }
}

/// The part behind the ',' with which a text begins, and the text from the next ',' on.
pub fn next_part(text: &[u8]) -> Option<(&[u8], &[u8])>
    ensures parts { MatchOption result (later_parts text.now ≡ [])
        (λ x. later_parts text.now ≡ x.0.now ∷ later_parts x.1.now) }
    ensures shorter { IfSome result (λ x. length x.1.now < length text.now) }
{
    if text.is_empty() {
        return None;
    }
    let (_, more) = text.split_at(1);
    match place_of(more, b',') {
        None => Some((more, &[])),
        Some(at) => Some(more.split_at(at)),
    }
}
