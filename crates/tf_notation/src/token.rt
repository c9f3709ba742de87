//! The tokens of a text: words of letters, digits and `_`, and each other byte by itself.
ghost use Rattle.std.specs.Prelude.{◌≡◌, ℕ, ◌+◌, ◌<◌, ◌≤◌, [], ◌∷◌, length, take, drop, false, not};
ghost use Rattle.std.specs.Prelude.{slice_index, MatchOption, IfSome, position};
ghost use Rattle.std.specs.List.{position_or_len};
ghost use Rattle.tf_notation.specs.Tokens.{tokens_from, tokens_after, is_gap, is_word_byte};

/// Whether a byte only divides tokens: a blank or a tab.
fn is_gap(byte: u8) -> bool
    ensures { result ≡ is_gap byte }
{
    matches!(byte, b' ' | b'\t')
}

/// Whether a byte belongs to a word.
fn is_word_byte(byte: u8) -> bool
    ensures { result ≡ is_word_byte byte }
{
    byte.is_ascii_alphanumeric() || byte == b'_'
}

/// Where the first token starts.
fn token_start(text: &[u8]) -> Option<usize>
    ensures { result ≡ position (λ b. not (is_gap b)) text.now }
{
    text.iter().position(|byte| !is_gap(*byte))
}

/// Where the word ends at which the text begins, if the text goes on after it.
fn word_end(text: &[u8]) -> Option<usize>
    ensures { result ≡ position (λ b. not (is_word_byte b)) text.now }
{
    text.iter().position(|byte| !is_word_byte(*byte))
}

/// How many bytes of a word the text begins with.
fn word_len(text: &[u8]) -> usize
    ensures { result ≡ position_or_len (λ b. not (is_word_byte b)) text.now }
{
    match word_end(text) {
        None => text.len(),
        Some(len) => len,
    }
}

/// How long the token is at which the text begins.
fn token_len(text: &[u8]) -> usize
    requires some { 0 < length text.now }
    requires at_token { is_gap (slice_index text.now 0) ≡ false }
    ensures token { (offset : ℕ) → tokens_from offset text.now
        ≡ record { start = offset; bytes = take result text.now }
        ∷ tokens_from (offset + result) (drop result text.now) }
    ensures inside { result ≤ length text.now }
    ensures some { 0 < result }
{
    if is_word_byte(text[0]) {
        word_len(text)
    } else {
        1
    }
}

/// A token and its place in the text.
#[derive(Clone, Copy, Debug)]
pub(crate) struct Token<'a> {
    pub(crate) word: &'a [u8],
    /// The offset of its first byte.
    pub(crate) start: usize,
    /// The offset behind its last byte.
    pub(crate) end: usize,
}

/// The first token from an offset on.
pub(crate) fn next_token(text: &[u8], offset: usize) -> Option<Token<'_>>
    requires { offset ≤ length text.now }
    ensures token { MatchOption result (tokens_after text.now offset ≡ [])
        (λ t. tokens_after text.now offset ≡ record { start = t.start; bytes = t.word.now }
        ∷ tokens_after text.now t.end) }
    ensures inside { IfSome result (λ t. (offset < t.end) × (t.end ≤ length text.now)) }
{
    let (_, rest) = text.split_at(offset);
    match token_start(rest) {
        None => None,
        Some(gap) => {
            let (_, from) = rest.split_at(gap);
            let len = token_len(from);
            let (word, _) = from.split_at(len);
            let start = offset + gap;
            Some(Token {
                word,
                start,
                end: start + len,
            })
        }
    }
}
