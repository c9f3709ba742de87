//! What is written: sentences, and lines of a text with a mark.
use crate::source::{Source, SourceLine, Word};
use std::alloc::{AllocError, Global};

/// The most bytes of a line that are shown.
const MOST_SHOWN: usize = 70;

/// What stands before a line of a text.
const MARGIN: &str = "    ";

/// An explanation as it is written.
#[derive(Drop)]
pub struct Page {
    pub alloc: Global,
    pub text: String,
}

impl Page {
    pub fn new(alloc: Global) -> Page {
        Page {
            alloc,
            text: String::new(alloc),
        }
    }

    /// A line of its own.
    pub fn say(&mut self, sentence: &str) -> Result<(), AllocError> {
        self.text.push_str(sentence)?;
        self.text.push('\n')
    }

    /// A line of its own that begins with a name, which is escaped.
    pub fn say_of(&mut self, name: &str, sentence: &str) -> Result<(), AllocError> {
        push_name(&mut self.text, name)?;
        self.say(sentence)
    }

    /// A line of its own that begins with what a source is called.
    pub fn say_of_source(&mut self, source: &Source<'_>, sentence: &str) -> Result<(), AllocError> {
        source.push_title(&mut self.text)?;
        self.say(sentence)
    }

    /// A line of a source with its number, and marks under one of its words.
    pub fn quote(
        &mut self,
        source: &Source<'_>,
        line: &SourceLine<'_>,
        word: Option<Word<'_>>,
    ) -> Result<(), AllocError> {
        source.push_title(&mut self.text)?;
        let number = line.number;
        writeln!(self.text, ", line {number}:")?;
        self.show(line.bytes)?;
        match word {
            Some(word) => self.mark(line.bytes, word.start, word.bytes.len()),
            None => Ok(()),
        }
    }

    /// The line of that number, where there is one.
    pub fn quote_number(&mut self, source: &Source<'_>, number: usize) -> Result<(), AllocError> {
        match source.line(number) {
            Some(line) => self.quote(source, &line, None),
            None => Ok(()),
        }
    }

    /// Bytes on a line of their own: unprintable ones are escaped, and a long line is cut.
    pub fn show(&mut self, bytes: &[u8]) -> Result<(), AllocError> {
        self.text.push_str(MARGIN)?;
        push_bytes(&mut self.text, front_of(bytes))?;
        if bytes.len() > MOST_SHOWN {
            self.text.push_str(" ..")?;
        }
        self.text.push('\n')
    }

    /// Marks under some of the bytes that were shown last.
    pub fn mark(&mut self, bytes: &[u8], start: usize, len: usize) -> Result<(), AllocError> {
        if start > MOST_SHOWN {
            return Ok(());
        }
        let shown = front_of(bytes);
        let (before, behind) = shown.split_at(start.min(shown.len()));
        let marked = behind.get(..len).unwrap_or(behind);
        self.text.push_str(MARGIN)?;
        push_times(&mut self.text, ' ', width_of(before))?;
        push_times(&mut self.text, '^', width_of(marked).max(1))?;
        self.text.push('\n')
    }
}

/// A name or an argument as it is printed: each byte that is no printable ASCII is escaped, as
/// those of a text are, so that it can neither steer a terminal nor begin a line, and a backslash
/// is doubled, so that it looks like no escape.
pub fn escape(alloc: Global, text: &str) -> Result<String, AllocError> {
    let mut escaped = String::new(alloc);
    push_name(&mut escaped, text)?;
    Ok(escaped)
}

/// Adds a name or an argument as [`escape`] gives it.
pub fn push_name(text: &mut String, name: &str) -> Result<(), AllocError> {
    push_bytes(text, name.as_bytes())
}

fn is_plain(byte: u8) -> bool {
    byte == b'\t' || byte == b' ' || byte.is_ascii_graphic()
}

/// What is shown of a line.
fn front_of(bytes: &[u8]) -> &[u8] {
    bytes.get(..MOST_SHOWN).unwrap_or(bytes)
}

/// How many columns some bytes take.
fn width_of(bytes: &[u8]) -> usize {
    let mut columns: usize = 0;
    for byte in bytes {
        columns = columns.saturating_add(columns_of(*byte));
    }
    columns
}

fn columns_of(byte: u8) -> usize {
    match byte {
        b'\\' => 2,
        _ if is_plain(byte) => 1,
        _ => 4,
    }
}

fn push_bytes(text: &mut String, bytes: &[u8]) -> Result<(), AllocError> {
    for byte in bytes {
        push_byte(text, *byte)?;
    }
    Ok(())
}

fn push_byte(text: &mut String, byte: u8) -> Result<(), AllocError> {
    match byte {
        b'\t' => text.push(' '),
        b'\\' => text.push_str("\\\\"),
        _ if is_plain(byte) => text.push(char::from(byte)),
        _ => write!(text, "\\x{byte:02x}"),
    }
}

fn push_times(text: &mut String, c: char, times: usize) -> Result<(), AllocError> {
    for _ in 0..times {
        text.push(c)?;
    }
    Ok(())
}

/// A word as a sentence names it.
pub fn push_word(text: &mut String, word: &[u8]) -> Result<(), AllocError> {
    text.push('"')?;
    push_bytes(text, front_of(word))?;
    text.push('"')
}
