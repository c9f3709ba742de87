//! A line for one instance of a series, from the text that a command prints for it.
ghost use Rattle.std.specs.Prelude.{◌≡◌, ◌∷◌, ◌++◌, OnOk};
ghost use Rattle.std.specs.List.{flat_map};
ghost use Rattle.tf_words.specs.Words.{words, lines};
ghost use Rattle.tf_export.specs.Entry.{entry, told_in, told_of};

use crate::line::next_line;
use crate::value::push_behind;
use itoa::Buffer;
use tf_model::memory::OutOfMemory;
use tf_words::word::{first_word, is};

/// Adds what a line tells: a value, a gap, or a misfit.
fn push_told(all: &mut Vec<u8>, line: &[u8]) -> Result<(), OutOfMemory>
    ensures { OnOk result (all.new.items
        ≡ all.old.items ++ flat_map (λ word. 32 ∷ word) (told_in (words line.now))) }
{
    let Some((key, row)) = first_word(line) else {
        return Ok(());
    };
    if is(key, b"misfit") {
        return push_behind(all, b' ', line);
    }
    if is(key, b"value") || is(key, b"gap") {
        return push_behind(all, b' ', row);
    }
    Ok(())
}

/// Adds what the lines of a text tell.
fn push_lines(all: &mut Vec<u8>, text: &[u8]) -> Result<(), OutOfMemory>
    ensures { OnOk result (all.new.items ≡ all.old.items ++ flat_map told_of (lines text.now)) }
{
    let mut rest = text;
    while !rest.is_empty() {
        let (line, more) = next_line(rest);
        push_told(all, line)?;
        rest = more;
    }
    Ok(())
}

/// Adds a line for the instance of this number: the number, and what the text tells that a command
/// printed for it, an answer's or a bound's value, and of an evaluation the value and the gap, or
/// the misfit.
///
/// # Errors
///
/// There was no memory.
pub fn push_entry(all: &mut Vec<u8>, number: u32, text: &[u8]) -> Result<(), OutOfMemory>
    ensures { OnOk result (all.new.items ≡ all.old.items ++ entry number text.now) }
{
    let mut digits = Buffer::new();
    all.extend_from_slice(digits.format(number).as_bytes())?;
    push_lines(all, text)?;
    all.push(b'\n')?;
    Ok(())
}
