//! The names of the instances of a flow shop file.
ghost use Rattle.std.specs.Prelude.{◌≡◌, option_map};
ghost use Rattle.tf_held.specs.Headings.{heading_name, name_at};
ghost use Rattle.tf_words.specs.Words.{words};

use tf_export::line::next_line;
use tf_words::word::{first_word, is};

/// The name of the instance of this number, from 1, and nothing where there are fewer.
pub(crate) fn name_at(text: &[u8], number: u32) -> &[u8]
    ensures { result.now ≡ name_at text.now number }
{
    let mut rest = text;
    let mut passed = number;
    while !rest.is_empty() {
        let (line, more) = next_line(rest);
        if let Some(name) = heading_name(line) {
            if passed <= 1 {
                return name;
            }
            passed -= 1;
        }
        rest = more;
    }
    rest
}

/// The name behind the word `instance`, where a line has these two words alone.
fn heading_name(line: &[u8]) -> Option<&[u8]>
    ensures { option_map (λ name. name.now) result ≡ heading_name (words line.now) }
{
    let (word, behind) = first_word(line)?;
    let (name, more) = first_word(behind)?;
    if is(word, b"instance") && first_word(more).is_none() {
        Some(name)
    } else {
        None
    }
}
