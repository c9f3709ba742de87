//! What is said of a command line that is none of the program's.
ghost use Rattle.std.specs.Prelude.{◌≡◌, ◌⊎◌};

use std::alloc::{AllocError, Global};
use std::io::Write;
use tf_advice::page::escape;
use tf_command::gathered::send;
use tf_command::report::say_memory;
use tf_grammar::grammar::command;
use tf_options::command_line::understand;
use tf_options::options::Asked;
use tf_text::counted::Counted;

/// Says what is wrong with a command line that is none of the program's, and gives the exit status.
/// The words are shown escaped, so that none of them can steer a terminal or begin a line.
pub fn say_misuse<W: Write>(alloc: Global, words: &[String], errors: &mut Counted<W>) -> u8
    ensures { (result ≡ 5) ⊎ (result ≡ 3) }
{
    match misuse(alloc, words) {
        Ok(text) => {
            send(errors, text.as_bytes());
            5
        }
        Err(_) => say_memory(errors),
    }
}

/// The words of the same fault where it is made with escaped words.
fn misuse(alloc: Global, words: &[String]) -> Result<String, AllocError> {
    let mut shown = Vec::with_capacity(alloc, words.len())?;
    for word in words {
        shown.push(escape(alloc, word.as_str())?)?;
    }
    let asked = understand(command(alloc)?, shown.as_slice(), false).asked;
    let mut text = match asked {
        Asked::Misused(error) => error.to_string(alloc)?,
        _ => String::from_str(alloc, "error: an argument is not valid\n")?,
    };
    if has_bare_problem(words) {
        text.push_str("\nWrite -p before the problem, as in -p \"1||Lmax\".\n")?;
    }
    Ok(text)
}

/// Whether a word looks like a problem, and the option that names a problem is missing.
fn has_bare_problem(words: &[String]) -> bool {
    let is_named = |word: &String| word.starts_with("-p") || word.starts_with("--problem");
    !words.iter().any(is_named) && words.iter().any(|word| word.contains("|"))
}
