//! A command line, run over texts.
use crate::texts::Texts;
use std::alloc::{AllocError, Global};
use tf_command::console::Console;
use tf_grammar::grammar::command;
use tf_held::program::perform_asked;
use tf_options::command_line::understand;
use tf_text::counted::Counted;

/// What a command line gives: its status, and the bytes on standard output and standard error.
#[derive(Drop)]
pub struct Ended {
    pub status: u8,
    pub written: Vec<u8>,
    pub said: Vec<u8>,
}

/// A console whose devices are kept in memory.
type Kept<'a> = Console<&'a mut Vec<u8>, &'a mut Vec<u8>>;

/// Runs the command line of these words behind the program's name, as the program does, with or
/// without a terminal that shows how far it is.
pub fn run(
    alloc: Global,
    line: &str,
    texts: Texts<'_>,
    has_terminal: bool,
) -> Result<Ended, AllocError> {
    let words = words_of(alloc, line)?;
    let mut written = Vec::new(alloc);
    let mut shown = Vec::new(alloc);
    let mut said = Vec::new(alloc);
    let mut console = Console {
        alloc,
        writer: Counted::new(&mut written),
        errors: Counted::new(&mut said),
        terminal: if has_terminal {
            Some(Counted::new(&mut shown))
        } else {
            None
        },
    };
    let status = perform(&mut console, words.as_slice(), texts);
    drop(console);
    // Progress is shown before anything is said.
    shown.extend_from_slice(said.as_slice())?;
    Ok(Ended {
        status: status?,
        written,
        said: shown,
    })
}

/// Runs the command line, and gives its status.
fn perform(console: &mut Kept<'_>, words: &[String], texts: Texts<'_>) -> Result<u8, AllocError> {
    let line = understand(command(console.alloc)?, words, false);
    Ok(perform_asked(console, &texts, line.asked, words))
}

/// The program's name and the words of a line: parted by blanks, or between double quotes.
fn words_of(alloc: Global, line: &str) -> Result<Vec<String>, AllocError> {
    let mut words = Vec::new(alloc);
    words.push(String::from_str(alloc, "threefield")?)?;
    let mut is_quoted = false;
    for part in line.split('"') {
        if is_quoted {
            words.push(String::from_str(alloc, part)?)?;
        } else {
            for word in part.split_whitespace() {
                words.push(String::from_str(alloc, word)?)?;
            }
        }
        is_quoted = !is_quoted;
    }
    Ok(words)
}
