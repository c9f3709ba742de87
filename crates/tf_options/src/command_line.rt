//! The words of a command line, understood.
ghost use Rattle.std.specs.Prelude.{ℕ, Bool, List, map, string_bytes, IfSome};
ghost use Rattle.clap.specs.Words.{App, app_of};
ghost use Rattle.tf_options.specs.Columns.{HasColumns};
ghost use Rattle.tf_options.specs.Understanding.{IsOutputIn, IsUnderstood};

use crate::options::{Asked, understand_given};
use clap::error::ErrorKind;
use clap::{Command, Error};

/// What a command line asks for, and where its output goes.
#[derive(Drop)]
pub struct CommandLine<'a> {
    pub asked: Asked<'a>,
    /// The name of the file that takes the output, where one is given.
    pub output: Option<&'a str>,
}

/// What the words ask for. With `--explain=auto`, the default, it is explained on a terminal.
pub fn understand<'a>(
    command: Command<'a>,
    words: &'a [String],
    on_terminal: bool,
) -> CommandLine<'a>
    ensures columns { HasColumns result.asked }
    ensures understood { IsUnderstood (app_of command.entry) (map string_bytes words.now)
        on_terminal result.asked }
    ensures output { IfSome result.output
        (λ name. IsOutputIn (app_of command.entry) (map string_bytes words.now) name.now) }
{
    let matches = match command.try_get_matches_from(words) {
        Ok(matches) => matches,
        Err(error) => {
            return CommandLine {
                asked: refused(error),
                output: None,
            };
        }
    };
    match matches.subcommand() {
        None => CommandLine {
            asked: Asked::NoMemory,
            output: None,
        },
        Some((name, given)) => CommandLine {
            asked: understand_given(name, given, on_terminal),
            output: given.get_str("output"),
        },
    }
}

fn refused<'a>(error: Error) -> Asked<'a>
    ensures columns { HasColumns result }
    ensures told { (app : App) (words : List (List ℕ)) (on_terminal : Bool) →
        IsUnderstood app words on_terminal result }
{
    if error.kind() == ErrorKind::OutOfMemory {
        return Asked::NoMemory;
    }
    if error.use_stderr() {
        Asked::Misused(error)
    } else {
        Asked::Help(error)
    }
}
