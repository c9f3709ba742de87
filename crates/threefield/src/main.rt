//! `threefield` solves machine scheduling problems named in three-field notation.
#![tactic(auto)]

mod files;
mod output;

use files::Files;
use output::Output;
use std::alloc::AllocError;
use std::io;
use std::io::{IsTerminal, Write};
use std::process::ExitCode;
use tf_command::console::Console;
use tf_command::formatted::JSON_MEMORY;
use tf_command::gathered::send;
use tf_command::report::{say_device, say_memory, say_usage};
use tf_grammar::grammar::command;
use tf_held::program::perform_asked;
use tf_options::command_line::understand;
use tf_options::options::Asked;
use tf_text::counted::Counted;

/// The largest freed block, in bytes, that the allocator keeps. A table of 100,000 jobs is seldom
/// longer.
const KEPT_BLOCK: usize = 12 << 20;

fn main(rt: HostRuntime) -> ExitCode {
    keep_blocks(&rt);
    ExitCode::from(program(&rt))
}

/// Reserves a block and frees it. After that the allocator of glibc keeps freed blocks up to this
/// size and reuses them, instead of returning them to the system and asking for new pages. If the
/// block cannot be reserved, nothing changes.
fn keep_blocks(rt: &HostRuntime) {
    let block: Result<Vec<u8>, AllocError> = Vec::with_capacity(rt.alloc(), KEPT_BLOCK);
    drop(block);
}

/// The status that the process ends with.
fn program(rt: &HostRuntime) -> u8 {
    let mut errors = Counted::new(rt.stderr());
    let words = match std::env::args(rt) {
        Ok(words) => words,
        Err(e) if e.kind() == io::ErrorKind::OutOfMemory => return say_memory(&mut errors),
        Err(_) => return say_usage(&mut errors, "an argument is no text"),
    };
    let words: Result<Vec<String>, AllocError> = words.collect(rt.alloc());
    let Ok(words) = words else {
        return say_memory(&mut errors);
    };
    let words = words.as_slice();
    let Ok(command) = command(rt.alloc()) else {
        return say_early_memory(&mut errors, words);
    };
    let is_terminal = rt.stderr().is_terminal();
    let line = understand(command, words, is_terminal);
    if let Asked::NoMemory = line.asked {
        return say_early_memory(&mut errors, words);
    }
    let terminal = if is_terminal {
        Some(Counted::new(rt.stderr()))
    } else {
        None
    };
    let mut console = console(rt, errors, terminal, Output::of(rt, line.output));
    let status = perform_asked(&mut console, &Files { rt }, line.asked, words);
    end_output(&mut console, status)
}

/// Says that there was no memory before a command ran, as JSON where that is asked for, and gives
/// the exit status.
fn say_early_memory<E: Write>(errors: &mut Counted<E>, words: &[String]) -> u8 {
    if words.iter().any(|word| word.as_str() == "--json") {
        send(errors, JSON_MEMORY);
        return 3;
    }
    say_memory(errors)
}

/// Where the output goes, standard error, the terminal that it is, if it is one, and the memory of
/// the process.
fn console<'a, E: Write + Drop>(
    rt: &'a HostRuntime,
    errors: Counted<E>,
    terminal: Option<Counted<E>>,
    output: Output<'a>,
) -> Console<Output<'a>, E> {
    Console {
        alloc: rt.alloc(),
        writer: Counted::new(output),
        errors,
        terminal,
    }
}

/// Makes the file of an output that is empty where a command ended well, and gives the exit status.
fn end_output<E: Write>(console: &mut Console<Output<'_>, E>, status: u8) -> u8 {
    let is_answered = matches!(status, 0 | 1 | 6);
    if is_answered && console.writer.inner().make_if_unwritten().is_err() {
        return say_device(&mut console.errors);
    }
    status
}
