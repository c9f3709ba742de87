//! Plays session files: runs each command line that they show, in this process and over the texts
//! that they give, and compares what comes of it with what they show.
//!
//! The files lie in `data`, and `docs/tested.md` says how they are written.
#![tactic(auto)]

mod comparing;
mod playing;
mod reading;
mod running;
mod texts;

use playing::Session;
use std::process::ExitCode;
use std::{fs, io};

fn main(rt: HostRuntime) -> io::Result<ExitCode> {
    let mut all_well = true;
    for name in std::env::args(&rt)?.skip(1) {
        if !is_well(&rt, &name)? {
            all_well = false;
        }
    }
    if all_well {
        Ok(ExitCode::SUCCESS)
    } else {
        Ok(ExitCode::FAILURE)
    }
}

/// Plays a session file, prints what came of it, and tells whether all is as shown.
fn is_well(rt: &HostRuntime, name: &str) -> io::Result<bool> {
    let file = match fs::read_to_string(rt, name) {
        Ok(file) => file,
        Err(error) => {
            println!(rt; "{name}: cannot be read: {error}")?;
            return Ok(false);
        }
    };
    let mut session = Session::new(rt.alloc(), name);
    for (place, line) in file.split('\n').enumerate() {
        session.take(place.saturating_add(1), line)?;
    }
    let outcome = session.end()?;
    rt.print(outcome.report.as_str())?;
    Ok(outcome.is_well)
}
