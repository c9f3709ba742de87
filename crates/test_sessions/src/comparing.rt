//! What a session shows of a command, and in what another outcome differs from it.
use crate::running::Ended;
use std::alloc::{AllocError, Global};

/// A command line, and what a session shows of it.
#[derive(Drop)]
pub struct Shown<'a> {
    /// The line of the session file, from 1.
    pub place: usize,
    pub command: &'a str,
    pub status: u8,
    pub written: String,
    pub said: String,
}

impl<'a> Shown<'a> {
    /// A command of which nothing is shown yet.
    pub fn new(alloc: Global, place: usize, command: &'a str) -> Shown<'a> {
        Shown {
            place,
            command,
            status: 0,
            written: String::new(alloc),
            said: String::new(alloc),
        }
    }

    /// Whether it is played with a terminal. That shows of a range of instances whose turn it is,
    /// so such a command has one only where this is shown.
    pub fn has_terminal(&self) -> bool {
        !self.command.contains("--index") || self.said.contains('\r')
    }

    /// Whether the command ends exactly as shown.
    pub fn is_met(&self, ended: &Ended) -> bool {
        ended.status == self.status
            && ended.written.as_slice() == self.written.as_bytes()
            && ended.said.as_slice() == self.said.as_bytes()
    }

    /// Adds to a report in what the outcome differs.
    pub fn differ(
        &self,
        alloc: Global,
        ended: &Ended,
        report: &mut String,
    ) -> Result<(), AllocError> {
        if ended.status != self.status {
            let (wanted, given) = (self.status, ended.status);
            writeln!(report, "shown is status {wanted}, and it ends with {given}")?;
        }
        if ended.written.as_slice() != self.written.as_bytes() {
            let written = String::from_utf8_lossy(alloc, &ended.written)?;
            contrast("standard output", '>', &self.written, &written, report)?;
        }
        if ended.said.as_slice() != self.said.as_bytes() {
            let said = String::from_utf8_lossy(alloc, &ended.said)?;
            contrast("standard error", '!', &self.said, &said, report)?;
        }
        Ok(())
    }
}

/// Adds to a report what is shown, and what came in its place.
fn contrast(
    device: &str,
    sign: char,
    shown: &str,
    given: &str,
    report: &mut String,
) -> Result<(), AllocError> {
    writeln!(report, "shown on {device}:")?;
    list(sign, shown, report)?;
    writeln!(report, "given on {device}:")?;
    list(sign, given, report)
}

fn list(sign: char, text: &str, report: &mut String) -> Result<(), AllocError> {
    for line in text.split_inclusive('\n') {
        match line.strip_suffix("\n") {
            Some(line) => writeln!(report, "    {sign} {line}")?,
            None => writeln!(report, "    {sign} {line} (without a line feed)")?,
        }
    }
    Ok(())
}
