//! A session, line by line.
use crate::comparing::Shown;
use crate::reading::Line;
use crate::running::run;
use crate::texts::{NamedText, Texts};
use std::alloc::{AllocError, Global};

/// What was read of a session file, and what came of its commands.
#[derive(Drop)]
pub struct Session<'a> {
    alloc: Global,
    name: &'a str,
    texts: Vec<NamedText<'a>>,
    /// The last command line, which is run where the lines that it shows end.
    shown: Option<Shown<'a>>,
    met: usize,
    faults: usize,
    report: String,
}

/// What came of a session.
#[derive(Drop)]
pub struct Outcome {
    pub is_well: bool,
    pub report: String,
}

impl<'a> Session<'a> {
    /// The session of a file of which no line is read.
    pub fn new(alloc: Global, name: &'a str) -> Session<'a> {
        Session {
            alloc,
            name,
            texts: Vec::new(alloc),
            shown: None,
            met: 0,
            faults: 0,
            report: String::new(alloc),
        }
    }

    /// Takes the next line, which stands at this place of the file, from 1.
    pub fn take(&mut self, place: usize, line: &'a str) -> Result<(), AllocError> {
        let Some(read) = Line::read(line) else {
            return self.complain(place, line);
        };
        if read.begins_anew() {
            self.run_shown()?;
        }
        if self.is_taken(place, read)? {
            Ok(())
        } else {
            self.complain(place, line)
        }
    }

    /// Takes a line, and tells whether it has a place where it stands.
    fn is_taken(&mut self, place: usize, line: Line<'a>) -> Result<bool, AllocError> {
        match line {
            Line::Nothing => Ok(true),
            Line::Written(line) => self.show(line, false),
            Line::Said(line) => self.show(line, true),
            Line::Status(status) => Ok(self.show_status(status)),
            Line::Command(words) => {
                self.shown = Some(Shown::new(self.alloc, place, words));
                Ok(true)
            }
            Line::File(name) => self.begin(name, String::new(self.alloc)),
            Line::Copy(name, other) => self.copy(name, other),
            Line::Text(line) => self.add(line),
            Line::Changed(place, line) => self.change(place, line),
        }
    }

    /// What came of the whole file.
    pub fn end(mut self) -> Result<Outcome, AllocError> {
        self.run_shown()?;
        let (name, met, faults) = (self.name, self.met, self.faults);
        write!(self.report, "{name}: {met} commands end as shown")?;
        if faults > 0 {
            write!(self.report, "; faults: {faults}")?;
        }
        self.report.push('\n')?;
        Ok(Outcome {
            is_well: faults == 0,
            report: self.report,
        })
    }

    /// Runs the command whose lines have ended, and compares.
    fn run_shown(&mut self) -> Result<(), AllocError> {
        let Some(shown) = self.shown.take() else {
            return Ok(());
        };
        let texts = Texts {
            all: self.texts.as_slice(),
        };
        let ended = run(self.alloc, shown.command, texts, shown.has_terminal())?;
        if shown.is_met(&ended) {
            self.met = self.met.saturating_add(1);
            return Ok(());
        }
        self.faults = self.faults.saturating_add(1);
        let (name, place, command) = (self.name, shown.place, shown.command);
        writeln!(self.report, "{name}, line {place}: $ threefield {command}")?;
        shown.differ(self.alloc, &ended, &mut self.report)
    }

    /// Says that a line is none of a session, or has no place where it stands.
    fn complain(&mut self, place: usize, line: &str) -> Result<(), AllocError> {
        self.faults = self.faults.saturating_add(1);
        let name = self.name;
        writeln!(
            self.report,
            "{name}, line {place}: no line of a session, or out of place: {line}"
        )
    }

    /// Adds a line to what is shown of the last command, if there is one.
    fn show(&mut self, line: &str, is_said: bool) -> Result<bool, AllocError> {
        let Some(shown) = &mut self.shown else {
            return Ok(false);
        };
        let text = if is_said {
            &mut shown.said
        } else {
            &mut shown.written
        };
        text.push_str(line)?;
        text.push('\n')?;
        Ok(true)
    }

    fn show_status(&mut self, status: u8) -> bool {
        match &mut self.shown {
            None => false,
            Some(shown) => {
                shown.status = status;
                true
            }
        }
    }

    fn begin(&mut self, name: &'a str, text: String) -> Result<bool, AllocError> {
        self.texts.push(NamedText { name, text })?;
        Ok(true)
    }

    fn copy(&mut self, name: &'a str, other: &str) -> Result<bool, AllocError> {
        let texts = Texts {
            all: self.texts.as_slice(),
        };
        let Some(text) = texts.find(other) else {
            return Ok(false);
        };
        let text = String::from_str(self.alloc, text)?;
        self.begin(name, text)
    }

    fn add(&mut self, line: &str) -> Result<bool, AllocError> {
        match self.texts.last_mut() {
            None => Ok(false),
            Some(text) => {
                text.add(line)?;
                Ok(true)
            }
        }
    }

    fn change(&mut self, place: usize, line: &str) -> Result<bool, AllocError> {
        match self.texts.last_mut() {
            None => Ok(false),
            Some(text) => text.change(self.alloc, place, line),
        }
    }
}
