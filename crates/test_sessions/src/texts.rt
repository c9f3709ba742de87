//! Texts in place of files.
use std::alloc::{AllocError, Global};
use std::io;
use tf_command::source::Sources;

/// The system's error for a file that is not there.
const NO_SUCH_FILE: i32 = 2;

/// A text and its name.
#[derive(Drop)]
pub struct NamedText<'a> {
    pub name: &'a str,
    pub text: String,
}

impl NamedText<'_> {
    /// Adds a line.
    pub fn add(&mut self, line: &str) -> Result<(), AllocError> {
        push(&mut self.text, line)
    }

    /// Puts a line in place of one, counted from 1, and tells whether there is one.
    pub fn change(&mut self, alloc: Global, place: usize, line: &str) -> Result<bool, AllocError> {
        let mut changed = String::new(alloc);
        let mut lines = 0usize;
        let mut is_found = false;
        for own in self.text.split_inclusive('\n') {
            lines = lines.saturating_add(1);
            if lines == place {
                is_found = true;
                push(&mut changed, line)?;
            } else {
                changed.push_str(own)?;
            }
        }
        self.text = changed;
        Ok(is_found)
    }
}

/// Puts a line behind a text, and a line feed unless it ends with a backslash, which stands for
/// none.
fn push(text: &mut String, line: &str) -> Result<(), AllocError> {
    match line.strip_suffix("\\") {
        Some(line) => text.push_str(line),
        None => {
            text.push_str(line)?;
            text.push('\n')
        }
    }
}

/// The texts of a session. Of two with one name the later counts.
#[derive(Clone, Copy)]
pub struct Texts<'a> {
    pub all: &'a [NamedText<'a>],
}

impl<'a> Texts<'a> {
    /// The text of that name.
    pub fn find(&self, name: &str) -> Option<&'a str> {
        let mut found = None;
        for text in self.all {
            if text.name == name {
                found = Some(text.text.as_str());
            }
        }
        found
    }
}

impl<'a> Sources for Texts<'a> {
    type Source = &'a [u8];

    /// The text of that name. Standard input is empty where no text stands for it.
    fn open(&self, name: &str) -> io::Result<&'a [u8]> {
        match self.find(name) {
            Some(text) => Ok(text.as_bytes()),
            None if name == "-" => Ok(b""),
            None => Err(io::Error::from_raw_os_error(NO_SUCH_FILE)),
        }
    }

    fn size(&self, name: &str) -> Option<usize> {
        Some(self.find(name)?.len())
    }
}
