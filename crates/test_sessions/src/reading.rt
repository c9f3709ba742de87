//! The lines of a session file.

/// A line by what it begins with.
#[derive(Clone, Copy)]
pub enum Line<'a> {
    /// A remark, or an empty line.
    Nothing,
    /// `file NAME`: a text begins.
    File(&'a str),
    /// `file NAME from OTHER`: a text begins as that of another name.
    Copy(&'a str, &'a str),
    /// `< LINE`: a further line of the text.
    Text(&'a str),
    /// `N< LINE`: a line of the text in place of its Nth.
    Changed(usize, &'a str),
    /// `$ threefield WORDS`: a command line.
    Command(&'a str),
    /// `> LINE`: a line of standard output.
    Written(&'a str),
    /// `! LINE`: a line of standard error.
    Said(&'a str),
    /// `= STATUS`: the exit status.
    Status(u8),
}

impl<'a> Line<'a> {
    /// The line, if it begins like one of a session.
    pub fn read(line: &'a str) -> Option<Line<'a>> {
        if line.is_empty() || line.starts_with("#") {
            Some(Line::Nothing)
        } else if let Some(text) = behind(line, "<") {
            Some(Line::Text(text))
        } else if let Some(text) = behind(line, ">") {
            Some(Line::Written(text))
        } else if let Some(text) = behind(line, "!") {
            Some(Line::Said(text))
        } else if let Some(words) = behind(line, "$ threefield") {
            Some(Line::Command(words))
        } else if let Some(names) = behind(line, "file") {
            Some(named(names))
        } else if let Some(status) = behind(line, "=") {
            Some(Line::Status(status.parse::<u8>().ok()?))
        } else {
            changed(line)
        }
    }

    /// Whether it ends what is shown of the command before it.
    pub fn begins_anew(&self) -> bool {
        match self {
            Line::Nothing | Line::Written(_) | Line::Said(_) | Line::Status(_) => false,
            _ => true,
        }
    }
}

/// What stands behind a sign and a blank, or behind the sign alone.
fn behind<'a>(line: &'a str, sign: &str) -> Option<&'a str> {
    let rest = line.strip_prefix(sign)?;
    if rest.is_empty() {
        Some(rest)
    } else {
        rest.strip_prefix(" ")
    }
}

fn named(names: &str) -> Line<'_> {
    match names.split_once(" from ") {
        Some((name, other)) => Line::Copy(name, other),
        None => Line::File(names),
    }
}

fn changed(line: &str) -> Option<Line<'_>> {
    let (place, text) = line.split_once("< ")?;
    Some(Line::Changed(place.parse::<usize>().ok()?, text))
}
