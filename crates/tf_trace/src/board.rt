//! The board: sentences and tables, as plain text or for LaTeX.
use crate::latex;
use crate::table::{Cell, Table};
use std::alloc::{AllocError, Global};
use tf_model::ids::JobId;

/// The most rows of a table: longer ones are shortened in the middle.
pub(crate) const MOST_ROWS: usize = 60;

/// How the working is written.
#[derive(Clone, Copy, Debug, PartialEq, Eq)]
pub enum Style {
    /// As plain text, in columns.
    Plain,
    /// For LaTeX: a paragraph for each sentence, and `tabular`, or `longtable` for long tables.
    Latex,
}

/// The most columns of a line of plain text.
const MOST_COLUMNS: usize = 78;

/// What is written so far.
#[derive(Drop)]
pub struct Board {
    pub alloc: Global,
    /// The sentence that is being written.
    pub text: String,
    /// The table that is being written.
    pub table: Table,
    page: String,
    style: Style,
}

/// What is shown of a row of a table.
#[derive(Clone, Copy)]
pub(crate) enum Visible {
    Row,
    /// Dots stand for it and for those that are hidden.
    Gap,
    Hidden,
}

/// What is shown of the row at this place, of so many.
pub(crate) fn shown(place: usize, rows: usize) -> Visible {
    let half = MOST_ROWS / 2;
    if rows <= MOST_ROWS || place < half || rows.saturating_sub(place) <= half {
        Visible::Row
    } else if place == half {
        Visible::Gap
    } else {
        Visible::Hidden
    }
}

// What stands before a word behind so many columns, and how many there are then.
fn placed(columns: usize, word: usize) -> (&'static str, usize) {
    let behind = columns.saturating_add(1).saturating_add(word);
    if columns == 0 {
        ("", word)
    } else if behind > MOST_COLUMNS {
        ("\n", word)
    } else {
        (" ", behind)
    }
}

fn push_lines(page: &mut String, sentence: &str) -> Result<(), AllocError> {
    let mut columns: usize = 0;
    for word in sentence.split(' ') {
        let (gap, len) = placed(columns, word.len());
        columns = len;
        page.push_str(gap)?;
        page.push_str(word)?;
    }
    page.push('\n')
}

// The same for LaTeX.
fn push_paragraph(page: &mut String, alloc: Global, sentence: &str) -> Result<(), AllocError> {
    let mut columns: usize = 0;
    let mut shown = String::new(alloc);
    for word in sentence.split(' ') {
        shown.clear();
        latex::push_word(&mut shown, word)?;
        let (gap, len) = placed(columns, shown.len());
        columns = len;
        page.push_str(gap)?;
        page.push_str(shown.as_str())?;
    }
    page.push_str("\n\n")
}

impl Board {
    /// With nothing on it.
    pub fn new(alloc: Global, style: Style) -> Self {
        Board {
            alloc,
            text: String::new(alloc),
            table: Table::new(alloc),
            page: String::new(alloc),
            style,
        }
    }

    /// All that is written.
    pub fn into_page(self) -> String {
        self.page
    }

    /// A sentence on a line of its own.
    pub fn say(&mut self, sentence: &str) -> Result<(), AllocError> {
        self.text.push_str(sentence)?;
        self.end_sentence()
    }

    /// Ends a sentence: it is written in lines that are not too long.
    pub fn end_sentence(&mut self) -> Result<(), AllocError> {
        match self.style {
            Style::Plain => push_lines(&mut self.page, self.text.as_str())?,
            Style::Latex => push_paragraph(&mut self.page, self.alloc, self.text.as_str())?,
        }
        self.text.clear();
        Ok(())
    }

    /// Words, and then a list of jobs, shortened in the middle.
    pub(crate) fn list(&mut self, words: &str, jobs: &[JobId]) -> Result<(), AllocError> {
        self.text.push_str(words)?;
        if jobs.is_empty() {
            self.text.push_str(" none")?;
        }
        for (place, job) in jobs.iter().enumerate() {
            match shown(place, jobs.len()) {
                Visible::Row => write!(self.text, " {}", job.get())?,
                Visible::Gap => self.text.push_str(" ..")?,
                Visible::Hidden => {}
            }
        }
        Ok(())
    }

    /// A sentence of words and a list of jobs.
    pub(crate) fn say_list(&mut self, words: &str, jobs: &[JobId]) -> Result<(), AllocError> {
        self.list(words, jobs)?;
        self.end_sentence()
    }

    /// A row of the table, the one at this place of so many, as far as it is shown.
    pub fn row(&mut self, place: usize, rows: usize, cells: &[Cell<'_>]) -> Result<(), AllocError> {
        match shown(place, rows) {
            Visible::Row => self.table.row(cells),
            Visible::Gap => self.table.gap(),
            Visible::Hidden => Ok(()),
        }
    }

    /// Writes the table.
    pub fn show(&mut self) -> Result<(), AllocError> {
        match self.style {
            Style::Plain => {
                if !self.page.as_str().ends_with("\n\n") {
                    self.page.push('\n')?;
                }
                self.table.write_plain(&mut self.page)
            }
            Style::Latex => self.table.write_latex(&mut self.page),
        }
    }
}
