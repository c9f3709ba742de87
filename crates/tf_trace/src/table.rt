//! Tables: headings, and rows of as many cells.
use crate::latex;
use std::alloc::{AllocError, Global};

/// The most columns of a table.
const MOST_COLUMNS: usize = 8;

/// The most lines of a `tabular`, which stands on one page.
const MOST_LINES: usize = 31;

/// A cell of a row.
#[derive(Clone, Copy)]
pub enum Cell<'a> {
    Number(i128),
    /// A fraction.
    Ratio(u64, u64),
    Words(&'a str),
}

/// A table as it is written.
#[derive(Drop)]
pub struct Table {
    /// A line for the headings and for each row, with tabs between the cells.
    text: String,
    /// The greatest number of bytes of a cell, column by column.
    widths: [usize; MOST_COLUMNS],
    columns: usize,
    /// Whether the last column holds words, which stand at its left.
    is_ragged: bool,
}

impl Table {
    pub(crate) fn new(alloc: Global) -> Self {
        Table {
            text: String::new(alloc),
            widths: [0; MOST_COLUMNS],
            columns: 0,
            is_ragged: false,
        }
    }

    /// Begins anew with these headings.
    pub fn begin(&mut self, headings: &[&str]) -> Result<(), AllocError> {
        self.text.clear();
        self.widths = [0; MOST_COLUMNS];
        self.columns = headings.len();
        self.is_ragged = false;
        for (column, heading) in headings.iter().enumerate() {
            self.push(column, Cell::Words(heading))?;
        }
        self.text.push('\n')
    }

    /// The same, where the last column holds words.
    pub fn begin_ragged(&mut self, headings: &[&str]) -> Result<(), AllocError> {
        self.begin(headings)?;
        self.is_ragged = true;
        Ok(())
    }

    /// A row more.
    pub(crate) fn row(&mut self, cells: &[Cell<'_>]) -> Result<(), AllocError> {
        for (column, cell) in cells.iter().enumerate() {
            self.push(column, *cell)?;
        }
        self.text.push('\n')
    }

    /// A row that stands for those that are hidden.
    pub(crate) fn gap(&mut self) -> Result<(), AllocError> {
        for column in 0..self.columns {
            self.push(column, Cell::Words(".."))?;
        }
        self.text.push('\n')
    }

    // Adds a cell to the last line.
    fn push(&mut self, column: usize, cell: Cell<'_>) -> Result<(), AllocError> {
        self.text.push_str(if column == 0 { "" } else { "\t" })?;
        let len = push_cell(&mut self.text, cell)?;
        if let Some(width) = self.widths.get_mut(column) {
            *width = len.max(*width);
        }
        Ok(())
    }

    /// In columns, with an empty line behind.
    pub(crate) fn write_plain(&self, text: &mut String) -> Result<(), AllocError> {
        for row in self.text.as_str().split('\n') {
            if !row.is_empty() {
                self.write_row(text, row)?;
                text.push('\n')?;
            }
        }
        text.push('\n')
    }

    fn write_row(&self, text: &mut String, row: &str) -> Result<(), AllocError> {
        for (column, cell) in row.split('\t').enumerate() {
            if !self.is_last(column) || !cell.is_empty() {
                text.push_str(if column == 0 { "" } else { "  " })?;
                push_spaces(text, self.blanks(column, cell))?;
                text.push_str(cell)?;
            }
        }
        Ok(())
    }

    // How many blanks stand before a cell of a column.
    fn blanks(&self, column: usize, cell: &str) -> usize {
        match self.widths.get(column) {
            Some(width) if !self.is_left(column) => width.saturating_sub(cell.len()),
            _ => 0,
        }
    }

    // Whether the cells of a column stand at its left.
    fn is_left(&self, column: usize) -> bool {
        self.is_ragged && self.is_last(column)
    }

    fn is_last(&self, column: usize) -> bool {
        column.saturating_add(1) == self.columns
    }

    /// For LaTeX: a long table breaks over pages, with its headings on each.
    pub(crate) fn write_latex(&self, text: &mut String) -> Result<(), AllocError> {
        let is_long = self.text.as_str().split('\n').count() > MOST_LINES + 1;
        text.push_str(if is_long {
            "\\begin{longtable}{"
        } else {
            "\\begin{center}\\begin{tabular}{"
        })?;
        for column in 0..self.columns {
            text.push_str(if self.is_left(column) {
                "p{0.45\\linewidth}"
            } else {
                "r"
            })?;
        }
        text.push_str("}\n")?;
        for (line, row) in self.text.as_str().split('\n').enumerate() {
            if !row.is_empty() {
                self.write_line(text, line, row)?;
                text.push_str(match (line, is_long) {
                    (0, true) => " \\hline \\endhead\n",
                    (0, false) => " \\hline\n",
                    _ => "\n",
                })?;
            }
        }
        text.push_str(if is_long {
            "\\end{longtable}\n\n"
        } else {
            "\\end{tabular}\\end{center}\n\n"
        })
    }

    // A line of a table for LaTeX; the first one holds the headings.
    fn write_line(&self, text: &mut String, line: usize, row: &str) -> Result<(), AllocError> {
        for (column, cell) in row.split('\t').enumerate() {
            text.push_str(if column == 0 { "" } else { " & " })?;
            text.push_str(if self.is_left(column) {
                "\\raggedright "
            } else {
                ""
            })?;
            if line == 0 {
                latex::push_heading(text, cell)?;
            } else {
                push_words(text, cell)?;
            }
        }
        text.push_str(if self.is_ragged {
            " \\tabularnewline"
        } else {
            " \\\\"
        })
    }
}

// Adds a cell, and tells how many bytes it has.
fn push_cell(text: &mut String, cell: Cell<'_>) -> Result<usize, AllocError> {
    let before = text.len();
    match cell {
        Cell::Number(number) => write!(text, "{number}")?,
        Cell::Ratio(of, by) => write!(text, "{of}/{by}")?,
        Cell::Words(words) => text.push_str(words)?,
    }
    Ok(text.len().saturating_sub(before))
}

fn push_spaces(text: &mut String, times: usize) -> Result<(), AllocError> {
    for _ in 0..times {
        text.push(' ')?;
    }
    Ok(())
}

// The words of a cell for LaTeX.
fn push_words(text: &mut String, cell: &str) -> Result<(), AllocError> {
    for (place, word) in cell.split(' ').enumerate() {
        text.push_str(if place == 0 { "" } else { " " })?;
        latex::push_word(text, word)?;
    }
    Ok(())
}
