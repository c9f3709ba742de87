//! Tables of values with commas between them (CSV), for spreadsheets.
ghost use Rattle.std.specs.Prelude.{◌≡◌, ◌++◌, length, IfOk, OnOk};
ghost use Rattle.std.specs.List.{flat_map};
ghost use Rattle.tf_words.specs.Words.{words};
ghost use Rattle.tf_export.specs.Members.{rows, row_in};
ghost use Rattle.tf_export.specs.Csv.{csv_line, column_names, row_key, csv_of};

use crate::documents::{OUTCOME_NAMES, PIECE_NAMES};
use crate::line::{count_words, next_line, row_in};
use crate::value::push_joined;
use std::alloc::Global;
use tf_model::memory::OutOfMemory;

/// What the rows of a table are.
#[derive(Clone, Copy, Debug, PartialEq, Eq)]
pub enum Table {
    /// The pieces of an answer.
    Pieces,
    /// The jobs of an evaluation.
    Outcomes,
}

impl Table {
    /// The names of the columns.
    pub(crate) fn column_names(self) -> &'static [u8]
        ensures { result.now ≡ column_names self }
    {
        match self {
            Table::Pieces => PIECE_NAMES,
            Table::Outcomes => OUTCOME_NAMES,
        }
    }

    /// The first word of the lines that are its rows.
    pub(crate) fn row_key(self) -> &'static [u8]
        ensures { result.now ≡ row_key self }
    {
        match self {
            Table::Pieces => b"piece",
            Table::Outcomes => b"job",
        }
    }
}

/// Adds a line of values.
fn push_line(text: &mut Vec<u8>, row: &[u8]) -> Result<(), OutOfMemory>
    ensures { OnOk result (text.new.items ≡ text.old.items ++ csv_line (words row.now)) }
{
    push_joined(text, b',', row)?;
    text.push(b'\n')?;
    Ok(())
}

/// Adds a line of a key, if it has so many words behind it.
fn push_row(csv: &mut Vec<u8>, key: &[u8], count: usize, line: &[u8]) -> Result<(), OutOfMemory>
    ensures { OnOk result (csv.new.items
        ≡ csv.old.items ++ flat_map csv_line (row_in key.now count (words line.now))) }
{
    match row_in(line, key, count) {
        None => Ok(()),
        Some(row) => push_line(csv, row),
    }
}

/// Adds the lines of a key that have a word for each name.
fn push_rows(csv: &mut Vec<u8>, key: &[u8], names: &[u8], text: &[u8]) -> Result<(), OutOfMemory>
    ensures { OnOk result (csv.new.items
        ≡ csv.old.items ++ flat_map csv_line (rows key.now names.now text.now)) }
{
    let count = count_words(names);
    let mut rest = text;
    while !rest.is_empty() {
        let (line, more) = next_line(rest);
        push_row(csv, key, count, line)?;
        rest = more;
    }
    Ok(())
}

/// A table of what a command printed: a heading, and a line for each row.
///
/// # Errors
///
/// There was no memory.
#[tactic(auto, unfolding(crate::specs::Csv::csv_of))]
pub fn csv(alloc: Global, table: Table, text: &[u8]) -> Result<Vec<u8>, OutOfMemory>
    ensures { IfOk result (λ csv. csv.items ≡ csv_of table text.now) }
{
    let mut csv = Vec::new(alloc);
    push_line(&mut csv, table.column_names())?;
    push_rows(&mut csv, table.row_key(), table.column_names(), text)?;
    Ok(csv)
}
