//! The formats of other programs.
use tf_export::csv::Table;
use tf_export::documents::Document;

/// A format in which output is written in place of a text of lines and words.
#[derive(Clone, Copy, Debug, PartialEq, Eq)]
pub enum Format {
    /// This document as a JSON object, and what is said on standard error as another.
    Json(Document),
    /// The rows of this table, with commas between the values of each.
    Csv(Table),
    /// A row of each order of a list, with commas between its values.
    OrderRows,
    /// The same with its values by the other objectives.
    MeasuredRows,
    /// A list of orders as text, and a summary of it.
    Summary,
}
