//! Lines of orders as rows of a table.
ghost use Rattle.std.specs.Prelude.{◌≡◌, ◌++◌, IfOk, OnOk};
ghost use Rattle.std.specs.List.{flat_map};
ghost use Rattle.tf_words.specs.Words.{words, lines};
ghost use Rattle.tf_export.specs.OrderRows.{first_word_of, labelled_row, order_cells, order_row};
ghost use Rattle.tf_export.specs.OrderRows.{blank_cells, heading, orders_csv, plain_row, quoted};
ghost use Rattle.tf_export.specs.OrderRows.{quoted_byte, value_cell, rated_cells, unrated_cells};

use crate::line::{behind_first, behind_heading, next_line};
use crate::orders::{colon_in, standing_of};
use crate::value::push_joined;
use std::alloc::Global;
use tf_model::memory::OutOfMemory;
use tf_words::word::{behind_key, first_word, is};

/// Adds a byte of a quoted value, in which quotation marks stand twice.
fn push_quoted_byte(csv: &mut Vec<u8>, byte: u8) -> Result<(), OutOfMemory>
    ensures { OnOk result (csv.new.items ≡ csv.old.items ++ quoted_byte byte) }
{
    if byte == b'"' {
        csv.extend_from_slice(b"\"\"")?;
        return Ok(());
    }
    csv.push(byte)?;
    Ok(())
}

fn push_quoted_bytes(csv: &mut Vec<u8>, bytes: &[u8]) -> Result<(), OutOfMemory>
    ensures { OnOk result (csv.new.items ≡ csv.old.items ++ flat_map quoted_byte bytes.now) }
{
    for byte in bytes {
        push_quoted_byte(csv, *byte)?;
    }
    Ok(())
}

/// Adds words with a blank between each two, in quotation marks.
fn push_quoted(alloc: Global, csv: &mut Vec<u8>, row: &[u8]) -> Result<(), OutOfMemory>
    ensures { OnOk result (csv.new.items ≡ csv.old.items ++ quoted (words row.now)) }
{
    let mut joined = Vec::new(alloc);
    push_joined(&mut joined, b' ', row)?;
    csv.push(b'"')?;
    push_quoted_bytes(csv, joined.as_slice())?;
    csv.push(b'"')?;
    Ok(())
}

/// Adds the first word of a line.
fn push_first(csv: &mut Vec<u8>, line: &[u8]) -> Result<(), OutOfMemory>
    ensures { OnOk result (csv.new.items ≡ csv.old.items ++ first_word_of (words line.now)) }
{
    match first_word(line) {
        None => Ok(()),
        Some((word, _)) => Ok(csv.extend_from_slice(word)?),
    }
}

/// The empty cells of the values by the other objectives, where those are asked for.
fn blank_cells(is_measured: bool) -> &'static [u8]
    ensures { result.now ≡ blank_cells is_measured }
{
    if is_measured { b",,,,,,,,," } else { b"" }
}

/// Adds what an order comes to: how it stands, its value and gap, perhaps its values by the other
/// objectives, and the reason why it has none.
fn push_cells(csv: &mut Vec<u8>, is_measured: bool, row: &[u8]) -> Result<(), OutOfMemory>
    ensures { OnOk result (csv.new.items
        ≡ csv.old.items ++ order_cells is_measured (words row.now)) }
{
    if let Some(reason) = behind_key(row, b"misfit") {
        return push_unrated(csv, is_measured, b",misfit,,", reason);
    }
    if let Some(reason) = behind_key(row, b"wrong") {
        return push_unrated(csv, is_measured, b",wrong,,", reason);
    }
    push_rated(csv, row)
}

fn push_unrated(
    csv: &mut Vec<u8>,
    is_measured: bool,
    cells: &[u8],
    reason: &[u8],
) -> Result<(), OutOfMemory>
    ensures { OnOk result (csv.new.items
        ≡ csv.old.items ++ unrated_cells is_measured cells.now (words reason.now)) }
{
    csv.extend_from_slice(cells)?;
    csv.extend_from_slice(blank_cells(is_measured))?;
    csv.push(b',')?;
    push_joined(csv, b' ', reason)
}

fn push_rated(csv: &mut Vec<u8>, row: &[u8]) -> Result<(), OutOfMemory>
    ensures { OnOk result (csv.new.items ≡ csv.old.items ++ rated_cells (words row.now)) }
{
    csv.push(b',')?;
    csv.extend_from_slice(standing_of(row))?;
    push_values(csv, row)?;
    csv.push(b',')?;
    Ok(())
}

/// Adds a cell for each word.
fn push_values(csv: &mut Vec<u8>, row: &[u8]) -> Result<(), OutOfMemory>
    ensures { OnOk result (csv.new.items
        ≡ csv.old.items ++ flat_map value_cell (words row.now)) }
{
    let mut rest = row;
    while let Some((word, more)) = first_word(rest) {
        push_value(csv, word)?;
        rest = more;
    }
    Ok(())
}

/// Adds a value, and nothing for `-`, which stands for one that is not known.
fn push_value(csv: &mut Vec<u8>, word: &[u8]) -> Result<(), OutOfMemory>
    ensures { OnOk result (csv.new.items ≡ csv.old.items ++ value_cell word.now) }
{
    csv.push(b',')?;
    if !is(word, b"-") {
        csv.extend_from_slice(word)?;
    }
    Ok(())
}

fn push_plain_row(csv: &mut Vec<u8>, is_measured: bool, line: &[u8]) -> Result<(), OutOfMemory>
    ensures { OnOk result (csv.new.items
        ≡ csv.old.items ++ plain_row is_measured (words line.now)) }
{
    push_first(csv, line)?;
    csv.push(b',')?;
    push_cells(csv, is_measured, behind_first(line))?;
    csv.push(b'\n')?;
    Ok(())
}

/// Adds the order of a line whose number and label stand in front of a row.
fn push_labelled_row(
    alloc: Global,
    csv: &mut Vec<u8>,
    is_measured: bool,
    front: &[u8],
    row: &[u8],
) -> Result<(), OutOfMemory>
    ensures { OnOk result (csv.new.items
        ≡ csv.old.items ++ labelled_row is_measured (words front.now) (words row.now)) }
{
    push_first(csv, front)?;
    csv.push(b',')?;
    push_quoted(alloc, csv, behind_first(front))?;
    push_cells(csv, is_measured, row)?;
    csv.push(b'\n')?;
    Ok(())
}

fn push_order_row(
    alloc: Global,
    csv: &mut Vec<u8>,
    is_measured: bool,
    line: &[u8],
) -> Result<(), OutOfMemory>
    ensures { OnOk result (csv.new.items ≡ csv.old.items ++ order_row is_measured line.now) }
{
    match colon_in(line) {
        None => push_plain_row(csv, is_measured, line),
        Some(place) => {
            push_labelled_row(alloc, csv, is_measured, &line[..place], &line[place + 1..])
        }
    }
}

fn push_order_rows(
    alloc: Global,
    csv: &mut Vec<u8>,
    is_measured: bool,
    text: &[u8],
) -> Result<(), OutOfMemory>
    ensures { OnOk result (csv.new.items
        ≡ csv.old.items ++ flat_map (order_row is_measured) (lines text.now)) }
{
    let mut rest = text;
    while !rest.is_empty() {
        let (line, more) = next_line(rest);
        push_order_row(alloc, csv, is_measured, line)?;
        rest = more;
    }
    Ok(())
}

/// The heading of a table of orders.
fn heading(is_measured: bool) -> &'static [u8]
    ensures { result.now ≡ heading is_measured }
{
    if is_measured {
        b"line,label,standing,value,gap,Cmax,Lmax,Tmax,sumC,sumwC,sumT,sumwT,sumU,sumwU,reason\n"
    } else {
        b"line,label,standing,value,gap,reason\n"
    }
}

/// A table of orders: a heading, and a row for each. Behind the first line the text has a line for
/// each order: its number, perhaps a label and a colon, and what the order comes to, with its
/// values by the other objectives where those are asked for.
///
/// # Errors
///
/// There was no memory.
#[tactic(auto, unfolding(crate::specs::OrderRows::orders_csv))]
pub fn orders_csv(alloc: Global, is_measured: bool, text: &[u8]) -> Result<Vec<u8>, OutOfMemory>
    ensures { IfOk result (λ csv. csv.items ≡ orders_csv is_measured text.now) }
{
    let mut csv = Vec::from_slice(alloc, heading(is_measured))?;
    push_order_rows(alloc, &mut csv, is_measured, behind_heading(text))?;
    Ok(csv)
}
