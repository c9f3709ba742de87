//! Lines of orders with their numbers.
ghost use Rattle.std.specs.Prelude.{◌≡◌, ◌++◌, ◌≤◌, length, IfOk, OnOk};
ghost use Rattle.tf_words.specs.Words.{kept_lines, lines};
ghost use Rattle.tf_model.specs.Limit.{most_bytes};
ghost use Rattle.tf_orders.specs.OrderText.{measure_line, numbered, numbered_row};

use crate::measure::Measure;
use itoa::Buffer;
use std::alloc::Allocator;
use tf_export::line::next_line;
use tf_model::memory::OutOfMemory;
use tf_text::answer::writing::push_number_line;
use tf_words::line::Lines;

/// The rows of the lines of a text with their numbers, behind a line of what the orders are
/// measured by.
pub(crate) fn with_numbers<A: Allocator + Copy, B: Allocator>(
    alloc: A,
    measure: &Measure<B>,
    rows: &[u8],
    text: &[u8],
) -> Result<Vec<u8, A>, OutOfMemory>
    requires { length text.now ≤ most_bytes }
    ensures { IfOk result (λ out. out.items ≡ measure_line measure.now
        ++ numbered (kept_lines 1 (lines text.now)) (lines rows.now)) }
{
    let mut out = Vec::new(alloc);
    push_measure(&mut out, measure)?;
    push_numbered(&mut out, rows, text)?;
    Ok(out)
}

// Adds a line of the optimum or of the lower bound.
fn push_measure<A: Allocator, B: Allocator>(
    out: &mut Vec<u8, A>,
    measure: &Measure<B>,
) -> Result<(), OutOfMemory>
    ensures { OnOk result (out.new.items ≡ out.old.items ++ measure_line measure.now) }
{
    match measure {
        Measure::Optimum { best, .. } => push_number_line(out, b"best", *best),
        Measure::Bound { weighed, .. } => { push_number_line(out, b"bound", weighed.bound.value) }
    }
}

// Adds each row behind the number of its line.
fn push_numbered<A: Allocator>(
    out: &mut Vec<u8, A>,
    rows: &[u8],
    text: &[u8],
) -> Result<(), OutOfMemory>
    requires { length text.now ≤ most_bytes }
    ensures { OnOk result (out.new.items ≡ out.old.items
        ++ numbered (kept_lines 1 (lines text.now)) (lines rows.now)) }
{
    let mut left = rows;
    let mut lines = Lines::new(text);
    while let Some((line, more)) = lines.split_first() {
        if left.is_empty() {
            return Ok(());
        }
        let (row, others) = next_line(left);
        push_numbered_row(out, line.number, row)?;
        left = others;
        lines = more;
    }
    Ok(())
}

fn push_numbered_row<A: Allocator>(
    out: &mut Vec<u8, A>,
    number: u32,
    row: &[u8],
) -> Result<(), OutOfMemory>
    ensures { OnOk result (out.new.items ≡ out.old.items ++ numbered_row number row.now) }
{
    let mut digits = Buffer::new();
    out.extend_from_slice(digits.format(number).as_bytes())?;
    out.push(b' ')?;
    out.extend_from_slice(row)?;
    out.push(b'\n')?;
    Ok(())
}
