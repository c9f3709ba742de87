//! The lines of orders, written.
ghost use Rattle.std.specs.Prelude.{◌≡◌, ◌∷◌, ◌++◌, codes, OnOk};
ghost use Rattle.std.specs.Fmt.{decimal};
ghost use Rattle.tf_assess.specs.Measures.{measured_words};
ghost use Rattle.tf_text.specs.AnswerText.{line_text};
ghost use Rattle.tf_orders.specs.OrderText.{row_words, wrong_words};

use crate::flaw::Flaw;
use itoa::Buffer;
use std::alloc::Allocator;
use tf_assess::measures::{Measures, push_values};
use tf_evaluate::evaluation::ProblemFit;
use tf_evaluate::writing::push_fit;
use tf_model::memory::OutOfMemory;
use tf_text::answer::writing::{push_number, push_number_line};

// Adds a line of a value, its gap and these measures.
fn push_rated<A: Allocator>(
    text: &mut Vec<u8, A>,
    value: &[u8],
    gap: u128,
    measures: &Option<Measures>,
) -> Result<(), OutOfMemory>
    ensures { OnOk result (text.new.items ≡ text.old.items
        ++ line_text (value.now ∷ decimal gap ∷ measured_words measures.now)) }
{
    text.extend_from_slice(value)?;
    push_number(text, gap)?;
    push_values(text, measures)?;
    text.push(b'\n')?;
    Ok(())
}

/// Adds the line of an order: the cost and the gap to the least one or to a lower bound, with these
/// measures, or the misfit.
pub(crate) fn push_row<A: Allocator>(
    text: &mut Vec<u8, A>,
    fit: ProblemFit,
    least: i128,
    measures: &Option<Measures>,
) -> Result<(), OutOfMemory>
    ensures { OnOk result (text.new.items
        ≡ text.old.items ++ line_text (row_words fit least measures.now)) }
{
    match fit {
        ProblemFit::Fits(Some(value)) => {
            let mut digits = Buffer::new();
            push_rated(
                text,
                digits.format(value).as_bytes(),
                value.abs_diff(least),
                measures,
            )
        }
        ProblemFit::Fits(None) => push_unknown(text, measures),
        fit => push_fit(text, &Some(fit)),
    }
}

// Adds a line of a cost that is not known, and these measures.
fn push_unknown<A: Allocator>(
    text: &mut Vec<u8, A>,
    measures: &Option<Measures>,
) -> Result<(), OutOfMemory>
    ensures { OnOk result (text.new.items ≡ text.old.items
        ++ line_text (codes "-" ∷ codes "-" ∷ measured_words measures.now)) }
{
    text.extend_from_slice(b"- -")?;
    push_values(text, measures)?;
    text.push(b'\n')?;
    Ok(())
}

/// Adds the line of a text that says no order: what is wrong with it, if that is known.
pub(crate) fn push_flaw<A: Allocator>(
    text: &mut Vec<u8, A>,
    flaw: Option<Flaw>,
) -> Result<(), OutOfMemory>
    ensures { OnOk result (text.new.items ≡ text.old.items
        ++ line_text (wrong_words flaw)) }
{
    let Some(flaw) = flaw else {
        text.extend_from_slice(b"wrong\n")?;
        return Ok(());
    };
    match flaw {
        Flaw::Word(place) => push_number_line(text, b"wrong word", place),
        Flaw::Twice(job) => push_number_line(text, b"wrong twice", job.get()),
        Flaw::Missing(job) => push_number_line(text, b"wrong missing", job.get()),
        Flaw::Seldom(job) => push_number_line(text, b"wrong seldom", job.get()),
        Flaw::Often(job) => push_number_line(text, b"wrong often", job.get()),
        Flaw::Lists => {
            text.extend_from_slice(b"wrong lists\n")?;
            Ok(())
        }
    }
}
