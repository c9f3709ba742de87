//! Work whose output is written in a format.
ghost use Rattle.std.specs.Prelude.{◌≡◌};
ghost use Rattle.tf_asked.specs.Columns.{IsSized};
ghost use Rattle.tf_options.specs.Columns.{HasColumns};
ghost use Rattle.tf_options.specs.FormatAsked.{border_format, orders_format, source_in_format};
ghost use Rattle.tf_options.specs.FormatAsked.{work_in_format};

use crate::options::Asked;
use tf_asked::aids::Aids;
use tf_asked::format::Format;
use tf_asked::options::{Options, OrderSource, Work};
use tf_export::documents::Document;

/// Work with its output in this format: a list of orders with the numbers of their lines, from
/// which each format of such a list is made.
pub(crate) fn work_in_format(work: Work<'_>, format: Format) -> Asked<'_>
    requires { IsSized work }
    ensures columns { HasColumns result }
    ensures format { result ≡ work_in_format work.entry format }
{
    match work {
        Work::Rate(options, source, aids) => source_in_format(options, source, aids, format),
        Work::Border => Asked::Formatted(Work::Border, border_format(format)),
        other => Asked::Formatted(other, format),
    }
}

// Evaluations of orders or pieces with their output in this format.
fn source_in_format<'a>(
    options: Options<'a>,
    source: OrderSource<'a>,
    aids: Aids<'a>,
    format: Format,
) -> Asked<'a>
    ensures columns { HasColumns result }
    ensures format { result ≡ source_in_format options.entry source.entry aids.entry format }
{
    match source {
        OrderSource::Named { name, goes_on, .. } => {
            let orders = OrderSource::Named {
                name,
                goes_on,
                is_numbered: true,
            };
            let format = orders_format(format, options.telling.measures);
            Asked::Formatted(Work::Rate(options, orders, aids), format)
        }
        other => Asked::Formatted(Work::Rate(options, other, aids), format),
    }
}

// The format of a list of orders, with their values by the other objectives or without.
fn orders_format(format: Format, is_measured: bool) -> Format
    ensures { result ≡ orders_format format is_measured }
{
    match format {
        Format::Json(_) => Format::Json(Document::Orders),
        Format::Summary => Format::Summary,
        _ if is_measured => Format::MeasuredRows,
        _ => Format::OrderRows,
    }
}

// The format of the list of which problems are polynomial.
fn border_format(format: Format) -> Format
    ensures { result ≡ border_format format }
{
    match format {
        Format::Json(_) => Format::Json(Document::Border),
        other => other,
    }
}
