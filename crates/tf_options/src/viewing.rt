//! What a drawing is asked to show.
ghost use Rattle.std.specs.Prelude.{◌≡◌, None, Some, false, codes, IfOk, IfErr};
ghost use Rattle.tf_model.specs.Limit.{limit};
ghost use Rattle.tf_asked.specs.Columns.{HasWidth, IsSized};
ghost use Rattle.tf_options.specs.Matched.{IsToldInstead, given_of, lacks, number_by};
ghost use Rattle.tf_options.specs.OptionNumber.{numeral_in};
ghost use Rattle.tf_options.specs.Understood.{IsWorkBy, lacks_drawing};
ghost use Rattle.tf_options.specs.Viewing.{IsDrawingBy, IsPicturingBy, IsViewBy, drawing_fault};
ghost use Rattle.tf_options.specs.Viewing.{gantt_fault, most_side, number_fault, page_by};
ghost use Rattle.tf_options.specs.Viewing.{picturing_fault, sides_fault, size_by, view_fault};

use crate::options::{form_in, idle_in, is_explained, number_within};
use crate::wrong::Wrong;
use clap::ArgMatches;
use tf_asked::options::{Drawing, Picturing, Telling, Work};
use tf_model::limit::LIMIT;
use tf_picture::view::{Size, View};
use tf_text::chart::MOST_COLUMNS;
use tf_trace::board::Style;
use tf_words::digits::is_numeral;
use tf_words::ranged::{Ranged, number_in};

/// The most pixels of a side of a picture.
const MOST_SIDE: u32 = 100_000;

const FROM_TOLD: &str = "--from takes a number from 0 to 4000000000000000000";

const TO_TOLD: &str = "--to takes a number from 0 to 4000000000000000000";

const FOLD_TOLD: &str = "--fold takes a number from 1 to 4000000000000000000";

const WIDTH_TOLD: &str = "--width takes a number from 1 to 100000";

const HEIGHT_TOLD: &str = "--height takes a number from 1 to 100000";

/// What `gantt` asks for.
pub(crate) fn gantt_in<'a>(given: &ArgMatches<'a>, on_terminal: bool) -> Result<Work<'a>, Wrong>
    ensures sized { IfOk result IsSized }
    ensures given { IfOk result (IsWorkBy (codes "gantt") (given_of given.now) on_terminal) }
    ensures fault { IfErr result
        (IsToldInstead (lacks_drawing (given_of given.now)) (gantt_fault (given_of given.now))) }
{
    let Some(answer) = given.get_str("ANSWER") else {
        return Err(Wrong::Missing);
    };
    if let Some(input) = given.get_str("input") {
        return Ok(Work::Picture(picturing_in(given, on_terminal, input, answer)?));
    }
    Ok(Work::Gantt {
        answer,
        drawing: drawing_in(given)?,
        explain: is_explained(given, on_terminal),
    })
}

// A picture of this answer with the dates of this instance.
fn picturing_in<'a>(
    given: &ArgMatches<'a>,
    on_terminal: bool,
    input: &'a str,
    answer: &'a str,
) -> Result<Picturing<'a>, Wrong>
    requires input { (given_of given.now).value (codes "input") ≡ Some input.now }
    requires answer { (given_of given.now).value (codes "ANSWER") ≡ Some answer.now }
    ensures given { IfOk result (IsPicturingBy (given_of given.now) on_terminal) }
    ensures fault { IfErr result
        (IsToldInstead (lacks (given_of given.now) (codes "format"))
        (picturing_fault (given_of given.now))) }
{
    if answer == "-" && input == "-" {
        return Err(Wrong::Unfit("--input and ANSWER cannot both be standard input"));
    }
    let view = view_in(given)?;
    let form = form_in(given)?;
    Ok(Picturing {
        input,
        form,
        answer,
        view,
        telling: Telling {
            explain: is_explained(given, on_terminal),
            measures: false,
            style: Style::Plain,
            idle: idle_in(given, &form),
        },
    })
}

// A picture where it is asked for, otherwise a chart of so many columns.
fn drawing_in(given: &ArgMatches<'_>) -> Result<Drawing, Wrong>
    ensures sized { IfOk result HasWidth }
    ensures given { IfOk result (IsDrawingBy (given_of given.now)) }
    ensures fault { IfErr result
        (IsToldInstead (lacks (given_of given.now) (codes "columns"))
        (drawing_fault (given_of given.now))) }
{
    let view = view_in(given)?;
    if given.get_flag("svg") {
        return Ok(Drawing::Picture(view));
    }
    let Some(word) = given.get_str("columns") else {
        return Err(Wrong::Missing);
    };
    match number_within(word, 1, MOST_COLUMNS) {
        Some(columns) => Ok(Drawing::Chart { columns }),
        None => Err(Wrong::Unfit("--columns takes a number from 1 to 1000")),
    }
}

// What a picture shows of a schedule, and how large it is.
fn view_in(given: &ArgMatches<'_>) -> Result<View, Wrong>
    ensures given { IfOk result (IsViewBy (given_of given.now)) }
    ensures unhurt { IfOk result (λ _. view_fault (given_of given.now) ≡ None) }
    ensures fault { IfErr result (IsToldInstead false (view_fault (given_of given.now))) }
{
    let from = time_in(given, "from", 0, FROM_TOLD)?;
    let to = time_in(given, "to", 0, TO_TOLD)?;
    let fold = time_in(given, "fold", 1, FOLD_TOLD)?;
    Ok(View {
        from: from.unwrap_or(0),
        to,
        fold,
        size: size_in(given)?,
    })
}

// The time that an option gives, or the number of time steps, where it is given.
fn time_in(
    given: &ArgMatches<'_>,
    name: &'static str,
    least: u32,
    told: &'static str,
) -> Result<Option<u64>, Wrong>
    ensures given { IfOk result
        (λ time. time ≡ number_by (given_of given.now) name.now least limit) }
    ensures unhurt { IfOk result (λ _. number_fault (given_of given.now) name.now least limit
        told.now ≡ None) }
    ensures fault { IfErr result (IsToldInstead false
        (number_fault (given_of given.now) name.now least limit told.now)) }
{
    let Some(word) = given.get_str(name) else {
        return Ok(None);
    };
    match time_within(word, least) {
        Some(time) => Ok(Some(time)),
        None => Err(Wrong::Unfit(told)),
    }
}

// How large a picture is.
fn size_in(given: &ArgMatches<'_>) -> Result<Size, Wrong>
    ensures given { IfOk result (λ size. size ≡ size_by (given_of given.now)) }
    ensures unhurt { IfOk result (λ _. sides_fault (given_of given.now) ≡ None) }
    ensures fault { IfErr result (IsToldInstead false (sides_fault (given_of given.now))) }
{
    let width = side_in(given, "width", WIDTH_TOLD)?;
    let height = side_in(given, "height", HEIGHT_TOLD)?;
    Ok(match (page_in(given), width, height) {
        (Some(size), _, _) => size,
        (None, Some(width), Some(height)) => Size::Pixels(width, height),
        (None, Some(width), None) => Size::Width(width),
        (None, None, Some(height)) => Size::Height(height),
        (None, None, None) => Size::Natural,
    })
}

// The page or slide that is asked for by name.
fn page_in(given: &ArgMatches<'_>) -> Option<Size>
    ensures { result ≡ page_by ((given_of given.now).value (codes "size")) }
{
    match given.get_str("size") {
        Some("a4") => Some(Size::Millimetres(297, 210)),
        Some("a3") => Some(Size::Millimetres(420, 297)),
        Some("16:9") => Some(Size::Pixels(1_600, 900)),
        _ => None,
    }
}

// The width or height of a picture in pixels, where it is given.
fn side_in(
    given: &ArgMatches<'_>,
    name: &'static str,
    told: &'static str,
) -> Result<Option<u32>, Wrong>
    ensures given { IfOk result
        (λ side. side ≡ number_by (given_of given.now) name.now 1 most_side) }
    ensures unhurt { IfOk result (λ _. number_fault (given_of given.now) name.now 1 most_side
        told.now ≡ None) }
    ensures fault { IfErr result (IsToldInstead false
        (number_fault (given_of given.now) name.now 1 most_side told.now)) }
{
    let Some(word) = given.get_str(name) else {
        return Ok(None);
    };
    match number_within(word, 1, MOST_SIDE) {
        Some(side) => Ok(Some(side)),
        None => Err(Wrong::Unfit(told)),
    }
}

// A time of digits alone, from this one on.
fn time_within(word: &str, least: u32) -> Option<u64>
    ensures { result ≡ numeral_in least limit word.now }
{
    let digits = word.as_bytes();
    if !is_numeral(digits) {
        return None;
    }
    match number_in(digits, i64::from(least), LIMIT) {
        Ranged::Within(n) => Some(n as u64),
        _ => None,
    }
}
