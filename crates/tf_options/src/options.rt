//! The command line.
ghost use Rattle.std.specs.Prelude.{◌≡◌, None, Some, false, codes};
ghost use Rattle.std.specs.Prelude.{IfOk, IfErr, IsTrue, MatchOption};
ghost use Rattle.tf_model.specs.Limit.{most_machines};
ghost use Rattle.tf_asked.specs.Columns.{IsSized};
ghost use Rattle.tf_options.specs.Columns.{HasColumns};
ghost use Rattle.tf_options.specs.FormatAsked.{IsFormatBy, IsSolvedLayoutBy, asked_in_format};
ghost use Rattle.tf_options.specs.FormatAsked.{csv_format, json_format};
ghost use Rattle.tf_options.specs.Matched.{AreIdleBy, AreOptionsBy, IsFlagBy, IsFormBy, IsNumberBy};
ghost use Rattle.tf_options.specs.Matched.{IsPairBy, IsToldInstead, explains_by, flow_fault};
ghost use Rattle.tf_options.specs.Matched.{form_fault, given_of, job_shop_fault, has_arithmetic};
ghost use Rattle.tf_options.specs.Matched.{is_latex, lacks, layout_by, lists_bounded};
ghost use Rattle.tf_options.specs.Matched.{machines_fault, most_steps, options_fault, pair_in};
ghost use Rattle.tf_options.specs.Matched.{pair_fault, steps_fault, wt_fault};
ghost use Rattle.tf_options.specs.OptionNumber.{numeral_in};
ghost use Rattle.tf_options.specs.Understanding.{IsFormattedBy, IsMeasuredList, IsUnderstoodBy};
ghost use Rattle.tf_options.specs.Understood.{HasNoOrder, IsAskedBy, IsOrderBy, IsWorkBy};
ghost use Rattle.tf_options.specs.Understood.{fault_by, is_incomplete};
ghost use Rattle.tf_options.specs.Understood.{lacks_options, lacks_own, own_fault, rule_by};

use crate::aids::{aids_in, rating_aids_in};
use crate::formatting::work_in_format;
use crate::series::{has_line_each, series_asked, span_for};
use crate::viewing::gantt_in;
use crate::wanting::wanted_in;
use crate::wrong::Wrong;
use clap::{ArgMatches, Error};
use tf_asked::aids::Aids;
use tf_asked::format::Format;
use tf_asked::options::{
    Assessing, Evaluating, FormOption, Idle, MOST_STEPS, Options, OrderSource, Telling, Work,
};
use tf_asked::series::Series;
use tf_evaluate::evaluation::Detail;
use tf_export::csv::Table;
use tf_export::documents::Document;
use tf_listing::listing::Listed;
use tf_model::limit::{MOST_JOBS, MOST_MACHINES};
use tf_sequencing::rule::Rule;
use tf_text::answer::layout::Layout;
use tf_trace::board::Style;
use tf_words::digits::is_numeral;
use tf_words::ranged::{Ranged, number_in};

/// What the command line asks for.
#[derive(Drop)]
pub enum Asked<'a> {
    Work(Work<'a>),
    /// The same, with its output in a format.
    Formatted(Work<'a>, Format),
    /// Tell a line of each of several instances.
    Series(Series<'a>),
    /// Help, or the version.
    Help(Error),
    /// The command line is none of the program's.
    Misused(Error),
    /// The value of an option is not what it takes.
    Unfit(&'static str),
    NoMemory,
}

const ONE_INSTANCE: &str = "\
--csv, --summary, --measures, --certificate, --order, --schedule and --grade \
take one instance, and --index names several";

const ORDERS_ALONE: &str = "--csv goes with --measures for --orders alone";

// What the command of this name asks for, by what clap found of it.
pub(crate) fn understand_given<'a>(
    name: &str,
    given: &ArgMatches<'a>,
    on_terminal: bool,
) -> Asked<'a>
    ensures columns { HasColumns result }
    ensures understood { IsUnderstoodBy name.now (given_of given.now) on_terminal result }
{
    match span_for(name, given) {
        Some(span) if has_line_each(given) => series_asked(name, given, span),
        Some(_) => Asked::Unfit(ONE_INSTANCE),
        None if lists_measured_jobs(given) => Asked::Unfit(ORDERS_ALONE),
        None => formatted_by(name, given, on_terminal),
    }
}

// Whether a table of jobs is asked for together with the values of their schedule.
fn lists_measured_jobs(given: &ArgMatches<'_>) -> bool
    ensures { IsTrue result → IsMeasuredList (given_of given.now) }
{
    given.get_flag("measures") && given.get_flag("csv") && given.get_str("orders").is_none()
}

// What is asked for, with its output in a format where one is named.
fn formatted_by<'a>(name: &str, given: &ArgMatches<'a>, on_terminal: bool) -> Asked<'a>
    ensures columns { HasColumns result }
    ensures formatted { IsFormattedBy name.now (given_of given.now) on_terminal result }
{
    in_format(asked_by(name, given, on_terminal), format_in(name, given))
}

// What is asked for, with its output in this format, if it is one.
fn in_format<'a>(asked: Asked<'a>, format: Option<Format>) -> Asked<'a>
    requires { HasColumns asked }
    ensures columns { HasColumns result }
    ensures format { result ≡ asked_in_format asked.entry format }
{
    let Some(format) = format else {
        return asked;
    };
    match asked {
        Asked::Work(work) => work_in_format(work, format),
        other => other,
    }
}

// The format of the output of this command, where one is named.
fn format_in(name: &str, given: &ArgMatches<'_>) -> Option<Format>
    ensures { IsFormatBy (given_of given.now).flag name.now result }
{
    if given.get_flag("json") {
        return json_format(name);
    }
    if given.get_flag("csv") {
        return csv_format(name);
    }
    if given.get_flag("summary") {
        return Some(Format::Summary);
    }
    None
}

// What a command prints, as JSON.
fn json_format(name: &str) -> Option<Format>
    ensures { result ≡ json_format name.now }
{
    if name == "solve" {
        return Some(Format::Json(Document::Answer));
    }
    if name == "bound" {
        return Some(Format::Json(Document::Bound));
    }
    if name == "plan" {
        return Some(Format::Json(Document::Plan));
    }
    if name == "check" {
        return Some(Format::Json(Document::Verdict));
    }
    if name == "evaluate" {
        return Some(Format::Json(Document::Evaluation));
    }
    if name == "problems" {
        return Some(Format::Json(Document::Problems));
    }
    None
}

// What a command prints, as a table.
fn csv_format(name: &str) -> Option<Format>
    ensures { result ≡ csv_format name.now }
{
    if name == "solve" || name == "plan" {
        return Some(Format::Csv(Table::Pieces));
    }
    if name == "evaluate" {
        return Some(Format::Csv(Table::Outcomes));
    }
    None
}

/// What the command of this name asks for, by what clap found of it. A value that clap always gives
/// and that is not there is answered as want of memory.
pub fn asked_by<'a>(name: &str, given: &ArgMatches<'a>, on_terminal: bool) -> Asked<'a>
    ensures columns { HasColumns result }
    ensures asked { IsAskedBy name.now (given_of given.now) on_terminal result }
{
    match work_by(name, given, on_terminal) {
        Ok(work) => Asked::Work(work),
        Err(Wrong::Unfit(message)) => Asked::Unfit(message),
        Err(Wrong::Missing) => Asked::NoMemory,
    }
}

// The work of the command of this name.
fn work_by<'a>(name: &str, given: &ArgMatches<'a>, on_terminal: bool) -> Result<Work<'a>, Wrong>
    ensures sized { IfOk result IsSized }
    ensures given { IfOk result (IsWorkBy name.now (given_of given.now) on_terminal) }
    ensures fault { IfErr result (IsToldInstead (is_incomplete name.now (given_of given.now))
        (fault_by name.now (given_of given.now))) }
{
    if name == "gantt" {
        return gantt_in(given, on_terminal);
    }
    if name == "problems" {
        if given.get_flag("border") {
            return Ok(Work::Border);
        }
        return Ok(Work::Problems(listed_in(given), given.get_str("FILE")));
    }
    if name == "random" {
        return Ok(Work::Random(wanted_in(given)?));
    }
    let options = options_in(given, on_terminal)?;
    work_over(name, given, on_terminal, options)
}

// The work of a command that reads an instance, with these options.
fn work_over<'a>(
    name: &str,
    given: &ArgMatches<'a>,
    on_terminal: bool,
    options: Options<'a>,
) -> Result<Work<'a>, Wrong>
    requires { AreOptionsBy (given_of given.now) on_terminal options }
    ensures sized { IfOk result IsSized }
    ensures given { IfOk result (IsWorkBy name.now (given_of given.now) on_terminal) }
    ensures fault { IfErr result (IsToldInstead (lacks_own name.now (given_of given.now))
        (own_fault name.now (given_of given.now))) }
{
    if name == "solve" {
        return Ok(Work::Solve(options, solved_layout_in(given)));
    }
    if name == "bound" {
        return Ok(Work::Bound(options, steps_in(given)?));
    }
    if name == "plan" {
        return Ok(Work::Plan(options, solved_layout_in(given), steps_in(given)?));
    }
    if name == "trace" {
        return Ok(Work::Trace(options, style_in(given)));
    }
    if name == "evaluate"
        && let Some(orders) = orders_in(given)
    {
        let aids = rating_aids_in(given, &orders)?;
        return Ok(Work::Rate(options, orders, aids));
    }
    let Some(answer) = given.get_str("ANSWER") else {
        return Err(Wrong::Missing);
    };
    if answer == "-" && options.input == "-" {
        return Err(Wrong::Unfit("INPUT and ANSWER cannot both be standard input"));
    }
    if name == "check" {
        return Ok(Work::Check(options, answer));
    }
    if name == "evaluate" {
        let Aids { bound, steps } = aids_in(given)?;
        return Ok(match bound {
            None => Work::Evaluate(Evaluating {
                options,
                answer,
                detail: detail_in(given),
                steps,
            }),
            Some(bound) => Work::Assess(Assessing {
                options,
                answer,
                bound,
                steps,
            }),
        });
    }
    Err(Wrong::Missing)
}

// The version of the answer text that is solved for: 1 for JSON, which names each job of a
// certificate, and otherwise the one that is asked for.
fn solved_layout_in(given: &ArgMatches<'_>) -> Layout
    ensures { IsSolvedLayoutBy (given_of given.now).flag
        ((given_of given.now).value (codes "answer")) result }
{
    if given.get_flag("json") {
        return Layout::One;
    }
    layout_in(given)
}

// The version of the answer text: 2, unless 1 is asked for.
fn layout_in(given: &ArgMatches<'_>) -> Layout
    ensures { result ≡ layout_by ((given_of given.now).value (codes "answer")) }
{
    match given.get_str("answer") {
        Some("1") => Layout::One,
        _ => Layout::Two,
    }
}

// Plain text, unless LaTeX is asked for.
fn style_in(given: &ArgMatches<'_>) -> Style
    ensures { IsFlagBy ((given_of given.now).flag (codes "tex")) (is_latex result) }
{
    if given.get_flag("tex") {
        Style::Latex
    } else {
        Style::Plain
    }
}

// The problems that are solved, unless those that have bounds are asked for.
fn listed_in(given: &ArgMatches<'_>) -> Listed
    ensures { IsFlagBy ((given_of given.now).flag (codes "bounds")) (lists_bounded result) }
{
    if given.get_flag("bounds") {
        Listed::Bounded
    } else {
        Listed::Solved
    }
}

// The steps of the search for prices, where they are given.
pub(crate) fn steps_in(given: &ArgMatches<'_>) -> Result<Option<u32>, Wrong>
    ensures given { IfOk result
        (IsNumberBy 1 most_steps ((given_of given.now).value (codes "steps"))) }
    ensures fault { IfErr result (IsToldInstead false (steps_fault (given_of given.now))) }
{
    let Some(word) = given.get_str("steps") else {
        return Ok(None);
    };
    match number_within(word, 1, MOST_STEPS) {
        Some(steps) => Ok(Some(steps)),
        None => Err(Wrong::Unfit("--steps takes a number from 1 to 1000000")),
    }
}

// The orders that are to be evaluated, if any are.
pub(crate) fn orders_in<'a>(given: &ArgMatches<'a>) -> Option<OrderSource<'a>>
    ensures { MatchOption result (HasNoOrder (given_of given.now))
        (IsOrderBy (given_of given.now)) }
{
    if let Some(order) = given.get_str("order") {
        return Some(OrderSource::Given(order, detail_in(given)));
    }
    if let Some(name) = given.get_str("rule") {
        return Some(OrderSource::Ruled(rule_by(name), detail_in(given)));
    }
    if let Some(name) = given.get_str("orders") {
        return Some(OrderSource::Named {
            name,
            goes_on: given.get_flag("grade"),
            is_numbered: false,
        });
    }
    match given.get_str("schedule") {
        Some(name) => Some(OrderSource::Drawn(name, detail_in(given))),
        None => None,
    }
}

// The rule of this name, of the five that clap lets through.
fn rule_by(name: &str) -> Rule
    ensures { result ≡ rule_by name.now }
{
    if name == "EDD" {
        return Rule::Edd;
    }
    if name == "SPT" {
        return Rule::Spt;
    }
    if name == "LPT" {
        return Rule::Lpt;
    }
    if name == "WSPT" {
        return Rule::Wspt;
    }
    Rule::Erd
}

// How much is reported of an evaluation: the certificate's arithmetic where it is asked for.
fn detail_in(given: &ArgMatches<'_>) -> Detail
    ensures { IsFlagBy ((given_of given.now).flag (codes "certificate")) (has_arithmetic result) }
{
    if given.get_flag("certificate") {
        Detail::WithArithmetic
    } else {
        Detail::Summary
    }
}

// What names the problem and the instance, or what is asked for in place of it.
fn options_in<'a>(given: &ArgMatches<'a>, on_terminal: bool) -> Result<Options<'a>, Wrong>
    ensures given { IfOk result (AreOptionsBy (given_of given.now) on_terminal) }
    ensures sound { IfOk result (λ _. options_fault (given_of given.now) ≡ None) }
    ensures fault { IfErr result
        (IsToldInstead (lacks_options (given_of given.now))
        (options_fault (given_of given.now))) }
{
    let (Some(problem), Some(input)) = (given.get_str("problem"), given.get_str("INPUT")) else {
        return Err(Wrong::Missing);
    };
    let machines = machines_in(given)?;
    let form = form_in(given)?;
    Ok(Options {
        problem,
        form,
        machines,
        input,
        telling: Telling {
            explain: is_explained(given, on_terminal),
            measures: given.get_flag("measures"),
            style: style_in(given),
            idle: idle_in(given, &form),
        },
    })
}

// The number of machines, where it is given.
pub(crate) fn machines_in(given: &ArgMatches<'_>) -> Result<Option<u32>, Wrong>
    ensures given { IfOk result
        (IsNumberBy 1 most_machines ((given_of given.now).value (codes "machines"))) }
    ensures unhurt { IfOk result (λ _. machines_fault (given_of given.now) ≡ None) }
    ensures fault { IfErr result (IsToldInstead false (machines_fault (given_of given.now))) }
{
    let Some(word) = given.get_str("machines") else {
        return Ok(None);
    };
    match number_within(word, 1, MOST_MACHINES) {
        Some(machines) => Ok(Some(machines)),
        None => Err(Wrong::Unfit("--machines takes a number from 1 to 1000")),
    }
}

// Whether what is wrong is explained.
pub(crate) fn is_explained(given: &ArgMatches<'_>, on_terminal: bool) -> bool
    ensures { result ≡ explains_by ((given_of given.now).value (codes "explain")) on_terminal }
{
    match given.get_str("explain") {
        Some("always") => true,
        Some("never") => false,
        _ => on_terminal,
    }
}

// The options that were given, and that the form does not use.
pub(crate) fn idle_in(given: &ArgMatches<'_>, form: &FormOption<'_>) -> Idle
    ensures { AreIdleBy (given_of given.now) form.now result }
{
    let is_wt = matches!(form, FormOption::Wt { .. });
    let is_flow = matches!(form, FormOption::Flow { .. });
    Idle {
        jobs: given.contains_id("jobs") && !is_wt,
        name: given.contains_id("name") && !is_flow,
        pair: given.contains_id("pair") && given.get_str("format") != Some("flow"),
    }
}

// The form that was chosen. The options of the others are not looked at.
pub(crate) fn form_in<'a>(given: &ArgMatches<'a>) -> Result<FormOption<'a>, Wrong>
    ensures given { IfOk result (IsFormBy (given_of given.now)) }
    ensures fault { IfErr result
        (IsToldInstead (lacks (given_of given.now) (codes "format"))
        (form_fault (given_of given.now))) }
{
    let Some(format) = given.get_str("format") else {
        return Err(Wrong::Missing);
    };
    if format == "wt" {
        return wt_in(given);
    }
    if format == "flow" {
        return flow_in(given);
    }
    if format == "jobshop" {
        return job_shop_in(given);
    }
    Ok(FormOption::Table)
}

fn job_shop_in<'a>(given: &ArgMatches<'a>) -> Result<FormOption<'a>, Wrong>
    requires { (given_of given.now).value (codes "format") ≡ Some (codes "jobshop") }
    ensures given { IfOk result (IsFormBy (given_of given.now)) }
    ensures fault { IfErr result (IsToldInstead false (job_shop_fault (given_of given.now))) }
{
    match given.get_str("name") {
        Some(name) => Ok(FormOption::Flow { name, pair: None }),
        None => Err(Wrong::Unfit("--format jobshop needs --name")),
    }
}

fn wt_in<'a>(given: &ArgMatches<'a>) -> Result<FormOption<'a>, Wrong>
    requires { (given_of given.now).value (codes "format") ≡ Some (codes "wt") }
    ensures given { IfOk result (IsFormBy (given_of given.now)) }
    ensures fault { IfErr result (IsToldInstead false (wt_fault (given_of given.now))) }
{
    let jobs = given
        .get_str("jobs")
        .and_then(|word| number_within(word, 1, MOST_JOBS as u32));
    let index = given
        .get_str("index")
        .and_then(|word| number_within(word, 1, u32::MAX));
    match (jobs, index) {
        (None, _) => Err(Wrong::Unfit("--format wt needs --jobs, a number from 1 to 100000")),
        (_, None) => Err(Wrong::Unfit("--index takes a number from 1 to 4294967295")),
        (Some(jobs), Some(index)) => Ok(FormOption::Wt { jobs, index }),
    }
}

fn flow_in<'a>(given: &ArgMatches<'a>) -> Result<FormOption<'a>, Wrong>
    requires { (given_of given.now).value (codes "format") ≡ Some (codes "flow") }
    ensures given { IfOk result (IsFormBy (given_of given.now)) }
    ensures fault { IfErr result (IsToldInstead false (flow_fault (given_of given.now))) }
{
    let Some(name) = given.get_str("name") else {
        return Err(Wrong::Unfit("--format flow needs --name"));
    };
    Ok(FormOption::Flow {
        name,
        pair: pair_given(given)?,
    })
}

// The numbers of two machines, where they are given.
pub(crate) fn pair_given(given: &ArgMatches<'_>) -> Result<Option<(u32, u32)>, Wrong>
    ensures given { IfOk result (IsPairBy ((given_of given.now).value (codes "pair"))) }
    ensures unhurt { IfOk result (λ _. pair_fault (given_of given.now) ≡ None) }
    ensures fault { IfErr result (IsToldInstead false (pair_fault (given_of given.now))) }
{
    let Some(word) = given.get_str("pair") else {
        return Ok(None);
    };
    match pair_in(word) {
        Some(pair) => Ok(Some(pair)),
        None => Err(Wrong::Unfit("--pair takes two numbers up to 1000 with a comma between them")),
    }
}

// The numbers of two machines with a comma between them.
fn pair_in(word: &str) -> Option<(u32, u32)>
    ensures { result ≡ pair_in word.now }
{
    let (first, second) = word.split_once(',')?;
    let first = number_within(first, 0, MOST_MACHINES)?;
    let second = number_within(second, 0, MOST_MACHINES)?;
    Some((first, second))
}

// A number of digits alone, within a range.
pub(crate) fn number_within(word: &str, least: u32, most: u32) -> Option<u32>
    ensures { result ≡ numeral_in least most word.now }
{
    let digits = word.as_bytes();
    if !is_numeral(digits) {
        return None;
    }
    match number_in(digits, i64::from(least), i64::from(most)) {
        Ranged::Within(n) => Some(n as u32),
        _ => None,
    }
}
