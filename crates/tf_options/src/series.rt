//! What is asked for of several instances of a file.
ghost use Rattle.std.specs.Prelude.{◌≡◌, ◌||◌, None, Some, false, true, codes, IfErr, IfOk};
ghost use Rattle.tf_model.specs.Limit.{most_jobs};
ghost use Rattle.tf_options.specs.Columns.{HasColumns};
ghost use Rattle.tf_options.specs.Matched.{IsToldInstead, given_of, lacks, number_by};
ghost use Rattle.tf_options.specs.SeriesAsked.{AsksMore, IsFileFormBy, IsLineEach, IsSeriesAsked};
ghost use Rattle.tf_options.specs.SeriesAsked.{IsSeriesBy, IsToldBy, file_fault, is_of_several};
ghost use Rattle.tf_options.specs.SeriesAsked.{jobs_fault, lacks_answers, lacks_names};
ghost use Rattle.tf_options.specs.SeriesAsked.{series_fault, span_between, span_for, span_in};
ghost use Rattle.tf_options.specs.SeriesAsked.{span_of, takes_span};
ghost use Rattle.tf_options.specs.Understood.{IsOrderBy, answer_fault, own_fault, rating_fault};

use crate::aids::{aids_in, is_standard_input, rating_aids_in};
use crate::options::{Asked, machines_in, number_within, orders_in, pair_given, steps_in};
use crate::wrong::Wrong;
use clap::ArgMatches;
use tf_asked::options::OrderSource;
use tf_asked::series::{FileForm, Series, Span, Told};
use tf_model::limit::MOST_JOBS;

// The instances from the first to the last, if that does not come before it.
fn span_between(first: u32, last: u32) -> Option<Span>
    ensures { result ≡ span_between first last }
{
    if last < first {
        return None;
    }
    Some(Span {
        first,
        last: Some(last),
    })
}

// The instances that `all`, or two numbers with a minus sign between them, name.
fn span_in(word: &str) -> Option<Span>
    ensures { result ≡ span_in word.now }
{
    if word == "all" {
        return Some(Span {
            first: 1,
            last: None,
        });
    }
    let (first, last) = word.split_once('-')?;
    let first = number_within(first, 1, u32::MAX)?;
    let last = number_within(last, 1, u32::MAX)?;
    span_between(first, last)
}

// Whether the file is one of several instances, of which none is named.
fn is_of_several(given: &ArgMatches<'_>) -> bool
    ensures { result ≡ is_of_several (given_of given.now) }
{
    match given.get_str("format") {
        Some("wt") => true,
        Some("flow" | "jobshop") => given.get_str("name").is_none(),
        _ => false,
    }
}

// The instances that are named of such a file, if they are several.
fn span_of(given: &ArgMatches<'_>) -> Option<Span>
    ensures { result ≡ span_of (given_of given.now) }
{
    if is_of_several(given) {
        span_in(given.get_str("index")?)
    } else {
        None
    }
}

// Whether the command of this name tells of several instances.
fn takes_span(name: &str) -> bool
    ensures { result ≡ takes_span name.now }
{
    name == "solve" || name == "bound" || name == "evaluate"
}

/// The instances of which the command of this name tells a line each, if it does.
pub(crate) fn span_for(name: &str, given: &ArgMatches<'_>) -> Option<Span>
    ensures { result ≡ span_for name.now (given_of given.now) }
{
    if takes_span(name) {
        span_of(given)
    } else {
        None
    }
}

// The number of jobs of each instance.
fn jobs_in(given: &ArgMatches<'_>) -> Result<u32, Wrong>
    ensures given { IfOk result (λ jobs. number_by (given_of given.now) (codes "jobs") 1 most_jobs
        ≡ Some jobs) }
    ensures unhurt { IfOk result (λ _. jobs_fault (given_of given.now) ≡ None) }
    ensures fault { IfErr result (IsToldInstead false (jobs_fault (given_of given.now))) }
{
    let jobs = given
        .get_str("jobs")
        .and_then(|word| number_within(word, 1, MOST_JOBS as u32));
    match jobs {
        Some(jobs) => Ok(jobs),
        None => Err(Wrong::Unfit("--format wt needs --jobs, a number from 1 to 100000")),
    }
}

// How the instances of the file are written.
fn file_form_in(given: &ArgMatches<'_>) -> Result<FileForm, Wrong>
    ensures given { IfOk result (IsFileFormBy (given_of given.now)) }
    ensures unhurt { IfOk result (λ _. file_fault (given_of given.now) ≡ None) }
    ensures fault { IfErr result (IsToldInstead false (file_fault (given_of given.now))) }
{
    match given.get_str("format") {
        Some("wt") => Ok(FileForm::Wt {
            jobs: jobs_in(given)?,
        }),
        Some("flow") => Ok(FileForm::Flow {
            pair: pair_given(given)?,
        }),
        _ => Ok(FileForm::Flow { pair: None }),
    }
}

// The name of the answers, which cannot be standard input beside the instances.
fn answers_in<'a>(given: &ArgMatches<'a>) -> Result<&'a str, Wrong>
    ensures given { IfOk result
        (λ name. (given_of given.now).value (codes "ANSWER") ≡ Some name.now) }
    ensures unhurt { IfOk result (λ _. answer_fault (given_of given.now) ≡ None) }
    ensures fault { IfErr result (IsToldInstead (lacks (given_of given.now) (codes "ANSWER"))
        (answer_fault (given_of given.now))) }
{
    let Some(answer) = given.get_str("ANSWER") else {
        return Err(Wrong::Missing);
    };
    if answer == "-" && is_standard_input(given, "INPUT") {
        return Err(Wrong::Unfit("INPUT and ANSWER cannot both be standard input"));
    }
    Ok(answer)
}

// What the command of this name tells of each instance.
fn told_in<'a>(name: &str, given: &ArgMatches<'a>) -> Result<Told<'a>, Wrong>
    requires name { takes_span name.now ≡ true }
    requires each { IsLineEach (given_of given.now) }
    ensures given { IfOk result (IsToldBy name.now (given_of given.now)) }
    ensures fault { IfErr result (IsToldInstead (lacks_answers name.now (given_of given.now))
        (own_fault name.now (given_of given.now))) }
{
    if name == "solve" {
        return Ok(Told::Values);
    }
    if name == "bound" {
        return Ok(Told::Bounds(steps_in(given)?));
    }
    if let Some(orders) = orders_in(given) {
        return rated_in(given, &orders);
    }
    let answers = answers_in(given)?;
    Ok(Told::Answers(answers, aids_in(given)?))
}

// What is said of each instance for the orders that are given, which are those of a rule or of a
// text.
fn rated_in<'a>(given: &ArgMatches<'a>, orders: &OrderSource<'a>) -> Result<Told<'a>, Wrong>
    requires each { IsLineEach (given_of given.now) }
    requires orders { IsOrderBy (given_of given.now) orders.now }
    ensures given { IfOk result (IsToldBy (codes "evaluate") (given_of given.now)) }
    ensures fault { IfErr result (IsToldInstead false (rating_fault (given_of given.now))) }
{
    let aids = rating_aids_in(given, orders)?;
    match *orders {
        OrderSource::Ruled(rule, _) => Ok(Told::Ruled(rule, aids)),
        OrderSource::Named { name, .. } => Ok(Told::Orders(name, aids)),
        _ => Err(Wrong::Missing),
    }
}

/// Whether no more is evaluated of an instance than its line tells, and nothing that is of one
/// instance alone.
pub(crate) fn has_line_each(given: &ArgMatches<'_>) -> bool
    ensures each { result ≡ true → IsLineEach (given_of given.now) }
    ensures more { result ≡ false → AsksMore (given_of given.now) }
{
    let has_one = given.get_str("order").is_some() || given.get_str("schedule").is_some();
    let is_listed = given.get_flag("csv") || given.get_flag("summary") || given.get_flag("grade");
    let tells_more = given.get_flag("measures") || given.get_flag("certificate");
    !has_one && !is_listed && !tells_more
}

/// What the command of this name asks for of several instances.
pub fn series_asked<'a>(name: &str, given: &ArgMatches<'a>, span: Span) -> Asked<'a>
    requires span { span_for name.now (given_of given.now) ≡ Some span }
    requires each { IsLineEach (given_of given.now) }
    ensures columns { HasColumns result }
    ensures asked { IsSeriesAsked name.now (given_of given.now) result }
{
    match series_in(name, given, span) {
        Ok(series) => Asked::Series(series),
        Err(Wrong::Unfit(message)) => Asked::Unfit(message),
        Err(Wrong::Missing) => Asked::NoMemory,
    }
}

fn series_in<'a>(name: &str, given: &ArgMatches<'a>, span: Span) -> Result<Series<'a>, Wrong>
    requires span { span_for name.now (given_of given.now) ≡ Some span }
    requires each { IsLineEach (given_of given.now) }
    ensures given { IfOk result (IsSeriesBy name.now (given_of given.now)) }
    ensures fault { IfErr result
        (IsToldInstead
        (lacks_names (given_of given.now) || lacks_answers name.now (given_of given.now))
        (series_fault name.now (given_of given.now))) }
{
    let (Some(problem), Some(input)) = (given.get_str("problem"), given.get_str("INPUT")) else {
        return Err(Wrong::Missing);
    };
    let machines = machines_in(given)?;
    let form = file_form_in(given)?;
    let told = told_in(name, given)?;
    Ok(Series {
        problem,
        input,
        machines,
        form,
        span,
        told,
        json: given.get_flag("json"),
    })
}
