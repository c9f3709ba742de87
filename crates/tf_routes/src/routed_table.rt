//! Job tables in which `p=` of a job is a route.
ghost use Rattle.std.specs.Prelude.{◌≡◌, ◌-◌, ◌<◌, ◌≤◌, ◌∷◌, ◌^◌, List, [], length, filter};
ghost use Rattle.std.specs.Prelude.{is_some, IfOk, MatchOption};
ghost use Rattle.tf_words.specs.Number.{number};
ghost use Rattle.tf_words.specs.Words.{words, lines, kept_from};
ghost use Rattle.tf_words.specs.Lines.{word_line_of, word_lines_of};
ghost use Rattle.tf_words.specs.WordParts.{divided};
ghost use Rattle.tf_model.specs.Limit.{most_bytes, most_machines};
ghost use Rattle.tf_read.specs.Faults.{Gives};
ghost use Rattle.tf_routes.specs.Marks.{AreMarks};
ghost use Rattle.tf_routes.specs.RoutedData.{HasRoutes};
ghost use Rattle.tf_routes.specs.RoutedTable.{machine_named, step_at, route_at, times_in, is_job};
ghost use Rattle.tf_routes.specs.RoutedTable.{job_route, routes_on, table_routed, routed_table};
ghost use Rattle.tf_routes.specs.declared.route.Step.{Step};

use crate::number::time_in;
use crate::route::{Route, Step};
use crate::routed::RoutedInstance;
use crate::unrouted::unrouted;
use std::alloc::Allocator;
use tf_model::limit::{MOST_BYTES, MOST_MACHINES};
use tf_read::fault::ReadFault;
use tf_read::job_table::read_table;
use tf_words::line::{Line, Lines};
use tf_words::number::{Number, number_of};
use tf_words::part::{divided, first_part, next_part};
use tf_words::word::{behind_key, first_word};

/// The instance that a job table says, with the routes of its jobs, or its first fault: first those
/// of the table without its routes, and then those of the routes.
///
/// A job whose `p=` has no `@` has a route of no step. No route visits a machine twice. Where an
/// allocation fails, the fault is [`ReadFault::OutOfMemory`].
pub fn read_routed_table<A: Allocator + Copy>(
    alloc: A,
    text: &[u8],
) -> Result<RoutedInstance<A>, ReadFault>
    ensures gives { Gives (λ i. i) result (routed_table text.now) }
    ensures routed { IfOk result (λ r. HasRoutes most_machines r) }
{
    if text.len() > MOST_BYTES {
        return Err(ReadFault::TooLong);
    }
    table_routed(alloc, text)
}

fn table_routed<A: Allocator + Copy>(alloc: A, text: &[u8]) -> Result<RoutedInstance<A>, ReadFault>
    requires { length text.now ≤ most_bytes }
    ensures gives { Gives (λ i. i) result (table_routed (kept_from 1 (lines text.now))) }
    ensures routed { IfOk result (λ r. HasRoutes most_machines r) }
{
    let table = unrouted(alloc, text)?;
    let instance = read_table(alloc, &table)?;
    let routes = routes_on(alloc, &Lines::new(text))?;
    Ok(RoutedInstance { instance, routes })
}

// The routes on the lines of the jobs.
fn routes_on<A: Allocator + Copy>(
    alloc: A,
    lines: &Lines<'_>,
) -> Result<Vec<Route<A>, A>, ReadFault>
    ensures { Gives (λ routes. routes.items) result (routes_on (word_lines_of lines.now)) }
{
    let mut routes = Vec::new(alloc);
    let mut rest = *lines;
    while let Some((line, more)) = next_job_line(&rest) {
        let route = job_route(alloc, &line)?;
        routes.push(route)?;
        rest = more;
    }
    Ok(routes)
}

// The first line of a job, and the lines after it.
fn next_job_line<'a>(lines: &Lines<'a>) -> Option<(Line<'a>, Lines<'a>)>
    ensures { MatchOption result (filter is_job (word_lines_of lines.now) ≡ [])
        (λ x. filter is_job (word_lines_of lines.now)
        ≡ word_line_of x.0 ∷ filter is_job (word_lines_of x.1)) }
{
    let mut rest = *lines;
    while let Some((line, more)) = rest.split_first() {
        if is_job(&line) {
            return Some((line, more));
        }
        rest = more;
    }
    None
}

fn is_job(line: &Line<'_>) -> bool
    ensures { result ≡ is_job (word_line_of line.now) }
{
    behind_key(line.bytes, b"job").is_some()
}

// The route on the line of a job.
fn job_route<A: Allocator + Copy>(alloc: A, line: &Line<'_>) -> Result<Route<A>, ReadFault>
    ensures { Gives (λ route. route) result (job_route (word_line_of line.now)) }
{
    route_at(alloc, line.number, times_in(line.bytes))
}

// The value of the first word of a line that begins with `p=`, and nothing where there is none.
fn times_in(line: &[u8]) -> &[u8]
    ensures { result.now ≡ times_in (words line.now) }
{
    let mut rest = line;
    while let Some((word, more)) = first_word(rest) {
        if let [b'p', b'=', value @ ..] = word {
            return value;
        }
        rest = more;
    }
    &[]
}

// The route that a value of `p` is.
fn route_at<A: Allocator + Copy>(alloc: A, line: u32, value: &[u8]) -> Result<Route<A>, ReadFault>
    ensures { Gives (λ route. route) result (route_at line value.now) }
{
    if !has_at(value) {
        return Ok(Route::new(Vec::new(alloc)));
    }
    let mut steps = Vec::new(alloc);
    let mut marks = vec![in alloc; false; MOST_MACHINES as usize]?;
    let (mut part, mut rest) = first_part(value);
    loop {
        let step = step_at(&marks, line, part)?;
        marks[step.machine as usize] = true;
        steps.push(step)?;
        let Some((next, more)) = next_part(rest) else {
            return Ok(Route::new(steps));
        };
        part = next;
        rest = more;
    }
}

// Whether a text has an `@`.
fn has_at(text: &[u8]) -> bool
    ensures { result ≡ is_some (divided 64 text.now) }
{
    divided(text, b'@').is_some()
}

// A step on a machine that is not marked.
fn step_at(marks: &[bool], line: u32, part: &[u8]) -> Result<Step, ReadFault>
    requires { length marks.now ≡ most_machines }
    ensures step { (before : List Step) → AreMarks before marks.now →
        result ≡ step_at before line part.now }
    ensures within { IfOk result (λ step. step.machine < length marks.now) }
{
    let Some((time, machine)) = divided(part, b'@') else {
        return Err(ReadFault::BadLine(line));
    };
    if has_at(machine) {
        return Err(ReadFault::BadLine(line));
    }
    let time = time_in(line, time)?;
    let machine = machine_named(marks, line, number_of(machine))?;
    Ok(Step { machine, time })
}

// A machine, written from 1, that is not marked.
fn machine_named(marks: &[bool], line: u32, number: Number) -> Result<u32, ReadFault>
    requires { length marks.now ≡ most_machines }
    ensures machine { (before : List Step) → AreMarks before marks.now →
        result ≡ machine_named before line number }
    ensures within { IfOk result (λ machine. machine < length marks.now) }
{
    match number {
        Number::NotANumber => Err(ReadFault::BadNumber(line)),
        Number::Value(value) if 1 <= value && value <= i64::from(MOST_MACHINES) => {
            if marks[value as usize - 1] {
                return Err(ReadFault::BadLine(line));
            }
            Ok(value as u32 - 1)
        }
        _ => Err(ReadFault::BadLine(line)),
    }
}
