//! The routes of a job shop, read from words.
ghost use Rattle.std.specs.Prelude.{◌≡◌, ◌<◌, ◌≤◌, List, [], length, IfOk};
ghost use Rattle.tf_words.specs.Number.{number};
ghost use Rattle.tf_model.specs.Limit.{most_machines};
ghost use Rattle.tf_read.specs.Faults.{Gives};
ghost use Rattle.tf_routes.specs.JobShop.{machine_in, machine_first, time_first, step_first};
ghost use Rattle.tf_routes.specs.JobShop.{route_first, routes_in};
ghost use Rattle.tf_routes.specs.Marks.{AreMarks};
ghost use Rattle.tf_routes.specs.TextLeft.{words_of};
ghost use Rattle.tf_routes.specs.declared.route.Step.{Step};

use crate::number::time_in;
use crate::route::{Route, Step};
use crate::text_words::TextWords;
use std::alloc::Allocator;
use tf_read::fault::ReadFault;
use tf_words::number::{Number, number_of};

// A machine of a line, of which none is marked before. There are as many machines as marks.
fn machine_in(marks: &[bool], line: u32, number: Number) -> Result<u32, ReadFault>
    requires { length marks.now ≤ most_machines }
    ensures machine { (before : List Step) → AreMarks before marks.now →
        result ≡ machine_in (length marks.now) before line number }
    ensures within { IfOk result (λ machine. machine < length marks.now) }
{
    match number {
        Number::NotANumber => Err(ReadFault::BadNumber(line)),
        Number::Value(value) if value >= 0 && (value as u64) < marks.len() as u64 => {
            if marks[value as usize] {
                return Err(ReadFault::BadLine(line));
            }
            Ok(value as u32)
        }
        _ => Err(ReadFault::BadLine(line)),
    }
}

// The machine that the first of some words is, and the words after it.
fn machine_first<'a>(
    marks: &[bool],
    words: &TextWords<'a>,
) -> Result<(u32, TextWords<'a>), ReadFault>
    requires { length marks.now ≤ most_machines }
    ensures machine { (before : List Step) → AreMarks before marks.now →
        Gives (λ x. (x.0, words_of x.1)) result
        (machine_first (length marks.now) before (words_of words.now)) }
    ensures within { IfOk result (λ x. x.0 < length marks.now) }
{
    let Some((word, more)) = words.split_first() else {
        return Err(ReadFault::EndsEarly);
    };
    let machine = machine_in(marks, word.line, number_of(word.bytes))?;
    Ok((machine, more))
}

// The time that the first of some words is, and the words after it.
fn time_first<'a>(words: &TextWords<'a>) -> Result<(u64, TextWords<'a>), ReadFault>
    ensures { Gives (λ x. (x.0, words_of x.1)) result (time_first (words_of words.now)) }
{
    let Some((word, more)) = words.split_first() else {
        return Err(ReadFault::EndsEarly);
    };
    let time = time_in(word.line, word.bytes)?;
    Ok((time, more))
}

// The next step of a route, and the words after it.
fn step_first<'a>(marks: &[bool], words: &TextWords<'a>) -> Result<(Step, TextWords<'a>), ReadFault>
    requires { length marks.now ≤ most_machines }
    ensures step { (before : List Step) → AreMarks before marks.now →
        Gives (λ x. (x.0, words_of x.1)) result
        (step_first (length marks.now) before (words_of words.now)) }
    ensures within { IfOk result (λ x. x.0.machine < length marks.now) }
{
    let (machine, timed) = machine_first(marks, words)?;
    let (time, more) = time_first(&timed)?;
    Ok((Step { machine, time }, more))
}

// The route of a job with a step on each machine, and the words after it.
fn route_first<'a, A: Allocator + Copy>(
    alloc: A,
    machines: u32,
    words: &TextWords<'a>,
) -> Result<(Route<A>, TextWords<'a>), ReadFault>
    requires { machines ≤ most_machines }
    ensures { Gives (λ x. (x.0, words_of x.1)) result
        (route_first machines machines [] (words_of words.now)) }
{
    let mut steps = Vec::with_capacity(alloc, machines as usize)?;
    let mut marks = vec![in alloc; false; machines as usize]?;
    let mut rest = *words;
    for _ in 0..machines {
        let (step, more) = step_first(&marks, &rest)?;
        marks[step.machine as usize] = true;
        steps.push(step)?;
        rest = more;
    }
    Ok((Route::new(steps), rest))
}

/// The routes of so many jobs, each with a step on each machine.
pub(crate) fn routes_in<A: Allocator + Copy>(
    alloc: A,
    jobs: u32,
    machines: u32,
    words: &TextWords<'_>,
) -> Result<Vec<Route<A>, A>, ReadFault>
    requires { machines ≤ most_machines }
    ensures { Gives (λ routes. routes.items) result
        (routes_in machines jobs [] (words_of words.now)) }
{
    let mut routes = Vec::new(alloc);
    let mut rest = *words;
    for _ in 0..jobs {
        match route_first(alloc, machines, &rest) {
            Err(fault) => return Err(fault),
            Ok((route, more)) => {
                routes.push(route)?;
                rest = more;
            }
        }
    }
    Ok(routes)
}
