//! Job shop files: a heading with a name, the sizes, and for each job the pairs machine, time.
ghost use Rattle.std.specs.Prelude.{◌≡◌, ◌≢◌, ◌-◌, ◌^◌, ◌<◌, ◌≤◌, ◌∷◌, [], Err, length, map};
ghost use Rattle.std.specs.Prelude.{unwrap_or, IfOk, MatchOption};
ghost use Rattle.tf_words.specs.Words.{words, lines};
ghost use Rattle.std.specs.List.{All};
ghost use Rattle.tf_model.specs.Limit.{limit, most_bytes};
ghost use Rattle.tf_read.specs.declared.fault.ReadFault.TheVariants.{EndsEarly, NoInstance};
ghost use Rattle.tf_read.specs.Faults.{Gives};
ghost use Rattle.tf_read.specs.FlowShop.{is_name_line, size, sizes_in};
ghost use Rattle.tf_routes.specs.JobShop.{first_time, routed_job, shop_sized, from_sizes};
ghost use Rattle.tf_routes.specs.JobShop.{from_heading, job_shop};
ghost use Rattle.tf_routes.specs.RoutedData.{HasRoutes};
ghost use Rattle.tf_routes.specs.TextLeft.{lines_of, words_of};

use crate::route::{Route, Step};
use crate::routed::RoutedInstance;
use crate::shop_steps::routes_in;
use crate::text_lines::TextLines;
use crate::text_words::TextWords;
use std::alloc::{AllocError, Allocator};
use tf_model::instance::Instance;
use tf_model::job::{Job, Times};
use tf_model::limit::{LIMIT, MOST_BYTES, MOST_JOBS, MOST_MACHINES};
use tf_read::fault::ReadFault;
use tf_words::digits::is_numeral;
use tf_words::number::{Number, number_of};
use tf_words::word::{first_word, is};

/// The line of the sizes, and the words after it.
#[derive(Clone, Copy)]
struct Sizes<'a> {
    line: u32,
    jobs: u64,
    machines: u64,
    words: TextWords<'a>,
}

/// The instance of this name in a job shop file, with the routes of its jobs, or the first fault
/// of the text.
///
/// A job has the time of its first step alone. Each route visits every machine of the file once.
/// Where an allocation fails, the fault is [`ReadFault::OutOfMemory`].
pub fn read_job_shop<A: Allocator + Copy>(
    alloc: A,
    text: &[u8],
    name: &[u8],
) -> Result<RoutedInstance<A>, ReadFault>
    ensures gives { Gives (λ i. i) result (job_shop name.now text.now) }
    ensures routed { IfOk result (λ r. HasRoutes (unwrap_or r.instance.machines 0) r) }
{
    if text.len() > MOST_BYTES {
        return Err(ReadFault::TooLong);
    }
    let Some(below) = below_heading(name, text) else {
        return Err(ReadFault::NoInstance);
    };
    let Some(sizes) = below_sizes(&below) else {
        return Err(ReadFault::EndsEarly);
    };
    shop_sized(alloc, &sizes)
}

// The lines below the first heading of this name.
fn below_heading<'a>(name: &[u8], text: &'a [u8]) -> Option<TextLines<'a>>
    requires { length text.now ≤ most_bytes }
    ensures { MatchOption result (from_heading name.now 1 (lines text.now) ≡ Err NoInstance)
        (λ below. from_heading name.now 1 (lines text.now)
        ≡ from_sizes below.number (lines_of below)) }
{
    let mut rest = TextLines::new(text);
    while let Some((line, below)) = rest.split_first() {
        if is_heading(name, line) {
            return Some(below);
        }
        rest = below;
    }
    None
}

// Whether the line is the heading of this name.
fn is_heading(name: &[u8], line: &[u8]) -> bool
    ensures { result ≡ is_name_line name.now (words line.now) }
{
    match two_words(line) {
        Some((key, word)) => is(key, b"instance") && is(word, name),
        None => false,
    }
}

// The words of a line that has two.
fn two_words(line: &[u8]) -> Option<(&[u8], &[u8])>
    ensures { MatchOption result (length (words line.now) ≢ 2)
        (λ x. words line.now ≡ x.0.now ∷ x.1.now ∷ []) }
{
    let (first, rest) = first_word(line)?;
    let (second, rest) = first_word(rest)?;
    match first_word(rest) {
        Some(_) => None,
        None => Some((first, second)),
    }
}

// The first line of sizes, and the words below it.
fn below_sizes<'a>(all: &TextLines<'a>) -> Option<Sizes<'a>>
    ensures { MatchOption result (from_sizes all.now.number (lines_of all.now) ≡ Err EndsEarly)
        (λ sizes. from_sizes all.now.number (lines_of all.now)
        ≡ shop_sized sizes.line sizes.jobs sizes.machines (words_of sizes.words)) }
{
    let mut rest = *all;
    while let Some((line, below)) = rest.split_first() {
        if let Some((jobs, machines)) = sizes_in(line) {
            return Some(Sizes {
                line: rest.number,
                jobs,
                machines,
                words: TextWords::new(&below),
            });
        }
        rest = below;
    }
    None
}

// The sizes that a line of two words of digits alone has.
fn sizes_in(line: &[u8]) -> Option<(u64, u64)>
    ensures { result ≡ sizes_in (words line.now) }
{
    let (jobs, machines) = two_words(line)?;
    if is_numeral(jobs) && is_numeral(machines) {
        Some((size(number_of(jobs)), size(number_of(machines))))
    } else {
        None
    }
}

fn size(number: Number) -> u64
    ensures { result ≡ size number }
{
    match number {
        Number::Value(value) if value >= 0 => value as u64,
        Number::TooLarge => LIMIT as u64 + 1,
        _ => 0,
    }
}

// The instance of these sizes.
fn shop_sized<A: Allocator + Copy>(
    alloc: A,
    sizes: &Sizes<'_>,
) -> Result<RoutedInstance<A>, ReadFault>
    ensures gives { Gives (λ i. i) result (shop_sized sizes.now.line sizes.now.jobs
        sizes.now.machines (words_of sizes.now.words)) }
    ensures routed { IfOk result (λ r. HasRoutes (unwrap_or r.instance.machines 0) r) }
{
    if sizes.jobs == 0 {
        return Err(ReadFault::NoJobs);
    }
    if sizes.jobs > MOST_JOBS as u64 {
        return Err(ReadFault::TooManyJobs);
    }
    if sizes.machines == 0 || sizes.machines > MOST_MACHINES as u64 {
        return Err(ReadFault::BadLine(sizes.line));
    }
    let machines = sizes.machines as u32;
    let routes = routes_in(alloc, sizes.jobs as u32, machines, &sizes.words)?;
    let jobs = routed_jobs(alloc, &routes)?;
    let instance = Instance::of(jobs, Vec::new(alloc), Some(machines));
    Ok(RoutedInstance { instance, routes })
}

// The jobs of some routes.
fn routed_jobs<A: Allocator>(alloc: A, routes: &[Route<A>]) -> Result<Vec<Job<A>, A>, AllocError>
    requires { All (λ route. first_time route ≤ limit) routes.now }
    ensures { IfOk result (λ jobs. jobs.items ≡ map routed_job routes.now) }
{
    let mut jobs = Vec::with_capacity(alloc, routes.len())?;
    for route in routes {
        jobs.push(routed_job(route))?;
    }
    Ok(jobs)
}

fn routed_job<A: Allocator>(route: &Route<A>) -> Job<A>
    requires { first_time route.now ≤ limit }
    ensures { result ≡ routed_job route.now }
{
    Job {
        times: Times::One(first_time(route.as_slice()) as i64),
        weight: None,
        due: None,
        release: None,
        cost: None,
    }
}

fn first_time(route: &[Step]) -> u64
    ensures { result ≡ first_time route.now }
{
    match route {
        [step, ..] => step.time,
        [] => 0,
    }
}
