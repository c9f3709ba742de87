//! What a run is asked for, and the runs on bytes.
ghost use Rattle.std.specs.Prelude.{◌≤◌};
ghost use Rattle.tf_text.specs.Chart.{most_columns};

use crate::devices::{Sink, Source};
use crate::examples::{Example, Given};
use refusing::Refusing;
use std::alloc::{AllocError, Allocator, Global};
use std::test::Fail;
use tf_engine::fault::RunFault;
use tf_engine::request::{Form, Request};
use tf_engine::run_check::{Checked, run_check};
use tf_engine::run_gantt::run_gantt;
use tf_engine::run_solve::run_solve;
use tf_engine::text::Text;
use tf_model::prepare::Refusal;
use tf_read::fault::ReadFault;
use tf_text::answer::fault::AnswerFault;
use tf_text::answer::layout::Layout;
use tf_text::counted::Counted;

pub const LAYOUTS: [Layout; 2] = [Layout::One, Layout::Two];

pub fn ensure(is_so: bool, otherwise: &'static str) -> Result<(), Fail> {
    if is_so {
        Ok(())
    } else {
        Err(Fail::new(otherwise))
    }
}

/// How a run ends, as a value that owns nothing.
#[derive(Clone, Copy, PartialEq, Eq)]
pub enum Ending {
    Answered,
    Device,
    /// With a fault of the problem line at this byte, from 0.
    Notation(usize),
    Text(ReadFault),
    Task(Refusal),
    Answer(AnswerFault),
    Cycle,
    OutOfMemory,
    Other,
}

pub fn ending_of<A: Allocator>(fault: &RunFault<A>) -> Ending {
    match fault {
        RunFault::Device => Ending::Device,
        RunFault::Notation(fault) => Ending::Notation(fault.byte),
        RunFault::Text(fault) => Ending::Text(*fault),
        RunFault::Task(refusal) => Ending::Task(*refusal),
        RunFault::Answer(fault) => Ending::Answer(*fault),
        RunFault::Cycle(_) => Ending::Cycle,
        RunFault::OutOfMemory => Ending::OutOfMemory,
        _ => Ending::Other,
    }
}

/// A request for an answer in this version.
pub fn request(
    rt: &HostRuntime,
    problem: &str,
    given: Given,
    layout: Layout,
) -> Result<Request, AllocError> {
    Ok(Request {
        problem: Text::new(String::from_str(rt.alloc(), problem)?),
        form: form_of(rt, given)?,
        machines: None,
        layout,
    })
}

fn form_of(rt: &HostRuntime, given: Given) -> Result<Form, AllocError> {
    match given {
        Given::Table => Ok(Form::Table),
        Given::Tardiness { jobs, index } => Ok(Form::Wt { jobs, index }),
        Given::FlowShop { name, pair } => Ok(Form::Flow {
            name: Text::new(String::from_str(rt.alloc(), name)?),
            pair,
        }),
    }
}

/// A request with a job table and an answer in version 1.
pub fn request_table(rt: &HostRuntime, problem: &str) -> Result<Request, AllocError> {
    request(rt, problem, Given::Table, Layout::One)
}

/// The request of an example.
pub fn request_for(
    rt: &HostRuntime,
    example: &Example,
    layout: Layout,
) -> Result<Request, AllocError> {
    request(rt, example.problem, example.given, layout)
}

/// Solves an instance text.
pub fn solve_into<A: Allocator + Copy>(
    alloc: A,
    request: &Request,
    instance: &[u8],
    out: &mut Vec<u8>,
) -> Result<(), RunFault<A>> {
    let mut reader = Counted::new(instance);
    let mut writer = Counted::new(out);
    run_solve(alloc, request, &mut reader, &mut writer)
}

/// Checks an answer text.
pub fn check_into<A: Allocator + Copy>(
    alloc: A,
    request: &Request,
    instance: &[u8],
    answer: &[u8],
    out: &mut Vec<u8>,
) -> Result<Checked, RunFault<A>> {
    let mut instance = Counted::new(instance);
    let mut answer = Counted::new(answer);
    let mut writer = Counted::new(out);
    run_check(alloc, request, &mut instance, &mut answer, &mut writer)
}

/// Draws an answer text.
pub fn draw_into<A: Allocator + Copy>(
    alloc: A,
    answer: &[u8],
    columns: u32,
    out: &mut Vec<u8>,
) -> Result<(), RunFault<A>>
    requires { (1 ≤ columns) × (columns ≤ most_columns) }
{
    let mut answer = Counted::new(answer);
    let mut writer = Counted::new(out);
    run_gantt(alloc, &mut answer, &mut writer, columns)
}

/// How solving over devices ends.
pub fn solve_on(
    heap: &Refusing<Global>,
    request: &Request,
    source: &mut Source<'_>,
    sink: &mut Sink,
) -> Ending {
    let mut reader = Counted::new(source);
    let mut writer = Counted::new(sink);
    match run_solve(heap, request, &mut reader, &mut writer) {
        Ok(()) => Ending::Answered,
        Err(fault) => ending_of(&fault),
    }
}

/// How a check over devices ends. One that does not accept has another ending.
pub fn check_on(
    heap: &Refusing<Global>,
    request: &Request,
    source: &mut Source<'_>,
    other: &mut Source<'_>,
    sink: &mut Sink,
) -> Ending {
    let mut instance = Counted::new(source);
    let mut answer = Counted::new(other);
    let mut writer = Counted::new(sink);
    match run_check(heap, request, &mut instance, &mut answer, &mut writer) {
        Ok(Checked::Accepted) => Ending::Answered,
        Ok(_) => Ending::Other,
        Err(fault) => ending_of(&fault),
    }
}

/// How drawing in 72 columns over devices ends.
pub fn draw_on(heap: &Refusing<Global>, source: &mut Source<'_>, sink: &mut Sink) -> Ending {
    let mut reader = Counted::new(source);
    let mut writer = Counted::new(sink);
    match run_gantt(heap, &mut reader, &mut writer, 72) {
        Ok(()) => Ending::Answered,
        Err(fault) => ending_of(&fault),
    }
}
