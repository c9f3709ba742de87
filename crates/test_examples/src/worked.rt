//! Each worked example through the three runs, in both versions of the answer text: with each
//! growth refused, and after each of them with ample memory.
use refusing::Refusing;
use std::alloc::Global;
use std::test::Fail;
use test_runs::examples::{Example, answer_in, worked};
use test_runs::growths::{Ended, refuse_each_growth};
use test_runs::runs::{LAYOUTS, check_into, draw_into, ensure, request_for, solve_into};
use tf_engine::fault::RunFault;
use tf_engine::request::Request;
use tf_text::answer::layout::Layout;

/// A run ends with exactly these bytes, or with want of memory and nothing written.
fn ended<T: Drop>(
    outcome: Result<T, RunFault<&Refusing<Global>>>,
    out: &[u8],
    wanted: &[u8],
    name: &'static str,
) -> Result<Ended, Fail> {
    match outcome {
        Ok(_) => {
            ensure(out == wanted, name)?;
            Ok(Ended::Answered)
        }
        Err(RunFault::OutOfMemory) => {
            ensure(out.is_empty(), name)?;
            Ok(Ended::OutOfMemory)
        }
        Err(_) => Err(Fail::new(name)),
    }
}

fn solves_on(
    rt: &HostRuntime,
    heap: &Refusing<Global>,
    request: &Request,
    example: &Example,
    wanted: &[u8],
) -> Result<Ended, Fail> {
    let mut out = Vec::with_capacity(rt.alloc(), 2_000)?;
    let result = solve_into(heap, request, example.instance, &mut out);
    ended(result, &out, wanted, example.name)
}

/// Solves the example with each growth refused.
fn is_solved(
    rt: &HostRuntime,
    request: &Request,
    example: &Example,
    wanted: &[u8],
) -> Result<(), Fail> {
    let call = |heap: &Refusing<Global>| solves_on(rt, heap, request, example, wanted);
    let growths = refuse_each_growth(rt, call)?;
    ensure(growths > 3, example.name)
}

/// Accepts the example's answer with each growth refused.
fn is_accepted(
    rt: &HostRuntime,
    request: &Request,
    example: &Example,
    answer: &[u8],
) -> Result<(), Fail> {
    let call = |heap: &Refusing<Global>| accepts_on(rt, heap, request, example, answer);
    let growths = refuse_each_growth(rt, call)?;
    ensure(growths > 3, example.name)
}

/// Draws the example's answer with each growth refused.
fn is_drawn(rt: &HostRuntime, example: &Example, answer: &[u8]) -> Result<(), Fail> {
    let call = |heap: &Refusing<Global>| draws_on(rt, heap, example, answer);
    let growths = refuse_each_growth(rt, call)?;
    ensure(growths > 0, example.name)
}

/// An example through the three runs.
fn passes(rt: &HostRuntime, example: &Example, layout: Layout) -> Result<(), Fail> {
    let request = request_for(rt, example, layout)?;
    let answer = answer_in(rt, example, layout)?;
    is_solved(rt, &request, example, &answer)?;
    is_accepted(rt, &request, example, &answer)?;
    is_drawn(rt, example, &answer)
}

#[test]
fn each_passes_the_runs_whatever_growth_is_refused(rt: HostRuntime) -> Result<(), Fail> {
    for example in worked() {
        for layout in LAYOUTS {
            passes(&rt, example, layout)?;
        }
    }
    Ok(())
}

fn accepts_on(
    rt: &HostRuntime,
    heap: &Refusing<Global>,
    request: &Request,
    example: &Example,
    answer: &[u8],
) -> Result<Ended, Fail> {
    let mut out = Vec::with_capacity(rt.alloc(), 100)?;
    let result = check_into(heap, request, example.instance, answer, &mut out);
    ended(result, &out, b"accepted\n", example.name)
}

fn draws_on(
    rt: &HostRuntime,
    heap: &Refusing<Global>,
    example: &Example,
    answer: &[u8],
) -> Result<Ended, Fail> {
    let mut out = Vec::with_capacity(rt.alloc(), 2_000)?;
    let result = draw_into(heap, answer, 72, &mut out);
    ended(result, &out, example.chart, example.name)
}
