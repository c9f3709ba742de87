//! Devices that fail, call after call.
use crate::bounds::cases::{CASES, Case, Run, request_of};
use std::alloc::{AllocError, Global};
use std::test::Fail;
use test_runs::devices::{Failure, Sink, Source};
use test_runs::growths::ample;
use test_runs::runs::{Ending, ensure};

/// The calls of a reader by 5 bytes a call. The last one shows the end.
fn calls_by_five(text: &[u8]) -> u64 {
    (text.len() as u64).div_ceil(5) + 1
}

/// The reader of the instance fails at this call of a run that bounds.
fn bound_is_cut_off(alloc: Global, run: Run<'_>, call: u64) -> bool {
    let mut source = Source::new(run.case.instance)
        .by(5)
        .failing(Failure::once(call));
    let mut sink = Sink::new(alloc);
    run.bound(&mut source, &mut sink) == Ending::Device
        && source.calls() == call
        && sink.calls() == 0
}

/// The writer fails at this call of a run that bounds, and took a byte in each call before.
fn bound_is_cut_short(alloc: Global, run: Run<'_>, call: u64) -> bool {
    let mut source = Source::new(run.case.instance);
    let mut sink = Sink::new(alloc).by(1).failing(Failure::once(call));
    let ending = run.bound(&mut source, &mut sink);
    let taken = sink.taken();
    ending == Ending::Device && run.case.bound.starts_with(taken) && taken.len() as u64 + 1 == call
}

/// The reader of the instance fails at this call of a run that plans.
fn plan_is_cut_off(alloc: Global, run: Run<'_>, call: u64) -> bool {
    let mut source = Source::new(run.case.instance)
        .by(5)
        .failing(Failure::once(call));
    let mut sink = Sink::new(alloc);
    run.plan(&mut source, &mut sink) == Err(Ending::Device)
        && source.calls() == call
        && sink.calls() == 0
}

/// The writer fails at this call of a run that plans, and took a byte in each call before.
fn plan_is_cut_short(alloc: Global, run: Run<'_>, call: u64) -> bool {
    let mut source = Source::new(run.case.instance);
    let mut sink = Sink::new(alloc).by(1).failing(Failure::once(call));
    let ending = run.plan(&mut source, &mut sink);
    let taken = sink.taken();
    ending == Err(Ending::Device)
        && run.case.planned.starts_with(taken)
        && taken.len() as u64 + 1 == call
}

/// The reader of the answer fails at this call of a run that assesses.
fn answer_is_cut_off(alloc: Global, run: Run<'_>, call: u64) -> bool {
    let mut source = Source::new(run.case.instance);
    let mut other = Source::new(run.case.answer)
        .by(5)
        .failing(Failure::once(call));
    let mut sink = Sink::new(alloc);
    run.assess(&mut source, &mut other, &mut sink) == Err(Ending::Device)
        && other.calls() == call
        && sink.calls() == 0
}

/// The reader of the instance fails at this call of a run that assesses: the answer isn't read.
fn instance_is_cut_off(alloc: Global, run: Run<'_>, call: u64) -> bool {
    let mut source = Source::new(run.case.instance)
        .by(5)
        .failing(Failure::once(call));
    let mut other = Source::new(run.case.answer);
    let mut sink = Sink::new(alloc);
    run.assess(&mut source, &mut other, &mut sink) == Err(Ending::Device)
        && other.calls() == 0
        && sink.calls() == 0
}

/// Each call of the reader of the instance fails in turn.
fn is_cut_off_in_the_instance(alloc: Global, run: Run<'_>) -> bool {
    for call in 1..calls_by_five(run.case.instance).saturating_add(1) {
        if !bound_is_cut_off(alloc, run, call)
            || !instance_is_cut_off(alloc, run, call)
            || !plan_is_cut_off(alloc, run, call)
        {
            return false;
        }
    }
    true
}

/// Each call of the reader of the answer fails in turn.
fn is_cut_off_in_the_answer(alloc: Global, run: Run<'_>) -> bool {
    for call in 1..calls_by_five(run.case.answer).saturating_add(1) {
        if !answer_is_cut_off(alloc, run, call) {
            return false;
        }
    }
    true
}

/// Each call of the writer of the plan fails in turn, up to the plan's cost.
fn is_cut_short_in_the_plan(alloc: Global, run: Run<'_>) -> bool {
    for call in 1..(run.case.planned.len() as u64).saturating_add(1) {
        if !plan_is_cut_short(alloc, run, call) {
            return false;
        }
    }
    true
}

/// Each call of the writer of the bound fails in turn.
fn is_cut_short(alloc: Global, run: Run<'_>) -> bool {
    for call in 1..(run.case.bound.len() as u64).saturating_add(1) {
        if !bound_is_cut_short(alloc, run, call) {
            return false;
        }
    }
    true
}

fn ends_where_a_device_fails(rt: &HostRuntime, case: &Case) -> Result<bool, AllocError> {
    let request = request_of(rt, case)?;
    let heap = ample(rt.alloc());
    let run = Run {
        heap: &heap,
        request: &request,
        case,
    };
    Ok(
        is_cut_off_in_the_instance(rt.alloc(), run)
            && is_cut_off_in_the_answer(rt.alloc(), run)
            && is_cut_short(rt.alloc(), run)
            && is_cut_short_in_the_plan(rt.alloc(), run),
    )
}

#[test]
fn a_run_ends_where_any_call_of_a_device_fails(rt: HostRuntime) -> Result<(), Fail> {
    for case in CASES.iter() {
        ensure(ends_where_a_device_fails(&rt, case)?, case.problem)?;
    }
    Ok(())
}
