//! Each growth that a run asks for, refused in turn.
use crate::bounds::cases::{CASES, Case, Run, request_of};
use refusing::Refusing;
use std::alloc::Global;
use std::test::Fail;
use test_runs::devices::{Sink, Source};
use test_runs::growths::{Ended, refuse_each_growth};
use test_runs::runs::{Ending, ensure};
use tf_planning::writing::Planned;

/// The bound of a case is printed, or nothing is.
fn bound_on(alloc: Global, run: Run<'_>) -> Result<Ended, Fail> {
    let mut source = Source::new(run.case.instance);
    let mut sink = Sink::new(alloc);
    match run.bound(&mut source, &mut sink) {
        Ending::Answered if sink.taken() == run.case.bound => Ok(Ended::Answered),
        Ending::OutOfMemory if sink.calls() == 0 => Ok(Ended::OutOfMemory),
        _ => Err(Fail::new("another outcome")),
    }
}

/// A case is planned at the least cost, or nothing is printed.
fn plan_on(alloc: Global, run: Run<'_>) -> Result<Ended, Fail> {
    let mut source = Source::new(run.case.instance);
    let mut sink = Sink::new(alloc);
    match run.plan(&mut source, &mut sink) {
        Ok(Planned::Optimal) if sink.taken().starts_with(run.case.planned) => Ok(Ended::Answered),
        Err(Ending::OutOfMemory) if sink.calls() == 0 => Ok(Ended::OutOfMemory),
        _ => Err(Fail::new("another outcome")),
    }
}

/// The answer of a case is assessed, or nothing is printed.
fn assess_on(alloc: Global, run: Run<'_>) -> Result<Ended, Fail> {
    let mut source = Source::new(run.case.instance);
    let mut other = Source::new(run.case.answer);
    let mut sink = Sink::new(alloc);
    match run.assess(&mut source, &mut other, &mut sink) {
        Ok(assessed) if assessed == run.case.assessed => Ok(Ended::Answered),
        Err(Ending::OutOfMemory) if sink.calls() == 0 => Ok(Ended::OutOfMemory),
        _ => Err(Fail::new("another outcome")),
    }
}

/// A case, on heaps that refuse each growth in turn: its bound is printed, and its answer assessed.
fn is_bounded_and_assessed(rt: &HostRuntime, case: &Case) -> Result<bool, Fail> {
    let alloc = rt.alloc();
    let request = request_of(rt, case)?;
    let bounds = |heap: &Refusing<Global>| {
        let request = &request;
        bound_on(
            alloc,
            Run {
                heap,
                request,
                case,
            },
        )
    };
    let assesses = |heap: &Refusing<Global>| {
        let request = &request;
        assess_on(
            alloc,
            Run {
                heap,
                request,
                case,
            },
        )
    };
    Ok(refuse_each_growth(rt, bounds)? > 0 && refuse_each_growth(rt, assesses)? > 0)
}

/// A case, on heaps that refuse each growth in turn: its instance is planned.
fn is_planned(rt: &HostRuntime, case: &Case) -> Result<bool, Fail> {
    let alloc = rt.alloc();
    let request = request_of(rt, case)?;
    let plans = |heap: &Refusing<Global>| {
        let request = &request;
        plan_on(
            alloc,
            Run {
                heap,
                request,
                case,
            },
        )
    };
    Ok(refuse_each_growth(rt, plans)? > 0)
}

#[test]
fn a_case_is_bounded_assessed_and_planned_or_memory_was_refused(
    rt: HostRuntime,
) -> Result<(), Fail> {
    for case in CASES.iter() {
        ensure(is_bounded_and_assessed(&rt, case)?, case.problem)?;
        ensure(is_planned(&rt, case)?, case.problem)?;
    }
    Ok(())
}
