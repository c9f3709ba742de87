//! Answers, evaluated: with each growth refused, and on a writer that fails.
use refusing::Refusing;
use std::alloc::{AllocError, Allocator, Global};
use std::test::Fail;
use test_runs::devices::{Failure, Sink, Source};
use test_runs::examples::latest::{COSTS, DUE_ARC, EQUAL_DUE, PREEMPTED, TWO_ARCS};
use test_runs::examples::parallel::{DEALT, FOURS, ONE_LONG, ONES};
use test_runs::examples::shops::{FLOW, FLOW_ZEROS, OPEN};
use test_runs::examples::sums::{NO_WEIGHT, RATIOS, SHORTEST};
use test_runs::examples::{Example, answer_in, with_line, worked};
use test_runs::growths::{Ended, refuse_each_growth};
use test_runs::runs::{Ending, LAYOUTS, ending_of, ensure, request_for, request_table};
use tf_engine::request::Request;
use tf_evaluate::evaluation::{Detail, Standing};
use tf_evaluate::run_evaluate::{EvaluationRequest, run_evaluate};
use tf_text::answer::layout::Layout;
use tf_text::counted::Counted;

/// How good an answer text is.
fn evaluate_into<A: Allocator + Copy>(
    alloc: A,
    asked: EvaluationRequest<'_>,
    instance: &[u8],
    answer: &[u8],
    out: &mut Vec<u8>,
) -> Result<Standing, Ending> {
    let mut instance = Counted::new(instance);
    let mut answer = Counted::new(answer);
    let mut writer = Counted::new(out);
    match run_evaluate(alloc, asked, &mut instance, &mut answer, &mut writer) {
        Ok(standing) => Ok(standing),
        Err(fault) => Err(ending_of(&fault)),
    }
}

/// An example whose answer has other lines, counted from 1. What is evaluated of each stands, typed
/// by hand, among the sessions.
type Case = (&'static Example, &'static [(usize, &'static str)]);

static CASES: [Case; 26] = [
    (&FOURS, &[]),
    (&ONES, &[]),
    (&ONE_LONG, &[]),
    (&DEALT, &[]),
    (&RATIOS, &[]),
    (&SHORTEST, &[]),
    (&NO_WEIGHT, &[]),
    (&COSTS, &[]),
    (&EQUAL_DUE, &[]),
    (&DUE_ARC, &[]),
    (&PREEMPTED, &[]),
    (&FLOW, &[]),
    (&FLOW_ZEROS, &[]),
    (&OPEN, &[]),
    (
        &SHORTEST,
        &[
            (5, "value 13"),
            (6, "piece 1 1 0 3"),
            (7, "piece 2 1 3 4"),
            (8, "piece 3 1 4 6"),
        ],
    ),
    (&EQUAL_DUE, &[(5, "value 7"), (8, "cert last 1")]),
    (&EQUAL_DUE, &[(7, "piece 2 1 5 6"), (8, "cert pairs")]),
    (&EQUAL_DUE, &[(8, "cert last 1 3")]),
    (&EQUAL_DUE, &[(8, "cert last 1 1")]),
    (&EQUAL_DUE, &[(7, "piece 3 1 1 2")]),
    (&FOURS, &[(9, "piece 1 2 2 6")]),
    (&FOURS, &[(8, "piece 2 2 0 3")]),
    (&FOURS, &[(4, "machines 3")]),
    (&OPEN, &[(12, "cert job 2")]),
    (&OPEN, &[(12, "cert machine 2")]),
    (&PREEMPTED, &[(10, "cert window 3 1 2")]),
];

/// The answer of a case.
fn answer_of(rt: &HostRuntime, case: &Case) -> Result<Vec<u8>, AllocError> {
    let (example, changes) = case;
    let mut text = Vec::from_slice(rt.alloc(), example.answer)?;
    for (place, line) in changes.iter() {
        text = with_line(rt, &text, *place, line)?;
    }
    Ok(text)
}

/// Whether a text has such a line.
fn has_line(text: &[u8], wanted: &[u8]) -> bool {
    for line in text.split(|byte| *byte == b'\n') {
        if line == wanted {
            return true;
        }
    }
    false
}

/// The answer is evaluated as the best one.
fn is_best(rt: &HostRuntime, request: &Request, example: &Example, answer: &[u8]) -> bool {
    let asked = EvaluationRequest {
        request,
        detail: Detail::Summary,
    };
    let mut out = Vec::new(rt.alloc());
    let result = evaluate_into(rt.alloc(), asked, example.instance, answer, &mut out);
    result == Ok(Standing::Best) && has_line(&out, b"fits") && has_line(&out, b"gap 0")
}

/// The example's answer in this layout is evaluated as the best one.
fn is_best_in(rt: &HostRuntime, example: &Example, layout: Layout) -> Result<bool, Fail> {
    let request = request_for(rt, example, Layout::One)?;
    let answer = answer_in(rt, example, layout)?;
    Ok(is_best(rt, &request, example, &answer))
}

#[test]
fn what_is_printed_is_best(rt: HostRuntime) -> Result<(), Fail> {
    for example in worked() {
        for layout in LAYOUTS {
            ensure(is_best_in(&rt, example, layout)?, example.name)?;
        }
    }
    Ok(())
}

/// What is evaluated.
#[derive(Clone, Copy)]
struct Asked<'a> {
    alloc: Global,
    request: &'a Request,
    detail: Detail,
    instance: &'a [u8],
    answer: &'a [u8],
}

impl Asked<'_> {
    fn evaluate<A: Allocator + Copy>(
        &self,
        alloc: A,
        out: &mut Vec<u8>,
    ) -> Result<Standing, Ending> {
        let asked = EvaluationRequest {
            request: self.request,
            detail: self.detail,
        };
        evaluate_into(alloc, asked, self.instance, self.answer, out)
    }

    /// On this heap the outcome and what is written are these, or memory is wanting and nothing is
    /// written.
    fn evaluates_on(
        &self,
        heap: &Refusing<Global>,
        wanted: Result<Standing, Ending>,
        written: &[u8],
    ) -> Result<Ended, Fail> {
        let mut out = Vec::with_capacity(self.alloc, 2_000)?;
        let outcome = self.evaluate(heap, &mut out);
        if outcome == wanted && out.as_slice() == written {
            return Ok(Ended::Answered);
        }
        let is_refused = outcome == Err(Ending::OutOfMemory) && out.is_empty();
        ensure(is_refused, "another outcome")?;
        Ok(Ended::OutOfMemory)
    }

    /// It is evaluated alike with each growth refused.
    fn is_alike(&self, rt: &HostRuntime) -> Result<bool, Fail> {
        let mut written = Vec::new(self.alloc);
        let outcome = self.evaluate(self.alloc, &mut written);
        ensure(outcome.is_ok(), "refused")?;
        let call = |heap: &Refusing<Global>| self.evaluates_on(heap, outcome, &written);
        Ok(refuse_each_growth(rt, call)? > 3)
    }
}

/// The case is evaluated alike in both details with each growth refused.
fn is_alike(rt: &HostRuntime, case: &Case) -> Result<bool, Fail> {
    let request = request_for(rt, case.0, Layout::One)?;
    let answer = answer_of(rt, case)?;
    let summary = Asked {
        alloc: rt.alloc(),
        request: &request,
        detail: Detail::Summary,
        instance: case.0.instance,
        answer: &answer,
    };
    let arithmetic = Asked {
        detail: Detail::WithArithmetic,
        ..summary
    };
    Ok(summary.is_alike(rt)? && arithmetic.is_alike(rt)?)
}

#[test]
fn each_case_is_evaluated_alike_whatever_growth_is_refused(rt: HostRuntime) -> Result<(), Fail> {
    for case in CASES.iter() {
        ensure(is_alike(&rt, case)?, case.0.name)?;
    }
    Ok(())
}

#[test]
fn cycles_are_refused(rt: HostRuntime) -> Result<(), Fail> {
    let request = request_table(&rt, COSTS.problem)?;
    let asked = EvaluationRequest {
        request: &request,
        detail: Detail::WithArithmetic,
    };
    let mut out = Vec::new(rt.alloc());
    let result = evaluate_into(rt.alloc(), asked, TWO_ARCS, COSTS.answer, &mut out);
    ensure(result == Err(Ending::Cycle) && out.is_empty(), "no cycle")
}

/// Evaluates on devices.
fn evaluate_on(
    rt: &HostRuntime,
    request: &Request,
    instance: &mut Source,
    answer: &mut Source,
    sink: &mut Sink,
) -> Result<Standing, Ending> {
    let mut instance = Counted::new(instance);
    let mut answer = Counted::new(answer);
    let mut writer = Counted::new(sink);
    let asked = EvaluationRequest {
        request,
        detail: Detail::WithArithmetic,
    };
    match run_evaluate(rt.alloc(), asked, &mut instance, &mut answer, &mut writer) {
        Ok(standing) => Ok(standing),
        Err(fault) => Err(ending_of(&fault)),
    }
}

/// Where this call of the writer fails, the run fails, and there is no further call.
fn stops_at(rt: &HostRuntime, request: &Request, call: u64) -> bool {
    let mut instance = Source::new(FOURS.instance);
    let mut answer = Source::new(FOURS.answer);
    let mut sink = Sink::new(rt.alloc()).by(1).failing(Failure::once(call));
    let result = evaluate_on(rt, request, &mut instance, &mut answer, &mut sink);
    result == Err(Ending::Device) && sink.calls() == call
}

#[test]
fn failures_stop(rt: HostRuntime) -> Result<(), Fail> {
    let request = request_for(&rt, &FOURS, Layout::One)?;
    for call in 1..20u64 {
        ensure(
            stops_at(&rt, &request, call),
            "no device fault, or called again",
        )?;
    }
    Ok(())
}
