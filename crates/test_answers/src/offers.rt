//! Answers that are assessed beside the bound of a text, where memory is refused, a device fails or
//! the text is damaged.
use crate::pictured::has;
use refusing::Refusing;
use std::alloc::{AllocError, Global};
use std::test::Fail;
use test_runs::devices::{Failure, Sink, Source};
use test_runs::examples::Given;
use test_runs::growths::{Ended, ample, refuse_each_growth};
use test_runs::runs::{Ending, ending_of, ensure, request};
use tf_assess::bound_read::{BoundReadFault, bound_read};
use tf_assess::offered::Aids;
use tf_assess::run_assess::{AssessmentRequest, run_assess};
use tf_bound_text::sheet::BoundSheet;
use tf_engine::request::Request;
use tf_evaluate::evaluation::Standing;
use tf_search::effort::{Effort, Nobody};
use tf_text::answer::layout::Layout;
use tf_text::counted::Counted;

/// Job 1 is never late.
const INSTANCE: &[u8] = b"table 1\njob 1 p=1,1 d=100\njob 2 p=3,1 d=1\njob 3 p=3,1 d=1\n";

const ANSWER: &[u8] = b"answer 1\nproblem F2||sumT\njobs 3\nmachines 2\nvalue 9\npiece 2 1 0 3\n\
    piece 3 1 3 6\npiece 1 1 6 7\npiece 2 2 3 4\npiece 3 2 6 7\npiece 1 2 7 8\ncert load\nend\n";

/// Jobs 2 and 3 come first on machine 1: 3 + 6 + 2 - 2. Each alone they are late by 3, so 6.
const BOUND: &[u8] =
    b"bound 1\nproblem F2||sumT\njobs 3\nmachines 2\nvalue 9\nmultipliers 1 1 0 1 1\nend\n";

const WRITTEN: &[u8] = b"evaluation 1\nproblem F2||sumT\njobs 3\nmachines 2\nfits\nclaimed 9\n\
    value 9\nbest 9\ngap 0\noffered 9\nbound 9\nmultipliers 1 1 0 1 1\njob 1 6 8 0\n\
    job 2 0 4 3\njob 3 3 7 6\nend\n";

/// Where the text of the bound was not read, or how else the run ended without an assessment.
#[derive(Clone, Copy, PartialEq, Eq)]
enum Unassessed {
    Bound(BoundReadFault),
    Run(Ending),
}

fn is_want_of_memory(fault: Unassessed) -> bool {
    fault == Unassessed::Bound(BoundReadFault::OutOfMemory)
        || fault == Unassessed::Run(Ending::OutOfMemory)
}

fn request_of(rt: &HostRuntime) -> Result<Request, AllocError> {
    request(rt, "F2||sumT", Given::Table, Layout::Two)
}

/// Assesses the answer beside the bound that the source gives.
fn assess_beside(
    heap: &Refusing<Global>,
    request: &Request,
    bound: &mut Source<'_>,
    sink: &mut Sink,
) -> Result<Standing, Unassessed> {
    let mut reader = Counted::new(bound);
    match bound_read(heap, &mut reader) {
        Ok(sheet) => assess(heap, request, sheet, sink),
        Err(fault) => Err(Unassessed::Bound(fault)),
    }
}

fn assess<'a>(
    heap: &'a Refusing<Global>,
    request: &Request,
    sheet: BoundSheet<&'a Refusing<Global>>,
    sink: &mut Sink,
) -> Result<Standing, Unassessed> {
    // Prices would bound as much, so no steps are taken for them.
    let effort: Effort<Nobody> = Effort::untold(Some(0));
    let offered = Some(sheet);
    let aids = Aids { effort, offered };
    let mut instance = Counted::new(INSTANCE);
    let mut answer = Counted::new(ANSWER);
    let mut writer = Counted::new(sink);
    let asked = AssessmentRequest { request, aids };
    match run_assess(heap, asked, &mut instance, &mut answer, &mut writer) {
        Ok(assessed) => Ok(assessed),
        Err(fault) => Err(Unassessed::Run(ending_of(&fault))),
    }
}

/// All of it is written, or nothing is.
fn assessed_on(heap: &Refusing<Global>, alloc: Global, request: &Request) -> Result<Ended, Fail> {
    let mut bound = Source::new(BOUND);
    let mut sink = Sink::new(alloc);
    match assess_beside(heap, request, &mut bound, &mut sink) {
        Ok(Standing::Best) if sink.taken() == WRITTEN => Ok(Ended::Answered),
        Err(fault) if is_want_of_memory(fault) && sink.calls() == 0 => Ok(Ended::OutOfMemory),
        _ => Err(Fail::new("another outcome")),
    }
}

#[test]
fn an_offered_bound_is_used_or_memory_was_refused(rt: HostRuntime) -> Result<(), Fail> {
    let alloc = rt.alloc();
    let request = request_of(&rt)?;
    let growths = refuse_each_growth(&rt, |heap| assessed_on(heap, alloc, &request))?;
    ensure(growths > 0, "no growth")
}

/// The reader of the bound fails at this call, and nothing is written.
fn bound_is_cut_off(alloc: Global, request: &Request, call: u64) -> bool {
    let mut bound = Source::new(BOUND).by(5).failing(Failure::once(call));
    let mut sink = Sink::new(alloc);
    let assessed = assess_beside(&ample(alloc), request, &mut bound, &mut sink);
    assessed == Err(Unassessed::Bound(BoundReadFault::Device)) && sink.calls() == 0
}

#[test]
fn nothing_is_written_where_a_read_of_the_bound_fails(rt: HostRuntime) -> Result<(), Fail> {
    let request = request_of(&rt)?;
    for call in 1..(BOUND.len() as u64).div_ceil(5) + 2 {
        ensure(
            bound_is_cut_off(rt.alloc(), &request, call),
            "another outcome",
        )?;
    }
    Ok(())
}

/// The lines of the bounds that are none above the optimum.
const SOUND: [&[u8]; 4] = [
    b"\nbound 6\n",
    b"\nbound 7\n",
    b"\nbound 8\n",
    b"\nbound 9\n",
];

/// The text has the line of a bound that is at most the optimum.
fn has_sound_line(text: &[u8]) -> bool {
    for line in SOUND {
        if has(text, line) {
            return true;
        }
    }
    false
}

/// The bound that is written is at most the optimum, or the text of the bound is refused.
fn is_sound(alloc: Global, request: &Request, text: &[u8]) -> bool {
    let mut bound = Source::new(text);
    let mut sink = Sink::new(alloc);
    match assess_beside(&ample(alloc), request, &mut bound, &mut sink) {
        Ok(_) => has_sound_line(sink.taken()),
        Err(Unassessed::Bound(BoundReadFault::Text(_))) => sink.calls() == 0,
        Err(_) => false,
    }
}

/// A byte of the text of the bound is replaced by others in turn.
fn is_sound_at(alloc: Global, request: &Request, place: usize) -> Result<bool, AllocError> {
    for byte in b"0239-x \n" {
        let mut damaged = Vec::from_slice(alloc, BOUND)?;
        if let Some(own) = damaged.get_mut(place) {
            *own = *byte;
        }
        if !is_sound(alloc, request, &damaged) {
            return Ok(false);
        }
    }
    Ok(true)
}

#[test]
fn a_replaced_byte_makes_no_bound_above_the_optimum(rt: HostRuntime) -> Result<(), Fail> {
    let request = request_of(&rt)?;
    for place in 0..BOUND.len() {
        ensure(is_sound_at(rt.alloc(), &request, place)?, "unsound")?;
    }
    Ok(())
}
