//! Pictures of answers.
use refusing::Refusing;
use std::alloc::{Allocator, Global};
use std::test::Fail;
use test_runs::devices::{Failure, Sink};
use test_runs::examples::{Example, answer_in, worked};
use test_runs::growths::{Ended, refuse_each_growth};
use test_runs::runs::{Ending, LAYOUTS, ending_of, ensure};
use tf_picture::run_picture::run_picture;
use tf_picture::view::View;
use tf_text::answer::layout::Layout;
use tf_text::counted::Counted;

mod texts;

use texts::{IDLE, NONE, ONE, Pictured};

fn picture_into<A: Allocator + Copy>(alloc: A, answer: &[u8], out: &mut Vec<u8>) -> Ending {
    let mut answer = Counted::new(answer);
    let mut writer = Counted::new(out);
    match run_picture(alloc, &View::whole(), &mut answer, &mut writer) {
        Ok(()) => Ending::Answered,
        Err(fault) => ending_of(&fault),
    }
}

/// The picture of an answer.
fn picture_of(rt: &HostRuntime, answer: &[u8]) -> Result<Vec<u8>, Fail> {
    let mut out = Vec::new(rt.alloc());
    let result = picture_into(rt.alloc(), answer, &mut out);
    ensure(result == Ending::Answered, "refused")?;
    Ok(out)
}

/// Whether the text has the words.
pub(crate) fn has(text: &[u8], words: &[u8]) -> bool {
    for at in 0..text.len() {
        if text[at..].starts_with(words) {
            return true;
        }
    }
    false
}

/// In how many lines of a text the words are.
fn lines_with(text: &[u8], words: &[u8]) -> usize {
    let mut count: usize = 0;
    for line in text.split(|byte| *byte == b'\n') {
        if has(line, words) {
            count = count.saturating_add(1);
        }
    }
    count
}

/// The picture of the example's answer has as many bars as that has pieces.
fn has_its_bars(rt: &HostRuntime, example: &Example, layout: Layout) -> Result<bool, Fail> {
    let answer = answer_in(rt, example, layout)?;
    let out = picture_of(rt, &answer)?;
    Ok(lines_with(&out, b"<title>job ") == lines_with(&answer, b"piece "))
}

#[test]
fn each_piece_has_its_bar(rt: HostRuntime) -> Result<(), Fail> {
    for example in worked() {
        for layout in LAYOUTS {
            ensure(has_its_bars(&rt, example, layout)?, example.name)?;
        }
    }
    Ok(())
}

#[test]
fn short_pieces_are_seen(rt: HostRuntime) -> Result<(), Fail> {
    let long = b"answer 1
problem 1||sumC
jobs 3
machines 1
value 0
piece 1 1 0 1
piece 2 1 1 3999999999999999999
piece 3 1 3999999999999999999 4000000000000000000
cert pairs
end
";
    let out = picture_of(&rt, long)?;
    let is_seen = lines_with(&out, b" width=\"50\" ") == 2
        && lines_with(&out, b" stroke=\"none\"") == 2
        && has(&out, b"<text x=\"59999\" y=\"10968\">2</text>");
    ensure(
        is_seen,
        "no least width, an edge that hides the fill, or no number",
    )
}

#[test]
fn pieces_on_further_machines_count_in_the_length_alone(rt: HostRuntime) -> Result<(), Fail> {
    let further = b"answer 1
problem 1||sumwT
jobs 1
machines 1
value 0
piece 1 1 0 1
piece 1 7 0 3
cert pairs
end
";
    let out = picture_of(&rt, further)?;
    let is_so = lines_with(&out, b"<title>job ") == 1 && has(&out, b"jobs 1, machines 1, length 3");
    ensure(is_so, "another number of bars, or another length")
}

#[test]
fn a_writer_that_fails_has_a_prefix(rt: HostRuntime) -> Result<(), Fail> {
    for call in 1..100u64 {
        ensure(has_prefix(&rt, call), "no prefix, or called again")?;
    }
    Ok(())
}

/// Where this call of the writer fails, 17 bytes were taken in each call before it.
fn has_prefix(rt: &HostRuntime, call: u64) -> bool {
    let mut sink = Sink::new(rt.alloc()).by(17).failing(Failure::once(call));
    let outcome = picture_on(rt, &mut sink);
    let taken = sink.taken();
    outcome == Ending::Device
        && sink.calls() == call
        && (taken.len() as u64 / 17).checked_add(1) == Some(call)
        && taken.len() % 17 == 0
        && IDLE.picture.starts_with(taken)
}

fn picture_on(rt: &HostRuntime, sink: &mut Sink) -> Ending {
    let mut answer = Counted::new(IDLE.answer);
    let mut writer = Counted::new(sink);
    match run_picture(rt.alloc(), &View::whole(), &mut answer, &mut writer) {
        Ok(()) => Ending::Answered,
        Err(fault) => ending_of(&fault),
    }
}

fn pictures_on(alloc: Global, heap: &Refusing<Global>, pictured: &Pictured) -> Result<Ended, Fail> {
    let mut out = Vec::with_capacity(alloc, 5_000)?;
    match picture_into(heap, pictured.answer, &mut out) {
        Ending::Answered if out.as_slice() == pictured.picture => Ok(Ended::Answered),
        Ending::OutOfMemory if out.is_empty() => Ok(Ended::OutOfMemory),
        _ => Err(Fail::new(pictured.name)),
    }
}

fn is_pictured(rt: &HostRuntime, pictured: &Pictured) -> Result<bool, Fail> {
    let alloc = rt.alloc();
    let call = |heap: &Refusing<Global>| pictures_on(alloc, heap, pictured);
    Ok(refuse_each_growth(rt, call)? > 3)
}

#[test]
fn schedules_are_pictured_whatever_growth_is_refused(rt: HostRuntime) -> Result<(), Fail> {
    for pictured in &[&ONE, &IDLE, &NONE] {
        ensure(is_pictured(&rt, pictured)?, pictured.name)?;
    }
    Ok(())
}
