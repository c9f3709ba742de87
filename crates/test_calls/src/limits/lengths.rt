//! Texts of as many bytes as there may be, of one more, and without an end.
use std::alloc::Global;
use std::test::Fail;
use test_runs::devices::{Sink, Source};
use test_runs::examples::Given;
use test_runs::examples::parallel::FOURS;
use test_runs::growths::ample;
use test_runs::runs::{Ending, check_on, draw_on, request, request_for, solve_on};
use tf_engine::request::Request;
use tf_read::fault::ReadFault;
use tf_text::answer::fault::AnswerFault;
use tf_text::answer::layout::Layout;

/// The greatest number of bytes of a text.
const MOST: usize = 67_108_864;

const BLANKS: [u8; 4096] = [b' '; 4096];

/// How many bytes are read of so many.
fn asked_of(bytes: usize) -> u64 {
    bytes.min(MOST + 1) as u64
}

/// Solving so many bytes, this text over and over, is refused after so many of them were read, and
/// nothing is written.
fn is_not_solved(
    alloc: Global,
    request: &Request,
    text: &[u8],
    bytes: usize,
    fault: ReadFault,
) -> bool {
    let mut source = Source::repeating(text, bytes);
    let mut sink = Sink::new(alloc);
    solve_on(&ample(alloc), request, &mut source, &mut sink) == Ending::Text(fault)
        && source.given() == asked_of(bytes)
        && sink.calls() == 0
}

const TARDINESS: Given = Given::Tardiness { jobs: 1, index: 1 };

const SHOP: Given = Given::FlowShop {
    name: "demo",
    pair: None,
};

const NO_JOBS: Given = Given::Tardiness { jobs: 0, index: 1 };

/// Forms of instances, texts of so many bytes, and why they are refused.
const REFUSED: &[(Given, &[u8], usize, ReadFault)] = &[
    (Given::Table, &BLANKS, MOST, ReadFault::EndsEarly),
    (TARDINESS, &BLANKS, MOST, ReadFault::NoInstance),
    (NO_JOBS, &BLANKS, MOST, ReadFault::NoJobs),
    (SHOP, &BLANKS, MOST, ReadFault::NoInstance),
    (Given::Table, &BLANKS, MOST + 1, ReadFault::TooLong),
    (TARDINESS, &BLANKS, MOST + 1, ReadFault::TooLong),
    (NO_JOBS, &BLANKS, MOST + 1, ReadFault::TooLong),
    (SHOP, &BLANKS, MOST + 1, ReadFault::TooLong),
    // a text without an end is read by one byte more
    (Given::Table, &BLANKS, usize::MAX, ReadFault::TooLong),
    (TARDINESS, &BLANKS, usize::MAX, ReadFault::TooLong),
    (SHOP, &BLANKS, usize::MAX, ReadFault::TooLong),
    // behind a fault it is refused as too long
    (TARDINESS, b"4 x ", MOST, ReadFault::BadNumber(1)),
    (TARDINESS, b"4 x ", MOST + 1, ReadFault::TooLong),
];

#[test]
fn an_instance_has_at_most_67_108_864_bytes(rt: HostRuntime) -> Result<(), Fail> {
    for (given, text, bytes, fault) in REFUSED {
        let request = request(&rt, "1||Lmax", *given, Layout::Two)?;
        let is_so = is_not_solved(rt.alloc(), &request, text, *bytes, *fault);
        assert!(rt; is_so, "{bytes} bytes");
    }
    Ok(())
}

/// An answer of so many blanks is refused by a check.
fn is_not_checked(alloc: Global, request: &Request, bytes: usize, fault: AnswerFault) -> bool {
    let mut instance = Source::new(FOURS.instance);
    let mut source = Source::repeating(&BLANKS, bytes);
    let mut sink = Sink::new(alloc);
    let heap = ample(alloc);
    check_on(&heap, request, &mut instance, &mut source, &mut sink) == Ending::Answer(fault)
        && source.given() == asked_of(bytes)
        && sink.calls() == 0
}

/// An answer of so many blanks is not drawn.
fn is_not_drawn(alloc: Global, bytes: usize, fault: AnswerFault) -> bool {
    let mut source = Source::repeating(&BLANKS, bytes);
    let mut sink = Sink::new(alloc);
    draw_on(&ample(alloc), &mut source, &mut sink) == Ending::Answer(fault)
        && source.given() == asked_of(bytes)
        && sink.calls() == 0
}

const REFUSED_ANSWERS: &[(usize, AnswerFault)] = &[
    (MOST, AnswerFault::EndsEarly),
    (MOST + 1, AnswerFault::TooLong),
    (usize::MAX, AnswerFault::TooLong),
];

#[test]
fn an_answer_has_at_most_67_108_864_bytes(rt: HostRuntime) -> Result<(), Fail> {
    let request = request_for(&rt, &FOURS, Layout::Two)?;
    for (bytes, fault) in REFUSED_ANSWERS {
        assert!(rt; is_not_checked(rt.alloc(), &request, *bytes, *fault));
        assert!(rt; is_not_drawn(rt.alloc(), *bytes, *fault));
    }
    Ok(())
}
