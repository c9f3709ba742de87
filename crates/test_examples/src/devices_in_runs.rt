//! The three runs on devices that give and take one byte a call, or fail.
use refusing::Refusing;
use std::alloc::{AllocError, Global};
use std::test::Fail;
use test_runs::devices::{Failure, Sink, Source, Way};
use test_runs::examples::files::{SECOND_OF_TWO, SHOP, TARDINESS, TWO_OF_THREE};
use test_runs::examples::parallel::FOURS;
use test_runs::examples::{Example, Given, answer_in, worked};
use test_runs::growths::ample;
use test_runs::runs::{Ending, LAYOUTS, check_on, draw_on, ensure, request, request_for, solve_on};
use tf_engine::request::Request;
use tf_read::fault::ReadFault;
use tf_text::answer::layout::Layout;

#[derive(Clone, Copy)]
enum Run {
    Solve,
    Check,
    Draw,
}

/// The reader that fails.
#[derive(Clone, Copy, PartialEq, Eq)]
enum Failing {
    Instance,
    Answer,
}

/// A run on a heap, and the texts that it may read.
#[derive(Clone, Copy)]
struct Asked<'a> {
    heap: &'a Refusing<Global>,
    run: Run,
    request: &'a Request,
    instance: &'a [u8],
    answer: &'a [u8],
}

impl Asked<'_> {
    fn ends(&self, source: &mut Source<'_>, other: &mut Source<'_>, sink: &mut Sink) -> Ending {
        match self.run {
            Run::Solve => solve_on(self.heap, self.request, source, sink),
            Run::Check => check_on(self.heap, self.request, source, other, sink),
            Run::Draw => draw_on(self.heap, other, sink),
        }
    }

    /// It writes this where each device gives or takes one byte a call.
    fn writes_by_bytes(&self, alloc: Global, wanted: &[u8]) -> bool {
        let mut source = Source::new(self.instance).by(1);
        let mut other = Source::new(self.answer).by(1);
        let mut sink = Sink::new(alloc).by(1);
        let ending = self.ends(&mut source, &mut other, &mut sink);
        ending == Ending::Answered && sink.taken() == wanted
    }

    /// Where a call of the reader of the instance fails, the run is refused, the reader was called
    /// up to its failure, the other one was not called, and nothing was written.
    fn is_cut_off_at_once(&self, alloc: Global, failure: Failure) -> bool {
        let mut source = Source::new(self.instance).by(5).failing(failure);
        let mut other = Source::new(self.answer);
        let mut sink = Sink::new(alloc);
        self.ends(&mut source, &mut other, &mut sink) == Ending::Device
            && source.calls() == failure.call
            && other.calls() == 0
            && sink.calls() == 0
    }

    /// Where a call of the reader of the answer fails, the run is refused, the reader was called up
    /// to its failure, and nothing was written.
    fn is_cut_off(&self, alloc: Global, failure: Failure) -> bool {
        let mut source = Source::new(self.instance);
        let mut other = Source::new(self.answer).by(5).failing(failure);
        let mut sink = Sink::new(alloc);
        self.ends(&mut source, &mut other, &mut sink) == Ending::Device
            && other.calls() == failure.call
            && sink.calls() == 0
    }

    /// The run is refused where any call of this reader fails.
    fn is_cut_off_by_each(&self, alloc: Global, failing: Failing) -> bool {
        let at_once = failing == Failing::Instance;
        let text = if at_once { self.instance } else { self.answer };
        for number in 0..reader_failures(text) {
            let failure = reader_failure(number);
            let is_so = if at_once {
                self.is_cut_off_at_once(alloc, failure)
            } else {
                self.is_cut_off(alloc, failure)
            };
            if !is_so {
                return false;
            }
        }
        true
    }

    /// Where a call of the writer fails, the run is refused, the writer was called up to its
    /// failure, and took a byte in each call before.
    fn is_cut_short(&self, alloc: Global, wanted: &[u8], failure: Failure) -> bool {
        let mut source = Source::new(self.instance);
        let mut other = Source::new(self.answer);
        let mut sink = Sink::new(alloc).by(1).failing(failure);
        let ending = self.ends(&mut source, &mut other, &mut sink);
        let taken = sink.taken();
        ending == Ending::Device
            && sink.calls() == failure.call
            && wanted.starts_with(taken)
            && taken.len() as u64 + 1 == failure.call
    }

    /// The run that writes this is refused where any call of its writer fails.
    fn is_cut_short_by_each(&self, alloc: Global, wanted: &[u8]) -> bool {
        for number in 0..writer_failures(wanted) {
            if !self.is_cut_short(alloc, wanted, writer_failure(number)) {
                return false;
            }
        }
        true
    }
}

/// The runs of an example: solving it, checking this answer and drawing it.
fn runs<'a>(
    heap: &'a Refusing<Global>,
    request: &'a Request,
    example: &'a Example,
    answer: &'a [u8],
) -> [Asked<'a>; 3] {
    let solving = Asked {
        heap,
        run: Run::Solve,
        request,
        instance: example.instance,
        answer,
    };
    let checking = Asked {
        run: Run::Check,
        ..solving
    };
    let drawing = Asked {
        run: Run::Draw,
        ..solving
    };
    [solving, checking, drawing]
}

/// An example through the three runs, each device by one byte a call.
fn is_answered_by_bytes(
    rt: &HostRuntime,
    example: &Example,
    layout: Layout,
) -> Result<bool, AllocError> {
    let request = request_for(rt, example, layout)?;
    let answer = answer_in(rt, example, layout)?;
    let heap = ample(rt.alloc());
    let [solving, checking, drawing] = runs(&heap, &request, example, &answer);
    Ok(
        solving.writes_by_bytes(rt.alloc(), &answer)
            && checking.writes_by_bytes(rt.alloc(), b"accepted\n")
            && drawing.writes_by_bytes(rt.alloc(), example.chart),
    )
}

#[test]
fn each_example_is_answered_by_one_byte_a_call(rt: HostRuntime) -> Result<(), Fail> {
    for example in worked() {
        for layout in LAYOUTS {
            ensure(is_answered_by_bytes(&rt, example, layout)?, example.name)?;
        }
    }
    Ok(())
}

/// The calls of a reader of a text by 5 bytes a call. The last one shows the end.
fn calls_by_five(text: &[u8]) -> u64 {
    text.len().div_ceil(5) as u64 + 1
}

/// The ways in which one call of a reader fails, call after call: 4 for each call.
fn reader_failure(number: u64) -> Failure {
    Failure {
        call: number / 4 + 1,
        way: if number % 2 == 0 {
            Way::Error
        } else {
            Way::Interruption
        },
        heals: number % 4 < 2,
    }
}

/// How many failures `reader_failure` numbers for a text by 5 bytes a call.
fn reader_failures(text: &[u8]) -> u64 {
    calls_by_five(text).saturating_mul(4)
}

/// An example is solved, and each call of its reader fails in turn.
fn is_solving_cut_off(rt: &HostRuntime, example: &Example) -> Result<bool, AllocError> {
    let request = request_for(rt, example, Layout::Two)?;
    let heap = ample(rt.alloc());
    let [solving, ..] = runs(&heap, &request, example, example.answer);
    Ok(solving.is_cut_off_by_each(rt.alloc(), Failing::Instance))
}

/// An answer is checked and drawn, and each call of a reader fails in turn.
fn is_reading_cut_off(rt: &HostRuntime, layout: Layout) -> Result<bool, AllocError> {
    let request = request_for(rt, &FOURS, Layout::One)?;
    let answer = answer_in(rt, &FOURS, layout)?;
    let heap = ample(rt.alloc());
    let [_, checking, drawing] = runs(&heap, &request, &FOURS, &answer);
    Ok(
        checking.is_cut_off_by_each(rt.alloc(), Failing::Instance)
            && checking.is_cut_off_by_each(rt.alloc(), Failing::Answer)
            && drawing.is_cut_off_by_each(rt.alloc(), Failing::Answer),
    )
}

#[test]
fn a_run_is_refused_where_any_read_fails(rt: HostRuntime) -> Result<(), Fail> {
    // an instance of each form
    for example in &[&FOURS, &SECOND_OF_TWO, &TWO_OF_THREE] {
        ensure(is_solving_cut_off(&rt, example)?, example.name)?;
    }
    for layout in LAYOUTS {
        ensure(is_reading_cut_off(&rt, layout)?, "another outcome or call")?;
    }
    Ok(())
}

/// The ways in which one call of a writer fails, call after call: 6 for each call.
fn writer_failure(number: u64) -> Failure {
    Failure {
        call: number / 6 + 1,
        way: if number % 3 == 0 {
            Way::Error
        } else if number % 3 == 1 {
            Way::Interruption
        } else {
            Way::NoByte
        },
        heals: number % 6 < 3,
    }
}

/// How many failures `writer_failure` numbers for a text that is written byte by byte.
fn writer_failures(text: &[u8]) -> u64 {
    (text.len() as u64).saturating_mul(6)
}

/// The answer is solved, and each call of the writer fails in turn.
fn is_solving_cut_short(rt: &HostRuntime, layout: Layout) -> Result<bool, AllocError> {
    let request = request_for(rt, &FOURS, layout)?;
    let answer = answer_in(rt, &FOURS, layout)?;
    let heap = ample(rt.alloc());
    let [solving, ..] = runs(&heap, &request, &FOURS, &answer);
    Ok(solving.is_cut_short_by_each(rt.alloc(), &answer))
}

/// The answer is checked and drawn, and each call of the writer fails in turn.
fn is_judging_cut_short(rt: &HostRuntime, layout: Layout) -> Result<bool, AllocError> {
    let request = request_for(rt, &FOURS, Layout::One)?;
    let answer = answer_in(rt, &FOURS, layout)?;
    let heap = ample(rt.alloc());
    let [_, checking, drawing] = runs(&heap, &request, &FOURS, &answer);
    Ok(
        checking.is_cut_short_by_each(rt.alloc(), b"accepted\n")
            && drawing.is_cut_short_by_each(rt.alloc(), FOURS.chart),
    )
}

#[test]
fn a_run_writes_a_prefix_where_any_write_fails(rt: HostRuntime) -> Result<(), Fail> {
    for layout in LAYOUTS {
        ensure(is_solving_cut_short(&rt, layout)?, "another prefix or call")?;
        ensure(is_judging_cut_short(&rt, layout)?, "another prefix or call")?;
    }
    Ok(())
}

/// A call that fails as the text behind a fault is read.
const BEHIND: Failure = Failure {
    call: 4,
    way: Way::Error,
    heals: true,
};

/// Solving on this heap ends so, after so many calls of the reader, and writes nothing.
fn ends_after(
    heap: &Refusing<Global>,
    alloc: Global,
    request: &Request,
    mut source: Source<'_>,
    end: (Ending, u64),
) -> bool {
    let mut sink = Sink::new(alloc);
    let ending = solve_on(heap, request, &mut source, &mut sink);
    (ending, source.calls()) == end && sink.calls() == 0
}

#[test]
fn a_failing_reader_comes_before_a_fault_of_the_text(rt: HostRuntime) -> Result<(), Fail> {
    let first = Given::Tardiness { jobs: 3, index: 1 };
    let request = request(&rt, "1||Lmax", first, Layout::Two)?;
    let is_read = ends_in_bad_number(rt.alloc(), &request);
    let is_cut_off = ends_in_device(rt.alloc(), &request);
    ensure(is_read && is_cut_off, "another outcome")
}

/// The text `x 3 1`, byte by byte: its seven calls are made, and the first number is at fault.
fn ends_in_bad_number(alloc: Global, request: &Request) -> bool {
    let source = Source::new(b"x 3 1\n").by(1);
    let end = (Ending::Text(ReadFault::BadNumber(1)), 7);
    ends_after(&ample(alloc), alloc, request, source, end)
}

/// The same where a call fails behind the fault.
fn ends_in_device(alloc: Global, request: &Request) -> bool {
    let source = Source::new(b"x 3 1\n").by(1).failing(BEHIND);
    let end = (Ending::Device, BEHIND.call);
    ends_after(&ample(alloc), alloc, request, source, end)
}

/// Solving without memory ends so, after so many calls of the reader, and writes nothing. A growth
/// was refused.
fn ends_without_memory(
    alloc: Global,
    request: &Request,
    source: Source<'_>,
    end: (Ending, u64),
) -> bool {
    let heap = Refusing::new(alloc, 0);
    ends_after(&heap, alloc, request, source, end) && heap.has_refused()
}

/// The sizes of the shop stand in its third part of 30 bytes.
#[test]
fn a_failing_reader_comes_before_a_refused_growth(rt: HostRuntime) -> Result<(), Fail> {
    let request = request_for(&rt, &TWO_OF_THREE, Layout::Two)?;
    let source = Source::new(SHOP).by(30).failing(BEHIND);
    let end = (Ending::Device, BEHIND.call);
    let is_so = ends_without_memory(rt.alloc(), &request, source, end);
    ensure(is_so, "another outcome or call")
}

#[test]
fn no_room_for_the_numbers_is_told_before_the_text(rt: HostRuntime) -> Result<(), Fail> {
    let request = request_for(&rt, &SECOND_OF_TWO, Layout::Two)?;
    let end = (Ending::OutOfMemory, 0);
    let is_so = ends_without_memory(rt.alloc(), &request, Source::new(TARDINESS), end);
    ensure(is_so, "another outcome or call")
}
