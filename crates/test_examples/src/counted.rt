//! Readers and writers that remember a failure.
use std::alloc::{Allocator, Global};
use test_runs::devices::{Failure, Sink, Source, Way};
use tf_text::counted::{Counted, Device};
use tf_text::input::{InputFault, read_all};

const TEXT: &[u8] = b"answer 1\nproblem P2|prmp|Cmax\n";

/// The writer fails, and works never again.
fn writes_fail(sink: &mut Sink) -> bool {
    let mut writer = Counted::new(sink);
    writer.push_all(TEXT) == Err(Device)
        && writer.failed()
        && writer.push_all(TEXT) == Err(Device)
        && writer.push_all(b"") == Err(Device)
}

/// A writer of three bytes a call whose call fails: nothing is called after it.
fn writer_fails(alloc: Global, failure: Failure) -> bool {
    let mut sink = Sink::new(alloc).by(3).failing(failure);
    let fails = writes_fail(&mut sink);
    let taken = sink.taken();
    fails
        && sink.calls() == failure.call
        && TEXT.starts_with(taken)
        && taken.len() as u64 / 3 + 1 == failure.call
}

/// The reader fails, and gives no byte afterwards.
fn reads_fail(alloc: Global, source: &mut Source<'_>) -> bool {
    let mut reader = Counted::new(source);
    let mut byte = [7; 1];
    matches!(read_all(alloc, &mut reader), Err(InputFault::Device))
        && reader.failed()
        && reader.pull(&mut byte) == Err(Device)
        && byte[0] == 7
}

/// A reader of one byte a call whose call fails: nothing is called after it.
fn reader_fails(alloc: Global, failure: Failure) -> bool {
    let mut source = Source::new(TEXT).by(1).failing(failure);
    reads_fail(alloc, &mut source) && source.calls() == failure.call
}

#[test]
fn a_device_is_not_called_after_it_failed(rt: HostRuntime) {
    for call in 1..11 {
        for way in &[Way::Error, Way::Interruption, Way::NoByte] {
            let (way, heals) = (*way, true);
            assert!(rt; writer_fails(rt.alloc(), Failure { call, way, heals }));
            let heals = false;
            assert!(rt; writer_fails(rt.alloc(), Failure { call, way, heals }));
        }
    }
    // the last call shows the end
    for call in 1..TEXT.len() as u64 + 2 {
        for way in &[Way::Error, Way::Interruption] {
            let (way, heals) = (*way, true);
            assert!(rt; reader_fails(rt.alloc(), Failure { call, way, heals }));
            let heals = false;
            assert!(rt; reader_fails(rt.alloc(), Failure { call, way, heals }));
        }
    }
}

fn is_read(alloc: Global, source: &mut Source<'_>) -> bool {
    let mut reader = Counted::new(source);
    match read_all(alloc, &mut reader) {
        Ok(text) => text.as_slice() == TEXT && !reader.failed(),
        Err(_) => false,
    }
}

fn is_read_by(alloc: Global, step: usize) -> bool {
    let mut source = Source::new(TEXT).by(step);
    is_read(alloc, &mut source) && source.given() == TEXT.len() as u64
}

#[test]
fn a_text_is_read_in_any_pieces(rt: HostRuntime) {
    for step in 1..40 {
        assert!(rt; is_read_by(rt.alloc(), step), "{step} bytes a call");
    }
}
