//! What is said of faults that no session comes to.
use std::alloc::Global;
use std::test::Fail;
use tf_advice::advice::{ADVICE, Cause};
use tf_advice::source::Source;
use tf_command::report::report;
use tf_engine::fault::RunFault;
use tf_engine::request::{Form, Request};
use tf_engine::text::Text;
use tf_explain::explain;
use tf_read::fault::ReadFault;
use tf_text::answer::fault::AnswerFault;
use tf_text::answer::layout::Layout;
use tf_text::counted::Counted;

/// The fault has this status and this line.
fn says(alloc: Global, fault: &RunFault, status: u8, wanted: &[u8]) -> bool {
    let mut line = Vec::new(alloc);
    let mut writer = Counted::new(&mut line);
    let answered = report(fault, &mut writer);
    drop(writer);
    answered == status && line.as_slice() == wanted
}

/// A fault of an instance or of an answer is refused by this line.
fn is_refused(alloc: Global, fault: &RunFault, wanted: &[u8]) -> bool {
    says(alloc, fault, 2, wanted)
}

#[test]
fn a_fault_without_a_session_has_its_line(rt: HostRuntime) {
    let alloc = rt.alloc();
    let long = RunFault::Text(ReadFault::TooLong);
    assert!(rt; is_refused(alloc, &long, b"threefield: refused: TooLong\n"));
    let arcs = RunFault::Text(ReadFault::TooManyArcs);
    assert!(rt; is_refused(alloc, &arcs, b"threefield: refused: TooManyArcs\n"));
    let answer = RunFault::Answer(AnswerFault::TooLong);
    assert!(rt; is_refused(alloc, &answer, b"threefield: refused: answer TooLong\n"));
    assert!(rt;
        says(
            alloc,
            &RunFault::OutOfMemory,
            3,
            b"threefield: want of memory\n"
        )
    );
    assert!(rt; says(alloc, &RunFault::Device, 4, b"threefield: device fault\n"));
}

#[test]
fn an_output_that_fails_is_named_with_its_reason(rt: HostRuntime) -> Result<(), Fail> {
    let request = Request {
        problem: Text::new(String::from_str(rt.alloc(), "1||sumC")?),
        form: Form::Table,
        machines: None,
        layout: Layout::Two,
    };
    let jobs = Source {
        name: "jobs.txt",
        text: b"table 1\njob 1 p=3\n",
    };
    let told = explain::refused(rt.alloc(), &RunFault::Device, &request, &jobs, None)?;
    let output = "Standard output failed: the disk is full, or the reader closed the pipe.\n";
    assert!(rt; told.as_str() == output);
    Ok(())
}

/// Each cause has its advice at its own place, up to the last cause.
fn is_advice_in_order() -> bool {
    for (place, advice) in ADVICE.iter().enumerate() {
        if advice.cause as usize != place {
            return false;
        }
    }
    ADVICE.len() == Cause::ArcStranger as usize + 1
}

#[test]
fn each_cause_has_advice(rt: HostRuntime) {
    assert!(rt; is_advice_in_order());
}
