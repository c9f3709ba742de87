use crate::pieces::pieces;
use std::alloc::{AllocError, Allocator, Global};
use std::test::Fail;
use tf_check::answer::Answer;
use tf_check::certificate::Certificate;
use tf_check::load::Load;
use tf_model::problem::{Env, Goal, Problem};
use tf_schedule::piece_list::PieceList;
use tf_text::answer::fault::AnswerFault;
use tf_text::answer::layout::Layout;
use tf_text::answer::reading::read_answer;
use tf_text::answer::sheet::Sheet;
use tf_text::answer::writing::write_answer;
use tf_text::counted::Counted;

// Three jobs of time 4 on two parallel machines, with preemption, below the heading.
const TWO_PARALLEL: &[u8] = b"problem P2|prmp|Cmax
jobs 3
machines 2
value 6
piece 1 1 0 4
piece 2 1 4 6
piece 2 2 0 2
piece 3 2 2 6
cert load
end
";

fn heading(layout: Layout) -> &'static [u8] {
    match layout {
        Layout::One => b"answer 1\n",
        Layout::Two => b"answer 2\n",
    }
}

fn two_parallel_text(alloc: Global, layout: Layout) -> Result<Vec<u8>, AllocError> {
    let mut text = Vec::from_slice(alloc, heading(layout))?;
    text.extend_from_slice(TWO_PARALLEL)?;
    Ok(text)
}

fn two_parallel(alloc: Global) -> Result<Sheet, AllocError> {
    let rows = [(1, 1, 0, 4), (2, 1, 4, 6), (2, 2, 0, 2), (3, 2, 2, 6)];
    let pieces = PieceList::new(pieces(alloc, &rows)?);
    Ok(Sheet {
        problem: Problem {
            count: Some(2),
            prmp: true,
            ..Problem::plain(Env::Parallel, Goal::Cmax)
        },
        jobs: 3,
        machines: 2,
        answer: Answer {
            pieces,
            value: 6,
            certificate: Certificate::Load(Load),
        },
    })
}

fn writes(alloc: Global, sheet: &Sheet, layout: Layout, wanted: &[u8]) -> bool {
    let mut taken = Vec::new(alloc);
    let mut writer = Counted::new(&mut taken);
    let result = write_answer(alloc, &mut writer, sheet, layout);
    drop(writer);
    result == Ok(()) && taken.as_slice() == wanted
}

// The text is read, and then written as is wanted.
fn rewrites(alloc: Global, layout: Layout, text: &[u8], wanted: &[u8]) -> bool {
    match read_answer(alloc, text) {
        Ok(sheet) => writes(alloc, &sheet, layout, wanted),
        Err(_) => false,
    }
}

fn writes_two_parallel(alloc: Global, layout: Layout, wanted: &[u8]) -> Result<bool, AllocError> {
    let sheet = two_parallel(alloc)?;
    Ok(writes(alloc, &sheet, layout, wanted))
}

fn is_written_and_read(alloc: Global, layout: Layout) -> Result<bool, AllocError> {
    let text = two_parallel_text(alloc, layout)?;
    let is_written = writes_two_parallel(alloc, layout, &text)?;
    Ok(is_written && rewrites(alloc, layout, &text, &text))
}

#[test]
fn an_answer_is_written_and_read_and_written_again(rt: HostRuntime) -> Result<(), Fail> {
    assert!(rt; is_written_and_read(rt.alloc(), Layout::One)?);
    assert!(rt; is_written_and_read(rt.alloc(), Layout::Two)?);
    Ok(())
}

// A text that is cut behind its last word says the same, and any shorter one is at fault.
fn is_judged_cut(alloc: Global, layout: Layout, text: &[u8], cut: &[u8]) -> bool {
    let has_end = cut.ends_with(b"\nend");
    match read_answer(alloc, cut) {
        Ok(sheet) => has_end && writes(alloc, &sheet, layout, text),
        Err(AnswerFault::EndsEarly | AnswerFault::BadLine(_) | AnswerFault::BadNotation) => {
            !has_end
        }
        Err(_) => false,
    }
}

fn is_judged_in_each_cut(alloc: Global, layout: Layout) -> Result<bool, AllocError> {
    let text = two_parallel_text(alloc, layout)?;
    for cut in 0..text.len() {
        if !is_judged_cut(alloc, layout, &text, &text[..cut]) {
            return Ok(false);
        }
    }
    Ok(true)
}

#[test]
fn an_answer_is_read_only_with_its_end(rt: HostRuntime) -> Result<(), Fail> {
    assert!(rt; is_judged_in_each_cut(rt.alloc(), Layout::One)?);
    assert!(rt; is_judged_in_each_cut(rt.alloc(), Layout::Two)?);
    Ok(())
}

// A text of version 2 with this certificate.
fn with_certificate(alloc: Global, line: &str) -> Result<Vec<u8>, AllocError> {
    let front = b"answer 2\nproblem F2||Cmax\njobs 5\nmachines 2\nvalue 6\n";
    let mut text = Vec::from_slice(alloc, front)?;
    text.extend_from_slice(line.as_bytes())?;
    text.extend_from_slice(b"\nend\n")?;
    Ok(text)
}

fn is_written(alloc: Global, line: &str, wanted: &str) -> Result<bool, AllocError> {
    let text = with_certificate(alloc, line)?;
    let wanted = with_certificate(alloc, wanted)?;
    Ok(rewrites(alloc, Layout::Two, &text, &wanted))
}

// Lines of certificates, and how each is written.
const CERTIFICATES: &[(&str, &str)] = &[
    ("cert last 3 4 5 1", "cert last 3-5 1"),
    ("cert last 3-5 1", "cert last 3-5 1"),
    ("cert window 5 4 3", "cert window 5 4 3"),
    ("cert window 1 2", "cert window 1 2"),
    ("cert last 1-2", "cert last 1 2"),
    ("cert last 01-0002", "cert last 1 2"),
    ("cert last 1-100000", "cert last 1-100000"),
    ("cert split second 0 1-3", "cert split second 0 1-3"),
    ("cert ranks 1 2 3", "cert ranks 1 2 3"),
];

#[test]
fn three_jobs_that_count_up_are_written_as_a_range(rt: HostRuntime) -> Result<(), Fail> {
    for (line, wanted) in CERTIFICATES {
        assert!(rt; is_written(rt.alloc(), line, wanted)?, "{line}");
    }
    Ok(())
}
