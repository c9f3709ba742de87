//! Instance texts cut at each byte: what is left is answered, or has its one fault.
use super::asked;
use std::test::Fail;
use test_runs::examples::Example;
use test_runs::examples::files::{SECOND_OF_TWO, TWO_OF_THREE};
use test_runs::examples::parallel::FOURS;
use test_runs::runs::{ensure, solve_into};
use tf_engine::fault::RunFault;
use tf_engine::request::Request;
use tf_read::fault::ReadFault;

/// What is left of a text: an answer text, that of the whole text, or a fault.
#[derive(Clone, Copy)]
enum Left {
    Answer(&'static [u8]),
    Whole,
    Fault(ReadFault),
}

/// What is left where at most so many bytes are, and more than those of the row before.
type Row = (usize, Left);

/// So many bytes of the example's text have this answer or this fault.
fn is_left(
    rt: &HostRuntime,
    request: &Request,
    example: &Example,
    bytes: usize,
    left: Left,
) -> Result<(), Fail> {
    let (text, _) = example.instance.split_at(bytes.min(example.instance.len()));
    let mut out = Vec::new(rt.alloc());
    let result = solve_into(rt.alloc(), request, text, &mut out);
    let wanted = match left {
        Left::Answer(wanted) => wanted,
        Left::Whole => example.answer,
        Left::Fault(fault) => {
            ensure(result == Err(RunFault::Text(fault)), example.name)?;
            return ensure(out.is_empty(), example.name);
        }
    };
    ensure(result == Ok(()), example.name)?;
    ensure(out.as_slice() == wanted, example.name)
}

/// The example's text is cut at each byte.
fn is_cut(rt: &HostRuntime, example: &Example, rows: &[Row]) -> Result<(), Fail> {
    let request = asked(rt, example.problem, example.given)?;
    let mut next = 0;
    for (most, left) in rows {
        let behind = most.saturating_add(1);
        for bytes in next..behind {
            is_left(rt, &request, example, bytes, *left)?;
        }
        next = behind;
    }
    ensure(
        next == example.instance.len(),
        "some bytes were not cut off",
    )
}

const ONE_FOUR: &[u8] = b"answer 1
problem P2|prmp|Cmax
jobs 1
machines 2
value 4
piece 1 1 0 4
cert job 1
end
";

const TWO_FOURS: &[u8] = b"answer 1
problem P2|prmp|Cmax
jobs 2
machines 2
value 4
piece 1 1 0 4
piece 2 2 0 4
cert load
end
";

const TABLE: [Row; 12] = [
    (0, Left::Fault(ReadFault::EndsEarly)),
    (6, Left::Fault(ReadFault::BadLine(1))),
    (8, Left::Fault(ReadFault::NoJobs)),
    (15, Left::Fault(ReadFault::BadLine(2))),
    (16, Left::Fault(ReadFault::BadNumber(2))),
    (18, Left::Answer(ONE_FOUR)),
    (25, Left::Fault(ReadFault::BadLine(3))),
    (26, Left::Fault(ReadFault::BadNumber(3))),
    (28, Left::Answer(TWO_FOURS)),
    (35, Left::Fault(ReadFault::BadLine(4))),
    (36, Left::Fault(ReadFault::BadNumber(4))),
    (37, Left::Whole),
];

const TARDINESS: [Row; 5] = [
    (14, Left::Fault(ReadFault::NoInstance)),
    // the sign of a due date without its digits
    (15, Left::Fault(ReadFault::BadNumber(3))),
    (19, Left::Fault(ReadFault::NoInstance)),
    (35, Left::Fault(ReadFault::EndsEarly)),
    (36, Left::Whole),
];

const FLOW_SHOP: [Row; 3] = [
    (13, Left::Fault(ReadFault::NoInstance)),
    (88, Left::Fault(ReadFault::EndsEarly)),
    (89, Left::Whole),
];

#[test]
fn a_text_of_each_form_is_cut_anywhere(rt: HostRuntime) -> Result<(), Fail> {
    is_cut(&rt, &FOURS, &TABLE)?;
    is_cut(&rt, &SECOND_OF_TWO, &TARDINESS)?;
    is_cut(&rt, &TWO_OF_THREE, &FLOW_SHOP)
}
