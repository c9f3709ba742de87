//! Refusals that come before want of memory, and calls that ask for no growth.
use refusing::Refusing;
use std::alloc::Global;
use std::test::Fail;
use test_runs::devices::{Sink, Source};
use test_runs::examples::parallel::FOURS;
use test_runs::runs::{Ending, check_on, ensure, request_table, solve_on};
use tf_engine::request::Request;
use tf_model::ids::JobId;
use tf_model::instance::Instance;
use tf_model::prepare::{Field, Refusal, prepare};
use tf_model::problem::Problem;
use tf_notation::reading::read;
use tf_read::fault::ReadFault;
use tf_read::flow_shop::FlowReader;
use tf_read::job_table::read_table;
use tf_words::feed::Feed;

/// Problems that are refused, with the byte of the fault where it is one of the notation.
const REFUSED: &[(&str, Option<usize>)] = &[
    ("1||sumX", Some(3)),
    ("1||", Some(3)),
    ("1|rj,r_j|Lmax", Some(5)),
    ("P2|prmp|Cmax x", Some(13)),
    ("1||sumwT", None),
    ("F3||Cmax", None),
    ("J3||Cmax", None),
    ("1|nwt,rj|sumwjCj", None),
    ("1|prmp,rj|sumC", None),
    ("P2|prmp|sumC", None),
    ("1|rj|Lmax", None),
];

/// The run ends with a fault of the notation at this byte, or without a solver where none is given.
fn end_of(byte: Option<usize>) -> Ending {
    match byte {
        Some(byte) => Ending::Notation(byte),
        None => Ending::Task(Refusal::NoSolver),
    }
}

/// How many growths are granted: none, and more than any call asks for.
const GRANTED: &[u64] = &[0, 1_000_000_000];

type Heap = Refusing<Global>;

/// Solving refuses the problem, reads nothing and writes nothing.
fn solving_refuses(alloc: Global, heap: &Heap, request: &Request, byte: Option<usize>) -> bool {
    let mut instance = Source::new(FOURS.instance);
    let mut sink = Sink::new(alloc);
    solve_on(heap, request, &mut instance, &mut sink) == end_of(byte)
        && instance.calls() == 0
        && sink.calls() == 0
}

/// Checking refuses the problem, reads nothing and writes nothing.
fn checking_refuses(alloc: Global, heap: &Heap, request: &Request, byte: Option<usize>) -> bool {
    let mut instance = Source::new(FOURS.instance);
    let mut answer = Source::new(FOURS.answer);
    let mut sink = Sink::new(alloc);
    check_on(heap, request, &mut instance, &mut answer, &mut sink) == end_of(byte)
        && instance.calls() == 0
        && answer.calls() == 0
        && sink.calls() == 0
}

/// Both runs refuse the problem, read nothing, write nothing, and ask for no growth.
fn refuses(rt: &HostRuntime, problem: &str, byte: Option<usize>, granted: u64) -> Result<(), Fail> {
    let request = request_table(rt, problem)?;
    let heap = Refusing::new(rt.alloc(), granted);
    let both = solving_refuses(rt.alloc(), &heap, &request, byte)
        && checking_refuses(rt.alloc(), &heap, &request, byte)
        && !heap.has_refused();
    ensure(both, "another outcome")
}

#[test]
fn a_problem_is_refused_before_any_read_and_any_growth(rt: HostRuntime) -> Result<(), Fail> {
    for (problem, byte) in REFUSED {
        for granted in GRANTED {
            refuses(&rt, problem, *byte, *granted)?;
        }
    }
    Ok(())
}

#[test]
fn a_task_is_refused_before_want_of_memory(rt: HostRuntime) -> Result<(), Fail> {
    let first = JobId::at(0);
    let no_weight = Refusal::MissingField(first, Field::Weight);
    let refused: &[(&str, &[u8], Refusal)] = &[
        ("P||sumC", b"table 1\njob 1 p=3\n", Refusal::MachinesMissing),
        (
            "P2||sumC",
            b"table 1\nmachines 3\njob 1 p=3\n",
            Refusal::MachinesDisagree,
        ),
        (
            "F2||Cmax",
            b"table 1\njob 1 p=3\n",
            Refusal::WrongTimes(first),
        ),
        ("1||sumwC", b"table 1\njob 1 p=3\n", no_weight),
        ("1||sumC", b"table 1\njob 1 p=0\n", Refusal::ZeroTime(first)),
    ];
    for (problem, table, refusal) in refused {
        let problem = read(problem.as_bytes())?;
        let is_so = is_refused(rt.alloc(), &problem, table, *refusal)?;
        ensure(is_so, "another refusal, or want of memory")?;
    }
    Ok(())
}

/// The task of this table is refused so, however few growths are granted.
fn is_refused(
    alloc: Global,
    problem: &Problem,
    table: &[u8],
    refusal: Refusal,
) -> Result<bool, ReadFault> {
    let instance = read_table(alloc, table)?;
    Ok(
        is_refused_with(alloc, 0, &instance, problem, refusal)
            && is_refused_with(alloc, 1, &instance, problem, refusal)
            && is_refused_with(alloc, 2, &instance, problem, refusal),
    )
}

fn is_refused_with(
    alloc: Global,
    granted: u64,
    instance: &Instance,
    problem: &Problem,
    refusal: Refusal,
) -> bool {
    let heap = Refusing::new(alloc, granted);
    prepare(&heap, instance, problem, None).err() == Some(refusal)
}

/// A reader of a flow shop is made without memory.
fn is_made_without_memory(alloc: Global) -> bool {
    let heap = Refusing::new(alloc, 0);
    let mut reader = FlowReader::new(&heap, b"demo", None);
    reader.feed(b"no instance\n");
    reader.finish().err() == Some(ReadFault::NoInstance) && !heap.has_refused()
}

#[test]
fn a_flow_shop_reader_is_made_without_memory(rt: HostRuntime) {
    assert!(rt; is_made_without_memory(rt.alloc()));
}
