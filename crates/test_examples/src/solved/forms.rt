//! The forms of an instance.
use super::{answers, asked};
use std::alloc::AllocError;
use std::test::Fail;
use test_runs::devices::{Sink, Source};
use test_runs::examples::Given;
use test_runs::examples::files::{SHOP, TARDINESS};
use test_runs::examples::parallel::FOURS;
use test_runs::runs::ensure;
use tf_engine::fault::RunFault;
use tf_engine::run_solve::run_solve;
use tf_read::fault::ReadFault;
use tf_text::counted::Counted;

/// Tables of three jobs of time 4.
const TABLES: [&[u8]; 2] = [
    b"table 1\r\njob 1 p=4\r\n\r\njob 2 p=4\r\njob 3 p=4\r\n",
    b"\ttable\t1\n machines 02\njob\t1  p=0004\t\njob 2 w=-0 p=4\njob 3 d=-05 p=04",
];

/// A weighted tardiness file of two instances of three jobs.
const RETURNS: &[u8] = b"\r\n2 3 1 1 2 4\t5 -02 9\r\n04 1 3 2\t\t-0 3 6 7 8";

/// What is written for the second of the instances, with times 4, 1 and 3, on two machines.
const SECOND: &[u8] = b"answer 1
problem P2|prmp|Cmax
jobs 3
machines 2
value 4
piece 1 1 0 4
piece 2 2 0 1
piece 3 2 1 4
cert load
end
";

/// A flow shop file of which the demo has one machine.
const ONE_MACHINE: &[u8] =
    b"instance other\r\n1 1\r\n0 9\r\ninstance\tdemo \r\n a line\r\n03 01\r\n0 4 -0\r\n04\t0 4";

/// What is written for its three jobs of time 4.
const ONE_AFTER_ANOTHER: &[u8] = b"answer 1
problem P|prmp|Cmax
jobs 3
machines 1
value 12
piece 1 1 0 4
piece 2 1 4 8
piece 3 1 8 12
cert load
end
";

#[test]
fn texts_may_have_returns_tabs_and_leading_zeros(rt: HostRuntime) -> Result<(), Fail> {
    for table in TABLES {
        reads(&rt, FOURS.problem, Given::Table, table, FOURS.answer)?;
    }
    let second = Given::Tardiness { jobs: 3, index: 2 };
    reads(&rt, "P2|prmp|Cmax", second, RETURNS, SECOND)?;
    let demo = Given::FlowShop {
        name: "demo",
        pair: None,
    };
    reads(&rt, "P|prmp|Cmax", demo, ONE_MACHINE, ONE_AFTER_ANOTHER)
}

/// The instance of this form is read, and answered so in version 1.
fn reads(
    rt: &HostRuntime,
    problem: &str,
    given: Given,
    text: &[u8],
    answer: &[u8],
) -> Result<(), Fail> {
    let request = asked(rt, problem, given)?;
    answers(rt, &request, text, answer)
}

/// The demo with the machines of the second job in another order.
const NO_SHOP: &[u8] = b" instance demo
 +++++++++++++
 three machines, own example
 2 3
 0 4 1 9 2 1
 0 2 2 5 1 9
";

/// The demo on its first and last machine, and with a machine that it doesn't have.
const DEMO_ENDS: Given = Given::FlowShop {
    name: "demo",
    pair: Some((0, 2)),
};

const DEMO_WITH_FOURTH: Given = Given::FlowShop {
    name: "demo",
    pair: Some((0, 3)),
};

/// Instances that a file doesn't have, and the fault of each.
const ABSENT: [(Given, &[u8], ReadFault); 7] = [
    (
        Given::Tardiness { jobs: 3, index: 0 },
        TARDINESS,
        ReadFault::NoInstance,
    ),
    (
        Given::Tardiness { jobs: 3, index: 3 },
        TARDINESS,
        ReadFault::NoInstance,
    ),
    (
        Given::Tardiness { jobs: 0, index: 1 },
        TARDINESS,
        ReadFault::NoJobs,
    ),
    (
        Given::Tardiness { jobs: 4, index: 2 },
        TARDINESS,
        ReadFault::Negative(3),
    ),
    (DEMO_WITH_FOURTH, SHOP, ReadFault::BadPair),
    (DEMO_ENDS, NO_SHOP, ReadFault::NotAFlowShop(6)),
    (
        Given::FlowShop {
            name: "other",
            pair: None,
        },
        SHOP,
        ReadFault::NoInstance,
    ),
];

/// What a run over a reader of one byte a call answers.
fn outcome_by_bytes(
    rt: &HostRuntime,
    given: Given,
    text: &[u8],
    sink: &mut Sink,
) -> Result<Result<(), RunFault>, AllocError> {
    let request = asked(rt, "1||Lmax", given)?;
    let mut reader = Counted::new(Source::new(text).by(1));
    let mut writer = Counted::new(sink);
    Ok(run_solve(rt.alloc(), &request, &mut reader, &mut writer))
}

/// The text is refused by this fault, and nothing is written.
fn refuses(rt: &HostRuntime, given: Given, text: &[u8], fault: ReadFault) -> Result<(), Fail> {
    let mut sink = Sink::new(rt.alloc());
    let outcome = outcome_by_bytes(rt, given, text, &mut sink)?;
    ensure(outcome == Err(RunFault::Text(fault)), "another outcome")?;
    ensure(sink.calls() == 0, "something was written")
}

#[test]
fn an_instance_that_a_file_does_not_have_is_refused(rt: HostRuntime) -> Result<(), Fail> {
    for (given, text, fault) in ABSENT {
        refuses(&rt, given, text, fault)?;
    }
    Ok(())
}
