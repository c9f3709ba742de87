//! Random jobs of each class, and files beside tables of the same jobs.
use crate::limits::drawn::{Drawn, Machines};
use std::alloc::{AllocError, Global};
use std::test::Fail;
use test_runs::examples::Given;
use test_runs::runs::{LAYOUTS, check_into, draw_into, ensure, request, solve_into};
use tf_engine::request::Request;
use tf_engine::run_check::Checked;
use tf_text::answer::layout::Layout;

/// Classes of one machine with as many jobs as there may be.
const SINGLE: [&str; 9] = [
    "1||sumwC",
    "1|prmp|sumwC",
    "1||sumC",
    "1|prmp|sumC",
    "1||Lmax",
    "1|prmp|Lmax",
    "1|prec|Lmax",
    "1|prec,prmp|Lmax",
    "1|rj,prmp|Lmax",
];

/// Classes with a cost function for each job.
const COSTED: [&str; 4] = ["1||hmax", "1|prmp|hmax", "1|prec|hmax", "1|prec,prmp|hmax"];

const PARALLEL: [&str; 2] = ["P||sumC", "P|prmp|Cmax"];

const SHOPS: [&str; 4] = ["F2||Cmax", "F2|prmp|Cmax", "O2||Cmax", "O2|prmp|Cmax"];

/// The answer of an instance is accepted and drawn.
fn answers(alloc: Global, request: &Request, instance: &[u8], answer: &mut Vec<u8>) -> bool {
    solve_into(alloc, request, instance, answer) == Ok(())
        && is_accepted(alloc, request, instance, answer)
        && is_drawn(alloc, answer)
}

fn is_accepted(alloc: Global, request: &Request, instance: &[u8], answer: &[u8]) -> bool {
    let mut line = Vec::new(alloc);
    let checked = check_into(alloc, request, instance, answer, &mut line);
    checked == Ok(Checked::Accepted) && line.as_slice() == b"accepted\n".as_slice()
}

fn is_drawn(alloc: Global, answer: &[u8]) -> bool {
    let mut chart = Vec::new(alloc);
    draw_into(alloc, answer, 72, &mut chart) == Ok(())
}

fn is_answered(
    rt: &HostRuntime,
    problem: &str,
    layout: Layout,
    table: &[u8],
) -> Result<bool, AllocError> {
    let request = request(rt, problem, Given::Table, layout)?;
    let mut answer = Vec::new(rt.alloc());
    Ok(answers(rt.alloc(), &request, table, &mut answer))
}

fn table_of(alloc: Global, machines: Machines, jobs: u32) -> Result<String, AllocError> {
    Drawn::new(alloc, machines, jobs)?.table(alloc)
}

/// So many jobs are answered under each of the problems in each version.
fn are_answered(
    rt: &HostRuntime,
    problems: &[&'static str],
    machines: Machines,
    jobs: u32,
) -> Result<(), Fail> {
    let table = table_of(rt.alloc(), machines, jobs)?;
    for problem in problems {
        for layout in LAYOUTS {
            ensure(is_answered(rt, problem, layout, table.as_bytes())?, problem)?;
        }
    }
    Ok(())
}

#[test]
fn up_to_a_hundred_jobs(rt: HostRuntime) -> Result<(), Fail> {
    for jobs in 1..101 {
        are_answered(&rt, &SINGLE, Machines::One, jobs)?;
        are_answered(&rt, &COSTED, Machines::One, jobs)?;
        are_answered(&rt, &PARALLEL, Machines::Seven, jobs)?;
        are_answered(&rt, &SHOPS, Machines::Shop, jobs)?;
    }
    Ok(())
}

#[test]
fn as_many_jobs_of_each_class_as_there_may_be(rt: HostRuntime) -> Result<(), Fail> {
    are_answered(&rt, &SINGLE, Machines::One, 100_000)?;
    are_answered(&rt, &COSTED, Machines::One, 2_000)?;
    are_answered(&rt, &PARALLEL, Machines::Seven, 100_000)?;
    are_answered(&rt, &SHOPS, Machines::Shop, 100_000)
}

/// The answer of an instance of this form, which is accepted and drawn.
fn answer_of(
    rt: &HostRuntime,
    problem: &'static str,
    given: Given,
    text: &str,
) -> Result<Vec<u8>, Fail> {
    let request = request(rt, problem, given, Layout::Two)?;
    let mut answer = Vec::new(rt.alloc());
    let is_answered = answers(rt.alloc(), &request, text.as_bytes(), &mut answer);
    ensure(is_answered, problem)?;
    Ok(answer)
}

/// The jobs of a table have the same answer as those of a file.
fn are_answered_alike(
    rt: &HostRuntime,
    problem: &'static str,
    table: &str,
    given: Given,
    file: &str,
) -> Result<bool, Fail> {
    let answer = answer_of(rt, problem, Given::Table, table)?;
    Ok(answer_of(rt, problem, given, file)? == answer)
}

/// So many jobs of one machine from a table and from a weighted tardiness file.
fn is_tardiness_alike(rt: &HostRuntime, jobs: u32) -> Result<bool, Fail> {
    let drawn = Drawn::new(rt.alloc(), Machines::One, jobs)?;
    let table = drawn.table(rt.alloc())?;
    let file = drawn.tardiness(rt.alloc())?;
    let given = Given::Tardiness { jobs, index: 1 };
    are_answered_alike(rt, "1||Lmax", &table, given, &file)
}

/// So many jobs of a flow shop from a table and from a flow shop file.
fn is_flow_shop_alike(rt: &HostRuntime, jobs: u32) -> Result<bool, Fail> {
    let drawn = Drawn::new(rt.alloc(), Machines::Shop, jobs)?;
    let table = drawn.table(rt.alloc())?;
    let file = drawn.flow_shop(rt.alloc())?;
    let given = Given::FlowShop {
        name: "drawn",
        pair: None,
    };
    are_answered_alike(rt, "F2||Cmax", &table, given, &file)
}

#[test]
fn files_have_the_answers_of_tables(rt: HostRuntime) -> Result<(), Fail> {
    for jobs in 1..101 {
        assert!(rt; is_tardiness_alike(&rt, jobs)? && is_flow_shop_alike(&rt, jobs)?);
    }
    assert!(rt; is_tardiness_alike(&rt, 100_000)?);
    assert!(rt; is_flow_shop_alike(&rt, 100_000)?);
    Ok(())
}
