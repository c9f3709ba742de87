//! As many jobs and arcs as are allowed, and one more.
ghost use Rattle.std.specs.Prelude.{◌≤◌};

use crate::limits::drawn::{push_pair, push_part};
use std::alloc::{AllocError, Global};
use std::test::Fail;
use test_runs::examples::Given;
use test_runs::runs::{Ending, ending_of, request, solve_into};
use tf_engine::request::Request;
use tf_model::prepare::Refusal;
use tf_read::fault::ReadFault;
use tf_text::answer::layout::Layout;

/// A table of so many jobs of time 1 which are due at once.
fn table_of(alloc: Global, jobs: u32) -> Result<String, AllocError> {
    let mut text = String::from_str(alloc, "table 1\n")?;
    for before in 0..jobs {
        push_part(&mut text, "job ", before + 1)?;
        text.push_str(" p=1 d=0 h=0\n")?;
    }
    Ok(text)
}

/// A piece of a job on machine 1.
fn push_piece(text: &mut String, job: u32, start: u32, stop: u32) -> Result<(), AllocError> {
    push_part(text, "piece ", job)?;
    push_pair(text, " 1 ", start, stop)?;
    text.push_str("\n")
}

/// The pieces of so many jobs of time 1 on one machine, in their order, between these lines.
fn in_order(alloc: Global, head: &str, jobs: u32, tail: &str) -> Result<String, AllocError> {
    let mut text = String::from_str(alloc, head)?;
    for before in 0..jobs {
        push_piece(&mut text, before + 1, before, before + 1)?;
    }
    text.push_str(tail)?;
    Ok(text)
}

fn solves(alloc: Global, request: &Request, instance: &str, out: &mut Vec<u8>) -> Ending {
    match solve_into(alloc, request, instance.as_bytes(), out) {
        Ok(()) => Ending::Answered,
        Err(fault) => ending_of(&fault),
    }
}

/// The run ends so, and exactly this is written.
fn ends(alloc: Global, request: &Request, instance: &str, end: Ending, wanted: &str) -> bool {
    let mut out = Vec::new(alloc);
    solves(alloc, request, instance, &mut out) == end && out.as_slice() == wanted.as_bytes()
}

/// The table has exactly this answer.
fn answers(
    rt: &HostRuntime,
    problem: &str,
    layout: Layout,
    table: &str,
    wanted: &str,
) -> Result<bool, AllocError> {
    let request = request(rt, problem, Given::Table, layout)?;
    Ok(ends(rt.alloc(), &request, table, Ending::Answered, wanted))
}

/// The table is refused, and nothing is written.
fn refuses(rt: &HostRuntime, problem: &str, table: &str, end: Ending) -> Result<bool, AllocError> {
    let request = request(rt, problem, Given::Table, Layout::Two)?;
    Ok(ends(rt.alloc(), &request, table, end, ""))
}

/// Problems with so many jobs of time 1, and the lines before and behind their pieces, which are in
/// the order of the jobs.
const ANSWERED: &[(&str, u32, &str, &str)] = &[
    (
        "1||hmax",
        2_000,
        "answer 2\nproblem 1||hmax\njobs 2000\nmachines 1\nvalue 0\n",
        "cert last 1-2000\nend\n",
    ),
    (
        "1||sumC",
        2_001,
        "answer 2\nproblem 1||sumC\njobs 2001\nmachines 1\nvalue 2003001\n",
        "cert pairs\nend\n",
    ),
    (
        "1||sumC",
        100_000,
        "answer 2\nproblem 1||sumC\njobs 100000\nmachines 1\nvalue 5000050000\n",
        "cert pairs\nend\n",
    ),
    (
        "1||Lmax",
        100_000,
        "answer 2\nproblem 1||Lmax\njobs 100000\nmachines 1\nvalue 100000\n",
        "cert last 1-100000\nend\n",
    ),
];

#[test]
fn at_most_2_000_jobs_have_costs_and_100_000_are_in_a_table(rt: HostRuntime) -> Result<(), Fail> {
    for (problem, jobs, head, tail) in ANSWERED {
        assert!(rt; has_answer(&rt, problem, *jobs, head, tail)?);
    }
    let too_many = Ending::Task(Refusal::TooManyJobs);
    assert!(rt; has_too_many(&rt, "1||hmax", 2_001, too_many)?);
    let too_many = Ending::Text(ReadFault::TooManyJobs);
    assert!(rt; has_too_many(&rt, "1||sumC", 100_001, too_many)?);
    Ok(())
}

/// A table of so many jobs of time 1 is answered with them in their order.
fn has_answer(
    rt: &HostRuntime,
    problem: &str,
    jobs: u32,
    head: &str,
    tail: &str,
) -> Result<bool, AllocError> {
    let wanted = in_order(rt.alloc(), head, jobs, tail)?;
    let table = table_of(rt.alloc(), jobs)?;
    answers(rt, problem, Layout::Two, &table, &wanted)
}

/// A table of so many jobs is refused.
fn has_too_many(
    rt: &HostRuntime,
    problem: &str,
    jobs: u32,
    end: Ending,
) -> Result<bool, AllocError> {
    let table = table_of(rt.alloc(), jobs)?;
    refuses(rt, problem, &table, end)
}

/// The lines behind the pieces, where the certificate names each of so many jobs.
fn last_of_all(alloc: Global, jobs: u32) -> Result<String, AllocError> {
    let mut lines = String::from_str(alloc, "cert last")?;
    for before in 0..jobs {
        push_part(&mut lines, " ", before + 1)?;
    }
    lines.push_str("\nend\n")?;
    Ok(lines)
}

/// The answer in which 100,000 jobs are the latest, each of them named.
fn all_latest(alloc: Global) -> Result<String, AllocError> {
    let head = "answer 1\nproblem 1||Lmax\njobs 100000\nmachines 1\nvalue 100000\n";
    in_order(alloc, head, 100_000, &last_of_all(alloc, 100_000)?)
}

#[test]
fn each_of_100_000_latest_jobs_is_named_in_version_1(rt: HostRuntime) -> Result<(), Fail> {
    let table = table_of(rt.alloc(), 100_000)?;
    let wanted = all_latest(rt.alloc())?;
    assert!(rt; answers(&rt, "1||Lmax", Layout::One, &table, &wanted)?);
    Ok(())
}

/// Each job precedes the next one and the one behind it, and job 1 precedes job 2 three times more:
/// 200,000 arcs.
fn with_arcs(alloc: Global, jobs: u32) -> Result<String, AllocError> {
    let mut text = table_of(alloc, jobs)?;
    for before in 1..jobs {
        push_pair(&mut text, "\nprec ", before, before + 1)?;
    }
    for behind in 2..jobs {
        push_pair(&mut text, "\nprec ", behind - 1, behind + 1)?;
    }
    text.push_str("\nprec 1 2\nprec 1 2\nprec 1 2\n")?;
    Ok(text)
}

/// The table is answered with its 100,000 jobs in their order.
fn has_ordered_answer(rt: &HostRuntime, table: &str) -> Result<bool, AllocError> {
    let head = "answer 2\nproblem 1|prec|Lmax\njobs 100000\nmachines 1\nvalue 100000\n";
    let wanted = in_order(rt.alloc(), head, 100_000, "cert last 1-100000\nend\n")?;
    answers(rt, "1|prec|Lmax", Layout::Two, table, &wanted)
}

#[test]
fn at_most_200_000_arcs_are_in_a_table(rt: HostRuntime) -> Result<(), Fail> {
    let mut table = with_arcs(rt.alloc(), 100_000)?;
    assert!(rt; has_ordered_answer(&rt, &table)?);
    table.push_str("prec 1 2\n")?;
    let too_many = Ending::Text(ReadFault::TooManyArcs);
    assert!(rt; refuses(&rt, "1|prec|Lmax", &table, too_many)?);
    Ok(())
}

/// A table of so many jobs of time 1, each released when the one before is over, and due then.
fn released_in_turn(alloc: Global, jobs: u32) -> Result<String, AllocError> {
    let mut text = String::from_str(alloc, "table 1")?;
    for release in 0..jobs {
        push_part(&mut text, "\njob ", release + 1)?;
        push_part(&mut text, " p=1 r=", release)?;
        push_part(&mut text, " d=", release + 1)?;
    }
    Ok(text)
}

#[test]
fn jobs_are_released_in_turn(rt: HostRuntime) -> Result<(), Fail> {
    let head = "answer 2\nproblem 1|rj,prmp|Lmax\njobs 100000\nmachines 1\nvalue 0\n";
    let wanted = in_order(rt.alloc(), head, 100_000, "cert window 1\nend\n")?;
    let table = released_in_turn(rt.alloc(), 100_000)?;
    assert!(rt; answers(&rt, "1|rj,prmp|Lmax", Layout::Two, &table, &wanted)?);
    Ok(())
}

/// 125 instances of 100 jobs, in which all times of the k-th are k, all weights 1 and all due dates
/// 0.
fn many_instances(alloc: Global) -> Result<String, AllocError> {
    let mut text = String::new(alloc);
    for time in 1..126u32 {
        push_hundred(&mut text, time)?;
        push_hundred(&mut text, 1)?;
        push_hundred(&mut text, 0)?;
    }
    Ok(text)
}

fn push_hundred(text: &mut String, number: u32) -> Result<(), AllocError> {
    for _ in 0..100u64 {
        push_part(text, " ", number)?;
    }
    Ok(())
}

/// The answer to 100 jobs of time 125 that are due at once.
fn hundred_late_jobs(alloc: Global) -> Result<String, AllocError> {
    let head = "answer 2\nproblem 1||Lmax\njobs 100\nmachines 1\nvalue 12500\n";
    let mut text = String::from_str(alloc, head)?;
    for before in 0..100u32 {
        push_piece(&mut text, before + 1, 125 * before, 125 * before + 125)?;
    }
    text.push_str("cert last 1-100\nend\n")?;
    Ok(text)
}

#[test]
fn the_last_of_125_instances_is_found(rt: HostRuntime) -> Result<(), Fail> {
    let text = many_instances(rt.alloc())?;
    let wanted = hundred_late_jobs(rt.alloc())?;
    assert!(rt; ends_at(&rt, 125, &text, Ending::Answered, &wanted)?);
    assert!(rt; ends_at(&rt, 126, &text, Ending::Text(ReadFault::NoInstance), "")?);
    Ok(())
}

/// A run that is asked for the instance of this number of 100 jobs ends so, and exactly this is
/// written.
fn ends_at(
    rt: &HostRuntime,
    index: u32,
    text: &str,
    end: Ending,
    wanted: &str,
) -> Result<bool, AllocError> {
    let given = Given::Tardiness { jobs: 100, index };
    let request = request(rt, "1||Lmax", given, Layout::Two)?;
    Ok(ends(rt.alloc(), &request, text, end, wanted))
}
