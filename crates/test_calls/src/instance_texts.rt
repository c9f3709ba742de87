//! Instance texts that no session holds: with bytes that are no text or no line, of 10,000 digits,
//! of as many lines as there may be, and asked for by what no command line says.
use std::alloc::{AllocError, Global};
use std::test::Fail;
use tf_model::instance::Instance;
use tf_model::job::Times;
use tf_read::fault::ReadFault;
use tf_read::flow_shop::read_flowshop;
use tf_read::job_table::read_table;
use tf_read::weighted_tardiness::read_wt;

/// The text of an instance has this fault.
fn is_refused(read: Result<Instance, ReadFault>, fault: ReadFault) -> bool {
    read.err() == Some(fault)
}

/// Tables with bytes that are no text, and fronts of tables with so many digits behind them.
const TABLES: &[(&[u8], usize, ReadFault)] = &[
    (b"\xff", 0, ReadFault::BadLine(1)),
    (b"\0table 1\njob 1 p=1", 0, ReadFault::BadLine(1)),
    (b"table 1\njob 1 p=\0", 0, ReadFault::BadNumber(2)),
    (b"table 1\njob 1 p=1\xff", 0, ReadFault::BadNumber(2)),
    (b"table 1\njob 1 p=x\n\xff", 0, ReadFault::BadNumber(2)),
    (b"table 1\njob 1 p=", 10_000, ReadFault::NumberTooLarge(2)),
    (b"table 1\njob 1 p=-", 10_000, ReadFault::NumberTooLarge(2)),
    (b"table 1\nmachines ", 10_000, ReadFault::BadLine(2)),
];

/// A text, and so many times a digit behind it.
fn with_digits(
    alloc: Global,
    front: &[u8],
    digit: u8,
    count: usize,
) -> Result<Vec<u8>, AllocError> {
    let mut text = Vec::from_slice(alloc, front)?;
    for _ in 0..count {
        text.push(digit)?;
    }
    Ok(text)
}

/// The table with so many digits behind it has this fault.
fn is_refused_with(
    alloc: Global,
    front: &[u8],
    digits: usize,
    fault: ReadFault,
) -> Result<bool, AllocError> {
    let text = with_digits(alloc, front, b'9', digits)?;
    Ok(is_refused(read_table(alloc, &text), fault))
}

/// A job that takes 4, where its time has 10,000 zeros before it.
fn is_read_long(alloc: Global) -> Result<bool, AllocError> {
    let mut text = with_digits(alloc, b"table 1\njob 1 p=", b'0', 10_000)?;
    text.push(b'4')?;
    Ok(read_table(alloc, &text).is_ok_and(|table| takes_four(&table)))
}

fn takes_four(table: &Instance) -> bool {
    table
        .jobs()
        .first()
        .is_some_and(|job| job.times == Times::One(4))
}

#[test]
fn a_table_of_any_bytes_is_read_or_refused(rt: HostRuntime) -> Result<(), Fail> {
    for (front, digits, fault) in TABLES {
        assert!(rt; is_refused_with(rt.alloc(), front, *digits, *fault)?);
    }
    assert!(rt; is_read_long(rt.alloc())?);
    Ok(())
}

const TWO_INSTANCES: &[u8] = b"2 3 1\n1 2 4\n5 -2 9\n4 1 3\n2 2 3\n6 7 8";

/// Weighted tardiness files with the number of jobs and the index that are asked for.
const TARDINESS: &[(&[u8], u32, u32, ReadFault)] = &[
    (TWO_INSTANCES, 0, 1, ReadFault::NoJobs),
    (TWO_INSTANCES, 0, 0, ReadFault::NoJobs),
    (TWO_INSTANCES, 3, 0, ReadFault::NoInstance),
    (TWO_INSTANCES, 100_001, 1, ReadFault::TooManyJobs),
    (TWO_INSTANCES, 100_001, 0, ReadFault::TooManyJobs),
    (b"x", 1, 0, ReadFault::NoInstance),
    (b"1\r\n2\r\n3\0\r\n", 1, 2, ReadFault::BadNumber(3)),
];

/// Names and pairs of machines that a flow shop file doesn't have.
const SHOPS: &[(&[u8], Option<(u32, u32)>, ReadFault)] = &[
    (b"demo\n", None, ReadFault::NoInstance),
    (b"demo", Some((4_294_967_295, 0)), ReadFault::BadPair),
];

#[test]
fn a_file_is_refused_by_what_no_command_line_asks(rt: HostRuntime) {
    for (text, jobs, index, fault) in TARDINESS {
        assert!(rt; is_refused(read_wt(rt.alloc(), text, *jobs, *index), *fault));
    }
    for (name, pair, fault) in SHOPS {
        let text = b"instance demo\n1 2\n0 4 1 5\n";
        assert!(rt; is_refused(read_flowshop(rt.alloc(), text, name, *pair), *fault));
    }
}

/// A table of so many jobs of time 1.
fn table_of_jobs(alloc: Global, jobs: u32) -> Result<Vec<u8>, AllocError> {
    let mut text = Vec::from_slice(alloc, b"table 1\n")?;
    for job in 0..jobs {
        let line = format!(in alloc; "job {} p=1\n", job.wrapping_add(1))?;
        text.extend_from_slice(line.as_bytes())?;
    }
    Ok(text)
}

/// A table of one job and 200,000 arcs from it to itself.
fn table_of_arcs(alloc: Global) -> Result<Vec<u8>, AllocError> {
    let mut text = table_of_jobs(alloc, 1)?;
    for _ in 0..200_000 {
        text.extend_from_slice(b"prec 1 1\n")?;
    }
    Ok(text)
}

/// The table is read, and refused by this fault with one more line.
fn is_full(
    alloc: Global,
    mut text: Vec<u8>,
    line: &[u8],
    fault: ReadFault,
) -> Result<bool, AllocError> {
    let is_read = read_table(alloc, &text).is_ok();
    text.extend_from_slice(line)?;
    Ok(is_read && is_refused(read_table(alloc, &text), fault))
}

#[test]
fn a_table_has_at_most_100_000_jobs_and_200_000_arcs(rt: HostRuntime) -> Result<(), Fail> {
    let alloc = rt.alloc();
    let jobs = table_of_jobs(alloc, 100_000)?;
    assert!(rt; is_full(alloc, jobs, b"job x", ReadFault::TooManyJobs)?);
    let arcs = table_of_arcs(alloc)?;
    assert!(rt; is_full(alloc, arcs, b"prec x", ReadFault::TooManyArcs)?);
    Ok(())
}
