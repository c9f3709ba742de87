//! What certificates bound, worked by hand.
use super::tasks::{Sample, numbers, task_of};
use std::alloc::{AllocError, Global};
use std::test::Fail;
use tf_bound::certificate::BoundCertificate;
use tf_model::ids::JobId;

/// The kinds of certificates, in the order of their words. Machines count from 0. Multipliers have
/// a denominator and the numerators of the arcs.
#[derive(Clone, Copy)]
enum Kind {
    Machine(usize),
    Window,
    Crowd(u32),
    OneJob,
    Multipliers(u64, &'static [u64]),
    Prices(u64),
    MachinePrices(usize, u64),
    Kept,
    Shortest,
    Ranks,
    Pair(usize, usize, bool, u64),
    Parts(u64, u64, i64),
    Potentials(&'static [i64]),
}

// A task, a kind with its numbers or jobs, and the bound, if it is not refused.
type Case = (Sample, Kind, &'static [u64], Option<i128>);

const CASES: &[Case] = &[
    (
        Sample::Tardy,
        Kind::Multipliers(2, &[]),
        &[2, 1, 3],
        Some(3),
    ),
    (
        Sample::Tardy,
        Kind::Multipliers(2, &[]),
        &[0, 0, 0],
        Some(0),
    ),
    (Sample::Tardy, Kind::Multipliers(2, &[]), &[3, 1, 3], None),
    (Sample::Tardy, Kind::Multipliers(2, &[1]), &[2, 1, 3], None),
    (Sample::Behind, Kind::Multipliers(1, &[]), &[1, 3], Some(6)),
    (
        Sample::Behind,
        Kind::Multipliers(1, &[2]),
        &[1, 3],
        Some(11),
    ),
    (
        Sample::Behind,
        Kind::Multipliers(3, &[5]),
        &[3, 9],
        Some(11),
    ),
    (Sample::Behind, Kind::Multipliers(1, &[4]), &[1, 3], None),
    (
        Sample::Pairs,
        Kind::Multipliers(1, &[]),
        &[1, 1, 2, 2],
        Some(8),
    ),
    (
        Sample::Pairs,
        Kind::Multipliers(1, &[1, 1]),
        &[1, 1, 2, 2],
        Some(10),
    ),
    (
        Sample::Pairs,
        Kind::Multipliers(1, &[1]),
        &[1, 1, 2, 2],
        None,
    ),
    (Sample::Flow, Kind::Machine(1), &[2, 3], Some(8)),
    (Sample::Flow, Kind::Machine(1), &[2, 2], None),
    (Sample::Flow, Kind::Machine(1), &[2, 4], None),
    (Sample::Released, Kind::Window, &[3], Some(1)),
    (Sample::Released, Kind::Prices(1), &[1], None),
    (Sample::Fours, Kind::Window, &[1, 2, 3], Some(6)),
    (Sample::Fours, Kind::OneJob, &[1], Some(4)),
    (Sample::Fours, Kind::Crowd(1), &[1, 2, 3], Some(8)),
    (Sample::Fours, Kind::Crowd(2), &[1, 2, 3], None),
    (Sample::Late, Kind::Prices(1), &[1], Some(2)),
    (Sample::Late, Kind::Prices(1), &[0], Some(0)),
    (Sample::Late, Kind::Prices(1), &[5], Some(0)),
    (Sample::Late, Kind::Prices(0), &[1], None),
];

// Of the kinds by jobs in an order.
const IN_ORDER: &[Case] = &[
    (Sample::Late, Kind::Kept, &[3, 1, 2], Some(2)),
    (Sample::Crossed, Kind::Kept, &[1, 2, 4, 3], Some(1)),
    (Sample::Crossed, Kind::Kept, &[1, 2], Some(1)),
    (Sample::Crossed, Kind::Kept, &[1, 3], Some(0)),
    (Sample::Crossed, Kind::Kept, &[2, 1, 3, 4], None),
    (Sample::Crossed, Kind::Kept, &[], None),
    (Sample::Crossed, Kind::Kept, &[1, 1], None),
    (Sample::Weighed, Kind::Kept, &[1, 2, 3, 4], Some(4)),
    (Sample::Weighed, Kind::Kept, &[1, 2, 4, 3], Some(4)),
    (Sample::Weighed, Kind::Kept, &[1, 2], Some(2)),
    (Sample::Weighed, Kind::Kept, &[1, 3, 4], Some(0)),
    (Sample::Weighed, Kind::Kept, &[2, 3, 4], Some(2)),
    (Sample::Weighed, Kind::Kept, &[2, 1, 3, 4], None),
    (Sample::Weighed, Kind::Kept, &[], None),
    (Sample::Weighed, Kind::Kept, &[4, 4], None),
    (Sample::Remaining, Kind::Shortest, &[1, 2, 3, 4], Some(24)),
    (Sample::Remaining, Kind::Shortest, &[1, 3, 4], Some(18)),
    (Sample::Remaining, Kind::Shortest, &[1, 2, 4, 3], None),
    (Sample::Remaining, Kind::Kept, &[1, 2, 3, 4], None),
    (Sample::Dealt, Kind::Ranks, &[1, 3, 2, 4], Some(11)),
    (Sample::Dealt, Kind::Ranks, &[1, 2, 4], Some(7)),
    (Sample::Dealt, Kind::Ranks, &[2, 1, 3, 4], None),
    (Sample::Dealt, Kind::Shortest, &[1, 2, 3, 4], None),
];

// Of three jobs of 4 on two machines. To be over before 6 they have 4 each from 0 to 5; to be over
// before 8, each runs from 3 to 4.
const IN_INTERVALS: &[Case] = &[
    (Sample::Fours, Kind::Parts(0, 5, 6), &[1, 2, 3], Some(6)),
    (Sample::Fours, Kind::Parts(0, 6, 7), &[1, 2, 3], None),
    (Sample::Fours, Kind::Parts(3, 4, 8), &[3, 1, 2], Some(8)),
    (Sample::Fours, Kind::Parts(3, 4, 9), &[1, 2, 3], None),
    (Sample::Fours, Kind::Parts(3, 4, 8), &[1, 2], None),
    (Sample::Fours, Kind::Parts(3, 4, 8), &[1, 2, 2], None),
    (Sample::Flow, Kind::Parts(0, 1, 2), &[2, 3], None),
];

// Of jobs (0, 1, 1), (2, 2, 1) and (3, 3, 1). On machines 1 and 2 jobs 1 and 2 count 0 and 2, job 3
// counts 3 and has 3 on machine 1, and a tail is 1. On machines 1 and 3 jobs 1 and 3 count 0 and 3,
// job 2 counts 1, and job 3 has 4 behind machine 1. Job 1 can't show a lag.
const BY_PAIRS: &[Case] = &[
    (Sample::Flow, Kind::Pair(0, 1, true, 3), &[1, 2], Some(9)),
    (Sample::Flow, Kind::Pair(0, 1, true, 2), &[1], Some(8)),
    (Sample::Flow, Kind::Pair(0, 2, false, 4), &[1, 3], Some(8)),
    (Sample::Flow, Kind::Pair(0, 1, true, 2), &[2], None),
    (Sample::Flow, Kind::Pair(0, 1, true, 4), &[1, 2], None),
    (Sample::Flow, Kind::Pair(0, 1, true, 3), &[1, 2, 1], None),
    (Sample::Flow, Kind::Pair(1, 1, true, 3), &[1, 2], None),
    (Sample::Flow, Kind::Pair(1, 3, true, 3), &[1, 2], None),
    (Sample::Fours, Kind::Pair(0, 1, true, 4), &[1, 2], None),
];

// Of jobs that may be preempted. Job 4 of `Remaining` costs 1, and 9 in step 9; without prices the
// others cost 5/2 + 0, 3/2 + 1 and 1 + 2.
const BY_ROWS: &[Case] = &[
    (Sample::Remaining, Kind::Prices(1), &[], Some(18)),
    (Sample::Remaining, Kind::Prices(1), &[2], Some(17)),
    (
        Sample::Remaining,
        Kind::Prices(4),
        &[7, 9, 9, 5, 3, 2, 1, 0, 0, 4],
        Some(23),
    ),
    (Sample::Remaining, Kind::Prices(0), &[1], None),
    (Sample::Dealt, Kind::Prices(1), &[1], Some(8)),
    (Sample::Dealt, Kind::Prices(6), &[10, 7, 4, 2], Some(11)),
];

// On one machine of a shop. On the second machine of `Passed` job 1 costs 5 from the start 2 on,
// and job 2 costs 4; on the first one they cost 4 and 3. In `Opened` no job is over before 3 and 4.
const ON_ONE: &[Case] = &[
    (
        Sample::Passed,
        Kind::MachinePrices(1, 1),
        &[0, 2, 1],
        Some(6),
    ),
    (Sample::Passed, Kind::MachinePrices(0, 1), &[1], Some(6)),
    (Sample::Passed, Kind::MachinePrices(0, 2), &[], Some(5)),
    (Sample::Passed, Kind::MachinePrices(0, 0), &[1], None),
    (Sample::Passed, Kind::MachinePrices(2, 1), &[1], None),
    (Sample::Passed, Kind::Prices(1), &[1], None),
    (Sample::Late, Kind::MachinePrices(0, 1), &[1], None),
    (Sample::Opened, Kind::MachinePrices(0, 1), &[], Some(7)),
    (Sample::Opened, Kind::MachinePrices(0, 1), &[1], Some(6)),
];

// Of jobs that wait nowhere. Job 2 starts 2 after job 1 or later, and job 3 4; after job 2 they
// start 3 later, and after job 3 1.
const NOWHERE: &[Case] = &[
    (
        Sample::NoWait,
        Kind::Potentials(&[3, 2, 0, 3, 0, 1, 0]),
        &[],
        Some(9),
    ),
    (
        Sample::NoWait,
        Kind::Potentials(&[2, 3, -1, 4, -1, 2, -1]),
        &[],
        Some(8),
    ),
    (
        Sample::NoWait,
        Kind::Potentials(&[3, 3, -1, 4, -1, 2, -1]),
        &[],
        None,
    ),
    (
        Sample::NoWait,
        Kind::Potentials(&[3, 2, 0, 3, 0, 2, 0]),
        &[],
        None,
    ),
    (
        Sample::NoWait,
        Kind::Potentials(&[3, 2, 1, 3, 0, 0, 0]),
        &[],
        None,
    ),
    (Sample::NoWait, Kind::Potentials(&[3, 2, 0]), &[], None),
    (
        Sample::Flow,
        Kind::Potentials(&[0, 0, 0, 0, 0, 0, 0]),
        &[],
        None,
    ),
];

// The jobs of these numbers.
fn jobs_of(alloc: Global, values: &[u64]) -> Result<Vec<JobId>, AllocError> {
    let mut jobs = Vec::new(alloc);
    for value in values {
        jobs.push(JobId::at((value.saturating_sub(1) % 10) as usize))?;
    }
    Ok(jobs)
}

fn certificate(alloc: Global, kind: Kind, values: &[u64]) -> Result<BoundCertificate, AllocError> {
    let jobs = jobs_of(alloc, values)?;
    let given = numbers(alloc, values)?;
    Ok(match kind {
        Kind::Machine(machine) => BoundCertificate::Machine { machine, jobs },
        Kind::Window => BoundCertificate::Window { jobs },
        Kind::Crowd(h) => BoundCertificate::Crowd { h, jobs },
        Kind::OneJob => BoundCertificate::OneJob { job: JobId::at(0) },
        Kind::Multipliers(q, arcs) => BoundCertificate::Multipliers {
            machine: 0,
            q,
            numerators: given,
            arcs: numbers(alloc, arcs)?,
        },
        Kind::Prices(q) => BoundCertificate::Prices { q, rows: given },
        Kind::MachinePrices(machine, q) => BoundCertificate::MachinePrices {
            machine,
            q,
            rows: given,
        },
        Kind::Kept => BoundCertificate::Kept { jobs },
        Kind::Shortest => BoundCertificate::Shortest { jobs },
        Kind::Ranks => BoundCertificate::Ranks { jobs },
        Kind::Pair(first, second, by_first, delta) => BoundCertificate::Split {
            first,
            second,
            delta,
            by_first,
            side: jobs,
        },
        Kind::Parts(from, until, late) => BoundCertificate::Parts {
            from,
            until,
            late,
            jobs,
        },
        Kind::Potentials(values) => BoundCertificate::Potentials {
            numbers: Vec::from_slice(alloc, values)?,
        },
    })
}

fn bound_of(
    alloc: Global,
    sample: Sample,
    kind: Kind,
    values: &[u64],
) -> Result<Option<i128>, Fail> {
    let task = task_of(alloc, sample)?;
    let certificate = certificate(alloc, kind, values)?;
    Ok(certificate.bound(alloc, &task).ok())
}

// Whether each case is bounded as it says.
fn are_bounded(alloc: Global, cases: &[Case]) -> Result<bool, Fail> {
    for (sample, kind, values, bound) in cases {
        if bound_of(alloc, *sample, *kind, values)? != *bound {
            return Ok(false);
        }
    }
    Ok(true)
}

#[test]
fn each_kind_bounds_what_was_worked_by_hand(rt: HostRuntime) -> Result<(), Fail> {
    assert!(rt; are_bounded(rt.alloc(), CASES)?);
    assert!(rt; are_bounded(rt.alloc(), IN_ORDER)?);
    assert!(rt; are_bounded(rt.alloc(), IN_INTERVALS)?);
    assert!(rt; are_bounded(rt.alloc(), BY_PAIRS)?);
    assert!(rt; are_bounded(rt.alloc(), BY_ROWS)?);
    assert!(rt; are_bounded(rt.alloc(), ON_ONE)?);
    assert!(rt; are_bounded(rt.alloc(), NOWHERE)?);
    Ok(())
}
