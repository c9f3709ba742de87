//! The classes of one machine.
use super::trial::{Row, counts, examine_both, examine_own, examine_row};
use crate::family::{Arcs, Family};
use crate::small_task::{Cost, Kind, Objective};
use std::alloc::Global;
use std::test::Fail;

const COMPLETIONS: Family = Family {
    first: &[1, 2, 3],
    ..Family::PLAIN
};

const WEIGHTED_COMPLETIONS: Family = Family {
    kind: Kind {
        objective: Objective::WeightedCompletions,
        ..Kind::PLAIN
    },
    weight: &[0, 1, 3],
    ..COMPLETIONS
};

const LATENESS: Family = Family {
    kind: Kind {
        objective: Objective::Lateness,
        ..Kind::PLAIN
    },
    due: &[-1, 1, 2, 4],
    ..Family::PLAIN
};

const ORDERED_LATENESS: Family = Family {
    kind: Kind {
        is_ordered: true,
        objective: Objective::Lateness,
        ..Kind::PLAIN
    },
    due: &[0, 2],
    arcs: Arcs::Between,
    most_work: 5,
    ..LATENESS
};

const RELEASED_LATENESS: Family = Family {
    kind: Kind {
        is_released: true,
        may_break: true,
        objective: Objective::Lateness,
        ..Kind::PLAIN
    },
    due: &[1, 3],
    release: &[0, 1, 3],
    most_work: 4,
    ..LATENESS
};

const COST: Family = Family {
    kind: Kind {
        objective: Objective::Cost,
        ..Kind::PLAIN
    },
    cost: &[Cost::Flat, Cost::Rising, Cost::Steep],
    ..Family::PLAIN
};

const ORDERED_COST: Family = Family {
    kind: Kind {
        is_ordered: true,
        objective: Objective::Cost,
        ..Kind::PLAIN
    },
    cost: &[Cost::Rising, Cost::Steep],
    arcs: Arcs::Between,
    most_work: 5,
    ..COST
};

/// The classes with and without preemption.
const ROWS: &[Row] = &[
    Row {
        family: COMPLETIONS,
        own: [29, 4_623, 468, 29],
        any: [9, 946, 42, 9],
        broken: [4_623, 109],
    },
    Row {
        family: WEIGHTED_COMPLETIONS,
        own: [549, 118_125, 11_520, 549],
        any: [63, 8_346, 342, 63],
        broken: [118_125, 927],
    },
    Row {
        family: LATENESS,
        own: [584, 88_916, 12_688, 17_688],
        any: [72, 6_960, 400, 792],
        broken: [88_916, 980],
    },
    Row {
        family: ORDERED_LATENESS,
        own: [3_652, 381_898, 10_952, 93_756],
        any: [68, 6_936, 200, 684],
        broken: [26_778, 378],
    },
    Row {
        family: COST,
        own: [258, 37_653, 5_412, 7_578],
        any: [42, 3_924, 228, 450],
        broken: [37_653, 555],
    },
    Row {
        family: ORDERED_COST,
        own: [3_652, 381_898, 10_952, 93_756],
        any: [68, 6_936, 200, 684],
        broken: [26_778, 378],
    },
];

#[test]
fn each_objective_is_least(rt: HostRuntime) -> Result<(), Fail> {
    for row in ROWS {
        examine_row(rt.alloc(), row)?;
    }
    Ok(())
}

#[test]
fn greatest_lateness_of_released_jobs_is_least(rt: HostRuntime) -> Result<(), Fail> {
    let own = counts(1_020, 465_644, 169_630, 30_276);
    let any = counts(156, 250_824, 5_086, 1_764);
    examine_both(rt.alloc(), &RELEASED_LATENESS, own, any)
}

/// Two jobs, with arcs from a job to itself among the arcs.
#[test]
fn arcs_from_a_job_to_itself_are_cycles(rt: HostRuntime) -> Result<(), Fail> {
    examine_cycles(rt.alloc(), &ORDERED_LATENESS.with_arcs(Arcs::All))?;
    examine_cycles(rt.alloc(), &ORDERED_COST.with_arcs(Arcs::All))
}

fn examine_cycles(alloc: Global, family: &Family) -> Result<(), Fail> {
    examine_own(alloc, 2, family, counts(264, 3_860, 200, 1_452))?;
    examine_own(
        alloc,
        2,
        &family.with_breaks(),
        counts(264, 3_860, 378, 1_452),
    )
}
