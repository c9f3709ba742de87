//! The classes of shops of two machines.
use super::trial::{Row, examine_row};
use crate::family::Family;
use crate::small_task::{Kind, Machines, Objective};
use std::test::Fail;

const FLOW_SHOP: Family = Family {
    kind: Kind {
        machines: Machines::FlowShop,
        objective: Objective::Makespan,
        ..Kind::PLAIN
    },
    first: &[0, 1, 2],
    second: &[0, 1, 2],
    ..Family::PLAIN
};

const OPEN_SHOP: Family = Family {
    kind: Kind {
        machines: Machines::OpenShop,
        objective: Objective::Makespan,
        ..Kind::PLAIN
    },
    ..FLOW_SHOP
};

const ROWS: &[Row] = &[
    Row {
        family: FLOW_SHOP,
        own: [520, 557_943, 23_423, 30_345],
        any: [59, 137_622, 226, 1_384],
        broken: [85_635, 360],
    },
    Row {
        family: OPEN_SHOP,
        own: [520, 557_943, 82_555, 2_506],
        any: [59, 137_622, 428, 227],
        broken: [327_711, 716],
    },
];

#[test]
fn makespan_is_least(rt: HostRuntime) -> Result<(), Fail> {
    for row in ROWS {
        examine_row(rt.alloc(), row)?;
    }
    Ok(())
}
