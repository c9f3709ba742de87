//! The classes of parallel machines.
use super::trial::{Tally, counts, examine_both, examine_own};
use crate::family::Family;
use crate::small_task::{Kind, Machines, Objective};
use std::alloc::Global;
use std::test::Fail;

const MAKESPAN: Family = Family {
    kind: Kind {
        machines: Machines::Parallel(1),
        may_break: true,
        objective: Objective::Makespan,
        ..Kind::PLAIN
    },
    first: &[1, 2, 3],
    ..Family::PLAIN
};

const COMPLETIONS: Family = Family {
    kind: Kind {
        machines: Machines::Parallel(1),
        ..Kind::PLAIN
    },
    first: &[1, 2, 3],
    ..Family::PLAIN
};

#[test]
fn makespan_is_least(rt: HostRuntime) -> Result<(), Fail> {
    let on_one = counts(29, 707, 707, 101);
    let on_two = counts(29, 480_900, 328_874, 101);
    let on_three = counts(21, 536_400, 356_163, 70);
    let any = counts(9, 21_306, 754, 24);
    examine_on(rt.alloc(), &MAKESPAN, [on_one, on_two, on_three], any)
}

#[test]
fn total_completion_time_is_least(rt: HostRuntime) -> Result<(), Fail> {
    let on_one = counts(29, 707, 123, 486);
    let on_two = counts(29, 480_900, 4_968, 486);
    let on_three = counts(21, 536_400, 10_707, 327);
    let any = counts(9, 21_306, 112, 69);
    examine_on(rt.alloc(), &COMPLETIONS, [on_one, on_two, on_three], any)
}

/// Holds the answers on one, two and three machines against the timetables in which each job has
/// its time, and those to small tasks on two machines against all.
fn examine_on(alloc: Global, family: &Family, own: [Tally; 3], any: Tally) -> Result<(), Fail> {
    let [on_one, on_two, on_three] = own;
    examine_own(alloc, 3, family, on_one)?;
    examine_both(alloc, &family.on(2), on_two, any)?;
    examine_own(alloc, 3, &family.on(3).within(5), on_three)
}
