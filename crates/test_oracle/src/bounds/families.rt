//! The problems without a solver that are looked at, and what is wanted of each.
use super::family::{Family, PLAIN, Size};
use super::trial::{Tally, examine};
use std::alloc::Global;
use std::test::Fail;
use tf_model::problem::{Env, Goal, Problem};

// `1|rj|Lmax`
const RELEASED_LATENESS: Problem = Problem {
    release: true,
    goal: Goal::Lmax,
    ..PLAIN
};

// `1|rj,prec|Lmax`
const ORDERED_LATENESS: Problem = Problem {
    prec: true,
    ..RELEASED_LATENESS
};

// `1||sumwT`
const WEIGHTED_TARDINESS: Problem = Problem {
    goal: Goal::SumWT,
    ..PLAIN
};

// `1||sumT`
const TARDINESS: Problem = Problem {
    goal: Goal::SumT,
    ..PLAIN
};

// `1|rj|sumC`
const RELEASED_COMPLETIONS: Problem = Problem {
    release: true,
    ..PLAIN
};

// `1||sumU`
const LATE_JOBS: Problem = Problem {
    goal: Goal::SumU,
    ..PLAIN
};

// `1||sumwU`
const LATE_WEIGHT: Problem = Problem {
    goal: Goal::SumWU,
    ..PLAIN
};

// `1|prec|sumwC`
const ORDERED_COMPLETIONS: Problem = Problem {
    prec: true,
    goal: Goal::SumWC,
    ..PLAIN
};

// `1|rj,prmp|sumwC`
const PREEMPTED_COMPLETIONS: Problem = Problem {
    release: true,
    prmp: true,
    goal: Goal::SumWC,
    ..PLAIN
};

// `1|rj,prmp|sumC`
const SHORTEST_FIRST: Problem = Problem {
    prmp: true,
    ..RELEASED_COMPLETIONS
};

// `P2||Cmax`
const PARALLEL_MAKESPAN: Problem = Problem {
    env: Env::Parallel,
    goal: Goal::Cmax,
    ..PLAIN
};

// `P2||sumwC`
const PARALLEL_COMPLETIONS: Problem = Problem {
    env: Env::Parallel,
    goal: Goal::SumWC,
    ..PLAIN
};

// `P2|prmp|sumC`
const PREEMPTED_PARALLEL: Problem = Problem {
    env: Env::Parallel,
    prmp: true,
    ..PLAIN
};

// `P2||Lmax`
const PARALLEL_LATENESS: Problem = Problem {
    env: Env::Parallel,
    goal: Goal::Lmax,
    ..PLAIN
};

// `F2||sumC`
const FLOW_COMPLETIONS: Problem = Problem {
    env: Env::Flow,
    ..PLAIN
};

// `F3||Cmax`
const FLOW_MAKESPAN: Problem = Problem {
    env: Env::Flow,
    goal: Goal::Cmax,
    ..PLAIN
};

// `F3|prmu|Cmax`
const PERMUTATION_MAKESPAN: Problem = Problem {
    prmu: true,
    ..FLOW_MAKESPAN
};

// `O3||Cmax`
const OPEN_MAKESPAN: Problem = Problem {
    env: Env::OpenShop,
    goal: Goal::Cmax,
    ..PLAIN
};

const FOUR_JOBS: Size = Size {
    machines: 1,
    jobs: 4,
    tasks: 100,
};

const THREE_JOBS: Size = Size {
    jobs: 3,
    ..FOUR_JOBS
};

const FOUR_JOBS_ON_TWO: Size = Size {
    machines: 2,
    ..FOUR_JOBS
};

const THREE_JOBS_ON_TWO: Size = Size {
    machines: 2,
    ..THREE_JOBS
};

const FOUR_JOBS_ON_THREE: Size = Size {
    machines: 3,
    ..FOUR_JOBS
};

const THREE_JOBS_ON_THREE: Size = Size {
    machines: 3,
    ..THREE_JOBS
};

// As many orders as there are in an open shop take longer.
const FEW_ON_THREE: Size = Size {
    tasks: 10,
    ..THREE_JOBS_ON_THREE
};

// A problem, the size of its tasks, how many orders they have, and of how many the bound has to be
// the least cost. The numbers were counted by a program in another language, written from the
// definitions alone. Where prices are searched, those of each task can be so good that the bound is
// the least cost; one task in twenty may be missed.
type Case = (Problem, Size, u64, u64);

const ONE_MACHINE: &[Case] = &[
    (RELEASED_LATENESS, FOUR_JOBS, 2_400, 88),
    (ORDERED_LATENESS, FOUR_JOBS, 2_400, 96),
    (WEIGHTED_TARDINESS, FOUR_JOBS, 2_400, 95),
    (TARDINESS, FOUR_JOBS, 2_400, 95),
    (RELEASED_COMPLETIONS, FOUR_JOBS, 2_400, 95),
    (LATE_WEIGHT, FOUR_JOBS, 2_400, 100),
    (ORDERED_COMPLETIONS, FOUR_JOBS, 2_400, 41),
    (PREEMPTED_COMPLETIONS, THREE_JOBS, 13_824, 91),
    (LATE_JOBS, FOUR_JOBS, 2_400, 100),
    (SHORTEST_FIRST, THREE_JOBS, 13_824, 100),
];

const PARALLEL_MACHINES: &[Case] = &[
    (PARALLEL_MAKESPAN, FOUR_JOBS_ON_TWO, 38_400, 100),
    (PARALLEL_COMPLETIONS, FOUR_JOBS_ON_TWO, 38_400, 95),
    (PARALLEL_LATENESS, FOUR_JOBS_ON_TWO, 38_400, 96),
    (PREEMPTED_PARALLEL, THREE_JOBS_ON_TWO, 110_592, 100),
];

const SHOPS: &[Case] = &[
    (FLOW_COMPLETIONS, THREE_JOBS_ON_TWO, 9_000, 82),
    (FLOW_MAKESPAN, THREE_JOBS_ON_THREE, 168_000, 60),
    (PERMUTATION_MAKESPAN, FOUR_JOBS_ON_THREE, 2_400, 66),
    (OPEN_MAKESPAN, FEW_ON_THREE, 3_628_800, 10),
];

fn examine_all(alloc: Global, cases: &[Case]) -> Result<(), Fail> {
    for (problem, size, orders, met) in cases {
        let family = Family {
            problem: *problem,
            size: *size,
        };
        let wanted = Tally {
            orders: *orders,
            met: *met,
        };
        examine(alloc, &family, wanted)?;
    }
    Ok(())
}

#[test]
fn no_bound_is_above_the_least_cost_on_one_machine(rt: HostRuntime) -> Result<(), Fail> {
    examine_all(rt.alloc(), ONE_MACHINE)
}

#[test]
fn no_bound_is_above_the_least_cost_on_parallel_machines(rt: HostRuntime) -> Result<(), Fail> {
    examine_all(rt.alloc(), PARALLEL_MACHINES)
}

#[test]
fn no_bound_is_above_the_least_cost_in_a_shop(rt: HostRuntime) -> Result<(), Fail> {
    examine_all(rt.alloc(), SHOPS)
}
