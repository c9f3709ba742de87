//! The problems that have lower bounds and no solver.
ghost use Rattle.std.specs.Prelude.{◌≡◌};
ghost use Rattle.tf_listing.specs.Unsolved.{unsolved};

use tf_model::class::class_of;
use tf_model::problem::{Env, Goal, Problem};

/// The environment and the objective of each, in the order of the list.
pub(crate) const UNSOLVED: [(Env, Goal); 40] = [
    (Env::Single, Goal::Cmax),
    (Env::Single, Goal::Lmax),
    (Env::Single, Goal::SumC),
    (Env::Single, Goal::SumWC),
    (Env::Single, Goal::SumT),
    (Env::Single, Goal::SumWT),
    (Env::Single, Goal::SumU),
    (Env::Single, Goal::SumWU),
    (Env::Parallel, Goal::Cmax),
    (Env::Parallel, Goal::Lmax),
    (Env::Parallel, Goal::SumC),
    (Env::Parallel, Goal::SumWC),
    (Env::Parallel, Goal::SumT),
    (Env::Parallel, Goal::SumWT),
    (Env::Parallel, Goal::SumU),
    (Env::Parallel, Goal::SumWU),
    (Env::Flow, Goal::Cmax),
    (Env::Flow, Goal::Lmax),
    (Env::Flow, Goal::SumC),
    (Env::Flow, Goal::SumWC),
    (Env::Flow, Goal::SumT),
    (Env::Flow, Goal::SumWT),
    (Env::Flow, Goal::SumU),
    (Env::Flow, Goal::SumWU),
    (Env::OpenShop, Goal::Cmax),
    (Env::OpenShop, Goal::Lmax),
    (Env::OpenShop, Goal::SumC),
    (Env::OpenShop, Goal::SumWC),
    (Env::OpenShop, Goal::SumT),
    (Env::OpenShop, Goal::SumWT),
    (Env::OpenShop, Goal::SumU),
    (Env::OpenShop, Goal::SumWU),
    (Env::JobShop, Goal::Cmax),
    (Env::JobShop, Goal::Lmax),
    (Env::JobShop, Goal::SumC),
    (Env::JobShop, Goal::SumWC),
    (Env::JobShop, Goal::SumT),
    (Env::JobShop, Goal::SumWT),
    (Env::JobShop, Goal::SumU),
    (Env::JobShop, Goal::SumWU),
];

/// The problem without conditions, or where that is solved, with release dates.
pub(crate) fn unsolved(env: Env, goal: Goal) -> Problem
    ensures { result ≡ unsolved env goal }
{
    let plain = Problem::plain(env, goal);
    let is_solved = class_of(&plain).is_some();
    Problem {
        release: is_solved,
        ..plain
    }
}
