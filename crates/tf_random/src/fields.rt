//! What a problem uses of a job table.
ghost use Rattle.std.specs.Prelude.{◌≡◌};
ghost use Rattle.tf_random.specs.Fields.{has_cost, has_due, has_times_alone, has_weight};

use tf_model::problem::{Goal, Problem};

/// Whether the objective uses weights.
pub fn has_weight(goal: Goal) -> bool
    ensures { result ≡ has_weight goal }
{
    matches!(goal, Goal::SumWC | Goal::SumWT | Goal::SumWU)
}

/// Whether the objective uses due dates.
pub fn has_due(goal: Goal) -> bool
    ensures { result ≡ has_due goal }
{
    matches!(
        goal,
        Goal::Lmax | Goal::SumT | Goal::SumWT | Goal::SumU | Goal::SumWU
    )
}

/// Whether the objective uses cost functions.
pub fn has_cost(goal: Goal) -> bool
    ensures { result ≡ has_cost goal }
{
    matches!(goal, Goal::Hmax)
}

/// Whether the problem uses nothing of a job but its processing times.
pub fn has_times_alone(problem: &Problem) -> bool
    ensures { result ≡ has_times_alone problem.now }
{
    let fields = has_weight(problem.goal) || has_due(problem.goal) || has_cost(problem.goal);
    !(fields || problem.release || problem.prec)
}
