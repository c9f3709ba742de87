//! Costs of completion times.
ghost use Rattle.std.specs.Prelude.{◌≡◌, ℕ, ℤ, pos, ◌-ℤ◌, ◌<◌, ◌≤◌, ◌<ℤ◌, ◌≤ℤ◌, true, false};
ghost use Rattle.std.specs.Prelude.{length, MatchResult, IsTrue, ◌↔◌, int_le};
ghost use Rattle.tf_model.specs.Whole.{as_time, IsWithin};
ghost use Rattle.tf_model.specs.Steps.{step_value};
ghost use Rattle.tf_model.specs.Level.{IsLevel};
ghost use Rattle.tf_model.specs.StepFaults.{steps_fault, step_fault, IsStepCost};

use crate::instance::is_beyond;
use crate::limit::LIMIT;
use std::alloc::{AllocError, Allocator, Global};
use std::marker::Model;
use thiserror::Error;

/// A value that a cost has from a time on.
#[derive(Clone, Copy, Debug)]
pub struct Level {
    /// What completing costs.
    pub value: i64,
    /// The time, in time steps.
    pub since: i64,
}

/// A cost that depends on the completion time, and does not fall as it grows.
pub trait Cost {
    ghost use Rattle.std.specs.Prelude.{◌≡◌, ℕ, ℤ, pos, ◌≤◌, ◌≤ℤ◌};
    ghost use Rattle.tf_model.specs.Limit.{limit};
    ghost use Rattle.tf_model.specs.Level.{IsLevel};
    ghost use Rattle.tf_model.specs.Whole.{as_time};

    /// The cost of completing at a time.
    ghost cost_at: { Self → ℕ → ℤ };

    /// What is known of each value of the type.
    ghost IsCost: { Self → Type 0 };

    /// The cost of completing at time `c`, from 0 to [`LIMIT`].
    fn value_at(&self, c: i64) -> i64
        requires from { pos 0 ≤ℤ c }
        requires to { c ≤ℤ pos limit }
        ensures value { result ≡ cost_at self.now (as_time c) }
        ensures sound { IsCost self.now };

    /// The cost of completing at time `c`, from 0 to [`LIMIT`], with a time from which on up to `c`
    /// it is known to be the same.
    fn level_at(&self, c: i64) -> Level
        requires from { pos 0 ≤ℤ c }
        requires to { c ≤ℤ pos limit }
        ensures { IsLevel (cost_at self.now) c result };

    /// What completes later costs no less, up to [`LIMIT`].
    ghost law: { (cost : Self) (c e : ℕ) → IsCost cost → c ≤ e → e ≤ limit →
        cost_at cost c ≤ℤ cost_at cost e };
}

/// Lateness as a cost: the completion time minus the due date.
#[derive(Clone, Copy, Debug, PartialEq, Eq)]
pub struct Late {
    pub due: i64,
    pub ghost in_range: { IsWithin due },
}

impl Cost for Late {
    ghost use Rattle.std.specs.Prelude.{◌≡◌, ℕ, ℤ, pos, ◌-ℤ◌};
    ghost use Rattle.tf_model.specs.CostLaws.{late_law};

    ghost cost_at = { λ late c. pos c -ℤ late.due };

    ghost IsCost = { λ _. Unit {0} };

    ghost law = { λ late c e _ before _. late_law late.due c e before };

    fn value_at(&self, c: i64) -> i64 {
        c - self.due
    }

    // It is another at each time.
    fn level_at(&self, c: i64) -> Level {
        Level {
            value: self.value_at(c),
            since: c,
        }
    }
}

/// Why numbers are no step cost.
#[derive(Clone, Copy, Debug, PartialEq, Eq, Error)]
pub enum CostFault {
    /// A value is beyond the limit, or a time is negative or beyond it.
    #[error("a number of a cost is out of range")]
    OutOfRange,
    /// A time is not above the one before.
    #[error("the times of a cost do not rise")]
    TimesNotRising,
    /// A value is below the one before.
    #[error("the values of a cost fall")]
    CostFalls,
}

/// A cost that steps up with the completion time: a base, and from each step's time on that step's
/// value.
#[derive(Drop)]
pub struct StepCost<A: Allocator = Global> {
    base: i64,
    steps: Vec<(i64, i64), A>,
}

impl<A: Allocator> Model for StepCost<A> {
    ghost use Rattle.tf_model.specs.Steps.{Steps};
    ghost use Rattle.tf_model.specs.StepFaults.{IsStepCost};

    ghost Value = { Steps };

    ghost view = { λ s. record { base = s.base; steps = s.steps.items } };

    ghost invariant = { λ s. IsStepCost (record { base = s.base; steps = s.steps.items }) };
}

impl<A: Allocator> StepCost<A> {
    ghost use Rattle.std.specs.Prelude.{◌≡◌, Some, MatchResult, IfOk};
    ghost use Rattle.tf_model.specs.Steps.{no_steps};
    ghost use Rattle.tf_model.specs.StepFaults.{IsStepCost, steps_fault};

    /// The cost with this base and these steps, each a time and a value, or the first fault: the
    /// base, and then the steps in order, each for its range, its time and its value. It takes no
    /// memory.
    pub fn new(base: i64, steps: Vec<(i64, i64), A>) -> Result<Self, CostFault>
        ensures { MatchResult result
            (λ s. (s ≡ record { base = base; steps = steps.items }) × IsStepCost s)
            (λ fault. steps_fault (record { base = base; steps = steps.items }) ≡ Some fault) }
    {
        match first_fault(base, &steps) {
            Some(fault) => Err(fault),
            None => Ok(StepCost { base, steps }),
        }
    }

    /// No cost at any time.
    pub fn nothing(alloc: A) -> Self
        ensures { result ≡ no_steps }
    {
        StepCost {
            base: 0,
            steps: Vec::new(alloc),
        }
    }

    // What is known of each cost.
    pub(crate) fn is_sound(&self)
        ensures { IsStepCost self.now }
    {
        let _ = &self.base;
    }

    /// The same cost, kept elsewhere.
    pub fn copied<B: Allocator>(&self, alloc: B) -> Result<StepCost<B>, AllocError>
        ensures { IfOk result (λ copy. copy ≡ self.now × IsStepCost copy) }
    {
        Ok(StepCost {
            base: self.base,
            steps: Vec::from_slice(alloc, &self.steps)?,
        })
    }
}

impl<A: Allocator> Cost for StepCost<A> {
    ghost use Rattle.tf_model.specs.Steps.{step_value};
    ghost use Rattle.tf_model.specs.StepFaults.{IsStepCost};
    ghost use Rattle.tf_model.specs.CostLaws.{step_law};

    ghost cost_at = { step_value };

    ghost IsCost = { IsStepCost };

    ghost law = { λ s c e sound before _. step_law s c e sound before };

    fn value_at(&self, c: i64) -> i64 {
        level_of(self.base, &self.steps, c).value
    }

    // It is the same since its last step.
    fn level_at(&self, c: i64) -> Level {
        level_of(self.base, &self.steps, c)
    }
}

// The last step whose time has come, or the base: they are in order of time.
fn level_of(base: i64, steps: &[(i64, i64)], c: i64) -> Level
    requires time { pos 0 ≤ℤ c }
    requires sound { IsStepCost (record { base = base; steps = steps.now }) }
    ensures { IsLevel (step_value (record { base = base; steps = steps.now })) c result }
{
    let come = steps.partition_point(
        |step: &(i64, i64)| -> bool
            ensures { result ≡ int_le step.now.0 c }
        { step.0 <= c },
    );
    if come == 0 {
        return Level {
            value: base,
            since: 0,
        };
    }
    let step = steps[come - 1];
    Level {
        value: step.1,
        since: step.0,
    }
}

fn step_fault(time: i64, value: i64, step: &(i64, i64)) -> Option<CostFault>
    ensures { result ≡ step_fault time value step.now }
{
    if step.0 < 0 || is_beyond(step.0) || is_beyond(step.1) {
        return Some(CostFault::OutOfRange);
    }
    if step.0 <= time {
        return Some(CostFault::TimesNotRising);
    }
    if step.1 < value {
        return Some(CostFault::CostFalls);
    }
    None
}

fn first_fault(base: i64, steps: &[(i64, i64)]) -> Option<CostFault>
    ensures { result ≡ steps_fault (record { base = base; steps = steps.now }) }
{
    if is_beyond(base) {
        return Some(CostFault::OutOfRange);
    }
    let mut time: i64 = -1;
    let mut value = base;
    for step in steps {
        if let Some(fault) = step_fault(time, value, step) {
            return Some(fault);
        }
        time = step.0;
        value = step.1;
    }
    None
}
