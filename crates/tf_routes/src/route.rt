//! The route of a job.
ghost use Rattle.std.specs.Prelude.{◌≡◌};

use std::alloc::{Allocator, Global};
use std::marker::Model;

/// A step of a job's route.
#[derive(Clone, Copy, Debug, PartialEq, Eq)]
pub struct Step {
    /// The machine, counted from 0.
    pub machine: u32,
    /// The processing time there, in time steps.
    pub time: u64,
}

/// The steps of a job, in their order.
#[derive(Drop)]
pub struct Route<A: Allocator = Global> {
    steps: Vec<Step, A>,
}

impl<A: Allocator> Model for Route<A> {
    ghost use Rattle.std.specs.Prelude.{List};
    ghost use Rattle.tf_routes.specs.declared.route.Step.{Step};

    ghost Value = { List Step };

    ghost view = { λ r. r.steps.items };
}

impl<A: Allocator> Route<A> {
    /// The route of these steps. It takes no memory.
    pub fn new(steps: Vec<Step, A>) -> Self
        ensures { result ≡ steps.items }
    {
        Route { steps }
    }

    /// The steps in their order.
    pub fn as_slice(&self) -> &[Step]
        ensures { result.now ≡ self.now }
    {
        self.steps.as_slice()
    }
}
