//! What the cost of a schedule is held against.
use crate::evaluation::Standing;
use crate::step::Step;
use crate::writing::{push_bound, push_gap, push_steps};
use std::alloc::{Allocator, Global};
use std::marker::Model;
use tf_check::fault::BoundFault;
use tf_model::memory::OutOfMemory;
use tf_text::answer::writing::push_number_line;

/// What a cost is held against: the least cost of a timetable that fits, or a lower bound of it.
pub trait Reference {
    ghost use Rattle.std.specs.Prelude.{◌≡◌, ◌++◌, ℕ, ℤ, List, Option, OnOk};
    ghost use Rattle.std.specs.List.{flat_map};
    ghost use Rattle.tf_text.specs.AnswerText.{line_text};
    ghost use Rattle.tf_evaluate.specs.declared.evaluation.Standing.{Standing};

    /// What a schedule that fits comes to by its cost, where that is known.
    ghost rated: { Self → Option ℤ → Standing };

    /// The lines on it behind that of a cost.
    ghost lines: { Self → Option ℤ → List (List (List ℕ)) };

    /// What a schedule that fits comes to, which costs this.
    fn standing(&self, value: Option<i128>) -> Standing
        ensures { result ≡ rated self.now value };

    /// Adds its lines behind that of a cost.
    fn push<A: Allocator>(
        &self,
        text: &mut Vec<u8, A>,
        value: Option<i128>,
    ) -> Result<(), OutOfMemory>
        ensures { OnOk result
            (text.new.items ≡ text.old.items ++ flat_map line_text (lines self.now value)) };
}

/// The least cost of a timetable that fits, and what a certificate says of it.
#[derive(Drop)]
pub struct Optimum<A: Allocator = Global> {
    pub best: i64,
    /// What the answer's certificate bounds, or its first fault; `None` for an answer to another
    /// task and for a schedule without a certificate.
    pub bound: Option<Result<i128, BoundFault>>,
    /// The arithmetic of a certificate, which ends in its bound: of the answer's, or of one that
    /// shows the optimum. None where it isn't asked for or the certificate has no bound.
    pub steps: Vec<Step, A>,
}

impl<A: Allocator> Model for Optimum<A> {
    ghost use Rattle.tf_evaluate.specs.EvaluationData.{OptimumData};

    ghost Value = { OptimumData };

    ghost view = { λ o. record { best = o.best; bound = o.bound; steps = o.steps.items } };
}

impl<M: Allocator> Reference for Optimum<M> {
    ghost use Rattle.tf_evaluate.specs.EvaluationData.{rated_by_best};
    ghost use Rattle.tf_evaluate.specs.EvaluationText.{optimum_lines};

    ghost rated = { λ o value. rated_by_best o.best value };

    ghost lines = { optimum_lines };

    fn standing(&self, value: Option<i128>) -> Standing {
        match value {
            Some(value) if value <= i128::from(self.best) => Standing::Best,
            Some(_) => Standing::Beaten,
            None => Standing::Unproved,
        }
    }

    fn push<A: Allocator>(
        &self,
        text: &mut Vec<u8, A>,
        value: Option<i128>,
    ) -> Result<(), OutOfMemory> {
        push_number_line(text, b"best", self.best)?;
        push_gap(text, value, i128::from(self.best))?;
        push_bound(text, &self.bound)?;
        push_steps(text, self.steps.as_slice())?;
        Ok(())
    }
}
