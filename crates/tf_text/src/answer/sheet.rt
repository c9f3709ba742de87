//! Sheets: an answer with the problem and the sizes that it is for.
ghost use Rattle.std.specs.Prelude.{◌≡◌};

use std::alloc::{Allocator, Global};
use std::marker::Model;
use tf_check::answer::Answer;
use tf_model::problem::Problem;

/// What an answer text says.
#[derive(Drop)]
pub struct Sheet<A: Allocator = Global> {
    pub problem: Problem,
    /// The number of jobs.
    pub jobs: u32,
    /// The number of machines.
    pub machines: u32,
    pub answer: Answer<A>,
}

impl<A: Allocator> Model for Sheet<A> {
    ghost use Rattle.tf_text.specs.AnswerText.{SheetData};

    ghost Value = { SheetData };

    ghost view = { λ s. record {
      problem = s.problem;
      jobs = s.jobs;
      machines = s.machines;
      answer = s.answer;
    } };
}

impl<A: Allocator> Sheet<A> {
    /// The answer, without what it is for.
    pub fn into_answer(self) -> Answer<A>
        ensures { result ≡ self.answer }
    {
        let Sheet { answer, .. } = self;
        answer
    }
}
