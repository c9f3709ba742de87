//! Evaluating somebody's answer to any problem, from bytes to bytes.
ghost use Rattle.std.specs.Prelude.{◌≡◌};
ghost use Rattle.tf_text.specs.Counted.{use_of};
ghost use Rattle.tf_engine.specs.Devices.{LeavesCase};
ghost use Rattle.tf_engine.specs.Faults.{end_of};
ghost use Rattle.tf_assess.specs.RunRating.{IsRatingOf, is_solved, posed_problem};

use crate::offered::Aids;
use crate::run_assess::{AssessmentRequest, run_assess};
use std::alloc::{Allocator, Global};
use std::io::{Read, Write};
use tf_engine::fault::RunFault;
use tf_engine::request::Request;
use tf_evaluate::evaluation::{Detail, Standing};
use tf_evaluate::run_evaluate::{EvaluationRequest, run_evaluate};
use tf_model::class::class_of;
use tf_notation::reading::read;
use tf_search::effort::{Effort, Nobody};
use tf_text::counted::Counted;

/// What is asked for, and how an answer is evaluated.
#[derive(Drop)]
pub struct RatingRequest<'a, A: Allocator = Global> {
    pub request: &'a Request<A>,
    /// How much is reported of the certificate of an answer to a problem of a class.
    pub detail: Detail,
    /// The steps of the search for prices for another problem; as many as usual where there is
    /// none.
    pub steps: Option<u32>,
}

/// Evaluates an answer to a problem of a class as [`run_evaluate`] does, and assesses one to
/// another problem as [`run_assess`] does. The former takes no steps, and the latter looks at no
/// detail.
pub fn run_rate<A: Allocator + Copy, B: Allocator, R: Read, S: Read, W: Write>(
    alloc: A,
    asked: RatingRequest<'_, B>,
    instance: &mut Counted<R>,
    answer: &mut Counted<S>,
    writer: &mut Counted<W>,
) -> Result<Standing, RunFault<A>>
    ensures outcome { IsRatingOf asked.entry.detail asked.entry.request.now
        (use_of R.remaining instance.old instance.new)
        (use_of S.remaining answer.old answer.new) (use_of W.contents writer.old writer.new)
        result }
    ensures devices { LeavesCase (posed_problem asked.entry.request.now.problem) R.remaining
        instance.old instance.new S.remaining answer.old answer.new writer.old writer.new
        (end_of result) }
{
    let RatingRequest {
        request,
        detail,
        steps,
    } = asked;
    if is_solved(request.problem.as_str()) {
        let evaluated = EvaluationRequest { request, detail };
        return run_evaluate(alloc, evaluated, instance, answer, writer);
    }
    let effort: Effort<Nobody> = Effort::untold(steps);
    let aids = Aids {
        effort,
        offered: None,
    };
    let assessed = AssessmentRequest { request, aids };
    run_assess(alloc, assessed, instance, answer, writer)
}

/// Whether the problem of a line is of a class, which has a solver.
pub fn is_solved(text: &str) -> bool
    ensures { result ≡ is_solved text.now }
{
    match read(text.as_bytes()) {
        Ok(problem) => class_of(&problem).is_some(),
        Err(_) => false,
    }
}
