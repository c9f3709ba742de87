//! Plans, over whatever gives and takes bytes.
ghost use Rattle.std.specs.Prelude.{◌≡◌};
ghost use Rattle.tf_command.specs.Planning.{IsPlannedRun, as_planned};
ghost use Rattle.tf_text.specs.Counted.{use_of};

use std::alloc::Allocator;
use std::io::{Read, Write};
use tf_assess::run_rate::is_solved;
use tf_engine::fault::RunFault;
use tf_engine::request::Request;
use tf_engine::run_solve::run_solve;
use tf_planning::progress::PlanProgress;
use tf_planning::run_plan::run_plan;
use tf_planning::writing::Planned;
use tf_search::effort::{Effort, Progress};
use tf_text::counted::Counted;

/// Solves a problem that has a solver, and plans every other one with an effort.
pub fn plan_any<
    A: Allocator + Copy,
    B: Allocator,
    P: Progress + PlanProgress + Drop,
    R: Read,
    W: Write,
>(
    alloc: A,
    request: &Request<B>,
    effort: Effort<P>,
    instance: &mut Counted<R>,
    writer: &mut Counted<W>,
) -> Result<Planned, RunFault<A>>
    ensures { IsPlannedRun request.now (use_of R.remaining instance.old instance.new)
        (use_of W.contents writer.old writer.new) result }
{
    if is_solved(request.problem.as_str()) {
        return as_planned(run_solve(alloc, request, instance, writer));
    }
    run_plan(alloc, request, effort, instance, writer)
}

// What is known of the answer of a solver.
fn as_planned<A: Allocator>(run: Result<(), RunFault<A>>) -> Result<Planned, RunFault<A>>
    ensures { result ≡ as_planned run }
{
    match run {
        Ok(()) => Ok(Planned::Optimal),
        Err(fault) => Err(fault),
    }
}
