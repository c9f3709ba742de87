//! What a list says of a problem.
ghost use Rattle.std.specs.Prelude.{◌≡◌, IfOk, string_bytes};
ghost use Rattle.tf_listing.specs.Listing.{needs, part, meaning, environment, machines, breaks};

use crate::fields::{uses_cost, uses_weight};
use std::alloc::{AllocError, Allocator};
use tf_model::problem::{Env, Goal, Problem};
use tf_prepare::prepare::uses_due;

/// What a problem needs of an instance.
///
/// # Errors
///
/// There was no memory.
pub(crate) fn needs_of<A: Allocator>(alloc: A, problem: &Problem) -> Result<String<A>, AllocError>
    ensures { IfOk result (λ text. string_bytes text ≡ needs problem.now) }
{
    let times = match problem.env {
        Env::JobShop => "p=A@I",
        _ if problem.env.is_shop() => "p=A,B",
        _ => "p=",
    };
    let mut text = String::from_str(alloc, times)?;
    text.push_str(part(uses_weight(problem.goal), " w="))?;
    text.push_str(part(problem.release, " r="))?;
    text.push_str(part(uses_due(problem.goal), " d="))?;
    text.push_str(part(uses_cost(problem.goal), " h="))?;
    text.push_str(part(problem.prec, ", arcs"))?;
    Ok(text)
}

// The text, or nothing.
fn part(is_there: bool, text: &'static str) -> &'static str
    ensures { result.now ≡ part is_there text.now }
{
    if is_there { text } else { "" }
}

/// What is least.
pub(crate) fn meaning_of(goal: Goal) -> &'static str
    ensures { result.now ≡ meaning goal }
{
    match goal {
        Goal::Cmax => "makespan",
        Goal::Lmax => "maximum lateness",
        Goal::Hmax => "maximum cost",
        Goal::SumC => "sum of completion times",
        Goal::SumWC => "weighted completion times",
        Goal::SumT => "total tardiness",
        Goal::SumWT => "weighted tardiness",
        Goal::SumU => "number of late jobs",
        Goal::SumWU => "weighted number of late jobs",
    }
}

/// Where the work is done.
pub(crate) fn environment_of(env: Env) -> &'static str
    ensures { result.now ≡ environment env }
{
    match env {
        Env::Single => "1 machine",
        Env::Parallel => "M machines in parallel",
        Env::Uniform => "M machines of different speeds",
        Env::Unrelated => "M unrelated machines",
        Env::Flow => "flow shop",
        Env::OpenShop => "open shop",
        Env::JobShop => "job shop",
    }
}

/// The number of machines of a shop, where the problem names two.
pub(crate) fn machines_of(count: Option<u32>) -> &'static str
    ensures { result.now ≡ machines count }
{
    match count {
        Some(2) => " of 2 machines",
        _ => "",
    }
}

/// Whether a job may be preempted.
pub(crate) fn breaks_of(problem: &Problem) -> &'static str
    ensures { result.now ≡ breaks problem.now }
{
    part(problem.prmp, ", preemptive")
}
