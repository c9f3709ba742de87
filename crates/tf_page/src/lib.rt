//! The program's commands for a web page: exports over bytes that lie in the module's memory.
//!
//! Each takes the numbers of a request and its texts, and gives the exit status; what it prints
//! goes into the page's buffer, standard output first and then standard error, and `lengths` says
//! how many bytes each has. A run takes its memory from a space that the page hands over, and that
//! is used for nothing else afterwards. Where the buffer is too short, nothing is put there, and
//! the page calls again with a longer one.
#![tactic(auto)]

mod arena;
mod given;

ghost use Rattle.tf_reply.specs.Commands.{Solves, Plans, Bounds, Checks, Evaluates, Draws};
ghost use Rattle.tf_reply.specs.Commands.{Pictures, Reports};
ghost use Rattle.tf_reply.specs.Replies.{IsListed};
ghost use Rattle.tf_page.specs.Given.{Given, Lent};

use crate::arena::arena_over;
use crate::given::{Lengths, give, give_memory};
use tf_reply::asking::Asking;
use tf_reply::commands::{
    bound, check, evaluate, gantt, picture, plan, problems, report_answer, solve,
};
use tf_reply::space::Space;

/// Solves an instance.
#[unsafe(no_mangle)]
pub extern "C" fn page_solve(
    space: Space,
    asking: &Asking,
    texts: &[u8],
    out: &mut [u8],
    lengths: &mut Lengths,
) -> u8
    ensures { Given (Solves Lent asking.now texts.now) out.old out.new lengths.new result }
{
    match arena_over(space) {
        Ok(arena) => give(&solve(&arena, asking, texts), out, lengths),
        Err(_) => give_memory(out, lengths),
    }
}

/// Plans an instance.
#[unsafe(no_mangle)]
pub extern "C" fn page_plan(
    space: Space,
    asking: &Asking,
    texts: &[u8],
    out: &mut [u8],
    lengths: &mut Lengths,
) -> u8
    ensures { Given (Plans Lent asking.now texts.now) out.old out.new lengths.new result }
{
    match arena_over(space) {
        Ok(arena) => give(&plan(&arena, asking, texts), out, lengths),
        Err(_) => give_memory(out, lengths),
    }
}

/// Prints a lower bound of an instance.
#[unsafe(no_mangle)]
pub extern "C" fn page_bound(
    space: Space,
    asking: &Asking,
    texts: &[u8],
    out: &mut [u8],
    lengths: &mut Lengths,
) -> u8
    ensures { Given (Bounds Lent asking.now texts.now) out.old out.new lengths.new result }
{
    match arena_over(space) {
        Ok(arena) => give(&bound(&arena, asking, texts), out, lengths),
        Err(_) => give_memory(out, lengths),
    }
}

/// Judges an answer.
#[unsafe(no_mangle)]
pub extern "C" fn page_check(
    space: Space,
    asking: &Asking,
    texts: &[u8],
    out: &mut [u8],
    lengths: &mut Lengths,
) -> u8
    ensures { Given (Checks Lent asking.now texts.now) out.old out.new lengths.new result }
{
    match arena_over(space) {
        Ok(arena) => give(&check(&arena, asking, texts), out, lengths),
        Err(_) => give_memory(out, lengths),
    }
}

/// Tells how good an answer is.
#[unsafe(no_mangle)]
pub extern "C" fn page_evaluate(
    space: Space,
    asking: &Asking,
    texts: &[u8],
    out: &mut [u8],
    lengths: &mut Lengths,
) -> u8
    ensures { Given (Evaluates Lent asking.now texts.now) out.old out.new lengths.new result }
{
    match arena_over(space) {
        Ok(arena) => give(&evaluate(&arena, asking, texts), out, lengths),
        Err(_) => give_memory(out, lengths),
    }
}

/// Solves an instance, and evaluates the answer.
#[unsafe(no_mangle)]
pub extern "C" fn page_report(
    space: Space,
    asking: &Asking,
    texts: &[u8],
    out: &mut [u8],
    lengths: &mut Lengths,
) -> u8
    ensures { Given (Reports Lent asking.now texts.now) out.old out.new lengths.new result }
{
    match arena_over(space) {
        Ok(arena) => give(&report_answer(&arena, asking, texts), out, lengths),
        Err(_) => give_memory(out, lengths),
    }
}

/// Draws an answer, which is all of the texts, as a chart.
#[unsafe(no_mangle)]
pub extern "C" fn page_gantt(
    space: Space,
    asking: &Asking,
    texts: &[u8],
    out: &mut [u8],
    lengths: &mut Lengths,
) -> u8
    ensures { Given (Draws Lent asking.now texts.now) out.old out.new lengths.new result }
{
    match arena_over(space) {
        Ok(arena) => give(&gantt(&arena, asking, texts), out, lengths),
        Err(_) => give_memory(out, lengths),
    }
}

/// Draws an answer, which is all of the texts, as a picture.
#[unsafe(no_mangle)]
pub extern "C" fn page_picture(
    space: Space,
    texts: &[u8],
    out: &mut [u8],
    lengths: &mut Lengths,
) -> u8
    ensures { Given (Pictures Lent texts.now) out.old out.new lengths.new result }
{
    match arena_over(space) {
        Ok(arena) => give(&picture(&arena, texts), out, lengths),
        Err(_) => give_memory(out, lengths),
    }
}

/// Lists the problems that are solved; with a job table, which is all of the texts, those that it
/// has the fields for.
#[unsafe(no_mangle)]
pub extern "C" fn page_problems(
    space: Space,
    texts: &[u8],
    out: &mut [u8],
    lengths: &mut Lengths,
) -> u8
    ensures { Given (IsListed Lent texts.now) out.old out.new lengths.new result }
{
    match arena_over(space) {
        Ok(arena) => give(&problems(&arena, texts), out, lengths),
        Err(_) => give_memory(out, lengths),
    }
}
