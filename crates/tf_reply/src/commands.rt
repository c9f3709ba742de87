//! The commands, over texts in memory.
ghost use Rattle.std.specs.Prelude.{◌≡◌, ◌++◌, IfOk, string_bytes};
ghost use Rattle.tf_text.specs.Counted.{inner_of};
ghost use Rattle.tf_asked.specs.Asking.{requested};
ghost use Rattle.tf_asked.specs.Columns.{HasWidth};
ghost use Rattle.tf_command.specs.Ending.{EndsSolving, EndsBounding, EndsChecking, EndsEvaluating};
ghost use Rattle.tf_command.specs.Ending.{EndsDrawing};
ghost use Rattle.tf_command.specs.Planning.{EndsPlanning};
ghost use Rattle.tf_reply.specs.Commands.{Solves, Plans, Bounds, Checks, Evaluates, Draws};
ghost use Rattle.tf_reply.specs.Commands.{Pictures, Reports};
ghost use Rattle.tf_reply.specs.Replies.{printed, said, Replies, IsOver, IsOverBoth, IsListed};
ghost use Rattle.tf_reply.specs.Replies.{EndsReport};

use crate::asking::{Asked, Asking};
use crate::reply::{Console, Reply, misused};
use crate::reserve::Reserve;
use std::alloc::{AllocError, Allocator};
use tf_asked::options::{Drawing, Options};
use tf_assess::run_rate::{RatingRequest, run_rate};
use tf_bounding::run_bound::run_bound;
use tf_command::commands::draw;
use tf_command::ending::end_run;
use tf_command::planning::plan_any;
use tf_command::problems::table_in;
use tf_command::report::{report, say_device};
use tf_engine::run_check::run_check;
use tf_engine::run_solve::run_solve;
use tf_evaluate::evaluation::Detail;
use tf_listing::listing::{Listed, listing};
use tf_model::instance::Instance;
use tf_picture::view::View;
use tf_search::effort::{Effort, Nobody};
use tf_text::answer::layout::Layout;
use tf_text::counted::Counted;

/// Solves an instance.
pub fn solve<A: Allocator + Copy>(
    alloc: A,
    asking: &Asking,
    texts: &[u8],
) -> Result<Reply<A>, AllocError>
    ensures { IfOk result (Replies (Solves A asking.now texts.now)) }
{
    match asking.read(texts) {
        Ok(asked) => solved(alloc, &asked.options, asking.layout(), asked.instance),
        Err(text) => misused(alloc, text),
    }
}

#[tactic(auto, using(crate::proofs::Said::whole))]
fn solved<A: Allocator + Copy>(
    alloc: A,
    options: &Options<'_>,
    layout: Layout,
    instance: &[u8],
) -> Result<Reply<A>, AllocError>
    ensures { IfOk result (Replies (IsOver (EndsSolving A (requested options.now layout))
        instance.now)) }
{
    let request = options.request(alloc, layout)?;
    let mut instance = Counted::new(instance);
    let mut console = Console::new(alloc);
    let run = run_solve(alloc, &request, &mut instance, &mut console.output);
    let status = end_run(&run, &mut console.errors);
    console.ended(status)
}

/// Plans an instance.
pub fn plan<A: Allocator + Copy>(
    alloc: A,
    asking: &Asking,
    texts: &[u8],
) -> Result<Reply<A>, AllocError>
    ensures { IfOk result (Replies (Plans A asking.now texts.now)) }
{
    match (asking.read(texts), asking.price_steps()) {
        (Ok(asked), Ok(steps)) => planned(alloc, &asked.options, steps, asked.instance),
        (Err(text), _) | (_, Err(text)) => misused(alloc, text),
    }
}

#[tactic(auto, using(crate::proofs::Said::whole))]
fn planned<A: Allocator + Copy>(
    alloc: A,
    options: &Options<'_>,
    steps: Option<u32>,
    instance: &[u8],
) -> Result<Reply<A>, AllocError>
    ensures { IfOk result (Replies (IsOver (EndsPlanning A (requested options.now Layout.Two))
        instance.now)) }
{
    let request = options.request(alloc, Layout::Two)?;
    let mut instance = Counted::new(instance);
    let mut console = Console::new(alloc);
    let effort: Effort<Nobody> = Effort::untold(steps);
    let run = plan_any(alloc, &request, effort, &mut instance, &mut console.output);
    let status = end_run(&run, &mut console.errors);
    console.ended(status)
}

/// Prints a lower bound.
pub fn bound<A: Allocator + Copy>(
    alloc: A,
    asking: &Asking,
    texts: &[u8],
) -> Result<Reply<A>, AllocError>
    ensures { IfOk result (Replies (Bounds A asking.now texts.now)) }
{
    match (asking.read(texts), asking.price_steps()) {
        (Ok(asked), Ok(steps)) => bounded(alloc, &asked.options, steps, asked.instance),
        (Err(text), _) | (_, Err(text)) => misused(alloc, text),
    }
}

#[tactic(auto, using(crate::proofs::Said::whole))]
fn bounded<A: Allocator + Copy>(
    alloc: A,
    options: &Options<'_>,
    steps: Option<u32>,
    instance: &[u8],
) -> Result<Reply<A>, AllocError>
    ensures { IfOk result (Replies (IsOver (EndsBounding A (requested options.now Layout.Two))
        instance.now)) }
{
    let request = options.request(alloc, Layout::Two)?;
    let mut instance = Counted::new(instance);
    let mut console = Console::new(alloc);
    let effort: Effort<Nobody> = Effort::untold(steps);
    let run = run_bound(alloc, &request, effort, &mut instance, &mut console.output);
    let status = end_run(&run, &mut console.errors);
    console.ended(status)
}

/// Judges an answer.
pub fn check<A: Allocator + Copy>(
    alloc: A,
    asking: &Asking,
    texts: &[u8],
) -> Result<Reply<A>, AllocError>
    ensures { IfOk result (Replies (Checks A asking.now texts.now)) }
{
    match asking.read(texts) {
        Ok(asked) => checked(alloc, &asked),
        Err(text) => misused(alloc, text),
    }
}

#[tactic(auto, using(crate::proofs::Said::whole))]
fn checked<A: Allocator + Copy>(alloc: A, asked: &Asked<'_>) -> Result<Reply<A>, AllocError>
    ensures { IfOk result (Replies (IsOverBoth
        (EndsChecking A (requested asked.now.options Layout.Two))
        asked.now.instance.now asked.now.answer.now)) }
{
    let request = asked.options.request(alloc, Layout::Two)?;
    let mut instance = Counted::new(asked.instance);
    let mut answer = Counted::new(asked.answer);
    let mut console = Console::new(alloc);
    let output = &mut console.output;
    let run = run_check(alloc, &request, &mut instance, &mut answer, output);
    let status = end_run(&run, &mut console.errors);
    console.ended(status)
}

/// Tells how good an answer is.
pub fn evaluate<A: Allocator + Copy>(
    alloc: A,
    asking: &Asking,
    texts: &[u8],
) -> Result<Reply<A>, AllocError>
    ensures { IfOk result (Replies (Evaluates A asking.now texts.now)) }
{
    match asking.read(texts) {
        Ok(asked) => {
            let Asked {
                options,
                instance,
                answer,
            } = asked;
            evaluated(alloc, asking.detail(), &options, instance, answer)
        }
        Err(text) => misused(alloc, text),
    }
}

fn evaluated<A: Allocator + Copy>(
    alloc: A,
    detail: Detail,
    options: &Options<'_>,
    instance: &[u8],
    answer: &[u8],
) -> Result<Reply<A>, AllocError>
    ensures { IfOk result (Replies (IsOverBoth
        (EndsEvaluating A detail (requested options.now Layout.Two)) instance.now answer.now)) }
{
    let request = options.request(alloc, Layout::Two)?;
    let mut instance = Counted::new(instance);
    let mut answer = Counted::new(answer);
    let mut console = Console::new(alloc);
    let output = &mut console.output;
    let rating = RatingRequest {
        request: &request,
        detail,
        steps: None,
    };
    let run = run_rate(alloc, rating, &mut instance, &mut answer, output);
    let status = end_run(&run, &mut console.errors);
    console.ended(status)
}

/// Solves an instance, and evaluates the answer: prints it, and behind it the evaluation.
pub fn report_answer<A: Allocator + Copy>(
    alloc: A,
    asking: &Asking,
    texts: &[u8],
) -> Result<Reply<A>, AllocError>
    ensures { IfOk result (Replies (Reports A asking.now texts.now)) }
{
    match asking.read(texts) {
        Ok(asked) => reported(alloc, asking.layout(), asking.detail(), &asked),
        Err(text) => misused(alloc, text),
    }
}

fn reported<A: Allocator + Copy>(
    alloc: A,
    layout: Layout,
    detail: Detail,
    asked: &Asked<'_>,
) -> Result<Reply<A>, AllocError>
    ensures { IfOk result (Replies (EndsReport
        (EndsSolving A (requested asked.now.options layout))
        (EndsEvaluating A detail (requested asked.now.options Layout.Two))
        asked.now.instance.now)) }
{
    let reply = solved(alloc, &asked.options, layout, asked.instance)?;
    if reply.status != 0 {
        return Ok(reply);
    }
    let answer = reply.console.output.inner().as_slice();
    let evaluation = evaluated(alloc, detail, &asked.options, asked.instance, answer)?;
    behind(reply, evaluation)
}

// A reply with what another one prints behind what it printed, and else as that one is.
fn behind<A: Allocator + Copy>(first: Reply<A>, second: Reply<A>) -> Result<Reply<A>, AllocError>
    ensures { IfOk result (λ r. (printed r ≡ printed first ++ printed second)
        × (said r ≡ said second) × (r.status ≡ second.status)) }
{
    let Reply { console, .. } = first;
    let Console { mut output, .. } = console;
    let Reply { status, console } = second;
    match output.push_all(console.output.inner().as_slice()) {
        Ok(()) => Ok(Reply {
            status,
            console: Console {
                output,
                errors: console.errors,
            },
        }),
        Err(_) => Err(AllocError),
    }
}

/// Draws an answer as a chart.
pub fn gantt<A: Allocator + Copy>(
    alloc: A,
    asking: &Asking,
    answer: &[u8],
) -> Result<Reply<A>, AllocError>
    ensures { IfOk result (Replies (Draws A asking.now answer.now)) }
{
    match asking.chart_columns() {
        Ok(columns) => drawn(alloc, Drawing::Chart { columns }, answer),
        Err(text) => misused(alloc, text),
    }
}

/// Draws an answer as a picture.
pub fn picture<A: Allocator + Copy>(alloc: A, answer: &[u8]) -> Result<Reply<A>, AllocError>
    ensures { IfOk result (Replies (Pictures A answer.now)) }
{
    drawn(alloc, Drawing::Picture(View::whole()), answer)
}

#[tactic(auto, using(crate::proofs::Said::whole))]
fn drawn<A: Allocator + Copy>(
    alloc: A,
    drawing: Drawing,
    answer: &[u8],
) -> Result<Reply<A>, AllocError>
    requires { HasWidth drawing }
    ensures { IfOk result (Replies (IsOver (EndsDrawing A drawing) answer.now)) }
{
    let mut answer = Counted::new(answer);
    let mut console = Console::new(alloc);
    let run = draw(alloc, drawing, &mut answer, &mut console.output);
    let status = end_run(&run, &mut console.errors);
    console.ended(status)
}

/// Lists the problems that are solved; where there is a job table, those that it has the fields
/// for.
pub fn problems<A: Allocator + Copy>(alloc: A, table: &[u8]) -> Result<Reply<A>, AllocError>
    ensures { IfOk result (Replies (IsListed A table.now)) }
{
    let mut console = Console::new(alloc);
    if table.is_empty() {
        let list = listing(alloc, Listed::Solved, None::<&Instance<Reserve>>)?;
        return listed(console, &list);
    }
    let mut table = Counted::new(table);
    match table_in(alloc, &mut table) {
        Ok(instance) => listed(console, &listing(alloc, Listed::Solved, Some(&instance))?),
        Err(fault) => {
            let status = report(&fault, &mut console.errors);
            console.ended(status)
        }
    }
}

// Prints a list of problems.
fn listed<A: Allocator + Copy>(
    mut console: Console<A>,
    list: &String<A>,
) -> Result<Reply<A>, AllocError>
    ensures status { IfOk result (λ r. r.status ≡ 0) }
    ensures said { IfOk result (λ r. said r ≡ (inner_of console.errors).items) }
    ensures list { IfOk result
        (λ r. printed r ≡ (inner_of console.output).items ++ string_bytes list.now) }
{
    let status = match console.output.push_all(list.as_bytes()) {
        Ok(()) => 0,
        Err(_) => say_device(&mut console.errors),
    };
    console.ended(status)
}
