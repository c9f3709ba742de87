//! Rating the schedules of orders, from bytes to bytes.
ghost use Rattle.std.specs.Prelude.{◌≡◌, is_some};
ghost use Rattle.tf_text.specs.Counted.{use_of};
ghost use Rattle.tf_engine.specs.Devices.{LeavesBoth, LeavesCase};
ghost use Rattle.tf_engine.specs.Faults.{end_of};
ghost use Rattle.tf_engine.specs.Outputs.{MakesOutput};
ghost use Rattle.tf_engine.specs.Runs.{IsOutcome};
ghost use Rattle.tf_orders.specs.Measuring.{detail_of, measured_problem};
ghost use Rattle.tf_orders.specs.RunOrders.{orders_run};

use crate::case_read::{OrderCase, order_case_read};
use crate::measure::measured;
use crate::rating::rating_of;
use std::alloc::{Allocator, Global};
use std::io::{Read, Write};
use tf_assess::measures::PosedInstance;
use tf_assess::offered::Aids;
use tf_engine::fault::RunFault;
use tf_engine::output::{Output, write_output};
use tf_engine::request::Request;
use tf_evaluate::evaluation::{Detail, Standing};
use tf_search::effort::Progress;
use tf_sequencing::rule::Rule;
use tf_text::counted::Counted;

/// What a text of orders is, and what is written of it.
#[derive(Clone, Copy, Debug, PartialEq, Eq)]
pub enum OrderForm {
    /// It is one order. The schedule is evaluated as an answer is, except what an answer claims and
    /// that the certificate whose arithmetic may be reported is that of the optimum.
    Single(Detail),
    /// Each line that has a word and is no comment is an order. A line is written of each: the cost
    /// of the schedule and its gap to the optimum or to the lower bound, or the misfit. Of a line
    /// that is no order it is `wrong` and why, if the others are gone on with; then a line may
    /// begin with a label and a colon, which are kept, and commas divide jobs.
    Lines { goes_on: bool },
    /// The same, with the number of its line before what is written of each, and behind a line of
    /// the optimum, `best`, or of the lower bound, `bound`.
    Numbered { goes_on: bool },
    /// It isn't looked at: the order is that of a rule. The schedule is evaluated in the same way.
    Ruled(Rule, Detail),
    /// It is no order, but the pieces of a schedule, which is evaluated in the same way. The other
    /// lines of an answer may stand before and after them, and aren't looked at.
    Pieces(Detail),
}

impl OrderForm {
    // How much is reported of the certificate of the optimum.
    fn detail(self) -> Detail
        ensures { result ≡ detail_of self }
    {
        match self {
            OrderForm::Single(detail) | OrderForm::Ruled(_, detail) | OrderForm::Pieces(detail) => {
                detail
            }
            OrderForm::Lines { .. } | OrderForm::Numbered { .. } => Detail::Summary,
        }
    }
}

/// What is asked for, and what the text of orders is.
#[derive(Drop)]
pub struct OrdersRequest<'a, A: Allocator = Global> {
    pub request: &'a Request<A>,
    pub form: OrderForm,
}

/// What schedules are measured by.
#[derive(Drop)]
pub struct Measuring<P, A: Allocator = Global> {
    /// What the search for a lower bound goes by. Where a bound is offered, the schedules are
    /// measured by lower bounds, also where the problem has a solver.
    pub aids: Aids<P, A>,
    /// The instance that gives the other objectives, where these are asked for.
    pub others: Option<PosedInstance<A>>,
}

/// What was written of orders.
#[derive(Clone, Copy, Debug, Drop, PartialEq, Eq)]
pub enum OrdersRated {
    /// The evaluation of one order, whose schedule comes to this.
    Single(Standing),
    /// A line for each order.
    Lines,
}

/// Reads an instance and the text of orders or pieces to their ends, and writes how good the
/// schedule of the pieces is, or the semi-active schedules of the orders. The task is solved, or a
/// lower bound of it is searched for, once; where a bound is offered, that is judged and taken if
/// it is stronger. Where an instance is given for the other objectives, the values of each schedule
/// that fits by these are written too: in an evaluation a line `measure NAME VALUE` for each that
/// it has, and in the line of an order nine words, or `-` where there is none.
///
/// The refusals come in this order: those of [`tf_engine::run_solve::run_solve`], where a problem
/// of no class, and with a bound any problem, is refused only if no kind of certificate bounds it;
/// reading the orders; a cycle of the arcs; and the first line that is no order, as
/// [`tf_text::answer::fault::AnswerFault::BadLine`], unless the others are gone on with, or the
/// first fault of the pieces. After a refusal nothing was written, unless it is
/// [`RunFault::Device`], after which a prefix may have been.
pub fn run_orders<
    A: Allocator + Copy,
    B: Allocator,
    P: Progress + Drop,
    R: Read,
    S: Read,
    W: Write,
>(
    alloc: A,
    asked: OrdersRequest<'_, B>,
    measuring: Measuring<P, A>,
    instance: &mut Counted<R>,
    orders: &mut Counted<S>,
    writer: &mut Counted<W>,
) -> Result<OrdersRated, RunFault<A>>
    ensures outcome { IsOutcome (orders_run A asked.entry.form measuring.aids.offered
        asked.entry.request.now measuring.others
        (use_of R.remaining instance.old instance.new)
        (use_of S.remaining orders.old orders.new)) (use_of W.contents writer.old writer.new)
        result }
    ensures devices { LeavesCase
        (measured_problem (is_some measuring.aids.offered) asked.entry.request.now.problem)
        R.remaining instance.old instance.new S.remaining orders.old orders.new writer.old
        writer.new (end_of result) }
{
    write_output(
        writer,
        orders_output(alloc, asked, measuring, instance, orders),
    )
}

// What is written of the orders, and what they come to.
fn orders_output<A: Allocator + Copy, B: Allocator, P: Progress + Drop, R: Read, S: Read>(
    alloc: A,
    asked: OrdersRequest<'_, B>,
    measuring: Measuring<P, A>,
    instance: &mut Counted<R>,
    orders: &mut Counted<S>,
) -> Result<Output<OrdersRated, A>, RunFault<A>>
    ensures { MakesOutput (orders_run A asked.entry.form measuring.aids.offered
        asked.entry.request.now measuring.others
        (use_of R.remaining instance.old instance.new)
        (use_of S.remaining orders.old orders.new))
        (LeavesBoth
        (measured_problem (is_some measuring.aids.offered) asked.entry.request.now.problem)
        R.remaining instance.old instance.new S.remaining orders.old orders.new) result }
{
    let Measuring { aids, others } = measuring;
    let bounded = aids.offered.is_some();
    let case = order_case_read(alloc, asked.request, bounded, instance, orders)?;
    let OrderCase { posed, text } = case;
    let measure = measured(alloc, posed, aids, asked.form.detail())?;
    let measure = measure.with_others(others);
    rating_of(alloc, asked.form, measure, text.as_slice())
}
