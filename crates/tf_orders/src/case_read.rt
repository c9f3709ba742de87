//! From the readers of an instance and of orders to a task and the orders' text.
ghost use Rattle.std.specs.Prelude.{◌≡◌};
ghost use Rattle.tf_orders.specs.Measuring.{is_by_optimum};
ghost use Rattle.tf_orders.specs.OrderParts.{ReadsOrderCase, ReadsOrders, ReadsPosed};

use std::alloc::{Allocator, Global};
use std::io::Read;
use tf_assess::run_rate::is_solved;
use tf_bound::task::ProblemTask;
use tf_bounding::instance_read::task_read;
use tf_engine::case::{Asked, asked_read};
use tf_engine::fault::RunFault;
use tf_engine::request::Request;
use tf_text::answer::fault::AnswerFault;
use tf_text::counted::Counted;
use tf_text::input::{InputFault, read_all};

/// The task that is asked for.
#[derive(Drop)]
pub(crate) enum Posed<A: Allocator = Global> {
    /// Of a problem of a class, which is measured by the optimum.
    Solved(Asked<A>),
    /// Of a problem that is measured by lower bounds.
    Unsolved(ProblemTask<A>),
}

/// The task that is asked for, and the text of the orders.
#[derive(Drop)]
pub(crate) struct OrderCase<A: Allocator = Global> {
    pub posed: Posed<A>,
    pub text: Vec<u8, A>,
}

/// Reads an instance and the orders to their ends. Where it is `bounded`, the schedules are
/// measured by lower bounds, also in a class.
pub(crate) fn order_case_read<A: Allocator + Copy, B: Allocator, R: Read, S: Read>(
    alloc: A,
    request: &Request<B>,
    bounded: bool,
    instance: &mut Counted<R>,
    orders: &mut Counted<S>,
) -> Result<OrderCase<A>, RunFault<A>>
    ensures { ReadsOrderCase bounded request.now R.remaining instance.old instance.new S.remaining
        orders.old orders.new result }
{
    let posed = posed_read(alloc, request, bounded, instance)?;
    let text = orders_read(alloc, orders)?;
    Ok(OrderCase { posed, text })
}

// Whether schedules for the problem of a line are measured by the optimum.
fn is_by_optimum(bounded: bool, text: &str) -> bool
    ensures { result ≡ is_by_optimum bounded text.now }
{
    if bounded {
        return false;
    }
    is_solved(text)
}

// Reads an instance to its end.
fn posed_read<A: Allocator + Copy, B: Allocator, R: Read>(
    alloc: A,
    request: &Request<B>,
    bounded: bool,
    instance: &mut Counted<R>,
) -> Result<Posed<A>, RunFault<A>>
    ensures { ReadsPosed bounded request.now R.remaining instance.old instance.new result }
{
    if is_by_optimum(bounded, request.problem.as_str()) {
        let asked = asked_read(alloc, request, instance)?;
        return Ok(Posed::Solved(asked));
    }
    let task = task_read(alloc, request, instance)?;
    Ok(Posed::Unsolved(task))
}

// Reads the text of orders to its end.
fn orders_read<A: Allocator + Copy, S: Read>(
    alloc: A,
    orders: &mut Counted<S>,
) -> Result<Vec<u8, A>, RunFault<A>>
    ensures { ReadsOrders S.remaining orders.old orders.new result }
{
    match read_all(alloc, orders) {
        Ok(text) => Ok(text),
        Err(InputFault::TooLong) => Err(RunFault::Answer(AnswerFault::TooLong)),
        Err(InputFault::Device) => Err(RunFault::Device),
        Err(InputFault::OutOfMemory) => Err(RunFault::OutOfMemory),
    }
}
