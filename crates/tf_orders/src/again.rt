//! The schedules of orders that were rated, made again so that they can be explained.
ghost use Rattle.std.specs.Prelude.{◌≤◌, length};
ghost use Rattle.tf_model.specs.Limit.{most_bytes};

use crate::case_read::{OrderCase, Posed, order_case_read};
use crate::ordered::Ordered;
use crate::pieces::pieces_in;
use crate::ruled::ruled_by;
use crate::run_orders::{OrderForm, OrdersRequest};
use crate::schedules::{laid, problem_scheduled};
use std::alloc::Global;
use tf_model::limit::MOST_BYTES;
use tf_schedule::piece::Piece;
use tf_text::counted::Counted;

/// The pieces of the one schedule that a run over these texts evaluates, beside a bound that is
/// offered where it is `bounded`, where it does and there is memory for them.
pub fn pieces_again(
    alloc: Global,
    asked: OrdersRequest<'_>,
    bounded: bool,
    instance: &[u8],
    orders: &[u8],
) -> Option<Vec<Piece>> {
    let mut instance = Counted::new(instance);
    let mut orders = Counted::new(orders);
    let case = order_case_read(alloc, asked.request, bounded, &mut instance, &mut orders).ok()?;
    let OrderCase { posed, text } = case;
    if text.len() > MOST_BYTES {
        return None;
    }
    match (posed, asked.form) {
        (Posed::Unsolved(task), OrderForm::Single(_)) => {
            problem_scheduled(alloc, &task, &text).ok().flatten()
        }
        (Posed::Unsolved(task), form) => pieces_by(alloc, &task, form, &text),
        (Posed::Solved(asked), form) => pieces_by(alloc, &asked.task, form, &text),
    }
}

fn pieces_by<T: Ordered>(
    alloc: Global,
    task: &T,
    form: OrderForm,
    text: &[u8],
) -> Option<Vec<Piece>>
    requires { length text.now ≤ most_bytes }
{
    match form {
        OrderForm::Single(_) => laid(alloc, task, text).ok().flatten(),
        OrderForm::Ruled(rule, _) => ruled_by(alloc, task, rule).ok(),
        OrderForm::Pieces(_) => pieces_in(alloc, text).ok(),
        OrderForm::Lines { .. } | OrderForm::Numbered { .. } => None,
    }
}
