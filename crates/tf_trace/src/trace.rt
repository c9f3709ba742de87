//! The working of each class's method.
use crate::board::Board;
use crate::certificate::write_certificate;
use crate::flow_shop::write_johnson;
use crate::from_the_back::write_lawler;
use crate::open_shop::write_open_shop;
use crate::parallel::{write_shortest_first, write_wrap_around};
use crate::released::write_released;
use crate::smith::write_smith;
use std::alloc::AllocError;
use tf_check::answer::Answer;
use tf_model::class::Class;
use tf_model::ids::JobId;
use tf_model::job_rows::JobRow;
use tf_model::limit::LIMIT;
use tf_model::memory::OutOfMemory;
use tf_model::task::Task;
use tf_schedule::cost::price;

/// How the answer is found, and why none costs less.
pub(crate) fn write_trace(
    board: &mut Board,
    task: &Task,
    answer: &Answer,
) -> Result<(), OutOfMemory> {
    let pieces = answer.pieces.as_slice();
    let value = i128::from(answer.value);
    match task.class() {
        Class::WeightedSum | Class::PlainSum | Class::PrmpWeightedSum | Class::PrmpPlainSum => {
            write_smith(board, task, pieces)?;
        }
        Class::Hmax
        | Class::PrecHmax
        | Class::PrmpHmax
        | Class::PrmpPrecHmax
        | Class::Lmax
        | Class::PrecLmax
        | Class::PrmpLmax
        | Class::PrmpPrecLmax => write_lawler(board, task, pieces, value)?,
        Class::ReleaseLmax => write_released(board, task, pieces, value)?,
        Class::FlowTwo | Class::PrmpFlowTwo => write_johnson(board, task)?,
        Class::OpenTwo | Class::PrmpOpenTwo => write_open_shop(board, task, pieces, value)?,
        Class::ParallelPrmp => write_wrap_around(board, task, pieces, value)?,
        Class::ParallelSum => write_shortest_first(board, task, answer)?,
    }
    write_certificate(board, task, answer)?;
    Ok(())
}

/// Says that a problem allows preemption, if it does.
pub(crate) fn say_preemption(board: &mut Board, task: &Task) -> Result<(), AllocError> {
    if task.class().may_break() {
        board.say("Preemption is allowed, and does not help.")?;
    }
    Ok(())
}

/// What is known of a job, if it is there.
pub(crate) fn row_of(task: &Task, job: JobId) -> Option<JobRow> {
    if job.place() < task.len() {
        Some(task.job(job))
    } else {
        None
    }
}

/// What a job costs that completes at this time, where the objective is a greatest cost.
pub(crate) fn price_at(task: &Task, job: JobId, time: i64) -> i128 {
    if task.class().is_sum() || job.place() >= task.len() || !(0..=LIMIT).contains(&time) {
        return 0;
    }
    price(task, job, time)
}
