//! Schedules of the orders that rules give.
ghost use Rattle.std.specs.Prelude.{◌≡◌, length, IfOk};
ghost use Rattle.std.specs.List.{All};
ghost use Rattle.tf_posed.specs.ProblemData.{IsProblemJob};
ghost use Rattle.tf_orders.specs.Laying.{orders_of, schedule_of};
ghost use Rattle.tf_orders.specs.Ruled.{AreFirstSeen, IsListedSchedule, IsRuled, IsRuledBy};
ghost use Rattle.tf_orders.specs.Ruled.{numbers_of};

use crate::laying::Laying;
use crate::measure::Measure;
use crate::order::Turn;
use crate::ordered::Ordered;
use std::alloc::Allocator;
use tf_model::ids::JobId;
use tf_model::memory::OutOfMemory;
use tf_schedule::piece::Piece;
use tf_sequencing::rule::{Rule, sort_by_rule};
use tf_sequencing::ruled_job::RuledJob;

/// The schedule of the order that a rule gives: on machines in parallel each job goes to the
/// machine that is free first. Only want of memory is an error.
pub(crate) fn ruled<A: Allocator + Copy, B: Allocator>(
    alloc: A,
    measure: &Measure<B>,
    rule: Rule,
) -> Result<Vec<Piece, A>, OutOfMemory>
    ensures { IfOk result (λ pieces. IsRuled rule measure.now pieces.items) }
{
    match measure {
        Measure::Optimum { task, .. } => ruled_by(alloc, task, rule),
        Measure::Bound { task, .. } => ruled_by(alloc, task, rule),
    }
}

/// The same of a task.
pub(crate) fn ruled_by<A: Allocator + Copy, T: Ordered>(
    alloc: A,
    task: &T,
    rule: Rule,
) -> Result<Vec<Piece, A>, OutOfMemory>
    ensures { IfOk result (λ pieces. IsRuledBy (T.posed task.now) rule pieces.items) }
{
    let mut jobs = seen_jobs(alloc, task)?;
    sort_by_rule(rule, &mut jobs);
    let pieces = listed_schedule(alloc, task, &jobs)?;
    Ok(pieces)
}

// All jobs, by number.
fn seen_jobs<A: Allocator, T: Ordered>(alloc: A, task: &T) -> Result<Vec<RuledJob, A>, OutOfMemory>
    ensures { IfOk result (λ jobs. AreFirstSeen (T.posed task.now) (length (T.posed task.now).jobs)
        jobs.items) }
{
    let mut jobs = Vec::with_capacity(alloc, task.len())?;
    for k in 0..task.len() {
        jobs.push(task.seen(JobId::at(k)))?;
    }
    Ok(jobs)
}

// The jobs in this order, each on the machine that is free first.
fn listed_schedule<A: Allocator + Copy, T: Ordered>(
    alloc: A,
    task: &T,
    jobs: &[RuledJob],
) -> Result<Vec<Piece, A>, OutOfMemory>
    requires { All (λ x. IsProblemJob (T.posed task.now) x.job) jobs.now }
    ensures { IfOk result (λ pieces. IsListedSchedule (schedule_of (T.posed task.now))
        (orders_of (T.posed task.now)) (numbers_of jobs.now) pieces.items) }
{
    let mut laying = Laying::new(alloc, jobs.len(), task.machines() as usize)?;
    for seen in jobs {
        let machine = laying.first_free(task.orders());
        let turn = Turn {
            job: seen.job,
            machine,
        };
        task.add_turn(&mut laying, turn)?;
    }
    Ok(laying.into_pieces())
}
