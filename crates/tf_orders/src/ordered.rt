//! Tasks whose jobs an order says.
ghost use Rattle.std.specs.Prelude.{◌≡◌};
ghost use Rattle.tf_model.specs.SchedulingTask.{IsJob};
ghost use Rattle.tf_model.specs.Sound.{IsSound};
ghost use Rattle.tf_posed.specs.Agreement.{posed};
ghost use Rattle.tf_posed.specs.ProblemData.{problem_due};

use crate::laying::Laying;
use crate::order::Turn;
use std::alloc::Allocator;
use tf_bound::task::ProblemTask;
use tf_model::ids::JobId;
use tf_model::memory::OutOfMemory;
use tf_model::problem::Env;
use tf_model::task::Task;
use tf_schedule::asks::Asks;
use tf_sequencing::ruled_job::RuledJob;

/// A task whose jobs are laid in an order, read as the task of its problem.
pub(crate) trait Ordered: Asks {
    ghost use Rattle.std.specs.Prelude.{◌≡◌, ◌≤◌, length, IfOk};
    ghost use Rattle.tf_model.specs.Limit.{most_machines};
    ghost use Rattle.tf_posed.specs.ProblemData.{IsProblemJob};
    ghost use Rattle.tf_orders.specs.Laying.{orders_of, with_turn_of};
    ghost use Rattle.tf_orders.specs.Orders.{IsTurn};
    ghost use Rattle.tf_orders.specs.Ruled.{IsSeen};

    /// How many machines have an order of their own: all, or in a shop one.
    fn orders(&self) -> u32
        ensures value { result ≡ orders_of (Self.posed self.now) }
        ensures few { (1 ≤ result) × (result ≤ (Self.posed self.now).machines) }
        ensures most { result ≤ most_machines };

    /// What a rule sees of a job.
    fn seen(&self, job: JobId) -> RuledJob
        requires { IsProblemJob (Self.posed self.now) job }
        ensures job { result.job ≡ job }
        ensures seen { IsSeen (Self.posed self.now) result };

    /// Adds the job of a turn. Only want of memory is an error.
    fn add_turn<A: Allocator + Copy>(
        &self,
        laying: &mut Laying<A>,
        turn: Turn,
    ) -> Result<(), OutOfMemory>
        requires turn { IsTurn (length (Self.posed self.now).jobs) (orders_of (Self.posed self.now))
            turn }
        requires machines { laying.old.machines ≡ (Self.posed self.now).machines }
        ensures pieces { IfOk result (λ _.
            laying.new.pieces ≡ with_turn_of (Self.posed self.now) laying.old.pieces turn) }
        ensures machines { laying.new.machines ≡ laying.old.machines };
}

impl<B: Allocator> Ordered for Task<B> {
    fn orders(&self) -> u32 {
        if self.class().is_shop() {
            1
        } else {
            self.machines()
        }
    }

    fn seen(&self, job: JobId) -> RuledJob {
        let row = self.job(job);
        RuledJob {
            job,
            time: self.time(job).max(1),
            weight: row.weight,
            release: row.release,
            due: due_of(self, job),
        }
    }

    fn add_turn<A: Allocator + Copy>(
        &self,
        laying: &mut Laying<A>,
        turn: Turn,
    ) -> Result<(), OutOfMemory> {
        let row = self.job(turn.job);
        if self.class().is_shop() {
            let times = [row.first, row.second];
            laying.add_job(turn.job, turn.machine, row.release, &times)
        } else {
            laying.add_job(turn.job, turn.machine, row.release, &[row.first])
        }
    }
}

// The due date of a job of a class, 0 where it has none.
fn due_of<B: Allocator>(task: &Task<B>, job: JobId) -> i64
    requires { IsJob task.now job }
    ensures due { result ≡ problem_due (posed task.now) job }
    ensures sound { IsSound task.now }
{
    if task.class().is_due() {
        task.due(job)
    } else {
        0
    }
}

impl<B: Allocator> Ordered for ProblemTask<B> {
    fn orders(&self) -> u32 {
        if self.problem().env.is_shop() {
            1
        } else {
            self.machines()
        }
    }

    fn seen(&self, job: JobId) -> RuledJob {
        RuledJob {
            job,
            time: self.work(job).max(1),
            weight: self.weight(job),
            release: self.release(job),
            due: self.due(job),
        }
    }

    fn add_turn<A: Allocator + Copy>(
        &self,
        laying: &mut Laying<A>,
        turn: Turn,
    ) -> Result<(), OutOfMemory> {
        let release = self.release(turn.job);
        let times = self.times(turn.job);
        if matches!(self.problem().env, Env::JobShop) {
            laying.add_route(turn.job, release, times, self.route(turn.job))
        } else {
            laying.add_job(turn.job, turn.machine, release, times)
        }
    }
}
