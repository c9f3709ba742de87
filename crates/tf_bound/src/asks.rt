//! The task of a problem, as schedules are judged by it.
ghost use Rattle.std.specs.Prelude.{◌≡◌, ◌||◌};
ghost use Rattle.tf_model.specs.ClassTable.{is_flow_env};
ghost use Rattle.tf_posed.specs.ProblemData.{is_job_shop};

use crate::task::{ProblemTask, is_job_shop};
use std::alloc::Allocator;
use tf_model::ids::JobId;
use tf_model::problem::{Env, Problem};
use tf_schedule::asks::Asks;

// Whether the jobs have routes.
fn is_routed(env: Env) -> bool
    ensures { result ≡ (is_flow_env env || is_job_shop env) }
{
    matches!(env, Env::Flow | Env::JobShop)
}

impl<A: Allocator> Asks for ProblemTask<A> {
    ghost posed = { λ task. task };

    fn machines(&self) -> u32 {
        self.machines()
    }

    fn len(&self) -> usize {
        self.len()
    }

    fn problem(&self) -> Problem {
        self.problem()
    }

    fn time(&self, job: JobId) -> u64 {
        self.time(job)
    }

    fn time_on(&self, job: JobId, machine: usize) -> u64 {
        self.times(job)[machine]
    }

    fn release(&self, job: JobId) -> u64 {
        self.job(job).release
    }

    fn visits(&self, job: JobId) -> usize {
        if is_routed(self.problem().env) {
            self.steps(job)
        } else {
            0
        }
    }

    fn visited(&self, job: JobId, place: usize) -> usize {
        if is_job_shop(self.problem().env) {
            self.route(job)[place] as usize
        } else {
            place
        }
    }

    fn arcs(&self) -> &[(JobId, JobId)] {
        self.arcs()
    }
}
