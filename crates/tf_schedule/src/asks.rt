//! What is asked of a schedule.
use std::alloc::Allocator;
use tf_model::ids::JobId;
use tf_model::problem::Problem;
use tf_model::task::Task;

/// A task that schedules are judged by: it is read job by job, as the task of a problem.
pub trait Asks {
    ghost use Rattle.std.specs.Prelude.{◌≡◌, ◌<◌, length, slice_index, IsFalse};
    ghost use Rattle.tf_model.specs.ClassTable.{is_shop_env};
    ghost use Rattle.tf_posed.specs.ProblemData.{ProblemData, IsProblemJob, problem_job};
    ghost use Rattle.tf_posed.specs.ProblemData.{problem_time, problem_time_on, route_of};
    ghost use Rattle.tf_schedule.specs.Asks.{IsLimited};

    /// The task of the problem.
    ghost posed: { Self → ProblemData };

    /// The number of machines.
    fn machines(&self) -> u32
        ensures value { result ≡ (posed self.now).machines }
        ensures limited { IsLimited (posed self.now) };

    /// The number of jobs.
    fn len(&self) -> usize
        ensures value { result ≡ length (posed self.now).jobs }
        ensures limited { IsLimited (posed self.now) };

    /// The problem, whose conditions say what is asked.
    fn problem(&self) -> Problem
        ensures { result ≡ (posed self.now).problem };

    /// The time of a job that has one.
    fn time(&self, job: JobId) -> u64
        requires job { IsProblemJob (posed self.now) job }
        requires plain { IsFalse (is_shop_env (posed self.now).problem.env) }
        ensures { result ≡ problem_time (posed self.now) job };

    /// The time of a job on a machine for which it has one, counted from 0.
    fn time_on(&self, job: JobId, machine: usize) -> u64
        requires job { IsProblemJob (posed self.now) job }
        requires machine { machine < length (problem_job (posed self.now) job).times }
        ensures { result ≡ problem_time_on (posed self.now) job machine };

    /// The release date of a job.
    fn release(&self, job: JobId) -> u64
        requires { IsProblemJob (posed self.now) job }
        ensures { result ≡ (problem_job (posed self.now) job).release };

    /// How many machines a job has to visit in an order.
    fn visits(&self, job: JobId) -> usize
        requires { IsProblemJob (posed self.now) job }
        ensures { result ≡ length (route_of (posed self.now) job) };

    /// The machine that a job has to visit after so many others, counted from 0.
    fn visited(&self, job: JobId, place: usize) -> usize
        requires job { IsProblemJob (posed self.now) job }
        requires place { place < length (route_of (posed self.now) job) }
        ensures { result ≡ slice_index (route_of (posed self.now) job) place };

    /// The arcs: of each, the first job is over before the second starts.
    fn arcs(&self) -> &[(JobId, JobId)]
        ensures { result.now ≡ (posed self.now).arcs };
}

impl<A: Allocator> Asks for Task<A> {
    ghost use Rattle.tf_posed.specs.Agreement.{posed};

    ghost posed = { λ task. posed task };

    fn machines(&self) -> u32 {
        self.machines()
    }

    fn len(&self) -> usize {
        self.len()
    }

    fn problem(&self) -> Problem {
        self.class().notation()
    }

    fn time(&self, job: JobId) -> u64 {
        self.job(job).first
    }

    fn time_on(&self, job: JobId, machine: usize) -> u64 {
        let row = self.job(job);
        if machine == 0 { row.first } else { row.second }
    }

    fn release(&self, job: JobId) -> u64 {
        self.job(job).release
    }

    fn visits(&self, _job: JobId) -> usize {
        if self.class().is_flow() {
            self.machines() as usize
        } else {
            0
        }
    }

    fn visited(&self, _job: JobId, place: usize) -> usize {
        place
    }

    fn arcs(&self) -> &[(JobId, JobId)] {
        self.arcs()
    }
}
