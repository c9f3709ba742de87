//! Semi-active schedules: each operation starts as soon as its job and its machine are free.
use super::small_task::{MOST_JOBS, MOST_MACHINES, SmallJob, SmallTask};
use std::alloc::{AllocError, Global};
use tf_model::problem::{Env, Goal, Problem};

/// A job and a machine, counted from 0. What it means is said at [`Clock`].
pub type Turn = (usize, usize);

/// A task's schedule as far as it has gone.
///
/// A turn is one operation of a job. With preemption this is one time step; in a flow shop it is
/// the job's next operation, with `prmu` all its operations; elsewhere the turn names the machine.
#[derive(Drop)]
struct Clock<'a> {
    task: &'a SmallTask,
    // From when on each machine is free.
    machines: [i64; MOST_MACHINES],
    // From when on each job is free: its release date, or where its last operation ends.
    jobs: [i64; MOST_JOBS],
    // How many turns each job had.
    visits: [usize; MOST_JOBS],
}

impl Clock<'_> {
    fn new(task: &SmallTask) -> Clock<'_> {
        let mut jobs = [0; MOST_JOBS];
        if task.problem.release {
            for (free, job) in jobs.iter_mut().zip(task.jobs.iter()) {
                *free = job.release;
            }
        }
        Clock {
            task,
            machines: [0; MOST_MACHINES],
            jobs,
            visits: [0; MOST_JOBS],
        }
    }

    // Runs a job on a machine for some time.
    fn run(&mut self, job: usize, machine: usize, time: i64) {
        if let Some(job) = self.jobs.get_mut(job)
            && let Some(machine) = self.machines.get_mut(machine)
        {
            let end = (*job).max(*machine).saturating_add(time);
            *job = end;
            *machine = end;
        }
    }

    fn visits_of(&self, job: usize) -> usize {
        self.visits.get(job).copied().unwrap_or(0)
    }

    // Whether all jobs that precede this one had their turns.
    fn may_take(&self, job: usize) -> bool {
        for (before, after) in self.task.arcs.iter() {
            if *after == job && self.visits_of(*before) == 0 {
                return false;
            }
        }
        true
    }

    fn take(&mut self, turn: Turn) {
        let (job, machine) = turn;
        let Some(small) = self.task.jobs.get(job) else {
            return;
        };
        let problem = self.task.problem;
        let first = if problem.env == Env::Flow {
            self.visits_of(job)
        } else {
            machine
        };
        let count = if problem.prmu { self.task.machines } else { 1 };
        for machine in (0..MOST_MACHINES).skip(first).take(count) {
            self.run(job, machine, turn_time(problem, small, machine));
        }
        if let Some(visits) = self.visits.get_mut(job) {
            *visits = visits.saturating_add(1);
        }
    }

    fn cost(&self) -> i64 {
        let goal = self.task.problem.goal;
        let mut cost: Option<i64> = None;
        for (job, end) in self.task.jobs.iter().zip(self.jobs.iter()) {
            let price = job.price(goal, *end);
            cost = Some(match cost {
                None => price,
                Some(cost) if is_greatest(goal) => cost.max(price),
                Some(cost) => cost.saturating_add(price),
            });
        }
        cost.unwrap_or(0)
    }
}

// Whether the objective is the greatest of what the jobs contribute; else it is the sum.
fn is_greatest(goal: Goal) -> bool {
    matches!(goal, Goal::Cmax | Goal::Lmax | Goal::Hmax)
}

// How long a job is on a machine in one turn.
fn turn_time(problem: Problem, job: &SmallJob, machine: usize) -> i64 {
    if problem.prmp {
        return 1;
    }
    let place = if problem.env.is_shop() { machine } else { 0 };
    job.times.get(place).copied().unwrap_or(0)
}

// How many turns a job has.
fn turn_count(task: &SmallTask, job: &SmallJob) -> usize {
    if task.problem.prmp {
        return usize::try_from(job.times[0]).unwrap_or(0);
    }
    match task.problem.env {
        Env::OpenShop => task.machines,
        Env::Flow if !task.problem.prmu => task.machines,
        _ => 1,
    }
}

// So many times the number by itself.
fn power(number: usize, exponent: usize) -> usize {
    let mut power: usize = 1;
    for _ in 0..exponent {
        power = power.saturating_mul(number);
    }
    power
}

/// How many ways there are to assign the jobs to machines before they are ordered.
pub fn assignment_count(task: &SmallTask) -> usize {
    match task.problem.env {
        Env::Parallel => power(task.machines, task.jobs.len()),
        _ => 1,
    }
}

/// The first order of the turns of a task's jobs. The number of an assignment says, one digit a
/// job, on which of identical machines each job runs.
pub fn first_order(
    alloc: Global,
    task: &SmallTask,
    assignment: usize,
) -> Result<Vec<Turn>, AllocError> {
    let mut order = Vec::new(alloc);
    let mut digits = assignment;
    for (job, small) in task.jobs.iter().enumerate() {
        for turn in 0..turn_count(task, small) {
            let machine = match task.problem.env {
                Env::OpenShop => turn,
                Env::Parallel => digits % task.machines.max(1),
                _ => 0,
            };
            order.push((job, machine))?;
        }
        digits /= task.machines.max(1);
    }
    Ok(order)
}

/// What the schedule costs that takes the turns in this order, each operation as soon as its job
/// and its machine are free; none where a job has its turn before one that precedes it.
pub fn cost_of(task: &SmallTask, order: &[Turn]) -> Option<i64> {
    let mut clock = Clock::new(task);
    for turn in order {
        if !clock.may_take(turn.0) {
            return None;
        }
        clock.take(*turn);
    }
    Some(clock.cost())
}
