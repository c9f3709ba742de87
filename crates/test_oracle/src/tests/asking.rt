//! Small tasks and timetables in the program's own types.
use crate::small_task::{Cost, Kind, Machines, Objective, SmallJob, SmallTask};
use crate::timetable::{Cell, Timetable};
use std::alloc::{AllocError, Global};
use std::test::Fail;
use tf_model::cost::StepCost;
use tf_model::ids::{JobId, MachineId};
use tf_model::instance::Instance;
use tf_model::job::{Job, Times};
use tf_model::prepare::prepare;
use tf_model::problem::{Env, Goal, Problem};
use tf_model::task::Task;
use tf_schedule::piece::Piece;
use tf_schedule::piece_list::PieceList;

fn time(steps: usize) -> i64 {
    i64::try_from(steps).unwrap_or(i64::MAX)
}

fn step_cost(alloc: Global, cost: Cost) -> Result<StepCost, Fail> {
    let steps = Vec::from_slice(alloc, &cost.steps())?;
    Ok(StepCost::new(cost.base(), steps)?)
}

fn instance_job(alloc: Global, task: &SmallTask, job: &SmallJob) -> Result<Job, Fail> {
    Ok(Job {
        times: if task.is_shop() {
            Times::Two(time(job.first), time(job.second))
        } else {
            Times::One(time(job.first))
        },
        weight: Some(job.weight),
        due: Some(job.due),
        release: Some(time(job.release)),
        cost: Some(Box::new(alloc, step_cost(alloc, job.cost)?)?),
    })
}

fn problem(kind: Kind) -> Problem {
    let env = match kind.machines {
        Machines::Single => Env::Single,
        Machines::Parallel(_) => Env::Parallel,
        Machines::FlowShop => Env::Flow,
        Machines::OpenShop => Env::OpenShop,
    };
    let goal = match kind.objective {
        Objective::Makespan => Goal::Cmax,
        Objective::Lateness => Goal::Lmax,
        Objective::Cost => Goal::Hmax,
        Objective::Completions => Goal::SumC,
        Objective::WeightedCompletions => Goal::SumWC,
    };
    let mut problem = Problem::plain(env, goal);
    problem.release = kind.is_released;
    problem.prec = kind.is_ordered;
    problem.prmp = kind.may_break;
    problem
}

fn instance_jobs(alloc: Global, task: &SmallTask) -> Result<Vec<Job>, Fail> {
    let mut jobs = Vec::new(alloc);
    for job in task.jobs.iter() {
        jobs.push(instance_job(alloc, task, job)?)?;
    }
    Ok(jobs)
}

/// The program's task. Each job has all fields, whatever the class uses.
pub fn task_of(alloc: Global, task: &SmallTask) -> Result<Task, Fail> {
    let jobs = instance_jobs(alloc, task)?;
    let arcs = Vec::from_slice(alloc, &task.arcs)?;
    let instance = Instance::new(jobs, arcs, None)?;
    let machines = u32::try_from(task.machine_count()).ok();
    Ok(prepare(alloc, &instance, &problem(task.kind), machines)?)
}

/// A piece for each cell with a job.
pub fn pieces_of(alloc: Global, timetable: &Timetable) -> Result<PieceList, AllocError> {
    let mut pieces = Vec::new(alloc);
    let mut number: u32 = 0;
    for line in timetable.lines() {
        number = number.saturating_add(1);
        if let Some(machine) = MachineId::new(number) {
            push_pieces(&mut pieces, machine, line)?;
        }
    }
    Ok(PieceList::new(pieces))
}

fn push_pieces(
    pieces: &mut Vec<Piece>,
    machine: MachineId,
    line: &[Cell],
) -> Result<(), AllocError> {
    let mut start: i64 = 0;
    for cell in line {
        let stop = start.saturating_add(1);
        if let Some(job) = *cell {
            pieces.push(Piece {
                job,
                machine,
                start,
                stop,
            })?;
        }
        start = stop;
    }
    Ok(())
}
