//! Schedules of pieces.
use crate::model::timed;
use std::alloc::{AllocError, Global};
use std::test::Fail;
use tf_model::ids::{JobId, MachineId};
use tf_model::instance::Instance;
use tf_model::job::{Job, Times};
use tf_model::prepare::prepare;
use tf_model::problem::{Env, Goal, Problem};
use tf_model::task::Task;
use tf_schedule::cost::cost;
use tf_schedule::piece::Piece;
use tf_schedule::schedule::Schedule;

/// The job and the machine of a piece, from 1, and its times.
pub type Row = (u32, u32, i64, i64);

fn piece(row: &Row) -> Option<Piece> {
    let (job, machine, start, stop) = *row;
    let job = JobId::new(job)?;
    let machine = MachineId::new(machine)?;
    Some(Piece {
        job,
        machine,
        start,
        stop,
    })
}

/// The pieces of these rows.
pub fn pieces(alloc: Global, rows: &[Row]) -> Result<Vec<Piece>, AllocError> {
    let mut pieces = Vec::new(alloc);
    for piece in rows.iter().filter_map(piece) {
        pieces.push(piece)?;
    }
    Ok(pieces)
}

/// Job 3 on machine 2 is the last piece, and the jobs of machine 2 are these from time -1 on.
fn has_cells(schedule: &Schedule, jobs: &[u32]) -> bool {
    let mut time: i64 = -1;
    for job in jobs {
        if schedule.cell(MachineId::at(1), time).map_or(0, JobId::get) != *job {
            return false;
        }
        time = time.saturating_add(1);
    }
    schedule.length() == 6 && schedule.pieces().last() == piece(&(3, 2, 2, 6)).as_ref()
}

fn is_schedule(pieces: Vec<Piece>, jobs: &[u32]) -> bool {
    match Schedule::new(pieces) {
        Ok(schedule) => has_cells(&schedule, jobs),
        Err(_) => false,
    }
}

#[test]
fn pieces_may_touch(rt: HostRuntime) -> Result<(), Fail> {
    let rows = [(3, 2, 2, 6), (2, 1, 4, 6), (1, 1, 0, 4), (2, 2, 0, 2)];
    let pieces = pieces(rt.alloc(), &rows)?;
    assert!(rt; is_schedule(pieces, &[0, 2, 2, 3, 3, 3, 3, 0]));
    Ok(())
}

fn fours(alloc: Global) -> Result<Vec<Job>, AllocError> {
    let mut jobs = Vec::new(alloc);
    for _ in 0..3 {
        jobs.push(timed(Times::One(4)))?;
    }
    Ok(jobs)
}

/// Three jobs of time 4 on two parallel machines.
fn task(alloc: Global) -> Result<Task, Fail> {
    let instance = Instance::new(fours(alloc)?, Vec::new(alloc), None)?;
    let problem = Problem {
        prmp: true,
        ..Problem::plain(Env::Parallel, Goal::Cmax)
    };
    Ok(prepare(alloc, &instance, &problem, Some(2))?)
}

#[test]
fn a_job_that_the_task_does_not_have_costs_nothing(rt: HostRuntime) -> Result<(), Fail> {
    let task = task(rt.alloc())?;
    let pieces = pieces(rt.alloc(), &[(4, 1, 0, 4)])?;
    assert!(rt; Schedule::new(pieces).is_ok_and(|stranger| cost(&task, &stranger) == 0));
    Ok(())
}
