//! The pieces of the schedule of a list.
use crate::gaps::Gaps;
use crate::measure::{LATE, Measure};
use crate::preemption::Preemption;
use crate::slots::{number_at, set_item, set_number};
use crate::table::{Decoder, TaskTable};
use std::alloc::{Allocator, Global};
use tf_model::ids::{JobId, MachineId};
use tf_model::limit::{LIMIT, MOST_JOBS, MOST_MACHINES};
use tf_model::memory::OutOfMemory;
use tf_schedule::piece::Piece;

// What is laid so far.
#[derive(Drop)]
struct Laid<A: Allocator = Global> {
    pieces: Vec<Piece, A>,
    // Since when each machine is free, and the same with one job more.
    free: Vec<u64, A>,
    next: Vec<u64, A>,
    // When each job is completed.
    ends: Vec<u64, A>,
    gaps: Gaps<A>,
}

/// The pieces of the schedule of a list. Nothing is promised of them: where a number is beyond its
/// limit a piece is left out. Only want of memory is an error.
pub fn lay<A: Allocator + Copy, B: Allocator>(
    alloc: A,
    table: &TaskTable<B>,
    list: &[u32],
) -> Result<Vec<Piece, A>, OutOfMemory> {
    if matches!(table.decoder, Decoder::Priorities) {
        return lay_runs(alloc, table, list);
    }
    let mut laid = Laid {
        pieces: Vec::with_capacity(alloc, table.times.len())?,
        free: vec![in alloc; 0_u64; table.machines]?,
        next: vec![in alloc; 0_u64; table.machines]?,
        ends: vec![in alloc; 0_u64; table.jobs.len()]?,
        gaps: match table.decoder {
            Decoder::JobGaps | Decoder::OpenGaps => Gaps::new(alloc, table)?,
            _ => Gaps::none(alloc),
        },
    };
    for item in list {
        laid.add(table, *item as usize, false)?;
    }
    if matches!(table.measure, Measure::LateWeight) {
        laid.add_late(table, list)?;
    }
    Ok(laid.pieces)
}

impl<A: Allocator> Laid<A> {
    // The jobs that were left out go behind all others.
    fn add_late<B: Allocator>(
        &mut self,
        table: &TaskTable<B>,
        list: &[u32],
    ) -> Result<(), OutOfMemory> {
        for item in list {
            if number_at(&self.ends, table.job_of(*item as usize)) == LATE {
                self.add(table, *item as usize, true)?;
            }
        }
        Ok(())
    }

    // Adds an item of a list. A job that would be late is left out where only the late jobs cost
    // and it is not its turn yet.
    fn add<B: Allocator>(
        &mut self,
        table: &TaskTable<B>,
        item: usize,
        is_late: bool,
    ) -> Result<(), OutOfMemory> {
        let job = table.job_of(item);
        match table.decoder {
            Decoder::OpenOperations => self.add_open_operation(table, item, job),
            Decoder::JobOperations => self.add_job_operation(table, item),
            Decoder::JobGaps | Decoder::OpenGaps => self.add_in_gaps(table, job, is_late),
            Decoder::Parallel => self.add_parallel(table, job, is_late),
            _ => self.add_job(table, job, is_late),
        }
    }

    fn add_open_operation<B: Allocator>(
        &mut self,
        table: &TaskTable<B>,
        item: usize,
        job: usize,
    ) -> Result<(), OutOfMemory> {
        let machine = item.checked_rem(table.machines).unwrap_or(0);
        let time = number_at(&table.times, item);
        let ready = table.job(job).release;
        self.add_operation(job, machine, time, ready)
    }

    fn add_job_operation<B: Allocator>(
        &mut self,
        table: &TaskTable<B>,
        item: usize,
    ) -> Result<(), OutOfMemory> {
        let operation = table.routes.at(item);
        let job = operation.job();
        let ready = table.ready(job, &self.ends);
        self.add_operation(job, operation.machine(), operation.time, ready)
    }

    // An operation starts when its job and its machine are free, and it is ready.
    fn add_operation(
        &mut self,
        job: usize,
        machine: usize,
        time: u64,
        ready: u64,
    ) -> Result<(), OutOfMemory> {
        if time == 0 {
            return Ok(());
        }
        let ready = number_at(&self.ends, job).max(ready);
        let start = number_at(&self.free, machine).max(ready);
        let end = start.wrapping_add(time);
        set_number(&mut self.free, machine, end);
        set_number(&mut self.ends, job, end);
        self.push(job, machine, start, end)
    }

    // The operations of the job go into gaps.
    fn add_in_gaps<B: Allocator>(
        &mut self,
        table: &TaskTable<B>,
        job: usize,
        is_late: bool,
    ) -> Result<(), OutOfMemory> {
        let ready = table.ready(job, &self.ends);
        let end = if is_late {
            self.gaps.insert_late(table, job, ready)
        } else {
            self.gaps.insert(table, job, ready)
        };
        set_number(&mut self.ends, job, end);
        if end == LATE {
            return Ok(());
        }
        for step in 0..table.machines {
            let Some((operation, start)) = self.gaps.last(step) else {
                break;
            };
            let stop = start.wrapping_add(operation.time);
            self.push(job, operation.machine(), start, stop)?;
        }
        Ok(())
    }

    // The job runs on the machine that is free last among those that are free when it is ready,
    // else on the first that is free.
    fn add_parallel<B: Allocator>(
        &mut self,
        table: &TaskTable<B>,
        job: usize,
        is_late: bool,
    ) -> Result<(), OutOfMemory> {
        let ready = table.ready(job, &self.ends);
        let machine = chosen(&self.free, ready);
        let start = number_at(&self.free, machine).max(ready);
        let numbers = table.job(job);
        let end = start.wrapping_add(numbers.work);
        let is_only_late = matches!(table.measure, Measure::LateWeight) && !is_late;
        if is_only_late && (ready == LATE || i128::from(end) > i128::from(numbers.due)) {
            set_number(&mut self.ends, job, LATE);
            return Ok(());
        }
        set_number(&mut self.free, machine, end);
        set_number(&mut self.ends, job, end);
        self.push(job, machine, start, end)
    }

    // The job runs on its machines as it is appended.
    fn add_job<B: Allocator>(
        &mut self,
        table: &TaskTable<B>,
        job: usize,
        is_late: bool,
    ) -> Result<(), OutOfMemory> {
        let ready = table.ready(job, &self.ends);
        let end = if is_late {
            table.append_late(job, ready, &self.free, &mut self.next)
        } else {
            table.append(job, ready, &self.free, &mut self.next)
        };
        set_number(&mut self.ends, job, end);
        if end == LATE {
            return Ok(());
        }
        for (machine, time) in table.times_of(job).iter().enumerate() {
            let stop = number_at(&self.next, machine);
            set_number(&mut self.free, machine, stop);
            self.push(job, machine, stop.saturating_sub(*time), stop)?;
        }
        Ok(())
    }

    // Adds a piece whose numbers are within their limits, and none that takes no time.
    fn push(
        &mut self,
        job: usize,
        machine: usize,
        start: u64,
        stop: u64,
    ) -> Result<(), OutOfMemory> {
        let is_within = job < MOST_JOBS && machine < MOST_MACHINES as usize && stop <= LIMIT as u64;
        if start < stop && is_within {
            self.pieces.push(Piece::of(JobId::at(job), MachineId::at(machine), start, stop))?;
        }
        Ok(())
    }
}

// The machine that is free last among those that are free at a time, else the first that is free.
fn chosen(free: &[u64], ready: u64) -> usize {
    let mut chosen: usize = 0;
    let mut best: Option<u64> = None;
    for (machine, since) in free.iter().enumerate() {
        let is_better = match best {
            None => true,
            Some(best) if *since <= ready => best > ready || *since > best,
            Some(best) => *since < best,
        };
        if is_better {
            best = Some(*since);
            chosen = machine;
        }
    }
    chosen
}

// The runs of a list of priorities, those that touch joined.
fn lay_runs<A: Allocator + Copy, B: Allocator>(
    alloc: A,
    table: &TaskTable<B>,
    list: &[u32],
) -> Result<Vec<Piece, A>, OutOfMemory> {
    let mut places = vec![in alloc; 0_u32; table.jobs.len()]?;
    for (place, job) in list.iter().enumerate() {
        set_item(
            &mut places,
            *job as usize,
            u32::try_from(place).unwrap_or(0),
        );
    }
    let mut preemption = Preemption::new(alloc, table)?;
    preemption.restart(table);
    let mut laid = Laid {
        pieces: Vec::with_capacity(alloc, list.len())?,
        free: Vec::new(alloc),
        next: Vec::new(alloc),
        ends: Vec::new(alloc),
        gaps: Gaps::none(alloc),
    };
    let mut last: Option<(usize, u64, u64)> = None;
    for _ in 0..list.len().saturating_mul(2).saturating_add(1) {
        let Some(run) = preemption.run(table, list, &places)? else {
            break;
        };
        last = match last {
            Some((job, start, stop)) if job == run.job && stop == run.start => {
                Some((job, start, run.stop))
            }
            Some((job, start, stop)) => {
                laid.push(job, 0, start, stop)?;
                Some((run.job, run.start, run.stop))
            }
            None => Some((run.job, run.start, run.stop)),
        };
    }
    if let Some((job, start, stop)) = last {
        laid.push(job, 0, start, stop)?;
    }
    Ok(laid.pieces)
}
