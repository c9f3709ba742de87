//! Semi-active schedules of jobs with release dates.
ghost use Rattle.std.specs.Prelude.{◌≡◌, ◌+◌, ◌≤◌, length, min};
ghost use Rattle.tf_model.specs.Limit.{limit};
ghost use Rattle.tf_schedule.specs.Piece.{piece_of};
ghost use Rattle.tf_orders.specs.Listed.{IsFirstLeast};

use std::alloc::Allocator;
use std::marker::Model;
use tf_model::ids::{JobId, MachineId};
use tf_model::limit::LIMIT;
use tf_model::memory::OutOfMemory;
use tf_schedule::piece::Piece;

/// A schedule to which jobs are added, each as early as it goes behind those that are there.
#[derive(Drop)]
pub(crate) struct Laying<A: Allocator> {
    pieces: Vec<Piece, A>,
    // The times from which the machines are free.
    free: Vec<u64, A>,
}

impl<A: Allocator> Model for Laying<A> {
    ghost use Rattle.std.specs.Prelude.{length, ◌≤◌};
    ghost use Rattle.std.specs.List.{All};
    ghost use Rattle.tf_model.specs.Limit.{limit};
    ghost use Rattle.tf_schedule.specs.Piece.{machine_of};
    ghost use Rattle.tf_schedule.specs.Stops.{HasStopsBy};
    ghost use Rattle.tf_orders.specs.Laying.{LayingData};

    ghost Value = { LayingData };

    ghost view = { λ l. record { pieces = l.pieces.items; machines = length l.free.items } };

    ghost invariant = { λ l. record {
      stops : HasStopsBy machine_of l.pieces.items l.free.items;
      small : All (λ s. s ≤ limit) l.free.items;
    } };
}

impl<A: Allocator + Copy> Laying<A> {
    ghost use Rattle.std.specs.Prelude.{◌≡◌, [], ◌+◌, ◌^◌, ◌<◌, ◌≤◌, length, IfOk};
    ghost use Rattle.std.specs.List.{All};
    ghost use Rattle.tf_model.specs.Limit.{limit};
    ghost use Rattle.tf_orders.specs.Laying.{stop_on, with_operation, with_job, with_route};
    ghost use Rattle.tf_orders.specs.Listed.{IsFirstFree};

    /// No piece yet, with room for so many pieces. Only want of memory is an error.
    pub(crate) fn new(alloc: A, room: usize, machines: usize) -> Result<Self, OutOfMemory>
        ensures { IfOk result (λ l. l ≡ record { pieces = []; machines = machines }) }
    {
        Ok(Laying {
            pieces: Vec::with_capacity(alloc, room)?,
            free: vec![in alloc; 0u64; machines]?,
        })
    }

    /// Adds all operations of a job, one after another, from this machine on. Only want of memory
    /// is an error.
    pub(crate) fn add_job(
        &mut self,
        job: JobId,
        first: MachineId,
        release: u64,
        times: &[u64],
    ) -> Result<(), OutOfMemory>
        requires machines { first + length times.now ≤ self.old.machines + 1 }
        requires few { self.old.machines < 2 ^ 31 }
        requires release { release ≤ limit }
        requires times { All (λ time. time ≤ limit) times.now }
        ensures pieces { IfOk result (λ _. self.new.pieces
            ≡ with_job self.old.pieces job first release times.now) }
        ensures machines { self.new.machines ≡ self.old.machines }
    {
        let mut free = release;
        let mut machine = first;
        for time in times {
            free = self.add(job, machine, free, *time)?;
            machine = machine.next();
        }
        Ok(())
    }

    /// Adds all operations of a job, one after another along its route. Only want of memory is an
    /// error.
    pub(crate) fn add_route(
        &mut self,
        job: JobId,
        release: u64,
        times: &[u64],
        route: &[u32],
    ) -> Result<(), OutOfMemory>
        requires machines { All (λ a. a < length times.now) route.now }
        requires times { All (λ time. time ≤ limit) times.now }
        requires all { length times.now ≤ self.old.machines }
        requires few { self.old.machines < 2 ^ 31 }
        requires release { release ≤ limit }
        ensures pieces { IfOk result (λ _. self.new.pieces
            ≡ with_route self.old.pieces job release times.now route.now) }
        ensures machines { self.new.machines ≡ self.old.machines }
    {
        let mut free = release;
        for place in route {
            let place = *place as usize;
            free = self.add(job, MachineId::at(place), free, times[place])?;
        }
        Ok(())
    }

    /// Adds an operation, and gives the time at which the job is free again. Only want of memory is
    /// an error.
    pub(crate) fn add(
        &mut self,
        job: JobId,
        machine: MachineId,
        free: u64,
        time: u64,
    ) -> Result<u64, OutOfMemory>
        requires machine { machine ≤ self.old.machines }
        requires free { free ≤ limit }
        requires time { time ≤ limit }
        ensures pieces { IfOk result (λ _. self.new.pieces
            ≡ with_operation self.old.pieces job machine free time) }
        ensures stop { IfOk result (λ stop. stop ≡ stop_on self.old.pieces machine free time) }
        ensures small { IfOk result (λ stop. stop ≤ limit) }
        ensures machines { self.new.machines ≡ self.old.machines }
    {
        if time == 0 {
            return Ok(free);
        }
        let place = machine.place();
        let start = self.free[place].max(free);
        let stop = stop_after(start, time);
        self.pieces.push(piece_at(job, machine, start, stop))?;
        self.free[place] = stop;
        Ok(stop)
    }

    /// The first of so many machines to be free, the smallest number among equals.
    pub(crate) fn first_free(&self, machines: u32) -> MachineId
        requires some { (1 ≤ machines) × (machines ≤ self.now.machines) }
        requires few { machines < 2 ^ 31 }
        ensures { IsFirstFree self.now.pieces machines result }
    {
        MachineId::at(place_of_least(&self.free, machines as usize))
    }

    /// The pieces, in the order in which they were added.
    pub(crate) fn into_pieces(self) -> Vec<Piece, A>
        ensures { result.items ≡ self.pieces }
    {
        self.pieces
    }
}

// The first place of the least of the first so many numbers.
fn place_of_least(numbers: &[u64], count: usize) -> usize
    requires { (1 ≤ count) × (count ≤ length numbers.now) }
    ensures { IsFirstLeast numbers.now count result }
{
    let mut place: usize = 0;
    for k in 1..count {
        if numbers[k] < numbers[place] {
            place = k;
        }
    }
    place
}

// When an operation is completed that starts then, cut to the limit.
fn stop_after(start: u64, time: u64) -> u64
    requires { (start ≤ limit) × (time ≤ limit) }
    ensures value { result ≡ min (start + time) limit }
    ensures small { result ≤ limit }
{
    (start + time).min(LIMIT as u64)
}

// The piece between these times.
fn piece_at(job: JobId, machine: MachineId, start: u64, stop: u64) -> Piece
    requires { (start ≤ limit) × (stop ≤ limit) }
    ensures { result ≡ piece_of job machine start stop }
{
    Piece {
        job,
        machine,
        start: start as i64,
        stop: stop as i64,
    }
}
