//! What a task knows of its jobs, in columns, of which it has those that its class uses.
ghost use Rattle.std.specs.Prelude.{◌≡◌, [], ◌∷◌, ◌++◌, IfOk, if◌then◌else◌, slice_get, unwrap_or};

use crate::class::Class;
use std::alloc::{AllocError, Allocator};
use std::marker::Model;

/// What a task knows of one job. What the class does not use is neutral: second time 0, weight 1,
/// release date 0, due date 0.
#[derive(Clone, Copy, Debug)]
pub struct JobRow {
    /// Its time, in time steps; in a shop its time on machine 1.
    pub first: u64,
    /// In a shop its time on machine 2.
    pub second: u64,
    /// How much each time step of its completion costs in a weighted sum.
    pub weight: u64,
    /// The time before which it does not start.
    pub release: u64,
    /// The time from which its lateness is counted.
    pub due: i64,
}

impl JobRow {
    ghost use Rattle.std.specs.Prelude.{◌≡◌, ◌+◌, ◌<◌, ◌^◌};

    /// Its time on all machines together.
    pub fn time(&self) -> u64
        requires { self.now.first + self.now.second < 2 ^ 64 }
        ensures { result ≡ self.now.first + self.now.second }
    {
        self.first + self.second
    }
}

impl Model for JobRow {
    ghost use Rattle.tf_model.specs.SchedulingTask.{JobData};

    ghost Value = { JobData };

    ghost view = { λ j.
        record {
          first = j.first;
          second = j.second;
          weight = j.weight;
          release = j.release;
          due = j.due;
        } };

    ghost inverse = { λ d.
        record {
          first = d.first;
          second = d.second;
          weight = d.weight;
          release = d.release;
          due = d.due;
        } };
}

/// The numbers of the jobs, in the order of the jobs. A column that the class does not use is
/// empty.
#[derive(Drop)]
pub(crate) struct JobRows<A: Allocator> {
    firsts: Vec<u64, A>,
    seconds: Vec<u64, A>,
    weights: Vec<u64, A>,
    releases: Vec<u64, A>,
    dues: Vec<i64, A>,
}

impl<A: Allocator + Copy> JobRows<A> {
    ghost use Rattle.std.specs.Prelude.{[], IfOk};
    ghost use Rattle.tf_model.specs.JobRows.{HasRows};

    /// Of no job yet, with room for so many.
    pub(crate) fn new(alloc: A, class: Class, room: usize) -> Result<Self, AllocError>
        ensures { IfOk result (λ rows. HasRows class rows []) }
    {
        Ok(JobRows {
            firsts: Vec::with_capacity(alloc, room)?,
            seconds: Vec::with_capacity(alloc, room_if(class.is_shop(), room))?,
            weights: Vec::with_capacity(alloc, room_if(class.is_weighted(), room))?,
            releases: Vec::with_capacity(alloc, room_if(class.is_released(), room))?,
            dues: Vec::with_capacity(alloc, room_if(class.is_due(), room))?,
        })
    }
}

impl<A: Allocator> JobRows<A> {
    ghost use Rattle.std.specs.Prelude.{◌≡◌, ◌<◌, List, ◌∷◌, ◌++◌, length, slice_index_or, IfOk};
    ghost use Rattle.tf_model.specs.SchedulingTask.{JobData};
    ghost use Rattle.tf_model.specs.JobRows.{HasRows, rows_of};

    /// With one job more, of which it keeps what the class uses.
    #[inline(always)]
    pub(crate) fn push(&mut self, class: Class, row: JobRow) -> Result<(), AllocError>
        ensures { (jobs : List JobData) → HasRows class self.old jobs →
            IfOk result (λ _. HasRows class self.new (jobs ++ row ∷ [])) }
    {
        self.firsts.push(row.first)?;
        push_used(&mut self.seconds, class.is_shop(), row.second)?;
        push_used(&mut self.weights, class.is_weighted(), row.weight)?;
        push_used(&mut self.releases, class.is_released(), row.release)?;
        push_used(&mut self.dues, class.is_due(), row.due)
    }

    /// How many jobs there are.
    pub(crate) fn len(&self) -> usize
        ensures { result ≡ length (rows_of self.now) }
    {
        self.firsts.len()
    }

    /// What is known of the job at this place.
    #[inline(always)]
    pub(crate) fn row(&self, place: usize) -> JobRow
        requires { place < length (rows_of self.now) }
        ensures { (d : JobData) → slice_index_or (rows_of self.now) place d ≡ result }
    {
        JobRow {
            first: self.firsts[place],
            second: number_at(&self.seconds, place, 0),
            weight: number_at(&self.weights, place, 1),
            release: number_at(&self.releases, place, 0),
            due: number_at(&self.dues, place, 0),
        }
    }
}

// The number at a place of a column; where there is none, what stands for it.
#[inline(always)]
fn number_at<T: Copy + Drop>(column: &[T], place: usize, neutral: T) -> T
    ensures { result ≡ unwrap_or (slice_get column.now place) neutral }
{
    match column.get(place) {
        Some(number) => *number,
        None => neutral,
    }
}

// The room of a column.
fn room_if(is_used: bool, room: usize) -> usize {
    if is_used { room } else { 0 }
}

// The column with a number more, where it is used.
#[inline(always)]
fn push_used<T: Drop, A: Allocator>(
    column: &mut Vec<T, A>,
    is_used: bool,
    number: T,
) -> Result<(), AllocError>
    ensures { IfOk result (λ _. column.new.items
        ≡ column.old.items ++ (if is_used then number ∷ [] else [])) }
{
    if is_used {
        column.push(number)?;
    }
    Ok(())
}
