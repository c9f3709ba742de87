//! The times of a flow shop among the words of a text.
ghost use Rattle.tf_model.specs.Limit.{most_jobs, most_machines};
ghost use Rattle.std.specs.Prelude.{◌≡◌, ℕ, ◌+◌, ◌-◌, ◌*◌, ◌^◌, ◌<◌, ◌≤◌, ◌==◌, List, [], ◌∷◌};
ghost use Rattle.std.specs.Prelude.{◌++◌, length, Ok, Some, None, true, false, is_some, ◌||◌};
ghost use Rattle.std.specs.Prelude.{nat_le, IfOk, IsTrue, vec_len, vec_capacity, if◌then◌else◌};
ghost use Rattle.tf_words.specs.Words.{Word};
ghost use Rattle.tf_read.specs.Faults.{natural};
ghost use Rattle.tf_read.specs.Said.{Says};
ghost use Rattle.tf_words.specs.Scan.{IsInRange};
ghost use Rattle.tf_read.specs.FlowShop.{are_machines, machine_is, first_kept, second_kept};
ghost use Rattle.tf_read.specs.FlowShop.{machines_kept, pairs_of};
ghost use Rattle.tf_read.specs.Pairs.{ReadsShop, IsTime, AreTimes, after_name, after_time};
ghost use Rattle.tf_read.specs.Pairs.{shop_missing};

use crate::fault::ReadFault;
use crate::instance_numbers::{Columns, InstanceNumbers};
use crate::number::natural_of;
use crate::word_feed::Judge;
use std::alloc::{AllocError, Allocator};
use std::marker::Model;
use tf_model::job::Job;
use tf_words::number::Number;

/// The times of the jobs on two machines so far, and the first fault among the words up to the last
/// job's.
#[derive(Drop)]
pub(crate) struct Pairs<A: Allocator> {
    jobs: usize,
    machines: u32,
    pair: Option<(u32, u32)>,
    /// The machine whose times come first, and the one whose times come second.
    first: u32,
    second: u32,
    /// The jobs that are over.
    job: usize,
    /// The next machine of the next job.
    machine: u32,
    /// The machine was named, so its time follows.
    is_named: bool,
    firsts: Vec<i64, A>,
    seconds: Vec<i64, A>,
    /// Room for the jobs.
    room: Vec<Job<A>, A>,
    fault: Option<ReadFault>,
}

impl<A: Allocator> Model for Pairs<A> {
    ghost use Rattle.std.specs.Prelude.{◌≡◌, ◌+◌, ◌<◌, ◌≤◌, false, nat_lt, vec_len, vec_capacity};
    ghost use Rattle.std.specs.Prelude.{if◌then◌else◌};
    ghost use Rattle.tf_model.specs.Limit.{most_jobs, most_machines};
    ghost use Rattle.tf_read.specs.FlowShop.{first_kept, second_kept};
    ghost use Rattle.tf_read.specs.Pairs.{Pairs as PairsSoFar, AreTimes};

    ghost Value = { PairsSoFar };

    ghost view = { λ f.
        record {
          jobs = f.jobs;
          machines = f.machines;
          pair = f.pair;
          job = f.job;
          machine = f.machine;
          is_named = f.is_named;
          firsts = f.firsts.items;
          seconds = f.seconds.items;
          fault = f.fault;
        } };

    ghost invariant = { λ f. record {
      some : 0 < f.jobs;
      within : f.machine < f.machines;
      machines_few : f.machines ≤ most_machines;
      first_is : f.first ≡ first_kept f.pair;
      second_is : f.second ≡ second_kept f.machines f.pair;
      first_there : f.first < f.machines;
      second_there : f.second < f.machines;
      few : f.job ≤ f.jobs;
      jobs_few : f.jobs ≤ most_jobs;
      over : f.jobs ≤ f.job → f.machine ≡ 0;
      over_named : f.jobs ≤ f.job → f.is_named ≡ false;
      firsts_len : vec_len f.firsts ≡ f.job + (if nat_lt f.first f.machine then 1 else 0);
      seconds_len : vec_len f.seconds ≡ f.job + (if nat_lt f.second f.machine then 1 else 0);
      firsts_room : f.jobs ≤ vec_capacity f.firsts;
      seconds_room : f.jobs ≤ vec_capacity f.seconds;
      jobs_room : f.jobs ≤ vec_capacity f.room;
      no_job : vec_len f.room ≡ 0;
      first_times : AreTimes f.firsts.items;
      second_times : AreTimes f.seconds.items;
    } };
}

/// Whether a number names this machine, counted from 0.
fn machine_is(machine: u32, line: u32, number: Number) -> Result<i64, ReadFault>
    ensures { result ≡ machine_is machine line number }
{
    match number {
        Number::NotANumber => Err(ReadFault::BadNumber(line)),
        Number::TooLarge => Err(ReadFault::NotAFlowShop(line)),
        Number::Value(value) => {
            if value == i64::from(machine) {
                Ok(value)
            } else {
                Err(ReadFault::NotAFlowShop(line))
            }
        }
    }
}

/// The machine whose times come first, and the one whose times come second.
fn kept(machines: u32, pair: Option<(u32, u32)>) -> (u32, u32)
    requires some { 0 < machines }
    requires pair { IsTrue (are_machines machines pair) }
    ensures first { result.0 ≡ first_kept pair }
    ensures second { result.1 ≡ second_kept machines pair }
    ensures first_there { result.0 < machines }
    ensures second_there { result.1 < machines }
{
    match pair {
        Some(pair) => pair,
        None => { if machines == 1 { (0, 0) } else { (0, 1) } }
    }
}

/// One time more of a machine, where it is of this one. There is room for it.
#[tactic(auto, using(crate::proofs::FlowInstance::times_more))]
fn keep_time<A: Allocator>(times: &mut Vec<i64, A>, is_here: bool, time: i64)
    requires room { is_here ≡ true → vec_len times.old < vec_capacity times.old }
    requires times { AreTimes times.old.items }
    requires time { IsTime time }
    ensures items { times.new.items
        ≡ (if is_here then times.old.items ++ time ∷ [] else times.old.items) }
    ensures len { vec_len times.new ≡ vec_len times.old + (if is_here then 1 else 0) }
    ensures capacity { vec_capacity times.old ≤ vec_capacity times.new }
    ensures times { AreTimes times.new.items }
{
    if is_here {
        times.push(time).unwrap();
    }
}

impl<A: Allocator> Pairs<A> {
    /// The times of so many jobs on this pair of so many machines, counted from 0, or on the first
    /// two. It makes all room.
    #[tactic(auto, using(crate::proofs::FlowInstance::no_times))]
    pub(crate) fn new(
        alloc: A,
        jobs: usize,
        machines: u32,
        pair: Option<(u32, u32)>,
    ) -> Result<Self, AllocError>
    where
        A: Copy,
        requires some { 0 < jobs }
        requires few { jobs ≤ most_jobs }
        requires machines_some { 0 < machines }
        requires machines_few { machines ≤ most_machines }
        requires pair { IsTrue (are_machines machines pair) }
        ensures { IfOk result (λ p. ReadsShop p (pairs_of jobs machines pair) []) }
    {
        let (first, second) = kept(machines, pair);
        let firsts = Vec::with_capacity(alloc, jobs)?;
        let seconds = Vec::with_capacity(alloc, jobs)?;
        let room = Vec::with_capacity(alloc, jobs)?;
        Ok(Pairs {
            jobs,
            machines,
            pair,
            first,
            second,
            job: 0,
            machine: 0,
            is_named: false,
            firsts,
            seconds,
            room,
            fault: None,
        })
    }

    /// Whether nothing more is wanted.
    fn is_over(&self) -> bool
        ensures value { result ≡ (is_some self.now.fault || nat_le self.now.jobs self.now.job) }
        ensures within { self.now.machine < self.now.machines }
        ensures over { self.now.jobs ≤ self.now.job → self.now.machine ≡ 0 }
        ensures over_named { self.now.jobs ≤ self.now.job → self.now.is_named ≡ false }
        ensures few { self.now.job ≤ self.now.jobs }
    {
        self.fault.is_some() || self.job >= self.jobs
    }

    fn wants_time(&self) -> bool
        ensures { result ≡ self.now.is_named }
    {
        self.is_named
    }

    /// With the name of a machine.
    fn name(&mut self, line: u32, number: Number)
        requires { self.old.job < self.old.jobs }
        ensures { self.new ≡ after_name self.old (machine_is self.old.machine line number) }
    {
        match machine_is(self.machine, line, number) {
            Err(fault) => self.fault = Some(fault),
            Ok(_) => self.is_named = true,
        }
    }

    #[inline(always)]
    fn time(&mut self, line: u32, number: Number)
        requires wanted { self.old.job < self.old.jobs }
        requires in_range { IsInRange number }
        ensures { self.new ≡ after_time self.old (natural line number) }
    {
        match natural_of(line, number) {
            Err(fault) => self.fault = Some(fault),
            Ok(time) => self.keep(time),
        }
    }

    fn keep(&mut self, time: i64)
        requires wanted { self.old.job < self.old.jobs }
        requires time { IsTime time }
        ensures { self.new ≡ after_time self.old (Ok time) }
    {
        keep_time(&mut self.firsts, self.machine == self.first, time);
        keep_time(&mut self.seconds, self.machine == self.second, time);
        self.is_named = false;
        if self.machine + 1 == self.machines {
            self.machine = 0;
            self.job += 1;
        } else {
            self.machine += 1;
        }
    }

    /// The fault that was met, or what is missing at the end.
    fn missing(&self) -> Option<ReadFault>
        ensures value { result ≡ shop_missing self.now }
        ensures within { self.now.machine < self.now.machines }
        ensures over { self.now.jobs ≤ self.now.job → self.now.machine ≡ 0 }
        ensures over_named { self.now.jobs ≤ self.now.job → self.now.is_named ≡ false }
        ensures few { self.now.job ≤ self.now.jobs }
    {
        if self.fault.is_some() {
            return self.fault;
        }
        if self.job < self.jobs {
            return Some(ReadFault::EndsEarly);
        }
        None
    }

    /// The numbers of the instance that the words of a text say. It takes no memory.
    pub(crate) fn whole(self) -> Result<InstanceNumbers<A>, ReadFault>
        ensures { (says : Says) (seen : List Word) → ReadsShop self says seen → result ≡ says seen }
    {
        match self.missing() {
            Some(fault) => Err(fault),
            None => {
                let Pairs {
                    jobs,
                    machines,
                    pair,
                    firsts,
                    seconds,
                    room,
                    ..
                } = self;
                Ok(InstanceNumbers {
                    columns: Columns::Shop(machines, firsts, seconds),
                    jobs,
                    machines: Some(machine_count(machines, pair)),
                    room,
                })
            }
        }
    }
}

impl<A: Allocator> Judge for Pairs<A> {
    ghost use Rattle.tf_read.specs.Pairs.{ReadsShop};

    ghost HasRead = { ReadsShop };

    #[inline(always)]
    fn judge(&mut self, line: u32, number: Number) {
        if self.is_over() {
            return;
        }
        if self.wants_time() {
            self.time(line, number);
        } else {
            self.name(line, number);
        }
    }
}

/// The number of machines of the instance.
fn machine_count(machines: u32, pair: Option<(u32, u32)>) -> u32
    ensures { result ≡ machines_kept machines pair }
{
    if pair.is_some() { 2 } else { machines }
}
