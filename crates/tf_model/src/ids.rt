//! The numbers of jobs and machines, from 1.
ghost use Rattle.std.specs.Prelude.{◌≡◌, ℕ, ◌+◌, ◌-◌, ◌^◌, ◌<◌, ◌≤◌, ◌↔◌, IsSome, IfSome};

use std::marker::Model;

/// The number of a job, from 1.
#[derive(Clone, Copy, Debug, PartialEq, Eq, PartialOrd, Ord, Hash)]
pub struct JobId {
    number: u32,
}

impl Model for JobId {
    ghost Value = { ℕ };

    ghost view = { λ j. j.number };

    ghost invariant = { λ j. 0 < j.number };

    ghost inverse = { λ n. record { number = n } };
}

impl JobId {
    /// The job of that number: `None` exactly for 0.
    pub fn new(number: u32) -> Option<Self>
        ensures valid { IsSome result ↔ (0 < number) }
        ensures value { IfSome result (λ j. j ≡ number) }
    {
        if number == 0 {
            return None;
        }
        Some(JobId { number })
    }

    /// The job at a place, counted from 0.
    pub fn at(place: usize) -> Self
        requires { place + 1 < 2 ^ 32 }
        ensures { result ≡ place + 1 }
    {
        JobId {
            number: place as u32 + 1,
        }
    }

    /// Its number.
    pub fn get(self) -> u32
        ensures value { result ≡ self }
        ensures from_one { 0 < self }
    {
        self.number
    }

    /// Its place in a list of all jobs, counted from 0.
    pub fn place(self) -> usize
        ensures value { result ≡ self - 1 }
        ensures from_one { 0 < self }
    {
        self.number as usize - 1
    }
}

/// The number of a machine, from 1.
#[derive(Clone, Copy, Debug, PartialEq, Eq, PartialOrd, Ord, Hash)]
pub struct MachineId {
    number: u32,
}

impl Model for MachineId {
    ghost Value = { ℕ };

    ghost view = { λ i. i.number };

    ghost invariant = { λ i. 0 < i.number };

    ghost inverse = { λ n. record { number = n } };
}

impl MachineId {
    /// Machine 1.
    pub const FIRST: MachineId = MachineId { number: 1 };

    /// Machine 2.
    pub const SECOND: MachineId = MachineId { number: 2 };

    /// The machine of that number: `None` exactly for 0.
    pub fn new(number: u32) -> Option<Self>
        ensures valid { IsSome result ↔ (0 < number) }
        ensures value { IfSome result (λ i. i ≡ number) }
    {
        if number == 0 {
            return None;
        }
        Some(MachineId { number })
    }

    /// The machine at a place, counted from 0.
    pub fn at(place: usize) -> Self
        requires { place + 1 < 2 ^ 32 }
        ensures { result ≡ place + 1 }
    {
        MachineId {
            number: place as u32 + 1,
        }
    }

    /// Its number.
    pub fn get(self) -> u32
        ensures value { result ≡ self }
        ensures from_one { 0 < self }
    {
        self.number
    }

    /// Its place in a list of all machines, counted from 0.
    pub fn place(self) -> usize
        ensures value { result ≡ self - 1 }
        ensures from_one { 0 < self }
    {
        self.number as usize - 1
    }

    /// The machine after it.
    pub fn next(self) -> Self
        requires { self + 1 < 2 ^ 32 }
        ensures { result ≡ self + 1 }
    {
        MachineId {
            number: self.number + 1,
        }
    }
}
