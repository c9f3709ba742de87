//! Jobs of random numbers, as texts of each form of an instance.
ghost use Rattle.std.specs.Prelude.{◌<◌};

use std::alloc::{AllocError, Global};

/// Numbers by a linear congruence, which begins at 1.
#[derive(Drop)]
struct Draws {
    state: u32,
}

impl Draws {
    fn new() -> Draws {
        Draws { state: 1 }
    }

    /// The next number, below this one.
    fn below(&mut self, bound: u32) -> u32
        requires { 0 < bound }
        ensures { result < bound }
    {
        let next = (1_103_515_245 * u64::from(self.state) + 12_345) % 2_147_483_648;
        self.state = next as u32;
        self.state / 65_536 % bound
    }
}

/// What the jobs run on.
#[derive(Clone, Copy, PartialEq, Eq)]
pub enum Machines {
    /// One.
    One,
    /// Seven in parallel, which the instance says.
    Seven,
    /// The two of a shop.
    Shop,
}

/// A job, counted from 1, and its numbers in the order in which they are drawn.
#[derive(Clone, Copy)]
struct Numbers {
    job: u32,
    time: u32,
    // In a shop, the time on machine 2.
    second: Option<u32>,
    weight: u32,
    due: u32,
    release: u32,
    // The cost is `base`, and `later` from `step` on.
    base: u32,
    step: u32,
    later: u32,
}

impl Numbers {
    fn draw(draws: &mut Draws, machines: Machines, job: u32) -> Numbers {
        let (time, second) = if machines == Machines::Shop {
            (draws.below(50), Some(draws.below(50)))
        } else {
            (1 + draws.below(50), None)
        };
        let weight = draws.below(20);
        let due = draws.below(1_000);
        let release = draws.below(1_000);
        let base = draws.below(100);
        let step = draws.below(1_000);
        Numbers {
            job,
            time,
            second,
            weight,
            due,
            release,
            base,
            step,
            later: base + 10,
        }
    }
}

/// Jobs, and for each job from the second on one that precedes it.
#[derive(Drop)]
pub struct Drawn {
    machines: Machines,
    count: u32,
    jobs: Vec<Numbers>,
    arcs: Vec<(u32, u32)>,
}

impl Drawn {
    /// So many jobs.
    pub fn new(alloc: Global, machines: Machines, count: u32) -> Result<Drawn, AllocError> {
        let mut draws = Draws::new();
        let mut jobs = Vec::new(alloc);
        for before in 0..count {
            jobs.push(Numbers::draw(&mut draws, machines, before + 1))?;
        }
        let mut arcs = Vec::new(alloc);
        for earlier in 1..count {
            arcs.push((1 + draws.below(earlier), earlier + 1))?;
        }
        Ok(Drawn {
            machines,
            count,
            jobs,
            arcs,
        })
    }

    /// A job table of all fields and arcs.
    pub fn table(&self, alloc: Global) -> Result<String, AllocError> {
        let mut text = String::from_str(alloc, self.head())?;
        for numbers in &self.jobs {
            push_job(&mut text, numbers)?;
        }
        for (before, after) in &self.arcs {
            push_pair(&mut text, "\nprec ", *before, *after)?;
        }
        text.push_str("\n")?;
        Ok(text)
    }

    fn head(&self) -> &'static str {
        match self.machines {
            Machines::Seven => "table 1\nmachines 7",
            Machines::One | Machines::Shop => "table 1",
        }
    }

    /// The only instance of a weighted tardiness file.
    pub fn tardiness(&self, alloc: Global) -> Result<String, AllocError> {
        let mut text = String::new(alloc);
        for place in 0..3 {
            push_column(&mut text, &self.jobs, place)?;
        }
        Ok(text)
    }

    /// A flow shop file of one instance, by the name `drawn`.
    pub fn flow_shop(&self, alloc: Global) -> Result<String, AllocError> {
        let mut text = String::from_str(alloc, "instance drawn")?;
        push_pair(&mut text, "\n", self.count, 2)?;
        push_operations(&mut text, &self.jobs)?;
        Ok(text)
    }
}

/// A word before a number. Each `write!` takes the prover as long as some calls of this.
pub fn push_part(text: &mut String, word: &str, number: u32) -> Result<(), AllocError> {
    write!(text, "{word}{number}")
}

/// A word before two numbers.
pub fn push_pair(text: &mut String, word: &str, first: u32, second: u32) -> Result<(), AllocError> {
    push_part(text, word, first)?;
    push_part(text, " ", second)
}

/// The times of the jobs, their weights, or their due dates.
fn push_column(text: &mut String, jobs: &[Numbers], place: u32) -> Result<(), AllocError> {
    for job in jobs {
        let number = match place {
            0 => job.time,
            1 => job.weight,
            _ => job.due,
        };
        push_part(text, "\n", number)?;
    }
    Ok(())
}

/// The times of the jobs on both machines.
fn push_operations(text: &mut String, jobs: &[Numbers]) -> Result<(), AllocError> {
    for job in jobs {
        push_part(text, "\n0 ", job.time)?;
        push_part(text, " 1 ", job.second.unwrap_or(0))?;
    }
    Ok(())
}

fn push_job(text: &mut String, numbers: &Numbers) -> Result<(), AllocError> {
    push_part(text, "\njob ", numbers.job)?;
    push_part(text, " p=", numbers.time)?;
    if let Some(second) = numbers.second {
        push_part(text, ",", second)?;
    }
    push_part(text, " w=", numbers.weight)?;
    push_part(text, " d=", numbers.due)?;
    push_part(text, " r=", numbers.release)?;
    push_part(text, " h=", numbers.base)?;
    push_part(text, ",", numbers.step)?;
    push_part(text, ":", numbers.later)
}

#[cfg(test)]
mod tests;
