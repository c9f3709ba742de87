//! What an instance says and its problem does not use.
use crate::page::Page;
use crate::source::{Front, Source};
use std::alloc::AllocError;
use tf_model::class::Class;
use tf_model::job::Job;
use tf_model::prepare::Field;

/// What an instance says that a problem may have no use for: how many jobs have each field, how
/// many precedence constraints there are, and the number of machines.
#[derive(Clone, Copy)]
pub struct Said {
    weights: usize,
    dues: usize,
    releases: usize,
    costs: usize,
    arcs: usize,
    machines: Option<i64>,
}

impl Said {
    /// Of the file of a shop, whose jobs have nothing but their times.
    pub fn times_alone() -> Said {
        Said {
            weights: 0,
            dues: 0,
            releases: 0,
            costs: 0,
            arcs: 0,
            machines: None,
        }
    }

    /// Of a weighted tardiness file, each of whose jobs has a weight and a due date.
    pub fn of_tardiness(jobs: usize) -> Said {
        Said {
            weights: jobs,
            dues: jobs,
            ..Said::times_alone()
        }
    }

    /// Of a job table without a fault.
    pub fn of_table(table: &Source<'_>) -> Said {
        let mut said = Said::times_alone();
        for line in table.lines() {
            let line = line.bytes.trim_ascii_start();
            match line.first() {
                Some(b'j') => said.add_job(line),
                Some(b'p') => said.arcs = said.arcs.saturating_add(1),
                Some(b'm') => said.machines = Front::new(line).value(1),
                _ => (),
            }
        }
        said
    }

    // Adds the fields of a job's line, each of which is a letter with "=" behind it.
    fn add_job(&mut self, line: &[u8]) {
        let mut before = b' ';
        for byte in line {
            if *byte == b'=' {
                self.add(before);
            }
            before = *byte;
        }
    }

    // Adds the field of that letter.
    fn add(&mut self, letter: u8) {
        match letter {
            b'w' => self.weights = self.weights.saturating_add(1),
            b'd' => self.dues = self.dues.saturating_add(1),
            b'r' => self.releases = self.releases.saturating_add(1),
            b'h' => self.costs = self.costs.saturating_add(1),
            _ => (),
        }
    }

    // How many jobs have a field.
    fn jobs_with(&self, field: Field) -> usize {
        match field {
            Field::Weight => self.weights,
            Field::Due => self.dues,
            Field::Release => self.releases,
            Field::Cost => self.costs,
        }
    }
}

/// Notes on what the class does not use.
pub fn explain_unused(
    page: &mut Page,
    notation: &str,
    class: Class,
    machines: Option<u32>,
    said: &Said,
) -> Result<(), AllocError> {
    for field in &[Field::Weight, Field::Due, Field::Release, Field::Cost] {
        if !is_used(*field, class) {
            note(page, notation, *field, said.jobs_with(*field))?;
        }
    }
    let arcs = said.arcs;
    if arcs > 0 && !class.is_ordered() {
        writeln!(
            page.text,
            "{notation} ignores precedence constraints (lines \"prec\": {arcs})."
        )?;
    }
    let machines = machines.map(i64::from).or(said.machines);
    if !class.is_single() || matches!(machines, None | Some(1)) {
        return Ok(());
    }
    writeln!(
        page.text,
        "{notation} ignores the number of machines: it has one machine."
    )
}

fn is_used(field: Field, class: Class) -> bool {
    match field {
        Field::Weight => class.is_weighted(),
        Field::Due => class.is_due(),
        Field::Release => class.is_released(),
        Field::Cost => class.is_costed(),
    }
}

/// The letter of a field, and its name.
pub fn letter_of(field: Field) -> (&'static str, &'static str) {
    match field {
        Field::Weight => ("w=", "weight"),
        Field::Due => ("d=", "due date"),
        Field::Release => ("r=", "release date"),
        Field::Cost => ("h=", "cost function"),
    }
}

fn has(job: &Job, field: Field) -> bool {
    match field {
        Field::Weight => job.weight.is_some(),
        Field::Due => job.due.is_some(),
        Field::Release => job.release.is_some(),
        Field::Cost => job.cost.is_some(),
    }
}

/// How many jobs have a field.
pub fn count(jobs: &[Job], field: Field) -> usize {
    let mut count: usize = 0;
    for job in jobs {
        if has(job, field) {
            count = count.saturating_add(1);
        }
    }
    count
}

fn note(page: &mut Page, notation: &str, field: Field, jobs: usize) -> Result<(), AllocError> {
    if jobs == 0 {
        return Ok(());
    }
    let (letter, _) = letter_of(field);
    writeln!(
        page.text,
        "{notation} ignores {letter} (jobs that have it: {jobs})."
    )
}
