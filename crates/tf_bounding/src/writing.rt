//! Texts of bounds, written.
ghost use Rattle.std.specs.Prelude.{◌≡◌, [], ◌∷◌, ◌++◌, codes, length, map, IfOk, OnOk};
ghost use Rattle.std.specs.List.{flat_map};
ghost use Rattle.tf_text.specs.AnswerText.{line_text};
ghost use Rattle.std.specs.Fmt.{decimal, signed_decimal};
ghost use Rattle.tf_bounding.specs.BoundText.{arc_lines, certificate_lines, bound_text, which_word};

use std::alloc::Allocator;
use tf_bound::certificate::BoundCertificate;
use tf_bound::task::ProblemTask;
use tf_model::ids::JobId;
use tf_model::memory::OutOfMemory;
use tf_notation::writing::notation_text;
use tf_search::strongest::Found;
use tf_text::answer::writing::{push_number, push_number_line};

/// The text of a bound of a task, each line ended by a line feed.
pub fn bound_bytes<A: Allocator + Copy, B: Allocator, C: Allocator>(
    alloc: A,
    task: &ProblemTask<B>,
    found: &Found<C>,
) -> Result<Vec<u8, A>, OutOfMemory>
    ensures { IfOk result (λ text. text.items
        ≡ bound_text task.now (length task.now.jobs) found.now.value found.now.certificate) }
{
    let notation = notation_text(alloc, &task.problem())?;
    let mut text = Vec::from_slice(alloc, b"bound 1\nproblem ")?;
    text.extend_from_slice(notation.as_bytes())?;
    text.push(b'\n')?;
    push_number_line(&mut text, b"jobs", task.len() as u64)?;
    push_number_line(&mut text, b"machines", task.machines())?;
    push_number_line(&mut text, b"value", found.value)?;
    push_certificate(&mut text, &found.certificate)?;
    text.extend_from_slice(b"end\n")?;
    Ok(text)
}

fn push_jobs<A: Allocator>(text: &mut Vec<u8, A>, jobs: &[JobId]) -> Result<(), OutOfMemory>
    ensures { OnOk result (text.new.items
        ≡ text.old.items ++ flat_map (λ word. 32 ∷ word) (map decimal jobs.now)) }
{
    for job in jobs {
        push_number(text, job.get())?;
    }
    Ok(())
}

fn push_numbers<A: Allocator>(text: &mut Vec<u8, A>, numbers: &[u64]) -> Result<(), OutOfMemory>
    ensures { OnOk result (text.new.items
        ≡ text.old.items ++ flat_map (λ word. 32 ∷ word) (map decimal numbers.now)) }
{
    for number in numbers {
        push_number(text, *number)?;
    }
    Ok(())
}

// Adds a line of a word and jobs.
fn push_listed<A: Allocator>(
    text: &mut Vec<u8, A>,
    word: &[u8],
    jobs: &[JobId],
) -> Result<(), OutOfMemory>
    ensures { OnOk result (text.new.items
        ≡ text.old.items ++ flat_map line_text ((word.now ∷ map decimal jobs.now) ∷ [])) }
{
    text.extend_from_slice(word)?;
    push_jobs(text, jobs)?;
    text.push(b'\n')?;
    Ok(())
}

// Adds a line of a word, a number and jobs.
fn push_counted<A: Allocator>(
    text: &mut Vec<u8, A>,
    word: &[u8],
    number: u128,
    jobs: &[JobId],
) -> Result<(), OutOfMemory>
    ensures { OnOk result (text.new.items ≡ text.old.items
        ++ flat_map line_text ((word.now ∷ decimal number ∷ map decimal jobs.now) ∷ [])) }
{
    text.extend_from_slice(word)?;
    push_number(text, number)?;
    push_jobs(text, jobs)?;
    text.push(b'\n')?;
    Ok(())
}

// Adds the line of one job.
#[tactic(auto, using(crate::proofs::Written::only_line))]
fn push_job<A: Allocator>(text: &mut Vec<u8, A>, job: JobId) -> Result<(), OutOfMemory>
    ensures { OnOk result (text.new.items
        ≡ text.old.items ++ flat_map line_text ((codes "job" ∷ decimal job ∷ []) ∷ [])) }
{
    push_number_line(text, b"job", job.get())?;
    Ok(())
}

// Adds the lines of multipliers on a machine, counted from 1.
fn push_multipliers<A: Allocator>(
    text: &mut Vec<u8, A>,
    machine: u128,
    q: u64,
    numerators: &[u64],
    arcs: &[u64],
) -> Result<(), OutOfMemory>
    ensures { OnOk result (text.new.items ≡ text.old.items ++ flat_map line_text
        ((codes "multipliers" ∷ decimal machine ∷ decimal q ∷ map decimal numerators.now)
        ∷ arc_lines arcs.now)) }
{
    text.extend_from_slice(b"multipliers")?;
    push_number(text, machine)?;
    push_number(text, q)?;
    push_numbers(text, numerators)?;
    text.push(b'\n')?;
    push_arcs(text, arcs)?;
    Ok(())
}

// Adds the line of the arcs' multipliers, if there are any.
fn push_arcs<A: Allocator>(text: &mut Vec<u8, A>, arcs: &[u64]) -> Result<(), OutOfMemory>
    ensures { OnOk result
        (text.new.items ≡ text.old.items ++ flat_map line_text (arc_lines arcs.now)) }
{
    if arcs.is_empty() {
        return Ok(());
    }
    text.extend_from_slice(b"arcs")?;
    push_numbers(text, arcs)?;
    text.push(b'\n')?;
    Ok(())
}

// Adds the line of prices.
fn push_prices<A: Allocator>(text: &mut Vec<u8, A>, q: u64, rows: &[u64]) -> Result<(), OutOfMemory>
    ensures { OnOk result (text.new.items ≡ text.old.items
        ++ flat_map line_text ((codes "prices" ∷ decimal q ∷ map decimal rows.now) ∷ [])) }
{
    text.extend_from_slice(b"prices")?;
    push_number(text, q)?;
    push_numbers(text, rows)?;
    text.push(b'\n')?;
    Ok(())
}

// Adds the line of prices on a machine.
fn push_machine_prices<A: Allocator>(
    text: &mut Vec<u8, A>,
    machine: u128,
    q: u64,
    rows: &[u64],
) -> Result<(), OutOfMemory>
    ensures { OnOk result (text.new.items ≡ text.old.items ++ flat_map line_text
        ((codes "prices_on" ∷ decimal machine ∷ decimal q ∷ map decimal rows.now) ∷ [])) }
{
    text.extend_from_slice(b"prices_on")?;
    push_number(text, machine)?;
    push_number(text, q)?;
    push_numbers(text, rows)?;
    text.push(b'\n')?;
    Ok(())
}

// Adds the line of the jobs alone.
fn push_alone<A: Allocator>(text: &mut Vec<u8, A>) -> Result<(), OutOfMemory>
    ensures { OnOk result (text.new.items
        ≡ text.old.items ++ flat_map line_text ((codes "alone" ∷ []) ∷ [])) }
{
    text.extend_from_slice(b"alone\n")?;
    Ok(())
}

// Adds a blank and the word for the machine on which delta is reached.
fn push_which<A: Allocator>(text: &mut Vec<u8, A>, by_first: bool) -> Result<(), OutOfMemory>
    ensures { OnOk result (text.new.items ≡ text.old.items ++ 32 ∷ which_word by_first) }
{
    let word: &[u8] = if by_first { b" first" } else { b" second" };
    text.extend_from_slice(word)?;
    Ok(())
}

// Adds the line of two machines, counted from 1, and a side.
fn push_pair<A: Allocator>(
    text: &mut Vec<u8, A>,
    first: u128,
    second: u128,
    delta: u64,
    by_first: bool,
    side: &[JobId],
) -> Result<(), OutOfMemory>
    ensures { OnOk result (text.new.items ≡ text.old.items ++ flat_map line_text
        ((codes "pair" ∷ decimal first ∷ decimal second ∷ which_word by_first ∷ decimal delta
        ∷ map decimal side.now) ∷ [])) }
{
    text.extend_from_slice(b"pair")?;
    push_number(text, first)?;
    push_number(text, second)?;
    push_which(text, by_first)?;
    push_number(text, delta)?;
    push_jobs(text, side)?;
    text.push(b'\n')?;
    Ok(())
}

// Adds the line of the parts of jobs in an interval.
fn push_parts<A: Allocator>(
    text: &mut Vec<u8, A>,
    from: u64,
    until: u64,
    late: i64,
    jobs: &[JobId],
) -> Result<(), OutOfMemory>
    ensures { OnOk result (text.new.items ≡ text.old.items ++ flat_map line_text
        ((codes "parts" ∷ decimal from ∷ decimal until ∷ signed_decimal late
        ∷ map decimal jobs.now) ∷ [])) }
{
    text.extend_from_slice(b"parts")?;
    push_number(text, from)?;
    push_number(text, until)?;
    push_number(text, late)?;
    push_jobs(text, jobs)?;
    text.push(b'\n')?;
    Ok(())
}

fn push_values<A: Allocator>(text: &mut Vec<u8, A>, numbers: &[i64]) -> Result<(), OutOfMemory>
    ensures { OnOk result (text.new.items
        ≡ text.old.items ++ flat_map (λ word. 32 ∷ word) (map signed_decimal numbers.now)) }
{
    for number in numbers {
        push_number(text, *number)?;
    }
    Ok(())
}

// Adds the line of potentials.
fn push_potentials<A: Allocator>(text: &mut Vec<u8, A>, numbers: &[i64]) -> Result<(), OutOfMemory>
    ensures { OnOk result (text.new.items ≡ text.old.items
        ++ flat_map line_text ((codes "potentials" ∷ map signed_decimal numbers.now) ∷ [])) }
{
    text.extend_from_slice(b"potentials")?;
    push_values(text, numbers)?;
    text.push(b'\n')?;
    Ok(())
}

/// Adds the lines of a certificate.
pub fn push_certificate<A: Allocator, C: Allocator>(
    text: &mut Vec<u8, A>,
    certificate: &BoundCertificate<C>,
) -> Result<(), OutOfMemory>
    ensures { OnOk result (text.new.items
        ≡ text.old.items ++ flat_map line_text (certificate_lines certificate.now)) }
{
    match certificate {
        BoundCertificate::Machine { machine, jobs } => {
            push_counted(text, b"machine", *machine as u128 + 1, jobs)
        }
        BoundCertificate::Window { jobs } => push_listed(text, b"window", jobs),
        BoundCertificate::Crowd { h, jobs } => push_counted(text, b"crowd", u128::from(*h), jobs),
        BoundCertificate::OneJob { job } => push_job(text, *job),
        BoundCertificate::Multipliers {
            machine,
            q,
            numerators,
            arcs,
        } => push_multipliers(text, *machine as u128 + 1, *q, numerators, arcs),
        BoundCertificate::Prices { q, rows } => push_prices(text, *q, rows),
        BoundCertificate::MachinePrices { machine, q, rows } => {
            push_machine_prices(text, *machine as u128 + 1, *q, rows)
        }
        BoundCertificate::Alone => push_alone(text),
        BoundCertificate::Kept { jobs } => push_listed(text, b"kept", jobs),
        BoundCertificate::Shortest { jobs } => push_listed(text, b"shortest", jobs),
        BoundCertificate::Ranks { jobs } => push_listed(text, b"ranks", jobs),
        BoundCertificate::Split {
            first,
            second,
            delta,
            by_first,
            side,
        } => {
            let first = *first as u128 + 1;
            push_pair(text, first, *second as u128 + 1, *delta, *by_first, side)
        }
        BoundCertificate::Parts {
            from,
            until,
            late,
            jobs,
        } => push_parts(text, *from, *until, *late, jobs),
        BoundCertificate::Potentials { numbers } => push_potentials(text, numbers),
    }
}
