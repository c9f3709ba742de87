//! The line of a certificate: its kind, its numbers and its jobs.
ghost use Rattle.std.specs.Prelude.{◌≡◌};
ghost use Rattle.tf_words.specs.Words.{words};
ghost use Rattle.tf_bound_text.specs.BoundSheetData.{basis_of};
ghost use Rattle.tf_bound_text.specs.BoundReading.{Gives, machine_basis, crowd_basis};
ghost use Rattle.tf_bound_text.specs.BoundReading.{multiplier_basis, price_basis, one_job_basis};
ghost use Rattle.tf_bound_text.specs.BoundReading.{window_basis, alone_basis, kind_in, basis_in};
ghost use Rattle.tf_bound_text.specs.BoundReading.{kept_basis, shortest_basis, ranks_basis};
ghost use Rattle.tf_bound_text.specs.BoundReading.{parts_basis, machine_price_basis, is_first};
ghost use Rattle.tf_bound_text.specs.BoundReading.{split_basis, potentials_basis};

use crate::fault::BoundTextFault;
use crate::number::{
    first_number, first_value, jobs_from, natural, numbers_from, only, values_from,
};
use std::alloc::Allocator;
use tf_bound::certificate::BoundCertificate;
use tf_model::ids::JobId;
use tf_model::limit::{LIMIT, MOST_JOBS, MOST_MACHINES};
use tf_words::word::{first_word, is};

/// Reads a machine and jobs.
#[tactic(auto, unfolding(crate::specs::BoundReading::machine_basis))]
fn machine_in<A: Allocator>(
    alloc: A,
    line: u32,
    text: &[u8],
) -> Result<BoundCertificate<A>, BoundTextFault>
    ensures { Gives basis_of result (machine_basis line (words text.now)) }
{
    let (machine, rest) = first_number(line, 1, u64::from(MOST_MACHINES), text)?;
    let jobs = jobs_from(alloc, line, rest)?;
    Ok(BoundCertificate::Machine {
        machine: machine as usize - 1,
        jobs,
    })
}

/// Reads jobs of a window.
#[tactic(auto, unfolding(crate::specs::BoundReading::window_basis))]
fn window_in<A: Allocator>(
    alloc: A,
    line: u32,
    text: &[u8],
) -> Result<BoundCertificate<A>, BoundTextFault>
    ensures { Gives basis_of result (window_basis line (words text.now)) }
{
    let jobs = jobs_from(alloc, line, text)?;
    Ok(BoundCertificate::Window { jobs })
}

/// Reads how many jobs each machine takes, and jobs.
#[tactic(auto, unfolding(crate::specs::BoundReading::crowd_basis))]
fn crowd_in<A: Allocator>(
    alloc: A,
    line: u32,
    text: &[u8],
) -> Result<BoundCertificate<A>, BoundTextFault>
    ensures { Gives basis_of result (crowd_basis line (words text.now)) }
{
    let (h, rest) = first_number(line, 0, MOST_JOBS as u64, text)?;
    let jobs = jobs_from(alloc, line, rest)?;
    Ok(BoundCertificate::Crowd { h: h as u32, jobs })
}

/// Reads one job.
#[tactic(auto, unfolding(crate::specs::BoundReading::one_job_basis))]
fn one_job_in<A: Allocator>(line: u32, text: &[u8]) -> Result<BoundCertificate<A>, BoundTextFault>
    ensures { Gives basis_of result (one_job_basis line (words text.now)) }
{
    let word = only(line, text)?;
    let number = natural(line, 1, MOST_JOBS as u64, word)?;
    Ok(BoundCertificate::OneJob {
        job: JobId::new(number as u32).unwrap(),
    })
}

/// Reads a machine, a denominator and numerators.
#[tactic(auto, unfolding(crate::specs::BoundReading::multiplier_basis))]
fn multipliers_in<A: Allocator + Copy>(
    alloc: A,
    line: u32,
    text: &[u8],
) -> Result<BoundCertificate<A>, BoundTextFault>
    ensures { Gives basis_of result (multiplier_basis line (words text.now)) }
{
    let (machine, rest) = first_number(line, 1, u64::from(MOST_MACHINES), text)?;
    let (q, rest) = first_number(line, 0, LIMIT as u64, rest)?;
    let numerators = numbers_from(alloc, line, rest)?;
    Ok(BoundCertificate::Multipliers {
        machine: machine as usize - 1,
        q,
        numerators,
        arcs: Vec::new(alloc),
    })
}

/// Reads a denominator and prices.
#[tactic(auto, unfolding(crate::specs::BoundReading::price_basis))]
fn prices_in<A: Allocator>(
    alloc: A,
    line: u32,
    text: &[u8],
) -> Result<BoundCertificate<A>, BoundTextFault>
    ensures { Gives basis_of result (price_basis line (words text.now)) }
{
    let (q, rest) = first_number(line, 0, LIMIT as u64, text)?;
    let rows = numbers_from(alloc, line, rest)?;
    Ok(BoundCertificate::Prices { q, rows })
}

/// Reads a machine, a denominator and prices.
#[tactic(auto, unfolding(crate::specs::BoundReading::machine_price_basis))]
fn machine_prices_in<A: Allocator>(
    alloc: A,
    line: u32,
    text: &[u8],
) -> Result<BoundCertificate<A>, BoundTextFault>
    ensures { Gives basis_of result (machine_price_basis line (words text.now)) }
{
    let (machine, rest) = first_number(line, 1, u64::from(MOST_MACHINES), text)?;
    let (q, rest) = first_number(line, 0, LIMIT as u64, rest)?;
    let rows = numbers_from(alloc, line, rest)?;
    Ok(BoundCertificate::MachinePrices {
        machine: machine as usize - 1,
        q,
        rows,
    })
}

/// Reads no word.
fn alone_in<A: Allocator>(line: u32, text: &[u8]) -> Result<BoundCertificate<A>, BoundTextFault>
    ensures { Gives basis_of result (alone_basis line (words text.now)) }
{
    match first_word(text) {
        None => Ok(BoundCertificate::Alone),
        Some(_) => Err(BoundTextFault::BadLine(line)),
    }
}

/// Reads jobs by due date.
#[tactic(auto, unfolding(crate::specs::BoundReading::kept_basis))]
fn kept_in<A: Allocator>(
    alloc: A,
    line: u32,
    text: &[u8],
) -> Result<BoundCertificate<A>, BoundTextFault>
    ensures { Gives basis_of result (kept_basis line (words text.now)) }
{
    let jobs = jobs_from(alloc, line, text)?;
    Ok(BoundCertificate::Kept { jobs })
}

/// Reads jobs by release date.
#[tactic(auto, unfolding(crate::specs::BoundReading::shortest_basis))]
fn shortest_in<A: Allocator>(
    alloc: A,
    line: u32,
    text: &[u8],
) -> Result<BoundCertificate<A>, BoundTextFault>
    ensures { Gives basis_of result (shortest_basis line (words text.now)) }
{
    let jobs = jobs_from(alloc, line, text)?;
    Ok(BoundCertificate::Shortest { jobs })
}

/// Reads jobs by falling processing time.
#[tactic(auto, unfolding(crate::specs::BoundReading::ranks_basis))]
fn ranks_in<A: Allocator>(
    alloc: A,
    line: u32,
    text: &[u8],
) -> Result<BoundCertificate<A>, BoundTextFault>
    ensures { Gives basis_of result (ranks_basis line (words text.now)) }
{
    let jobs = jobs_from(alloc, line, text)?;
    Ok(BoundCertificate::Ranks { jobs })
}

/// Reads the word `first` or `second`, and returns the text after it.
fn is_first(line: u32, text: &[u8]) -> Result<(bool, &[u8]), BoundTextFault>
    ensures { Gives (λ x. (x.0, words x.1.now)) result (is_first line (words text.now)) }
{
    match first_word(text) {
        None => Err(BoundTextFault::BadLine(line)),
        Some((word, after)) => {
            if is(word, b"first") {
                Ok((true, after))
            } else if is(word, b"second") {
                Ok((false, after))
            } else {
                Err(BoundTextFault::BadLine(line))
            }
        }
    }
}

/// Reads two machines, on which of them delta is reached, delta, and the jobs of the side.
#[tactic(auto, unfolding(crate::specs::BoundReading::split_basis))]
fn split_in<A: Allocator>(
    alloc: A,
    line: u32,
    text: &[u8],
) -> Result<BoundCertificate<A>, BoundTextFault>
    ensures { Gives basis_of result (split_basis line (words text.now)) }
{
    let (first, rest) = first_number(line, 1, u64::from(MOST_MACHINES), text)?;
    let (second, rest) = first_number(line, 1, u64::from(MOST_MACHINES), rest)?;
    let (by_first, rest) = is_first(line, rest)?;
    let (delta, rest) = first_number(line, 0, LIMIT as u64, rest)?;
    let side = jobs_from(alloc, line, rest)?;
    Ok(BoundCertificate::Split {
        first: first as usize - 1,
        second: second as usize - 1,
        delta,
        by_first,
        side,
    })
}

/// Reads an interval, a lateness, and jobs.
#[tactic(auto, unfolding(crate::specs::BoundReading::parts_basis))]
fn parts_in<A: Allocator>(
    alloc: A,
    line: u32,
    text: &[u8],
) -> Result<BoundCertificate<A>, BoundTextFault>
    ensures { Gives basis_of result (parts_basis line (words text.now)) }
{
    let (from, rest) = first_number(line, 0, LIMIT as u64, text)?;
    let (until, rest) = first_number(line, 0, LIMIT as u64, rest)?;
    let (late, rest) = first_value(line, rest)?;
    let jobs = jobs_from(alloc, line, rest)?;
    Ok(BoundCertificate::Parts {
        from,
        until,
        late,
        jobs,
    })
}

/// Reads a number for the end, and two for each job.
#[tactic(auto, unfolding(crate::specs::BoundReading::potentials_basis))]
fn potentials_in<A: Allocator>(
    alloc: A,
    line: u32,
    text: &[u8],
) -> Result<BoundCertificate<A>, BoundTextFault>
    ensures { Gives basis_of result (potentials_basis line (words text.now)) }
{
    let numbers = values_from(alloc, line, text)?;
    Ok(BoundCertificate::Potentials { numbers })
}

/// Reads a certificate of this kind from the words that follow it.
#[tactic(auto, unfolding(crate::specs::BoundReading::kind_in))]
fn kind_in<A: Allocator + Copy>(
    alloc: A,
    line: u32,
    kind: &[u8],
    text: &[u8],
) -> Result<BoundCertificate<A>, BoundTextFault>
    ensures { Gives basis_of result (kind_in line kind.now (words text.now)) }
{
    if is(kind, b"machine") {
        machine_in(alloc, line, text)
    } else if is(kind, b"window") {
        window_in(alloc, line, text)
    } else if is(kind, b"crowd") {
        crowd_in(alloc, line, text)
    } else if is(kind, b"job") {
        one_job_in(line, text)
    } else if is(kind, b"multipliers") {
        multipliers_in(alloc, line, text)
    } else if is(kind, b"prices") {
        prices_in(alloc, line, text)
    } else if is(kind, b"prices_on") {
        machine_prices_in(alloc, line, text)
    } else if is(kind, b"alone") {
        alone_in(line, text)
    } else if is(kind, b"kept") {
        kept_in(alloc, line, text)
    } else if is(kind, b"shortest") {
        shortest_in(alloc, line, text)
    } else if is(kind, b"ranks") {
        ranks_in(alloc, line, text)
    } else if is(kind, b"pair") {
        split_in(alloc, line, text)
    } else if is(kind, b"parts") {
        parts_in(alloc, line, text)
    } else if is(kind, b"potentials") {
        potentials_in(alloc, line, text)
    } else {
        Err(BoundTextFault::BadLine(line))
    }
}

/// Reads the line of a certificate.
pub(crate) fn certificate_in<A: Allocator + Copy>(
    alloc: A,
    line: u32,
    text: &[u8],
) -> Result<BoundCertificate<A>, BoundTextFault>
    ensures { Gives basis_of result (basis_in line (words text.now)) }
{
    match first_word(text) {
        None => Err(BoundTextFault::BadLine(line)),
        Some((kind, rest)) => kind_in(alloc, line, kind, rest),
    }
}
