//! A bound that a text offers, judged for the task of a problem.
ghost use Rattle.std.specs.Prelude.{◌≡◌, ◌⊎◌, ◌≤ℤ◌, Some, IfOk};
ghost use Rattle.tf_search.specs.Strongest.{IsFound};
ghost use Rattle.tf_assess.specs.Assessing.{Counts, IsOffer, IsUsed, IsWeighed};

use crate::assess::is_for;
use std::alloc::{Allocator, Global};
use tf_bound::certificate::BoundCertificate;
use tf_bound::fault::BoundFault;
use tf_bound::task::ProblemTask;
use tf_bound_text::sheet::BoundSheet;
use tf_model::memory::OutOfMemory;
use tf_search::effort::Effort;
use tf_search::strongest::Found;

/// What the search for a lower bound goes by.
#[derive(Drop)]
pub struct Aids<P, A: Allocator = Global> {
    /// The steps of the search for prices, as many as usual where there is none, and to whom each
    /// is shown.
    pub effort: Effort<P>,
    /// What the text of a bound says, which is judged beside the bounds that are found.
    pub offered: Option<BoundSheet<A>>,
}

/// What an offered bound comes to on a task.
#[derive(Clone, Copy, Debug, PartialEq, Eq)]
pub enum Offered {
    /// It is proved, and this is the value that it states.
    Bounds(i128),
    /// It is for another problem, or for other numbers of jobs or machines.
    OtherTask,
    /// Its certificate has this value, and it states another one.
    WrongValue(i128),
    /// Its certificate bounds nothing.
    Faulty(BoundFault),
}

/// The strongest lower bound that was found or is offered, against which costs are held.
#[derive(Drop)]
pub struct Weighed<A: Allocator = Global> {
    /// What the bound that was offered comes to; `None` where none was.
    pub offered: Option<Offered>,
    pub bound: Found<A>,
}

/// What an offered bound comes to on a task. Only want of memory is an error.
fn judge_offer<A: Allocator + Copy, B: Allocator>(
    alloc: A,
    task: &ProblemTask<B>,
    sheet: &BoundSheet<A>,
) -> Result<Offered, OutOfMemory>
    ensures { IfOk result (IsOffer task.now sheet.now) }
{
    if !is_for(task, &sheet.problem, sheet.jobs, sheet.machines) {
        return Ok(Offered::OtherTask);
    }
    match sheet.certificate.bound(alloc, task) {
        Ok(value) if value == i128::from(sheet.value) => Ok(Offered::Bounds(value)),
        Ok(value) => Ok(Offered::WrongValue(value)),
        Err(BoundFault::OutOfMemory) => Err(OutOfMemory),
        Err(fault) => Ok(Offered::Faulty(fault)),
    }
}

// The bound that was found, or the certificate of this value where that is greater.
fn stronger<A: Allocator>(
    found: Found<A>,
    value: i128,
    certificate: BoundCertificate<A>,
) -> Found<A>
    ensures either { (result ≡ found) ⊎ (result ≡ record {
      value = value;
      certificate = certificate;
    }) }
    ensures least { value ≤ℤ result.value }
{
    if value <= found.value {
        found
    } else {
        Found { value, certificate }
    }
}

// The bound that was found, or the certificate where what it offers is a stronger one.
fn used<A: Allocator>(
    found: Found<A>,
    offered: &Offered,
    certificate: BoundCertificate<A>,
) -> Found<A>
    ensures either { IsUsed found offered.now certificate result }
    ensures counts { Counts (Some offered.now) result }
{
    match offered {
        Offered::Bounds(value) => stronger(found, *value, certificate),
        _ => found,
    }
}

/// The bound that was found beside the one that is offered, if any is. Only want of memory is an
/// error.
pub fn weigh<A: Allocator + Copy, B: Allocator>(
    alloc: A,
    task: &ProblemTask<B>,
    offer: Option<BoundSheet<A>>,
    found: Found<A>,
) -> Result<Weighed<A>, OutOfMemory>
    requires { IsFound task.now found }
    ensures { IfOk result (IsWeighed task.now offer) }
{
    let Some(sheet) = offer else {
        return Ok(Weighed {
            offered: None,
            bound: found,
        });
    };
    let offered = judge_offer(alloc, task, &sheet)?;
    let bound = used(found, &offered, sheet.certificate);
    Ok(Weighed {
        offered: Some(offered),
        bound,
    })
}
