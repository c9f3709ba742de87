//! The line that a check prints.
ghost use Rattle.std.specs.Prelude.{◌≡◌, [], ◌∷◌, ◌++◌, OnOk, IfOk};
ghost use Rattle.std.specs.List.{join_with_byte};
ghost use Rattle.tf_engine.specs.VerdictLine.{piece_fault_words, misfit_words, bound_fault_words};
ghost use Rattle.tf_engine.specs.VerdictLine.{reason_words, verdict_line};

use crate::run_check::Checked;
use itoa::Integer;
use std::alloc::Allocator;
use tf_check::fault::BoundFault;
use tf_check::verdict::Reason;
use tf_model::memory::OutOfMemory;
use tf_schedule::fit::Misfit;
use tf_schedule::schedule::PieceFault;
use tf_text::answer::writing::push_number;

/// The line of a verdict: `accepted`, or `rejected: ` and the reason by its name and its arguments.
pub fn verdict_bytes<A: Allocator + Copy>(
    alloc: A,
    checked: &Checked,
) -> Result<Vec<u8, A>, OutOfMemory>
    ensures { IfOk result (λ text. text.items ≡ verdict_line checked.now) }
{
    let mut text = Vec::new(alloc);
    match checked {
        Checked::Accepted => text.extend_from_slice(b"accepted\n")?,
        Checked::OtherTask => text.extend_from_slice(b"rejected: OtherTask\n")?,
        Checked::Rejected(reason) => {
            text.extend_from_slice(b"rejected: ")?;
            push_reason(&mut text, reason)?;
            text.push(b'\n')?;
        }
    }
    Ok(text)
}

fn push_reason<A: Allocator>(text: &mut Vec<u8, A>, reason: &Reason) -> Result<(), OutOfMemory>
    ensures { OnOk result
        (text.new.items ≡ text.old.items ++ join_with_byte 32 (reason_words reason.now)) }
{
    match reason {
        Reason::Pieces(fault) => push_piece_fault(text, fault),
        Reason::Misfit(misfit) => push_misfit(text, misfit),
        Reason::WrongValue => push_name(text, b"WrongValue"),
        Reason::Bound(fault) => push_bound_fault(text, fault),
        Reason::BoundBelowValue => push_name(text, b"BoundBelowValue"),
    }
}

// A fault with one argument.
fn push_one<A: Allocator, I: Integer>(
    text: &mut Vec<u8, A>,
    name: &[u8],
    number: I,
) -> Result<(), OutOfMemory>
    ensures { OnOk result
        (text.new.items ≡ text.old.items ++ join_with_byte 32 (name.now ∷ I.text number ∷ [])) }
{
    text.extend_from_slice(name)?;
    push_number(text, number)
}

// A fault with two.
fn push_two<A: Allocator, I: Integer, J: Integer>(
    text: &mut Vec<u8, A>,
    name: &[u8],
    first: I,
    second: J,
) -> Result<(), OutOfMemory>
    ensures { OnOk result
        (text.new.items ≡ text.old.items
        ++ join_with_byte 32 (name.now ∷ I.text first ∷ J.text second ∷ [])) }
{
    text.extend_from_slice(name)?;
    push_number(text, first)?;
    push_number(text, second)
}

// A fault by its name alone.
fn push_name<A: Allocator>(text: &mut Vec<u8, A>, name: &[u8]) -> Result<(), OutOfMemory>
    ensures { OnOk result (text.new.items ≡ text.old.items ++ join_with_byte 32 (name.now ∷ [])) }
{
    text.extend_from_slice(name)?;
    Ok(())
}

/// Adds a fault of the pieces by its name and its arguments.
pub fn push_piece_fault<A: Allocator>(
    text: &mut Vec<u8, A>,
    fault: &PieceFault,
) -> Result<(), OutOfMemory>
    ensures { OnOk result
        (text.new.items ≡ text.old.items ++ join_with_byte 32 (piece_fault_words fault.now)) }
{
    match *fault {
        PieceFault::OutOfRange(piece) => push_one(text, b"OutOfRange", piece),
        PieceFault::EmptyPiece(piece) => push_one(text, b"EmptyPiece", piece),
        PieceFault::MachineTwice(machine, time) => {
            push_two(text, b"MachineTwice", machine.get(), time)
        }
    }
}

/// Adds a misfit by its name and its arguments.
pub fn push_misfit<A: Allocator>(text: &mut Vec<u8, A>, misfit: &Misfit) -> Result<(), OutOfMemory>
    ensures { OnOk result
        (text.new.items ≡ text.old.items ++ join_with_byte 32 (misfit_words misfit.now)) }
{
    match *misfit {
        Misfit::Stranger(job, machine) => push_two(text, b"Stranger", job.get(), machine.get()),
        Misfit::JobTwice(job, time) => push_two(text, b"JobTwice", job.get(), time),
        Misfit::WrongAmount(job) => push_one(text, b"WrongAmount", job.get()),
        Misfit::Broken(job) => push_one(text, b"Broken", job.get()),
        Misfit::TooEarly(job) => push_one(text, b"TooEarly", job.get()),
        Misfit::OutOfOrder(before, after) => {
            push_two(text, b"OutOfOrder", before.get(), after.get())
        }
        Misfit::OutOfMemory => push_name(text, b"OutOfMemory"),
    }
}

/// Adds a fault of a certificate by its name and its arguments.
pub fn push_bound_fault<A: Allocator>(
    text: &mut Vec<u8, A>,
    fault: &BoundFault,
) -> Result<(), OutOfMemory>
    ensures { OnOk result
        (text.new.items ≡ text.old.items ++ join_with_byte 32 (bound_fault_words fault.now)) }
{
    match *fault {
        BoundFault::OtherKind => push_name(text, b"OtherKind"),
        BoundFault::BadMachine(machine) => push_one(text, b"BadMachine", machine.get()),
        BoundFault::BadJob(job) => push_one(text, b"BadJob", job.get()),
        BoundFault::Repeated(job) => push_one(text, b"Repeated", job.get()),
        BoundFault::EmptySet => push_name(text, b"EmptySet"),
        BoundFault::Condition(job) => push_one(text, b"Condition", job.get()),
        BoundFault::BadDelta => push_name(text, b"BadDelta"),
        BoundFault::OutOfMemory => push_name(text, b"OutOfMemory"),
    }
}
