//! What is written of the lower bound that a cost is held against.
ghost use Rattle.std.specs.Prelude.{◌≡◌, ◌++◌, OnOk};
ghost use Rattle.std.specs.List.{flat_map, join_with_byte};
ghost use Rattle.tf_text.specs.AnswerText.{line_text};
ghost use Rattle.tf_assess.specs.AssessmentText.{certificate_fault_words, offered_lines};
ghost use Rattle.tf_assess.specs.AssessmentText.{bound_lines};

use crate::offered::{Offered, Weighed};
use std::alloc::Allocator;
use tf_bound::fault::BoundFault;
use tf_bounding::writing::push_certificate;
use tf_evaluate::evaluation::Standing;
use tf_evaluate::reference::Reference;
use tf_evaluate::writing::{push_gap, push_named, push_some};
use tf_model::memory::OutOfMemory;
use tf_search::strongest::Found;
use tf_text::answer::writing::{push_number, push_number_line};

impl<M: Allocator> Weighed<M> {
    ghost use Rattle.std.specs.Prelude.{◌≡◌};
    ghost use Rattle.tf_assess.specs.Assessing.{best_in};

    // The least cost of a timetable that fits, where a schedule of this cost shows it: where it
    // costs the bound.
    fn best(&self, value: Option<i128>) -> Option<i128>
        ensures { result ≡ best_in value self.now.bound.value }
    {
        match value {
            Some(value) if value == self.bound.value => Some(value),
            _ => None,
        }
    }
}

impl<M: Allocator> Reference for Weighed<M> {
    ghost use Rattle.tf_assess.specs.Assessing.{rated_by_bound};
    ghost use Rattle.tf_assess.specs.AssessmentText.{weighed_lines};

    ghost rated = { λ w value. rated_by_bound w.bound.value value };

    ghost lines = { weighed_lines };

    fn standing(&self, value: Option<i128>) -> Standing {
        match self.best(value) {
            Some(_) => Standing::Best,
            None => Standing::Unproved,
        }
    }

    fn push<A: Allocator>(
        &self,
        text: &mut Vec<u8, A>,
        value: Option<i128>,
    ) -> Result<(), OutOfMemory> {
        push_some(text, b"best", self.best(value))?;
        push_gap(text, value, self.bound.value)?;
        push_offered(text, &self.offered)?;
        push_bound(text, &self.bound)?;
        Ok(())
    }
}

// What an offered bound comes to, if one was offered.
fn push_offered<A: Allocator>(
    text: &mut Vec<u8, A>,
    offered: &Option<Offered>,
) -> Result<(), OutOfMemory>
    ensures { OnOk result
        (text.new.items ≡ text.old.items ++ flat_map line_text (offered_lines offered.now)) }
{
    match offered {
        None => Ok(()),
        Some(Offered::Bounds(value)) => push_number_line(text, b"offered", *value),
        Some(Offered::WrongValue(value)) => {
            push_number_line(text, b"offered WrongValue", *value)
        }
        Some(Offered::OtherTask) => Ok(text.extend_from_slice(b"offered OtherTask\n")?),
        Some(Offered::Faulty(fault)) => {
            text.extend_from_slice(b"offered ")?;
            push_certificate_fault(text, fault)?;
            text.push(b'\n')?;
            Ok(())
        }
    }
}

// Why a certificate bounds nothing, by its name and its arguments.
fn push_certificate_fault<A: Allocator>(
    text: &mut Vec<u8, A>,
    fault: &BoundFault,
) -> Result<(), OutOfMemory>
    ensures { OnOk result
        (text.new.items ≡ text.old.items ++ join_with_byte 32 (certificate_fault_words fault.now)) }
{
    match *fault {
        BoundFault::OtherKind => text.extend_from_slice(b"OtherKind")?,
        BoundFault::NoDenominator => text.extend_from_slice(b"NoDenominator")?,
        BoundFault::BadMachine(machine) => {
            text.extend_from_slice(b"BadMachine")?;
            push_number(text, machine as u128 + 1)?;
        }
        BoundFault::BadJob(job) => push_named(text, b"BadJob", job)?,
        BoundFault::Repeated(job) => push_named(text, b"Repeated", job)?,
        BoundFault::TooFew => text.extend_from_slice(b"TooFew")?,
        BoundFault::Numerators => text.extend_from_slice(b"Numerators")?,
        BoundFault::Condition(job) => push_named(text, b"Condition", job)?,
        BoundFault::MachineOrder => text.extend_from_slice(b"MachineOrder")?,
        BoundFault::BadDelta => text.extend_from_slice(b"BadDelta")?,
        BoundFault::HasRoom => text.extend_from_slice(b"HasRoom")?,
        BoundFault::TooLarge => text.extend_from_slice(b"TooLarge")?,
        BoundFault::OutOfMemory => text.extend_from_slice(b"OutOfMemory")?,
    }
    Ok(())
}

// The bound and its certificate.
fn push_bound<A: Allocator, M: Allocator>(
    text: &mut Vec<u8, A>,
    bound: &Found<M>,
) -> Result<(), OutOfMemory>
    ensures { OnOk result
        (text.new.items ≡ text.old.items ++ flat_map line_text (bound_lines bound.now)) }
{
    push_number_line(text, b"bound", bound.value)?;
    push_certificate(text, &bound.certificate)?;
    Ok(())
}
