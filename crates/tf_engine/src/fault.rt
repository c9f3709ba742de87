//! Why a run gives no answer.
ghost use Rattle.std.specs.Prelude.{◌≡◌};
ghost use Rattle.tf_engine.specs.declared.fault.RunFault.TheVariants.{Device as DeviceFault};
ghost use Rattle.tf_engine.specs.declared.fault.RunFault.TheVariants.{OutOfMemory as NoMemory};
ghost use Rattle.tf_engine.specs.Passed.{of_notation, of_input, of_read, of_refusal, of_answer};
ghost use Rattle.tf_engine.specs.Passed.{of_solve, of_write, of_pieces};

use crate::solve::SolveFault;
use std::alloc::{Allocator, Global};
use tf_model::job_list::JobList;
use tf_model::memory::OutOfMemory;
use tf_model::prepare::Refusal;
use tf_notation::reading::NotationFault;
use tf_read::fault::ReadFault;
use tf_schedule::schedule::PieceFault;
use tf_text::answer::fault::AnswerFault;
use tf_text::answer::writing::WriteFault;
use tf_text::counted::Device;
use tf_text::input::InputFault;
use thiserror::Error;

/// Why a run gives no answer. Want of memory is always [`RunFault::OutOfMemory`], and never within
/// another variant.
#[derive(Drop, Error)]
#[derive_where(Debug, PartialEq, Eq)]
pub enum RunFault<A: Allocator = Global> {
    /// The problem line is no three-field notation.
    #[error("the problem is not in three-field notation: {0}")]
    Notation(NotationFault),
    /// The instance text is at fault.
    #[error("the instance text is at fault: {0}")]
    Text(ReadFault),
    /// The instance is no task of the problem.
    #[error("the instance is no task of the problem: {0}")]
    Task(Refusal),
    /// Each of these jobs precedes the next by an arc, and the last precedes the first.
    #[error("the arcs form a cycle")]
    Cycle(JobList<A>),
    /// The answer text is at fault.
    #[error("the answer text is at fault: {0}")]
    Answer(AnswerFault),
    /// The answer's pieces are no schedule.
    #[error("the pieces are no schedule: {0}")]
    Pieces(PieceFault),
    /// The reader or the writer failed.
    #[error("device fault")]
    Device,
    /// A growth was refused.
    #[error("want of memory")]
    OutOfMemory,
}

impl<A: Allocator> From<NotationFault> for RunFault<A> {
    ghost from_gives = { λ f e. e ≡ of_notation f };

    fn from(fault: NotationFault) -> RunFault<A> {
        RunFault::Notation(fault)
    }
}

impl<A: Allocator> From<InputFault> for RunFault<A> {
    ghost from_gives = { λ f e. e ≡ of_input f };

    fn from(fault: InputFault) -> RunFault<A> {
        match fault {
            InputFault::Device => RunFault::Device,
            InputFault::TooLong => RunFault::Text(ReadFault::TooLong),
            InputFault::OutOfMemory => RunFault::OutOfMemory,
        }
    }
}

impl<A: Allocator> From<ReadFault> for RunFault<A> {
    ghost from_gives = { λ f e. e ≡ of_read f };

    fn from(fault: ReadFault) -> RunFault<A> {
        match fault {
            ReadFault::OutOfMemory => RunFault::OutOfMemory,
            fault => RunFault::Text(fault),
        }
    }
}

impl<A: Allocator> From<Refusal> for RunFault<A> {
    ghost from_gives = { λ f e. e ≡ of_refusal f };

    fn from(refusal: Refusal) -> RunFault<A> {
        match refusal {
            Refusal::OutOfMemory => RunFault::OutOfMemory,
            refusal => RunFault::Task(refusal),
        }
    }
}

impl<A: Allocator> From<AnswerFault> for RunFault<A> {
    ghost from_gives = { λ f e. e ≡ of_answer f };

    fn from(fault: AnswerFault) -> RunFault<A> {
        match fault {
            AnswerFault::OutOfMemory => RunFault::OutOfMemory,
            fault => RunFault::Answer(fault),
        }
    }
}

impl<A: Allocator> From<OutOfMemory> for RunFault<A> {
    ghost from_gives = { λ _ e. e ≡ NoMemory };

    fn from(_: OutOfMemory) -> RunFault<A> {
        RunFault::OutOfMemory
    }
}

impl<A: Allocator> From<Device> for RunFault<A> {
    ghost from_gives = { λ _ e. e ≡ DeviceFault };

    fn from(_: Device) -> RunFault<A> {
        RunFault::Device
    }
}

impl<A: Allocator> From<SolveFault<A>> for RunFault<A> {
    ghost from_gives = { λ f e. e ≡ of_solve f };

    fn from(fault: SolveFault<A>) -> RunFault<A> {
        match fault {
            SolveFault::Cycle(jobs) => RunFault::Cycle(jobs),
            SolveFault::OutOfMemory => RunFault::OutOfMemory,
        }
    }
}

impl<A: Allocator> From<WriteFault> for RunFault<A> {
    ghost from_gives = { λ f e. e ≡ of_write f };

    fn from(fault: WriteFault) -> RunFault<A> {
        match fault {
            WriteFault::Device => RunFault::Device,
            WriteFault::OutOfMemory => RunFault::OutOfMemory,
        }
    }
}

impl<A: Allocator> From<PieceFault> for RunFault<A> {
    ghost from_gives = { λ f e. e ≡ of_pieces f };

    fn from(fault: PieceFault) -> RunFault<A> {
        RunFault::Pieces(fault)
    }
}
