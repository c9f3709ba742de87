//! From a reader of an answer text to the sheet that it says.
ghost use Rattle.std.specs.Prelude.{◌≡◌, ◌<◌, ◌≤◌, IfOk};
ghost use Rattle.tf_model.specs.Limit.{most_machines};
ghost use Rattle.tf_engine.specs.Parts.{ReadsSheet};

use crate::fault::RunFault;
use std::alloc::Allocator;
use std::io::Read;
use tf_text::answer::reading::AnswerReader;
use tf_text::answer::sheet::Sheet;
use tf_text::counted::Counted;
use tf_text::input::drain;

/// The sheet that the reader's text says.
pub fn sheet_read<A: Allocator + Copy, S: Read>(
    alloc: A,
    answer: &mut Counted<S>,
) -> Result<Sheet<A>, RunFault<A>>
    ensures read { ReadsSheet S.remaining answer.old answer.new result }
    ensures machines { IfOk result (λ s. (0 < s.machines) × (s.machines ≤ most_machines)) }
{
    let mut reading = AnswerReader::new(alloc);
    drain(answer, &mut reading)?;
    Ok(reading.finish()?)
}
