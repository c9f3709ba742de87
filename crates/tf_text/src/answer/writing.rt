//! Answer texts, written.
ghost use Rattle.tf_model.specs.Limit.{most_bytes};
ghost use Rattle.std.specs.Prelude.{◌≡◌, [], ◌∷◌, ◌++◌, ◌≤◌, ◌<◌, map, codes, IfSome, MatchOption};
ghost use Rattle.std.specs.Prelude.{length, true, false, Ok, OnOk, IfOk, IsErr, IsErrOf};
ghost use Rattle.std.specs.List.{flat_map, join_with_byte};
ghost use Rattle.std.specs.Fmt.{decimal, signed_decimal};
ghost use Rattle.std.specs.Io.KnownBytes.{Appends};
ghost use Rattle.tf_check.specs.Certificate.{claim_of};
ghost use Rattle.tf_check.specs.Claim.{BySplit};
ghost use Rattle.tf_text.specs.Counted.{inner_of, has_failed, AppendsPrefix};
ghost use Rattle.tf_text.specs.JobWords.{runs, run_words, job_words};
ghost use Rattle.tf_text.specs.AnswerText.{version, side_word, claim_words, front_lines};
ghost use Rattle.tf_text.specs.AnswerText.{size_lines, back_lines, line_text, answer_text};
ghost use Rattle.tf_text.specs.AnswerReading.{answer_in};
ghost use Rattle.tf_text.specs.Readable.{IsReadable};
ghost use Rattle.tf_text.specs.declared.answer.writing.WriteFault.TheVariants.{Device as DeviceFault};
ghost use Rattle.tf_text.specs.declared.answer.writing.WriteFault.TheVariants.{OutOfMemory as MemoryFault};

use crate::answer::block::write_around;
use crate::answer::layout::Layout;
use crate::answer::run::Run;
use crate::answer::sheet::Sheet;
use crate::counted::{Counted, Device};
use itoa::{Buffer, Integer};
use std::alloc::Allocator;
use std::io::Write;
use tf_check::certificate::Certificate;
use tf_check::split::Split;
use tf_model::ids::JobId;
use tf_model::memory::OutOfMemory;
use tf_notation::writing::notation_text;
use thiserror::Error;

/// Why an answer was not written in full.
#[derive(Clone, Copy, Debug, PartialEq, Eq, Error)]
pub enum WriteFault {
    /// The writer failed.
    #[error("device fault")]
    Device,
    /// A growth was refused.
    #[error("want of memory")]
    OutOfMemory,
}

impl From<Device> for WriteFault {
    ghost from_gives = { λ _ e. e ≡ DeviceFault };

    fn from(_: Device) -> WriteFault {
        WriteFault::Device
    }
}

impl From<OutOfMemory> for WriteFault {
    ghost from_gives = { λ _ e. e ≡ MemoryFault };

    fn from(_: OutOfMemory) -> WriteFault {
        WriteFault::OutOfMemory
    }
}

/// Adds a blank and a number.
pub fn push_number<A: Allocator, I: Integer>(
    text: &mut Vec<u8, A>,
    number: I,
) -> Result<(), OutOfMemory>
    ensures { OnOk result (text.new.items ≡ text.old.items ++ 32 ∷ I.text number) }
{
    let mut digits = Buffer::new();
    text.push(b' ')?;
    text.extend_from_slice(digits.format(number).as_bytes())?;
    Ok(())
}

fn push_numbers<A: Allocator>(text: &mut Vec<u8, A>, jobs: &[JobId]) -> Result<(), OutOfMemory>
    ensures { OnOk result (text.new.items
        ≡ text.old.items ++ flat_map (λ word. 32 ∷ word) (map decimal jobs.now)) }
{
    for job in jobs {
        push_number(text, job.get())?;
    }
    Ok(())
}

// The longest run that a list begins with, and the jobs behind it.
#[tactic(auto, unfolding(crate::specs::JobWords::runs))]
fn first_run(jobs: &[JobId]) -> Option<(Run, &[JobId])>
    ensures runs { MatchOption result (runs jobs.now ≡ [])
        (λ x. runs jobs.now ≡ x.0 ∷ runs x.1.now) }
    ensures ordered { IfSome result (λ x. x.0.first ≤ x.0.last) }
    ensures shorter { IfSome result (λ x. length x.1.now < length jobs.now) }
{
    let (first, mut rest) = jobs.split_first()?;
    let first = first.get();
    let mut last = first;
    while let Some((job, more)) = rest.split_first() {
        if job.get() - 1 != last {
            return Some((Run { first, last }, rest));
        }
        last = job.get();
        rest = more;
    }
    Some((Run { first, last }, rest))
}

// A blank, and three jobs or more as a range, others one by one.
fn push_run<A: Allocator>(text: &mut Vec<u8, A>, run: Run) -> Result<(), OutOfMemory>
    requires { run.first ≤ run.last }
    ensures { OnOk result (text.new.items
        ≡ text.old.items ++ flat_map (λ word. 32 ∷ word) (run_words run)) }
{
    push_number(text, run.first)?;
    if run.last == run.first {
        return Ok(());
    }
    if run.last - run.first == 1 {
        return push_number(text, run.last);
    }
    let mut digits = Buffer::new();
    text.push(b'-')?;
    text.extend_from_slice(digits.format(run.last).as_bytes())?;
    Ok(())
}

fn push_runs<A: Allocator>(text: &mut Vec<u8, A>, jobs: &[JobId]) -> Result<(), OutOfMemory>
    ensures { OnOk result (text.new.items ≡ text.old.items
        ++ flat_map (λ word. 32 ∷ word) (flat_map run_words (runs jobs.now))) }
{
    let mut rest = jobs;
    while let Some((run, more)) = first_run(rest) {
        push_run(text, run)?;
        rest = more;
    }
    Ok(())
}

fn push_jobs<A: Allocator>(
    text: &mut Vec<u8, A>,
    layout: Layout,
    jobs: &[JobId],
) -> Result<(), OutOfMemory>
    ensures { OnOk result (text.new.items
        ≡ text.old.items ++ flat_map (λ word. 32 ∷ word) (job_words layout jobs.now)) }
{
    match layout {
        Layout::One => push_numbers(text, jobs),
        Layout::Two => push_runs(text, jobs),
    }
}

/// Adds a line of a word and a number.
pub fn push_number_line<A: Allocator, I: Integer>(
    text: &mut Vec<u8, A>,
    key: &[u8],
    number: I,
) -> Result<(), OutOfMemory>
    ensures { OnOk result (text.new.items
        ≡ text.old.items ++ line_text (key.now ∷ I.text number ∷ [])) }
{
    text.extend_from_slice(key)?;
    push_number(text, number)?;
    text.push(b'\n')?;
    Ok(())
}

// Adds a word, and jobs behind it.
fn push_listed<A: Allocator>(
    text: &mut Vec<u8, A>,
    word: &[u8],
    layout: Layout,
    jobs: &[JobId],
) -> Result<(), OutOfMemory>
    ensures { OnOk result (text.new.items
        ≡ text.old.items ++ join_with_byte 32 (word.now ∷ job_words layout jobs.now)) }
{
    text.extend_from_slice(word)?;
    push_jobs(text, layout, jobs)
}

// Adds a word, and a number behind it.
fn push_counted<A: Allocator>(
    text: &mut Vec<u8, A>,
    word: &[u8],
    number: u32,
) -> Result<(), OutOfMemory>
    ensures { OnOk result (text.new.items
        ≡ text.old.items ++ join_with_byte 32 (word.now ∷ decimal number ∷ [])) }
{
    text.extend_from_slice(word)?;
    push_number(text, number)
}

// Adds a split: which machine has to wait, for how long, and the jobs of the side.
fn push_split<A: Allocator, M: Allocator>(
    text: &mut Vec<u8, A>,
    layout: Layout,
    split: &Split<M>,
) -> Result<(), OutOfMemory>
    ensures { OnOk result (text.new.items ≡ text.old.items ++ join_with_byte 32
        (claim_words layout (BySplit split.now.side split.now.delta split.now.first))) }
{
    text.extend_from_slice(b"split ")?;
    text.extend_from_slice(if split.first { b"first" } else { b"second" })?;
    push_number(text, split.delta)?;
    push_jobs(text, layout, split.side.as_slice())
}

fn push_claim<A: Allocator, M: Allocator>(
    text: &mut Vec<u8, A>,
    layout: Layout,
    certificate: &Certificate<M>,
) -> Result<(), OutOfMemory>
    ensures { OnOk result (text.new.items
        ≡ text.old.items ++ join_with_byte 32 (claim_words layout (claim_of certificate.now))) }
{
    match certificate {
        Certificate::Pairs(_) => push_listed(text, b"pairs", Layout::One, &[]),
        Certificate::LastOf(last) => push_listed(text, b"last", layout, last.jobs.as_slice()),
        Certificate::Window(window) => {
            push_listed(text, b"window", layout, window.jobs.as_slice())
        }
        Certificate::Split(split) => push_split(text, layout, split),
        Certificate::Load(_) => push_listed(text, b"load", Layout::One, &[]),
        Certificate::Machine(load) => push_counted(text, b"machine", load.machine.get()),
        Certificate::OneJob(one) => push_counted(text, b"job", one.job.get()),
        Certificate::Ranks(ranks) => {
            push_listed(text, b"ranks", Layout::One, ranks.jobs.as_slice())
        }
    }
}

// The first line, and the first word of the second with a blank.
fn heading(layout: Layout) -> &'static [u8]
    ensures { result.now
        ≡ codes "answer " ++ version layout ++ 10 ∷ codes "problem " }
{
    match layout {
        Layout::One => b"answer 1\nproblem ",
        Layout::Two => b"answer 2\nproblem ",
    }
}

// Adds a notation up to the end of its line, and the lines from there up to the pieces.
fn push_front<A: Allocator, M: Allocator>(
    text: &mut Vec<u8, A>,
    notation: &[u8],
    sheet: &Sheet<M>,
) -> Result<(), OutOfMemory>
    ensures { OnOk result (text.new.items
        ≡ text.old.items ++ (notation.now ++ 10 ∷ flat_map line_text (size_lines sheet.now))) }
{
    text.extend_from_slice(notation)?;
    text.push(b'\n')?;
    push_number_line(text, b"jobs", sheet.jobs)?;
    push_number_line(text, b"machines", sheet.machines)?;
    push_number_line(text, b"value", sheet.answer.value)
}

// The lines before the pieces.
fn front_text<A: Allocator + Copy, M: Allocator>(
    alloc: A,
    sheet: &Sheet<M>,
    layout: Layout,
) -> Result<Vec<u8, A>, OutOfMemory>
    ensures { IfOk result (λ text.
        text.items ≡ flat_map line_text (front_lines layout sheet.now)) }
{
    let notation = notation_text(alloc, &sheet.problem)?;
    let mut text = Vec::from_slice(alloc, heading(layout))?;
    push_front(&mut text, notation.as_bytes(), sheet)?;
    Ok(text)
}

// The lines behind the pieces.
fn back_text<A: Allocator, M: Allocator>(
    alloc: A,
    certificate: &Certificate<M>,
    layout: Layout,
) -> Result<Vec<u8, A>, OutOfMemory>
    ensures { IfOk result (λ text.
        text.items ≡ flat_map line_text (back_lines layout (claim_of certificate.now))) }
{
    let mut text = Vec::from_slice(alloc, b"cert ")?;
    push_claim(&mut text, layout, certificate)?;
    text.extend_from_slice(b"\nend\n")?;
    Ok(text)
}

/// Writes the text of a sheet in a version. Its memory is asked for before the first byte is
/// written.
pub fn write_answer<A: Allocator + Copy, M: Allocator, W: Write>(
    alloc: A,
    writer: &mut Counted<W>,
    sheet: &Sheet<M>,
    layout: Layout,
) -> Result<(), WriteFault>
    ensures written { OnOk result (Appends (W.contents (inner_of writer.old))
        (W.contents (inner_of writer.new)) (answer_text layout sheet.now)) }
    ensures unfailed { OnOk result (has_failed writer.new ≡ false) }
    ensures memory { IsErrOf result WriteFault.OutOfMemory → writer.new ≡ writer.old }
    ensures prefix { IsErrOf result WriteFault.Device →
        AppendsPrefix (W.contents (inner_of writer.old)) (W.contents (inner_of writer.new))
        (answer_text layout sheet.now) }
    ensures device { IsErrOf result WriteFault.Device → has_failed writer.new ≡ true }
    ensures failed_before { has_failed writer.old ≡ true →
        IsErr result × (writer.new ≡ writer.old) }

    // Whatever comes of it, the text of a sheet is read as that sheet.
    ensures round_trip { IsReadable layout sheet.now →
        length (answer_text layout sheet.now) ≤ most_bytes →
        answer_in (answer_text layout sheet.now) ≡ Ok sheet.now }
{
    let front = front_text(alloc, sheet, layout)?;
    let back = back_text(alloc, &sheet.answer.certificate, layout)?;
    write_around(writer, &front, sheet.answer.pieces.as_slice(), &back)?;
    Ok(())
}
