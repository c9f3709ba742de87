//! The line `cert` of an answer: the kind of the certificate and what it names.
ghost use Rattle.std.specs.Prelude.{◌≡◌};
ghost use Rattle.tf_words.specs.Words.{words};
ghost use Rattle.tf_check.specs.Certificate.{claim_of};
ghost use Rattle.tf_text.specs.AnswerReading.{Gives, bare, side_of, split_in, claim_in};
ghost use Rattle.tf_text.specs.AnswerReading.{later_claim_in, certificate_in};

use crate::answer::fault::AnswerFault;
use crate::answer::field::{job_in, machine_in, only, time_in};
use crate::answer::job_words::{are_items, jobs_in, jobs_listed};
use crate::answer::layout::Layout;
use std::alloc::Allocator;
use tf_check::certificate::Certificate;
use tf_check::last_of::LastOf;
use tf_check::load::Load;
use tf_check::machine_load::MachineLoad;
use tf_check::one_job::OneJob;
use tf_check::pairs::Pairs;
use tf_check::ranks::Ranks;
use tf_check::split::Split;
use tf_check::window::Window;
use tf_words::line::Line;
use tf_words::ranged::is_number;
use tf_words::word::{behind_key, first_word, is};

/// Returns a certificate that names nothing, where no word follows its kind.
fn bare<A: Allocator>(
    line: u32,
    certificate: Certificate<A>,
    text: &[u8],
) -> Result<Certificate<A>, AnswerFault>
    ensures { Gives claim_of result (bare line (claim_of certificate) (words text.now)) }
{
    match first_word(text) {
        None => Ok(certificate),
        Some(_) => Err(AnswerFault::BadLine(line)),
    }
}

/// Whether a split is of the first machine; `None` for neither word.
fn side_of(word: &[u8]) -> Option<bool>
    ensures { result ≡ side_of word.now }
{
    if is(word, b"first") {
        Some(true)
    } else if is(word, b"second") {
        Some(false)
    } else {
        None
    }
}

/// Reads what follows the kind `split`.
#[tactic(auto, unfolding(crate::specs::AnswerReading::split_in))]
fn split_in<A: Allocator + Copy>(
    alloc: A,
    layout: Layout,
    line: u32,
    text: &[u8],
) -> Result<Certificate<A>, AnswerFault>
    ensures { Gives claim_of result (split_in layout line (words text.now)) }
{
    let Some((side, after)) = first_word(text) else {
        return Err(AnswerFault::BadLine(line));
    };
    let Some((delta, jobs)) = first_word(after) else {
        return Err(AnswerFault::BadLine(line));
    };
    let Some(first) = side_of(side) else {
        return Err(AnswerFault::BadLine(line));
    };
    if !(is_number(delta) && are_items(layout, jobs)) {
        return Err(AnswerFault::BadLine(line));
    }
    let delta = time_in(line, delta)?;
    let side = jobs_listed(alloc, layout, line, jobs)?;
    Ok(Certificate::Split(Split { side, delta, first }))
}

/// Reads the certificate of a kind from `load` on.
#[tactic(auto, unfolding(crate::specs::AnswerReading::later_claim_in))]
fn later_claim_in<A: Allocator + Copy>(
    alloc: A,
    line: u32,
    kind: &[u8],
    text: &[u8],
) -> Result<Certificate<A>, AnswerFault>
    ensures { Gives claim_of result (later_claim_in line kind.now (words text.now)) }
{
    if is(kind, b"load") {
        bare(line, Certificate::Load(Load), text)
    } else if is(kind, b"machine") {
        let machine = machine_in(line, only(line, text)?)?;
        Ok(Certificate::Machine(MachineLoad { machine }))
    } else if is(kind, b"job") {
        let job = job_in(line, only(line, text)?)?;
        Ok(Certificate::OneJob(OneJob { job }))
    } else if is(kind, b"ranks") {
        let jobs = jobs_in(alloc, Layout::One, line, text)?;
        Ok(Certificate::Ranks(Ranks { jobs }))
    } else {
        Err(AnswerFault::BadLine(line))
    }
}

/// Reads the certificate of a kind from the words that follow it.
#[tactic(auto, unfolding(crate::specs::AnswerReading::claim_in))]
fn claim_in<A: Allocator + Copy>(
    alloc: A,
    layout: Layout,
    line: u32,
    kind: &[u8],
    text: &[u8],
) -> Result<Certificate<A>, AnswerFault>
    ensures { Gives claim_of result (claim_in layout line kind.now (words text.now)) }
{
    if is(kind, b"pairs") {
        bare(line, Certificate::Pairs(Pairs), text)
    } else if is(kind, b"last") {
        let jobs = jobs_in(alloc, layout, line, text)?;
        Ok(Certificate::LastOf(LastOf { jobs }))
    } else if is(kind, b"window") {
        let jobs = jobs_in(alloc, layout, line, text)?;
        Ok(Certificate::Window(Window { jobs }))
    } else if is(kind, b"split") {
        split_in(alloc, layout, line, text)
    } else {
        later_claim_in(alloc, line, kind, text)
    }
}

/// Reads the line `cert`.
#[tactic(auto, unfolding(crate::specs::AnswerReading::certificate_in))]
pub(crate) fn certificate_in<A: Allocator + Copy>(
    alloc: A,
    layout: Layout,
    line: &Line<'_>,
) -> Result<Certificate<A>, AnswerFault>
    ensures { Gives claim_of result
        (certificate_in layout line.now.number (words line.now.bytes.now)) }
{
    match behind_key(line.bytes, b"cert") {
        None => Err(AnswerFault::BadLine(line.number)),
        Some(words) => match first_word(words) {
            None => Err(AnswerFault::BadLine(line.number)),
            Some((kind, text)) => claim_in(alloc, layout, line.number, kind, text),
        },
    }
}
