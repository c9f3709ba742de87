//! What is wrong with a job table, line by line.
use crate::advice::{Cause, Place};
use crate::field::Named;
use crate::number::fault_of_number;
use crate::page::Page;
use crate::source::{Front, Source, SourceLine, Word};
use std::alloc::{AllocError, Global};
use tf_model::limit::MOST_MACHINES;
use tf_words::digits::is_numeral;
use tf_words::number::{Number, number_of};
use tf_words::word::is;

/// The most slips that are told.
const MOST_SLIPS: usize = 20;

/// The word at fault, where it can be told, and what is wrong.
type Fault<'a> = (Option<Word<'a>>, Cause);

/// A line that is wrong.
#[derive(Clone, Copy)]
struct Slip<'a> {
    line: SourceLine<'a>,
    fault: Fault<'a>,
}

/// Which lines may come next.
#[derive(Clone, Copy, PartialEq)]
enum Stage {
    Heading,
    Machines,
    Jobs,
    Arcs,
    // the text is of another form, and is not looked at
    Other,
}

/// The lines so far.
#[derive(Drop)]
struct Judge {
    stage: Stage,
    // the number of the last job
    jobs: i64,
}

/// Tells all slips of a table, up to the most that are told, and whether there was one.
pub fn explain_table(page: &mut Page, source: &Source<'_>) -> Result<bool, AllocError> {
    let slips = slips_in(page.alloc, source)?;
    say_slips(page, source, &slips)?;
    Ok(!slips.is_empty())
}

// The slips of a text, until they are more than are told.
fn slips_in<'a>(alloc: Global, source: &Source<'a>) -> Result<Vec<Slip<'a>>, AllocError> {
    let mut slips = Vec::new(alloc);
    let mut judge = Judge {
        stage: Stage::Heading,
        jobs: 0,
    };
    for line in source.lines() {
        judge.push_slips(line, &mut slips)?;
        if slips.len() > MOST_SLIPS {
            break;
        }
    }
    Ok(slips)
}

fn say_slips(page: &mut Page, source: &Source<'_>, slips: &[Slip<'_>]) -> Result<(), AllocError> {
    if slips.len() > 1 {
        page.say("These lines are wrong:")?;
    }
    let told = slips.get(..MOST_SLIPS).unwrap_or(slips);
    for slip in told {
        say_slip(page, source, slip)?;
    }
    if slips.len() > told.len() {
        page.say("There are more.")?;
    }
    say_places(page, told)
}

fn say_slip(page: &mut Page, source: &Source<'_>, slip: &Slip<'_>) -> Result<(), AllocError> {
    let (word, cause) = slip.fault;
    page.quote(source, &slip.line, word)?;
    match cause.advice() {
        Some(advice) => {
            page.say(advice.wrong)?;
            page.say(advice.fix)
        }
        None => Ok(()),
    }
}

// What the places of the slips allow, each once.
fn say_places(page: &mut Page, slips: &[Slip<'_>]) -> Result<(), AllocError> {
    let mut said: Option<Place> = None;
    for slip in slips {
        if let Some(advice) = slip.fault.1.advice()
            && said != Some(advice.place)
        {
            said = Some(advice.place);
            page.say(advice.place.allows())?;
        }
    }
    Ok(())
}

impl Judge {
    // Adds what is wrong with one line more. One in the place of the heading is also judged as one
    // below it.
    fn push_slips<'a>(
        &mut self,
        line: SourceLine<'a>,
        slips: &mut Vec<Slip<'a>>,
    ) -> Result<(), AllocError> {
        let Some(fault) = self.fault_in(line) else {
            return Ok(());
        };
        slips.push(Slip { line, fault })?;
        if fault.1 == Cause::NoHeading
            && let Some(fault) = self.fault_in(line)
        {
            slips.push(Slip { line, fault })?;
        }
        Ok(())
    }

    // What is wrong with one line more.
    fn fault_in<'a>(&mut self, line: SourceLine<'a>) -> Option<Fault<'a>> {
        let front = Front::new(line.bytes);
        let first = front.word(0)?;
        if first.bytes.starts_with(b"#") {
            return None;
        }
        match self.stage {
            Stage::Heading => self.heading(line, &front, first),
            Stage::Other => None,
            _ => self.body(line, &front, first),
        }
    }

    fn heading<'a>(
        &mut self,
        line: SourceLine<'a>,
        front: &Front<'a>,
        first: Word<'a>,
    ) -> Option<Fault<'a>> {
        self.stage = Stage::Machines;
        if is_heading(front) {
            return None;
        }
        let cause = cause_of_heading(line.bytes, first.bytes);
        if let Cause::IsAnswer
        | Cause::IsFlowShop
        | Cause::IsNumbers
        | Cause::IsSpreadsheet
        | Cause::IsOtherKind = cause
        {
            self.stage = Stage::Other;
        }
        Some((Some(first), cause))
    }

    // A line below the heading.
    fn body<'a>(
        &mut self,
        line: SourceLine<'a>,
        front: &Front<'a>,
        first: Word<'a>,
    ) -> Option<Fault<'a>> {
        if is(first.bytes, b"machines") {
            return self.machines(front, first);
        }
        if is(first.bytes, b"job") {
            return self.job(line, front, first);
        }
        if is(first.bytes, b"prec") {
            return self.arc(front, first);
        }
        Some((Some(first), cause_of_other_line(first.bytes)))
    }

    fn machines<'a>(&mut self, front: &Front<'a>, first: Word<'a>) -> Option<Fault<'a>> {
        if self.stage != Stage::Machines {
            return Some((Some(first), Cause::MachinesPlace));
        }
        self.stage = Stage::Jobs;
        let (2, Some(count)) = (front.len(), front.word(1)) else {
            return Some((None, Cause::MachinesForm));
        };
        Some((Some(count), fault_of_count(count.bytes)?))
    }

    fn job<'a>(
        &mut self,
        line: SourceLine<'a>,
        front: &Front<'a>,
        first: Word<'a>,
    ) -> Option<Fault<'a>> {
        if self.stage == Stage::Arcs {
            return Some((Some(first), Cause::JobAfterArc));
        }
        self.stage = Stage::Jobs;
        let wanted = self.jobs.saturating_add(1);
        self.jobs = wanted;
        let Some(number) = front.word(1) else {
            return Some((None, Cause::NoJobNumber));
        };
        let job = job_in(number.bytes);
        self.jobs = job.unwrap_or(wanted);
        match fault_of_job(number.bytes, job, wanted) {
            Some(cause) => Some((Some(number), cause)),
            None => fault_in_fields(line),
        }
    }

    fn arc<'a>(&mut self, front: &Front<'a>, first: Word<'a>) -> Option<Fault<'a>> {
        if self.jobs == 0 {
            return Some((Some(first), Cause::ArcBeforeJobs));
        }
        self.stage = Stage::Arcs;
        let (3, Some(before), Some(after)) = (front.len(), front.word(1), front.word(2)) else {
            return Some((None, Cause::ArcForm));
        };
        self.stranger(before).or(self.stranger(after))
    }

    // What is wrong with a word that should name a job of the table.
    fn stranger<'a>(&self, job: Word<'a>) -> Option<Fault<'a>> {
        match number_of(job.bytes) {
            Number::Value(k) if 1 <= k && k <= self.jobs => None,
            Number::NotANumber => Some((Some(job), Cause::ArcForm)),
            _ => Some((Some(job), Cause::ArcStranger)),
        }
    }
}

// What is wrong with the number of machines.
fn fault_of_count(word: &[u8]) -> Option<Cause> {
    match number_of(word) {
        Number::Value(m) if 1 <= m && m <= i64::from(MOST_MACHINES) => None,
        Number::NotANumber => fault_of_number(word),
        _ => Some(Cause::MachinesRange),
    }
}

// The number of a job.
fn job_in(word: &[u8]) -> Option<i64> {
    match number_of(word) {
        Number::Value(job) if is_numeral(word) => Some(job),
        _ => None,
    }
}

// What is wrong with the number of a job, where another is wanted.
fn fault_of_job(word: &[u8], job: Option<i64>, wanted: i64) -> Option<Cause> {
    match job {
        None => Some(cause_of_no_job(word)),
        Some(0) => Some(Cause::JobZero),
        Some(job) if job != wanted => Some(Cause::JobOrder),
        Some(_) if word.starts_with(b"0") => Some(Cause::LeadingZero),
        Some(_) => None,
    }
}

// What is wrong with the words of a job line behind its number.
fn fault_in_fields(line: SourceLine<'_>) -> Option<Fault<'_>> {
    let mut named = Named::none();
    for word in line.words().skip(2) {
        if let Some(cause) = named.add(word.bytes) {
            return Some((Some(word), cause));
        }
    }
    if named.has_time() {
        None
    } else {
        Some((None, Cause::NoTime))
    }
}

fn is_heading(front: &Front<'_>) -> bool {
    match (front.len(), front.word(0), front.word(1)) {
        (2, Some(first), Some(second)) => is(first.bytes, b"table") && is(second.bytes, b"1"),
        _ => false,
    }
}

fn cause_of_heading(line: &[u8], first: &[u8]) -> Cause {
    if first.starts_with(b"\xef\xbb\xbf") || first.starts_with(b"\xff\xfe") {
        Cause::ByteOrderMark
    } else if first.contains(&0) {
        Cause::ZeroBytes
    } else if is(first, b"answer") {
        Cause::IsAnswer
    } else if is(first, b"instance") || first.starts_with(b"+++") {
        Cause::IsFlowShop
    } else if is_numeral(first) {
        Cause::IsNumbers
    } else if has_other_kind(first) {
        Cause::IsOtherKind
    } else if line.contains(&b'\t') && !line.contains(&b'=') {
        Cause::IsSpreadsheet
    } else if first.eq_ignore_ascii_case(b"job") || is(first, b"machines") {
        Cause::NoHeading
    } else if first.iter().any(|byte| matches!(byte, b',' | b';')) {
        Cause::IsSpreadsheet
    } else {
        Cause::OtherHeading
    }
}

// Whether a text begins as JSON, HTML, PDF or a packed file does.
fn has_other_kind(first: &[u8]) -> bool {
    matches!(first.first(), Some(b'{' | b'[' | b'<'))
        || first.starts_with(b"%PDF")
        || first.starts_with(b"PK\x03\x04")
}

// What stands where the number of a job is wanted.
fn cause_of_no_job(word: &[u8]) -> Cause {
    if word.iter().any(|byte| *byte >= 128) {
        Cause::NoAscii
    } else {
        Cause::NoJobNumber
    }
}

fn cause_of_other_line(first: &[u8]) -> Cause {
    if is(first, b"table") {
        Cause::HeadingAgain
    } else if first.starts_with(b"machines=") {
        Cause::MachinesOneWord
    } else if first.starts_with(b"machine") {
        Cause::MachinesForm
    } else if first.first().is_some_and(|byte| byte.is_ascii_digit()) {
        Cause::NumberFirst
    } else if first.starts_with(b"job") && first.iter().any(|byte| byte.is_ascii_digit()) {
        Cause::JobOneWord
    } else if first.iter().any(|byte| byte.is_ascii_uppercase()) {
        Cause::UpperCase
    } else {
        Cause::UnknownLine
    }
}
