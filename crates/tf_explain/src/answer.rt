//! What is wrong with an answer text.
use crate::text::say_more;
use std::alloc::AllocError;
use tf_advice::advice::EXCHANGED;
use tf_advice::page::Page;
use tf_advice::piece_lines::{Pieces, quote_pieces, say_zero};
use tf_advice::source::{Front, Source};
use tf_advice::tardiness::is_table;
use tf_model::limit::{LIMIT, MOST_BYTES, MOST_JOBS, MOST_MACHINES};
use tf_schedule::schedule::PieceFault;
use tf_text::answer::fault::AnswerFault;
use tf_words::word::{first_word, is};

/// In which order the lines of an answer stand.
const ORDER: &str = "\
The lines of an answer stand in this order: answer 2, problem, jobs, machines, value,
any number of lines piece, cert, end.";

const IS_JSON: &str = "This is JSON: an answer text is what a command prints without --json.";

const IS_CSV: &str = "This is CSV: an answer text is what a command prints without --csv.";

const IS_BOUND: &str = "\
This is the text of a lower bound, which has no schedule: \"threefield plan\" prints one.";

/// The lines that stand once each, before the pieces.
static FRONT: [&str; 5] = [
    "answer 2",
    "problem NOTATION",
    "jobs N",
    "machines M",
    "value V",
];

/// What is wrong with the text of an answer.
pub(crate) fn explain_answer(
    page: &mut Page,
    source: &Source<'_>,
    fault: &AnswerFault,
) -> Result<(), AllocError> {
    if say_other_file(page, source)? {
        return Ok(());
    }
    match *fault {
        AnswerFault::TooLong => say_more(page, source, MOST_BYTES, "bytes"),
        AnswerFault::BadLine(line) => explain_line(page, source, line as usize),
        AnswerFault::NumberTooLarge(line) => explain_number(page, source, line as usize),
        AnswerFault::BadNotation => {
            if let Some(line) = source.line_beginning(&[b"problem".as_slice()]) {
                page.quote(source, &line, None)?;
            }
            page.say("Behind \"problem\" stands a three-field notation, as in \"problem 1||Lmax\".")
        }
        AnswerFault::EndsEarly => {
            page.say_of_source(
                source,
                " is cut off: the last line of an answer is \"end\".",
            )
        }
        AnswerFault::OutOfMemory => Ok(()),
    }
}

// Which numbers the line may have.
fn explain_number(page: &mut Page, source: &Source<'_>, number: usize) -> Result<(), AllocError> {
    let Some(line) = source.line(number) else {
        return Ok(());
    };
    page.quote(source, &line, None)?;
    if is(first_of(line.bytes), b"value") {
        let (least, most) = (i64::MIN, i64::MAX);
        writeln!(page.text, "A value is from {least} to {most}.")
    } else {
        writeln!(
            page.text,
            "Jobs go up to {MOST_JOBS}, machines to {MOST_MACHINES}, times to {LIMIT}."
        )
    }
}

// Whether the text is empty or another file, which is then said.
fn say_other_file(page: &mut Page, source: &Source<'_>) -> Result<bool, AllocError> {
    if source.text.trim_ascii().is_empty() {
        page.say_of_source(
            source,
            " is empty: perhaps the run that wrote it was refused.",
        )?;
        return Ok(true);
    }
    if is_table(source) {
        page.quote_number(source, 1)?;
        page.say("This is a job table, and an answer text is wanted here.")?;
        page.say(EXCHANGED)?;
        return Ok(true);
    }
    if let Some(kind) = other_output(source.text) {
        page.quote_number(source, 1)?;
        page.say(kind)?;
        return Ok(true);
    }
    Ok(false)
}

// What a text is that begins as another output of the program.
fn other_output(text: &[u8]) -> Option<&'static str> {
    let text = text.trim_ascii_start();
    if text.starts_with(b"{") {
        Some(IS_JSON)
    } else if text.starts_with(b"job,") {
        Some(IS_CSV)
    } else if text.starts_with(b"bound 1") {
        Some(IS_BOUND)
    } else {
        None
    }
}

fn explain_line(page: &mut Page, source: &Source<'_>, number: usize) -> Result<(), AllocError> {
    let Some(line) = source.line(number) else {
        return Ok(());
    };
    page.quote(source, &line, None)?;
    let first = first_of(line.bytes);
    if let Some(wanted) = wanted_at(source, number) {
        writeln!(page.text, "Here a line \"{wanted}\" is wanted.")?;
        say_number(page, first, wanted)?;
    } else if is(first, b"end") && source.line_beginning(&[b"cert".as_slice()]).is_none() {
        page.say("The line \"cert\" is missing: it stands before the line \"end\".")?;
    } else if is(first, b"cert") && Front::new(line.bytes).len() == 1 {
        page.say("The kind of the certificate is missing, as in \"cert last 1-3\".")?;
    } else if is(first, b"cert") && source.line_beginning(&[b"answer", b"2"]).is_some() {
        writeln!(
            page.text,
            "After the kind come jobs from 1, or ranges that rise such as 1-8, and at most\n\
             {MOST_JOBS} jobs in all, ranges counted in full."
        )?;
    } else {
        page.say(form_of(first))?;
        say_zero(page, &line)?;
    }
    page.say(ORDER)
}

// Says that a number is wanted behind a key that stands in its place.
fn say_number(page: &mut Page, first: &[u8], wanted: &str) -> Result<(), AllocError> {
    let has_number = is(first, b"jobs") || is(first, b"machines") || is(first, b"value");
    if has_number && wanted.as_bytes().starts_with(first) {
        return page.say("Behind the word stands one whole number, without a point or a unit.");
    }
    Ok(())
}

// Which of the lines that stand once each at the front is wanted in the place of this one.
fn wanted_at(source: &Source<'_>, number: usize) -> Option<&'static str> {
    let lines = source.text.split(|byte| *byte == b'\n');
    let before = lines
        .take(number.saturating_sub(1))
        .filter(|line| first_word(line).is_some_and(|(word, _)| !word.starts_with(b"#")))
        .count();
    FRONT.get(before).copied()
}

// The first word of a line.
fn first_of(line: &[u8]) -> &[u8] {
    match first_word(line) {
        Some((word, _)) => word,
        None => b"",
    }
}

// The form of a line that begins with this word.
fn form_of(first: &[u8]) -> &'static str {
    if is(first, b"piece") {
        "A piece is \"piece JOB MACHINE START STOP\", four whole numbers, before the line \"cert\"."
    } else if is(first, b"cert") {
        "After the kind come jobs from 1; a range such as 1-8 needs the heading \"answer 2\"."
    } else if is(first, b"end") {
        "The line \"end\" stands alone and last."
    } else {
        "This line is not what is wanted in its place."
    }
}

/// What is wrong with the pieces of an answer.
pub(crate) fn explain_pieces(
    page: &mut Page,
    source: &Source<'_>,
    fault: &PieceFault,
) -> Result<(), AllocError> {
    match *fault {
        PieceFault::OutOfRange(piece) => {
            quote_pieces(page, source, Pieces::Behind(piece.saturating_sub(1)))?;
            writeln!(
                page.text,
                "A piece starts at 0 or later, and stops at {LIMIT} at most."
            )
        }
        PieceFault::EmptyPiece(piece) => {
            quote_pieces(page, source, Pieces::Behind(piece.saturating_sub(1)))?;
            page.say("A piece is \"piece JOB MACHINE START STOP\", and stops after its start.")
        }
        PieceFault::MachineTwice(machine, time) => {
            let machine = machine.get();
            writeln!(
                page.text,
                "Two pieces are on machine {machine} at time {time}:"
            )?;
            quote_pieces(page, source, Pieces::OnMachineAt(machine, time))
        }
    }
}
