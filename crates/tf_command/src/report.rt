//! What the program says of a run that gave no answer.
ghost use Rattle.std.specs.Prelude.{◌≡◌, ◌⊎◌, ◌∷◌, ◌++◌, [], codes, map};
ghost use Rattle.std.specs.Fmt.{decimal};
ghost use Rattle.tf_text.specs.AnswerText.{line_text};
ghost use Rattle.tf_engine.specs.VerdictLine.{piece_fault_words};
ghost use Rattle.tf_command.specs.BoundLine.{bound_fault_words, bound_fault_line, status_of_bound};
ghost use Rattle.tf_command.specs.FaultLine.{answer_fault_words, fault_line, field_word};
ghost use Rattle.tf_command.specs.FaultLine.{no_table_line, read_fault_words, refusal_words};
ghost use Rattle.tf_command.specs.FaultLine.{refused_line};
ghost use Rattle.tf_command.specs.Said.{said_words};
ghost use Rattle.tf_command.specs.Wrote.{Wrote};
ghost use Rattle.tf_command.specs.Statuses.{status_of, status_of_no_table};
ghost use Rattle.tf_command.specs.Ending.{line_of_picturing, status_of_picturing};

use crate::gathered::{Gathered, send};
use itoa::Buffer;
use std::alloc::Allocator;
use std::io::Write;
use tf_assess::bound_read::BoundReadFault;
use tf_bound_text::fault::BoundTextFault;
use tf_dated::run_dated::Pictured;
use tf_engine::fault::RunFault;
use tf_model::ids::JobId;
use tf_model::prepare::{Field, Refusal};
use tf_random::run_random::RandomFault;
use tf_read::fault::ReadFault;
use tf_schedule::schedule::PieceFault;
use tf_text::answer::fault::AnswerFault;
use tf_text::counted::Counted;

/// The most bytes of a line that has a few words.
const LINE: usize = 128;

/// The most bytes of a line that one call writes.
const BLOCK: usize = 64_000;

/// Writes the line of a fault, as far as the writer takes it, and gives the exit status. It takes
/// no memory.
pub fn report<A: Allocator, W: Write>(fault: &RunFault<A>, writer: &mut Counted<W>) -> u8
    ensures status { result ≡ status_of fault.now }
    ensures line { Wrote W.contents writer.old writer.new (fault_line fault.now) }
{
    match fault {
        RunFault::Notation(fault) => {
            say(
                writer,
                REFUSED,
                Said::One(b"NotationFault", fault.byte as u64),
            );
        }
        RunFault::Text(fault) => say(writer, REFUSED, said_of_text(fault)),
        RunFault::Task(refusal) => say(writer, REFUSED, said_of_task(refusal)),
        RunFault::Cycle(jobs) => say_cycle(writer, jobs.as_slice()),
        RunFault::Answer(fault) => say(writer, ANSWER_REFUSED, said_of_answer(fault)),
        RunFault::Pieces(fault) => say(writer, ANSWER_REFUSED, said_of_pieces(fault)),
        RunFault::OutOfMemory => return say_memory(writer),
        RunFault::Device => return say_device(writer),
    }
    2
}

/// Writes the line of a fault of a bound's text in the same way, and gives the exit status.
pub fn report_bound<W: Write>(fault: &BoundReadFault, writer: &mut Counted<W>) -> u8
    ensures status { result ≡ status_of_bound fault.now }
    ensures line { Wrote W.contents writer.old writer.new (bound_fault_line fault.now) }
{
    match fault {
        BoundReadFault::Text(fault) => {
            say(writer, BOUND_REFUSED, said_of_bound(fault));
            2
        }
        BoundReadFault::OutOfMemory => say_memory(writer),
        BoundReadFault::Device => say_device(writer),
    }
}

/// Ends a picture with the dates of an instance: says why it was not drawn, and gives the exit
/// status.
pub fn end_picture<A: Allocator, W: Write>(
    run: &Result<Pictured, RunFault<A>>,
    writer: &mut Counted<W>,
) -> u8
    ensures status { result ≡ status_of_picturing run.now }
    ensures line { Wrote W.contents writer.old writer.new (line_of_picturing run.now) }
{
    match run {
        Ok(Pictured::Drawn) => 0,
        Ok(Pictured::OtherTask) => {
            say(writer, REFUSED, Said::Name(b"OtherTask"));
            2
        }
        Err(fault) => report(fault, writer),
    }
}

/// Says that there was no memory.
pub fn say_memory<W: Write>(writer: &mut Counted<W>) -> u8
    ensures status { result ≡ 3 }
    ensures line { Wrote W.contents writer.old writer.new (codes "threefield: want of memory\n") }
{
    send(writer, b"threefield: want of memory\n");
    3
}

/// Says that a device failed.
pub fn say_device<W: Write>(writer: &mut Counted<W>) -> u8
    ensures status { result ≡ 4 }
    ensures line { Wrote W.contents writer.old writer.new (codes "threefield: device fault\n") }
{
    send(writer, b"threefield: device fault\n");
    4
}

/// Says why there is no random table.
pub fn say_no_table<W: Write>(fault: &RandomFault, writer: &mut Counted<W>) -> u8
    ensures status { result ≡ status_of_no_table fault.now }
    ensures line { Wrote W.contents writer.old writer.new (no_table_line fault.now) }
{
    match fault {
        RandomFault::Notation(fault) => {
            say(
                writer,
                REFUSED,
                Said::One(b"NotationFault", fault.byte as u64),
            );
            2
        }
        RandomFault::NotInATable => {
            say(writer, REFUSED, Said::Name(b"NoTable"));
            2
        }
        RandomFault::OutOfMemory => say_memory(writer),
    }
}

/// Says what is wrong with the command line.
pub fn say_usage<W: Write>(writer: &mut Counted<W>, text: &str) -> u8
    ensures status { result ≡ 5 }
    ensures line { Wrote W.contents writer.old writer.new
        (codes "threefield: " ++ line_text (text.now ∷ [])) }
{
    say_line(writer, b"threefield: ", text.as_bytes(), &[]);
    5
}

const REFUSED: &[u8] = b"threefield: refused: ";

const ANSWER_REFUSED: &[u8] = b"threefield: refused: answer ";

const BOUND_REFUSED: &[u8] = b"threefield: refused: bound ";

// A fault by its name and its arguments.
#[derive(Clone, Copy)]
enum Said {
    Name(&'static [u8]),
    One(&'static [u8], u64),
    Two(&'static [u8], u64, i64),
    Field(&'static [u8], u64, &'static [u8]),
}

fn said_of_text(fault: &ReadFault) -> Said
    ensures { said_words result ≡ read_fault_words fault.now }
{
    match *fault {
        ReadFault::TooLong => Said::Name(b"TooLong"),
        ReadFault::BadNumber(line) => Said::One(b"BadNumber", u64::from(line)),
        ReadFault::NumberTooLarge(line) => Said::One(b"NumberTooLarge", u64::from(line)),
        ReadFault::Negative(line) => Said::One(b"Negative", u64::from(line)),
        ReadFault::EndsEarly => Said::Name(b"EndsEarly"),
        ReadFault::NoInstance => Said::Name(b"NoInstance"),
        ReadFault::NotAFlowShop(line) => Said::One(b"NotAFlowShop", u64::from(line)),
        ReadFault::BadPair => Said::Name(b"BadPair"),
        ReadFault::BadLine(line) => Said::One(b"BadLine", u64::from(line)),
        ReadFault::BadCost(line) => Said::One(b"BadCost", u64::from(line)),
        ReadFault::NoJobs => Said::Name(b"NoJobs"),
        ReadFault::TooManyJobs => Said::Name(b"TooManyJobs"),
        ReadFault::TooManyArcs => Said::Name(b"TooManyArcs"),
        ReadFault::BadArc(line) => Said::One(b"BadArc", u64::from(line)),
        ReadFault::OutOfMemory => Said::Name(b"OutOfMemory"),
    }
}

fn said_of_task(refusal: &Refusal) -> Said
    ensures { said_words result ≡ refusal_words refusal.now }
{
    match *refusal {
        Refusal::NoSolver => Said::Name(b"NoSolver"),
        Refusal::TooManyJobs => Said::Name(b"TooManyJobs"),
        Refusal::MachinesMissing => Said::Name(b"MachinesMissing"),
        Refusal::MachinesDisagree => Said::Name(b"MachinesDisagree"),
        Refusal::MachineCount(m) => Said::One(b"MachineCount", u64::from(m)),
        Refusal::WrongTimes(job) => Said::One(b"WrongTimes", u64::from(job.get())),
        Refusal::MissingField(job, field) => {
            Said::Field(b"MissingField", u64::from(job.get()), field_name(field))
        }
        Refusal::ZeroTime(job) => Said::One(b"ZeroTime", u64::from(job.get())),
        Refusal::TotalTooLarge => Said::Name(b"TotalTooLarge"),
        Refusal::OutOfMemory => Said::Name(b"OutOfMemory"),
    }
}

fn field_name(field: Field) -> &'static [u8]
    ensures { result.now ≡ field_word field }
{
    match field {
        Field::Weight => b"weight",
        Field::Due => b"due",
        Field::Release => b"release",
        Field::Cost => b"cost",
    }
}

fn said_of_answer(fault: &AnswerFault) -> Said
    ensures { said_words result ≡ answer_fault_words fault.now }
{
    match *fault {
        AnswerFault::TooLong => Said::Name(b"TooLong"),
        AnswerFault::BadLine(line) => Said::One(b"BadLine", u64::from(line)),
        AnswerFault::NumberTooLarge(line) => Said::One(b"NumberTooLarge", u64::from(line)),
        AnswerFault::BadNotation => Said::Name(b"BadNotation"),
        AnswerFault::EndsEarly => Said::Name(b"EndsEarly"),
        AnswerFault::OutOfMemory => Said::Name(b"OutOfMemory"),
    }
}

fn said_of_bound(fault: &BoundTextFault) -> Said
    ensures { said_words result ≡ bound_fault_words fault.now }
{
    match *fault {
        BoundTextFault::TooLong => Said::Name(b"TooLong"),
        BoundTextFault::BadLine(line) => Said::One(b"BadLine", u64::from(line)),
        BoundTextFault::OutOfRange(line) => Said::One(b"OutOfRange", u64::from(line)),
        BoundTextFault::BadNotation => Said::Name(b"BadNotation"),
        BoundTextFault::EndsEarly => Said::Name(b"EndsEarly"),
        BoundTextFault::OutOfMemory => Said::Name(b"OutOfMemory"),
    }
}

fn said_of_pieces(fault: &PieceFault) -> Said
    ensures { said_words result ≡ piece_fault_words fault.now }
{
    match *fault {
        PieceFault::OutOfRange(piece) => Said::One(b"OutOfRange", piece as u64),
        PieceFault::EmptyPiece(piece) => Said::One(b"EmptyPiece", piece as u64),
        PieceFault::MachineTwice(machine, time) => {
            Said::Two(b"MachineTwice", u64::from(machine.get()), time)
        }
    }
}

// Writes the line of a fault.
fn say<W: Write>(writer: &mut Counted<W>, front: &[u8], said: Said)
    ensures { Wrote W.contents writer.old writer.new (front.now ++ line_text (said_words said)) }
{
    match said {
        Said::Name(name) => say_line(writer, front, name, &[]),
        Said::One(name, number) => {
            let mut digits = Buffer::new();
            say_line(writer, front, name, &[digits.format(number).as_bytes()]);
        }
        Said::Two(name, number, time) => {
            let mut first = Buffer::new();
            let mut second = Buffer::new();
            let first = first.format(number).as_bytes();
            say_line(
                writer,
                front,
                name,
                &[first, second.format(time).as_bytes()],
            );
        }
        Said::Field(name, number, field) => {
            let mut digits = Buffer::new();
            say_line(
                writer,
                front,
                name,
                &[digits.format(number).as_bytes(), field],
            );
        }
    }
}

// A line of a name and words, behind what stands at its front.
fn say_line<W: Write>(writer: &mut Counted<W>, front: &[u8], name: &[u8], words: &[&[u8]])
    ensures { Wrote W.contents writer.old writer.new
        (front.now ++ line_text (name.now ∷ map (λ word. word.now) words.now)) }
{
    let mut line = Gathered::<LINE>::new();
    line.push(writer, front);
    line.push(writer, name);
    for word in words {
        line.push(writer, b" ");
        line.push(writer, word);
    }
    line.push(writer, b"\n");
    line.write(writer);
}

// The line of a cycle, written in blocks where it is longer than one.
fn say_cycle<W: Write>(writer: &mut Counted<W>, jobs: &[JobId])
    ensures { Wrote W.contents writer.old writer.new
        (refused_line (codes "Cycle" ∷ map decimal jobs.now)) }
{
    let mut line = Gathered::<BLOCK>::new();
    line.push(writer, b"threefield: refused: Cycle");
    for job in jobs {
        let mut digits = Buffer::new();
        line.push(writer, b" ");
        line.push(writer, digits.format(job.get()).as_bytes());
    }
    line.push(writer, b"\n");
    line.write(writer);
}
