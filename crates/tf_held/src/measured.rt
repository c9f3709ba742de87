//! An evaluation, with what the schedule comes to by each objective.
ghost use Rattle.std.specs.Prelude.{◌≡◌, ◌⊎◌, codes, Ok, IfOk, IsErr, MatchOption};
ghost use Rattle.tf_text.specs.Counted.{use_of};
ghost use Rattle.tf_command.specs.Ending.{SaysLine};
ghost use Rattle.tf_command.specs.Wrote.{Wrote};
ghost use Rattle.tf_command.specs.Formatted.{IsWritten, IsCutOff};
ghost use Rattle.tf_held.specs.Measured.{EndsMeasured, MeasuresCounted};
ghost use Rattle.tf_held.specs.Done.{IsDone, IsDoneCounted};
ghost use Rattle.tf_assess.specs.Measures.{IsPosed, IsUnposed};
ghost use Rattle.tf_text.specs.AnswerReading.{answer_in};
ghost use Rattle.tf_text.specs.AnswerText.{SheetData};
ghost use Rattle.tf_asked.specs.declared.options.Options.{Options};
ghost use Rattle.tf_held.specs.Measured.{AreOfAnswer, answer_of, answered_with};
ghost use Rattle.tf_held.specs.Measured.{options_of, work_of};
ghost use Rattle.tf_held.specs.Shops.{IsUnder};

use crate::shops::{WithText, line_for, under};
use std::alloc::Global;
use std::io::Write;
use tf_asked::options::{Assessing, Evaluating, Options, Work};
use tf_assess::measures::{Measures, PosedInstance, measures_of, posed_in, with_measures};
use tf_check::answer::Answer;
use tf_command::commands::perform;
use tf_command::console::Console;
use tf_command::formatted::memory;
use tf_command::gathered::send;
use tf_command::reading::text_named;
use tf_command::report::{say_device, say_memory};
use tf_command::source::Sources;
use tf_engine::request::Request;
use tf_model::memory::OutOfMemory;
use tf_text::answer::fault::AnswerFault;
use tf_text::answer::layout::Layout;
use tf_text::answer::reading::read_answer;

/// The evaluation of an answer: by the optimum or the bound that is found, or beside one that a
/// text offers.
#[derive(Drop)]
pub enum Answered<'a> {
    Alone(Evaluating<'a>),
    Beside(Assessing<'a>),
}

impl<'a> Answered<'a> {
    /// What names the problem and the instance.
    fn options(&self) -> &Options<'a>
        ensures { result.now ≡ options_of self.now }
    {
        match self {
            Answered::Alone(evaluating) => &evaluating.options,
            Answered::Beside(assessing) => &assessing.options,
        }
    }

    /// The name of the answer.
    fn answer(&self) -> &'a str
        ensures { result.now ≡ answer_of self.now }
    {
        match self {
            Answered::Alone(evaluating) => evaluating.answer,
            Answered::Beside(assessing) => assessing.answer,
        }
    }

    /// The same for another problem line.
    fn under(self, line: &'a str) -> Answered<'a>
        ensures { (other : Options) × IsUnder (options_of self.entry) line.now other
            × (result ≡ answered_with self.entry other) }
    {
        match self {
            Answered::Alone(evaluating) => Answered::Alone(Evaluating {
                options: under(evaluating.options, line),
                ..evaluating
            }),
            Answered::Beside(assessing) => Answered::Beside(Assessing {
                options: under(assessing.options, line),
                ..assessing
            }),
        }
    }

    /// The work that it is.
    fn into_work(self) -> Work<'a>
        ensures { result ≡ work_of self.entry }
    {
        match self {
            Answered::Alone(evaluating) => Work::Evaluate(evaluating),
            Answered::Beside(assessing) => Work::Assess(assessing),
        }
    }
}

/// What an evaluation was asked for and wrote, without its measures, and its status.
#[derive(Drop)]
struct Done {
    request: Request,
    output: Vec<u8>,
    errors: Vec<u8>,
    status: u8,
}

/// What an evaluation wrote, with its measures, and its status.
#[derive(Drop)]
struct Told {
    output: Vec<u8>,
    errors: Vec<u8>,
    status: u8,
}

/// Evaluates an answer as [`perform_counted`](crate::shops::perform_counted) does, and writes
/// before the last line a line `measure NAME VALUE` for each objective of which the instance has
/// the fields.
pub(crate) fn perform_measured<S: Sources, W: Write, E: Write>(
    console: &mut Console<W, E>,
    sources: &S,
    answered: Answered<'_>,
) -> u8
    ensures { EndsMeasured (S.text_of sources.now) answered.entry
        (use_of W.contents console.old.writer console.new.writer)
        (Wrote E.contents console.old.errors console.new.errors)
        (SaysLine E.contents (options_of answered.entry).telling.explain console.old.errors
        console.new.errors) result }
{
    let options = answered.options();
    let explain = options.telling.explain;
    let instance = match text_named(console, sources, options.input, explain) {
        Ok(text) => text,
        Err(status) => return status,
    };
    let answer = match text_named(console, sources, answered.answer(), explain) {
        Ok(text) => text,
        Err(status) => return status,
    };
    match told_of(console.alloc, sources, instance, answer, answered) {
        Ok(told) => write_told(console, &told),
        Err(_) => say_memory(&mut console.errors),
    }
}

/// Writes both texts, and gives the status.
fn write_told<W: Write, E: Write>(console: &mut Console<W, E>, told: &Told) -> u8
    ensures { IsWritten (use_of W.contents console.old.writer console.new.writer)
        (Wrote E.contents console.old.errors console.new.errors)
        told.now.output.items told.now.errors.items told.now.status result
        ⊎ IsCutOff (use_of W.contents console.old.writer console.new.writer)
        (Wrote E.contents console.old.errors console.new.errors)
        told.now.output.items (codes "threefield: device fault\n") result }
{
    match console.writer.push_all(told.output.as_slice()) {
        Ok(()) => {
            send(&mut console.errors, told.errors.as_slice());
            told.status
        }
        Err(_) => say_device(&mut console.errors),
    }
}

/// What an evaluation over an instance and an answer in memory writes, with its measures. Both
/// texts are given up before the schedule is measured.
fn told_of<S: Sources>(
    alloc: Global,
    sources: &S,
    instance: Vec<u8>,
    answer: Vec<u8>,
    answered: Answered<'_>,
) -> Result<Told, OutOfMemory>
    ensures { IfOk result (λ told. MeasuresCounted (S.text_of sources.now) instance.items
        answer.items answered.entry told.output.items told.errors.items told.status) }
{
    let done = done_of(
        alloc,
        sources,
        instance.as_slice(),
        answer.as_slice(),
        answered,
    )?;
    let measures = answer_measures(alloc, &done.request, instance, answer)?;
    Ok(Told {
        output: with_measures(done.output, &measures)?,
        errors: done.errors,
        status: done.status,
    })
}

/// What an evaluation over an instance and an answer in memory writes. A shop whose number of
/// machines is wanted has as many as the instance says.
fn done_of<S: Sources>(
    alloc: Global,
    sources: &S,
    instance: &[u8],
    answer: &[u8],
    answered: Answered<'_>,
) -> Result<Done, OutOfMemory>
    ensures { IfOk result (IsDoneCounted (S.text_of sources.now) instance.now answer.now
        answered.entry) }
{
    let line = line_for(alloc, answered.options(), instance)?;
    let answers = WithText {
        name: answered.answer(),
        text: answer,
        others: sources,
    };
    let texts = WithText {
        name: answered.options().input,
        text: instance,
        others: &answers,
    };
    done_over(alloc, &texts, answered.under(line.as_str()))
}

/// What an evaluation for this problem line writes.
fn done_over<S: Sources>(
    alloc: Global,
    texts: &S,
    answered: Answered<'_>,
) -> Result<Done, OutOfMemory>
    ensures { IfOk result (IsDone (S.text_of texts.now) answered.entry) }
{
    let request = answered.options().request(alloc, Layout::Two)?;
    let mut kept = memory(alloc);
    let status = perform(&mut kept, texts, &answered.into_work());
    if kept.writer.failed() || kept.errors.failed() {
        return Err(OutOfMemory);
    }
    Ok(Done {
        request,
        output: Vec::from_slice(alloc, kept.writer.inner().as_slice())?,
        errors: Vec::from_slice(alloc, kept.errors.inner().as_slice())?,
        status,
    })
}

/// What the answer's schedule comes to by each objective, where all texts are well formed. Each
/// text is given up when it was read.
fn answer_measures(
    alloc: Global,
    request: &Request,
    instance: Vec<u8>,
    answer: Vec<u8>,
) -> Result<Option<Measures>, OutOfMemory>
    ensures { IfOk result (AreOfAnswer request.now instance.items answer.items) }
{
    let Some(posed) = posed_of(alloc, request, instance)? else {
        return Ok(None);
    };
    let Some(answer) = answer_said(alloc, answer)? else {
        return Ok(None);
    };
    Ok(Some(measures_of(alloc, &posed, answer.pieces.as_slice())?))
}

/// What the request and an instance text mean, if they are well formed.
fn posed_of(
    alloc: Global,
    request: &Request,
    text: Vec<u8>,
) -> Result<Option<PosedInstance<Global>>, OutOfMemory>
    ensures { IfOk result (λ found. MatchOption found (IsUnposed request.now text.items)
        (IsPosed request.now text.items)) }
{
    posed_in(alloc, request, text.as_slice())
}

/// The answer of a text, if the text is well formed.
fn answer_said(alloc: Global, text: Vec<u8>) -> Result<Option<Answer<Global>>, OutOfMemory>
    ensures { IfOk result (λ found. MatchOption found (IsErr (answer_in text.items))
        (λ answer. (sheet : SheetData) × (answer_in text.items ≡ Ok sheet)
        × (answer ≡ sheet.answer))) }
{
    match read_answer(alloc, text.as_slice()) {
        Ok(sheet) => Ok(Some(sheet.into_answer())),
        Err(AnswerFault::OutOfMemory) => Err(OutOfMemory),
        Err(_) => Ok(None),
    }
}
