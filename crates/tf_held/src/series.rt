//! A line for each of several instances of a file.
ghost use Rattle.std.specs.Prelude.{◌≡◌, ◌↔◌, ◌++◌, ◌-◌, ℕ, List, true, false, IfOk, IfErr};
ghost use Rattle.std.specs.Prelude.{IfSome, IsTrue, OnOk, MatchResult, if◌then◌else◌, option_map};
ghost use Rattle.std.specs.Io.KnownBytes.{Appends};
ghost use Rattle.tf_export.specs.Faults.{fault_json};
ghost use Rattle.tf_asked.specs.Columns.{IsSized};
ghost use Rattle.tf_asked.specs.declared.options.Work.{Work as Asking};
ghost use Rattle.tf_command.specs.Ending.{SaysLine};
ghost use Rattle.tf_command.specs.Formatted.{held};
ghost use Rattle.tf_command.specs.Wrote.{Wrote};
ghost use Rattle.tf_text.specs.Counted.{has_failed, inner_of, use_of};
ghost use Rattle.tf_text.specs.Input.{IsTextOf};
ghost use Rattle.tf_text.specs.declared.answer.layout.Layout.TheVariants.{One, Two};
ghost use Rattle.tf_held.specs.declared.series.Stop.TheVariants.{Memory, Unwritten};
ghost use Rattle.tf_held.specs.Texts.{beside_of, held_texts};
ghost use Rattle.tf_held.specs.Series.{AreOptionsFor, EndsSeries, IsAtEnd, IsFormFor, IsNamed};
ghost use Rattle.tf_held.specs.Series.{IsPast, IsStopAt, IsTextIn, IsUnreadFor, IsUnwritten};
ghost use Rattle.tf_held.specs.Series.{IsWorkFor, RunsFor, SaidKept, Tells, WritesAll, WritesUntil};
ghost use Rattle.tf_held.specs.Series.{answers_of, bound_of, document_of, has_told, line_for};
ghost use Rattle.tf_held.specs.Series.{line_of_stop, said_for, status_of_stop};
ghost use Rattle.tf_held.specs.AnswerTexts.{AreNext, IsNextFor};
ghost use Rattle.tf_held.specs.Shops.{EndsCounted};
ghost use Rattle.tf_held.specs.Instances.{AreParts, HasInstance, IsBehind, IsNamedApart};
ghost use Rattle.tf_asked.specs.Asking.{form_asked};

use crate::answers::{next_answer, next_order};
use crate::headings::name_at;
use crate::held::{Beside, Held};
use crate::shops::perform_counted;
use crate::words_split::split_words;
use itoa::Buffer;
use std::alloc::Global;
use std::io::Write;
use tf_asked::options::{Assessing, Evaluating, FormOption, Options, OrderSource, Telling, Work};
use tf_asked::series::{FileForm, Series, Told};
use tf_command::console::Console;
use tf_command::formatted::{JSON_DEVICE, JSON_MEMORY, memory};
use tf_command::gathered::send;
use tf_command::reading::text_named;
use tf_command::report::{say_device, say_memory};
use tf_command::source::Sources;
use tf_evaluate::evaluation::Detail;
use tf_export::documents::{Document, json};
use tf_export::entry::push_entry;
use tf_export::faults::fault_json;
use tf_model::memory::OutOfMemory;
use tf_read::fault::ReadFault;
use tf_read::weighted_tardiness::read_wt;
use tf_text::answer::layout::Layout;
use tf_text::answer::writing::push_number_line;
use tf_text::counted::{Counted, Device};

/// What a command wrote in memory.
type Kept = Console<Vec<u8>, Vec<u8>>;

/// Why a series ends before its last line.
#[derive(Drop)]
pub enum Stop {
    /// There was no memory.
    Memory,
    /// A line could not be written.
    Unwritten,
    /// The command ended for an instance without an answer, with this status, and this is said.
    Ended(u8, Vec<u8>),
}

impl From<OutOfMemory> for Stop {
    ghost from_gives = { λ _ stop. stop ≡ Memory };

    fn from(_: OutOfMemory) -> Stop {
        Stop::Memory
    }
}

impl From<Device> for Stop {
    ghost from_gives = { λ _ stop. stop ≡ Unwritten };

    fn from(_: Device) -> Stop {
        Stop::Unwritten
    }
}

/// Tells a line of each instance of a series: its number, and what the command says of it that
/// solves, bounds or evaluates that instance alone. Each line is written when it is known, so where
/// the series ends early, the lines of the instances before stand.
pub fn perform_series<S: Sources, W: Write, E: Write>(
    console: &mut Console<W, E>,
    sources: &S,
    series: &Series<'_>,
) -> u8
    ensures { EndsSeries (S.text_of sources.now) series.now
        (use_of W.contents console.old.writer console.new.writer)
        (SaysLine E.contents false console.old.errors console.new.errors) result }
{
    let instance = match text_for(console, sources, series, series.input) {
        Ok(text) => text,
        Err(status) => return status,
    };
    let answers = match text_beside(console, sources, series, answers_of(&series.told)) {
        Ok(text) => text,
        Err(status) => return status,
    };
    let bounds = match text_beside(console, sources, series, bound_of(&series.told)) {
        Ok(text) => text,
        Err(status) => return status,
    };
    let texts = Beside {
        answers: answers.as_slice(),
        bounds: bounds.as_slice(),
    };
    match write_lines(
        console.alloc,
        series,
        instance.as_slice(),
        texts,
        &mut console.writer,
        &mut console.terminal,
    ) {
        Ok(()) => 0,
        Err(stop) => {
            clear(&mut console.terminal);
            tell_stop(series, &stop, &mut console.errors)
        }
    }
}

/// The name of the text of answers or orders, if any are evaluated.
fn answers_of<'a>(told: &Told<'a>) -> Option<&'a str>
    ensures { option_map (λ name. name.now) result ≡ answers_of told.now }
{
    match told {
        Told::Answers(name, _) | Told::Orders(name, _) => Some(*name),
        Told::Values | Told::Bounds(_) | Told::Ruled(..) => None,
    }
}

/// The name of the text of bounds, if there is one.
fn bound_of<'a>(told: &Told<'a>) -> Option<&'a str>
    ensures { option_map (λ name. name.now) result ≡ bound_of told.now }
{
    match told {
        Told::Answers(_, aids) | Told::Orders(_, aids) | Told::Ruled(_, aids) => aids.bound,
        Told::Values | Told::Bounds(_) => None,
    }
}

/// The text of that name, and an empty one where there is none.
fn text_beside<S: Sources, W: Write, E: Write>(
    console: &mut Console<W, E>,
    sources: &S,
    series: &Series<'_>,
    name: Option<&str>,
) -> Result<Vec<u8>, u8>
    ensures text { IfOk result (λ text.
        IsNamed (S.text_of sources.now) (option_map (λ name. name.now) name.entry) text.items) }
    ensures kept { IfOk result (λ _. console.new ≡ console.old) }
    ensures unread { IfErr result (IsUnreadFor (S.text_of sources.now) series.now
        (use_of W.contents console.old.writer console.new.writer)
        (SaysLine E.contents false console.old.errors console.new.errors)) }
{
    match name {
        Some(name) => text_for(console, sources, series, name),
        None => Ok(Vec::new(console.alloc)),
    }
}

/// The text of that name. Where it cannot be read, says so, as text or as JSON, and gives the
/// status.
fn text_for<S: Sources, W: Write, E: Write>(
    console: &mut Console<W, E>,
    sources: &S,
    series: &Series<'_>,
    name: &str,
) -> Result<Vec<u8>, u8>
    ensures text { IfOk result (λ text. IsTextOf (S.text_of sources.now name.now) text.items) }
    ensures kept { IfOk result (λ _. console.new ≡ console.old) }
    ensures unread { IfErr result (IsUnreadFor (S.text_of sources.now) series.now
        (use_of W.contents console.old.writer console.new.writer)
        (SaysLine E.contents false console.old.errors console.new.errors)) }
{
    if !series.json {
        return text_named(console, sources, name, false);
    }
    let mut kept = memory(console.alloc);
    match text_named(&mut kept, sources, name, false) {
        Ok(text) => Ok(text),
        Err(status) => Err(say_kept(console.alloc, &kept, status, &mut console.errors)),
    }
}

/// Says as JSON what was said in memory, and gives its status, or says that there is no memory.
fn say_kept<E: Write>(alloc: Global, kept: &Kept, status: u8, errors: &mut Counted<E>) -> u8
    ensures { SaidKept E.contents kept.now status errors.old errors.new result }
{
    match json_kept(alloc, kept) {
        Ok(said) => {
            send(errors, said.as_slice());
            status
        }
        Err(_) => {
            send(errors, JSON_MEMORY);
            3
        }
    }
}

/// What was said in memory, as JSON.
fn json_kept(alloc: Global, kept: &Kept) -> Result<Vec<u8>, OutOfMemory>
    ensures whole { OnOk result (has_failed kept.now.errors ≡ false) }
    ensures said { IfOk result
        (λ said. said.items ≡ fault_json None (inner_of kept.now.errors).items) }
{
    if kept.errors.failed() {
        return Err(OutOfMemory);
    }
    fault_json(alloc, None, kept.errors.inner().as_slice())
}

/// Writes the lines of the instances of a file, in their order, each when it is known. Meanwhile a
/// terminal shows whose turn it is.
fn write_lines<W: Write, E: Write>(
    alloc: Global,
    series: &Series<'_>,
    instance: &[u8],
    texts: Beside<'_>,
    writer: &mut Counted<W>,
    terminal: &mut Option<Counted<E>>,
) -> Result<(), Stop>
    ensures { MatchResult result
        (λ _. WritesAll series.now instance.now (beside_of texts.entry)
        (use_of W.contents writer.old writer.new))
        (WritesUntil series.now instance.now (beside_of texts.entry)
        (use_of W.contents writer.old writer.new)) }
{
    let mut rest = texts;
    let mut ahead = None;
    let first = u64::from(series.span.first);
    let last = u64::from(series.span.last.unwrap_or(u32::MAX));
    for step in 0..(last + 1).saturating_sub(first) {
        let number = (first + step) as u32;
        let (beside, more) = next_for(&series.told, rest);
        let held = Held {
            name: series.input,
            instance,
            bound: bound_of(&series.told),
            beside,
        };
        let parts = parts_of(series, ahead);
        show_turn(terminal, number, series.span.last);
        match told_next(alloc, series, held, parts, number)? {
            Some(kept) => {
                clear(terminal);
                let text = kept.writer.inner().as_slice();
                write_entry(alloc, series, number, text, writer)?;
            }
            None => {
                clear(terminal);
                return Ok(());
            }
        }
        rest = more;
        ahead = behind(series, instance, parts, number);
    }
    Ok(())
}

/// Shows on a terminal that it is the turn of the instance of this number.
fn show_turn<E: Write>(terminal: &mut Option<Counted<E>>, number: u32, last: Option<u32>) {
    let Some(terminal) = terminal else {
        return;
    };
    let mut digits = Buffer::new();
    send(terminal, b"\rinstance ");
    send(terminal, digits.format(number).as_bytes());
    if let Some(last) = last {
        send(terminal, b" of ");
        send(terminal, digits.format(last).as_bytes());
    }
}

/// Clears the line on a terminal.
fn clear<E: Write>(terminal: &mut Option<Counted<E>>) {
    if let Some(terminal) = terminal {
        send(terminal, b"\r\x1b[K");
    }
}

/// What the texts have for the next instance, and what is left of them.
fn next_for<'a>(told: &Told<'_>, texts: Beside<'a>) -> (Beside<'a>, Beside<'a>)
    ensures { AreNext told.now (beside_of texts.entry) (beside_of result.0) (beside_of result.1) }
{
    let (answers, more) = next_told(told, texts.answers);
    let (bounds, later) = next_answer(texts.bounds);
    let here = Beside { answers, bounds };
    let rest = Beside {
        answers: more,
        bounds: later,
    };
    (here, rest)
}

/// What a text of answers or orders has for the next instance, and what is left of it.
fn next_told<'a>(told: &Told<'_>, text: &'a [u8]) -> (&'a [u8], &'a [u8])
    ensures { IsNextFor told.now text.now result.0.now result.1.now }
{
    match told {
        Told::Orders(..) => next_order(text),
        _ => next_answer(text),
    }
}

/// Writes the line of the instance of this number, of which a command wrote this text.
fn write_entry<W: Write>(
    alloc: Global,
    series: &Series<'_>,
    number: u32,
    text: &[u8],
    writer: &mut Counted<W>,
) -> Result<(), Stop>
    ensures written { OnOk result (Appends (W.contents (inner_of writer.old))
        (W.contents (inner_of writer.new)) (line_for series.now number text.now)) }
    ensures unwritten { IfErr result
        (IsUnwritten (use_of W.contents writer.old writer.new)
        (line_for series.now number text.now)) }
{
    let line = line_for(alloc, series, number, text)?;
    writer.push_all(line.as_slice())?;
    Ok(())
}

/// The line of the instance of this number, of which a command wrote this text.
fn line_for(
    alloc: Global,
    series: &Series<'_>,
    number: u32,
    text: &[u8],
) -> Result<Vec<u8>, OutOfMemory>
    ensures { IfOk result (λ line. line.items ≡ line_for series.now number text.now) }
{
    if series.json {
        return json(alloc, document_of(&series.told), Some(number), text);
    }
    let mut line = Vec::new(alloc);
    push_entry(&mut line, number, text)?;
    Ok(line)
}

/// What the command prints, as a document.
fn document_of(told: &Told<'_>) -> Document
    ensures { result ≡ document_of told.now }
{
    match told {
        Told::Values => Document::Answer,
        Told::Bounds(_) => Document::Bound,
        _ => Document::Evaluation,
    }
}

/// The words of the next instance, and the text behind them, where it is known which text is ahead.
fn parts_of<'a>(series: &Series<'_>, ahead: Option<&'a [u8]>) -> Option<(&'a [u8], &'a [u8])>
    ensures { (text : List ℕ) (number : ℕ) → IfSome ahead.entry
        (λ ahead. IsBehind series.now.form text (number - 1) ahead.now) →
        IfSome result
        (λ parts. AreParts series.now.form text number parts.0.now parts.1.now) }
{
    match (ahead, series.form) {
        (Some(text), FileForm::Wt { jobs }) => Some(split_words(text, 3 * u64::from(jobs))),
        _ => None,
    }
}

/// The text behind the instance of this number, which the file has, where it is one of a weighted
/// tardiness file and the next one may be read from its own words.
fn behind<'a>(
    series: &Series<'_>,
    instance: &'a [u8],
    parts: Option<(&'a [u8], &'a [u8])>,
    number: u32,
) -> Option<&'a [u8]>
    requires there { IsNamedApart series.now.input.now series.now.told →
        HasInstance series.now.form instance.now number }
    requires parts { IfSome parts
        (λ parts. AreParts series.now.form instance.now number parts.0.now parts.1.now) }
    ensures { IfSome result (λ ahead. IsBehind series.now.form instance.now number ahead.now) }
{
    let FileForm::Wt { jobs } = series.form else {
        return None;
    };
    if !is_named_apart(series) {
        return None;
    }
    if let Some((_, ahead)) = parts {
        return Some(ahead);
    }
    let count = 3 * u64::from(jobs) * u64::from(number);
    let (_, ahead) = split_words(instance, count);
    Some(ahead)
}

/// What the command writes that is about the instance of this number, as [`told_of`] says it. Where
/// the instances before it are known to be there, it is read from its own words alone, unless there
/// it has a fault, whose line counts from the first of the file.
fn told_next(
    alloc: Global,
    series: &Series<'_>,
    held: Held<'_>,
    parts: Option<(&[u8], &[u8])>,
    number: u32,
) -> Result<Option<Kept>, Stop>
    requires name { held.name.now ≡ series.now.input.now }
    requires bound { option_map (λ name. name.now) held.bound ≡ bound_of series.now.told }
    requires parts { IfSome parts
        (λ parts. AreParts series.now.form held.instance.now number parts.0.now parts.1.now) }
    ensures { MatchResult result
        (Tells series.now held.entry.instance.now (beside_of held.entry.beside) number)
        (IsStopAt series.now held.entry.instance.now (beside_of held.entry.beside) number) }
{
    if let Some((own, _)) = parts
        && is_named_apart(series)
    {
        let alone = Held {
            instance: own,
            ..held
        };
        let (status, kept) = run_over(alloc, series, alone, 1)?;
        if has_told(status) {
            return Ok(Some(kept));
        }
    }
    told_of(alloc, series, held, number)
}

/// Whether there is no text of bounds, and that of the answers has another name than the file.
fn is_named_apart(series: &Series<'_>) -> bool
    ensures { result ≡ true → IsNamedApart series.now.input.now series.now.told }
{
    if bound_of(&series.told).is_some() {
        return false;
    }
    match series.told {
        Told::Answers(answer, _) => answer != series.input,
        _ => true,
    }
}

/// Does the work that is about the instance of this number of a text: the status, and what was
/// written. Only want of memory is an error.
fn run_over(
    alloc: Global,
    series: &Series<'_>,
    held: Held<'_>,
    number: u32,
) -> Result<(u8, Kept), OutOfMemory>
    requires name { held.name.now ≡ series.now.input.now }
    requires bound { option_map (λ name. name.now) held.bound ≡ bound_of series.now.told }
    ensures { IfOk result (λ run. RunsFor series.now held.entry.instance.now
        (beside_of held.entry.beside) number run.0 (inner_of run.1.writer).items
        (inner_of run.1.errors).items) }
{
    let mut kept = memory(alloc);
    let status = work_over(&mut kept, series, &held, number);
    if kept.writer.failed() || kept.errors.failed() {
        return Err(OutOfMemory);
    }
    Ok((status, kept))
}

/// What the command writes that is about the instance of this number, and none where a series to
/// the end of the file has come to that.
fn told_of(
    alloc: Global,
    series: &Series<'_>,
    held: Held<'_>,
    number: u32,
) -> Result<Option<Kept>, Stop>
    requires name { held.name.now ≡ series.now.input.now }
    requires bound { option_map (λ name. name.now) held.bound ≡ bound_of series.now.told }
    ensures { MatchResult result
        (Tells series.now held.entry.instance.now (beside_of held.entry.beside) number)
        (IsStopAt series.now held.entry.instance.now (beside_of held.entry.beside) number) }
{
    let (status, kept) = run_over(alloc, series, held, number)?;
    if has_told(status) {
        return Ok(Some(kept));
    }
    if is_at_end(alloc, series, held.instance, number)? {
        return Ok(None);
    }
    let errors = kept.errors.inner().as_slice();
    Err(Stop::Ended(status, said_for(alloc, series, number, errors)?))
}

/// Whether a series to the end of the file has come to it. Only want of memory is an error.
fn is_at_end(
    alloc: Global,
    series: &Series<'_>,
    text: &[u8],
    number: u32,
) -> Result<bool, OutOfMemory>
    ensures { IfOk result (λ end. IsTrue end ↔ IsAtEnd series.now text.now number) }
{
    if series.span.last.is_some() {
        return Ok(false);
    }
    if number <= series.span.first {
        return Ok(false);
    }
    is_past(alloc, series.form, text, number)
}

/// Whether the file has no instance of this number. Only want of memory is an error.
fn is_past(alloc: Global, form: FileForm, text: &[u8], number: u32) -> Result<bool, OutOfMemory>
    ensures { IfOk result (λ past. IsTrue past ↔ IsPast form text.now number) }
{
    match form {
        FileForm::Wt { jobs } => match read_wt(alloc, text, jobs, number) {
            Err(ReadFault::NoInstance) => Ok(true),
            Err(ReadFault::OutOfMemory) => Err(OutOfMemory),
            Ok(_) | Err(_) => Ok(false),
        },
        FileForm::Flow { .. } => Ok(name_at(text, number).is_empty()),
    }
}

/// What was said of the instance of this number, and a line that names it, or that as JSON.
fn said_for(
    alloc: Global,
    series: &Series<'_>,
    number: u32,
    errors: &[u8],
) -> Result<Vec<u8>, OutOfMemory>
    ensures { IfOk result (λ said. said.items ≡ said_for series.now number errors.now) }
{
    if series.json {
        return fault_json(alloc, Some(number), errors);
    }
    let mut said = Vec::from_slice(alloc, errors)?;
    push_number_line(&mut said, b"threefield: instance", number)?;
    Ok(said)
}

/// Whether a command of this status told what is asked for.
fn has_told(status: u8) -> bool
    ensures { result ≡ has_told status }
{
    status == 0 || status == 1 || status == 6
}

/// The options that name the instance of this number alone. Faults are not explained.
fn options_for<'a>(series: &Series<'a>, instance: &'a [u8], number: u32) -> Options<'a>
    ensures { AreOptionsFor series.now instance.now number result }
{
    Options {
        problem: series.problem,
        form: form_for(series.form, instance, number),
        machines: series.machines,
        input: series.input,
        telling: Telling::nothing(),
    }
}

/// The form that names the instance of this number alone.
fn form_for(form: FileForm, instance: &[u8], number: u32) -> FormOption<'_>
    ensures { IsFormFor form instance.now number (form_asked result) }
{
    match form {
        FileForm::Wt { jobs } => FormOption::Wt {
            jobs,
            index: number,
        },
        FileForm::Flow { pair } => FormOption::Flow {
            name: text_in(name_at(instance, number)),
            pair,
        },
    }
}

/// Does the work of the command that is about the instance of this number alone, and gives the
/// status.
fn work_over(kept: &mut Kept, series: &Series<'_>, texts: &Held<'_>, number: u32) -> u8
    ensures { (work : Asking)
        × IsWorkFor series.now texts.now.instance.now number texts.now.beside.answers.now work
        × EndsCounted (held_texts texts.now.name.now texts.now.instance.now
        (option_map (λ name. name.now) texts.now.bound) (beside_of texts.now.beside)) work
        (use_of held kept.old.writer kept.new.writer)
        (λ explain. SaysLine held explain kept.old.errors kept.new.errors) result }
{
    let options = options_for(series, texts.instance, number);
    let work = work_for(series, options, texts.beside.answers);
    perform_counted(kept, texts, work)
}

/// The work of the command by options that name an instance alone, beside an answer or the line of
/// an order.
fn work_for<'a>(series: &Series<'a>, options: Options<'a>, answer: &'a [u8]) -> Work<'a>
    ensures sized { IsSized result }
    ensures work { (instance : List ℕ) (number : ℕ) →
        AreOptionsFor series.now instance number options.entry →
        IsWorkFor series.now instance number answer.now result }
{
    match series.told {
        Told::Values => Work::Solve(options, layout_for(series)),
        Told::Bounds(steps) => Work::Bound(options, steps),
        Told::Answers(answer, aids) => match aids.bound {
            None => Work::Evaluate(Evaluating {
                options,
                answer,
                detail: Detail::Summary,
                steps: aids.steps,
            }),
            Some(bound) => Work::Assess(Assessing {
                options,
                answer,
                bound,
                steps: aids.steps,
            }),
        },
        Told::Orders(_, aids) => {
            Work::Rate(
                options,
                OrderSource::Given(text_in(answer), Detail::Summary),
                aids,
            )
        }
        Told::Ruled(rule, aids) => {
            Work::Rate(options, OrderSource::Ruled(rule, Detail::Summary), aids)
        }
    }
}

/// The version of an answer: 1 in a JSON object, which names each job of a certificate.
fn layout_for(series: &Series<'_>) -> Layout
    ensures { result ≡ (if series.now.json then One else Two) }
{
    if series.json {
        Layout::One
    } else {
        Layout::Two
    }
}

/// The text that bytes are, and nothing where they are no text in UTF-8.
fn text_in(bytes: &[u8]) -> &str
    ensures { IsTextIn bytes.now result.now }
{
    match std::str::from_utf8(bytes) {
        Ok(text) => text,
        Err(_) => "",
    }
}

/// Says why there are no more lines, and gives the status.
fn tell_stop<E: Write>(series: &Series<'_>, stop: &Stop, errors: &mut Counted<E>) -> u8
    ensures status { result ≡ status_of_stop stop.now }
    ensures said { Wrote E.contents errors.old errors.new (line_of_stop series.now stop.now) }
{
    match stop {
        Stop::Memory if series.json => {
            send(errors, JSON_MEMORY);
            3
        }
        Stop::Unwritten if series.json => {
            send(errors, JSON_DEVICE);
            4
        }
        Stop::Memory => say_memory(errors),
        Stop::Unwritten => say_device(errors),
        Stop::Ended(status, said) => {
            send(errors, said.as_slice());
            *status
        }
    }
}
