//! Plans and evaluations for a shop of as many machines as its file has.
ghost use Rattle.std.specs.Prelude.{◌≡◌, Some, true, false, IfOk, IfSome, MatchOption, option_map};
ghost use Rattle.std.specs.Prelude.{string_bytes};
ghost use Rattle.tf_command.specs.Ending.{SaysLine};
ghost use Rattle.tf_command.specs.Performing.{Performs};
ghost use Rattle.tf_notation.specs.Reading.{notation};
ghost use Rattle.tf_asked.specs.Columns.{IsSized};
ghost use Rattle.tf_asked.specs.declared.options.Options.{Options};
ghost use Rattle.tf_text.specs.Counted.{use_of};
ghost use Rattle.tf_held.specs.Shops.{EndsCounted, IsCountedLine, IsLineFor, IsUncounted, IsUnder};
ghost use Rattle.tf_held.specs.Shops.{asks_count, evaluated, is_uncounted_in, is_uncounted_shop};
ghost use Rattle.tf_held.specs.Shops.{texts_with, wants_count, whole_name, with_options};

use std::alloc::Global;
use std::io;
use std::io::{Read, Write};
use tf_asked::options::{Assessing, Evaluating, FormOption, Options, Work};
use tf_command::commands::perform;
use tf_command::console::Console;
use tf_command::reading::text_named;
use tf_command::report::say_memory;
use tf_command::source::Sources;
use tf_model::class::class_of;
use tf_model::memory::OutOfMemory;
use tf_model::problem::Problem;
use tf_notation::reading::read;
use tf_notation::writing::notation_text;
use tf_read::fault::ReadFault;
use tf_read::flow_shop::read_flowshop;

/// Bytes in memory, or another source.
#[derive(Drop)]
pub enum HeldOr<'a, R> {
    Held(&'a [u8]),
    Other(R),
}

impl<R: Read> Read for HeldOr<'_, R> {
    ghost use Rattle.std.specs.Io.{ReadsAtMost};
    ghost use Rattle.std.specs.Io.KnownBytes.{ReadConsumes};
    ghost use Rattle.tf_held.specs.Shops.{left_of, ReadsHeld};

    ghost remaining = { left_of R.remaining };

    fn read(&mut self, buf: &mut [u8]) -> io::Result<usize>
        ensures bound { ReadsAtMost result buf.new }
        ensures bytes { ReadConsumes (left_of R.remaining self.old) (left_of R.remaining self.new)
            result buf.new }
        ensures held { ReadsHeld self.old result }
    {
        match self {
            HeldOr::Held(bytes) => bytes.read(buf),
            HeldOr::Other(inner) => inner.read(buf),
        }
    }
}

/// A text that was read, by its name, and every other text as its source gives it.
#[derive(Drop)]
pub(crate) struct WithText<'a, S> {
    pub name: &'a str,
    pub text: &'a [u8],
    pub others: &'a S,
}

impl<'a, S: Sources> Sources for WithText<'a, S> {
    ghost use Rattle.tf_held.specs.Shops.{texts_with};

    type Source = HeldOr<'a, S::Source>;

    ghost text_of = { λ with.
        texts_with with.name.now with.text.now (S.text_of with.others.now) };

    fn open(&self, name: &str) -> io::Result<HeldOr<'a, S::Source>> {
        if name == self.name {
            return Ok(HeldOr::Held(self.text));
        }
        match self.others.open(name) {
            Ok(source) => Ok(HeldOr::Other(source)),
            Err(error) => Err(error),
        }
    }

    fn size(&self, name: &str) -> Option<usize> {
        if name == self.name {
            Some(self.text.len())
        } else {
            self.others.size(name)
        }
    }
}

/// Does what is asked for, as [`perform`] does. In a plan or an evaluation a problem that is solved
/// on two machines and names no number of them, as `F||Cmax`, is that of as many machines as the
/// instance of a flow shop file has.
pub(crate) fn perform_counted<S: Sources, W: Write, E: Write>(
    console: &mut Console<W, E>,
    sources: &S,
    work: Work<'_>,
) -> u8
    requires { IsSized work }
    ensures { EndsCounted (S.text_of sources.now) work.entry
        (use_of W.contents console.old.writer console.new.writer)
        (λ explain. SaysLine E.contents explain console.old.errors console.new.errors) result }
{
    let Some(options) = options_to_count(&work) else {
        return perform(console, sources, &work);
    };
    let input = options.input;
    let instance = match text_named(console, sources, input, options.telling.explain) {
        Ok(text) => text,
        Err(status) => return status,
    };
    let Ok(line) = line_for(console.alloc, options, instance.as_slice()) else {
        return say_memory(&mut console.errors);
    };
    let texts = WithText {
        name: input,
        text: instance.as_slice(),
        others: sources,
    };
    perform(console, &texts, &work_under(work, line.as_str()))
}

/// The options of a plan or an evaluation whose number of machines is wanted.
fn options_to_count<'w, 'a>(work: &'w Work<'a>) -> Option<&'w Options<'a>>
    ensures { MatchOption result (asks_count (evaluated work.now) ≡ false)
        (λ options. (evaluated work.now ≡ Some options.now)
        × (wants_count options.now ≡ true)) }
{
    let options = evaluated(work)?;
    match name_wanted(options) {
        Some(_) => Some(options),
        None => None,
    }
}

/// The options of a plan, or of an evaluation: of an answer, of orders, or of pieces.
fn evaluated<'w, 'a>(work: &'w Work<'a>) -> Option<&'w Options<'a>>
    ensures { option_map (λ options. options.now) result ≡ evaluated work.now }
{
    match work {
        Work::Plan(options, _, _) => Some(options),
        Work::Evaluate(evaluating) => Some(&evaluating.options),
        Work::Assess(assessing) => Some(&assessing.options),
        Work::Rate(options, _, _) => Some(options),
        _ => None,
    }
}

/// The problem line of these options, with the number of machines that their file has for the
/// instance where that is wanted and is not two.
pub(crate) fn line_for(
    alloc: Global,
    options: &Options<'_>,
    instance: &[u8],
) -> Result<String, OutOfMemory>
    ensures { IfOk result (λ line. IsLineFor options.now instance.now (string_bytes line)) }
{
    let Some(name) = name_wanted(options) else {
        return Ok(String::from_str(alloc, options.problem)?);
    };
    match counted_line(alloc, options.problem, name, instance)? {
        Some(line) => Ok(line),
        None => Ok(String::from_str(alloc, options.problem)?),
    }
}

/// The name of the instance whose number of machines is wanted, if it is.
fn name_wanted<'a>(options: &Options<'a>) -> Option<&'a str>
    ensures { MatchOption result (wants_count options.now ≡ false)
        (λ name. (wants_count options.now ≡ true)
        × (whole_name options.now.form ≡ Some name.now)) }
{
    let name = whole_name(options.form)?;
    if options.machines.is_some() || !is_uncounted_in(options.problem) {
        return None;
    }
    Some(name)
}

/// The name of the wanted instance of a flow shop file, where no pair of its machines is named.
fn whole_name(form: FormOption<'_>) -> Option<&str>
    ensures { option_map (λ name. name.now) result ≡ whole_name form.entry }
{
    match form {
        FormOption::Flow { name, pair: None } => Some(name),
        _ => None,
    }
}

/// Whether a line names a problem of a class of shops, and no number of machines.
fn is_uncounted_in(text: &str) -> bool
    ensures { result ≡ is_uncounted_in (notation text.now) }
{
    match read(text.as_bytes()) {
        Ok(problem) => is_uncounted_shop(&problem),
        Err(_) => false,
    }
}

/// Whether a problem is of a class of shops, and names no number of machines.
fn is_uncounted_shop(problem: &Problem) -> bool
    ensures { result ≡ is_uncounted_shop problem.now }
{
    problem.env.is_shop() && problem.count.is_none() && class_of(problem).is_some()
}

/// A problem line with the number of machines that the file has for an instance, and none where
/// that is two, or the file does not say it.
fn counted_line(
    alloc: Global,
    text: &str,
    name: &str,
    instance: &[u8],
) -> Result<Option<String>, OutOfMemory>
    ensures { IfOk result (λ line. MatchOption line (IsUncounted text.now name.now instance.now)
        (λ line. IsCountedLine text.now name.now instance.now (string_bytes line))) }
{
    let Ok(problem) = read(text.as_bytes()) else {
        return Ok(None);
    };
    let jobs = match read_flowshop(alloc, instance, name.as_bytes(), None) {
        Ok(jobs) => jobs,
        Err(ReadFault::OutOfMemory) => return Err(OutOfMemory),
        Err(_) => return Ok(None),
    };
    match jobs.machines() {
        Some(count) if count != 2 => Ok(Some(notation_text(alloc, &with_count(problem, count))?)),
        _ => Ok(None),
    }
}

/// The same problem on so many machines.
fn with_count(problem: Problem, count: u32) -> Problem
    ensures { result ≡ record problem { count = Some count } }
{
    let mut counted = problem;
    counted.count = Some(count);
    counted
}

/// The same plan or evaluation, with another problem line, and any other work as it is.
fn work_under<'a>(work: Work<'a>, line: &'a str) -> Work<'a>
    requires { IsSized work }
    ensures sized { IsSized result }
    ensures under { IfSome (evaluated work.entry) (λ options. (other : Options)
        × IsUnder options line.now other × (result ≡ with_options work.entry other)) }
{
    match work {
        Work::Plan(options, layout, steps) => Work::Plan(under(options, line), layout, steps),
        Work::Evaluate(evaluating) => Work::Evaluate(Evaluating {
            options: under(evaluating.options, line),
            ..evaluating
        }),
        Work::Assess(assessing) => Work::Assess(Assessing {
            options: under(assessing.options, line),
            ..assessing
        }),
        Work::Rate(options, orders, aids) => Work::Rate(under(options, line), orders, aids),
        other => other,
    }
}

/// The same options, with another problem line.
pub(crate) fn under<'a>(options: Options<'a>, line: &'a str) -> Options<'a>
    ensures { IsUnder options.entry line.now result }
{
    Options {
        problem: line,
        ..options
    }
}
