//! Picturing an answer with the dates of an instance, from bytes to bytes.
ghost use Rattle.std.specs.Prelude.{IsTrue, MatchResult, ◌↔◌};
ghost use Rattle.tf_text.specs.Counted.{use_of};
ghost use Rattle.tf_engine.specs.Drawing.{IsOfPieces};
ghost use Rattle.tf_engine.specs.Faults.{stop_of};
ghost use Rattle.tf_engine.specs.FormData.{form_of};
ghost use Rattle.tf_engine.specs.Parts.{StopsBy};
ghost use Rattle.tf_dated.specs.Dated.{IsDatedOver, IsDatedRunOf, IsDrawnSheet, IsForJobs};
ghost use Rattle.tf_dated.specs.Leaving.{LeavesBeside, LeavesDated};

use crate::dated_read::dated_read;
use crate::dates::dates_of;
use std::alloc::{Allocator, Global};
use std::io::{Read, Write};
use tf_engine::fault::RunFault;
use tf_engine::request::Form;
use tf_engine::schedule_said::schedule_said;
use tf_engine::sheet_read::sheet_read;
use tf_model::instance::Instance;
use tf_picture::front::Heading;
use tf_picture::picture::picture;
use tf_picture::view::View;
use tf_text::answer::sheet::Sheet;
use tf_text::counted::Counted;

/// How a picture is drawn, and the form of the instance that has the dates.
#[derive(Drop)]
pub struct DatedRequest<'a, A: Allocator = Global> {
    pub view: &'a View,
    pub form: &'a Form<A>,
}

/// What comes of a picture with the dates of an instance.
#[derive(Clone, Copy, Debug, PartialEq, Eq)]
pub enum Pictured {
    /// It was written.
    Drawn,
    /// The answer is for another number of jobs than the instance has. Nothing was written.
    OtherTask,
}

/// Reads an instance and an answer to their ends and writes a picture of the answer's schedule in
/// this view, as SVG, with the dates of the jobs that the answer's problem uses.
///
/// The refusals come in this order: the first fault of the instance, that of the answer, and that
/// of its pieces; an answer for another number of jobs is told before the last. Neither the fit nor
/// the certificate is judged. After a refusal nothing was written, unless it is
/// [`RunFault::Device`], after which a prefix of the picture may have been.
pub fn run_dated<A: Allocator + Copy, B: Allocator, R: Read, S: Read, W: Write>(
    alloc: A,
    asked: DatedRequest<'_, B>,
    instance: &mut Counted<R>,
    answer: &mut Counted<S>,
    writer: &mut Counted<W>,
) -> Result<Pictured, RunFault<A>>
    ensures outcome { IsDatedRunOf asked.entry.view.now (form_of asked.entry.form.now)
        (use_of R.remaining instance.old instance.new)
        (use_of S.remaining answer.old answer.new) (use_of W.contents writer.old writer.new)
        result }
    ensures devices { LeavesDated R.remaining instance.old instance.new S.remaining answer.old
        answer.new writer.old writer.new result }
{
    let instance = dated_read(alloc, asked.form, instance)?;
    draw_beside(alloc, asked.view, &instance, answer, writer)
}

// Writes the picture of an answer with the dates of this instance.
fn draw_beside<A: Allocator + Copy, B: Allocator, S: Read, W: Write>(
    alloc: A,
    view: &View,
    instance: &Instance<B>,
    answer: &mut Counted<S>,
    writer: &mut Counted<W>,
) -> Result<Pictured, RunFault<A>>
    ensures outcome { IsDatedOver view.now instance.now (use_of S.remaining answer.old answer.new)
        (use_of W.contents writer.old writer.new) result }
    ensures devices { LeavesBeside S.remaining answer.old answer.new writer.old writer.new result }
{
    let sheet = sheet_read(alloc, answer)?;
    if !is_for_jobs(instance, &sheet) {
        return Ok(Pictured::OtherTask);
    }
    let text = dated_text(alloc, view, instance, sheet)?;
    writer.push_all(text.as_slice())?;
    Ok(Pictured::Drawn)
}

// Whether the sheet is for as many jobs as the instance has.
fn is_for_jobs<A: Allocator, B: Allocator>(instance: &Instance<A>, sheet: &Sheet<B>) -> bool
    ensures { IsTrue result ↔ IsForJobs instance.now sheet.now }
{
    sheet.jobs as usize == instance.len()
}

// The picture of a sheet with the dates of this instance, or the first fault of its pieces.
fn dated_text<A: Allocator + Copy, B: Allocator>(
    alloc: A,
    view: &View,
    instance: &Instance<B>,
    sheet: Sheet<A>,
) -> Result<Vec<u8, A>, RunFault<A>>
    ensures { MatchResult result
        (λ text. IsDrawnSheet view.now instance.now sheet text.items)
        (λ e. StopsBy (IsOfPieces sheet.answer.pieces) (stop_of e)) }
{
    let heading = Heading::of(&sheet);
    let dates = dates_of(alloc, &sheet.problem, instance.jobs())?;
    let schedule = schedule_said(sheet)?;
    Ok(picture(alloc, view, &heading, dates.as_slice(), &schedule)?)
}
