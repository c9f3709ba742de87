//! Picturing an answer, from bytes to bytes.
ghost use Rattle.tf_text.specs.Counted.{use_of};
ghost use Rattle.tf_engine.specs.Devices.{LeavesDrawing, LeavesReader};
ghost use Rattle.tf_engine.specs.Drawing.{drawing_run};
ghost use Rattle.tf_engine.specs.Faults.{end_of};
ghost use Rattle.tf_engine.specs.Outputs.{MakesOutput};
ghost use Rattle.tf_engine.specs.Runs.{IsOutcome};
ghost use Rattle.tf_picture.specs.Picture.{IsPicture};

use crate::front::Heading;
use crate::picture::picture;
use crate::view::View;
use std::alloc::Allocator;
use std::io::{Read, Write};
use tf_engine::fault::RunFault;
use tf_engine::output::{Output, write_output};
use tf_engine::schedule_said::schedule_said;
use tf_engine::sheet_read::sheet_read;
use tf_text::counted::Counted;

/// Reads an answer to its end and writes a picture of its schedule in this view, as SVG.
///
/// The picture has a row for each machine that the answer names as its number of machines. Neither
/// the fit nor the certificate is judged. The refusals are those of
/// [`tf_engine::run_gantt::run_gantt`]: the answer's first fault, and then that of its pieces.
/// After a refusal nothing was written, unless it is [`RunFault::Device`], after which a prefix of
/// the picture may have been.
pub fn run_picture<A: Allocator + Copy, R: Read, W: Write>(
    alloc: A,
    view: &View,
    reader: &mut Counted<R>,
    writer: &mut Counted<W>,
) -> Result<(), RunFault<A>>
    ensures outcome { IsOutcome (drawing_run (IsPicture view.now)
        (use_of R.remaining reader.old reader.new))
        (use_of W.contents writer.old writer.new) result }
    ensures devices { LeavesDrawing R.remaining reader.old reader.new writer.old writer.new
        (end_of result) }
{
    write_output(writer, picture_output(alloc, view, reader))
}

// The text of the picture.
fn picture_output<A: Allocator + Copy, R: Read>(
    alloc: A,
    view: &View,
    reader: &mut Counted<R>,
) -> Result<Output<(), A>, RunFault<A>>
    ensures { MakesOutput (drawing_run (IsPicture view.now)
        (use_of R.remaining reader.old reader.new))
        (LeavesReader R.remaining reader.old reader.new) result }
{
    let sheet = sheet_read(alloc, reader)?;
    let heading = Heading::of(&sheet);
    let schedule = schedule_said(sheet)?;
    let text = picture(alloc, view, &heading, &[], &schedule)?;
    Ok(Output { text, returned: () })
}
