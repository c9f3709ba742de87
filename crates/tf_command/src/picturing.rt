//! Pictures with the dates of an instance.
ghost use Rattle.std.specs.Prelude.{◌≡◌, IfOk};
ghost use Rattle.std.specs.declared.alloc.Global.{Global};
ghost use Rattle.tf_asked.specs.Asking.{form_asked};
ghost use Rattle.tf_command.specs.Ending.{EndsPicturing, SaysLine};
ghost use Rattle.tf_command.specs.Performing.{Performs};
ghost use Rattle.tf_command.specs.Recorded.{bytes_left};
ghost use Rattle.tf_text.specs.Counted.{use_of};

use crate::commands::open_pair;
use crate::console::Console;
use crate::explained::Dated;
use crate::recorded::Recorded;
use crate::report::{end_picture, say_memory};
use crate::source::Sources;
use std::io::{Read, Write};
use tf_asked::options::{Picturing, Work};
use tf_dated::run_dated::{DatedRequest, run_dated};
use tf_text::counted::Counted;

/// Draws the answer of that name with the dates of the instance of that name.
pub(crate) fn picture_named<S: Sources, W: Write, E: Write>(
    console: &mut Console<W, E>,
    sources: &S,
    picturing: &Picturing<'_>,
) -> u8
    ensures { Performs (S.text_of sources.now) (Work.Picture picturing.now)
        (use_of W.contents console.old.writer console.new.writer)
        (λ explain. SaysLine E.contents explain console.old.errors console.new.errors) result }
{
    let explain = picturing.telling.explain;
    match open_pair(console, sources, picturing.input, picturing.answer, explain) {
        Ok((mut instance, mut answer)) => picture(console, picturing, &mut instance, &mut answer),
        Err(status) => status,
    }
}

/// Draws an answer with the dates of an instance, and gives the exit status.
fn picture<R: Read, S: Read, W: Write, E: Write>(
    console: &mut Console<W, E>,
    picturing: &Picturing<'_>,
    instance: &mut Counted<Recorded<'_, R>>,
    answer: &mut Counted<Recorded<'_, S>>,
) -> u8
    ensures { EndsPicturing Global picturing.now.view (form_asked picturing.now.form)
        (use_of (bytes_left R.remaining) instance.old instance.new)
        (use_of (bytes_left S.remaining) answer.old answer.new)
        (use_of W.contents console.old.writer console.new.writer)
        (SaysLine E.contents picturing.now.telling.explain console.old.errors console.new.errors)
        result }
{
    let alloc = console.alloc;
    let Ok(form) = picturing.form.form(alloc) else {
        return say_memory(&mut console.errors);
    };
    let asked = DatedRequest {
        view: &picturing.view,
        form: &form,
    };
    let run = run_dated(alloc, asked, instance, answer, &mut console.writer);
    let status = end_picture(&run, &mut console.errors);
    let dated = Dated {
        alloc,
        telling: picturing.telling,
        form: &form,
    };
    dated.tell(&run, instance.inner(), answer.inner(), &mut console.errors);
    status
}
