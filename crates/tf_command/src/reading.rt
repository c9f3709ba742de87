//! Whole texts, by their names.
ghost use Rattle.std.specs.Prelude.{◌≡◌, codes, IfOk, IfErr};
ghost use Rattle.tf_text.specs.Counted.{use_of};
ghost use Rattle.tf_text.specs.Input.{IsTextOf};
ghost use Rattle.tf_command.specs.Ending.{SaysLine};
ghost use Rattle.tf_command.specs.Unread.{IsUnread};

use crate::console::Console;
use crate::explained::tell;
use crate::report::{report, say_device};
use crate::source::Sources;
use std::alloc::Global;
use std::io;
use std::io::Write;
use tf_engine::fault::RunFault;
use tf_explain::explain::not_read;
use tf_text::counted::Counted;
use tf_text::input::read_all;

/// The text of that name. Where it cannot be read, says so, and gives the status. Where it cannot
/// be opened, says why too if that is to be explained.
pub fn text_named<S: Sources, W: Write, E: Write>(
    console: &mut Console<W, E>,
    sources: &S,
    name: &str,
    explain: bool,
) -> Result<Vec<u8>, u8>
    ensures text { IfOk result (λ text. IsTextOf (S.text_of sources.now name.now) text.items) }
    ensures kept { IfOk result (λ _. console.new ≡ console.old) }
    ensures unread { IfErr result (IsUnread (S.text_of sources.now)
        (use_of W.contents console.old.writer console.new.writer)
        (SaysLine E.contents explain console.old.errors console.new.errors)) }
{
    let fault: RunFault = match sources.open(name) {
        Ok(source) => match read_all(console.alloc, &mut Counted::new(source)) {
            Ok(text) => return Ok(text),
            Err(fault) => fault.into(),
        },
        Err(error) => {
            let alloc = console.alloc;
            return Err(say_unopened(alloc, &mut console.errors, name, &error, explain));
        }
    };
    Err(report(&fault, &mut console.errors))
}

/// Says that the text of that name cannot be opened, and why if that is to be explained, and gives
/// the status.
pub(crate) fn say_unopened<E: Write>(
    alloc: Global,
    errors: &mut Counted<E>,
    name: &str,
    error: &io::Error,
    explain: bool,
) -> u8
    ensures status { result ≡ 4 }
    ensures line { SaysLine E.contents explain errors.old errors.new
        (codes "threefield: device fault\n") }
{
    let status = say_device(errors);
    tell(explain, not_read(alloc, name, error), errors);
    status
}
