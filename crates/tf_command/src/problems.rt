//! The list of problems, over whatever gives and takes bytes.
ghost use Rattle.tf_command.specs.Ending.{SaysLine};
ghost use Rattle.tf_command.specs.FaultLine.{fault_line};
ghost use Rattle.tf_command.specs.Performing.{EndsListing, EndsListingFor, EndsOver, IsInTable};
ghost use Rattle.tf_command.specs.Performing.{EndsTelling, Performs};
ghost use Rattle.tf_command.specs.Recorded.{bytes_left};
ghost use Rattle.tf_command.specs.Statuses.{status_of};
ghost use Rattle.tf_engine.specs.FormData.{InTable};
ghost use Rattle.tf_engine.specs.Parts.{ReadsTo, instance_said};
ghost use Rattle.std.specs.Option.{option_map};
ghost use Rattle.std.specs.Prelude.{◌≡◌, IfOk, false, true};
ghost use Rattle.tf_text.specs.Counted.{inner_of, use_of};

use crate::commands::{open, write_out};
use crate::console::Console;
use crate::explained::tell;
use crate::recorded::{MOST_KEPT, Recorded};
use crate::report::{report, say_memory};
use crate::source::Sources;
use std::alloc::Allocator;
use std::io::{Read, Write};
use tf_advice::border_list::border_list;
use tf_asked::options::Work;
use tf_bounding::instance_read::instance_read;
use tf_engine::fault::RunFault;
use tf_engine::request::Form;
use tf_explain::explain;
use tf_listing::listing::{Listed, listing};
use tf_model::instance::Instance;
use tf_text::counted::Counted;

/// Lists the problems that are solved or bounded, with the name of a table those that it has the
/// fields for.
pub(crate) fn list_problems<S: Sources, W: Write, E: Write>(
    console: &mut Console<W, E>,
    sources: &S,
    listed: Listed,
    name: Option<&str>,
) -> u8
    ensures { Performs (S.text_of sources.now) (Work.Problems listed name.entry)
        (use_of W.contents console.old.writer console.new.writer)
        (λ explain. SaysLine E.contents explain console.old.errors console.new.errors) result }
{
    match name {
        None => list(console, listed, None),
        Some(name) => list_named(console, sources, listed, name),
    }
}

/// Lists which problems are polynomial and which are NP-hard.
pub(crate) fn list_border<W: Write, E: Write>(console: &mut Console<W, E>) -> u8
    ensures { EndsTelling (use_of W.contents console.old.writer console.new.writer)
        (SaysLine E.contents false console.old.errors console.new.errors) result }
{
    match border_list(console.alloc) {
        Ok(text) => write_out(console, text.as_bytes()),
        Err(_) => say_memory(&mut console.errors),
    }
}

/// Lists the problems that the table of that name has the fields for.
fn list_named<S: Sources, W: Write, E: Write>(
    console: &mut Console<W, E>,
    sources: &S,
    listed: Listed,
    name: &str,
) -> u8
    ensures { EndsOver (S.text_of sources.now) name.now
        (use_of W.contents console.old.writer console.new.writer)
        (SaysLine E.contents true console.old.errors console.new.errors) result
        (λ table. EndsListingFor listed table
        (use_of W.contents console.old.writer console.new.writer)
        (λ explain. SaysLine E.contents explain console.old.errors console.new.errors) result) }
{
    match open(console, sources, name, MOST_KEPT, true) {
        Ok(mut table) => list_for(console, listed, &mut table),
        Err(status) => status,
    }
}

/// Lists the problems that a table has the fields for.
fn list_for<R: Read, W: Write, E: Write>(
    console: &mut Console<W, E>,
    listed: Listed,
    table: &mut Counted<Recorded<'_, R>>,
) -> u8
    ensures { EndsListingFor listed (use_of (bytes_left R.remaining) table.old table.new)
        (use_of W.contents console.old.writer console.new.writer)
        (λ explain. SaysLine E.contents explain console.old.errors console.new.errors) result }
{
    match table_in(console.alloc, table) {
        Ok(instance) => list(console, listed, Some(&instance)),
        Err(fault) => refuse_table(console, &fault, table.inner()),
    }
}

/// Says and explains why there is no list for a table, and gives the exit status.
fn refuse_table<R, W, E: Write>(
    console: &mut Console<W, E>,
    fault: &RunFault,
    table: &Recorded<'_, R>,
) -> u8
    ensures unwritten { console.new.writer ≡ console.old.writer }
    ensures status { result ≡ status_of fault.now }
    ensures line { SaysLine E.contents true console.old.errors console.new.errors
        (fault_line fault.now) }
{
    let alloc = console.alloc;
    let status = report(fault, &mut console.errors);
    let explanation = match (fault, table.failure(), table.source()) {
        (_, Some((name, error)), _) => explain::not_read(alloc, name, &error),
        (RunFault::Text(fault), None, Some(text)) => explain::not_listed(alloc, fault, &text),
        _ => Ok(String::new(alloc)),
    };
    tell(true, explanation, &mut console.errors);
    status
}

/// The instance of a job table.
pub fn table_in<A: Allocator + Copy, R: Read>(
    alloc: A,
    table: &mut Counted<R>,
) -> Result<Instance<A>, RunFault<A>>
    ensures table { IfOk result (IsInTable (R.remaining (inner_of table.old))) }
    ensures read { ReadsTo (instance_said InTable) R.remaining table.old table.new result }
{
    let form: Form<A> = Form::Table;
    instance_read(alloc, &form, table)
}

/// Lists the problems that are solved or bounded, with an instance those that it has the fields
/// for.
fn list<W: Write, E: Write>(
    console: &mut Console<W, E>,
    listed: Listed,
    instance: Option<&Instance>,
) -> u8
    ensures { EndsListing listed (option_map (λ i. i.now) instance.entry)
        (use_of W.contents console.old.writer console.new.writer)
        (SaysLine E.contents false console.old.errors console.new.errors) result }
{
    match listing(console.alloc, listed, instance) {
        Ok(text) => write_out(console, text.as_bytes()),
        Err(_) => say_memory(&mut console.errors),
    }
}
