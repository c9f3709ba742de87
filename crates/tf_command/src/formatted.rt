//! Commands whose output is written in the format of another program.
ghost use Rattle.std.specs.Prelude.{◌≡◌, ◌⊎◌, [], IfOk};
ghost use Rattle.tf_command.specs.Wrote.{Wrote};
ghost use Rattle.tf_command.specs.Formatted.{formatted, said_in, memory_line, device_line};
ghost use Rattle.tf_command.specs.Formatted.{IsWritten, IsCutOff, EndsKept, HasPrinted};
ghost use Rattle.tf_text.specs.Counted.{inner_of, use_of};

use crate::console::Console;
use crate::gathered::send;
use std::alloc::Global;
use std::io::Write;
use tf_asked::format::Format;
use tf_export::csv::csv;
use tf_export::documents::json;
use tf_export::faults::fault_json;
use tf_export::order_rows::orders_csv;
use tf_export::tally::summarized;
use tf_model::memory::OutOfMemory;
use tf_text::counted::Counted;

/// What is said as JSON where there was no memory.
pub const JSON_MEMORY: &[u8] = b"{\"version\":1,\"fault\":\"want of memory\"}\n";

/// And where standard output failed.
pub const JSON_DEVICE: &[u8] = b"{\"version\":1,\"fault\":\"device fault\"}\n";

/// Texts in a format: that of standard output, and that of standard error.
#[derive(Drop)]
struct Texts {
    output: Vec<u8>,
    errors: Vec<u8>,
}

/// What is printed in place of a text.
fn formatted(alloc: Global, format: Format, text: &[u8]) -> Result<Vec<u8>, OutOfMemory>
    ensures { IfOk result (λ output. output.items ≡ formatted format text.now) }
{
    if text.is_empty() {
        return Ok(Vec::new(alloc));
    }
    match format {
        Format::Json(document) => json(alloc, document, None, text),
        Format::Csv(table) => csv(alloc, table, text),
        Format::OrderRows => orders_csv(alloc, false, text),
        Format::MeasuredRows => orders_csv(alloc, true, text),
        Format::Summary => summarized(alloc, text),
    }
}

/// What is said on standard error in place of a text.
fn said_in(alloc: Global, format: Format, text: &[u8]) -> Result<Vec<u8>, OutOfMemory>
    ensures { IfOk result (λ errors. errors.items ≡ said_in format text.now) }
{
    match format {
        Format::Json(_) => fault_json(alloc, None, text),
        _ => Ok(Vec::from_slice(alloc, text)?),
    }
}

/// What is said where there was no memory.
fn memory_line(format: Format) -> &'static [u8]
    ensures { result.now ≡ memory_line format }
{
    match format {
        Format::Json(_) => JSON_MEMORY,
        _ => b"threefield: want of memory\n",
    }
}

/// What is said where standard output failed.
fn device_line(format: Format) -> &'static [u8]
    ensures { result.now ≡ device_line format }
{
    match format {
        Format::Json(_) => JSON_DEVICE,
        _ => b"threefield: device fault\n",
    }
}

/// A console that keeps in memory what is written.
pub fn memory(alloc: Global) -> Console<Vec<u8>, Vec<u8>>
    ensures blank { (inner_of result.writer).items ≡ [] }
    ensures silent { (inner_of result.errors).items ≡ [] }
{
    Console {
        alloc,
        writer: Counted::new(Vec::new(alloc)),
        errors: Counted::new(Vec::new(alloc)),
        terminal: None,
    }
}

/// The texts that a command wrote, in a format. There was no memory where one of them was not
/// kept whole.
fn formatted_texts(kept: &Console<Vec<u8>, Vec<u8>>, format: Format) -> Result<Texts, OutOfMemory>
    ensures { IfOk result (λ texts. HasPrinted kept.now
        format texts.output.items texts.errors.items) }
{
    if kept.writer.failed() || kept.errors.failed() {
        return Err(OutOfMemory);
    }
    Ok(Texts {
        output: formatted(kept.alloc, format, kept.writer.inner().as_slice())?,
        errors: said_in(kept.alloc, format, kept.errors.inner().as_slice())?,
    })
}

/// Writes both texts, and gives the status.
fn write_formatted<W: Write, E: Write>(
    console: &mut Console<W, E>,
    format: Format,
    texts: &Texts,
    status: u8,
) -> u8
    ensures { IsWritten (use_of W.contents console.old.writer console.new.writer)
        (Wrote E.contents console.old.errors console.new.errors)
        texts.now.output.items texts.now.errors.items status result
        ⊎ IsCutOff (use_of W.contents console.old.writer console.new.writer)
        (Wrote E.contents console.old.errors console.new.errors)
        texts.now.output.items (device_line format) result }
{
    match console.writer.push_all(texts.output.as_slice()) {
        Ok(()) => {
            send(&mut console.errors, texts.errors.as_slice());
            status
        }
        Err(_) => {
            send(&mut console.errors, device_line(format));
            4
        }
    }
}

/// Writes in a format what a command of this status kept in memory, and gives the status.
pub fn print_kept<W: Write, E: Write>(
    console: &mut Console<W, E>,
    format: Format,
    kept: &Console<Vec<u8>, Vec<u8>>,
    status: u8,
) -> u8
    ensures { EndsKept kept.now status format
        (use_of W.contents console.old.writer console.new.writer)
        (Wrote E.contents console.old.errors console.new.errors) result }
{
    match formatted_texts(kept, format) {
        Ok(texts) => write_formatted(console, format, &texts, status),
        Err(_) => {
            send(&mut console.errors, memory_line(format));
            3
        }
    }
}
