//! A line on standard error, gathered so that one call writes it.
ghost use Rattle.std.specs.Prelude.{◌≡◌, ◌++◌, [], List, ℕ};
ghost use Rattle.tf_text.specs.declared.counted.Counted.{Counted as Device};
ghost use Rattle.tf_command.specs.Wrote.{Wrote, Gathers};

use arrayvec::ArrayVec;
use std::io::Write;
use tf_text::counted::Counted;

/// Bytes that wait to be written, at most so many.
#[derive(Drop)]
pub(crate) struct Gathered<const ROOM: usize> {
    bytes: ArrayVec<u8, ROOM>,
}

impl<const ROOM: usize> Gathered<ROOM> {
    /// Gathers nothing yet.
    pub(crate) fn new() -> Gathered<ROOM>
        ensures { result.bytes.items ≡ [] }
    {
        Gathered {
            bytes: ArrayVec::new(),
        }
    }

    /// Adds bytes. Where there is no more room, what waits is written first.
    pub(crate) fn push<W: Write>(&mut self, writer: &mut Counted<W>, text: &[u8])
        ensures { (start : Device W) → (before : List ℕ)
            → Gathers W.contents start writer.old self.old.bytes.items before
            → Gathers W.contents start writer.new self.new.bytes.items (before ++ text.now) }
    {
        match self.bytes.try_extend_from_slice(text) {
            Ok(()) => {}
            Err(_) => self.push_after(writer, text),
        }
    }

    // Writes what waits, and then adds bytes, or writes them where there is no room for them at
    // all.
    fn push_after<W: Write>(&mut self, writer: &mut Counted<W>, text: &[u8])
        ensures { (start : Device W) → (before : List ℕ)
            → Gathers W.contents start writer.old self.old.bytes.items before
            → Gathers W.contents start writer.new self.new.bytes.items (before ++ text.now) }
    {
        self.write(writer);
        match self.bytes.try_extend_from_slice(text) {
            Ok(()) => {}
            Err(_) => send(writer, text),
        }
    }

    /// Writes what waits. After a failure the writer is left alone.
    pub(crate) fn write<W: Write>(&mut self, writer: &mut Counted<W>)
        ensures written { Wrote W.contents writer.old writer.new self.old.bytes.items }
        ensures empty { self.new.bytes.items ≡ [] }
    {
        send(writer, self.bytes.as_slice());
        self.bytes.clear();
    }
}

/// Writes a text, or a prefix of it where the writer fails. After a failure it is left alone.
pub fn send<W: Write>(writer: &mut Counted<W>, text: &[u8])
    ensures { Wrote W.contents writer.old writer.new text.now }
{
    let _ = writer.push_all(text);
}
