//! Parts of an SVG text.
ghost use Rattle.std.specs.Prelude.{◌≡◌, ◌++◌, OnOk, map};
ghost use Rattle.std.specs.List.{flat_map};
ghost use Rattle.tf_picture.specs.Picture.{label, part, parts_to};

use itoa::Buffer;
use std::alloc::Allocator;
use tf_model::memory::OutOfMemory;

/// Adds texts with a number behind each, and the text that ends them.
pub fn push_parts<A: Allocator>(
    text: &mut Vec<u8, A>,
    parts: &[(&[u8], u64)],
    end: &[u8],
) -> Result<(), OutOfMemory>
    ensures { OnOk result (text.new.items
        ≡ text.old.items ++ parts_to (map (λ p. (p.0.now, p.1)) parts.now) end.now) }
{
    push_each(text, parts)?;
    text.extend_from_slice(end)?;
    Ok(())
}

fn push_each<A: Allocator>(text: &mut Vec<u8, A>, parts: &[(&[u8], u64)]) -> Result<(), OutOfMemory>
    ensures { OnOk result (text.new.items
        ≡ text.old.items ++ flat_map (λ p. part p.0.now p.1) parts.now) }
{
    for (before, number) in parts {
        push_part(text, before, *number)?;
    }
    Ok(())
}

fn push_part<A: Allocator>(
    text: &mut Vec<u8, A>,
    before: &[u8],
    number: u64,
) -> Result<(), OutOfMemory>
    ensures { OnOk result (text.new.items ≡ text.old.items ++ part before.now number) }
{
    let mut digits = Buffer::new();
    text.extend_from_slice(before)?;
    text.extend_from_slice(digits.format(number).as_bytes())?;
    Ok(())
}

/// Adds a number that is to be read, at a place.
pub fn push_label<A: Allocator>(
    text: &mut Vec<u8, A>,
    x: u64,
    y: u64,
    number: u64,
) -> Result<(), OutOfMemory>
    ensures { OnOk result (text.new.items ≡ text.old.items ++ label x y number) }
{
    push_parts(
        text,
        &[(b"<text x=\"", x), (b"\" y=\"", y), (b"\">", number)],
        b"</text>\n",
    )
}
