//! Parts of a table's text.
ghost use Rattle.std.specs.Prelude.{◌≡◌, ◌++◌, OnOk};
ghost use Rattle.tf_random.specs.Table.{part, part_if};

use itoa::Buffer;
use tf_model::memory::OutOfMemory;

/// Adds a text and a number behind it.
pub fn push_part(text: &mut Vec<u8>, before: &[u8], number: u64) -> Result<(), OutOfMemory>
    ensures { OnOk result (text.new.items ≡ text.old.items ++ part before.now number) }
{
    let mut digits = Buffer::new();
    text.extend_from_slice(before)?;
    text.extend_from_slice(digits.format(number).as_bytes())?;
    Ok(())
}

/// The same where it is wanted.
pub fn push_part_if(
    text: &mut Vec<u8>,
    wanted: bool,
    before: &[u8],
    number: u64,
) -> Result<(), OutOfMemory>
    ensures { OnOk result (text.new.items
        ≡ text.old.items ++ part_if wanted before.now number) }
{
    if wanted {
        return push_part(text, before, number);
    }
    Ok(())
}
