//! What a run writes.
ghost use Rattle.tf_engine.specs.Outputs.{EndsOutput};

use crate::fault::RunFault;
use std::alloc::{Allocator, Global};
use std::io::Write;
use tf_text::counted::Counted;

/// What a run writes, made in full before its first byte is written, and what the run returns then.
#[derive(Drop)]
pub struct Output<X, A: Allocator = Global> {
    pub text: Vec<u8, A>,
    pub returned: X,
}

/// Writes an output, or passes on why there is none.
pub fn write_output<A: Allocator, X: Drop, W: Write>(
    writer: &mut Counted<W>,
    output: Result<Output<X, A>, RunFault<A>>,
) -> Result<X, RunFault<A>>
    ensures { EndsOutput W.contents writer.old writer.new output result }
{
    let Output { text, returned } = output?;
    writer.push_all(text.as_slice())?;
    Ok(returned)
}
