//! What the page is given.
ghost use Rattle.std.specs.Prelude.{◌≡◌, [], MatchResult};
ghost use Rattle.tf_reply.specs.Replies.{printed, said};
ghost use Rattle.tf_page.specs.Given.{Holds, memory_line};

use std::alloc::{AllocError, Allocator};
use tf_reply::reply::Reply;

/// How many bytes of standard output and of standard error there are.
#[repr(C)]
#[derive(Clone, Copy)]
pub struct Lengths {
    pub output: usize,
    pub errors: usize,
}

/// Gives what a command gave, and tells its status; or that there was no memory.
pub fn give<A: Allocator>(
    reply: &Result<Reply<A>, AllocError>,
    out: &mut [u8],
    lengths: &mut Lengths,
) -> u8
    ensures { MatchResult reply.now
        (λ r. Holds out.old out.new lengths.new (printed r) (said r) × (result ≡ r.status))
        (λ _. Holds out.old out.new lengths.new [] memory_line × (result ≡ 3)) }
{
    match reply {
        Ok(reply) => {
            let output = reply.console.output.inner().as_slice();
            let errors = reply.console.errors.inner().as_slice();
            put(output, errors, out, lengths);
            reply.status
        }
        Err(_) => give_memory(out, lengths),
    }
}

/// Gives the line that says that there was no memory, and tells the status.
pub fn give_memory(out: &mut [u8], lengths: &mut Lengths) -> u8
    ensures held { Holds out.old out.new lengths.new [] memory_line }
    ensures status { result ≡ 3 }
{
    put(b"", b"threefield: want of memory\n", out, lengths);
    3
}

// Puts both texts into the buffer, if it has room for both.
fn put(output: &[u8], errors: &[u8], out: &mut [u8], lengths: &mut Lengths)
    ensures { Holds out.old out.new lengths.new output.now errors.now }
{
    *lengths = Lengths {
        output: output.len(),
        errors: errors.len(),
    };
    if output.len() <= out.len() && errors.len() <= out.len() - output.len() {
        let (front, back) = out.split_at_mut(output.len());
        front.copy_from_slice(output);
        back[..errors.len()].copy_from_slice(errors);
    }
}
