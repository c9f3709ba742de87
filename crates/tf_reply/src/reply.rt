//! What a command gives.
ghost use Rattle.std.specs.Prelude.{◌≡◌, [], false, IfOk};
ghost use Rattle.tf_text.specs.Counted.{inner_of, has_failed};
ghost use Rattle.tf_reply.specs.Replies.{HadMemory, IsMisused, printed};

use std::alloc::{AllocError, Allocator};
use tf_command::report::say_usage;
use tf_text::counted::Counted;

/// What a command gives: its exit status, what it prints, and what it says of faults.
#[derive(Drop)]
pub struct Reply<A: Allocator> {
    pub status: u8,
    pub console: Console<A>,
}

/// Standard output and standard error, in memory.
#[derive(Drop)]
pub struct Console<A: Allocator> {
    pub output: Counted<Vec<u8, A>>,
    pub errors: Counted<Vec<u8, A>>,
}

impl<A: Allocator + Copy> Console<A> {
    /// Nothing is printed yet.
    pub fn new(alloc: A) -> Console<A>
        ensures output { (inner_of result.output).items ≡ [] }
        ensures errors { (inner_of result.errors).items ≡ [] }
    {
        Console {
            output: Counted::new(Vec::new(alloc)),
            errors: Counted::new(Vec::new(alloc)),
        }
    }

    /// The reply of a command that ends with this status.
    ///
    /// # Errors
    ///
    /// There was no memory. A device that failed was memory too.
    pub fn ended(self, status: u8) -> Result<Reply<A>, AllocError>
        ensures { IfOk result (λ r. (r.status ≡ status) × (r.console ≡ self)
            × (has_failed self.errors ≡ false) × HadMemory r.status) }
    {
        if status == 3 || status == 4 || self.errors.failed() {
            return Err(AllocError);
        }
        Ok(Reply {
            status,
            console: self,
        })
    }
}

/// The reply to a request that is none of the program's.
pub fn misused<A: Allocator + Copy>(alloc: A, text: &str) -> Result<Reply<A>, AllocError>
    ensures { IfOk result (λ r. IsMisused (printed r) r.status) }
{
    let mut console = Console::new(alloc);
    let status = say_usage(&mut console.errors, text);
    console.ended(status)
}
