//! What a command works with.
use std::alloc::Global;
use tf_text::counted::Counted;

/// Where the bytes of a command go, and the memory that it takes.
#[derive(Drop)]
pub struct Console<W, E> {
    pub alloc: Global,
    /// Standard output.
    pub writer: Counted<W>,
    /// Standard error.
    pub errors: Counted<E>,
    /// The terminal that shows the progress of a search, where standard error is one.
    pub terminal: Option<Counted<E>>,
}
