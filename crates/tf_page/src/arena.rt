//! The memory of a run.
use bumpalo::Bump;
use std::alloc::AllocError;
use tf_reply::reserve::Reserve;
use tf_reply::space::Space;

/// What a chunk of the arena takes beside its capacity, and more.
const OVERHEAD: usize = 8192;

/// An arena over a space, or the error that the space is too small for one.
pub fn arena_over(space: Space) -> Result<Bump<Reserve>, AllocError> {
    let capacity = space.size().saturating_sub(OVERHEAD);
    Bump::try_with_capacity(Reserve::new(space), capacity)
}
