//! An allocator for tests: it refuses exactly one growth, and grants all others.
//!
//! A test passes `&Refusing::new(alloc, n)` as the allocator of a call, for n = 0, 1, 2, .., and
//! stops at the first n for which [`Refusing::has_refused`] is false after the call: the call then
//! asks for no more than n growths.
#![tactic(auto)]

use std::alloc::{AllocError, Allocator};
use std::cell::Cell;

/// An allocator over another one, which refuses the growth that comes after `left` others.
pub struct Refusing<B: Allocator> {
    inner: B,
    // How many growths are granted before the one that is refused; from then on it is at the top of
    // its range.
    left: Cell<u64>,
}

impl<B: Allocator> Refusing<B> {
    /// Grants `left` growths, refuses the next one, and grants those that follow.
    pub fn new(inner: B, left: u64) -> Refusing<B> {
        Refusing {
            inner,
            left: Cell::new(left),
        }
    }

    /// Whether the growth to be refused was asked for.
    pub fn has_refused(&self) -> bool {
        self.left.get() > i64::MAX as u64
    }
}

impl<B: Allocator> Drop for Refusing<B> {
    fn drop(self) {
        let Self { inner: _, left: _ } = self;
    }
}

// Counts a growth, and tells whether it is the one to be refused. The count wraps behind it, so no
// later one is.
fn is_refused(left: &Cell<u64>) -> bool {
    let before = left.get();
    left.set(before.wrapping_sub(1));
    before == 0
}

// Giving memory back is not counted.
fn freed(_left: &Cell<u64>) {}

unsafe impl<B: Allocator> Allocator for Refusing<B> {
    ghost dealloc_token = { λ heap ty ptr. B.dealloc_token heap.inner ty ptr };

    fn allocate(&self, size: usize, align: usize) -> Result<*mut u8, AllocError> {
        if is_refused(&self.left) {
            return Err(AllocError);
        }
        self.inner.allocate(size, align)
    }

    unsafe fn deallocate(&self, ptr: *mut u8, size: usize, align: usize) {
        freed(&self.left);
        self.inner.deallocate(ptr, size, align);
    }
}
