//! The allocator.
ghost use Rattle.std.specs.Prelude.{◌^◌, ◌*◌, ◌<◌, ◌≤◌, IfSome};
ghost use base.Fml.{ftrue};

use crate::space::{Room, Space};
use std::alloc::{AllocError, Allocator};
use std::cell::Cell;

const UNIT: usize = 16;

/// An allocator of one block, for which it gives the whole space. It takes nothing back.
pub struct Reserve {
    space: Cell<Option<Space>>,
}

impl Reserve {
    /// An allocator whose one block may be as large as `space`.
    pub fn new(space: Space) -> Reserve {
        Reserve {
            space: Cell::new(Some(space)),
        }
    }

    // The room, if it is still there and has so many bytes.
    fn take(&self, size: usize) -> Option<Room>
        ensures { IfSome result (λ r. (size ≤ r.units * 16) × (r.units < 2 ^ 59)) }
    {
        let space = self.space.replace(None)?;
        if size.div_ceil(UNIT) <= space.units {
            return Some(space.room);
        }
        self.space.replace(Some(space));
        None
    }
}

impl Drop for Reserve {
    fn drop(self) {
        let Reserve { space } = self;
        drop(space.into_inner());
    }
}

unsafe impl Allocator for Reserve {
    ghost dealloc_token = { λ _ _ _. ftrue };

    // No type is aligned to more than a unit.
    fn allocate(&self, size: usize, _align: usize) -> Result<*mut u8, AllocError> {
        match self.take(size) {
            Some(Room { start }) => Ok(start),
            None => Err(AllocError),
        }
    }

    unsafe fn deallocate(&self, _ptr: *mut u8, _size: usize, _align: usize) {}
}
