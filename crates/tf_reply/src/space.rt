//! Memory that nothing uses.
ghost use Rattle.std.specs.Prelude.{◌≡◌, ◌*◌, ◌^◌, ◌<◌, ℕ};
ghost use Rattle.tf_reply.specs.Units.{room_of_units};

use std::marker::Model;

/// Room for some units of 16 bytes, at an address that 16 divides.
#[repr(C)]
#[derive(Drop)]
pub struct Room {
    pub(crate) start: *mut u8,
    pub ghost units: { ℕ },
}

impl Model for Room {
    ghost also_owns = { λ r. room_of_units r.start r.units };
}

/// Memory in which nothing lies, and how many units of 16 bytes it has.
#[repr(C)]
#[derive(Drop)]
pub struct Space {
    pub(crate) room: Room,
    pub(crate) units: usize,
    pub ghost measured: { (room.units ≡ units) × (units < 2 ^ 59) },
}

impl Space {
    /// How many bytes it has.
    pub fn size(&self) -> usize
        ensures { result ≡ self.now.units * 16 }
    {
        self.units * 16
    }
}
