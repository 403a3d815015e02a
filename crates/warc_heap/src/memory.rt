//! Memory that a host gives.
ghost use Rattle.std.specs.Prelude.{◌≡◌, ℕ, ◌+◌, ◌*◌, ◌^◌, ◌<◌, ◌≤◌};
ghost use Rattle.warc_heap.specs.Units.{room_of};

use std::marker::Model;

/// How many bytes a unit has, and how memory is aligned.
pub const UNIT: usize = 16;

/// Memory of a host: `units` units of 16 bytes, from an address that is a multiple of 16. The host doesn't touch it
/// again. Dropping it frees nothing.
#[repr(C)]
#[derive(Drop)]
pub struct Memory {
    pub(crate) at: *mut u8,
    pub ghost units: { ℕ },
}

impl Model for Memory {
    ghost also_owns = { λ m. room_of m.units m.at };
}

impl Memory {
    /// Splits it into the first units, which have this many bytes, and the rest.
    pub(crate) fn cut(self, _units: usize, bytes: usize) -> (Memory, Memory)
        requires { (_units ≤ self.units) × (bytes ≡ _units * 16) }
        ensures { (result.0.units ≡ _units) × (_units + result.1.units ≡ self.units) }
    {
        let Memory { at } = self;
        let rest = unsafe { at.add(bytes) };
        (Memory { at }, Memory { at: rest })
    }
}
