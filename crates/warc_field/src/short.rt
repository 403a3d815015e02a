//! The bytes of a name or of a value.
ghost use Rattle.std.specs.Prelude.{◌≡◌, ◌≤◌, [], IfOk, IsOk, OnOk, OnErr, length};
ghost use Rattle.warc_field.specs.Short.{held_bytes};

use std::alloc::{AllocError, Allocator};
use std::marker::Model;

/// How many bytes are stored in place: enough for a name of the standard, a type, a date, a digest and most ids.
pub(crate) const SHORT: usize = 48;

/// At most 48 bytes, in place. Contracts see the bytes.
#[derive(Debug, Drop)]
pub(crate) struct InPlace {
    bytes: [u8; SHORT],
    len: usize,
}

impl Model for InPlace {
    ghost use Rattle.std.specs.Prelude.{List, ℕ, ◌≤◌, take};
    ghost use Rattle.warc_field.specs.declared.short.TheConstants.{SHORT};

    ghost Value = { List ℕ };

    ghost view = { λ s. take s.len s.bytes };

    ghost invariant = { λ s. s.len ≤ SHORT };
}

impl InPlace {
    /// A copy of these bytes.
    fn copied(bytes: &[u8]) -> InPlace
        requires { length bytes.now ≤ SHORT }
        ensures { result ≡ bytes.now }
    {
        let mut copy = InPlace {
            bytes: [0; SHORT],
            len: 0,
        };
        copy.set(bytes);
        copy
    }

    /// Writes a copy of these bytes over its own.
    fn set(&mut self, bytes: &[u8])
        requires { length bytes.now ≤ SHORT }
        ensures { self.new ≡ bytes.now }
    {
        self.bytes[..bytes.len()].copy_from_slice(bytes);
        self.len = bytes.len();
    }

    fn as_slice(&self) -> &[u8]
        ensures { result.now ≡ self.now }
    {
        &self.bytes[..self.len]
    }
}

/// Bytes: up to 48 of them in place, or any number in memory.
#[derive(Debug, Drop)]
pub(crate) enum Bytes<A: Allocator> {
    Short(InPlace),
    Long(Vec<u8, A>),
}

impl<A: Allocator> Bytes<A> {
    /// A copy of these bytes, which takes memory if there are more than 48.
    pub(crate) fn copied(alloc: A, bytes: &[u8]) -> Result<Bytes<A>, AllocError>
        ensures value { IfOk result (λ copy. held_bytes copy ≡ bytes.now) }
        ensures short { length bytes.now ≤ SHORT → IsOk result }
    {
        if bytes.len() <= SHORT {
            Ok(Bytes::Short(InPlace::copied(bytes)))
        } else {
            Ok(Bytes::Long(Vec::from_slice(alloc, bytes)?))
        }
    }

    /// Writes a copy of these bytes over its own, and into the memory that it has if they fit.
    pub(crate) fn set(&mut self, alloc: A, bytes: &[u8]) -> Result<(), AllocError>
        ensures ok { OnOk result (held_bytes self.new ≡ bytes.now) }
        ensures err { OnErr result (held_bytes self.new ≡ held_bytes self.old) }
    {
        match self {
            Bytes::Short(short) if bytes.len() <= SHORT => {
                short.set(bytes);
                Ok(())
            }
            Bytes::Long(long) if bytes.len() > SHORT => set_long(long, bytes),
            _ => {
                *self = Bytes::copied(alloc, bytes)?;
                Ok(())
            }
        }
    }

    pub(crate) fn as_slice(&self) -> &[u8]
        ensures { result.now ≡ held_bytes self.now }
    {
        match self {
            Bytes::Short(short) => short.as_slice(),
            Bytes::Long(long) => long.as_slice(),
        }
    }
}

/// Writes a copy of these bytes over the bytes of a vector. `Err`: no memory for them; then nothing changes.
fn set_long<A: Allocator>(long: &mut Vec<u8, A>, bytes: &[u8]) -> Result<(), AllocError>
    ensures ok { OnOk result (long.new.items ≡ bytes.now) }
    ensures err { OnErr result (long.new.items ≡ long.old.items) }
{
    long.reserve(bytes.len())?;
    long.clear();
    match long.extend_from_slice(bytes) {
        Ok(()) => Ok(()),
        Err(_) => unreachable!(),
    }
}
