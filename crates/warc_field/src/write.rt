//! A field area, written: each field as its canonical line.
ghost use Rattle.std.specs.Prelude.{◌≡◌, ◌+◌, ◌^◌, ◌<◌, ◌≤◌, ◌++◌, Ok, OnOk, OnErr, IfSome, IfNone, length, vec_len, vec_capacity};
ghost use Rattle.warc_field.specs.Area.{canonical_line, canonical_fields};

use crate::list::Fields;
use std::alloc::{AllocError, Allocator};

/// A length and the length of a field's canonical line together, or `None` from 2^64 on.
fn add_line(len: usize, name: &[u8], value: &[u8]) -> Option<usize>
    ensures some { IfSome result (λ n. n ≡ len + length (canonical_line (name.now, value.now))) }
    ensures none { IfNone result (2 ^ 64 ≤ len + length (canonical_line (name.now, value.now))) }
{
    len.checked_add(name.len())?
        .checked_add(value.len())?
        .checked_add(4)
}

/// How many bytes the canonical lines of fields take, or `None` from 2^64 on.
pub fn canonical_len<A: Allocator>(fields: &Fields<A>) -> Option<usize>
    ensures some { IfSome result (λ n. n ≡ length (canonical_fields fields.now)) }
    ensures none { IfNone result (2 ^ 64 ≤ length (canonical_fields fields.now)) }
{
    let mut len = 0;
    for (name, value) in fields.as_slice() {
        len = add_line(len, name.bytes(), value.bytes())?;
    }
    Some(len)
}

/// Appends bytes for which there is room.
fn put<B: Allocator>(bytes: &[u8], out: &mut Vec<u8, B>)
    requires { vec_len out.old + length bytes.now ≤ vec_capacity out.old }
    ensures items { out.new.items ≡ out.old.items ++ bytes.now }
    ensures len { vec_len out.new ≡ vec_len out.old + length bytes.now }
    ensures capacity { vec_capacity out.old ≤ vec_capacity out.new }
{
    match out.extend_from_slice(bytes) {
        Ok(()) => {}
        Err(_) => unreachable!(),
    }
}

/// Appends the canonical line of a field, for which there is room.
fn put_line<B: Allocator>(name: &[u8], value: &[u8], out: &mut Vec<u8, B>)
    requires { vec_len out.old + length (canonical_line (name.now, value.now)) ≤ vec_capacity out.old }
    ensures items { out.new.items ≡ out.old.items ++ canonical_line (name.now, value.now) }
    ensures len { vec_len out.new ≡ vec_len out.old + length (canonical_line (name.now, value.now)) }
    ensures capacity { vec_capacity out.old ≤ vec_capacity out.new }
{
    put(name, out);
    put(b": ", out);
    put(value, out);
    put(b"\r\n", out);
}

/// Appends the canonical lines of fields, each `name: value` and CRLF. If an allocation fails, the vector stays as it
/// was.
pub fn write_area<A: Allocator, B: Allocator>(
    fields: &Fields<A>,
    out: &mut Vec<u8, B>,
) -> Result<(), AllocError>
    ensures ok { OnOk result (out.new.items ≡ out.old.items ++ canonical_fields fields.now) }
    ensures err { OnErr result (out.new.items ≡ out.old.items) }

    // It fails only if room is missing, and takes none away.
    ensures full { OnErr result (vec_capacity out.old < vec_len out.old + length (canonical_fields fields.now)) }
    ensures len { OnOk result (vec_len out.new ≡ vec_len out.old + length (canonical_fields fields.now)) }
    ensures capacity { vec_capacity out.old ≤ vec_capacity out.new }
{
    let _fields = fields.len();
    let Some(room) = canonical_len(fields) else {
        return Err(AllocError);
    };
    out.reserve(room)?;
    for (name, value) in fields.as_slice() {
        put_line(name.bytes(), value.bytes(), out);
    }
    Ok(())
}
