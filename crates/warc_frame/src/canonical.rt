//! The canonical text of a record.
ghost use Rattle.std.specs.Prelude.{◌≡◌, ◌+◌, ◌<◌, ◌≤◌, ◌++◌, OnOk, OnErr, length, vec_len, vec_capacity};
ghost use Rattle.warc_field.specs.Area.{canonical_fields};
ghost use Rattle.warc_frame.specs.VersionLine.{version_line};
ghost use Rattle.warc_frame.specs.Spelling.{canonical};

use crate::framed::Framed;
use std::alloc::{AllocError, Allocator};
use warc_field::{canonical_len, write_area};

/// Appends bytes for which there is room.
fn put<B: Allocator>(bytes: &[u8], out: &mut Vec<u8, B>)
    requires { vec_len out.old + length bytes.now ≤ vec_capacity out.old }
    ensures items { out.new.items ≡ out.old.items ++ bytes.now }
    ensures len { vec_len out.new ≡ vec_len out.old + length bytes.now }
    ensures capacity { vec_capacity out.old ≤ vec_capacity out.new }
{
    match out.extend_from_slice(bytes) {
        Ok(()) => {}
        Err(_) => unreachable!(),
    }
}

/// How long a record's canonical text is.
#[tactic(auto, using(crate::proofs::WriteLemmas::canonical_length))]
fn text_len<A: Allocator>(framed: &Framed<A>) -> usize
    ensures text { result ≡ length (canonical framed.now) }
    ensures parts { result ≡ length (canonical_fields framed.now.fields) + length framed.now.block + 16 }
{
    let area = match canonical_len(framed.fields()) {
        Some(len) => len,
        None => unreachable!(),
    };
    area + framed.block().len() + 16
}

/// Appends a record's canonical text: its version line, each field as `name: value`, the block. If an allocation fails,
/// the vector stays as it was.
pub fn write_one<A: Allocator, B: Allocator>(
    framed: &Framed<A>,
    out: &mut Vec<u8, B>,
) -> Result<(), AllocError>
    ensures ok { OnOk result (out.new.items ≡ out.old.items ++ canonical framed.now) }
    ensures err { OnErr result (out.new.items ≡ out.old.items) }

    // It fails only if room is missing.
    ensures full { OnErr result (vec_capacity out.old < vec_len out.old + length (canonical framed.now)) }
{
    out.reserve(text_len(framed))?;
    put(framed.version().line(), out);
    match write_area(framed.fields(), out) {
        Ok(()) => {}
        Err(_) => unreachable!(),
    }
    put(b"\r\n", out);
    put(framed.block(), out);
    put(b"\r\n\r\n", out);
    Ok(())
}
