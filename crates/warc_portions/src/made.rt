//! A record that is made, as a portion.
ghost use Rattle.std.specs.Prelude.{◌≡◌, IfOk};
ghost use Rattle.warc_frame.specs.Effects.{HasRange};
ghost use Rattle.warc_portions.specs.Made.{MakesPortion};
ghost use Rattle.warc_write.specs.Making.{planned};

use crate::portion::{Portion, portion_of};
use std::alloc::Allocator;
use warc_record::Kind;
use warc_write::{MakeFault, make};

/// Makes a record of WARC 1.1, as `warc_write::make` does: its block stays where it is, and begins there.
pub fn portion_made<A: Allocator + Copy>(
    alloc: A,
    kind: Kind,
    uri: &[u8],
    date: &[u8],
    uuid: &[u8],
    content_type: &[u8],
    block: &[u8],
) -> Result<Portion<A>, MakeFault>
    ensures made { MakesPortion (planned kind uri.now date.now uuid.now content_type.now block.now) block.now result }
    ensures range { IfOk result (λ portion. HasRange portion.block_start portion.block_len block.now) }
{
    let framed = match make(alloc, kind, uri, date, uuid, content_type, block) {
        Ok(framed) => framed,
        Err(fault) => return Err(fault),
    };
    match portion_of(
        alloc,
        framed.version(),
        framed.fields(),
        0,
        block.len() as u64,
    ) {
        Ok(portion) => Ok(portion),
        Err(_) => Err(MakeFault::Memory),
    }
}
