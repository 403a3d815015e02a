//! A range of a source, copied to a sink.
ghost use Rattle.std.specs.Prelude.{IfErr};
ghost use Rattle.warc_replay.specs.Parts.{GivesPart};
ghost use Rattle.warc_frame.specs.Effects.{IsOfDevice, IsRange, ReadsRange, Sends};

use crate::fault::ExtractFault;
use crate::record::part::Part;
use std::alloc::Allocator;
use warc_frame::{OutBuffer, OutFault, PIECE, Sink, Source, put_range};
use warc_reading::Rows;

/// Writes `len` bytes at an offset of the source.
pub fn send_range<S: Source, W: Sink>(
    source: &mut S,
    at: u64,
    len: u64,
    out: &mut W,
) -> Result<(), OutFault>
    ensures sends { Sends (IsRange at len) (S.seen source.old) (S.seen source.new) (W.seen out.old) (W.seen out.new)
        result }
    ensures device { IfErr result IsOfDevice }
    ensures reads { ReadsRange at len (S.seen source.old) (S.seen source.new) }
{
    let mut scratch = [0; PIECE];
    let mut buffer = OutBuffer::new();
    put_range(source, at, len, &mut scratch, &mut buffer, out)?;
    buffer.flush(out)?;
    Ok(())
}

/// Writes a part of the record at a position, and answers its length.
pub fn send_part<S: Source, A: Allocator, W: Sink>(
    source: &mut S,
    rows: &Rows<A>,
    position: usize,
    part: Part,
    out: &mut W,
) -> Result<u64, ExtractFault>
    ensures { GivesPart part rows.now position (S.seen source.old) (S.seen source.new) (W.seen out.old)
        (W.seen out.new) result }
{
    let Some(row) = rows.get(position) else {
        return Err(ExtractFault::NoRecord);
    };
    let (start, len) = part.range(&row);
    match send_range(source, start, len, out) {
        Ok(()) => Ok(len),
        Err(fault) => Err(ExtractFault::Out(fault)),
    }
}
