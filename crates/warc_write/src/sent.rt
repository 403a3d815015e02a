//! Sends the canonical texts of records to a sink.
ghost use Rattle.std.specs.Prelude.{◌≡◌};
ghost use Rattle.warc_field.specs.Area.{canonical_line, canonical_fields};
ghost use Rattle.warc_frame.specs.Effects.{Puts, SendsText};
ghost use Rattle.warc_frame.specs.Record.{head_text};
ghost use Rattle.warc_frame.specs.Spelling.{canonical};
ghost use Rattle.warc_write.specs.Rendering.{canonical_texts};

use std::alloc::Allocator;
use warc_field::{Fields, Name, Value};
use warc_frame::laws::went_out_of_longer;
use warc_frame::{Framed, OutBuffer, OutFault, SendFault, Sink, Version, put_all};

/// Adds the canonical lines of fields to the output.
fn put_fields<A: Allocator, W: Sink>(
    fields: &[(Name<A>, Value<A>)],
    buffer: &mut OutBuffer,
    out: &mut W,
) -> Result<(), SendFault>
    ensures { Puts (W.seen out.old) (W.seen out.new) buffer.old buffer.new result (canonical_fields fields.now) }
{
    went_out_of_longer();
    'putting: for field in fields {
        put_line(field.0.bytes(), field.1.bytes(), buffer, out)?;
    }
    Ok(())
}

/// Adds the canonical line of a field to the output: the name in its case, a colon, a space, the value.
fn put_line<W: Sink>(
    name: &[u8],
    value: &[u8],
    buffer: &mut OutBuffer,
    out: &mut W,
) -> Result<(), SendFault>
    ensures { Puts (W.seen out.old) (W.seen out.new) buffer.old buffer.new result
        (canonical_line (name.now, value.now)) }
{
    put_all(&[name, b": ", value, b"\r\n"], buffer, out)
}

/// Adds a canonical head to the output: the version line, a line for each field, and the empty line.
pub fn put_head<A: Allocator, W: Sink>(
    version: Version,
    fields: &Fields<A>,
    buffer: &mut OutBuffer,
    out: &mut W,
) -> Result<(), SendFault>
    ensures { Puts (W.seen out.old) (W.seen out.new) buffer.old buffer.new result (head_text version
        (canonical_fields fields.now)) }
{
    went_out_of_longer();
    buffer.put(out, version.line())?;
    put_fields(fields.as_slice(), buffer, out)?;
    put_all(&[b"\r\n"], buffer, out)
}

/// Adds the canonical text of a record to the output. Its block isn't copied unless it fits the buffer.
fn put_record<A: Allocator, W: Sink>(
    framed: &Framed<A>,
    buffer: &mut OutBuffer,
    out: &mut W,
) -> Result<(), SendFault>
    ensures { Puts (W.seen out.old) (W.seen out.new) buffer.old buffer.new result (canonical framed.now) }
{
    went_out_of_longer();
    put_head(framed.version(), framed.fields(), buffer, out)?;
    put_all(&[framed.block(), b"\r\n\r\n"], buffer, out)
}

/// Adds the canonical texts of records to the output, in their order.
fn put_records<A: Allocator, W: Sink>(
    records: &[Framed<A>],
    buffer: &mut OutBuffer,
    out: &mut W,
) -> Result<(), SendFault>
    ensures { Puts (W.seen out.old) (W.seen out.new) buffer.old buffer.new result (canonical_texts records.now) }
{
    went_out_of_longer();
    'putting: for framed in records {
        put_record(framed, buffer, out)?;
    }
    Ok(())
}

/// Writes the canonical texts of records, in their order: names in their case, each version as it is. It doesn't
/// allocate, so it fails only if a write failed, and returns `Write` with the number of bytes that went out, up to 2^64
/// - 1.
pub fn render<A: Allocator, W: Sink>(records: &[Framed<A>], out: &mut W) -> Result<(), OutFault>
    ensures { SendsText (W.seen out.old) (W.seen out.new) result (canonical_texts records.now) }
{
    let mut buffer = OutBuffer::new();
    put_records(records, &mut buffer, out)?;
    buffer.flush(out)?;
    Ok(())
}

/// Writes the canonical text of one record, as `render` does.
pub fn render_one<A: Allocator, W: Sink>(framed: &Framed<A>, out: &mut W) -> Result<(), OutFault>
    ensures { SendsText (W.seen out.old) (W.seen out.new) result (canonical framed.now) }
{
    let mut buffer = OutBuffer::new();
    put_record(framed, &mut buffer, out)?;
    Ok(buffer.flush(out)?)
}
