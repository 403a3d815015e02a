//! The line that `list --json` writes for a record.
ghost use Rattle.std.specs.Prelude.{◌≡◌};
ghost use Rattle.warc_frame.specs.Effects.{Puts, SendsText};
ghost use Rattle.warc_json.specs.Objects.{value_seen};
ghost use Rattle.warc_json.specs.Rows.{json_line, json_listing, target_value};

use crate::objects::{Value, put_object};
use std::alloc::Allocator;
use warc::Listing;
use warc_frame::{OutBuffer, OutFault, SendFault, Sink, Source};
use warc_reading::Row;

/// A target, `null` if it is absent.
fn target_value(target: &[u8]) -> Value<'_>
    ensures { value_seen result ≡ target_value target.now }
{
    if target.is_empty() {
        Value::Null
    } else {
        Value::Text(target)
    }
}

/// Adds a record's line to the output, by its position in the archive.
fn put_line<W: Sink>(
    position: u64,
    row: &Row<'_>,
    buffer: &mut OutBuffer,
    out: &mut W,
) -> Result<(), SendFault>
    ensures { Puts (W.seen out.old) (W.seen out.new) buffer.old buffer.new result (json_line position row.now) }
{
    let members = [
        ("position", Value::Number(position)),
        ("offset", Value::Number(row.offset)),
        ("length", Value::Number(row.block_len)),
        ("type", Value::Text(row.kind)),
        ("date", Value::Text(row.date)),
        ("id", Value::Text(row.id)),
        ("target", target_value(row.target)),
    ];
    put_object(&members, buffer, out)
}

/// Adds the line of each row to the output.
fn put_rows<S: Source, A: Allocator + Copy, W: Sink>(
    listing: &Listing<S, A>,
    buffer: &mut OutBuffer,
    out: &mut W,
) -> Result<(), SendFault>
    ensures { Puts (W.seen out.old) (W.seen out.new) buffer.old buffer.new result (json_listing listing.now.rows) }
{
    'listing: for position in 0..listing.count() {
        let Some(row) = listing.row(position) else {
            unreachable!()
        };
        put_line(position as u64, &row, buffer, out)?;
    }
    Ok(())
}

/// Writes a line for each record: an object with the members position, offset, length, type, date, id and target, which
/// is null if there is none. It doesn't allocate.
pub fn list_rows<S: Source, A: Allocator + Copy, W: Sink>(
    listing: &Listing<S, A>,
    out: &mut W,
) -> Result<(), OutFault>
    ensures { SendsText (W.seen out.old) (W.seen out.new) result (json_listing listing.now.rows) }
{
    let mut buffer = OutBuffer::new();
    put_rows(listing, &mut buffer, out)?;
    buffer.flush(out)?;
    Ok(())
}
