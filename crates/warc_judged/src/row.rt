//! The line that `list` writes for a record.
ghost use Rattle.warc_record.specs.Kinds.{kind_named};
ghost use Rattle.warc_index.specs.Captures.{is_capture};
ghost use Rattle.std.specs.Prelude.{◌≡◌};
ghost use Rattle.warc_judged.specs.Listing.{line_of, listing, shown};
ghost use Rattle.warc_frame.specs.Effects.{Puts, SendsText};

use itoa::Buffer;
use std::alloc::Allocator;
use warc_frame::{OutBuffer, OutFault, SendFault, Sink, put_columns};
use warc_reading::{Row, Rows};
use warc_record::Kind;

/// Adds a record's line to the output, by its position in the archive.
pub fn put_line<W: Sink>(
    position: u64,
    row: &Row<'_>,
    buffer: &mut OutBuffer,
    out: &mut W,
) -> Result<(), SendFault>
    ensures { Puts (W.seen out.old) (W.seen out.new) buffer.old buffer.new result (line_of position row.now) }
{
    let (mut first, mut second, mut third) = (Buffer::new(), Buffer::new(), Buffer::new());
    let columns = [
        (first.format(position).as_bytes(), b'\t'),
        (second.format(row.offset).as_bytes(), b'\t'),
        (third.format(row.block_len).as_bytes(), b'\t'),
        (row.kind, b'\t'),
        (row.date, b'\t'),
        (row.id, b'\t'),
        (shown_as(row.target), b'\n'),
    ];
    put_columns(&columns, buffer, out)
}

/// A text, or `-` for an empty one.
pub fn shown_as(text: &[u8]) -> &[u8]
    ensures { result.now ≡ shown text.now }
{
    if text.is_empty() { b"-" } else { text }
}

/// Adds the line of each row to the output.
pub fn put_rows<A: Allocator, W: Sink>(
    rows: &Rows<A>,
    buffer: &mut OutBuffer,
    out: &mut W,
) -> Result<(), SendFault>
    ensures { Puts (W.seen out.old) (W.seen out.new) buffer.old buffer.new result (listing rows.now) }
{
    'listing: for position in 0..rows.len() {
        let Some(row) = rows.get(position) else {
            unreachable!()
        };
        put_line(position as u64, &row, buffer, out)?;
    }
    Ok(())
}

/// Writes the line of each row.
pub fn list_rows<A: Allocator, W: Sink>(rows: &Rows<A>, out: &mut W) -> Result<(), OutFault>
    ensures { SendsText (W.seen out.old) (W.seen out.new) result (listing rows.now) }
{
    let mut buffer = OutBuffer::new();
    put_rows(rows, &mut buffer, out)?;
    buffer.flush(out)?;
    Ok(())
}

/// Whether the record of a type is a capture.
pub fn is_capture(kind: &[u8]) -> bool
    ensures { result ≡ is_capture (kind_named kind.now) }
{
    matches!(
        Kind::named(kind),
        Kind::Response | Kind::Resource | Kind::Revisit
    )
}
