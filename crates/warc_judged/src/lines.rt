//! The lines that say how blocks compare with their digests.
ghost use Rattle.std.specs.Prelude.{◌≡◌, ◌<◌, [], codes};
ghost use Rattle.warc_frame.specs.Effects.{Puts};
ghost use Rattle.warc_judged.specs.Fixity.{counts_line, fixity_text, unless_good, verdict_line, verdict_text};

use crate::digests::{Counts, Digests};
use crate::row::shown_as;
use itoa::Buffer;
use std::alloc::Allocator;
use warc_frame::{OutBuffer, SendFault, Sink, put_columns};
use warc_reading::{Row, Rows};
use warc_record::bare;
use warc_value::Verdict;

/// What a verdict is called.
pub fn verdict_text(verdict: Verdict) -> &'static [u8]
    ensures { result.now ≡ verdict_text verdict }
{
    match verdict {
        Verdict::Good => b"good",
        Verdict::Bad => b"bad",
        Verdict::Unchecked => b"unchecked",
    }
}

/// What the records are called.
fn records_text() -> &'static [u8]
    ensures { result.now ≡ codes "records" }
{
    b"records"
}

/// Adds the line of a block that isn't good to the output, by the position of its record.
fn put_verdict<W: Sink>(
    position: u64,
    verdict: Verdict,
    row: &Row<'_>,
    digest: &[u8],
    buffer: &mut OutBuffer,
    out: &mut W,
) -> Result<(), SendFault>
    ensures { Puts (W.seen out.old) (W.seen out.new) buffer.old buffer.new result
        (verdict_line position verdict row.now digest.now) }
{
    let mut digits = Buffer::new();
    let columns = [
        (digits.format(position).as_bytes(), b'\t'),
        (verdict_text(verdict), b'\t'),
        (bare(row.id), b'\t'),
        (shown_as(digest), b'\n'),
    ];
    put_columns(&columns, buffer, out)
}

/// Adds the line of a block to the output, unless the block is good.
fn put_if<W: Sink>(
    position: u64,
    verdict: Verdict,
    row: &Row<'_>,
    digest: &[u8],
    buffer: &mut OutBuffer,
    out: &mut W,
) -> Result<(), SendFault>
    ensures { Puts (W.seen out.old) (W.seen out.new) buffer.old buffer.new result
        (unless_good verdict (verdict_line position verdict row.now digest.now)) }
{
    match verdict {
        Verdict::Good => put_columns(&[], buffer, out),
        Verdict::Bad | Verdict::Unchecked => {
            put_verdict(position, verdict, row, digest, buffer, out)
        }
    }
}

/// Adds the last line to the output.
pub fn put_counts<W: Sink>(
    counts: Counts,
    buffer: &mut OutBuffer,
    out: &mut W,
) -> Result<(), SendFault>
    ensures { Puts (W.seen out.old) (W.seen out.new) buffer.old buffer.new result (counts_line counts) }
{
    let (mut first, mut second) = (Buffer::new(), Buffer::new());
    let (mut third, mut fourth) = (Buffer::new(), Buffer::new());
    let columns = [
        (records_text(), b' '),
        (first.format(counts.records).as_bytes(), b' '),
        (verdict_text(Verdict::Good), b' '),
        (second.format(counts.good).as_bytes(), b' '),
        (verdict_text(Verdict::Bad), b' '),
        (third.format(counts.bad).as_bytes(), b' '),
        (verdict_text(Verdict::Unchecked), b' '),
        (fourth.format(counts.unchecked).as_bytes(), b'\n'),
    ];
    put_columns(&columns, buffer, out)
}

/// Adds a line for each block that isn't good to the output, and a last line with the counts.
pub fn put_fixity<W: Sink, A: Allocator>(
    rows: &Rows<A>,
    digests: &Digests<A>,
    buffer: &mut OutBuffer,
    out: &mut W,
) -> Result<(), SendFault>
    ensures { Puts (W.seen out.old) (W.seen out.new) buffer.old buffer.new result
        (fixity_text rows.now digests.now) }
{
    'listing: for position in 0..rows.len() {
        let Some(row) = rows.get(position) else {
            unreachable!()
        };
        let verdict = digests.verdict(position);
        let digest = digests.at(position);
        put_if(position as u64, verdict, &row, digest, buffer, out)?;
    }
    put_counts(digests.counts(), buffer, out)
}
