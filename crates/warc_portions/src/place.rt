//! Where the bytes of a record are.
ghost use Rattle.std.specs.Prelude.{◌≡◌, ℕ, List, Some, drop, slice_get, take};
ghost use Rattle.warc_frame.specs.Effects.{HasRange};
ghost use Rattle.warc_portions.specs.Portions.{IsRecordPlace};
ghost use Rattle.warc_reading.specs.Archive.{IsArchiveOf};
ghost use Rattle.warc_reading.specs.Row.{Row as Seen};

use warc_reading::Row;

/// The offset and the length of a row's record, the two line ends after its block included.
pub(crate) fn record_place(row: &Row<'_>) -> (u64, u64)
    ensures { (bytes : List ℕ) (rows : List Seen) (position : ℕ) → IsArchiveOf bytes rows →
        slice_get rows position ≡ Some row.now → IsRecordPlace bytes row.now result.0 result.1 }
{
    let end = row
        .block_start
        .saturating_add(row.block_len)
        .saturating_add(4);
    (row.offset, end.saturating_sub(row.offset))
}
