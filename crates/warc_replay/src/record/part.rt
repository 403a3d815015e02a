//! The parts of a record that are given as they are in the source: its head and its block.
ghost use Rattle.std.specs.Prelude.{◌≡◌};
ghost use Rattle.warc_replay.specs.Parts.{part_len, part_start};

use warc_reading::Row;

/// A part of a record.
#[derive(Clone, Copy, PartialEq, Eq, Debug)]
pub enum Part {
    /// The head, from the version line to the empty line.
    Head,

    /// The block.
    Block,
}

impl Part {
    /// Where the part begins in the source, and how many bytes it has.
    pub(crate) fn range(self, row: &Row<'_>) -> (u64, u64)
        ensures start { result.0 ≡ part_start self row.now }
        ensures len { result.1 ≡ part_len self row.now }
    {
        match self {
            Part::Head => (row.offset, row.block_start.saturating_sub(row.offset)),
            Part::Block => (row.block_start, row.block_len),
        }
    }
}
