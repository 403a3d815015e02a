//! Where a block is.
use warc_value::Wanted;

/// A record's block in its source, and what its head says of it.
#[derive(Clone, Copy, Debug, PartialEq, Eq)]
pub struct Place {
    /// The offset of its first byte in the source.
    pub start: u64,

    /// Its length in bytes.
    pub len: u64,

    /// The digest that its head asks for.
    pub wanted: Wanted,

    /// Whether its record is marked as truncated.
    pub truncated: bool,
}
