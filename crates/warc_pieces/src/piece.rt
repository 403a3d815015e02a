//! A piece of a source.

use warc_frame::Fault;

/// A piece of a source's bytes. Offsets count from the beginning of the source.
#[derive(Clone, Copy, Debug, PartialEq, Eq)]
pub enum Piece {
    /// Good records, one after another, as many as there are.
    Records {
        /// Where the first one begins.
        offset: u64,
        /// How many bytes they are.
        len: u64,
        /// How many records they are.
        count: u64,
    },
    /// Bytes at none of which a good record begins that is whole in the source.
    Damage {
        /// Where they begin.
        offset: u64,
        /// How many bytes they are.
        len: u64,
        /// Why no good record begins with the first of them. Its offset may lie beyond the damage: of F10 it is where
        /// Content-Length says that the block ends, of F11 the length of the source.
        fault: Fault,
    },
}
