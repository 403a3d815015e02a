//! The pieces of a source: runs of good records, and the damage between them. Nothing is guessed and nothing is mended:
//! a record counts if its bytes are there, whole and good.
#![tactic(auto)]

pub mod laws;
mod line;
mod piece;
mod pieces;
mod record;
mod run;
mod search;
mod skip;
mod window;

pub use piece::Piece;
pub use pieces::Pieces;
