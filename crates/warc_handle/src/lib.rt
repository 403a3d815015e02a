//! An open archive that C keeps between calls.
#![tactic(auto)]

mod detached;
mod handle;

pub use handle::{Open, WarcArchive};
