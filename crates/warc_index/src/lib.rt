//! Which capture of a target answers at a moment, and which record a revisit leads to.
#![tactic(auto)]

mod addition;
mod chains;
mod index;
mod key;
pub mod laws;
mod link;
mod linked;
mod lookup;
mod unfound;

pub use index::{Index, RecordIndex, UnorderedIndex};
pub use unfound::Unfound;
