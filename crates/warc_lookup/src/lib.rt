//! What an archive keeps beside its rows, so that records are found and joined: an index and the segments.
#![tactic(auto)]

mod lookup;

pub use lookup::{Lookup, RecordLookup, UnorderedLookup};
