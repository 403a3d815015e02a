//! Records whose blocks were cut into segments: which segments belong to a record, what is missing
//! among them, and where the parts of the joined block are in the source.
#![tactic(auto)]

mod fault;
mod gap;
mod held;
pub mod laws;
mod parts;
mod place;
mod series;

pub use fault::JoinFault;
pub use gap::Gap;
pub use parts::Parts;
pub use place::Place;
