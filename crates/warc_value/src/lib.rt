//! Instants of dates, base32, and verdicts on digests.
#![tactic(auto)]

mod date;
mod hash;
pub mod laws;
mod moment;
mod symbols;

pub use date::read_date;
pub use hash::{Verdict, Wanted, digest};
pub use moment::Moment;
pub use symbols::{base32, unbase32};
