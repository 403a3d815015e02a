//! The digests that heads state, in every algorithm, digests of bytes that come in pieces, and verdicts on blocks.
#![tactic(auto)]

mod encoded;
mod hasher;
mod judge;
pub mod laws;
mod names;
#[cfg(test)]
mod tests;

pub use hasher::{Digest, Hasher};
pub use judge::{Judge, stated_verdict};
pub use names::Algorithm;
