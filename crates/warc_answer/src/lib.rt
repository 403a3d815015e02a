//! What a replay answers: from the records that are joined to what goes out.
#![tactic(auto)]

mod answer;
mod blocks;
mod body;
mod hashed;
mod known;
mod known_digest;
pub mod laws;
mod located;
mod replay;
mod split;
mod stored;

pub use answer::{Answer, Path, Reason, ReplayFault};
pub use blocks::send_blocks;
pub use body::is_http_response;
pub use hashed::{PayloadDigest, digest_joined, digest_own};
pub use known::judge_known;
pub use known_digest::digest_known;
pub use located::{Located, Span, locate_joined};
pub use replay::replay_joined;
pub use split::{Extent, KnownBlocks, extent_after, judge_after, judge_split};
pub use stored::{Stored, find_stored};
