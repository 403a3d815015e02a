//! A number in which most texts differ.
ghost use Rattle.std.specs.Prelude.{◌≡◌};
ghost use Rattle.warc_order.specs.Hashes.{hash_of};

use std::hash::{FoldHasher, Hasher};

/// The hash of a text. Texts that differ mostly have hashes that differ.
#[inline]
#[tactic(auto, unfolding(crate::specs::Hashes::hash_of))]
pub fn hash_of(text: &[u8]) -> u32
    ensures { result ≡ hash_of text.now }
{
    let mut hasher = FoldHasher::default();
    hasher.write(text);
    (hasher.finish() & u64::from(u32::MAX)) as u32
}
