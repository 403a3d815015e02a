//! One record: its bytes, its head, and the verdicts on its block and its payload.

pub(crate) mod blocks_again;
pub(crate) mod comparison;
pub(crate) mod digests;
pub(crate) mod good_payload;
pub(crate) mod head;
pub(crate) mod part;
pub(crate) mod payload;
pub(crate) mod range;
pub(crate) mod verdict;
pub(crate) mod whole;
