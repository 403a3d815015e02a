//! What orders entries of the same text.

ghost use Rattle.std.specs.Prelude.{◌≡◌};
ghost use Rattle.warc_order.specs.Layout.{mark_cmp};

use std::cmp::Ordering;

/// A number, and a second one that decides if the first are equal.
#[derive(Clone, Copy, PartialEq, Eq, Debug)]
pub struct Mark {
    pub major: u32,
    pub minor: u64,
}

/// Compares two marks by their major numbers, then by their minor ones.
pub(crate) fn compare_marks(a: Mark, b: Mark) -> Ordering
    ensures { result ≡ mark_cmp a b }
{
    match a.major.cmp(&b.major) {
        Ordering::Equal => a.minor.cmp(&b.minor),
        other => other,
    }
}
