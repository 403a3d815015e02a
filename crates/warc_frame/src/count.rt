//! Counts that stop at 2^64 - 1.
ghost use Rattle.std.specs.Prelude.{◌≡◌};
ghost use Rattle.warc_frame.specs.Count.{raised};

/// One more, unless the count is at its greatest.
pub fn raise(count: u64) -> u64
    ensures { result ≡ raised count }
{
    if count < u64::MAX { count + 1 } else { count }
}
