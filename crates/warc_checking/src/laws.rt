//! The law of findings: the function does nothing, and its contract is the law.
ghost use Rattle.warc_checking.specs.Checks.{FindingsAreCounted};

/// An archive has fewer findings than 2^64, so they are counted exactly.
pub fn findings_are_counted()
    ensures { FindingsAreCounted }
{}
