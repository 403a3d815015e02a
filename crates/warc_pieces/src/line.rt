//! Version lines in bytes.
ghost use Rattle.std.specs.Prelude.{◌≡◌, is_some};
ghost use Rattle.memchr.specs.Find.{FindsNeedle};
ghost use Rattle.warc_frame.specs.Reading.{version_of};
ghost use Rattle.warc_pieces.specs.Search.{line_start};

use crate::record::begins_as;
use memchr::arch::all::twoway::Finder;

/// The bytes that each version line begins with.
pub(crate) const LINE_START: &[u8] = b"WARC/1.";

/// How many bytes a version line has.
pub(crate) const LINE_LEN: usize = 10;

/// The place of the first version line in bytes.
pub(crate) fn find_line(bytes: &[u8]) -> Option<usize>
    ensures { FindsNeedle bytes.now line_start 0 result }
{
    Finder::new(LINE_START).find(bytes, LINE_START)
}

/// Whether a text begins with a version line, as far as it goes.
#[tactic(auto, unfolding(warc_frame::specs::Reading::version_of))]
pub(crate) fn begins_version(text: &[u8]) -> bool
    ensures { result ≡ is_some (version_of text.now) }
{
    begins_as(text, b"WARC/1.1\r\n") || begins_as(text, b"WARC/1.0\r\n")
}
