//! Laws over the definitions: each function does nothing, and its contract is the law.
ghost use Rattle.warc_write.specs.Conversion.{ConversionIsIdempotent, ConvertedSaysTheSame, ConvertedStaysGood};
ghost use Rattle.warc_write.specs.Joining.{SplitJoins};
ghost use Rattle.warc_write.specs.Rendering.{RenderedOpensAsSame};

use warc_frame::laws::{canonical_text_spells, spelling_is_unambiguous};

/// What is written of good records spells exactly these records.
pub fn rendered_opens_as_same()
    ensures { RenderedOpensAsSame }
{
    canonical_text_spells();
    spelling_is_unambiguous();
}

/// Converted twice is converted once.
pub fn conversion_is_idempotent()
    ensures { ConversionIsIdempotent }
{}

/// A converted good record is good.
pub fn converted_stays_good()
    ensures { ConvertedStaysGood }
{}

/// A converted head says what it said before, so no reading of a record changes.
pub fn converted_says_the_same()
    ensures { ConvertedSaysTheSame }
{}

/// The records that a good record is split into join to its block, and none has a bad digest.
pub fn split_joins()
    ensures { SplitJoins }
{}
