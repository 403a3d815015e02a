//! The fields of a head by the names of the standard, however they are kept.
ghost use Rattle.std.specs.Prelude.{◌≡◌, ◌&&◌, not, nat_lt, List};
ghost use Rattle.std.specs.Option.{option_copied};
ghost use Rattle.warc_field.specs.Area.{Pair, count_of, first_value};
ghost use Rattle.warc_frame.specs.FieldNames.{name_text};
ghost use Rattle.warc_record.specs.Table.{may_repeat};

use warc_frame::FieldName;

/// The fields of a head, found by the names of the standard.
pub trait HeadFields<'a> {
    /// Which lists of fields it may have been read from. What it answers holds of each of them.
    ghost reads: { Self → List Pair → Type 0 };

    /// The value of the first field of a name.
    fn first_text(&self, name: FieldName) -> Option<&'a [u8]>
        ensures { (pairs : List Pair) → reads self.now pairs
            → option_copied result ≡ first_value (name_text name) pairs };

    /// Whether a field that may not be repeated occurs again.
    fn occurs_again(&self, name: FieldName) -> bool
        ensures { (pairs : List Pair) → reads self.now pairs
            → result ≡ (not (may_repeat name) && nat_lt 1 (count_of (name_text name) pairs)) };
}
