//! Why the segments of a record don't join.
ghost use Rattle.std.specs.Prelude.{◌≡◌, ◌≤◌, ◌++◌, length, Some};
ghost use Rattle.warc_segment.specs.GapText.{digits_of, gap_text};

use std::fmt;
use thiserror::Error;

/// What is wrong in a series, G1 to G6. A number is the least that fits. G6 is judged first, and then the others in
/// their order.
#[derive(Clone, Copy, Debug, PartialEq, Eq, Error)]
pub enum Gap {
    /// G1: this number occurs at least twice.
    Repeated(u64),

    /// G2: no segment states a total.
    Unfinished,

    /// G3: this number comes after the last segment, which is the least that states a total.
    AfterEnd(u64),

    /// G4: this number isn't there.
    Absent(u64),

    /// G5: the total that the last segment states isn't the sum of the lengths.
    Total,

    /// G6: the record's own number isn't 1.
    Number,
}

impl Gap {
    /// Its number and name, in at most 13 bytes, and the number of the segment that it is about, if it is about one.
    /// One after another they are its text.
    pub fn parts(self) -> (&'static str, Option<u64>)
        ensures text { result.0.now ++ digits_of result.1 ≡ gap_text self }
        ensures short { length result.0.now ≤ 13 }
    {
        match self {
            Gap::Repeated(number) => ("G1 Repeated ", Some(number)),
            Gap::Unfinished => ("G2 Unfinished", None),
            Gap::AfterEnd(number) => ("G3 AfterEnd ", Some(number)),
            Gap::Absent(number) => ("G4 Absent ", Some(number)),
            Gap::Total => ("G5 Total", None),
            Gap::Number => ("G6 Number", None),
        }
    }
}

impl fmt::Display for Gap {
    ghost output = { λ gap. Some (gap_text gap) };

    fn fmt<W: fmt::Write>(&self, f: &mut fmt::Formatter<W>) -> fmt::Result {
        match self.parts() {
            (name, Some(number)) => write!(f, "{name}{number}"),
            (name, None) => write!(f, "{name}"),
        }
    }
}
