//! What a replay gives, or why it gives nothing.
ghost use Rattle.std.specs.Prelude.{◌≡◌, ◌≤◌, ◌++◌, length, Some};
ghost use Rattle.warc_segment.specs.GapText.{digits_of};
ghost use Rattle.warc_answer.specs.ReasonText.{reason_text, replay_fault_text};

use std::fmt;
use thiserror::Error;
use warc_frame::OutFault;
use warc_index::Unfound;
use warc_segment::Gap;

/// Where an answer comes from: positions of records in the archive, from 0.
#[derive(Clone, Copy, Debug, PartialEq, Eq)]
pub struct Path {
    /// The chosen capture.
    pub chosen: usize,

    /// Its origin, whose payload is given: itself, unless it is a revisit.
    pub given: usize,
}

/// What is said of a body that a replay gave.
#[derive(Clone, Copy, Debug, PartialEq, Eq)]
pub struct Answer {
    /// The position of the chosen capture, from 0.
    pub chosen: usize,

    /// The position of its origin, whose payload the body is.
    pub given: usize,

    /// The status of the HTTP response, where the origin is one.
    pub status: Option<u16>,

    /// Whether a record that is joined is marked as truncated.
    pub truncated: bool,

    /// The length of the body in bytes.
    pub length: u64,
}

/// Why a replay gives no body: the first reason on the way.
#[derive(Clone, Copy, Debug, PartialEq, Eq, Error)]
pub enum Reason {
    /// P1 to P6: no capture, or no origin, is found.
    NotFound(Unfound),

    /// P7: the segments of the origin don't join.
    Segments(Gap),

    /// P8: a block that is joined isn't what its record's digest says.
    BadDigest,

    /// P9: the origin is an HTTP response, and its block doesn't begin with the head of one.
    BadHead,

    /// P10: that head says that the body is coded.
    Coded,
}

impl Reason {
    /// Its number and name, in at most 17 bytes; of a gap its number and name, in at most 13 bytes, and the number of
    /// the segment that it is about. One after another they are its text.
    pub fn parts(self) -> (&'static str, &'static str, Option<u64>)
        ensures text { result.0.now ++ result.1.now ++ digits_of result.2 ≡ reason_text self }
        ensures short { (length result.0.now ≤ 17) × (length result.1.now ≤ 13) }
    {
        match self {
            Reason::NotFound(unfound) => (unfound.name(), "", None),
            Reason::Segments(gap) => {
                let (name, number) = gap.parts();
                ("P7 Segment ", name, number)
            }
            Reason::BadDigest => ("P8 BadDigest", "", None),
            Reason::BadHead => ("P9 BadHead", "", None),
            Reason::Coded => ("P10 Coded", "", None),
        }
    }
}

impl fmt::Display for Reason {
    ghost output = { λ reason. Some (reason_text reason) };

    fn fmt<W: fmt::Write>(&self, f: &mut fmt::Formatter<W>) -> fmt::Result {
        match self.parts() {
            (name, gap, Some(number)) => write!(f, "{name}{gap}{number}"),
            (name, gap, None) => write!(f, "{name}{gap}"),
        }
    }
}

/// Why a replay ends without an answer.
#[derive(Clone, Copy, Debug, PartialEq, Eq, Error)]
pub enum ReplayFault {
    /// There is no body, for this reason. Nothing was written.
    Reason(Reason),

    /// A read, a write or an allocation failed, after this number of bytes of the body.
    Out(OutFault),
}

impl From<OutFault> for ReplayFault {
    ghost use Rattle.std.specs.Prelude.{◌≡◌};
    ghost use Rattle.warc_answer.specs.declared.answer.ReplayFault.TheVariants.{Out};

    ghost from_gives = { λ fault e. e ≡ Out fault };

    fn from(fault: OutFault) -> ReplayFault {
        ReplayFault::Out(fault)
    }
}

impl fmt::Display for ReplayFault {
    ghost output = { λ fault. Some (replay_fault_text fault) };

    fn fmt<W: fmt::Write>(&self, f: &mut fmt::Formatter<W>) -> fmt::Result {
        match self {
            ReplayFault::Reason(reason) => write!(f, "{reason}"),
            ReplayFault::Out(fault) => write!(f, "{fault}"),
        }
    }
}
