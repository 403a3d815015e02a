//! Why no origin is found.
ghost use Rattle.std.specs.Prelude.{◌≡◌, ◌≤◌, length, Some};
ghost use Rattle.warc_index.specs.UnfoundText.{unfound_text};

use std::fmt;
use thiserror::Error;

/// Why a look-up finds no capture, or no origin of the one that it found: P1 to P6.
#[derive(Clone, Copy, Debug, PartialEq, Eq, Error)]
pub enum Unfound {
    /// P1: no capture has the target.
    NoCapture,

    /// P2: each capture of the target is later than the moment.
    NotYet,

    /// P3: a revisit's profile isn't known.
    UnknownProfile,

    /// P4: a revisit names nothing, and no response or resource of its target, by its own instant, states the same
    /// payload digest.
    NoReference,

    /// P5: what a revisit names isn't there.
    Unresolved,

    /// P6: the chain of referents comes back to a record that it has left.
    Loop,
}

impl Unfound {
    /// Its number and name, which are its text, in at most 17 bytes.
    pub fn name(self) -> &'static str
        ensures text { result.now ≡ unfound_text self }
        ensures short { length result.now ≤ 17 }
    {
        match self {
            Unfound::NoCapture => "P1 NoCapture",
            Unfound::NotYet => "P2 NotYet",
            Unfound::UnknownProfile => "P3 UnknownProfile",
            Unfound::NoReference => "P4 NoReference",
            Unfound::Unresolved => "P5 Unresolved",
            Unfound::Loop => "P6 Loop",
        }
    }
}

impl fmt::Display for Unfound {
    ghost output = { λ unfound. Some (unfound_text unfound) };

    fn fmt<W: fmt::Write>(&self, f: &mut fmt::Formatter<W>) -> fmt::Result {
        write!(f, "{}", self.name())
    }
}
