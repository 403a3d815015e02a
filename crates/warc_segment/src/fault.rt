//! Why a record isn't joined.
ghost use Rattle.std.specs.Prelude.{Some};
ghost use Rattle.warc_segment.specs.GapText.{join_fault_text};

use crate::gap::Gap;
use std::alloc::AllocError;
use std::fmt;
use thiserror::Error;

/// Why there is no joined block.
#[derive(Clone, Copy, Debug, PartialEq, Eq, Error)]
pub enum JoinFault {
    /// The segments don't join.
    Gap(Gap),

    /// An allocation failed.
    Memory,
}

impl fmt::Display for JoinFault {
    ghost output = { λ fault. Some (join_fault_text fault) };

    fn fmt<W: fmt::Write>(&self, f: &mut fmt::Formatter<W>) -> fmt::Result {
        match self {
            JoinFault::Gap(gap) => write!(f, "{gap}"),
            JoinFault::Memory => write!(f, "out of memory"),
        }
    }
}

impl From<AllocError> for JoinFault {
    ghost use Rattle.std.specs.Prelude.{◌≡◌};
    ghost use Rattle.warc_segment.specs.declared.fault.JoinFault.TheVariants.{Memory};

    ghost from_gives = { λ _ fault. fault ≡ Memory };

    fn from(_: AllocError) -> JoinFault {
        JoinFault::Memory
    }
}
