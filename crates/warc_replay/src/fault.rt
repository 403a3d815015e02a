//! Why an archive doesn't give what it was asked for.
ghost use Rattle.std.specs.Prelude.{Some};
ghost use Rattle.warc_replay.specs.Bodies.{body_fault_text};
ghost use Rattle.warc_replay.specs.TakeText.{extract_fault_text, take_fault_text};

use std::fmt;
use thiserror::Error;
use warc_answer::ReplayFault;
use warc_frame::OutFault;

/// Why a record isn't given.
#[derive(Clone, Copy, Debug, PartialEq, Eq, Error)]
pub enum TakeFault {
    /// E1: there is no record at the position.
    NoRecord,

    /// A read failed, or the source no longer gives what it gave at opening.
    Read,

    /// An allocation failed.
    Memory,
}

impl fmt::Display for TakeFault {
    ghost output = { λ fault. Some (take_fault_text fault) };

    fn fmt<W: fmt::Write>(&self, f: &mut fmt::Formatter<W>) -> fmt::Result {
        match self {
            TakeFault::NoRecord => write!(f, "E1 NoRecord"),
            TakeFault::Read => write!(f, "read failed"),
            TakeFault::Memory => write!(f, "out of memory"),
        }
    }
}

/// Why a block isn't extracted.
#[derive(Clone, Copy, Debug, PartialEq, Eq, Error)]
pub enum ExtractFault {
    /// E1: no record has the id.
    NoRecord,

    /// The output ends early.
    Out(OutFault),
}

impl fmt::Display for ExtractFault {
    ghost output = { λ fault. Some (extract_fault_text fault) };

    fn fmt<W: fmt::Write>(&self, f: &mut fmt::Formatter<W>) -> fmt::Result {
        match self {
            ExtractFault::NoRecord => write!(f, "E1 NoRecord"),
            ExtractFault::Out(fault) => write!(f, "{fault}"),
        }
    }
}

/// Why the record at a position gives no body.
#[derive(Clone, Copy, Debug, PartialEq, Eq, Error)]
pub enum BodyFault {
    /// E1: there is no record at the position.
    NoRecord,

    /// E2: the record there is no capture.
    NoCapture,

    /// The capture there gives no body, or the output ends early.
    Replay(ReplayFault),
}

impl fmt::Display for BodyFault {
    ghost output = { λ fault. Some (body_fault_text fault) };

    fn fmt<W: fmt::Write>(&self, f: &mut fmt::Formatter<W>) -> fmt::Result {
        match self {
            BodyFault::NoRecord => write!(f, "E1 NoRecord"),
            BodyFault::NoCapture => write!(f, "E2 NoCapture"),
            BodyFault::Replay(fault) => write!(f, "{fault}"),
        }
    }
}
