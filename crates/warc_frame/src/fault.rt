//! The first fault of an archive: what it is, and where.
ghost use Rattle.std.specs.Prelude.{◌≡◌, ◌≤◌, ◌++◌, decimal, length, Some};
ghost use Rattle.warc_frame.specs.Send.{ended_by, sent_of};
ghost use Rattle.warc_frame.specs.FaultText.{name_of, kind_text, fault_text, out_fault_text};

use crate::names;
use crate::send::SendFault;
use crate::source::ReadFault;
use std::alloc::AllocError;
use std::fmt;
use thiserror::Error;

/// A field that each record has exactly once.
#[derive(Clone, Copy, PartialEq, Eq, Debug)]
pub enum Mandatory {
    ContentLength,
    Type,
    RecordId,
    Date,
}

impl Mandatory {
    /// The field's name, as the standard writes it.
    pub fn name(self) -> &'static str
        ensures { result.now ≡ name_of self }
    {
        match self {
            Mandatory::ContentLength => names::CONTENT_LENGTH,
            Mandatory::Type => names::WARC_TYPE,
            Mandatory::RecordId => names::WARC_RECORD_ID,
            Mandatory::Date => names::WARC_DATE,
        }
    }
}

impl fmt::Display for Mandatory {
    ghost output = { λ field. Some (name_of field) };

    fn fmt<W: fmt::Write>(&self, f: &mut fmt::Formatter<W>) -> fmt::Result {
        write!(f, "{}", self.name())
    }
}

/// Why an archive is refused: F1 to F14, in this order.
#[derive(Clone, Copy, PartialEq, Eq, Debug, Error)]
pub enum FaultKind {
    /// The bytes there begin no version line.
    Version,

    /// The head is longer than 65,536 bytes, as it is spelled or as it would be spelled canonically.
    HeadTooLong,

    /// A line is no field.
    Field,

    /// This field is absent.
    Missing(Mandatory),

    /// This field occurs more than once.
    Repeated(Mandatory),

    /// The value of `Content-Length` is no number of at most 2^40.
    Length,

    /// The value of `WARC-Type` is no token.
    BadType,

    /// The value of `WARC-Record-ID` isn't an id.
    Id,

    /// The value of `WARC-Date` is no date.
    Date,

    /// The bytes after the block don't begin with CRLF CRLF.
    End,

    /// The bytes end before the record does.
    Truncated,

    /// There is a byte at offset 2^48.
    TooLong,

    /// A read failed.
    Read,

    /// An allocation failed.
    Memory,
}

impl FaultKind {
    /// The fault's number and name, and the name of the field that it is about, or nothing: each of at most 16 bytes.
    /// One after another they are the fault's text.
    pub fn parts(self) -> (&'static str, &'static str)
        ensures text { result.0.now ++ result.1.now ≡ kind_text self }
        ensures short { (length result.0.now ≤ 16) × (length result.1.now ≤ 16) }
    {
        match self {
            FaultKind::Version => ("F1 Version", ""),
            FaultKind::HeadTooLong => ("F2 HeadTooLong", ""),
            FaultKind::Field => ("F3 Field", ""),
            FaultKind::Missing(field) => ("F4 Missing ", field.name()),
            FaultKind::Repeated(field) => ("F5 Repeated ", field.name()),
            FaultKind::Length => ("F6 Length", ""),
            FaultKind::BadType => ("F7 BadType", ""),
            FaultKind::Id => ("F8 Id", ""),
            FaultKind::Date => ("F9 Date", ""),
            FaultKind::End => ("F10 End", ""),
            FaultKind::Truncated => ("F11 Truncated", ""),
            FaultKind::TooLong => ("F12 TooLong", ""),
            FaultKind::Read => ("F13 Read", ""),
            FaultKind::Memory => ("F14 Memory", ""),
        }
    }

    /// The fault of this kind at an offset.
    pub fn at(self, offset: u64) -> Fault
        ensures { result ≡ record { kind = self; offset = offset } }
    {
        Fault { kind: self, offset }
    }
}

impl fmt::Display for FaultKind {
    ghost output = { λ kind. Some (kind_text kind) };

    fn fmt<W: fmt::Write>(&self, f: &mut fmt::Formatter<W>) -> fmt::Result {
        let (name, field) = self.parts();
        write!(f, "{name}{field}")
    }
}

/// The fault at which reading stops, and its offset in bytes from the archive's front.
#[derive(Clone, Copy, PartialEq, Eq, Debug, Error)]
pub struct Fault {
    pub kind: FaultKind,
    pub offset: u64,
}

impl fmt::Display for Fault {
    ghost output = { λ fault. Some (fault_text fault) };

    fn fmt<W: fmt::Write>(&self, f: &mut fmt::Formatter<W>) -> fmt::Result {
        write!(f, "{} at {}", self.kind, self.offset)
    }
}

/// Why an output ends early, and how many bytes of it went out.
#[derive(Clone, Copy, PartialEq, Eq, Debug, Error)]
pub enum OutFault {
    /// A read failed.
    Read(u64),

    /// A write failed.
    Write(u64),

    /// An allocation failed.
    Memory(u64),
}

impl OutFault {
    /// How many bytes of the output went out.
    pub fn sent(self) -> u64
        ensures { result ≡ sent_of self }
    {
        match self {
            OutFault::Read(sent) | OutFault::Write(sent) | OutFault::Memory(sent) => sent,
        }
    }

    /// What comes before that number in the fault's text, in at most 20 bytes.
    pub fn cause(self) -> &'static str
        ensures text { result.now ++ decimal (sent_of self) ≡ out_fault_text self }
        ensures short { length result.now ≤ 20 }
    {
        match self {
            OutFault::Read(_) => "read failed after ",
            OutFault::Write(_) => "write failed after ",
            OutFault::Memory(_) => "out of memory after ",
        }
    }
}

impl fmt::Display for OutFault {
    ghost output = { λ fault. Some (out_fault_text fault) };

    fn fmt<W: fmt::Write>(&self, f: &mut fmt::Formatter<W>) -> fmt::Result {
        write!(f, "{}{}", self.cause(), self.sent())
    }
}

impl From<SendFault> for OutFault {
    ghost use Rattle.std.specs.Prelude.{◌≡◌};
    ghost use Rattle.warc_frame.specs.declared.fault.OutFault.TheVariants.{Write};

    ghost from_gives = { λ fault out. out ≡ Write fault.sent };

    fn from(fault: SendFault) -> OutFault {
        OutFault::Write(fault.sent)
    }
}

/// Why a call fails that writes nothing, or an output before its first byte.
#[derive(Clone, Copy, PartialEq, Eq, Debug)]
pub enum EarlyFault {
    /// A read failed, or the source doesn't give what it gave before.
    Read,

    /// An allocation failed.
    Memory,
}

impl EarlyFault {
    /// This fault as the end of an output of which `sent` bytes went out.
    pub fn after(self, sent: u64) -> OutFault
        ensures { result ≡ ended_by self sent }
    {
        match self {
            EarlyFault::Read => OutFault::Read(sent),
            EarlyFault::Memory => OutFault::Memory(sent),
        }
    }
}

impl From<ReadFault> for EarlyFault {
    ghost use Rattle.std.specs.Prelude.{◌≡◌};
    ghost use Rattle.warc_frame.specs.declared.fault.EarlyFault.TheVariants.{Read};

    ghost from_gives = { λ _ e. e ≡ Read };

    fn from(_: ReadFault) -> EarlyFault {
        EarlyFault::Read
    }
}

impl From<AllocError> for EarlyFault {
    ghost use Rattle.std.specs.Prelude.{◌≡◌};
    ghost use Rattle.warc_frame.specs.declared.fault.EarlyFault.TheVariants.{Memory};

    ghost from_gives = { λ _ e. e ≡ Memory };

    fn from(_: AllocError) -> EarlyFault {
        EarlyFault::Memory
    }
}

impl From<EarlyFault> for OutFault {
    ghost use Rattle.std.specs.Prelude.{◌≡◌};
    ghost use Rattle.warc_frame.specs.Send.{ended_by};

    ghost from_gives = { λ fault out. out ≡ ended_by fault 0 };

    fn from(fault: EarlyFault) -> OutFault {
        fault.after(0)
    }
}

impl From<AllocError> for Fault {
    ghost use Rattle.std.specs.Prelude.{◌≡◌};
    ghost use Rattle.warc_frame.specs.declared.fault.FaultKind.TheVariants.{Memory};

    ghost from_gives = { λ _ e. e ≡ record { kind = Memory; offset = 0 } };

    /// A failed allocation for the record at the beginning, whose offset is 0.
    fn from(_: AllocError) -> Fault {
        Fault {
            kind: FaultKind::Memory,
            offset: 0,
        }
    }
}
