//! What goes wrong, as a value, as numbers and as a text.
ghost use Rattle.std.specs.Prelude.{◌≡◌, IfSome, Some};
ghost use Rattle.std.specs.Bool.{OnTrue};
ghost use Rattle.warc_lent.specs.Problems.{fault_numbers, field_number, gap_numbers, kind_numbers, made_code, problem_numbers, problem_of_take, problem_text, reason_numbers, unfound_code};

use std::fmt;
use thiserror::Error;
use warc::{BodyFault, TakeFault};
use warc_answer::{Reason, ReplayFault};
use warc_frame::{Fault, FaultKind, Mandatory, OutFault};
use warc_index::Unfound;
use warc_segment::Gap;
use warc_write::MakeFault;

/// Why a caller doesn't get what it asks for.
#[derive(Clone, Copy, Debug, PartialEq, Eq, Error)]
pub enum Problem {
    /// F1 to F14: the archive is refused.
    Fault(Fault),

    /// P1 to P10: there is no body.
    Reason(Reason),

    /// E1: there is no record.
    NoRecord,

    /// E2: the record there is no capture.
    NoCapture,

    /// The bytes are no longer what they were when the archive was opened.
    Changed,

    /// An allocation failed.
    Memory,

    /// The text is no date.
    BadDate,

    /// No archive is open.
    NotOpen,

    /// A pointer is null, though its length isn't 0.
    BadArgument,

    /// A write failed.
    Write,

    /// M1 to M5: no record is made.
    Made(MakeFault),
}

impl fmt::Display for Problem {
    ghost output = { λ problem. Some (problem_text problem) };

    fn fmt<W: fmt::Write>(&self, f: &mut fmt::Formatter<W>) -> fmt::Result {
        match self {
            Problem::Fault(fault) => write!(f, "{fault}"),
            Problem::Reason(reason) => write!(f, "{reason}"),
            Problem::NoRecord => write!(f, "E1 NoRecord"),
            Problem::NoCapture => write!(f, "E2 NoCapture"),
            Problem::Changed => write!(f, "bytes changed"),
            Problem::Memory => write!(f, "out of memory"),
            Problem::BadDate => write!(f, "bad date"),
            Problem::NotOpen => write!(f, "not open"),
            Problem::BadArgument => write!(f, "bad argument"),
            Problem::Write => write!(f, "write failed"),
            Problem::Made(fault) => write!(f, "{fault}"),
        }
    }
}

/// A problem as numbers, for callers in other languages. No problem is all zeros.
#[repr(C)]
#[derive(Clone, Copy, Debug, PartialEq, Eq)]
pub struct Numbers {
    /// 1 to 14 for F1 to F14, 101 to 110 for P1 to P10, 301 to 305 for M1 to M5, and from 201 on what has
    /// no such number.
    pub code: u32,

    /// Of F4 and F5 the field, 1 to 4; of P7 the gap, 1 to 6 for G1 to G6; else 0.
    pub detail: u32,

    /// Of F1 to F14 the offset; of P7 the number of the segment, if the gap has one; else 0.
    pub number: u64,
}

/// The number of a field that each record has exactly once.
fn field_number(field: Mandatory) -> u32
    ensures { result ≡ field_number field }
{
    match field {
        Mandatory::ContentLength => 1,
        Mandatory::Type => 2,
        Mandatory::RecordId => 3,
        Mandatory::Date => 4,
    }
}

/// The field with a number.
fn field_of(number: u32) -> Option<Mandatory> {
    match number {
        1 => Some(Mandatory::ContentLength),
        2 => Some(Mandatory::Type),
        3 => Some(Mandatory::RecordId),
        4 => Some(Mandatory::Date),
        _ => None,
    }
}

/// The code of a fault, and the number of the field that it is about, or 0.
fn kind_numbers(kind: FaultKind) -> (u32, u32)
    ensures { result ≡ kind_numbers kind }
{
    match kind {
        FaultKind::Version => (1, 0),
        FaultKind::HeadTooLong => (2, 0),
        FaultKind::Field => (3, 0),
        FaultKind::Missing(field) => (4, field_number(field)),
        FaultKind::Repeated(field) => (5, field_number(field)),
        FaultKind::Length => (6, 0),
        FaultKind::BadType => (7, 0),
        FaultKind::Id => (8, 0),
        FaultKind::Date => (9, 0),
        FaultKind::End => (10, 0),
        FaultKind::Truncated => (11, 0),
        FaultKind::TooLong => (12, 0),
        FaultKind::Read => (13, 0),
        FaultKind::Memory => (14, 0),
    }
}

/// The fault with these numbers.
fn kind_of(code: u32, detail: u32) -> Option<FaultKind> {
    match code {
        1 => Some(FaultKind::Version),
        2 => Some(FaultKind::HeadTooLong),
        3 => Some(FaultKind::Field),
        4 => field_of(detail).map(FaultKind::Missing),
        5 => field_of(detail).map(FaultKind::Repeated),
        6 => Some(FaultKind::Length),
        7 => Some(FaultKind::BadType),
        8 => Some(FaultKind::Id),
        9 => Some(FaultKind::Date),
        10 => Some(FaultKind::End),
        11 => Some(FaultKind::Truncated),
        12 => Some(FaultKind::TooLong),
        13 => Some(FaultKind::Read),
        14 => Some(FaultKind::Memory),
        _ => None,
    }
}

/// The number of a gap, and the number of the segment that it is about, or 0.
fn gap_numbers(gap: Gap) -> (u32, u64)
    ensures { result ≡ gap_numbers gap }
{
    match gap {
        Gap::Repeated(segment) => (1, segment),
        Gap::Unfinished => (2, 0),
        Gap::AfterEnd(segment) => (3, segment),
        Gap::Absent(segment) => (4, segment),
        Gap::Total => (5, 0),
        Gap::Number => (6, 0),
    }
}

/// The gap with these numbers.
fn gap_of(number: u32, segment: u64) -> Option<Gap> {
    match number {
        1 => Some(Gap::Repeated(segment)),
        2 => Some(Gap::Unfinished),
        3 => Some(Gap::AfterEnd(segment)),
        4 => Some(Gap::Absent(segment)),
        5 => Some(Gap::Total),
        6 => Some(Gap::Number),
        _ => None,
    }
}

/// The code of the reason why nothing is found.
fn unfound_code(unfound: Unfound) -> u32
    ensures { result ≡ unfound_code unfound }
{
    match unfound {
        Unfound::NoCapture => 101,
        Unfound::NotYet => 102,
        Unfound::UnknownProfile => 103,
        Unfound::NoReference => 104,
        Unfound::Unresolved => 105,
        Unfound::Loop => 106,
    }
}

/// The code of the reason why no record is made.
fn made_code(fault: MakeFault) -> u32
    ensures { result ≡ made_code fault }
{
    match fault {
        MakeFault::Date => 301,
        MakeFault::Text => 302,
        MakeFault::TooLong => 303,
        MakeFault::Memory => 304,
        MakeFault::Kind => 305,
    }
}

/// The reason with these numbers.
fn reason_of(code: u32, detail: u32, number: u64) -> Option<Reason> {
    match code {
        101 => Some(Reason::NotFound(Unfound::NoCapture)),
        102 => Some(Reason::NotFound(Unfound::NotYet)),
        103 => Some(Reason::NotFound(Unfound::UnknownProfile)),
        104 => Some(Reason::NotFound(Unfound::NoReference)),
        105 => Some(Reason::NotFound(Unfound::Unresolved)),
        106 => Some(Reason::NotFound(Unfound::Loop)),
        107 => gap_of(detail, number).map(Reason::Segments),
        108 => Some(Reason::BadDigest),
        109 => Some(Reason::BadHead),
        110 => Some(Reason::Coded),
        _ => None,
    }
}

/// A code that says all.
fn code_alone(code: u32) -> Numbers
    ensures { result ≡ record { code = code; detail = 0; number = 0 } }
{
    Numbers {
        code,
        detail: 0,
        number: 0,
    }
}

/// The numbers of a fault.
fn fault_numbers(fault: Fault) -> Numbers
    ensures { result ≡ fault_numbers fault }
{
    let (code, detail) = kind_numbers(fault.kind);
    Numbers {
        code,
        detail,
        number: fault.offset,
    }
}

/// The numbers of a reason.
fn reason_numbers(reason: Reason) -> Numbers
    ensures { result ≡ reason_numbers reason }
{
    match reason {
        Reason::NotFound(unfound) => code_alone(unfound_code(unfound)),
        Reason::Segments(gap) => {
            let (detail, number) = gap_numbers(gap);
            Numbers {
                code: 107,
                detail,
                number,
            }
        }
        Reason::BadDigest => code_alone(108),
        Reason::BadHead => code_alone(109),
        Reason::Coded => code_alone(110),
    }
}

/// The problem with this code, by what else it says.
fn coded(numbers: Numbers) -> Option<Problem> {
    match numbers.code {
        1..=14 => kind_of(numbers.code, numbers.detail).map(|kind| Problem::Fault(kind.at(
            numbers.number,
        ))),
        101..=110 => reason_of(numbers.code, numbers.detail, numbers.number).map(Problem::Reason),
        201 => Some(Problem::NoRecord),
        202 => Some(Problem::NoCapture),
        203 => Some(Problem::Changed),
        204 => Some(Problem::Memory),
        205 => Some(Problem::BadDate),
        206 => Some(Problem::NotOpen),
        207 => Some(Problem::BadArgument),
        208 => Some(Problem::Write),
        301 => Some(Problem::Made(MakeFault::Date)),
        302 => Some(Problem::Made(MakeFault::Text)),
        303 => Some(Problem::Made(MakeFault::TooLong)),
        304 => Some(Problem::Made(MakeFault::Memory)),
        305 => Some(Problem::Made(MakeFault::Kind)),
        _ => None,
    }
}

/// Whether both are the same numbers.
fn are_same(a: Numbers, b: Numbers) -> bool
    ensures { OnTrue result (a ≡ b) }
{
    if a.code != b.code {
        return false;
    }
    if a.detail != b.detail {
        return false;
    }
    a.number == b.number
}

impl Problem {
    /// Its numbers.
    pub fn numbers(self) -> Numbers
        ensures { result ≡ problem_numbers self }
    {
        match self {
            Problem::Fault(fault) => fault_numbers(fault),
            Problem::Reason(reason) => reason_numbers(reason),
            Problem::NoRecord => code_alone(201),
            Problem::NoCapture => code_alone(202),
            Problem::Changed => code_alone(203),
            Problem::Memory => code_alone(204),
            Problem::BadDate => code_alone(205),
            Problem::NotOpen => code_alone(206),
            Problem::BadArgument => code_alone(207),
            Problem::Write => code_alone(208),
            Problem::Made(fault) => code_alone(made_code(fault)),
        }
    }

    /// The problem with these numbers, if there is one.
    pub fn of(numbers: Numbers) -> Option<Problem>
        ensures { IfSome result (λ problem. problem_numbers problem ≡ numbers) }
    {
        let problem = coded(numbers)?;
        if are_same(problem.numbers(), numbers) {
            Some(problem)
        } else {
            None
        }
    }

    /// Why no capture is found, or no origin.
    pub fn of_unfound(unfound: Unfound) -> Problem
        ensures { result ≡ Problem.Reason (Reason.NotFound unfound) }
    {
        Problem::Reason(Reason::NotFound(unfound))
    }

    /// Why a record isn't given.
    pub fn of_take(fault: TakeFault) -> Problem
        ensures { result ≡ problem_of_take fault }
    {
        match fault {
            TakeFault::NoRecord => Problem::NoRecord,
            TakeFault::Read => Problem::Changed,
            TakeFault::Memory => Problem::Memory,
        }
    }
}

impl From<OutFault> for Problem {
    ghost use Rattle.std.specs.Prelude.{◌≡◌};
    ghost use Rattle.warc_lent.specs.Problems.{problem_of_out};

    ghost from_gives = { λ fault problem. problem ≡ problem_of_out fault };

    /// Why an output that memory takes whole ends early.
    fn from(fault: OutFault) -> Problem {
        match fault {
            OutFault::Read(_) => Problem::Changed,
            OutFault::Write(_) | OutFault::Memory(_) => Problem::Memory,
        }
    }
}

impl From<ReplayFault> for Problem {
    ghost use Rattle.std.specs.Prelude.{◌≡◌};
    ghost use Rattle.warc_lent.specs.Problems.{problem_of_replay};

    ghost from_gives = { λ fault problem. problem ≡ problem_of_replay fault };

    /// Why a replay gives no body.
    fn from(fault: ReplayFault) -> Problem {
        match fault {
            ReplayFault::Reason(reason) => Problem::Reason(reason),
            ReplayFault::Out(fault) => Problem::from(fault),
        }
    }
}

impl From<BodyFault> for Problem {
    ghost use Rattle.std.specs.Prelude.{◌≡◌};
    ghost use Rattle.warc_lent.specs.Problems.{problem_of_body};

    ghost from_gives = { λ fault problem. problem ≡ problem_of_body fault };

    /// Why the record at a position gives no body.
    fn from(fault: BodyFault) -> Problem {
        match fault {
            BodyFault::NoRecord => Problem::NoRecord,
            BodyFault::NoCapture => Problem::NoCapture,
            BodyFault::Replay(fault) => Problem::from(fault),
        }
    }
}
