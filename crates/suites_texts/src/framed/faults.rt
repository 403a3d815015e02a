//! Faults in words, and the lines of versions.

use std::alloc::{AllocError, Global};
use suites_script::Case;
use suites_texts_parsed::say_line;
use warc_frame::{FaultKind, Mandatory, OutFault, ReadFault, Version, WriteFault};
use warc_write::{MakeFault, SplitFault};

/// Every kind of a record's fault, but that other fields than `WARC-Date` stand more than once.
const KINDS: [FaultKind; 17] = [
    FaultKind::Version,
    FaultKind::HeadTooLong,
    FaultKind::Field,
    FaultKind::Missing(Mandatory::ContentLength),
    FaultKind::Missing(Mandatory::Type),
    FaultKind::Missing(Mandatory::RecordId),
    FaultKind::Missing(Mandatory::Date),
    FaultKind::Repeated(Mandatory::Date),
    FaultKind::Length,
    FaultKind::BadType,
    FaultKind::Id,
    FaultKind::Date,
    FaultKind::End,
    FaultKind::Truncated,
    FaultKind::TooLong,
    FaultKind::Read,
    FaultKind::Memory,
];

const MAKE_FAULTS: [MakeFault; 5] = [
    MakeFault::Date,
    MakeFault::Text,
    MakeFault::TooLong,
    MakeFault::Memory,
    MakeFault::Kind,
];

const SPLIT_FAULTS: [SplitFault; 7] = [
    SplitFault::NotUuid,
    SplitFault::AlreadySegmented,
    SplitFault::Kind,
    SplitFault::Size,
    SplitFault::Memory,
    SplitFault::TooLong,
    SplitFault::BadDigest,
];

/// Adds each fault of records, at the offset that is the word at its place.
fn say_faults(alloc: Global, case: &Case<'_>, answer: &mut Vec<u8>) -> Result<(), AllocError> {
    for (place, kind) in KINDS.iter().enumerate() {
        say_line(
            alloc,
            answer,
            &kind.at(case.number(place.saturating_add(1))),
        )?;
    }
    Ok(())
}

/// Adds each fault of what is given, after as many bytes as its word says.
fn say_out_faults(alloc: Global, case: &Case<'_>, answer: &mut Vec<u8>) -> Result<(), AllocError> {
    say_line(alloc, answer, &OutFault::Read(case.number(1)))?;
    say_line(alloc, answer, &OutFault::Write(case.number(2)))?;
    say_line(alloc, answer, &OutFault::Memory(case.number(3)))
}

/// Adds the faults of devices.
fn say_device_faults(alloc: Global, answer: &mut Vec<u8>) -> Result<(), AllocError> {
    say_line(alloc, answer, &ReadFault)?;
    say_line(alloc, answer, &WriteFault)
}

/// Adds each fault of records that are made.
fn say_make_faults(alloc: Global, answer: &mut Vec<u8>) -> Result<(), AllocError> {
    for fault in &MAKE_FAULTS {
        say_line(alloc, answer, fault)?;
    }
    Ok(())
}

/// Adds each fault of records that are split.
fn say_split_faults(alloc: Global, answer: &mut Vec<u8>) -> Result<(), AllocError> {
    for fault in &SPLIT_FAULTS {
        say_line(alloc, answer, fault)?;
    }
    Ok(())
}

/// Adds the lines of both versions.
fn say_versions(answer: &mut Vec<u8>) -> Result<(), AllocError> {
    answer.extend_from_slice(Version::V1_0.line())?;
    answer.extend_from_slice(Version::V1_1.line())
}

/// Answers a case of faults or versions.
pub(crate) fn answer(
    alloc: Global,
    case: &Case<'_>,
    answer: &mut Vec<u8>,
) -> Result<bool, AllocError> {
    let reported = match case.text(0) {
        "faults" => say_faults(alloc, case, answer),
        "faults-of-output" => say_out_faults(alloc, case, answer),
        "faults-of-devices" => say_device_faults(alloc, answer),
        "faults-of-making" => say_make_faults(alloc, answer),
        "faults-of-splitting" => say_split_faults(alloc, answer),
        "versions" => say_versions(answer),
        _ => return Ok(false),
    };
    reported?;
    Ok(true)
}
