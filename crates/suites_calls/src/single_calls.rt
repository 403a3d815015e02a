//! One call of an archive or of a listing, by the words of a case: what it answers, as text.

use crate::calls::{captured, checked, extracted, replayed};
use crate::places::{add_head, add_located, add_located_for, add_outcome};
use crate::replays::Asked;
use crate::text::{add_check, add_done, add_extract, add_line, add_replay, add_text};
use std::alloc::{AllocError, Allocator, Global};
use suites_script::Case;
use warc::{Archive, BodyFault, Form, Listing, StoredAt, TakeFault, Verdict};
use warc_frame::{Framed, Sink, Source};

/// Adds the version of a record, how many fields it has, and its block.
fn add_taken<A: Allocator + Copy>(
    alloc: Global,
    text: &mut Vec<u8>,
    taken: Result<Framed<A>, TakeFault>,
) -> Result<(), AllocError> {
    match taken {
        Ok(record) => {
            let line = format!(in alloc; "{} {} ", record.version(), record.fields().len())?;
            text.extend_from_slice(line.as_bytes())?;
            add_line(text, record.block())
        }
        Err(fault) => add_text(alloc, text, &fault),
    }
}

/// Adds how the block of a record compares with its digest.
fn add_verdict(
    alloc: Global,
    text: &mut Vec<u8>,
    reported: Result<Verdict, TakeFault>,
) -> Result<(), AllocError> {
    match reported {
        Ok(Verdict::Good) => add_line(text, b"good"),
        Ok(Verdict::Bad) => add_line(text, b"bad"),
        Ok(Verdict::Unchecked) => add_line(text, b"unchecked"),
        Err(fault) => add_text(alloc, text, &fault),
    }
}

/// Adds which record a capture leads to, and how many bytes are stored there.
fn add_stored<A: Allocator>(
    alloc: Global,
    text: &mut Vec<u8>,
    reported: Result<StoredAt<A>, BodyFault>,
) -> Result<(), AllocError> {
    match reported {
        Ok(it) => {
            let (chosen, given, length) = (it.path.chosen, it.path.given, it.stored.length);
            let line = format!(in alloc; "chosen {chosen} given {given} length {length}\n")?;
            text.extend_from_slice(line.as_bytes())
        }
        Err(fault) => add_text(alloc, text, &fault),
    }
}

/// What a replay of an archive answers, for the target and the date that the words from the fourth on name.
fn add_replayed<S: Source, A: Allocator + Copy, W: Sink>(
    alloc: Global,
    archive: &mut Archive<S, A>,
    case: &Case<'_>,
    out: &mut W,
    text: &mut Vec<u8>,
) -> Result<(), AllocError> {
    match Asked::of(alloc, case, 3)? {
        Some(asked) => {
            let reported = replayed(archive, &asked.uri, &asked.moment, out);
            add_replay(alloc, text, reported)
        }
        None => add_line(text, b"bad date"),
    }
}

/// Adds what a capture of an archive gives, by the call that the third word of a case names.
fn add_capture<S: Source, A: Allocator + Copy, W: Sink>(
    alloc: Global,
    archive: &mut Archive<S, A>,
    case: &Case<'_>,
    out: &mut W,
    text: &mut Vec<u8>,
) -> Result<(), AllocError> {
    match case.text(2) {
        "body" => {
            let reported = archive.replay_at(case.number(3) as usize, out);
            add_replay(alloc, text, reported)
        }
        "stored" => {
            let reported = archive.stored_to(case.number(3) as usize, out);
            add_stored(alloc, text, reported)
        }
        "located" => {
            let reported = archive.locate_at(case.number(3) as usize);
            add_located(alloc, text, reported)
        }
        "outcome" => {
            let reported = archive.outcome_at(case.number(3) as usize);
            add_outcome(alloc, text, reported)
        }
        _ => add_line(text, b"no such call"),
    }
}

/// What an archive answers to the call that the third word of a case names.
pub(crate) fn ask_archive<S: Source, A: Allocator + Copy, W: Sink>(
    alloc: Global,
    archive: &mut Archive<S, A>,
    case: &Case<'_>,
    out: &mut W,
) -> Result<Vec<u8>, AllocError> {
    let mut text = Vec::new(alloc);
    match case.text(2) {
        "list" => add_done(alloc, &mut text, archive.list(out))?,
        "check" => add_check(alloc, &mut text, checked(archive, out))?,
        "captures" => add_done(alloc, &mut text, captured(archive, out))?,
        "replay" => add_replayed(alloc, archive, case, out, &mut text)?,
        "extract" => {
            let reported = extracted(archive, case.word(3), out);
            add_extract(alloc, &mut text, reported)?;
        }
        "locate" => add_located_for(alloc, archive, case, &mut text)?,
        "record" => {
            let taken = archive.record(case.number(3) as usize);
            add_taken(alloc, &mut text, taken)?;
        }
        "verdict" => {
            let reported = archive.verdict(case.number(3) as usize);
            add_verdict(alloc, &mut text, reported)?;
        }
        _ => add_capture(alloc, archive, case, out, &mut text)?,
    }
    Ok(text)
}

/// What a listing answers to the call that the third word of a case names.
pub(crate) fn ask_listing<S: Source, A: Allocator + Copy, W: Sink>(
    alloc: Global,
    listing: &mut Listing<S, A>,
    case: &Case<'_>,
    out: &mut W,
) -> Result<Vec<u8>, AllocError> {
    let mut text = Vec::new(alloc);
    match case.text(2) {
        "list" => add_done(alloc, &mut text, listing.list(out))?,
        "check" => add_check(alloc, &mut text, listing.check(out))?,
        "rewrite" => add_done(alloc, &mut text, listing.write_as(Form::Canonical, out))?,
        "convert" => add_done(alloc, &mut text, listing.write_as(Form::Converted, out))?,
        "split" => add_done(alloc, &mut text, listing.split(case.number(3), out))?,
        "head" => {
            let reported = listing.head_to(case.number(3) as usize, out);
            add_extract(alloc, &mut text, reported)?;
        }
        "block" => {
            let reported = listing.block_to(case.number(3) as usize, out);
            add_extract(alloc, &mut text, reported)?;
        }
        "heading" => {
            let reported = listing.head(case.number(3) as usize);
            add_head(alloc, &mut text, reported)?;
        }
        "record" => {
            let taken = listing.record(case.number(3) as usize);
            add_taken(alloc, &mut text, taken)?;
        }
        "verdict" => {
            let reported = listing.verdict(case.number(3) as usize);
            add_verdict(alloc, &mut text, reported)?;
        }
        _ => add_line(&mut text, b"no such call")?,
    }
    Ok(text)
}
