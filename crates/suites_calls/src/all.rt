//! All that an archive answers, as one text.

use crate::calls::{checked, extracted, listed, replayed};
use crate::text::{add_check, add_done, add_extract, add_line, add_number, add_replay};
use std::alloc::{AllocError, Allocator, Global};
use warc::{Archive, Listing};
use warc_frame::{MemSink, Source};
use warc_value::{Moment, read_date};

/// The last year that a date can name.
const LAST: &[u8] = b"9999";

/// The id and the target of a record.
#[derive(Drop)]
struct Names {
    id: Vec<u8>,
    target: Vec<u8>,
}

/// The id and the target of the record of an archive at a position, or of no bytes if there is no such record.
fn names_of<S: Source, A: Allocator + Copy>(
    alloc: Global,
    archive: &Archive<S, A>,
    position: usize,
) -> Result<Names, AllocError> {
    match archive.row(position) {
        Some(row) => Ok(Names {
            id: row.id.to_vec(alloc)?,
            target: row.target.to_vec(alloc)?,
        }),
        None => Ok(Names {
            id: Vec::new(alloc),
            target: Vec::new(alloc),
        }),
    }
}

/// Adds what an archive extracts for an id.
fn add_extracted<S: Source, A: Allocator + Copy>(
    alloc: Global,
    archive: &mut Archive<S, A>,
    id: &[u8],
    text: &mut Vec<u8>,
) -> Result<(), AllocError> {
    let mut out = MemSink::new(Vec::new(alloc));
    let reported = extracted(archive, id, &mut out);
    add_extract(alloc, text, reported)?;
    add_line(text, out.bytes())
}

/// Adds what an archive replays for a target as of a moment.
fn add_replayed<S: Source, A: Allocator + Copy>(
    alloc: Global,
    archive: &mut Archive<S, A>,
    (target, moment): (&[u8], &Moment),
    text: &mut Vec<u8>,
) -> Result<(), AllocError> {
    let mut out = MemSink::new(Vec::new(alloc));
    let reported = replayed(archive, target, moment, &mut out);
    add_replay(alloc, text, reported)?;
    add_line(text, out.bytes())
}

/// Adds what a check of an archive answers and writes.
fn add_checked<S: Source, A: Allocator + Copy>(
    alloc: Global,
    archive: &mut Archive<S, A>,
    text: &mut Vec<u8>,
) -> Result<(), AllocError> {
    let mut out = MemSink::new(Vec::new(alloc));
    let reported = checked(archive, &mut out);
    add_check(alloc, text, reported)?;
    add_line(text, out.bytes())
}

/// Adds what an archive extracts and replays for the id and the target of each of its records.
fn add_bodies<S: Source, A: Allocator + Copy>(
    alloc: Global,
    archive: &mut Archive<S, A>,
    moment: &Moment,
    text: &mut Vec<u8>,
) -> Result<(), AllocError> {
    for position in 0..archive.count() {
        let Names { id, target } = names_of(alloc, archive, position)?;
        add_extracted(alloc, archive, &id, text)?;
        add_replayed(alloc, archive, (&target, moment), text)?;
    }
    Ok(())
}

/// All that an archive answers: how many records it has and how many bytes it keeps of them, what it lists, what a
/// check of it says, and what it extracts and replays, as of the last year, for the id and the target of each record.
pub(crate) fn all_of<S: Source, A: Allocator + Copy>(
    alloc: Global,
    archive: &mut Archive<S, A>,
) -> Result<Vec<u8>, AllocError> {
    let mut text = Vec::new(alloc);
    add_number(alloc, &mut text, "records", archive.count() as u64)?;
    add_number(alloc, &mut text, "kept", archive.kept())?;
    text.extend_from_slice(&listed(alloc, archive)?)?;
    add_checked(alloc, archive, &mut text)?;
    if let Some(moment) = read_date(LAST) {
        add_bodies(alloc, archive, &moment, &mut text)?;
    }
    Ok(text)
}

/// All that a listing answers: how many records it has, what it lists, and what a check of it says.
pub(crate) fn all_of_listing<S: Source, A: Allocator + Copy>(
    alloc: Global,
    listing: &mut Listing<S, A>,
) -> Result<Vec<u8>, AllocError> {
    let mut text = Vec::new(alloc);
    let mut out = MemSink::new(Vec::new(alloc));
    add_number(alloc, &mut text, "records", listing.count() as u64)?;
    add_done(alloc, &mut text, listing.list(&mut out))?;
    add_check(alloc, &mut text, listing.check(&mut out))?;
    add_line(&mut text, out.bytes())?;
    Ok(text)
}
