//! What README.md and docs/LIBRARY.md show of the library, over small archives.
#![tactic(auto)]

mod description;
mod growth;
mod migration;
mod opened;
mod pieces;
mod replays;
mod round_trip;
mod share;

use round_trip::Plan;
use std::alloc::Global;
use std::{fs, io};
use warc::{Archive, MemSource, Moment, read_date};
use warc_record::Kind;

/// Prints how many records an archive has, what is listed and found, or why it isn't described.
fn report_described(rt: &HostRuntime, bytes: Vec<u8>) -> io::Result<()> {
    match description::describe(rt.alloc(), bytes) {
        Ok((count, lines, findings)) => {
            println!(rt; "records: {count}")?;
            print!(rt; "{}", str::from_utf8(&lines).unwrap_or(""))?;
            print!(rt; "{}", str::from_utf8(&findings).unwrap_or(""))
        }
        Err(error) => println!(rt; "not described: {error}"),
    }
}

/// Prints how many bytes the blocks of an archive have that comes in two pieces.
fn report_in_pieces(rt: &HostRuntime, bytes: &[u8]) -> io::Result<()> {
    let (front, back) = bytes.split_at(bytes.len() / 2);
    match pieces::block_bytes(rt.alloc(), &[front, back]) {
        Ok(count) => println!(rt; "bytes of blocks: {count}"),
        Err(fault) => println!(rt; "not counted: {fault}"),
    }
}

/// Prints the lengths of the second block before an archive grows by it and after.
fn report_grown(rt: &HostRuntime, early: Vec<u8>, late: Vec<u8>) -> io::Result<()> {
    let id = b"urn:uuid:00000000-0000-4000-8000-000000000002";
    match growth::lengths_of(rt.alloc(), early, late, id) {
        Ok((before, after)) => println!(rt; "length before: {before:?}, after: {after:?}"),
        Err(fault) => println!(rt; "not grown: {fault}"),
    }
}

/// Prints the rows of an archive, and how long the body of a page is as of a moment.
fn report_replayed(
    rt: &HostRuntime,
    archive: &mut Archive<MemSource>,
    moment: &Moment,
) -> io::Result<()> {
    replays::print_rows(rt, archive)?;
    match replays::body(rt.alloc(), archive, b"http://a.example/x", moment) {
        Ok(body) => println!(rt; "bytes of the body: {}", body.len()),
        Err(fault) => println!(rt; "no body: {fault}"),
    }
}

/// Prints what `report_replayed` prints, for the bytes of an archive, or why they are refused.
fn report_page(rt: &HostRuntime, bytes: Vec<u8>, moment: &Moment) -> io::Result<()> {
    let mut archive = match Archive::open(rt.alloc(), MemSource::new(bytes, usize::MAX)) {
        Ok(archive) => archive,
        Err((fault, _)) => return println!(rt; "refused: {fault}"),
    };
    let reported = report_replayed(rt, &mut archive, moment);
    archive.into_source();
    reported
}

/// Prints what `report_page` prints, as of the first instant of a date.
fn report_as_of(rt: &HostRuntime, bytes: Vec<u8>, date: &[u8]) -> io::Result<()> {
    match read_date(date) {
        Some(moment) => report_page(rt, bytes, &moment),
        None => println!(rt; "no date"),
    }
}

/// Prints how many records an archive has once it is moved to WARC 1.1.
fn report_moved(rt: &HostRuntime, bytes: Vec<u8>) -> io::Result<()> {
    match migration::migrate(rt.alloc(), MemSource::new(bytes, usize::MAX)) {
        Ok(archive) => {
            let count = archive.count();
            archive.into_source();
            println!(rt; "records of WARC 1.1: {count}")
        }
        Err(fault) => println!(rt; "not moved: {fault:?}"),
    }
}

/// Prints how many records come back that are made, written and opened.
fn report_returned(rt: &HostRuntime) -> io::Result<()> {
    let plans = [Plan {
        kind: Kind::named(b"resource"),
        uri: b"http://a.example/x",
        date: b"2020",
        uuid: b"00000000-0000-4000-8000-000000000001",
        content_type: b"text/plain",
        block: b"abc",
    }];
    match round_trip::round_trip(rt.alloc(), &plans) {
        Ok(records) => println!(rt; "records that came back: {}", records.len()),
        Err(fault) => println!(rt; "none came back: {fault:?}"),
    }
}

/// The last record of an archive with all that it needs; nothing of an archive that has none.
fn share_last(
    alloc: Global,
    archive: &mut Archive<MemSource>,
) -> Result<Archive<MemSource>, share::ShareFault> {
    match archive.count().checked_sub(1) {
        Some(last) => share::share(alloc, archive, &[last]),
        None => share::share(alloc, archive, &[]),
    }
}

/// Prints how many records an archive has of the last record of another and of all that it needs.
fn report_shared(rt: &HostRuntime, bytes: Vec<u8>) -> io::Result<()> {
    let mut archive = match Archive::open(rt.alloc(), MemSource::new(bytes, usize::MAX)) {
        Ok(archive) => archive,
        Err((fault, _)) => return println!(rt; "refused: {fault}"),
    };
    let shared = share_last(rt.alloc(), &mut archive);
    archive.into_source();
    match shared {
        Ok(shared) => {
            let count = shared.count();
            shared.into_source();
            println!(rt; "records with all that they need: {count}")
        }
        Err(fault) => println!(rt; "not shared: {fault:?}"),
    }
}

fn main(rt: HostRuntime) -> io::Result<()> {
    report_described(&rt, fs::read(&rt, "described.warc")?)?;
    report_in_pieces(&rt, &fs::read(&rt, "late.warc")?)?;
    report_in_pieces(&rt, &fs::read(&rt, "torn.warc")?)?;
    report_grown(
        &rt,
        fs::read(&rt, "early.warc")?,
        fs::read(&rt, "late.warc")?,
    )?;
    report_as_of(&rt, fs::read(&rt, "described.warc")?, b"2021")?;
    report_as_of(&rt, fs::read(&rt, "described.warc")?, b"2019")?;
    report_moved(&rt, fs::read(&rt, "old.warc")?)?;
    report_returned(&rt)?;
    report_shared(&rt, fs::read(&rt, "revisit.warc")?)
}
