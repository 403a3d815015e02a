//! Prints the page that an archive holds of a URI, by a function whose contract says that it is the page.
#![tactic(auto)]

mod page;

use std::{fs, io};
use warc::{Archive, MemSource, Moment, read_date};

/// The URI of the page.
const PAGE: &[u8] = b"http://a.example/x";

/// Prints the page of an archive as of a moment, or why there is none.
fn report_page(rt: &HostRuntime, bytes: Vec<u8>, moment: &Moment) -> io::Result<()> {
    match page::page(rt.alloc(), bytes, PAGE, moment) {
        Ok(page) => println!(rt; "{}", str::from_utf8(&page).unwrap_or("not UTF-8")),
        Err(why) => println!(rt; "no page: {why}"),
    }
}

/// Prints what `report_page` prints, as of the first instant of a date.
fn report_as_of(rt: &HostRuntime, bytes: Vec<u8>, date: &[u8]) -> io::Result<()> {
    match read_date(date) {
        Some(moment) => report_page(rt, bytes, &moment),
        None => println!(rt; "no date"),
    }
}

/// Prints the page that an archive gives after a growth that is refused, as where a record isn't whole yet.
fn report_refused(
    rt: &HostRuntime,
    archive: &mut Archive<MemSource>,
    longer: Vec<u8>,
    moment: &Moment,
) -> io::Result<()> {
    let source = MemSource::new(longer, usize::MAX);
    match page::page_if_refused(rt.alloc(), archive, source, PAGE, moment) {
        Some(Ok(page)) => println!(rt;
            "as before: {}",
            str::from_utf8(&page).unwrap_or("not UTF-8")
        ),
        Some(Err(why)) => println!(rt; "no page: {why}"),
        None => println!(rt; "grown"),
    }
}

/// Prints what `report_refused` prints, for the bytes of an archive.
fn report_grown(
    rt: &HostRuntime,
    bytes: Vec<u8>,
    longer: Vec<u8>,
    moment: &Moment,
) -> io::Result<()> {
    let mut archive = match page::opened(rt.alloc(), bytes) {
        Ok(archive) => archive,
        Err(fault) => return println!(rt; "no archive: {fault}"),
    };
    let reported = report_refused(rt, &mut archive, longer, moment);
    archive.into_source();
    reported
}

/// Prints what `report_grown` prints, for a file that grows by the front of another record.
fn report_torn(rt: &HostRuntime, moment: &Moment) -> io::Result<()> {
    let bytes = fs::read(rt, "described.warc")?;
    let mut longer = bytes.clone()?;
    longer.extend_from_slice(b"WARC/1.1\r\n")?;
    report_grown(rt, bytes, longer, moment)
}

/// Prints what `report_torn` prints, as of the first instant of a date.
fn report_torn_as_of(rt: &HostRuntime, date: &[u8]) -> io::Result<()> {
    match read_date(date) {
        Some(moment) => report_torn(rt, &moment),
        None => println!(rt; "no date"),
    }
}

fn main(rt: HostRuntime) -> io::Result<()> {
    report_as_of(&rt, fs::read(&rt, "described.warc")?, b"2021")?;
    report_as_of(&rt, fs::read(&rt, "described.warc")?, b"2019")?;
    report_as_of(&rt, fs::read(&rt, "torn.warc")?, b"2021")?;
    report_torn_as_of(&rt, b"2021")
}
