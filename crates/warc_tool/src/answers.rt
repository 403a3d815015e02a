//! Lines for people about an answer. Each takes one more reading of the archive.

use std::io;
use std::str::FromStr;
use warc::{Archive, Listing};
use warc_arguments::{Command, Request, bytes_of};
use warc_host::{Host, HostFile};

/// The field whose text says whether two records have one payload.
const PAYLOAD_DIGEST: &[u8] = b"WARC-Payload-Digest";

/// Writes a line if there is more to say of what a run reported on standard error: the date of the earliest capture
/// after `P2`, and that the digests differ after a body was given of another record than the chosen one.
pub fn hint_answer(host: &Host<'_>, request: &Request<'_>, report: &[u8]) -> io::Result<()> {
    let Some(path) = request.path else {
        return Ok(());
    };
    if report.starts_with(b"warc: P2 ") {
        return match (uri_of(host.rt, &request.command), reopened(host, path)) {
            (Some(uri), Some(file)) => hint_earliest(host, file, uri.as_slice()),
            _ => Ok(()),
        };
    }
    match positions_of(report) {
        Some((chosen, given)) if chosen != given => match reopened(host, path) {
            Some(file) => hint_digests(host, file, chosen, given),
            None => Ok(()),
        },
        _ => Ok(()),
    }
}

/// The archive again, if it is a file.
fn reopened<'a>(host: &Host<'a>, path: &str) -> Option<HostFile<'a>> {
    match path {
        "-" | "/dev/stdin" => host.redirected(),
        _ => host.open(path).ok(),
    }
}

/// The URI that a replay asks for.
fn uri_of(rt: &HostRuntime, command: &Command<'_>) -> Option<Vec<u8>> {
    match command {
        Command::Replay {
            uri,
            in_hex: true,
            ..
        } => bytes_of(rt.alloc(), uri).ok(),
        Command::Replay {
            uri,
            in_hex: false,
            ..
        } => {
            let mut bytes = Vec::new(rt.alloc());
            bytes.extend_from_slice(uri.as_bytes()).ok()?;
            Some(bytes)
        }
        _ => None,
    }
}

/// The positions of the chosen record and of the one whose body was given, from the line that says so.
fn positions_of(report: &[u8]) -> Option<(usize, usize)> {
    let rest = str::from_utf8(report).ok()?.strip_prefix("chosen ")?;
    let (chosen, rest) = rest.split_once(" given ")?;
    let (given, _) = rest.split_once(" ")?;
    Some((usize::from_str(chosen).ok()?, usize::from_str(given).ok()?))
}

/// Writes the date of the earliest capture of a URI, if the file is an archive that has one.
fn hint_earliest(host: &Host<'_>, file: HostFile<'_>, uri: &[u8]) -> io::Result<()> {
    match Archive::open(host.rt.alloc(), file) {
        Ok(archive) => {
            let written = write_earliest(host, &archive, uri);
            // The parts of an archive are let go in one place: each exit that drops them is proved anew.
            let _file = archive.into_source();
            written
        }
        Err(_) => Ok(()),
    }
}

/// Writes the date of the earliest capture of a URI.
fn write_earliest(host: &Host<'_>, archive: &Archive<HostFile<'_>>, uri: &[u8]) -> io::Result<()> {
    let Ok(positions) = archive.captures_of(uri) else {
        return Ok(());
    };
    match positions.first() {
        Some(first) => match archive.row(*first) {
            Some(row) => {
                let date = str::from_utf8(row.date).unwrap_or("-");
                host.progress.erase();
                eprintln!(host.rt; "the earliest capture of this URI is of {date}")
            }
            None => Ok(()),
        },
        None => Ok(()),
    }
}

/// Writes that two records of a file state different payload digests, if both state one.
fn hint_digests(
    host: &Host<'_>,
    file: HostFile<'_>,
    chosen: usize,
    given: usize,
) -> io::Result<()> {
    match Listing::open(host.rt.alloc(), file) {
        Ok(mut listing) => {
            let written = compare_digests(host, &mut listing, chosen, given);
            let _file = listing.into_source();
            written
        }
        Err(_) => Ok(()),
    }
}

/// Writes that two records state different payload digests, if both state one.
fn compare_digests(
    host: &Host<'_>,
    listing: &mut Listing<HostFile<'_>>,
    chosen: usize,
    given: usize,
) -> io::Result<()> {
    let (Ok(first), Ok(second)) = (listing.head(chosen), listing.head(given)) else {
        return Ok(());
    };
    match (
        first.fields.first(PAYLOAD_DIGEST),
        second.fields.first(PAYLOAD_DIGEST),
    ) {
        (Some(one), Some(other)) if one.bytes() != other.bytes() => {
            host.progress.erase();
            eprintln!(host.rt;
                "record {chosen} states another payload digest than record {given}, whose body was given"
            )
        }
        _ => Ok(()),
    }
}
