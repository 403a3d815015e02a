//! Rows of an archive, and a page as of a date.

use std::alloc::Global;
use std::io;
use warc::{Archive, MemSink, MemSource, Moment, ReplayFault};

/// Prints the offset and the target of each record.
pub fn print_rows(rt: &HostRuntime, archive: &Archive<MemSource>) -> io::Result<()> {
    for row in archive.rows() {
        let target = str::from_utf8(row.target).unwrap_or("-");
        println!(rt; "{} {target}", row.offset)?;
    }
    Ok(())
}

/// The body of the latest capture of a URI that isn't later than a moment, or why there is none.
pub fn body(
    alloc: Global,
    archive: &mut Archive<MemSource>,
    uri: &[u8],
    moment: &Moment,
) -> Result<Vec<u8>, ReplayFault> {
    let mut body = MemSink::new(Vec::new(alloc));
    archive.replay(uri, moment, &mut body)?;
    Ok(body.into_inner())
}
