//! Prints where each record of an archive begins, and its target: a whole program that uses the library.
#![tactic(auto)]

use std::fs::File;
use std::io;
use warc::{FileSource, Listing};

fn main(rt: HostRuntime) -> io::Result<()> {
    let file = File::open(&rt, "abc.warc")?;
    let listing = match Listing::open(rt.alloc(), FileSource::new(file)) {
        Ok(listing) => listing,
        Err((fault, _)) => return println!(rt; "refused: {fault}"),
    };
    for row in listing.rows() {
        let target = str::from_utf8(row.target).unwrap_or("-");
        println!(rt; "{} {target}", row.offset)?;
    }
    Ok(())
}
