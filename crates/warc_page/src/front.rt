//! The rows of the good front of an archive.
ghost use Rattle.std.specs.Prelude.{◌≡◌, ◌≤◌, length, map, set};
ghost use Rattle.std.specs.List.{flat_map};
ghost use Rattle.warc_frame.specs.Count.{capped};
ghost use Rattle.warc_lent.specs.Buffers.{HoldsFront};
ghost use Rattle.warc_lent.specs.Rows.{row_numbers, row_texts};
ghost use Rattle.warc_page.specs.Shown.{EndsFront, PutsFront};

use crate::ends::{end_by, ended};
use crate::shapes::{DONE, PageFront, PageOutcome};
use std::alloc::Allocator;
use warc::{Listing, open_front};
use warc_frame::{Fault, SliceSource, Source};
use warc_heap::{Heap, Memory};
use warc_lent::{Problem, RowNumbers, put_row_texts, row_numbers};

/// Puts a row at an index, if there is room for it.
fn put_row(row: RowNumbers, index: usize, rows: &mut [RowNumbers])
    ensures { rows.new ≡ set rows.old index row }
{
    if index < rows.len() {
        rows[index] = row;
    }
}

/// Puts the rows as numbers into the page's buffer, as far as there is room.
fn put_rows<S: Source, A: Allocator>(listing: &Listing<S, A>, rows: &mut [RowNumbers])
    ensures { HoldsFront (map row_numbers listing.now.rows) rows.new }
{
    'putting: for position in 0..listing.count() {
        let Some(row) = listing.row(position) else {
            unreachable!()
        };
        put_row(row_numbers(&row), position, rows);
    }
}

/// Puts the texts of the rows into the page's buffer, as far as there is room, and returns their length.
fn put_texts<S: Source, A: Allocator>(listing: &Listing<S, A>, texts: &mut [u8]) -> usize
    ensures texts { HoldsFront (flat_map row_texts listing.now.rows) texts.new }
    ensures whole { result ≡ capped (length (flat_map row_texts listing.now.rows)) }
{
    let mut taken = 0;
    'putting: for row in listing.rows() {
        taken = put_row_texts(&row, taken, texts);
    }
    taken
}

/// Puts the text of the fault that follows, if one does, and says how the call ends.
fn put_fault<A: Allocator>(alloc: A, fault: Option<Fault>, text: &mut [u8]) -> PageOutcome
    ensures { EndsFront fault result.state result.length text.new }
{
    match fault {
        Some(fault) => end_by(alloc, Problem::Fault(fault), text),
        None => ended(DONE, 0),
    }
}

/// Puts what is kept of the records before the first fault of these bytes into the page's buffers: a row for each
/// record, and the texts of its type, date, id and target one after another. Says where these records end. Puts the
/// text of the fault that follows, if one does: the one by which the whole is refused.
#[unsafe(no_mangle)]
pub extern "C" fn page_front(
    memory: Memory,
    units: usize,
    bytes: &[u8],
    rows: &mut [RowNumbers],
    texts: &mut [u8],
    fault: &mut [u8],
    outcome: &mut PageFront,
)
    requires { memory.units ≡ units }
    ensures { PutsFront bytes.now rows.new texts.new fault.new outcome.new }
{
    let heap = Heap::new(memory, units);
    let (listing, stop) = open_front(&heap, SliceSource::new(bytes));
    put_rows(&listing, rows);
    let length = put_texts(&listing, texts);
    let outcome_of_fault = put_fault(&heap, stop, fault);
    *outcome = PageFront {
        records: listing.count() as u64,
        texts: length as u64,
        end: listing.end(),
        state: outcome_of_fault.state,
        length: outcome_of_fault.length,
    };
}
