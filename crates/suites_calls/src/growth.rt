//! Growth in which each read or each request for memory fails in turn, and the same growth after it, in which none
//! does.

use crate::sources::{broken, joined, source_of};
use crate::subjects::Subject;
use crate::wanted::{Wanted, answers};
use std::alloc::{AllocError, Allocator, Global};
use suites_script::Case;
use warc_frame::{Fault, FaultKind, MemSource, Source};
use warc_vectors::{BrokenSource, Heap, RefusingAllocator};

/// More failures than any case has.
const MOST: u64 = 5000;

/// Why an archive or a listing didn't grow, if it didn't; whether it answered then as before; and whether it answers as
/// the longer one now.
#[derive(Clone, Copy)]
struct Outcome {
    fault: Option<Fault>,
    is_left: bool,
    is_grown: bool,
}

impl Outcome {
    /// Whether it grew at once.
    fn is_done(self) -> bool {
        self.fault.is_none() && self.is_grown
    }

    /// Whether it failed with this fault, was left as it was, and grew then.
    fn is_failed(self, fault: Fault) -> bool {
        self.fault == Some(fault) && self.is_left && self.is_grown
    }
}

/// What comes of growth that was tried. Where it failed it is made again, by the source that came back.
fn outcome_of<S: Source + Drop, A: Allocator + Copy>(
    alloc: Global,
    subject: &mut Subject<S, A>,
    reported: Result<(), (Fault, S)>,
    wanted: &Wanted,
) -> Result<Outcome, AllocError> {
    match reported {
        Ok(()) => {
            // A request that is to be refused may come with the first answers.
            let is_grown = answers(alloc, subject, &wanted.after)?;
            Ok(Outcome {
                fault: None,
                is_left: false,
                is_grown: is_grown || answers(alloc, subject, &wanted.after)?,
            })
        }
        Err((fault, source)) => {
            let is_left = answers(alloc, subject, &wanted.before);
            subject.refused(source);
            Ok(Outcome {
                fault: Some(fault),
                is_left: is_left?,
                is_grown: answers(alloc, subject, &wanted.after)?,
            })
        }
    }
}

/// What a case lets grow: an archive, or a listing by its name; its bytes, and the longer ones.
#[derive(Clone, Copy)]
struct Growth<'a> {
    name: &'a str,
    bytes: &'a [u8],
    longer: &'a [u8],
}

/// What comes of growth to bytes that are read one at a time, of which the read of a number fails.
fn grown_unread(
    alloc: Global,
    subject: &mut Subject<BrokenSource, Global>,
    longer: &[u8],
    number: u64,
    wanted: &Wanted,
) -> Result<Outcome, AllocError> {
    let reported = subject.grow(broken(alloc, longer, 1, number)?);
    outcome_of(alloc, subject, reported, wanted)
}

/// What `grown_unread` gives for what a case lets grow, once it is opened; `None` if it doesn't open.
fn unread(
    alloc: Global,
    growth: Growth<'_>,
    number: u64,
    wanted: &Wanted,
) -> Result<Option<Outcome>, AllocError> {
    match Subject::open(growth.name, alloc, broken(alloc, growth.bytes, 1, 0)?) {
        Ok(mut subject) => {
            let outcome = grown_unread(alloc, &mut subject, growth.longer, number, wanted);
            subject.close();
            Ok(Some(outcome?))
        }
        Err(_) => Ok(None),
    }
}

/// The offset after the last read that fails in turn, from the offset of the first one, until none fails. Nothing if
/// something else comes.
fn last_unread(
    alloc: Global,
    growth: Growth<'_>,
    wanted: &Wanted,
) -> Result<Option<u64>, AllocError> {
    let mut at = growth.bytes.len() as u64;
    for number in 1..MOST {
        match unread(alloc, growth, number, wanted)? {
            Some(it) if it.is_done() => return Ok(Some(at)),
            Some(it) if it.is_failed(FaultKind::Read.at(at)) => at = at.saturating_add(1),
            _ => return Ok(None),
        }
    }
    Ok(None)
}

/// Adds how many reads fail in turn until none does. Each is reported at its offset, and what the second word of the
/// case names answers as before then, and as the longer one once it has grown.
pub(crate) fn add_unread_growth(
    alloc: Global,
    case: &Case<'_>,
    archive: &[u8],
    answer: &mut Vec<u8>,
) -> Result<(), AllocError> {
    let longer = joined(alloc, archive, case.given())?;
    let growth = Growth {
        name: case.text(1),
        bytes: archive,
        longer: &longer,
    };
    let wanted = Wanted::of(alloc, growth.name, archive, &longer)?;
    match last_unread(alloc, growth, &wanted)? {
        Some(end) => {
            let (first, last) = (archive.len(), end.saturating_sub(1));
            let line = format!(in alloc;
                "F13 Read at each offset from {first} to {last}, and grown then\n"
            )?;
            answer.extend_from_slice(line.as_bytes())
        }
        None => answer.extend_from_slice(b"another outcome\n"),
    }
}

/// What comes of a request for memory that is to be refused.
#[derive(Clone, Copy)]
enum Request {
    /// It came while the archive or the listing was opened.
    Opening,

    /// It came while it grew.
    Growing,

    /// It came later, or never.
    Unmet,
    Otherwise,
}

/// What comes of growth where a request is refused or none, at the old end.
fn request_of(outcome: Outcome, has_refused: bool, end: usize) -> Request {
    let fault = FaultKind::Memory.at(end as u64);
    if has_refused && outcome.is_failed(fault) {
        Request::Growing
    } else if !has_refused && outcome.is_done() {
        Request::Unmet
    } else {
        Request::Otherwise
    }
}

/// What comes of the growth of something whose memory refuses a request.
fn grown_unkept(
    alloc: Global,
    heap: Heap<'_>,
    subject: &mut Subject<MemSource, Heap<'_>>,
    growth: Growth<'_>,
    wanted: &Wanted,
) -> Result<Request, AllocError> {
    let reported = subject.grow(source_of(alloc, growth.longer, usize::MAX)?);
    let has_refused = heap.has_refused();
    let outcome = outcome_of(alloc, subject, reported, wanted)?;
    Ok(request_of(outcome, has_refused, growth.bytes.len()))
}

/// What `grown_unkept` gives for what a case lets grow, opened with a memory that refuses the request of a number.
fn unkept(
    alloc: Global,
    growth: Growth<'_>,
    number: u64,
    wanted: &Wanted,
) -> Result<Request, AllocError> {
    let heap = RefusingAllocator::new(alloc, number);
    let source = source_of(alloc, growth.bytes, usize::MAX)?;
    match Subject::open(growth.name, &heap, source) {
        Ok(mut subject) => {
            let reported = grown_unkept(alloc, &heap, &mut subject, growth, wanted);
            subject.close();
            reported
        }
        Err(fault) if fault.kind == FaultKind::Memory => Ok(Request::Opening),
        Err(_) => Ok(Request::Otherwise),
    }
}

/// How many requests are refused in turn while something grows, until none is. Nothing where something else comes.
fn count_unkept(
    alloc: Global,
    growth: Growth<'_>,
    wanted: &Wanted,
) -> Result<Option<u64>, AllocError> {
    let mut count = 0u64;
    for number in 1..MOST {
        match unkept(alloc, growth, number, wanted)? {
            Request::Opening if count == 0 => {}
            Request::Growing => count = count.saturating_add(1),
            Request::Unmet => return Ok(Some(count)),
            Request::Opening | Request::Otherwise => return Ok(None),
        }
    }
    Ok(None)
}

/// Adds whether more requests for memory than a case says are refused in turn until none is. Each is reported at the
/// end of the archive, and what the third word of the case names answers as before then, and as the longer one once it
/// has grown.
pub(crate) fn add_unkept(
    alloc: Global,
    case: &Case<'_>,
    archive: &[u8],
    answer: &mut Vec<u8>,
) -> Result<(), AllocError> {
    let longer = joined(alloc, archive, case.given())?;
    let growth = Growth {
        name: case.text(2),
        bytes: archive,
        longer: &longer,
    };
    let wanted = Wanted::of(alloc, growth.name, archive, &longer)?;
    let few = case.number(1);
    let line = match count_unkept(alloc, growth, &wanted)? {
        Some(count) if count > few => {
            let end = archive.len();
            format!(in alloc; "F14 Memory at {end} more than {few} times, and grown then\n")?
        }
        Some(count) => format!(in alloc; "F14 Memory {count} times\n")?,
        None => format!(in alloc; "another outcome\n")?,
    };
    answer.extend_from_slice(line.as_bytes())
}
