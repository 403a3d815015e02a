//! The good front of a source that is opened and copied, while each read, each request for memory or each write fails
//! in turn, and the same calls after that.

use crate::sources::{broken, source_of};
use crate::text::{add_number, add_text};
use std::alloc::{AllocError, Allocator, Global};
use suites_script::Case;
use warc::{Listing, open_front};
use warc_frame::{Fault, FaultKind, MemSink, OutFault, Sink, Source};
use warc_vectors::{Break, BrokenSource, BrokenWriter, RefusingAllocator};

/// More failures than any case has.
const MOST: u64 = 5000;

/// How many bytes a write takes at most where writes break.
const PIECE: usize = 7;

/// The good records at the front of a source, and the fault after them.
type Front<S, A> = (Listing<S, A>, Option<Fault>);

/// What a front says of itself, what copying it answers, and the bytes that went out.
#[derive(Drop)]
struct Copied {
    fault: Option<Fault>,
    records: usize,
    reported: Result<u64, OutFault>,
    sent: Vec<u8>,
}

impl Copied {
    /// Whether another front says and gives the same.
    fn is_like(&self, other: &Copied) -> bool {
        self.fault == other.fault
            && self.records == other.records
            && self.reported == other.reported
            && self.sent.as_slice() == other.sent.as_slice()
    }

    /// Whether it is open as another one, and what went out is the front of what that one gives, and ends with this.
    fn is_cut(&self, whole: &Copied, cause: OutFault) -> bool {
        self.fault == whole.fault
            && self.records == whole.records
            && self.reported == Err(cause)
            && whole.sent.starts_with(&self.sent)
    }

    /// Whether it ends before such a fault, with all that another one gives.
    fn ends_before(&self, fault: Fault, other: &Copied) -> bool {
        self.fault == Some(fault)
            && self.records == other.records
            && self.reported == other.reported
            && self.sent.as_slice() == other.sent.as_slice()
    }
}

/// What a front gives that is copied to a sink in memory.
fn copy_whole<S: Source, A: Allocator>(alloc: Global, front: &mut Front<S, A>) -> Copied {
    let mut out = MemSink::new(Vec::new(alloc));
    let reported = front.0.copy_to(&mut out);
    Copied {
        fault: front.1,
        records: front.0.count(),
        reported,
        sent: out.into_inner(),
    }
}

/// What the front of a source gives, and once more; and the source.
fn copied_twice<S: Source, A: Allocator + Copy>(
    alloc: Global,
    heap: A,
    source: S,
) -> (Copied, Copied, S) {
    let mut front = open_front(heap, source);
    let first = copy_whole(alloc, &mut front);
    let again = copy_whole(alloc, &mut front);
    (first, again, front.0.into_source())
}

/// What the front of these bytes gives.
fn copied_of(alloc: Global, bytes: &[u8]) -> Result<Copied, AllocError> {
    let (first, _, _) = copied_twice(alloc, alloc, source_of(alloc, bytes, usize::MAX)?);
    Ok(first)
}

/// What comes of a front of which a read or a request for memory fails.
#[derive(Clone, Copy)]
enum Turn {
    /// That came while it was opened: it ends there.
    Opening,

    /// It came while it was copied.
    Following,

    /// It didn't come.
    Done,
    Otherwise,
}

/// What is opened and copied of a source that fails once, the same of it again, and of the source that came back.
#[derive(Drop)]
struct Tried {
    first: Copied,
    again: Copied,
    anew: Copied,
}

/// Tries a source of which a read fails, as `Tried` says.
fn try_unread(alloc: Global, source: BrokenSource) -> Tried {
    let (first, again, source) = copied_twice(alloc, alloc, source);
    let (anew, _, _) = copied_twice(alloc, alloc, source);
    Tried { first, again, anew }
}

/// What comes of it where a failure has this kind. If it came while the front was opened, that gives all that the bytes
/// before its offset give, and as much again.
fn turn_of(
    alloc: Global,
    bytes: &[u8],
    tried: &Tried,
    whole: &Copied,
    kind: FaultKind,
) -> Result<Turn, AllocError> {
    let first = &tried.first;
    if !tried.anew.is_like(whole) {
        return Ok(Turn::Otherwise);
    }
    if first.is_cut(whole, OutFault::Read(first.sent.len() as u64)) && tried.again.is_like(whole) {
        return Ok(Turn::Following);
    }
    let Some(fault) = first.fault else {
        return Ok(Turn::Otherwise);
    };
    let front = bytes.get(..fault.offset as usize).unwrap_or(bytes);
    let is_so = first.ends_before(kind.at(fault.offset), &copied_of(alloc, front)?);
    Ok(if is_so && tried.again.is_like(first) {
        Turn::Opening
    } else {
        Turn::Otherwise
    })
}

/// How many failures came while a front was opened, and how many while it was copied.
#[derive(Clone, Copy)]
struct Turns {
    opening: u64,
    following: u64,
}

impl Turns {
    fn new() -> Turns {
        Turns {
            opening: 0,
            following: 0,
        }
    }

    /// Counts a failure, and says whether it came as it may.
    fn add(&mut self, turn: Turn) -> bool {
        match turn {
            Turn::Opening if self.following == 0 => {
                self.opening = self.opening.saturating_add(1);
                true
            }
            Turn::Following => {
                self.following = self.following.saturating_add(1);
                true
            }
            _ => false,
        }
    }
}

/// What comes of a front whose source is read a byte at a time, if the read with a given number fails. While it is
/// opened, the failure is reported at the offset of that read.
fn turn_unread(
    alloc: Global,
    bytes: &[u8],
    whole: &Copied,
    number: u64,
) -> Result<Turn, AllocError> {
    let tried = try_unread(alloc, broken(alloc, bytes, 1, number)?);
    if tried.first.is_like(whole) {
        return Ok(Turn::Done);
    }
    let turn = turn_of(alloc, bytes, &tried, whole, FaultKind::Read)?;
    let asked = FaultKind::Read.at(number.saturating_sub(1));
    Ok(match turn {
        Turn::Opening if tried.first.fault != Some(asked) => Turn::Otherwise,
        turn => turn,
    })
}

/// Lets each read of one byte fail in turn. Nothing where something else comes of one, or more are to come.
fn turn_reads(alloc: Global, bytes: &[u8], whole: &Copied) -> Result<Option<Turns>, AllocError> {
    let mut turns = Turns::new();
    for number in 1..MOST {
        match turn_unread(alloc, bytes, whole, number)? {
            Turn::Done => return Ok(Some(turns)),
            turn if turns.add(turn) => {}
            _ => return Ok(None),
        }
    }
    Ok(None)
}

/// What comes of a front where the request for memory of a number is refused.
fn turn_unkept(
    alloc: Global,
    bytes: &[u8],
    whole: &Copied,
    number: u64,
) -> Result<Turn, AllocError> {
    let heap = RefusingAllocator::new(alloc, number);
    let source = source_of(alloc, bytes, usize::MAX)?;
    let (first, again, source) = copied_twice(alloc, &heap, source);
    let has_refused = heap.has_refused();
    // Opened anew it may meet the refusal.
    let (anew, _, _) = copied_twice(alloc, &heap, source);
    let tried = Tried { first, again, anew };
    if has_refused {
        turn_of(alloc, bytes, &tried, whole, FaultKind::Memory)
    } else if tried.first.is_like(whole) {
        Ok(Turn::Done)
    } else {
        Ok(Turn::Otherwise)
    }
}

/// Lets each request for memory be refused in turn, as `turn_reads` does.
fn turn_requests(alloc: Global, bytes: &[u8], whole: &Copied) -> Result<Option<Turns>, AllocError> {
    let mut turns = Turns::new();
    for number in 1..MOST {
        match turn_unkept(alloc, bytes, whole, number)? {
            Turn::Done => return Ok(Some(turns)),
            turn if turns.add(turn) => {}
            _ => return Ok(None),
        }
    }
    Ok(None)
}

/// What a front gives that is copied to a sink of seven bytes a write, of which the write of a number breaks.
fn copied_to<S: Source, A: Allocator>(
    alloc: Global,
    front: &mut Front<S, A>,
    (number, how): (u64, Break),
) -> Result<Copied, AllocError> {
    let mut out = BrokenWriter::new(alloc, number, how).taking(PIECE);
    let reported = front.0.copy_to(&mut out);
    Ok(Copied {
        fault: front.1,
        records: front.0.count(),
        reported,
        sent: out.bytes().to_vec(alloc)?,
    })
}

/// What comes of a front where the write of a number breaks, counted from 0. All bytes of the writes before it went
/// out. The same front is whole after it.
fn turn_cut<S: Source, A: Allocator>(
    alloc: Global,
    front: &mut Front<S, A>,
    whole: &Copied,
    (number, how): (u64, Break),
) -> Result<Turn, AllocError> {
    let first = copied_to(alloc, front, (number.saturating_add(1), how))?;
    let again = copy_whole(alloc, front);
    let sent = (PIECE as u64).saturating_mul(number);
    let is_exact = first.sent.len() as u64 == sent;
    Ok(if !again.is_like(whole) {
        Turn::Otherwise
    } else if first.is_like(whole) {
        Turn::Done
    } else if is_exact && first.is_cut(whole, OutFault::Write(sent)) {
        Turn::Following
    } else {
        Turn::Otherwise
    })
}

/// How many writes break in turn and cut the copy. Nothing where something else comes of one, or more are to come.
fn count_cut<S: Source, A: Allocator>(
    alloc: Global,
    front: &mut Front<S, A>,
    whole: &Copied,
    how: Break,
) -> Result<Option<u64>, AllocError> {
    for number in 0..MOST {
        match turn_cut(alloc, front, whole, (number, how))? {
            Turn::Following => {}
            Turn::Done => return Ok(Some(number)),
            Turn::Opening | Turn::Otherwise => return Ok(None),
        }
    }
    Ok(None)
}

/// How many writes up to a number take one byte in turn, as do those after each, where all goes out.
fn count_short<S: Source, A: Allocator>(
    alloc: Global,
    front: &mut Front<S, A>,
    whole: &Copied,
    writes: u64,
) -> Result<u64, AllocError> {
    let mut count = 0u64;
    for number in 0..writes {
        let turn = turn_cut(alloc, front, whole, (number, Break::Takes(1)))?;
        count = count.saturating_add(u64::from(matches!(turn, Turn::Done)));
    }
    Ok(count)
}

/// Adds how many writes of seven bytes fail in turn, take nothing and take one byte.
fn add_writes<S: Source, A: Allocator>(
    alloc: Global,
    front: &mut Front<S, A>,
    whole: &Copied,
    answer: &mut Vec<u8>,
) -> Result<(), AllocError> {
    let failing = count_cut(alloc, front, whole, Break::Fails)?;
    let empty = count_cut(alloc, front, whole, Break::Takes(0))?;
    match (failing, empty) {
        (Some(failing), Some(empty)) => {
            let short = count_short(alloc, front, whole, failing)?;
            let line = format!(in alloc;
                "{failing} writes fail, {empty} take nothing, {short} take one byte\n"
            )?;
            answer.extend_from_slice(line.as_bytes())
        }
        _ => answer.extend_from_slice(b"another outcome after a write\n"),
    }
}

/// Adds how many reads fail in turn.
fn add_reads(alloc: Global, turns: Option<Turns>, answer: &mut Vec<u8>) -> Result<(), AllocError> {
    let line = match turns {
        Some(Turns { opening, following }) => {
            format!(in alloc; "{opening} reads while it is opened, {following} after that\n")?
        }
        None => format!(in alloc; "another outcome after a read\n")?,
    };
    answer.extend_from_slice(line.as_bytes())
}

/// Adds whether more requests for memory than a given number are refused in turn while it is opened, and how many
/// later.
fn add_requests(
    alloc: Global,
    turns: Option<Turns>,
    few: u64,
    answer: &mut Vec<u8>,
) -> Result<(), AllocError> {
    let line = match turns {
        Some(Turns { opening, following }) if opening > few => {
            format!(in alloc;
                "more than {few} requests while it is opened, {following} after that\n"
            )?
        }
        Some(Turns { opening, following }) => {
            format!(in alloc; "{opening} requests while it is opened, {following} after that\n")?
        }
        None => format!(in alloc; "another outcome after a request\n")?,
    };
    answer.extend_from_slice(line.as_bytes())
}

/// Adds what the front of these bytes says and gives.
fn add_copied(alloc: Global, whole: &Copied, answer: &mut Vec<u8>) -> Result<(), AllocError> {
    match whole.fault {
        Some(fault) => add_text(alloc, answer, &fault)?,
        None => answer.extend_from_slice(b"good\n")?,
    }
    add_number(alloc, answer, "records", whole.records as u64)?;
    match whole.reported {
        Ok(length) => add_number(alloc, answer, "length", length)?,
        Err(fault) => add_text(alloc, answer, &fault)?,
    }
    add_number(alloc, answer, "sent", whole.sent.len() as u64)
}

/// Adds what the good front of an archive says and gives, and how many reads, requests for memory (more than the case
/// says) and writes fail in turn.
pub(crate) fn add_front(
    alloc: Global,
    case: &Case<'_>,
    archive: &[u8],
    answer: &mut Vec<u8>,
) -> Result<(), AllocError> {
    let whole = copied_of(alloc, archive)?;
    add_copied(alloc, &whole, answer)?;
    add_reads(alloc, turn_reads(alloc, archive, &whole)?, answer)?;
    let requests = turn_requests(alloc, archive, &whole)?;
    add_requests(alloc, requests, case.number(1), answer)?;
    let mut front = open_front(alloc, source_of(alloc, archive, usize::MAX)?);
    let reported = add_writes(alloc, &mut front, &whole, answer);
    front.0.into_source();
    reported
}
