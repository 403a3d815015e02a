//! Calls of which each read, each write or each request for memory fails in turn, and the same calls after that.

use crate::sources::{broken, source_of};
use crate::subjects::Subject;
use crate::text::{add_number, add_text};
use std::alloc::{AllocError, Allocator, Global};
use suites_script::Case;
use warc_frame::{Fault, FaultKind, MemSink, MemSource, Source};
use warc_vectors::{Break, BrokenWriter, RefusingAllocator};

/// More failures than any case has.
const MOST: u64 = 5000;

/// How many bytes a write takes at most where writes break.
const PIECE: usize = 7;

/// What a call answers, as text, and the bytes that went out.
#[derive(Drop)]
struct Reported {
    text: Vec<u8>,
    sent: Vec<u8>,
}

impl Reported {
    fn is_like(&self, other: &Reported) -> bool {
        self.text.as_slice() == other.text.as_slice()
            && self.sent.as_slice() == other.sent.as_slice()
    }
}

/// What comes of a call, or of opening what is called, of which a read, a write or a request for memory fails.
#[derive(Clone, Copy)]
enum Turn {
    Unopened(Fault),
    /// The call failed, and went well when it was made again.
    Failed,
    /// A request for memory was refused, and the call went well without it.
    Harmless,
    /// Nothing failed.
    Done,
    Otherwise,
}

/// What comes of a call that failed, and of the same call after it, which has to go well. The bytes that went out must
/// be the front of the whole, and the fault must have their number.
fn turn_of(
    alloc: Global,
    first: &Reported,
    again: &Reported,
    whole: &Reported,
    cause: &str,
) -> Result<Turn, AllocError> {
    let sent = format!(in alloc; "{cause} after {}\n", first.sent.len())?;
    let alone = format!(in alloc; "{cause}\n")?;
    let text = first.text.as_slice();
    let is_reported = text == sent.as_bytes() || text == alone.as_bytes() && first.sent.is_empty();
    Ok(if is_reported && whole.sent.starts_with(&first.sent) && again.is_like(whole) {
        Turn::Failed
    } else {
        Turn::Otherwise
    })
}

/// What the call of a case answers, and what goes out.
fn reported_by<S: Source + Drop, A: Allocator + Copy>(
    alloc: Global,
    subject: &mut Subject<S, A>,
    case: &Case<'_>,
) -> Result<Reported, AllocError> {
    let mut out = MemSink::new(Vec::new(alloc));
    let text = subject.ask(alloc, case, &mut out)?;
    Ok(Reported {
        text,
        sent: out.into_inner(),
    })
}

/// What comes of the call of a case, and of the same call after it where it fails. (Where it doesn't, that call would
/// meet the failure.)
fn turn_once<S: Source + Drop, A: Allocator + Copy>(
    alloc: Global,
    subject: &mut Subject<S, A>,
    case: &Case<'_>,
    (whole, cause): (&Reported, &str),
) -> Result<Turn, AllocError> {
    let first = reported_by(alloc, subject, case)?;
    if first.is_like(whole) {
        return Ok(Turn::Done);
    }
    let again = reported_by(alloc, subject, case)?;
    turn_of(alloc, &first, &again, whole, cause)
}

/// What comes of the call of a case, as `turn_once`, on what is opened of a source.
fn turn_opened<S: Source + Drop, A: Allocator + Copy>(
    alloc: Global,
    heap: A,
    source: S,
    case: &Case<'_>,
    whole: (&Reported, &str),
) -> Result<Turn, AllocError> {
    match Subject::open(case.text(1), heap, source) {
        Ok(mut subject) => {
            let reported = turn_once(alloc, &mut subject, case, whole);
            subject.close();
            reported
        }
        Err(fault) => Ok(Turn::Unopened(fault)),
    }
}

/// Whether a number isn't 0, in a word.
fn some_or_no(count: u64) -> &'static str {
    if count > 0 { "some" } else { "no" }
}

/// How many failures came while something was opened, and how many after that.
#[derive(Clone, Copy)]
struct Turns {
    opening: u64,
    following: u64,
    harmless: u64,
    /// Whether each came as it had to, until none did.
    is_whole: bool,
}

impl Turns {
    fn new() -> Turns {
        Turns {
            opening: 0,
            following: 0,
            harmless: 0,
            is_whole: false,
        }
    }

    /// Counts a turn, and says whether another one is to come. One that doesn't open has to fail with this fault, or
    /// with one of its kind where there is none.
    fn goes_on(&mut self, turn: Turn, kind: FaultKind, at: Option<u64>) -> bool {
        match turn {
            Turn::Unopened(fault) => {
                let is_there = at.is_none() || at == Some(fault.offset);
                self.opening = self.opening.saturating_add(1);
                self.following == 0 && fault.kind == kind && is_there
            }
            Turn::Failed => {
                self.following = self.following.saturating_add(1);
                true
            }
            Turn::Harmless => {
                self.harmless = self.harmless.saturating_add(1);
                true
            }
            Turn::Done => {
                self.is_whole = true;
                false
            }
            Turn::Otherwise => false,
        }
    }

    /// Adds how many there were, or only whether there were any; or which one comes otherwise.
    fn say(
        self,
        alloc: Global,
        of: &str,
        is_counted: bool,
        answer: &mut Vec<u8>,
    ) -> Result<(), AllocError> {
        let (opening, following) = (self.opening, self.following);
        let line = if self.is_whole && is_counted {
            format!(in alloc; "{opening} {of} while it is opened, {following} after that\n")?
        } else if self.is_whole {
            let (opening, following) = (some_or_no(opening), some_or_no(following));
            format!(in alloc; "{opening} {of} while it is opened, {following} after that\n")?
        } else {
            let number = opening
                .saturating_add(following)
                .saturating_add(self.harmless);
            format!(in alloc; "another outcome after {number} {of}\n")?
        };
        answer.extend_from_slice(line.as_bytes())?;
        if self.harmless > 0 {
            add_number(alloc, answer, "without effect", self.harmless)?;
        }
        Ok(())
    }
}

/// Lets each read of one byte fail in turn.
fn turn_reads(
    alloc: Global,
    case: &Case<'_>,
    bytes: &[u8],
    whole: &Reported,
) -> Result<Turns, AllocError> {
    let mut turns = Turns::new();
    for number in 1..MOST {
        let source = broken(alloc, bytes, 1, number)?;
        let turn = turn_opened(alloc, alloc, source, case, (whole, "read failed"))?;
        if !turns.goes_on(turn, FaultKind::Read, Some(number - 1)) {
            break;
        }
    }
    Ok(turns)
}

/// What comes of the call where the request for memory of a number is refused.
fn turn_refused(
    alloc: Global,
    case: &Case<'_>,
    bytes: &[u8],
    whole: &Reported,
    number: u64,
) -> Result<Turn, AllocError> {
    let heap = RefusingAllocator::new(alloc, number);
    let source = source_of(alloc, bytes, usize::MAX)?;
    let turn = turn_opened(alloc, &heap, source, case, (whole, "out of memory"))?;
    Ok(match turn {
        Turn::Done if heap.has_refused() => Turn::Harmless,
        turn => turn,
    })
}

/// Lets each request for memory be refused in turn.
fn turn_requests(
    alloc: Global,
    case: &Case<'_>,
    bytes: &[u8],
    whole: &Reported,
) -> Result<Turns, AllocError> {
    let mut turns = Turns::new();
    for number in 1..MOST {
        let turn = turn_refused(alloc, case, bytes, whole, number)?;
        if !turns.goes_on(turn, FaultKind::Memory, None) {
            break;
        }
    }
    Ok(turns)
}

/// What comes of the call where the write of a number breaks, counted from 0. All bytes of the writes before it went
/// out. The same call after it goes well.
fn turn_cut(
    alloc: Global,
    subject: &mut Subject<MemSource, Global>,
    case: &Case<'_>,
    whole: &Reported,
    (number, how): (u64, Break),
) -> Result<Turn, AllocError> {
    let mut out = BrokenWriter::new(alloc, number.saturating_add(1), how).taking(PIECE);
    let text = subject.ask(alloc, case, &mut out)?;
    let first = Reported {
        text,
        sent: out.bytes().to_vec(alloc)?,
    };
    let again = reported_by(alloc, subject, case)?;
    let turn = turn_of(alloc, &first, &again, whole, "write failed")?;
    let is_exact = first.sent.len() as u64 == (PIECE as u64).saturating_mul(number);
    Ok(if first.is_like(whole) && again.is_like(whole) {
        Turn::Done
    } else if is_exact {
        turn
    } else {
        Turn::Otherwise
    })
}

/// How many writes break in turn and cut the call; nothing where one ends otherwise.
fn count_cut(
    alloc: Global,
    subject: &mut Subject<MemSource, Global>,
    case: &Case<'_>,
    whole: &Reported,
    how: Break,
) -> Result<Option<u64>, AllocError> {
    for number in 0..MOST {
        match turn_cut(alloc, subject, case, whole, (number, how))? {
            Turn::Failed => {}
            Turn::Done => return Ok(Some(number)),
            Turn::Unopened(_) | Turn::Harmless | Turn::Otherwise => return Ok(None),
        }
    }
    Ok(None)
}

/// How many writes up to a number take one byte in turn, as do those after each, where all goes out.
fn count_short(
    alloc: Global,
    subject: &mut Subject<MemSource, Global>,
    case: &Case<'_>,
    whole: &Reported,
    writes: u64,
) -> Result<u64, AllocError> {
    let mut count = 0u64;
    for number in 0..writes {
        let turn = turn_cut(alloc, subject, case, whole, (number, Break::Takes(1)))?;
        count = count.saturating_add(u64::from(matches!(turn, Turn::Done)));
    }
    Ok(count)
}

/// Adds how many writes fail in turn, take nothing and take one byte.
fn say_writes(
    alloc: Global,
    subject: &mut Subject<MemSource, Global>,
    case: &Case<'_>,
    whole: &Reported,
    answer: &mut Vec<u8>,
) -> Result<(), AllocError> {
    let failing = count_cut(alloc, subject, case, whole, Break::Fails)?;
    let empty = count_cut(alloc, subject, case, whole, Break::Takes(0))?;
    match (failing, empty) {
        (Some(failing), Some(empty)) => {
            let short = count_short(alloc, subject, case, whole, failing)?;
            let line = format!(in alloc;
                "{failing} writes fail, {empty} take nothing, {short} take one byte\n"
            )?;
            answer.extend_from_slice(line.as_bytes())
        }
        _ => answer.extend_from_slice(b"another outcome after a write\n"),
    }
}

/// Adds what the call of a case answers, how many bytes go out, and how many reads, requests for memory and writes fail
/// in turn; of reads and requests only whether any do, where the first word of the case says so.
fn add_all_turns(
    alloc: Global,
    subject: &mut Subject<MemSource, Global>,
    case: &Case<'_>,
    bytes: &[u8],
    answer: &mut Vec<u8>,
) -> Result<(), AllocError> {
    let is_counted = case.text(0) == "in-turn";
    let whole = reported_by(alloc, subject, case)?;
    answer.extend_from_slice(&whole.text)?;
    add_number(alloc, answer, "sent", whole.sent.len() as u64)?;
    turn_reads(alloc, case, bytes, &whole)?.say(alloc, "reads", is_counted, answer)?;
    turn_requests(alloc, case, bytes, &whole)?.say(alloc, "requests", is_counted, answer)?;
    say_writes(alloc, subject, case, &whole, answer)
}

/// Adds the same of what is opened of these bytes. Each failure is reported, and the same call goes well after it.
pub(crate) fn add_turns(
    alloc: Global,
    case: &Case<'_>,
    archive: &[u8],
    answer: &mut Vec<u8>,
) -> Result<(), AllocError> {
    let source = source_of(alloc, archive, usize::MAX)?;
    match Subject::open(case.text(1), alloc, source) {
        Ok(mut subject) => {
            let reported = add_all_turns(alloc, &mut subject, case, archive, answer);
            subject.close();
            reported
        }
        Err(fault) => add_text(alloc, answer, &fault),
    }
}
