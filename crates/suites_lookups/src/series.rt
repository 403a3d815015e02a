//! Series of segments: which places are joined to a record, and what is missing where none are.

use crate::heads::{Head, Records, Step};
use std::alloc::{AllocError, Global};
use suites_script::Case;
use warc_record::{SegmentNumber, Typed, type_head};
use warc_segment::{Gap, JoinFault, Parts, Place};
use warc_value::Wanted;
use warc_vectors::{Heap, RefusingAllocator};

/// The answer if an allocation fails.
const NO_MEMORY: &[u8] = b"out of memory\n";

/// More requests for memory than any case makes.
const MOST: u64 = 5000;

/// Adds what a head says, again where an allocation failed. Whether it was refused; `None` where that left another
/// number of bytes kept, or where an allocation failed again.
fn add_again(parts: &mut Parts<Heap<'_>>, typed: &Typed<'_>, start: u64, len: u64) -> Option<bool> {
    let kept = parts.kept();
    if parts.add(typed, start, len).is_ok() {
        return Some(false);
    }
    (parts.kept() == kept && parts.add(typed, start, len).is_ok()).then_some(true)
}

/// Adds a record, as `add_again` adds what its head says. Its fields take their memory from `willing`.
fn add_head(
    parts: &mut Parts<Heap<'_>>,
    willing: Heap<'_>,
    head: &Head,
    position: u64,
) -> Option<bool> {
    let fields = head.fields(willing).ok()?;
    match type_head(&fields) {
        Ok(typed) => add_again(parts, &typed, head.start(position), head.len()),
        Err(_) => None,
    }
}

/// Lets happen what happens to an archive. Whether an addition was refused; `None` where that changed something.
fn make(parts: &mut Parts<Heap<'_>>, willing: Heap<'_>, records: &Records) -> Option<bool> {
    let mut is_refused = false;
    let mut position = 0u64;
    for step in records.steps() {
        match *step {
            Step::Keep(count) => {
                parts.truncate(count);
                position = position.min(count as u64);
            }
            Step::Add(number) => {
                let head = records.head(number)?;
                is_refused = add_head(parts, willing, head, position)? || is_refused;
                position = position.saturating_add(1);
            }
        }
    }
    Some(is_refused)
}

/// Reports where a block begins, its length, and whether its digest can be checked and whether it is marked.
fn say_place(alloc: Global, place: &Place, reported: &mut Vec<u8>) -> Result<(), AllocError> {
    let wanted = match place.wanted {
        Wanted::Unchecked => "",
        Wanted::Sha1(_) => " checked",
    };
    let mark = if place.truncated { " truncated" } else { "" };
    let (start, len) = (place.start, place.len);
    let text = format!(in alloc; "{start}+{len}{wanted}{mark}\n")?;
    reported.extend_from_slice(text.as_bytes())
}

/// Reports the places that are joined, or why none are.
fn say(
    alloc: Global,
    joined: &Result<Vec<Place, Heap<'_>>, JoinFault>,
    reported: &mut Vec<u8>,
) -> Result<(), AllocError> {
    match joined {
        Ok(places) => {
            for place in places {
                say_place(alloc, place, reported)?;
            }
            Ok(())
        }
        Err(fault) => {
            let text = format!(in alloc; "{fault}\n")?;
            reported.extend_from_slice(text.as_bytes())
        }
    }
}

/// The places that are joined to the record of a head at a position.
fn join<'a>(
    parts: &Parts<Heap<'a>>,
    willing: Heap<'a>,
    head: &Head,
    position: u64,
) -> Result<Vec<Place, Heap<'a>>, JoinFault> {
    let Ok(fields) = head.fields(willing) else {
        return Err(JoinFault::Memory);
    };
    match type_head(&fields) {
        Ok(typed) => {
            let place = Place {
                start: head.start(position),
                len: head.len(),
                wanted: typed.wanted(),
                truncated: typed.texts.is_truncated,
            };
            parts.join(&typed, place)
        }
        Err(_) => Err(JoinFault::Memory),
    }
}

/// The record that a word of a case names.
fn named<'a>(records: &'a Records, case: &Case<'_>, index: usize) -> Option<&'a Head> {
    records.head(records.number_of(case.word(index))?)
}

/// Reports what is joined to the record that a case names.
fn say_join<'a>(
    alloc: Global,
    parts: &Parts<Heap<'a>>,
    willing: Heap<'a>,
    records: &Records,
    case: &Case<'_>,
    reported: &mut Vec<u8>,
) -> Result<(), AllocError> {
    match named(records, case, 1) {
        Some(head) => say(alloc, &join(parts, willing, head, case.number(2)), reported),
        None => reported.extend_from_slice(b"no such record\n"),
    }
}

/// Reports how many bytes of keys are kept.
fn say_bytes(
    alloc: Global,
    parts: &Parts<Heap<'_>>,
    reported: &mut Vec<u8>,
) -> Result<(), AllocError> {
    let text = format!(in alloc; "{}\n", parts.kept())?;
    reported.extend_from_slice(text.as_bytes())
}

/// Reports what a case asks for, once what happens to the archive has happened. Whether an addition was refused; `None`
/// where that changed something.
fn make_and_say<'a>(
    alloc: Global,
    parts: &mut Parts<Heap<'a>>,
    willing: Heap<'a>,
    records: &Records,
    case: &Case<'_>,
    reported: &mut Vec<u8>,
) -> Result<Option<bool>, AllocError> {
    let is_refused = make(parts, willing, records);
    match case.text(0) {
        "segment-bytes" => say_bytes(alloc, parts, reported)?,
        _ => say_join(alloc, parts, willing, records, case, reported)?,
    }
    Ok(is_refused)
}

/// Reports what `make_and_say` reports, with parts that take their memory from `heap`.
fn perform(
    alloc: Global,
    heap: Heap<'_>,
    willing: Heap<'_>,
    records: &Records,
    case: &Case<'_>,
    reported: &mut Vec<u8>,
) -> Result<Option<bool>, AllocError> {
    let mut parts = Parts::new(heap);
    make_and_say(alloc, &mut parts, willing, records, case, reported)
}

/// Reports what `perform` reports if the request for memory of a number is refused, and whether it was; at 0 none is.
/// Heads take their memory elsewhere.
fn perform_at(
    alloc: Global,
    records: &Records,
    case: &Case<'_>,
    number: u64,
    reported: &mut Vec<u8>,
) -> Result<(Option<bool>, bool), AllocError> {
    let willing = RefusingAllocator::new(alloc, 0);
    let heap = RefusingAllocator::new(alloc, number);
    let added = perform(alloc, &heap, &willing, records, case, reported)?;
    Ok((added, heap.has_refused()))
}

/// What comes of a run in which the request of a number is to be refused.
#[derive(Clone, Copy)]
enum Turn {
    /// An addition was refused, and went well when it was made again.
    Addition,

    /// The joining was refused.
    Joining,

    /// There is no such request.
    Absent,
    Otherwise,
}

/// What comes of a run if the request with this number is refused. Without a refusal the answer is `wanted`.
fn turn_at(
    alloc: Global,
    records: &Records,
    case: &Case<'_>,
    number: u64,
    wanted: &[u8],
) -> Result<Turn, AllocError> {
    let mut reported = Vec::new(alloc);
    let (added, has_refused) = perform_at(alloc, records, case, number, &mut reported)?;
    Ok(match (added, has_refused) {
        (Some(true), true) if reported.as_slice() == wanted => Turn::Addition,
        (Some(false), true) if reported.as_slice() == NO_MEMORY => Turn::Joining,
        (Some(false), false) if reported.as_slice() == wanted => Turn::Absent,
        _ => Turn::Otherwise,
    })
}

/// What was refused in one run or another.
#[derive(Clone, Copy)]
struct Refused {
    additions: bool,
    joins: bool,
}

/// What is refused where each request is in turn, until there is none. Nothing where something else comes of one, or
/// more are to come.
fn refuse_each(
    alloc: Global,
    records: &Records,
    case: &Case<'_>,
    wanted: &[u8],
) -> Result<Option<Refused>, AllocError> {
    let mut all = Refused {
        additions: false,
        joins: false,
    };
    for number in 1..MOST {
        match turn_at(alloc, records, case, number, wanted)? {
            Turn::Addition => all.additions = true,
            Turn::Joining => all.joins = true,
            Turn::Absent => return Ok(Some(all)),
            Turn::Otherwise => return Ok(None),
        }
    }
    Ok(None)
}

impl Refused {
    fn text(self) -> &'static [u8] {
        match (self.additions, self.joins) {
            (true, true) => b"the same where an addition or the joining was refused\n",
            (true, false) => b"the same where an addition was refused\n",
            (false, true) => b"the same where the joining was refused\n",
            (false, false) => b"no request is refused\n",
        }
    }
}

/// Adds a segment with a number to a series of `count`, each with a block of one byte. The last one alone states the
/// total.
fn add_number(
    parts: &mut Parts<Heap<'_>>,
    typed: &mut Typed<'_>,
    number: u64,
    count: u64,
) -> Result<(), AllocError> {
    typed.segment.number = SegmentNumber::Number(number);
    typed.segment.total = if number == count { Some(count) } else { None };
    parts.add(typed, number.saturating_add(1).saturating_mul(1000), 1)
}

/// Adds the segments of such a series but the first, the last one first.
fn add_numbers(
    parts: &mut Parts<Heap<'_>>,
    typed: &mut Typed<'_>,
    count: u64,
) -> Result<(), AllocError> {
    for number in (2..=count).rev() {
        add_number(parts, typed, number, count)?;
    }
    Ok(())
}

/// Adds what `add_numbers` adds, for segments with this head.
fn add_numbered(
    parts: &mut Parts<Heap<'_>>,
    willing: Heap<'_>,
    head: &Head,
    count: u64,
) -> Result<(), AllocError> {
    let fields = head.fields(willing)?;
    match type_head(&fields) {
        Ok(mut typed) => add_numbers(parts, &mut typed, count),
        Err(_) => Err(AllocError),
    }
}

/// How many places at the front begin so, and each a thousand bytes after the one before.
fn following(places: &[Place], first: u64) -> u64 {
    let mut start = first;
    let mut count = 0u64;
    for place in places {
        if place.start != start {
            return count;
        }
        start = start.saturating_add(1000);
        count = count.saturating_add(1);
    }
    count
}

/// Reports how many places are joined, and how many of them follow one another.
fn say_following(
    alloc: Global,
    joined: &Result<Vec<Place, Heap<'_>>, JoinFault>,
    reported: &mut Vec<u8>,
) -> Result<(), AllocError> {
    match joined {
        Ok(places) => {
            let (count, right) = (places.len(), following(places, 2000));
            let text = format!(in alloc; "{count} places, {right} of them in order\n")?;
            reported.extend_from_slice(text.as_bytes())
        }
        Err(_) => say(alloc, joined, reported),
    }
}

/// Reports a long series: the numbered segments have one head, and the first segment another.
fn add_and_say<'a>(
    alloc: Global,
    parts: &mut Parts<Heap<'a>>,
    willing: Heap<'a>,
    heads: (&Head, &Head),
    count: u64,
    reported: &mut Vec<u8>,
) -> Result<(), AllocError> {
    let (first, other) = heads;
    add_numbered(parts, willing, other, count)?;
    say_following(alloc, &join(parts, willing, first, 1), reported)
}

/// Reports what `add_and_say` reports, with parts that hold no segment yet.
fn say_numbered(
    alloc: Global,
    heads: (&Head, &Head),
    count: u64,
    reported: &mut Vec<u8>,
) -> Result<(), AllocError> {
    let willing = RefusingAllocator::new(alloc, 0);
    let mut parts = Parts::new(&willing);
    add_and_say(alloc, &mut parts, &willing, heads, count, reported)
}

fn numbered(
    alloc: Global,
    records: &Records,
    case: &Case<'_>,
    reported: &mut Vec<u8>,
) -> Result<(), AllocError> {
    match (named(records, case, 2), named(records, case, 3)) {
        (Some(first), Some(other)) => say_numbered(alloc, (first, other), case.number(1), reported),
        _ => reported.extend_from_slice(b"no such record\n"),
    }
}

/// The gap that the words of a case name.
fn gap_of(case: &Case<'_>) -> Option<Gap> {
    let number = case.optional_number(2);
    match case.text(1) {
        "repeated" => Some(Gap::Repeated(number)),
        "unfinished" => Some(Gap::Unfinished),
        "after-end" => Some(Gap::AfterEnd(number)),
        "absent" => Some(Gap::Absent(number)),
        "total" => Some(Gap::Total),
        "number" => Some(Gap::Number),
        _ => None,
    }
}

/// Reports a gap's text, and that of the fault of joining that it is; without a gap that of a failed allocation.
fn say_gap(alloc: Global, case: &Case<'_>, reported: &mut Vec<u8>) -> Result<(), AllocError> {
    let text = match gap_of(case) {
        Some(gap) => format!(in alloc; "{gap}\n{}\n", JoinFault::Gap(gap))?,
        None => format!(in alloc; "{}\n", JoinFault::Memory)?,
    };
    reported.extend_from_slice(text.as_bytes())
}

/// Reports what is joined, and what comes of it where requests are refused.
fn say_refused(
    alloc: Global,
    records: &Records,
    case: &Case<'_>,
    answer: &mut Vec<u8>,
) -> Result<(), AllocError> {
    let mut reported = Vec::new(alloc);
    say_plain(alloc, records, case, &mut reported)?;
    answer.extend_from_slice(&reported)?;
    match refuse_each(alloc, records, case, &reported)? {
        Some(refused) => answer.extend_from_slice(refused.text()),
        None => answer.extend_from_slice(b"something else once a request is refused\n"),
    }
}

/// Reports what a case asks for where no request is refused.
fn say_plain(
    alloc: Global,
    records: &Records,
    case: &Case<'_>,
    reported: &mut Vec<u8>,
) -> Result<(), AllocError> {
    match perform_at(alloc, records, case, 0, reported) {
        Ok((Some(_), _)) => Ok(()),
        Ok((None, _)) => reported.extend_from_slice(b"a record is refused\n"),
        Err(error) => Err(error),
    }
}

/// Answers a case about the series of an archive.
pub(crate) fn answer_series(
    alloc: Global,
    records: &Records,
    case: &Case<'_>,
    answer: &mut Vec<u8>,
) -> Result<(), AllocError> {
    match case.text(0) {
        "gap" => say_gap(alloc, case, answer),
        "numbered" => numbered(alloc, records, case, answer),
        "refused-join" => say_refused(alloc, records, case, answer),
        _ => say_plain(alloc, records, case, answer),
    }
}
