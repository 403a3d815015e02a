//! Captures: which one answers for a target and a moment, which record an id or a pair names, and where revisits lead.

use crate::heads::{Head, Records, Step};
use std::alloc::{AllocError, Global};
use suites_script::{Case, Refusal, Refusals};
use warc_index::{Index, Unfound, UnorderedIndex};
use warc_record::{Typed, id_key, type_head};
use warc_value::read_date;
use warc_vectors::{Heap, RefusingAllocator};

/// A position, or why there is none.
fn found_text(alloc: Global, found: Result<usize, Unfound>) -> Result<String, AllocError> {
    match found {
        Ok(position) => format!(in alloc; "{position}\n"),
        Err(unfound) => format!(in alloc; "{unfound}\n"),
    }
}

/// A position, if there is one.
fn position_text(alloc: Global, position: Option<usize>) -> Result<String, AllocError> {
    match position {
        Some(position) => format!(in alloc; "{position}\n"),
        None => format!(in alloc; "none\n"),
    }
}

/// The chosen capture of a target by a date; `None` where that is no date.
fn latest(index: &Index<Heap<'_>>, target: &[u8], date: &[u8]) -> Option<Result<usize, Unfound>> {
    let moment = read_date(date)?;
    Some(index.latest(target, &moment))
}

/// The first record of a target and an instant that a revisit may name.
fn by_pair(index: &Index<Heap<'_>>, target: &[u8], date: &[u8]) -> Option<usize> {
    let moment = read_date(date)?;
    index.by_pair(target, &moment)
}

/// The first capture with an id, or the first record with it.
fn by_id(index: &Index<Heap<'_>>, id: &[u8], is_capture: bool) -> Option<usize> {
    match id_key(id) {
        Some(key) if is_capture => index.by_key(&key),
        Some(key) => index.first_with(&key),
        None => None,
    }
}

/// What an index answers to the chosen capture that is asked for.
fn latest_text(
    alloc: Global,
    index: &Index<Heap<'_>>,
    target: &[u8],
    date: &[u8],
) -> Result<String, AllocError> {
    match latest(index, target, date) {
        Some(found) => found_text(alloc, found),
        None => format!(in alloc; "no date\n"),
    }
}

/// What it answers to the words of a case from one on.
fn asked(
    alloc: Global,
    index: &Index<Heap<'_>>,
    case: &Case<'_>,
    from: usize,
) -> Result<String, AllocError> {
    let one = case.word(from.saturating_add(1));
    let two = case.word(from.saturating_add(2));
    match case.text(from) {
        "latest" => latest_text(alloc, index, one, two),
        "pair" => position_text(alloc, by_pair(index, one, two)),
        "capture" => position_text(alloc, by_id(index, one, true)),
        "first" => position_text(alloc, by_id(index, one, false)),
        "origin" => {
            let number = case.number(from.saturating_add(1)) as usize;
            found_text(alloc, index.origin(number))
        }
        "index-bytes" => format!(in alloc; "{}\n", index.kept()),
        _ => format!(in alloc; "no such case\n"),
    }
}

/// Adds what a head says, again where it is refused. Whether it was; `None` where that left another number of bytes
/// kept, or it is refused again.
fn add_again(index: &mut Index<Heap<'_>>, typed: &Typed<'_>) -> Option<bool> {
    let kept = index.kept();
    if index.add(typed).is_ok() {
        return Some(false);
    }
    (index.kept() == kept && index.add(typed).is_ok()).then_some(true)
}

/// Adds a record to an index, as `add_again` adds what its head says.
fn add_head(alloc: Global, index: &mut Index<Heap<'_>>, head: &Head) -> Option<bool> {
    let fields = head.fields(alloc).ok()?;
    match type_head(&fields) {
        Ok(typed) => add_again(index, &typed),
        Err(_) => None,
    }
}

/// Lets happen what happens to an archive, record by record. How many were refused and then added; `None` where a
/// refused one changed something.
fn add_all(alloc: Global, index: &mut Index<Heap<'_>>, records: &Records) -> Option<u64> {
    let mut again = 0u64;
    for step in records.steps() {
        match *step {
            Step::Keep(count) => index.truncate(count),
            Step::Add(number) => {
                if add_head(alloc, index, records.head(number)?)? {
                    again = again.saturating_add(1);
                }
            }
        }
    }
    Some(again)
}

/// Adds what a head says to those that wait to be put in order, again where it is refused. Whether it was; `None` where
/// it is refused again.
fn push_again(index: &mut UnorderedIndex<Heap<'_>>, typed: &Typed<'_>) -> Option<bool> {
    if index.add(typed).is_ok() {
        return Some(false);
    }
    index.add(typed).is_ok().then_some(true)
}

/// Adds a record to those that wait to be put in order, as `push_again` adds what its head says.
fn push_head(alloc: Global, index: &mut UnorderedIndex<Heap<'_>>, head: &Head) -> Option<bool> {
    let fields = head.fields(alloc).ok()?;
    match type_head(&fields) {
        Ok(typed) => push_again(index, &typed),
        Err(_) => None,
    }
}

/// Lets happen what happens to an archive whose records wait to be put in order. How many were refused and then added.
fn push_all(alloc: Global, index: &mut UnorderedIndex<Heap<'_>>, records: &Records) -> Option<u64> {
    let mut again = 0u64;
    for step in records.steps() {
        match *step {
            Step::Keep(count) => index.truncate(count),
            Step::Add(number) => {
                if push_head(alloc, index, records.head(number)?)? {
                    again = again.saturating_add(1);
                }
            }
        }
    }
    Some(again)
}

/// How an index is made: of records that are added one by one, or of all at once.
#[derive(Clone, Copy)]
enum Making {
    Added,
    Filled,
}

/// What an index answers, and how many records were refused and then added.
type Asked = (Result<String, AllocError>, Option<u64>);

/// What an index answers to which the records are added.
fn added(alloc: Global, heap: Heap<'_>, records: &Records, case: &Case<'_>, from: usize) -> Asked {
    let mut index = Index::new(heap);
    let again = add_all(alloc, &mut index, records);
    (asked(alloc, &index, case, from), again)
}

/// What an index answers that is filled with them at once.
fn filled(alloc: Global, heap: Heap<'_>, records: &Records, case: &Case<'_>, from: usize) -> Asked {
    let mut waiting = UnorderedIndex::new(heap);
    let again = push_all(alloc, &mut waiting, records);
    let index = waiting.into_index();
    (asked(alloc, &index, case, from), again)
}

fn perform(
    alloc: Global,
    heap: Heap<'_>,
    records: &Records,
    making: Making,
    case: &Case<'_>,
    from: usize,
) -> Asked {
    match making {
        Making::Added => added(alloc, heap, records, case, from),
        Making::Filled => filled(alloc, heap, records, case, from),
    }
}

/// What `perform` gives if the request for memory of a number is refused, and whether it was; at 0 none is.
fn perform_at(
    alloc: Global,
    records: &Records,
    making: Making,
    case: &Case<'_>,
    number: u64,
    from: usize,
) -> (Asked, bool) {
    let heap = RefusingAllocator::new(alloc, number);
    let asked = perform(alloc, &heap, records, making, case, from);
    (asked, heap.has_refused())
}

/// What an index answers to a case where no request is refused.
fn plain(
    alloc: Global,
    records: &Records,
    making: Making,
    case: &Case<'_>,
    from: usize,
) -> Result<String, AllocError> {
    match perform_at(alloc, records, making, case, 0, from) {
        ((text, Some(_)), _) => text,
        ((_, None), _) => format!(in alloc; "a record is refused\n"),
    }
}

/// What comes of it where the request of that number is refused, if this was answered where none was.
fn refused_at(
    alloc: Global,
    records: &Records,
    making: Making,
    case: &Case<'_>,
    number: u64,
    wanted: &str,
) -> Result<Refusal, AllocError> {
    let ((text, again), is_refused) = perform_at(alloc, records, making, case, number, 2);
    let is_same = text?.as_str() == wanted;
    let is_right = is_same && again == Some(u64::from(is_refused));
    Ok(Refusal::of(is_right, is_refused))
}

/// Reports what comes of it where each request is refused in turn, if this was answered where none was.
fn refuse(
    alloc: Global,
    records: &Records,
    making: Making,
    case: &Case<'_>,
    wanted: &str,
    answer: &mut Vec<u8>,
) -> Result<(), AllocError> {
    let mut refusals = Refusals::new();
    for number in 1..400u64 {
        if !refusals.goes_on(refused_at(alloc, records, making, case, number, wanted)?) {
            break;
        }
    }
    refusals.say(alloc, case.number(1), answer)
}

/// Reports what an index answers, which is the same for one that is added to and one that is filled.
fn say(
    alloc: Global,
    records: &Records,
    case: &Case<'_>,
    from: usize,
    answer: &mut Vec<u8>,
) -> Result<String, AllocError> {
    let added = plain(alloc, records, Making::Added, case, from)?;
    let filled = plain(alloc, records, Making::Filled, case, from)?;
    answer.extend_from_slice(added.as_bytes())?;
    if filled.as_str() != added.as_str() {
        answer.extend_from_slice(b"but filled at once: ")?;
        answer.extend_from_slice(filled.as_bytes())?;
    }
    Ok(added)
}

/// Reports what both do where requests are refused, if this was answered where none was.
fn refuse_both(
    alloc: Global,
    records: &Records,
    case: &Case<'_>,
    wanted: &str,
    answer: &mut Vec<u8>,
) -> Result<(), AllocError> {
    answer.extend_from_slice(b"added: ")?;
    refuse(alloc, records, Making::Added, case, wanted, answer)?;
    answer.extend_from_slice(b"filled: ")?;
    refuse(alloc, records, Making::Filled, case, wanted, answer)
}

/// Reports what both answer, and what they do where requests are refused.
fn say_refused(
    alloc: Global,
    records: &Records,
    case: &Case<'_>,
    answer: &mut Vec<u8>,
) -> Result<(), AllocError> {
    let wanted = say(alloc, records, case, 2, answer)?;
    refuse_both(alloc, records, case, &wanted, answer)
}

/// Answers a case about the captures of an archive.
pub(crate) fn answer_capture(
    alloc: Global,
    records: &Records,
    case: &Case<'_>,
    answer: &mut Vec<u8>,
) -> Result<(), AllocError> {
    match case.text(0) {
        "refused-index" => say_refused(alloc, records, case, answer),
        _ => say(alloc, records, case, 0, answer).map(|_| ()),
    }
}
