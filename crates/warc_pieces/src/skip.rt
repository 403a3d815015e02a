//! How far a search goes on after a place at which no good record begins. Heads that end together are judged together,
//! and what was searched for the end of a head isn't searched again: so the time for bytes that are full of version
//! lines grows with their number, and not with its square.
ghost use Rattle.std.specs.Prelude.{◌≡◌, ℕ, ◌+◌, ◌-◌, ◌<◌, ◌≤◌, ◌++◌, List, [], true, slice_range, is_some, Err, IfErr, IfSome, Some, if◌then◌else◌, length, max};
ghost use Rattle.memchr.specs.Find.{FindsNeedle};
ghost use Rattle.warc_field.specs.Area.{Reads, ReportsWithin, area_of};
ghost use Rattle.warc_field.specs.Lines.{crlf};
ghost use Rattle.warc_frame.specs.Reading.{head_len, record_of, version_of};
ghost use Rattle.warc_frame.specs.Record.{max_head};
ghost use Rattle.warc_frame.specs.declared.fault.Fault.{Fault as FaultOf};
ghost use Rattle.warc_record.specs.Heads.{head_fault};
ghost use Rattle.warc_pieces.specs.Skip.{AreTooMany, HasTooMany, IsShared, NoneFrom, NoneWithin};

use crate::line::{LINE_LEN, LINE_START, begins_version, find_line};
use memchr::arch::all::twoway::Finder;
use std::alloc::Allocator;
use warc_field::{AreaFault, Fields, canonical_len, read_area};
use warc_frame::{FaultKind, MAX_HEAD};

/// What ends a head: the end of its last line, and an empty line.
const HEAD_END: &[u8] = b"\r\n\r\n";

/// The place of the first empty line in bytes.
fn find_head_end(bytes: &[u8]) -> Option<usize>
    ensures { FindsNeedle bytes.now (crlf ++ crlf) 0 result }
{
    Finder::new(HEAD_END).find(bytes, HEAD_END)
}

/// The fields of a head after its version line.
fn read_lines<A: Allocator + Copy>(alloc: A, head: &[u8]) -> Result<Fields<A>, AreaFault>
    requires ends { head_len head.now ≡ Some (length head.now) }
    requires version { is_some (version_of head.now) ≡ true }
    ensures exact { Reads (λ f. f) result (area_of (slice_range head.now 10 (length head.now - 2))) }
    ensures within { IfErr result (ReportsWithin (length head.now - 12)) }
{
    read_area(alloc, &head[LINE_LEN..head.len() - 2])
}

/// How far no good record begins in a head, from its front on, if one of its lines is no field or its first one is no
/// version line.
fn misfit<A: Allocator + Copy>(alloc: A, head: &[u8]) -> Option<usize>
    requires ends { head_len head.now ≡ Some (length head.now) }
    ensures some { IfSome result (λ n. (0 < n) × (n ≤ length head.now)) }
    ensures none { IfSome result (λ n. (more : List ℕ) → NoneFrom (head.now ++ more) 0 n) }
{
    if !begins_version(head) {
        return Some(1);
    }
    if let Err(AreaFault::Line(at)) = read_lines(alloc, head) {
        return Some(at + 1);
    }
    None
}

/// The first place in a head, from `from` on, at which a record may begin whose lines are all fields; or the end of the
/// head.
fn next_fit<A: Allocator + Copy>(alloc: A, head: &[u8], from: usize) -> usize
    requires ends { head_len head.now ≡ Some (length head.now) }
    requires within { from ≤ length head.now }
    ensures after { from ≤ result }
    ensures within { result ≤ length head.now }
    ensures none { (more : List ℕ) → NoneFrom (head.now ++ more) from result }
{
    let mut at = from;
    'fitting: loop {
        let Some(place) = find_line(&head[at..]) else {
            return at.max(head.len().saturating_sub(LINE_START.len() - 1));
        };
        let line = at + place;
        match misfit(alloc, &head[line..]) {
            Some(len) => at = line + len,
            None => return line,
        }
    }
}

/// Whether a fault of this kind is one of fields that more of them can't take away, and these have it: one of the four
/// occurs more than once, or the head that they make is too long.
fn are_too_many<A: Allocator>(fields: &Fields<A>, kind: FaultKind) -> bool
    ensures { result ≡ true → AreTooMany kind fields.now }
{
    match kind {
        FaultKind::Repeated(field) => fields.count(field.name().as_bytes()) > 1,
        FaultKind::HeadTooLong => match canonical_len(fields) {
            Some(len) => len > MAX_HEAD - LINE_LEN - 2,
            None => false,
        },
        _ => false,
    }
}

/// Whether all lines of a head are fields, and these are too many.
fn has_too_many<A: Allocator + Copy>(alloc: A, head: &[u8], kind: FaultKind) -> bool
    requires ends { head_len head.now ≡ Some (length head.now) }
    ensures { result ≡ true → HasTooMany kind head.now }
{
    if !begins_version(head) {
        return false;
    }
    match read_lines(alloc, head) {
        Ok(fields) => are_too_many(&fields, kind),
        Err(_) => false,
    }
}

/// The last place in a head, of those tried by halving, at which a head begins that has too many fields: so has each
/// one before it.
fn last_too_many<A: Allocator + Copy>(alloc: A, head: &[u8], kind: FaultKind) -> usize
    requires ends { head_len head.now ≡ Some (length head.now) }
    ensures within { result < length head.now }
    ensures none { (more : List ℕ) → NoneFrom (head.now ++ more) 1 (result + 1) }
{
    let mut low = 0;
    let mut high = head.len();
    'halving: while high - low > 1 {
        let middle = low + (high - low) / 2;
        match find_line(&head[middle..high]) {
            Some(place) => {
                let line = middle + place;
                if has_too_many(alloc, &head[line..], kind) {
                    low = line;
                } else {
                    high = middle;
                }
            }
            None => high = middle,
        }
    }
    low
}

/// Whether a record shares a fault with each one that begins within its head.
fn is_shared(kind: FaultKind) -> bool
    ensures { result ≡ true → IsShared kind }
{
    match kind {
        FaultKind::Missing(_)
        | FaultKind::Length
        | FaultKind::BadType
        | FaultKind::Id
        | FaultKind::Date
        | FaultKind::End
        | FaultKind::Truncated => true,
        _ => false,
    }
}

/// How many bytes after the front of a head the next good record may begin, where the fault of the one at its front is
/// of this kind, at this place: one, if nothing more is known. If the fault is shared, none begins within the head; if
/// a line is no field, none whose head has that line; if the fields are too many, none that has them all.
fn skip_within<A: Allocator + Copy>(alloc: A, head: &[u8], kind: FaultKind, place: u64) -> usize
    requires ends { head_len head.now ≡ Some (length head.now) }
    ensures some { 0 < result }
    ensures within { result ≤ length head.now }
    ensures none { (more : List ℕ) (f : FaultOf) → record_of head_fault (head.now ++ more) ≡ Err f → f.kind ≡ kind →
        f.offset ≡ place → NoneWithin (head.now ++ more) result }
{
    let len = head.len();
    if is_shared(kind) {
        return len;
    }
    match kind {
        FaultKind::Repeated(_) | FaultKind::HeadTooLong => {
            next_fit(alloc, head, last_too_many(alloc, head, kind) + 1)
        }
        FaultKind::Field => {
            let line = place
                .saturating_sub(LINE_LEN as u64 - 1)
                .clamp(1, len as u64);
            next_fit(alloc, head, line as usize)
        }
        _ => 1,
    }
}

/// How many bytes after the front of a text without an empty line the next good record may begin. No head is longer
/// than 65,536 bytes, and if the text is the last one none ends.
fn skip_unended(len: usize, is_last: bool) -> usize
    ensures { result ≡ max 1 (if is_last then len else len + 1 - max_head) }
{
    if is_last {
        return len.max(1);
    }
    len.saturating_sub(MAX_HEAD - 1).max(1)
}

/// How many bytes after the front of a text the next good record may begin, where the fault of the one at its front is
/// of this kind, at this place. The text may be the last one of all.
pub(crate) fn skip<A: Allocator + Copy>(
    alloc: A,
    text: &[u8],
    is_last: bool,
    kind: FaultKind,
    place: u64,
) -> u64
    ensures some { 0 < result }
    ensures within { result ≤ max 1 (length text.now) }
    ensures none { (more : List ℕ) (f : FaultOf) → (is_last ≡ true → more ≡ []) →
        record_of head_fault (text.now ++ more) ≡ Err f → f.kind ≡ kind → f.offset ≡ place →
        NoneWithin (text.now ++ more) result }
{
    if kind == FaultKind::Version {
        return 1;
    }
    let Some(end) = find_head_end(text) else {
        return skip_unended(text.len(), is_last) as u64;
    };
    let len = end + HEAD_END.len();
    if len > MAX_HEAD {
        return (len - MAX_HEAD) as u64;
    }
    skip_within(alloc, &text[..len], kind, place) as u64
}
