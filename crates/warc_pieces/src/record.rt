//! The good record at an offset of a source: its length, or why none is there.
ghost use Rattle.std.specs.Prelude.{◌≡◌, ◌≢◌, ℕ, ◌+◌, ◌-◌, ◌<◌, ◌≤◌, ◌^◌, List, true, false, nat_lt, Ok, Err, drop, take, length, is_err, IfErr, IfOk, IfSome, MatchResult};
ghost use Rattle.warc_frame.specs.Reading.{begins};
ghost use Rattle.warc_frame.specs.Record.{max_archive, max_block};
ghost use Rattle.warc_frame.specs.Seen.{IfHeld};
ghost use Rattle.warc_frame.specs.declared.fault.FaultKind.TheVariants.{Read, Truncated};
ghost use Rattle.warc_pieces.specs.Ends.{Closes, HasBlockEnd, HeadMisses, IsFrontOpen, IsFrontRead, IsReadFaultIn, closed_at};
ghost use Rattle.warc_pieces.specs.Judging.{FindsRecord, MissesBy};
ghost use Rattle.warc_pieces.specs.Pieces.{near};
ghost use Rattle.warc_pieces.specs.Reads.{ReadsAlone, ReadsNear};
ghost use Rattle.warc_pieces.specs.Window.{ReadsBy, Shows, own_reads, reached};

use crate::window::{Window, after, read_near};
use std::alloc::Allocator;
use warc_frame::{Fault, FaultKind, MAX_ARCHIVE, ReadFault, Source, read_head};
use warc_quick::quick_record;
use warc_record::good_head_of;

/// How many bytes close a record: CRLF CRLF.
const CLOSING: u64 = 4;

/// How many times the offsets below 2^48 can be halved.
const HALVINGS: u64 = 48;

/// Whether the text, as far as it goes, begins as wanted.
pub(crate) fn begins_as(text: &[u8], wanted: &[u8]) -> bool
    ensures { result ≡ begins text.now wanted.now }
{
    let len = text.len().min(wanted.len());
    wanted.starts_with(&text[..len])
}

/// Whether a fault says that bytes end too early.
fn is_cut(kind: FaultKind) -> bool
    ensures cut { result ≡ true → kind ≡ Truncated }
    ensures other { result ≡ false → kind ≢ Truncated }
{
    match kind {
        FaultKind::Truncated => true,
        _ => false,
    }
}

/// What is wrong after a block that ends at a place of a text, if anything is.
#[tactic(auto, unfolding(crate::specs::Ends::closed_at))]
fn check_end(text: &[u8], end: u64) -> Result<(), Fault>
    requires { end ≤ length text.now + max_block }
    ensures exact { MatchResult result (λ _. closed_at end text.now ≡ Ok tt) (λ f. closed_at end text.now ≡ Err f) }
    ensures within { IfOk result (λ _. end + CLOSING ≤ length text.now) }
    ensures bound { IfErr result (λ f. f.offset ≤ length text.now + max_block) }
{
    if !begins_as(after(text, end), b"\r\n\r\n") {
        return Err(FaultKind::End.at(end));
    }
    let len = text.len() as u64;
    if len < end + CLOSING {
        return Err(FaultKind::Truncated.at(len));
    }
    Ok(())
}

/// Reads at an offset, until the buffer is full, the source ends, or the bytes aren't those that close a record; none
/// of it from offset 2^48 on. A failed read is reported at the offset that was asked for.
fn read_closing<S: Source>(source: &mut S, at: u64, buf: &mut [u8]) -> Result<usize, Fault>
    requires { at ≤ 2 ^ 62 }
    ensures len { length buf.new ≡ length buf.old }
    ensures bound { IfOk result (λ n. n ≤ length buf.old) }
    ensures limit { IfOk result (λ n. 0 < n → at + n ≤ max_archive) }
    ensures bytes { IfHeld (S.seen source.old).holds (λ bytes. IfOk result (λ n. IsFrontRead at (length buf.old)
        (near bytes) (take n buf.new))) }
    ensures unread { IfErr result (λ f. IsReadFaultIn at (length buf.old) f (S.seen source.new)) }
    ensures unclosed { IfHeld (S.seen source.old).holds (λ bytes. IfErr result (λ f. IsFrontOpen at (near bytes)
        (take (f.offset - at) buf.new))) }
    ensures reads { ReadsNear (length buf.old) (is_err result) (S.seen source.old) (S.seen source.new) }
{
    let mut filled = 0;
    'filling: while filled < buf.len() {
        let place = at + filled as u64;
        if place >= MAX_ARCHIVE {
            return Ok(filled);
        }
        let n = match read_near(source, place, &mut buf[filled..]) {
            Ok(n) => n,
            Err(_) => return Err(FaultKind::Read.at(place)),
        };
        if n == 0 {
            return Ok(filled);
        }
        filled += n;
        if !begins_as(&buf[..filled], b"\r\n\r\n") {
            return Ok(filled);
        }
    }
    Ok(filled)
}

/// Whether a source has a byte at an offset before 2^48.
fn has_byte<S: Source>(source: &mut S, at: u64) -> Result<bool, ReadFault>
    requires { at < max_archive }
    ensures has { IfHeld (S.seen source.old).holds (λ bytes.
        IfOk result (λ has. has ≡ nat_lt at (length (near bytes)))) }
    ensures asked { (S.seen source.new).asked ≡ at }
    ensures reads { ReadsNear 1 (is_err result) (S.seen source.old) (S.seen source.new) }
{
    let mut byte = [0u8; 1];
    let n = read_near(source, at, &mut byte)?;
    Ok(n > 0)
}

/// Where a source ends, or 2^48 if it goes on there. It has a byte before offset `from`, and none from `to` on. A
/// failed read is reported at the offset that was asked for.
fn find_end<S: Source>(source: &mut S, from: u64, to: u64) -> Result<u64, Fault>
    requires { 0 < from }
    ensures end { IfHeld (S.seen source.old).holds (λ bytes. from ≤ length (near bytes) → length (near bytes) ≤ to →
        IfOk result (λ n. n ≡ length (near bytes))) }
    ensures unread { IfErr result (λ f. IsReadFaultIn from (to - from) f (S.seen source.new)) }
    ensures reads { ReadsNear HALVINGS (is_err result) (S.seen source.old) (S.seen source.new) }
{
    let mut low = from;
    let mut high = to.min(MAX_ARCHIVE);
    'halving: for step in 0..HALVINGS {
        if high <= low {
            return Ok(low);
        }
        let middle = low + (high - low) / 2;
        let has = match has_byte(source, middle) {
            Ok(has) => has,
            Err(_) => return Err(FaultKind::Read.at(middle)),
        };
        if has {
            low = middle + 1;
        } else {
            high = middle;
        }
    }
    Ok(low)
}

/// What is wrong after a block that ends at an offset of a source, if anything is. The source has a byte before offset
/// `known`, and no byte of the block from there on is read. A failed read is reported at the offset that was asked for.
fn check_end_beyond<S: Source>(source: &mut S, known: u64, end: u64) -> Result<(), Fault>
    requires some { 0 < known }
    requires limit { end ≤ 2 ^ 62 }
    ensures closes { IfHeld (S.seen source.old).holds (λ bytes. known ≤ length (near bytes) →
        Closes known end bytes result) }
    ensures limit { IfOk result (λ _. end + CLOSING ≤ max_archive) }
    ensures asked { IfErr result (λ f. f.kind ≡ Read → f.offset ≡ (S.seen source.new).asked) }
    ensures reads { ReadsAlone 52 result (S.seen source.old) (S.seen source.new) }
{
    let mut closing = [0u8; 4];
    let n = match read_closing(source, end, &mut closing) {
        Ok(n) => n,
        Err(fault) => return Err(fault),
    };
    if !begins_as(&closing[..n], b"\r\n\r\n") {
        return Err(FaultKind::End.at(end));
    }
    if n == 4 {
        return Ok(());
    }
    if n > 0 {
        return Err(FaultKind::Truncated.at(end + n as u64));
    }
    match find_end(source, known, end) {
        Ok(len) => Err(FaultKind::Truncated.at(len)),
        Err(unread) => Err(unread),
    }
}

/// Where the block ends after the good head at the front of a text, or why no good head is there.
fn read_block_end<A: Allocator + Copy>(alloc: A, text: &[u8]) -> Result<u64, Fault>
    ensures exact { MatchResult result (HasBlockEnd text.now) (λ f. HeadMisses f.kind text.now f) }
    ensures bound { IfErr result (λ f. f.offset ≤ length text.now) }
{
    if text.is_empty() {
        return Err(FaultKind::Truncated.at(0));
    }
    let head = read_head(alloc, text)?;
    let end = head.len as u64 + head.block_len;
    let _good = match good_head_of(head.fields) {
        Ok(good) => good,
        Err(kind) => return Err(kind.at(0)),
    };
    Ok(end)
}

/// Where the block ends after the good head at an offset, counted from there, or why no good record is there. It reads
/// on by the window as long as what that shows is no whole head.
fn find_block_end<S: Source, A: Allocator + Copy>(
    alloc: A,
    source: &mut S,
    window: &mut Window<A>,
    at: u64,
) -> Result<u64, Fault>
    requires limit { at ≤ max_archive }
    requires begin { window.old.begin ≤ at }
    ensures shows { IfHeld (S.seen source.old).holds (λ bytes. Shows bytes window.old → at ≤ length (near bytes) →
        Shows bytes window.new) }
    ensures end { IfOk result (HasBlockEnd (drop (at - window.new.begin) window.new.bytes)) }
    ensures misses { IfHeld (S.seen source.old).holds (λ bytes. Shows bytes window.old → at ≤ length (near bytes) →
        IfErr result (λ f. MissesBy f.kind at bytes f)) }
    ensures begin { window.new.begin ≤ at }
    ensures asked { IfErr result (λ f. f.kind ≡ Read → f.offset ≡ (S.seen source.new).asked) }
    ensures reads { ReadsBy 1 result window.old window.new (S.seen source.old) (S.seen source.new) }
{
    'reading: loop {
        match read_block_end(alloc, window.shown(at)) {
            Ok(end) => return Ok(end),
            Err(fault) => {
                if !is_cut(fault.kind) {
                    return Err(fault.kind.at(at + fault.offset));
                }
                if window.is_last() {
                    return Err(fault.kind.at(at + fault.offset));
                }
            }
        }
        window.more(source, at)?;
    }
}

/// The length of the record at an offset whose head is good and whose block ends at a place counted from there, or why
/// it isn't whole. If the window doesn't show its end, the bytes after the block are read alone.
fn close_record<S: Source, A: Allocator>(
    source: &mut S,
    window: &Window<A>,
    at: u64,
    end: u64,
) -> Result<u64, Fault>
    requires limit { at ≤ max_archive }
    requires begin { window.now.begin ≤ at }
    requires head { HasBlockEnd (drop (at - window.now.begin) window.now.bytes) end }
    ensures judges { IfHeld (S.seen source.old).holds (λ bytes. Shows bytes window.now → at ≤ length (near bytes) →
        FindsRecord at bytes result) }
    ensures some { IfOk result (λ len. 0 < len) }
    ensures far { IfOk result (λ len. at + len ≤ max_archive) }
    ensures asked { IfErr result (λ f. f.kind ≡ Read → f.offset ≡ (S.seen source.new).asked) }
    ensures reads { ReadsAlone 52 result (S.seen source.old) (S.seen source.new) }
{
    let shown = window.shown(at);
    match check_end(shown, end) {
        Ok(()) => return Ok(end + CLOSING),
        Err(fault) => {
            if !is_cut(fault.kind) {
                return Err(fault.kind.at(at + fault.offset));
            }
            if window.is_last() {
                return Err(fault.kind.at(at + fault.offset));
            }
        }
    }
    match check_end_beyond(source, at + shown.len() as u64, at + end) {
        Ok(()) => Ok(end + CLOSING),
        Err(fault) => Err(fault),
    }
}

/// The length of the good record at an offset, by its plain head and what is shown of it alone.
#[inline(always)]
fn quick_len<A: Allocator>(window: &Window<A>, at: u64) -> Option<u64>
    requires limit { at ≤ max_archive }
    requires begin { window.now.begin ≤ at }
    ensures judges { (bytes : List ℕ) → Shows bytes window.now → at ≤ length (near bytes) →
        IfSome result (λ len. FindsRecord at bytes (Ok len)) }
    ensures some { IfSome result (λ len. 0 < len) }
    ensures shown { IfSome result (λ _. at ≤ reached window.now) }
    ensures far { IfSome result (λ len. at + len ≤ max_archive) }
{
    let Some(found) = quick_record(window.shown(at)) else {
        return None;
    };
    Some(found.len as u64)
}

/// What `record_len` gives, by the fields of any head.
fn record_len_by_fields<S: Source, A: Allocator + Copy>(
    alloc: A,
    source: &mut S,
    window: &mut Window<A>,
    at: u64,
) -> Result<u64, Fault>
    requires limit { at ≤ max_archive }
    requires begin { window.old.begin ≤ at }
    ensures judges { IfHeld (S.seen source.old).holds (λ bytes. Shows bytes window.old → at ≤ length (near bytes) →
        Shows bytes window.new × FindsRecord at bytes result) }
    ensures begin { window.new.begin ≤ at }
    ensures some { IfOk result (λ len. 0 < len) }
    ensures far { IfOk result (λ len. at + len ≤ max_archive) }
    ensures shown { IfOk result (λ _. at ≤ reached window.new) }
    ensures asked { IfErr result (λ f. f.kind ≡ Read → f.offset ≡ (S.seen source.new).asked) }
    ensures reads { ReadsBy own_reads result window.old window.new (S.seen source.old) (S.seen source.new) }
{
    let end = find_block_end(alloc, source, window, at)?;
    close_record(source, window, at, end)
}

/// The length of the good record at an offset, or why none is there whole. It reads on by the window as long as what
/// that shows is no whole head, and no further; of a block that isn't shown it looks at the four bytes after it alone.
#[inline(always)]
pub(crate) fn record_len<S: Source, A: Allocator + Copy>(
    alloc: A,
    source: &mut S,
    window: &mut Window<A>,
    at: u64,
) -> Result<u64, Fault>
    requires limit { at ≤ max_archive }
    requires begin { window.old.begin ≤ at }
    ensures judges { IfHeld (S.seen source.old).holds (λ bytes. Shows bytes window.old → at ≤ length (near bytes) →
        Shows bytes window.new × FindsRecord at bytes result) }
    ensures begin { window.new.begin ≤ at }
    ensures some { IfOk result (λ len. 0 < len) }
    ensures far { IfOk result (λ len. at + len ≤ max_archive) }
    ensures shown { IfOk result (λ _. at ≤ reached window.new) }
    ensures asked { IfErr result (λ f. f.kind ≡ Read → f.offset ≡ (S.seen source.new).asked) }
    ensures reads { ReadsBy own_reads result window.old window.new (S.seen source.old) (S.seen source.new) }
{
    match quick_len(window, at) {
        Some(len) => Ok(len),
        None => record_len_by_fields(alloc, source, window, at),
    }
}
