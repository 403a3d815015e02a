//! How far bytes of one kind go on, sixteen bytes at a time.
ghost use Rattle.std.specs.Prelude.{◌≡◌, ℕ, ◌+◌, ◌<◌, ◌≤◌, ◌==◌, false, true, not, if◌then◌else◌};
ghost use Rattle.std.specs.Prelude.{IfSome, drop, length, slice_index, take};
ghost use Rattle.std.specs.Int.{trailing_zeros, w64};
ghost use Rattle.std.specs.List.{prefix_len};
ghost use Rattle.warc_field.specs.Text.{is_value_byte};
ghost use Rattle.warc_record.specs.Ids.{ends_id};

use memchr::memchr;
use std::simd::prelude::*;

/// How many bytes are looked at together.
pub(crate) const LANES: usize = 16;

/// The control character that comes after the printed characters of ASCII.
const DELETE: u8 = 127;

/// The place of the lowest bit that is set, or the number of lanes if none is.
#[inline(always)]
fn lowest(mask: u64) -> usize
    ensures { result ≡ (if mask == 0 then LANES else trailing_zeros w64 mask) }
{
    if mask == 0 {
        LANES
    } else {
        mask.trailing_zeros() as usize
    }
}

/// How many of the sixteen bytes from a place on come before the first colon.
#[inline(always)]
fn colon_run(text: &[u8], at: usize) -> usize
    requires { at + LANES ≤ length text.now }
    ensures { result ≡ prefix_len (λ b. not (b == 58)) (take LANES (drop at text.now)) }
{
    let bytes = u8x16::from_slice(&text[at..]);
    lowest(bytes.simd_eq(u8x16::splat(b':')).to_bitmask())
}

/// How many of the sixteen bytes from a place on come before the first control character that isn't a tab.
#[inline(always)]
fn value_run(text: &[u8], at: usize) -> usize
    requires { at + LANES ≤ length text.now }
    ensures { result ≡ prefix_len is_value_byte (take LANES (drop at text.now)) }
{
    let bytes = u8x16::from_slice(&text[at..]);
    let low = bytes.simd_lt(u8x16::splat(b' ')) & bytes.simd_ne(u8x16::splat(b'\t'));
    lowest((low | bytes.simd_eq(u8x16::splat(DELETE))).to_bitmask())
}

/// How many of the sixteen bytes from a place on come before the first bracket, space or tab.
#[inline(always)]
fn id_run(text: &[u8], at: usize) -> usize
    requires { at + LANES ≤ length text.now }
    ensures { result ≡ prefix_len (λ b. not (ends_id b)) (take LANES (drop at text.now)) }
{
    let bytes = u8x16::from_slice(&text[at..]);
    let bracket = bytes.simd_eq(u8x16::splat(b'<')) | bytes.simd_eq(u8x16::splat(b'>'));
    let blank = bytes.simd_eq(u8x16::splat(b' ')) | bytes.simd_eq(u8x16::splat(b'\t'));
    lowest((bracket | blank).to_bitmask())
}

/// The place of a colon. One after a name is mostly among the first bytes.
#[inline(always)]
pub(crate) fn find_colon(text: &[u8]) -> Option<usize>
    ensures { IfSome result (λ at. (at < length text.now) × (slice_index text.now at ≡ 58)) }
{
    if text.len() >= 2 * LANES {
        let run = colon_run(text, 0);
        if run < LANES {
            return Some(run);
        }
        let run = colon_run(text, LANES);
        if run < LANES {
            return Some(LANES + run);
        }
    }
    memchr(b':', text)
}

/// Whether a byte is no control character other than a tab.
#[tactic(auto, unfolding(warc_field::specs::Text::is_value_byte))]
fn is_value_byte(byte: u8) -> bool
    ensures { result ≡ is_value_byte byte }
{
    byte == b'\t' || (byte > 31 && byte != DELETE)
}

/// The place of the first control character that isn't a tab from a place on, or the end of the text.
fn value_end(text: &[u8], from: usize) -> usize
    requires { from ≤ length text.now }
    ensures value { result ≡ from + prefix_len is_value_byte (drop from text.now) }
    ensures within { result ≤ length text.now }
{
    let mut at = from;
    while at < text.len() && is_value_byte(text[at]) {
        at += 1;
    }
    at
}

/// How many bytes a text has before its first control character that isn't a tab.
#[inline(always)]
pub(crate) fn value_len(text: &[u8]) -> usize
    ensures value { result ≡ prefix_len is_value_byte text.now }
    ensures within { result ≤ length text.now }
{
    let mut at = 0;
    while text.len() - at >= LANES {
        let run = value_run(text, at);
        if run < LANES {
            return at + run;
        }
        at += LANES;
    }
    value_end(text, at)
}

/// Whether no bracket, space or tab is in a text of at least sixteen bytes. The last look may overlap the one before.
pub(crate) fn holds_no_id_end(text: &[u8]) -> bool
    requires { LANES ≤ length text.now }
    ensures { result ≡ true → (k : ℕ) → k < length text.now → ends_id (slice_index text.now k) ≡ false }
{
    let last = text.len() - LANES;
    let mut at = 0;
    while at < last {
        if id_run(text, at) < LANES {
            return false;
        }
        at += LANES;
    }
    id_run(text, last) == LANES
}
