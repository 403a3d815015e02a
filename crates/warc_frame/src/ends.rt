//! Where a head ends, and with which version it begins, in bytes that come in pieces.
ghost use Rattle.std.specs.Prelude.{◌≡◌, ℕ, ◌+◌, ◌-◌, ◌<◌, ◌≤◌, ◌++◌, ◌&&◌, length, take, drop, slice_index, IfSome, IsTrue, ◌↔◌, MatchOption, None, Some};
ghost use Rattle.warc_field.specs.Lines.{crlf_at};
ghost use Rattle.warc_frame.specs.Reading.{empty_line, version_of, begins};
ghost use Rattle.warc_frame.specs.Decoding.{ends_after, closing};
ghost use Rattle.warc_frame.specs.Record.{max_head};

use crate::version::Version;
use warc_field::find_crlf;

const CLOSING: [u8; 4] = *b"\r\n\r\n";

/// The byte at a place of the two texts, one after the other.
fn byte_at(kept: &[u8], piece: &[u8], place: usize) -> u8
    requires { place < length kept.now + length piece.now }
    ensures { result ≡ slice_index (kept.now ++ piece.now) place }
{
    if place < kept.len() {
        kept[place]
    } else {
        piece[place - kept.len()]
    }
}

/// Whether a CRLF CRLF ends with this byte of the piece.
fn ends_at(kept: &[u8], piece: &[u8], place: usize) -> bool
    requires within { place < length piece.now }
    requires short { length kept.now + length piece.now ≤ max_head }
    ensures { result ≡ ends_after (kept.now ++ piece.now) (length kept.now + place) }
{
    let end = kept.len() + place;
    if piece[place] != b'\n' {
        return false;
    }
    if end < 3 {
        return false;
    }
    if byte_at(kept, piece, end - 1) != b'\r' {
        return false;
    }
    if byte_at(kept, piece, end - 2) != b'\n' {
        return false;
    }
    byte_at(kept, piece, end - 3) == b'\r'
}

/// Whether a text begins with a CRLF.
fn begins_with_crlf(text: &[u8]) -> bool
    ensures { result ≡ crlf_at text.now 0 }
{
    text.len() >= 2 && text[0] == b'\r' && text[1] == b'\n'
}

/// The place of the first CRLF CRLF.
pub(crate) fn find_empty_line(text: &[u8]) -> Option<usize>
    ensures value { result ≡ empty_line text.now }
    ensures within { IfSome result (λ at. at + 4 ≤ length text.now) }
{
    let mut from = 0;
    while let Some(at) = find_crlf(text, from) {
        if begins_with_crlf(&text[at + 2..]) {
            return Some(at);
        }
        from = at + 2;
    }
    None
}

/// How many bytes of the piece end the first CRLF CRLF, if the kept bytes hold none. Only those that begin in the
/// kept bytes are looked for byte by byte.
pub(crate) fn find_end(kept: &[u8], piece: &[u8]) -> Option<usize>
    requires short { length kept.now + length piece.now ≤ max_head }
    requires none { empty_line kept.now ≡ None }
    ensures within { IfSome result (λ n. (0 < n) × (n ≤ length piece.now) × (4 ≤ length kept.now + n)) }
    ensures end { MatchOption result (empty_line (kept.now ++ piece.now) ≡ None)
        (λ n. empty_line (kept.now ++ piece.now) ≡ Some (length kept.now + n - 4)) }
{
    for place in 0..piece.len().min(3) {
        if ends_at(kept, piece, place) {
            return Some(place + 1);
        }
    }
    let place = find_empty_line(piece)?;
    Some(place + 4)
}

/// Whether the text, as far as it goes, begins as wanted.
pub(crate) fn begins_as(text: &[u8], wanted: &[u8]) -> bool
    ensures { result ≡ begins text.now wanted.now }
{
    let len = text.len().min(wanted.len());
    wanted.starts_with(&text[..len])
}

/// Whether the two texts, one after the other, begin as the line, as far as they go.
fn begins_line(kept: &[u8], piece: &[u8], line: &[u8]) -> bool
    ensures { result ≡ begins (kept.now ++ piece.now) line.now }
{
    if !begins_as(kept, line) {
        return false;
    }
    begins_as(piece, &line[kept.len().min(line.len())..])
}

/// The version whose line the two texts, one after the other, begin with, as far as they go.
#[tactic(auto, unfolding(crate::specs::Reading::version_of))]
pub(crate) fn version_across(kept: &[u8], piece: &[u8]) -> Option<Version>
    ensures { result ≡ version_of (kept.now ++ piece.now) }
{
    if begins_line(kept, piece, b"WARC/1.1\r\n") {
        Some(Version::V1_1)
    } else if begins_line(kept, piece, b"WARC/1.0\r\n") {
        Some(Version::V1_0)
    } else {
        None
    }
}

/// Whether a CRLF CRLF has these bytes from this place on.
pub(crate) fn closes_on(bytes: &[u8], matched: usize) -> bool
    requires { matched + length bytes.now ≤ 4 }
    ensures { IsTrue result ↔ (bytes.now ≡ take (length bytes.now) (drop matched closing)) }
{
    bytes == &CLOSING[matched..matched + bytes.len()]
}
