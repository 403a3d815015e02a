//! The `Content-Type` among the lines of a good head, found without reading any other field.
ghost use Rattle.std.specs.Prelude.{◌≡◌, ℕ, ◌+◌, ◌<◌, ◌∷◌, List, Some, Ok, IfSome, false, true, length, take, drop, position};
ghost use Rattle.std.specs.Option.{option_or};
ghost use Rattle.warc_field.specs.Area.{Pair, area_of, field_of, first_value, is_colon};
ghost use Rattle.warc_field.specs.Lines.{begins_blank, crlf_at, lines};
ghost use Rattle.warc_field.specs.Text.{same};
ghost use Rattle.warc_frame.specs.Names.{content_type};
ghost use Rattle.warc_replay.specs.TypeLines.{IsUnsegmentedType, KeepsType, found_text};

use memchr::memchr;
use warc_field::trim;
use warc_frame::names;

/// Whether a text begins with a space or a tab.
#[tactic(auto, unfolding(warc_field::specs::Text::is_blank))]
fn begins_blank(text: &[u8]) -> bool
    ensures { result ≡ begins_blank text.now }
{
    match text.first() {
        Some(byte) => *byte == b' ' || *byte == b'\t',
        None => false,
    }
}

/// The first line of an area, and what follows it, unless the line is folded or isn't ended.
fn first_line(area: &[u8]) -> Option<(&[u8], &[u8])>
    ensures cut { IfSome result (λ parts. lines area.now ≡ parts.0.now ∷ lines parts.1.now) }
    ensures flat { IfSome result (λ parts. (k : ℕ) → crlf_at parts.0.now k ≡ false) }
    ensures less { IfSome result (λ parts. length parts.1.now < length area.now) }
{
    let end = memchr(b'\n', area)?;
    if end == 0 || area[end - 1] != b'\r' {
        return None;
    }
    let more = &area[end + 1..];
    if begins_blank(more) {
        return None;
    }
    Some((&area[..end - 1], more))
}

/// The place of the first colon.
#[tactic(auto, using(warc_field::proofs::TokenLemmas::first_is_position))]
fn first_colon(line: &[u8]) -> Option<usize>
    ensures value { result ≡ position is_colon line.now }
    ensures within { IfSome result (λ k. k < length line.now) }
{
    memchr(b':', line)
}

/// Whether a line begins with a name and a colon.
fn is_named(line: &[u8], name: &[u8]) -> bool
    ensures not { result ≡ false → (field : Pair) → field_of line.now ≡ Some field → same field.0 name.now ≡ false }
    ensures is { result ≡ true → same (take (length name.now) line.now) name.now ≡ true }
{
    let len = name.len();
    if line.len() <= len {
        return false;
    }
    if line[len] != b':' {
        return false;
    }
    line[..len].eq_ignore_ascii_case(name)
}

/// The value of the field that a line is, if its name ends at a place. The line isn't folded.
fn value_after(line: &[u8], place: usize) -> Option<&[u8]>
    requires { (k : ℕ) → crlf_at line.now k ≡ false }
    ensures { IfSome result (λ value. (field : Pair) → field_of line.now ≡ Some field →
        field ≡ (take place line.now, value.now)) }
{
    if first_colon(line)? != place {
        return None;
    }
    Some(trim(&line[place + 1..]))
}

/// The value of a line's field, if that is a `Content-Type`. `None`: it isn't known.
fn type_in(line: &[u8]) -> Option<Option<&[u8]>>
    requires { (k : ℕ) → crlf_at line.now k ≡ false }
    ensures { IfSome result (λ found. (field : Pair) (later : List Pair) → field_of line.now ≡ Some field →
        first_value content_type (field ∷ later) ≡ option_or (found_text found) (first_value content_type later)) }
{
    let name = names::CONTENT_TYPE.as_bytes();
    if !is_named(line, name) {
        return Some(None);
    }
    let value = value_after(line, name.len())?;
    Some(Some(value))
}

/// The value of the first `Content-Type` so far, with the next line. `None`: it isn't known, or the line has the number
/// of a segment.
fn with_line<'a>(found: Option<&'a [u8]>, line: &'a [u8]) -> Option<Option<&'a [u8]>>
    requires { (k : ℕ) → crlf_at line.now k ≡ false }
    ensures { IfSome result (KeepsType line.now found.entry) }
{
    if is_named(line, names::WARC_SEGMENT_NUMBER.as_bytes()) {
        return None;
    }
    match found {
        Some(value) => Some(Some(value)),
        None => type_in(line),
    }
}

/// The value of the first `Content-Type` of a field area, empty if it has none. `None`: the area may have the number of
/// a segment, or a folded line.
pub(crate) fn unsegmented_type(area: &[u8]) -> Option<&[u8]>
    ensures { IfSome result (λ value. (fields : List Pair) → area_of area.now ≡ Ok fields →
        IsUnsegmentedType fields value.now) }
{
    let mut found: Option<&[u8]> = None;
    let mut rest = area;
    while !rest.is_empty() {
        let (line, more) = first_line(rest)?;
        found = with_line(found, line)?;
        rest = more;
    }
    match found {
        Some(value) => Some(value),
        None => Some(b""),
    }
}
