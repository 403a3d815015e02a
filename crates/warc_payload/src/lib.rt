//! Where the body of a stored HTTP response begins.
#![tactic(auto)]

ghost use Rattle.std.specs.Prelude.{◌≡◌, ◌≤◌, ℕ, List, length, All, IfErr, IfOk, OnErr};
ghost use Rattle.std.specs.List.{list_any};
ghost use Rattle.httparse.specs.Grammar.{ResponseHead};
ghost use Rattle.httparse.specs.Spans.{IsHeaderWithin, header_bytes};
ghost use Rattle.warc_payload.specs.Coding.{is_coding, names_coding, names_transfer_coding};
ghost use Rattle.warc_payload.specs.Head.{HasNoHead, IsInfoOf, front_of, most_head_bytes};
ghost use Rattle.warc_payload.specs.Texts.{AreHeadTexts};

use httparse::Status;
use httparse::spans::{EMPTY_HEADER_SPAN, HeaderSpan, parse_response};
use std::alloc::{Allocator, Global};
use std::fmt;
use thiserror::Error;

pub mod laws;
mod texts;

pub use texts::media_type;
use texts::{codings_in, media_type_in};

/// The most bytes of a block in which its HTTP head is looked for.
pub const MOST_HEAD_BYTES: usize = 65_536;

/// The most field lines that an HTTP head may have.
pub const MOST_FIELD_LINES: usize = 256;

/// What the head of an HTTP response says of the response's body.
#[derive(Clone, Copy, Debug, PartialEq, Eq)]
pub struct HeadInfo {
    /// The number that the three digits of the status code give.
    pub status: u16,
    /// The length of the head in bytes, its empty line included: the body begins there.
    pub head_len: usize,
    /// Whether a field says that the body is coded.
    pub coded: bool,
    /// Whether a field says that a transfer coding was applied, such as `chunked`.
    pub transfer_coded: bool,
}

/// There is no whole head of at most 256 field lines at the beginning.
#[derive(Clone, Copy, Debug, PartialEq, Eq, Error)]
pub struct BadHead;

impl fmt::Display for BadHead {
    ghost use Rattle.std.specs.Prelude.{Some, codes};

    ghost output = { λ _. Some (codes "no whole HTTP head") };

    fn fmt<W: fmt::Write>(&self, f: &mut fmt::Formatter<W>) -> fmt::Result {
        write!(f, "no whole HTTP head")
    }
}

/// Whether a value names a coding: it is neither empty nor `identity`.
fn is_coding(value: &[u8]) -> bool
    ensures { result ≡ is_coding value.now }
{
    !value.is_empty() && !value.eq_ignore_ascii_case(b"identity")
}

/// Whether a field of the text names a coding.
fn names_coding(text: &[u8], field: &HeaderSpan) -> bool
    requires { IsHeaderWithin (length text.now) field.now }
    ensures { result ≡ names_coding (header_bytes text.now field.now) }
{
    let name = field.name.of(text);
    let lists_codings = name.eq_ignore_ascii_case(b"transfer-encoding")
        || name.eq_ignore_ascii_case(b"content-encoding");
    lists_codings && is_coding(field.value.of(text))
}

/// Whether a field of the text names a transfer coding.
fn names_transfer_coding(text: &[u8], field: &HeaderSpan) -> bool
    requires { IsHeaderWithin (length text.now) field.now }
    ensures { result ≡ names_transfer_coding (header_bytes text.now field.now) }
{
    field
        .name
        .of(text)
        .eq_ignore_ascii_case(b"transfer-encoding")
        && is_coding(field.value.of(text))
}

/// Whether one of the fields names a coding.
fn any_names_coding(text: &[u8], fields: &[HeaderSpan]) -> bool
    requires { All (IsHeaderWithin (length text.now)) fields.now }
    ensures { result ≡ list_any (λ f. names_coding (header_bytes text.now f)) fields.now }
{
    fields.iter().any(|field| names_coding(text, field))
}

/// Whether one of the fields names a transfer coding.
fn any_names_transfer_coding(text: &[u8], fields: &[HeaderSpan]) -> bool
    requires { All (IsHeaderWithin (length text.now)) fields.now }
    ensures { result ≡ list_any (λ f. names_transfer_coding (header_bytes text.now f)) fields.now }
{
    fields
        .iter()
        .any(|field| names_transfer_coding(text, field))
}

/// The part of a block in which its HTTP head is looked for: its first 65,536 bytes, or all if it is shorter.
#[tactic(auto, unfolding(crate::specs::Head::front_of))]
pub fn front(block: &[u8]) -> &[u8]
    ensures { result.now ≡ front_of block.now }
{
    &block[..MOST_HEAD_BYTES.min(block.len())]
}

/// The head of an HTTP/1.0 or HTTP/1.1 response at the beginning of `text`, which is the block's first 65,536 bytes, or
/// the whole block if that is shorter (RFC 9112, sections 2 to 5). `BadHead` if there is no whole head of at most 256
/// field lines. It doesn't allocate.
pub fn body_start(text: &[u8]) -> Result<HeadInfo, BadHead>
    requires { length text.now ≤ most_head_bytes }
    ensures found { IfOk result (λ info. (head : ResponseHead) × IsInfoOf text.now info head) }
    ensures none { OnErr result (HasNoHead text.now) }
{
    let mut fields = [EMPTY_HEADER_SPAN; MOST_FIELD_LINES];
    match parse_response(text, &mut fields) {
        Ok(Status::Complete(head)) => Ok(HeadInfo {
            status: head.code,
            head_len: head.len,
            coded: any_names_coding(text, &fields[..head.headers]),
            transfer_coded: any_names_transfer_coding(text, &fields[..head.headers]),
        }),
        _ => Err(BadHead),
    }
}

/// What the head of an HTTP response says, with texts of its own.
#[derive(Debug, Drop)]
pub struct StoredHead<A: Allocator = Global> {
    pub info: HeadInfo,
    /// The media type that the first `Content-Type` begins with, empty if there is none.
    pub media_type: Vec<u8, A>,
    /// For each field that names a coding a space, its name in lower case, `=` and its value.
    pub codings: Vec<u8, A>,
}

/// Why no head is read.
#[derive(Clone, Copy, Debug, PartialEq, Eq, Error)]
pub enum HeadFault {
    /// There is no whole head of at most 256 field lines at the beginning.
    Bad,
    /// An allocation failed.
    Memory,
}

impl fmt::Display for HeadFault {
    ghost use Rattle.warc_payload.specs.Texts.{head_fault_text};
    ghost use Rattle.std.specs.Prelude.{Some};

    ghost output = { λ fault. Some (head_fault_text fault) };

    fn fmt<W: fmt::Write>(&self, f: &mut fmt::Formatter<W>) -> fmt::Result {
        match self {
            HeadFault::Bad => write!(f, "no whole HTTP head"),
            HeadFault::Memory => write!(f, "out of memory"),
        }
    }
}

/// The head of a response at the beginning of `text`, as `body_start` finds it, and the texts that it gives.
pub fn read_head<A: Allocator + Copy>(alloc: A, text: &[u8]) -> Result<StoredHead<A>, HeadFault>
    requires { length text.now ≤ most_head_bytes }
    ensures found { IfOk result (λ h. (head : ResponseHead) × IsInfoOf text.now h.info head
        × AreHeadTexts head h.media_type.items h.codings.items) }
    ensures none { IfErr result (λ fault. fault ≡ HeadFault.Bad → HasNoHead text.now) }
{
    let mut spans = [EMPTY_HEADER_SPAN; MOST_FIELD_LINES];
    let Ok(Status::Complete(found)) = parse_response(text, &mut spans) else {
        return Err(HeadFault::Bad);
    };
    let fields = &spans[..found.headers];
    let info = HeadInfo {
        status: found.code,
        head_len: found.len,
        coded: any_names_coding(text, fields),
        transfer_coded: any_names_transfer_coding(text, fields),
    };
    let Ok(codings) = codings_in(alloc, text, fields) else {
        return Err(HeadFault::Memory);
    };
    match Vec::from_slice(alloc, media_type_in(text, fields)) {
        Ok(media_type) => Ok(StoredHead {
            info,
            media_type,
            codings,
        }),
        Err(_) => Err(HeadFault::Memory),
    }
}
