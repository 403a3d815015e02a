//! What the fields of a response head say of the body's media type and of its codings.
ghost use Rattle.std.specs.Prelude.{◌≡◌, ◌+◌, ◌≤◌, ◌++◌, length, map, All, IfOk, OnOk, option_map};
ghost use Rattle.std.specs.Option.{option_map_or};
ghost use Rattle.httparse.specs.Spans.{IsHeaderWithin, header_bytes};
ghost use Rattle.warc_payload.specs.Texts.{codings_in, coding_text, coding_text_if, is_content_type, media_len, media_len_by, media_type, media_type_in, token_len};

use crate::names_coding;
use httparse::is_header_name_token;
use httparse::spans::HeaderSpan;
use std::alloc::{AllocError, Allocator};

/// How many bytes of a token a text begins with.
fn token_len(text: &[u8]) -> usize
    ensures count { result ≡ token_len text.now }
    ensures within { result ≤ length text.now }
{
    let mut count = 0;
    while count < text.len() && is_header_name_token(text[count]) {
        count += 1;
    }
    count
}

/// How long a media type is, by the length of the token at its beginning and by what follows that.
fn media_len_by(first: usize, rest: &[u8]) -> usize
    requires { first + length rest.now ≤ 18446744073709551615 }
    ensures value { result ≡ media_len_by first rest.now }
    ensures within { result ≤ first + length rest.now }
{
    let Some((byte, rest)) = rest.split_first() else {
        return 0;
    };
    let second = token_len(rest);
    if *byte == b'/' && first > 0 && second > 0 {
        first + 1 + second
    } else {
        0
    }
}

/// How long the media type is that a value begins with, 0 if there is none.
fn media_len(value: &[u8]) -> usize
    ensures value { result ≡ media_len value.now }
    ensures within { result ≤ length value.now }
{
    let first = token_len(value);
    media_len_by(first, &value[first..])
}

/// The media type that the value of a `Content-Type` field begins with: the longest `token/token`, with anything after
/// it. It is empty if there is none.
pub fn media_type(value: &[u8]) -> &[u8]
    ensures { result.now ≡ media_type value.now }
{
    &value[..media_len(value)]
}

/// Whether a field of the text states the media type.
fn is_content_type(text: &[u8], field: &HeaderSpan) -> bool
    requires { IsHeaderWithin (length text.now) field.now }
    ensures { result ≡ is_content_type (header_bytes text.now field.now) }
{
    field.name.of(text).eq_ignore_ascii_case(b"content-type")
}

/// The media type that the first of the fields states that states one, empty if none does.
pub(crate) fn media_type_in<'a>(text: &'a [u8], fields: &[HeaderSpan]) -> &'a [u8]
    requires { All (IsHeaderWithin (length text.now)) fields.now }
    ensures { result.now ≡ media_type_in (map (header_bytes text.now) fields.now) }
{
    'finding: for field in fields {
        if is_content_type(text, field) {
            return media_type(field.value.of(text));
        }
    }
    b""
}

/// Adds what is said of a field that names a coding.
fn add_coding<A: Allocator + Copy>(
    alloc: A,
    name: &[u8],
    value: &[u8],
    codings: &mut Vec<u8, A>,
) -> Result<(), AllocError>
    ensures { OnOk result (codings.new.items ≡ codings.old.items ++ coding_text (name.now, value.now)) }
{
    let lower = name.to_ascii_lowercase(alloc)?;
    codings.extend_from_slice(b" ")?;
    codings.extend_from_slice(&lower)?;
    codings.extend_from_slice(b"=")?;
    codings.extend_from_slice(value)
}

/// Adds what is said of a field, if it names a coding.
fn add_if<A: Allocator + Copy>(
    alloc: A,
    text: &[u8],
    field: &HeaderSpan,
    codings: &mut Vec<u8, A>,
) -> Result<(), AllocError>
    requires { IsHeaderWithin (length text.now) field.now }
    ensures { OnOk result (codings.new.items ≡ codings.old.items ++ coding_text_if (header_bytes text.now field.now)) }
{
    if names_coding(text, field) {
        add_coding(alloc, field.name.of(text), field.value.of(text), codings)
    } else {
        Ok(())
    }
}

/// What is said of the fields that name a coding.
pub(crate) fn codings_in<A: Allocator + Copy>(
    alloc: A,
    text: &[u8],
    fields: &[HeaderSpan],
) -> Result<Vec<u8, A>, AllocError>
    requires { All (IsHeaderWithin (length text.now)) fields.now }
    ensures { IfOk result (λ codings. codings.items ≡ codings_in (map (header_bytes text.now) fields.now)) }
{
    let mut codings = Vec::new(alloc);
    'adding: for field in fields {
        add_if(alloc, text, field, &mut codings)?;
    }
    Ok(codings)
}
