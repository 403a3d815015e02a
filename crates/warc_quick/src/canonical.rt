//! A plain head that is written canonically.
ghost use Rattle.std.specs.Prelude.{◌≡◌, ◌∷◌, ◌++◌, IfSome, true};
ghost use Rattle.warc_field.specs.Area.{Pair, canonical_line};
ghost use Rattle.warc_field.specs.Text.{IsField};
ghost use Rattle.warc_quick.specs.Canonical.{HasCanonicalLines, IsCanonicalHead};

use crate::head::{after_version, quick_head};
use crate::lines::split_crlf;
use crate::runs::find_colon;
use warc_field::{is_name, is_value};

/// The empty line that ends a head.
const EMPTY_LINE: &[u8] = b"\r\n";

/// What follows a space at the front of a text.
fn after_space(text: &[u8]) -> Option<&[u8]>
    ensures { IfSome result (λ rest. text.now ≡ 32 ∷ rest.now) }
{
    match text.split_first() {
        Some((b' ', rest)) => Some(rest),
        _ => None,
    }
}

/// What follows the line that a text begins with, if it is a field's canonical line: its name, a colon, a space, its
/// value.
fn after_line(text: &[u8]) -> Option<&[u8]>
    ensures { IfSome result (λ more. (field : Pair) × IsField field × (text.now ≡ canonical_line field ++ more.now)) }
{
    let colon = find_colon(text)?;
    let rest = after_space(&text[colon + 1..])?;
    let (value, more) = split_crlf(rest)?;
    if is_name(&text[..colon]) && is_value(value) {
        Some(more)
    } else {
        None
    }
}

/// Whether a text is a version line, canonical lines of fields, and an empty line.
fn has_canonical_lines(text: &[u8]) -> bool
    ensures { result ≡ true → HasCanonicalLines text.now }
{
    let Some(mut rest) = after_version(text) else {
        return false;
    };
    while rest != EMPTY_LINE {
        let Some(more) = after_line(rest) else {
            return false;
        };
        rest = more;
    }
    true
}

/// Whether a text is a plain, good head of a block of this length, and is written canonically: each field as name,
/// colon, space and value. So it is written again as it is. `false` says nothing of the text.
pub fn is_canonical_head(text: &[u8], block_len: u64) -> bool
    ensures { result ≡ true → IsCanonicalHead text.now block_len }
{
    match quick_head(text) {
        Some(head) if head.len == text.len() && head.block_len == block_len => {
            has_canonical_lines(text)
        }
        _ => false,
    }
}
