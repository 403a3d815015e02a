//! Lines that end with CRLF, and folds in them.
ghost use Rattle.std.specs.Prelude.{◌≡◌, ℕ, true, false, ◌+◌, ◌<◌, ◌≤◌, [], ◌∷◌, ◌++◌, length, IfSome, IfNone, IfOk};
ghost use Rattle.warc_field.specs.Lines.{crlf_at, lines, parts, unfolded};

use crate::text::{is_blank_byte, leading_blanks};
use memchr::memchr;
use std::alloc::{AllocError, Allocator};

/// The place of the first CRLF, from a place on.
pub fn find_crlf(text: &[u8], from: usize) -> Option<usize>
    requires { from ≤ length text.now }
    ensures found { IfSome result (λ at. crlf_at text.now at ≡ true) }
    ensures within { IfSome result (λ at. (from ≤ at) × (at + 2 ≤ length text.now)) }
    ensures first { IfSome result (λ at. (k : ℕ) → from ≤ k → k < at → crlf_at text.now k ≡ false) }
    ensures none { IfNone result ((k : ℕ) → from ≤ k → crlf_at text.now k ≡ false) }
{
    let mut at = from;
    while let Some(step) = memchr(b'\r', &text[at..]) {
        let next = at + step + 1;
        if next < text.len() && text[next] == b'\n' {
            return Some(next - 1);
        }
        at = next;
    }
    None
}

/// The bytes before the first CRLF, and those after it.
fn split_part(text: &[u8]) -> Option<(&[u8], &[u8])>
    ensures part { IfSome result (λ r. parts text.now ≡ r.0.now ∷ parts r.1.now) }
    ensures whole { IfSome result (λ r. length text.now ≡ length r.0.now + 2 + length r.1.now) }
    ensures none { IfNone result (parts text.now ≡ text.now ∷ []) }
{
    let at = find_crlf(text, 0)?;
    Some((&text[..at], &text[at + 2..]))
}

/// The text with a space for each CRLF that a space or tab follows, and for the run of these.
pub(crate) fn unfold<A: Allocator>(alloc: A, text: &[u8]) -> Result<Vec<u8, A>, AllocError>
    ensures { IfOk result (λ v. v.items ≡ unfolded text.now) }
{
    let mut out = Vec::with_capacity(alloc, text.len())?;
    let mut rest = text;
    while let Some((part, more)) = split_part(rest) {
        out.extend_from_slice(part)?;
        let blanks = leading_blanks(more);
        if blanks == 0 {
            out.extend_from_slice(b"\r\n")?;
        } else {
            out.push(b' ')?;
        }
        rest = &more[blanks..];
    }
    out.extend_from_slice(rest)?;
    Ok(out)
}

/// The first line, without its CRLF, and what follows it. A line ends at a CRLF that no space or tab follows.
pub(crate) fn split_line(text: &[u8]) -> Option<(&[u8], &[u8])>
    ensures line { IfSome result (λ r. lines text.now ≡ r.0.now ∷ lines r.1.now) }
    ensures whole { IfSome result (λ r. length text.now ≡ length r.0.now + 2 + length r.1.now) }
    ensures none { IfNone result (lines text.now ≡ text.now ∷ []) }
{
    let mut from = 0;
    while let Some(at) = find_crlf(text, from) {
        if at + 2 == text.len() || !is_blank_byte(text[at + 2]) {
            return Some((&text[..at], &text[at + 2..]));
        }
        from = at + 2;
    }
    None
}
