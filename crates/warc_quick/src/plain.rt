//! A whole record whose head is plain.
ghost use Rattle.std.specs.Prelude.{◌≡◌, ◌+◌, ◌≤◌, IfSome, Ok, length, slice_range, true};
ghost use Rattle.warc_frame.specs.Reading.{block_at};
ghost use Rattle.warc_frame.specs.Record.{max_block};
ghost use Rattle.warc_quick.specs.Quick.{IsQuickHead, IsQuickRecord};

use crate::head::{QuickHead, quick_head};
use crate::record_findings::head_with_findings;

/// What closes a record.
const CLOSING: &[u8] = b"\r\n\r\n";

/// A good record whose head was read in place.
#[derive(Clone, Copy)]
pub struct QuickRecord<'a> {
    /// What its head says.
    pub head: QuickHead<'a>,

    /// The text of its head.
    pub head_text: &'a [u8],

    /// Its block.
    pub block: &'a [u8],

    /// How many bytes it has, the two CRLFs that close it included.
    pub len: usize,
}

/// The block of `block_len` bytes after a head, if it is there and closed.
#[inline(always)]
#[tactic(auto, unfolding(warc_frame::specs::Reading::block_at))]
fn closed_block(head_len: usize, block_len: u64, text: &[u8]) -> Option<&[u8]>
    requires head { head_len ≤ length text.now }
    requires block { block_len ≤ max_block }
    ensures block { IfSome result (λ block. block_at head_len block_len text.now ≡ Ok block.now) }
    ensures is { IfSome result (λ block. block.now ≡ slice_range text.now head_len (head_len + block_len)) }
    ensures within { IfSome result (λ _. head_len + block_len + 4 ≤ length text.now) }
{
    let rest = &text[head_len..];
    if (rest.len() as u64) < block_len + 4 {
        return None;
    }
    let (block, closing) = rest.split_at(block_len as usize);
    if !closing.starts_with(CLOSING) {
        return None;
    }
    Some(block)
}

/// The record at the front of a text whose head is this one, if all of it is there.
#[inline(always)]
fn with_block<'a>(text: &'a [u8], head: QuickHead<'a>) -> Option<QuickRecord<'a>>
    requires head { IsQuickHead text.now head }
    requires block { head.block_len ≤ max_block }
    ensures { IfSome result (IsQuickRecord text.now) }
{
    let block = closed_block(head.len, head.block_len, text)?;
    Some(QuickRecord {
        head,
        head_text: &text[..head.len],
        block,
        len: head.len + block.len() + CLOSING.len(),
    })
}

/// The good record at the front of a text, if its head is plain and all of it is there. `None` says nothing of the
/// text. Its findings aren't looked for.
#[inline(always)]
pub fn quick_record(text: &[u8]) -> Option<QuickRecord<'_>>
    ensures { IfSome result (IsQuickRecord text.now) }
{
    with_block(text, quick_head(text)?)
}

/// The record that `quick_record` gives, with its findings, if they are known.
#[inline(always)]
pub fn record_with_findings(text: &[u8]) -> Option<QuickRecord<'_>>
    ensures { IfSome result (IsQuickRecord text.now) }
{
    with_block(text, head_with_findings(text)?)
}
