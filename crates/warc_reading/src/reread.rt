//! The heads of records, read again through the source.
ghost use Rattle.std.specs.Prelude.{◌≡◌, ℕ, ◌+◌, ◌≤◌, [], ◌∷◌, length, take, Ok, Some, None, IfOk, IfSome, MatchResult};
ghost use Rattle.warc_frame.specs.Effects.{FailsBy};
ghost use Rattle.warc_frame.specs.Reading.{any_fields, head_of};
ghost use Rattle.warc_frame.specs.Record.{Record, max_head};
ghost use Rattle.warc_frame.specs.Seen.{IfHeld};
ghost use Rattle.warc_frame.specs.declared.version.Version.{Version};
ghost use Rattle.warc_record.specs.Heads.{head_fault};
ghost use Rattle.warc_frame.specs.Send.{early_result, ended_by};
ghost use Rattle.warc_reading.specs.Rereading.{HasHeadOf, HasRoomFor, IsHeadBy, IsHeadReadOf, IsHeadText, ReadsHeads, reread_fault_of};

use crate::rows::Row;
use std::alloc::{AllocError, Allocator};
use warc_field::Fields;
use warc_frame::{EarlyFault, FaultKind, Head, MAX_HEAD, OutFault, Source, read_head, read_range};
use warc_record::{GoodHead, good_head_of};

/// Why a head isn't read again, by the outcome of reading it.
fn reread_fault_of(kind: FaultKind) -> EarlyFault
    ensures { result ≡ reread_fault_of kind }
{
    match kind {
        FaultKind::Memory => EarlyFault::Memory,
        _ => EarlyFault::Read,
    }
}

/// The head that a text is, if it is a whole one with a block of this length.
pub fn head_in<A: Allocator + Copy>(
    alloc: A,
    text: &[u8],
    block_len: u64,
) -> Result<Head<A>, EarlyFault>
    ensures is { (r : Record) → head_of any_fields text.now
        ≡ Ok (record { version = r.version; fields = r.fields; len = length text.now; block_len = block_len })
        → MatchResult result (IsHeadReadOf r) (λ e. e ≡ EarlyFault.Memory) }
    ensures whole { IfOk result (λ h. head_of any_fields text.now
        ≡ Ok (record { version = h.version; fields = h.fields; len = length text.now; block_len = block_len })) }
{
    let head = match read_head(alloc, text) {
        Ok(head) => head,
        Err(fault) => return Err(reread_fault_of(fault.kind)),
    };
    if head.len != text.len() || head.block_len != block_len {
        return Err(EarlyFault::Read);
    }
    Ok(head)
}

/// The good head of these fields.
fn judged<A: Allocator>(fields: Fields<A>) -> Result<GoodHead<A>, EarlyFault>
    ensures fields { IfOk result (λ head. head ≡ fields) }
    ensures read { head_fault fields ≡ None →
        MatchResult result (λ head. head ≡ fields) (λ e. e ≡ EarlyFault.Memory) }
{
    match good_head_of(fields) {
        Ok(head) => Ok(head),
        Err(kind) => Err(reread_fault_of(kind)),
    }
}

/// The good head that a text is, if it is a whole one with a block of this length.
pub fn good_head_in<A: Allocator + Copy>(
    alloc: A,
    text: &[u8],
    block_len: u64,
) -> Result<GoodHead<A>, EarlyFault>
    ensures is { (r : Record) → head_of any_fields text.now
        ≡ Ok (record { version = r.version; fields = r.fields; len = length text.now; block_len = block_len })
        → head_fault r.fields ≡ None → MatchResult result (λ head. head ≡ r.fields) (λ e. e ≡ EarlyFault.Memory) }
    ensures whole { IfOk result (λ head. (version : Version) × (head_of any_fields text.now
        ≡ Ok (record { version = version; fields = head; len = length text.now; block_len = block_len }))) }
{
    let head = head_in(alloc, text, block_len)?;
    judged(head.fields)
}

/// The length of a record's head, if it is at most this.
fn head_len(row: &Row<'_>, most: usize) -> Option<usize>
    ensures within { IfSome result (λ len. (len ≤ most) × (row.now.offset + len ≡ row.now.block_start)) }
    ensures only { (len : ℕ) → row.now.block_start ≡ row.now.offset + len → len ≤ most → result ≡ Some len }
{
    if row.block_start < row.offset || row.block_start - row.offset > most as u64 {
        return None;
    }
    Some((row.block_start - row.offset) as usize)
}

/// A buffer that any head fits.
pub fn head_buffer<A: Allocator>(alloc: A) -> Result<Vec<u8, A>, AllocError>
    ensures { IfOk result (λ v. max_head ≤ length v.items) }
{
    vec![in alloc; 0u8; MAX_HEAD]
}

/// A buffer that the head of a row's record fits, as long as that head.
pub fn buffer_for<A: Allocator>(alloc: A, row: &Row<'_>) -> Result<Vec<u8, A>, AllocError>
    ensures { IfOk result (λ v. HasRoomFor row.now v.items) }
{
    let len = row.block_start.saturating_sub(row.offset);
    vec![in alloc; 0u8; len.min(MAX_HEAD as u64) as usize]
}

/// Reads the text of a record's head again into the front of a buffer that it fits, and returns its length. If the
/// source doesn't give what it gave before, the text may be anything.
pub fn reread_text<S: Source>(
    source: &mut S,
    row: &Row<'_>,
    buf: &mut [u8],
) -> Result<usize, EarlyFault>
    requires { HasRoomFor row.now buf.old }
    ensures text { IfHeld (S.seen source.old).holds (λ bytes. (is : HasHeadOf row.now bytes) →
        IfOk result (λ len. IsHeadText is.placed.content row.now (take len buf.new))) }
    ensures size { IfOk result (λ len. (len ≤ length buf.new) × (row.now.offset + len ≡ row.now.block_start)) }
    ensures kept { length buf.new ≡ length buf.old }
    ensures reads { ReadsHeads (row.now ∷ []) (S.seen source.old) (S.seen source.new) }
    ensures fails { FailsBy (HasHeadOf row.now) (early_result result) (S.seen source.old) (S.seen source.new) }
{
    let Some(len) = head_len(row, buf.len()) else {
        return Err(EarlyFault::Read);
    };
    match read_range(source, row.offset, &mut buf[..len]) {
        Ok(()) => Ok(len),
        Err(_) => Err(EarlyFault::Read),
    }
}

/// Reads a record's head again, through a buffer that it fits. If the source doesn't give what it gave before,
/// the head is taken only if it is a whole head as long as the row says, with a block as long as the row says.
pub fn reread_head<S: Source, A: Allocator + Copy>(
    alloc: A,
    source: &mut S,
    row: &Row<'_>,
    buf: &mut [u8],
) -> Result<Head<A>, EarlyFault>
    requires { HasRoomFor row.now buf.old }
    ensures read { IfHeld (S.seen source.old).holds (λ bytes. (is : HasHeadOf row.now bytes) →
        IfOk result (IsHeadReadOf is.placed.content)) }
    ensures whole { IfOk result (λ h. IsHeadBy row.now h.fields) }
    ensures reads { ReadsHeads (row.now ∷ []) (S.seen source.old) (S.seen source.new) }
    ensures fails { FailsBy (HasHeadOf row.now) (early_result result) (S.seen source.old) (S.seen source.new) }
{
    let len = reread_text(source, row, buf)?;
    head_in(alloc, &buf[..len], row.block_len)
}

/// Reads a record's head again, through a buffer that it fits. It must be good. If the source doesn't give what it gave
/// before, the head is taken as by `reread_head`.
pub fn reread_good<S: Source, A: Allocator + Copy>(
    alloc: A,
    source: &mut S,
    row: &Row<'_>,
    buf: &mut [u8],
) -> Result<GoodHead<A>, EarlyFault>
    requires { HasRoomFor row.now buf.old }
    ensures read { IfHeld (S.seen source.old).holds (λ bytes. (is : HasHeadOf row.now bytes) →
        IfOk result (λ head. head ≡ is.placed.content.fields)) }
    ensures whole { IfOk result (λ head. IsHeadBy row.now head) }
    ensures reads { ReadsHeads (row.now ∷ []) (S.seen source.old) (S.seen source.new) }
    ensures fails { FailsBy (HasHeadOf row.now) (early_result result) (S.seen source.old) (S.seen source.new) }
{
    let len = reread_text(source, row, buf)?;
    good_head_in(alloc, &buf[..len], row.block_len)
}
