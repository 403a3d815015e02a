//! A head, and the record at the front of a text, or the first reason why there is none.
ghost use Rattle.std.specs.Prelude.{◌≡◌, ◌≢◌, ◌<◌, ◌+◌, ◌*◌, ◌≤◌, ◌⊎◌, ℕ, ◌++◌, List, [], Ok, Err, Some, None, length, take, not, nat_lt, OnOk, IfOk, IfErr, IfSome, MatchResult};
ghost use Rattle.warc_frame.specs.declared.version.Version.{Version};
ghost use Rattle.warc_frame.specs.Names.{content_length};
ghost use Rattle.warc_frame.specs.Record.{Record, canonical_len, block_len, fault_kind_of, max_block, max_head};
ghost use Rattle.warc_frame.specs.Spelling.{Spells};
ghost use Rattle.warc_frame.specs.Reading.{any_fields, begins, block_at, head_front, head_len, head_of, record_of, version_of, AnswersAs, OrMemory};
ghost use Rattle.warc_frame.specs.Faults.{IsFrameFault};
ghost use Rattle.warc_field.specs.Area.{count_of, first_value};
ghost use Rattle.warc_frame.specs.declared.framed.FramedFault.TheVariants.{Missing, Repeated};

use crate::ends::{begins_as, find_empty_line, version_across};
use crate::fault::{Fault, FaultKind};
use crate::framed::{Framed, FramedFault};
use crate::names;
use crate::version::Version;
use std::alloc::Allocator;
use warc_field::{AreaFault, Fields, Value, canonical_len, decimal, read_area_in};

/// The most bytes of a head.
pub const MAX_HEAD: usize = 65_536;

/// The most bytes of a block.
pub const MAX_BLOCK: u64 = 1 << 40;

/// A head of at most this many bytes is within the limit when it is written canonically, too.
const UNMEASURED_HEAD: usize = MAX_HEAD / 2;

/// The length of a version line.
const VERSION_LINE: usize = 10;

/// A head: all bytes of a record before its block.
#[derive(Drop)]
pub struct Head<A: Allocator> {
    pub version: Version,
    pub fields: Fields<A>,
    /// How many bytes the head has, the empty line that ends it included: at most 65,536.
    pub len: usize,
    /// How many bytes the block after it has, as its `Content-Length` says: at most 2^40.
    pub block_len: u64,
}

/// The part of a text in which its head must end.
fn front_of(text: &[u8]) -> &[u8]
    ensures front { result.now ≡ head_front text.now }
    ensures within { length result.now ≤ length text.now }
{
    &text[..text.len().min(MAX_HEAD)]
}

/// The length of the head, if it ends where it must.
#[tactic(auto, unfolding(crate::specs::Reading::head_len))]
fn find_head_len(text: &[u8]) -> Option<usize>
    ensures value { result ≡ head_len text.now }
    ensures within { IfSome result (λ len. len ≤ length text.now) }
{
    match find_empty_line(front_of(text)) {
        Some(place) => Some(place + 4),
        None => None,
    }
}

/// Whether the head of these fields, written canonically, is short enough.
#[tactic(auto, using(crate::proofs::CanonicalLemmas::head_fits, crate::proofs::CanonicalLemmas::head_passes))]
pub(crate) fn fits_head<A: Allocator>(version: Version, fields: &Fields<A>) -> bool
    ensures { result ≡ not (nat_lt max_head (canonical_len version fields.now)) }
{
    match canonical_len(fields) {
        Some(area) => area <= MAX_HEAD - VERSION_LINE - 2,
        None => false,
    }
}

/// Whether the canonical head of the fields that a head of `len` bytes spells is short enough. It has at most twice as
/// many bytes, so most heads aren't measured.
#[tactic(auto, using(crate::proofs::CanonicalLemmas::short_fits))]
fn fits_spelled_head<A: Allocator>(version: Version, len: usize, fields: &Fields<A>) -> bool
    requires { canonical_len version fields.now ≤ 2 * len }
    ensures { result ≡ not (nat_lt max_head (canonical_len version fields.now)) }
{
    len <= UNMEASURED_HEAD || fits_head(version, fields)
}

/// The value of the only field of this name: `Missing` if there is none, `Repeated` if there is a second one.
fn only_value<'a, A: Allocator>(
    fields: &'a Fields<A>,
    name: &[u8],
) -> Result<&'a Value<A>, FramedFault>
    ensures { let count = count_of name.now fields.now in MatchResult result
        (λ value. (count ≡ 1) × (first_value name.now fields.now ≡ Some value.now))
        (λ fault. ((count ≡ 0) × (fault ≡ Missing)) ⊎ ((2 ≤ count) × (fault ≡ Repeated))) }
{
    let mut found = None;
    for field in fields.as_slice() {
        if field.0.is(name) {
            if found.is_some() {
                return Err(FramedFault::Repeated);
            }
            found = Some(&field.1);
        }
    }
    found.ok_or(FramedFault::Missing)
}

/// The value of the only `Content-Length`.
fn length_value<A: Allocator>(fields: &Fields<A>) -> Result<&Value<A>, FramedFault>
    ensures { let count = count_of content_length fields.now in MatchResult result
        (λ value. (count ≡ 1) × (first_value content_length fields.now ≡ Some value.now))
        (λ fault. ((count ≡ 0) × (fault ≡ Missing)) ⊎ ((2 ≤ count) × (fault ≡ Repeated))) }
{
    only_value(fields, names::CONTENT_LENGTH.as_bytes())
}

/// The number of the only `Content-Length`.
#[tactic(auto, unfolding(crate::specs::Record::block_len))]
pub(crate) fn read_block_len<A: Allocator>(fields: &Fields<A>) -> Result<u64, FramedFault>
    ensures exact { MatchResult result (λ n. block_len fields.now ≡ Ok n)
        (λ fault. block_len fields.now ≡ Err (fault_kind_of fault)) }
    ensures small { IfOk result (λ n. n ≤ max_block) }
{
    let value = length_value(fields)?;
    match decimal(value.bytes()) {
        Some(n) if n <= MAX_BLOCK => Ok(n),
        _ => Err(FramedFault::Length),
    }
}

/// What a head with a known version and length says: its fields, and how long the block is. It is read in the memory
/// of fields that are no longer needed.
#[tactic(auto, using(crate::proofs::HeadLemmas::head_within), unfolding(crate::specs::Reading::head_of))]
pub(crate) fn read_fields<A: Allocator + Copy>(
    spare: Fields<A>,
    version: Version,
    len: usize,
    text: &[u8],
) -> Result<Head<A>, Fault>
    requires version { version_of text.now ≡ Some version }
    requires len { head_len text.now ≡ Some len }
    ensures exact { AnswersAs
        (λ h. record { version = h.version; fields = h.fields; len = h.len; block_len = h.block_len })
        result (head_of any_fields text.now) }
    ensures within { IfOk result (λ h. (h.len ≤ length text.now) × (h.block_len ≤ max_block)) }
    ensures by { IfErr result (λ f. f.offset ≤ length text.now) }
{
    let fields = match read_area_in(spare, &text[VERSION_LINE..len - 2]) {
        Ok(fields) => fields,
        Err(AreaFault::Line(at)) => return Err(FaultKind::Field.at((VERSION_LINE + at) as u64)),
        Err(AreaFault::Memory) => return Err(FaultKind::Memory.at(0)),
    };
    if !fits_spelled_head(version, len, &fields) {
        return Err(FaultKind::HeadTooLong.at(0));
    }
    let block_len = match read_block_len(&fields) {
        Ok(n) => n,
        Err(fault) => return Err(fault.kind().at(0)),
    };
    Ok(Head {
        version,
        fields,
        len,
        block_len,
    })
}

/// The head at the beginning of a text, which anything may follow. A fault's offset counts from there: it is the first
/// row of the table of refusals that fits, as far as framing goes, and the block isn't looked at. An empty text is
/// Truncated at 0; a failed allocation is reported at 0.
#[tactic(auto, using(crate::proofs::HeadLemmas::head_within), unfolding(crate::specs::Reading::head_of))]
pub fn read_head<A: Allocator + Copy>(alloc: A, text: &[u8]) -> Result<Head<A>, Fault>
    ensures exact { AnswersAs
        (λ h. record { version = h.version; fields = h.fields; len = h.len; block_len = h.block_len })
        result (head_of any_fields text.now) }
    ensures within { IfOk result (λ h. (h.len ≤ length text.now) × (h.block_len ≤ max_block)) }
    ensures by { IfErr result (λ f. f.offset ≤ length text.now) }
{
    let Some(version) = version_across(&[], text) else {
        return Err(FaultKind::Version.at(0));
    };
    let Some(len) = find_head_len(text) else {
        if text.len() >= MAX_HEAD {
            return Err(FaultKind::HeadTooLong.at(0));
        }
        return Err(FaultKind::Truncated.at(text.len() as u64));
    };
    read_fields(Fields::new(alloc), version, len, text)
}

/// The block after a head, if two CRLFs close it.
#[tactic(auto, unfolding(crate::specs::Reading::block_at))]
fn read_block(head_len: usize, block_len: u64, text: &[u8]) -> Result<&[u8], Fault>
    requires { head_len ≤ length text.now }
    ensures value { AnswersAs (λ block. block.now) result (block_at head_len block_len text.now) }
    ensures within { OnOk result (head_len + block_len + 4 ≤ length text.now) }
    ensures by { IfErr result (λ f. f.offset ≤ length text.now) }
{
    let rest = &text[head_len..];
    let truncated = FaultKind::Truncated.at(text.len() as u64);
    if (rest.len() as u64) < block_len {
        return Err(truncated);
    }
    let (block, end) = rest.split_at(block_len as usize);
    if !begins_as(end, b"\r\n\r\n") {
        return Err(FaultKind::End.at(head_len as u64 + block_len));
    }
    if end.len() < 4 {
        return Err(truncated);
    }
    Ok(block)
}

/// The record at the beginning of a text, and its length.
#[tactic(auto, unfolding(crate::specs::Reading::record_of))]
fn read_front<A: Allocator + Copy>(alloc: A, text: &[u8]) -> Result<(Framed<A>, usize), Fault>
    ensures exact { AnswersAs (λ x. x) result (record_of any_fields text.now) }
    ensures by { IfErr result (λ f. f.offset ≤ length text.now) }
{
    let head = read_head(alloc, text)?;
    let block = read_block(head.len, head.block_len, text)?;
    let len = head.len + head.block_len as usize + 4;
    let block = Vec::from_slice(alloc, block)?;
    Ok((Framed::from_checked(head.version, head.fields, block), len))
}

/// The record at the beginning of a text, and its length. A fault's offset counts from there. An empty text is
/// Truncated at 0; a failed allocation is reported at 0.
pub fn read_one<A: Allocator + Copy>(alloc: A, text: &[u8]) -> Result<(Framed<A>, usize), Fault>
    // What is read is spelled so.
    ensures found { IfOk result (λ x. (x.1 ≤ length text.now) × Spells x.0 (take x.1 text.now)) }

    // A record that the text begins with is read, unless memory runs out.
    ensures only { (r : Record) (front rest : List ℕ) → Spells r front → text.now ≡ front ++ rest
        → AnswersAs (λ x. x) result (Ok (r, length front)) }

    // If it begins with none, the text has this frame fault, unless memory ran out.
    ensures fault { text.now ≢ [] → IfErr result (λ f. OrMemory f.kind f.offset (IsFrameFault 0 text.now f)) }

    // It is the first row of the table that fits.
    ensures exact { AnswersAs (λ x. x) result (record_of any_fields text.now) }
    ensures bound { IfErr result (λ f. f.offset ≤ length text.now) }
{
    read_front(alloc, text)
}
