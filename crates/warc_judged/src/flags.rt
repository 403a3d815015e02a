//! Whether each record of an archive is a segment, and how its block compares with its digest.
ghost use Rattle.std.specs.Prelude.{◌≡◌, ◌+◌, ◌-◌, ◌<◌, ◌∷◌, ◌++◌, false, [], OnErr, OnOk, map};
ghost use Rattle.sha1.specs.Sha1.{sha1};
ghost use Rattle.warc_checking.specs.Batch.{verdict_with};
ghost use Rattle.warc_judged.specs.Fixity.{stated_on};
ghost use Rattle.warc_judged.specs.Summary.{has_segment_number, is_numbered, segmented_count};

use crate::block_verdicts::BlockVerdicts;
use crate::counts::{Verdicts, one_if};
use crate::stated::{StatedBlock, plain_check};
use std::alloc::{AllocError, Allocator};
use std::marker::Model;
use warc_checking::{BlockCheck, PIECE_LEN};
use warc_field::Fields;
use warc_frame::names;
use warc_quick::{QuickHead, QuickRecord};
use warc_reading::Keep;
use warc_record::GoodHead;

/// Whether each record is a segment, and how its block compares with its digest.
#[derive(Drop)]
pub struct RecordFlags<A: Allocator> {
    pub segmented: Vec<bool, A>,
    pub verdicts: Verdicts<A>,
}

impl<A: Allocator> Model for RecordFlags<A> {
    ghost use Rattle.warc_judged.specs.Summary.{Flags};

    ghost Value = { Flags };

    ghost view = { λ s. record { segmented = s.segmented.items; verdicts = s.verdicts } };
}

/// How many of these flags are set.
pub(crate) fn segmented_count(flags: &[bool]) -> usize
    ensures { result ≡ segmented_count flags.now }
{
    let mut count = 0usize;
    'counting: for position in 0..flags.len() {
        count += one_if(flags[position]);
    }
    count
}

/// Whether a head has a segment number, whatever its value, if it isn't empty.
pub fn has_segment_number<A: Allocator>(fields: &Fields<A>) -> bool
    ensures { result ≡ has_segment_number fields.now }
{
    match fields.first(names::WARC_SEGMENT_NUMBER.as_bytes()) {
        Some(value) => !value.bytes().is_empty(),
        None => false,
    }
}

/// `RecordFlags` while the source is read. The last blocks wait until they are hashed.
#[derive(Drop)]
pub struct WaitingFlags<A: Allocator> {
    segmented: Vec<bool, A>,
    verdicts: BlockVerdicts<A>,
}

impl<A: Allocator> Model for WaitingFlags<A> {
    ghost use Rattle.warc_judged.specs.Summary.{Flags};

    ghost Value = { Flags };

    ghost view = { λ s. record { segmented = s.segmented.items; verdicts = s.verdicts } };
}

impl<A: Allocator + Copy> WaitingFlags<A> {
    /// Of no records.
    pub fn new(alloc: A) -> WaitingFlags<A>
        ensures segmented { result.segmented ≡ [] }
        ensures verdicts { result.verdicts ≡ [] }
    {
        WaitingFlags {
            segmented: Vec::new(alloc),
            verdicts: BlockVerdicts::new(alloc),
        }
    }
}

impl<A: Allocator> WaitingFlags<A> {
    /// Adds the flags of the next record. If an allocation fails, none is added.
    fn add(&mut self, segmented: bool, check: BlockCheck, block: &[u8]) -> Result<(), AllocError>
        ensures ok { OnOk result ((self.new.segmented ≡ self.old.segmented ++ segmented ∷ [])
            × (self.new.verdicts ≡ self.old.verdicts ++ verdict_with check (sha1 block.now) ∷ [])) }
        ensures err { OnErr result (self.new ≡ self.old) }
    {
        self.segmented.reserve(1)?;
        self.verdicts.add(check, block)?;
        self.segmented.push_reserved(segmented);
        Ok(())
    }

    /// The flags of all records. The blocks that wait are hashed first. It doesn't allocate.
    pub fn into_flags(self) -> RecordFlags<A>
        ensures { result ≡ self }
    {
        RecordFlags {
            segmented: self.segmented,
            verdicts: self.verdicts.into_verdicts(),
        }
    }
}

impl<A: Allocator + Copy> Keep<A> for WaitingFlags<A> {
    ghost keeps = { λ s records. (s.segmented ≡ map is_numbered records) × (s.verdicts ≡ map stated_on records) };

    type Block = StatedBlock;

    ghost takes = { λ head. head.is_alone };

    fn takes(head: &QuickHead<'_>) -> bool {
        head.is_alone
    }

    fn keep(
        &mut self,
        _alloc: A,
        _position: usize,
        head: &GoodHead<A>,
        _block_start: u64,
        _block_len: u64,
        block: StatedBlock,
    ) -> Result<(), AllocError> {
        let check = BlockCheck::Known(block.verdict());
        self.add(has_segment_number(head.fields()), check, b"")
    }

    fn keep_plain(
        &mut self,
        _alloc: A,
        _position: usize,
        found: &QuickRecord<'_>,
        _block_start: u64,
    ) -> Result<(), AllocError> {
        // A head that is alone says nothing of segments.
        self.add(false, plain_check(found), found.block)
    }

    fn truncate(&mut self, count: usize) {
        self.segmented.truncate(count);
        self.verdicts.truncate(count);
    }

    fn piece_len() -> usize {
        PIECE_LEN
    }
}
