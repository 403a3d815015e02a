//! What is kept of heads for a survey: which records are segments, and of which blocks a digest is wanted that `check`
//! and replays judge.
ghost use Rattle.std.specs.Prelude.{◌≡◌, ◌∷◌, ◌++◌, [], OnErr, OnOk, map};
ghost use Rattle.warc_judged.specs.Summary.{is_numbered};
ghost use Rattle.warc_judged.specs.Claims.{claimed, claimed_on};

use crate::counts::Verdicts;
use crate::flags::has_segment_number;
use std::alloc::{AllocError, Allocator};
use std::marker::Model;
use warc_quick::{QuickHead, QuickRecord};
use warc_reading::{Keep, NoBlock};
use warc_record::GoodHead;
use warc_value::{Verdict, Wanted};

/// The verdict on a block that has the digest that is wanted of it.
fn claimed(wanted: &Wanted) -> Verdict
    ensures { result ≡ claimed wanted.now }
{
    match wanted {
        Wanted::Sha1(_) => Verdict::Good,
        Wanted::Unchecked => Verdict::Unchecked,
    }
}

/// Whether each record is a segment, and the verdict on its block if that has the digest that is wanted.
#[derive(Drop)]
pub struct HeadMarks<A: Allocator> {
    pub segmented: Vec<bool, A>,
    pub claims: Verdicts<A>,
}

impl<A: Allocator> Model for HeadMarks<A> {
    ghost use Rattle.warc_judged.specs.Claims.{SurveyMarks};

    ghost Value = { SurveyMarks };

    ghost view = { λ m. record { segmented = m.segmented.items; claims = m.claims } };
}

impl<A: Allocator + Copy> HeadMarks<A> {
    /// Of no records.
    pub fn new(alloc: A) -> HeadMarks<A>
        ensures segmented { result.segmented ≡ [] }
        ensures claims { result.claims ≡ [] }
    {
        HeadMarks {
            segmented: Vec::new(alloc),
            claims: Verdicts::new(alloc),
        }
    }
}

impl<A: Allocator> HeadMarks<A> {
    /// Adds those of the next record. If an allocation fails, none is added.
    fn add(&mut self, segmented: bool, wanted: &Wanted) -> Result<(), AllocError>
        ensures ok { OnOk result ((self.new.segmented ≡ self.old.segmented ++ segmented ∷ [])
            × (self.new.claims ≡ self.old.claims ++ claimed wanted.now ∷ [])) }
        ensures err { OnErr result (self.new ≡ self.old) }
    {
        self.segmented.reserve(1)?;
        self.claims.push(claimed(wanted))?;
        self.segmented.push_reserved(segmented);
        Ok(())
    }
}

impl<A: Allocator + Copy> Keep<A> for HeadMarks<A> {
    ghost keeps = { λ m records. (m.segmented ≡ map is_numbered records) × (m.claims ≡ map claimed_on records) };

    type Block = NoBlock;

    ghost takes = { λ head. head.is_alone };

    fn takes(head: &QuickHead<'_>) -> bool {
        head.is_alone
    }

    fn keep(
        &mut self,
        _alloc: A,
        _position: usize,
        head: &GoodHead<A>,
        _block_start: u64,
        _block_len: u64,
        _block: NoBlock,
    ) -> Result<(), AllocError> {
        self.add(has_segment_number(head.fields()), &head.wanted())
    }

    fn keep_plain(
        &mut self,
        _alloc: A,
        _position: usize,
        found: &QuickRecord<'_>,
        _block_start: u64,
    ) -> Result<(), AllocError> {
        // A head that is alone says nothing of segments.
        self.add(false, &found.head.wanted())
    }

    fn truncate(&mut self, count: usize) {
        self.segmented.truncate(count);
        self.claims.truncate(count);
    }
}
