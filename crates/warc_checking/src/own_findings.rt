//! The findings that each record alone shows, kept while an archive is read.
ghost use Rattle.std.specs.Prelude.{◌≡◌, ◌+◌, ◌<◌, false, List, [], ◌∷◌, ◌++◌, length, map, take, OnErr, OnOk, IfOk, if◌then◌else◌};
ghost use Rattle.warc_frame.specs.Count.{capped};
ghost use Rattle.warc_frame.specs.Effects.{Puts};
ghost use Rattle.warc_record.specs.Readings.{kind_of};
ghost use Rattle.warc_quick.specs.PlainFindings.{all_plain};
ghost use Rattle.warc_checking.specs.Lines.{record_lines};
ghost use Rattle.warc_checking.specs.OwnFindings.{Found, IsWithoutDigest, all_of, bad_at, each_with, found_at, mark_at, shown_by, shown_plain, with_used};

use crate::digest_state::{DigestState, bad_at, kind_of, mark_at};
use crate::finding_parts::OtherFindings;
use std::alloc::{AllocError, Allocator};
use std::marker::Model;
use warc_field::Fields;
use warc_frame::{OutBuffer, SendFault, Sink};
use warc_quick::PlainFindings;
use warc_record::ArchiveFacts;

/// The findings that each record alone shows. Whether N4 holds is kept apart from the others: a record is added before
/// its digest is known, and marked once that is known to differ. A mark takes no memory.
#[derive(Drop)]
pub struct OwnFindings<A: Allocator> {
    others: OtherFindings<A>,
    states: Vec<DigestState, A>,
}

impl<A: Allocator> Model for OwnFindings<A> {
    ghost use Rattle.std.specs.Prelude.{◌≡◌, List, length};
    ghost use Rattle.std.specs.List.{AllByRecursion};
    ghost use Rattle.warc_checking.specs.OwnFindings.{Found, IsWithoutDigest, each_with};

    ghost Value = { List Found };

    ghost view = { λ n. each_with n.others n.states.items };

    ghost invariant = { λ n. (length n.others ≡ length n.states.items) × AllByRecursion IsWithoutDigest n.others };
}

impl<A: Allocator + Copy> OwnFindings<A> {
    /// Of no records.
    pub fn new(alloc: A) -> OwnFindings<A>
        ensures { result ≡ [] }
    {
        OwnFindings {
            others: OtherFindings::new(alloc),
            states: Vec::new(alloc),
        }
    }

    /// Adds the findings of the next record, by the fields of its head and the length of its block. Its digest isn't
    /// known to differ. If an allocation fails, none is added.
    pub(crate) fn add(
        &mut self,
        alloc: A,
        fields: &Fields<A>,
        block_len: u64,
    ) -> Result<(), AllocError>
        ensures ok { OnOk result (self.new ≡ self.old ++ shown_by fields.now block_len false ∷ []) }
        ensures err { OnErr result (self.new ≡ self.old) }
    {
        let state = DigestState::of_kind(kind_of(fields));
        self.states.reserve(1)?;
        self.others.add(alloc, fields, block_len)?;
        self.states.push_reserved(state);
        Ok(())
    }
}

impl<A: Allocator> OwnFindings<A> {
    /// How many records there are.
    pub(crate) fn len(&self) -> usize
        ensures { result ≡ length self.now }
    {
        self.states.len()
    }

    /// Adds the findings of the next record, whose head is plain, and whose kind is one of the eight. Its digest isn't
    /// known to differ. If an allocation fails, none is added.
    pub(crate) fn add_plain(&mut self, found: &PlainFindings) -> Result<(), AllocError>
        requires { IsWithoutDigest (all_plain found.now) }
        ensures ok { OnOk result (self.new ≡ self.old ++ shown_plain (all_plain found.now) ∷ []) }
        ensures err { OnErr result (self.new ≡ self.old) }
    {
        self.states.reserve(1)?;
        self.others.add_plain(found)?;
        self.states.push_reserved(DigestState::Unmarked);
        Ok(())
    }

    /// Marks that the digest of the record at a position differs. N4 then holds, if its kind is one of the eight.
    pub(crate) fn mark(&mut self, position: usize)
        requires { position < length self.old }
        ensures { self.new ≡ mark_at self.old position }
    {
        mark_at(&mut self.states, position);
    }

    /// Forgets all but the first records, this many.
    pub(crate) fn truncate(&mut self, count: usize)
        ensures { self.new ≡ take count self.old }
    {
        self.others.truncate(count);
        self.states.truncate(count);
    }

    /// Adds the lines of the findings of the record at a position to the output, and of N6 among them, if it holds.
    /// The result is their number, up to 2^64 - 1.
    pub(crate) fn put<W: Sink>(
        &self,
        position: usize,
        used: bool,
        buffer: &mut OutBuffer,
        out: &mut W,
    ) -> Result<usize, SendFault>
        ensures puts { Puts (W.seen out.old) (W.seen out.new) buffer.old buffer.new result (record_lines position
            (with_used (found_at (map all_of self.now) position) used)) }
        ensures number { IfOk result (λ n. n ≡ capped (length (found_at (map all_of self.now) position)
            + (if used then 1 else 0))) }
    {
        let facts = ArchiveFacts {
            bad_digest: bad_at(self.states.as_slice(), position),
            used_id: used,
        };
        self.others.put(position, facts, buffer, out)
    }
}
