//! A record with its block in memory, and why texts make none.
ghost use Rattle.std.specs.Prelude.{◌≡◌, ◌+◌, ◌≤◌, Ok, Err, IfOk, IsOk, length};
ghost use Rattle.warc_frame.specs.Record.{Record, Frames, IsFramed, framed_of, fault_kind_of, max_block, max_head};
ghost use Rattle.warc_field.specs.Area.{canonical_fields};

use crate::fault::{FaultKind, Mandatory};
use crate::front::{fits_head, read_block_len};
use crate::version::Version;
use std::alloc::{Allocator, Global};
use std::fmt;
use std::marker::Model;
use thiserror::Error;
use warc_field::Fields;

/// Why a version, fields and a block make no record.
#[derive(Clone, Copy, Debug, PartialEq, Eq, Error)]
pub enum FramedFault {
    /// The head, written canonically, would be longer than 65,536 bytes.
    HeadTooLong,
    /// There is no `Content-Length`.
    Missing,
    /// There is more than one.
    Repeated,
    /// It isn't a number up to 2^40, or isn't the length of the block.
    Length,
}

impl FramedFault {
    /// This fault as a fault of an archive.
    pub fn kind(self) -> FaultKind
        ensures { result ≡ fault_kind_of self }
    {
        match self {
            FramedFault::HeadTooLong => FaultKind::HeadTooLong,
            FramedFault::Missing => FaultKind::Missing(Mandatory::ContentLength),
            FramedFault::Repeated => FaultKind::Repeated(Mandatory::ContentLength),
            FramedFault::Length => FaultKind::Length,
        }
    }
}

impl fmt::Display for FramedFault {
    ghost use Rattle.std.specs.Prelude.{Some};
    ghost use Rattle.warc_frame.specs.FaultText.{kind_text};

    ghost output = { λ fault. Some (kind_text (fault_kind_of fault)) };

    fn fmt<W: fmt::Write>(&self, f: &mut fmt::Formatter<W>) -> fmt::Result {
        write!(f, "{}", self.kind())
    }
}

/// A record: its version, its named fields and its block.
#[derive(Debug, Drop)]
pub struct Framed<A: Allocator = Global> {
    version: Version,
    fields: Fields<A>,
    block: Vec<u8, A>,
}

impl<A: Allocator> Model for Framed<A> {
    ghost use Rattle.warc_frame.specs.Record.{Record, IsFramed};

    ghost Value = { Record };

    ghost view = { λ f. record { version = f.version; fields = f.fields; block = f.block.items } };

    ghost invariant = { λ f. IsFramed (record { version = f.version; fields = f.fields; block = f.block.items }) };
}

impl<A: Allocator> Framed<A> {
    /// The record of these, or the first reason why they make none. It doesn't allocate, and drops what it refuses.
    #[tactic(auto, unfolding(crate::specs::Record::framed_of))]
    pub fn new(
        version: Version,
        fields: Fields<A>,
        block: Vec<u8, A>,
    ) -> Result<Framed<A>, FramedFault>
        ensures exact { Frames result
            (framed_of (record { version = version; fields = fields; block = block.items })) }
        ensures framed { IfOk result IsFramed }
        ensures only { IsFramed (record { version = version; fields = fields; block = block.items }) → IsOk result }
    {
        let _count = fields.len();
        if !fits_head(version, &fields) {
            return Err(FramedFault::HeadTooLong);
        }
        let len = read_block_len(&fields)?;
        if len != block.len() as u64 {
            return Err(FramedFault::Length);
        }
        Ok(Framed {
            version,
            fields,
            block,
        })
    }

    pub(crate) fn from_checked(version: Version, fields: Fields<A>, block: Vec<u8, A>) -> Framed<A>
        requires { IsFramed (record { version = version; fields = fields; block = block.items }) }
        ensures { result ≡ record { version = version; fields = fields; block = block.items } }
    {
        Framed {
            version,
            fields,
            block,
        }
    }

    /// The version that the first line names.
    pub fn version(&self) -> Version
        ensures { result ≡ self.now.version }
    {
        self.version
    }

    /// The named fields, in their order.
    #[tactic(auto, using(crate::proofs::FramedLemmas::framed_fields))]
    pub fn fields(&self) -> &Fields<A>
        ensures fields { result.now ≡ self.now.fields }

        // Their canonical lines leave room in a head for its first line and its last.
        ensures short { length (canonical_fields self.now.fields) + 12 ≤ max_head }
    {
        &self.fields
    }

    /// The block, of any bytes.
    #[tactic(auto, using(crate::proofs::FramedLemmas::framed_block))]
    pub fn block(&self) -> &[u8]
        ensures block { result.now ≡ self.now.block }
        ensures short { length self.now.block ≤ max_block }
        ensures framed { IsFramed self.now }
    {
        &self.block
    }

    /// The version, the fields and the block.
    pub fn into_parts(self) -> (Version, Fields<A>, Vec<u8, A>)
        ensures { record { version = result.0; fields = result.1; block = result.2.items } ≡ self }
    {
        (self.version, self.fields, self.block)
    }
}
