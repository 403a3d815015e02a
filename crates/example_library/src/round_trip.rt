//! Records that are made, rendered to memory, opened and read back, by public calls alone.
ghost use Rattle.std.specs.Prelude.{◌≡◌, Ok, IfErr, IfOk, map};
ghost use Rattle.warc_record.specs.Good.{IsGood};
ghost use Rattle.warc_write.specs.Making.{made};
ghost use Rattle.warc_write.specs.Rendering.{AllGood, canonical_texts};
ghost use Rattle.warc_reading.specs.Archive.{IsArchiveOf, contents};
ghost use Rattle.example_library.specs.RoundTrip.{IsNotReadBack, plan_of_draft};

use crate::opened::opened;
use std::alloc::Global;
use warc::laws::{no_fault_where_spelled, written_opens_as_same};
use warc::{Archive, TakeFault};
use warc_frame::{Fault, Framed, MemSink, MemSource, OutFault};
use warc_record::Kind;
use warc_write::{MakeFault, make, render};

/// What a record is made of.
#[derive(Clone, Copy, Debug)]
pub struct Plan<'a> {
    pub kind: Kind,
    pub uri: &'a [u8],
    pub date: &'a [u8],
    pub uuid: &'a [u8],
    pub content_type: &'a [u8],
    pub block: &'a [u8],
}

/// Why records aren't read back.
#[derive(Debug, Drop)]
pub enum RoundFault {
    /// One isn't made.
    Unmade(MakeFault),

    /// They aren't written.
    Unwritten(OutFault),

    /// What was written doesn't open.
    Unopened(Fault),

    /// One isn't read.
    Unread(TakeFault),
}

impl From<MakeFault> for RoundFault {
    ghost use Rattle.example_library.specs.declared.round_trip.RoundFault.TheVariants.{Unmade};

    ghost from_gives = { λ fault it. it ≡ Unmade fault };

    fn from(fault: MakeFault) -> RoundFault {
        RoundFault::Unmade(fault)
    }
}

/// The record that is made, which is good, or the refusal.
fn make_one(alloc: Global, plan: &Plan<'_>) -> Result<Framed, MakeFault>
    ensures made { IfOk result (λ r. made (plan_of_draft plan.now) ≡ Ok r) }
    ensures good { IfOk result IsGood }
{
    make(
        alloc,
        plan.kind,
        plan.uri,
        plan.date,
        plan.uuid,
        plan.content_type,
        plan.block,
    )
}

/// The records that are made, in their order, each of them good; or the first refusal.
fn make_all(alloc: Global, plans: &[Plan<'_>]) -> Result<Vec<Framed>, MakeFault>
    ensures made { IfOk result (λ records. map Ok records.items ≡ map (λ plan. made (plan_of_draft plan)) plans.now) }
    ensures good { IfOk result (λ records. AllGood records.items) }
{
    let mut records = Vec::new(alloc);
    for plan in plans {
        let record = make_one(alloc, plan)?;
        match records.push(record) {
            Ok(()) => {}
            Err(_) => return Err(MakeFault::Memory),
        }
    }
    Ok(records)
}

/// The records of an archive, read one after another.
fn read_all(alloc: Global, archive: &mut Archive<MemSource>) -> Result<Vec<Framed>, TakeFault>
    ensures { (is : IsArchiveOf archive.old.listing.source.bytes archive.old.listing.rows)
        → IfOk result (λ records. records.items ≡ contents is.are.records) }
{
    let mut records = Vec::new(alloc);
    for position in 0..archive.count() {
        let record = archive.record(position)?;
        match records.push(record) {
            Ok(()) => {}
            Err(_) => return Err(TakeFault::Memory),
        }
    }
    Ok(records)
}

/// The records of an archive that is let go then.
fn records_of(alloc: Global, mut archive: Archive<MemSource>) -> Result<Vec<Framed>, TakeFault>
    ensures { (is : IsArchiveOf archive.listing.source.bytes archive.listing.rows)
        → IfOk result (λ records. records.items ≡ contents is.are.records) }
{
    let records = read_all(alloc, &mut archive);
    archive.into_source();
    records
}

/// What is written of records.
fn rendered(alloc: Global, records: &[Framed]) -> Result<Vec<u8>, OutFault>
    ensures { IfOk result (λ text. text.items ≡ canonical_texts records.now) }
{
    let mut sink = MemSink::new(Vec::new(alloc));
    match render(records, &mut sink) {
        Ok(()) => Ok(sink.into_inner()),
        Err(fault) => Err(fault),
    }
}

/// Renders good records to memory, opens that, and reads them back: the same records.
pub fn read_back(alloc: Global, records: &[Framed]) -> Result<Vec<Framed>, RoundFault>
    requires { AllGood records.now }
    ensures same { IfOk result (λ back. back.items ≡ records.now) }
    ensures why { IfErr result (IsNotReadBack records.now) }
{
    written_opens_as_same();
    no_fault_where_spelled();
    let text = match rendered(alloc, records) {
        Ok(text) => text,
        Err(fault) => return Err(RoundFault::Unwritten(fault)),
    };
    let archive = match opened(alloc, text) {
        Ok(archive) => archive,
        Err(fault) => return Err(RoundFault::Unopened(fault)),
    };
    match records_of(alloc, archive) {
        Ok(back) => Ok(back),
        Err(fault) => Err(RoundFault::Unread(fault)),
    }
}

/// Makes records, renders them to memory, opens that, and reads them back: exactly those that are made.
pub fn round_trip(alloc: Global, plans: &[Plan<'_>]) -> Result<Vec<Framed>, RoundFault>
    ensures { IfOk result (λ back. map Ok back.items ≡ map (λ plan. made (plan_of_draft plan)) plans.now) }
{
    let records = make_all(alloc, plans)?;
    read_back(alloc, &records)
}
