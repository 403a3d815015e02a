//! An archive whose payloads were compared with the digests that their records' heads state.
ghost use Rattle.std.specs.Prelude.{◌≡◌};
ghost use Rattle.warc_frame.specs.Effects.{SendsText};
ghost use Rattle.warc_lookup.specs.Indexed.{IsUnchanged};
ghost use Rattle.warc_reading.specs.Opening.{Opens, source_left, without_source};
ghost use Rattle.warc_replay.specs.PayloadText.{payloads_text};
ghost use Rattle.warc.specs.KnownPayloads.{AreRightFor, IsPayloadArchive, JudgesPayloadsBy};

use crate::opened::known_payloads::{KnownPayloads, WaitingPayloads};
use crate::opened::payloads::{Payloads, judge_payloads, list_payloads};
use std::alloc::{Allocator, Global};
use std::marker::Model;
use warc_frame::{Fault, OutFault, Sink, Source};
use warc_lookup::{Lookup, UnorderedLookup};
use warc_reading::{KeptPair, Opened};

/// What is known of payloads, and what finds and joins their records.
#[derive(Drop)]
struct PayloadLookup<A: Allocator> {
    known: KnownPayloads<A>,
    lookup: Lookup<A>,
}

/// An archive whose payloads were compared with the digests that their records' heads state, as far as each record was
/// read in place. Contracts see the archive, and what is known of its payloads.
#[derive(Drop)]
pub struct PayloadFixity<S: Source, A: Allocator = Global> {
    opened: Opened<S, PayloadLookup<A>, A>,
}

impl<S: Source, A: Allocator> Model for PayloadFixity<S, A> {
    ghost use Rattle.warc.specs.KnownPayloads.{PayloadArchive};

    ghost Value = { PayloadArchive S };

    ghost view = { λ a. record {
      archive = record {
        listing = record { source = a.opened.source; rows = a.opened.rows };
        index = a.opened.kept.lookup.index;
        parts = a.opened.kept.lookup.parts;
      };
      known = a.opened.kept.known;
    } };
}

impl<S: Source, A: Allocator> PayloadFixity<S, A> {
    /// Returns the source.
    pub fn into_source(self) -> S
        ensures { result ≡ self.archive.listing.source }
    {
        self.opened.source
    }

    /// Writes a line for each payload that has a digest and isn't good, and a last line with the counts, as
    /// `Archive::list_payloads` does.
    pub fn list<W: Sink>(&self, payloads: &Payloads<A>, out: &mut W) -> Result<(), OutFault>
        ensures { SendsText (W.seen out.old) (W.seen out.new) result
            (payloads_text self.now.archive.listing.rows payloads.now) }
    {
        list_payloads(&self.opened.rows, payloads, out)
    }
}

impl<S: Source, A: Allocator + Copy> PayloadFixity<S, A> {
    /// Reads the source as an archive is read, in larger pieces, and keeps with the rows, the index and the parts which
    /// payloads are good: two bytes for each record.
    pub fn open(alloc: A, source: S) -> Result<PayloadFixity<S, A>, (Fault, S)>
        ensures { Opens IsPayloadArchive (S.seen source) (S.seen (source_left (λ a. a.archive.listing.source) result))
            (without_source (λ a. a) result) }
    {
        let kept = KeptPair {
            first: WaitingPayloads::new(alloc),
            second: UnorderedLookup::new(alloc),
        };
        match Opened::open(alloc, source, kept) {
            Ok(Opened { source, rows, kept }) => {
                let kept = PayloadLookup {
                    known: kept.first.into_known(),
                    lookup: kept.second.into_lookup(),
                };
                Ok(PayloadFixity {
                    opened: Opened { source, rows, kept },
                })
            }
            Err(refused) => Err(refused),
        }
    }

    /// How the payload of each record compares with the digest that its head states, as `Archive::payloads` says it,
    /// but a record is read again only if its payload isn't known to be good: if it differs, isn't judged, is that of a
    /// revisit, or if the record wasn't read in place, as one that is longer than a piece of 1 MiB. So is an origin of
    /// revisits, but if its payload is good, its block alone is hashed: with those of other origins, unless it is
    /// longer than 256 KiB.
    pub fn judge(&mut self) -> Result<Payloads<A>, OutFault>
        ensures judges { JudgesPayloadsBy (AreRightFor self.old.known) self.old.archive.listing.rows
            self.old.archive.index self.old.archive.parts (S.seen self.old.archive.listing.source)
            (S.seen self.new.archive.listing.source) result }
        ensures unchanged { IsUnchanged self.old.archive self.new.archive }
        ensures known { self.new.known ≡ self.old.known }
    {
        let Opened { source, rows, kept } = &mut self.opened;
        kept.lookup.index.follow_chains(rows.allocator());
        judge_payloads(source, rows, &kept.lookup, &kept.known)
    }
}
