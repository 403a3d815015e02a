//! An archive whose blocks were judged as they were read, so that the lines of its captures are written without hashing
//! a block again.
ghost use Rattle.std.specs.Prelude.{◌≡◌, IfOk};
ghost use Rattle.warc_lookup.specs.Indexed.{IsUnchanged};
ghost use Rattle.warc_reading.specs.Opening.{Opens, source_left, without_source};
ghost use Rattle.warc_replay.specs.Captured.{AreVerdictsOf, IsCaptured};
ghost use Rattle.warc_replay.specs.Captures.{capture_positions};
ghost use Rattle.warc_replay.specs.Capturing.{SendsCaptures};

use std::alloc::{AllocError, Allocator, Global};
use std::marker::Model;
use warc_frame::{Fault, OutFault, Sink, Source};
use warc_judged::{BlockVerdicts, Verdicts};
use warc_lookup::{Lookup, UnorderedLookup};
use warc_reading::{KeptPair, Opened};
use warc_replay::{capture_positions, write_judged};

/// The verdicts on blocks, and what finds and joins their records.
#[derive(Drop)]
struct JudgedLookup<A: Allocator> {
    verdicts: Verdicts<A>,
    lookup: Lookup<A>,
}

/// An archive whose blocks were compared with the digests that their heads ask for. Contracts see the archive, and the
/// verdicts on the blocks.
#[derive(Drop)]
pub struct Captures<S: Source, A: Allocator = Global> {
    opened: Opened<S, JudgedLookup<A>, A>,
}

impl<S: Source, A: Allocator> Model for Captures<S, A> {
    ghost use Rattle.warc_replay.specs.Captured.{Captured};

    ghost Value = { Captured S };

    ghost view = { λ a. record {
      archive = record {
        listing = record { source = a.opened.source; rows = a.opened.rows };
        index = a.opened.kept.lookup.index;
        parts = a.opened.kept.lookup.parts;
      };
      verdicts = a.opened.kept.verdicts;
    } };
}

impl<S: Source, A: Allocator> Captures<S, A> {
    /// Returns the source.
    pub fn into_source(self) -> S
        ensures { result ≡ self.archive.listing.source }
    {
        self.opened.source
    }
}

impl<S: Source, A: Allocator + Copy> Captures<S, A> {
    /// Reads the source as an archive is read, in larger pieces, and keeps with the rows, the index and the parts how
    /// each block compares with its digest: a byte for each record.
    pub fn open(alloc: A, source: S) -> Result<Captures<S, A>, (Fault, S)>
        ensures { Opens IsCaptured (S.seen source) (S.seen (source_left (λ a. a.archive.listing.source) result))
            (without_source (λ a. a) result) }
    {
        let kept = KeptPair {
            first: BlockVerdicts::new(alloc),
            second: UnorderedLookup::new(alloc),
        };
        match Opened::open(alloc, source, kept) {
            Ok(Opened { source, rows, kept }) => {
                let kept = JudgedLookup {
                    verdicts: kept.first.into_verdicts(),
                    lookup: kept.second.into_lookup(),
                };
                Ok(Captures {
                    opened: Opened { source, rows, kept },
                })
            }
            Err(refused) => Err(refused),
        }
    }

    /// The positions of all captures, in their order. `Err`: no memory for them.
    pub fn positions(&self) -> Result<Vec<usize, A>, AllocError>
        ensures { IfOk result (λ positions. positions.items ≡ capture_positions self.now.archive.listing.rows) }
    {
        capture_positions(&self.opened.rows)
    }

    /// Writes the line of each capture at a position, in their order, as `Archive::list_captures` writes it, but hashes
    /// no block again that is alone: of its origin it reads the head, and if that is an HTTP response the front of the
    /// joined blocks, 2,048 bytes or, if the HTTP head is longer, 65,536. Blocks of several segments are hashed once.
    pub fn list<W: Sink>(&mut self, positions: &[usize], out: &mut W) -> Result<(), OutFault>
        ensures lists { SendsCaptures (AreVerdictsOf self.old.verdicts) self.old.archive.listing.rows
            self.old.archive.index self.old.archive.parts positions.now (S.seen self.old.archive.listing.source)
            (S.seen self.new.archive.listing.source) (W.seen out.old) (W.seen out.new) result }
        ensures unchanged { IsUnchanged self.old.archive self.new.archive }
        ensures same { self.new.verdicts ≡ self.old.verdicts }
    {
        let Opened { source, rows, kept } = &mut self.opened;
        kept.lookup.index.follow_chains(rows.allocator());
        write_judged(source, rows, &kept.lookup, &kept.verdicts, positions, out)
    }
}
