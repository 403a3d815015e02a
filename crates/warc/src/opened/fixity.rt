//! An archive whose blocks were compared with the digests that their heads state.
ghost use Rattle.std.specs.Prelude.{◌≡◌};
ghost use Rattle.warc_frame.specs.Effects.{SendsText};
ghost use Rattle.warc_reading.specs.Opening.{Opens, source_left, without_source};
ghost use Rattle.warc_judged.specs.Fixity.{IsDigested, counts_of, fixity_text};

use std::alloc::{Allocator, Global};
use std::marker::Model;
use warc_frame::{Fault, OutBuffer, OutFault, Sink, Source};
use warc_judged::{Counts, Digests, WaitingDigests, put_fixity};
use warc_reading::Opened;

/// An archive whose blocks were compared with the digests that their heads state. Contracts see its listing, and the
/// values of the digests by which blocks aren't good.
#[derive(Drop)]
pub struct Fixity<S: Source, A: Allocator = Global> {
    opened: Opened<S, Digests<A>, A>,
}

impl<S: Source, A: Allocator> Model for Fixity<S, A> {
    ghost use Rattle.warc_judged.specs.Fixity.{Digested};

    ghost Value = { Digested S };

    ghost view = { λ a. record {
      listing = record { source = a.opened.source; rows = a.opened.rows };
      judged = a.opened.kept;
    } };
}

impl<S: Source, A: Allocator> Fixity<S, A> {
    /// How many blocks are good, bad and unchecked.
    pub fn counts(&self) -> Counts
        ensures { result ≡ counts_of self.now.judged.verdicts }
    {
        self.opened.kept.counts()
    }

    /// Returns the source.
    pub fn into_source(self) -> S
        ensures { result ≡ self.listing.source }
    {
        self.opened.source
    }

    /// Writes a line for each block that isn't good: the position of its record, `bad` or `unchecked`, the bare id and
    /// the digest's value, `-` for none, with a tab between two; and a last line with the counts. It doesn't allocate.
    pub fn list<W: Sink>(&self, out: &mut W) -> Result<(), OutFault>
        ensures { SendsText (W.seen out.old) (W.seen out.new) result
            (fixity_text self.now.listing.rows self.now.judged) }
    {
        let mut buffer = OutBuffer::new();
        put_fixity(&self.opened.rows, &self.opened.kept, &mut buffer, out)?;
        buffer.flush(out)?;
        Ok(())
    }
}

impl<S: Source, A: Allocator + Copy> Fixity<S, A> {
    /// Reads the source as a listing is read, in larger pieces, and keeps beside the rows the values of the digests by
    /// which blocks aren't good.
    pub fn open(alloc: A, source: S) -> Result<Fixity<S, A>, (Fault, S)>
        ensures { Opens IsDigested (S.seen source) (S.seen (source_left (λ a. a.listing.source) result))
            (without_source (λ a. a) result) }
    {
        match Opened::open(alloc, source, WaitingDigests::new(alloc)) {
            Ok(Opened { source, rows, kept }) => {
                let kept = kept.into_digests(alloc);
                Ok(Fixity {
                    opened: Opened { source, rows, kept },
                })
            }
            Err(refused) => Err(refused),
        }
    }
}
