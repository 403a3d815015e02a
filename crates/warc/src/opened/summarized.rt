//! An archive whose records are counted.
ghost use Rattle.std.specs.Prelude.{◌≡◌};
ghost use Rattle.warc_reading.specs.Opening.{Opens, source_left, without_source};
ghost use Rattle.warc_judged.specs.Summary.{IsSummarized, IsSummaryOf};

use std::alloc::{Allocator, Global};
use std::marker::Model;
use warc_frame::{Fault, Source};
use warc_judged::{RecordFlags, Summary, WaitingFlags, summary_of};
use warc_reading::Opened;

/// An archive whose records are counted.
#[derive(Drop)]
pub struct Summarized<S: Source, A: Allocator = Global> {
    opened: Opened<S, RecordFlags<A>, A>,
}

impl<S: Source, A: Allocator> Model for Summarized<S, A> {
    ghost use Rattle.warc_judged.specs.Summary.{Flagged};

    ghost Value = { Flagged S };

    ghost view = { λ a. record {
      listing = record { source = a.opened.source; rows = a.opened.rows };
      flags = a.opened.kept;
    } };
}

impl<S: Source, A: Allocator> Summarized<S, A> {
    /// What the archive holds. It doesn't allocate.
    pub fn summary(&self) -> Summary<'_>
        ensures { IsSummaryOf self.now.listing.rows self.now.flags result }
    {
        let flags = &self.opened.kept;
        summary_of(&self.opened.rows, &flags.segmented, &flags.verdicts)
    }

    /// Returns the source.
    pub fn into_source(self) -> S
        ensures { result ≡ self.listing.source }
    {
        self.opened.source
    }
}

impl<S: Source, A: Allocator + Copy> Summarized<S, A> {
    /// Reads the source as a listing is read, in larger pieces, and keeps beside the rows which records are segments.
    pub fn open(alloc: A, source: S) -> Result<Summarized<S, A>, (Fault, S)>
        ensures { Opens IsSummarized (S.seen source) (S.seen (source_left (λ a. a.listing.source) result))
            (without_source (λ a. a) result) }
    {
        match Opened::open(alloc, source, WaitingFlags::new(alloc)) {
            Ok(Opened { source, rows, kept }) => {
                let kept = kept.into_flags();
                Ok(Summarized {
                    opened: Opened { source, rows, kept },
                })
            }
            Err(refused) => Err(refused),
        }
    }
}
