//! An archive whose records are judged as they are read.
//! The findings of each are kept with its row, so that they are reported without reading anything again.
ghost use Rattle.std.specs.Prelude.{◌≡◌, ℕ, List, false, IfErr, length};
ghost use Rattle.warc_frame.specs.Failing.{failed_by, is_read};
ghost use Rattle.warc_reading.specs.Archive.{contents};
ghost use Rattle.warc_reading.specs.Opening.{Opens, source_left, without_source};
ghost use Rattle.warc_checking.specs.Checks.{WritesFindings};
ghost use Rattle.warc_checking.specs.Judged.{IsJudgedOf};

use std::alloc::{Allocator, Global};
use std::marker::Model;
use warc_checking::{Judging, OwnFindings, write_findings};
use warc_frame::laws::head_of_spelled;
use warc_frame::{Fault, OutFault, Sink, Source};
use warc_reading::Opened;

/// An archive, whose records are listed and were judged as they were read. Contracts see its listing, and the findings
/// that each record alone shows.
#[derive(Drop)]
pub struct Checked<S: Source, A: Allocator = Global> {
    opened: Opened<S, OwnFindings<A>, A>,
}

impl<S: Source, A: Allocator> Model for Checked<S, A> {
    ghost use Rattle.std.specs.Prelude.{map};
    ghost use Rattle.warc_checking.specs.Judged.{Judged};
    ghost use Rattle.warc_checking.specs.OwnFindings.{all_of};

    ghost Value = { Judged S };

    ghost view = { λ a. record {
      listing = record { source = a.opened.source; rows = a.opened.rows };
      findings = map all_of a.opened.kept;
    } };
}

impl<S: Source, A: Allocator> Checked<S, A> {
    /// How many records there are.
    pub fn count(&self) -> usize
        ensures { result ≡ length self.now.listing.rows }
    {
        self.opened.rows.len()
    }

    /// Returns the source.
    pub fn into_source(self) -> S
        ensures { result ≡ self.listing.source }
    {
        self.opened.source
    }
}

impl<S: Source, A: Allocator + Copy> Checked<S, A> {
    /// Reads the source as a listing is read, in larger pieces, and keeps with each row what its record has wrong.
    /// docs/SPEED.md has the memory that this takes.
    pub fn open(alloc: A, source: S) -> Result<Checked<S, A>, (Fault, S)>
        ensures { Opens IsJudgedOf (S.seen source) (S.seen (source_left (λ a. a.listing.source) result))
            (without_source (λ a. a) result) }
    {
        match Opened::open(alloc, source, Judging::new(alloc)) {
            Ok(Opened { source, rows, kept }) => {
                let kept = kept.into_findings();
                Ok(Checked {
                    opened: Opened { source, rows, kept },
                })
            }
            Err(refused) => Err(refused),
        }
    }

    /// Writes a line for each finding, as a listing does, and returns how many there are. The source is asked for
    /// nothing: what ends it early is a write that fails, `Write`, or a failed allocation, `Memory`. Each has the
    /// number of bytes that went out, which are the first of the output.
    pub fn check<W: Sink>(&self, out: &mut W) -> Result<usize, OutFault>
        ensures reports { (bytes : List ℕ) (is : IsJudgedOf bytes self.now) →
            WritesFindings (contents is.listed.are.records) (W.seen out.old) (W.seen out.new) result }
        ensures cause { (W.seen out.new).faults ≡ failed_by result (W.seen out.old).faults }

        // No read fails, since none is made.
        ensures unread { IfErr result (λ e. is_read e ≡ false) }
    {
        head_of_spelled();
        let rows = &self.opened.rows;
        write_findings(rows.allocator(), rows, &self.opened.kept, out)
    }
}
