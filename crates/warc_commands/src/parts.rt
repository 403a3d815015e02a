//! The commands that give a part of the record at a position.
ghost use Rattle.warc_commands.specs.Devices.{outputs, used};
ghost use Rattle.warc_commands.specs.Parts.{PartEnds};
ghost use Rattle.warc_commands.specs.Reads.{ReadsTimes};
ghost use Rattle.warc_commands.specs.Runs.{Runs, run_seen};
ghost use Rattle.warc_commands.specs.Words.{ByWord, read_position};

use crate::console::{Console, Heap, Input, Run};
use crate::words::read_position;
use warc::{Listing, Part};
use warc_frame::Sink;

impl<W: Sink, E: Sink> Console<W, E> {
    /// Writes a part of the record at the position that a word names.
    pub(crate) fn give<A: Heap, S: Input>(
        &mut self,
        alloc: A,
        part: Part,
        position: &str,
        source: S,
    ) -> Run<S>
        ensures { Runs (ByWord (PartEnds part) (read_position position.now)) (ReadsTimes 2)
            (used (S.seen source) W.seen E.seen self.old) (outputs W.seen E.seen self.new) (run_seen S.seen result) }
    {
        let position = match read_position(position) {
            Ok(position) => position,
            Err(fault) => return Ok((self.err.refuse_word(fault), source)),
        };
        let mut archive = Listing::open(alloc, source)?;
        let answer = archive.part_to(position, part, &mut self.out);
        Ok((self.err.report_extract(answer), archive.into_source()))
    }
}
