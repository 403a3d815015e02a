//! What the program does to split the records of an archive.
ghost use Rattle.warc_commands.specs.Devices.{outputs, used};
ghost use Rattle.warc_commands.specs.Program.{SplitEnds};
ghost use Rattle.warc_commands.specs.Reads.{ReadsTimes};
ghost use Rattle.warc_commands.specs.Runs.{Runs, run_seen};
ghost use Rattle.warc_commands.specs.Words.{ByWord, read_size};

use crate::console::{Console, Heap, Input, Run};
use crate::words::read_size;
use warc::Listing;
use warc_arguments::Status;
use warc_frame::Sink;

impl<W: Sink, E: Sink> Console<W, E> {
    /// Writes an archive anew, with its records split into segments of as many bytes as a word says.
    pub(crate) fn split<A: Heap, S: Input>(&mut self, alloc: A, size: &str, source: S) -> Run<S>
        ensures { Runs (ByWord SplitEnds (read_size size.now)) (ReadsTimes 4)
            (used (S.seen source) W.seen E.seen self.old) (outputs W.seen E.seen self.new) (run_seen S.seen result) }
    {
        let size = match read_size(size) {
            Ok(size) => size,
            Err(fault) => return Ok((self.err.refuse_word(fault), source)),
        };
        let mut archive = Listing::open(alloc, source)?;
        match archive.split(size, &mut self.out) {
            Ok(()) => Ok((Status::Done, archive.into_source())),
            Err(fault) => Ok((self.err.fail(fault), archive.into_source())),
        }
    }
}
