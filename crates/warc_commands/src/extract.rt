//! The command that gives the block of the first record with an id.
ghost use Rattle.std.specs.Prelude.{◌≡◌};
ghost use Rattle.warc_commands.specs.Devices.{outputs, used};
ghost use Rattle.warc_commands.specs.Program.{ExtractEnds, Reports, ReportsIf, extract_line, extract_status};
ghost use Rattle.warc_commands.specs.Reads.{ReadsTimes};
ghost use Rattle.warc_commands.specs.Runs.{Runs, run_seen};

use crate::console::{Console, Heap, Input, Reporter, Run};
use warc::{Archive, ExtractFault};
use warc_arguments::Status;
use warc_frame::Sink;

impl<W: Sink, E: Sink> Console<W, E> {
    /// Writes the block of the first record with an id.
    pub(crate) fn extract<A: Heap, S: Input>(&mut self, alloc: A, id: &str, source: S) -> Run<S>
        ensures { Runs (ExtractEnds id.now) (ReadsTimes 2)
            (used (S.seen source) W.seen E.seen self.old) (outputs W.seen E.seen self.new) (run_seen S.seen result) }
    {
        let mut archive = Archive::open(alloc, source)?;
        let answer = archive.extract(id.as_bytes(), &mut self.out);
        Ok((self.err.report_extract(answer), archive.into_source()))
    }
}

impl<E: Sink> Reporter<E> {
    /// Reports why a block isn't written, or not whole, and answers the status.
    pub(crate) fn report_extract(&mut self, answer: Result<u64, ExtractFault>) -> Status
        ensures reported { ReportsIf (extract_line answer) (E.seen self.old.sink) (E.seen self.new.sink) }
        ensures status { result ≡ extract_status answer }
    {
        match answer {
            Ok(_) => Status::Done,
            Err(ExtractFault::NoRecord) => {
                self.report("warc: E1 NoRecord\n");
                Status::Found
            }
            Err(ExtractFault::Out(fault)) => self.fail(fault),
        }
    }
}
