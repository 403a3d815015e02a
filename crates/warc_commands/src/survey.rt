//! The command that writes what `list`, `fixity`, `check`, `summary`, `captures` and `fixity --payload` write.
ghost use Rattle.warc_commands.specs.Devices.{outputs, used};
ghost use Rattle.warc_commands.specs.Reads.{AsksNear};
ghost use Rattle.warc_commands.specs.Runs.{Runs, run_seen};
ghost use Rattle.warc_commands.specs.Surveys.{SurveyEnds};

use crate::console::{Console, Heap, Input, Run};
use warc::Surveyed;
use warc_arguments::Status;
use warc_frame::Sink;

impl<W: Sink, E: Sink> Console<W, E> {
    /// Writes what the six commands write, each after a line with its name. What they find changes no status.
    pub(crate) fn survey<A: Heap, S: Input>(&mut self, alloc: A, source: S) -> Run<S>
        ensures { Runs SurveyEnds AsksNear
            (used (S.seen source) W.seen E.seen self.old) (outputs W.seen E.seen self.new) (run_seen S.seen result) }
    {
        let mut surveyed = Surveyed::open(alloc, source)?;
        match surveyed.write(&mut self.out) {
            Ok(()) => Ok((Status::Done, surveyed.into_source())),
            Err(fault) => Ok((self.err.fail(fault), surveyed.into_source())),
        }
    }
}
