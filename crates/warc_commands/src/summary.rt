//! The command that says what an archive holds.
ghost use Rattle.warc_commands.specs.Devices.{outputs, used};
ghost use Rattle.warc_commands.specs.Reads.{ReadsInOrder};
ghost use Rattle.warc_commands.specs.Runs.{Runs, run_seen};
ghost use Rattle.warc_commands.specs.Summaries.{SummaryEnds, summarized_as};
ghost use Rattle.warc_frame.specs.Effects.{SendsText};

use crate::console::{Console, Heap, Input, Run};
use warc::{Summarized, Summary};
use warc_arguments::Status;
use warc_frame::{OutFault, Sink};

/// Writes a summary: a line for each number and date, or an object of JSON.
fn summarize_as<W: Sink>(json: bool, summary: &Summary<'_>, out: &mut W) -> Result<(), OutFault>
    ensures { SendsText (W.seen out.old) (W.seen out.new) result (summarized_as json summary.now) }
{
    if json {
        warc_json::write_summary(summary, out)
    } else {
        summary.write(out)
    }
}

impl<W: Sink, E: Sink> Console<W, E> {
    /// Writes how many records an archive has, of which kinds, and from when to when.
    pub(crate) fn summary<A: Heap, S: Input>(&mut self, alloc: A, json: bool, source: S) -> Run<S>
        ensures { Runs (SummaryEnds json) ReadsInOrder
            (used (S.seen source) W.seen E.seen self.old) (outputs W.seen E.seen self.new) (run_seen S.seen result) }
    {
        let summarized = Summarized::open(alloc, source)?;
        match summarize_as(json, &summarized.summary(), &mut self.out) {
            Ok(()) => Ok((Status::Done, summarized.into_source())),
            Err(fault) => Ok((self.err.fail(fault), summarized.into_source())),
        }
    }
}
