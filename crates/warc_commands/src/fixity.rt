//! The command that lists the blocks that don't have the digest that their records state.
ghost use Rattle.std.specs.Prelude.{◌≡◌, ◌⊎◌};
ghost use Rattle.warc_commands.specs.Devices.{outputs, used};
ghost use Rattle.warc_commands.specs.Fixity.{FixityEnds, fixity_status};
ghost use Rattle.warc_commands.specs.Reads.{ReadsInOrder};
ghost use Rattle.warc_commands.specs.Runs.{Runs, run_seen};

use crate::console::{Console, Heap, Input, Run};
use warc::{Counts, Fixity};
use warc_arguments::Status;
use warc_frame::Sink;

/// The status where all was written.
fn status_of(counts: Counts) -> Status
    ensures value { result ≡ fixity_status counts }
    ensures cases { (result ≡ Status.Done) ⊎ ((result ≡ Status.Found) ⊎ (result ≡ Status.Unchecked)) }
{
    if counts.bad > 0 {
        return Status::Found;
    }
    if counts.unchecked > 0 {
        Status::Unchecked
    } else {
        Status::Done
    }
}

impl<W: Sink, E: Sink> Console<W, E> {
    /// Writes a line for each block that isn't good, and the counts.
    pub(crate) fn fixity<A: Heap, S: Input>(&mut self, alloc: A, source: S) -> Run<S>
        ensures { Runs FixityEnds ReadsInOrder
            (used (S.seen source) W.seen E.seen self.old) (outputs W.seen E.seen self.new) (run_seen S.seen result) }
    {
        let fixity = Fixity::open(alloc, source)?;
        match fixity.list(&mut self.out) {
            Ok(()) => Ok((status_of(fixity.counts()), fixity.into_source())),
            Err(fault) => Ok((self.err.fail(fault), fixity.into_source())),
        }
    }
}
