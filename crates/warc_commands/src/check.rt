//! The command that checks an archive.
ghost use Rattle.std.specs.Prelude.{◌≡◌, ◌⊎◌};
ghost use Rattle.warc_commands.specs.Devices.{outputs, used};
ghost use Rattle.warc_commands.specs.Program.{CheckEnds, status_of_count};
ghost use Rattle.warc_commands.specs.Reads.{ReadsInOrder};
ghost use Rattle.warc_commands.specs.Runs.{Runs, run_seen};

use crate::console::{Console, Heap, Input, Run};
use warc::Checked;
use warc_arguments::Status;
use warc_frame::Sink;

impl<W: Sink, E: Sink> Console<W, E> {
    /// Checks the records of an archive while it is read, once and in order, and then writes what was found.
    pub(crate) fn check<A: Heap, S: Input>(&mut self, alloc: A, source: S) -> Run<S>
        ensures { Runs CheckEnds ReadsInOrder
            (used (S.seen source) W.seen E.seen self.old) (outputs W.seen E.seen self.new) (run_seen S.seen result) }
    {
        let checked = Checked::open(alloc, source)?;
        match checked.check(&mut self.out) {
            Ok(count) => Ok((status_of_count(count), checked.into_source())),
            Err(fault) => Ok((self.err.fail(fault), checked.into_source())),
        }
    }
}

/// The status where an archive was checked and `count` things were found.
fn status_of_count(count: usize) -> Status
    ensures value { result ≡ status_of_count count }
    ensures cases { (result ≡ Status.Done) ⊎ (result ≡ Status.Found) }
{
    if count > 0 {
        Status::Found
    } else {
        Status::Done
    }
}
