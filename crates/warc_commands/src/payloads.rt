//! The command that lists the payloads that don't have the digest that their records state.
ghost use Rattle.std.specs.Prelude.{◌≡◌, ◌⊎◌};
ghost use Rattle.warc_commands.specs.Devices.{outputs, used};
ghost use Rattle.warc_commands.specs.Payloads.{PayloadLinesEnd, PayloadsEnd, PayloadsListed, payload_status};
ghost use Rattle.warc_commands.specs.Reads.{AsksNear};
ghost use Rattle.warc_commands.specs.Runs.{Runs, run_seen};

use crate::console::{Console, Heap, Input, Run};
use std::alloc::Allocator;
use warc::{PayloadFixity, Payloads};
use warc_arguments::Status;
use warc_frame::{OutFault, Sink, Source};

impl<W: Sink, E: Sink> Console<W, E> {
    /// Writes a line for each payload that isn't good, and the counts.
    pub(crate) fn payloads<A: Heap, S: Input>(&mut self, alloc: A, source: S) -> Run<S>
        ensures { Runs PayloadsEnd AsksNear
            (used (S.seen source) W.seen E.seen self.old) (outputs W.seen E.seen self.new) (run_seen S.seen result) }
    {
        let mut archive = PayloadFixity::open(alloc, source)?;
        let judged = archive.judge();
        let status = self.report_payloads(&archive, &judged);
        Ok((status, archive.into_source()))
    }

    /// Writes the lines of payloads, or reports why there are none, and answers the status.
    fn report_payloads<A: Heap, S: Source>(
        &mut self,
        archive: &PayloadFixity<S, A>,
        payloads: &Result<Payloads<A>, OutFault>,
    ) -> Status
        ensures { PayloadsListed archive.now.archive.listing.rows payloads.now (W.seen self.old.out)
            (W.seen self.new.out)
            (E.seen self.old.err.sink) (E.seen self.new.err.sink) result }
    {
        match payloads {
            Ok(payloads) => self.report_judged(archive, payloads),
            Err(fault) => self.err.fail(*fault),
        }
    }

    /// Writes the lines of payloads.
    fn report_judged<A: Heap, S: Source>(
        &mut self,
        archive: &PayloadFixity<S, A>,
        payloads: &Payloads<A>,
    ) -> Status
        ensures { PayloadLinesEnd archive.now.archive.listing.rows payloads.now (W.seen self.old.out)
            (W.seen self.new.out)
            (E.seen self.old.err.sink) (E.seen self.new.err.sink) result }
    {
        match archive.list(payloads, &mut self.out) {
            Ok(()) => status_of(payloads),
            Err(fault) => self.err.fail(fault),
        }
    }
}

/// The status where all was written.
fn status_of<A: Allocator>(payloads: &Payloads<A>) -> Status
    ensures value { result ≡ payload_status payloads.now }
    ensures cases { (result ≡ Status.Done) ⊎ ((result ≡ Status.Found) ⊎ (result ≡ Status.Unchecked)) }
{
    if payloads.counts().bad > 0 {
        return Status::Found;
    }
    if payloads.are_verified() {
        Status::Done
    } else {
        Status::Unchecked
    }
}
