//! The command that writes the records before the first fault.
ghost use Rattle.std.specs.Prelude.{◌≡◌, ◌≤◌, Some, length};
ghost use Rattle.warc_commands.specs.Devices.{used};
ghost use Rattle.warc_commands.specs.Program.{Reports, status_of_kind};
ghost use Rattle.warc_commands.specs.Reads.{ReadsTimes};
ghost use Rattle.warc_commands.specs.Salvage.{SalvageEnds, ReportsAmount, amount_line, salvage_status};

use crate::console::{Console, Ended, Heap, Input, LINE, Reporter};
use arrayvec::ArrayString;
use itoa::Buffer;
use warc::open_front;
use warc_arguments::Status;
use warc_frame::{Fault, Sink};

/// The line of how many records and bytes went out.
fn line_of_amount(word: &str, records: u64, bytes: u64) -> ArrayString<LINE>
    requires { length word.now ≤ 8 }
    ensures { result.bytes ≡ amount_line word.now records bytes }
{
    let (mut first, mut second) = (Buffer::new(), Buffer::new());
    let mut line = ArrayString::new();
    line.push_str("warc: ");
    line.push_str(word);
    line.push_str(" ");
    line.push_str(first.format(records));
    line.push_str(" records, ");
    line.push_str(second.format(bytes));
    line.push_str(" bytes");
    line.push_str("\n");
    line
}

impl<E: Sink> Reporter<E> {
    /// Reports how many records and bytes went out.
    pub(crate) fn report_line(&mut self, word: &str, records: u64, bytes: u64)
        requires { length word.now ≤ 8 }
        ensures { Reports (amount_line word.now records bytes) (E.seen self.old.sink) (E.seen self.new.sink) }
    {
        self.report(line_of_amount(word, records, bytes).as_str());
    }

    /// Reports a fault and how many records and bytes before it went out, and answers the status.
    fn report_salvaged(&mut self, fault: Fault, records: usize, bytes: u64) -> Status
        ensures reported { ReportsAmount (Some fault) records bytes (E.seen self.old.sink) (E.seen self.new.sink) }
        ensures status { result ≡ status_of_kind fault.kind }
    {
        let status = self.refuse(fault);
        self.report_line("salvaged", records as u64, bytes);
        status
    }

    /// Reports the fault after the records that were written, if there is one, and how many they are; and answers the
    /// exit status.
    fn report_amount(&mut self, found: Option<Fault>, records: usize, bytes: u64) -> Status
        ensures reported { ReportsAmount found records bytes (E.seen self.old.sink) (E.seen self.new.sink) }
        ensures status { result ≡ salvage_status found }
    {
        match found {
            None => {
                self.report_line("good", records as u64, bytes);
                Status::Done
            }
            Some(fault) => self.report_salvaged(fault, records, bytes),
        }
    }
}

impl<W: Sink, E: Sink> Console<W, E> {
    /// Writes the records before the first fault, byte for byte.
    pub(crate) fn salvage<A: Heap, S: Input>(&mut self, alloc: A, source: S) -> Ended<S>
        ensures ends { SalvageEnds (used (S.seen source) W.seen E.seen self.old)
            (used (S.seen result.1) W.seen E.seen self.new) result.0 }

        // The source still holds what it held.
        ensures kept { (S.seen result.1).holds ≡ (S.seen source).holds }
        ensures reads { ReadsTimes 2 (S.seen source) (S.seen result.1) }
    {
        let (mut listing, found) = open_front(alloc, source);
        match listing.copy_to(&mut self.out) {
            Ok(bytes) => {
                let status = self.err.report_amount(found, listing.count(), bytes);
                (status, listing.into_source())
            }
            Err(fault) => (self.err.fail(fault), listing.into_source()),
        }
    }
}
