//! How some records are written byte for byte, and with them what they need.
ghost use Rattle.std.specs.Prelude.{◌≡◌, None, ◌≤◌, ◌++◌, codes, decimal, length};
ghost use Rattle.warc_frame.specs.Seen.{IfHeld};
ghost use Rattle.warc_lookup.specs.Indexed.{IsIndexed};
ghost use Rattle.warc_rewrite.specs.Selecting.{ArePositions, ReadsRecords, at_positions};
ghost use Rattle.warc_commands.specs.Closed.{ClosedEnds, ClosureEnds, GivesClosed, NamedEnds, ReadsClosed, beside, beside_text};
ghost use Rattle.warc_commands.specs.Devices.{outputs, used};
ghost use Rattle.warc_commands.specs.Program.{Reports};
ghost use Rattle.warc_commands.specs.Reads.{ReadsTimes};
ghost use Rattle.warc_commands.specs.Runs.{Runs, run_seen};
ghost use Rattle.warc_commands.specs.Selected.{SendEnds, selected_line};

use crate::console::{Console, Heap, Input, LINE, Reporter, Run};
use crate::lists::{first_absent, put_in_order};
use arrayvec::ArrayString;
use itoa::Buffer;
use std::alloc::Allocator;
use warc::Archive;
use warc_arguments::Status;
use warc_frame::{OutFault, Sink, Source};

impl<W: Sink, E: Sink> Console<W, E> {
    /// Writes the records at these positions and those that they need, or all others that need none of them.
    pub(crate) fn select_closed<A: Heap, S: Input>(
        &mut self,
        alloc: A,
        named: Vec<usize, A>,
        except: bool,
        source: S,
    ) -> Run<S>
        ensures { Runs (ClosedEnds except None named.items) (ReadsTimes 3)
            (used (S.seen source) W.seen E.seen self.old) (outputs W.seen E.seen self.new) (run_seen S.seen result) }
    {
        let mut archive = Archive::open(alloc, source)?;
        let status = self.write_closed(&mut archive, named, except);
        Ok((status, archive.into_source()))
    }

    /// Writes what these positions name of an archive, if each has a record.
    fn write_closed<A: Heap, S: Source>(
        &mut self,
        archive: &mut Archive<S, A>,
        named: Vec<usize, A>,
        except: bool,
    ) -> Status
        ensures ends { IfHeld (S.seen archive.old.listing.source).holds (λ bytes. IsIndexed bytes archive.old) →
            NamedEnds except named.items archive.old.listing.rows
            (used (S.seen archive.old.listing.source) W.seen E.seen self.old)
            (used (S.seen archive.new.listing.source) W.seen E.seen self.new) result }
        ensures reads { ReadsClosed archive.old.listing.rows (S.seen archive.old.listing.source)
            (S.seen archive.new.listing.source) }
    {
        if let Some(absent) = first_absent(&named, archive.count()) {
            self.err.report_number("E1 NoRecord ", absent);
            return Status::Found;
        }
        let mut positions = named;
        put_in_order(&mut positions);
        self.close_and_send(archive, &positions, except)
    }

    /// Finds what is to be written by positions in their order, and writes it.
    fn close_and_send<A: Heap, S: Source>(
        &mut self,
        archive: &mut Archive<S, A>,
        positions: &[usize],
        except: bool,
    ) -> Status
        requires { ArePositions (length archive.old.listing.rows) positions.now }
        ensures ends { IfHeld (S.seen archive.old.listing.source).holds (λ bytes. IsIndexed bytes archive.old) →
            ClosureEnds except positions.now archive.old.listing.rows
            (used (S.seen archive.old.listing.source) W.seen E.seen self.old)
            (used (S.seen archive.new.listing.source) W.seen E.seen self.new) result }
        ensures reads { ReadsClosed archive.old.listing.rows (S.seen archive.old.listing.source)
            (S.seen archive.new.listing.source) }
    {
        match close(archive, positions, except) {
            Ok(chosen) => {
                let besides = count_beside(archive.count(), positions.len(), chosen.len(), except);
                self.send_closed(archive, &chosen, Beside { except, besides })
            }
            Err(fault) => self.err.fail(fault),
        }
    }
}

/// The positions of what is written: these and those of what their records need, or of the others that need none.
fn close<S: Source, A: Allocator + Copy>(
    archive: &mut Archive<S, A>,
    positions: &[usize],
    except: bool,
) -> Result<Vec<usize, A>, OutFault>
    requires { ArePositions (length archive.old.listing.rows) positions.now }
    ensures closes { GivesClosed except archive.old.listing.rows archive.old.index archive.old.parts positions.now
        (S.seen archive.old.listing.source) (S.seen archive.new.listing.source) result }
    ensures rows { archive.new.listing.rows ≡ archive.old.listing.rows }
{
    if except {
        return archive.closed_others(positions);
    }
    archive.closed(positions)
}

/// How many records are written beside the named ones, or left out besides, by the numbers of all records, of the named
/// and of the written ones.
fn count_beside(count: usize, named: usize, written: usize, except: bool) -> usize
    ensures { result ≡ beside except count named written }
{
    if except {
        return count.saturating_sub(named).saturating_sub(written);
    }
    written.saturating_sub(named)
}

/// How many records are written beside the named ones, or left out besides.
#[derive(Clone, Copy)]
struct Beside {
    except: bool,
    besides: usize,
}

impl<W: Sink, E: Sink> Console<W, E> {
    /// Writes the records at positions, and reports how many they are and how many bytes they have, and how many
    /// records there are beside the named ones.
    fn send_closed<A: Heap, S: Source>(
        &mut self,
        archive: &mut Archive<S, A>,
        positions: &[usize],
        beside: Beside,
    ) -> Status
        requires { ArePositions (length archive.old.listing.rows) positions.now }
        ensures ends { SendEnds (beside_text beside.except beside.besides) archive.old.listing.rows positions.now
            (used (S.seen archive.old.listing.source) W.seen E.seen self.old)
            (used (S.seen archive.new.listing.source) W.seen E.seen self.new) result }
        ensures reads { ReadsRecords (at_positions archive.old.listing.rows positions.now)
            (S.seen archive.old.listing.source) (S.seen archive.new.listing.source) }
    {
        let size = archive.selected_len(positions);
        match archive.select(positions, &mut self.out) {
            Ok(()) => {
                self.err.report_selected(positions.len(), size, beside);
                Status::Done
            }
            Err(fault) => self.err.fail(fault),
        }
    }
}

impl<E: Sink> Reporter<E> {
    /// Reports how many records and bytes went out, and how many records there are beside the named ones.
    fn report_selected(&mut self, records: usize, bytes: u64, beside: Beside)
        ensures { Reports (selected_line records bytes (beside_text beside.except beside.besides))
            (E.seen self.old.sink)
            (E.seen self.new.sink) }
    {
        if beside.except {
            let line = line_of_selected(records, bytes, beside.besides, " left out besides");
            self.report(line.as_str());
            return;
        }
        let line = line_of_selected(records, bytes, beside.besides, " of them needed");
        self.report(line.as_str());
    }
}

/// The line of how many records and bytes went out, and how many records there are beside the named ones.
fn line_of_selected(records: usize, bytes: u64, besides: usize, end: &str) -> ArrayString<LINE>
    requires { length end.now ≤ 20 }
    ensures { result.bytes ≡ selected_line records bytes (codes ", " ++ decimal besides ++ end.now) }
{
    let (mut first, mut second, mut third) = (Buffer::new(), Buffer::new(), Buffer::new());
    let mut line = ArrayString::new();
    line.push_str("warc: selected ");
    line.push_str(first.format(records));
    line.push_str(" records, ");
    line.push_str(second.format(bytes));
    line.push_str(" bytes, ");
    line.push_str(third.format(besides));
    line.push_str(end);
    line.push_str("\n");
    line
}
