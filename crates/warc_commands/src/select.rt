//! The command that writes some records byte for byte.
ghost use Rattle.std.specs.Prelude.{◌≡◌, ◌<◌, ◌≤◌, ◌++◌, All, IfOk, None, [], decimal, length};
ghost use Rattle.warc_rewrite.specs.Selecting.{ArePositions, ReadsRecords, at_positions};
ghost use Rattle.warc_commands.specs.Closed.{SelectedAs};
ghost use Rattle.warc_commands.specs.Devices.{outputs, used};
ghost use Rattle.warc_commands.specs.Named.{bad_line, positions_in};
ghost use Rattle.warc_commands.specs.Program.{Reports, reported_line};
ghost use Rattle.warc_commands.specs.Reads.{ReadsTimes, SelectReads};
ghost use Rattle.warc_commands.specs.Runs.{Runs, run_seen};
ghost use Rattle.warc_commands.specs.Selected.{AreWanted, ChosenEnds, ReadsSome, SelectEnds, SendEnds, list_fault_text};

use crate::console::{Console, Heap, Input, LINE, Reporter, Run};
use crate::lists::{ListFault, first_absent, put_in_order, read_list};
use arrayvec::ArrayString;
use itoa::Buffer;
use std::alloc::{AllocError, Allocator};
use warc::Listing;
use warc_arguments::Status;
use warc_frame::{OutFault, Sink, Source};

/// Which records are written: those at the positions that a list names, or all others; and whether with all that they
/// need.
#[derive(Clone, Copy)]
pub(crate) struct Wanted<'a> {
    pub(crate) list: &'a [u8],
    pub(crate) except: bool,
    pub(crate) closed: bool,
}

impl<W: Sink, E: Sink> Console<W, E> {
    /// Writes the records at the positions that a list names, or all others, byte for byte.
    pub(crate) fn select<A: Heap, S: Input>(&mut self, alloc: A, of: Wanted, source: S) -> Run<S>
        ensures { Runs (SelectedAs of.entry.closed of.entry.except (bad_line of.entry.list.now)
            (positions_in of.entry.list.now)) (SelectReads of.entry.closed)
            (used (S.seen source) W.seen E.seen self.old) (outputs W.seen E.seen self.new) (run_seen S.seen result) }
    {
        let named = match read_list(alloc, of.list) {
            Ok(named) => named,
            Err(fault) => return Ok((self.err.report_list(fault), source)),
        };
        if of.closed {
            return self.select_closed(alloc, named, of.except, source);
        }
        self.select_alone(alloc, named, of.except, source)
    }

    /// Writes the records at these positions, or all others.
    fn select_alone<A: Heap, S: Input>(
        &mut self,
        alloc: A,
        named: Vec<usize, A>,
        except: bool,
        source: S,
    ) -> Run<S>
        ensures { Runs (SelectEnds except None named.items) (ReadsTimes 2)
            (used (S.seen source) W.seen E.seen self.old) (outputs W.seen E.seen self.new) (run_seen S.seen result) }
    {
        let mut archive = Listing::open(alloc, source)?;
        let status = self.write_named(&mut archive, named, except);
        Ok((status, archive.into_source()))
    }

    /// Writes the records of an archive at these positions, or all others, if each position has a record.
    fn write_named<A: Heap, S: Source>(
        &mut self,
        archive: &mut Listing<S, A>,
        named: Vec<usize, A>,
        except: bool,
    ) -> Status
        ensures ends { ChosenEnds except named.items archive.old.rows
            (used (S.seen archive.old.source) W.seen E.seen self.old)
            (used (S.seen archive.new.source) W.seen E.seen self.new)
            result }
        ensures reads { ReadsSome archive.old.rows (S.seen archive.old.source) (S.seen archive.new.source) }
    {
        if let Some(absent) = first_absent(&named, archive.count()) {
            self.err.report_number("E1 NoRecord ", absent);
            return Status::Found;
        }
        match choose(archive, named, except) {
            Ok(chosen) => self.send(archive, &chosen),
            Err(_) => self.err.fail(OutFault::Memory(0)),
        }
    }
}

/// The positions of what is written: these, or all others.
fn choose<S: Source, A: Allocator + Copy>(
    archive: &Listing<S, A>,
    named: Vec<usize, A>,
    except: bool,
) -> Result<Vec<usize, A>, AllocError>
    requires { All (λ p. p < length archive.now.rows) named.items }
    ensures { IfOk result (λ chosen. AreWanted except (length archive.now.rows) named.items chosen.items) }
{
    let mut positions = named;
    put_in_order(&mut positions);
    if except {
        let others = archive.others(&positions)?;
        return Ok(others);
    }
    Ok(positions)
}

impl<W: Sink, E: Sink> Console<W, E> {
    /// Writes the records at positions, and reports how many they are and how many bytes they have.
    fn send<A: Heap, S: Source>(
        &mut self,
        archive: &mut Listing<S, A>,
        positions: &[usize],
    ) -> Status
        requires { ArePositions (length archive.old.rows) positions.now }
        ensures ends { SendEnds [] archive.old.rows positions.now
            (used (S.seen archive.old.source) W.seen E.seen self.old)
            (used (S.seen archive.new.source) W.seen E.seen self.new) result }
        ensures reads { ReadsRecords (at_positions archive.old.rows positions.now) (S.seen archive.old.source)
            (S.seen archive.new.source) }
    {
        let size = archive.selected_len(positions);
        match archive.select(positions, &mut self.out) {
            Ok(()) => {
                self.err
                    .report_line("selected", positions.len() as u64, size);
                Status::Done
            }
            Err(fault) => self.err.fail(fault),
        }
    }
}

impl<E: Sink> Reporter<E> {
    /// Reports why a list names no positions, and answers the status.
    pub(crate) fn report_list(&mut self, fault: ListFault) -> Status
        ensures reported { Reports (reported_line (list_fault_text fault)) (E.seen self.old.sink)
            (E.seen self.new.sink) }
        ensures status { result ≡ Status.Failed }
    {
        match fault {
            ListFault::Line(number) => {
                self.report_number("bad position in line ", number);
                Status::Failed
            }
            ListFault::Memory => self.fail(OutFault::Memory(0)),
        }
    }

    /// Reports a short text and a number.
    pub(crate) fn report_number(&mut self, text: &str, number: usize)
        requires { length text.now ≤ 80 }
        ensures { Reports (reported_line (text.now ++ decimal number)) (E.seen self.old.sink) (E.seen self.new.sink) }
    {
        self.report(line_of_number(text, number).as_str());
    }
}

/// The line of a short text and a number.
fn line_of_number(text: &str, number: usize) -> ArrayString<LINE>
    requires { length text.now ≤ 80 }
    ensures { result.bytes ≡ reported_line (text.now ++ decimal number) }
{
    let mut digits = Buffer::new();
    let mut line = ArrayString::new();
    line.push_str("warc: ");
    line.push_str(text);
    line.push_str(digits.format(number));
    line.push_str("\n");
    line
}
