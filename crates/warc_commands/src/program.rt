//! What the program does with a command, a source and a console.
ghost use Rattle.std.specs.Prelude.{◌≡◌, false, IfErr, IfOk};
ghost use Rattle.warc_commands.specs.Ends.{Ends, IsStatusOf, writes_front};
ghost use Rattle.warc_commands.specs.Program.{FaultEnds, ListEnds, WriteEnds, listed_as, status_of_kind};
ghost use Rattle.warc_commands.specs.Devices.{outputs, used};
ghost use Rattle.warc_commands.specs.Reads.{CommandReads, ReadsInOrder, ReadsTimes};
ghost use Rattle.warc_commands.specs.Running.{IsRunOver};
ghost use Rattle.warc_commands.specs.Runs.{Runs, run_seen};
ghost use Rattle.warc_frame.specs.Effects.{SendsText};
ghost use Rattle.warc_rewrite.specs.Forms.{texts_as};

use crate::console::{Console, Ended, Heap, Input, Run};
use crate::replays::{AsOf, Page};
use crate::select::Wanted;
use std::alloc::Allocator;
use warc::{Form, Listing, Part};
use warc_arguments::{Command, CommandFault, Status};
use warc_frame::{OutFault, Sink, Source};

/// Does what a command says, and returns how the run ended, and the source. A date, a size, a position and a list are
/// judged before the source is read; a number is explained, and an instant printed, without it.
///
/// `listed` holds the bytes of the list that a command reads beside its source (`Command::list_path`).
///
/// Where `Command::reads_once` is false, the source must let any offset be read, as often as wanted. Else each byte is
/// read once, in order.
pub fn perform<A: Heap, S: Input, W: Sink, E: Sink>(
    alloc: A,
    command: &Command<'_>,
    listed: &[u8],
    source: S,
    console: &mut Console<W, E>,
) -> Ended<S>
    ensures { IsRunOver command.now listed.now (S.seen source) (S.seen result.1) (outputs W.seen E.seen console.old)
        (outputs W.seen E.seen console.new) result.0 }
{
    match console.carry_out(alloc, command, listed, source) {
        Ok(ended) => ended,
        Err((fault, source)) => (console.err.refuse(fault), source),
    }
}

/// Writes a line for each record: columns, or an object of JSON.
fn list_as<S: Source, A: Allocator + Copy, W: Sink>(
    json: bool,
    listing: &Listing<S, A>,
    out: &mut W,
) -> Result<(), OutFault>
    ensures { SendsText (W.seen out.old) (W.seen out.new) result (listed_as json listing.now.rows) }
{
    if json {
        warc_json::list_rows(listing, out)
    } else {
        listing.list(out)
    }
}

impl<W: Sink, E: Sink> Console<W, E> {
    /// Does what a command says, up to the report that its source isn't opened.
    fn carry_out<A: Heap, S: Input>(
        &mut self,
        alloc: A,
        command: &Command<'_>,
        listed: &[u8],
        source: S,
    ) -> Run<S>
        ensures runs { Runs (Ends command.now listed.now) (CommandReads command.now)
            (used (S.seen source) W.seen E.seen self.old) (outputs W.seen E.seen self.new) (run_seen S.seen result) }
        ensures refused { IfOk result (λ it. writes_front command.now ≡ false → it.0 ≡ Status.Refused →
            ((W.seen self.new.out).reports ≡ (W.seen self.old.out).reports) × ((W.seen self.new.out).faults ≡
            (W.seen self.old.out).faults)) }
        ensures answers { IfOk result (λ it. IsStatusOf command.now it.0) }
        ensures can_refuse { IfErr result (λ it. IsStatusOf command.now (status_of_kind it.0.kind)) }
    {
        match command {
            Command::List { json } => self.list(alloc, *json, source),
            Command::Check => self.check(alloc, source),
            Command::Extract { id } => self.extract(alloc, id, source),
            Command::Replay {
                uri,
                date,
                in_hex,
                stored,
            } => {
                let as_of = AsOf {
                    date,
                    stored: *stored,
                };
                let page = Page {
                    uri,
                    in_hex: *in_hex,
                    as_of,
                };
                self.replay(alloc, page, source)
            }
            Command::Body { position, stored } => self.body(alloc, position, *stored, source),
            Command::Captures { uri, in_hex } => self.captures(alloc, *in_hex, *uri, source),
            Command::Rewrite => self.write_anew(alloc, Form::Canonical, source),
            Command::Convert => self.write_anew(alloc, Form::Converted, source),
            Command::Split { size } => self.split(alloc, size, source),
            Command::Select {
                positions: _,
                except,
                closed,
            } => {
                let of = Wanted {
                    list: listed,
                    except: *except,
                    closed: *closed,
                };
                self.select(alloc, of, source)
            }
            Command::Write { draft } => Ok(self.write(alloc, draft, source)),
            Command::Head { position } => self.give(alloc, Part::Head, position, source),
            Command::Block { position } => self.give(alloc, Part::Block, position, source),
            Command::Fixity { payload: false } => self.fixity(alloc, source),
            Command::Fixity { payload: true } => self.payloads(alloc, source),
            Command::Pieces => self.pieces(alloc, source),
            Command::Salvage { all: false } => Ok(self.salvage(alloc, source)),
            Command::Salvage { all: true } => self.salvage_all(alloc, source),
            Command::Summary { json } => self.summary(alloc, *json, source),
            Command::Survey => self.survey(alloc, source),
            Command::Explain { number } => Ok(self.explain(number, source)),
            Command::Instant { date } => Ok(self.instant(date, source)),
        }
    }

    /// Lists the records, a line each.
    fn list<A: Heap, S: Input>(&mut self, alloc: A, json: bool, source: S) -> Run<S>
        ensures { Runs (ListEnds json) ReadsInOrder
            (used (S.seen source) W.seen E.seen self.old) (outputs W.seen E.seen self.new) (run_seen S.seen result) }
    {
        let listing = Listing::open(alloc, source)?;
        match list_as(json, &listing, &mut self.out) {
            Ok(()) => Ok((Status::Done, listing.into_source())),
            Err(fault) => Ok((self.err.fail(fault), listing.into_source())),
        }
    }

    /// Writes an archive anew in a form.
    fn write_anew<A: Heap, S: Input>(&mut self, alloc: A, form: Form, source: S) -> Run<S>
        ensures { Runs (WriteEnds (texts_as form)) (ReadsTimes 2)
            (used (S.seen source) W.seen E.seen self.old) (outputs W.seen E.seen self.new) (run_seen S.seen result) }
    {
        let mut archive = Listing::open(alloc, source)?;
        match archive.write_as(form, &mut self.out) {
            Ok(()) => Ok((Status::Done, archive.into_source())),
            Err(fault) => Ok((self.err.fail(fault), archive.into_source())),
        }
    }
}

/// Reports why words name no command: `clap`'s text is the output if it was asked for, and else a line on
/// what went wrong.
pub fn refuse<W: Sink, E: Sink>(fault: &CommandFault, console: &mut Console<W, E>) -> Status
    ensures { FaultEnds fault.now (W.seen console.old.out) (W.seen console.new.out) (E.seen console.old.err.sink)
        (E.seen console.new.err.sink) result }
{
    match fault {
        CommandFault::Usage { text, asked: true } => console.show(text.as_str()),
        CommandFault::Usage { text, asked: false } => {
            console.err.report(text.as_str());
            Status::Failed
        }
        CommandFault::Memory => console.err.fail(OutFault::Memory(0)),
    }
}
