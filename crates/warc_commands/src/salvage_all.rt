//! The command that writes all good records of a damaged archive.
ghost use Rattle.std.specs.Prelude.{◌≡◌, ◌<◌, ◌++◌, List, [], ◌∷◌, IfErr, None, false, length};
ghost use Rattle.warc_frame.specs.Effects.{Emits, IsOfDevice};
ghost use Rattle.warc_pieces.specs.Laws.{is_damage};
ghost use Rattle.warc_pieces.specs.declared.piece.Piece.{Piece as Given};
ghost use Rattle.warc_commands.specs.Devices.{outputs, used};
ghost use Rattle.warc_commands.specs.Pieces.{SalvageAllEnds, ReportsEach, damage_line, damage_lines, pieces_status, salvaged_line, stop_lines};
ghost use Rattle.warc_commands.specs.Reads.{AsksNear};
ghost use Rattle.warc_commands.specs.Runs.{Runs, run_seen};
ghost use Rattle.warc_commands.specs.Program.{Reports};
ghost use Rattle.warc_commands.specs.Walking.{CopiesPieces, IsGoodOf, IsTallyOf, ReadsGood, SendsRuns};

use crate::console::{Console, Heap, Input, LINE, Reporter, Run};
use crate::walk::{Found, Step, Tally, next_step};
use arrayvec::ArrayString;
use itoa::Buffer;
use std::alloc::Allocator;
use warc_arguments::Status;
use warc_frame::{Fault, OutBuffer, OutFault, PIECE, Sink, Source};
use warc_pieces::{Piece, Pieces};

/// The line of a damage.
fn line_of_damage(offset: u64, len: u64, fault: Fault) -> ArrayString<LINE>
    ensures { result.bytes ≡ damage_line offset len fault }
{
    let (name, field) = fault.kind.parts();
    let (mut first, mut second, mut third) = (Buffer::new(), Buffer::new(), Buffer::new());
    let mut line = ArrayString::new();
    line.push_str("warc: damage ");
    line.push_str(first.format(offset));
    line.push_str(" ");
    line.push_str(second.format(len));
    line.push_str(" ");
    line.push_str(name);
    line.push_str(field);
    line.push_str(" at ");
    line.push_str(third.format(fault.offset));
    line.push_str("\n");
    line
}

impl<E: Sink> Reporter<E> {
    /// Reports a piece if it is damage.
    fn report_damage(&mut self, piece: Piece)
        ensures { ReportsEach (damage_lines (piece ∷ [])) (E.seen self.old.sink) (E.seen self.new.sink) }
    {
        if let Piece::Damage { offset, len, fault } = piece {
            self.report(line_of_damage(offset, len, fault).as_str());
        }
    }
}

/// Adds the bytes of a piece to the output if it is a run of good records.
fn copy_run<S: Source, A: Allocator + Copy, W: Sink>(
    piece: Piece,
    pieces: &mut Pieces<S, A>,
    scratch: &mut [u8],
    buffer: &mut OutBuffer,
    out: &mut W,
) -> Result<(), OutFault>
    requires { 0 < length scratch.old }
    ensures emits { Emits (IsGoodOf piece) (S.seen pieces.old.source) (S.seen pieces.new.source) (W.seen out.old)
        (W.seen out.new) buffer.old buffer.new result }
    ensures device { IfErr result IsOfDevice }
    ensures run { IfErr result (λ _. is_damage piece ≡ false) }
    ensures reads { ReadsGood piece (S.seen pieces.old.source) (S.seen pieces.new.source) }
    ensures same { (pieces.new.at ≡ pieces.old.at) × (pieces.new.failure ≡ pieces.old.failure) }
{
    match piece {
        Piece::Records {
            offset,
            len,
            count: _,
        } => pieces.put(offset, len, scratch, buffer, out),
        Piece::Damage { .. } => Ok(()),
    }
}

/// Adds the bytes of each run of good records to the output, and reports each damage.
fn copy_runs<S: Source, A: Allocator + Copy, W: Sink, E: Sink>(
    pieces: &mut Pieces<S, A>,
    scratch: &mut [u8],
    buffer: &mut OutBuffer,
    out: &mut W,
    err: &mut Reporter<E>,
) -> Result<Found, OutFault>
    requires room { 0 < length scratch.old }
    requires begun { (pieces.old.at ≡ 0) × (pieces.old.failure ≡ None) }
    ensures { CopiesPieces (S.seen pieces.old.source) (S.seen pieces.new.source) (W.seen out.old) (W.seen out.new)
        buffer.old buffer.new (E.seen err.old.sink) (E.seen err.new.sink) result }
{
    let mut tally = Tally::new();
    'copying: loop {
        match next_step(pieces, &mut tally) {
            Step::More(piece) => {
                copy_run(piece, pieces, scratch, buffer, out)?;
                err.report_damage(piece);
            }
            Step::End(stop) => return Ok(Found { tally, stop }),
        }
    }
}

/// Writes the bytes of each run of good records, and reports each damage.
fn send_runs<S: Source, A: Allocator + Copy, W: Sink, E: Sink>(
    pieces: &mut Pieces<S, A>,
    out: &mut W,
    err: &mut Reporter<E>,
) -> Result<Found, OutFault>
    requires { (pieces.old.at ≡ 0) × (pieces.old.failure ≡ None) }
    ensures { SendsRuns (S.seen pieces.old.source) (S.seen pieces.new.source) (W.seen out.old) (W.seen out.new)
        (E.seen err.old.sink) (E.seen err.new.sink) result }
{
    let mut scratch = [0; PIECE];
    let mut buffer = OutBuffer::new();
    let found = copy_runs(pieces, &mut scratch, &mut buffer, out, err)?;
    buffer.flush(out)?;
    Ok(found)
}

impl<E: Sink> Reporter<E> {
    /// Reports how many records and bytes went out, and answers the status.
    fn report_sum(&mut self, tally: Tally) -> Status
        ensures reported { (pieces : List Given) → IsTallyOf tally pieces
            → Reports (salvaged_line None pieces) (E.seen self.old.sink) (E.seen self.new.sink) }
        ensures status { (pieces : List Given) → IsTallyOf tally pieces → result ≡ pieces_status None pieces }
    {
        if tally.is_damaged {
            self.report_line("salvaged", tally.records, tally.bytes);
            Status::Refused
        } else {
            self.report_line("good", tally.records, tally.bytes);
            Status::Done
        }
    }

    /// Reports what stopped reading, if anything did, and what went out, and answers the status.
    fn report_found(&mut self, found: Found) -> Status
        ensures reported { (pieces : List Given) → IsTallyOf found.tally pieces → ReportsEach (stop_lines found.stop
            ++ salvaged_line found.stop pieces ∷ []) (E.seen self.old.sink) (E.seen self.new.sink) }
        ensures status { (pieces : List Given) → IsTallyOf found.tally pieces
            → result ≡ pieces_status found.stop pieces }
    {
        match found.stop {
            None => self.report_sum(found.tally),
            Some(fault) => {
                let status = self.refuse(fault);
                self.report_line("salvaged", found.tally.records, found.tally.bytes);
                status
            }
        }
    }
}

impl<W: Sink, E: Sink> Console<W, E> {
    /// Writes all good records that a reader gives.
    fn salvage_pieces<S: Source, A: Heap>(&mut self, pieces: &mut Pieces<S, A>) -> Status
        requires { (pieces.old.at ≡ 0) × (pieces.old.failure ≡ None) }
        ensures ends { SalvageAllEnds (used (S.seen pieces.old.source) W.seen E.seen self.old)
            (used (S.seen pieces.new.source) W.seen E.seen self.new) result }
        ensures kept { (S.seen pieces.new.source).holds ≡ (S.seen pieces.old.source).holds }
        ensures reads { AsksNear (S.seen pieces.old.source) (S.seen pieces.new.source) }
    {
        match send_runs(pieces, &mut self.out, &mut self.err) {
            Ok(found) => self.err.report_found(found),
            Err(fault) => self.err.fail(fault),
        }
    }

    /// Writes all good records, byte for byte.
    pub(crate) fn salvage_all<A: Heap, S: Input>(&mut self, alloc: A, source: S) -> Run<S>
        ensures { Runs SalvageAllEnds AsksNear
            (used (S.seen source) W.seen E.seen self.old) (outputs W.seen E.seen self.new) (run_seen S.seen result) }
    {
        let mut pieces = Pieces::new(alloc, source)?;
        let status = self.salvage_pieces(&mut pieces);
        Ok((status, pieces.into_source()))
    }
}
