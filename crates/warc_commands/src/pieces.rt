//! The command that prints the pieces of a damaged archive.
ghost use Rattle.std.specs.Prelude.{◌≡◌, List, None};
ghost use Rattle.warc_frame.specs.Effects.{Puts};
ghost use Rattle.warc_pieces.specs.declared.piece.Piece.{Piece as Given};
ghost use Rattle.warc_pieces.specs.declared.piece.Piece.TheVariants.{Damage as GivenDamage, Records as GivenRecords};
ghost use Rattle.warc_commands.specs.Devices.{outputs, used};
ghost use Rattle.warc_commands.specs.Pieces.{PiecesEnd, ReportsEach, has_damage, piece_line, pieces_status, stop_lines};
ghost use Rattle.warc_commands.specs.Reads.{AsksNear};
ghost use Rattle.warc_commands.specs.Runs.{Runs, run_seen};
ghost use Rattle.warc_commands.specs.Walking.{PutsPieces, SendsPieces};

use crate::console::{Console, Heap, Input, Reporter, Run};
use crate::walk::{Found, Step, Tally, next_step};
use itoa::Buffer;
use std::alloc::Allocator;
use warc_arguments::Status;
use warc_frame::{Fault, OutBuffer, OutFault, SendFault, Sink, Source, put_all};
use warc_pieces::{Piece, Pieces};

/// Adds the line of a run of good records to the output.
fn put_run<W: Sink>(
    offset: u64,
    len: u64,
    count: u64,
    buffer: &mut OutBuffer,
    out: &mut W,
) -> Result<(), SendFault>
    ensures { Puts (W.seen out.old) (W.seen out.new) buffer.old buffer.new result
        (piece_line (GivenRecords offset len count)) }
{
    let (mut first, mut second, mut third) = (Buffer::new(), Buffer::new(), Buffer::new());
    put_all(
        &[
            b"records\t",
            first.format(offset).as_bytes(),
            b"\t",
            second.format(len).as_bytes(),
            b"\t",
            third.format(count).as_bytes(),
            b"\n",
        ],
        buffer,
        out,
    )
}

/// Adds the line of a damage to the output.
fn put_damage<W: Sink>(
    offset: u64,
    len: u64,
    fault: Fault,
    buffer: &mut OutBuffer,
    out: &mut W,
) -> Result<(), SendFault>
    ensures { Puts (W.seen out.old) (W.seen out.new) buffer.old buffer.new result
        (piece_line (GivenDamage offset len fault)) }
{
    let (name, field) = fault.kind.parts();
    let (mut first, mut second, mut third) = (Buffer::new(), Buffer::new(), Buffer::new());
    put_all(
        &[
            b"damage\t",
            first.format(offset).as_bytes(),
            b"\t",
            second.format(len).as_bytes(),
            b"\t",
            name.as_bytes(),
            field.as_bytes(),
            b" at ",
            third.format(fault.offset).as_bytes(),
            b"\n",
        ],
        buffer,
        out,
    )
}

/// Adds the line of a piece to the output.
fn put_piece<W: Sink>(piece: Piece, buffer: &mut OutBuffer, out: &mut W) -> Result<(), SendFault>
    ensures { Puts (W.seen out.old) (W.seen out.new) buffer.old buffer.new result (piece_line piece) }
{
    match piece {
        Piece::Records { offset, len, count } => put_run(offset, len, count, buffer, out),
        Piece::Damage { offset, len, fault } => put_damage(offset, len, fault, buffer, out),
    }
}

/// Adds a line for each piece to the output.
fn put_pieces<S: Source, A: Allocator + Copy, W: Sink>(
    pieces: &mut Pieces<S, A>,
    buffer: &mut OutBuffer,
    out: &mut W,
) -> Result<Found, SendFault>
    requires { (pieces.old.at ≡ 0) × (pieces.old.failure ≡ None) }
    ensures { PutsPieces (S.seen pieces.old.source) (S.seen pieces.new.source) (W.seen out.old) (W.seen out.new)
        buffer.old buffer.new result }
{
    let mut tally = Tally::new();
    'putting: loop {
        match next_step(pieces, &mut tally) {
            Step::More(piece) => put_piece(piece, buffer, out)?,
            Step::End(stop) => return Ok(Found { tally, stop }),
        }
    }
}

/// Writes a line for each piece.
fn send_pieces<S: Source, A: Allocator + Copy, W: Sink>(
    pieces: &mut Pieces<S, A>,
    out: &mut W,
) -> Result<Found, SendFault>
    requires { (pieces.old.at ≡ 0) × (pieces.old.failure ≡ None) }
    ensures { SendsPieces (S.seen pieces.old.source) (S.seen pieces.new.source) (W.seen out.old) (W.seen out.new)
        result }
{
    let mut buffer = OutBuffer::new();
    let found = put_pieces(pieces, &mut buffer, out)?;
    buffer.flush(out)?;
    Ok(found)
}

impl<E: Sink> Reporter<E> {
    /// Reports what stopped reading, if anything did, and answers the status.
    fn report_end(&mut self, found: Found) -> Status
        ensures reported { ReportsEach (stop_lines found.stop) (E.seen self.old.sink) (E.seen self.new.sink) }
        ensures status { (pieces : List Given) → found.tally.is_damaged ≡ has_damage pieces
            → result ≡ pieces_status found.stop pieces }
    {
        if let Some(fault) = found.stop {
            return self.refuse(fault);
        }
        if found.tally.is_damaged {
            Status::Refused
        } else {
            Status::Done
        }
    }
}

impl<W: Sink, E: Sink> Console<W, E> {
    /// Prints the pieces that a reader gives.
    fn print<S: Source, A: Heap>(&mut self, pieces: &mut Pieces<S, A>) -> Status
        requires { (pieces.old.at ≡ 0) × (pieces.old.failure ≡ None) }
        ensures ends { PiecesEnd (used (S.seen pieces.old.source) W.seen E.seen self.old)
            (used (S.seen pieces.new.source) W.seen E.seen self.new) result }
        ensures kept { (S.seen pieces.new.source).holds ≡ (S.seen pieces.old.source).holds }
        ensures reads { AsksNear (S.seen pieces.old.source) (S.seen pieces.new.source) }
    {
        match send_pieces(pieces, &mut self.out) {
            Ok(found) => self.err.report_end(found),
            Err(fault) => self.err.fail(OutFault::Write(fault.sent)),
        }
    }

    /// Prints a line for each piece.
    pub(crate) fn pieces<A: Heap, S: Input>(&mut self, alloc: A, source: S) -> Run<S>
        ensures { Runs PiecesEnd AsksNear
            (used (S.seen source) W.seen E.seen self.old) (outputs W.seen E.seen self.new) (run_seen S.seen result) }
    {
        let mut pieces = Pieces::new(alloc, source)?;
        let status = self.print(&mut pieces);
        Ok((status, pieces.into_source()))
    }
}
