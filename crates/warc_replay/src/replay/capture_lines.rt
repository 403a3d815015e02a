//! The lines of captures: each capture is judged when its line is written, and its outcome isn't kept.
ghost use Rattle.std.specs.Prelude.{◌≡◌, ◌∷◌, [], ⊤};
ghost use Rattle.warc_replay.specs.Captured.{AreVerdictsOf};
ghost use Rattle.warc_replay.specs.Capturing.{AreFound, AreKnownBlocks, PutsCaptures, RemembersNext, SendsCaptures, ended_after};
ghost use Rattle.warc_replay.specs.KnownGaps.{AreKnownSeries};

use crate::replay::capture_line::put_line;
use crate::replay::captures::{JoinedVerdicts, Remembered, outcome_once};
use crate::replay::known_gaps::KnownGaps;
use std::alloc::Allocator;
use warc_frame::{OutBuffer, OutFault, Sink, Source};
use warc_judged::Verdicts;
use warc_lookup::Lookup;
use warc_reading::Rows;

/// A fault before which nothing went out, as the end of an output of which `sent` bytes went out.
fn after(fault: OutFault, sent: u64) -> OutFault
    ensures { result ≡ ended_after fault sent }
{
    match fault {
        OutFault::Read(_) => OutFault::Read(sent),
        OutFault::Write(_) => OutFault::Write(sent),
        OutFault::Memory(_) => OutFault::Memory(sent),
    }
}

/// Adds the line of the capture at a position to the output, by what is known of each record's block, and what was
/// found of the blocks that are joined to each. What is found now is remembered.
fn put_next<S: Source, W: Sink, A: Allocator + Copy>(
    source: &mut S,
    rows: &Rows<A>,
    lookup: &Lookup<A>,
    position: usize,
    known: &Verdicts<A>,
    remembered: &mut Remembered<A>,
    buffer: &mut OutBuffer,
    out: &mut W,
) -> Result<(), OutFault>
    requires { AreKnownSeries lookup.now.parts remembered.old.gaps }
    ensures puts { PutsCaptures (AreFound known.now remembered.old.found) rows.now lookup.now.index lookup.now.parts
        (position ∷ []) (S.seen source.old) (S.seen source.new) (W.seen out.old) (W.seen out.new) buffer.old buffer.new
        result }
    ensures remembers { RemembersNext rows.now lookup.now.index lookup.now.parts known.now remembered.old.found
        remembered.new.found (S.seen source.old) }
    ensures known { AreKnownSeries lookup.now.parts remembered.new.gaps }
{
    let outcome = match outcome_once(source, rows, lookup, position, known, remembered) {
        Ok(outcome) => outcome,
        Err(fault) => return Err(after(fault, buffer.sent())),
    };
    put_line(rows, &outcome, buffer, out)?;
    Ok(())
}

/// Adds the lines of the captures at positions to the output, in their order, by what is known of each record's block.
pub fn put_captures<S: Source, W: Sink, A: Allocator + Copy>(
    source: &mut S,
    rows: &Rows<A>,
    lookup: &Lookup<A>,
    known: &Verdicts<A>,
    positions: &[usize],
    buffer: &mut OutBuffer,
    out: &mut W,
) -> Result<(), OutFault>
    ensures { PutsCaptures (AreKnownBlocks known.now) rows.now lookup.now.index lookup.now.parts positions.now
        (S.seen source.old) (S.seen source.new) (W.seen out.old) (W.seen out.new) buffer.old buffer.new result }
{
    let Ok(found) = JoinedVerdicts::unknown(rows.allocator(), rows.len()) else {
        return Err(OutFault::Memory(buffer.sent()));
    };
    let gaps = KnownGaps::new(rows.allocator());
    let mut remembered = Remembered { found, gaps };
    'listing: for position in positions {
        put_next(
            source,
            rows,
            lookup,
            *position,
            known,
            &mut remembered,
            buffer,
            out,
        )?;
    }
    Ok(())
}

/// Writes the lines of the captures at positions, in their order, by what is known of each record's block.
pub(crate) fn write_captures<S: Source, W: Sink, A: Allocator + Copy>(
    source: &mut S,
    rows: &Rows<A>,
    lookup: &Lookup<A>,
    known: &Verdicts<A>,
    positions: &[usize],
    out: &mut W,
) -> Result<(), OutFault>
    ensures { SendsCaptures (AreKnownBlocks known.now) rows.now lookup.now.index lookup.now.parts positions.now
        (S.seen source.old) (S.seen source.new) (W.seen out.old) (W.seen out.new) result }
{
    let mut buffer = OutBuffer::new();
    put_captures(source, rows, lookup, known, positions, &mut buffer, out)?;
    buffer.flush(out)?;
    Ok(())
}

/// Writes what `write_captures` writes, by the verdicts on the blocks of all records.
pub fn write_judged<S: Source, W: Sink, A: Allocator + Copy>(
    source: &mut S,
    rows: &Rows<A>,
    lookup: &Lookup<A>,
    verdicts: &Verdicts<A>,
    positions: &[usize],
    out: &mut W,
) -> Result<(), OutFault>
    ensures { SendsCaptures (AreVerdictsOf verdicts.now) rows.now lookup.now.index lookup.now.parts positions.now
        (S.seen source.old) (S.seen source.new) (W.seen out.old) (W.seen out.new) result }
{
    write_captures(source, rows, lookup, verdicts, positions, out)
}

/// Writes what `write_captures` writes, if nothing is known of any block.
pub fn write_unjudged<S: Source, W: Sink, A: Allocator + Copy>(
    source: &mut S,
    rows: &Rows<A>,
    lookup: &Lookup<A>,
    positions: &[usize],
    out: &mut W,
) -> Result<(), OutFault>
    ensures { SendsCaptures (λ _. ⊤) rows.now lookup.now.index lookup.now.parts positions.now (S.seen source.old)
        (S.seen source.new) (W.seen out.old) (W.seen out.new) result }
{
    let known = Verdicts::new(rows.allocator());
    write_captures(source, rows, lookup, &known, positions, out)
}
