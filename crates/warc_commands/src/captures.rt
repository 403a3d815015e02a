//! The command that lists captures.
ghost use Rattle.std.specs.Prelude.{Some, None, option_map};
ghost use Rattle.warc_replay.specs.Captured.{IsCaptured};
ghost use Rattle.warc_commands.specs.Captures.{AnswerEnds, CapturesEnds, WritesListed};
ghost use Rattle.warc_commands.specs.Devices.{outputs, used};
ghost use Rattle.warc_commands.specs.Reads.{AsksNear};
ghost use Rattle.warc_commands.specs.Runs.{Runs, run_seen};
ghost use Rattle.warc_commands.specs.Words.{ByUri, read_listed};
ghost use Rattle.warc_lookup.specs.Indexed.{IsIndexed};

use crate::console::{Console, Heap, Input, Reporter, Run};
use crate::words::read_listed;
use std::alloc::Allocator;
use warc::{Archive, Captures};
use warc_arguments::Status;
use warc_frame::{OutFault, Sink, Source};

impl<W: Sink, E: Sink> Console<W, E> {
    /// Writes a line for each capture, of all or of the URI that a word names.
    pub(crate) fn captures<A: Heap, S: Input>(
        &mut self,
        alloc: A,
        in_hex: bool,
        uri: Option<&str>,
        source: S,
    ) -> Run<S>
        ensures { Runs (ByUri CapturesEnds in_hex (read_listed in_hex (option_map (λ u. u.now) uri.entry))) AsksNear
            (used (S.seen source) W.seen E.seen self.old) (outputs W.seen E.seen self.new) (run_seen S.seen result) }
    {
        match read_listed(alloc, in_hex, uri) {
            Ok(Some(uri)) => self.list_captures_of(alloc, uri.bytes(), source),
            Ok(None) => self.list_captures(alloc, source),
            Err(fault) => Ok((self.err.refuse_word(fault), source)),
        }
    }

    /// Writes a line for each capture. Blocks are judged side by side while the archive is read.
    fn list_captures<A: Heap, S: Input>(&mut self, alloc: A, source: S) -> Run<S>
        ensures { Runs (CapturesEnds None) AsksNear
            (used (S.seen source) W.seen E.seen self.old) (outputs W.seen E.seen self.new) (run_seen S.seen result) }
    {
        let mut captures = Captures::open(alloc, source)?;
        let answer = write_all(&mut captures, &mut self.out);
        Ok((self.err.report_count(answer), captures.into_source()))
    }

    /// Writes a line for each capture of a URI. No block is hashed but those of these captures.
    fn list_captures_of<A: Heap, S: Input>(&mut self, alloc: A, uri: &[u8], source: S) -> Run<S>
        ensures { Runs (CapturesEnds (Some uri.now)) AsksNear
            (used (S.seen source) W.seen E.seen self.old) (outputs W.seen E.seen self.new) (run_seen S.seen result) }
    {
        let mut archive = Archive::open(alloc, source)?;
        let answer = write_of(&mut archive, uri, &mut self.out);
        Ok((self.err.report_count(answer), archive.into_source()))
    }
}

/// Writes the lines of all captures, and returns how many there are.
fn write_all<S: Source, W: Sink, A: Allocator + Copy>(
    captures: &mut Captures<S, A>,
    out: &mut W,
) -> Result<usize, OutFault>
    ensures { WritesListed (λ bytes. IsCaptured bytes captures.old) None captures.old.archive.listing.rows
        (S.seen captures.old.archive.listing.source) (S.seen captures.new.archive.listing.source) (W.seen out.old)
        (W.seen out.new) result }
{
    let Ok(positions) = captures.positions() else {
        return Err(OutFault::Memory(0));
    };
    let listed: &[usize] = &positions;
    captures.list(listed, out)?;
    Ok(listed.len())
}

/// Writes the lines of the captures of a URI, and returns how many there are.
fn write_of<S: Source, W: Sink, A: Allocator + Copy>(
    archive: &mut Archive<S, A>,
    uri: &[u8],
    out: &mut W,
) -> Result<usize, OutFault>
    ensures { WritesListed (λ bytes. IsIndexed bytes archive.old) (Some uri.now) archive.old.listing.rows
        (S.seen archive.old.listing.source) (S.seen archive.new.listing.source) (W.seen out.old) (W.seen out.new)
        result }
{
    let Ok(positions) = archive.captures_of(uri) else {
        return Err(OutFault::Memory(0));
    };
    let listed: &[usize] = &positions;
    archive.list_captures(listed, out)?;
    Ok(listed.len())
}

impl<E: Sink> Reporter<E> {
    /// Reports if no capture is listed, or why the lines end early, and answers the status.
    fn report_count(&mut self, answer: Result<usize, OutFault>) -> Status
        ensures { AnswerEnds answer (E.seen self.old.sink) (E.seen self.new.sink) result }
    {
        let count = match answer {
            Ok(count) => count,
            Err(fault) => return self.fail(fault),
        };
        if count > 0 {
            return Status::Done;
        }
        self.report("warc: P1 NoCapture\n");
        Status::Found
    }
}
