//! What the program does to write one record, made of a file.
ghost use Rattle.std.specs.Option.{IfSome};
ghost use Rattle.std.specs.Prelude.{◌≡◌, ℕ, ◌+◌, ◌<◌, nat_lt, List, length, take, Err, Some, is_err, is_none, IfOk, IfErr};
ghost use Rattle.warc_frame.specs.Failing.{HasFailedBy};
ghost use Rattle.warc_frame.specs.Record.{max_block};
ghost use Rattle.warc_write.specs.Making.{Makes, made, make_fault_text};
ghost use Rattle.warc_commands.specs.Asking.{AsksFar, ReadsFront};
ghost use Rattle.warc_commands.specs.Devices.{used};
ghost use Rattle.warc_commands.specs.Program.{IsUnsent, MakeEnds, Reports, plan_of, reported_line};
ghost use Rattle.warc_commands.specs.Reads.{ReadsForRecord, file_piece};
ghost use Rattle.warc_frame.specs.Ranges.{IsReadAt};

use crate::console::{Console, Ended, Heap, Input, Reporter};
use std::alloc::Allocator;
use warc_arguments::{Draft, Status};
use warc_frame::{Framed, MAX_BLOCK, OutFault, Sink, Source};
use warc_record::Kind;
use warc_write::{MakeFault, make, refusal_of_long, render_one};

/// How many bytes a read asks for.
const PIECE: usize = 65_536;

/// All bytes of a source, or as many of its first, read through the buffer.
fn read_through<S: Source, A: Allocator>(
    alloc: A,
    source: &mut S,
    most: u64,
    buf: &mut [u8],
) -> Result<Vec<u8, A>, OutFault>
    requires { 0 < length buf.old }
    ensures bytes { (bytes : List ℕ) → (S.seen source.old).holds ≡ Some bytes → IfOk result
        (λ read. read.items ≡ take most bytes) }
    ensures kept { (S.seen source.new).holds ≡ (S.seen source.old).holds }
    ensures failed { HasFailedBy result (S.seen source.old).faults (S.seen source.new).faults }
    ensures unsent { IfErr result IsUnsent }
    ensures reads { ReadsFront most (length buf.old) (S.seen source.old) (S.seen source.new) }
{
    let mut read = Vec::new(alloc);
    'reading: while (read.len() as u64) < most {
        let want = (most - read.len() as u64).min(buf.len() as u64) as usize;
        let piece = &mut buf[..want];
        let n = match source.read_at(read.len() as u64, piece) {
            Ok(n) => n,
            Err(_) => return Err(OutFault::Read(0)),
        };
        if n == 0 {
            break;
        }
        match read.extend_from_slice(&piece[..n]) {
            Ok(()) => {}
            Err(_) => return Err(OutFault::Memory(0)),
        }
    }
    Ok(read)
}

/// All bytes of a source, or as many of its first.
pub(crate) fn read_front<S: Source, A: Allocator + Copy>(
    alloc: A,
    source: &mut S,
    most: u64,
) -> Result<Vec<u8, A>, OutFault>
    ensures bytes { (bytes : List ℕ) → (S.seen source.old).holds ≡ Some bytes → IfOk result
        (λ read. read.items ≡ take most bytes) }
    ensures kept { (S.seen source.new).holds ≡ (S.seen source.old).holds }
    ensures failed { HasFailedBy result (S.seen source.old).faults (S.seen source.new).faults }
    ensures unsent { IfErr result IsUnsent }
    ensures reads { ReadsFront most file_piece (S.seen source.old) (S.seen source.new) }
{
    let Ok(mut buf) = vec![in alloc; 0u8; PIECE] else {
        return Err(OutFault::Memory(0));
    };
    read_through(alloc, source, most, &mut buf)
}

/// Whether a source has a byte at the offset.
fn has_byte_at<S: Source>(source: &mut S, at: u64) -> Result<bool, OutFault>
    ensures is_present { (bytes : List ℕ) → (S.seen source.old).holds ≡ Some bytes →
        IfOk result (λ is_present. is_present ≡ nat_lt at (length bytes)) }
    ensures kept { (S.seen source.new).holds ≡ (S.seen source.old).holds }
    ensures failed { HasFailedBy result (S.seen source.old).faults (S.seen source.new).faults }
    ensures unsent { IfErr result IsUnsent }
    ensures read { IsReadAt at 1 (is_err result) (S.seen source.old) (S.seen source.new) }
{
    let mut byte = [0u8];
    match source.read_at(at, &mut byte) {
        Ok(n) => Ok(n > 0),
        Err(_) => Err(OutFault::Read(0)),
    }
}

/// Whether a source has more bytes than a block may have. It is asked for single bytes, each twice as far out as the
/// one before, so that a short file isn't asked where its file system can't seek.
fn is_long<S: Source>(source: &mut S) -> Result<bool, OutFault>
    ensures long { (bytes : List ℕ) → (S.seen source.old).holds ≡ Some bytes → IfOk result (λ long. long ≡ nat_lt
        max_block (length bytes)) }
    ensures kept { (S.seen source.new).holds ≡ (S.seen source.old).holds }
    ensures failed { HasFailedBy result (S.seen source.old).faults (S.seen source.new).faults }
    ensures unsent { IfErr result IsUnsent }
    ensures reads { AsksFar (S.seen source.old) (S.seen source.new) }
{
    let mut at = PIECE as u64;
    'asking: while at < MAX_BLOCK {
        if !has_byte_at(source, at)? {
            return Ok(false);
        }
        at *= 2;
    }
    has_byte_at(source, MAX_BLOCK)
}

/// All bytes of a source, or nothing where they are more than a block may have.
fn read_block<S: Source, A: Allocator + Copy>(
    alloc: A,
    source: &mut S,
) -> Result<Option<Vec<u8, A>>, OutFault>
    ensures long { (bytes : List ℕ) → (S.seen source.old).holds ≡ Some bytes → IfOk result (λ block. is_none block ≡
        nat_lt max_block (length bytes)) }
    ensures bytes { (bytes : List ℕ) → (S.seen source.old).holds ≡ Some bytes → IfOk result (λ block. IfSome block (λ
        read. read.items ≡ take (max_block + 1) bytes)) }
    ensures kept { (S.seen source.new).holds ≡ (S.seen source.old).holds }
    ensures failed { HasFailedBy result (S.seen source.old).faults (S.seen source.new).faults }
    ensures unsent { IfErr result IsUnsent }
    ensures reads { ReadsForRecord (S.seen source.old) (S.seen source.new) }
{
    if is_long(source)? {
        return Ok(None);
    }
    Ok(Some(read_front(alloc, source, MAX_BLOCK + 1)?))
}

/// The record of these words and the bytes of a file.
fn make_by<A: Allocator + Copy>(
    alloc: A,
    draft: &Draft<'_>,
    block: &[u8],
) -> Result<Framed<A>, MakeFault>
    ensures { (bytes : List ℕ) → block.now ≡ take (max_block + 1) bytes →
        Makes result (made (plan_of draft.now bytes)) }
{
    make(
        alloc,
        Kind::named(draft.kind.as_bytes()),
        draft.uri.as_bytes(),
        draft.date.as_bytes(),
        draft.uuid.as_bytes(),
        draft.content_type.as_bytes(),
        block,
    )
}

/// Why no record is made of a file with more bytes than a block may have.
fn refusal_of(draft: &Draft<'_>) -> MakeFault
    ensures { (bytes : List ℕ) → max_block < length bytes → made (plan_of draft.now bytes) ≡ Err result }
{
    refusal_of_long(
        Kind::named(draft.kind.as_bytes()),
        draft.uri.as_bytes(),
        draft.date.as_bytes(),
        draft.uuid.as_bytes(),
        draft.content_type.as_bytes(),
    )
}

impl<W: Sink, E: Sink> Console<W, E> {
    /// Writes one record, whose block is the bytes of the source. They are read first, unless they are too many.
    pub(crate) fn write<A: Heap, S: Input>(
        &mut self,
        alloc: A,
        draft: &Draft<'_>,
        source: S,
    ) -> Ended<S>
        ensures ends { MakeEnds draft.now (used (S.seen source) W.seen E.seen self.old)
            (used (S.seen result.1) W.seen E.seen self.new) result.0 }

        // The source still holds what it held.
        ensures kept { (S.seen result.1).holds ≡ (S.seen source).holds }
        ensures reads { ReadsForRecord (S.seen source) (S.seen result.1) }
    {
        let mut source = source;
        let block = match read_block(alloc, &mut source) {
            Ok(Some(block)) => block,
            Ok(None) => return (self.err.report_unmade(refusal_of(draft)), source),
            Err(fault) => return (self.err.fail(fault), source),
        };
        let framed = match make_by(alloc, draft, &block) {
            Ok(framed) => framed,
            Err(fault) => return (self.err.report_unmade(fault), source),
        };
        match render_one(&framed, &mut self.out) {
            Ok(()) => (Status::Done, source),
            Err(fault) => (self.err.fail(fault), source),
        }
    }
}

impl<E: Sink> Reporter<E> {
    /// Reports why no record is made, and answers the status.
    fn report_unmade(&mut self, fault: MakeFault) -> Status
        ensures reported { Reports (reported_line (make_fault_text fault)) (E.seen self.old.sink)
            (E.seen self.new.sink) }
        ensures status { result ≡ Status.Failed }
    {
        self.stop(fault.name())
    }
}
