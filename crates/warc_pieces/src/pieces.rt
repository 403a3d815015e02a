//! The pieces of a source, one after another.
ghost use Rattle.std.specs.Prelude.{◌≡◌, ◌<◌, [], drop, Err, IfErr, IfOk, IfSome, List, None, Some, length};
ghost use Rattle.warc_frame.specs.Effects.{Emits, IsOfDevice, IsRange, ReadsRange};
ghost use Rattle.warc_frame.specs.Faults.{ReadsAs};
ghost use Rattle.warc_frame.specs.Reading.{fault};
ghost use Rattle.warc_frame.specs.Record.{max_archive};
ghost use Rattle.warc_frame.specs.Seen.{IfHeld};
ghost use Rattle.warc_frame.specs.declared.fault.Fault.{Fault as FaultOf};
ghost use Rattle.warc_frame.specs.declared.fault.FaultKind.TheVariants.{Memory};
ghost use Rattle.warc_record.specs.Heads.{head_fault};
ghost use Rattle.warc_pieces.specs.Pieces.{near};
ghost use Rattle.warc_pieces.specs.Reader.{Advances, GivesMore, GivesOf, AreGiven, MayGoOn, ReadsFew, IsWalkAt};
ghost use Rattle.warc_pieces.specs.Window.{reached};
ghost use Rattle.warc_pieces.specs.declared.piece.Piece.{Piece as Given};
ghost use Rattle.warc_pieces.specs.declared.piece.Piece.TheVariants.{Records};

use crate::piece::Piece;
use crate::run::{Run, read_run};
use crate::search::{is_failure, next_record};
use crate::window::Window;
use std::alloc::{Allocator, Global};
use std::marker::Model;
use warc_frame::{Fault, FaultKind, MAX_ARCHIVE, OutBuffer, OutFault, Sink, Source, put_range};

/// Where a walk along a source is: at the offset at which the next piece begins.
#[derive(Drop)]
struct Walk<A: Allocator> {
    window: Window<A>,
    at: u64,
    /// The fault of what begins there, where damage is known to begin there.
    damage: Option<Fault>,
    /// Why the source can't be read on.
    failure: Option<Fault>,
}

/// The damage that begins here, with a fault.
fn next_damage<S: Source, A: Allocator + Copy>(
    alloc: A,
    source: &mut S,
    walk: &mut Walk<A>,
    fault: Fault,
) -> Result<Option<Piece>, Fault>
    requires may { MayGoOn walk.old }
    requires sound { walk.old.failure ≡ None }
    requires inside { walk.old.at < max_archive }
    ensures may { MayGoOn walk.new }
    ensures gives { IfHeld (S.seen source.old).holds (λ bytes. IsWalkAt bytes walk.old →
        ReadsAs head_fault walk.old.at (drop walk.old.at (near bytes)) [] (Some fault) →
        IsWalkAt bytes walk.new × GivesOf bytes walk.old.at walk.new.at walk.new.failure result) }
    ensures advances { Advances (S.seen source.old) (S.seen source.new) walk.old.at walk.new.at walk.new.failure
        result }
    ensures few { IfHeld (S.seen source.old).holds (λ bytes. IsWalkAt bytes walk.old →
        ReadsAs head_fault walk.old.at (drop walk.old.at (near bytes)) [] (Some fault) →
        ReadsFew bytes walk.old.at result 1 (reached walk.old.window) (reached walk.new.window) (S.seen source.old)
        (S.seen source.new)) }
{
    let offset = walk.at;
    match next_record(alloc, source, &mut walk.window, offset + 1) {
        Ok(next) => {
            walk.at = next;
            walk.damage = None;
            Ok(Some(Piece::Damage {
                offset,
                len: next - offset,
                fault,
            }))
        }
        Err(failure) => {
            walk.failure = Some(failure);
            Err(failure)
        }
    }
}

/// The piece that a run is, if it has a record.
fn run_piece(offset: u64, len: u64, count: u64) -> Option<Piece>
    ensures none { result ≡ None → count ≡ 0 }
    ensures some { IfSome result (λ piece. (piece ≡ Records offset len count) × (0 < count)) }
{
    if count == 0 {
        return None;
    }
    Some(Piece::Records { offset, len, count })
}

/// The run of good records that begins here, or what is here else.
fn next_run<S: Source, A: Allocator + Copy>(
    alloc: A,
    source: &mut S,
    walk: &mut Walk<A>,
) -> Result<Option<Piece>, Fault>
    requires may { MayGoOn walk.old }
    requires sound { walk.old.failure ≡ None }
    requires inside { walk.old.at < max_archive }
    ensures may { MayGoOn walk.new }
    ensures gives { IfHeld (S.seen source.old).holds (λ bytes. IsWalkAt bytes walk.old →
        IsWalkAt bytes walk.new × GivesOf bytes walk.old.at walk.new.at walk.new.failure result) }
    ensures advances { Advances (S.seen source.old) (S.seen source.new) walk.old.at walk.new.at walk.new.failure
        result }
    ensures few { IfHeld (S.seen source.old).holds (λ bytes. IsWalkAt bytes walk.old →
        ReadsFew bytes walk.old.at result 2 (reached walk.old.window) (reached walk.new.window) (S.seen source.old)
        (S.seen source.new)) }
{
    let offset = walk.at;
    let Run { count, len, end } = read_run(alloc, source, &mut walk.window, offset);
    walk.at = offset + len;
    walk.damage = None;
    let piece = run_piece(offset, len, count);
    let Some(fault) = end else {
        return Ok(piece);
    };
    if is_failure(&fault) {
        walk.failure = Some(fault);
        return match piece {
            Some(piece) => Ok(Some(piece)),
            None => Err(fault),
        };
    }
    walk.damage = Some(fault);
    match piece {
        Some(piece) => Ok(Some(piece)),
        None => next_damage(alloc, source, walk, fault),
    }
}

/// Keeps a failure, and answers it.
fn fail<A: Allocator>(walk: &mut Walk<A>, failure: Fault) -> Result<Option<Piece>, Fault>
    ensures answer { result ≡ Err failure }
    ensures failure { walk.new.failure ≡ Some failure }
    ensures same { (walk.new.window ≡ walk.old.window) × (walk.new.at ≡ walk.old.at)
        × (walk.new.damage ≡ walk.old.damage) }
{
    walk.failure = Some(failure);
    Err(failure)
}

/// No piece, if the source ends at offset 2^48.
fn end<S: Source, A: Allocator>(source: &mut S, walk: &mut Walk<A>) -> Result<Option<Piece>, Fault>
    requires may { MayGoOn walk.old }
    requires sound { walk.old.failure ≡ None }
    requires limit { walk.old.at ≡ max_archive }
    ensures may { MayGoOn walk.new }
    ensures gives { IfHeld (S.seen source.old).holds (λ bytes. IsWalkAt bytes walk.old →
        IsWalkAt bytes walk.new × GivesOf bytes walk.old.at walk.new.at walk.new.failure result) }
    ensures advances { Advances (S.seen source.old) (S.seen source.new) walk.old.at walk.new.at walk.new.failure
        result }
    ensures few { IfHeld (S.seen source.old).holds (λ bytes. IsWalkAt bytes walk.old →
        ReadsFew bytes walk.old.at result 2 (reached walk.old.window) (reached walk.new.window) (S.seen source.old)
        (S.seen source.new)) }
{
    let mut byte = [0];
    match source.read_at(MAX_ARCHIVE, &mut byte) {
        Ok(0) => Ok(None),
        Ok(_) => fail(walk, FaultKind::TooLong.at(MAX_ARCHIVE)),
        Err(_) => fail(walk, FaultKind::Read.at(MAX_ARCHIVE)),
    }
}

/// The piece that begins here, or none at the end of the source; or why it can't be read on, which is said again each
/// time.
fn step<S: Source, A: Allocator + Copy>(
    alloc: A,
    source: &mut S,
    walk: &mut Walk<A>,
) -> Result<Option<Piece>, Fault>
    requires may { MayGoOn walk.old }
    ensures may { MayGoOn walk.new }
    ensures kept { (S.seen source.new).holds ≡ (S.seen source.old).holds }
    ensures is_present { IfHeld (S.seen source.old).holds (λ bytes. IsWalkAt bytes walk.old → IsWalkAt bytes walk.new) }
    ensures gives { walk.old.failure ≡ None → IfHeld (S.seen source.old).holds (λ bytes. IsWalkAt bytes walk.old →
        GivesOf bytes walk.old.at walk.new.at walk.new.failure result) }
    ensures advances { walk.old.failure ≡ None → Advances (S.seen source.old) (S.seen source.new) walk.old.at
        walk.new.at walk.new.failure result }
    ensures few { walk.old.failure ≡ None → IfHeld (S.seen source.old).holds (λ bytes. IsWalkAt bytes walk.old →
        ReadsFew bytes walk.old.at result 2 (reached walk.old.window) (reached walk.new.window) (S.seen source.old)
        (S.seen source.new)) }
    ensures failed { (f : FaultOf) → walk.old.failure ≡ Some f → (result ≡ Err f) × (walk.new ≡ walk.old)
        × (source.new ≡ source.old) }
{
    if let Some(fault) = walk.failure {
        return Err(fault);
    }
    if walk.at == MAX_ARCHIVE {
        return end(source, walk);
    }
    match walk.damage {
        Some(fault) => next_damage(alloc, source, walk, fault),
        None => next_run(alloc, source, walk),
    }
}

/// The pieces of a source, which are found one after another. Nothing is kept of those that were given: the memory that
/// it takes doesn't grow with the source.
#[derive(Drop)]
pub struct Pieces<S: Source, A: Allocator = Global> {
    alloc: A,
    source: S,
    walk: Walk<A>,
}

impl<S: Source, A: Allocator> Model for Pieces<S, A> {
    ghost use Rattle.warc_frame.specs.Seen.{IfHeld};
    ghost use Rattle.warc_pieces.specs.Reader.{MayGoOn, Reader, IsWalkAt};
    ghost use Rattle.warc_pieces.specs.Window.{reached};

    ghost Value = { Reader S };

    ghost view = { λ p. record {
      source = p.source;
      at = p.walk.at;
      failure = p.walk.failure;
      reached = reached p.walk.window;
    } };

    ghost invariant = { λ p. MayGoOn p.walk × IfHeld (S.seen p.source).holds (λ bytes. IsWalkAt bytes p.walk) };
}

impl<S: Source, A: Allocator + Copy> Pieces<S, A> {
    /// The pieces of a source, from its beginning on. It takes memory for a buffer of 262,144 bytes, and reads nothing;
    /// without memory the source comes back with F14.
    pub fn new(alloc: A, source: S) -> Result<Pieces<S, A>, (Fault, S)>
        ensures begins { IfOk result (λ p. p ≡ record {
          source = source;
          at = 0;
          failure = None;
          reached = 0;
        }) }
        ensures refused { IfErr result (λ e. (e.0 ≡ fault Memory 0) × (e.1 ≡ source)) }
    {
        let Ok(window) = Window::new(alloc) else {
            return Err((FaultKind::Memory.at(0), source));
        };
        let walk = Walk {
            window,
            at: 0,
            damage: None,
            failure: None,
        };
        Ok(Pieces {
            alloc,
            source,
            walk,
        })
    }

    /// The next piece, or none at the end of the source.
    ///
    /// A failed read or a failed allocation is reported after the good records before it, which are a piece; so is a
    /// byte at offset 2^48, by F12 TooLong, after all pieces before it. Damage whose end isn't known isn't given.
    /// Whatever was reported is reported again by each later call.
    pub fn next(&mut self) -> Result<Option<Piece>, Fault>
        ensures gives { IfHeld (S.seen self.old.source).holds (λ bytes. (pieces : List Given)
            → AreGiven bytes self.old.at self.old.failure pieces
            → GivesMore bytes self.new.at self.new.failure pieces result) }
        ensures advances { self.old.failure ≡ None → Advances (S.seen self.old.source) (S.seen self.new.source)
            self.old.at self.new.at self.new.failure result }
        ensures few { self.old.failure ≡ None → IfHeld (S.seen self.old.source).holds (λ bytes. ReadsFew bytes
            self.old.at result 2 self.old.reached self.new.reached (S.seen self.old.source) (S.seen self.new.source)) }
        ensures failed { (f : FaultOf) → self.old.failure ≡ Some f → (result ≡ Err f) × (self.new ≡ self.old) }
    {
        step(self.alloc, &mut self.source, &mut self.walk)
    }

    /// Adds `len` bytes at an offset of the source, as of a piece that was given, to the output, in parts as long as
    /// `scratch` at most. It fails if a read or a write does, and if the source ends too early.
    pub fn put<W: Sink>(
        &mut self,
        offset: u64,
        len: u64,
        scratch: &mut [u8],
        buffer: &mut OutBuffer,
        out: &mut W,
    ) -> Result<(), OutFault>
        requires { 0 < length scratch.old }
        ensures emits { Emits (IsRange offset len) (S.seen self.old.source) (S.seen self.new.source) (W.seen out.old)
            (W.seen out.new) buffer.old buffer.new result }
        ensures device { IfErr result IsOfDevice }
        ensures reads { ReadsRange offset len (S.seen self.old.source) (S.seen self.new.source) }
        ensures same { (self.new.at ≡ self.old.at) × (self.new.failure ≡ self.old.failure)
            × (self.new.reached ≡ self.old.reached) }
    {
        put_range(&mut self.source, offset, len, scratch, buffer, out)
    }

    /// Returns the source.
    pub fn into_source(self) -> S
        ensures { result ≡ self.source }
    {
        self.source
    }
}
