//! A source that is read through a window, so that short reads near each other cost one read.
ghost use Rattle.std.specs.Prelude.{◌≡◌, ℕ, ◌<◌, ◌≤◌, List, [], length, take, false, None, Some, IfOk, is_err, if◌then◌else◌};
ghost use Rattle.warc_frame.specs.Count.{raised};
ghost use Rattle.warc_frame.specs.Device.{Gives};
ghost use Rattle.warc_frame.specs.Ranges.{IsReadAt};
ghost use Rattle.warc_frame.specs.Seen.{IfHeld};
ghost use Rattle.warc_stream.specs.Window.{BeginsIn, IsAskedAtMostOnce, IsAskedOnce, IsCopiedFront, IsPieceOf};

use std::alloc::{Allocator, Global};
use std::marker::Model;
use warc_frame::{ReadFault, Source, raise};

/// How many bytes a window asks for at once, where a read goes on after the last piece.
const WINDOW: usize = 65_536;

/// How many bytes it asks for where a read begins elsewhere. Most such reads are of a head, or of the front of a block.
const JUMP: usize = 4_096;

/// A source that is read through a window: it keeps the last piece that it read, and answers from it each read that
/// begins there. Any other read asks the source once. One of 65,536 bytes or more asks for these alone; a shorter one
/// for a new piece, of 65,536 bytes if it goes on after the last piece, and else of 4,096. If there is no memory for a
/// piece, none is kept.
#[derive(Drop)]
pub struct WindowSource<S: Source, A: Allocator = Global> {
    source: S,
    buffer: Vec<u8, A>,
    len: usize,
    from: u64,
    reads: u64,
    asked: u64,
}

impl<S: Source, A: Allocator> Model for WindowSource<S, A> {
    ghost use Rattle.std.specs.Prelude.{◌≤◌, length, take};
    ghost use Rattle.warc_frame.specs.Seen.{IfHeld};
    ghost use Rattle.warc_stream.specs.Window.{IsPieceOf, Windowed};

    ghost Value = { Windowed S };

    ghost view = { λ w. record {
      source = w.source;
      piece = take w.len w.buffer.items;
      from = w.from;
      room = length w.buffer.items;
      reads = w.reads;
      asked = w.asked;
    } };

    ghost invariant = { λ w. (w.len ≤ length w.buffer.items)
        × IfHeld (S.seen w.source).holds (λ bytes. IsPieceOf bytes w.from (take w.len w.buffer.items)) };
}

/// Copies the beginning of the bytes into the buffer, as much as both allow, and returns how much that is.
fn copy_front(bytes: &[u8], buf: &mut [u8]) -> usize
    ensures front { IsCopiedFront bytes.now buf.old buf.new result }
    ensures len { length buf.new ≡ length buf.old }
{
    let count = bytes.len().min(buf.len());
    buf[..count].copy_from_slice(&bytes[..count]);
    count
}

/// Reads into the front of a buffer, at most this many bytes.
fn read_front<S: Source>(
    source: &mut S,
    at: u64,
    buf: &mut [u8],
    most: usize,
) -> Result<usize, ReadFault>
    requires { most ≤ length buf.old }
    ensures bytes { (bytes : List ℕ) → (S.seen source.old).holds ≡ Some bytes
        → IfOk result (λ n. IsPieceOf bytes at (take n buf.new)) }
    ensures some { (bytes : List ℕ) → (S.seen source.old).holds ≡ Some bytes
        → IfOk result (λ n. at < length bytes → 0 < most → 0 < n) }
    ensures within { IfOk result (λ n. n ≤ length buf.new) }
    ensures len { length buf.new ≡ length buf.old }
    ensures once { IsAskedOnce at (S.seen source.old) (S.seen source.new) }
    ensures kept { (S.seen source.new).holds ≡ (S.seen source.old).holds }
    ensures cause { (S.seen source.new).faults ≡ (if is_err result then
        raised (S.seen source.old).faults else (S.seen source.old).faults) }
{
    source.read_at(at, &mut buf[..most])
}

impl<S: Source, A: Allocator + Copy> WindowSource<S, A> {
    /// A window over this source, of which no piece is kept.
    pub fn new(alloc: A, source: S) -> WindowSource<S, A>
        ensures source { result.source ≡ source }
        ensures empty { result.piece ≡ [] }
        ensures unread { result.reads ≡ 0 }
        ensures unasked { result.asked ≡ 0 }
    {
        let buffer = match vec![in alloc; 0u8; WINDOW] {
            Ok(buffer) => buffer,
            Err(_) => Vec::new(alloc),
        };
        WindowSource {
            source,
            buffer,
            len: 0,
            from: 0,
            reads: 0,
            asked: 0,
        }
    }

    /// Returns the source.
    pub fn into_inner(self) -> S
        ensures { result ≡ self.source }
    {
        self.source
    }

    /// The bytes of the piece from an offset on.
    fn rest(&self, at: u64) -> &[u8]
        ensures there { IfHeld (S.seen self.now.source).holds (λ bytes. IsPieceOf bytes at result.now) }
        ensures whole { self.now.from ≡ at → result.now ≡ self.now.piece }
        ensures some { BeginsIn at self.now → 0 < length result.now }
    {
        if at < self.from || at - self.from >= self.len as u64 {
            return &[];
        }
        &self.buffer[(at - self.from) as usize..self.len]
    }

    /// How many bytes of a new piece at an offset are asked for.
    fn want(&self, at: u64) -> usize
        ensures some { 0 < self.now.room → 0 < result }
        ensures within { result ≤ self.now.room }
    {
        let room = self.buffer.len();
        if self.from.checked_add(self.len as u64) == Some(at) {
            return room;
        }
        room.min(JUMP)
    }

    /// Reads a new piece.
    fn fill(&mut self, at: u64) -> Result<(), ReadFault>
        ensures once { IsAskedOnce at (S.seen self.old.source) (S.seen self.new.source) }
        ensures kept { (S.seen self.new.source).holds ≡ (S.seen self.old.source).holds }
        ensures cause { (S.seen self.new.source).faults ≡ (if is_err result then
            raised (S.seen self.old.source).faults else (S.seen self.old.source).faults) }
        ensures from { IfOk result (λ _. self.new.from ≡ at) }
        ensures some { (bytes : List ℕ) → (S.seen self.old.source).holds ≡ Some bytes
            → IfOk result (λ _. at < length bytes → 0 < self.old.room → 0 < length self.new.piece) }
        ensures reads { self.new.reads ≡ self.old.reads }
        ensures asked { self.new.asked ≡ self.old.asked }
    {
        let want = self.want(at);
        self.len = 0;
        self.from = at;
        self.len = read_front(&mut self.source, at, &mut self.buffer, want)?;
        Ok(())
    }

    /// Answers a read that doesn't begin in the piece.
    fn read_anew(&mut self, at: u64, buf: &mut [u8]) -> Result<usize, ReadFault>
        ensures bound { IfOk result (λ n. n ≤ length buf.new) }
        ensures bytes { (bytes : List ℕ) → (S.seen self.old.source).holds ≡ Some bytes
            → IfOk result (Gives bytes at buf.new) }
        ensures once { IsAskedOnce at (S.seen self.old.source) (S.seen self.new.source) }
        ensures kept { (S.seen self.new.source).holds ≡ (S.seen self.old.source).holds }
        ensures cause { (S.seen self.new.source).faults ≡ (if is_err result then
            raised (S.seen self.old.source).faults else (S.seen self.old.source).faults) }
        ensures reads { self.new.reads ≡ self.old.reads }
        ensures asked { self.new.asked ≡ self.old.asked }
    {
        if buf.len() >= self.buffer.len() {
            return self.source.read_at(at, buf);
        }
        self.fill(at)?;
        Ok(copy_front(self.rest(at), buf))
    }
}

impl<S: Source, A: Allocator + Copy> Source for WindowSource<S, A> {
    ghost seen = { λ w. record {
      holds = (S.seen w.source).holds;
      faults = (S.seen w.source).faults;
      reads = w.reads;
      asked = w.asked;
      watches = λ _. false;
      watched_reads = 0;
      next = None;
      jumps = 0;
    } };

    /// A read that begins in the piece is answered from it. Any other asks the source once, at its offset: for a new
    /// piece if the buffer is shorter than the window.
    fn read_at(&mut self, at: u64, buf: &mut [u8]) -> Result<usize, ReadFault>
        ensures bound { IfOk result (λ n. n ≤ length buf.new) }
        ensures bytes { (bytes : List ℕ) → (S.seen self.old.source).holds ≡ Some bytes
            → IfOk result (Gives bytes at buf.new) }
        ensures once { IsAskedAtMostOnce at (S.seen self.old.source) (S.seen self.new.source) }

        // A read that begins in the piece doesn't ask the source.
        ensures piece { BeginsIn at self.old → S.seen self.new.source ≡ S.seen self.old.source }
        ensures kept { (S.seen self.new.source).holds ≡ (S.seen self.old.source).holds }
        ensures cause { (S.seen self.new.source).faults ≡ (if is_err result then
            raised (S.seen self.old.source).faults else (S.seen self.old.source).faults) }
        ensures counted { self.new.reads ≡ raised self.old.reads }
        ensures asked { self.new.asked ≡ at }
    {
        self.reads = raise(self.reads);
        self.asked = at;
        let rest = self.rest(at);
        if rest.is_empty() {
            return self.read_anew(at, buf);
        }
        Ok(copy_front(rest, buf))
    }
}
