//! Sources and sinks in memory that fail once, or take little.

ghost use Rattle.std.specs.Prelude.{◌≡◌, ℕ, ◌-◌, ◌<◌, ◌≤◌, ◌++◌, ◌==◌, nat_lt, List, [], take, length, Some, None, Ok, Err, IfOk, is_err, false, if◌then◌else◌};
ghost use Rattle.warc_frame.specs.Count.{raised};
ghost use Rattle.warc_frame.specs.Device.{taken, Gives};

use std::alloc::{Allocator, Global};
use std::marker::Model;
use warc_frame::{MemSink, MemSource, ReadFault, Sink, Source, WriteFault, is_failed, raise};

/// A source in memory whose n-th read fails, counted from 1. Otherwise it is a `MemSource`.
#[derive(Drop)]
pub struct BrokenSource<A: Allocator = Global> {
    inner: MemSource<A>,
    left: u64,
    faults: u64,
}

impl<A: Allocator> Model for BrokenSource<A> {
    ghost use Rattle.warc_vectors.specs.Broken.{Read};

    ghost Value = { Read };

    ghost view = { λ s. record {
      bytes = s.inner.bytes;
      reads = s.inner.reads;
      asked = s.inner.asked;
      left = s.left;
      faults = s.faults;
    } };
}

impl<A: Allocator> BrokenSource<A> {
    /// At 0 no read fails.
    pub fn new(bytes: Vec<u8, A>, most: usize, number: u64) -> BrokenSource<A>
        requires { 0 < most }
        ensures bytes { result.bytes ≡ bytes.items }
        ensures unread { result.reads ≡ 0 }
        ensures left { result.left ≡ number }
        ensures sound { result.faults ≡ 0 }
    {
        BrokenSource {
            inner: MemSource::new(bytes, most),
            left: number,
            faults: 0,
        }
    }
}

impl<A: Allocator> Source for BrokenSource<A> {
    ghost seen = { λ s. record {
      holds = Some s.bytes;
      faults = s.faults;
      reads = s.reads;
      asked = s.asked;
      watches = λ _. false;
      watched_reads = 0;
      next = None;
      jumps = 0;
    } };

    /// It fails at the read of its number, and at no other.
    fn read_at(&mut self, at: u64, buf: &mut [u8]) -> Result<usize, ReadFault>
        ensures bound { IfOk result (λ n. n ≤ length buf.new) }
        ensures bytes { (bytes : List ℕ) → Some self.old.bytes ≡ Some bytes → IfOk result (Gives bytes at buf.new) }
        ensures kept { Some self.new.bytes ≡ Some self.old.bytes }
        ensures cause { self.new.faults ≡ (if is_err result then raised self.old.faults else self.old.faults) }
        ensures counted { self.new.reads ≡ raised self.old.reads }
        ensures asked { self.new.asked ≡ at }
        ensures fails { is_err result ≡ (self.old.left == 1) }
        ensures left { self.new.left ≡ self.old.left - 1 }
    {
        let answer = self.inner.read_at(at, buf);
        let number = self.left;
        self.left = number.saturating_sub(1);
        if number == 1 || answer.is_err() {
            self.faults = raise(self.faults);
            return Err(ReadFault);
        }
        answer
    }
}

/// A source in memory that gives other bytes from its n-th read on, counted from 1.
/// So nothing is known of what it holds.
#[derive(Drop)]
pub struct ChangingSource<A: Allocator = Global> {
    before: MemSource<A>,
    after: MemSource<A>,
    left: u64,
    reads: u64,
    asked: u64,
}

impl<A: Allocator> Model for ChangingSource<A> {
    ghost use Rattle.warc_vectors.specs.Broken.{Changing};

    ghost Value = { Changing };

    ghost view = { λ s. record {
      before = s.before.bytes;
      after = s.after.bytes;
      reads = s.reads;
      asked = s.asked;
      left = s.left;
    } };
}

impl<A: Allocator> ChangingSource<A> {
    /// At 0 and 1 it gives the other bytes from the first read on.
    pub fn new(before: Vec<u8, A>, after: Vec<u8, A>, number: u64) -> ChangingSource<A>
        ensures before { result.before ≡ before.items }
        ensures after { result.after ≡ after.items }
        ensures unread { result.reads ≡ 0 }
        ensures left { result.left ≡ number }
    {
        ChangingSource {
            before: MemSource::new(before, usize::MAX),
            after: MemSource::new(after, usize::MAX),
            left: number,
            reads: 0,
            asked: 0,
        }
    }

    /// What the bytes of this read give.
    fn give(&mut self, at: u64, buf: &mut [u8]) -> Result<usize, ReadFault>
        ensures bound { IfOk result (λ n. n ≤ length buf.new) }
        ensures sound { is_err result ≡ false }
        ensures gives { IfOk result
            (Gives (if nat_lt 1 self.old.left then self.old.before else self.old.after) at buf.new) }
        ensures left { self.new.left ≡ self.old.left - 1 }
        ensures reads { self.new.reads ≡ self.old.reads }
        ensures asked { self.new.asked ≡ self.old.asked }
    {
        let number = self.left;
        self.left = number.saturating_sub(1);
        if number > 1 {
            self.before.read_at(at, buf)
        } else {
            self.after.read_at(at, buf)
        }
    }
}

impl<A: Allocator> Source for ChangingSource<A> {
    ghost seen = { λ s. record {
      holds = None;
      faults = 0;
      reads = s.reads;
      asked = s.asked;
      watches = λ _. false;
      watched_reads = 0;
      next = None;
      jumps = 0;
    } };

    /// It never fails.
    fn read_at(&mut self, at: u64, buf: &mut [u8]) -> Result<usize, ReadFault> {
        self.reads = raise(self.reads);
        self.asked = at;
        self.give(at, buf)
    }
}

/// How a broken writer breaks.
#[derive(Clone, Copy, PartialEq, Eq, Debug)]
pub enum Break {
    /// This write fails.
    Fails,

    /// This write and each later one takes at most n bytes.
    Takes(usize),
}

/// A sink in memory that breaks at its n-th write, counted from 1.
#[derive(Drop)]
pub struct BrokenWriter<A: Allocator = Global> {
    inner: MemSink<A>,
    left: u64,
    how: Break,
    most: usize,
    faults: u64,
}

impl<A: Allocator> Model for BrokenWriter<A> {
    ghost use Rattle.warc_vectors.specs.Broken.{WriterState};

    ghost Value = { WriterState };

    ghost view = { λ w. record { bytes = w.inner.bytes; faults = w.faults } };
}

impl<A: Allocator> BrokenWriter<A> {
    /// At 0 no write breaks.
    pub fn new(alloc: A, number: u64, how: Break) -> BrokenWriter<A>
        ensures bytes { result.bytes ≡ [] }
        ensures sound { result.faults ≡ 0 }
    {
        BrokenWriter {
            inner: MemSink::new(Vec::new(alloc)),
            left: number,
            how,
            most: usize::MAX,
            faults: 0,
        }
    }

    /// This writer, of which each write takes at most `most` bytes.
    pub fn taking(self, most: usize) -> BrokenWriter<A>
        ensures { result ≡ self }
    {
        BrokenWriter { most, ..self }
    }

    /// The bytes so far.
    pub fn bytes(&self) -> &[u8]
        ensures { result.now ≡ self.now.bytes }
    {
        self.inner.bytes()
    }

    fn write_some(&mut self, piece: &[u8]) -> Result<usize, WriteFault>
        ensures bound { IfOk result (λ n. n ≤ length piece.now) }
        ensures bytes { self.new.bytes ≡ self.old.bytes ++ take (taken result) piece.now }
        ensures faults { self.new.faults ≡ self.old.faults }
    {
        let number = self.left;
        self.left = number.saturating_sub(1);
        if number == 1 {
            match self.how {
                Break::Fails => return Err(WriteFault),
                Break::Takes(most) => self.most = most,
            }
        }
        let n = piece.len().min(self.most);
        self.inner.write(&piece[..n])
    }
}

impl<A: Allocator> Sink for BrokenWriter<A> {
    ghost seen = { λ w. record { reports = Some w.bytes; faults = w.faults } };

    fn write(&mut self, piece: &[u8]) -> Result<usize, WriteFault> {
        let answer = self.write_some(piece);
        if is_failed(&answer, piece) {
            self.faults = raise(self.faults);
        }
        answer
    }
}
