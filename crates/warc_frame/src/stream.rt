//! The decoder: records that come in pieces of any length.
ghost use Rattle.std.specs.Prelude.{◌≡◌, ◌≢◌, ℕ, ◌+◌, ◌-◌, ◌<◌, ◌≤◌, ◌^◌, ◌++◌, length, List, [], take, Bool, true, false, MatchResult, IfOk, OnErr, IfErr, Ok, Err, Some, None};
ghost use Rattle.warc_frame.specs.Reading.{head_len, version_of};
ghost use Rattle.warc_frame.specs.Reported.{Reported, nothing, Lies, Refuses};
ghost use Rattle.warc_frame.specs.Decoding.{IsAt, IsFailed, Finishes, TakesWithin, Takes};
ghost use Rattle.warc_frame.specs.Steps.{Near, ClosesHead};
ghost use Rattle.warc_frame.specs.declared.fault.Fault.{Fault};
ghost use Rattle.warc_frame.specs.declared.stream.Event.TheVariants as events;
ghost use Rattle.warc_frame.specs.Record.{max_archive};

use crate::ends::{closes_on, find_end, version_across};
use crate::fault::{Fault, FaultKind};
use crate::front::{MAX_HEAD, read_fields};
use crate::version::Version;
use std::alloc::{Allocator, Global};
use std::marker::Model;
use std::mem;
use warc_field::Fields;

/// The most bytes of an archive, and so the offset at which no byte may be.
pub const MAX_ARCHIVE: u64 = 1 << 48;

/// What a step reports.
#[derive(Debug, Drop)]
pub enum Event<A: Allocator = Global> {
    /// The whole piece was taken, and nothing ended in it.
    More,
    /// A whole head: the version, the fields, and how many bytes the block after it has.
    Head(Version, Fields<A>, u64),
    /// Bytes of the block: the range of the given piece from the first place to before the second. It isn't empty.
    Part(usize, usize),
    /// The end of a record: the two CRLFs after its block.
    End,
}

/// What the bytes taken end in.
#[derive(Clone, Copy, Debug)]
pub(crate) enum Phase {
    /// A head, of which there may be no byte yet.
    Head,
    /// A block, or the two CRLFs after it.
    Block,
    /// A fault was reported.
    Failed(Fault),
}

/// A reader of records that come in pieces of any length. It keeps at most one head, and no byte of a block.
#[derive(Drop)]
pub struct Decoder<A: Allocator = Global> {
    phase: Phase,
    /// The offset after the bytes taken.
    position: u64,
    /// The bytes of a head that isn't whole yet.
    head: Vec<u8, A>,
    /// How many bytes of the block are to come.
    left: u64,
    /// How many bytes of the two CRLFs after the block were taken.
    matched: usize,
    /// Fields that are no longer needed: the next head is read in their memory.
    spare: Fields<A>,
}

impl<A: Allocator> Model for Decoder<A> {
    ghost use Rattle.warc_frame.specs.Decoding.{State, IsSound};

    ghost Value = { State };

    ghost view = { λ d. record {
      phase = d.phase;
      position = d.position;
      kept = d.head.items;
      left = d.left;
      matched = d.matched;
    } };

    ghost invariant = { λ d. IsSound d.position d.head.items d.matched };
}

impl<A: Allocator + Copy> Decoder<A> {
    /// A decoder of a stream whose first byte is at this offset, at most 2^48. It doesn't allocate.
    pub fn new(alloc: A, at: u64) -> Decoder<A>
        requires { at ≤ max_archive }
        ensures { IsAt at [] nothing result }
    {
        Decoder {
            phase: Phase::Head,
            position: at,
            head: Vec::new(alloc),
            left: 0,
            matched: 0,
            spare: Fields::new(alloc),
        }
    }

    /// Takes fields that are no longer needed, so that the next head is read in their memory. It changes nothing else.
    pub fn recycle(&mut self, fields: Fields<A>)
        ensures { self.new ≡ self.old }
    {
        self.spare = fields;
    }

    /// The offset after the bytes taken.
    pub fn position(&self) -> u64
        // What was reported is exactly what is in the bytes taken.
        ensures history { (at : ℕ) (taken : List ℕ) (reported : Reported) → IsAt at taken reported self.now
            → (result ≡ at + length taken) × Lies taken reported }
        ensures value { result ≡ self.now.position }
        ensures limit { result ≤ max_archive }
    {
        self.position
    }

    /// Whether the stream may end here: it may between records. Else it is truncated, or the fault is reported again.
    pub fn finish(&self) -> Result<(), Fault>
        ensures history { (at : ℕ) (taken : List ℕ) (reported : Reported) → IsAt at taken reported self.now
            → Finishes at taken reported result }
        ensures failed { (fault : Fault) → IsFailed self.now fault → result ≡ Err fault }
    {
        let truncated = FaultKind::Truncated.at(self.position);
        match self.phase {
            Phase::Failed(fault) => Err(fault),
            Phase::Head => {
                if self.head.is_empty() {
                    Ok(())
                } else {
                    Err(truncated)
                }
            }
            Phase::Block => Err(truncated),
        }
    }

    /// Takes bytes from the beginning of the piece, and reports what they end or are.
    ///
    /// It takes at least one byte of a piece that isn't empty, or fails; `More` takes the whole piece. An event comes
    /// with the last byte of what it reports. A fault is the frame fault of the bytes taken followed by the piece, or a
    /// failed allocation; it takes nothing, and each later call returns it again.
    pub fn step(&mut self, piece: &[u8]) -> Result<(usize, Event<A>), Fault>
        ensures history { (at : ℕ) (taken : List ℕ) (reported : Reported) → IsAt at taken reported self.old →
            MatchResult result (λ r. Takes at taken reported self.new piece.now r.0 r.1)
            (λ fault. Refuses at (taken ++ piece.now) reported fault) }
        ensures within { IfOk result (λ r. TakesWithin (length piece.now) r.0 r.1) }
        ensures empty { piece.now ≡ [] → MatchResult result (λ r. r ≡ (0, Event.More)) (IsFailed self.old) }
        ensures err { IfErr result (λ fault. IsFailed self.new fault × (self.new.position ≡ self.old.position)) }
        ensures failed { (fault : Fault) → IsFailed self.old fault → (result ≡ Err fault) × (self.new ≡ self.old) }
    {
        let room = MAX_ARCHIVE - self.position;
        let n = room.min(piece.len() as u64) as usize;
        let crosses = n < piece.len();
        let near = &piece[..n];
        let outcome = match self.phase {
            Phase::Failed(fault) => return Err(fault),
            Phase::Head if piece.is_empty() => return Ok((0, Event::More)),
            Phase::Head => self.take_head(near, crosses),
            Phase::Block => self.take_block(near, crosses),
        };
        if let Err(fault) = &outcome {
            self.phase = Phase::Failed(*fault);
        }
        outcome
    }

    /// Takes bytes of a head; `crosses` says that bytes at the limit follow the given ones.
    fn take_head(&mut self, near: &[u8], crosses: bool) -> Result<(usize, Event<A>), Fault>
        requires room { self.old.position + length near.now ≤ max_archive }
        ensures history { (at : ℕ) (taken text : List ℕ) (reported : Reported) → self.old.phase ≡ Phase.Head
            → IsAt at taken reported self.old → Near crosses at text (taken ++ near.now)
            → MatchResult result (λ r. Takes at taken reported self.new near.now r.0 r.1)
            (λ fault. Refuses at text reported fault) }
        ensures within { IfOk result (λ r. TakesWithin (length near.now) r.0 r.1) }
        ensures more { IfOk result (λ r. r.1 ≡ Event.More → crosses ≡ false) }
        ensures still { OnErr result (self.new.position ≡ self.old.position) }
    {
        let start = self.position - self.head.len() as u64;
        let Some(version) = version_across(&self.head, near) else {
            return Err(FaultKind::Version.at(start));
        };
        let room = MAX_HEAD - self.head.len();
        let front = &near[..room.min(near.len())];
        if let Some(n) = find_end(&self.head, front) {
            return self.close_head(version, &front[..n]);
        }
        if front.len() == room {
            return Err(FaultKind::HeadTooLong.at(start));
        }
        if crosses {
            return Err(FaultKind::TooLong.at(MAX_ARCHIVE));
        }
        if self.head.extend_from_slice(front).is_err() {
            return Err(FaultKind::Memory.at(start));
        }
        self.position += front.len() as u64;
        Ok((front.len(), Event::More))
    }

    /// Takes the bytes that end a head of this version, and reads the head: in place if all of it is given.
    fn close_head(&mut self, version: Version, end: &[u8]) -> Result<(usize, Event<A>), Fault>
        requires version { version_of (self.old.kept ++ end.now) ≡ Some version }
        requires len { head_len (self.old.kept ++ end.now) ≡ Some (length (self.old.kept ++ end.now)) }
        requires some { 0 < length end.now }
        requires room { self.old.position + length end.now ≤ max_archive }
        ensures closes { ClosesHead self.old self.new end.now result }
        ensures within { IfOk result (λ r. TakesWithin (length end.now) r.0 r.1) }
        ensures head { IfOk result (λ r. r.1 ≢ Event.More) }
        ensures still { OnErr result (self.new.position ≡ self.old.position) }
    {
        let start = self.position - self.head.len() as u64;
        let alloc = *self.head.allocator();
        let spare = mem::replace(&mut self.spare, Fields::new(alloc));
        let read = if self.head.is_empty() {
            read_fields(spare, version, end.len(), end)
        } else {
            if self.head.extend_from_slice(end).is_err() {
                return Err(FaultKind::Memory.at(start));
            }
            read_fields(spare, version, self.head.len(), &self.head)
        };
        self.head.clear();
        match read {
            Ok(head) => {
                self.position += end.len() as u64;
                self.left = head.block_len;
                self.matched = 0;
                self.phase = Phase::Block;
                Ok((
                    end.len(),
                    Event::Head(head.version, head.fields, head.block_len),
                ))
            }
            Err(fault) => Err(fault.kind.at(start + fault.offset)),
        }
    }

    /// Takes bytes of a block or of what closes the record.
    fn take_block(&mut self, near: &[u8], crosses: bool) -> Result<(usize, Event<A>), Fault>
        requires room { self.old.position + length near.now ≤ max_archive }
        ensures history { (at : ℕ) (taken text : List ℕ) (reported : Reported) → self.old.phase ≡ Phase.Block
            → IsAt at taken reported self.old → Near crosses at text (taken ++ near.now)
            → MatchResult result (λ r. Takes at taken reported self.new near.now r.0 r.1)
            (λ fault. Refuses at text reported fault) }
        ensures within { IfOk result (λ r. TakesWithin (length near.now) r.0 r.1) }
        ensures empty { near.now ≡ [] → crosses ≡ false → result ≡ Ok (0, Event.More) }
        ensures more { IfOk result (λ r. r.1 ≡ Event.More → crosses ≡ false) }
        ensures still { OnErr result (self.new.position ≡ self.old.position) }
    {
        if near.is_empty() {
            if crosses {
                return Err(FaultKind::TooLong.at(MAX_ARCHIVE));
            }
            return Ok((0, Event::More));
        }
        if self.left > 0 {
            let n = self.left.min(near.len() as u64);
            self.left -= n;
            self.position += n;
            return Ok((n as usize, Event::Part(0, n as usize)));
        }
        self.take_end(near, crosses)
    }

    /// Takes bytes of what closes the record.
    fn take_end(&mut self, near: &[u8], crosses: bool) -> Result<(usize, Event<A>), Fault>
        requires room { self.old.position + length near.now ≤ max_archive }
        requires some { 0 < length near.now }
        ensures history { (at : ℕ) (taken text : List ℕ) (reported : Reported) → self.old.phase ≡ Phase.Block
            → self.old.left ≡ 0 → IsAt at taken reported self.old → Near crosses at text (taken ++ near.now)
            → MatchResult result (λ r. Takes at taken reported self.new near.now r.0 r.1)
            (λ fault. Refuses at text reported fault) }
        ensures within { IfOk result (λ r. TakesWithin (length near.now) r.0 r.1) }
        ensures more { IfOk result (λ r. r.1 ≡ Event.More → crosses ≡ false) }
        ensures still { OnErr result (self.new.position ≡ self.old.position) }
    {
        let want = 4 - self.matched;
        let n = want.min(near.len());
        if !closes_on(&near[..n], self.matched) {
            return Err(FaultKind::End.at(self.position - self.matched as u64));
        }
        if n < want {
            if crosses {
                return Err(FaultKind::TooLong.at(MAX_ARCHIVE));
            }
            self.matched += n;
            self.position += n as u64;
            Ok((n, Event::More))
        } else {
            self.matched = 0;
            self.position += n as u64;
            self.phase = Phase::Head;
            Ok((n, Event::End))
        }
    }
}
