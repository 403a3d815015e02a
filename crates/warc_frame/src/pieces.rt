//! The records that a list of pieces spells, by the decoder.
ghost use Rattle.std.specs.Prelude.{◌≡◌, ℕ, ◌+◌, ◌≤◌, ◌^◌, ◌++◌, List, [], ◌∷◌, length, IfOk, IfErr, OnOk, OnErr, MatchResult};
ghost use Rattle.std.specs.List.{flat_map};
ghost use Rattle.warc_frame.specs.Record.{Record, max_archive};
ghost use Rattle.warc_frame.specs.Spelling.{SpellsAll};
ghost use Rattle.warc_frame.specs.Reported.{report};
ghost use Rattle.warc_frame.specs.Pieces.{start_on, Keeps, IsPieceFault, IsMemoryFault, MayKeep, IsPiecesFault};

use crate::fault::{Fault, FaultKind};
use crate::framed::Framed;
use crate::stream::{Decoder, Event};
use crate::version::Version;
use std::alloc::{AllocError, Allocator};
use std::marker::Model;
use warc_field::Fields;

/// A record whose end hasn't come yet.
#[derive(Drop)]
struct Begun<A: Allocator> {
    version: Version,
    fields: Fields<A>,
    length: u64,
    bytes: Vec<u8, A>,
}

impl<A: Allocator> Model for Begun<A> {
    ghost use Rattle.warc_frame.specs.Reported.{Unclosed};

    ghost Value = { Unclosed };

    ghost view = { λ b. record {
      version = b.version;
      fields = b.fields;
      block_len = b.length;
      bytes = b.bytes.items;
    } };
}

/// The records reported so far, and the one that is open.
#[derive(Drop)]
struct Collected<A: Allocator> {
    records: Vec<Framed<A>, A>,
    begun: Option<Begun<A>>,
    /// The offset after the reported records.
    start: u64,
}

impl<A: Allocator> Model for Collected<A> {
    ghost use Rattle.warc_frame.specs.Pieces.{Keeping};

    ghost Value = { Keeping };

    ghost view = { λ k. record {
      reported = record { records = k.records.items; unclosed = k.begun };
      start = k.start;
    } };
}

impl<A: Allocator + Copy> Collected<A> {
    /// Keeps what an event reports of a piece, whose bytes end before offset `following`.
    fn keep(&mut self, piece: &[u8], event: Event<A>, following: u64) -> Result<(), AllocError>
        requires { MayKeep (length piece.now) self.old.reported.unclosed event }
        ensures reported { OnOk result (self.new.reported ≡ report self.old.reported piece.now event) }
        ensures start { OnOk result (self.new.start ≡ start_on self.old.start following event) }
        ensures still { OnErr result (self.new.start ≡ self.old.start) }
    {
        match event {
            Event::More => {}
            Event::Head(version, fields, length) => {
                let bytes = Vec::new(*self.records.allocator());
                self.begun = Some(Begun {
                    version,
                    fields,
                    length,
                    bytes,
                });
            }
            Event::Part(from, to) => {
                if let Some(begun) = &mut self.begun {
                    begun.bytes.extend_from_slice(&piece[from..to])?;
                }
            }
            Event::End => {
                if let Some(begun) = self.begun.take() {
                    let record = Framed::from_checked(begun.version, begun.fields, begun.bytes);
                    self.records.push(record)?;
                }
                self.start = following;
            }
        }
        Ok(())
    }
}

/// Gives a piece to the decoder, and keeps what it reports.
fn feed<A: Allocator + Copy>(
    decoder: &mut Decoder<A>,
    kept: &mut Collected<A>,
    piece: &[u8],
) -> Result<(), Fault>
    requires { (at : ℕ) × (taken : List ℕ) × Keeps at taken kept.old decoder.old }
    ensures kept { (at : ℕ) (taken : List ℕ) → Keeps at taken kept.old decoder.old →
        MatchResult result (λ _. Keeps at (taken ++ piece.now) kept.new decoder.new)
        (IsPieceFault at (taken ++ piece.now)) }
    ensures memory { (at : ℕ) (taken : List ℕ) → Keeps at taken kept.old decoder.old
        → IfErr result (IsMemoryFault at (taken ++ piece.now)) }
{
    let mut from = 0;
    while from < piece.len() {
        let rest = &piece[from..];
        let (took, event) = decoder.step(rest)?;
        if kept.keep(rest, event, decoder.position()).is_err() {
            return Err(FaultKind::Memory.at(kept.start));
        }
        from += took;
    }
    Ok(())
}

/// The records that the pieces, one after the other, spell, however the bytes are cut into them; the first byte is at
/// offset `at`, at most 2^48. The fault is the frame fault of all bytes, or a failed allocation at the first byte of
/// the record for which it was needed.
pub fn decode<A: Allocator + Copy>(
    alloc: A,
    at: u64,
    pieces: &[&[u8]],
) -> Result<Vec<Framed<A>, A>, Fault>
    requires { at ≤ max_archive }
    ensures spelled { IfOk result (λ records. SpellsAll records.items (flat_map (λ piece. piece.now) pieces.now)) }
    // No other list of records is spelled.
    ensures only { IfOk result
        (λ records. (others : List Record) → SpellsAll others (flat_map (λ piece. piece.now) pieces.now)
        → records.items ≡ others) }
    ensures fault { IfErr result (IsPiecesFault at (flat_map (λ piece. piece.now) pieces.now)) }
    ensures memory { IfErr result (IsMemoryFault at (flat_map (λ piece. piece.now) pieces.now)) }
{
    let mut decoder = Decoder::new(alloc, at);
    let mut kept = Collected {
        records: Vec::new(alloc),
        begun: None,
        start: at,
    };
    for piece in pieces {
        feed(&mut decoder, &mut kept, piece)?;
    }
    decoder.finish()?;
    Ok(kept.records)
}
