//! Where the body of an origin is in a source, without reading the body.
ghost use Rattle.std.specs.Prelude.{◌≡◌, ℕ, List, length, drop, slice_get, Result, IfErr, IfOk};
ghost use Rattle.warc_frame.specs.Effects.{FailsBy};
ghost use Rattle.warc_frame.specs.Record.{Record};
ghost use Rattle.warc_frame.specs.Seen.{IfHeld};
ghost use Rattle.warc_index.specs.declared.unfound.Unfound.{Unfound};
ghost use Rattle.warc_answer.specs.Located.{AreInside, IsLocatedOn, spans_text};
ghost use Rattle.warc_answer.specs.Origins.{AreBlocksIn, IsJoinedOn};
ghost use Rattle.warc_answer.specs.Places.{LieIn, ReadsPlaces, len_of, text_at};
ghost use Rattle.warc_answer.specs.Replays.{out_result};
ghost use Rattle.warc_answer.specs.Seen.{IsEarly};

use crate::answer::{Answer, Path, ReplayFault};
use crate::replay::begin_body;
use std::alloc::{AllocError, Allocator, Global};
use std::marker::Model;
use warc_frame::{OutFault, Source};
use warc_segment::Place;

/// Bytes of a source, one after another.
#[derive(Clone, Copy, Debug, PartialEq, Eq)]
pub struct Span {
    /// The offset of the first one.
    pub start: u64,

    /// How many they are.
    pub len: u64,
}

/// A body that is in a source: its answer, and the spans whose bytes, one after another, it is.
#[derive(Drop)]
pub struct Located<A: Allocator = Global> {
    answer: Answer,
    spans: Vec<Span, A>,
}

impl<A: Allocator> Model for Located<A> {
    ghost use Rattle.warc_answer.specs.Located.{Location};

    ghost Value = { Location };

    ghost view = { λ l. record { answer = l.answer; spans = l.spans.items } };
}

impl<A: Allocator> Located<A> {
    /// What is said of the body.
    pub fn answer(&self) -> Answer
        ensures { result ≡ self.now.answer }
    {
        self.answer
    }

    /// How many spans there are.
    pub fn count(&self) -> usize
        ensures { result ≡ length self.now.spans }
    {
        self.spans.len()
    }

    /// The span at an index, if there is one. It may have no bytes.
    pub fn span(&self, index: usize) -> Option<Span>
        ensures { result ≡ slice_get self.now.spans index }
    {
        self.spans.get(index).copied()
    }
}

/// The spans of the joined blocks, without `skip` bytes at their front.
fn cut_front<A: Allocator>(
    alloc: A,
    places: &[Place],
    skip: u64,
) -> Result<Vec<Span, A>, AllocError>
    ensures text { (bytes : List ℕ) → LieIn places.now bytes → IfOk result (λ spans. spans_text spans.items bytes ≡ drop
        skip (text_at places.now bytes)) }
    ensures within { (bytes : List ℕ) → LieIn places.now bytes → IfOk result (λ spans. AreInside spans.items bytes) }
{
    let mut spans = Vec::new(alloc);
    let mut left = skip;
    'cutting: for place in places {
        let gone = left.min(place.len);
        spans.push(Span {
            start: place.start.saturating_add(gone),
            len: place.len - gone,
        })?;
        left -= gone;
    }
    Ok(spans)
}

/// Where the payload of an origin is, and what it is. `places` are the places of the joined blocks, as
/// `Parts::join` gives them; `http` says whether the origin is an HTTP response. Each byte of the joined blocks is read
/// at most once, to judge their digests and to find the HTTP head. If the source changes later, the spans don't follow.
///
/// It is refused as `replay_joined` is before anything is written: a reason, `Read(0)` or `Memory(0)`.
pub fn locate_joined<S: Source, A: Allocator + Copy>(
    alloc: A,
    source: &mut S,
    path: Path,
    http: bool,
    places: &[Place],
) -> Result<Located<A>, ReplayFault>
    ensures located { IfHeld (S.seen source.old).holds (λ bytes. (records : List Record)
        (found : Result Path Unfound) → IsJoinedOn bytes records found path http places.now →
        IsLocatedOn bytes records found result) }
    ensures early { IfErr result IsEarly }
    ensures reads { ReadsPlaces places.now (len_of places.now) (S.seen source.old) (S.seen source.new) }
    ensures fails { FailsBy (AreBlocksIn places.now) (out_result result) (S.seen source.old) (S.seen source.new) }
{
    let begun = begin_body(source, path, http, places)?;
    match cut_front(alloc, places, begun.skip) {
        Ok(spans) => Ok(Located {
            answer: begun.answer,
            spans,
        }),
        Err(_) => Err(ReplayFault::Out(OutFault::Memory(0))),
    }
}
