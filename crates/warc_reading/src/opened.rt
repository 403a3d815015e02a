//! A source that was read to its end: the rows of its records, and what is kept beside them.
ghost use Rattle.std.specs.Prelude.{◌≡◌, ℕ, List, [], OnErr};
ghost use Rattle.warc_reading.specs.Growing.{Grows};
ghost use Rattle.warc_reading.specs.Opening.{Opens, source_left, without_source};
ghost use Rattle.warc_reading.specs.Stream.{IsKeptOf};

use crate::kept::Keep;
use crate::rows::Rows;
use crate::stream::read_on;
use std::alloc::{Allocator, Global};
use std::mem;
use warc_frame::{Fault, Source};

/// A source, a row for each of its records, and what is kept of these records beside the rows.
#[derive(Drop)]
pub struct Opened<S: Source, K, A: Allocator = Global> {
    pub source: S,
    pub rows: Rows<A>,
    pub kept: K,
}

impl<S: Source, K: Keep<A> + Drop, A: Allocator + Copy> Opened<S, K, A> {
    /// Reads the source from its front to its end, or to offset 2^48, where no byte may be, and keeps no block. `kept`
    /// is of no records yet. Returns the source with a refusal: `Read` if a read failed, at the offset asked for,
    /// `Memory` at the record for which it didn't suffice, and else the first fault of the bytes.
    pub fn open(alloc: A, source: S, kept: K) -> Result<Opened<S, K, A>, (Fault, S)>
        requires { K.keeps kept [] }
        ensures { Opens (IsKeptOf K.keeps) (S.seen source) (S.seen (source_left (λ o. o.source) result))
            (without_source (λ o. (o.rows, o.kept)) result) }
    {
        let mut source = source;
        let (answer, rows, kept) = read_on(alloc, &mut source, Rows::new(alloc), kept);
        match answer {
            Ok(()) => Ok(Opened { source, rows, kept }),
            Err(fault) => Err((fault, source)),
        }
    }

    /// Reads on in a source that begins with the bytes of the old one, from their end to its own, and adds the records
    /// there. Then it is what opening the whole gives, and has the new source. A source that isn't longer adds nothing.
    /// It is refused as `open` refuses the whole: then the new source is returned, the old one and the rows stay, and
    /// what is kept is still of these. While it reads, `placeholder` takes the place of what is kept.
    pub fn grow(&mut self, source: S, placeholder: K) -> Result<(), (Fault, S)>
    where
        S: Drop,
        ensures grows { Grows (IsKeptOf K.keeps) (self.old.rows, self.old.kept) (S.seen source) (S.seen
            (source_left (λ _. self.new.source) result))
            (without_source (λ _. (self.new.rows, self.new.kept)) result) }
        ensures refused { OnErr result ((self.new.source ≡ self.old.source) × (self.new.rows ≡ self.old.rows)) }
        ensures stays { (bytes : List ℕ) → IsKeptOf K.keeps bytes (self.old.rows, self.old.kept)
            → OnErr result (IsKeptOf K.keeps bytes (self.new.rows, self.new.kept)) }
    {
        let mut source = source;
        let alloc = self.rows.allocator();
        let rows = mem::replace(&mut self.rows, Rows::new(alloc));
        let kept = mem::replace(&mut self.kept, placeholder);
        let (answer, rows, kept) = read_on(alloc, &mut source, rows, kept);
        self.rows = rows;
        self.kept = kept;
        match answer {
            Ok(()) => {
                self.source = source;
                Ok(())
            }
            Err(fault) => Err((fault, source)),
        }
    }
}
