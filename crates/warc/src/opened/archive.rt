//! An archive: a listing, with what finds its records and joins their segments.
ghost use Rattle.std.specs.Prelude.{◌≡◌, ℕ, List, length, IfOk, OnErr, map, min, slice_get, ⊤};
ghost use Rattle.warc_frame.specs.Effects.{SendsText};
ghost use Rattle.warc_replay.specs.Bodies.{GivesBodyAt};
ghost use Rattle.warc.specs.Bounds.{IsKeptCount};
ghost use Rattle.warc_checking.specs.Checks.{Checks};
ghost use Rattle.warc_replay.specs.Extracting.{Extracts, position_with};
ghost use Rattle.warc.specs.Keeping.{kept_bytes};
ghost use Rattle.warc_index.specs.Captures.{AreCapturesOf, chosen_of};
ghost use Rattle.warc_reading.specs.Archive.{IsArchiveOf};
ghost use Rattle.warc_lookup.specs.Indexed.{AreOf, IsIndexed, IsUnchanged, indexed_record};
ghost use Rattle.warc_replay.specs.Capturing.{JudgesAll, SendsCaptures};
ghost use Rattle.warc_replay.specs.Captures.{capture_positions, captures_text};
ghost use Rattle.warc_rewrite.specs.Closure.{GivesNeeded, GivesOthers};
ghost use Rattle.warc_judged.specs.Listing.{listing};
ghost use Rattle.warc_replay.specs.Outcomes.{GivesStoredAt, JudgesAt, answer_seen, outcome_seen};
ghost use Rattle.warc_answer.specs.Answers.{path_from, path_of};
ghost use Rattle.warc_replay.specs.Locating.{LocatesAt, LocatesFor};
ghost use Rattle.warc_reading.specs.Growing.{Grows};
ghost use Rattle.warc_reading.specs.Opening.{Opens, source_left, without_source};
ghost use Rattle.warc_replay.specs.PayloadText.{payloads_text};
ghost use Rattle.warc_replay.specs.PayloadVerdicts.{GivesPayload, JudgesPayloads};
ghost use Rattle.warc_replay.specs.Replaying.{Replays};
ghost use Rattle.warc_reading.specs.Row.{Placed};
ghost use Rattle.warc_replay.specs.Judged.{GivesStated, GivesVerdict};
ghost use Rattle.warc_rewrite.specs.Selecting.{AreOthers, ArePositions, Selects, selected_text};
ghost use Rattle.warc_replay.specs.Taking.{GivesRecord};

use crate::opened::payloads::{Payloads, judge_all_payloads, list_payloads};
use std::alloc::{AllocError, Allocator, Global};
use std::marker::Model;
use warc_answer::{Answer, Located, Path, ReplayFault};
use warc_checking::check_rows;
use warc_frame::{Fault, Framed, OutFault, Sink, Source};
use warc_index::Unfound;
use warc_judged::list_rows;
use warc_lookup::{Lookup, UnorderedLookup};
use warc_reading::{Opened, Row, RowIter};
use warc_record::id_key;
use warc_replay::{
    BodyFault, ExtractFault, Outcome, Part, PayloadVerdict, StoredAt, TakeFault, capture_outcome,
    capture_positions, give_body, judge_all, list_outcomes, locate_at, locate_for, path_from,
    path_in, replay_rows, send_at, send_part, take_payload, take_record_at, take_stated_at,
    take_verdict_at, write_unjudged,
};
use warc_rewrite::{
    closed_positions, other_positions, remaining_positions, select_rows, selected_len,
};
use warc_value::{Moment, Verdict};

/// An archive, whose records are listed, found by target, moment and id, and joined. Contracts see its listing, and
/// what its index and its parts keep.
#[derive(Drop)]
pub struct Archive<S: Source, A: Allocator = Global> {
    opened: Opened<S, Lookup<A>, A>,
}

impl<S: Source, A: Allocator> Model for Archive<S, A> {
    ghost use Rattle.warc_lookup.specs.Indexed.{Archived};

    ghost Value = { Archived S };

    ghost view = { λ a. record {
      listing = record { source = a.opened.source; rows = a.opened.rows };
      index = a.opened.kept.index;
      parts = a.opened.kept.parts;
    } };
}

impl<S: Source, A: Allocator> Archive<S, A> {
    /// How many records there are.
    pub fn count(&self) -> usize
        ensures { result ≡ length self.now.listing.rows }
    {
        self.opened.rows.len()
    }

    /// What is kept of the record at a position, if there is one.
    pub fn row(&self, position: usize) -> Option<Row<'_>>
        ensures { result ≡ slice_get self.now.listing.rows position }
    {
        self.opened.rows.get(position)
    }

    /// What is kept of each record, in order.
    pub fn rows(&self) -> RowIter<'_, A>
        ensures { result ≡ self.now.listing.rows }
    {
        self.opened.rows.iter()
    }

    /// Returns the source.
    pub fn into_source(self) -> S
        ensures { result ≡ self.listing.source }
    {
        self.opened.source
    }

    /// Writes a line for each record, as a listing does.
    pub fn list<W: Sink>(&self, out: &mut W) -> Result<(), OutFault>
        ensures { SendsText (W.seen out.old) (W.seen out.new) result (listing self.now.listing.rows) }
    {
        list_rows(&self.opened.rows, out)
    }
}

impl<S: Source, A: Allocator + Copy> Archive<S, A> {
    /// Reads the source as a listing is read, and keeps with the rows what finds the records and joins their segments.
    /// Once all is read it is put in order, which doesn't allocate.
    pub fn open(alloc: A, source: S) -> Result<Archive<S, A>, (Fault, S)>
        ensures { Opens IsIndexed (S.seen source) (S.seen (source_left (λ a. a.listing.source) result))
            (without_source (λ a. a) result) }
    {
        match Opened::open(alloc, source, UnorderedLookup::new(alloc)) {
            Ok(Opened { source, rows, kept }) => {
                let kept = kept.into_lookup();
                Ok(Archive {
                    opened: Opened { source, rows, kept },
                })
            }
            Err(refused) => Err(refused),
        }
    }

    /// Reads on in a source that begins with the bytes of the old one, as a listing does. Then every answer is as if
    /// the whole were opened afresh; after a refusal every answer is as before.
    pub fn grow(&mut self, source: S) -> Result<(), (Fault, S)>
    where
        S: Drop,
        ensures grows { Grows IsIndexed self.old (S.seen source) (S.seen
            (source_left (λ _. self.new.listing.source) result)) (without_source (λ _. self.new) result) }
        ensures refused { OnErr result (self.new.listing ≡ self.old.listing) }
        ensures stays { (bytes : List ℕ) → IsIndexed bytes self.old → OnErr result (IsIndexed bytes self.new) }
    {
        let alloc = self.opened.rows.allocator();
        self.opened.grow(source, Lookup::new(alloc))
    }

    /// How many bytes of texts are kept of the records: the texts that `list` writes, those by which records are found,
    /// and the keys of the records that have segments. They are at most twice as many as the bytes of the heads.
    pub fn kept(&self) -> u64
        ensures sum { result ≡ min (kept_bytes self.now) 18446744073709551615 }
        ensures bounds { (bytes : List ℕ) → IsIndexed bytes self.now → IsKeptCount self.now result }
    {
        let Opened { rows, kept, .. } = &self.opened;
        let found = kept.index.kept().saturating_add(kept.parts.kept());
        rows.kept().saturating_add(found)
    }

    /// The record at a position, as a listing gives it.
    pub fn record(&mut self, position: usize) -> Result<Framed<A>, TakeFault>
        ensures takes { GivesRecord self.old.listing.rows position (S.seen self.old.listing.source)
            (S.seen self.new.listing.source) result }
        ensures unchanged { IsUnchanged self.old self.new }
    {
        take_record_at(&mut self.opened.source, &self.opened.rows, position)
    }

    /// How the block of the record at a position compares with its digest, as a listing gives it.
    pub fn verdict(&mut self, position: usize) -> Result<Verdict, TakeFault>
        ensures takes { GivesVerdict self.old.listing.rows position (S.seen self.old.listing.source)
            (S.seen self.new.listing.source) result }
        ensures unchanged { IsUnchanged self.old self.new }
    {
        take_verdict_at(&mut self.opened.source, &self.opened.rows, position)
    }

    /// How the block of the record at a position compares with the digest that its head states, as a listing gives it.
    pub fn stated_verdict(&mut self, position: usize) -> Result<Verdict, TakeFault>
        ensures takes { GivesStated self.old.listing.rows position (S.seen self.old.listing.source)
            (S.seen self.new.listing.source) result }
        ensures unchanged { IsUnchanged self.old self.new }
    {
        take_stated_at(&mut self.opened.source, &self.opened.rows, position)
    }

    /// The position of the first record of any kind with the id that a text holds.
    fn first_with(&self, id: &[u8]) -> Option<usize>
        ensures { (records : List Placed) → AreOf records self.now.index self.now.parts →
            result ≡ position_with records id.now }
    {
        let key = id_key(id)?;
        self.opened.kept.index.first_with(&key)
    }

    /// Writes the block of the first record of any kind with the id, in brackets or without, and answers its length.
    /// If no record has the id, or the text holds none, it is `NoRecord`, and nothing is written. The block isn't
    /// kept: it goes through a buffer of 8,192 bytes.
    ///
    /// A read that fails, or a source that no longer gives what it gave at opening, is `Read`; a write that fails is
    /// `Write`. Each says how many bytes went out, which are the first of the block. It doesn't allocate.
    pub fn extract<W: Sink>(&mut self, id: &[u8], out: &mut W) -> Result<u64, ExtractFault>
        ensures extracts { Extracts self.old id.now (S.seen self.old.listing.source)
            (S.seen self.new.listing.source) (W.seen out.old) (W.seen out.new) result }
        ensures unchanged { IsUnchanged self.old self.new }
    {
        let Some(position) = self.first_with(id) else {
            return Err(ExtractFault::NoRecord);
        };
        let Opened { source, rows, .. } = &mut self.opened;
        send_part(source, rows, position, Part::Block, out)
    }

    /// The positions of the capture that is chosen for a URI as of a moment, and of its origin; or the reason P1 to
    /// P6.
    pub fn path_for(&self, uri: &[u8], moment: &Moment) -> Result<Path, Unfound>
        ensures { (records : List Placed) → AreOf records self.now.index self.now.parts → result ≡ path_of
            (map indexed_record records) uri.now moment.now }
    {
        path_in(&self.opened.kept, uri, moment)
    }

    /// The positions of a capture and of its origin; or the reason P3 to P6.
    pub fn path_at(&self, position: usize) -> Result<Path, Unfound>
        ensures { (records : List Placed) → AreOf records self.now.index self.now.parts → result ≡ path_from
            (map indexed_record records) position }
    {
        path_from(&self.opened.kept, position)
    }

    /// Where the body is that `replay` writes: its answer, and the spans of the source whose bytes, one after
    /// another, are the body. The origin's head is read, and each byte of the joined blocks at most once, to judge
    /// their digests and to find the HTTP head. It is refused as `replay` is before anything is written.
    pub fn locate(&mut self, uri: &[u8], moment: &Moment) -> Result<Located<A>, ReplayFault>
        ensures locates { LocatesFor self.old.listing.rows self.old.index self.old.parts uri.now moment.now
            (S.seen self.old.listing.source) (S.seen self.new.listing.source) result }
        ensures unchanged { IsUnchanged self.old self.new }
    {
        let Opened { source, rows, kept } = &mut self.opened;
        locate_for(source, rows, kept, uri, moment)
    }

    /// Where the body is that `replay_at` writes, as `locate` says it. If there is no record it is `NoRecord`, and if
    /// the record there is no capture `NoCapture`.
    pub fn locate_at(&mut self, position: usize) -> Result<Located<A>, BodyFault>
        ensures locates { LocatesAt self.old.listing.rows self.old.index self.old.parts position
            (S.seen self.old.listing.source) (S.seen self.new.listing.source) result }
        ensures unchanged { IsUnchanged self.old self.new }
    {
        let Opened { source, rows, kept } = &mut self.opened;
        kept.index.follow_chains(rows.allocator());
        locate_at(source, rows, kept, position)
    }

    /// Writes the body that was captured of a URI, as of a moment: the payload of the origin of the latest capture
    /// that isn't after it, its segments joined, after the head of an HTTP response. The answer says which records it
    /// comes from, by their positions, the status of the response, whether a record was truncated, and its length. For
    /// a reason P1 to P10 nothing is written. No block is kept: the source is read again.
    ///
    /// A read that fails, or a source that no longer gives what it gave at opening, is `Read`; a write that fails is
    /// `Write`. Each says how many bytes went out, which are the first of the body. `Memory` comes before any byte.
    pub fn replay<W: Sink>(
        &mut self,
        uri: &[u8],
        moment: &Moment,
        out: &mut W,
    ) -> Result<Answer, ReplayFault>
        ensures replays { Replays self.old.listing.rows self.old.index self.old.parts uri.now moment.now
            (S.seen self.old.listing.source) (S.seen self.new.listing.source) (W.seen out.old) (W.seen out.new)
            result }
        ensures unchanged { IsUnchanged self.old self.new }
    {
        let Opened { source, rows, kept } = &mut self.opened;
        replay_rows(source, rows, kept, uri, moment, out)
    }

    /// Writes the body that the capture at a position gives, as `replay` writes the body of the chosen capture. If
    /// there is no record it is `NoRecord`, and if the record there is no capture `NoCapture`; then, and for a reason
    /// P3 to P10, nothing is written. No block is kept.
    ///
    /// A read that fails, or a source that no longer gives what it gave at opening, is `Read`; a write that fails is
    /// `Write`. Each says how many bytes went out, which are the first of the body. `Memory` comes before any byte.
    pub fn replay_at<W: Sink>(&mut self, position: usize, out: &mut W) -> Result<Answer, BodyFault>
        ensures gives { GivesBodyAt self.old.listing.rows self.old.index self.old.parts position
            (S.seen self.old.listing.source) (S.seen self.new.listing.source) (W.seen out.old) (W.seen out.new)
            result }
        ensures unchanged { IsUnchanged self.old self.new }
    {
        let Opened { source, rows, kept } = &mut self.opened;
        give_body(source, rows, kept, position, out)
    }

    /// What the capture at a position gives, as `replay_at` judges it, without the body: the position of its origin,
    /// and what is said of what is stored there, coded or not, or the reason P3 to P9. Of the origin its head is read
    /// again, and each byte of the joined blocks at most once. `Memory` and `Read` come without a byte written.
    pub fn outcome_at(&mut self, position: usize) -> Result<Outcome<A>, BodyFault>
        ensures judges { JudgesAt self.old.listing.rows self.old.index self.old.parts position
            (S.seen self.old.listing.source) (S.seen self.new.listing.source) result }
        ensures unchanged { IsUnchanged self.old self.new }
    {
        let Opened { source, rows, kept } = &mut self.opened;
        kept.index.follow_chains(rows.allocator());
        capture_outcome(source, rows, kept, position)
    }

    /// Writes what is stored of the origin of the capture at a position, as `replay_at` writes a body, but a coded one
    /// too, as it is after the HTTP head. `Memory` comes before any byte.
    pub fn stored_to<W: Sink>(
        &mut self,
        position: usize,
        out: &mut W,
    ) -> Result<StoredAt<A>, BodyFault>
        ensures gives { GivesStoredAt self.old.listing.rows self.old.index self.old.parts position
            (S.seen self.old.listing.source) (S.seen self.new.listing.source) (W.seen out.old) (W.seen out.new)
            (answer_seen result) }
        ensures unchanged { IsUnchanged self.old self.new }
    {
        let Opened { source, rows, kept } = &mut self.opened;
        send_at(source, rows, kept, position, out)
    }

    /// The positions of all captures, in their order. `Err`: no memory for them.
    pub fn captures(&self) -> Result<Vec<usize, A>, AllocError>
        ensures { IfOk result (λ positions. positions.items ≡ capture_positions self.now.listing.rows) }
    {
        capture_positions(&self.opened.rows)
    }

    /// The outcomes of the captures at positions, in their order, as `outcome_at` gives them. Joined blocks are judged
    /// once, however many captures lead to them. `Memory` and `Read` come without an outcome.
    pub fn outcomes(&mut self, positions: &[usize]) -> Result<Vec<Outcome<A>, A>, OutFault>
        ensures judges { JudgesAll self.old.listing.rows self.old.index self.old.parts positions.now
            (S.seen self.old.listing.source) (S.seen self.new.listing.source) result }
        ensures unchanged { IsUnchanged self.old self.new }
    {
        let Opened { source, rows, kept } = &mut self.opened;
        kept.index.follow_chains(rows.allocator());
        judge_all(source, rows, kept, positions)
    }

    /// Writes a line for each outcome, with ten columns: the capture's position, its date as written, its instant and
    /// its type, the position of its origin, the status, the media type and the length of the body, the reason why
    /// there is none, and the target. It doesn't allocate.
    pub fn list_outcomes<W: Sink>(
        &self,
        outcomes: &[Outcome<A>],
        out: &mut W,
    ) -> Result<(), OutFault>
        ensures { SendsText (W.seen out.old) (W.seen out.new) result
            (captures_text self.now.listing.rows (map outcome_seen outcomes.now)) }
    {
        list_outcomes(&self.opened.rows, outcomes, out)
    }

    /// Writes the line of each capture at a position, in their order, as `list_outcomes` writes that of its outcome. A
    /// capture is judged when its line is written, and no outcome is kept: a byte for each record is. Of its origin the
    /// head is read again. Joined blocks are judged once, however many captures lead to them: each byte is read at most
    /// once for that, and then of an HTTP response the front, for its head. `Read`, `Write` and `Memory` say how many
    /// bytes went out, which are the first of the lines.
    pub fn list_captures<W: Sink>(
        &mut self,
        positions: &[usize],
        out: &mut W,
    ) -> Result<(), OutFault>
        ensures lists { SendsCaptures (λ _. ⊤) self.old.listing.rows self.old.index self.old.parts positions.now
            (S.seen self.old.listing.source) (S.seen self.new.listing.source) (W.seen out.old) (W.seen out.new)
            result }
        ensures unchanged { IsUnchanged self.old self.new }
    {
        let Opened { source, rows, kept } = &mut self.opened;
        kept.index.follow_chains(rows.allocator());
        write_unjudged(source, rows, kept, positions, out)
    }

    /// How the payload of the record at a position compares with the digest that its first `WARC-Payload-Digest`
    /// states; `None` if that value is empty, or there is no such field. The payload is the record's own: of an
    /// HTTP response the bytes after the HTTP head as they are stored, of another record the block. Of a revisit it
    /// is what its replay finds stored, coded or not. The head is read again, and each byte of these blocks at most
    /// twice. A read that fails, or a source that no longer gives what it gave at opening, is `Read`.
    pub fn payload_verdict(&mut self, position: usize) -> Result<Option<PayloadVerdict>, TakeFault>
        ensures gives { GivesPayload self.old.listing.rows self.old.index self.old.parts position
            (S.seen self.old.listing.source) (S.seen self.new.listing.source) result }
        ensures unchanged { IsUnchanged self.old self.new }
    {
        let Opened { source, rows, kept } = &mut self.opened;
        kept.index.follow_chains(rows.allocator());
        take_payload(source, rows, kept, position)
    }

    /// How the payload of each record compares with the digest that its head states, as `payload_verdict` judges it.
    /// Each origin of revisits is read once for each algorithm that they state. `Memory` and `Read` come without a
    /// verdict.
    pub fn payloads(&mut self) -> Result<Payloads<A>, OutFault>
        ensures judges { JudgesPayloads self.old.listing.rows self.old.index self.old.parts
            (S.seen self.old.listing.source) (S.seen self.new.listing.source) result }
        ensures unchanged { IsUnchanged self.old self.new }
    {
        let Opened { source, rows, kept } = &mut self.opened;
        kept.index.follow_chains(rows.allocator());
        judge_all_payloads(source, rows, kept)
    }

    /// Writes a line for each payload that has a digest and isn't good: the position of its record, `bad` or
    /// `unchecked`, the bare id, the reason why it is unchecked, `-` for none, and the digest's value, with a tab
    /// between two; and a last line with the counts. It doesn't allocate.
    pub fn list_payloads<W: Sink>(
        &self,
        payloads: &Payloads<A>,
        out: &mut W,
    ) -> Result<(), OutFault>
        ensures { SendsText (W.seen out.old) (W.seen out.new) result
            (payloads_text self.now.listing.rows payloads.now) }
    {
        list_payloads(&self.opened.rows, payloads, out)
    }

    /// The positions of the captures of a URI, each once: by instant, then by position. `Err`: no memory for them.
    pub fn captures_of(&self, uri: &[u8]) -> Result<Vec<usize, A>, AllocError>
        ensures { (bytes : List ℕ) → (is : IsIndexed bytes self.now) →
            IfOk result (λ positions. AreCapturesOf (map indexed_record is.listed.are.records) uri.now
            positions.items) }
    {
        let alloc = self.opened.rows.allocator();
        self.opened.kept.index.captures_of(alloc, uri)
    }

    /// The position of the capture that is chosen for a URI as of a moment: the one that a replay gives, or gives a
    /// reason for. `Err`: P1 where no capture has the URI, P2 where each that has is later.
    pub fn chosen(&self, uri: &[u8], moment: &Moment) -> Result<usize, Unfound>
        ensures { (records : List Placed) → AreOf records self.now.index self.now.parts →
            result ≡ chosen_of (map indexed_record records) uri.now moment.now }
    {
        self.opened.kept.index.latest(uri, moment)
    }

    /// Writes the records at positions, byte for byte, as a listing does.
    pub fn select<W: Sink>(&mut self, positions: &[usize], out: &mut W) -> Result<(), OutFault>
        requires ascending { ArePositions (length self.old.listing.rows) positions.now }
        ensures selects { Selects self.old.listing.rows positions.now (S.seen self.old.listing.source)
            (S.seen self.new.listing.source) (W.seen out.old) (W.seen out.new) result }
        ensures unchanged { IsUnchanged self.old self.new }
    {
        select_rows(&mut self.opened.source, &self.opened.rows, positions, out)
    }

    /// How many bytes `select` writes of the records at positions.
    pub fn selected_len(&self, positions: &[usize]) -> u64
        requires ascending { ArePositions (length self.now.listing.rows) positions.now }
        ensures { (bytes : List ℕ) → IsArchiveOf bytes self.now.listing.rows →
            result ≡ length (selected_text self.now.listing.rows positions.now bytes) }
    {
        selected_len(&self.opened.rows, positions)
    }

    /// The positions of all records but those at positions, as a listing gives them.
    pub fn others(&self, positions: &[usize]) -> Result<Vec<usize, A>, AllocError>
        requires ascending { ArePositions (length self.now.listing.rows) positions.now }
        ensures { IfOk result (λ others. AreOthers (length self.now.listing.rows) positions.now others.items) }
    {
        let rows = &self.opened.rows;
        other_positions(rows.allocator(), rows.len(), positions)
    }

    /// The positions of the records at positions and of all that they need, ascending, each once: with each record
    /// those on the way from referent to referent, to the origin or as far as the way goes, and with each of these
    /// whose segment number is 1 its whole series, also what doesn't join. `select` takes them. Then the outcome of
    /// each capture that is written is the same among the records that are written, positions aside. Without it a
    /// revisit may give another reason, or the body of another record that fits, by the same id, pair or digest; and
    /// a segmented record another gap, or a body. Not kept either way: what `replay` chooses among captures, and
    /// warcinfo and request records.
    ///
    /// It takes one step for each record on the ways and for each segment. If there are segments, heads of the records
    /// that it gives are read again, each at most once; no block is read. `Memory` and `Read` come without a position.
    pub fn closed(&mut self, positions: &[usize]) -> Result<Vec<usize, A>, OutFault>
        requires ascending { ArePositions (length self.old.listing.rows) positions.now }
        ensures closes { GivesNeeded self.old.listing.rows self.old.index self.old.parts positions.now
            (S.seen self.old.listing.source) (S.seen self.new.listing.source) result }
        ensures unchanged { IsUnchanged self.old self.new }
    {
        let Opened { source, rows, kept } = &mut self.opened;
        closed_positions(source, rows, kept, positions)
    }

    /// The positions of all records but those at positions and those that need one of them, ascending: a record is left
    /// out if `closed`, of it alone, would give one of these positions. So it is left out too if it is a revisit whose
    /// way comes to one of these, or to a resource one of whose segments is one of these. `select` takes what is given,
    /// and keeps what is answered of it as it does for `closed`.
    ///
    /// It takes one step for each record and for each segment. If there are segments, the heads of all records but
    /// those at these positions are read again, each once; no block is read. `Memory` and `Read` come without a
    /// position.
    pub fn closed_others(&mut self, positions: &[usize]) -> Result<Vec<usize, A>, OutFault>
        requires ascending { ArePositions (length self.old.listing.rows) positions.now }
        ensures closes { GivesOthers self.old.listing.rows self.old.index self.old.parts positions.now
            (S.seen self.old.listing.source) (S.seen self.new.listing.source) result }
        ensures unchanged { IsUnchanged self.old self.new }
    {
        let Opened { source, rows, kept } = &mut self.opened;
        remaining_positions(source, rows, kept, positions)
    }

    /// Writes a line for each finding, as a listing does, and answers how many there are. A read that fails does so
    /// before any line is written.
    pub fn check<W: Sink>(&mut self, out: &mut W) -> Result<usize, OutFault>
        ensures checks { Checks self.old.listing.rows (S.seen self.old.listing.source)
            (S.seen self.new.listing.source) (W.seen out.old) (W.seen out.new) result }
        ensures unchanged { IsUnchanged self.old self.new }
    {
        let alloc = self.opened.rows.allocator();
        check_rows(alloc, &mut self.opened.source, &self.opened.rows, out)
    }
}
