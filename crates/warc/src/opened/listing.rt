//! A listing: the rows of an archive over the source that holds its bytes.
ghost use Rattle.std.specs.Prelude.{◌≡◌, ◌≤◌, ℕ, List, length, IfOk, OnErr, slice_get};
ghost use Rattle.warc_frame.specs.Effects.{SendsText};
ghost use Rattle.warc_frame.specs.Record.{max_archive};
ghost use Rattle.warc_reading.specs.Archive.{IsArchiveOf};
ghost use Rattle.warc_checking.specs.Checks.{Checks};
ghost use Rattle.warc_rewrite.specs.Forms.{Writes, WritesSplit};
ghost use Rattle.warc.specs.Front.{CopiesFront, OpensFront};
ghost use Rattle.warc_judged.specs.Listing.{listing};
ghost use Rattle.warc_replay.specs.Parts.{GivesPart};
ghost use Rattle.warc_reading.specs.Growing.{Grows};
ghost use Rattle.warc_reading.specs.Opening.{Opens, source_left, without_source};
ghost use Rattle.warc_replay.specs.Heading.{GivesHead};
ghost use Rattle.warc_replay.specs.Judged.{GivesStated, GivesVerdict};
ghost use Rattle.warc_rewrite.specs.Selecting.{AreOthers, ArePositions, Selects, selected_text};
ghost use Rattle.warc_replay.specs.Taking.{GivesRecord};

use std::alloc::{AllocError, Allocator, Global};
use std::marker::Model;
use warc_checking::check_rows;
use warc_frame::{Fault, Framed, Head, OutFault, Sink, Source};
use warc_judged::list_rows;
use warc_reading::{Opened, Row, RowIter, RowsAlone, read_front};
use warc_replay::{
    ExtractFault, Part, TakeFault, send_part, send_range, take_head_at, take_record_at,
    take_stated_at, take_verdict_at,
};
use warc_rewrite::{Form, Replacement, other_positions, select_rows, selected_len, write_each};
use warc_value::Verdict;

/// What is listed of an archive, and the source of its bytes. Contracts see the source, and a row for each record.
#[derive(Drop)]
pub struct Listing<S: Source, A: Allocator = Global> {
    opened: Opened<S, RowsAlone, A>,
}

impl<S: Source, A: Allocator> Model for Listing<S, A> {
    ghost use Rattle.warc_reading.specs.Archive.{Contents};

    ghost Value = { Contents S };

    ghost view = { λ a. record { source = a.opened.source; rows = a.opened.rows } };
}

impl<S: Source, A: Allocator> Listing<S, A> {
    /// How many records there are.
    pub fn count(&self) -> usize
        ensures { result ≡ length self.now.rows }
    {
        self.opened.rows.len()
    }

    /// What is kept of the record at a position, if there is one.
    pub fn row(&self, position: usize) -> Option<Row<'_>>
        ensures { result ≡ slice_get self.now.rows position }
    {
        self.opened.rows.get(position)
    }

    /// What is kept of each record, in order.
    pub fn rows(&self) -> RowIter<'_, A>
        ensures { result ≡ self.now.rows }
    {
        self.opened.rows.iter()
    }

    /// Returns the source.
    pub fn into_source(self) -> S
        ensures { result ≡ self.source }
    {
        self.opened.source
    }

    /// Writes a line for each record: its position and offset, the length of its block, its type, date, id and target,
    /// with a tab between two, and `-` for an absent target. It doesn't allocate.
    pub fn list<W: Sink>(&self, out: &mut W) -> Result<(), OutFault>
        ensures { SendsText (W.seen out.old) (W.seen out.new) result (listing self.now.rows) }
    {
        list_rows(&self.opened.rows, out)
    }

    /// The offset after the last record, at most 2^48: how many bytes the records are.
    pub fn end(&self) -> u64
        ensures limit { result ≤ max_archive }
        ensures end { (bytes : List ℕ) → IsArchiveOf bytes self.now.rows → result ≡ length bytes }
    {
        self.opened.rows.end()
    }

    /// Writes the records as the source has them, byte for byte, and answers how many bytes they are. They go through
    /// a buffer of 8,192 bytes. The source may hold more, as `open_front` leaves it.
    ///
    /// A read that fails, or a source that no longer gives what it gave at opening, is `Read`; a write that fails is
    /// `Write`. Each says how many bytes went out, which are the first of these records.
    pub fn copy_to<W: Sink>(&mut self, out: &mut W) -> Result<u64, OutFault>
        ensures copies { CopiesFront self.old.rows (S.seen self.old.source) (S.seen self.new.source)
            (W.seen out.old) (W.seen out.new) result }

        // The rows stay.
        ensures rows { self.new.rows ≡ self.old.rows }
    {
        let end = self.opened.rows.end();
        match send_range(&mut self.opened.source, 0, end, out) {
            Ok(()) => Ok(end),
            Err(fault) => Err(fault),
        }
    }
}

impl<S: Source, A: Allocator + Copy> Listing<S, A> {
    /// Reads the source from its front to its end, or to offset 2^48, where no byte may be, and keeps no block. Returns
    /// the source with a refusal: `Read` if a read failed, at the offset asked for, `Memory` at the record for which it
    /// didn't suffice, and else the first fault of the bytes.
    pub fn open(alloc: A, source: S) -> Result<Listing<S, A>, (Fault, S)>
        ensures { Opens IsArchiveOf (S.seen source) (S.seen (source_left (λ l. l.source) result))
            (without_source (λ l. l.rows) result) }
    {
        match Opened::open(alloc, source, RowsAlone) {
            Ok(opened) => Ok(Listing { opened }),
            Err(refused) => Err(refused),
        }
    }

    /// Reads on in a source that begins with the bytes of the old one, from their end to its own, and adds the records
    /// there. Then it is the listing of the whole, and has the new source. A source that isn't longer adds nothing. It
    /// is refused as `open` refuses the whole; then the listing is as it was, and the new source is returned.
    pub fn grow(&mut self, source: S) -> Result<(), (Fault, S)>
    where
        S: Drop,
        ensures grows { Grows IsArchiveOf self.old.rows (S.seen source) (S.seen
            (source_left (λ _. self.new.source) result)) (without_source (λ _. self.new.rows) result) }
        ensures refused { OnErr result (self.new ≡ self.old) }
    {
        self.opened.grow(source, RowsAlone)
    }

    /// The record at a position, read again: its version, its fields and its block. It takes memory for twice the
    /// record's length. A read that fails, or a source that no longer gives what it gave at opening, is `Read`.
    pub fn record(&mut self, position: usize) -> Result<Framed<A>, TakeFault>
        ensures takes { GivesRecord self.old.rows position (S.seen self.old.source) (S.seen self.new.source)
            result }

        // The rows stay.
        ensures rows { self.new.rows ≡ self.old.rows }
    {
        take_record_at(&mut self.opened.source, &self.opened.rows, position)
    }

    /// The head of the record at a position, read again: its version, its fields, its length and its block's. No
    /// other byte is read. A read that fails, or a source that no longer gives what it gave at opening, is `Read`.
    pub fn head(&mut self, position: usize) -> Result<Head<A>, TakeFault>
        ensures takes { GivesHead self.old.rows position (S.seen self.old.source) (S.seen self.new.source) result }

        // The rows stay.
        ensures rows { self.new.rows ≡ self.old.rows }
    {
        take_head_at(&mut self.opened.source, &self.opened.rows, position)
    }

    /// How the block of the record at a position compares with the digest that its head asks for. The head is read
    /// again, and the block too if a digest of it can be checked; no other byte is. A read that fails, or a source that
    /// no longer gives what it gave at opening, is `Read`.
    pub fn verdict(&mut self, position: usize) -> Result<Verdict, TakeFault>
        ensures takes { GivesVerdict self.old.rows position (S.seen self.old.source) (S.seen self.new.source) result }

        // The rows stay.
        ensures rows { self.new.rows ≡ self.old.rows }
    {
        take_verdict_at(&mut self.opened.source, &self.opened.rows, position)
    }

    /// How the block of the record at a position compares with the digest that its head states, in any of five
    /// algorithms, in hexadecimal or base32. The head is read again, and the block too if a digest is stated; no other
    /// byte is. A read that fails, or a source that no longer gives what it gave at opening, is `Read`.
    pub fn stated_verdict(&mut self, position: usize) -> Result<Verdict, TakeFault>
        ensures takes { GivesStated self.old.rows position (S.seen self.old.source) (S.seen self.new.source) result }

        // The rows stay.
        ensures rows { self.new.rows ≡ self.old.rows }
    {
        take_stated_at(&mut self.opened.source, &self.opened.rows, position)
    }

    /// Writes a part of the record at a position, as the source has it, and answers its length. If there is no record,
    /// the answer is `NoRecord`, and nothing is written. The part isn't kept: it goes through a buffer of 8,192 bytes.
    ///
    /// A read that fails, or a source that no longer gives what it gave at opening, is `Read`; a write that fails is
    /// `Write`. Each says how many bytes went out, which are the first of the part.
    pub fn part_to<W: Sink>(
        &mut self,
        position: usize,
        part: Part,
        out: &mut W,
    ) -> Result<u64, ExtractFault>
        ensures gives { GivesPart part self.old.rows position (S.seen self.old.source) (S.seen self.new.source)
            (W.seen out.old) (W.seen out.new) result }

        // The rows stay.
        ensures rows { self.new.rows ≡ self.old.rows }
    {
        send_part(
            &mut self.opened.source,
            &self.opened.rows,
            position,
            part,
            out,
        )
    }

    /// Writes the head of the record at a position, from its version line to its empty line, byte for byte, as
    /// `part_to` does.
    pub fn head_to<W: Sink>(&mut self, position: usize, out: &mut W) -> Result<u64, ExtractFault>
        ensures gives { GivesPart Part.Head self.old.rows position (S.seen self.old.source)
            (S.seen self.new.source) (W.seen out.old) (W.seen out.new) result }

        // The rows stay.
        ensures rows { self.new.rows ≡ self.old.rows }
    {
        self.part_to(position, Part::Head, out)
    }

    /// Writes the block of the record at a position, byte for byte, as `part_to` does.
    pub fn block_to<W: Sink>(&mut self, position: usize, out: &mut W) -> Result<u64, ExtractFault>
        ensures gives { GivesPart Part.Block self.old.rows position (S.seen self.old.source)
            (S.seen self.new.source) (W.seen out.old) (W.seen out.new) result }

        // The rows stay.
        ensures rows { self.new.rows ≡ self.old.rows }
    {
        self.part_to(position, Part::Block, out)
    }

    /// Writes a line for each finding, by the position of its record, then by its number, then by the
    /// order of the field table, and answers how many there are: `0 N2 WARC-Target-URI`,
    /// `1 N6`, or `- N12` for an archive without records. First each head is read again, and each block
    /// whose digest can be checked. Then the lines are written.
    ///
    /// A read that fails, or a source that no longer gives what it gave at opening, is `Read`, and then nothing was
    /// written. A write that fails is `Write`, and a failed allocation `Memory`. Each says how many bytes went out,
    /// which are the first of the output.
    pub fn check<W: Sink>(&mut self, out: &mut W) -> Result<usize, OutFault>
        ensures checks { Checks self.old.rows (S.seen self.old.source) (S.seen self.new.source) (W.seen out.old)
            (W.seen out.new) result }

        // The rows stay.
        ensures rows { self.new.rows ≡ self.old.rows }
    {
        let alloc = self.opened.rows.allocator();
        check_rows(alloc, &mut self.opened.source, &self.opened.rows, out)
    }

    /// Writes the records anew in a form, in their order, and keeps no block: each head is read again, and each block
    /// is copied from the source.
    ///
    /// A read that fails, or a source that no longer gives what it gave at opening, is `Read`; a write that fails is
    /// `Write`, and a failed allocation `Memory`. Each says how many bytes went out, which are the first of the output.
    pub fn write_as<W: Sink>(&mut self, form: Form, out: &mut W) -> Result<(), OutFault>
        ensures writes { Writes form self.old.rows (S.seen self.old.source) (S.seen self.new.source)
            (W.seen out.old) (W.seen out.new) result }

        // The rows stay.
        ensures rows { self.new.rows ≡ self.old.rows }
    {
        write_each(
            &mut self.opened.source,
            &self.opened.rows,
            Replacement::As(form),
            out,
        )
    }

    /// Writes the records anew, in their order, each split into segments of `size` bytes, the last one shorter or
    /// equal. A record whose block has no more bytes, or which `warc_write::split` refuses for another reason than a
    /// failed allocation, is written whole, in canonical form. No block is kept: each piece is read three times, to
    /// judge its block, for its own digest, and to be copied.
    ///
    /// A read that fails, or a source that no longer gives what it gave at opening, is `Read`; a write that fails is
    /// `Write`, and a failed allocation `Memory`. Each says how many bytes went out, which are the first of the output,
    /// up to 2^64 - 1.
    pub fn split<W: Sink>(&mut self, size: u64, out: &mut W) -> Result<(), OutFault>
        ensures writes { WritesSplit size self.old.rows (S.seen self.old.source) (S.seen self.new.source)
            (W.seen out.old) (W.seen out.new) result }

        // The rows stay.
        ensures rows { self.new.rows ≡ self.old.rows }
    {
        write_each(
            &mut self.opened.source,
            &self.opened.rows,
            Replacement::Split(size),
            out,
        )
    }

    /// Writes the records at positions, byte for byte: the positions ascend, so that each record is written once, and
    /// in the archive's order. Without positions nothing is written. No record is kept: each goes through a buffer of
    /// 8,192 bytes.
    ///
    /// A read that fails, or a source that no longer gives what it gave at opening, is `Read`; a write that fails is
    /// `Write`. Each says how many bytes went out, which are the first of these records.
    pub fn select<W: Sink>(&mut self, positions: &[usize], out: &mut W) -> Result<(), OutFault>
        requires ascending { ArePositions (length self.old.rows) positions.now }
        ensures selects { Selects self.old.rows positions.now (S.seen self.old.source) (S.seen self.new.source)
            (W.seen out.old) (W.seen out.new) result }

        // The rows stay.
        ensures rows { self.new.rows ≡ self.old.rows }
    {
        select_rows(&mut self.opened.source, &self.opened.rows, positions, out)
    }

    /// How many bytes `select` writes of the records at positions.
    pub fn selected_len(&self, positions: &[usize]) -> u64
        requires ascending { ArePositions (length self.now.rows) positions.now }
        ensures { (bytes : List ℕ) → IsArchiveOf bytes self.now.rows →
            result ≡ length (selected_text self.now.rows positions.now bytes) }
    {
        selected_len(&self.opened.rows, positions)
    }

    /// The positions of all records but those at positions, in ascending order, as `select` takes them. `Err`: no
    /// memory for them.
    pub fn others(&self, positions: &[usize]) -> Result<Vec<usize, A>, AllocError>
        requires ascending { ArePositions (length self.now.rows) positions.now }
        ensures { IfOk result (λ others. AreOthers (length self.now.rows) positions.now others.items) }
    {
        let rows = &self.opened.rows;
        other_positions(rows.allocator(), rows.len(), positions)
    }
}

/// Opens the good front of a source: the listing of the longest list of good records that it begins with, and the fault
/// after these by which the whole is refused, if it is. After a failed read, or a failed allocation, these are the
/// whole records before it. Nothing is skipped, and nothing is mended.
pub fn open_front<S: Source, A: Allocator + Copy>(
    alloc: A,
    source: S,
) -> (Listing<S, A>, Option<Fault>)
    ensures { OpensFront (S.seen source) (S.seen result.0.source) result.0.rows result.1 }
{
    let mut source = source;
    let (answer, rows) = read_front(alloc, &mut source);
    let kept = RowsAlone;
    let listing = Listing {
        opened: Opened { source, rows, kept },
    };
    (listing, answer.err())
}
