//! Reads the good records of a source as a stream, and keeps a row of each, and what else is needed.
ghost use Rattle.std.specs.Prelude.{◌≡◌, ◌≢◌, ℕ, ◌+◌, ◌-◌, ◌<◌, ◌≤◌, ◌^◌, List, [], ◌∷◌, ◌++◌, length, min, take, Some, None, IfOk, IfErr, OnErr, OnOk, MatchResult, is_err, IfSome, true};
ghost use Rattle.warc_record.specs.Heads.{head_fault};
ghost use Rattle.warc_reading.specs.Archive.{IsArchiveOf};
ghost use Rattle.warc_reading.specs.Fronts.{AreFrontRows, IsLongestFront, reach_of};
ghost use Rattle.warc_reading.specs.Judging.{IsNextOf, IsNextPlain};
ghost use Rattle.warc_reading.specs.Growing.{Grows, grown};
ghost use Rattle.warc_reading.specs.Opening.{Opens};
ghost use Rattle.warc_reading.specs.Row.{Placed};
ghost use Rattle.warc_frame.specs.Decoding.{IsAt};
ghost use Rattle.warc_frame.specs.Device.{Gives};
ghost use Rattle.warc_frame.specs.Ranges.{IsReadAt};
ghost use Rattle.warc_frame.specs.Record.{max_archive};
ghost use Rattle.warc_frame.specs.Seen.{GoesOn, IfHeld, InOrder};
ghost use Rattle.warc_frame.specs.Reported.{Reported};
ghost use Rattle.warc_field.specs.Area.{Pair};
ghost use Rattle.warc_quick.specs.Quick.{IsQuickRecord};
ghost use Rattle.warc_reading.specs.Stream.{Extends, IsBetween, WantsSince, IsHead, IsKeptOf, IsLeft, Since, IsReadSoFar, StaysRefused, Stops, TakesFront, plain_row, row_by};
ghost use Rattle.warc_reading.specs.declared.stream.Current.{Current as Kept};

use crate::block::TakeBlock;
use crate::kept::{Keep, RowsAlone};
use crate::rows::{Row, Rows};
use crate::spare_fields::SpareFields;
use std::alloc::{AllocError, Allocator};
use warc_field::Fields;
use warc_frame::{Decoder, Event, Fault, FaultKind, MAX_ARCHIVE, ReadFault, Source};
use warc_quick::{QuickRecord, quick_record, record_with_findings};
use warc_record::{GoodHead, good_head_of};

/// The record that is being read: what its head says, where its block is, and what took the bytes of it so far.
#[derive(Drop)]
struct Current<A: Allocator, B> {
    head: GoodHead<A>,
    block_start: u64,
    block_len: u64,
    block: B,
}

/// What was read so far: a row of each record that ended and what else is kept of it, the offset at which the next
/// record begins, and that record, once its head is there.
#[derive(Drop)]
struct StreamState<A: Allocator, L, B> {
    rows: Rows<A>,
    beside: L,
    begin: u64,
    current: Option<Current<A, B>>,
    spare: SpareFields<A>,
}

impl<A: Allocator + Copy, B: TakeBlock, L: Keep<A, Block = B> + Drop> StreamState<A, L, B> {
    /// The records of these rows were read.
    fn following(rows: Rows<A>, beside: L) -> StreamState<A, L, B>
        ensures rows { result.rows ≡ rows }
        ensures beside { result.beside ≡ beside }
        ensures limit { result.begin ≤ max_archive }
        ensures begin { (bytes : List ℕ) → IsArchiveOf bytes rows → result.begin ≡ length bytes }
        ensures current { result.current ≡ None }
    {
        let begin = rows.end();
        StreamState {
            rows,
            beside,
            begin,
            current: None,
            spare: SpareFields::none(),
        }
    }

    /// Forgets all but the first `count` records.
    fn truncate(&mut self, count: usize)
        ensures rows { self.new.rows ≡ take count self.old.rows }
        ensures beside { (records : List Placed) → L.keeps self.old.beside records → L.keeps self.new.beside
            (take count records) }
    {
        self.rows.truncate(count);
        self.beside.truncate(count);
    }

    /// Reads a head, after which a block of `block_len` bytes begins at an offset.
    fn begin_block(
        &mut self,
        fields: Fields<A>,
        block_start: u64,
        block_len: u64,
    ) -> Result<(), FaultKind>
        ensures rows { self.new.rows ≡ self.old.rows }
        ensures beside { self.new.beside ≡ self.old.beside }
        ensures begin { self.new.begin ≡ self.old.begin }
        ensures current { OnOk result ((c : Kept A B) × (self.new.current ≡ Some c) × IsHead fields c
            × B.has_seen c.block fields []
            × (c.block_start ≡ block_start) × (c.block_len ≡ block_len)) }
        ensures fault { IfErr result (λ kind. head_fault fields ≡ Some kind) }
    {
        let head = good_head_of(fields)?;
        let block = B::begin(&head);
        self.current = Some(Current {
            head,
            block_start,
            block_len,
            block,
        });
        Ok(())
    }

    /// Takes the next bytes of the block.
    fn take_part(&mut self, part: &[u8])
        ensures rows { self.new.rows ≡ self.old.rows }
        ensures beside { self.new.beside ≡ self.old.beside }
        ensures begin { self.new.begin ≡ self.old.begin }
        ensures current { (c : Kept A B) → self.old.current ≡ Some c → (d : Kept A B) × (self.new.current ≡ Some d)
            × (d.head ≡ c.head) × (d.block_start ≡ c.block_start) × (d.block_len ≡ c.block_len)
            × ((fields : List Pair) (bytes : List ℕ) → B.has_seen c.block fields bytes
            → B.has_seen d.block fields (bytes ++ part.now)) }
    {
        if let Some(current) = &mut self.current {
            current.block.take_part(part);
        }
    }

    /// Keeps a row of the record that ends at an offset, and what else is needed of it.
    fn end_record(&mut self, alloc: A, end: u64) -> Result<(), AllocError>
        ensures begin { OnOk result (self.new.begin ≡ end) }
        ensures current { self.new.current ≡ None }
        ensures row { (c : Kept A B) → self.old.current ≡ Some c →
            OnOk result (self.new.rows ≡ self.old.rows ++ row_by self.old.begin c ∷ []) }
        ensures extends { Extends self.old.rows self.new.rows }
        ensures untouched { OnErr result (self.new.rows ≡ self.old.rows) }
        ensures beside { (c : Kept A B) (records : List Placed) (p : Placed) → self.old.current ≡ Some c →
            L.keeps self.old.beside records → length self.old.rows ≡ length records →
            IsNextOf p c.head c.block_start c.block_len → B.has_seen c.block c.head p.content.block →
            OnOk result (L.keeps self.new.beside (records ++ p ∷ [])) }
        ensures left { (records : List Placed) → L.keeps self.old.beside records →
            length self.old.rows ≡ length records → OnErr result (L.keeps self.new.beside records) }
    {
        if let Some(current) = self.current.take() {
            let Current {
                head,
                block_start,
                block_len,
                block,
            } = current;
            let texts = head.texts();
            let position = self.rows.len();
            self.rows.push(&Row {
                offset: self.begin,
                block_start,
                block_len,
                is_truncated: texts.is_truncated,
                kind: texts.kind,
                date: texts.date,
                id: texts.id,
                target: texts.target,
            })?;
            match self
                .beside
                .keep(alloc, position, &head, block_start, block_len, block)
            {
                Ok(()) => {}
                Err(refused) => {
                    // The row is taken back, which doesn't allocate.
                    self.rows.truncate(position);
                    return Err(refused);
                }
            }
            self.spare.keep(head.into_fields());
        }
        self.begin = end;
        Ok(())
    }

    /// Keeps a row of the record at an offset that was read in place, and what else is needed of it.
    fn keep_plain(
        &mut self,
        alloc: A,
        offset: u64,
        found: &QuickRecord<'_>,
        block_start: u64,
    ) -> Result<(), AllocError>
        requires taken { L.takes found.now.head ≡ true }
        requires next { (p : Placed) × IsNextPlain p found.now block_start }
        ensures begin { self.new.begin ≡ self.old.begin }
        ensures current { self.new.current ≡ self.old.current }
        ensures row { OnOk result (self.new.rows ≡ self.old.rows ++ plain_row offset block_start found.now.head ∷ []) }
        ensures untouched { OnErr result (self.new.rows ≡ self.old.rows) }
        ensures beside { (records : List Placed) (p : Placed) → L.keeps self.old.beside records →
            length self.old.rows ≡ length records → IsNextPlain p found.now block_start →
            OnOk result (L.keeps self.new.beside (records ++ p ∷ [])) }
        ensures left { (records : List Placed) → L.keeps self.old.beside records →
            length self.old.rows ≡ length records → OnErr result (L.keeps self.new.beside records) }
    {
        let texts = &found.head.texts;
        let position = self.rows.len();
        self.rows.push(&Row {
            offset,
            block_start,
            block_len: found.head.block_len,
            is_truncated: texts.is_truncated,
            kind: texts.kind,
            date: texts.date,
            id: texts.id,
            target: texts.target,
        })?;
        match self.beside.keep_plain(alloc, position, found, block_start) {
            Ok(()) => Ok(()),
            Err(refused) => {
                // The row is taken back, which doesn't allocate.
                self.rows.truncate(position);
                Err(refused)
            }
        }
    }
}

/// The record that a piece begins with, if it can be read in place: the decoder is between records, the head is
/// plain, and the record ends within the piece and within the limit of an archive. It is read with its findings if
/// heads are checked.
#[inline(always)]
fn plain_record<'a, A: Allocator + Copy>(
    decoder: &Decoder<A>,
    piece: &'a [u8],
    checks_heads: bool,
) -> Option<QuickRecord<'a>>
    ensures found { IfSome result (IsQuickRecord piece.now) }
    ensures between { IfSome result (λ _. IsBetween decoder.now) }
    ensures limit { IfSome result (λ found. decoder.now.position + found.len ≤ max_archive) }
{
    if decoder.finish().is_err() {
        return None;
    }
    let found = if checks_heads {
        record_with_findings(piece)?
    } else {
        quick_record(piece)?
    };
    if found.len as u64 > MAX_ARCHIVE - decoder.position() {
        return None;
    }
    Some(found)
}

/// Keeps a row of the record that a piece begins with, which was read in place, and returns how many bytes it has. The
/// decoder goes on after it.
fn take_plain<A: Allocator + Copy, L: Keep<A> + Drop>(
    alloc: A,
    decoder: &mut Decoder<A>,
    reading: &mut StreamState<A, L, L::Block>,
    found: &QuickRecord<'_>,
    piece: &[u8],
) -> Result<usize, Fault>
    requires taken { L.takes found.now.head ≡ true }
    requires found { IsQuickRecord piece.now found.now }
    requires between { IsBetween decoder.old }
    requires limit { decoder.old.position + found.now.len ≤ max_archive }
    ensures { TakesFront L.Block.has_seen L.keeps piece.now decoder.old reading.old decoder.new reading.new result }
{
    let begin = decoder.position();
    let end = begin + found.len as u64;
    let block_start = begin + found.head.len as u64;
    let kept = reading.keep_plain(alloc, begin, found, block_start);
    if kept.is_err() {
        return Err(FaultKind::Memory.at(reading.begin));
    }
    reading.begin = end;
    *decoder = Decoder::new(alloc, end);
    Ok(found.len)
}

/// Keeps what the decoder reports of the piece's beginning, and returns how many bytes that takes.
fn take_event<A: Allocator + Copy, L: Keep<A> + Drop>(
    alloc: A,
    decoder: &mut Decoder<A>,
    reading: &mut StreamState<A, L, L::Block>,
    piece: &[u8],
) -> Result<usize, Fault>
    requires { 0 < length piece.now }
    ensures { TakesFront L.Block.has_seen L.keeps piece.now decoder.old reading.old decoder.new reading.new result }
{
    let _begin = decoder.position();
    let (took, event) = decoder.step(piece)?;
    let position = decoder.position();
    let begin = reading.begin;
    let kept = match event {
        Event::More => Ok(()),
        Event::Head(_, fields, block_len) => { reading.begin_block(fields, position, block_len) }
        Event::Part(from, to) => {
            reading.take_part(&piece[from..to]);
            Ok(())
        }
        Event::End => match reading.end_record(alloc, position) {
            Ok(()) => Ok(()),
            Err(_) => Err(FaultKind::Memory),
        },
    };
    match kept {
        Ok(()) => Ok(took),
        Err(kind) => Err(kind.at(begin)),
    }
}

/// Keeps what `take_event` keeps, but reads a plain record that the piece begins with in place, if it is kept without
/// its fields.
fn take_front<A: Allocator + Copy, L: Keep<A> + Drop>(
    alloc: A,
    decoder: &mut Decoder<A>,
    reading: &mut StreamState<A, L, L::Block>,
    piece: &[u8],
) -> Result<usize, Fault>
    requires { 0 < length piece.now }
    ensures { TakesFront L.Block.has_seen L.keeps piece.now decoder.old reading.old decoder.new reading.new result }
{
    if let Some(found) = plain_record(decoder, piece, L::checks_heads()) {
        if L::takes(&found.head) {
            return take_plain(alloc, decoder, reading, &found, piece);
        }
    }
    reading.spare.hand_on(decoder);
    take_event(alloc, decoder, reading, piece)
}

/// Keeps what the decoder reports of a piece.
fn take_piece<A: Allocator + Copy, L: Keep<A> + Drop>(
    alloc: A,
    decoder: &mut Decoder<A>,
    reading: &mut StreamState<A, L, L::Block>,
    piece: &[u8],
) -> Result<(), Fault>
    ensures history { (was : List Placed) (text : List ℕ)
        → IsReadSoFar L.Block.has_seen (Since L.keeps was) text decoder.old reading.old
        → MatchResult result
        (λ _. IsReadSoFar L.Block.has_seen (Since L.keeps was) (text ++ piece.now) decoder.new reading.new)
        (StaysRefused (text ++ piece.now)) }
    ensures memory { (was : List Placed) (text : List ℕ)
        → IsReadSoFar L.Block.has_seen (Since L.keeps was) text decoder.old reading.old
        → IfErr result (WantsSince text piece.now reading.old.begin) }
    ensures left { (was : List Placed) (text : List ℕ)
        → IsReadSoFar L.Block.has_seen (Since L.keeps was) text decoder.old reading.old
        → OnErr result (IsLeft L.keeps was reading.new.beside) }
    ensures stops { (was : List Placed) (text : List ℕ)
        → IsReadSoFar L.Block.has_seen (Since L.keeps was) text decoder.old reading.old
        → IfErr result (Stops (text ++ piece.now) reading.new.rows) }
    ensures rows { Extends reading.old.rows reading.new.rows }
    ensures taken { (at : ℕ) (taken : List ℕ) (reported : Reported) → IsAt at taken reported decoder.old
        → MatchResult result (λ _. (now : Reported) × IsAt at (taken ++ piece.now) now decoder.new)
        (λ f. f.kind ≢ FaultKind.Read) }
{
    let mut from = 0;
    'taking: while from < piece.len() {
        from += take_front(alloc, decoder, reading, &piece[from..])?;
    }
    Ok(())
}

/// Reads at an offset, as the source does, and asks for no byte above offset 2^48.
fn read_near<S: Source>(source: &mut S, at: u64, buf: &mut [u8]) -> Result<usize, ReadFault>
    requires { at ≤ max_archive }
    ensures bound { IfOk result (λ n. n ≤ length buf.new) }
    ensures bytes { (bytes : List ℕ) → (S.seen source.old).holds ≡ Some bytes
        → IfOk result (Gives bytes at buf.new) }
    ensures read { IsReadAt at (min (max_archive + 1 - at) (length buf.old)) (is_err result) (S.seen source.old)
        (S.seen source.new) }
    ensures near { IfOk result (λ n. at + n ≤ max_archive + 1) }
    ensures order { GoesOn at result (S.seen source.old) (S.seen source.new) }
{
    let room = (MAX_ARCHIVE + 1 - at).min(buf.len() as u64) as usize;
    source.read_at(at, &mut buf[..room])
}

/// Reads a source through the buffer, from where the next record begins to its end.
fn read_through<S: Source, A: Allocator + Copy, L: Keep<A> + Drop>(
    alloc: A,
    source: &mut S,
    buf: &mut [u8],
    reading: &mut StreamState<A, L, L::Block>,
) -> Result<(), Fault>
    requires room { 0 < length buf.old }
    requires limit { reading.old.begin ≤ max_archive }
    requires begin { (bytes : List ℕ) → IsArchiveOf bytes reading.old.rows → reading.old.begin ≡ length bytes }
    requires current { reading.old.current ≡ None }
    ensures grows { Grows (IsKeptOf L.keeps) (reading.old.rows, reading.old.beside) (S.seen source.old)
        (S.seen source.new) (grown result (reading.new.rows, reading.new.beside)) }
    ensures rows { Extends reading.old.rows reading.new.rows }
    ensures left { (bytes : List ℕ) (is : IsKeptOf L.keeps bytes (reading.old.rows, reading.old.beside))
        → OnErr result (IsLeft L.keeps is.listed.are.records reading.new.beside) }
    ensures stops { (bytes more : List ℕ) → IsKeptOf L.keeps bytes (reading.old.rows, reading.old.beside) →
        (S.seen source.old).holds ≡ Some (bytes ++ more) → IfErr result (λ f. IsLongestFront (take (reach_of f)
        (bytes ++ more)) reading.new.rows) }
    ensures order { InOrder reading.old.begin (S.seen source.old) (S.seen source.new) }
{
    let mut decoder = Decoder::new(alloc, reading.begin);
    'reading: loop {
        let at = decoder.position();
        let n = match read_near(source, at, buf) {
            Ok(n) => n,
            Err(_) => return Err(FaultKind::Read.at(at)),
        };
        if n == 0 {
            break;
        }
        take_piece(alloc, &mut decoder, reading, &buf[..n])?;
    }
    decoder.finish()
}

/// Reads on in a source after the records that are kept, to its end: keeps a row of each good record there, and what
/// else is needed. Each read is at the offset where the bytes so far end. A refusal leaves what was kept.
pub fn read_on<S: Source, A: Allocator + Copy, L: Keep<A> + Drop>(
    alloc: A,
    source: &mut S,
    rows: Rows<A>,
    beside: L,
) -> (Result<(), Fault>, Rows<A>, L)
    ensures grows { Grows (IsKeptOf L.keeps) (rows, beside) (S.seen source.old) (S.seen source.new) (grown result.0
        (result.1, result.2)) }
    ensures rows { OnErr result.0 (result.1 ≡ rows) }
    ensures beside { (bytes : List ℕ) → IsKeptOf L.keeps bytes (rows, beside)
        → OnErr result.0 (IsKeptOf L.keeps bytes (result.1, result.2)) }
    ensures order { (bytes : List ℕ) → IsArchiveOf bytes rows
        → InOrder (length bytes) (S.seen source.old) (S.seen source.new) }
{
    let begin = rows.end();
    let Ok(mut buf) = vec![in alloc; 0u8; L::piece_len()] else {
        return (Err(FaultKind::Memory.at(begin)), rows, beside);
    };
    let count = rows.len();
    let mut reading = StreamState::following(rows, beside);
    match read_through(alloc, source, &mut buf, &mut reading) {
        Ok(()) => (Ok(()), reading.rows, reading.beside),
        Err(fault) => {
            reading.truncate(count);
            (Err(fault), reading.rows, reading.beside)
        }
    }
}

/// Reads a source from its beginning to its end: keeps a row of each good record before the first fault, or before what
/// couldn't be read. A refusal comes with these rows.
pub fn read_front<S: Source, A: Allocator + Copy>(
    alloc: A,
    source: &mut S,
) -> (Result<(), Fault>, Rows<A>)
    ensures opens { Opens IsArchiveOf (S.seen source.old) (S.seen source.new) (grown result.0 result.1) }
    ensures front { IfHeld (S.seen source.old).holds (λ bytes. AreFrontRows bytes result.0 result.1) }
    ensures order { InOrder 0 (S.seen source.old) (S.seen source.new) }
{
    let len = <RowsAlone as Keep<A>>::piece_len();
    let Ok(mut buf) = vec![in alloc; 0u8; len] else {
        return (Err(FaultKind::Memory.at(0)), Rows::new(alloc));
    };
    let mut reading = StreamState::following(Rows::new(alloc), RowsAlone);
    let answer = read_through(alloc, source, &mut buf, &mut reading);
    (answer, reading.rows)
}
