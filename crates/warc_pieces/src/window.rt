//! A window onto a source: the bytes of it that are kept while its pieces are found.
ghost use Rattle.std.specs.Prelude.{◌≡◌, ◌+◌, ◌-◌, ◌<◌, ◌≤◌, true, false, [], drop, take, length, slice_range, is_err, IfErr, IfOk, OnOk};
ghost use Rattle.warc_frame.specs.Device.{Gives};
ghost use Rattle.warc_frame.specs.Record.{max_archive, max_head};
ghost use Rattle.warc_frame.specs.Seen.{IfHeld};
ghost use Rattle.warc_frame.specs.declared.fault.FaultKind.TheVariants.{Read};
ghost use Rattle.warc_pieces.specs.Pieces.{near};
ghost use Rattle.warc_pieces.specs.Window.{ReadsBy, Shows, reached};
ghost use Rattle.warc_pieces.specs.Reads.{IsNoFurther, ReadsNear, from_on, goes_on_by, reads_beside};

use std::alloc::{AllocError, Allocator};
use std::marker::Model;
use warc_frame::{Fault, FaultKind, MAX_ARCHIVE, MAX_HEAD, ReadFault, Source};

/// How many bytes a window may show.
const WINDOW_LEN: usize = 4 * MAX_HEAD;

/// A part of the bytes.
#[inline(always)]
fn part(bytes: &[u8], start: usize, end: usize) -> &[u8]
    requires order { start ≤ end }
    requires end { end ≤ length bytes.now }
    ensures { result.now ≡ slice_range bytes.now start end }
{
    &bytes[start..end]
}

/// The bytes after the first `count`.
#[inline(always)]
pub(crate) fn after(bytes: &[u8], count: u64) -> &[u8]
    ensures { result.now ≡ drop count bytes.now }
{
    if count > bytes.len() as u64 {
        return &[];
    }
    &bytes[count as usize..]
}

/// Makes room after a part of the buffer: moves it to the front, if there is less room than a head may need. Returns
/// where it begins.
fn make_room(buf: &mut [u8], start: usize, end: usize) -> usize
    requires order { start ≤ end }
    requires within { end ≤ length buf.old }
    requires short { end - start < length buf.old }
    ensures same { slice_range buf.new result (result + (end - start)) ≡ slice_range buf.old start end }
    ensures len { length buf.new ≡ length buf.old }
    ensures room { result + (end - start) < length buf.old }
{
    if buf.len() - end >= MAX_HEAD {
        return start;
    }
    buf.copy_within(start..end, 0);
    0
}

/// Reads at an offset before 2^48, as the source does, and asks for no byte from there on.
pub(crate) fn read_near<S: Source>(
    source: &mut S,
    at: u64,
    buf: &mut [u8],
) -> Result<usize, ReadFault>
    requires limit { at < max_archive }
    ensures bound { IfOk result (λ n. n ≤ length buf.new) }
    ensures len { length buf.new ≡ length buf.old }
    ensures limit { IfOk result (λ n. at + n ≤ max_archive) }
    ensures bytes { IfHeld (S.seen source.old).holds (λ bytes. IfOk result (Gives (near bytes) at buf.new)) }
    ensures asked { (S.seen source.new).asked ≡ at }
    ensures read { ReadsNear 1 (is_err result) (S.seen source.old) (S.seen source.new) }
{
    let room = (MAX_ARCHIVE - at).min(buf.len() as u64) as usize;
    source.read_at(at, &mut buf[..room])
}

/// Reads so into the buffer from a place on.
fn read_after<S: Source>(
    source: &mut S,
    at: u64,
    buf: &mut [u8],
    place: usize,
) -> Result<usize, ReadFault>
    requires limit { at < max_archive }
    requires room { place < length buf.old }
    ensures before { take place buf.new ≡ take place buf.old }
    ensures len { length buf.new ≡ length buf.old }
    ensures bound { IfOk result (λ n. place + n ≤ length buf.old) }
    ensures limit { IfOk result (λ n. at + n ≤ max_archive) }
    ensures bytes { IfHeld (S.seen source.old).holds
        (λ bytes. IfOk result (Gives (near bytes) at (drop place buf.new))) }
    ensures asked { (S.seen source.new).asked ≡ at }
    ensures read { ReadsNear 1 (is_err result) (S.seen source.old) (S.seen source.new) }
{
    read_near(source, at, &mut buf[place..])
}

/// A window onto a source. It shows the bytes from `start` to `end` of its buffer.
#[derive(Drop)]
pub(crate) struct Window<A: Allocator> {
    buf: Vec<u8, A>,
    start: usize,
    end: usize,
    /// The offset of the first byte that it shows.
    begin: u64,
    is_last: bool,
}

impl<A: Allocator> Model for Window<A> {
    ghost use Rattle.std.specs.Prelude.{slice_range};
    ghost use Rattle.warc_pieces.specs.Window.{Shown};
    ghost use Rattle.warc_pieces.specs.Reads.{IsWindow};

    ghost Value = { Shown };

    ghost view = { λ w. record {
      bytes = slice_range w.buf.items w.start w.end;
      begin = w.begin;
      is_last = w.is_last;
    } };

    ghost invariant = { λ w. IsWindow w.buf.items w.start w.end w.begin };
}

impl<A: Allocator> Window<A> {
    /// It shows nothing, at the beginning.
    pub(crate) fn new(alloc: A) -> Result<Window<A>, AllocError>
        ensures { IfOk result (λ w. w ≡ record { bytes = []; begin = 0; is_last = false }) }
    {
        let buf = vec![in alloc; 0u8; WINDOW_LEN]?;
        Ok(Window {
            buf,
            start: 0,
            end: 0,
            begin: 0,
            is_last: false,
        })
    }

    /// The bytes that it shows from an offset on.
    #[inline(always)]
    pub(crate) fn shown(&self, at: u64) -> &[u8]
        requires { self.now.begin ≤ at }
        ensures shown { result.now ≡ drop (at - self.now.begin) self.now.bytes }
        ensures limit { at ≤ max_archive → at + length result.now ≤ max_archive }
    {
        let bytes = part(self.buf.as_slice(), self.start, self.end);
        after(bytes, at - self.begin)
    }

    /// Whether the source ends with what it shows.
    #[inline(always)]
    pub(crate) fn is_last(&self) -> bool
        ensures { result ≡ self.now.is_last }
    {
        self.is_last
    }

    /// The offset after the bytes that it shows, at most 2^48.
    #[inline(always)]
    pub(crate) fn reached(&self) -> u64
        ensures is { result ≡ reached self.now }
        ensures limit { result ≤ max_archive }
    {
        self.begin + (self.end - self.start) as u64
    }

    /// Drops the bytes before an offset. If it doesn't show so far, it goes on there.
    fn go_to(&mut self, at: u64)
        requires limit { at ≤ max_archive }
        requires begin { self.old.begin ≤ at }
        ensures { self.new ≡ from_on at self.old }
    {
        let skip = at - self.begin;
        if skip <= (self.end - self.start) as u64 {
            self.start += skip as usize;
        } else {
            self.start = self.end;
            self.is_last = false;
        }
        self.begin = at;
    }

    /// Reads once after the bytes that it shows, and shows what is read too.
    fn go_on<S: Source>(&mut self, source: &mut S) -> Result<bool, Fault>
        requires room { length self.old.bytes ≤ max_head }
        requires open { self.old.is_last ≡ false }
        ensures shows { IfHeld (S.seen source.old).holds (λ bytes. Shows bytes self.old → Shows bytes self.new) }
        ensures begin { self.new.begin ≡ self.old.begin }
        ensures far { reached self.old ≤ reached self.new }
        ensures limit { reached self.new ≤ max_archive }
        ensures goes_on { IfOk result (goes_on_by self.old self.new (reached self.old)) }
        ensures fault { IfErr result (λ f. (f.kind ≡ Read) × (f.offset ≡ reached self.new)
            × IsNoFurther self.old self.new (reached self.old)) }
        ensures asked { IfErr result (λ f. f.offset ≡ (S.seen source.new).asked) }
        ensures reads { ReadsBy (reads_beside result) result self.old self.new (S.seen source.old)
            (S.seen source.new) }
    {
        let len = self.end - self.start;
        let at = self.begin + len as u64;
        if at >= MAX_ARCHIVE {
            self.is_last = true;
            return Ok(false);
        }
        self.start = make_room(self.buf.as_mut_slice(), self.start, self.end);
        self.end = self.start + len;
        match read_after(source, at, self.buf.as_mut_slice(), self.end) {
            Ok(0) => {
                self.is_last = true;
                Ok(false)
            }
            Ok(n) => {
                self.end += n;
                Ok(true)
            }
            Err(_) => Err(FaultKind::Read.at(at)),
        }
    }

    /// Reads once after the bytes that it shows, and shows what is read too. Those before an offset it drops; if it
    /// doesn't show so far, it goes on there. False: the source ends with what it shows, or nothing may be read from
    /// there on. A failed read is reported at the offset that was reached.
    pub(crate) fn more<S: Source>(&mut self, source: &mut S, at: u64) -> Result<bool, Fault>
        requires limit { at ≤ max_archive }
        requires begin { self.old.begin ≤ at }
        requires room { reached self.old ≤ at + max_head }
        ensures shows { IfHeld (S.seen source.old).holds (λ bytes. Shows bytes self.old → at ≤ length (near bytes) →
            Shows bytes self.new) }
        ensures begin { self.new.begin ≡ at }
        ensures far { (at ≤ reached self.new) × (reached self.old ≤ reached self.new) }
        ensures limit { reached self.new ≤ max_archive }
        ensures goes_on { IfOk result (goes_on_by self.old self.new at) }
        ensures fault { IfErr result (λ f. (f.kind ≡ Read) × (f.offset ≡ reached self.new)
            × IsNoFurther self.old self.new at) }
        ensures asked { IfErr result (λ f. f.offset ≡ (S.seen source.new).asked) }
        ensures reads { ReadsBy (reads_beside result) result self.old self.new (S.seen source.old)
            (S.seen source.new) }
    {
        self.go_to(at);
        let _reached = self.reached();
        if self.is_last() {
            return Ok(false);
        }
        self.go_on(source)
    }

    /// Reads through all bytes before an offset, each once. A failed read is reported at the offset that was reached,
    /// and so is the end of a source that ends before: F11.
    pub(crate) fn pass_over<S: Source>(&mut self, source: &mut S, to: u64) -> Result<(), Fault>
        requires limit { to ≤ max_archive }
        requires begin { self.old.begin ≤ to }
        ensures shows { IfHeld (S.seen source.old).holds (λ bytes. Shows bytes self.old → Shows bytes self.new) }
        ensures begin { self.new.begin ≤ to }
        ensures further { reached self.old ≤ reached self.new }
        ensures far { OnOk result (to ≤ reached self.new) }
        ensures fault { IfErr result (λ f. (f.offset ≡ reached self.new) × (f.offset < to)) }
        ensures asked { IfErr result (λ f. f.kind ≡ Read → f.offset ≡ (S.seen source.new).asked) }
        ensures whole { IfHeld (S.seen source.old).holds (λ bytes. Shows bytes self.old → to ≤ length (near bytes) →
            IfErr result (λ f. f.kind ≡ Read)) }
        ensures reads { ReadsBy 1 result self.old self.new (S.seen source.old) (S.seen source.new) }
    {
        'passing: while self.reached() < to {
            let at = self.reached();
            if !self.more(source, at)? {
                return Err(FaultKind::Truncated.at(self.reached()));
            }
        }
        Ok(())
    }
}
