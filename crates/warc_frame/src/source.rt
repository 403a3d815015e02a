//! Where bytes come from.
ghost use Rattle.std.specs.Prelude.{◌≡◌, ◌-◌, ◌<◌, ◌≤◌, length, min, Some, Ok, IfOk, is_err};
ghost use Rattle.warc_frame.specs.Device.{Gives};
ghost use Rattle.warc_frame.specs.Ranges.{IsReadAt};
ghost use Rattle.warc_frame.specs.Seen.{GoesOn, IfHeld, SeenSource};
ghost use Rattle.warc_frame.specs.States.{lent_state, opened_state, stored_state};

use crate::count::raise;
use std::alloc::{Allocator, Global};
use std::fmt;
use std::io::{Read, Seek, SeekFrom};
use std::marker::Model;
use thiserror::Error;

/// A read failed.
#[derive(Clone, Copy, PartialEq, Eq, Debug, Error)]
pub struct ReadFault;

impl fmt::Display for ReadFault {
    ghost use Rattle.std.specs.Prelude.{codes};

    ghost output = { λ _. Some (codes "read failed") };

    fn fmt<W: fmt::Write>(&self, f: &mut fmt::Formatter<W>) -> fmt::Result {
        write!(f, "read failed")
    }
}

/// Bytes that are read at any offset, in pieces as long as the source likes.
pub trait Source {
    /// What contracts see of it: the bytes that it holds, where they are known, how often it has failed and was read,
    /// the offset of the last read, the offsets that it watches, whatever they are, and how many reads asked for a byte
    /// at one of those. A count stays at 2^64 - 1. A read asks for as many bytes as its buffer has. So a call that
    /// leaves the count of these reads as it was, whatever a source watches outside some offsets, asks for the bytes at
    /// those alone. A source that gives its bytes in order also has the offset of its next byte, and a count of the
    /// reads that asked elsewhere: a call that leaves this count as it was reads in order.
    ghost seen: { Self → SeenSource };

    /// Reads bytes at the offset into the beginning of the buffer, and returns how many.
    fn read_at(&mut self, at: u64, buf: &mut [u8]) -> Result<usize, ReadFault>
        ensures bound { IfOk result (λ n. n ≤ length buf.new) }
        ensures bytes { IfHeld (seen self.old).holds (λ bytes. IfOk result (Gives bytes at buf.new)) }
        ensures read { IsReadAt at (length buf.old) (is_err result) (seen self.old) (seen self.new) }
        ensures order { GoesOn at result (seen self.old) (seen self.new) };
}

/// Copies the bytes from an offset on into the beginning of the buffer, at most `most` and as many as it has room for,
/// and returns how many.
fn copy_from(bytes: &[u8], at: u64, buf: &mut [u8], most: usize) -> usize
    ensures count { result ≡ min (length bytes.now - at) (min most (length buf.old)) }
    ensures gives { (0 < length buf.old → 0 < most) → Gives bytes.now at buf.new result }
{
    let len = bytes.len();
    if at >= len as u64 {
        return 0;
    }
    let from = at as usize;
    let n = (len - from).min(most.min(buf.len()));
    buf[..n].copy_from_slice(&bytes[from..from + n]);
    n
}

/// Bytes in memory, of which each read gives at most `most`.
#[derive(Drop)]
pub struct MemSource<A: Allocator = Global> {
    bytes: Vec<u8, A>,
    most: usize,
    reads: u64,
    asked: u64,
}

impl<A: Allocator> Model for MemSource<A> {
    ghost use Rattle.std.specs.Prelude.{◌<◌};
    ghost use Rattle.warc_frame.specs.Device.{Stored};

    ghost Value = { Stored };

    ghost view = { λ s. record { bytes = s.bytes.items; most = s.most; reads = s.reads; asked = s.asked } };

    ghost invariant = { λ s. 0 < s.most };
}

impl<A: Allocator> MemSource<A> {
    /// A source of these bytes, which nobody has read.
    pub fn new(bytes: Vec<u8, A>, most: usize) -> MemSource<A>
        requires { 0 < most }
        ensures bytes { result.bytes ≡ bytes.items }
        ensures most { result.most ≡ most }
        ensures unread { result.reads ≡ 0 }
        ensures unasked { result.asked ≡ 0 }
    {
        MemSource {
            bytes,
            most,
            reads: 0,
            asked: 0,
        }
    }

    /// Returns the bytes.
    pub fn into_inner(self) -> Vec<u8, A>
        ensures { result.items ≡ self.bytes }
    {
        self.bytes
    }
}

impl<A: Allocator> Source for MemSource<A> {
    ghost seen = { stored_state };

    /// It never fails, and gives as many bytes as there are, up to `most` and the buffer's length.
    fn read_at(&mut self, at: u64, buf: &mut [u8]) -> Result<usize, ReadFault>
        ensures bound { IfOk result (λ n. n ≤ length buf.new) }
        ensures bytes { IfHeld (stored_state self.old).holds (λ bytes. IfOk result (Gives bytes at buf.new)) }
        ensures read { IsReadAt at (length buf.old) (is_err result) (stored_state self.old) (stored_state self.new) }
        ensures given { result ≡ Ok (min (length self.old.bytes - at) (min self.old.most (length buf.old))) }
        ensures most { self.new.most ≡ self.old.most }
    {
        self.reads = raise(self.reads);
        self.asked = at;
        Ok(copy_from(&self.bytes, at, buf, self.most))
    }
}

/// Bytes that are lent, such as those of a mapped file. A read gives as many of them as the buffer has room for.
#[derive(Drop)]
pub struct SliceSource<'a> {
    bytes: &'a [u8],
    reads: u64,
    asked: u64,
}

impl<'a> Model for SliceSource<'a> {
    ghost use Rattle.warc_frame.specs.Device.{Lent};

    ghost Value = { Lent };

    ghost view = { λ s. record { bytes = s.bytes.now; reads = s.reads; asked = s.asked } };
}

impl<'a> SliceSource<'a> {
    /// A source of these bytes, which nobody has read.
    pub fn new(bytes: &'a [u8]) -> SliceSource<'a>
        ensures bytes { result.bytes ≡ bytes.now }
        ensures unread { result.reads ≡ 0 }
        ensures unasked { result.asked ≡ 0 }
    {
        SliceSource {
            bytes,
            reads: 0,
            asked: 0,
        }
    }

    /// The bytes.
    pub fn bytes(&self) -> &'a [u8]
        ensures { result.now ≡ self.now.bytes }
    {
        self.bytes
    }
}

impl<'a> Source for SliceSource<'a> {
    ghost seen = { lent_state };

    /// It never fails, and gives as many bytes as there are, up to the buffer's length.
    fn read_at(&mut self, at: u64, buf: &mut [u8]) -> Result<usize, ReadFault>
        ensures bound { IfOk result (λ n. n ≤ length buf.new) }
        ensures bytes { IfHeld (lent_state self.old).holds (λ bytes. IfOk result (Gives bytes at buf.new)) }
        ensures read { IsReadAt at (length buf.old) (is_err result) (lent_state self.old) (lent_state self.new) }
        ensures given { result ≡ Ok (min (length self.old.bytes - at) (length buf.old)) }
    {
        self.reads = raise(self.reads);
        self.asked = at;
        let room = buf.len();
        Ok(copy_from(self.bytes, at, buf, room))
    }
}

/// A file, read at any offset. Nothing is known of its bytes.
#[derive(Drop)]
pub struct FileSource<F> {
    file: F,
    reads: u64,
    asked: u64,
    faults: u64,
}

impl<F> Model for FileSource<F> {
    ghost use Rattle.warc_frame.specs.Device.{Opened};

    ghost Value = { Opened F };

    ghost view = { λ s. record { file = s.file; reads = s.reads; faults = s.faults; asked = s.asked } };
}

impl<F: Read + Seek> FileSource<F> {
    /// A source over this file, which nobody has read by it.
    pub fn new(file: F) -> FileSource<F>
        ensures file { result.file ≡ file }
        ensures unread { result.reads ≡ 0 }
        ensures unasked { result.asked ≡ 0 }
        ensures sound { result.faults ≡ 0 }
    {
        FileSource {
            file,
            reads: 0,
            asked: 0,
            faults: 0,
        }
    }

    /// Returns the file, at the position where the last read left it.
    pub fn into_inner(self) -> F
        ensures { result ≡ self.file }
    {
        self.file
    }
}

/// Reads at an offset of the file. Any error of the seek or the read is a failure.
fn seek_and_read<F: Read + Seek>(file: &mut F, at: u64, buf: &mut [u8]) -> Result<usize, ReadFault>
    ensures { IfOk result (λ n. n ≤ length buf.new) }
{
    match file.seek(SeekFrom::Start(at)) {
        Ok(_) => {}
        Err(_) => return Err(ReadFault),
    }
    match file.read(buf) {
        Ok(n) => Ok(n),
        Err(_) => Err(ReadFault),
    }
}

impl<F: Read + Seek> Source for FileSource<F> {
    ghost seen = { opened_state };

    /// Any error of the seek or the read is a failure, and nothing is tried again.
    fn read_at(&mut self, at: u64, buf: &mut [u8]) -> Result<usize, ReadFault> {
        self.reads = raise(self.reads);
        self.asked = at;
        let answer = seek_and_read(&mut self.file, at, buf);
        if answer.is_err() {
            self.faults = raise(self.faults);
        }
        answer
    }
}
