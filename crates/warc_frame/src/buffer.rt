//! A small buffer before a sink.
ghost use Rattle.std.specs.Prelude.{◌≡◌, ℕ, ◌+◌, ◌<◌, ◌≤◌, List, [], ◌∷◌, ◌++◌, length, map, Option, Result, OnOk, IfErr, is_err, if◌then◌else◌};
ghost use Rattle.std.specs.Io.KnownBytes.{append_known};
ghost use Rattle.std.specs.List.{concat};
ghost use Rattle.warc_frame.specs.Count.{raised, capped};
ghost use Rattle.warc_frame.specs.Effects.{Flushes, Puts};
ghost use Rattle.warc_frame.specs.Send.{count_sent, WentOut, IsStaged};

use crate::send::{SendFault, send_all};
use crate::sink::Sink;
use std::marker::Model;

/// How many bytes the buffer holds.
const SIZE: usize = 4096;

/// Bytes on their way to a sink, which each call is given: the bytes that wait here, and the number of
/// bytes that the sink took. That number stays at 2^64 - 1.
#[derive(Drop)]
pub struct OutBuffer {
    bytes: [u8; SIZE],
    len: usize,
    sent: u64,
}

impl Model for OutBuffer {
    ghost use Rattle.std.specs.Prelude.{◌≤◌, take};
    ghost use Rattle.warc_frame.specs.declared.buffer.TheConstants.{SIZE};
    ghost use Rattle.warc_frame.specs.Device.{Staged};

    ghost Value = { Staged };

    ghost view = { λ b. record { bytes = take b.len b.bytes; sent = b.sent } };

    ghost invariant = { λ b. b.len ≤ SIZE };
}

/// Writes the whole piece, and adds to the count of bytes that went out.
fn send_counted<W: Sink>(out: &mut W, piece: &[u8], sent: &mut u64) -> Result<(), SendFault>
    ensures out { (start : Option (List ℕ)) (gone : List ℕ) → (W.seen out.old).reports ≡ append_known start gone
        → sent.old ≡ capped (length gone)
        → OnOk result ((W.seen out.new).reports ≡ append_known start (gone ++ piece.now))
        × OnOk result (sent.new ≡ capped (length (gone ++ piece.now))) }
    ensures cut { (start : Option (List ℕ)) (gone : List ℕ) → (W.seen out.old).reports ≡ append_known start gone →
        sent.old ≡ capped (length gone) → IfErr result (λ e. WentOut start (gone ++ piece.now) (W.seen out.new).reports
        e.sent) }
    ensures number { IfErr result (λ e. sent.new ≡ e.sent) }
    ensures cause { (W.seen out.new).faults ≡ (if is_err result then raised (W.seen out.old).faults else
        (W.seen out.old).faults) }
{
    match send_all(out, piece) {
        Ok(()) => {
            *sent = sent.saturating_add(piece.len() as u64);
            Ok(())
        }
        Err(fault) => {
            *sent = sent.saturating_add(fault.sent);
            Err(SendFault { sent: *sent })
        }
    }
}

impl OutBuffer {
    ghost use Rattle.warc_frame.specs.Device.{Staged};

    /// An empty buffer, of whose output nothing went out.
    pub fn new() -> OutBuffer
        ensures empty { result ≡ record { bytes = []; sent = 0 } }
        ensures begins { (start : Option (List ℕ)) → IsStaged start [] start result }
    {
        OutBuffer {
            bytes: [0; SIZE],
            len: 0,
            sent: 0,
        }
    }

    /// How many bytes went out so far.
    pub fn sent(&self) -> u64
        ensures { result ≡ self.now.sent }
    {
        self.sent
    }

    /// Sends what waits in the buffer. After a failed write the buffer is empty.
    pub fn flush<W: Sink>(&mut self, out: &mut W) -> Result<(), SendFault>
        ensures { Flushes (W.seen out.old) (W.seen out.new) self.old self.new result }
    {
        let answer = send_counted(out, &self.bytes[..self.len], &mut self.sent);
        self.len = 0;
        answer
    }

    /// Copies a piece for which there is room after the bytes that wait.
    #[inline]
    fn append(&mut self, piece: &[u8])
        requires { length self.old.bytes + length piece.now ≤ SIZE }
        ensures { self.new ≡ record { bytes = self.old.bytes ++ piece.now; sent = self.old.sent } }
    {
        let end = self.len + piece.len();
        self.bytes[self.len..end].copy_from_slice(piece);
        self.len = end;
    }

    /// Writes a byte for which there is room after the bytes that wait.
    #[inline]
    fn append_byte(&mut self, byte: u8)
        requires { length self.old.bytes < SIZE }
        ensures { self.new ≡ record { bytes = self.old.bytes ++ byte ∷ []; sent = self.old.sent } }
    {
        self.bytes[self.len] = byte;
        self.len += 1;
    }

    /// Adds a piece for which there is no room: sends what waits before it, and also the piece if it is longer than
    /// the buffer.
    fn put_after<W: Sink>(&mut self, out: &mut W, piece: &[u8]) -> Result<(), SendFault>
        ensures { Puts (W.seen out.old) (W.seen out.new) self.old self.new result piece.now }
    {
        self.flush(out)?;
        if piece.len() > SIZE {
            return send_counted(out, piece, &mut self.sent);
        }
        self.append(piece);
        Ok(())
    }

    /// Adds a piece to the output. One that is longer than the buffer goes through without being
    /// copied. After a failed write the buffer is empty.
    #[inline]
    pub fn put<W: Sink>(&mut self, out: &mut W, piece: &[u8]) -> Result<(), SendFault>
        ensures { Puts (W.seen out.old) (W.seen out.new) self.old self.new result piece.now }
    {
        if piece.len() > SIZE - self.len {
            return self.put_after(out, piece);
        }
        self.append(piece);
        Ok(())
    }

    /// Adds a piece to the output, and a byte after it, with one look for room if there is enough for both. After a
    /// failed write the buffer is empty.
    #[inline]
    fn put_ended<W: Sink>(&mut self, out: &mut W, piece: &[u8], end: u8) -> Result<(), SendFault>
        ensures { Puts (W.seen out.old) (W.seen out.new) self.old self.new result (piece.now ++ end ∷ []) }
    {
        if piece.len() < SIZE - self.len {
            self.append(piece);
            self.append_byte(end);
            return Ok(());
        }
        self.put(out, piece)?;
        self.put(out, &[end])
    }
}

/// Adds the columns to the output, each with the byte that ends it. After a failed write the buffer is empty.
pub fn put_columns<W: Sink>(
    columns: &[(&[u8], u8)],
    buffer: &mut OutBuffer,
    out: &mut W,
) -> Result<(), SendFault>
    ensures { Puts (W.seen out.old) (W.seen out.new) buffer.old buffer.new result
        (concat (map (λ c. c.0.now ++ c.1 ∷ []) columns.now)) }
{
    'putting: for column in columns {
        buffer.put_ended(out, column.0, column.1)?;
    }
    Ok(())
}

/// Adds the pieces to the output, one after another. After a failed write the buffer is empty.
pub fn put_all<W: Sink>(
    pieces: &[&[u8]],
    buffer: &mut OutBuffer,
    out: &mut W,
) -> Result<(), SendFault>
    ensures { Puts (W.seen out.old) (W.seen out.new) buffer.old buffer.new result
        (concat (map (λ p. p.now) pieces.now)) }
{
    'putting: for piece in pieces {
        buffer.put(out, piece)?;
    }
    Ok(())
}
