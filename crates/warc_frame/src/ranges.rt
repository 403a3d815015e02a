//! Parts of what a source holds.
ghost use Rattle.std.specs.Prelude.{◌≡◌, ◌+◌, ◌^◌, ◌<◌, ◌≤◌, length, min, take, drop, IfErr, OnOk};
ghost use Rattle.warc_frame.specs.Effects.{Emits, FailsBy, IsOfDevice, IsRange, ReadsRange, read_result};
ghost use Rattle.warc_frame.specs.Seen.{IfHeld};

use crate::buffer::OutBuffer;
use crate::fault::OutFault;
use crate::laws::{staged_went_out, went_out_of_longer};
use crate::sink::Sink;
use crate::source::{ReadFault, Source};

/// The length of the pieces in which a part of a source is copied.
pub const PIECE: usize = 8_192;

/// Fills the buffer with the bytes at an offset. It fails if a read does, and if the source
/// ends too early.
pub fn read_range<S: Source>(source: &mut S, at: u64, buf: &mut [u8]) -> Result<(), ReadFault>
    requires { at + length buf.old < 2 ^ 64 }
    ensures bytes { IfHeld (S.seen source.old).holds (λ bytes.
        OnOk result (buf.new ≡ take (length buf.old) (drop at bytes))) }
    ensures reads { ReadsRange at (length buf.old) (S.seen source.old) (S.seen source.new) }
    ensures fails { FailsBy (λ bytes. at + length buf.old ≤ length bytes) (read_result result) (S.seen source.old)
        (S.seen source.new) }
{
    let mut filled = 0;
    'filling: while filled < buf.len() {
        match source.read_at(at + filled as u64, &mut buf[filled..]) {
            Ok(n) if n > 0 => filled += n,
            _ => return Err(ReadFault),
        }
    }
    Ok(())
}

/// How many bytes the next read asks for: as many as are left, up to the room for them.
fn next_len(left: u64, room: usize) -> usize
    ensures least { result ≡ min left room }
    ensures left { result ≤ left }
    ensures room { result ≤ room }
    ensures some { 0 < left → 0 < room → 0 < result }
{
    if left < room as u64 {
        left as usize
    } else {
        room
    }
}

/// Adds `len` bytes at an offset of the source to the output, in pieces as long as `scratch` at most. It fails if a
/// read or a write does, if the source ends too early, and if the range doesn't end before offset 2^64.
pub fn put_range<S: Source, W: Sink>(
    source: &mut S,
    at: u64,
    len: u64,
    scratch: &mut [u8],
    buffer: &mut OutBuffer,
    out: &mut W,
) -> Result<(), OutFault>
    requires { 0 < length scratch.old }
    ensures emits { Emits (IsRange at len) (S.seen source.old) (S.seen source.new) (W.seen out.old) (W.seen out.new)
        buffer.old buffer.new result }
    ensures device { IfErr result IsOfDevice }
    ensures reads { ReadsRange at len (S.seen source.old) (S.seen source.new) }
{
    staged_went_out();
    went_out_of_longer();
    if len > u64::MAX - at {
        return Err(OutFault::Read(buffer.sent()));
    }
    let mut done = 0u64;
    'copying: while done < len {
        let want = next_len(len - done, scratch.len());
        let piece = &mut scratch[..want];
        let n = match source.read_at(at + done, piece) {
            Ok(n) if n > 0 => n,
            _ => return Err(OutFault::Read(buffer.sent())),
        };
        if let Err(fault) = buffer.put(out, &piece[..n]) {
            return Err(OutFault::Write(fault.sent));
        }
        done += n as u64;
    }
    Ok(())
}
