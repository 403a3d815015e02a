//! Writes a whole piece to a sink.
ghost use Rattle.std.specs.Prelude.{◌≡◌, ◌<◌, take, length, IfErr, is_err, if◌then◌else◌};
ghost use Rattle.std.specs.Io.KnownBytes.{append_known};
ghost use Rattle.warc_frame.specs.Count.{raised};
ghost use Rattle.warc_frame.specs.Send.{count_sent};

use crate::sink::Sink;
use thiserror::Error;

/// A write failed after this many bytes.
#[derive(Clone, Copy, PartialEq, Eq, Debug, Error)]
pub struct SendFault {
    pub sent: u64,
}

impl std::fmt::Display for SendFault {
    ghost use Rattle.std.specs.Prelude.{Some};
    ghost use Rattle.warc_frame.specs.FaultText.{send_fault_text};

    ghost output = { λ fault. Some (send_fault_text fault) };

    fn fmt<W: std::fmt::Write>(&self, f: &mut std::fmt::Formatter<W>) -> std::fmt::Result {
        write!(f, "write failed after {}", self.sent)
    }
}

/// Writes the whole piece, by single writes, so that the count in a fault is exact.
pub fn send_all<W: Sink>(out: &mut W, piece: &[u8]) -> Result<(), SendFault>
    ensures bytes { (W.seen out.new).reports ≡ append_known (W.seen out.old).reports (take (count_sent result piece.now)
        piece.now) }
    ensures bound { IfErr result (λ e. e.sent < length piece.now) }
    ensures cause { (W.seen out.new).faults ≡ (if is_err result then raised (W.seen out.old).faults else
        (W.seen out.old).faults) }
{
    let mut sent = 0;
    'writing: while sent < piece.len() {
        match out.write(&piece[sent..]) {
            Ok(n) if n > 0 => sent += n,
            _ => return Err(SendFault { sent: sent as u64 }),
        }
    }
    Ok(())
}
