//! A run of good records.
ghost use Rattle.std.specs.Prelude.{◌≡◌, ◌≢◌, ◌+◌, ◌*◌, ◌<◌, ◌≤◌, None, Some, IfErr, IfOk, IfSome, length};
ghost use Rattle.warc_frame.specs.Record.{max_archive};
ghost use Rattle.warc_frame.specs.Seen.{IfHeld};
ghost use Rattle.warc_frame.specs.declared.fault.Fault.{Fault as FaultOf};
ghost use Rattle.warc_frame.specs.declared.fault.FaultKind.TheVariants.{Read, Truncated};
ghost use Rattle.warc_pieces.specs.Judging.{FindsRecord};
ghost use Rattle.warc_pieces.specs.Pieces.{near};
ghost use Rattle.warc_pieces.specs.Run.{IsRead, answer_of};
ghost use Rattle.warc_pieces.specs.Window.{ReadsBy, Shows, own_reads};

use crate::record::record_len;
use crate::window::Window;
use std::alloc::Allocator;
use warc_frame::{Fault, FaultKind, Source};

/// Good records that follow one another, and what ends them: a fault, or the end of the bytes.
#[derive(Drop)]
pub(crate) struct Run {
    /// How many records they are.
    pub(crate) count: u64,
    /// How many bytes they are.
    pub(crate) len: u64,
    /// The fault at which they end: that of what follows them, or why no more was read. None: the bytes end with them.
    pub(crate) end: Option<Fault>,
}

/// The length of the good record at an offset, whose bytes are all read, or why none was read there.
fn read_one<S: Source, A: Allocator + Copy>(
    alloc: A,
    source: &mut S,
    window: &mut Window<A>,
    at: u64,
) -> Result<u64, Fault>
    requires limit { at ≤ max_archive }
    requires begin { window.old.begin ≤ at }
    ensures judges { IfHeld (S.seen source.old).holds (λ bytes. Shows bytes window.old → at ≤ length (near bytes) →
        Shows bytes window.new × FindsRecord at bytes result) }
    ensures begin { IfOk result (λ len. window.new.begin ≤ at + len) }
    ensures stays { IfErr result (λ f. f.kind ≢ Read → window.new.begin ≤ at) }
    ensures some { IfOk result (λ len. 0 < len) }
    ensures far { IfOk result (λ len. at + len ≤ max_archive) }
    ensures asked { IfErr result (λ f. f.kind ≡ Read → f.offset ≡ (S.seen source.new).asked) }
    ensures reads { ReadsBy (own_reads + 1) result window.old window.new (S.seen source.old) (S.seen source.new) }
{
    let len = record_len(alloc, source, window, at)?;
    match window.pass_over(source, at + len) {
        Ok(()) => Ok(len),
        Err(fault) => {
            if fault.kind == FaultKind::Read {
                return Err(FaultKind::Read.at(fault.offset));
            }
            // The source has become shorter since. What follows shows it.
            Ok(len)
        }
    }
}

/// The fault at which a run ends at an offset, or none if the bytes end there.
fn end_at(fault: Fault, at: u64) -> Option<Fault>
    ensures none { result ≡ None → (fault.kind ≡ Truncated) × (fault.offset ≡ at) }
    ensures some { IfSome result (λ f. (f ≡ fault) × (f.kind ≡ Truncated → f.offset ≢ at)) }
{
    if fault.kind == FaultKind::Truncated && fault.offset == at {
        return None;
    }
    Some(fault)
}

/// The good records from an offset on, as many as follow one another. Each byte of them is read.
pub(crate) fn read_run<S: Source, A: Allocator + Copy>(
    alloc: A,
    source: &mut S,
    window: &mut Window<A>,
    at: u64,
) -> Run
    requires limit { at ≤ max_archive }
    requires begin { window.old.begin ≤ at }
    ensures run { IfHeld (S.seen source.old).holds (λ bytes. Shows bytes window.old → at ≤ length (near bytes) →
        Shows bytes window.new × IsRead at bytes result.count result.len result.end) }
    ensures begin { ((f : FaultOf) → result.end ≡ Some f → f.kind ≢ Read) → window.new.begin ≤ at + result.len }
    ensures none { result.count ≡ 0 → result.len ≡ 0 }
    ensures few { result.count ≤ result.len }
    ensures limit { at + result.len ≤ max_archive }
    ensures asked { IfSome result.end (λ f. f.kind ≡ Read → f.offset ≡ (S.seen source.new).asked) }
    ensures reads { ReadsBy ((own_reads + 1) * (result.count + 1)) (answer_of result.end) window.old window.new
        (S.seen source.old) (S.seen source.new) }
{
    let mut count = 0;
    let mut len = 0;
    'reading: loop {
        match read_one(alloc, source, window, at + len) {
            Ok(more) => {
                count += 1;
                len += more;
            }
            Err(fault) => {
                let end = end_at(fault, at + len);
                return Run { count, len, end };
            }
        }
    }
}
