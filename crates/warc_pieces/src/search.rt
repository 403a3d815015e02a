//! The next good record.
ghost use Rattle.std.specs.Prelude.{◌≡◌, ◌≢◌, ◌⊎◌, ℕ, ◌+◌, ◌-◌, ◌*◌, ◌<◌, ◌≤◌, false, true, IfErr, IfOk, IfSome, drop, length};
ghost use Rattle.warc_frame.specs.Record.{max_archive};
ghost use Rattle.warc_frame.specs.Seen.{IfHeld};
ghost use Rattle.warc_frame.specs.declared.fault.FaultKind.TheVariants.{Memory, Read};
ghost use Rattle.warc_pieces.specs.Pieces.{near};
ghost use Rattle.warc_pieces.specs.Search.{FindsLine, FindsNext, lines_in, search_end};
ghost use Rattle.warc_pieces.specs.Window.{ReadsBy, Shows, own_reads, reached};

use crate::line::{LINE_START, find_line};
use crate::record::record_len;
use crate::skip::skip;
use crate::window::Window;
use std::alloc::Allocator;
use warc_frame::{Fault, FaultKind, Source};

/// The offset of the next version line from an offset on, or none if the bytes end before one begins.
fn next_line<S: Source, A: Allocator>(
    source: &mut S,
    window: &mut Window<A>,
    from: u64,
) -> Result<Option<u64>, Fault>
    requires limit { from ≤ max_archive }
    requires begin { window.old.begin ≤ from }
    ensures finds { IfHeld (S.seen source.old).holds (λ bytes. Shows bytes window.old → from ≤ length (near bytes) →
        Shows bytes window.new × FindsLine bytes from window.new result) }
    ensures begin { IfOk result (λ found. IfSome found (λ at. window.new.begin ≤ at)) }
    ensures limit { IfOk result (λ found. IfSome found (λ at. (from ≤ at) × (at < max_archive))) }
    ensures fault { IfErr result (λ f. f.kind ≡ Read) }
    ensures asked { IfErr result (λ f. f.offset ≡ (S.seen source.new).asked) }
    ensures reads { ReadsBy 1 result window.old window.new (S.seen source.old) (S.seen source.new) }
{
    let mut at = from;
    let mut reached = window.reached();
    'looking: loop {
        let shown = window.shown(at);
        if let Some(place) = find_line(shown) {
            return Ok(Some(at + place as u64));
        }
        if window.is_last() {
            return Ok(None);
        }
        // A version line may lie across the end of what is shown.
        at = at.max(reached.saturating_sub(LINE_START.len() as u64 - 1));
        window.more(source, at)?;
        reached = window.reached();
    }
}

/// Whether a search ends with a fault: a read failed, or memory ran out.
pub(crate) fn is_failure(fault: &Fault) -> bool
    ensures failed { result ≡ true → (fault.now.kind ≡ Read) ⊎ (fault.now.kind ≡ Memory) }
    ensures found { result ≡ false → (fault.now.kind ≢ Read) × (fault.now.kind ≢ Memory) }
{
    fault.kind == FaultKind::Read || fault.kind == FaultKind::Memory
}

/// The least offset from `from` on at which a good record is whole, or the end of the bytes. Only version lines are
/// judged, and of those within one head as few as decide all.
pub(crate) fn next_record<S: Source, A: Allocator + Copy>(
    alloc: A,
    source: &mut S,
    window: &mut Window<A>,
    from: u64,
) -> Result<u64, Fault>
    requires limit { from ≤ max_archive }
    requires begin { window.old.begin ≤ from }
    ensures finds { IfHeld (S.seen source.old).holds (λ bytes. Shows bytes window.old → from ≤ length (near bytes) →
        Shows bytes window.new × FindsNext bytes from result) }
    ensures begin { IfOk result (λ found. window.new.begin ≤ found) }
    ensures limit { IfOk result (λ found. (from ≤ found) × (found ≤ max_archive)) }
    ensures fault { IfErr result (λ f. (f.kind ≡ Read) ⊎ (f.kind ≡ Memory)) }
    ensures asked { IfErr result (λ f. f.kind ≡ Read → f.offset ≡ (S.seen source.new).asked) }
    ensures reads { (tries : ℕ) × ReadsBy ((own_reads + 1) * tries) result window.old window.new (S.seen source.old)
        (S.seen source.new) × IfHeld (S.seen source.old).holds (λ bytes. Shows bytes window.old →
        from ≤ length (near bytes) → tries ≤ lines_in (drop from (near bytes)) (search_end result - from) + 1) }
{
    let mut at = from;
    'judging: loop {
        let Some(line) = next_line(source, window, at)? else {
            return Ok(window.reached().max(at));
        };
        match record_len(alloc, source, window, line) {
            Ok(_) => return Ok(line),
            Err(fault) => {
                if is_failure(&fault) {
                    return Err(fault);
                }
                let place = fault.offset.saturating_sub(line);
                let is_last = window.is_last();
                at = line + skip(alloc, window.shown(line), is_last, fault.kind, place);
            }
        }
    }
}
