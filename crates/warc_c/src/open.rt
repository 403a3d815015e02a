//! Archives that stay open between calls, over bytes that C keeps where they are.
ghost use Rattle.std.specs.Prelude.{◌≡◌, false, box_value, IfErr, IfOk};
ghost use Rattle.std.specs.Bool.{OnFalse, OnTrue};
ghost use Rattle.warc_lookup.specs.Indexed.{IsIndexed};
ghost use Rattle.warc_lent.specs.Growing.{IsNoGrowth};
ghost use Rattle.warc_lent.specs.Texts.{IsRefusedFor};
ghost use Rattle.warc_c.specs.Answered.{AnswersBy, AnswersFront, IsArchive, IsFlagged, IsRefusedBy};

use crate::problems::{done_or_report, report, report_fault};
use std::alloc::Global;
use warc::Archive;
use warc_frame::SliceSource;
use warc_handle::{Open, WarcArchive};
use warc_lent::{Numbers, Problem, good_front, grow_lent};

/// An archive over these bytes, in a box.
fn open_box(alloc: Global, bytes: &'static [u8]) -> Result<Box<Open>, Problem>
    ensures opened { IfOk result (λ archive. IsIndexed bytes.now (box_value archive)) }
    ensures refused { IfErr result (IsRefusedFor bytes.now) }
{
    let archive = match Archive::open(alloc, SliceSource::new(bytes)) {
        Ok(archive) => archive,
        Err((fault, _source)) => return Err(Problem::Fault(fault)),
    };
    match Box::new(alloc, archive) {
        Ok(archive) => Ok(archive),
        Err(_) => Err(Problem::Memory),
    }
}

/// Opens an archive over these bytes, in the place of one that is open. A refusal leaves none open.
#[unsafe(no_mangle)]
pub extern "C" fn warc_rt_open(
    alloc: Global,
    handle: &mut WarcArchive,
    bytes: &'static [u8],
    problem: &mut Numbers,
) -> bool
    ensures opened { OnTrue result (IsArchive bytes.now) }
    ensures silent { OnTrue result (problem.new ≡ problem.old) }
    ensures refused { OnFalse result (IsRefusedBy bytes.now problem.new) }
    ensures open { handle.new.is_open ≡ result }
{
    drop(handle.take(alloc));
    match open_box(alloc, bytes) {
        Ok(archive) => {
            handle.put(archive, alloc);
            true
        }
        Err(refusal) => {
            report(refusal, problem);
            false
        }
    }
}

/// How many bytes the good records have that these bytes begin with. The fault after them is reported, if there is
/// one.
#[unsafe(no_mangle)]
pub extern "C" fn warc_rt_front(alloc: Global, bytes: &[u8], problem: &mut Numbers) -> u64
    ensures { AnswersFront bytes.now result problem.old problem.new }
{
    let (end, fault) = good_front(alloc, bytes);
    report_fault(fault, problem);
    end
}

/// Reads on in bytes that begin with the old ones, over which the archive was opened. A refusal leaves the archive as
/// it was, over the old bytes.
#[tactic(auto, using(crate::proofs::ClosedLemmas::not_done, crate::proofs::GrowthLemmas::no_growth))]
#[unsafe(no_mangle)]
pub extern "C" fn warc_rt_grow(
    alloc: Global,
    handle: &mut WarcArchive,
    old: &[u8],
    bytes: &'static [u8],
    problem: &mut Numbers,
) -> bool
    ensures answers { AnswersBy IsFlagged IsNoGrowth handle.old.is_open result problem.old problem.new }
    ensures stays { handle.new.is_open ≡ handle.old.is_open }
{
    let Some(mut archive) = handle.take(alloc) else {
        return done_or_report(Err(Problem::NotOpen), problem);
    };
    let grown = grow_lent(&mut archive, old, bytes);
    handle.put(archive, alloc);
    done_or_report(grown, problem)
}

/// Closes the archive, if one is open.
#[unsafe(no_mangle)]
pub extern "C" fn warc_rt_close(alloc: Global, handle: &mut WarcArchive)
    ensures { handle.new.is_open ≡ false }
{
    drop(handle.take(alloc));
}
