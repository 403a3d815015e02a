//! What answers each verb of a case.

use crate::call_turns::add_turns;
use crate::check_fronts::add_fronts;
use crate::checks::{add_check_changed, add_check_thrice, add_check_unread};
use crate::copies::add_front;
use crate::growth::{add_unkept, add_unread_growth};
use crate::kept::{add_kept, add_kept_same};
use crate::refused_checks::add_refusals;
use crate::replays::{add_unread, add_unwritten_case};
use crate::sources::source_of;
use crate::torn::add_torn;
use std::alloc::{AllocError, Global};
use suites_script::Case;

/// Adds what is answered if a read gives `most` bytes at most, and says whether the verb of the case is one of these.
pub(crate) fn answer_by(
    alloc: Global,
    case: &Case<'_>,
    archive: &[u8],
    most: usize,
    answer: &mut Vec<u8>,
) -> Result<bool, AllocError> {
    match case.text(0) {
        "replayed-unwritten" => {
            add_unwritten_case(alloc, case, source_of(alloc, archive, most)?, answer)?;
        }
        "grown-torn" => add_torn(alloc, case, archive, most, answer)?,
        _ => return Ok(false),
    }
    Ok(true)
}

/// Adds what is answered where the verb of the case itself says how reads, or requests for memory, fail; and whether it
/// is one of these.
pub(crate) fn answer_once(
    alloc: Global,
    case: &Case<'_>,
    archive: &[u8],
    answer: &mut Vec<u8>,
) -> Result<bool, AllocError> {
    match case.text(0) {
        "replayed-unread" => add_unread(alloc, case, archive, answer)?,
        "checked-unread" => add_check_unread(alloc, archive, answer)?,
        "checked-changed" => add_check_changed(alloc, case, archive, answer)?,
        "checked-thrice" => add_check_thrice(alloc, archive, case.number(1), answer)?,
        "checked-fronts" => add_fronts(alloc, case, archive, answer)?,
        "judged-refused" => add_refusals(alloc, case, archive, answer)?,
        "kept" => add_kept(alloc, case, archive, answer)?,
        "in-turn" | "some-in-turn" => add_turns(alloc, case, archive, answer)?,
        "front-in-turn" => add_front(alloc, case, archive, answer)?,
        "grown-unread" => add_unread_growth(alloc, case, archive, answer)?,
        "grown-unkept" => add_unkept(alloc, case, archive, answer)?,
        "kept-as" => add_kept_same(alloc, case, archive, answer)?,
        _ => return Ok(false),
    }
    Ok(true)
}
