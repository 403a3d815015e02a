//! What records as bytes, the devices that they are read from and written to, and the crate that writes records answer
//! to the cases of a script.

mod devices;
mod faults;
mod made;
mod odd;
mod pieces;
mod ranges;
mod records;
mod split;
mod steps;
mod turns;
mod written;

use std::alloc::{AllocError, Global};
use suites_script::Case;

/// Adds what a case answers, and says whether it is one of these. `kept` is the text that cases speak of
/// which give none.
pub(crate) fn answer(
    alloc: Global,
    case: &Case<'_>,
    kept: &[u8],
    answer: &mut Vec<u8>,
) -> Result<bool, AllocError> {
    let is_of_records = records::answer(alloc, case, kept, answer)?;
    let is_of_pieces = pieces::answer(alloc, case, kept, answer)?;
    let is_of_faults = faults::answer(alloc, case, answer)?;
    let is_of_devices = devices::answer(alloc, case, kept, answer)?;
    let is_of_writing = written::answer(alloc, case, kept, answer)?;
    let is_of_turns = turns::answer(alloc, case, kept, answer)?;
    let is_of_all = is_of_records || is_of_pieces || is_of_faults || is_of_devices;
    Ok(is_of_all || is_of_writing || is_of_turns)
}
