//! What fields, values, HTTP heads and heads of records answer to the cases of a script.
#![tactic(auto)]

mod bytes;
mod fields;
mod heads;
mod payloads;
mod refusals;
mod said;
mod text;
mod values;
mod written;

pub use refusals::{Attempt, say_refusals};
use std::alloc::{AllocError, Global};
use suites_script::Case;
pub use text::{say, say_done, say_fields, say_line, say_outcome, say_parts, say_text, text_of};
pub use written::{say_written, say_written_twice};

/// Adds what a case answers, and says whether it is a case of these crates. `kept` is the text that cases speak of
/// which give none.
pub fn answer(
    alloc: Global,
    case: &Case<'_>,
    kept: &[u8],
    answer: &mut Vec<u8>,
) -> Result<bool, AllocError> {
    let is_of_fields = fields::answer(alloc, case, kept, answer)?;
    let is_of_areas = fields::answer_of_area(alloc, case, kept, answer)?;
    let is_of_values = values::answer(alloc, case, kept, answer)?;
    let is_of_blocks = payloads::answer(alloc, case, kept, answer)?;
    let is_of_heads = heads::answer(alloc, case, kept, answer)?;
    Ok(is_of_fields || is_of_areas || is_of_values || is_of_blocks || is_of_heads)
}
