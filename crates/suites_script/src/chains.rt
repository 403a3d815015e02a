//! Chains of records, each of which is a text with its own number, the number before it and the number after it.

use std::alloc::{AllocError, Global};

/// Adds a record of a chain to a text: in the pattern `#` means its number, `@` for the number before it, and `%`
/// for the number after it.
pub fn add_link(
    alloc: Global,
    text: &mut Vec<u8>,
    pattern: &[u8],
    number: u64,
) -> Result<(), AllocError> {
    let own = number.to_string(alloc)?;
    let before = number.saturating_sub(1).to_string(alloc)?;
    let after = number.saturating_add(1).to_string(alloc)?;
    for byte in pattern {
        match byte {
            b'#' => text.extend_from_slice(own.as_bytes())?,
            b'@' => text.extend_from_slice(before.as_bytes())?,
            b'%' => text.extend_from_slice(after.as_bytes())?,
            _ => text.push(*byte)?,
        }
    }
    Ok(())
}
