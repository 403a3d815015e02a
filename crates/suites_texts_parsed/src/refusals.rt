//! Calls whose requests for memory are refused, each in turn.

use std::alloc::{AllocError, Global};

/// A call that asks for memory.
pub trait Attempt {
    /// Whether the request of a number, counted from 1, came and was refused; `None` where the call reports something
    /// else, or leaves something else.
    fn refused_at(&self, alloc: Global, number: u64) -> Option<bool>;
}

/// How many requests a call makes, and whether each refusal is reported.
fn count_of<T: Attempt>(alloc: Global, attempt: &T) -> (u64, bool) {
    for number in 0..100u64 {
        match attempt.refused_at(alloc, number.saturating_add(1)) {
            Some(true) => {}
            Some(false) => return (number, true),
            None => return (number, false),
        }
    }
    (100, false)
}

/// Adds whether a call makes `least` requests at least, and reports each refusal.
pub fn say_refusals<T: Attempt>(
    alloc: Global,
    answer: &mut Vec<u8>,
    attempt: &T,
    least: u64,
) -> Result<(), AllocError> {
    let (count, are_reported) = count_of(alloc, attempt);
    let reported = if are_reported && count >= least {
        format!(in alloc; "each told of, {least} or more\n")?
    } else if are_reported {
        format!(in alloc; "each told of, {count} in all\n")?
    } else {
        format!(in alloc; "not reported after {count}\n")?
    };
    answer.extend_from_slice(reported.as_bytes())
}
