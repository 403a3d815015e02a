//! HTTP heads at the front of a block.

use crate::text::{say_line, text_of};
use std::alloc::{AllocError, Global};
use suites_script::Case;
use warc_payload::{MOST_HEAD_BYTES, body_start, front};

/// Adds what the head at the front of a block reports.
fn say_http(alloc: Global, answer: &mut Vec<u8>, block: &[u8]) -> Result<(), AllocError> {
    match body_start(&block[..MOST_HEAD_BYTES.min(block.len())]) {
        Ok(head) => {
            let coding = if head.coded { "coded" } else { "not coded" };
            let (len, of, status) = (head.head_len, block.len(), head.status);
            let reported = format!(in alloc; "{status}, head of {len} in {of} bytes, {coding}")?;
            say_line(alloc, answer, &reported)
        }
        Err(fault) => {
            let reported = format!(in alloc; "{fault} in {} bytes", block.len())?;
            say_line(alloc, answer, &reported)
        }
    }
}

/// Answers a case of HTTP heads.
pub(crate) fn answer(
    alloc: Global,
    case: &Case<'_>,
    kept: &[u8],
    answer: &mut Vec<u8>,
) -> Result<bool, AllocError> {
    let reported = match case.text(0) {
        "http" => say_http(alloc, answer, text_of(case, kept)),
        "front" => say_line(alloc, answer, &front(text_of(case, kept)).len()),
        _ => return Ok(false),
    };
    reported?;
    Ok(true)
}
