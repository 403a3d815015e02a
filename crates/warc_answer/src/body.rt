//! Where the body begins in the joined blocks of an origin.
ghost use Rattle.std.specs.Prelude.{◌≡◌, false, length, true};
ghost use Rattle.warc_record.specs.Seen.{said};
ghost use Rattle.warc_answer.specs.Giving.{FindsStart, HasRoom};
ghost use Rattle.warc_answer.specs.Payloads.{is_http, is_http_response};

use crate::answer::{Reason, ReplayFault};
use crate::blocks::{SHORT, any_bad, judge_blocks};
use crate::replay::total;
use warc_frame::{OutFault, PIECE, Source};
use warc_payload::laws::{front_has_head, front_has_no_head};
use warc_payload::{MOST_HEAD_BYTES, body_start};
use warc_record::{Kind, Typed};
use warc_segment::Place;

/// Where a body begins.
#[derive(Clone, Copy, Debug, PartialEq, Eq)]
pub(crate) struct BodyStart {
    /// The status of the HTTP response whose head is before it.
    pub(crate) status: Option<u16>,

    /// How many bytes are before it.
    pub(crate) skip: u64,
}

/// Whether a URI begins with `http:` or `https:`, in any case.
fn is_http(uri: &[u8]) -> bool
    ensures { result ≡ is_http uri.now }
{
    uri[..uri.len().min(5)].eq_ignore_ascii_case(b"http:")
        || uri[..uri.len().min(6)].eq_ignore_ascii_case(b"https:")
}

/// Whether a record's block begins with the head of an HTTP response: it is a response, and its target begins with
/// `http:` or `https:`.
pub fn is_http_response(origin: &Typed<'_>) -> bool
    ensures { result ≡ is_http_response (said origin.now) }
{
    match (origin.kind, origin.target()) {
        (Kind::Response, Some(target)) => is_http(target),
        _ => false,
    }
}

/// Where the body begins in the joined blocks of an HTTP response: after the HTTP head. The blocks are judged, and
/// their front is read through the buffer.
fn start_through<S: Source>(
    source: &mut S,
    places: &[Place],
    front: &mut [u8],
) -> Result<BodyStart, ReplayFault>
    requires { HasRoom (length front.old) places.now }
    ensures { FindsStart true places.now (S.seen source.old) (S.seen source.new) result }
{
    front_has_head();
    front_has_no_head();
    let n = match judge_blocks(source, places, front) {
        Ok(Some(n)) => n,
        Ok(None) => return Err(ReplayFault::Reason(Reason::BadDigest)),
        Err(_) => return Err(ReplayFault::Out(OutFault::Read(0))),
    };
    match body_start(&front[..n]) {
        Err(_) => Err(ReplayFault::Reason(Reason::BadHead)),
        Ok(info) if info.coded => Err(ReplayFault::Reason(Reason::Coded)),
        Ok(info) => Ok(BodyStart {
            status: Some(info.status),
            skip: info.head_len as u64,
        }),
    }
}

/// Where the body begins, as `start_through`, through a buffer of its own that has room for any HTTP head.
fn find_after_long_head<S: Source>(
    source: &mut S,
    places: &[Place],
) -> Result<BodyStart, ReplayFault>
    ensures { FindsStart true places.now (S.seen source.old) (S.seen source.new) result }
{
    let mut front = [0; MOST_HEAD_BYTES];
    start_through(source, places, &mut front)
}

/// Where the body begins, as `start_through`, through a short buffer if the joined blocks are short.
fn find_after_head<S: Source>(source: &mut S, places: &[Place]) -> Result<BodyStart, ReplayFault>
    ensures { FindsStart true places.now (S.seen source.old) (S.seen source.new) result }
{
    let total = total(places);
    if total <= SHORT as u64 {
        let mut front = [0; SHORT];
        return start_through(source, places, &mut front);
    }
    if total > PIECE as u64 {
        return find_after_long_head(source, places);
    }
    let mut front = [0; PIECE];
    start_through(source, places, &mut front)
}

/// Where the body begins in the joined blocks of another origin: at once. The blocks are judged.
fn find_whole<S: Source>(source: &mut S, places: &[Place]) -> Result<BodyStart, ReplayFault>
    ensures { FindsStart false places.now (S.seen source.old) (S.seen source.new) result }
{
    match any_bad(source, places) {
        Ok(false) => Ok(BodyStart {
            status: None,
            skip: 0,
        }),
        Ok(true) => Err(ReplayFault::Reason(Reason::BadDigest)),
        Err(_) => Err(ReplayFault::Out(OutFault::Read(0))),
    }
}

/// Where the body begins in the joined blocks: after the HTTP head of an HTTP response, and else at once. The blocks
/// are judged.
pub(crate) fn find_body<S: Source>(
    source: &mut S,
    http: bool,
    places: &[Place],
) -> Result<BodyStart, ReplayFault>
    ensures { FindsStart http places.now (S.seen source.old) (S.seen source.new) result }
{
    if http {
        find_after_head(source, places)
    } else {
        find_whole(source, places)
    }
}
