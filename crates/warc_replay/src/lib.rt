//! What one record and one capture give: a record's bytes, its head and the verdicts on it; the way from a capture to
//! its origin, its body, where the body is, and the lines of captures.
#![tactic(auto)]

mod fault;
mod record;
mod replay;

pub use fault::{BodyFault, ExtractFault, TakeFault};
pub use record::blocks_again::judge_blocks_at;
pub use record::comparison::{Compared, compare_at, take_payload};
pub use record::digests::KnownDigests;
pub use record::good_payload::learn_origin;
pub use record::head::take_head_at;
pub use record::part::Part;
pub use record::payload::{
    PayloadVerdict, Unjudged, holds_own, payload_value, plain_verdict, reason_of,
};
pub use record::range::{send_part, send_range};
pub use record::verdict::{take_stated_at, take_verdict_at};
pub use record::whole::take_record_at;
pub use replay::answer::{path_from, path_in, replay_rows};
pub use replay::body::give_body;
pub use replay::capture_line::{date_front, date_rest, list_outcomes};
pub use replay::capture_lines::{put_captures, write_judged, write_unjudged};
pub use replay::captures::{capture_positions, judge_all};
pub use replay::location::{locate_at, locate_for};
pub use replay::outcome::{Outcome, StoredAt, capture_outcome, send_at};
