//! What reading an archive finds of its blocks and its heads: how blocks compare with the digests that their heads
//! state, which records are segments, and how many records there are of which kind. And the lines that say so.
#![tactic(auto)]

mod block_verdicts;
mod counts;
mod digests;
mod flags;
mod lines;
mod marks;
mod row;
mod stated;
mod summary;
mod tally;

pub use block_verdicts::BlockVerdicts;
pub use counts::{Verdicts, is_verdict, one_if};
pub use digests::{Counts, Digests, WaitingDigests};
pub use flags::{RecordFlags, WaitingFlags, has_segment_number};
pub use lines::{put_counts, put_fixity, verdict_text};
pub use marks::HeadMarks;
pub use row::{is_capture, list_rows, put_rows, shown_as};
pub use stated::{block_verdict, digest_value};
pub use summary::{Summary, summary_of};
