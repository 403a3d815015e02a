//! What is wrong with the records of an archive that can be read.
#![tactic(auto)]

mod batch;
mod check;
mod digest_state;
mod finding_list;
mod finding_parts;
mod findings;
pub mod laws;
mod lines;
mod output;
mod own_findings;
mod unjudged;
mod used_ids;

pub use batch::{Batch, BlockCheck, MAX_WAITING, PIECE_LEN};
pub use check::{Rejudged, check_rows, judge_again};
pub use findings::Judging;
pub use output::{put_findings, write_findings};
pub use own_findings::OwnFindings;
pub use unjudged::mark_each;
