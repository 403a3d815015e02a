//! The head of a WARC record, read in place, line by line. Reading doesn't allocate, and copies no name and no value.
//!
//! Most heads are plain: each field is on a line of its own, and each name of the standard is spelled as there and
//! occurs at most once, if it may not repeat. These are read here. Any other head is left to `warc_frame` and
//! `warc_record`.
#![tactic(auto)]

mod alone;
mod canonical;
mod dates;
mod head;
mod lines;
mod names;
mod plain;
mod plain_findings;
mod record_findings;
mod runs;
mod values;

pub use alone::{AloneHead, alone_head};
pub use canonical::is_canonical_head;
pub use head::{QuickHead, quick_head};
pub use plain::{QuickRecord, quick_record, record_with_findings};
pub use plain_findings::PlainFindings;
pub use record_findings::text_findings;
