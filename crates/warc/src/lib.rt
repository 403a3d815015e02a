//! WARC archives read as streams: their records, what is wrong with them, and what they answer.
//!
//! To read a page as of a date, open an [`Archive`] over a source of bytes, and call `replay` with the URI and the
//! instant, which [`read_date`] reads. To list records, open a [`Listing`] and go over its `rows`; to write them anew,
//! in segments or in part, call its `write_as`, `split` or `select`. To find what is wrong with records, open a
//! [`Checked`] and call `check`. To compare blocks with the digests that their heads state, open a [`Fixity`]; for
//! payloads a [`PayloadFixity`]. To list captures, open a [`Captures`]. To know how many records there are, and of
//! which kinds, open a [`Summarized`]. To write all that these say, open a [`Surveyed`].
//!
//! A [`Source`] gives bytes at any offset, and a [`Sink`] takes bytes. No block is kept in memory. The file CALLING.md
//! has a whole proved caller and each contract.
//!
//! - `opened`: these types, each a source with the rows of its records and what is kept beside them.
//! - `replay`: what captures give.
//! - `rewrite`: archives written.
//! - `record`: what one record gives.
#![tactic(auto)]

pub mod laws;
mod opened;

pub use opened::archive::Archive;
pub use opened::captures::Captures;
pub use opened::checked::Checked;
pub use opened::fixity::Fixity;
pub use opened::listing::{Listing, open_front};
pub use opened::payload_fixity::PayloadFixity;
pub use opened::payloads::Payloads;
pub use opened::summarized::Summarized;
pub use opened::surveyed::Surveyed;

// What the calls above take and give, so that a caller needs this crate alone.
pub use warc_answer::{Answer, Located, Path, Reason, ReplayFault, Span, Stored};
pub use warc_frame::{
    Decoder, Event, Fault, FaultKind, FileSource, Framed, Head, MemSink, MemSource, OutFault,
    OutSink, ReadFault, Sink, SliceSource, Source, Version, WriteFault,
};
pub use warc_index::Unfound;
pub use warc_judged::{Counts, Summary, block_verdict};
pub use warc_reading::{Row, RowIter};
pub use warc_replay::{
    BodyFault, ExtractFault, Outcome, Part, PayloadVerdict, StoredAt, TakeFault, Unjudged,
};
pub use warc_rewrite::Form;
pub use warc_segment::Gap;
pub use warc_value::{Moment, Verdict, read_date};
