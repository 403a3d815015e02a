//! What a page of a browser asks of an archive whose bytes are in its memory.
//!
//! Each call is given memory for good: neither the page nor a later call touches it again. An archive that is opened
//! keeps its bytes and its memory for good too. Other bytes and buffers are lent: they are the page's own again once
//! the call returns.
#![tactic(auto)]

mod answers;
mod archive;
mod ends;
mod findings;
mod front;
mod heads;
mod open;
mod pieces;
mod shapes;
mod verdicts;

pub use answers::{page_body, page_replay};
pub use archive::{Open, PageArchive};
pub use findings::page_findings;
pub use front::page_front;
pub use heads::{page_fields, page_http};
pub use open::page_open;
pub use pieces::{page_pieces, page_problem};
pub use shapes::{PageFront, PageOutcome};
pub use verdicts::page_verdict;
