//! Records written: their canonical texts sent out, and records made, split and converted.
#![tactic(auto)]

mod conversion;
mod cuts;
pub mod laws;
mod made;
mod parts;
mod segments;
mod sent;
mod written;

pub use conversion::{convert, convert_fields};
pub use cuts::cut;
pub use made::{MakeFault, make, refusal_of_long};
pub use segments::{
    SegmentPart, SplitFault, part_at, segment_count, segment_head, split, splittable,
};
pub use sent::{put_head, render, render_one};
