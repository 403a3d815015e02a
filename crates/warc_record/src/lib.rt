//! What the head of a WARC record says: its type, id, date, target, references and segment, and
//! what is found wrong with its fields.
#![tactic(auto)]

mod checks;
mod finding_sink;
mod head;
mod head_fields;
mod ids;
mod known;
pub mod laws;
mod readings;
mod rules;
mod table;
mod types;

pub use checks::{ArchiveFacts, Finding, TableCheck, all_findings, findings};
pub use finding_sink::{FindingSink, PlainFinding};
pub use head::{
    GoodHead, HeadTexts, NamedPair, Reference, Segment, Typed, good_head_of, type_head, wanted,
};
pub use head_fields::HeadFields;
pub use ids::{IdKey, bare, id_key, is_bare_id, urn_uuid};
pub use readings::{SegmentNumber, is_known_profile, kind_in};
pub use rules::{add_by_table, add_of_block, add_of_ids, has_bad_segment, is_known};
pub use table::may_repeat;
pub use types::Kind;
