//! The named fields of a WARC record's head: names, values, lists of fields, and a field area both ways.
#![tactic(auto)]

mod area;
pub mod laws;
mod lines;
mod list;
mod number;
mod short;
mod text;
mod write;

pub use area::{AreaFault, read_area, read_area_in};
pub use lines::find_crlf;
pub use list::Fields;
pub use number::decimal;
pub use text::{Name, TextFault, Value, is_name, is_value, trim};
pub use write::{canonical_len, write_area};
