//! Lines of JSON: an object a line. A text is a string if it is UTF-8, else an object of one member, `hex`.
#![tactic(auto)]

pub mod laws;
mod objects;
mod rows;
mod strings;
mod summary;

pub use objects::{Value, put_object, send_object};
pub use rows::list_rows;
pub use summary::write_summary;
