//! The words of the program `warc`: the command that they name, a URI in hexadecimal digits, the numbers that are
//! explained, and how a run ends. Nothing here knows the format, so it is proved beside the crates that do.
#![tactic(auto)]

mod command;
mod digits;
mod help;
mod line;
mod lookup;
mod numbers;
mod parser;
mod status;

pub use command::{Command, Draft, Request};
pub use digits::{UriFault, bytes_of};
pub use line::CommandLine;
pub use lookup::explanation_of;
pub use numbers::EXPLANATIONS;
pub use parser::{CommandFault, parse};
pub use status::Status;
