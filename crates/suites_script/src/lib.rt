//! Suites as data: the cases of a script, each of which one function answers, and the report of them.
//!
//! A script is text. A line says what it is by its first byte:
//!
//! ```text
//! # a comment; so is an empty line
//! == the name of the cases from here on
//! replay http://a.example/x 2020      the words of a case, with one blank between two
//! | a text that is given with it, and the end of a line (CRLF)
//! + a text that is given with it
//! * 256 a text that is given with it as many times as the number says
//! > a text that is wanted, and the end of a line (LF)
//! . a text that is wanted
//! ```
//!
//! A case fails that isn't answered as it wants. It also fails where a word that has to be a number is none, where
//! nobody reads the text that is given, or where it has a word that nobody reads.
//!
//! In texts `\n`, `\r`, `\t` and `\x20` are the bytes that they are in Rust, and any other byte after a `\` is itself.
#![tactic(auto)]

mod cases;
mod chains;
mod escapes;
mod refusals;
mod report;

pub use cases::Case;
pub use chains::add_link;
pub use escapes::add_unescaped;
pub use refusals::{Refusal, Refusals};
pub use report::{Report, Trial, try_script};
