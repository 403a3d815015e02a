//! The commands of the program `warc`: what each does with a source and a console.
#![tactic(auto)]

mod bodies;
mod captures;
mod check;
mod console;
mod explain;
mod extract;
mod fixity;
mod instant;
mod lists;
mod parts;
mod payloads;
mod pieces;
mod program;
mod replays;
mod runs;
mod salvage;
mod salvage_all;
mod select;
mod select_closed;
mod split;
mod summary;
mod survey;
mod walk;
mod words;
mod write;

pub use console::{Console, Ended, Heap, Input, Reporter};
pub use program::{perform, refuse};
pub use runs::{RunSource, System, run};

// What the calls above take, so that a caller needs this crate alone.
pub use warc_arguments::{Command, CommandFault, Draft, EXPLANATIONS, Request, Status, parse};
