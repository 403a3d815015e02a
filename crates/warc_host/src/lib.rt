//! What the program has to do with the system: the words of its command line, its files and standard input, and what
//! people see beside the lines that are promised, where standard error is a terminal.
#![tactic(auto)]

mod files;
mod hints;
mod progress;
mod shown;

pub use files::{Failure, Host, HostFile, HostStream, Noted};
pub use hints::{Ended, hint, words};
pub use progress::{CountedSink, ErasingSink, Progress};
pub use shown::ShownSink;
