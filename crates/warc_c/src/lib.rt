//! What C asks of archives. `c/warc.h` documents these calls; `c/warc.c` checks the pointers that C passes, and calls
//! them.
//!
//! A call over a handle takes the archive out, makes one call of `warc_lent` or `warc`, whose contract says what is
//! answered, and puts the archive back. A call over bytes states that contract itself.
#![tactic(auto)]

mod bodies;
mod heads;
mod open;
mod output;
mod pieces;
mod problems;
mod rows;
mod texts;
