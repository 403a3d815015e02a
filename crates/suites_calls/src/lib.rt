//! What calls of the library answer to the cases of a script, while reads, writes and requests for memory are refused.
#![tactic(auto)]

mod all;
mod by_reads;
mod call_turns;
mod calls;
mod check_fronts;
mod checks;
mod copies;
mod growth;
mod kept;
mod places;
mod refused_checks;
mod replays;
mod single_calls;
mod sources;
mod subjects;
mod text;
mod torn;
mod verbs;
mod wanted;

pub use by_reads::answer;
