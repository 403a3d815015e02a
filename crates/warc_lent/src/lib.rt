//! What callers in other languages ask of an archive over bytes that they lend: problems and pieces as numbers, rows,
//! captures and bodies as numbers and texts in their buffers, and texts that they take whole.
#![tactic(auto)]

mod bodies;
mod buffers;
mod captures;
mod fronts;
mod growth;
mod heads;
mod pieces;
mod portions;
mod problem;
mod rows;
mod selections;
mod texts;
mod verdicts;

pub use bodies::{AnswerNumbers, SpanNumbers, put_body, put_replay, status_number};
pub use buffers::{put_positions, put_text, put_text_at};
pub use captures::put_captures;
pub use fronts::good_front;
pub use growth::{begins_alike, grow_lent};
pub use heads::{FieldNumbers, HttpFieldNumbers, HttpNumbers, put_fields, put_http};
pub use pieces::{PieceNumbers, put_pieces};
pub use portions::{PortionNumbers, put_made, put_next_as, put_next_selected, put_next_split};
pub use problem::{Numbers, Problem};
pub use rows::{
    RowNumbers, flag_of, put_row, put_row_texts, row_numbers, verdict_at, verdict_number,
};
pub use selections::{put_chosen, put_closed};
pub use texts::{
    check_text, findings_text, fixity_text, list_text, problem_text, put_check, put_findings,
    put_fixity, put_list, put_problem,
};
pub use verdicts::{payload_verdict_at, stated_verdict_at};
