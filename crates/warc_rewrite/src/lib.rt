//! Archives written: in a form, as segments, or some of their records; and which records a selection needs.
#![tactic(auto)]

mod closure;
mod forms;
mod needs;
mod output;
mod remainder;
mod segments;
mod selection;

pub use closure::{closed_positions, remaining_positions};
pub use forms::Form;
pub use output::{Replacement, write_each};
pub use selection::{other_positions, select_rows, selected_len};
