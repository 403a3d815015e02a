//! What is written of an archive, portion by portion: a head that is made, and a block that stays where it is.
#![tactic(auto)]

pub mod laws;
mod made;
mod next;
mod place;
mod portion;
mod segments;

pub use made::portion_made;
pub use next::{Cursor, next_as, next_selected, next_split};
pub use portion::Portion;
