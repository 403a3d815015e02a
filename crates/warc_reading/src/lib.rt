//! An archive read as a stream: a row is kept of each of its records, and beside it what a caller wants. A record's
//! head is read again by its row.
#![tactic(auto)]

mod block;
mod kept;
mod opened;
mod pair;
mod reread;
mod row_iter;
mod rows;
mod spare_fields;
mod stream;

pub use block::{BlockDigest, NoBlock, TakeBlock};
pub use kept::{Keep, RowsAlone};
pub use opened::Opened;
pub use pair::KeptPair;
pub use reread::{
    buffer_for, good_head_in, head_buffer, head_in, reread_good, reread_head, reread_text,
};
pub use row_iter::RowIter;
pub use rows::{Row, Rows, rows_fit};
pub use stream::{read_front, read_on};
