//! Records of an archive as bytes: sources and sinks, framing, and the exact fault where there is none.
#![tactic(auto)]

mod buffer;
mod canonical;
mod count;
mod ends;
mod fault;
mod field_name;
mod framed;
mod front;
pub mod laws;
pub mod names;
mod pieces;
mod ranges;
mod send;
mod sink;
mod source;
mod stream;
mod version;

pub use buffer::{OutBuffer, put_all, put_columns};
pub use canonical::write_one;
pub use count::raise;
pub use fault::{EarlyFault, Fault, FaultKind, Mandatory, OutFault};
pub use field_name::{FieldName, NAME_COUNT};
pub use framed::{Framed, FramedFault};
pub use front::{Head, MAX_BLOCK, MAX_HEAD, read_head, read_one};
pub use pieces::decode;
pub use ranges::{PIECE, put_range, read_range};
pub use send::{SendFault, send_all};
pub use sink::{MemSink, OutSink, Sink, WriteFault, is_failed};
pub use source::{FileSource, MemSource, ReadFault, SliceSource, Source};
pub use stream::{Decoder, Event, MAX_ARCHIVE};
pub use version::Version;
