//! Sources over bytes that come once, in order, as the bytes of a pipe do; sources whose reads are watched; and sources
//! that are read through a window.
#![tactic(auto)]

mod stream;
mod watched;
mod window;

pub use stream::StreamSource;
pub use watched::{WatchedSource, Watcher};
pub use window::WindowSource;
