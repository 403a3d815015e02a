//! What crosses between the page and the module.

/// The call is done.
pub(crate) const DONE: u64 = 0;

/// There is no result. The buffer has the text that says why, as the program prints it.
pub(crate) const REFUSED: u64 = 1;

/// The memory that the call was given doesn't suffice, or the open archive has used up its own.
pub(crate) const MEMORY: u64 = 2;

/// How a call ended, and how many bytes its text has, or how many spans the body has. The buffer has as many of them as
/// there is room for.
#[repr(C)]
#[derive(Drop)]
pub struct PageOutcome {
    pub state: u64,
    pub length: u64,
}

/// The good front of an archive: how many records it has, how many bytes their texts have, and where it ends; whether a
/// fault follows, and how many bytes its text has.
#[repr(C)]
#[derive(Drop)]
pub struct PageFront {
    pub records: u64,
    pub texts: u64,
    pub end: u64,
    pub state: u64,
    pub length: u64,
}
