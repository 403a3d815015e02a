//! What a caller opens: a source, with the rows of its records and what is kept beside them.

pub(crate) mod archive;
pub(crate) mod captures;
pub(crate) mod checked;
pub(crate) mod fixity;
pub(crate) mod known_payloads;
pub(crate) mod listing;
pub(crate) mod payload_fixity;
pub(crate) mod payloads;
pub(crate) mod summarized;
pub(crate) mod surveyed;
