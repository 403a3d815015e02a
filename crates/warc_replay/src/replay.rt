//! What captures give: the way to an origin, its body, where it is, and what is stored.

pub(crate) mod answer;
pub(crate) mod body;
pub(crate) mod capture_line;
pub(crate) mod capture_lines;
pub(crate) mod captures;
pub(crate) mod known_gaps;
pub(crate) mod known_series;
pub(crate) mod location;
pub(crate) mod lone;
pub(crate) mod origin;
pub(crate) mod outcome;
pub(crate) mod stored;
pub(crate) mod type_line;
