//! What is known of a record's digest: whether N4 holds.
ghost use Rattle.std.specs.Prelude.{◌≡◌, ◌<◌, false, true, List, length};
ghost use Rattle.warc_record.specs.Findings.{SeenFinding};
ghost use Rattle.warc_record.specs.Kinds.{is_known};
ghost use Rattle.warc_record.specs.Readings.{kind_of};
ghost use Rattle.warc_checking.specs.OwnFindings.{bad_at, each_with, is_marked, mark_at, marked, state_by};

use std::alloc::Allocator;
use warc_field::Fields;
use warc_frame::names::WARC_TYPE;
use warc_record::Kind;

/// What is known of N4 of a record.
#[derive(Clone, Copy)]
pub(crate) enum DigestState {
    /// Its kind is none of the eight: N4 never holds.
    Outside,
    /// N4 isn't known to hold.
    Unmarked,
    /// N4 holds.
    Marked,
}

impl DigestState {
    /// Of a record of which nothing is known but its kind.
    pub(crate) fn of_kind(kind: Kind) -> DigestState
        ensures { result ≡ state_by (is_known kind) }
    {
        match kind {
            Kind::Other => DigestState::Outside,
            _ => DigestState::Unmarked,
        }
    }

    /// What is kept of N4 once the digest is known to differ.
    fn marked(&self) -> DigestState
        ensures { result ≡ marked self.now }
    {
        match self {
            DigestState::Outside => DigestState::Outside,
            DigestState::Unmarked | DigestState::Marked => DigestState::Marked,
        }
    }

    /// Whether N4 holds.
    pub(crate) fn is_marked(&self) -> bool
        ensures { result ≡ is_marked self.now }
    {
        match self {
            DigestState::Outside | DigestState::Unmarked => false,
            DigestState::Marked => true,
        }
    }
}

/// The kind of the record with these fields.
pub(crate) fn kind_of<A: Allocator>(fields: &Fields<A>) -> Kind
    ensures { result ≡ kind_of fields.now }
{
    match fields.first(WARC_TYPE.as_bytes()) {
        Some(value) => Kind::named(value.bytes()),
        None => Kind::Other,
    }
}

/// Whether N4 holds of the record at a position, false past the end.
pub(crate) fn bad_at(states: &[DigestState], position: usize) -> bool
    ensures { result ≡ bad_at states.now position }
{
    match states.get(position) {
        Some(state) => state.is_marked(),
        None => false,
    }
}

/// Marks that the digest of the record at a position differs.
pub(crate) fn mark_at(states: &mut [DigestState], position: usize)
    requires { position < length states.old }
    ensures { (others : List (List SeenFinding)) → length others ≡ length states.old →
        each_with others states.new ≡ mark_at (each_with others states.old) position }
{
    states[position] = states[position].marked();
}
