//! What is kept of a record for the chain of referents.

ghost use Rattle.std.specs.Prelude.{◌≡◌, [], Some};
ghost use Rattle.warc_record.specs.Readings.{unless_empty};
ghost use Rattle.warc_record.specs.Seen.{said};
ghost use Rattle.warc_index.specs.Captures.{indexed_of};
ghost use Rattle.warc_index.specs.Links.{first_mark, link, link_seen};
ghost use Rattle.warc_index.specs.declared.link.Role.TheVariants.{Digested};
ghost use Rattle.warc_index.specs.Linked.{instant_mark, payload_link, unnamed_link, revisit_link, link_of};

use crate::link::{FIRST, Link, Role, bare};
use warc_order::Mark;
use warc_record::{Kind, Typed};
use warc_value::Moment;

/// The mark of an instant.
pub(crate) fn mark_at(moment: &Moment) -> Mark
    ensures { result ≡ instant_mark moment.now }
{
    Mark {
        major: moment.day(),
        minor: moment.nanosecond(),
    }
}

/// What is kept of a response or a resource that states this payload digest.
fn digested(digest: &[u8]) -> Link<'_>
    ensures { link_seen result ≡ link Digested digest.now [] first_mark }
{
    Link {
        role: Role::Digested,
        first: digest,
        second: &[],
        mark: FIRST,
    }
}

/// What is kept of a response or a resource.
fn payload_link<'a>(typed: &Typed<'a>) -> Link<'a>
    ensures { link_seen result ≡ payload_link (unless_empty typed.now.payload_digest.now) }
{
    if typed.payload_digest.is_empty() {
        bare(Role::Payload)
    } else {
        digested(typed.payload_digest)
    }
}

/// What is kept of a revisit that names nothing.
fn unnamed_link<'a>(typed: &Typed<'a>) -> Link<'a>
    ensures { link_seen result
        ≡ unnamed_link (unless_empty typed.now.payload_digest.now) (Some typed.now.moment) }
{
    if typed.payload_digest.is_empty() {
        return bare(Role::LeadsNowhere);
    }
    Link {
        role: Role::NamesNothing,
        first: typed.payload_digest,
        second: &[],
        mark: mark_at(&typed.moment),
    }
}

/// What is kept of a revisit.
fn revisit_link<'t>(typed: &'t Typed<'_>) -> Link<'t>
    ensures { link_seen result ≡ revisit_link typed.now.reference.known_profile (indexed_of (said typed.now)) }
{
    let reference = &typed.reference;
    if !reference.known_profile {
        return bare(Role::UnknownProfile);
    }
    match (&reference.named_id, &reference.named_pair) {
        (None, None) => unnamed_link(typed),
        (Some(id), None) => Link {
            role: Role::NamesId,
            first: id.bytes(),
            second: &[],
            mark: FIRST,
        },
        (None, Some(pair)) => Link {
            role: Role::NamesPair,
            first: &[],
            second: pair.target,
            mark: mark_at(&pair.moment),
        },
        (Some(id), Some(pair)) => Link {
            role: Role::NamesBoth,
            first: id.bytes(),
            second: pair.target,
            mark: mark_at(&pair.moment),
        },
    }
}

/// What is kept of a record.
pub(crate) fn link_of<'t>(typed: &'t Typed<'_>) -> Link<'t>
    ensures { link_seen result ≡ link_of (indexed_of (said typed.now)) }
{
    match typed.kind {
        Kind::Response | Kind::Resource => payload_link(typed),
        Kind::Revisit => revisit_link(typed),
        _ => bare(Role::Other),
    }
}
