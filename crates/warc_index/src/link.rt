//! What is kept of each record for the chain of referents, in flat lists.

ghost use Rattle.std.specs.Prelude.{◌≡◌, [], ◌∷◌, ◌++◌, take, drop, OnOk, OnErr, IfOk};
ghost use Rattle.std.specs.List.{sum_by};
ghost use Rattle.warc_index.specs.Links.{bare_link, link_at, link_bytes, link_seen};

use std::alloc::{AllocError, Allocator, Global};
use std::marker::Model;
use warc_order::{Column, Entries, Mark, narrow};

/// The least mark.
pub(crate) const FIRST: Mark = Mark { major: 0, minor: 0 };

/// What a record is in a chain of referents.
#[derive(Clone, Copy, PartialEq, Eq, Debug)]
pub(crate) enum Role {
    /// Not a capture.
    Other,

    /// A response or a resource that states no payload digest.
    Payload,

    /// A response or a resource that states the digest in `first`.
    Digested,

    /// A revisit whose profile isn't known.
    UnknownProfile,

    /// A revisit that names the id in `first`, and no pair.
    NamesId,

    /// A revisit that names the target in `second` and the instant of the mark, and no id.
    NamesPair,

    /// A revisit that names both.
    NamesBoth,

    /// A revisit that names nothing, with its payload digest in `first` and the instant of the mark. Its target is in
    /// the order by target.
    NamesNothing,

    /// A revisit that names nothing, without a payload digest.
    LeadsNowhere,
}

/// What is kept of a record.
#[derive(Clone, Copy)]
pub(crate) struct Link<'a> {
    pub(crate) role: Role,
    pub(crate) first: &'a [u8],
    pub(crate) second: &'a [u8],
    pub(crate) mark: Mark,
}

/// A role alone.
pub(crate) fn bare(role: Role) -> Link<'static>
    ensures { link_seen result ≡ bare_link role }
{
    Link {
        role,
        first: &[],
        second: &[],
        mark: FIRST,
    }
}

/// What is kept of records, by their positions: 9 bytes of each and its two texts, 4 more from the first on that has a
/// first text, and up to 12 more from the first on that has a mark.
#[derive(Drop)]
pub(crate) struct Links<A: Allocator = Global> {
    roles: Vec<Role, A>,

    /// For each the place where its second text begins. Blank is 0.
    middles: Column<u32, A>,

    /// The two texts of each, one after the other.
    texts: Entries<A>,
}

impl<A: Allocator> Model for Links<A> {
    ghost use Rattle.std.specs.Prelude.{List};
    ghost use Rattle.warc_order.specs.Columns.{values};
    ghost use Rattle.warc_index.specs.Links.{Link as Held, AreAligned, at_start, links_in};

    ghost Value = { List Held };

    ghost view = { λ s. links_in s.roles.items (values at_start s.middles) s.texts };

    ghost invariant = { λ s. AreAligned s.roles.items (values at_start s.middles) s.texts };
}

/// A text, cut in two.
fn cut(text: &[u8], middle: usize) -> (&[u8], &[u8])
    ensures first { result.0.now ≡ take middle text.now }
    ensures second { result.1.now ≡ drop middle text.now }
{
    if middle <= text.len() {
        (&text[..middle], &text[middle..])
    } else {
        (text, &[])
    }
}

/// Two texts, one after the other.
fn joined<A: Allocator>(alloc: A, first: &[u8], second: &[u8]) -> Result<Vec<u8, A>, AllocError>
    ensures { IfOk result (λ text. text.items ≡ first.now ++ second.now) }
{
    let mut text = Vec::new(alloc);
    text.extend_from_slice(first)?;
    text.extend_from_slice(second)?;
    Ok(text)
}

impl<A: Allocator + Copy> Links<A> {
    pub(crate) fn new(alloc: A) -> Links<A>
        ensures { result ≡ [] }
    {
        Links {
            roles: Vec::new(alloc),
            middles: Column::new(alloc),
            texts: Entries::new(alloc),
        }
    }

    /// The bytes of all texts.
    pub(crate) fn kept(&self) -> u64
        ensures { result ≡ sum_by link_bytes self.now }
    {
        self.texts.kept()
    }

    /// What is kept of the record at a position; past the end, of a record that isn't a capture.
    pub(crate) fn link(&self, position: usize) -> Link<'_>
        ensures { link_seen result ≡ link_at self.now position }
    {
        if position >= self.roles.len() {
            return bare(Role::Other);
        }
        let middle = self.middles.get(position).unwrap_or(0) as usize;
        let (first, second) = cut(self.texts.text(position), middle);
        Link {
            role: self.roles[position],
            first,
            second,
            mark: self.texts.mark(position),
        }
    }

    /// Adds what is kept of the next record. `Err`: no memory for it, or 2^32 records or bytes of a text; then nothing
    /// changes.
    pub(crate) fn add(&mut self, link: &Link) -> Result<(), AllocError>
        ensures ok { OnOk result (self.new ≡ self.old ++ link_seen link.now ∷ []) }
        ensures err { OnErr result (self.new ≡ self.old) }
    {
        let position = narrow(self.roles.len())?;
        let middle = narrow(link.first.len())?;
        let text = joined(*self.roles.allocator(), link.first, link.second)?;
        self.roles.reserve(1)?;
        self.middles.reserve(middle == 0)?;
        self.texts.add(&text, link.mark, position)?;
        self.roles.push_reserved(link.role);
        self.middles.push_reserved(middle, middle == 0);
        Ok(())
    }

    /// Keeps the first `count` records. It doesn't allocate.
    pub(crate) fn truncate(&mut self, count: usize)
        ensures { self.new ≡ take count self.old }
    {
        self.roles.truncate(count);
        self.middles.truncate(count);
        self.texts.truncate(count);
    }
}
