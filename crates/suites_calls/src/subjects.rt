//! What a case asks and lets grow: an archive or a listing.

use crate::all::{all_of, all_of_listing};
use crate::calls::{close, opened};
use crate::single_calls::{ask_archive, ask_listing};
use std::alloc::{AllocError, Allocator, Global};
use suites_script::Case;
use warc::{Archive, Listing};
use warc_frame::{Fault, Sink, Source};

/// An archive or a listing, which has to be closed.
pub(crate) enum Subject<S: Source, A: Allocator> {
    OfArchive(Archive<S, A>),
    OfListing(Listing<S, A>),
}

/// The listing of a source, or why it doesn't open.
fn listed<S: Source + Drop, A: Allocator + Copy>(
    heap: A,
    source: S,
) -> Result<Subject<S, A>, Fault> {
    match Listing::open(heap, source) {
        Ok(listing) => Ok(Subject::OfListing(listing)),
        Err((fault, _source)) => Err(fault),
    }
}

/// The archive of a source, or why it doesn't open.
fn indexed<S: Source + Drop, A: Allocator + Copy>(
    heap: A,
    source: S,
) -> Result<Subject<S, A>, Fault> {
    match opened(heap, source) {
        Ok(archive) => Ok(Subject::OfArchive(archive)),
        Err(fault) => Err(fault),
    }
}

impl<S: Source + Drop, A: Allocator + Copy> Subject<S, A> {
    /// Opens what a word names, or says why it doesn't open: a listing by `listing`, and else an archive.
    pub(crate) fn open(name: &str, heap: A, source: S) -> Result<Subject<S, A>, Fault> {
        if name == "listing" {
            listed(heap, source)
        } else {
            indexed(heap, source)
        }
    }

    /// What it answers to the call that the third word of a case names.
    pub(crate) fn ask<W: Sink>(
        &mut self,
        alloc: Global,
        case: &Case<'_>,
        out: &mut W,
    ) -> Result<Vec<u8>, AllocError> {
        match self {
            Subject::OfArchive(archive) => ask_archive(alloc, archive, case, out),
            Subject::OfListing(listing) => ask_listing(alloc, listing, case, out),
        }
    }

    /// Lets it grow by a source.
    pub(crate) fn grow(&mut self, source: S) -> Result<(), (Fault, S)> {
        match self {
            Subject::OfArchive(archive) => archive.grow(source),
            Subject::OfListing(listing) => listing.grow(source),
        }
    }

    /// Why it doesn't grow by a source, if it doesn't.
    pub(crate) fn refused(&mut self, source: S) -> Option<Fault> {
        match self.grow(source) {
            Ok(()) => None,
            Err((fault, _source)) => Some(fault),
        }
    }

    /// Lets it go, and its source.
    pub(crate) fn close(self) {
        match self {
            Subject::OfArchive(archive) => close(archive),
            Subject::OfListing(listing) => {
                listing.into_source();
            }
        }
    }

    /// All that it answers.
    pub(crate) fn all(&mut self, alloc: Global) -> Result<Vec<u8>, AllocError> {
        match self {
            Subject::OfArchive(archive) => all_of(alloc, archive),
            Subject::OfListing(listing) => all_of_listing(alloc, listing),
        }
    }
}
