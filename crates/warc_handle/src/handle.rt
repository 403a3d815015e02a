//! An open archive, in a form that C can keep.
ghost use Rattle.std.specs.Prelude.{◌≡◌, true, false, is_some};
ghost use Rattle.warc_handle.specs.Handle.{handle_owns};

use crate::detached::Detached;
use std::alloc::Global;
use std::marker::Model;
use std::mem;
use std::ptr::null_mut;
use warc::Archive;
use warc_frame::SliceSource;

/// An archive over bytes that are lent until it is closed.
pub type Open = Archive<SliceSource<'static>>;

/// An open archive, or none. C keeps it, all zeros at first, and never copies it. C can't see what the pointer leads
/// to.
///
/// The bytes are lent for `'static`, since C can't state a shorter lifetime: C keeps them until it closes the archive.
#[repr(C)]
pub struct WarcArchive {
    at: *mut u8,
    is_open: bool,
}

impl Model for WarcArchive {
    ghost also_owns = { λ h. handle_owns h.at h.is_open };
}

impl WarcArchive {
    /// A handle that holds no archive.
    fn closed() -> WarcArchive
        ensures { result.is_open ≡ false }
    {
        WarcArchive {
            at: null_mut(),
            is_open: false,
        }
    }

    /// A handle that holds the archive of a box.
    fn holding(archive: Detached<Open, Global>) -> WarcArchive
        ensures { result.is_open ≡ true }
    {
        let Detached { at, alloc: _ } = archive;
        let at = at as *mut u8;
        WarcArchive { at, is_open: true }
    }

    /// The box of the archive that it holds, if it holds one.
    fn into_detached(self, alloc: Global) -> Option<Detached<Open, Global>>
        ensures { is_some result ≡ self.is_open }
    {
        let WarcArchive { at, is_open } = self;
        if is_open {
            let at = at as *mut Open;
            Some(Detached { at, alloc })
        } else {
            None
        }
    }

    /// Takes out the archive, if one is open, and leaves none.
    pub fn take(&mut self, alloc: Global) -> Option<Box<Open>>
        ensures taken { is_some result ≡ self.old.is_open }
        ensures left { self.new.is_open ≡ false }
    {
        match mem::replace(self, WarcArchive::closed()).into_detached(alloc) {
            Some(detached) => Some(detached.into_box()),
            None => None,
        }
    }

    /// Puts in an archive, in the place of one that is open.
    pub fn put(&mut self, archive: Box<Open>, alloc: Global)
        ensures { self.new.is_open ≡ true }
    {
        let old = mem::replace(self, WarcArchive::holding(Detached::from_box(archive)));
        if let Some(detached) = old.into_detached(alloc) {
            drop(detached.into_box());
        }
    }
}
