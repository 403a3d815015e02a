//! An open archive that the page keeps between questions.
ghost use Rattle.std.specs.Prelude.{◌≡◌, true, false, is_some};
ghost use Rattle.warc_page.specs.Handle.{owns_lasting};

use std::marker::Model;
use std::mem;
use std::ptr::null_mut;
use warc::Archive;
use warc_frame::SliceSource;
use warc_heap::Heap;

/// An archive over bytes that the page keeps where they are. Its memory is never given back.
pub type Open = Archive<SliceSource<'static>, &'static Heap>;

/// An open archive, or none. The page keeps it, all zeros at first, and never copies it.
#[repr(C)]
pub struct PageArchive {
    at: *mut u8,
    is_open: bool,
}

impl Model for PageArchive {
    ghost also_owns = { λ h. owns_lasting h.at h.is_open };
}

impl PageArchive {
    /// A handle that holds no archive.
    fn closed() -> PageArchive
        ensures { result.is_open ≡ false }
    {
        PageArchive {
            at: null_mut(),
            is_open: false,
        }
    }

    /// A handle that holds an archive.
    fn holding(archive: &'static mut Open) -> PageArchive
        ensures { result.is_open ≡ true }
    {
        let at = archive as *mut Open;
        let at = at as *mut u8;
        PageArchive { at, is_open: true }
    }

    /// The archive that it holds, if it holds one.
    fn into_archive(self) -> Option<&'static mut Open>
        ensures { is_some result ≡ self.is_open }
    {
        let PageArchive { at, is_open } = self;
        unsafe {
            if is_open {
                let at = at as *mut Open;
                Some(&mut *at)
            } else {
                None
            }
        }
    }

    /// Takes out the archive, if one is open, and leaves none.
    pub(crate) fn take(&mut self) -> Option<&'static mut Open>
        ensures taken { is_some result ≡ self.old.is_open }
        ensures left { self.new.is_open ≡ false }
    {
        mem::replace(self, PageArchive::closed()).into_archive()
    }

    /// Puts in an archive, in the place of one that is open, which is forgotten.
    pub(crate) fn put(&mut self, archive: &'static mut Open)
        ensures { self.new.is_open ≡ true }
    {
        let old = mem::replace(self, PageArchive::holding(archive));
        let _forgotten = old.into_archive();
    }
}
