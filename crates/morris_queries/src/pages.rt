//! Files of the system with a cache of the pages that were read last.
ghost use Rattle.std.specs.Prelude.{◌≡◌, ◌/◌, ◌%◌, ◌<◌, length, take, drop, None, IfOk, IsTrue};

use morris_board::streams::Failed;
use morris_lookup::storage::Storage;
use std::alloc::{AllocError, Global};
use std::cell::RefCell;
use std::fs::File;
use std::os::unix::fs::FileExt;

/// How many bytes a page has, and how many pages of a file are cached.
const PAGE: u64 = 4096;

const CACHED_PAGES: u64 = 16;

/// A file with a cache of the pages that were read last. The positions after the moves of one
/// position have their entries near one another, so that most of them need no call of the system.
#[derive(Drop)]
pub struct PagedFile {
    file: File,
    pages: RefCell<Vec<Page>>,
}

/// A page of a file.
#[derive(Drop)]
struct Page {
    /// Which one it is, from 0.
    number: u64,
    /// How many of its bytes were read.
    count: usize,
    bytes: Vec<u8>,
}

impl PagedFile {
    /// The file, with an empty cache.
    ///
    /// # Errors
    /// [`AllocError`] where memory runs out. No other call takes memory.
    pub fn new(alloc: Global, file: File) -> Result<PagedFile, AllocError>
        ensures { IfOk result (λ paged. paged.file ≡ file) }
    {
        let mut pages = Vec::with_capacity(alloc, CACHED_PAGES as usize)?;
        for _ in 0..CACHED_PAGES {
            pages.push(Page {
                number: u64::MAX,
                count: 0,
                bytes: vec![in alloc; 0u8; PAGE as usize]?,
            })?;
        }
        Ok(PagedFile {
            file,
            pages: RefCell::new(pages),
        })
    }
}

/// What the bytes are isn't known, as of the file itself.
impl Storage for PagedFile {
    ghost contents = { λ _. None };

    ghost held = { λ _. None };

    ghost contents_held = { λ _. tt };

    fn len(&self) -> Result<u64, Failed> {
        self.file.len()
    }

    fn read_at(&self, place: u64, out: &mut [u8]) -> Result<(), Failed> {
        if let Ok(mut pages) = self.pages.try_borrow_mut() {
            // Pages whose numbers differ by a multiple of `CACHED_PAGES` share one place in the
            // cache.
            if let Some(page) = (*pages).get_mut((place / PAGE % CACHED_PAGES) as usize) {
                if page.read(&self.file, place, out) {
                    return Ok(());
                }
            }
        }
        Storage::read_at(&self.file, place, out)
    }
}

impl Page {
    /// Becomes the page that has the place of a file, where it isn't yet, and fills `out` with the
    /// bytes from there on, where it has them; says whether it did.
    fn read(&mut self, file: &File, place: u64, out: &mut [u8]) -> bool
        ensures number { self.new.number ≡ place / 4096 }
        ensures copied { IsTrue result → out.new ≡ take (length out.old) (drop (place % 4096) self.new.bytes.items) }
    {
        let number = place / PAGE;
        if self.number != number {
            self.number = number;
            let bytes = self.bytes.as_mut_slice();
            self.count = FileExt::read_at(file, bytes, number * PAGE).unwrap_or(0);
        }
        self.copy_to((place % PAGE) as usize, out)
    }

    /// Fills `out` with the bytes from a place of the page on, where they were read; says whether
    /// it did.
    fn copy_to(&self, place: usize, out: &mut [u8]) -> bool
        requires { place < 4096 }
        ensures { IsTrue result → out.new ≡ take (length out.old) (drop place self.now.bytes.items) }
    {
        let end = place + out.len();
        if self.count < end {
            return false;
        }
        if self.bytes.len() < end {
            return false;
        }
        out.copy_from_slice(&self.bytes[place..end]);
        true
    }
}
