// How large an image is, and what that says of its pages.
ghost use Rattle.std.specs.Prelude.{◌≡◌};
ghost use Rattle.fault.specs.Faults.{unless};
ghost use Rattle.image.specs.Answers.{read_rows, write_rows};
ghost use Rattle.image.specs.Pages.{extent_of, length_in, no_pages};

use crate::PageState;
use fault::{Fault, Refusal};

// The page length, the number of pages, and the length of the last page, 0 of no pages.
#[derive(Clone, Copy)]
pub struct Extent {
    pub size: usize,
    pub count: usize,
    pub last: usize,
}

impl Extent {
    // The extent of an image of no pages.
    pub fn none() -> Extent
        ensures { result ≡ extent_of no_pages }
    {
        Extent {
            size: 64,
            count: 0,
            last: 0,
        }
    }

    // How many bytes a page has; an absent one has 0.
    pub fn length_of(self, page: usize) -> usize
        ensures { result ≡ length_in self page }
    {
        if page >= self.count {
            return 0;
        }
        if page == self.count - 1 {
            return self.last;
        }
        self.size
    }

    // What a read of a page in this state into `len` bytes answers.
    pub fn check_read(self, page: usize, len: usize, state: PageState) -> Result<(), Fault>
        ensures { result ≡ unless (read_rows self.count (length_in self page) state.readable page len) tt }
    {
        if page >= self.count {
            return Err(Fault::new(Refusal::PageAbsent, page));
        }
        if len != self.length_of(page) {
            return Err(Fault::new(Refusal::PageBuffer, page));
        }
        if !state.readable {
            return Err(Fault::new(Refusal::PageUnreadable, page));
        }
        Ok(())
    }

    // What a write of `len` bytes to a page in this state answers.
    pub fn check_write(self, page: usize, len: usize, state: PageState) -> Result<(), Fault>
        ensures { result ≡ unless (write_rows self.count (length_in self page) state page len) tt }
    {
        self.check_read(page, len, state)?;
        if state.locked {
            return Err(Fault::new(Refusal::PageLocked, page));
        }
        Ok(())
    }
}
