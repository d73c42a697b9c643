// What every kind of image can do.
ghost use Rattle.std.specs.Prelude.{◌≡◌, false, List, length, is_ok};
ghost use Rattle.std.specs.Borrow.{GName};
ghost use Rattle.image.specs.Answers.{read_answer, read_out, write_answer, written};
ghost use Rattle.image.specs.Pages.{Pages, WellFormed, count, extent_of, length_at, page_at};

use crate::{Extent, PageState};
use fault::Fault;

// An image that can be read.
pub trait Image {
    // The pages that it stands for.
    ghost meaning: { Self → Pages };

    // What no write changes: which buffers the image has on loan, and its own numbers.
    // By it, one who lent a buffer knows that what generic code wrote stands there.
    ghost frame: { Self → List GName };

    // The proof that the image is well-formed.
    ghost sound: { (i : Self) → WellFormed (meaning i) };

    // How large it is.
    fn extent(&self) -> Extent
        ensures { result ≡ extent_of (meaning self.now) };

    // What may be done with a page; with an absent one, nothing.
    fn state(&self, page: usize) -> PageState
        ensures { result ≡ (page_at (meaning self.now) page).state };

    // Copies a page into `out`, which must be as long as the page.
    fn read(&self, page: usize, out: &mut [u8]) -> Result<(), Fault>
        ensures answer { result ≡ read_answer (meaning self.now) page (length out.old) }
        ensures out { out.new ≡ read_out (meaning self.now) page out.old };

    fn page_length(&self) -> usize
        ensures { result ≡ (meaning self.now).size }
    {
        self.extent().size
    }

    fn page_count(&self) -> usize
        ensures { result ≡ count (meaning self.now) }
    {
        self.extent().count
    }

    // How many bytes a page has; an absent one has 0.
    fn length_of(&self, page: usize) -> usize
        ensures { result ≡ length_at (meaning self.now) page }
    {
        self.extent().length_of(page)
    }

    // Whether a page can be read; an absent one cannot.
    fn is_readable(&self, page: usize) -> bool
        ensures { result ≡ (page_at (meaning self.now) page).state.readable }
    {
        self.state(page).readable
    }

    // Whether a page is locked; an absent one is not.
    fn is_locked(&self, page: usize) -> bool
        ensures { result ≡ (page_at (meaning self.now) page).state.locked }
    {
        self.state(page).locked
    }

    // Whether a page can be read into `len` bytes, for one who must know before.
    fn check_read(&self, page: usize, len: usize) -> Result<(), Fault>
        ensures { result ≡ read_answer (meaning self.now) page len }
    {
        self.extent().check_read(page, len, self.state(page))
    }

    // Whether `len` bytes can be written to a page, for one who must know before.
    fn check_write(&self, page: usize, len: usize) -> Result<(), Fault>
        ensures { result ≡ write_answer (meaning self.now) page len }
    {
        self.extent().check_write(page, len, self.state(page))
    }
}

// An image that can be written too.
pub trait EditableImage: Image {
    // Puts a whole page.
    fn write(&mut self, page: usize, bytes: &[u8]) -> Result<(), Fault>
        ensures answer { result ≡ write_answer (Self.Image.meaning self.old) page (length bytes.now) }
        ensures after { Self.Image.meaning self.new ≡ written (Self.Image.meaning self.old) page bytes.now }
        ensures frame { Self.Image.frame self.new ≡ Self.Image.frame self.old }
        ensures kept { is_ok result ≡ false → self.new ≡ self.old };
}
