// An image that is lent to be read.
ghost use Rattle.std.specs.Prelude.{◌≡◌, []};

use crate::{Extent, Image, PageState};
use fault::Fault;

#[derive(Drop)]
pub struct Lent<'a, I> {
    image: &'a I,
}

impl<'a, I: Image> Lent<'a, I> {
    // The image, to be read as long as the loan lasts.
    pub fn of(image: &'a I) -> Lent<'a, I>
        ensures { result.image.now ≡ image.now }
    {
        Lent { image }
    }
}

impl<'a, I: Image> Image for Lent<'a, I> {
    ghost meaning = { λ l. I.Image.meaning l.image.now };

    ghost frame = { λ l. [] };

    ghost sound = { λ l. I.Image.sound l.image.now };

    fn extent(&self) -> Extent {
        self.image.extent()
    }

    fn state(&self, page: usize) -> PageState {
        self.image.state(page)
    }

    fn read(&self, page: usize, out: &mut [u8]) -> Result<(), Fault> {
        self.image.read(page, out)
    }
}
