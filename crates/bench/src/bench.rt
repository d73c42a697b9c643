// A bench image: a lent buffer that can be written, whose first pages are locked.
ghost use Rattle.std.specs.Prelude.{◌≡◌, [], ◌∷◌, length};
ghost use Rattle.std.specs.Coded.{Coded-set};
ghost use Rattle.fault.specs.Faults.{unless};
ghost use Rattle.image.specs.Pages.{WellFormed, extent_of};
ghost use Rattle.bench.specs.Benches.{bench_answer, bench_held, bench_made, bench_rows};
ghost use Rattle.bench.specs.Buffers.{extent_over};

use crate::cut;
use fault::{Fault, Refusal};
use image::{EditableImage, Extent, Image, PageState};

// Where its making was refused, it is an image of no pages.
#[derive(Drop)]
pub struct BenchImage<'a> {
    buffer: &'a mut [u8],
    extent: Extent,
    locked: usize,
    ghost large: { extent ≡ extent_of (bench_held extent locked buffer.now) } by { Coded-set extent-code _ _ },
    ghost sound: { WellFormed (bench_held extent locked buffer.now) },
}

// How large the image of `len` bytes is, or why there is none.
fn fitted(size: usize, locked: usize, len: usize) -> Result<Extent, Fault>
    ensures { result ≡ unless (bench_rows size locked len) (extent_over size len) }
{
    let extent = cut::extent(size, len).ok_or(Fault::new(Refusal::ImageShape, 0))?;
    if locked > extent.count {
        return Err(Fault::new(Refusal::LockedPages, 0));
    }
    Ok(extent)
}

impl<'a> BenchImage<'a> {
    // Whether `buffer` can be an image of `size` bytes a page whose first `locked` pages are locked.
    pub fn check(size: usize, locked: usize, buffer: &[u8]) -> Result<(), Fault>
        ensures { result ≡ bench_answer size locked (length buffer.now) }
    {
        fitted(size, locked, buffer.len())?;
        Ok(())
    }

    // The image in `buffer`, where its writes land.
    pub fn make(size: usize, locked: usize, buffer: &'a mut [u8]) -> BenchImage<'a>
        ensures meaning { bench_held result.extent result.locked result.buffer.now ≡ bench_made size locked buffer.old }
        ensures bytes { result.buffer.now ≡ buffer.old }
        ensures lent { result.buffer.ghost_name ≡ buffer.entry.ghost_name }
        ensures extent { result.extent ≡ extent_of (bench_made size locked buffer.old) }
        ensures locked { result.locked ≡ locked }
    {
        let extent = fitted(size, locked, buffer.len()).unwrap_or(Extent::none());
        BenchImage {
            buffer,
            extent,
            locked,
        }
    }
}

impl<'a> Image for BenchImage<'a> {
    ghost meaning = { λ b. bench_held b.extent b.locked b.buffer.now };

    ghost frame = { λ b. b.buffer.ghost_name ∷ b.extent.size ∷ b.extent.count ∷ b.extent.last ∷ b.locked ∷ [] };

    ghost sound = { λ b. b.sound };

    fn extent(&self) -> Extent {
        self.extent
    }

    fn state(&self, page: usize) -> PageState {
        if page >= self.extent.count {
            return PageState::UNREADABLE;
        }
        PageState {
            readable: true,
            locked: page < self.locked,
        }
    }

    fn read(&self, page: usize, out: &mut [u8]) -> Result<(), Fault> {
        self.check_read(page, out.len())?;
        out.copy_from_slice(cut::page_in(self.buffer, self.extent.size, page));
        Ok(())
    }
}

impl<'a> EditableImage for BenchImage<'a> {
    fn write(&mut self, page: usize, bytes: &[u8]) -> Result<(), Fault> {
        self.check_write(page, bytes.len())?;
        let start = page * self.extent.size;
        let end = start + bytes.len();
        self.buffer[start..end].copy_from_slice(bytes);
        Ok(())
    }
}
