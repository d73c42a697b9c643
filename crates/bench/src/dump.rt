// A dump of a chip: a buffer to read, and one state byte for each page.
ghost use Rattle.std.specs.Prelude.{◌≡◌, [], length};
ghost use Rattle.bench.specs.Dumps.{any_strange, dump_answer, dump_held, dump_made};
ghost use Rattle.bench.specs.Sound.{dump_sound};

use crate::cut;
use fault::{Fault, Refusal};
use image::{Extent, Image, PageState};

// Bytes and states are two buffers, since whoever reads a chip lends them so, and nothing is allocated to bring them together.
// It has what it was made from; where that is refused, it has no bytes, and so no pages.
// Tried: to hold its extent with a ghost field, as a bench image does. A pair of the two then gets no proof as a type argument, so as a part of a pair.
#[derive(Drop)]
pub struct ChipDump<'a> {
    buffer: &'a [u8],
    states: &'a [u8],
    size: usize,
}

// Whether a state byte stands for no state.
fn has_strange(states: &[u8]) -> bool
    ensures { result ≡ any_strange states.now }
{
    states
        .iter()
        .any(|state| PageState::try_from(*state).is_err())
}

impl<'a> ChipDump<'a> {
    // Whether `buffer` can be an image of `size` bytes a page whose pages are in these states.
    pub fn check(size: usize, states: &[u8], buffer: &[u8]) -> Result<(), Fault>
        ensures { result ≡ dump_answer size states.now (length buffer.now) }
    {
        let extent = cut::extent(size, buffer.len()).ok_or(Fault::new(Refusal::ImageShape, 0))?;
        if states.len() != extent.count || has_strange(states) {
            return Err(Fault::new(Refusal::PageStates, 0));
        }
        Ok(())
    }

    // The image in `buffer`.
    pub fn make(size: usize, states: &'a [u8], buffer: &'a [u8]) -> ChipDump<'a>
        ensures { dump_held result.size result.states.now result.buffer.now ≡ dump_made size states.now buffer.now }
    {
        match ChipDump::check(size, states, buffer) {
            Ok(()) => ChipDump {
                buffer,
                states,
                size,
            },
            Err(_) => ChipDump {
                buffer: &[],
                states: &[],
                size,
            },
        }
    }
}

impl<'a> Image for ChipDump<'a> {
    ghost meaning = { λ d. dump_held d.size d.states.now d.buffer.now };

    ghost frame = { λ d. [] };

    ghost sound = { λ d. dump_sound d.size d.states.now d.buffer.now };

    fn extent(&self) -> Extent {
        match cut::extent(self.size, self.buffer.len()) {
            Some(extent) if extent.count == self.states.len() => extent,
            _ => Extent::none(),
        }
    }

    fn state(&self, page: usize) -> PageState {
        if page >= self.extent().count {
            return PageState::UNREADABLE;
        }
        // A strange state byte was refused when the dump was made.
        PageState::try_from(self.states[page]).unwrap_or(PageState::FINE)
    }

    fn read(&self, page: usize, out: &mut [u8]) -> Result<(), Fault> {
        self.check_read(page, out.len())?;
        out.copy_from_slice(cut::page_in(self.buffer, self.size, page));
        Ok(())
    }
}
