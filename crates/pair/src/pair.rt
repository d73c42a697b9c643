// A pair: the pages of one image, and then those of another.
ghost use Rattle.std.specs.Prelude.{◌≡◌, ◌++◌};
ghost use Rattle.pair.specs.Pairs.{joined_extent, pair_answer, pair_made, part_at};
ghost use Rattle.pair.specs.Sound.{pair_sound};

use fault::{Fault, Refusal};
use image::{EditableImage, Extent, Image, PageState};

// Where the two cannot be joined, it is an image of no pages.
#[derive(Drop)]
pub struct Pair<A, B> {
    first: A,
    second: B,
}

// The part of a pair that has a page, and the page's number there.
#[derive(Clone, Copy)]
enum Part {
    First(usize),
    Second(usize),
}

// How large two images of these extents are as one, where they can be joined.
fn joined(a: Extent, b: Extent) -> Option<Extent>
    ensures { result ≡ joined_extent a b }
{
    if a.count == 0 || b.count == 0 {
        return None;
    }
    if a.size != b.size || a.last != a.size {
        return None;
    }
    if a.count > 4096 || b.count > 4096 - a.count {
        return None;
    }
    Some(Extent {
        size: a.size,
        count: a.count + b.count,
        last: b.last,
    })
}

// The same fault, about this page.
fn about(fault: Fault, page: usize) -> Fault
    ensures { result ≡ record fault { place = page } }
{
    Fault {
        place: page,
        ..fault
    }
}

impl<A: Image, B: Image> Pair<A, B> {
    // Whether the two can be joined.
    pub fn check(first: &A, second: &B) -> Result<(), Fault>
        ensures { result ≡ pair_answer (A.Image.meaning first.now) (B.Image.meaning second.now) }
    {
        joined(first.extent(), second.extent()).ok_or(Fault::new(Refusal::PairParts, 0))?;
        Ok(())
    }

    // The two as one image.
    pub fn make(first: A, second: B) -> Pair<A, B>
        ensures { result ≡ record { first = first; second = second } }
    {
        Pair { first, second }
    }

    // Where a page lies, if the two are joined; pages past the end are the second's.
    fn part(&self, page: usize) -> Option<Part>
        ensures { result ≡ part_at (A.Image.meaning self.now.first) (B.Image.meaning self.now.second) page }
    {
        let front = self.first.extent();
        joined(front, self.second.extent())?;
        if page < front.count {
            Some(Part::First(page))
        } else {
            Some(Part::Second(page - front.count))
        }
    }
}

impl<A: Image, B: Image> Image for Pair<A, B> {
    ghost meaning = { λ p. pair_made (A.Image.meaning p.first) (B.Image.meaning p.second) };

    ghost frame = { λ p. A.Image.frame p.first ++ B.Image.frame p.second };

    ghost sound = { λ p. pair_sound (A.Image.meaning p.first) (B.Image.meaning p.second) (A.Image.sound p.first) (B.Image.sound p.second) };

    fn extent(&self) -> Extent {
        joined(self.first.extent(), self.second.extent()).unwrap_or(Extent::none())
    }

    fn state(&self, page: usize) -> PageState {
        match self.part(page) {
            None => PageState::UNREADABLE,
            Some(Part::First(there)) => self.first.state(there),
            Some(Part::Second(there)) => self.second.state(there),
        }
    }

    fn read(&self, page: usize, out: &mut [u8]) -> Result<(), Fault> {
        match self.part(page) {
            None => Err(Fault::new(Refusal::PageAbsent, page)),
            Some(Part::First(there)) => self.first.read(there, out),
            Some(Part::Second(there)) => {
                let answer = self.second.read(there, out);
                answer.map_err(|fault| about(fault, page))
            }
        }
    }
}

impl<A: EditableImage, B: EditableImage> EditableImage for Pair<A, B> {
    fn write(&mut self, page: usize, bytes: &[u8]) -> Result<(), Fault> {
        match self.part(page) {
            None => Err(Fault::new(Refusal::PageAbsent, page)),
            Some(Part::First(there)) => self.first.write(there, bytes),
            Some(Part::Second(there)) => {
                let answer = self.second.write(there, bytes);
                answer.map_err(|fault| about(fault, page))
            }
        }
    }
}
