// A fault: which refusal, of which module, at which place.
ghost use Rattle.std.specs.Prelude.{◌≡◌, Some};
ghost use Rattle.fault.specs.Faults.{fault, place_of, fault_text};

use crate::{Module, Refusal};
use std::error::Error;
use std::fmt;

// The place is a line of a text, a page of an image, or 0 where it is about neither: the printed fault has a number in any case, which an `Option` would have to be turned into again.
#[derive(Clone, Copy, PartialEq, Eq, Debug)]
pub struct Fault {
    pub number: Refusal,
    pub module: Module,
    pub place: usize,
}

impl Fault {
    // The fault that a refusal gives; `at` is the line or the page that it is about, where it is about one.
    pub fn new(number: Refusal, at: usize) -> Fault
        ensures { result ≡ fault number at }
    {
        Fault {
            number,
            module: number.origin(),
            place: place(number, at),
        }
    }
}

// The layout stands on line 9 of a label and the page length on line 7; for other refusals the caller knows the line or the page.
fn place(number: Refusal, at: usize) -> usize
    ensures { result ≡ place_of number at }
{
    match number {
        Refusal::LineForm
        | Refusal::NumberRange
        | Refusal::BytesLeft
        | Refusal::PageAbsent
        | Refusal::PageBuffer
        | Refusal::PageUnreadable
        | Refusal::PageLocked => at,
        Refusal::LayoutExpected | Refusal::LayoutRegistered => 9,
        Refusal::RegisteredPage => 7,
        _ => 0,
    }
}

// One line to act on: number, module, place, and what is wrong.
impl fmt::Display for Fault {
    ghost output = { λ f. Some (fault_text f) };

    fn fmt<W: fmt::Write>(&self, f: &mut fmt::Formatter<W>) -> fmt::Result {
        let number = u32::from(self.number);
        let module = self.module;
        let place = self.place;
        let sentence = self.number.sentence();
        write!(f, "{number} {module} {place}: {sentence}")
    }
}

impl Error for Fault {}
