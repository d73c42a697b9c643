// What may be done with a page.
ghost use Rattle.std.specs.Prelude.{◌≡◌, ◌++◌, Some, codes, decimal};
ghost use Rattle.image.specs.Pages.{state_of};

use std::error::Error;
use std::fmt;

// A locked page can be read, but not written.
#[derive(Clone, Copy, PartialEq, Eq, Debug)]
pub struct PageState {
    pub readable: bool,
    pub locked: bool,
}

impl PageState {
    pub const FINE: PageState = PageState {
        readable: true,
        locked: false,
    };

    pub const LOCKED: PageState = PageState {
        readable: true,
        locked: true,
    };

    // A page that there is not is answered for like one that cannot be read.
    pub const UNREADABLE: PageState = PageState {
        readable: false,
        locked: false,
    };
}

// A state byte that stands for no state.
#[derive(Clone, Copy, PartialEq, Eq, Debug)]
pub struct StrangeState(pub u8);

// Written out, since a derive states no text in its contract.
impl fmt::Display for StrangeState {
    ghost output = { λ s. Some (codes "no page state is " ++ decimal s.0) };

    fn fmt<W: fmt::Write>(&self, f: &mut fmt::Formatter<W>) -> fmt::Result {
        let byte = self.0;
        write!(f, "no page state is {byte}")
    }
}

impl Error for StrangeState {}

// The state byte that a dump of a chip has for a page.
impl TryFrom<u8> for PageState {
    type Error = StrangeState;

    ghost try_from_gives = { λ byte r. r ≡ state_of byte };

    fn try_from(byte: u8) -> Result<PageState, StrangeState> {
        match byte {
            0 => Ok(PageState::FINE),
            1 => Ok(PageState::LOCKED),
            2 => Ok(PageState::UNREADABLE),
            _ => Err(StrangeState(byte)),
        }
    }
}
