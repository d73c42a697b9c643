// Every refusal of the library, by its number, and the sentence that says what is wrong.
ghost use Rattle.std.specs.Prelude.{◌≡◌};
ghost use Rattle.fault.specs.Numbers.{number_of, module_of};
ghost use Rattle.fault.specs.Sentences.{sentence_of};

use crate::Module;

// The numbers are part of the C interface: they never change.
#[derive(Clone, Copy, PartialEq, Eq, Debug)]
pub enum Refusal {
    DigestLength = 11,
    KeyLength = 12,
    StreamLength = 13,
    DigestBuffer = 14,
    NodeInput = 15,
    LineForm = 21,
    NumberRange = 22,
    BytesLeft = 23,
    LabelBuffer = 24,
    ImageShape = 31,
    PageStates = 32,
    LockedPages = 33,
    PairParts = 34,
    PageAbsent = 35,
    PageBuffer = 36,
    PageUnreadable = 37,
    PageLocked = 38,
    HashUnfit = 41,
    PageLength = 42,
    NoPages = 43,
    DepthLimit = 44,
    TableLength = 45,
    SealVoid = 46,
    WorkBuffer = 47,
    PageOpen = 48,
    TicketPage = 49,
    RootWhileOpen = 50,
    NodeMarked = 51,
    RootBuffer = 52,
    PageList = 53,
    LayoutExpected = 61,
    LayoutRegistered = 62,
    RegisteredPage = 63,
}

// The number that C and the program's output have for it.
impl From<Refusal> for u32 {
    ghost from_gives = { λ refusal number. number ≡ number_of refusal };

    fn from(refusal: Refusal) -> u32 {
        refusal as u32
    }
}

impl Refusal {
    // The module whose call is the first to give it.
    pub fn origin(self) -> Module
        ensures { result ≡ module_of self }
    {
        match self {
            Refusal::DigestLength
            | Refusal::KeyLength
            | Refusal::StreamLength
            | Refusal::DigestBuffer => Module::Stream,
            Refusal::NodeInput => Module::Hash,
            Refusal::LineForm | Refusal::NumberRange | Refusal::BytesLeft | Refusal::LabelBuffer =>
                Module::Label,
            Refusal::ImageShape
            | Refusal::PageStates
            | Refusal::LockedPages
            | Refusal::PairParts
            | Refusal::PageAbsent
            | Refusal::PageBuffer
            | Refusal::PageUnreadable
            | Refusal::PageLocked => Module::Image,
            Refusal::HashUnfit
            | Refusal::PageLength
            | Refusal::NoPages
            | Refusal::DepthLimit
            | Refusal::TableLength
            | Refusal::SealVoid
            | Refusal::WorkBuffer
            | Refusal::PageOpen
            | Refusal::TicketPage
            | Refusal::RootWhileOpen
            | Refusal::NodeMarked
            | Refusal::RootBuffer
            | Refusal::PageList => Module::Seal,
            Refusal::LayoutExpected | Refusal::LayoutRegistered | Refusal::RegisteredPage => {
                Module::Check
            }
        }
    }

    // What is wrong, for the person at the bench.
    pub fn sentence(self) -> &'static str
        ensures { result.now ≡ sentence_of self }
    {
        match self {
            Refusal::DigestLength =>
                "the digest length is not 1 to 64 bytes (variant b) or 1 to 32 bytes (variant s)",
            Refusal::KeyLength =>
                "the key is longer than 64 bytes (variant b) or 32 bytes (variant s)",
            Refusal::StreamLength => "the stream would take more than 1099511627776 bytes in all",
            Refusal::DigestBuffer =>
                "the output is not as long as the digest; the stream is used up",
            Refusal::NodeInput =>
                "the input of a node is longer than 4096 bytes, or its output is not as long as the digest",
            Refusal::LineForm => "this line of the label is missing or is not of its form",
            Refusal::NumberRange => "the number on this line of the label is outside its range",
            Refusal::BytesLeft =>
                "bytes are left after the last line; this is the line on which they begin",
            Refusal::LabelBuffer => "the buffer is shorter than the text of the label",
            Refusal::ImageShape =>
                "the page length is not 64 to 4096 bytes, or the image has not 1 to 4096 pages",
            Refusal::PageStates =>
                "the dump has not one state byte for each page, or a state byte is above 2",
            Refusal::LockedPages => "more pages are locked than the image has",
            Refusal::PairParts =>
                "the two parts cannot be joined: one has no pages, their page lengths differ, the first does not end at a page boundary, or there are more than 4096 pages",
            Refusal::PageAbsent => "the image has no such page",
            Refusal::PageBuffer => "the buffer is not as long as this page",
            Refusal::PageUnreadable => "this page cannot be read",
            Refusal::PageLocked => "this page is locked",
            Refusal::HashUnfit =>
                "the node hash does not fit its label: another variant, or another key length",
            Refusal::PageLength =>
                "the page length of the image is not the one that the label names",
            Refusal::NoPages => "the image has no pages",
            Refusal::DepthLimit =>
                "the tree over these pages has more layers than the depth of the label",
            Refusal::TableLength => "the node table is shorter than the records of the tree",
            Refusal::SealVoid => "the seal is void: its making was refused",
            Refusal::WorkBuffer => "the work buffer is not 4096 bytes long",
            Refusal::PageOpen => "a page is open already; put or withdraw it first",
            Refusal::TicketPage => "the page of this ticket is not the open page",
            Refusal::RootWhileOpen => "a page is open; put or withdraw it before the root is read",
            Refusal::NodeMarked =>
                "a node is marked; step until none is left before the root is read",
            Refusal::RootBuffer => "the output is not as long as the digest",
            Refusal::PageList =>
                "the list of pages does not rise strictly, or names a page that the image has not",
            Refusal::LayoutExpected => "the layout name is not the expected one",
            Refusal::LayoutRegistered => "the layout name is not in the register",
            Refusal::RegisteredPage =>
                "the page length is not the one that the register has for this layout",
        }
    }
}
