// What the calls on a seal answer.
use fault::Fault;
use nodehash::Position;

// A node that was worked, and how many blocks its digest took.
#[derive(Clone, Copy, PartialEq, Eq, Debug)]
pub struct Worked {
    pub position: Position,
    pub blocks: u64,
}

// What a call gives where it is not refused. `Opened` has the page of the ticket; `Done` is that of a put and of a withdrawal; with `RootRead` the root stands in the output.
#[derive(Clone, Copy, PartialEq, Eq, Debug)]
pub enum Reply {
    Opened(usize),
    Done,
    Stepped(Option<Worked>),
    RootRead,
    Counted(usize),
}

// The answer of any call.
pub type Answer = Result<Reply, Fault>;
