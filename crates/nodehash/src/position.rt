// Where a node stands.

// The depth of its layer, counted from 0 at the pages up to the root, and its offset in that layer, counted from 0 at the left.
#[derive(Clone, Copy, PartialEq, Eq, Debug)]
pub struct Position {
    pub depth: u8,
    pub offset: u32,
}
