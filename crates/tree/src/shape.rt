// The shape of a tree.

// How many nodes a group has at most, and how many pages there are.
#[derive(Clone, Copy)]
pub struct Shape {
    pub fanout: usize,
    pub pages: usize,
}
