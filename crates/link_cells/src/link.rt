/// A word of the arena: a cell, or the head of a list.
#[derive(Clone, Copy, PartialEq, Eq)]
pub enum Link {
    Cell(usize),
    Head(usize),
}

/// The two links of a word. A list is a ring: its head, its cells in order, and the head again.
#[derive(Clone, Copy)]
pub struct Links {
    pub back: Link,
    pub ahead: Link,
}
