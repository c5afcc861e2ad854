/// What the closure's list has: a definition, or a name without one.
#[derive(Clone, Copy, PartialEq, Eq)]
pub enum Entry {
    Definition(usize),
    Missing(u32),
}
