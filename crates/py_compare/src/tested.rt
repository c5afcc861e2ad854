// What a comparison tells.

/// What a comparison tells, with the steps that it used.
#[derive(Clone, Copy, PartialEq, Eq)]
pub enum Tested {
    Yes(u64),
    No(u64),
    TooDeep(u64),
    NotOrdered(u64),
    Exhausted,
}

/// How two values are ordered, with the steps that this used.
#[derive(Clone, Copy, PartialEq, Eq)]
pub enum Comparison {
    Less(u64),
    Same(u64),
    More(u64),
    TooDeep(u64),
    NotOrdered(u64),
    Exhausted,
}
