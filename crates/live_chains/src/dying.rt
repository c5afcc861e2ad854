use crate::id::LiveId;

/// What is to go down.
#[derive(Clone, Copy)]
pub enum Dying<'a> {
    /// This instance, and all that depend on it.
    Dependents(LiveId),
    /// All whose node is none of these, and all that depend on one of these.
    NotOn(&'a [u32]),
}
