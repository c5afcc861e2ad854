use seq::Seq;
use session_types::{Bases, DefId};

/// What answered a demand.
#[derive(Drop)]
pub struct Grant<V> {
    pub def: DefId,
    /// Its number in order of set-up.
    pub order: u64,
    pub value: V,
    /// The numbers of all on which it depends, directly or through others.
    pub bases: Bases,
}

/// The answer to a demand: what was given, or the exceptions, in order.
#[derive(Drop)]
pub enum Answer<V, E> {
    Given(Grant<V>),
    Refused(Seq<E>),
}
