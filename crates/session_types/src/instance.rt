use crate::bases::Bases;
use crate::def_id::DefId;
use crate::scope::Scope;

/// A fixture that was set up, or that failed to, and hasn't been torn down.
#[derive(Drop)]
pub struct Instance<S = u32> {
    pub def: DefId,
    /// The number of its parameter, where it has one.
    pub param: Option<u32>,
    /// The node of its scope.
    pub node: u32,
    pub scope: Scope,
    /// Its number in order of set-up.
    pub order: u64,
    /// The numbers of all on which it depends, directly or through others; some of them may be gone.
    pub bases: Bases,
    /// What its owner keeps with it.
    pub slot: S,
}
