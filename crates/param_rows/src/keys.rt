use seq::Seq;
use session_types::Scope;

/// A list of parameters: the scope of a fixture, the fixture, and the number of its parameter.
pub type Params = Seq<(Scope, u32, u32)>;

/// What the order of an item goes by: the numbers of its file and of its class, and its parameters in closure order.
#[derive(Drop)]
pub struct ItemKeys {
    pub file: u32,
    pub class: Option<u32>,
    pub params: Params,
}
