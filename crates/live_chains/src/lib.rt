//! The live fixture instances: found by definition and node, and what goes down with one of them, in order.
//!
//! # What it is for
//!
//! Live instances stand here in the words of session_types, in one linked chain per scope over link_cells; fixture_instances has
//! them with what is kept of each.
//!
//! # What is proved
//!
//! - `Chains` is seen as the list of live instances in order of set-up (`live`), their names in the same order (`ids`), and the
//!   number `spare`. Chains, heads and cells are in the model's invariant, and no clause names them. A name (`LiveId`) has the
//!   number of its instance, and names it until it is unlinked.
//! - `new` is empty. `reserve` makes `spare` the larger of what it was and what was asked for (`spare`); whatever it answers, the
//!   list stays (`same`) and `spare` doesn't fall (`kept`).
//! - `link` appends the instance and its name and takes one of `spare` (`linked`, `number`); it needs room, a number above that of
//!   each live instance, and none of the same definition on the same node. `unlink` gives the instance of the name (`value`), and
//!   leaves the list without it and one more spare (`taken`). Each adds at most six to `steps` (`cost`), however long the chains;
//!   neither takes memory or can fail.
//! - `get` lends the instance of the name. `find` gives the name of the instance of a definition on a node, and `None` exactly
//!   where there is none (`same`, `live`): its number is that of `find` on the plain list.
//! - `down_of` gives the names of what goes down with an instance, or where the next item is on other nodes, in the order in which
//!   it goes down: their numbers are those of `down_order` of `dependents` or `not_on` of the plain list (`same`), each is live
//!   (`live`) and stands there once (`once`).
//! - `is_in_order`, a law on every `Chains`: the numbers rise (`rising`), the names are those of the instances (`named`), and no
//!   two instances are of one definition on one node (`single`).
//! - `PlainChains` is the plain program: the same calls over one `Vec`, by numbers, with clauses that say the same of the list, and
//!   without steps.
//!
//! # What tests alone show
//!
//! That the calls succeed with ample memory, and that both programs give orders worked out by hand (`fixture_tests`).
//!
//! # What neither shows
//!
//! Time (`find` and `down_of` walk the chains, `link` and `unlink` touch one cell and its neighbours), and that `down_of` is
//! answered by walks over the chains and not otherwise.
#![tactic(auto)]

mod chains;
mod dying;
mod heads;
mod id;
mod plain;
mod resting;
mod walks;

pub use chains::Chains;
pub use dying::Dying;
pub use id::LiveId;
pub use link_cells::Steps;
pub use plain::PlainChains;
