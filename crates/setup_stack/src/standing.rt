ghost use Rattle.std.specs.Prelude.{◌≡◌, OnOk};
ghost use Rattle.std.specs.List.{list_all};
ghost use Rattle.fixture_instances.specs.Items.{item_for_session, def_scope_node, requests_in};
ghost use Rattle.fixture_table.specs.Tree.{IsTree};
ghost use Rattle.session_types.specs.Live.{find};
ghost use Rattle.setup_stack.specs.Standing.{IsNoted, is_marked, stays};
ghost use Rattle.std.specs.Prelude.{◌<◌, length};

use crate::answers::Answer;
use crate::lists::is_same;
use crate::marks::{is_marked, mark};
use fixture_instances::{ItemRef, LiveFixtures, parameter_in, place_of, requests_of};
use fixture_table::Table;
use seq::OutOfMemory;
use session_types::DefId;
use std::alloc::Global;

/// Whether all of these are marked.
fn are_marked(marks: &[bool], defs: &[DefId]) -> bool
    ensures { result ≡ list_all (is_marked marks.now) defs.now }
{
    defs.iter()
        .all(|def| is_marked(marks, def.number() as usize))
}

/// Marks a definition that was given something, where all that it asks for are marked.
pub fn note<V: Copy, E>(
    alloc: Global,
    marks: &mut Vec<bool>,
    table: &Table,
    item: &ItemRef<V>,
    def: DefId,
    answer: &Answer<V, E>,
) -> Result<(), OutOfMemory>
    requires def { def < length table.now.defs }
    requires node { item.now.node < length table.now.nodes }
    ensures { OnOk result (IsNoted (requests_in table.now item.now def) def answer.now marks.old.items marks.new.items) }
{
    match answer {
        Answer::Refused(_) => Ok(()),
        Answer::Given(_) => {
            let requests = requests_of(alloc, table, item, def)?;
            if are_marked(marks.as_slice(), requests.items()) {
                return mark(marks, def.number() as usize);
            }
            Ok(())
        }
    }
}

/// Whether a demand of a definition takes nothing down: none lives on its node, or one with its parameter.
pub fn stays<V, E, R>(
    live: &LiveFixtures<V, E, R>,
    table: &Table,
    item: &ItemRef<V>,
    def: DefId,
) -> bool
    requires tree { IsTree table.now.nodes }
    requires def { def < length table.now.defs }
    requires node { item.now.node < length table.now.nodes }
    ensures { result ≡ stays (item_for_session table.now item.now) def (find def (def_scope_node table.now item.now def) live.now.live) }
{
    live.is_in_order();
    match live.find(def, place_of(table, item, def)) {
        None => true,
        Some(id) => is_same(live.get(id).param, parameter_in(item.params.items(), def)),
    }
}
