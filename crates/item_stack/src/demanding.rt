// The demands of an item's set-up.

ghost use Rattle.std.specs.Prelude.{◌≡◌, ◌<◌, [], IfOk, OnOk, length};
ghost use Rattle.fixture_instances.specs.Items.{item_for_session};
ghost use Rattle.fixture_table.specs.Tree.{IsTree};
ghost use Rattle.item_stack.specs.Plain.{plain_item};
ghost use Rattle.item_stack.specs.States.{item_state};
ghost use Rattle.session_rules.specs.Frames.{StandsWith};
ghost use Rattle.session_rules.specs.Session.{demand_closure};
ghost use Rattle.session_rules.specs.Teardown.{session_step};
ghost use Rattle.session_rules.specs.World.{Item};
ghost use Rattle.setup_stack.specs.Asking.{AreReady};
ghost use Rattle.setup_stack.specs.Passing.{AreAsked};
ghost use Rattle.setup_stack.specs.Scopes.{HasScopes};

use crate::holding::ItemStack;
use fixture_instances::{Executor, ItemRef};
use fixture_table::Table;
use seq::{OutOfMemory, Seq};
use session_types::DefId;
use std::alloc::Global;

/// An item whose row binds nothing, with this instance of its class.
pub fn plain_item<V>(alloc: Global, node: u32, own: Option<V>) -> ItemRef<V>
    ensures { result ≡ plain_item node own }
{
    ItemRef {
        node,
        own,
        bound: Seq::new(alloc),
        params: Seq::new(alloc),
    }
}

/// Demands the definitions of a closure in order for an item, up to the first fault, whose exceptions are given.
pub fn demand_all<W: Executor>(
    alloc: Global,
    held: &mut ItemStack<W::Value, W::Thrown, W::Rest>,
    world: &mut W,
    setting: &W::Setting,
    table: &Table,
    at: &ItemRef<W::Value>,
    defs: &[DefId],
) -> Result<Seq<W::Thrown>, OutOfMemory>
    requires known { W.knows setting.now table.now at.now }
    requires own { at.now.own ≡ held.old.stack.own }
    requires scopes { HasScopes (W.rules setting.now) table.now }
    requires tree { IsTree table.now.nodes }
    requires node { at.now.node < length table.now.nodes }
    requires ready { AreReady (W.rules setting.now) (item_for_session table.now at.now) (length table.now.defs) (W.rules setting.now).depth defs.now }
    requires frames { StandsWith (item_state (W.rules setting.now) world.old held.old) W.is_out [] }
    ensures state { IfOk result (λ raised. (item : Item) → AreAsked item (item_for_session table.now at.now) → session_step raised (item_state (W.rules setting.now) world.new held.new) ≡ demand_closure (W.rules setting.now) item defs.now (item_state (W.rules setting.now) world.old held.old)) }
    ensures frames { OnOk result (StandsWith (item_state (W.rules setting.now) world.new held.new) W.is_out []) }
{
    let raised = held
        .stack
        .demand_all(alloc, world, setting, table, at, defs)?;
    Ok(raised)
}
