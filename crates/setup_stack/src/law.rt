ghost use Rattle.std.specs.Prelude.{◌≡◌, ℕ, ◌<◌, List, length};
ghost use Rattle.session_types.specs.Members.{IsMember};
ghost use Rattle.session_rules.specs.World.{Item, LiveInstance, Rules, language};
ghost use Rattle.session_rules.specs.Teardown.{SessionState, down_all};
ghost use Rattle.session_rules.specs.Demand.{demand};
ghost use Rattle.fixture_table.specs.Faults.{CanBeSetUp};
ghost use Rattle.fixture_table.specs.Tables.{TableValue};
ghost use Rattle.fixture_instances.specs.declared.items.ItemRef.{ItemRef};
ghost use Rattle.setup_stack.specs.Asking.{IsReady};
ghost use Rattle.fixture_instances.specs.Items.{bound_names, item_for_session};
ghost use Rattle.setup_stack.specs.Scopes.{HasScopes};
ghost use Rattle.setup_stack.specs.Passing.{AreAsked, over, over_reply, over_step};

use session_rules::Acts;

/// Demands and teardowns look at the world, the live instances, the events, the count and the class's instance alone: the rest of a
/// session's state stays as it is, whatever it is.
pub fn the_rest_of_a_state_stays<W: Acts>()
    ensures demand { (rules : Rules (language W W.Value W.Thrown W.Rest W.Told W.is_bad)) (item : Item) (depth d : ℕ) (s t : SessionState (language W W.Value W.Thrown W.Rest W.Told W.is_bad)) → demand rules item depth d (over s t) ≡ over_reply s (demand rules item depth d t) }
    ensures down { (rules : Rules (language W W.Value W.Thrown W.Rest W.Told W.is_bad)) (set : List (LiveInstance (language W W.Value W.Thrown W.Rest W.Told W.is_bad))) (s t : SessionState (language W W.Value W.Thrown W.Rest W.Told W.is_bad)) → down_all rules set (over s t) ≡ over_step s (down_all rules set t) }
{}

/// A demand looks at an item's node, at what each definition asks for in it, and at each definition's parameter and scope node alone.
pub fn the_rest_of_an_item_does_not_matter<W: Acts>()
    ensures { (rules : Rules (language W W.Value W.Thrown W.Rest W.Told W.is_bad)) (one other : Item) → AreAsked one other → (depth d : ℕ) (s : SessionState (language W W.Value W.Thrown W.Rest W.Told W.is_bad)) → demand rules one depth d s ≡ demand rules other depth d s }
{}

/// What the closure of an item has, as a table answers it, is ready to be demanded, where the rules go by the table.
pub fn what_a_closure_has_is_ready<W: Acts>()
    ensures { (rules : Rules (language W W.Value W.Thrown W.Rest W.Told W.is_bad)) (table : TableValue) (item : ItemRef W.Value) (ids : List ℕ) → HasScopes rules table → rules.depth ≡ length table.defs → ((d : ℕ) → IsMember d ids → d < length table.defs) → CanBeSetUp table.nodes table.defs item.node (bound_names item.bound) ids → (d : ℕ) → IsMember d ids → IsReady rules (item_for_session table item) (length table.defs) rules.depth d }
{}
