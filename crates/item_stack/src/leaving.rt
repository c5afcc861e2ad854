// The teardown of an item.

ghost use Rattle.std.specs.Prelude.{◌≡◌, [], IfOk, OnOk};
ghost use Rattle.fixture_table.specs.Tree.{IsTree};
ghost use Rattle.item_stack.specs.Leaving.{IsNextItem, chain_for, left_for};
ghost use Rattle.item_stack.specs.Plain.{plain_next};
ghost use Rattle.item_stack.specs.States.{item_state};
ghost use Rattle.session_rules.specs.Frames.{StandsWith};
ghost use Rattle.session_rules.specs.Session.{finalize_own};
ghost use Rattle.session_rules.specs.Teardown.{down_all, session_step};
ghost use Rattle.session_types.specs.Live.{not_on};

use crate::demanding::plain_item;
use crate::holding::ItemStack;
use fixture_instances::{Executor, ItemRef};
use fixture_table::Table;
use seq::{OutOfMemory, Seq, push_all};
use setup_stack::{close_request, finalize_each};
use std::alloc::Global;

/// Calls the finalizers of the test's own `request`, latest first; from here on it takes no others.
fn finalize_own<W: Executor>(
    alloc: Global,
    held: &mut ItemStack<W::Value, W::Thrown, W::Rest>,
    world: &mut W,
    setting: &W::Setting,
) -> Result<Seq<W::Thrown>, OutOfMemory>
    ensures { IfOk result (λ raised. session_step raised (item_state (W.rules setting.now) world.new held.new) ≡ finalize_own (W.rules setting.now) (item_state (W.rules setting.now) world.old held.old)) }
{
    let finalizers = close_request(alloc, world, setting, held.request)?;
    held.request = None;
    let mut raised = Seq::new(alloc);
    finalize_each(world, setting, finalizers.items(), &mut raised)?;
    Ok(raised)
}

/// The next item as a demand sees it, where there is one.
fn plain_next<V>(alloc: Global, next: Option<u32>) -> Option<ItemRef<V>>
    ensures { result ≡ plain_next next }
{
    match next {
        Some(node) => Some(plain_item(alloc, node, None)),
        None => None,
    }
}

/// Takes down what isn't for these nodes, and forgets what was given.
fn down_for<W: Executor>(
    alloc: Global,
    held: &mut ItemStack<W::Value, W::Thrown, W::Rest>,
    world: &mut W,
    setting: &W::Setting,
    table: &Table,
    next: Option<u32>,
) -> Result<Seq<W::Thrown>, OutOfMemory>
    requires tree { IsTree table.now.nodes }
    requires next { IsNextItem table.now next }
    requires frames { StandsWith (item_state (W.rules setting.now) world.old held.old) W.is_out [] }
    ensures state { IfOk result (λ raised. session_step raised (item_state (W.rules setting.now) world.new held.new) ≡ down_all (W.rules setting.now) (not_on (chain_for table.now next) (item_state (W.rules setting.now) world.old held.old).live) (record (item_state (W.rules setting.now) world.old held.old) { given = [] })) }
    ensures frames { OnOk result (StandsWith (item_state (W.rules setting.now) world.new held.new) W.is_out []) }
{
    let at = plain_next(alloc, next);
    let raised = held.stack.leave(alloc, world, setting, table, at.as_ref())?;
    Ok(raised)
}

/// Calls the finalizers of the test's own `request`, and takes down what isn't for the next item, by its node; with none, all that lives.
pub fn leave<W: Executor>(
    alloc: Global,
    held: &mut ItemStack<W::Value, W::Thrown, W::Rest>,
    world: &mut W,
    setting: &W::Setting,
    table: &Table,
    next: Option<u32>,
) -> Result<Seq<W::Thrown>, OutOfMemory>
    requires tree { IsTree table.now.nodes }
    requires next { IsNextItem table.now next }
    requires frames { StandsWith (item_state (W.rules setting.now) world.old held.old) W.is_out [] }
    ensures state { IfOk result (λ raised. session_step raised (item_state (W.rules setting.now) world.new held.new) ≡ left_for (W.rules setting.now) (chain_for table.now next) (item_state (W.rules setting.now) world.old held.old)) }
    ensures frames { OnOk result (StandsWith (item_state (W.rules setting.now) world.new held.new) W.is_out []) }
{
    let mut raised = finalize_own(alloc, held, world, setting)?;
    let more = down_for(alloc, held, world, setting, table, next)?;
    push_all(&mut raised, more)?;
    Ok(raised)
}

/// Takes down all that lives, where no item is at hand.
pub fn all_down<W: Executor>(
    alloc: Global,
    held: &mut ItemStack<W::Value, W::Thrown, W::Rest>,
    world: &mut W,
    setting: &W::Setting,
    table: &Table,
) -> Result<Seq<W::Thrown>, OutOfMemory>
    requires tree { IsTree table.now.nodes }
    requires left { (item_state (W.rules setting.now) world.old held.old).given ≡ [] }
    requires frames { StandsWith (item_state (W.rules setting.now) world.old held.old) W.is_out [] }
    ensures state { IfOk result (λ raised. session_step raised (item_state (W.rules setting.now) world.new held.new) ≡ down_all (W.rules setting.now) (item_state (W.rules setting.now) world.old held.old).live (item_state (W.rules setting.now) world.old held.old)) }
    ensures frames { OnOk result (StandsWith (item_state (W.rules setting.now) world.new held.new) W.is_out []) }
{
    let raised = down_for(alloc, held, world, setting, table, None)?;
    Ok(raised)
}
