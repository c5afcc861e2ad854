// Hooks are registered one after another.

ghost use Rattle.std.specs.Prelude.{◌≡◌, ◌≤◌, ◌∷◌, ◌++◌, Bool, IfOk, List, OnOk, length};
ghost use Rattle.hook_order.specs.HookOrder.{class_of, layer_of};
ghost use Rattle.hook_order.specs.declared.implementation.Impl.{Impl as Which};
ghost use Rattle.conftest_hooks.specs.Ordered.{AreOrdered, HaveOwn, KeepsOwn};
ghost use Rattle.conftest_hooks.specs.Registered as registered;

use crate::hook_name::HookName;
use crate::looking::FoundHook;
use hook_order::Impl;
use seq::{OutOfMemory, Seq};
use std::alloc::Global;
use test_suite::HookTable;

fn layer_of(which: &Impl) -> u32
    ensures { result ≡ layer_of which.now }
{
    if which.wrapper { 0 } else { 1 }
}

fn class_of(which: &Impl) -> u32
    ensures { result ≡ class_of which.now }
{
    if which.first {
        return 0;
    }
    if which.last { 2 } else { 1 }
}

fn goes_in_turn(one: &Impl, other: &Impl) -> bool
    ensures { result ≡ registered.goes_in_turn one.now other.now }
{
    if class_of(one) == 2 {
        return one.registered <= other.registered;
    }
    other.registered <= one.registered
}

/// Whether an implementation goes before another.
fn goes_before(one: &Impl, other: &Impl) -> bool
    ensures { result ≡ registered.goes_before one.now other.now }
{
    layer_of(one) < layer_of(other)
        || (layer_of(one) == layer_of(other)
            && (class_of(one) < class_of(other)
                || (class_of(one) == class_of(other) && goes_in_turn(one, other))))
}

/// How many others it goes behind.
fn place_among(which: &Impl, others: &[Impl]) -> usize
    ensures place { result ≡ registered.place_among which.now others.now }
{
    let mut place = 0;
    let mut rest = others;
    'others: while let Some((other, behind)) = rest.split_first() {
        if goes_before(which, other) {
            return place;
        }
        place += 1;
        rest = behind;
    }
    place
}

/// Others, with an implementation put into its place among them.
fn put_in_order(alloc: Global, which: Impl, others: &[Impl]) -> Result<Seq<Impl>, OutOfMemory>
    ensures { IfOk result (λ all. all ≡ registered.put_in_order which others.now) }
{
    let place = place_among(&which, others);
    let mut all = Vec::from_slice(alloc, others)?;
    match all.insert(place, which) {
        Ok(()) => Ok(Seq::from_vec(all)),
        Err(_) => {
            drop(all);
            Err(OutOfMemory)
        }
    }
}

fn built_in_impl(number: u32, first: bool) -> Impl
    ensures { result ≡ registered.built_in_impl number first }
{
    Impl {
        registered: number,
        wrapper: false,
        first,
        last: false,
        node: 0,
        code: 0,
    }
}

fn one(alloc: Global, which: Impl) -> Result<Seq<Impl>, OutOfMemory>
    ensures { IfOk result (λ impls. impls ≡ which ∷ []) }
{
    let mut impls = Seq::new(alloc);
    impls.push(which)?;
    Ok(impls)
}

ghost use Rattle.std.specs.Prelude.{[]};

/// The built-in implementations alone.
fn built_in_hooks(alloc: Global) -> Result<HookTable, OutOfMemory>
    ensures { IfOk result (λ table. table ≡ registered.built_in_hooks) }
{
    let mut set_up = one(alloc, built_in_impl(0, true))?;
    set_up.push(built_in_impl(1, false))?;
    let call = one(alloc, built_in_impl(2, false))?;
    let teardown = one(alloc, built_in_impl(3, false))?;
    Ok(HookTable {
        hooks: Seq::new(alloc),
        set_up,
        call,
        teardown,
        ids: Seq::new(alloc),
    })
}

fn hook_impl(code: u32, found: &FoundHook) -> Result<Impl, OutOfMemory>
    ensures { IfOk result (λ which. which ≡ registered.hook_impl code found.now) }
{
    let Some(number) = code.checked_add(4) else {
        // No memory holds so many.
        return Err(OutOfMemory);
    };
    Ok(Impl {
        registered: number,
        wrapper: found.flags.wrapper,
        first: found.flags.first,
        last: found.flags.last,
        node: 0,
        code,
    })
}

/// The implementation joins those of its hook.
fn put_under(
    alloc: Global,
    name: HookName,
    which: Impl,
    table: &mut HookTable,
) -> Result<(), OutOfMemory>
    ensures { OnOk result (table.new ≡ registered.put_under name which table.old) }
{
    match name {
        HookName::SetUp => table.set_up = put_in_order(alloc, which, table.set_up.items())?,
        HookName::Call => table.call = put_in_order(alloc, which, table.call.items())?,
        HookName::Teardown => table.teardown = put_in_order(alloc, which, table.teardown.items())?,
        HookName::MakeId => table.ids = put_in_order(alloc, which, table.ids.items())?,
    }
    Ok(())
}

fn code_of(table: &HookTable) -> Result<u32, OutOfMemory>
    ensures { IfOk result (λ code. code ≡ length table.now.hooks) }
{
    match u32::try_from(table.hooks.len()) {
        Ok(code) => Ok(code),
        // No memory holds so many.
        Err(_) => Err(OutOfMemory),
    }
}

/// Registers a hook.
fn add_hook(alloc: Global, table: &mut HookTable, found: FoundHook) -> Result<(), OutOfMemory>
    ensures { OnOk result (table.new ≡ registered.with_hook table.old found) }
{
    let code = code_of(table)?;
    let which = hook_impl(code, &found)?;
    let FoundHook {
        name,
        hook,
        flags: _,
    } = found;
    match put_under(alloc, name, which, table) {
        Ok(()) => table.hooks.push(hook),
        Err(fault) => {
            drop(hook);
            Err(fault)
        }
    }
}

fn add_all(alloc: Global, table: &mut HookTable, found: Vec<FoundHook>) -> Result<(), OutOfMemory>
    ensures { OnOk result (table.new ≡ registered.with_hooks table.old found.items) }
{
    let mut left = found;
    'found: while !left.is_empty() {
        let one = left.remove(0);
        add_hook(alloc, table, one)?;
    }
    Ok(())
}

/// The table of hooks that were found, in order of loading: their implementations run in hook order, around the built-in ones.
#[tactic(auto, unfolding(crate::specs::Registered::hook_table))]
pub fn hook_table(alloc: Global, found: Vec<FoundHook>) -> Result<HookTable, OutOfMemory>
    ensures { IfOk result (λ t. t ≡ registered.hook_table found.items) }
{
    let mut table = built_in_hooks(alloc)?;
    add_all(alloc, &mut table, found)?;
    Ok(table)
}

/// A law: the implementations of such a table run in hook order.
pub fn hooks_are_ordered()
    ensures { (found : List FoundHook) → AreOrdered (registered.hook_table found) }
{}

/// A law: among the implementations of such a table each phase has the runner's own, each once; also among those that serve one item,
/// where these have all of the runner's own.
pub fn built_ins_are_there()
    ensures { (found : List FoundHook) (keep : Which → Bool) → KeepsOwn keep → HaveOwn keep (registered.hook_table found) }
{}
