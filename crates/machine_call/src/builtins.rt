// Calls of built-in functions and of marks.

ghost use Rattle.std.specs.Prelude.{◌≡◌, ◌≤◌, IfOk};
ghost use Rattle.py_calls.specs.Calls.{called_of};
ghost use Rattle.py_kinds.specs.Builtins.{with_receiver as received};
ghost use Rattle.py_kinds.specs.Kinds.{kind_name};
ghost use Rattle.machine_state.specs.py_world.Calls as world;
ghost use Rattle.machine_state.specs.py_world.Outcome.{call_end, product_end};
ghost use Rattle.machine_state.specs.core_meaning.Statements.{entry};
ghost use Rattle.machine_state.specs.Frames.{around_by, opened, machine_rest, state_of, todo, Follows};
ghost use Rattle.machine_call.specs.Products as products;
ghost use Rattle.pytest_calls.specs.Marks as marks;

use crate::enter::not_callable;
use call_products::product::{Product, add_all, product_within};
use machine_arguments::arguments::with_first;
use machine_state::arguments::CallArguments;
use machine_state::locals::Locals;
use machine_state::machine::{Machine, NextAction, Origin, TurnEnd};
use py_calls::call::called;
use py_values::builtin::Builtin;
use py_values::heap::Heap;
use py_values::object::{BuiltinObj, MarkObj};
use py_values::value::Value;
use pytest_calls::marks::mark_called;
use seq::OutOfMemory;
use std::alloc::Global;

/// Goes on with what a call makes, whose cost is paid.
fn finish(m: &mut Machine, product: Product, origin: Origin) -> Result<NextAction, OutOfMemory>
    ensures next { IfOk result (λ d. todo d m.new ≡ machine_rest m.old (product_end product (opened origin m.old) (state_of m.old))) }
    ensures left { m.new.left ≡ m.old.left }
{
    let Product { objects, made } = product;
    match add_all(&mut m.heap, objects) {
        Ok(()) => m.make(made, origin),
        Err(e) => {
            drop(made);
            Err(e)
        }
    }
}

/// Calls a built-in function.
pub(crate) fn call_builtin(
    m: &mut Machine,
    which: Builtin,
    args: &[Value],
    named: &Locals,
    origin: Origin,
) -> Result<TurnEnd, OutOfMemory>
    ensures next { IfOk result (λ t. Follows t m.new m.old.left (world.builtin_called entry (called_of which m.old.heap args.now named.now) (around_by origin m.old) (state_of m.old) (λ o. machine_rest m.old (call_end (state_of m.old) o)))) }
    ensures left { m.new.left ≤ m.old.left }
{
    match called(
        m.alloc,
        &m.heap,
        &mut m.printed,
        which,
        args,
        named.entries(),
        m.left,
    )? {
        Some(product) => {
            m.left = m.left.saturating_sub(product.made.cost());
            Ok(TurnEnd::Go(finish(m, product, origin)?))
        }
        None => Ok(TurnEnd::Exhausted(m.trace(origin)?)),
    }
}

/// Calls a built-in function, with its receiver before the arguments where it has one.
pub(crate) fn call_received(
    m: &mut Machine,
    builtin: BuiltinObj,
    args: &CallArguments,
    origin: Origin,
) -> Result<TurnEnd, OutOfMemory>
    ensures next { IfOk result (λ t. Follows t m.new m.old.left (world.builtin_called entry (called_of builtin.which m.old.heap (received builtin.receiver args.now.plain.items) args.now.named) (around_by origin m.old) (state_of m.old) (λ o. machine_rest m.old (call_end (state_of m.old) o)))) }
    ensures left { m.new.left ≤ m.old.left }
{
    match builtin.receiver {
        Some(receiver) => {
            let all = with_first(m.alloc, receiver, &args.plain)?;
            call_builtin(m, builtin.which, &all, &args.named, origin)
        }
        None => call_builtin(m, builtin.which, &args.plain, &args.named, origin),
    }
}

/// What the call of a mark makes; none where it was called before.
pub(crate) fn uncalled_mark(
    alloc: Global,
    heap: &Heap,
    mark: &MarkObj,
    args: &CallArguments,
) -> Result<Option<Product>, OutOfMemory>
    ensures { IfOk result (λ p. p ≡ products.uncalled mark.now.called (marks.mark_called mark.now heap.now args.now.plain.items args.now.named)) }
{
    if mark.called {
        return Ok(None);
    }
    let product = mark_called(alloc, heap, mark, &args.plain, args.named.entries())?;
    Ok(Some(product))
}

/// Pays for what a call makes, and goes on with it.
fn call_product(m: &mut Machine, product: Product, origin: Origin) -> Result<TurnEnd, OutOfMemory>
    ensures next { IfOk result (λ t. Follows t m.new m.old.left (products.product_called product (around_by origin m.old) (state_of m.old) (λ o. machine_rest m.old (call_end (state_of m.old) o)))) }
    ensures left { m.new.left ≤ m.old.left }
{
    match product_within(product, m.left) {
        Some(product) => {
            m.left = m.left.saturating_sub(product.made.cost());
            Ok(TurnEnd::Go(finish(m, product, origin)?))
        }
        None => Ok(TurnEnd::Exhausted(m.trace(origin)?)),
    }
}

/// Calls a mark; one that was called before is not callable.
pub(crate) fn call_mark(
    m: &mut Machine,
    callee: Value,
    product: Option<Product>,
    origin: Origin,
) -> Result<TurnEnd, OutOfMemory>
    ensures next { IfOk result (λ t. Follows t m.new m.old.left (products.uncalled_or product (world.not_callable (kind_name m.old.heap callee)) (around_by origin m.old) (state_of m.old) (λ o. machine_rest m.old (call_end (state_of m.old) o)))) }
    ensures left { m.new.left ≤ m.old.left }
{
    match product {
        Some(product) => call_product(m, product, origin),
        None => Ok(TurnEnd::Go(not_callable(m, callee, origin)?)),
    }
}
