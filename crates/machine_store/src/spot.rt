// Values go to places whose parts are evaluated.

ghost use Rattle.std.specs.Prelude.{◌≡◌, ◌+◌, ℕ, IfOk};
ghost use Rattle.machine_assign.specs.py_world.Attributes as world;
ghost use Rattle.machine_assign.specs.py_world.Targets.{set_item, unset_item};
ghost use Rattle.machine_assign.specs.machine_state.Frames.{machine_rest, site_now, spot_store, state_of, todo, Follows};
ghost use Rattle.machine_assign.specs.machine_state.Work.{doing_work, stack_work, Falls};

use crate::operate::{put, take_away};
use machine_assign::{
    End, Frame, Machine, NextAction, Origin, SimpleFrame, Spot, TurnEnd, changes, store,
};
use py_core::SrcText;
use py_values::value::Value;
use seq::OutOfMemory;

/// Sets an attribute (Language Reference, assignment statements), which costs nothing.
#[tactic(auto, using(crate::proofs::Attributes::done, crate::proofs::Attributes::refused))]
pub fn set_attribute(
    m: &mut Machine,
    x: Value,
    name: &SrcText,
    v: Value,
) -> Result<NextAction, OutOfMemory>
    ensures next { IfOk result (λ d. todo d m.new ≡ world.set_attribute x name.now v (site_now m.old) (state_of m.old) (machine_rest m.old)) }
    ensures left { m.new.left ≡ m.old.left }
    ensures work { IfOk result (λ d. doing_work d ≡ 0) }
    ensures stack { m.new.stack ≡ m.old.stack }
{
    match changes::set_attribute(m.alloc, &mut m.heap, x, name, v)? {
        None => Ok(NextAction::Back(End::Next)),
        Some(raise) => m.raise(raise, Origin::Code),
    }
}

/// Takes an attribute away (Language Reference, the `del` statement), which costs nothing.
#[tactic(auto, using(crate::proofs::Attributes::done, crate::proofs::Attributes::refused))]
pub fn unset_attribute(m: &mut Machine, x: Value, name: &SrcText) -> Result<NextAction, OutOfMemory>
    ensures next { IfOk result (λ d. todo d m.new ≡ world.unset_attribute x name.now (site_now m.old) (state_of m.old) (machine_rest m.old)) }
    ensures left { m.new.left ≡ m.old.left }
    ensures work { IfOk result (λ d. doing_work d ≡ 0) }
    ensures stack { m.new.stack ≡ m.old.stack }
{
    match changes::unset_attribute(m.alloc, &mut m.heap, x, name)? {
        None => Ok(NextAction::Back(End::Next)),
        Some(raise) => m.raise(raise, Origin::Code),
    }
}

/// Stores an item, behind its step and its cost.
pub fn put_item(m: &mut Machine, x: Value, i: Value, v: Value) -> Result<TurnEnd, OutOfMemory>
    ensures next { IfOk result (λ t. Follows t m.new m.old.left (set_item x i v (site_now m.old) (state_of m.old) (machine_rest m.old))) }
    ensures work { IfOk result (λ t. (work : ℕ) → Falls t m.new m.old.left work) }
{
    m.stack.push(Frame::Simple(SimpleFrame::Forget))?;
    put(m, x, i, v)
}

/// Deletes an item, behind its step and its cost.
pub fn take_item(m: &mut Machine, x: Value, i: Value) -> Result<TurnEnd, OutOfMemory>
    ensures next { IfOk result (λ t. Follows t m.new m.old.left (unset_item x i (site_now m.old) (state_of m.old) (machine_rest m.old))) }
    ensures work { IfOk result (λ t. (work : ℕ) → Falls t m.new m.old.left work) }
{
    m.stack.push(Frame::Simple(SimpleFrame::Forget))?;
    take_away(m, x, i)
}

/// Stores a value in a place whose parts are evaluated.
pub fn store_spot(m: &mut Machine, spot: Spot, v: Value) -> Result<TurnEnd, OutOfMemory>
    ensures next { IfOk result (λ t. Follows t m.new m.old.left (spot_store spot v (site_now m.old) (state_of m.old) (machine_rest m.old))) }
    ensures work { IfOk result (λ t. Falls t m.new m.old.left (1 + stack_work m.old)) }
{
    match spot {
        Spot::Name(name) => Ok(TurnEnd::Go(store(m, &name, v)?)),
        Spot::Attribute(x, name) => Ok(TurnEnd::Go(set_attribute(m, x, &name, v)?)),
        Spot::Item(x, i) => put_item(m, x, i, v),
    }
}
