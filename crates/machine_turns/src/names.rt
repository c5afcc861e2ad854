// Names are bound, unbound and deleted.

ghost use Rattle.std.specs.Prelude.{◌≡◌, IfOk, OnOk, false, slice_get};
ghost use Rattle.py_values.specs.Changes.{changed};
ghost use Rattle.machine_state.specs.py_world.Names as world;
ghost use Rattle.machine_state.specs.py_world.Targets.{store_name};
ghost use Rattle.machine_state.specs.Places.{own_in};
ghost use Rattle.machine_state.specs.Owning.{is_own};
ghost use Rattle.machine_state.specs.Frames.{machine_rest, site_now, state_of, todo};
ghost use Rattle.machine_state.specs.Work.{doing_work};

use machine_items::changes::{bind_at, unbind_at};
use machine_names::names::{class_value, module_value, not_defined, unbound};
use machine_state::frame::End;
use machine_state::machine::{Machine, NextAction, Origin};
use py_core::SrcText;
use py_values::end::Raise;
use py_values::heap::Heap;
use py_values::names::Name;
use py_values::object::Obj;
use py_values::value::{ObjId, Value};
use seq::OutOfMemory;

/// Binds a name of a module.
fn bind_global(heap: &mut Heap, home: usize, name: Name, v: Value) -> Result<(), OutOfMemory>
    ensures { OnOk result (heap.new ≡ world.bound_in name v home heap.old) }
{
    if home >= heap.len() {
        return Ok(());
    }
    match heap.obj_mut(ObjId { at: home }) {
        Obj::Module(module) => {
            module.names.bind(name, v)?;
            Ok(())
        }
        _ => Ok(()),
    }
}

/// Binds a name that is not local: one of a class in the class, another in the module.
#[tactic(auto, using(crate::proofs::Binding::bound_of_class, crate::proofs::Binding::bound_other))]
fn bind_other(m: &mut Machine, name: &SrcText, v: Value) -> Result<(), OutOfMemory>
    requires { is_own m.old.here.place name.now ≡ false }
    ensures state { OnOk result (state_of m.new ≡ world.bound name.now v (site_now m.old).scene (state_of m.old)) }
    ensures here { m.new.here ≡ m.old.here }
    ensures stack { m.new.stack ≡ m.old.stack }
    ensures left { m.new.left ≡ m.old.left }
{
    let key = Name::from_chars(m.alloc, name.chars())?;
    match m.here.class_at() {
        Some(at) => bind_at(&mut m.heap, ObjId { at }, key, v),
        None => bind_global(&mut m.heap, m.here.home(), key, v),
    }
}

/// Binds a name (Language Reference, naming and binding): a local one in the call, one of a class in the class, another in the
/// module.
#[tactic(auto, using(crate::proofs::Binding::bound_own))]
pub fn bind(m: &mut Machine, name: &SrcText, v: Value) -> Result<(), OutOfMemory>
    ensures state { OnOk result (state_of m.new ≡ world.bound name.now v (site_now m.old).scene (state_of m.old)) }
    ensures here { m.new.here ≡ m.old.here }
    ensures stack { m.new.stack ≡ m.old.stack }
    ensures left { m.new.left ≡ m.old.left }
{
    if m.here.is_own(name) {
        m.locals.bind(name, v)?;
        Ok(())
    } else {
        bind_other(m, name, v)
    }
}

/// Stores a value in a name.
#[tactic(auto, using(crate::proofs::Same::next_same))]
pub fn store(m: &mut Machine, name: &SrcText, v: Value) -> Result<NextAction, OutOfMemory>
    ensures next { IfOk result (λ d. todo d m.new ≡ store_name name.now v (site_now m.old) (state_of m.old) (machine_rest m.old)) }
    ensures left { m.new.left ≡ m.old.left }
    ensures work { IfOk result (λ d. doing_work d ≡ 0) }
    ensures stack { m.new.stack ≡ m.old.stack }
{
    bind(m, name, v)?;
    Ok(NextAction::Back(End::Next))
}

/// Unbinds a name of a module.
fn unbind_global(heap: &mut Heap, home: usize, name: &Name)
    ensures { heap.new ≡ changed (world.without_name name.now) home heap.old (slice_get heap.old home) }
{
    if home >= heap.len() {
        return;
    }
    match heap.obj_mut(ObjId { at: home }) {
        Obj::Module(module) => module.names.unbind(name),
        _ => {}
    }
}

/// Unbinds a name that is not local.
#[tactic(auto, using(crate::proofs::Binding::unbound_of_class, crate::proofs::Binding::unbound_other))]
fn unbind_other(m: &mut Machine, name: &SrcText) -> Result<(), OutOfMemory>
    requires { is_own m.old.here.place name.now ≡ false }
    ensures state { OnOk result (state_of m.new ≡ world.unbound name.now (site_now m.old).scene (state_of m.old)) }
    ensures here { m.new.here ≡ m.old.here }
    ensures stack { m.new.stack ≡ m.old.stack }
    ensures left { m.new.left ≡ m.old.left }
{
    let key = Name::from_chars(m.alloc, name.chars())?;
    match m.here.class_at() {
        Some(at) => unbind_at(&mut m.heap, ObjId { at }, &key),
        None => unbind_global(&mut m.heap, m.here.home(), &key),
    }
    Ok(())
}

/// Unbinds a name where it would be bound.
#[tactic(auto, using(crate::proofs::Binding::unbound_own))]
pub fn unbind(m: &mut Machine, name: &SrcText) -> Result<(), OutOfMemory>
    ensures state { OnOk result (state_of m.new ≡ world.unbound name.now (site_now m.old).scene (state_of m.old)) }
    ensures here { m.new.here ≡ m.old.here }
    ensures stack { m.new.stack ≡ m.old.stack }
    ensures left { m.new.left ≡ m.old.left }
{
    if m.here.is_own(name) {
        m.locals.unbind(name);
        Ok(())
    } else {
        unbind_other(m, name)
    }
}

/// The value of a name that is not local where it would be bound.
#[tactic(auto, using(crate::proofs::Binding::value_of_class, crate::proofs::Binding::value_other))]
fn other_value(m: &Machine, name: &SrcText) -> Result<Option<Value>, OutOfMemory>
    requires { is_own m.now.here.place name.now ≡ false }
    ensures { IfOk result (λ v. v ≡ world.bound_value (own_in m.now.here.place) name.now (site_now m.now).scene.home m.now.locals m.now.heap) }
{
    match m.here.class_at() {
        Some(at) => class_value(m.alloc, &m.heap, at, name),
        None => module_value(m.alloc, &m.heap, m.here.home(), name),
    }
}

/// The value that a name has where it would be bound.
#[tactic(auto, using(crate::proofs::Binding::value_own))]
fn bound_value(m: &Machine, name: &SrcText) -> Result<Option<Value>, OutOfMemory>
    ensures { IfOk result (λ v. v ≡ world.bound_value (own_in m.now.here.place) name.now (site_now m.now).scene.home m.now.locals m.now.heap) }
{
    if m.here.is_own(name) {
        Ok(m.locals.find(name))
    } else {
        other_value(m, name)
    }
}

/// What the deletion of a name raises that isn't bound.
#[tactic(auto, using(crate::proofs::Binding::missing_own, crate::proofs::Binding::missing_other))]
fn not_bound(m: &Machine, name: &SrcText) -> Result<Raise, OutOfMemory>
    ensures { IfOk result (λ r. r ≡ world.not_bound (own_in m.now.here.place) name.now) }
{
    if m.here.is_own(name) {
        unbound(m.alloc, name)
    } else {
        not_defined(m.alloc, name)
    }
}

/// Deletes a name (Language Reference, the `del` statement).
#[tactic(auto, using(crate::proofs::Same::next_same))]
pub fn delete_name(m: &mut Machine, name: &SrcText) -> Result<NextAction, OutOfMemory>
    ensures next { IfOk result (λ d. todo d m.new ≡ world.delete_name name.now (site_now m.old) (state_of m.old) (machine_rest m.old)) }
    ensures left { m.new.left ≡ m.old.left }
    ensures work { IfOk result (λ d. doing_work d ≡ 0) }
    ensures stack { m.new.stack ≡ m.old.stack }
{
    match bound_value(m, name)? {
        Some(_) => {
            unbind(m, name)?;
            Ok(NextAction::Back(End::Next))
        }
        None => {
            let raise = not_bound(m, name)?;
            m.raise(raise, Origin::Code)
        }
    }
}
