// Names and their values.

ghost use Rattle.std.specs.Prelude.{◌≡◌, ◌++◌, IfOk, IfSome, false, slice_get};
ghost use Rattle.py_kinds.specs.Builtins.{builtin_names};
ghost use Rattle.py_values.specs.Names.{find_name};
ghost use Rattle.py_values.specs.Raises as raises;
ghost use Rattle.py_values.specs.declared.end.Effect.TheVariants.{Give};
ghost use Rattle.py_attributes.specs.Attributes.{class_names};
ghost use Rattle.machine_state.specs.py_world.Names as world;
ghost use Rattle.machine_state.specs.Places.{home_in};
ghost use Rattle.machine_state.specs.Owning.{is_own};
ghost use Rattle.machine_state.specs.Frames.{site_now};

use machine_state::machine::Machine;
use py_attributes::classes::named_in;
use py_core::SrcText;
use py_kinds::builtins::builtin_value;
use py_values::class::ExcClass;
use py_values::end::{Effect, Raise, push_ascii};
use py_values::heap::Heap;
use py_values::names::{Name, Names};
use py_values::object::Obj;
use py_values::value::{ObjId, Value};
use seq::OutOfMemory;
use std::alloc::Global;

/// A raise whose text is a name between two others.
pub fn raise_about(
    alloc: Global,
    class: ExcClass,
    front: &str,
    name: &[char],
    back: &str,
) -> Result<Raise, OutOfMemory>
    ensures { IfOk result (λ r. r ≡ raises.text_raise class (front.now ++ (name.now ++ back.now))) }
{
    let mut text = Vec::new(alloc);
    push_ascii(&mut text, front)?;
    text.extend_from_slice(name)?;
    push_ascii(&mut text, back)?;
    let raise = Raise::from_chars(alloc, class, &text)?;
    Ok(raise)
}

/// How many names of a module are looked through before their table is asked.
const EARLY: usize = 8;

/// What the first names tell of a name's value: nothing where there are more of them and it is none of the first.
#[tactic(auto, using(crate::proofs::EarlyNames::early_found, crate::proofs::EarlyNames::early_more, crate::proofs::EarlyNames::early_none))]
fn early_value(names: &Names, name: &SrcText) -> Option<Option<Value>>
    ensures { IfSome result (λ v. v ≡ find_name name.now names.now) }
{
    for at in 0..EARLY {
        let Some((key, v)) = names.entry(at) else {
            return Some(None);
        };
        if name.chars() == key.text().chars() {
            return Some(Some(*v));
        }
    }
    None
}

/// The value of a name among others.
fn value_among(alloc: Global, names: &Names, name: &SrcText) -> Result<Option<Value>, OutOfMemory>
    ensures { IfOk result (λ v. v ≡ find_name name.now names.now) }
{
    if let Some(told) = early_value(names, name) {
        return Ok(told);
    }
    let key = Name::from_chars(alloc, name.chars())?;
    Ok(names.find(&key))
}

/// The value of a name of a module.
pub fn module_value(
    alloc: Global,
    heap: &Heap,
    home: usize,
    name: &SrcText,
) -> Result<Option<Value>, OutOfMemory>
    ensures { IfOk result (λ v. v ≡ find_name name.now (world.names_in (slice_get heap.now home))) }
{
    match heap.get(ObjId { at: home }) {
        Some(Obj::Module(module)) => value_among(alloc, &module.names, name),
        _ => Ok(None),
    }
}

/// A name that is neither the module's nor built in.
pub fn not_defined(alloc: Global, name: &SrcText) -> Result<Raise, OutOfMemory>
    ensures { IfOk result (λ r. r ≡ raises.text_raise ExcClass.NameError (world.not_defined name.now)) }
{
    raise_about(
        alloc,
        ExcClass::NameError,
        "name '",
        name.chars(),
        "' is not defined",
    )
}

/// A local name that has no value yet.
pub fn unbound(alloc: Global, name: &SrcText) -> Result<Raise, OutOfMemory>
    ensures { IfOk result (λ r. r ≡ raises.text_raise ExcClass.UnboundLocalError (world.unbound_local name.now)) }
{
    raise_about(
        alloc,
        ExcClass::UnboundLocalError,
        "local variable '",
        name.chars(),
        "' is unbound",
    )
}

fn builtin_found(alloc: Global, name: &SrcText) -> Result<Effect, OutOfMemory>
    ensures { IfOk result (λ made. made ≡ world.builtin_found (find_name name.now builtin_names) name.now) }
{
    match builtin_value(name.chars()) {
        Some(v) => Ok(Effect::Give(v, 0)),
        None => Ok(Effect::Fail(not_defined(alloc, name)?, 0)),
    }
}

fn global_found(m: &Machine, name: &SrcText) -> Result<Effect, OutOfMemory>
    ensures { IfOk result (λ made. made ≡ world.value_of_global name.now (home_in m.now.here.place) m.now.heap) }
{
    match module_value(m.alloc, &m.heap, m.here.home(), name)? {
        Some(v) => Ok(Effect::Give(v, 0)),
        None => builtin_found(m.alloc, name),
    }
}

fn local_found(m: &Machine, name: &SrcText) -> Result<Effect, OutOfMemory>
    ensures { IfOk result (λ made. made ≡ world.local_found (find_name name.now m.now.locals) name.now) }
{
    match m.locals.find(name) {
        Some(v) => Ok(Effect::Give(v, 0)),
        None => Ok(Effect::Fail(unbound(m.alloc, name)?, 0)),
    }
}

/// The value of a name of the class at a place.
pub fn class_value(
    alloc: Global,
    heap: &Heap,
    at: usize,
    name: &SrcText,
) -> Result<Option<Value>, OutOfMemory>
    ensures { IfOk result (λ v. v ≡ find_name name.now (class_names (slice_get heap.now at))) }
{
    let key = Name::from_chars(alloc, name.chars())?;
    Ok(named_in(heap.get(ObjId { at }), &key))
}

fn class_found(m: &Machine, at: usize, name: &SrcText) -> Result<Effect, OutOfMemory>
    ensures { IfOk result (λ made. made ≡ world.class_found (find_name name.now (class_names (slice_get m.now.heap at))) name.now (home_in m.now.here.place) m.now.heap) }
{
    match class_value(m.alloc, &m.heap, at, name)? {
        Some(v) => Ok(Effect::Give(v, 0)),
        None => global_found(m, name),
    }
}

/// What the look-up of a name gives that is not local.
#[tactic(auto, using(crate::proofs::Naming::named_class, crate::proofs::Naming::named_other))]
fn other_found(m: &Machine, name: &SrcText) -> Result<Effect, OutOfMemory>
    requires { is_own m.now.here.place name.now ≡ false }
    ensures { IfOk result (λ made. made ≡ world.value_of_name name.now (site_now m.now).scene m.now.locals m.now.heap) }
{
    match m.here.class_at() {
        Some(at) => class_found(m, at, name),
        None => global_found(m, name),
    }
}

/// The value of a name of the module, or of a built-in one, where it is bound.
fn global_value(m: &Machine, name: &SrcText) -> Result<Option<Value>, OutOfMemory>
    ensures { IfOk result (λ r. IfSome r (λ v. world.value_of_global name.now (home_in m.now.here.place) m.now.heap ≡ Give v 0)) }
{
    match module_value(m.alloc, &m.heap, m.here.home(), name)? {
        Some(v) => Ok(Some(v)),
        None => Ok(builtin_value(name.chars())),
    }
}

/// The value of a name that is not local, where it is bound.
#[tactic(auto, using(crate::proofs::Naming::named_class, crate::proofs::Naming::named_other))]
fn other_value(m: &Machine, name: &SrcText) -> Result<Option<Value>, OutOfMemory>
    requires { is_own m.now.here.place name.now ≡ false }
    ensures { IfOk result (λ r. IfSome r (λ v. world.value_of_name name.now (site_now m.now).scene m.now.locals m.now.heap ≡ Give v 0)) }
{
    let Some(at) = m.here.class_at() else {
        return global_value(m, name);
    };
    match class_value(m.alloc, &m.heap, at, name)? {
        Some(v) => Ok(Some(v)),
        None => global_value(m, name),
    }
}

/// The value that a name's look-up gives, where the name is bound.
#[tactic(auto, using(crate::proofs::Naming::named_own))]
pub fn bound_value(m: &Machine, name: &SrcText) -> Result<Option<Value>, OutOfMemory>
    ensures { IfOk result (λ r. IfSome r (λ v. world.value_of_name name.now (site_now m.now).scene m.now.locals m.now.heap ≡ Give v 0)) }
{
    if m.here.is_own(name) {
        Ok(m.locals.find(name))
    } else {
        other_value(m, name)
    }
}

/// What a name's look-up gives, which costs nothing (Language Reference, naming and binding).
#[tactic(auto, using(crate::proofs::Naming::named_own))]
pub fn look_up(m: &Machine, name: &SrcText) -> Result<Effect, OutOfMemory>
    ensures { IfOk result (λ made. made ≡ world.value_of_name name.now (site_now m.now).scene m.now.locals m.now.heap) }
{
    if m.here.is_own(name) {
        local_found(m, name)
    } else {
        other_found(m, name)
    }
}
