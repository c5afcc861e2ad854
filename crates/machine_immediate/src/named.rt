// The values of names in a place that may be another than that where the machine is.

ghost use Rattle.std.specs.Prelude.{◌≡◌, IfOk, IfSome, false};
ghost use Rattle.py_values.specs.declared.end.Effect.TheVariants.{Give};
ghost use Rattle.machine_state.specs.py_world.Names as world;
ghost use Rattle.machine_state.specs.Places.{home_in, own_in};
ghost use Rattle.machine_state.specs.Owning.{is_own};

use machine_names::names::{class_value, module_value};
use machine_state::locals::Locals;
use machine_state::place::Location;
use py_core::SrcText;
use py_kinds::builtins::builtin_value;
use py_values::heap::Heap;
use py_values::value::Value;
use seq::OutOfMemory;
use std::alloc::Global;

/// The value of a name of the module, or of a built-in one, where it is bound.
fn global_in(
    alloc: Global,
    heap: &Heap,
    here: &Location,
    name: &SrcText,
) -> Result<Option<Value>, OutOfMemory>
    ensures { IfOk result (λ r. IfSome r (λ v. world.value_of_global name.now (home_in here.now.place) heap.now ≡ Give v 0)) }
{
    match module_value(alloc, heap, here.home(), name)? {
        Some(v) => Ok(Some(v)),
        None => Ok(builtin_value(name.chars())),
    }
}

/// The value of a name that is not local, where it is bound.
#[tactic(auto, using(machine_names::proofs::Naming::named_class, machine_names::proofs::Naming::named_other))]
fn other_in(
    alloc: Global,
    heap: &Heap,
    here: &Location,
    locals: &Locals,
    name: &SrcText,
) -> Result<Option<Value>, OutOfMemory>
    requires { is_own here.now.place name.now ≡ false }
    ensures { IfOk result (λ r. IfSome r (λ v. world.named_in (own_in here.now.place) name.now (home_in here.now.place) locals.now heap.now ≡ Give v 0)) }
{
    let Some(at) = here.class_at() else {
        return global_in(alloc, heap, here, name);
    };
    match class_value(alloc, heap, at, name)? {
        Some(v) => Ok(Some(v)),
        None => global_in(alloc, heap, here, name),
    }
}

/// The value that a name's look-up gives in a place with these local names, where the name is bound.
#[tactic(auto, using(machine_names::proofs::Naming::named_own))]
pub(crate) fn bound_in(
    alloc: Global,
    heap: &Heap,
    here: &Location,
    locals: &Locals,
    name: &SrcText,
) -> Result<Option<Value>, OutOfMemory>
    ensures { IfOk result (λ r. IfSome r (λ v. world.named_in (own_in here.now.place) name.now (home_in here.now.place) locals.now heap.now ≡ Give v 0)) }
{
    if here.is_own(name) {
        Ok(locals.find(name))
    } else {
        other_in(alloc, heap, here, locals, name)
    }
}
