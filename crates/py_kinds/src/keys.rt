// The key of a value.

ghost use Rattle.std.specs.Prelude.{◌≡◌, ◌-◌, IfOk, length, nat_lt, slice_get};
ghost use Rattle.py_kinds.specs.Keys.{Atoms, joined_parts, row_parts, obj_parts, parts_to, PartsTold, key_of, key_steps, key_payable};

use py_values::OutOfMemory;
use py_values::heap::Heap;
use py_values::key::{Atom, Key};
use py_values::limits::MOST_LEVELS;
use py_values::names::Name;
use py_values::object::Obj;
use py_values::value::{ObjId, Value};
use std::alloc::Global;

/// Why a value is no key: this value in it has a kind that no key has, or a value in it lies past 100 levels.
#[derive(Clone, Copy, Debug, PartialEq, Eq)]
pub enum KeyFault {
    Unhashable(Value),
    TooDeep,
}

/// The key of a value, or why there is none, with the elements of tuples that were looked at, the faulty one too.
#[derive(Drop)]
pub enum KeyResult {
    Key(Key),
    Fault(KeyFault, u64),
}

impl KeyResult {
    /// The steps of a use of the key, or those up to the fault.
    pub fn cost(&self) -> u64
        ensures { result ≡ key_steps self.now }
    {
        match self {
            KeyResult::Key(key) => key.cost(),
            KeyResult::Fault(_, cost) => *cost,
        }
    }
}

/// How the parts of keys that are put behind others end.
#[derive(Clone, Copy)]
enum Pushed {
    Whole,
    Fault(KeyFault),
    /// The steps of the parts so far are more than the budget's.
    Exhausted,
}

/// Whether the steps of parts that are being made are more than a budget's, whatever follows.
fn is_over(atoms: &Vec<Atom>, budget: u64) -> bool
    ensures { result ≡ nat_lt budget (length atoms.now.items - 1) }
{
    budget < (atoms.len() as u64).saturating_sub(1)
}

/// Puts the parts of a value's key behind others, while their steps are within a budget.
#[cycle(parts)]
#[tactic(auto, using(crate::proofs::Joining::joins))]
fn push_parts(
    alloc: Global,
    heap: &Heap,
    atoms: &mut Vec<Atom>,
    v: Value,
    depth: usize,
    budget: u64,
) -> Result<Pushed, OutOfMemory>
    ensures { IfOk result (λ o. PartsTold budget o atoms.new.items (joined_parts (Atoms atoms.old.items) (parts_to depth heap.now v))) }
{
    if is_over(atoms, budget) {
        return Ok(Pushed::Exhausted);
    }
    if depth == 0 {
        return Ok(Pushed::Fault(KeyFault::TooDeep));
    }
    match v {
        Value::None => atoms.push(Atom::None)?,
        Value::Bool(true) => atoms.push(Atom::Number(1))?,
        Value::Bool(false) => atoms.push(Atom::Number(0))?,
        Value::Int(n) => atoms.push(Atom::Number(n))?,
        Value::Ref(id) => {
            let pushed = push_obj(alloc, heap, atoms, id, depth - 1, budget)?;
            return Ok(pushed);
        }
    }
    Ok(Pushed::Whole)
}

/// Puts the parts of an object's key behind others.
#[cycle(parts)]
#[tactic(auto, using(crate::proofs::Joining::joins))]
fn push_obj(
    alloc: Global,
    heap: &Heap,
    atoms: &mut Vec<Atom>,
    id: ObjId,
    depth: usize,
    budget: u64,
) -> Result<Pushed, OutOfMemory>
    ensures { IfOk result (λ o. PartsTold budget o atoms.new.items (joined_parts (Atoms atoms.old.items) (obj_parts (parts_to depth heap.now) id (slice_get heap.now id.at)))) }
{
    match heap.get(id) {
        Some(Obj::Text(t)) => {
            atoms.push(Atom::Text(Name::from_chars(alloc, t.chars())?))?;
            Ok(Pushed::Whole)
        }
        Some(Obj::Tuple(vs)) => {
            atoms.push(Atom::Tuple(vs.items().len()))?;
            let pushed = push_row(alloc, heap, atoms, vs.items(), depth, budget)?;
            Ok(pushed)
        }
        Some(Obj::Function(_) | Obj::Class(_) | Obj::Instance(_) | Obj::Exception(_)) => {
            atoms.push(Atom::Object(id))?;
            Ok(Pushed::Whole)
        }
        Some(
            Obj::List(_)
            | Obj::Dict(_)
            | Obj::Range(_)
            | Obj::Method(_)
            | Obj::Builtin(_)
            | Obj::Module(_)
            | Obj::Fixture(_)
            | Obj::MarkMaker
            | Obj::Mark(_)
            | Obj::Hook(_)
            | Obj::Param(_)
            | Obj::Request(_)
            | Obj::Raises(_)
            | Obj::Info(_)
            | Obj::Item(_),
        )
        | None => Ok(Pushed::Fault(KeyFault::Unhashable(Value::Ref(id)))),
    }
}

/// Puts the parts of the keys of a tuple's elements behind others.
#[cycle(parts)]
#[tactic(auto, using(crate::proofs::Joining::joins))]
fn push_row(
    alloc: Global,
    heap: &Heap,
    atoms: &mut Vec<Atom>,
    vs: &[Value],
    depth: usize,
    budget: u64,
) -> Result<Pushed, OutOfMemory>
    ensures { IfOk result (λ o. PartsTold budget o atoms.new.items (joined_parts (Atoms atoms.old.items) (row_parts (parts_to depth heap.now) vs.now))) }
{
    for v in vs {
        let pushed = push_parts(alloc, heap, atoms, *v, depth, budget)?;
        match pushed {
            Pushed::Whole => {}
            Pushed::Fault(fault) => return Ok(Pushed::Fault(fault)),
            Pushed::Exhausted => return Ok(Pushed::Exhausted),
        }
    }
    Ok(Pushed::Whole)
}

/// A key whose steps are within a budget.
fn affordable(keyed: KeyResult, budget: u64) -> Option<KeyResult>
    ensures { result ≡ key_payable budget keyed }
{
    if budget < keyed.cost() {
        drop(keyed);
        None
    } else {
        Some(keyed)
    }
}

/// The key of a value (Language Reference, the standard type hierarchy: mappings), or why it is none; nothing where the steps of the key,
/// or of the way to its fault, are more than a budget's.
#[tactic(auto, unfolding(crate::specs::Keys::key_of))]
pub fn key_within(
    alloc: Global,
    heap: &Heap,
    v: Value,
    budget: u64,
) -> Result<Option<KeyResult>, OutOfMemory>
    ensures { IfOk result (λ k. k ≡ key_payable budget (key_of heap.now v)) }
{
    let mut atoms = Vec::new(alloc);
    let pushed = push_parts(alloc, heap, &mut atoms, v, MOST_LEVELS, budget)?;
    match pushed {
        Pushed::Whole => Ok(affordable(KeyResult::Key(Key::from_vec(atoms)), budget)),
        Pushed::Fault(fault) => {
            let cost = atoms.len() as u64;
            Ok(affordable(KeyResult::Fault(fault, cost), budget))
        }
        Pushed::Exhausted => Ok(None),
    }
}
