// Membership.

ghost use Rattle.std.specs.Prelude.{◌≡◌, ℕ, IfOk, option_map, slice_get, codes, pos, unsigned_abs, ◌/◌, ◌+ℤ◌, ◌-ℤ◌, ◌*ℤ◌};
ghost use Rattle.std.specs.Ordering.{int_eq};
ghost use Rattle.py_compare.specs.Equal.{told, equal_of};
ghost use Rattle.py_values.specs.Ends.{payable};
ghost use Rattle.py_operands.specs.py_kinds.Keys.{key_of};
ghost use Rattle.py_operands.specs.py_kinds.Kinds as kinds;
ghost use Rattle.py_values.specs.Ranges.{range_items};
ghost use Rattle.py_values.specs.declared.value.Value.TheVariants as val;
ghost use Rattle.py_ops.specs.Binary as binary;
ghost use Rattle.py_ops.specs.Compare as compare;
ghost use Rattle.py_operands.specs.Faults as faults;
ghost use Rattle.py_operands.specs.Ranges as ranges;
ghost use Rattle.py_operands.specs.Texts as texts;

use py_compare::equal::equal;
use py_compare::tested::Tested;
use py_kinds::keys::{KeyResult, key_within};
use py_kinds::kinds::kind_name;
use py_operands::faults::{key_fault, kinds_error, not_iterable, too_deep};
use py_operands::ranges::nth;
use py_operands::search::first_place;
use py_operands::texts::text_of;
use py_values::OutOfMemory;
use py_values::dict::Dict;
use py_values::end::{Effect, made_within};
use py_values::heap::Heap;
use py_values::number::number;
use py_values::object::Obj;
use py_values::range::RangeObj;
use py_values::value::{ObjId, Value};
use std::alloc::Global;

/// Looks for the first equal element.
fn search_in(heap: &Heap, a: Value, vs: &[Value], budget: u64) -> Tested
    ensures { result ≡ told budget (compare.search_in (equal_of heap.now a) vs.now) }
{
    let mut used = 0u64;
    for v in vs {
        if used == budget {
            return Tested::Exhausted;
        }
        match equal(heap, a, *v, budget - used - 1) {
            Tested::Yes(n) => return Tested::Yes(used + 1 + n),
            Tested::No(n) => used = used + 1 + n,
            Tested::TooDeep(n) => return Tested::TooDeep(used + 1 + n),
            Tested::NotOrdered(n) => return Tested::NotOrdered(used + 1 + n),
            Tested::Exhausted => return Tested::Exhausted,
        }
    }
    Tested::No(used)
}

/// Whether a text has another as a part.
#[tactic(auto, using(crate::proofs::Parting::part_found))]
fn has_part(alloc: Global, part: &[char], text: &[char]) -> Result<bool, OutOfMemory>
    ensures { IfOk result (λ b. b ≡ compare.has_part part.now text.now) }
{
    let place = first_place(alloc, part, text)?;
    Ok(place.is_some())
}

/// Whether a number is that of a progression at a place.
fn is_nth(start: i128, step: i128, at: usize, n: i128) -> bool
    ensures { result ≡ int_eq (start +ℤ step *ℤ pos at) n }
{
    match nth(start, step, at) {
        Some(z) => z == n,
        None => false,
    }
}

/// Whether a number is that of a range at a place.
fn is_at(range: &RangeObj, at: usize, n: i128) -> bool
    ensures { result ≡ int_eq (ranges.nth_of range.now at) n }
{
    is_nth(range.start, range.step, at, n)
}

/// The only place of a range at which a number can stand: how far it is from the start, divided by the step.
#[tactic(auto, using(crate::proofs::Ranging::no_step))]
fn place_of(range: &RangeObj, n: i128) -> u128
    ensures { result ≡ unsigned_abs (n -ℤ range.now.start) / unsigned_abs range.now.step }
{
    let far = n.abs_diff(range.start);
    let step = range.step.unsigned_abs();
    if step == 0 {
        return 0;
    }
    far / step
}

/// Whether a number is one of a range: it is the one at the only place where it can stand.
fn has_number(range: &RangeObj, n: i128) -> bool
    ensures { result ≡ compare.in_numbers (range_items range.now) n }
{
    let place = place_of(range, n);
    if place < range.length as u128 {
        return is_at(range, place as usize, n);
    }
    false
}

/// Whether a number is one of a range.
fn in_range(range: &RangeObj, n: Option<i128>) -> bool
    ensures { result ≡ compare.in_range (range_items range.now) n }
{
    match n {
        Some(n) => has_number(range, n),
        None => false,
    }
}

/// What a verdict gives where no order is asked for.
pub fn judge(alloc: Global, wanted: bool, told: Tested) -> Result<Option<Effect>, OutOfMemory>
    ensures { IfOk result (λ m. m ≡ compare.judged_told wanted told) }
{
    match told {
        Tested::Yes(cost) => Ok(Some(Effect::Give(Value::Bool(wanted), cost))),
        Tested::No(cost) => Ok(Some(Effect::Give(Value::Bool(!wanted), cost))),
        Tested::TooDeep(cost) | Tested::NotOrdered(cost) => {
            let raise = too_deep(alloc)?;
            Ok(Some(Effect::Fail(raise, cost)))
        }
        Tested::Exhausted => Ok(None),
    }
}

/// Whether what was found is what is asked for.
fn found_is(wanted: bool, found: bool) -> bool
    ensures { result ≡ compare.found_is wanted found }
{
    if wanted { found } else { !found }
}

/// What is made of a key under a budget that is looked for in a dict.
fn in_pairs(
    alloc: Global,
    heap: &Heap,
    dict: &Dict,
    wanted: bool,
    keyed: Option<KeyResult>,
) -> Result<Option<Effect>, OutOfMemory>
    ensures { IfOk result (λ m. m ≡ option_map (compare.in_pairs heap.now dict.now wanted) keyed) }
{
    match keyed {
        Some(KeyResult::Key(k)) => {
            let found = dict.get(&k).is_some();
            let given = Value::Bool(found_is(wanted, found));
            Ok(Some(Effect::Give(given, k.cost())))
        }
        Some(KeyResult::Fault(fault, cost)) => {
            let raise = key_fault(alloc, heap, fault)?;
            Ok(Some(Effect::Fail(raise, cost)))
        }
        None => Ok(None),
    }
}

/// A key of a dict.
#[tactic(auto, using(crate::proofs::Keyed::in_pairs_within))]
fn in_dict(
    alloc: Global,
    heap: &Heap,
    dict: &Dict,
    wanted: bool,
    a: Value,
    budget: u64,
) -> Result<Option<Effect>, OutOfMemory>
    ensures { IfOk result (λ m. m ≡ payable budget (compare.in_pairs heap.now dict.now wanted (key_of heap.now a))) }
{
    let keyed = key_within(alloc, heap, a, budget)?;
    in_pairs(alloc, heap, dict, wanted, keyed)
}

fn no_text(alloc: Global, heap: &Heap, op: &str, a: Value) -> Result<Effect, OutOfMemory>
    ensures { IfOk result (λ m. m ≡ binary.unsupported op.now (kinds.kind_name heap.now a) (codes "str")) }
{
    let left = kind_name(alloc, heap, a)?;
    let raise = kinds_error(
        alloc,
        "unsupported operand type(s) for ",
        op,
        ": '",
        left.chars(),
        &['s', 't', 'r'],
    )?;
    Ok(Effect::Fail(raise, 0))
}

/// A part of a text.
fn in_text(
    alloc: Global,
    heap: &Heap,
    op: &str,
    wanted: bool,
    a: Value,
    text: &[char],
) -> Result<Effect, OutOfMemory>
    ensures { IfOk result (λ m. m ≡ compare.in_text (binary.unsupported op.now (kinds.kind_name heap.now a) (codes "str")) wanted text.now (texts.text_of heap.now a)) }
{
    match text_of(heap, a) {
        Some(part) => {
            let found = has_part(alloc, part.chars(), text)?;
            Ok(Effect::Give(Value::Bool(found_is(wanted, found)), text.len() as u64))
        }
        None => no_text(alloc, heap, op, a),
    }
}

#[tactic(auto, using(crate::proofs::Judging::judged_within))]
fn in_values(
    alloc: Global,
    heap: &Heap,
    wanted: bool,
    a: Value,
    vs: &[Value],
    budget: u64,
) -> Result<Option<Effect>, OutOfMemory>
    ensures { IfOk result (λ m. m ≡ payable budget (compare.judged_found wanted (compare.search_in (equal_of heap.now a) vs.now))) }
{
    let told = search_in(heap, a, vs, budget);
    judge(alloc, wanted, told)
}

fn refused(alloc: Global, heap: &Heap, b: Value) -> Result<Option<Effect>, OutOfMemory>
    ensures { IfOk result (λ m. (budget : ℕ) → m ≡ payable budget (Effect.Fail (faults.not_iterable (kinds.kind_name heap.now b)) 0)) }
{
    let raise = not_iterable(alloc, heap, b)?;
    Ok(Some(Effect::Fail(raise, 0)))
}

fn in_object(
    alloc: Global,
    heap: &Heap,
    op: &str,
    wanted: bool,
    a: Value,
    id: ObjId,
    budget: u64,
) -> Result<Option<Effect>, OutOfMemory>
    ensures { IfOk result (λ m. m ≡ payable budget (compare.in_object (binary.unsupported op.now (kinds.kind_name heap.now a) (codes "str"))
        (faults.not_iterable (kinds.kind_name heap.now (val.Ref id))) wanted heap.now a (slice_get heap.now id.at))) }
{
    match heap.get(id) {
        Some(Obj::List(vs)) => in_values(alloc, heap, wanted, a, vs.items(), budget),
        Some(Obj::Tuple(vs)) => in_values(alloc, heap, wanted, a, vs.items(), budget),
        Some(Obj::Dict(d)) => in_dict(alloc, heap, d, wanted, a, budget),
        Some(Obj::Range(r)) => {
            let found = in_range(r, number(a));
            Ok(Some(Effect::Give(Value::Bool(found_is(wanted, found)), 0)))
        }
        Some(Obj::Text(t)) => {
            let made = in_text(alloc, heap, op, wanted, a, t.chars())?;
            Ok(made_within(made, budget))
        }
        _ => refused(alloc, heap, Value::Ref(id)),
    }
}

/// Whether a value is in another (Language Reference, membership test operations).
pub fn contains(
    alloc: Global,
    heap: &Heap,
    op: &str,
    wanted: bool,
    a: Value,
    b: Value,
    budget: u64,
) -> Result<Option<Effect>, OutOfMemory>
    ensures { IfOk result (λ m. m ≡ payable budget (compare.contains_of op.now wanted heap.now a b)) }
{
    match b {
        Value::Ref(id) => in_object(alloc, heap, op, wanted, a, id, budget),
        Value::None | Value::Bool(_) | Value::Int(_) => refused(alloc, heap, b),
    }
}
