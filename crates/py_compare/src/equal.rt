// Equality, with its cost.

ghost use Rattle.std.specs.Prelude.{◌≡◌, ◌+◌, ◌<◌, ◌^◌, length, slice_get, eqb};
ghost use Rattle.py_compare.specs.Equal as equal;
ghost use Rattle.py_compare.specs.Equal.{told, shifted, tested_steps, equal_to, objs_equal, rows_equal, pair_equal, pairs_equal, plain_equal, of_length};

use crate::chars::equal_chars;
use crate::range::equal_ranges;
use crate::tested::Tested;
use py_values::dict::{Dict, Pair};
use py_values::heap::Heap;
use py_values::key::Key;
use py_values::limits::MOST_LEVELS;
use py_values::number::number;
use py_values::object::Obj;
use py_values::value::{ObjId, Value};

fn behind(used: u64, t: Tested) -> Tested
    requires { used + tested_steps t < 2 ^ 64 }
    ensures { result ≡ shifted used t }
{
    match t {
        Tested::Yes(n) => Tested::Yes(used + n),
        Tested::No(n) => Tested::No(used + n),
        Tested::TooDeep(n) => Tested::TooDeep(used + n),
        Tested::NotOrdered(n) => Tested::NotOrdered(used + n),
        Tested::Exhausted => Tested::Exhausted,
    }
}

/// Whether two values are equal, none of which is an object: `None`, truth values and whole numbers, where `True` is 1 (Language Reference,
/// 6.10.1 Value comparisons).
pub fn is_plain_equal(a: Value, b: Value) -> bool
    ensures { result ≡ plain_equal a b }
{
    if let (Value::None, Value::None) = (a, b) {
        return true;
    }
    match (number(a), number(b)) {
        (Some(x), Some(y)) => x == y,
        _ => false,
    }
}

/// Compares values, to a depth.
#[cycle(equal)]
fn equal_values(heap: &Heap, a: Value, b: Value, left: u64, depth: usize) -> Tested
    ensures { result ≡ told left (equal_to depth heap.now a b) }
{
    if depth == 0 {
        return Tested::TooDeep(0);
    }
    match (a, b) {
        (Value::Ref(i), Value::Ref(j)) => equal_objs(heap, i, j, left, depth - 1),
        _ => {
            if is_plain_equal(a, b) {
                Tested::Yes(0)
            } else {
                Tested::No(0)
            }
        }
    }
}

/// Compares values pair by pair.
#[cycle(equal)]
fn equal_rows(heap: &Heap, xs: &[Value], ys: &[Value], left: u64, depth: usize) -> Tested
    requires { length xs.now ≡ length ys.now }
    ensures { result ≡ told left (rows_equal (equal_to depth heap.now) xs.now ys.now) }
{
    let mut used = 0u64;
    for i in 0..xs.len() {
        if used == left {
            return Tested::Exhausted;
        }
        let t = equal_values(heap, xs[i], ys[i], left - used - 1, depth);
        match t {
            Tested::Yes(n) => used = used + 1 + n,
            t => return behind(used + 1, t),
        }
    }
    Tested::Yes(used)
}

/// Compares lists, or tuples.
#[cycle(equal)]
fn equal_lists(heap: &Heap, xs: &[Value], ys: &[Value], left: u64, depth: usize) -> Tested
    ensures { result ≡ told left (of_length (length xs.now) (length ys.now) (rows_equal (equal_to depth heap.now) xs.now ys.now)) }
{
    if xs.len() == ys.len() {
        return equal_rows(heap, xs, ys, left, depth);
    }
    Tested::No(0)
}

/// Compares dicts.
#[cycle(equal)]
fn equal_dicts(heap: &Heap, a: &Dict, b: &Dict, left: u64, depth: usize) -> Tested
    ensures { result ≡ told left (of_length (length a.now) (length b.now) (pairs_equal (equal_to depth heap.now) a.now b.now)) }
{
    if a.len() == b.len() {
        return equal_pairs(heap, a, b, left, depth);
    }
    Tested::No(0)
}

/// Compares objects; a value in them is compared to a depth.
#[cycle(equal)]
pub fn equal_objs(heap: &Heap, i: ObjId, j: ObjId, left: u64, depth: usize) -> Tested
    ensures { result ≡ told left (objs_equal (equal_to depth heap.now) (eqb i.at j.at) (slice_get heap.now i.at) (slice_get heap.now j.at)) }
{
    match (heap.get(i), heap.get(j)) {
        (Some(Obj::Text(a)), Some(Obj::Text(b))) => equal_chars(a.chars(), b.chars(), left),
        (Some(Obj::List(a)), Some(Obj::List(b))) => {
            equal_lists(heap, a.items(), b.items(), left, depth)
        }
        (Some(Obj::Tuple(a)), Some(Obj::Tuple(b))) => {
            equal_lists(heap, a.items(), b.items(), left, depth)
        }
        (Some(Obj::Dict(a)), Some(Obj::Dict(b))) => equal_dicts(heap, a, b, left, depth),
        (Some(Obj::Range(a)), Some(Obj::Range(b))) => equal_ranges(a, b, left),
        _ => {
            if i.at == j.at {
                Tested::Yes(0)
            } else {
                Tested::No(0)
            }
        }
    }
}

/// Compares a pair with what the other dict has under its key.
#[cycle(equal)]
fn equal_pair(heap: &Heap, key: &Key, pair: Pair, b: &Dict, left: u64, depth: usize) -> Tested
    ensures { result ≡ told left (pair_equal (equal_to depth heap.now) (key.now, pair) b.now) }
{
    let cost = key.cost();
    if left <= cost {
        return Tested::Exhausted;
    }
    match b.get(key) {
        Some(other) => behind(
            cost + 1,
            equal_values(heap, pair.value, other.value, left - cost - 1, depth),
        ),
        None => Tested::No(cost + 1),
    }
}

/// Compares the pairs of dicts.
#[cycle(equal)]
fn equal_pairs(heap: &Heap, a: &Dict, b: &Dict, left: u64, depth: usize) -> Tested
    ensures { result ≡ told left (pairs_equal (equal_to depth heap.now) a.now b.now) }
{
    let mut used = 0u64;
    for i in 0..a.len() {
        let Some((key, entry)) = a.entry(i) else {
            return Tested::Exhausted;
        };
        let t = equal_pair(heap, key, *entry, b, left - used, depth);
        match t {
            Tested::Yes(n) => used = used + n,
            t => return behind(used, t),
        }
    }
    Tested::Yes(used)
}

/// Whether two values are equal (Language Reference, value comparisons), within a budget of steps.
#[tactic(auto, unfolding(crate::specs::Equal::equal_of))]
pub fn equal(heap: &Heap, a: Value, b: Value, budget: u64) -> Tested
    ensures { result ≡ told budget (equal.equal_of heap.now a b) }
{
    equal_values(heap, a, b, budget, MOST_LEVELS)
}
