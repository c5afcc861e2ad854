// Order, with its cost.

ghost use Rattle.std.specs.Prelude.{◌≡◌, ◌+◌, ◌<◌, ◌^◌, slice_get, eqb};
ghost use Rattle.py_values.specs.Numbers.{int_value};
ghost use Rattle.py_compare.specs.Equal.{told, holds_if, plain_equal, objs_equal, equal_to};
ghost use Rattle.py_compare.specs.Order as order;
ghost use Rattle.py_compare.specs.Order.{place_within, place_shifted, ordered_steps, order_to, objs_order, rows_order, unlike, numbers_order, ints_order};

use crate::chars::order_chars;
use crate::equal::{equal_objs, is_plain_equal};
use crate::tested::{Comparison, Tested};
use py_values::heap::Heap;
use py_values::limits::MOST_LEVELS;
use py_values::number::number;
use py_values::object::Obj;
use py_values::value::{ObjId, Value};

fn behind(used: u64, t: Comparison) -> Comparison
    requires { used + ordered_steps t < 2 ^ 64 }
    ensures { result ≡ place_shifted used t }
{
    match t {
        Comparison::Less(n) => Comparison::Less(used + n),
        Comparison::Same(n) => Comparison::Same(used + n),
        Comparison::More(n) => Comparison::More(used + n),
        Comparison::TooDeep(n) => Comparison::TooDeep(used + n),
        Comparison::NotOrdered(n) => Comparison::NotOrdered(used + n),
        Comparison::Exhausted => Comparison::Exhausted,
    }
}

/// What is told of a pair that has no order, which may be equal.
fn unordered(t: Tested) -> Comparison
    ensures { result ≡ order.unlike_told t }
{
    match t {
        Tested::Yes(n) => Comparison::Same(n),
        Tested::No(n) => Comparison::NotOrdered(n),
        Tested::TooDeep(n) => Comparison::TooDeep(n),
        Tested::NotOrdered(n) => Comparison::NotOrdered(n),
        Tested::Exhausted => Comparison::Exhausted,
    }
}

fn order_ints(x: i128, y: i128, left: u64) -> Comparison
    ensures { result ≡ place_within left (ints_order x y) }
{
    if x < y {
        Comparison::Less(0)
    } else if x == y {
        Comparison::Same(0)
    } else {
        Comparison::More(0)
    }
}

/// The objects that two values are, where both are one.
fn refs_of(a: Value, b: Value) -> Option<(ObjId, ObjId)>
    ensures { result ≡ order.refs_of a b }
{
    match (a, b) {
        (Value::Ref(i), Value::Ref(j)) => Some((i, j)),
        _ => None,
    }
}

/// Orders values of which one is no object.
fn order_plain(a: Value, b: Value, left: u64) -> Comparison
    ensures { result ≡ place_within left (numbers_order (unlike (holds_if (plain_equal a b))) (int_value a) (int_value b)) }
{
    match (number(a), number(b)) {
        (Some(x), Some(y)) => order_ints(x, y, left),
        _ => {
            if is_plain_equal(a, b) {
                Comparison::Same(0)
            } else {
                Comparison::NotOrdered(0)
            }
        }
    }
}

/// Orders objects that have no order.
#[tactic(auto, using(crate::proofs::Places::unlike_within))]
fn unlike_objs(heap: &Heap, i: ObjId, j: ObjId, left: u64, depth: usize) -> Comparison
    ensures { result ≡ place_within left (unlike (objs_equal (equal_to depth heap.now) (eqb i.at j.at) (slice_get heap.now i.at) (slice_get heap.now j.at))) }
{
    unordered(equal_objs(heap, i, j, left, depth))
}

/// Orders values within others, to a depth.
#[cycle(order)]
fn order_values(heap: &Heap, a: Value, b: Value, left: u64, depth: usize) -> Comparison
    ensures { result ≡ place_within left (order_to depth heap.now a b) }
{
    if depth == 0 {
        return Comparison::TooDeep(0);
    }
    match refs_of(a, b) {
        Some((i, j)) => order_objs(heap, i, j, left, depth - 1),
        None => order_plain(a, b, left),
    }
}

/// Orders objects; a value in them is compared to a depth.
#[cycle(order)]
fn order_objs(heap: &Heap, i: ObjId, j: ObjId, left: u64, depth: usize) -> Comparison
    ensures { result ≡ place_within left
        (objs_order (order_to depth heap.now) (unlike (objs_equal (equal_to depth heap.now) (eqb i.at j.at) (slice_get heap.now i.at) (slice_get heap.now j.at)))
        (slice_get heap.now i.at) (slice_get heap.now j.at)) }
{
    match (heap.get(i), heap.get(j)) {
        (Some(Obj::Text(a)), Some(Obj::Text(b))) => order_chars(a.chars(), b.chars(), left),
        (Some(Obj::List(a)), Some(Obj::List(b))) => {
            order_rows(heap, a.items(), b.items(), left, depth)
        }
        (Some(Obj::Tuple(a)), Some(Obj::Tuple(b))) => {
            order_rows(heap, a.items(), b.items(), left, depth)
        }
        _ => unlike_objs(heap, i, j, left, depth),
    }
}

/// Orders values by their first differing pair, else by length.
#[cycle(order)]
fn order_rows(heap: &Heap, xs: &[Value], ys: &[Value], left: u64, depth: usize) -> Comparison
    ensures { result ≡ place_within left (rows_order (order_to depth heap.now) xs.now ys.now) }
{
    let mut used = 0u64;
    for i in 0..xs.len() {
        if i >= ys.len() {
            return Comparison::More(used);
        }
        if used == left {
            return Comparison::Exhausted;
        }
        let t = order_values(heap, xs[i], ys[i], left - used - 1, depth);
        match t {
            Comparison::Same(n) => used = used + 1 + n,
            t => return behind(used + 1, t),
        }
    }
    if xs.len() < ys.len() {
        Comparison::Less(used)
    } else {
        Comparison::Same(used)
    }
}

/// Whether two values have an order.
fn is_ordered(heap: &Heap, a: Value, b: Value) -> bool
    ensures { result ≡ order.is_ordered heap.now a b }
{
    if let (Value::Ref(i), Value::Ref(j)) = (a, b) {
        return match (heap.get(i), heap.get(j)) {
            (Some(Obj::Text(_)), Some(Obj::Text(_))) => true,
            (Some(Obj::List(_)), Some(Obj::List(_))) => true,
            (Some(Obj::Tuple(_)), Some(Obj::Tuple(_))) => true,
            _ => false,
        };
    }
    match (number(a), number(b)) {
        (Some(_), Some(_)) => true,
        _ => false,
    }
}

/// How two values are ordered (Language Reference, value comparisons), within a budget of steps.
#[tactic(auto, unfolding(crate::specs::Order::order_of))]
pub fn order(heap: &Heap, a: Value, b: Value, budget: u64) -> Comparison
    ensures { result ≡ place_within budget (order.order_of heap.now a b) }
{
    if is_ordered(heap, a, b) {
        return order_values(heap, a, b, budget, MOST_LEVELS);
    }
    Comparison::NotOrdered(0)
}

fn less_told(t: Comparison) -> Tested
    ensures { result ≡ order.less_told t }
{
    match t {
        Comparison::Less(n) => Tested::Yes(n),
        Comparison::Same(n) => Tested::No(n),
        Comparison::More(n) => Tested::No(n),
        Comparison::TooDeep(n) => Tested::TooDeep(n),
        Comparison::NotOrdered(n) => Tested::NotOrdered(n),
        Comparison::Exhausted => Tested::Exhausted,
    }
}

/// Whether one value is less than another (Language Reference, value comparisons), within a budget of steps.
#[tactic(auto, using(crate::proofs::Places::less_within))]
pub fn less(heap: &Heap, a: Value, b: Value, budget: u64) -> Tested
    ensures { result ≡ told budget (order.less_of heap.now a b) }
{
    less_told(order(heap, a, b, budget))
}
