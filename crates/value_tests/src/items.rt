// Rows on subscripts, slices, stores and deletions of items, and turns of a `for`.

use crate::shown::{cost, ended, raised, repr_told};
use crate::spelled::{MemoryResult, Operands, copied};
use py_items::iter::{IterAt, Turn};
use py_items::store::{delete_item, store_item};
use py_items::subscript::subscript;
use py_items::turn::{iterate, turn};
use py_values::end::OpEnd;
use py_values::heap::Heap;
use py_values::index::Index;
use py_values::value::Value;
use std::alloc::Global;

/// What is done with items that has a cost.
#[derive(Clone, Copy)]
pub enum ItemAct {
    Subscript,
    Slice,
    Store,
    Delete,
}

/// What a row does with an item, by its word.
pub fn item_act_by(word: &str) -> Option<ItemAct> {
    match word {
        "item" => Some(ItemAct::Subscript),
        "slice" => Some(ItemAct::Slice),
        "store" => Some(ItemAct::Store),
        "delete" => Some(ItemAct::Delete),
        _ => None,
    }
}

/// A bound of a slice, where it isn't `None`.
fn bound(on: &Operands, place: usize) -> Option<Value> {
    match on.at(place) {
        Value::None => None,
        v => Some(v),
    }
}

/// How an act ends on its operands.
fn done(alloc: Global, on: &mut Operands, act: ItemAct, budget: u64) -> MemoryResult<OpEnd> {
    let (of, at, v) = (on.at(0), on.at(1), on.at(2));
    let index = match act {
        ItemAct::Slice => Index::Slice(bound(on, 1), bound(on, 2), bound(on, 3)),
        ItemAct::Subscript | ItemAct::Store | ItemAct::Delete => Index::At(at),
    };
    match act {
        ItemAct::Subscript | ItemAct::Slice => subscript(alloc, &mut on.heap, of, &index, budget),
        ItemAct::Store => store_item(alloc, &mut on.heap, of, at, v, budget),
        ItemAct::Delete => delete_item(alloc, &mut on.heap, of, at, budget),
    }
}

/// The object behind a store or a deletion, with the cost.
fn behind(alloc: Global, on: &Operands, end: &OpEnd) -> MemoryResult<String> {
    let text = repr_told(alloc, &on.heap, on.at(0))?;
    let cost = cost(end);
    Ok(format!(in alloc; "{text} {cost}")?)
}

/// What is told of an act's end, for a store and a deletion of the object behind it; and its steps.
fn told_of(alloc: Global, on: &Operands, act: ItemAct, end: &OpEnd) -> MemoryResult<(String, u64)> {
    let text = match (act, end) {
        (ItemAct::Store | ItemAct::Delete, OpEnd::Value(_, _)) => behind(alloc, on, end),
        _ => ended(alloc, &on.heap, end),
    };
    Ok((text?, cost(end)))
}

/// What is told of an act within a budget, and its steps.
pub fn told(
    alloc: Global,
    on: &mut Operands,
    act: ItemAct,
    budget: u64,
) -> MemoryResult<(String, u64)> {
    let end = done(alloc, on, act, budget)?;
    told_of(alloc, on, act, &end)
}

/// A turn's element, or what else it is, and whether there may be another.
fn turn_told(alloc: Global, heap: &Heap, turn: &Turn) -> MemoryResult<(String, bool)> {
    let text = match turn {
        Turn::Item(v) => repr_told(alloc, heap, *v),
        Turn::End => copied(alloc, "-"),
        Turn::Raised(raise) => raised(alloc, heap, raise),
    };
    Ok((text?, matches!(turn, Turn::Item(_))))
}

fn next_told(alloc: Global, heap: &mut Heap, place: &mut IterAt) -> MemoryResult<(String, bool)> {
    let next = turn(alloc, heap, place)?;
    turn_told(alloc, heap, &next)
}

/// Where a `for` over a value begins; over what isn't iterable it is at its start too.
fn start_of(heap: &Heap, of: Value) -> IterAt {
    match iterate(heap, of) {
        Some(at) => at,
        None => IterAt {
            of,
            next: 0,
            length: 0,
        },
    }
}

/// The elements that a `for` gives, up to nine turns, and how it ends.
fn all_turns(alloc: Global, heap: &mut Heap, of: Value) -> MemoryResult<String> {
    let mut place = start_of(heap, of);
    let mut all = String::new(alloc);
    for _ in 0..9 {
        let (text, goes_on) = next_told(alloc, heap, &mut place)?;
        all.push_str(text.as_str())?;
        if !goes_on {
            break;
        }
        all.push(' ')?;
    }
    Ok(all)
}

/// Stores or deletes an item between turns.
fn change(alloc: Global, heap: &mut Heap, by: &str, of: Value, at: Value) -> MemoryResult<OpEnd> {
    match by {
        "store" => store_item(alloc, heap, of, at, Value::None, 9),
        _ => delete_item(alloc, heap, of, at, 9),
    }
}

/// What the second turn gives when an item is stored or deleted behind the first.
fn changed_turn(alloc: Global, on: &mut Operands, by: &str) -> MemoryResult<String> {
    let (of, at) = (on.at(0), on.at(1));
    let mut place = start_of(&on.heap, of);
    let _first = turn(alloc, &mut on.heap, &mut place)?;
    let _end = change(alloc, &mut on.heap, by, of, at)?;
    let (text, _) = next_told(alloc, &mut on.heap, &mut place)?;
    Ok(text)
}

/// The turns of a `for`, or the second one where an item is stored or deleted behind the first.
pub fn turns(alloc: Global, on: &mut Operands, by: &str) -> MemoryResult<String> {
    if by.is_empty() {
        let of = on.at(0);
        return all_turns(alloc, &mut on.heap, of);
    }
    changed_turn(alloc, on, by)
}

/// A dict behind the deletion of a key and two stores.
pub fn order(alloc: Global, on: &mut Operands) -> MemoryResult<String> {
    let (dict, gone) = (on.at(0), on.at(1));
    let (again, v, first, w) = (on.at(2), on.at(3), on.at(4), on.at(5));
    let _gone = delete_item(alloc, &mut on.heap, dict, gone, 0)?;
    let _again = store_item(alloc, &mut on.heap, dict, again, v, 0)?;
    let _first = store_item(alloc, &mut on.heap, dict, first, w, 0)?;
    repr_told(alloc, &on.heap, dict)
}

/// How the store of a key within a budget ends, in a dict that may be too large to be shown.
pub fn key_stored(alloc: Global, on: &mut Operands, budget: u64) -> MemoryResult<String> {
    let (dict, key, v) = (on.at(0), on.at(1), on.at(2));
    let end = store_item(alloc, &mut on.heap, dict, key, v, budget)?;
    ended(alloc, &on.heap, &end)
}
