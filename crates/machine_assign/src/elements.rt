// The elements that an unpacking takes.

ghost use Rattle.std.specs.Prelude.{◌≡◌, ◌++◌, IfOk, OnOk};
ghost use Rattle.std.specs.Fmt.{decimal};
ghost use Rattle.machine_turns.specs.py_world.Targets as world;

use py_items::iter::{IterAt, Turn};
use py_items::turn::turn;
use py_values::class::ExcClass;
use py_values::end::{Raise, push_ascii};
use py_values::heap::Heap;
use py_values::value::Value;
use seq::OutOfMemory;
use std::alloc::Global;

/// So many elements of a value from the first one on, each as a `for` gives it, and the heap with the characters of a text as texts.
#[tactic(auto, using(crate::proofs::Taking::takes, crate::proofs::Taking::took))]
pub fn elements(
    alloc: Global,
    heap: &mut Heap,
    v: Value,
    n: usize,
) -> Result<Vec<Value>, OutOfMemory>
    ensures { IfOk result (λ vs. (vs.items, heap.new) ≡ world.elements_from n v 0 n heap.old) }
{
    let mut vs = Vec::new(alloc);
    for i in 0..n {
        let mut at = IterAt {
            of: v,
            next: i,
            length: n,
        };
        match turn(alloc, heap, &mut at)? {
            Turn::Item(x) => vs.push(x)?,
            Turn::End | Turn::Raised(_) => return Ok(vs),
        }
    }
    Ok(vs)
}

/// Puts a text and a number behind others.
fn push_behind(
    alloc: Global,
    text: &mut Vec<char>,
    front: &str,
    n: usize,
) -> Result<(), OutOfMemory>
    ensures { OnOk result (text.new.items ≡ text.old.items ++ (front.now ++ decimal n)) }
{
    let number = n.to_string(alloc)?;
    push_ascii(text, front)?;
    push_ascii(text, number.as_str())?;
    Ok(())
}

/// What an unpacking raises whose count is wrong.
pub fn wrong_count(alloc: Global, wanted: usize, n: usize) -> Result<Raise, OutOfMemory>
    ensures { IfOk result (λ r. r ≡ world.wrong_count wanted n) }
{
    let mut text = Vec::new(alloc);
    push_behind(alloc, &mut text, "expected ", wanted)?;
    push_behind(alloc, &mut text, " values, got ", n)?;
    let raise = Raise::from_chars(alloc, ExcClass::ValueError, &text)?;
    Ok(raise)
}
