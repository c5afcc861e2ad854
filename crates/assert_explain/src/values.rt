// The texts of values, and what was kept of parts.

ghost use Rattle.std.specs.Prelude.{◌≡◌, [], IfOk, is_some};
ghost use Rattle.py_tree.specs.Trees.{tree};
ghost use Rattle.py_world.specs.Explained as world;

use py_repr::repr::repr;
use py_repr::shown::Shown;
use py_tree::{Expr, ExprKind};
use py_values::end::push_ascii;
use py_values::heap::Heap;
use py_values::object::Obj;
use py_values::value::Value;
use seq::OutOfMemory;
use std::alloc::Global;

/// The most characters of a value's text.
const MOST: usize = 240;

/// The characters that are shown of a longer one.
const FIRST: usize = MOST - 3;

/// A value as it is shown.
#[tactic(auto, using(crate::proofs::Shortened::cut, crate::proofs::Shortened::whole))]
pub fn value_text(alloc: Global, heap: &Heap, v: Value) -> Result<Vec<char>, OutOfMemory>
    ensures { IfOk result (λ t. t.items ≡ world.value_text heap.now v) }
{
    let Shown { text, cut, deep: _ } = repr(alloc, heap, v, MOST)?;
    let mut text = Vec::from_slice(alloc, text.chars())?;
    if cut {
        text.truncate(FIRST);
        push_ascii(&mut text, "...")?;
    }
    Ok(text)
}

/// What was kept of a part.
pub fn kept_value(kept: &[Option<Value>], n: usize) -> Option<Value>
    ensures { result ≡ world.kept_value [] kept.now n }
{
    match kept.get(n) {
        Some(value) => *value,
        None => None,
    }
}

/// The text of what was kept of a part; one that was not evaluated has none.
pub fn kept_text(
    alloc: Global,
    heap: &Heap,
    kept: &[Option<Value>],
    n: usize,
) -> Result<Vec<char>, OutOfMemory>
    ensures { IfOk result (λ t. t.items ≡ world.kept_text heap.now kept.now (world.kept_value heap.now kept.now n)) }
{
    match kept_value(kept, n) {
        Some(v) => value_text(alloc, heap, v),
        None => Ok(Vec::new(alloc)),
    }
}

/// Whether a value is shown by its name.
pub fn is_shown_by_name(heap: &Heap, v: Option<Value>) -> bool
    ensures { result ≡ world.value_is_shown_by_name heap.now v }
{
    let Some(Value::Ref(id)) = v else {
        return false;
    };
    match heap.get(id) {
        Some(Obj::Function(_) | Obj::Class(_) | Obj::Module(_) | Obj::Builtin(_)) => true,
        _ => false,
    }
}

fn is_kept(kept: &[Option<Value>], n: usize) -> bool
    ensures { result ≡ is_some (world.kept_value [] kept.now n) }
{
    kept_value(kept, n).is_some()
}

/// Whether a part was evaluated: its first part was.
#[cycle(evaluated)]
#[tactic(auto, using(crate::proofs::Evaluated::evaluations))]
pub fn evaluated(kept: &[Option<Value>], n: usize, e: &Expr) -> bool
    ensures { result ≡ world.evaluated [] kept.now n (tree e.now) }
{
    match &e.kind {
        ExprKind::Paren(a) => evaluated(kept, n, a),
        ExprKind::Unary(_, a) => evaluated(kept, n, a),
        ExprKind::Not(a) => evaluated(kept, n, a),
        ExprKind::Binary(a, _, _) => evaluated(kept, n, a),
        ExprKind::Compare(a, _, _) => evaluated(kept, n, a),
        ExprKind::And(a, _) => evaluated(kept, n, a),
        ExprKind::Or(a, _) => evaluated(kept, n, a),
        ExprKind::Call(_, _, _)
        | ExprKind::Attribute(_, _)
        | ExprKind::Name(_)
        | ExprKind::Number(_)
        | ExprKind::Text(_)
        | ExprKind::True
        | ExprKind::False
        | ExprKind::None
        | ExprKind::Tuple(_)
        | ExprKind::List(_)
        | ExprKind::Dict(_, _)
        | ExprKind::Subscript(_, _)
        | ExprKind::Slice(_, _, _, _)
        | ExprKind::IfElse(_, _, _) => is_kept(kept, n),
    }
}
