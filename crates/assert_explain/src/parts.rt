// What is shown of the parts of a condition.

ghost use Rattle.std.specs.Prelude.{◌≡◌, ◌+◌, ◌++◌, ◌∷◌, suc, codes, if◌then◌else◌, IfOk, OnOk};
ghost use Rattle.py_tree.specs.Trees.{tree, trees};
ghost use Rattle.py_tree.specs.declared.expr.ExprKind.TheVariants as kinds;
ghost use Rattle.py_world.specs.Explained as world;
ghost use Rattle.py_ops.specs.Binary as binary;
ghost use Rattle.assert_explain.specs.Texts as texts;

use crate::counts::{behind, place_behind};
use crate::shows::Explanation;
use crate::values::{evaluated, is_shown_by_name, kept_text, kept_value};
use py_ops::binary::binary_text;
use py_ops::compare::compare_text;
use py_ops::unary::unary_text;
use py_tree::{ArgName, BinOp, CmpOp, Expr, ExprKind, SrcText, UnOp};
use py_values::heap::Heap;
use py_values::value::Value;
use seq::OutOfMemory;
use std::alloc::Global;
use std::rc::Rc;

/// The value of a part.
fn show_leaf(
    alloc: Global,
    heap: &Heap,
    kept: &[Option<Value>],
    n: usize,
) -> Result<Explanation, OutOfMemory>
    ensures { IfOk result (λ s. s ≡ world.leaf_show heap.now kept.now n) }
{
    let text = kept_text(alloc, heap, kept, n)?;
    Ok(Explanation::from_text(alloc, text))
}

/// A name, or its value.
fn show_name(
    alloc: Global,
    heap: &Heap,
    kept: &[Option<Value>],
    n: usize,
    name: &SrcText,
) -> Result<Explanation, OutOfMemory>
    ensures { IfOk result (λ s. s ≡ texts.name_show heap.now kept.now n name.now) }
{
    if is_shown_by_name(heap, kept_value(kept, n)) {
        let text = Vec::from_slice(alloc, name.chars())?;
        return Ok(Explanation::from_text(alloc, text));
    }
    show_leaf(alloc, heap, kept, n)
}

/// An argument, behind its name where it has one.
fn with_name(
    alloc: Global,
    names: &[Option<ArgName>],
    at: usize,
    part: Explanation,
) -> Result<Explanation, OutOfMemory>
    ensures { IfOk result (λ s. s ≡ world.named_show (texts.arg_name_at names.now at) part) }
{
    match names.get(at) {
        Some(Some(name)) => part.behind(alloc, "=", name.name.chars()),
        _ => Ok(part),
    }
}

/// The word of the operator at a place.
fn word_at(ops: &[CmpOp], at: usize) -> &'static str
    ensures { result.now ≡ texts.word_at ops.now at }
{
    match ops.get(at) {
        Some(op) => compare_text(*op),
        None => "",
    }
}

/// The word between operands that are evaluated until one of them decides.
#[derive(Clone, Copy, PartialEq, Eq)]
pub enum Joint {
    And,
    Or,
}

/// The text of the word, with the spaces around it.
fn joint_text(joint: Joint) -> &'static str
    ensures { result.now ≡ texts.joint_text joint }
{
    match joint {
        Joint::And => " and ",
        Joint::Or => " or ",
    }
}

/// A call of what is shown, with arguments that are: its value, and how it came.
fn call_shows(
    alloc: Global,
    heap: &Heap,
    kept: &[Option<Value>],
    n: usize,
    callee: Explanation,
    args: &Explanation,
) -> Result<Explanation, OutOfMemory>
    ensures { IfOk result (λ s. s ≡ texts.call_with heap.now kept.now n callee args.now) }
{
    let mut how = callee;
    how.push_call(alloc, args)?;
    Explanation::came_from(alloc, kept_text(alloc, heap, kept, n)?, &how)
}

/// A pair in the place of another one, where it was compared.
fn set_pair(
    alloc: Global,
    pair: &mut Explanation,
    is_compared: bool,
    left: &Explanation,
    word: &str,
    right: &Explanation,
) -> Result<(), OutOfMemory>
    ensures { OnOk result (pair.new ≡ (if is_compared then world.pair_shows word.now left.now right.now else pair.old)) }
{
    if is_compared {
        *pair = Explanation::pair(alloc, left, word, right)?;
    }
    Ok(())
}

/// An argument, behind its name where it has one.
#[cycle(part)]
fn show_arg(
    alloc: Global,
    heap: &Heap,
    kept: &[Option<Value>],
    n: usize,
    e: &Expr,
    names: &[Option<ArgName>],
    at: usize,
) -> Result<Explanation, OutOfMemory>
    ensures { IfOk result (λ s. s ≡ world.named_show (texts.arg_name_at names.now at) (world.show_part heap.now kept.now n (tree e.now))) }
{
    let part = show_part(alloc, heap, kept, n, e)?;
    with_name(alloc, names, at, part)
}

/// The arguments of a call.
#[cycle(part)]
#[tactic(auto, using(crate::proofs::Joining::args_all))]
fn show_args(
    alloc: Global,
    heap: &Heap,
    kept: &[Option<Value>],
    n: usize,
    es: &[Rc<Expr>],
    names: &[Option<ArgName>],
) -> Result<Explanation, OutOfMemory>
    ensures { IfOk result (λ s. s ≡ world.joined_shows (codes ", ") (world.named_shows names.now (world.show_all heap.now kept.now n (trees es.now)))) }
{
    let mut all = Explanation::from_text(alloc, Vec::new(alloc));
    let mut at = n;
    for i in 0..es.len() {
        let e: &Expr = &es[i];
        let arg = show_arg(alloc, heap, kept, at, e, names, i)?;
        all.push_joined(alloc, i == 0, ", ", arg)?;
        at = place_behind(at, e)?;
    }
    Ok(all)
}

/// An attribute: its value, and how it came.
#[cycle(part)]
#[tactic(auto, using(crate::proofs::Joining::attribute_came))]
fn show_attribute(
    alloc: Global,
    heap: &Heap,
    kept: &[Option<Value>],
    n: usize,
    e: &Expr,
    name: &SrcText,
) -> Result<Explanation, OutOfMemory>
    ensures { IfOk result (λ s. s ≡ texts.attribute_show heap.now kept.now n (tree e.now) name.now) }
{
    let mut how = show_part(alloc, heap, kept, behind(n, 1)?, e)?;
    let mut dot = Vec::new(alloc);
    dot.push('.')?;
    dot.extend_from_slice(name.chars())?;
    how.push(alloc, &Explanation::from_text(alloc, dot))?;
    Explanation::came_from(alloc, kept_text(alloc, heap, kept, n)?, &how)
}

/// An operator between two operands, the first of which is shown.
#[cycle(part)]
fn show_right(
    alloc: Global,
    heap: &Heap,
    kept: &[Option<Value>],
    n: usize,
    left: &Explanation,
    op: BinOp,
    e: &Expr,
) -> Result<Explanation, OutOfMemory>
    ensures { IfOk result (λ s. s ≡ texts.in_parens (world.pair_shows (binary.binary_text op) left.now (world.show_part heap.now kept.now n (tree e.now)))) }
{
    let right = show_part(alloc, heap, kept, n, e)?;
    Explanation::pair(alloc, left, binary_text(op), &right)?.in_parens(alloc)
}

/// Puts an operand that was evaluated behind others.
#[cycle(part)]
fn push_operand(
    alloc: Global,
    heap: &Heap,
    kept: &[Option<Value>],
    n: usize,
    joint: Joint,
    e: &Expr,
    all: &mut Explanation,
) -> Result<(), OutOfMemory>
    ensures { OnOk result (all.new ≡ texts.with_operand heap.now kept.now n (texts.joint_text joint) (tree e.now) all.old) }
{
    if evaluated(kept, n, e) {
        let part = show_part(alloc, heap, kept, n, e)?;
        all.push_joined(alloc, false, joint_text(joint), part)
    } else {
        Ok(())
    }
}

/// Operands of which the first one is shown, and of the others those that were evaluated.
#[cycle(part)]
#[tactic(auto, using(crate::proofs::Joining::operands_all))]
fn show_others(
    alloc: Global,
    heap: &Heap,
    kept: &[Option<Value>],
    n: usize,
    joint: Joint,
    first: Explanation,
    es: &[Rc<Expr>],
) -> Result<Explanation, OutOfMemory>
    ensures { IfOk result (λ s. s ≡ texts.in_parens (world.joined_shows (texts.joint_text joint) (first ∷ world.show_evaluated heap.now kept.now n (trees es.now)))) }
{
    let mut all = first;
    let mut at = n;
    for i in 0..es.len() {
        let e: &Expr = &es[i];
        push_operand(alloc, heap, kept, at, joint, e, &mut all)?;
        at = place_behind(at, e)?;
    }
    all.in_parens(alloc)
}

/// The last pair of operands that was compared, behind the first one.
#[cycle(part)]
#[tactic(auto, using(crate::proofs::Joining::pairs_all))]
fn show_pairs(
    alloc: Global,
    heap: &Heap,
    kept: &[Option<Value>],
    n: usize,
    first: Explanation,
    ops: &[CmpOp],
    es: &[Rc<Expr>],
) -> Result<Explanation, OutOfMemory>
    ensures { IfOk result (λ s. s ≡ world.last_pair heap.now kept.now n first ops.now (trees es.now)) }
{
    let mut pair = first.copied(alloc)?;
    let mut last = first;
    let mut at = n;
    for i in 0..es.len() {
        let e: &Expr = &es[i];
        let next = show_part(alloc, heap, kept, at, e)?;
        let is_compared = evaluated(kept, at, e);
        set_pair(alloc, &mut pair, is_compared, &last, word_at(ops, i), &next)?;
        last = next;
        at = place_behind(at, e)?;
    }
    Ok(pair)
}

/// A call: its value, and how it came.
#[cycle(part)]
fn show_call(
    alloc: Global,
    heap: &Heap,
    kept: &[Option<Value>],
    n: usize,
    e: &Expr,
    f: &Rc<Expr>,
    es: &Rc<Vec<Rc<Expr>>>,
    names: &Rc<Vec<Option<ArgName>>>,
) -> Result<Explanation, OutOfMemory>
    requires { e.now.kind ≡ kinds.Call f.now es.now names.now }
    ensures { IfOk result (λ s. s ≡ world.show_part heap.now kept.now n (tree e.now)) }
{
    let next = behind(n, 1)?;
    let callee = show_part(alloc, heap, kept, next, f)?;
    let args = show_args(alloc, heap, kept, place_behind(next, f)?, es, names)?;
    call_shows(alloc, heap, kept, n, callee, &args)
}

/// A sign and its operand.
#[cycle(part)]
#[tactic(auto, using(crate::proofs::Forms::shown_by_form))]
fn show_unary(
    alloc: Global,
    heap: &Heap,
    kept: &[Option<Value>],
    n: usize,
    e: &Expr,
    op: UnOp,
    a: &Rc<Expr>,
) -> Result<Explanation, OutOfMemory>
    requires { e.now.kind ≡ kinds.Unary op a.now }
    ensures { IfOk result (λ s. s ≡ world.show_part heap.now kept.now n (tree e.now)) }
{
    show_part(alloc, heap, kept, n, a)?.behind(alloc, unary_text(op), &[])
}

/// `not` and its operand.
#[cycle(part)]
#[tactic(auto, using(crate::proofs::Forms::shown_by_form))]
fn show_not(
    alloc: Global,
    heap: &Heap,
    kept: &[Option<Value>],
    n: usize,
    e: &Expr,
    a: &Rc<Expr>,
) -> Result<Explanation, OutOfMemory>
    requires { e.now.kind ≡ kinds.Not a.now }
    ensures { IfOk result (λ s. s ≡ world.show_part heap.now kept.now n (tree e.now)) }
{
    show_part(alloc, heap, kept, n, a)?.behind(alloc, "not ", &[])
}

/// An operator between its operands.
#[cycle(part)]
#[tactic(auto, using(crate::proofs::Forms::shown_by_form))]
fn show_binary(
    alloc: Global,
    heap: &Heap,
    kept: &[Option<Value>],
    n: usize,
    e: &Expr,
    a: &Rc<Expr>,
    op: BinOp,
    b: &Rc<Expr>,
) -> Result<Explanation, OutOfMemory>
    requires { e.now.kind ≡ kinds.Binary a.now op b.now }
    ensures { IfOk result (λ s. s ≡ world.show_part heap.now kept.now n (tree e.now)) }
{
    let left = show_part(alloc, heap, kept, n, a)?;
    show_right(alloc, heap, kept, place_behind(n, a)?, &left, op, b)
}

/// A comparison.
#[cycle(part)]
fn show_compare(
    alloc: Global,
    heap: &Heap,
    kept: &[Option<Value>],
    n: usize,
    e: &Expr,
    a: &Rc<Expr>,
    ops: &Rc<Vec<CmpOp>>,
    es: &Rc<Vec<Rc<Expr>>>,
) -> Result<Explanation, OutOfMemory>
    requires { e.now.kind ≡ kinds.Compare a.now ops.now es.now }
    ensures { IfOk result (λ s. s ≡ world.show_part heap.now kept.now n (tree e.now)) }
{
    let first = show_part(alloc, heap, kept, n, a)?;
    show_pairs(alloc, heap, kept, place_behind(n, a)?, first, ops, es)
}

/// Operands with `and` between them.
#[cycle(part)]
fn show_and(
    alloc: Global,
    heap: &Heap,
    kept: &[Option<Value>],
    n: usize,
    e: &Expr,
    a: &Rc<Expr>,
    es: &Rc<Vec<Rc<Expr>>>,
) -> Result<Explanation, OutOfMemory>
    requires { e.now.kind ≡ kinds.And a.now es.now }
    ensures { IfOk result (λ s. s ≡ world.show_part heap.now kept.now n (tree e.now)) }
{
    let first = show_part(alloc, heap, kept, n, a)?;
    show_others(
        alloc,
        heap,
        kept,
        place_behind(n, a)?,
        Joint::And,
        first,
        es,
    )
}

/// Operands with `or` between them.
#[cycle(part)]
fn show_or(
    alloc: Global,
    heap: &Heap,
    kept: &[Option<Value>],
    n: usize,
    e: &Expr,
    a: &Rc<Expr>,
    es: &Rc<Vec<Rc<Expr>>>,
) -> Result<Explanation, OutOfMemory>
    requires { e.now.kind ≡ kinds.Or a.now es.now }
    ensures { IfOk result (λ s. s ≡ world.show_part heap.now kept.now n (tree e.now)) }
{
    let first = show_part(alloc, heap, kept, n, a)?;
    show_others(alloc, heap, kept, place_behind(n, a)?, Joint::Or, first, es)
}

/// What is shown of a part whose parts are numbered from a number on.
#[cycle(part)]
#[tactic(auto, using(crate::proofs::Forms::shown_by_form))]
pub fn show_part(
    alloc: Global,
    heap: &Heap,
    kept: &[Option<Value>],
    n: usize,
    e: &Expr,
) -> Result<Explanation, OutOfMemory>
    ensures { IfOk result (λ s. s ≡ world.show_part heap.now kept.now n (tree e.now)) }
{
    match &e.kind {
        ExprKind::Paren(a) => show_part(alloc, heap, kept, n, a),
        ExprKind::Name(name) => show_name(alloc, heap, kept, n, name),
        ExprKind::Call(f, es, names) => show_call(alloc, heap, kept, n, e, f, es, names),
        ExprKind::Attribute(a, name) => show_attribute(alloc, heap, kept, n, a, name),
        ExprKind::Unary(op, a) => show_unary(alloc, heap, kept, n, e, *op, a),
        ExprKind::Not(a) => show_not(alloc, heap, kept, n, e, a),
        ExprKind::Binary(a, op, b) => show_binary(alloc, heap, kept, n, e, a, *op, b),
        ExprKind::Compare(a, ops, es) => show_compare(alloc, heap, kept, n, e, a, ops, es),
        ExprKind::And(a, es) => show_and(alloc, heap, kept, n, e, a, es),
        ExprKind::Or(a, es) => show_or(alloc, heap, kept, n, e, a, es),
        ExprKind::Number(_)
        | ExprKind::Text(_)
        | ExprKind::True
        | ExprKind::False
        | ExprKind::None
        | ExprKind::Tuple(_)
        | ExprKind::List(_)
        | ExprKind::Dict(_, _)
        | ExprKind::Subscript(_, _)
        | ExprKind::Slice(_, _, _, _)
        | ExprKind::IfElse(_, _, _) => show_leaf(alloc, heap, kept, n),
    }
}
