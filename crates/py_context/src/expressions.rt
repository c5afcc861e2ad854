ghost use Rattle.std.specs.Prelude.{◌≡◌, ◌++◌, ◌∷◌, [], List, IfOk, MatchOption};
ghost use Rattle.py_tree.specs.Trees.{tree, trees, some_tree};
ghost use Rattle.py_tree.specs.Names.{is_among};
ghost use Rattle.py_grammar.specs.Context.{first_pos, by_turns, wrong_arguments, places_of_each, in_tree, in_trees, in_maybe};
ghost use Rattle.py_context.specs.First.{sooner, wrong_name, with_name};
ghost use Rattle.py_context.specs.Parts.{expr_parts, first_of, first_by_turns, first_argument};

use py_source::{Pos, SrcText};
use py_tree::{ArgName, Expr, ExprKind};
use seq::OutOfMemory;
use std::alloc::Global;
use std::rc::Rc;

/// A part of an expression: where it begins, and the first place in it where something may not stand.
#[derive(Clone, Copy)]
pub struct Part {
    pub at: Pos,
    pub first: Option<Pos>,
}

/// Whether a name is one of some.
pub fn is_one_of(names: &[SrcText], name: &SrcText) -> bool
    ensures { result ≡ is_among names.now name.now }
{
    names.iter().any(|n| n == name)
}

/// The first of two places, of which the first stands before the second.
pub fn sooner(first: Option<Pos>, second: Option<Pos>) -> Option<Pos>
    ensures { result ≡ sooner first second }
{
    match first {
        Some(at) => Some(at),
        None => second,
    }
}

/// The first of some parts, and those behind it.
fn parted(parts: &[Part]) -> Option<(&Part, &[Part])>
    ensures { MatchOption result (parts.now ≡ []) (λ x. parts.now ≡ x.0.now ∷ x.1.now) }
{
    match parts {
        [first, rest @ ..] => Some((first, rest)),
        [] => None,
    }
}

/// The first of some names, and those behind it.
fn named(names: &[Option<ArgName>]) -> Option<(&Option<ArgName>, &[Option<ArgName>])>
    ensures { MatchOption result (names.now ≡ []) (λ x. names.now ≡ x.0.now ∷ x.1.now) }
{
    match names {
        [first, rest @ ..] => Some((first, rest)),
        [] => None,
    }
}

/// The first place in parts.
#[tactic(auto, using(crate::proofs::ExpressionPlaces::first_rules))]
fn first_of(parts: &[Part]) -> Option<Pos>
    ensures { result ≡ first_of parts.now }
{
    let mut parts = parts;
    while let Some((part, rest)) = parted(parts) {
        if let Some(at) = part.first {
            return Some(at);
        }
        parts = rest;
    }
    None
}

/// The first place in keys and the value of each.
#[tactic(auto, using(crate::proofs::ExpressionPlaces::turn_rules))]
fn first_by_turns(keys: &[Part], values: &[Part]) -> Option<Pos>
    ensures { result ≡ first_by_turns keys.now values.now }
{
    let mut keys = keys;
    let mut values = values;
    while let Some((key, further)) = parted(keys) {
        let Some((value, others)) = parted(values) else {
            return first_of(keys);
        };
        if let Some(at) = sooner(key.first, value.first) {
            return Some(at);
        }
        keys = further;
        values = others;
    }
    first_of(values)
}

/// The place of an argument that may not stand there: one without a name behind one with a name, or one whose name is given already.
fn wrong_name(before: &[SrcText], name: &Option<ArgName>, at: Pos) -> Option<Pos>
    ensures { result ≡ wrong_name before.now name.now at }
{
    match name {
        Some(given) if is_one_of(before, &given.name) => Some(given.at),
        Some(_given) => None,
        None if before.is_empty() => None,
        None => Some(at),
    }
}

/// The names given so far, with that of one more argument, if it has one.
fn with_name(before: Vec<SrcText>, name: &Option<ArgName>) -> Result<Vec<SrcText>, OutOfMemory>
    ensures { IfOk result (λ all. all.items ≡ with_name before.items name.now) }
{
    let mut before = before;
    if let Some(given) = name {
        before.push(given.name.clone()?)?;
    }
    Ok(before)
}

/// The first place in arguments with their names.
#[tactic(auto, using(crate::proofs::ExpressionPlaces::argument_rules))]
fn first_argument(
    alloc: Global,
    names: &[Option<ArgName>],
    arguments: &[Part],
) -> Result<Option<Pos>, OutOfMemory>
    ensures { IfOk result (λ at. at ≡ first_argument [] names.now arguments.now) }
{
    let mut before = Vec::new(alloc);
    let mut names = names;
    let mut arguments = arguments;
    while let Some((argument, others)) = parted(arguments) {
        let Some((name, further)) = named(names) else {
            return Ok(first_of(arguments));
        };
        if let Some(at) = sooner(wrong_name(&before, name, argument.at), argument.first) {
            return Ok(Some(at));
        }
        before = with_name(before, name)?;
        names = further;
        arguments = others;
    }
    Ok(None)
}

/// The first place in two parts, of which the first stands before the second.
#[tactic(auto, using(crate::proofs::ExpressionPlaces::join_rules))]
pub fn join(
    first: Result<Option<Pos>, OutOfMemory>,
    second: Result<Option<Pos>, OutOfMemory>,
) -> Result<Option<Pos>, OutOfMemory>
    ensures { (xs ys : List Pos) → IfOk first (λ at. at ≡ first_pos xs) → IfOk second (λ at. at ≡ first_pos ys) → IfOk result (λ at. at ≡ first_pos (xs ++ ys)) }
{
    match first {
        Ok(None) => second,
        Ok(Some(at)) => Ok(Some(at)),
        Err(error) => Err(error),
    }
}

/// The first place in parts in a row.
#[tactic(auto, using(crate::proofs::ExpressionPlaces::row_places))]
fn in_row(parts: Result<Vec<Part>, OutOfMemory>) -> Result<Option<Pos>, OutOfMemory>
    ensures { (es : List (Rc Expr Global)) → IfOk parts (λ all. all.items ≡ expr_parts es) → IfOk result (λ at. at ≡ first_pos (in_trees (trees es))) }
{
    match parts {
        Ok(parts) => Ok(first_of(&parts)),
        Err(error) => Err(error),
    }
}

/// The first place in keys and the value of each.
#[tactic(auto, using(crate::proofs::ExpressionPlaces::turn_places))]
fn in_turns(
    keys: Result<Vec<Part>, OutOfMemory>,
    values: Result<Vec<Part>, OutOfMemory>,
) -> Result<Option<Pos>, OutOfMemory>
    ensures { (ks es : List (Rc Expr Global)) → IfOk keys (λ all. all.items ≡ expr_parts ks) → IfOk values (λ all. all.items ≡ expr_parts es) → IfOk result (λ at. at ≡ first_pos (by_turns (places_of_each (trees ks)) (places_of_each (trees es)))) }
{
    match (keys, values) {
        (Ok(keys), Ok(values)) => Ok(first_by_turns(&keys, &values)),
        (_, _) => Err(OutOfMemory),
    }
}

/// The first place in arguments with their names.
#[tactic(auto, using(crate::proofs::ExpressionPlaces::argument_places))]
fn in_arguments(
    alloc: Global,
    names: &Rc<Vec<Option<ArgName>>>,
    arguments: Result<Vec<Part>, OutOfMemory>,
) -> Result<Option<Pos>, OutOfMemory>
    ensures { (es : List (Rc Expr Global)) → IfOk arguments (λ all. all.items ≡ expr_parts es) → IfOk result (λ at. at ≡ first_pos (wrong_arguments [] names.now.value.items (places_of_each (trees es)))) }
{
    match arguments {
        Ok(arguments) => first_argument(alloc, names, &arguments),
        Err(error) => Err(error),
    }
}

/// The first place in an expression where something may not stand.
#[cycle(expression)]
pub fn in_expr(alloc: Global, expr: &Expr) -> Result<Option<Pos>, OutOfMemory>
    ensures { IfOk result (λ at. at ≡ first_pos (in_tree (tree expr.now))) }
{
    match &expr.kind {
        ExprKind::Name(_)
        | ExprKind::Number(_)
        | ExprKind::Text(_)
        | ExprKind::True
        | ExprKind::False
        | ExprKind::None => Ok(None),
        ExprKind::Paren(of) => in_part(alloc, of),
        ExprKind::Tuple(items) => in_all(alloc, items),
        ExprKind::List(items) => in_all(alloc, items),
        ExprKind::Dict(keys, values) => in_turns(in_each(alloc, keys), in_each(alloc, values)),
        ExprKind::Attribute(of, _) => in_part(alloc, of),
        ExprKind::Call(function, arguments, names) => join(
            in_part(alloc, function),
            in_arguments(alloc, names, in_each(alloc, arguments)),
        ),
        ExprKind::Subscript(of, index) => join(in_part(alloc, of), in_part(alloc, index)),
        ExprKind::Slice(of, from, to, by) => join(
            in_part(alloc, of),
            join(
                in_optional(alloc, from),
                join(in_optional(alloc, to), in_optional(alloc, by)),
            ),
        ),
        ExprKind::Unary(_, operand) => in_part(alloc, operand),
        ExprKind::Binary(left, _, right) => join(in_part(alloc, left), in_part(alloc, right)),
        ExprKind::Compare(first, _, further) => join(in_part(alloc, first), in_all(alloc, further)),
        ExprKind::Not(operand) => in_part(alloc, operand),
        ExprKind::And(first, further) => join(in_part(alloc, first), in_all(alloc, further)),
        ExprKind::Or(first, further) => join(in_part(alloc, first), in_all(alloc, further)),
        ExprKind::IfElse(value, condition, other) => join(
            in_part(alloc, value),
            join(in_part(alloc, condition), in_part(alloc, other)),
        ),
    }
}

/// Each of some expressions, as a part.
#[cycle(expression)]
pub fn in_each(alloc: Global, items: &Rc<Vec<Rc<Expr>>>) -> Result<Vec<Part>, OutOfMemory>
    ensures { IfOk result (λ all. all.items ≡ expr_parts items.now.value.items) }
{
    parts_of(alloc, items)
}

#[cycle(expression)]
fn parts_of(alloc: Global, items: &[Rc<Expr>]) -> Result<Vec<Part>, OutOfMemory>
    ensures { IfOk result (λ all. all.items ≡ expr_parts items.now) }
{
    let mut all = Vec::new(alloc);
    for item in items {
        let first = in_expr(alloc, item)?;
        all.push(Part { at: item.at, first })?;
    }
    Ok(all)
}

/// The first in a part that may be absent.
#[cycle(expression)]
pub fn in_optional(alloc: Global, part: &Option<Rc<Expr>>) -> Result<Option<Pos>, OutOfMemory>
    ensures { IfOk result (λ at. at ≡ first_pos (in_maybe (some_tree part.now))) }
{
    match part {
        Some(part) => in_expr(alloc, part),
        None => Ok(None),
    }
}

/// The first in a part of an expression.
#[cycle(expression)]
pub fn in_part(alloc: Global, part: &Rc<Expr>) -> Result<Option<Pos>, OutOfMemory>
    ensures { IfOk result (λ at. at ≡ first_pos (in_tree (tree part.now.value))) }
{
    in_expr(alloc, part)
}

/// The first in parts of an expression.
#[cycle(expression)]
pub fn in_all(alloc: Global, parts: &Rc<Vec<Rc<Expr>>>) -> Result<Option<Pos>, OutOfMemory>
    ensures { IfOk result (λ at. at ≡ first_pos (in_trees (trees parts.now.value.items))) }
{
    in_row(in_each(alloc, parts))
}
