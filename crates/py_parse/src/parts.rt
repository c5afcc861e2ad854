ghost use Rattle.std.specs.Prelude.{◌≡◌, ◌∷◌, []};
ghost use Rattle.py_tree.specs.Trees.{some_tree};
ghost use Rattle.py_cursor.specs.token_kinds.Kinds.{op_number};
ghost use Rattle.py_cursor.specs.Parser.{Gives};
ghost use Rattle.statement_readers.specs.Words.{optional_expr, optional_exprs, expr_behind, name_reader, names_on, names, alias_behind};

use py_cursor::{Parser, Sign};
use py_expression_parser::{begins_expression, expression, expressions, name_of};
use py_source::{MOST_LEVELS, SrcText};
use py_tokens::Op;
use py_tree::Expr;
use std::rc::Rc;

/// So many expressions may stand in one another, and so many blocks.
pub const LEVELS: u32 = MOST_LEVELS as u32;

/// An expression, where one begins.
#[tactic(auto, unfolding(statement_readers::specs::Words::optional_expr))]
pub fn optional_expression(p: &mut Parser<'_>) -> Option<Option<Rc<Expr>>>
    ensures { Gives (λ x. some_tree x) result p.new (optional_expr p.old.rest.now) }
{
    if !begins_expression(p) {
        return Some(None);
    }
    let Some(value) = expression(p, LEVELS) else {
        return None;
    };
    Some(Some(value.expr))
}

/// Expressions with commas between them, where one begins.
#[tactic(auto, unfolding(statement_readers::specs::Words::optional_exprs))]
pub fn optional_expressions(p: &mut Parser<'_>) -> Option<Option<Rc<Expr>>>
    ensures { Gives (λ x. some_tree x) result p.new (optional_exprs p.old.rest.now) }
{
    if !begins_expression(p) {
        return Some(None);
    }
    let Some(value) = expressions(p, LEVELS) else {
        return None;
    };
    Some(Some(value.expr))
}

/// An expression behind an operator, where that stands.
#[tactic(auto, unfolding(statement_readers::specs::Words::expr_behind))]
pub fn expression_behind(p: &mut Parser<'_>, operator: Op) -> Option<Option<Rc<Expr>>>
    ensures { Gives (λ x. some_tree x) result p.new (expr_behind (op_number operator) p.old.rest.now) }
{
    let Some(_operator) = p.take_op(operator) else {
        return Some(None);
    };
    let Some(value) = expression(p, LEVELS) else {
        return None;
    };
    Some(Some(value.expr))
}

/// A name.
#[tactic(auto, unfolding(statement_readers::specs::Words::name_reader))]
pub fn name(p: &mut Parser<'_>) -> Option<SrcText>
    ensures { Gives (λ x. x) result p.new (name_reader p.old.rest.now) }
{
    let Some(name) = p.expect(Sign::Name) else {
        return None;
    };
    p.made(name_of(p.alloc, name))
}

/// The first name, and those behind each separator.
#[tactic(auto, using(statement_readers::proofs::Loops::name_rules))]
fn further_names(p: &mut Parser<'_>, separator: Op, first: SrcText) -> Option<Vec<SrcText>>
    ensures { Gives (λ x. x.items) result p.new (names_on (op_number separator) (first ∷ [], p.old.rest.now)) }
{
    let mut all = Vec::new(p.alloc);
    let Some(_added) = p.made(all.push(first)) else {
        return None;
    };
    while let Some(_separator) = p.take_op(separator) {
        let Some(next) = name(p) else {
            return None;
        };
        let Some(_added) = p.made(all.push(next)) else {
            return None;
        };
    }
    Some(all)
}

/// Names with a separator between them.
#[tactic(auto, unfolding(statement_readers::specs::Words::names))]
pub fn names(p: &mut Parser<'_>, separator: Op) -> Option<Vec<SrcText>>
    ensures { Gives (λ x. x.items) result p.new (names (op_number separator) p.old.rest.now) }
{
    let Some(first) = name(p) else {
        return None;
    };
    further_names(p, separator, first)
}

/// The name behind `as`, where that stands.
#[tactic(auto, unfolding(statement_readers::specs::Words::alias_behind))]
pub fn alias_behind(p: &mut Parser<'_>) -> Option<Option<SrcText>>
    ensures { Gives (λ x. x) result p.new (alias_behind p.old.rest.now) }
{
    let Some(_as) = p.take_op(Op::As) else {
        return Some(None);
    };
    match name(p) {
        Some(name) => Some(Some(name)),
        None => None,
    }
}
