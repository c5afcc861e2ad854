ghost use Rattle.std.specs.Prelude.{◌≡◌};
ghost use Rattle.py_tree.specs.Trees.{tree, trees, some_tree};
ghost use Rattle.py_tree.specs.Statements.{parameters};
ghost use Rattle.py_cursor.specs.Parser.{Gives};
ghost use Rattle.statement_readers.specs.Words.{param, params_on, params, base, decorator, decorators_on, decorators, handler_head};

use crate::parts::{LEVELS, alias_behind, expression_behind};
use py_cursor::{Parser, Sign};
use py_expression_parser::{begins_expression, expression, name_of};
use py_source::SrcText;
use py_statement_nodes::{add_decorator, add_param};
use py_tokens::Op;
use py_tree::{Expr, Param};
use std::rc::Rc;

/// The parameters, and one more behind them, with its annotation and its default.
#[tactic(auto, unfolding(statement_readers::specs::Words::param))]
fn param(p: &mut Parser<'_>, before: Vec<Param>) -> Option<Vec<Param>>
    ensures { Gives (λ x. parameters x.items) result p.new (param (parameters before.items) p.old.rest.now) }
{
    let Some(first) = p.expect(Sign::Name) else {
        return None;
    };
    let Some(annotation) = expression_behind(p, Op::Colon) else {
        return None;
    };
    let Some(default) = expression_behind(p, Op::Equal) else {
        return None;
    };
    let Some(name) = p.made(name_of(p.alloc, first)) else {
        return None;
    };
    p.made(add_param(before, first.at, name, annotation, default))
}

/// The parameters, and those behind each comma; one may stand at the end.
#[tactic(auto, using(statement_readers::proofs::Signatures::param_rules))]
fn further_params(p: &mut Parser<'_>, first: Vec<Param>) -> Option<Vec<Param>>
    ensures { Gives (λ x. parameters x.items) result p.new (params_on (parameters first.items, p.old.rest.now)) }
{
    let mut all = first;
    while let Some(_comma) = p.take_op(Op::Comma) {
        if !p.at(Sign::Name) {
            return Some(all);
        }
        let Some(more) = param(p, all) else {
            return None;
        };
        all = more;
    }
    Some(all)
}

/// The parameters of a function, up to the parenthesis behind them, and with it.
#[tactic(auto, unfolding(statement_readers::specs::Words::params))]
pub fn params(p: &mut Parser<'_>) -> Option<Vec<Param>>
    ensures { Gives (λ x. parameters x.items) result p.new (params p.old.rest.now) }
{
    if let Some(_close) = p.take_op(Op::RightParen) {
        return Some(Vec::new(p.alloc));
    }
    let none = Vec::new(p.alloc);
    let Some(first) = param(p, none) else {
        return None;
    };
    let Some(all) = further_params(p, first) else {
        return None;
    };
    match p.expect_op(Op::RightParen) {
        Some(_close) => Some(all),
        None => None,
    }
}

/// The base of a class in parentheses, where these stand.
#[tactic(auto, unfolding(statement_readers::specs::Words::base))]
pub fn base(p: &mut Parser<'_>) -> Option<Option<Rc<Expr>>>
    ensures { Gives (λ x. some_tree x) result p.new (base p.old.rest.now) }
{
    let Some(_open) = p.take_op(Op::LeftParen) else {
        return Some(None);
    };
    if let Some(_close) = p.take_op(Op::RightParen) {
        return Some(None);
    }
    let Some(base) = expression(p, LEVELS) else {
        return None;
    };
    match p.expect_op(Op::RightParen) {
        Some(_close) => Some(Some(base.expr)),
        None => None,
    }
}

/// The expression of a decorator, up to the end of its line, and with it.
#[tactic(auto, unfolding(statement_readers::specs::Words::decorator))]
fn decorator(p: &mut Parser<'_>) -> Option<Rc<Expr>>
    ensures { Gives (λ x. tree x.value) result p.new (decorator p.old.rest.now) }
{
    let Some(value) = expression(p, LEVELS) else {
        return None;
    };
    match p.expect(Sign::Newline) {
        Some(_newline) => Some(value.expr),
        None => None,
    }
}

/// The decorators, and those behind each further `@`.
#[tactic(auto, using(statement_readers::proofs::Signatures::decorator_rules))]
fn further_decorators(p: &mut Parser<'_>, first: Vec<Rc<Expr>>) -> Option<Vec<Rc<Expr>>>
    ensures { Gives (λ x. trees x.items) result p.new (decorators_on (trees first.items, p.old.rest.now)) }
{
    let mut all = first;
    while let Some(_at) = p.take_op(Op::At) {
        let Some(next) = decorator(p) else {
            return None;
        };
        let Some(more) = p.made(add_decorator(all, next)) else {
            return None;
        };
        all = more;
    }
    Some(all)
}

/// The decorators behind the first `@`.
#[tactic(auto, unfolding(statement_readers::specs::Words::decorators))]
pub fn decorators(p: &mut Parser<'_>) -> Option<Vec<Rc<Expr>>>
    ensures { Gives (λ x. trees x.items) result p.new (decorators p.old.rest.now) }
{
    let Some(first) = decorator(p) else {
        return None;
    };
    let Some(all) = p.made(add_decorator(Vec::new(p.alloc), first)) else {
        return None;
    };
    further_decorators(p, all)
}

/// What a handler catches, and the name behind `as`.
#[tactic(auto, unfolding(statement_readers::specs::Words::handler_head))]
pub fn caught(p: &mut Parser<'_>) -> Option<(Option<Rc<Expr>>, Option<SrcText>)>
    ensures { Gives (λ x. (some_tree x.0, x.1)) result p.new (handler_head p.old.rest.now) }
{
    if !begins_expression(p) {
        return Some((None, None));
    }
    let Some(class) = expression(p, LEVELS) else {
        return None;
    };
    match alias_behind(p) {
        Some(name) => Some((Some(class.expr), name)),
        None => None,
    }
}
