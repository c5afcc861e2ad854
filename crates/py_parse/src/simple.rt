ghost use Rattle.std.specs.Prelude.{◌≡◌, ◌∷◌, [], IfOk};
ghost use Rattle.py_tree.specs.Trees.{tree};
ghost use Rattle.py_tree.specs.Statements.{statement, block, takers};
ghost use Rattle.py_cursor.specs.Parser.{Gives};
ghost use Rattle.statement_readers.specs.Words.{return_behind, assert_behind, raise_behind, yield_behind, global_behind, del_behind, import_behind, from_behind, alias, aliases_on, listed_on, imported_names, assignment, yield_to, assigns, value_statement, word_statement, simple, simples_on, simples};

use crate::parts::{
    LEVELS, alias_behind, expression_behind, names, optional_expression, optional_expressions,
};
use py_cursor::{Parser, Sign};
use py_expression_parser::{begins_expression, expression, expressions, name_of};
use py_nodes::single_in;
use py_source::Pos;
use py_statement_nodes::{
    add_stmt, add_target, assert_stmt, assign_stmt, assign_yield_stmt, aug_assign_stmt, del_stmt,
    expr_stmt, global_stmt, import_from_stmt, import_stmt, raise_stmt, return_stmt,
    return_yield_stmt, target_in, word_stmt, yield_stmt,
};
use py_target_parser::single;
use py_tokens::Op;
use py_tree::{Alias, BinOp, Expr, Stmt, StmtKind, Target};
use std::alloc::{AllocError, Global};
use std::rc::Rc;

/// The operators of augmented assignments.
const CHANGES: [(Op, BinOp); 11] = [
    (Op::PlusEqual, BinOp::Add),
    (Op::MinusEqual, BinOp::Sub),
    (Op::StarEqual, BinOp::Mul),
    (Op::DoubleSlashEqual, BinOp::FloorDiv),
    (Op::PercentEqual, BinOp::Mod),
    (Op::DoubleStarEqual, BinOp::Pow),
    (Op::LeftShiftEqual, BinOp::LShift),
    (Op::RightShiftEqual, BinOp::RShift),
    (Op::AmpersandEqual, BinOp::BitAnd),
    (Op::BarEqual, BinOp::BitOr),
    (Op::CaretEqual, BinOp::BitXor),
];

/// What begins a simple statement.
pub const BEGINS_SIMPLE: [Sign; 24] = [
    Sign::Op(Op::Del),
    Sign::Op(Op::Pass),
    Sign::Op(Op::Break),
    Sign::Op(Op::Continue),
    Sign::Op(Op::Return),
    Sign::Op(Op::Assert),
    Sign::Op(Op::Global),
    Sign::Op(Op::Raise),
    Sign::Op(Op::Yield),
    Sign::Op(Op::Import),
    Sign::Op(Op::From),
    Sign::Op(Op::Not),
    Sign::Op(Op::Minus),
    Sign::Op(Op::Plus),
    Sign::Op(Op::Tilde),
    Sign::Name,
    Sign::Number,
    Sign::Op(Op::True),
    Sign::Op(Op::False),
    Sign::Op(Op::None),
    Sign::Text,
    Sign::Op(Op::LeftParen),
    Sign::Op(Op::LeftBracket),
    Sign::Op(Op::LeftBrace),
];

/// What stands behind `return`.
#[tactic(auto, unfolding(statement_readers::specs::Words::return_behind))]
fn returning(p: &mut Parser<'_>, at: Pos) -> Option<Stmt>
    ensures { Gives (λ x. statement x) result p.new (return_behind at p.old.rest.now) }
{
    let before = p.rest;
    if let Some(_open) = p.take_op(Op::LeftParen) {
        if let Some(word) = p.take_op(Op::Yield) {
            let Some(value) = optional_expressions(p) else {
                return None;
            };
            return match p.expect_op(Op::RightParen) {
                Some(_close) => Some(return_yield_stmt(at, word.at, value)),
                None => None,
            };
        }
        p.rest = before;
    }
    let Some(value) = optional_expressions(p) else {
        return None;
    };
    Some(return_stmt(at, value))
}

/// What stands behind `raise`.
#[tactic(auto, unfolding(statement_readers::specs::Words::raise_behind))]
fn raising(p: &mut Parser<'_>, at: Pos) -> Option<Stmt>
    ensures { Gives (λ x. statement x) result p.new (raise_behind at p.old.rest.now) }
{
    let Some(value) = optional_expression(p) else {
        return None;
    };
    Some(raise_stmt(at, value))
}

/// What stands behind `assert`.
#[tactic(auto, unfolding(statement_readers::specs::Words::assert_behind))]
fn asserting(p: &mut Parser<'_>, at: Pos) -> Option<Stmt>
    ensures { Gives (λ x. statement x) result p.new (assert_behind at p.old.rest.now) }
{
    let Some(condition) = expression(p, LEVELS) else {
        return None;
    };
    let Some(message) = expression_behind(p, Op::Comma) else {
        return None;
    };
    Some(assert_stmt(at, condition.expr, message))
}

/// What stands behind `del`.
#[tactic(auto, unfolding(statement_readers::specs::Words::del_behind))]
fn deleting(p: &mut Parser<'_>, at: Pos) -> Option<Stmt>
    ensures { Gives (λ x. statement x) result p.new (del_behind at p.old.rest.now) }
{
    let Some(target) = single(p, LEVELS) else {
        return None;
    };
    Some(del_stmt(at, target.single))
}

/// The names behind `global`.
#[tactic(auto, unfolding(statement_readers::specs::Words::global_behind))]
fn declaring(p: &mut Parser<'_>, at: Pos) -> Option<Stmt>
    ensures { Gives (λ x. statement x) result p.new (global_behind at p.old.rest.now) }
{
    let Some(all) = names(p, Op::Comma) else {
        return None;
    };
    p.made(global_stmt(p.alloc, at, all))
}

/// What stands behind `yield`.
#[tactic(auto, unfolding(statement_readers::specs::Words::yield_behind))]
fn yielding(p: &mut Parser<'_>, at: Pos) -> Option<Stmt>
    ensures { Gives (λ x. statement x) result p.new (yield_behind at p.old.rest.now) }
{
    let Some(value) = optional_expressions(p) else {
        return None;
    };
    Some(yield_stmt(at, value))
}

/// What stands behind `import`.
#[tactic(auto, unfolding(statement_readers::specs::Words::import_behind))]
fn importing(p: &mut Parser<'_>, at: Pos) -> Option<Stmt>
    ensures { Gives (λ x. statement x) result p.new (import_behind at p.old.rest.now) }
{
    let Some(dotted) = names(p, Op::Dot) else {
        return None;
    };
    let Some(alias) = alias_behind(p) else {
        return None;
    };
    p.made(import_stmt(p.alloc, at, dotted, alias))
}

/// A name that is imported, with the name behind `as`, where that stands.
#[tactic(auto, unfolding(statement_readers::specs::Words::alias))]
fn alias(p: &mut Parser<'_>) -> Option<Alias>
    ensures { Gives (λ x. x) result p.new (alias p.old.rest.now) }
{
    let Some(first) = p.expect(Sign::Name) else {
        return None;
    };
    let Some(alias) = alias_behind(p) else {
        return None;
    };
    let Some(name) = p.made(name_of(p.alloc, first)) else {
        return None;
    };
    let at = first.at;
    Some(Alias { at, name, alias })
}

/// The first imported name, and those behind each comma.
#[tactic(auto, using(statement_readers::proofs::Loops::alias_rules))]
fn further_aliases(p: &mut Parser<'_>, first: Alias) -> Option<Vec<Alias>>
    ensures { Gives (λ x. x.items) result p.new (aliases_on (first ∷ [], p.old.rest.now)) }
{
    let mut all = Vec::new(p.alloc);
    let Some(_added) = p.made(all.push(first)) else {
        return None;
    };
    while let Some(_comma) = p.take_op(Op::Comma) {
        let Some(next) = alias(p) else {
            return None;
        };
        let Some(_added) = p.made(all.push(next)) else {
            return None;
        };
    }
    Some(all)
}

/// The first imported name, and those behind each comma; a comma may stand at the end.
#[tactic(auto, using(statement_readers::proofs::Loops::listed_rules))]
fn further_listed(p: &mut Parser<'_>, first: Alias) -> Option<Vec<Alias>>
    ensures { Gives (λ x. x.items) result p.new (listed_on (first ∷ [], p.old.rest.now)) }
{
    let mut all = Vec::new(p.alloc);
    let Some(_added) = p.made(all.push(first)) else {
        return None;
    };
    while let Some(_comma) = p.take_op(Op::Comma) {
        if !p.at(Sign::Name) {
            return Some(all);
        }
        let Some(next) = alias(p) else {
            return None;
        };
        let Some(_added) = p.made(all.push(next)) else {
            return None;
        };
    }
    Some(all)
}

/// What is imported from a module.
#[tactic(auto, unfolding(statement_readers::specs::Words::imported_names))]
fn imported(p: &mut Parser<'_>) -> Option<Vec<Alias>>
    ensures { Gives (λ x. x.items) result p.new (imported_names p.old.rest.now) }
{
    if p.at(Sign::Name) {
        let Some(first) = alias(p) else {
            return None;
        };
        return further_aliases(p, first);
    }
    let Some(_open) = p.expect_op(Op::LeftParen) else {
        return None;
    };
    let Some(first) = alias(p) else {
        return None;
    };
    let Some(all) = further_listed(p, first) else {
        return None;
    };
    match p.expect_op(Op::RightParen) {
        Some(_close) => Some(all),
        None => None,
    }
}

/// What stands behind `from`.
#[tactic(auto, unfolding(statement_readers::specs::Words::from_behind))]
fn taking(p: &mut Parser<'_>, at: Pos) -> Option<Stmt>
    ensures { Gives (λ x. statement x) result p.new (from_behind at p.old.rest.now) }
{
    let Some(dotted) = names(p, Op::Dot) else {
        return None;
    };
    let Some(_import) = p.expect_op(Op::Import) else {
        return None;
    };
    let Some(all) = imported(p) else {
        return None;
    };
    p.made(import_from_stmt(p.alloc, at, dotted, all))
}

/// An expression alone, or its assignment to the targets.
#[tactic(auto, using(statement_readers::proofs::Loops::assignment_rules))]
fn assignment(
    alloc: Global,
    at: Pos,
    targets: Vec<Target>,
    value: Rc<Expr>,
) -> Result<Stmt, AllocError>
    ensures { IfOk result (λ stmt. statement stmt ≡ assignment at (takers targets.items) (tree value.value)) }
{
    if targets.is_empty() {
        return Ok(expr_stmt(at, value));
    }
    assign_stmt(alloc, at, targets, value)
}

/// The assignment of the `yield` at `word` to the targets.
#[tactic(auto, unfolding(statement_readers::specs::Words::yield_to))]
fn assigned_yield(p: &mut Parser<'_>, at: Pos, targets: Vec<Target>, word: Pos) -> Option<Stmt>
    ensures { Gives (λ x. statement x) result p.new (yield_to at (takers targets.items) word p.old.rest.now) }
{
    let Some(value) = optional_expressions(p) else {
        return None;
    };
    p.made(assign_yield_stmt(p.alloc, at, targets, word, value))
}

/// An expression, and the targets in it where values are assigned to them.
#[tactic(auto, using(statement_readers::proofs::Loops::assign_rules))]
fn assigning(p: &mut Parser<'_>, at: Pos, first: Rc<Expr>) -> Option<Stmt>
    ensures { Gives (λ x. statement x) result p.new (assigns at (([], tree first.value), p.old.rest.now)) }
{
    let mut targets = Vec::new(p.alloc);
    let mut last = first;
    loop {
        let before = p.rest;
        let Some(_equal) = p.take_op(Op::Equal) else {
            return p.made(assignment(p.alloc, at, targets, last));
        };
        let Some(found) = p.made(target_in(p.alloc, &last)) else {
            return None;
        };
        let Some(target) = found else {
            p.rest = before;
            return p.made(assignment(p.alloc, at, targets, last));
        };
        let Some(more) = p.made(add_target(targets, target)) else {
            return None;
        };
        targets = more;
        if !begins_expression(p) {
            let Some(word) = p.expect_op(Op::Yield) else {
                return None;
            };
            return assigned_yield(p, at, targets, word.at);
        }
        let Some(value) = expressions(p, LEVELS) else {
            return None;
        };
        last = value.expr;
    }
}

/// An expression, or an assignment.
#[tactic(auto, using(py_nodes::proofs::Forms::place_is), unfolding(statement_readers::specs::Words::value_statement))]
fn valued(p: &mut Parser<'_>) -> Option<Stmt>
    ensures { Gives (λ x. statement x) result p.new (value_statement p.old.rest.now) }
{
    let Some(first) = expressions(p, LEVELS) else {
        return None;
    };
    let at = first.expr.at;
    let before = p.rest;
    let Some((_word, op)) = p.take_meant(&CHANGES) else {
        return assigning(p, at, first.expr);
    };
    let Some(found) = p.made(single_in(&first.expr)) else {
        return None;
    };
    let Some(place) = found else {
        p.rest = before;
        return assigning(p, at, first.expr);
    };
    let Some(value) = expression(p, LEVELS) else {
        return None;
    };
    Some(aug_assign_stmt(at, place, op, value.expr))
}

/// A statement that begins with one of further words, or with an expression.
#[tactic(auto, unfolding(statement_readers::specs::Words::word_statement))]
fn worded(p: &mut Parser<'_>) -> Option<Stmt>
    ensures { Gives (λ x. statement x) result p.new (word_statement p.old.rest.now) }
{
    if let Some(word) = p.take_op(Op::Global) {
        return declaring(p, word.at);
    }
    if let Some(word) = p.take_op(Op::Yield) {
        return yielding(p, word.at);
    }
    if let Some(word) = p.take_op(Op::Import) {
        return importing(p, word.at);
    }
    if let Some(word) = p.take_op(Op::From) {
        return taking(p, word.at);
    }
    valued(p)
}

/// A simple statement (Language Reference, simple statements).
#[tactic(auto, unfolding(statement_readers::specs::Words::simple))]
fn simple(p: &mut Parser<'_>) -> Option<Stmt>
    ensures { Gives (λ x. statement x) result p.new (simple p.old.rest.now) }
{
    if let Some(word) = p.take_op(Op::Pass) {
        return Some(word_stmt(word.at, StmtKind::Pass));
    }
    if let Some(word) = p.take_op(Op::Break) {
        return Some(word_stmt(word.at, StmtKind::Break));
    }
    if let Some(word) = p.take_op(Op::Continue) {
        return Some(word_stmt(word.at, StmtKind::Continue));
    }
    if let Some(word) = p.take_op(Op::Return) {
        return returning(p, word.at);
    }
    if let Some(word) = p.take_op(Op::Raise) {
        return raising(p, word.at);
    }
    if let Some(word) = p.take_op(Op::Assert) {
        return asserting(p, word.at);
    }
    if let Some(word) = p.take_op(Op::Del) {
        return deleting(p, word.at);
    }
    worded(p)
}

/// The statements of a line, and those behind each semicolon; one may stand at the end.
#[tactic(auto, using(statement_readers::proofs::Loops::simple_rules))]
fn further_simples(p: &mut Parser<'_>, first: Vec<Stmt>) -> Option<Vec<Stmt>>
    ensures { Gives (λ x. block x.items) result p.new (simples_on (block first.items, p.old.rest.now)) }
{
    let mut all = first;
    while let Some(_semicolon) = p.take_op(Op::Semicolon) {
        if !p.at_any(&BEGINS_SIMPLE) {
            return Some(all);
        }
        let Some(next) = simple(p) else {
            return None;
        };
        let Some(more) = p.made(add_stmt(all, next)) else {
            return None;
        };
        all = more;
    }
    Some(all)
}

/// The simple statements of a line, behind those of a block.
#[tactic(auto, unfolding(statement_readers::specs::Words::simples))]
pub fn simples(p: &mut Parser<'_>, before: Vec<Stmt>) -> Option<Vec<Stmt>>
    ensures { Gives (λ x. block x.items) result p.new (simples (block before.items) p.old.rest.now) }
{
    let Some(first) = simple(p) else {
        return None;
    };
    let Some(all) = p.made(add_stmt(before, first)) else {
        return None;
    };
    let Some(all) = further_simples(p, all) else {
        return None;
    };
    match p.expect(Sign::Newline) {
        Some(_newline) => Some(all),
        None => None,
    }
}
