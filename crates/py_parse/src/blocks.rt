ghost use Rattle.std.specs.Prelude.{◌≡◌, ◌<◌, nat_le};
ghost use Rattle.py_tree.specs.Trees.{tree, trees, some_tree, Empty};
ghost use Rattle.py_tree.specs.Statements.{statement, block, branches, handlers};
ghost use Rattle.py_cursor.specs.Parser.{Gives};
ghost use Rattle.py_cursor.specs.token_kinds.Kinds.{op_number};
ghost use Rattle.statement_readers.specs.Words.{suite, suite_behind, arm, elifs_on, if_behind, while_behind, with_behind, for_behind, handler, excepts_on, handled, try_behind, def_behind, class_behind, decorated_behind, compound, stmt, stmts_on, stmts, block_at, source};

use crate::heads::{base, caught, decorators, params};
use crate::parts::{LEVELS, alias_behind, expression_behind, name};
use crate::simple::simples;
use py_cursor::{Parser, Sign, first_of};
use py_expression_parser::{expression, expressions};
use py_source::Pos;
use py_statement_nodes::{
    add_branch, add_handler, add_stmt, class_stmt, def_stmt, for_stmt, if_stmt, try_stmt,
    while_stmt, with_stmt,
};
use py_target_parser::targets;
use py_tokens::Op;
use py_tree::{Branch, Expr, Handler, Stmt};
use std::rc::Rc;

/// What begins a statement with blocks.
const BEGINS_COMPOUND: [Sign; 8] = [
    Sign::Op(Op::If),
    Sign::Op(Op::While),
    Sign::Op(Op::For),
    Sign::Op(Op::Try),
    Sign::Op(Op::With),
    Sign::Op(Op::Def),
    Sign::Op(Op::Class),
    Sign::Op(Op::At),
];

/// What begins a statement.
const BEGINS_STATEMENT: [Sign; 32] = [
    Sign::Op(Op::If),
    Sign::Op(Op::While),
    Sign::Op(Op::For),
    Sign::Op(Op::Try),
    Sign::Op(Op::With),
    Sign::Op(Op::Def),
    Sign::Op(Op::Class),
    Sign::Op(Op::At),
    Sign::Op(Op::Del),
    Sign::Op(Op::Pass),
    Sign::Op(Op::Break),
    Sign::Op(Op::Continue),
    Sign::Op(Op::Return),
    Sign::Op(Op::Assert),
    Sign::Op(Op::Global),
    Sign::Op(Op::Raise),
    Sign::Op(Op::Yield),
    Sign::Op(Op::Import),
    Sign::Op(Op::From),
    Sign::Op(Op::Not),
    Sign::Op(Op::Minus),
    Sign::Op(Op::Plus),
    Sign::Op(Op::Tilde),
    Sign::Name,
    Sign::Number,
    Sign::Op(Op::True),
    Sign::Op(Op::False),
    Sign::Op(Op::None),
    Sign::Text,
    Sign::Op(Op::LeftParen),
    Sign::Op(Op::LeftBracket),
    Sign::Op(Op::LeftBrace),
];

/// A colon, and a block with so many levels, its own among them.
#[tactic(auto, unfolding(statement_readers::specs::Words::suite))]
#[cycle(block)]
fn suite(p: &mut Parser<'_>, levels: u32) -> Option<Vec<Stmt>>
    requires some { 0 < levels }
    ensures { Gives (λ x. block x.items) result p.new (suite (block_at levels) p.old.rest.now) }
{
    let Some(_colon) = p.expect_op(Op::Colon) else {
        return None;
    };
    block(p, levels)
}

/// The block behind a word, which is empty where the word doesn't stand.
#[tactic(auto, unfolding(statement_readers::specs::Words::suite_behind))]
#[cycle(block)]
fn suite_behind(p: &mut Parser<'_>, levels: u32, word: Op) -> Option<Vec<Stmt>>
    requires some { 0 < levels }
    ensures { Gives (λ x. block x.items) result p.new (suite_behind (block_at levels) (op_number word) p.old.rest.now) }
{
    match p.take_op(word) {
        Some(_word) => suite(p, levels),
        None => Some(Vec::new(p.alloc)),
    }
}

/// A condition, and the block behind it.
#[tactic(auto, unfolding(statement_readers::specs::Words::arm))]
#[cycle(block)]
fn arm(p: &mut Parser<'_>, levels: u32) -> Option<(Rc<Expr>, Vec<Stmt>)>
    requires some { 0 < levels }
    ensures { Gives (λ x. (tree x.0.value, block x.1.items)) result p.new (arm (block_at levels) p.old.rest.now) }
{
    let Some(condition) = expression(p, LEVELS) else {
        return None;
    };
    match suite(p, levels) {
        Some(body) => Some((condition.expr, body)),
        None => None,
    }
}

/// The branches, and those behind each `elif`.
#[tactic(auto, using(statement_readers::proofs::Suites::elif_rules))]
#[cycle(block)]
fn further_branches(p: &mut Parser<'_>, levels: u32, first: Vec<Branch>) -> Option<Vec<Branch>>
    requires some { 0 < levels }
    ensures { Gives (λ x. branches x.items) result p.new (elifs_on (block_at levels) (branches first.items, p.old.rest.now)) }
{
    let mut all = first;
    while let Some(elif) = p.take_op(Op::Elif) {
        let Some((condition, body)) = arm(p, levels) else {
            return None;
        };
        let Some(more) = p.made(add_branch(p.alloc, all, elif.at, condition, body)) else {
            return None;
        };
        all = more;
    }
    Some(all)
}

/// What stands behind `if`.
#[tactic(auto, unfolding(statement_readers::specs::Words::if_behind))]
#[cycle(block)]
fn choosing(p: &mut Parser<'_>, levels: u32, at: Pos) -> Option<Stmt>
    requires some { 0 < levels }
    ensures { Gives (λ x. statement x) result p.new (if_behind (block_at levels) at p.old.rest.now) }
{
    let Some((condition, body)) = arm(p, levels) else {
        return None;
    };
    let none = Vec::new(p.alloc);
    let Some(first) = p.made(add_branch(p.alloc, none, at, condition, body)) else {
        return None;
    };
    let Some(all) = further_branches(p, levels, first) else {
        return None;
    };
    let Some(other) = suite_behind(p, levels, Op::Else) else {
        return None;
    };
    p.made(if_stmt(p.alloc, at, all, other))
}

/// What stands behind `while`.
#[tactic(auto, unfolding(statement_readers::specs::Words::while_behind))]
#[cycle(block)]
fn looping(p: &mut Parser<'_>, levels: u32, at: Pos) -> Option<Stmt>
    requires some { 0 < levels }
    ensures { Gives (λ x. statement x) result p.new (while_behind (block_at levels) at p.old.rest.now) }
{
    let Some((condition, body)) = arm(p, levels) else {
        return None;
    };
    p.made(while_stmt(p.alloc, at, condition, body))
}

/// What stands behind `for`.
#[tactic(auto, unfolding(statement_readers::specs::Words::for_behind))]
#[cycle(block)]
fn running(p: &mut Parser<'_>, levels: u32, at: Pos) -> Option<Stmt>
    requires some { 0 < levels }
    ensures { Gives (λ x. statement x) result p.new (for_behind (block_at levels) at p.old.rest.now) }
{
    let Some(target) = targets(p, LEVELS) else {
        return None;
    };
    let Some(_in) = p.expect_op(Op::In) else {
        return None;
    };
    let Some(items) = expressions(p, LEVELS) else {
        return None;
    };
    let Some(body) = suite(p, levels) else {
        return None;
    };
    p.made(for_stmt(p.alloc, at, target.target, items.expr, body))
}

/// What stands behind `with`.
#[tactic(auto, unfolding(statement_readers::specs::Words::with_behind))]
#[cycle(block)]
fn entering(p: &mut Parser<'_>, levels: u32, at: Pos) -> Option<Stmt>
    requires some { 0 < levels }
    ensures { Gives (λ x. statement x) result p.new (with_behind (block_at levels) at p.old.rest.now) }
{
    let Some(context) = expression(p, LEVELS) else {
        return None;
    };
    let Some(name) = alias_behind(p) else {
        return None;
    };
    let Some(body) = suite(p, levels) else {
        return None;
    };
    p.made(with_stmt(p.alloc, at, context.expr, name, body))
}

/// The handlers of a `try`, and one more behind `except`, which stands at `word`.
#[tactic(auto, unfolding(statement_readers::specs::Words::handler))]
#[cycle(block)]
fn handler(p: &mut Parser<'_>, levels: u32, before: Vec<Handler>, word: Pos) -> Option<Vec<Handler>>
    requires some { 0 < levels }
    ensures { Gives (λ x. handlers x.items) result p.new (handler (block_at levels) (handlers before.items) word p.old.rest.now) }
{
    let Some((class, name)) = caught(p) else {
        return None;
    };
    let Some(body) = suite(p, levels) else {
        return None;
    };
    p.made(add_handler(p.alloc, before, word, class, name, body))
}

/// The handlers, and those behind each further `except`.
#[tactic(auto, using(statement_readers::proofs::Suites::handler_rules))]
#[cycle(block)]
fn further_handlers(p: &mut Parser<'_>, levels: u32, first: Vec<Handler>) -> Option<Vec<Handler>>
    requires some { 0 < levels }
    ensures { Gives (λ x. handlers x.items) result p.new (excepts_on (block_at levels) (handlers first.items, p.old.rest.now)) }
{
    let mut all = first;
    while let Some(except) = p.take_op(Op::Except) {
        let Some(more) = handler(p, levels, all, except.at) else {
            return None;
        };
        all = more;
    }
    Some(all)
}

/// What stands behind the first `except` of a `try`, which is at `word`.
#[tactic(auto, unfolding(statement_readers::specs::Words::handled))]
#[cycle(block)]
fn handling(p: &mut Parser<'_>, levels: u32, at: Pos, body: Vec<Stmt>, word: Pos) -> Option<Stmt>
    requires some { 0 < levels }
    ensures { Gives (λ x. statement x) result p.new (handled (block_at levels) at (block body.items) word p.old.rest.now) }
{
    let none = Vec::new(p.alloc);
    let Some(first) = handler(p, levels, none, word) else {
        return None;
    };
    let Some(all) = further_handlers(p, levels, first) else {
        return None;
    };
    let Some(other) = suite_behind(p, levels, Op::Else) else {
        return None;
    };
    let Some(last) = suite_behind(p, levels, Op::Finally) else {
        return None;
    };
    p.made(try_stmt(p.alloc, at, body, all, other, last))
}

/// What stands behind `try`.
#[tactic(auto, unfolding(statement_readers::specs::Words::try_behind))]
#[cycle(block)]
fn trying(p: &mut Parser<'_>, levels: u32, at: Pos) -> Option<Stmt>
    requires some { 0 < levels }
    ensures { Gives (λ x. statement x) result p.new (try_behind (block_at levels) at p.old.rest.now) }
{
    let Some(body) = suite(p, levels) else {
        return None;
    };
    if let Some(except) = p.take_op(Op::Except) {
        return handling(p, levels, at, body, except.at);
    }
    let Some(_finally) = p.expect_op(Op::Finally) else {
        return None;
    };
    let Some(last) = suite(p, levels) else {
        return None;
    };
    let (all, other) = (Vec::new(p.alloc), Vec::new(p.alloc));
    p.made(try_stmt(p.alloc, at, body, all, other, last))
}

/// What stands behind `def`, which is at `word`, of a function that begins at `at`.
#[tactic(auto, unfolding(statement_readers::specs::Words::def_behind))]
#[cycle(block)]
fn defining(
    p: &mut Parser<'_>,
    levels: u32,
    at: Pos,
    decorators: Vec<Rc<Expr>>,
    word: Pos,
) -> Option<Stmt>
    requires some { 0 < levels }
    ensures { Gives (λ x. statement x) result p.new (def_behind (block_at levels) at (trees decorators.items) word p.old.rest.now) }
{
    let Some(name) = name(p) else {
        return None;
    };
    let Some(_open) = p.expect_op(Op::LeftParen) else {
        return None;
    };
    let Some(params) = params(p) else {
        return None;
    };
    let Some(returns) = expression_behind(p, Op::Arrow) else {
        return None;
    };
    let Some(body) = suite(p, levels) else {
        return None;
    };
    p.made(def_stmt(p.alloc, at, decorators, word, name, params, returns, body))
}

/// What stands behind `class`, which is at `word`, of a class that begins at `at`.
#[tactic(auto, unfolding(statement_readers::specs::Words::class_behind))]
#[cycle(block)]
fn classing(
    p: &mut Parser<'_>,
    levels: u32,
    at: Pos,
    decorators: Vec<Rc<Expr>>,
    word: Pos,
) -> Option<Stmt>
    requires some { 0 < levels }
    ensures { Gives (λ x. statement x) result p.new (class_behind (block_at levels) at (trees decorators.items) word p.old.rest.now) }
{
    let Some(name) = name(p) else {
        return None;
    };
    let Some(base) = base(p) else {
        return None;
    };
    let Some(body) = suite(p, levels) else {
        return None;
    };
    p.made(class_stmt(p.alloc, at, decorators, word, name, base, body))
}

/// What stands behind the first `@` of a decorated definition.
#[tactic(auto, unfolding(statement_readers::specs::Words::decorated_behind))]
#[cycle(block)]
fn decorated(p: &mut Parser<'_>, levels: u32, at: Pos) -> Option<Stmt>
    requires some { 0 < levels }
    ensures { Gives (λ x. statement x) result p.new (decorated_behind (block_at levels) at p.old.rest.now) }
{
    let Some(all) = decorators(p) else {
        return None;
    };
    if let Some(word) = p.take_op(Op::Def) {
        return defining(p, levels, at, all, word.at);
    }
    let Some(word) = p.expect_op(Op::Class) else {
        return None;
    };
    classing(p, levels, at, all, word.at)
}

/// A statement with blocks (Language Reference, compound statements).
#[tactic(auto, unfolding(statement_readers::specs::Words::compound))]
#[cycle(block)]
fn compound(p: &mut Parser<'_>, levels: u32) -> Option<Stmt>
    requires some { 0 < levels }
    ensures { Gives (λ x. statement x) result p.new (compound (block_at levels) p.old.rest.now) }
{
    if let Some(word) = p.take_op(Op::If) {
        return choosing(p, levels, word.at);
    }
    if let Some(word) = p.take_op(Op::While) {
        return looping(p, levels, word.at);
    }
    if let Some(word) = p.take_op(Op::For) {
        return running(p, levels, word.at);
    }
    if let Some(word) = p.take_op(Op::Try) {
        return trying(p, levels, word.at);
    }
    if let Some(word) = p.take_op(Op::With) {
        return entering(p, levels, word.at);
    }
    if let Some(word) = p.take_op(Op::Def) {
        let none = Vec::new(p.alloc);
        return defining(p, levels, word.at, none, word.at);
    }
    if let Some(word) = p.take_op(Op::Class) {
        let none = Vec::new(p.alloc);
        return classing(p, levels, word.at, none, word.at);
    }
    let Some(word) = p.expect_op(Op::At) else {
        return None;
    };
    decorated(p, levels, word.at)
}

/// A statement with blocks, or the simple statements of a line, behind those of a block.
#[tactic(auto, using(statement_readers::proofs::Suites::left_rules), unfolding(statement_readers::specs::Words::stmt))]
#[cycle(block)]
fn statement(p: &mut Parser<'_>, levels: u32, before: Vec<Stmt>) -> Option<Vec<Stmt>>
    ensures { Gives (λ x. block x.items) result p.new (stmt (block_at levels) (nat_le 1 levels) (block before.items) p.old.rest.now) }
{
    if !p.at_any(&BEGINS_COMPOUND) {
        return simples(p, before);
    }
    if levels == 0 {
        p.stop_deep(p.rest);
        return None;
    }
    let Some(stmt) = compound(p, levels) else {
        return None;
    };
    p.made(add_stmt(before, stmt))
}

/// The statements, and further ones behind them.
#[tactic(auto, using(statement_readers::proofs::Suites::stmt_rules))]
#[cycle(block)]
fn further_statements(p: &mut Parser<'_>, levels: u32, first: Vec<Stmt>) -> Option<Vec<Stmt>>
    ensures { Gives (λ x. block x.items) result p.new (stmts_on (block_at levels) (nat_le 1 levels) (block first.items, p.old.rest.now)) }
{
    let mut all = first;
    while let Some((_first, _behind)) = first_of(p.rest, &BEGINS_STATEMENT) {
        let Some(more) = statement(p, levels, all) else {
            return None;
        };
        all = more;
    }
    Some(all)
}

/// Statements, at least one, whose blocks have so many levels.
#[tactic(auto, unfolding(statement_readers::specs::Words::stmts))]
#[cycle(block)]
fn statements(p: &mut Parser<'_>, levels: u32) -> Option<Vec<Stmt>>
    ensures { Gives (λ x. block x.items) result p.new (stmts (block_at levels) (nat_le 1 levels) p.old.rest.now) }
{
    let none = Vec::new(p.alloc);
    let Some(first) = statement(p, levels, none) else {
        return None;
    };
    further_statements(p, levels, first)
}

/// A block, with so many levels, its own among them.
#[tactic(auto, using(statement_readers::proofs::Suites::block_rules))]
#[cycle(block)]
fn block(p: &mut Parser<'_>, levels: u32) -> Option<Vec<Stmt>>
    requires some { 0 < levels }
    ensures { Gives (λ x. block x.items) result p.new (block_at levels p.old.rest.now) }
{
    let Some(_newline) = p.take(Sign::Newline) else {
        let none = Vec::new(p.alloc);
        return simples(p, none);
    };
    let Some(_indent) = p.expect(Sign::Indent) else {
        return None;
    };
    let Some(all) = statements(p, levels - 1) else {
        return None;
    };
    match p.expect(Sign::Dedent) {
        Some(_dedent) => Some(all),
        None => None,
    }
}

/// The statements of a source, up to the end, and with it.
#[tactic(auto, unfolding(statement_readers::specs::Words::source))]
pub fn source(p: &mut Parser<'_>) -> Option<Vec<Stmt>>
    ensures { Gives (λ x. block x.items) result p.new (source p.old.rest.now) }
{
    if let Some(_end) = p.take(Sign::End) {
        return Some(Vec::new(p.alloc));
    }
    let Some(all) = statements(p, LEVELS) else {
        return None;
    };
    match p.expect(Sign::End) {
        Some(_end) => Some(all),
        None => None,
    }
}
