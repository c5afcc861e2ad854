ghost use Rattle.std.specs.Prelude.{◌≡◌, IfOk};
ghost use Rattle.py_tree.specs.Trees.{tree, some_tree};
ghost use Rattle.py_tree.specs.Statements.{statement, statement_at, place, takers, Do, Assign, AssignYield, AugAssign, Return, ReturnYield, Raise, Assert, Del, GlobalOf, YieldOf, Import as ImportTree, ImportFrom as ImportFromTree};

use py_source::{Pos, SrcText};
use py_tree::{Alias, BinOp, Expr, Single, Stmt, StmtKind, Target, Yield};
use std::alloc::{AllocError, Global};
use std::rc::Rc;

/// A statement of one word: `pass`, `break` or `continue`.
pub fn word_stmt(at: Pos, kind: StmtKind) -> Stmt
    ensures { statement result ≡ statement_at at kind }
{
    Stmt { at, kind }
}

/// An expression as a statement.
pub fn expr_stmt(at: Pos, value: Rc<Expr>) -> Stmt
    ensures { statement result ≡ Do at (tree value.value) }
{
    Stmt {
        at,
        kind: StmtKind::Expr(value),
    }
}

/// An assignment to targets, from left to right.
pub fn assign_stmt(
    alloc: Global,
    at: Pos,
    targets: Vec<Target>,
    value: Rc<Expr>,
) -> Result<Stmt, AllocError>
    ensures { IfOk result (λ stmt. statement stmt ≡ Assign at (takers targets.items) (tree value.value)) }
{
    let targets = Rc::new(alloc, targets)?;
    Ok(Stmt {
        at,
        kind: StmtKind::Assign(targets, value),
    })
}

/// An assignment of what is sent to a `yield`, which stands at `word`.
pub fn assign_yield_stmt(
    alloc: Global,
    at: Pos,
    targets: Vec<Target>,
    word: Pos,
    value: Option<Rc<Expr>>,
) -> Result<Stmt, AllocError>
    ensures { IfOk result (λ stmt. statement stmt ≡ AssignYield at (takers targets.items) word (some_tree value)) }
{
    let targets = Rc::new(alloc, targets)?;
    Ok(Stmt {
        at,
        kind: StmtKind::AssignYield(targets, Yield { at: word, value }),
    })
}

/// An assignment with an operator.
pub fn aug_assign_stmt(at: Pos, target: Single, op: BinOp, value: Rc<Expr>) -> Stmt
    ensures { statement result ≡ AugAssign at (place target) op (tree value.value) }
{
    Stmt {
        at,
        kind: StmtKind::AugAssign(target, op, value),
    }
}

/// A `return` statement (Language Reference, 7.6).
pub fn return_stmt(at: Pos, value: Option<Rc<Expr>>) -> Stmt
    ensures { statement result ≡ Return at (some_tree value) }
{
    Stmt {
        at,
        kind: StmtKind::Return(value),
    }
}

/// `return (yield)`, with the `yield` at `word`.
pub fn return_yield_stmt(at: Pos, word: Pos, value: Option<Rc<Expr>>) -> Stmt
    ensures { statement result ≡ ReturnYield at word (some_tree value) }
{
    Stmt {
        at,
        kind: StmtKind::ReturnYield(Yield { at: word, value }),
    }
}

/// A `raise` statement (Language Reference, 7.8).
pub fn raise_stmt(at: Pos, value: Option<Rc<Expr>>) -> Stmt
    ensures { statement result ≡ Raise at (some_tree value) }
{
    Stmt {
        at,
        kind: StmtKind::Raise(value),
    }
}

/// An `assert` statement, with its message where it has one (Language Reference, 7.3).
pub fn assert_stmt(at: Pos, condition: Rc<Expr>, message: Option<Rc<Expr>>) -> Stmt
    ensures { statement result ≡ Assert at (tree condition.value) (some_tree message) }
{
    Stmt {
        at,
        kind: StmtKind::Assert(condition, message),
    }
}

/// A `del` statement of one target (Language Reference, 7.5).
pub fn del_stmt(at: Pos, target: Single) -> Stmt
    ensures { statement result ≡ Del at (place target) }
{
    Stmt {
        at,
        kind: StmtKind::Del(target),
    }
}

/// A `global` statement (Language Reference, 7.12).
pub fn global_stmt(alloc: Global, at: Pos, names: Vec<SrcText>) -> Result<Stmt, AllocError>
    ensures { IfOk result (λ stmt. statement stmt ≡ GlobalOf at names.items) }
{
    let names = Rc::new(alloc, names)?;
    Ok(Stmt {
        at,
        kind: StmtKind::Global(names),
    })
}

/// A `yield` as a statement.
pub fn yield_stmt(at: Pos, value: Option<Rc<Expr>>) -> Stmt
    ensures { statement result ≡ YieldOf at at (some_tree value) }
{
    Stmt {
        at,
        kind: StmtKind::Yield(Yield { at, value }),
    }
}

/// `import` with a dotted name, and the name behind `as`.
pub fn import_stmt(
    alloc: Global,
    at: Pos,
    names: Vec<SrcText>,
    alias: Option<SrcText>,
) -> Result<Stmt, AllocError>
    ensures { IfOk result (λ stmt. statement stmt ≡ ImportTree at names.items alias) }
{
    let names = Rc::new(alloc, names)?;
    Ok(Stmt {
        at,
        kind: StmtKind::Import(names, alias),
    })
}

/// `from` with a dotted name, and the names that are imported.
pub fn import_from_stmt(
    alloc: Global,
    at: Pos,
    names: Vec<SrcText>,
    all: Vec<Alias>,
) -> Result<Stmt, AllocError>
    ensures { IfOk result (λ stmt. statement stmt ≡ ImportFromTree at names.items all.items) }
{
    let names = Rc::new(alloc, names)?;
    let all = Rc::new(alloc, all)?;
    Ok(Stmt {
        at,
        kind: StmtKind::ImportFrom(names, all),
    })
}
