ghost use Rattle.std.specs.Prelude.{◌≡◌, ◌++◌, ◌∷◌, [], IfOk};
ghost use Rattle.py_tree.specs.Trees.{tree, trees, some_tree, More};
ghost use Rattle.py_tree.specs.Statements.{statement, block, branches, handlers, taker, parameters, Parameter_at, Next, Branch as BranchTree, Handler as HandlerTree, If, While, For, Try, With, Def, Class as ClassTree};

use py_source::{Pos, SrcText};
use py_tree::{Branch, Class, Expr, Function, Handler, Param, Stmt, StmtKind, Target};
use std::alloc::{AllocError, Global};
use std::rc::Rc;

/// The block, and a statement behind it.
pub fn add_stmt(stmts: Vec<Stmt>, stmt: Stmt) -> Result<Vec<Stmt>, AllocError>
    ensures { IfOk result (λ all. block all.items ≡ Next (block stmts.items) (statement stmt)) }
{
    let mut stmts = stmts;
    stmts.push(stmt)?;
    Ok(stmts)
}

/// The branches of a choice, and one more behind them.
pub fn add_branch(
    alloc: Global,
    all: Vec<Branch>,
    at: Pos,
    condition: Rc<Expr>,
    body: Vec<Stmt>,
) -> Result<Vec<Branch>, AllocError>
    ensures { IfOk result (λ more. branches more.items ≡ BranchTree (branches all.items) at (tree condition.value) (block body.items)) }
{
    let mut all = all;
    let body = Rc::new(alloc, body)?;
    all.push(Branch {
        at,
        condition,
        body,
    })?;
    Ok(all)
}

/// A choice between branches, with what is done where none is taken.
pub fn if_stmt(
    alloc: Global,
    at: Pos,
    all: Vec<Branch>,
    other: Vec<Stmt>,
) -> Result<Stmt, AllocError>
    ensures { IfOk result (λ stmt. statement stmt ≡ If at (branches all.items) (block other.items)) }
{
    let all = Rc::new(alloc, all)?;
    let other = Rc::new(alloc, other)?;
    Ok(Stmt {
        at,
        kind: StmtKind::If(all, other),
    })
}

/// A `while` statement (Language Reference, 8.2).
pub fn while_stmt(
    alloc: Global,
    at: Pos,
    condition: Rc<Expr>,
    body: Vec<Stmt>,
) -> Result<Stmt, AllocError>
    ensures { IfOk result (λ stmt. statement stmt ≡ While at (tree condition.value) (block body.items)) }
{
    let body = Rc::new(alloc, body)?;
    Ok(Stmt {
        at,
        kind: StmtKind::While(condition, body),
    })
}

/// A `for` statement (Language Reference, 8.3).
pub fn for_stmt(
    alloc: Global,
    at: Pos,
    target: Target,
    items: Rc<Expr>,
    body: Vec<Stmt>,
) -> Result<Stmt, AllocError>
    ensures { IfOk result (λ stmt. statement stmt ≡ For at (taker target) (tree items.value) (block body.items)) }
{
    let body = Rc::new(alloc, body)?;
    Ok(Stmt {
        at,
        kind: StmtKind::For(target, items, body),
    })
}

/// The handlers of a `try`, and one more behind them.
pub fn add_handler(
    alloc: Global,
    all: Vec<Handler>,
    at: Pos,
    class: Option<Rc<Expr>>,
    name: Option<SrcText>,
    body: Vec<Stmt>,
) -> Result<Vec<Handler>, AllocError>
    ensures { IfOk result (λ more. handlers more.items ≡ HandlerTree (handlers all.items) at (some_tree class) name (block body.items)) }
{
    let mut all = all;
    let body = Rc::new(alloc, body)?;
    all.push(Handler {
        at,
        class,
        name,
        body,
    })?;
    Ok(all)
}

/// A `try` with its block, its handlers, and the blocks behind `else` and `finally`.
pub fn try_stmt(
    alloc: Global,
    at: Pos,
    body: Vec<Stmt>,
    all: Vec<Handler>,
    other: Vec<Stmt>,
    last: Vec<Stmt>,
) -> Result<Stmt, AllocError>
    ensures { IfOk result (λ stmt. statement stmt ≡ Try at (block body.items) (handlers all.items) (block other.items) (block last.items)) }
{
    let body = Rc::new(alloc, body)?;
    let all = Rc::new(alloc, all)?;
    let other = Rc::new(alloc, other)?;
    let last = Rc::new(alloc, last)?;
    Ok(Stmt {
        at,
        kind: StmtKind::Try(body, all, other, last),
    })
}

/// A `with` statement, with the name behind `as` where it has one (Language Reference, 8.5).
pub fn with_stmt(
    alloc: Global,
    at: Pos,
    context: Rc<Expr>,
    name: Option<SrcText>,
    body: Vec<Stmt>,
) -> Result<Stmt, AllocError>
    ensures { IfOk result (λ stmt. statement stmt ≡ With at (tree context.value) name (block body.items)) }
{
    let body = Rc::new(alloc, body)?;
    Ok(Stmt {
        at,
        kind: StmtKind::With(context, name, body),
    })
}

/// The parameters, and one more behind them.
pub fn add_param(
    params: Vec<Param>,
    at: Pos,
    name: SrcText,
    annotation: Option<Rc<Expr>>,
    default: Option<Rc<Expr>>,
) -> Result<Vec<Param>, AllocError>
    ensures { IfOk result (λ all. parameters all.items ≡ parameters params.items ++ Parameter_at at name (some_tree annotation) (some_tree default) ∷ []) }
{
    let mut params = params;
    params.push(Param {
        at,
        name,
        annotation,
        default,
    })?;
    Ok(params)
}

/// A function, whose word `def` stands at `word`.
pub fn def_stmt(
    alloc: Global,
    at: Pos,
    decorators: Vec<Rc<Expr>>,
    word: Pos,
    name: SrcText,
    params: Vec<Param>,
    returns: Option<Rc<Expr>>,
    body: Vec<Stmt>,
) -> Result<Stmt, AllocError>
    ensures { IfOk result (λ stmt. statement stmt ≡ Def at (trees decorators.items) word name (parameters params.items) (some_tree returns) (block body.items)) }
{
    let decorators = Rc::new(alloc, decorators)?;
    let params = Rc::new(alloc, params)?;
    let body = Rc::new(alloc, body)?;
    let function = Function {
        decorators,
        at: word,
        name,
        params,
        returns,
        body,
    };
    let function = Rc::new(alloc, function)?;
    Ok(Stmt {
        at,
        kind: StmtKind::Def(function),
    })
}

/// A class, whose word `class` stands at `word`.
pub fn class_stmt(
    alloc: Global,
    at: Pos,
    decorators: Vec<Rc<Expr>>,
    word: Pos,
    name: SrcText,
    base: Option<Rc<Expr>>,
    body: Vec<Stmt>,
) -> Result<Stmt, AllocError>
    ensures { IfOk result (λ stmt. statement stmt ≡ ClassTree at (trees decorators.items) word name (some_tree base) (block body.items)) }
{
    let decorators = Rc::new(alloc, decorators)?;
    let body = Rc::new(alloc, body)?;
    let class = Class {
        decorators,
        at: word,
        name,
        base,
        body,
    };
    let class = Rc::new(alloc, class)?;
    Ok(Stmt {
        at,
        kind: StmtKind::Class(class),
    })
}

/// The decorators, and one more behind them.
pub fn add_decorator(
    decorators: Vec<Rc<Expr>>,
    decorator: Rc<Expr>,
) -> Result<Vec<Rc<Expr>>, AllocError>
    ensures { IfOk result (λ all. trees all.items ≡ More (trees decorators.items) (tree decorator.value)) }
{
    let mut decorators = decorators;
    decorators.push(decorator)?;
    Ok(decorators)
}
