ghost use Rattle.std.specs.Prelude.{IfOk, ◌≡◌, ◌∷◌, []};
ghost use Rattle.assert_rewrite.specs.Groups as groups;
ghost use Rattle.assert_rewrite.specs.Lowers.{Carries, LowersStatement, LowersBlock, LowersBody, LowersBranches, LowersHandlers, Guards, LowersFunction, LowersClass};

use crate::expressions::{lower_each, lower_expr, lower_some};
use crate::groups::{StmtGroup, stmt_group};
use crate::parameters::{core_params, lower_defaults};
use crate::simple::{copy_name, lower_naming, lower_simple};
use crate::targets::lower_target;
use crate::yields::lower_yield;
use py_core::{
    CoreBlock, CoreBranch, CoreClass, CoreFn, CoreGuard, CoreHandler, CoreStmt, CoreStmtKind,
};
use py_tree::{Branch, Class, Function, Handler, Stmt, StmtKind, bindings_of};
use seq::OutOfMemory;
use std::alloc::Global;
use std::rc::Rc;

/// What guards a block.
#[tactic(auto, using(crate::proofs::HandlerForms::guards))]
fn guard(
    alloc: Global,
    source: Rc<Vec<Handler>>,
    handlers: Vec<CoreHandler>,
    other: Rc<CoreBlock>,
    last: Rc<CoreBlock>,
) -> Result<Rc<CoreGuard>, OutOfMemory>
    ensures { IfOk result (λ g. Guards source.value.items handlers.items other.value last.value g.value) }
{
    let guard = CoreGuard {
        source,
        handlers,
        other,
        last,
    };
    Ok(Rc::new(alloc, guard)?)
}

/// The core code of statements, in their order.
#[cycle(block)]
#[tactic(auto, using(crate::proofs::StatementForms::blocks))]
fn lower_block(alloc: Global, explains: bool, stmts: &[Stmt]) -> Result<Vec<CoreStmt>, OutOfMemory>
    ensures { IfOk result (λ cores. LowersBlock explains stmts.now cores.items) }
{
    let mut done = Vec::new(alloc);
    for stmt in stmts {
        let kind = lower_statement(alloc, explains, stmt)?;
        done.push(CoreStmt { at: stmt.at, kind })?;
    }
    Ok(done)
}

/// The core block of a block of the source, and whether asserts are explained there.
#[cycle(block)]
#[tactic(auto, using(crate::proofs::StatementForms::bodies))]
pub fn lower_body(
    alloc: Global,
    explains: bool,
    stmts: &Rc<Vec<Stmt>>,
) -> Result<Rc<CoreBlock>, OutOfMemory>
    ensures carried { IfOk result (λ b. Carries explains stmts.now.value.items b.value) }
    ensures lowered { IfOk result (λ b. LowersBody explains stmts.now.value.items b.value) }
{
    let block = CoreBlock {
        source: stmts.clone()?,
        explains,
        stmts: lower_block(alloc, explains, stmts)?,
    };
    Ok(Rc::new(alloc, block)?)
}

/// The core form of a statement.
#[cycle(block)]
fn lower_statement(alloc: Global, explains: bool, stmt: &Stmt) -> Result<CoreStmtKind, OutOfMemory>
    ensures { IfOk result (λ made. LowersStatement explains stmt.now.at stmt.now.kind made) }
{
    match stmt_group(&stmt.kind) {
        StmtGroup::Simple => lower_simple(alloc, explains, stmt),
        StmtGroup::Naming => lower_naming(alloc, explains, stmt),
        StmtGroup::Yielding => lower_yield(alloc, explains, stmt),
        StmtGroup::Compound => lower_compound(alloc, explains, stmt),
    }
}

/// The core form of a compound statement.
#[cycle(block)]
#[tactic(auto, using(crate::proofs::StatementForms::forms))]
fn lower_compound(alloc: Global, explains: bool, stmt: &Stmt) -> Result<CoreStmtKind, OutOfMemory>
    requires { groups.stmt_group stmt.now.kind ≡ StmtGroup.Compound }
    ensures { IfOk result (λ made. LowersStatement explains stmt.now.at stmt.now.kind made) }
{
    match &stmt.kind {
        StmtKind::If(branches, other) => {
            let branches = lower_branches(alloc, explains, branches)?;
            Ok(CoreStmtKind::If(branches, lower_body(alloc, explains, other)?))
        }
        StmtKind::While(condition, body) => {
            let condition = lower_expr(alloc, condition)?;
            Ok(CoreStmtKind::While(condition, lower_body(alloc, explains, body)?))
        }
        StmtKind::For(target, items, body) => {
            let target = Rc::new(alloc, lower_target(alloc, target)?)?;
            let items = lower_expr(alloc, items)?;
            Ok(CoreStmtKind::For(target, items, lower_body(alloc, explains, body)?))
        }
        StmtKind::Try(body, handlers, other, last) => {
            let body = lower_body(alloc, explains, body)?;
            let cores = lower_handlers(alloc, explains, handlers)?;
            let other = lower_body(alloc, explains, other)?;
            let last = lower_body(alloc, explains, last)?;
            let guard = guard(alloc, handlers.clone()?, cores, other, last)?;
            Ok(CoreStmtKind::Try(body, guard))
        }
        StmtKind::With(context, name, body) => {
            let context = lower_expr(alloc, context)?;
            let name = copy_name(name)?;
            Ok(CoreStmtKind::With(context, name, lower_body(alloc, explains, body)?))
        }
        StmtKind::Def(function) => {
            let decorators = lower_each(alloc, &function.decorators)?;
            let defaults = lower_defaults(alloc, &function.params)?;
            let function = lower_function(alloc, explains, function)?;
            Ok(CoreStmtKind::Def(decorators, defaults, Rc::new(alloc, function)?))
        }
        StmtKind::Class(class) => {
            let decorators = lower_each(alloc, &class.decorators)?;
            let base = lower_some(alloc, &class.base)?;
            let class = lower_class(alloc, explains, class)?;
            Ok(CoreStmtKind::Class(decorators, base, Rc::new(alloc, class)?))
        }
        _ => unreachable!(),
    }
}

/// The core forms of branches, in their order.
#[cycle(block)]
#[tactic(auto, using(crate::proofs::StatementForms::branch_lists))]
fn lower_branches(
    alloc: Global,
    explains: bool,
    all: &[Branch],
) -> Result<Rc<Vec<CoreBranch>>, OutOfMemory>
    ensures { IfOk result (λ cores. LowersBranches explains all.now cores.value.items) }
{
    let mut done = Vec::new(alloc);
    for branch in all {
        done.push(lower_branch(alloc, explains, branch)?)?;
    }
    Ok(Rc::new(alloc, done)?)
}

/// The core form of a branch, at its place.
#[cycle(block)]
#[tactic(auto, using(crate::proofs::StatementForms::branch_forms))]
fn lower_branch(alloc: Global, explains: bool, branch: &Branch) -> Result<CoreBranch, OutOfMemory>
    ensures { IfOk result (λ made. LowersBranches explains (branch.now ∷ []) (made ∷ [])) }
{
    let condition = lower_expr(alloc, &branch.condition)?;
    let body = lower_body(alloc, explains, &branch.body)?;
    Ok(CoreBranch {
        at: branch.at,
        condition,
        body,
    })
}

/// The core forms of handlers, in their order.
#[cycle(block)]
#[tactic(auto, using(crate::proofs::HandlerForms::handler_lists))]
fn lower_handlers(
    alloc: Global,
    explains: bool,
    all: &[Handler],
) -> Result<Vec<CoreHandler>, OutOfMemory>
    ensures { IfOk result (λ cores. LowersHandlers explains all.now cores.items) }
{
    let mut done = Vec::new(alloc);
    for handler in all {
        done.push(lower_handler(alloc, explains, handler)?)?;
    }
    Ok(done)
}

/// The core form of a handler.
#[cycle(block)]
#[tactic(auto, using(crate::proofs::HandlerForms::handler_forms))]
fn lower_handler(
    alloc: Global,
    explains: bool,
    handler: &Handler,
) -> Result<CoreHandler, OutOfMemory>
    ensures { IfOk result (λ made. LowersHandlers explains (handler.now ∷ []) (made ∷ [])) }
{
    let class = lower_some(alloc, &handler.class)?;
    let name = copy_name(&handler.name)?;
    let body = lower_body(alloc, explains, &handler.body)?;
    Ok(CoreHandler { class, name, body })
}

/// The core form of a function, where its `def` stands.
#[cycle(block)]
#[tactic(auto, using(crate::proofs::StatementForms::functions))]
fn lower_function(
    alloc: Global,
    explains: bool,
    function: &Rc<Function>,
) -> Result<CoreFn, OutOfMemory>
    ensures { IfOk result (λ made. LowersFunction explains function.now.value made) }
{
    let names = bindings_of(alloc, &function.params, &function.body)?;
    let params = core_params(alloc, &function.params)?;
    let body = lower_body(alloc, explains, &function.body)?;
    let source = function.clone()?;
    Ok(CoreFn {
        source,
        at: function.at,
        name: function.name.clone()?,
        params,
        locals: names.locals,
        yields: names.yields,
        body,
    })
}

/// The core form of a class, where its `class` stands.
#[cycle(block)]
#[tactic(auto, using(crate::proofs::StatementForms::classes))]
fn lower_class(alloc: Global, explains: bool, class: &Rc<Class>) -> Result<CoreClass, OutOfMemory>
    ensures { IfOk result (λ made. LowersClass explains class.now.value made) }
{
    let body = lower_body(alloc, explains, &class.body)?;
    Ok(CoreClass {
        at: class.at,
        name: class.name.clone()?,
        body,
    })
}
