ghost use Rattle.std.specs.Prelude.{◌≡◌, ◌++◌, ◌||◌, ◌&&◌, not, false, true, [], IfOk, MatchOption, ◌∷◌};
ghost use Rattle.py_tree.specs.Trees.{tree, trees, some_tree};
ghost use Rattle.py_tree.specs.Names.{is_among, globals_of};
ghost use Rattle.py_tree.specs.Statements.{place, places, taker, takers, parameter, parameters, block, branches, handlers, statement_at, block_on, NoStatement};
ghost use Rattle.py_tree.specs.declared.stmt.Handler.{out-Handler};
ghost use Rattle.py_tree.specs.declared.stmt.Function.{out-Function};
ghost use Rattle.py_tree.specs.declared.stmt.Class.{out-Class};
ghost use Rattle.py_grammar.specs.Context.{first_pos, unless, is_function, is_module, is_present, is_bound, in_place, in_places, in_taker, in_takers, in_maybe, in_tree, in_trees, in_params, misplaced, misplaced_in, misplaced_branches, misplaced_handlers, in_module, in_function, in_class, in_loop_of, without_yield};
ghost use Rattle.py_context.specs.First.{sooner};
ghost use Rattle.py_context.specs.Standing.{where_of, scope_of};

use crate::expressions::{in_all, in_optional, in_part, is_one_of, join};
use py_source::{Pos, SrcText};
use py_tree::{
    Branch, Class, Expr, Function, Handler, Param, Single, SingleKind, Stmt, StmtKind, Target,
    Yield, globals_of,
};
use seq::OutOfMemory;
use std::alloc::Global;
use std::rc::Rc;

/// What statements stand in.
#[derive(Clone, Copy)]
pub enum Scope {
    Module,
    Class,
    Function,
}

/// Where a statement stands: in a module, a class or a function, in a loop of it or not, and where a `yield` may stand or not.
#[derive(Clone, Copy)]
pub struct StatementContext {
    pub scope: Scope,
    pub in_loop: bool,
    pub may_yield: bool,
}

/// This place, unless it is allowed.
fn unless(allowed: bool, at: Pos) -> Result<Option<Pos>, OutOfMemory>
    ensures { IfOk result (λ first. first ≡ first_pos (unless allowed at)) }
{
    if allowed { Ok(None) } else { Ok(Some(at)) }
}

fn in_single(alloc: Global, single: &Single) -> Result<Option<Pos>, OutOfMemory>
    ensures { IfOk result (λ at. at ≡ first_pos (in_place (place single.now))) }
{
    match &single.kind {
        SingleKind::Name(_) => Ok(None),
        SingleKind::Attribute(of, _) => in_part(alloc, of),
        SingleKind::Subscript(of, index) => join(in_part(alloc, of), in_part(alloc, index)),
    }
}

fn in_singles(alloc: Global, all: &[Single]) -> Result<Option<Pos>, OutOfMemory>
    ensures { IfOk result (λ at. at ≡ first_pos (in_places (places all.now))) }
{
    for single in all {
        if let Some(at) = in_single(alloc, single)? {
            return Ok(Some(at));
        }
    }
    Ok(None)
}

fn in_target(alloc: Global, target: &Target) -> Result<Option<Pos>, OutOfMemory>
    ensures { IfOk result (λ at. at ≡ first_pos (in_taker (taker target.now))) }
{
    match target {
        Target::Single(single) => in_single(alloc, single),
        Target::Unpack(all) => in_singles(alloc, all),
    }
}

fn in_targets(alloc: Global, all: &[Target]) -> Result<Option<Pos>, OutOfMemory>
    ensures { IfOk result (λ at. at ≡ first_pos (in_takers (takers all.now))) }
{
    for target in all {
        if let Some(at) = in_target(alloc, target)? {
            return Ok(Some(at));
        }
    }
    Ok(None)
}

fn is_function(w: StatementContext) -> bool
    ensures { result ≡ is_function (where_of w).scope }
{
    match w.scope {
        Scope::Function => true,
        Scope::Class | Scope::Module => false,
    }
}

fn is_module(w: StatementContext) -> bool
    ensures { result ≡ is_module (where_of w).scope }
{
    match w.scope {
        Scope::Module => true,
        Scope::Class | Scope::Function => false,
    }
}

/// In a loop there.
fn in_loop_of(w: StatementContext) -> StatementContext
    ensures { where_of result ≡ in_loop_of (where_of w) }
{
    StatementContext {
        scope: w.scope,
        in_loop: true,
        may_yield: false,
    }
}

/// There, where no `yield` may stand.
fn without_yield(w: StatementContext) -> StatementContext
    ensures { where_of result ≡ without_yield (where_of w) }
{
    StatementContext {
        scope: w.scope,
        in_loop: w.in_loop,
        may_yield: false,
    }
}

/// In a function.
fn inside_function() -> StatementContext
    ensures { where_of result ≡ in_function }
{
    StatementContext {
        scope: Scope::Function,
        in_loop: false,
        may_yield: true,
    }
}

/// In a class.
fn inside_class() -> StatementContext
    ensures { where_of result ≡ in_class }
{
    StatementContext {
        scope: Scope::Class,
        in_loop: false,
        may_yield: false,
    }
}

/// Whether an import binds a name.
fn is_bound(names: &[SrcText], alias: &Option<SrcText>) -> bool
    ensures { result ≡ is_bound names.now alias.now }
{
    match (alias, names) {
        (Some(_), _) => true,
        (None, []) => true,
        (None, [_]) => true,
        (None, [_, _, ..]) => false,
    }
}

/// The first in targets and their value.
#[tactic(auto, using(crate::proofs::ExpressionPlaces::join_rules))]
fn in_assign(
    alloc: Global,
    targets: &Rc<Vec<Target>>,
    value: &Rc<Expr>,
) -> Result<Option<Pos>, OutOfMemory>
    ensures { IfOk result (λ at. at ≡ first_pos (in_takers (takers targets.now.value.items) ++ in_tree (tree value.now.value))) }
{
    join(in_targets(alloc, targets), in_part(alloc, value))
}

/// The first in a `yield`.
#[tactic(auto, using(crate::proofs::ExpressionPlaces::join_rules))]
fn in_yield(alloc: Global, w: StatementContext, given: &Yield) -> Result<Option<Pos>, OutOfMemory>
    ensures { IfOk result (λ at. at ≡ first_pos (unless w.may_yield given.now.at ++ in_maybe (some_tree given.now.value))) }
{
    join(
        unless(w.may_yield, given.at),
        in_optional(alloc, &given.value),
    )
}

#[tactic(auto, using(crate::proofs::ExpressionPlaces::join_rules))]
fn in_assign_yield(
    alloc: Global,
    w: StatementContext,
    targets: &Rc<Vec<Target>>,
    given: &Yield,
) -> Result<Option<Pos>, OutOfMemory>
    ensures { IfOk result (λ at. at ≡ first_pos (in_takers (takers targets.now.value.items) ++ (unless w.may_yield given.now.at ++ in_maybe (some_tree given.now.value)))) }
{
    join(in_targets(alloc, targets), in_yield(alloc, w, given))
}

#[tactic(auto, using(crate::proofs::ExpressionPlaces::join_rules))]
fn in_aug_assign(
    alloc: Global,
    single: &Single,
    value: &Rc<Expr>,
) -> Result<Option<Pos>, OutOfMemory>
    ensures { IfOk result (λ at. at ≡ first_pos (in_place (place single.now) ++ in_tree (tree value.now.value))) }
{
    join(in_single(alloc, single), in_part(alloc, value))
}

#[tactic(auto, using(crate::proofs::ExpressionPlaces::join_rules))]
fn in_return(
    alloc: Global,
    w: StatementContext,
    at: Pos,
    value: &Option<Rc<Expr>>,
) -> Result<Option<Pos>, OutOfMemory>
    ensures { IfOk result (λ first. first ≡ first_pos (unless (is_function (where_of w).scope) at ++ in_maybe (some_tree value.now))) }
{
    join(unless(is_function(w), at), in_optional(alloc, value))
}

#[tactic(auto, using(crate::proofs::ExpressionPlaces::join_rules))]
fn in_return_yield(
    alloc: Global,
    w: StatementContext,
    at: Pos,
    given: &Yield,
) -> Result<Option<Pos>, OutOfMemory>
    ensures { IfOk result (λ first. first ≡ first_pos (unless (is_function (where_of w).scope) at ++ (unless w.may_yield given.now.at ++ in_maybe (some_tree given.now.value)))) }
{
    join(unless(is_function(w), at), in_yield(alloc, w, given))
}

#[tactic(auto, using(crate::proofs::ExpressionPlaces::join_rules))]
fn in_assert(
    alloc: Global,
    condition: &Rc<Expr>,
    message: &Option<Rc<Expr>>,
) -> Result<Option<Pos>, OutOfMemory>
    ensures { IfOk result (λ at. at ≡ first_pos (in_tree (tree condition.now.value) ++ in_maybe (some_tree message.now))) }
{
    join(in_part(alloc, condition), in_optional(alloc, message))
}

/// Whether a parameter may stand behind those before it.
fn may_follow(globals: &[SrcText], before: &[SrcText], defaulted: bool, param: &Param) -> bool
    ensures { result ≡ not ((is_among before.now param.now.name || is_among globals.now param.now.name) || (defaulted && not (is_present (some_tree param.now.default)))) }
{
    !(is_one_of(before, &param.name)
        || is_one_of(globals, &param.name)
        || (defaulted && param.default.is_none()))
}

/// The first in a parameter.
#[tactic(auto, using(crate::proofs::ExpressionPlaces::join_rules))]
fn in_param(
    alloc: Global,
    globals: &[SrcText],
    before: &[SrcText],
    defaulted: bool,
    param: &Param,
) -> Result<Option<Pos>, OutOfMemory>
    ensures { IfOk result (λ at. at ≡ first_pos (unless (not ((is_among before.now param.now.name || is_among globals.now param.now.name) || (defaulted && not (is_present (some_tree param.now.default))))) param.now.at ++ (in_maybe (some_tree param.now.annotation) ++ in_maybe (some_tree param.now.default)))) }
{
    join(
        unless(may_follow(globals, before, defaulted, param), param.at),
        join(
            in_optional(alloc, &param.annotation),
            in_optional(alloc, &param.default),
        ),
    )
}

/// The first in parameters.
#[tactic(auto, using(crate::proofs::StatementPlaces::param_on))]
fn in_params(
    alloc: Global,
    globals: &[SrcText],
    params: &[Param],
) -> Result<Option<Pos>, OutOfMemory>
    ensures { IfOk result (λ at. at ≡ first_pos (in_params globals.now [] false (parameters params.now))) }
{
    let mut before = Vec::new(alloc);
    let mut defaulted = false;
    for param in params {
        if let Some(at) = in_param(alloc, globals, &before, defaulted, param)? {
            return Ok(Some(at));
        }
        before.push(param.name.clone()?)?;
        defaulted = defaulted || param.default.is_some();
    }
    Ok(None)
}

/// The first in the parameters of a function.
fn in_own_params(alloc: Global, function: &Function) -> Result<Option<Pos>, OutOfMemory>
    ensures { IfOk result (λ first. first ≡ first_pos (in_params (globals_of (block (out-Function function.now).body.value.items)) [] false (parameters (out-Function function.now).params.value.items))) }
{
    let globals = globals_of(alloc, &function.body)?;
    in_params(alloc, globals.items(), &function.params)
}

/// The first in statements.
#[cycle(context)]
fn in_stmts(alloc: Global, w: StatementContext, stmts: &[Stmt]) -> Result<Option<Pos>, OutOfMemory>
    ensures { IfOk result (λ at. at ≡ first_pos (misplaced (where_of w) (block stmts.now))) }
{
    for stmt in stmts {
        if let Some(at) = in_stmt(alloc, w, stmt)? {
            return Ok(Some(at));
        }
    }
    Ok(None)
}

#[cycle(context)]
fn in_block(
    alloc: Global,
    w: StatementContext,
    body: &Rc<Vec<Stmt>>,
) -> Result<Option<Pos>, OutOfMemory>
    ensures { IfOk result (λ at. at ≡ first_pos (misplaced (where_of w) (block body.now.value.items))) }
{
    in_stmts(alloc, w, body)
}

#[cycle(context)]
fn in_branches(
    alloc: Global,
    w: StatementContext,
    all: &[Branch],
) -> Result<Option<Pos>, OutOfMemory>
    ensures { IfOk result (λ at. at ≡ first_pos (misplaced_branches (where_of w) (branches all.now))) }
{
    for branch in all {
        let head = in_part(alloc, &branch.condition);
        if let Some(at) = join(head, in_block(alloc, w, &branch.body))? {
            return Ok(Some(at));
        }
    }
    Ok(None)
}

/// Whether a handler may stand there: only the last may take all exceptions.
fn may_catch(is_last: bool, handler: &Handler) -> bool
    ensures { result ≡ (is_last || is_present (some_tree (out-Handler handler.now).class)) }
{
    is_last || handler.class.is_some()
}

/// The first in a handler.
#[cycle(context)]
fn in_handler(
    alloc: Global,
    w: StatementContext,
    is_last: bool,
    handler: &Handler,
) -> Result<Option<Pos>, OutOfMemory>
    ensures { IfOk result (λ at. at ≡ first_pos (unless (is_last || is_present (some_tree (out-Handler handler.now).class)) (out-Handler handler.now).at ++ (in_maybe (some_tree (out-Handler handler.now).class) ++ misplaced (without_yield (where_of w)) (block (out-Handler handler.now).body.value.items)))) }
{
    join(
        unless(may_catch(is_last, handler), handler.at),
        join(
            in_optional(alloc, &handler.class),
            in_block(alloc, without_yield(w), &handler.body),
        ),
    )
}

#[cycle(context)]
fn in_handlers(
    alloc: Global,
    w: StatementContext,
    all: &[Handler],
) -> Result<Option<Pos>, OutOfMemory>
    ensures { IfOk result (λ at. at ≡ first_pos (misplaced_handlers (where_of w) true (handlers all.now))) }
{
    let mut further = all.len();
    for handler in all {
        further -= 1;
        if let Some(at) = in_handler(alloc, w, further == 0, handler)? {
            return Ok(Some(at));
        }
    }
    Ok(None)
}

/// The first in a function.
#[cycle(context)]
fn in_def(
    alloc: Global,
    w: StatementContext,
    at: Pos,
    function: &Function,
) -> Result<Option<Pos>, OutOfMemory>
    ensures { IfOk result (λ first. first ≡ first_pos (unless (not (is_function (where_of w).scope)) at ++ (in_trees (trees (out-Function function.now).decorators.value.items) ++ (in_params (globals_of (block (out-Function function.now).body.value.items)) [] false (parameters (out-Function function.now).params.value.items) ++ (in_maybe (some_tree (out-Function function.now).returns) ++ misplaced in_function (block (out-Function function.now).body.value.items)))))) }
{
    join(
        unless(!is_function(w), at),
        join(
            in_all(alloc, &function.decorators),
            join(
                in_own_params(alloc, function),
                join(
                    in_optional(alloc, &function.returns),
                    in_block(alloc, inside_function(), &function.body),
                ),
            ),
        ),
    )
}

/// The first in a class.
#[cycle(context)]
fn in_class(
    alloc: Global,
    w: StatementContext,
    at: Pos,
    class: &Class,
) -> Result<Option<Pos>, OutOfMemory>
    ensures { IfOk result (λ first. first ≡ first_pos (unless (is_module (where_of w).scope) at ++ (in_trees (trees (out-Class class.now).decorators.value.items) ++ (in_maybe (some_tree (out-Class class.now).base) ++ misplaced in_class (block (out-Class class.now).body.value.items))))) }
{
    join(
        unless(is_module(w), at),
        join(
            in_all(alloc, &class.decorators),
            join(
                in_optional(alloc, &class.base),
                in_block(alloc, inside_class(), &class.body),
            ),
        ),
    )
}

#[cycle(context)]
fn in_stmt(alloc: Global, w: StatementContext, stmt: &Stmt) -> Result<Option<Pos>, OutOfMemory>
    ensures { IfOk result (λ at. at ≡ first_pos (misplaced_in (where_of w) (statement_at stmt.now.at stmt.now.kind))) }
{
    match &stmt.kind {
        StmtKind::Expr(value) => in_part(alloc, value),
        StmtKind::Assign(targets, value) => in_assign(alloc, targets, value),
        StmtKind::AssignYield(targets, given) => in_assign_yield(alloc, w, targets, given),
        StmtKind::AugAssign(single, _, value) => in_aug_assign(alloc, single, value),
        StmtKind::Return(value) => in_return(alloc, w, stmt.at, value),
        StmtKind::ReturnYield(given) => in_return_yield(alloc, w, stmt.at, given),
        StmtKind::Raise(value) => in_optional(alloc, value),
        StmtKind::Assert(condition, message) => in_assert(alloc, condition, message),
        StmtKind::Del(single) => in_single(alloc, single),
        StmtKind::Global(_) => unless(is_function(w), stmt.at),
        StmtKind::Pass => Ok(None),
        StmtKind::Break | StmtKind::Continue => unless(w.in_loop, stmt.at),
        StmtKind::Yield(given) => in_yield(alloc, w, given),
        StmtKind::Import(names, alias) => unless(is_bound(names, alias), stmt.at),
        StmtKind::ImportFrom(_, _) => Ok(None),
        StmtKind::If(all, other) => join(in_branches(alloc, w, all), in_block(alloc, w, other)),
        StmtKind::While(condition, body) => join(
            in_part(alloc, condition),
            in_block(alloc, in_loop_of(w), body),
        ),
        StmtKind::For(target, items, body) => join(
            in_target(alloc, target),
            join(in_part(alloc, items), in_block(alloc, in_loop_of(w), body)),
        ),
        StmtKind::Try(body, all, other, last) => join(
            in_block(alloc, w, body),
            join(
                in_handlers(alloc, w, all),
                join(
                    in_block(alloc, without_yield(w), other),
                    in_block(alloc, without_yield(w), last),
                ),
            ),
        ),
        StmtKind::With(context, _, body) => join(
            in_part(alloc, context),
            in_block(alloc, without_yield(w), body),
        ),
        StmtKind::Def(function) => in_def(alloc, w, stmt.at, function),
        StmtKind::Class(class) => in_class(alloc, w, stmt.at, class),
    }
}

/// The first place of what may not stand where it does, in order of the text.
pub fn first_misplaced(alloc: Global, stmts: &[Stmt]) -> Result<Option<Pos>, OutOfMemory>
    ensures { IfOk result (λ at. at ≡ first_pos (misplaced in_module (block stmts.now))) }
{
    in_stmts(
        alloc,
        StatementContext {
            scope: Scope::Module,
            in_loop: false,
            may_yield: false,
        },
        stmts,
    )
}
