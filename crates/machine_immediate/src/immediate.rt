// Values that are there at once: those of expressions that make no object and raise nothing within the steps that are left, and that
// call functions alone whose bodies only choose and return. Each function is lent a value and the steps that are left, puts the value that
// it found there and takes the steps that were paid away, and tells whether it found one; where it didn't, what is there means nothing.

ghost use Rattle.std.specs.Prelude.{◌≡◌, ◌∷◌, [], IfOk, IfSome, Some, drop, take, true};
ghost use Rattle.py_core.specs.Blocks.{stmts_in};
ghost use Rattle.py_ops.specs.Binary.{binary_of};
ghost use Rattle.machine_state.specs.Found.{OnTrue};
ghost use Rattle.machine_state.specs.py_world.Arguments.{arguments_of};
ghost use Rattle.machine_state.specs.py_world.Expressions as world;
ghost use Rattle.machine_state.specs.py_world.Outcome.{operated};
ghost use Rattle.machine_state.specs.py_world.Site.{site};
ghost use Rattle.machine_state.specs.py_world.Statements.{branches_on, return_value};
ghost use Rattle.machine_state.specs.core_meaning.Expressions.{eval};
ghost use Rattle.machine_state.specs.core_meaning.Statements.{begun, block_from, choices, core_block_body};
ghost use Rattle.machine_state.specs.Places.{parts_from};
ghost use Rattle.machine_immediate.specs.AtOnce.{AreBound, BodyEnds, HasValueIn, IsImmediate, IsNameNow, IsRunNow, PartEnds, ended_at, value_of_end};

use crate::named::bound_in;
use crate::opening::callee_at;
use crate::operations::{binary_now, comparison_now, unary_now};
use crate::part::{op_at, temp_in};
use machine_arguments::arguments::bind_defaults;
use machine_arguments::shape::has_names;
use machine_state::code::Code;
use machine_state::locals::Locals;
use machine_state::machine::Machine;
use machine_state::place::{Location, Place};
use py_core::{
    ArgName, BinOp, CmpOp, CoreBlock, CoreBranch, CoreExpr, CoreExprKind, CoreStmt, CoreStmtKind,
    SrcText, UnOp,
};
use py_kinds::truth::truth;
use py_values::rows::Param;
use py_values::value::Value;
use seq::OutOfMemory;
use std::alloc::Global;
use std::rc::Rc;

/// A value that is there at once, and the steps that are left behind it.
#[derive(Clone, Copy)]
pub struct Immediate {
    pub value: Value,
    pub left: u64,
}

/// Where an expression is evaluated: a place with its local names and temporaries, over the objects and functions of a machine.
#[derive(Clone, Copy)]
struct Scope<'s> {
    m: &'s Machine,
    here: &'s Location,
    locals: &'s Locals,
    temps: &'s [Option<Value>],
}

/// How a body ends that is there at once: it is over, or returns the value that was found.
#[derive(Clone, Copy)]
enum BodyEnd {
    Over,
    Returned,
}

/// How deep an expression is looked into for a value that is there at once.
const DEEPEST: u32 = 8;

/// How deep one is looked into with the bodies of the functions that it calls, and with how much room left a call is looked into.
const DEEPEST_WITH_CALLS: u32 = 96;

const LEAST_FOR_CALLS: u32 = 16;

/// In how many open functions one looks into the calls of its expressions. What is looked into in vain is run then, and an expression looks
/// as deep as the bodies of twice as many calls. Each operator and each parenthesis around a call looks into it again.
const LOOKS: usize = 8;

/// The value of an operator between two values, where it is there at once.
pub fn operate_now(
    m: &Machine,
    op: BinOp,
    x: Value,
    y: Value,
    left: u64,
) -> Result<Option<Immediate>, OutOfMemory>
    ensures { IfOk result (λ r. IfSome r (λ d. IsImmediate (operated (binary_of op m.now.heap x y)) left d m.now)) }
{
    let mut found = Immediate { value: y, left };
    if binary_now(m, op, x, &mut found)? {
        return Ok(Some(found));
    }
    Ok(None)
}

/// The value of a name that is bound.
fn name_now(scope: &Scope<'_>, name: &SrcText, found: &mut Immediate) -> Result<bool, OutOfMemory>
    ensures { IfOk result (λ is. OnTrue is (IsNameNow name.now found.old.left found.new scope.now.m.now scope.now.here.now scope.now.locals.now)) }
{
    match bound_in(scope.m.alloc, &scope.m.heap, scope.here, scope.locals, name)? {
        Some(value) => {
            found.value = value;
            Ok(true)
        }
        None => Ok(false),
    }
}

/// A value that is there at no cost.
fn there(found: &mut Immediate, value: Value) -> bool
    ensures is { result ≡ true }
    ensures there { found.new ≡ ended_at value found.old.left }
{
    found.value = value;
    true
}

/// The one part of a list that has no other.
fn only_part(es: &Rc<Vec<Rc<CoreExpr>>>) -> Option<&Rc<CoreExpr>>
    ensures { IfSome result (λ e. parts_from 0 es.now ≡ eval e.now.value ∷ []) }
{
    match es.as_slice() {
        [e] => Some(e),
        _ => None,
    }
}

/// The value of an expression.
#[cycle(value)]
fn find_value(
    scope: &Scope<'_>,
    e: &CoreExpr,
    room: u32,
    found: &mut Immediate,
    spare: &mut Vec<Locals>,
) -> Result<bool, OutOfMemory>
    ensures { IfOk result (λ is. OnTrue is (HasValueIn (eval e.now) found.old.left found.new scope.now.m.now scope.now.here.now scope.now.locals.now scope.now.temps.now)) }
{
    match &e.kind {
        CoreExprKind::Name(name) => name_now(scope, name, found),
        CoreExprKind::Number(n) => Ok(there(found, Value::Int(*n))),
        CoreExprKind::True => Ok(there(found, Value::Bool(true))),
        CoreExprKind::False => Ok(there(found, Value::Bool(false))),
        CoreExprKind::None => Ok(there(found, Value::None)),
        CoreExprKind::Temp(t) => Ok(there(found, temp_in(scope.temps, *t))),
        _ => {
            if room == 0 {
                return Ok(false);
            }
            compound(scope, e, room - 1, found, spare)
        }
    }
}

/// The value of an expression that has parts.
#[cycle(value)]
fn compound(
    scope: &Scope<'_>,
    e: &CoreExpr,
    room: u32,
    found: &mut Immediate,
    spare: &mut Vec<Locals>,
) -> Result<bool, OutOfMemory>
    ensures { IfOk result (λ is. OnTrue is (HasValueIn (eval e.now) found.old.left found.new scope.now.m.now scope.now.here.now scope.now.locals.now scope.now.temps.now)) }
{
    match &e.kind {
        CoreExprKind::Paren(a) => find_value(scope, a, room, found, spare),
        CoreExprKind::Unary(op, a) => unary(scope, *op, a, room, found, spare),
        CoreExprKind::Binary(a, op, b) => binary(scope, a, *op, b, room, found, spare),
        CoreExprKind::Compare(a, ops, es) => { comparison(scope, a, ops, es, room, found, spare) }
        CoreExprKind::Not(a) => negation(scope, a, room, found, spare),
        CoreExprKind::Call(f, es, names) => {
            if room < LEAST_FOR_CALLS {
                return Ok(false);
            }
            call(scope, f, es, names, room, found, spare)
        }
        _ => Ok(false),
    }
}

/// The value of an operator before an operand.
#[cycle(value)]
fn unary(
    scope: &Scope<'_>,
    op: UnOp,
    a: &Rc<CoreExpr>,
    room: u32,
    found: &mut Immediate,
    spare: &mut Vec<Locals>,
) -> Result<bool, OutOfMemory>
    ensures { IfOk result (λ is. OnTrue is (HasValueIn (world.unary_part op (eval a.now.value)) found.old.left found.new scope.now.m.now scope.now.here.now scope.now.locals.now scope.now.temps.now)) }
{
    if !find_value(scope, a, room, found, spare)? {
        return Ok(false);
    }
    unary_now(scope.m, op, found)
}

/// The value of an operator between two operands.
#[cycle(value)]
fn binary(
    scope: &Scope<'_>,
    a: &Rc<CoreExpr>,
    op: BinOp,
    b: &Rc<CoreExpr>,
    room: u32,
    found: &mut Immediate,
    spare: &mut Vec<Locals>,
) -> Result<bool, OutOfMemory>
    ensures { IfOk result (λ is. OnTrue is (HasValueIn (world.binary_part (eval a.now.value) op (eval b.now.value)) found.old.left found.new scope.now.m.now scope.now.here.now scope.now.locals.now scope.now.temps.now)) }
{
    if !find_value(scope, a, room, found, spare)? {
        return Ok(false);
    }
    let x = found.value;
    if !find_value(scope, b, room, found, spare)? {
        return Ok(false);
    }
    binary_now(scope.m, op, x, found)
}

/// The value of a comparison that is no chain.
#[cycle(value)]
fn comparison(
    scope: &Scope<'_>,
    a: &Rc<CoreExpr>,
    ops: &Rc<Vec<CmpOp>>,
    es: &Rc<Vec<Rc<CoreExpr>>>,
    room: u32,
    found: &mut Immediate,
    spare: &mut Vec<Locals>,
) -> Result<bool, OutOfMemory>
    ensures { IfOk result (λ is. OnTrue is (HasValueIn (world.compare_part (eval a.now.value) ops.now.value.items (parts_from 0 es.now)) found.old.left found.new scope.now.m.now scope.now.here.now scope.now.locals.now scope.now.temps.now)) }
{
    let Some(b) = only_part(es) else {
        return Ok(false);
    };
    let Some(op) = op_at(ops, 0) else {
        return Ok(false);
    };
    if !find_value(scope, a, room, found, spare)? {
        return Ok(false);
    }
    let x = found.value;
    if !find_value(scope, b, room, found, spare)? {
        return Ok(false);
    }
    comparison_now(scope.m, op, x, found)
}

/// The value of a negation.
#[cycle(value)]
fn negation(
    scope: &Scope<'_>,
    a: &Rc<CoreExpr>,
    room: u32,
    found: &mut Immediate,
    spare: &mut Vec<Locals>,
) -> Result<bool, OutOfMemory>
    ensures { IfOk result (λ is. OnTrue is (HasValueIn (world.not_part (eval a.now.value)) found.old.left found.new scope.now.m.now scope.now.here.now scope.now.locals.now scope.now.temps.now)) }
{
    if !find_value(scope, a, room, found, spare)? {
        return Ok(false);
    }
    found.value = Value::Bool(!truth(&scope.m.heap, found.value));
    Ok(true)
}

/// Binds the parameters from a place on: each to the value of its argument, or to its default behind the last argument.
#[cycle(value)]
fn bind_arguments(
    scope: &Scope<'_>,
    es: &Rc<Vec<Rc<CoreExpr>>>,
    params: &[Param],
    at: usize,
    bound: &mut Locals,
    room: u32,
    found: &mut Immediate,
    spare: &mut Vec<Locals>,
) -> Result<bool, OutOfMemory>
    ensures { IfOk result (λ is. OnTrue is (AreBound (parts_from at es.now) (drop at params.now) (take at bound.old) bound.new found.old.left found.new.left scope.now.m.now scope.now.here.now scope.now.locals.now scope.now.temps.now)) }
{
    if at >= es.len() {
        return bind_defaults(params, at, bound);
    }
    if at >= params.len() || room == 0 {
        return Ok(false);
    }
    if !find_value(scope, &es[at], room - 1, found, spare)? {
        return Ok(false);
    }
    if !bound.rebind(at, &params[at].name, found.value)? {
        return Ok(false);
    }
    bind_arguments(scope, es, params, at + 1, bound, room - 1, found, spare)
}

/// Local names that are used no more, where there are some.
fn reused(alloc: Global, spare: &mut Vec<Locals>) -> Locals {
    match spare.pop() {
        Some(names) => names,
        None => Locals::new(alloc),
    }
}

/// The value of a call whose arguments have no names.
#[cycle(value)]
fn call(
    scope: &Scope<'_>,
    f: &Rc<CoreExpr>,
    es: &Rc<Vec<Rc<CoreExpr>>>,
    names: &Rc<Vec<Option<ArgName>>>,
    room: u32,
    found: &mut Immediate,
    spare: &mut Vec<Locals>,
) -> Result<bool, OutOfMemory>
    ensures { IfOk result (λ is. OnTrue is (HasValueIn (world.call_part (eval f.now.value) (arguments_of names.now.value.items) (parts_from 0 es.now)) found.old.left found.new scope.now.m.now scope.now.here.now scope.now.locals.now scope.now.temps.now)) }
{
    if has_names(names) || !find_value(scope, f, room, found, spare)? {
        return Ok(false);
    }
    let Some((function, code, around)) = callee_at(scope.m, scope.here, found.value) else {
        return Ok(false);
    };
    let mut bound = reused(scope.m.alloc, spare);
    let params = function.params.items();
    if !bind_arguments(scope, es, params, 0, &mut bound, room, found, spare)? {
        return Ok(false);
    }
    let is = run_code(scope.m, code, around, &bound, room, found, spare)?;
    spare.push(bound)?;
    Ok(is)
}

/// The value that a call of a code gives with these local names, where this many functions are open around it, whose step is paid first.
#[cycle(value)]
fn run_code(
    m: &Machine,
    code: &Code,
    around: usize,
    bound: &Locals,
    room: u32,
    found: &mut Immediate,
    spare: &mut Vec<Locals>,
) -> Result<bool, OutOfMemory>
    ensures { IfOk result (λ is. OnTrue is (IsRunNow code.now around bound.now found.old.left found.new m.now)) }
{
    if found.left == 0 || room == 0 {
        return Ok(false);
    }
    found.left -= 1;
    let here = Location {
        place: Place::Function(code.share()?),
        around,
        line: 0,
    };
    let scope = Scope {
        m,
        here: &here,
        locals: bound,
        temps: &[],
    };
    match block_end(&scope, code.block(), 0, room - 1, found, spare)? {
        Some(BodyEnd::Returned) => Ok(true),
        Some(BodyEnd::Over) => {
            found.value = Value::None;
            Ok(true)
        }
        None => Ok(false),
    }
}

/// The end of a block from a statement on.
#[cycle(value)]
fn block_end(
    scope: &Scope<'_>,
    b: &CoreBlock,
    at: usize,
    room: u32,
    found: &mut Immediate,
    spare: &mut Vec<Locals>,
) -> Result<Option<BodyEnd>, OutOfMemory>
    requires { scope.now.temps.now ≡ [] }
    ensures { IfOk result (λ r. IfSome r (λ end. BodyEnds (λ ls. block_from ls b.now at (drop at (stmts_in b.now))) found.old.left (value_of_end end found.new.value) found.new.left scope.now.m.now scope.now.here.now scope.now.locals.now)) }
{
    if at >= b.len() {
        return Ok(Some(BodyEnd::Over));
    }
    if room == 0 {
        return Ok(None);
    }
    match statement_end(scope, b.stmt(at), room - 1, found, spare)? {
        Some(BodyEnd::Over) => block_end(scope, b, at + 1, room - 1, found, spare),
        Some(BodyEnd::Returned) => Ok(Some(BodyEnd::Returned)),
        None => Ok(None),
    }
}

/// The end of a statement, whose step is paid: a choice, or a return.
#[cycle(value)]
fn statement_end(
    scope: &Scope<'_>,
    statement: &CoreStmt,
    room: u32,
    found: &mut Immediate,
    spare: &mut Vec<Locals>,
) -> Result<Option<BodyEnd>, OutOfMemory>
    requires { scope.now.temps.now ≡ [] }
    ensures { IfOk result (λ r. IfSome r (λ end. BodyEnds (λ ls scene. begun ls statement.now (site scene statement.now.at.line)) found.old.left (value_of_end end found.new.value) found.new.left scope.now.m.now scope.now.here.now scope.now.locals.now)) }
{
    if found.left == 0 {
        return Ok(None);
    }
    found.left -= 1;
    match &statement.kind {
        CoreStmtKind::Return(value) => match value {
            Some(e) => return_end(scope, e, room, found, spare),
            None => Ok(None),
        },
        CoreStmtKind::If(branches, other) => {
            choice_end(scope, branches, 0, other, room, found, spare)
        }
        _ => Ok(None),
    }
}

/// The end of a return of a value.
#[cycle(value)]
fn return_end(
    scope: &Scope<'_>,
    e: &Rc<CoreExpr>,
    room: u32,
    found: &mut Immediate,
    spare: &mut Vec<Locals>,
) -> Result<Option<BodyEnd>, OutOfMemory>
    requires { scope.now.temps.now ≡ [] }
    ensures { IfOk result (λ r. IfSome r (λ end. PartEnds (return_value (Some (eval e.now.value))) found.old.left (value_of_end end found.new.value) found.new.left scope.now.m.now scope.now.here.now scope.now.locals.now)) }
{
    if find_value(scope, e, room, found, spare)? {
        Ok(Some(BodyEnd::Returned))
    } else {
        Ok(None)
    }
}

/// The end of a choice from a branch on.
#[cycle(value)]
fn choice_end(
    scope: &Scope<'_>,
    branches: &Rc<Vec<CoreBranch>>,
    at: usize,
    other: &Rc<CoreBlock>,
    room: u32,
    found: &mut Immediate,
    spare: &mut Vec<Locals>,
) -> Result<Option<BodyEnd>, OutOfMemory>
    requires { scope.now.temps.now ≡ [] }
    ensures { IfOk result (λ r. IfSome r (λ end. BodyEnds (λ ls. branches_on (choices ls (drop at branches.now.value.items)) (core_block_body ls other.now.value)) found.old.left (value_of_end end found.new.value) found.new.left scope.now.m.now scope.now.here.now scope.now.locals.now)) }
{
    if at >= branches.len() {
        return block_end(scope, other, 0, room, found, spare);
    }
    if room == 0 {
        return Ok(None);
    }
    let branch = &branches[at];
    if !find_value(scope, &branch.condition, room - 1, found, spare)? {
        return Ok(None);
    }
    if truth(&scope.m.heap, found.value) {
        return block_end(scope, &branch.body, 0, room - 1, found, spare);
    }
    choice_end(scope, branches, at + 1, other, room - 1, found, spare)
}

fn is_call(e: &CoreExpr) -> bool {
    match &e.kind {
        CoreExprKind::Call(_, _, _) => true,
        _ => false,
    }
}

/// The value of an operand, where it is there at once and no call, which was looked into with what it is an operand of.
pub fn at_once_unless_call(m: &Machine, e: &CoreExpr) -> Result<Option<Immediate>, OutOfMemory>
    ensures { IfOk result (λ r. IfSome r (λ d. IsImmediate (eval e.now) m.now.left d m.now)) }
{
    if is_call(e) { Ok(None) } else { at_once(m, e) }
}

/// How deep the expressions of a function are looked into, around which so many are open.
fn room_for(around: usize) -> u32 {
    if around % LOOKS == LOOKS - 1 {
        DEEPEST_WITH_CALLS
    } else {
        DEEPEST
    }
}

/// The value of an expression, where it is there at once, and the steps that are left behind it.
pub fn at_once(m: &Machine, e: &CoreExpr) -> Result<Option<Immediate>, OutOfMemory>
    ensures { IfOk result (λ r. IfSome r (λ d. IsImmediate (eval e.now) m.now.left d m.now)) }
{
    let room = room_for(m.here.around);
    let scope = Scope {
        m,
        here: &m.here,
        locals: &m.locals,
        temps: &m.temps,
    };
    let mut found = Immediate {
        value: Value::None,
        left: m.left,
    };
    let mut spare = Vec::new(m.alloc);
    if find_value(&scope, e, room, &mut found, &mut spare)? {
        return Ok(Some(found));
    }
    Ok(None)
}
