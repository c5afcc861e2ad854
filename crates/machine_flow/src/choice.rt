// Choices (Language Reference, the if statement).

ghost use Rattle.std.specs.Prelude.{◌≡◌, ◌+◌, ◌≤◌, ◌∷◌, IfOk, drop};
ghost use Rattle.std.specs.List.{sum_by};
ghost use Rattle.py_core.specs.Blocks.{stmts_in};
ghost use Rattle.py_kinds.specs.Truth.{truth};
ghost use Rattle.py_world.specs.Outcome.{if_true};
ghost use Rattle.py_world.specs.Statements as world;
ghost use Rattle.machine_state.specs.core_meaning.Statements as meaning;
ghost use Rattle.machine_state.specs.core_meaning.Statements.{core_block_body, choice, choices};
ghost use Rattle.machine_state.specs.Places.{ends, outcome};
ghost use Rattle.machine_state.specs.Frames.{layers_of, on_flow, machine_rest, site_now, state_of, todo, Follows};
ghost use Rattle.machine_state.specs.Work.{block_work, branch_work, doing_work, flow_work, stack_work, Falls};

use machine_assign::begin_block;
use machine_immediate::immediate::at_once;
use machine_state::frame::{End, FlowFrame, Frame};
use machine_state::machine::{Machine, NextAction, TurnEnd};
use py_core::{CoreBlock, CoreBranch};
use py_kinds::truth::truth;
use py_values::value::Value;
use seq::OutOfMemory;
use std::rc::Rc;

/// Begins a choice, with no temporary.
pub fn begin_choice(
    m: &mut Machine,
    branches: &Rc<Vec<CoreBranch>>,
    other: &Rc<CoreBlock>,
) -> Result<NextAction, OutOfMemory>
    ensures next { IfOk result (λ d. ends m.new.left (todo d m.new) ≡ ends m.old.left (world.choose (meaning.choices (layers_of m.old.stack.own) branches.now.value.items) (meaning.core_block_body (layers_of m.old.stack.own) other.now.value) (site_now m.old) (state_of m.old) (machine_rest m.old))) }
    ensures left { m.new.left ≤ m.old.left }
{
    m.temps.clear();
    next_branch(m, branches.clone()?, 0, other.clone()?)
}

/// Begins the branch at a place, or the last block where there is none.
#[tactic(auto, using(crate::proofs::Branches::choices_some, crate::proofs::Branches::choices_none, crate::proofs::Branches::branches_weigh))]
fn next_branch(
    m: &mut Machine,
    branches: Rc<Vec<CoreBranch>>,
    at: usize,
    other: Rc<CoreBlock>,
) -> Result<NextAction, OutOfMemory>
    ensures next { IfOk result (λ d. ends m.new.left (todo d m.new) ≡ ends m.old.left (world.branches_on (choices (layers_of m.old.stack.own) (drop at branches.value.items)) (core_block_body (layers_of m.old.stack.own) other.value) (site_now m.old).scene (state_of m.old) (machine_rest m.old))) }
    ensures left { m.new.left ≤ m.old.left }
    ensures work { IfOk result (λ d. doing_work d + stack_work m.new ≤ sum_by branch_work (drop at branches.value.items) + block_work (stmts_in other.value) + stack_work m.old) }
{
    if at >= branches.len() {
        return begin_block(m, other);
    }
    let again = branches.clone()?;
    begin_branch(m, &branches[at], again, at + 1, other)
}

/// Begins a branch, the others from a place on behind it.
#[tactic(auto, using(crate::proofs::Flows::branch_weighs))]
fn begin_branch(
    m: &mut Machine,
    branch: &CoreBranch,
    branches: Rc<Vec<CoreBranch>>,
    next: usize,
    other: Rc<CoreBlock>,
) -> Result<NextAction, OutOfMemory>
    ensures next { IfOk result (λ d. ends m.new.left (todo d m.new) ≡ ends m.old.left (world.branches_on (choice (layers_of m.old.stack.own) branch.now ∷ choices (layers_of m.old.stack.own) (drop next branches.value.items)) (core_block_body (layers_of m.old.stack.own) other.value) (site_now m.old).scene (state_of m.old) (machine_rest m.old))) }
    ensures left { m.new.left ≤ m.old.left }
    ensures work { IfOk result (λ d. doing_work d + stack_work m.new ≤ branch_work branch.now + sum_by branch_work (drop next branches.value.items) + block_work (stmts_in other.value) + stack_work m.old) }
{
    let body = branch.body.clone()?;
    let line = m.here.line;
    m.here.line = branch.at.line;
    match at_once(m, &branch.condition)? {
        Some(there) => {
            m.left = there.left;
            m.here.line = line;
            choose(m, there.value, body, branches, next, other)
        }
        None => {
            let frame = FlowFrame::Branch(body, branches, next, other, line);
            m.stack.push(Frame::Flow(frame))?;
            Ok(NextAction::Evaluate(branch.condition.clone()?))
        }
    }
}

/// Goes on behind the condition of a branch whose value is there; a last block that is empty is over at once.
#[tactic(auto, using(crate::proofs::Branches::choices_none, crate::proofs::Branches::block_empty))]
fn choose(
    m: &mut Machine,
    v: Value,
    body: Rc<CoreBlock>,
    branches: Rc<Vec<CoreBranch>>,
    next: usize,
    other: Rc<CoreBlock>,
) -> Result<NextAction, OutOfMemory>
    ensures next { IfOk result (λ d. todo d m.new ≡ if_true (truth m.old.heap v) (core_block_body (layers_of m.old.stack.own) body.value (site_now m.old).scene (state_of m.old) (machine_rest m.old)) (world.branches_on (choices (layers_of m.old.stack.own) (drop next branches.value.items)) (core_block_body (layers_of m.old.stack.own) other.value) (site_now m.old).scene (state_of m.old) (machine_rest m.old))) }
    ensures left { m.new.left ≡ m.old.left }
    ensures work { IfOk result (λ d. doing_work d + stack_work m.new ≤ block_work (stmts_in body.value) + sum_by branch_work (drop next branches.value.items) + block_work (stmts_in other.value) + 1 + stack_work m.old) }
{
    if truth(&m.heap, v) {
        return begin_block(m, body);
    }
    if next >= branches.len() {
        if other.len() == 0 {
            return Ok(NextAction::Back(End::Next));
        }
        return begin_block(m, other);
    }
    let frame = FlowFrame::Branch(body, branches, next, other, m.here.line);
    m.stack.push(Frame::Flow(frame))?;
    Ok(NextAction::Back(End::Value(v)))
}

/// Goes on behind the value of a branch's condition.
fn take_condition(
    m: &mut Machine,
    body: Rc<CoreBlock>,
    branches: Rc<Vec<CoreBranch>>,
    at: usize,
    other: Rc<CoreBlock>,
    v: Value,
) -> Result<NextAction, OutOfMemory>
    ensures next { IfOk result (λ d. ends m.new.left (todo d m.new) ≡ ends m.old.left (if_true (truth m.old.heap v) (core_block_body (layers_of m.old.stack.own) body.value (site_now m.old).scene (state_of m.old) (machine_rest m.old)) (world.branches_on (choices (layers_of m.old.stack.own) (drop at branches.value.items)) (core_block_body (layers_of m.old.stack.own) other.value) (site_now m.old).scene (state_of m.old) (machine_rest m.old)))) }
    ensures left { m.new.left ≤ m.old.left }
    ensures work { IfOk result (λ d. doing_work d + stack_work m.new ≤ block_work (stmts_in body.value) + sum_by branch_work (drop at branches.value.items) + block_work (stmts_in other.value) + stack_work m.old) }
{
    if truth(&m.heap, v) {
        return begin_block(m, body);
    }
    next_branch(m, branches, at, other)
}

/// Goes on behind the condition of a branch.
pub fn take_branch(
    m: &mut Machine,
    body: Rc<CoreBlock>,
    branches: Rc<Vec<CoreBranch>>,
    at: usize,
    other: Rc<CoreBlock>,
    end: End,
) -> Result<TurnEnd, OutOfMemory>
    ensures next { IfOk result (λ t. Follows t m.new m.old.left (on_flow (FlowFrame.Branch body branches at other 0) (layers_of m.old.stack.own) (site_now m.old) (outcome end (state_of m.old)) (machine_rest m.old))) }
    ensures work { IfOk result (λ t. Falls t m.new m.old.left (flow_work (FlowFrame.Branch body branches at other 0) + stack_work m.old)) }
{
    match end {
        End::Value(v) => Ok(TurnEnd::Go(take_condition(m, body, branches, at, other, v)?)),
        End::Next => Ok(TurnEnd::Go(NextAction::Back(End::Next))),
        End::Returned(v) => Ok(TurnEnd::Go(NextAction::Back(End::Returned(v)))),
        End::Broke => Ok(TurnEnd::Go(NextAction::Back(End::Broke))),
        End::Continued => Ok(TurnEnd::Go(NextAction::Back(End::Continued))),
        End::Raised(e, trace) => Ok(TurnEnd::Go(NextAction::Back(End::Raised(e, trace)))),
    }
}
