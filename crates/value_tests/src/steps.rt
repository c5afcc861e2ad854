// What has a cost, run with all steps, with its own, and with one fewer.

use crate::calls::{Call, call_by};
use crate::items::{ItemAct, item_act_by};
use crate::operators::{Operator, operator_by};
use crate::spelled::{MemoryResult, Operands, copied};
use crate::{calls, items, operators};
use std::alloc::Global;

/// What has a cost.
#[derive(Clone, Copy)]
pub enum Act {
    Operator(Operator),
    Item(ItemAct),
    Call(Call),
}

/// What has a cost, by its word and what stands behind it.
pub fn act_by(alloc: Global, word: &str, rest: &str) -> MemoryResult<Option<Act>> {
    if let Some(op) = operator_by(word, rest) {
        return Ok(Some(Act::Operator(op)));
    }
    if let Some(act) = item_act_by(word) {
        return Ok(Some(Act::Item(act)));
    }
    match call_by(alloc, word)? {
        Some(call) => Ok(Some(Act::Call(call))),
        None => Ok(None),
    }
}

/// What is told of an act on operands within a budget, and its steps.
fn told_on(
    alloc: Global,
    on: &mut Operands,
    act: Act,
    named: &str,
    budget: u64,
) -> MemoryResult<(String, u64)> {
    match act {
        Act::Operator(op) => operators::told(alloc, on, op, budget),
        Act::Item(act) => items::told(alloc, on, act, budget),
        Act::Call(call) => calls::told(alloc, on, call, named, budget),
    }
}

fn told_within(
    alloc: Global,
    act: Act,
    named: &str,
    operands: &str,
    budget: u64,
) -> MemoryResult<(String, u64)> {
    let mut on = Operands::of(alloc, operands)?;
    told_on(alloc, &mut on, act, named, budget)
}

/// What an act gives, of a call with its named arguments, or what is wrong with its steps.
pub fn told(alloc: Global, act: Act, named: &str, operands: &str) -> MemoryResult<String> {
    let (text, cost) = told_within(alloc, act, named, operands, u64::MAX)?;
    let (again, _) = told_within(alloc, act, named, operands, cost)?;
    if again.as_str() != text.as_str() {
        return copied(alloc, "another end with its own steps");
    }
    if cost > 0 {
        let (short, _) = told_within(alloc, act, named, operands, cost - 1)?;
        if !short.as_str().starts_with("exhausted") {
            return copied(alloc, "not exhausted with a step fewer");
        }
    }
    Ok(text)
}
