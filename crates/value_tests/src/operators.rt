// Rows on operators.

use crate::shown::{cost, ended, repr_told};
use crate::spelled::{MemoryResult, Operands};
use py_ops::binary::{augmented, binary, binary_text};
use py_ops::compare::{compare, compare_text};
use py_ops::unary::{unary, unary_text};
use py_tree::{BinOp, CmpOp, UnOp};
use py_values::end::OpEnd;
use std::alloc::Global;

const BINARY: [BinOp; 11] = [
    BinOp::Add,
    BinOp::Sub,
    BinOp::Mul,
    BinOp::FloorDiv,
    BinOp::Mod,
    BinOp::Pow,
    BinOp::LShift,
    BinOp::RShift,
    BinOp::BitAnd,
    BinOp::BitOr,
    BinOp::BitXor,
];

const COMPARE: [CmpOp; 10] = [
    CmpOp::Equal,
    CmpOp::NotEqual,
    CmpOp::Less,
    CmpOp::LessEqual,
    CmpOp::Greater,
    CmpOp::GreaterEqual,
    CmpOp::In,
    CmpOp::NotIn,
    CmpOp::Is,
    CmpOp::IsNot,
];

const UNARY: [UnOp; 3] = [UnOp::Minus, UnOp::Plus, UnOp::Invert];

/// An operator.
#[derive(Clone, Copy)]
pub enum Operator {
    Binary(BinOp),
    Augmented(BinOp),
    Compare(CmpOp),
    Unary(UnOp),
}

fn binary_by(text: &str) -> Option<BinOp> {
    for op in &BINARY {
        if binary_text(*op) == text {
            return Some(*op);
        }
    }
    None
}

fn compare_by(text: &str) -> Option<CmpOp> {
    for op in &COMPARE {
        if compare_text(*op) == text {
            return Some(*op);
        }
    }
    None
}

fn unary_by(text: &str) -> Option<UnOp> {
    for op in &UNARY {
        if unary_text(*op) == text {
            return Some(*op);
        }
    }
    None
}

/// The operator of a row: `binary`, `augmented`, `compare` or `unary`, and its text.
pub fn operator_by(word: &str, text: &str) -> Option<Operator> {
    match word {
        "binary" => Some(Operator::Binary(binary_by(text)?)),
        "augmented" => Some(Operator::Augmented(binary_by(text)?)),
        "compare" => Some(Operator::Compare(compare_by(text)?)),
        "unary" => Some(Operator::Unary(unary_by(text)?)),
        _ => None,
    }
}

/// How an operator ends on its operands.
fn applied(alloc: Global, on: &mut Operands, op: Operator, budget: u64) -> MemoryResult<OpEnd> {
    let (a, b) = (on.at(0), on.at(1));
    match op {
        Operator::Binary(op) => binary(alloc, &mut on.heap, op, a, b, budget),
        Operator::Augmented(op) => augmented(alloc, &mut on.heap, op, a, b, budget),
        Operator::Compare(op) => compare(alloc, &mut on.heap, op, a, b, budget),
        Operator::Unary(op) => unary(alloc, &mut on.heap, op, a, budget),
    }
}

/// What is told of an operator's end, of an augmented one the left operand behind it first; and its steps.
fn told_of(alloc: Global, on: &Operands, op: Operator, end: &OpEnd) -> MemoryResult<(String, u64)> {
    let text = ended(alloc, &on.heap, end)?;
    match (op, end) {
        (Operator::Augmented(_), OpEnd::Value(_, _) | OpEnd::Raised(_, _)) => {
            let left = repr_told(alloc, &on.heap, on.at(0))?;
            Ok((format!(in alloc; "{left} {text}")?, cost(end)))
        }
        _ => Ok((text, cost(end))),
    }
}

/// What is told of an operator within a budget, and its steps.
pub fn told(
    alloc: Global,
    on: &mut Operands,
    op: Operator,
    budget: u64,
) -> MemoryResult<(String, u64)> {
    let end = applied(alloc, on, op, budget)?;
    told_of(alloc, on, op, &end)
}
