// Trees of expressions as texts: each form in parentheses, with its place and its parts.

use crate::writer::Writer;
use py_source::{Pos, SrcText};
use py_tree::{ArgName, BinOp, CmpOp, Expr, ExprKind, UnOp};
use std::rc::Rc;

/// How a row writes an operator of two operands.
pub fn binary(op: BinOp) -> &'static str {
    match op {
        BinOp::Add => "+",
        BinOp::Sub => "-",
        BinOp::Mul => "*",
        BinOp::FloorDiv => "//",
        BinOp::Mod => "%",
        BinOp::Pow => "**",
        BinOp::LShift => "<<",
        BinOp::RShift => ">>",
        BinOp::BitAnd => "&",
        BinOp::BitOr => "|",
        BinOp::BitXor => "^",
    }
}

fn sign(op: UnOp) -> &'static str {
    match op {
        UnOp::Minus => "-",
        UnOp::Plus => "+",
        UnOp::Invert => "~",
    }
}

fn comparison(op: CmpOp) -> &'static str {
    match op {
        CmpOp::Equal => " ==",
        CmpOp::NotEqual => " !=",
        CmpOp::Less => " <",
        CmpOp::LessEqual => " <=",
        CmpOp::Greater => " >",
        CmpOp::GreaterEqual => " >=",
        CmpOp::In => " in",
        CmpOp::NotIn => " not in",
        CmpOp::Is => " is",
        CmpOp::IsNot => " is not",
    }
}

/// Where something stands: its line and its column.
pub fn place(out: &mut Writer, at: Pos) {
    out.put("@");
    out.put_number(i128::from(at.line));
    out.put(":");
    out.put_number(i128::from(at.column));
}

/// A text in quotes, what a row can't have in it escaped.
pub fn characters(out: &mut Writer, all: &SrcText) {
    for c in all.chars() {
        out.put_char(*c);
    }
}

/// The word of a form with parts; a form without parts is told whole.
fn word(out: &mut Writer, kind: &ExprKind) {
    match kind {
        ExprKind::Name(name) => characters(out, name),
        ExprKind::Number(n) => out.put_number(*n),
        ExprKind::Text(text) => {
            out.put("'");
            characters(out, text);
            out.put("'");
        }
        ExprKind::True => out.put("True"),
        ExprKind::False => out.put("False"),
        ExprKind::None => out.put("None"),
        ExprKind::Paren(_) => out.put("()"),
        ExprKind::Tuple(_) => out.put("tuple"),
        ExprKind::List(_) => out.put("list"),
        ExprKind::Dict(_, _) => out.put("dict"),
        ExprKind::Attribute(_, _) => out.put("."),
        ExprKind::Call(_, _, _) => out.put("call"),
        ExprKind::Subscript(_, _) => out.put("[]"),
        ExprKind::Slice(_, _, _, _) => out.put("[:]"),
        ExprKind::Unary(op, _) => out.put(sign(*op)),
        ExprKind::Binary(_, op, _) => out.put(binary(*op)),
        ExprKind::Compare(_, _, _) => out.put("cmp"),
        ExprKind::Not(_) => out.put("not"),
        ExprKind::And(_, _) => out.put("and"),
        ExprKind::Or(_, _) => out.put("or"),
        ExprKind::IfElse(_, _, _) => out.put("if"),
    }
}

fn has_parts(kind: &ExprKind) -> bool {
    !matches!(
        kind,
        ExprKind::Name(_)
            | ExprKind::Number(_)
            | ExprKind::Text(_)
            | ExprKind::True
            | ExprKind::False
            | ExprKind::None
    )
}

fn begin(out: &mut Writer, at: Pos, kind: &ExprKind) {
    out.put(if has_parts(kind) { " (" } else { " " });
    word(out, kind);
    place(out, at);
}

fn end(out: &mut Writer, kind: &ExprKind) {
    out.put(if has_parts(kind) { ")" } else { "" });
}

fn comparisons(out: &mut Writer, ops: &[CmpOp]) {
    for op in ops {
        out.put(comparison(*op));
    }
}

/// The name of an argument with its place, or `_`.
fn argument(out: &mut Writer, name: &Option<ArgName>) {
    out.put(" ");
    match name {
        Some(given) => {
            characters(out, &given.name);
            place(out, given.at);
        }
        None => out.put("_"),
    }
}

fn arguments(out: &mut Writer, names: &[Option<ArgName>]) {
    out.put(" :");
    for name in names {
        argument(out, name);
    }
}

/// A form at a place, behind a blank.
#[cycle(tree)]
fn form(out: &mut Writer, at: Pos, kind: &ExprKind) {
    begin(out, at, kind);
    parts(out, kind);
    end(out, kind);
}

/// An expression, behind a blank. Parentheses only group, but a tuple with elements begins with those around it.
#[cycle(tree)]
pub fn tree(out: &mut Writer, e: &Expr) {
    match &e.kind {
        ExprKind::Paren(inner) => match &inner.kind {
            ExprKind::Tuple(all) if !all.is_empty() => form(out, e.at, &inner.kind),
            _ => tree(out, inner),
        },
        _ => form(out, e.at, &e.kind),
    }
}

/// Trees one behind another.
#[cycle(tree)]
pub fn trees(out: &mut Writer, all: &[Rc<Expr>]) {
    for e in all {
        tree(out, e);
    }
}

/// A tree, or a sign that there is none.
#[cycle(tree)]
pub fn maybe(out: &mut Writer, e: &Option<Rc<Expr>>) {
    match e {
        Some(e) => tree(out, e),
        None => out.put(" _"),
    }
}

/// The parts of a form, in the order of its fields in CPython's `ast`.
#[cycle(tree)]
fn parts(out: &mut Writer, kind: &ExprKind) {
    match kind {
        ExprKind::Name(_)
        | ExprKind::Number(_)
        | ExprKind::Text(_)
        | ExprKind::True
        | ExprKind::False
        | ExprKind::None => {}
        ExprKind::Paren(inner) | ExprKind::Unary(_, inner) | ExprKind::Not(inner) => {
            tree(out, inner)
        }
        ExprKind::Tuple(all) | ExprKind::List(all) => trees(out, all),
        ExprKind::Dict(keys, values) => {
            trees(out, keys);
            out.put(" :");
            trees(out, values);
        }
        ExprKind::Attribute(of, name) => {
            tree(out, of);
            out.put(" ");
            characters(out, name);
        }
        ExprKind::Call(function, all, names) => {
            tree(out, function);
            trees(out, all);
            arguments(out, names);
        }
        ExprKind::Subscript(left, right) | ExprKind::Binary(left, _, right) => {
            tree(out, left);
            tree(out, right);
        }
        ExprKind::Slice(of, from, to, by) => {
            tree(out, of);
            maybe(out, from);
            maybe(out, to);
            maybe(out, by);
        }
        ExprKind::Compare(first, ops, more) => {
            tree(out, first);
            comparisons(out, ops);
            trees(out, more);
        }
        ExprKind::And(first, more) | ExprKind::Or(first, more) => {
            tree(out, first);
            trees(out, more);
        }
        ExprKind::IfElse(value, condition, other) => {
            tree(out, value);
            tree(out, condition);
            tree(out, other);
        }
    }
}
