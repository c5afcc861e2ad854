// Trees of statements as texts: each in parentheses, with its place and its parts.

use crate::told::{binary, characters, maybe, place, tree, trees};
use crate::writer::Writer;
use py_source::{Pos, SrcText};
use py_tree::{
    Alias, Branch, Expr, Handler, Param, Single, SingleKind, Stmt, StmtKind, Target, Yield,
};
use std::rc::Rc;

/// A word behind a parenthesis, and where it stands.
fn begin(out: &mut Writer, word: &str, at: Pos) {
    out.put(" (");
    out.put(word);
    place(out, at);
}

/// The word of a form; an expression and a `yield` that stand alone have the same.
fn word(kind: &StmtKind) -> &'static str {
    match kind {
        StmtKind::Expr(_) | StmtKind::Yield(_) => "do",
        StmtKind::Assign(_, _) | StmtKind::AssignYield(_, _) => "assign",
        StmtKind::AugAssign(_, _, _) => "change",
        StmtKind::Return(_) | StmtKind::ReturnYield(_) => "return",
        StmtKind::Raise(_) => "raise",
        StmtKind::Assert(_, _) => "assert",
        StmtKind::Del(_) => "del",
        StmtKind::Global(_) => "global",
        StmtKind::Pass => "pass",
        StmtKind::Break => "break",
        StmtKind::Continue => "continue",
        StmtKind::Import(_, _) => "import",
        StmtKind::ImportFrom(_, _) => "from",
        StmtKind::If(_, _) => "choose",
        StmtKind::While(_, _) => "while",
        StmtKind::For(_, _, _) => "for",
        StmtKind::Try(_, _, _, _) => "try",
        StmtKind::With(_, _, _) => "with",
        StmtKind::Def(_) => "def",
        StmtKind::Class(_) => "class",
    }
}

fn name(out: &mut Writer, name: &SrcText) {
    out.put(" ");
    characters(out, name);
}

fn names(out: &mut Writer, all: &[SrcText]) {
    for one in all {
        name(out, one);
    }
}

/// A name, or `_` where there is none.
fn maybe_name(out: &mut Writer, given: &Option<SrcText>) {
    match given {
        Some(given) => name(out, given),
        None => out.put(" _"),
    }
}

fn aliases(out: &mut Writer, all: &[Alias]) {
    for one in all {
        out.put(" (");
        characters(out, &one.name);
        place(out, one.at);
        maybe_name(out, &one.alias);
        out.put(")");
    }
}

fn params(out: &mut Writer, all: &[Param]) {
    for one in all {
        out.put(" (");
        characters(out, &one.name);
        place(out, one.at);
        maybe(out, &one.annotation);
        maybe(out, &one.default);
        out.put(")");
    }
}

/// What takes one value, as the expression that it is.
fn single(out: &mut Writer, s: &Single) {
    match &s.kind {
        SingleKind::Name(n) => {
            name(out, n);
            place(out, s.at);
        }
        SingleKind::Attribute(of, n) => {
            begin(out, ".", s.at);
            tree(out, of);
            name(out, n);
            out.put(")");
        }
        SingleKind::Subscript(of, index) => {
            begin(out, "[]", s.at);
            tree(out, of);
            tree(out, index);
            out.put(")");
        }
    }
}

fn singles(out: &mut Writer, all: &[Single]) {
    for s in all {
        single(out, s);
    }
}

fn target(out: &mut Writer, t: &Target) {
    match t {
        Target::Single(s) => single(out, s),
        Target::Unpack(all) => {
            out.put(" (,");
            singles(out, all);
            out.put(")");
        }
    }
}

fn targets(out: &mut Writer, all: &[Target]) {
    for t in all {
        target(out, t);
    }
}

fn yielded(out: &mut Writer, y: &Yield) {
    begin(out, "yield", y.at);
    maybe(out, &y.value);
    out.put(")");
}

/// What a definition begins with: where its word stands, its decorators, and its name.
fn definition(out: &mut Writer, at: Pos, decorators: &[Rc<Expr>], defined: &SrcText) {
    place(out, at);
    out.put(" (@");
    trees(out, decorators);
    out.put(")");
    name(out, defined);
}

#[cycle(block)]
fn branches(out: &mut Writer, all: &[Branch]) {
    for one in all {
        begin(out, "if", one.at);
        tree(out, &one.condition);
        block(out, &one.body);
        out.put(")");
    }
}

#[cycle(block)]
fn handlers(out: &mut Writer, all: &[Handler]) {
    for one in all {
        begin(out, "except", one.at);
        maybe(out, &one.class);
        maybe_name(out, &one.name);
        block(out, &one.body);
        out.put(")");
    }
}

/// The parts of a statement, in the order of the text.
#[cycle(block)]
fn parts(out: &mut Writer, kind: &StmtKind) {
    match kind {
        StmtKind::Expr(e) => tree(out, e),
        StmtKind::Yield(y) | StmtKind::ReturnYield(y) => yielded(out, y),
        StmtKind::Assign(all, e) => {
            targets(out, all);
            tree(out, e);
        }
        StmtKind::AssignYield(all, y) => {
            targets(out, all);
            yielded(out, y);
        }
        StmtKind::AugAssign(s, op, e) => {
            single(out, s);
            out.put(" ");
            out.put(binary(*op));
            out.put("=");
            tree(out, e);
        }
        StmtKind::Return(e) | StmtKind::Raise(e) => maybe(out, e),
        StmtKind::Assert(e, message) => {
            tree(out, e);
            maybe(out, message);
        }
        StmtKind::Del(s) => single(out, s),
        StmtKind::Global(all) => names(out, all),
        StmtKind::Pass | StmtKind::Break | StmtKind::Continue => {}
        StmtKind::Import(of, alias) => {
            names(out, of);
            maybe_name(out, alias);
        }
        StmtKind::ImportFrom(of, all) => {
            names(out, of);
            aliases(out, all);
        }
        StmtKind::If(all, other) => {
            branches(out, all);
            block(out, other);
        }
        StmtKind::While(e, body) => {
            tree(out, e);
            block(out, body);
        }
        StmtKind::For(t, e, body) => {
            target(out, t);
            tree(out, e);
            block(out, body);
        }
        StmtKind::Try(body, all, other, last) => {
            block(out, body);
            handlers(out, all);
            block(out, other);
            block(out, last);
        }
        StmtKind::With(e, alias, body) => {
            tree(out, e);
            maybe_name(out, alias);
            block(out, body);
        }
        StmtKind::Def(f) => {
            definition(out, f.at, &f.decorators, &f.name);
            params(out, &f.params);
            maybe(out, &f.returns);
            block(out, &f.body);
        }
        StmtKind::Class(c) => {
            definition(out, c.at, &c.decorators, &c.name);
            maybe(out, &c.base);
            block(out, &c.body);
        }
    }
}

/// Statements, each behind a blank.
#[cycle(block)]
pub fn statements(out: &mut Writer, all: &[Stmt]) {
    for s in all {
        begin(out, word(&s.kind), s.at);
        parts(out, &s.kind);
        out.put(")");
    }
}

#[cycle(block)]
fn block(out: &mut Writer, body: &Rc<Vec<Stmt>>) {
    out.put(" {");
    statements(out, body);
    out.put("}");
}
