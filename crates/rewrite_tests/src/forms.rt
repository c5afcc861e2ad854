use assert_rewrite::lower;
use file_source::source_of;
use py_core::{Core, CoreBlock, CoreStmtKind, CoreUse};
use py_source::Pos;
use seq::OutOfMemory;
use std::alloc::Global;

// Where nothing stands.
const NOWHERE: Pos = Pos { line: 0, column: 0 };

// Whether asserts are explained, a source, and the form of the core of its first statement.
const ROWS: [(bool, &str, &str); 13] = [
    (true, "assert a < b, m\n", "if"),
    (false, "assert a < b, m\n", "if"),
    (false, "raise\n", "raise"),
    (false, "del a[b:][c]\n", "del"),
    (false, "import a as b\n", "import"),
    (false, "from a import b as c\n", "from"),
    (
        false,
        "if a:\n    pass\nelif b:\n    g = x = -1\nelse:\n    pass\n",
        "if",
    ),
    (
        false,
        "while f(a):\n    (b and c) if d else not e\n    break\n",
        "while",
    ),
    (
        false,
        "@d\ndef f(p, q: r = s) -> t:\n    global g\n    x += p - 2\n    return x or p\n",
        "def",
    ),
    (
        false,
        "for a, b in ((c,), [d]):\n    e.f\n    continue\n",
        "for",
    ),
    (
        false,
        "try:\n    pass\nexcept a as b:\n    raise\nelse:\n    pass\nfinally:\n    {c: d}\n",
        "try",
    ),
    (false, "with a as b:\n    c[d] = e\n", "with"),
    (false, "@d\nclass c(b):\n    k = f(a, k=v)\n", "class"),
];

// A function, and the form of the core of the first statement in it.
const IN_FUNCTIONS: [(&str, &str); 5] = [
    ("def f():\n    return x or p\n", "return"),
    ("def f():\n    global g\n", "global"),
    ("def f():\n    yield a\n", "yield"),
    ("def f():\n    b = yield a\n", "assign yield"),
    ("def f():\n    return (yield a)\n", "return yield"),
];

// What is done with the value that a `yield` is given.
fn use_of(used: &CoreUse) -> &'static str {
    match used {
        CoreUse::NoUse => "yield",
        CoreUse::Targets(..) => "assign yield",
        CoreUse::Return => "return yield",
    }
}

// The form of a statement of core code.
fn form_of(kind: &CoreStmtKind) -> &'static str {
    match kind {
        CoreStmtKind::If(..) => "if",
        CoreStmtKind::While(..) => "while",
        CoreStmtKind::Def(..) => "def",
        CoreStmtKind::Class(..) => "class",
        CoreStmtKind::Import(..) => "import",
        CoreStmtKind::ImportFrom(..) => "from",
        CoreStmtKind::Return(_) => "return",
        CoreStmtKind::Global(_) => "global",
        CoreStmtKind::Raise(_) => "raise",
        CoreStmtKind::Del(_) => "del",
        CoreStmtKind::For(..) => "for",
        CoreStmtKind::Try(..) => "try",
        CoreStmtKind::With(..) => "with",
        CoreStmtKind::Yield(_, used) => use_of(used),
        _ => "other",
    }
}

// The form of a block's first statement, and its place.
fn first_of(block: &CoreBlock) -> (&'static str, Pos) {
    if block.len() == 0 {
        return ("none", NOWHERE);
    }
    let stmt = block.stmt(0);
    (form_of(&stmt.kind), stmt.at)
}

// The form of the first statement of a function at a block's front, and its place.
fn first_in_function(block: &CoreBlock) -> (&'static str, Pos) {
    if block.len() == 0 {
        return ("none", NOWHERE);
    }
    match &block.stmt(0).kind {
        CoreStmtKind::Def(_, _, function) => first_of(&function.body),
        _ => ("no function", NOWHERE),
    }
}

// The core of a source, where it has a tree.
fn core_of(alloc: Global, explains: bool, text: &str) -> Result<Option<Core>, OutOfMemory> {
    match source_of(alloc, text.as_bytes())? {
        Ok(module) => Ok(Some(lower(alloc, explains, &module)?)),
        Err(_) => Ok(None),
    }
}

// The form of the core of a source's first statement, and its place.
fn lowered(alloc: Global, explains: bool, text: &str) -> Result<(&'static str, Pos), OutOfMemory> {
    match core_of(alloc, explains, text)? {
        Some(core) => Ok(first_of(&core.body)),
        None => Ok(("no tree", NOWHERE)),
    }
}

// The form of the core of the first statement in a function, and its place.
fn lowered_in_function(alloc: Global, text: &str) -> Result<(&'static str, Pos), OutOfMemory> {
    match core_of(alloc, false, text)? {
        Some(core) => Ok(first_in_function(&core.body)),
        None => Ok(("no tree", NOWHERE)),
    }
}

#[test]
fn core_code_comes_for_each_form_of_statement(rt: HostRuntime) {
    let alloc = rt.alloc();
    for (explains, text, form) in &ROWS {
        assert_eq!(rt;
            lowered(alloc, *explains, text),
            Ok((*form, Pos { line: 1, column: 1 }))
        );
    }
    for (text, form) in &IN_FUNCTIONS {
        assert_eq!(rt;
            lowered_in_function(alloc, text),
            Ok((*form, Pos { line: 2, column: 5 }))
        );
    }
}
