use py_tree::{
    Bindings, Branch, Expr, ExprKind, Param, Pos, Single, SingleKind, SrcText, Stmt, StmtKind,
    Target, Yield, bindings_of,
};
use seq::OutOfMemory;
use std::alloc::{AllocError, Global};
use std::rc::Rc;

const AT: Pos = Pos { line: 1, column: 1 };

fn text(alloc: Global, name: char) -> Result<SrcText, OutOfMemory> {
    SrcText::from_chars(alloc, &[name])
}

fn number(alloc: Global) -> Result<Rc<Expr>, OutOfMemory> {
    let kind = ExprKind::Number(1);
    Ok(Rc::new(alloc, Expr { at: AT, kind })?)
}

fn single(alloc: Global, name: char) -> Result<Single, OutOfMemory> {
    let kind = SingleKind::Name(text(alloc, name)?);
    Ok(Single { at: AT, kind })
}

/// A list of one.
fn one<T: Drop>(alloc: Global, item: T) -> Result<Rc<Vec<T>>, OutOfMemory> {
    let mut all = Vec::new(alloc);
    all.push(item)?;
    Ok(Rc::new(alloc, all)?)
}

fn block(alloc: Global, kind: StmtKind) -> Result<Rc<Vec<Stmt>>, OutOfMemory> {
    one(alloc, Stmt { at: AT, kind })
}

/// `global g`
fn declaration(alloc: Global) -> Result<StmtKind, OutOfMemory> {
    let name = text(alloc, 'g')?;
    Ok(StmtKind::Global(one(alloc, name)?))
}

/// `name = 1`
fn assignment(alloc: Global, name: char) -> Result<StmtKind, OutOfMemory> {
    let target = Target::Single(single(alloc, name)?);
    let targets = one(alloc, target)?;
    Ok(StmtKind::Assign(targets, number(alloc)?))
}

/// The block `name = 1`
fn assigned(alloc: Global, name: char) -> Result<Rc<Vec<Stmt>>, OutOfMemory> {
    block(alloc, assignment(alloc, name)?)
}

/// `if 1: a = 1`
fn branches(alloc: Global) -> Result<Rc<Vec<Branch>>, OutOfMemory> {
    let condition = number(alloc)?;
    let body = assigned(alloc, 'a')?;
    one(
        alloc,
        Branch {
            at: AT,
            condition,
            body,
        },
    )
}

/// `if 1: a = 1`, `else: del b`
fn choice(alloc: Global) -> Result<StmtKind, OutOfMemory> {
    let all = branches(alloc)?;
    let other = block(alloc, StmtKind::Del(single(alloc, 'b')?))?;
    Ok(StmtKind::If(all, other))
}

/// `yield`
fn pause() -> StmtKind {
    StmtKind::Yield(Yield {
        at: AT,
        value: None,
    })
}

/// `for c in 1: p = 1`
fn turns(alloc: Global) -> Result<StmtKind, OutOfMemory> {
    let target = Target::Single(single(alloc, 'c')?);
    let items = number(alloc)?;
    Ok(StmtKind::For(target, items, assigned(alloc, 'p')?))
}

/// A statement of the body, by its place.
fn statement(alloc: Global, place: u32) -> Result<StmtKind, OutOfMemory> {
    match place {
        0 => declaration(alloc),
        1 => assignment(alloc, 'g'),
        2 => choice(alloc),
        3 => Ok(pause()),
        _ => turns(alloc),
    }
}

fn body(alloc: Global) -> Result<Vec<Stmt>, OutOfMemory> {
    let mut stmts = Vec::new(alloc);
    for place in 0..5 {
        let kind = statement(alloc, place)?;
        stmts.push(Stmt { at: AT, kind })?;
    }
    Ok(stmts)
}

/// `p`
fn params(alloc: Global) -> Result<Rc<Vec<Param>>, OutOfMemory> {
    let name = text(alloc, 'p')?;
    one(
        alloc,
        Param {
            at: AT,
            name,
            annotation: None,
            default: None,
        },
    )
}

fn bindings(alloc: Global) -> Result<Bindings, OutOfMemory> {
    let params = params(alloc)?;
    let body = body(alloc)?;
    bindings_of(alloc, &params, &body)
}

/// The local names, the global ones, and whether the function yields.
fn told(alloc: Global) -> Result<String, AllocError> {
    match bindings(alloc) {
        Ok(names) => format!(in alloc;
            "{:?} {:?} {}",
            names.locals.items(),
            names.globals.items(),
            names.yields
        ),
        Err(_) => Err(AllocError),
    }
}

#[test]
fn a_function_has_its_names(rt: HostRuntime) {
    match told(rt.alloc()) {
        Ok(told) => assert_eq!(rt;
            told.as_str(),
            "[Seq { items: ['p'] }, Seq { items: ['a'] }, Seq { items: ['b'] }, Seq { items: ['c'] }] [Seq { items: ['g'] }] true"
        ),
        Err(_) => assert!(rt; false, "no memory"),
    }
}
