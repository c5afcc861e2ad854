// Core statements.

ghost use Rattle.std.specs.Prelude.{◌≡◌, ◌<◌, length, get_or};
ghost use Rattle.py_core.specs.Blocks.{stmts_in, handlers_in};

use crate::expr::CoreExpr;
use py_source::{Pos, SrcText};
use py_tree::{Alias, BinOp, Expr, Function, Handler, Names, Stmt, Target};
use std::rc::Rc;

/// The core code of a source.
pub struct Core {
    pub body: Rc<CoreBlock>,
}

impl Drop for Core {
    fn drop(self) {
        let Core { body: _ } = self;
    }
}

/// The core statements of a block, the source's statements for which they stand, and whether asserts are explained there.
#[cycle(statement)]
pub struct CoreBlock {
    pub source: Rc<Vec<Stmt>>,
    pub explains: bool,
    pub stmts: Vec<CoreStmt>,
}

impl Drop for CoreBlock {
    #[cycle(statement)]
    fn drop(self) {
        let CoreBlock {
            source: _,
            explains: _,
            stmts: _,
        } = self;
    }
}

impl CoreBlock {
    /// The number of its statements.
    pub fn len(&self) -> usize
        ensures { result ≡ length (stmts_in self.now) }
    {
        self.stmts.len()
    }

    /// The statement at a place.
    pub fn stmt(&self, at: usize) -> &CoreStmt
        requires { at < length (stmts_in self.now) }
        ensures { result.now ≡ get_or (stmts_in self.now) at result.now }
    {
        &self.stmts[at]
    }
}

/// A core statement, at its first token.
#[cycle(statement)]
pub struct CoreStmt {
    pub at: Pos,
    pub kind: CoreStmtKind,
}

impl Drop for CoreStmt {
    #[cycle(statement)]
    fn drop(self) {
        let CoreStmt { at: _, kind: _ } = self;
    }
}

/// The forms of core statements, each with its parts in the order of the text (Language Reference, simple and compound statements).
#[cycle(statement)]
pub enum CoreStmtKind {
    Expr(Rc<CoreExpr>),
    /// The targets, and the value.
    Assign(Rc<Vec<CoreTarget>>, Rc<CoreExpr>),
    AugAssign(CoreSingle, BinOp, Rc<CoreExpr>),
    Return(Option<Rc<CoreExpr>>),
    /// The failure of an assert: what it shows, and the message.
    FailWith(Template, Option<Rc<CoreExpr>>),
    Global(Rc<Vec<SrcText>>),
    Pass,
    Break,
    Continue,
    /// The branches `if` and `elif`, and the block behind `else`.
    If(Rc<Vec<CoreBranch>>, Rc<CoreBlock>),
    /// A `yield`: what it gives, and what is done with what it is given.
    Yield(Option<Rc<CoreExpr>>, Rc<CoreUse>),
    While(Rc<CoreExpr>, Rc<CoreBlock>),
    /// The decorators from top to bottom, the defaults of the parameters that have one, and the function.
    Def(Rc<Vec<Rc<CoreExpr>>>, Rc<Vec<Rc<CoreExpr>>>, Rc<CoreFn>),
    /// `raise`, and what it raises.
    Raise(Option<Rc<CoreExpr>>),
    Del(CoreSingle),
    For(Rc<CoreTarget>, Rc<CoreExpr>, Rc<CoreBlock>),
    /// The block, and what guards it.
    Try(Rc<CoreBlock>, Rc<CoreGuard>),
    /// The context, the name behind `as`, and the block.
    With(Rc<CoreExpr>, Option<SrcText>, Rc<CoreBlock>),
    /// The decorators from top to bottom, the base, and the class.
    Class(Rc<Vec<Rc<CoreExpr>>>, Option<Rc<CoreExpr>>, Rc<CoreClass>),
    /// The dotted name, and the name behind `as`.
    Import(Rc<Vec<SrcText>>, Option<SrcText>),
    /// The dotted name, and what is imported from it.
    ImportFrom(Rc<Vec<SrcText>>, Rc<Vec<Alias>>),
}

impl Drop for CoreStmtKind {
    #[cycle(statement)]
    fn drop(self) {
        match self {
            CoreStmtKind::Expr(_) => {}
            CoreStmtKind::Assign(_, _) => {}
            CoreStmtKind::AugAssign(_, _, _) => {}
            CoreStmtKind::Return(_) => {}
            CoreStmtKind::FailWith(_, _) => {}
            CoreStmtKind::Global(_) => {}
            CoreStmtKind::Pass => {}
            CoreStmtKind::Break => {}
            CoreStmtKind::Continue => {}
            CoreStmtKind::If(_, _) => {}
            CoreStmtKind::Yield(_, _) => {}
            CoreStmtKind::While(_, _) => {}
            CoreStmtKind::Def(_, _, _) => {}
            CoreStmtKind::Raise(_) => {}
            CoreStmtKind::Del(_) => {}
            CoreStmtKind::For(_, _, _) => {}
            CoreStmtKind::Try(_, _) => {}
            CoreStmtKind::With(_, _, _) => {}
            CoreStmtKind::Class(_, _, _) => {}
            CoreStmtKind::Import(_, _) => {}
            CoreStmtKind::ImportFrom(_, _) => {}
        }
    }
}

/// What guards the block of a `try`: its handlers, the source's handlers for which they stand, and the blocks behind `else` and
/// `finally`, which are empty where these are absent.
#[cycle(statement)]
pub struct CoreGuard {
    pub source: Rc<Vec<Handler>>,
    pub handlers: Vec<CoreHandler>,
    pub other: Rc<CoreBlock>,
    pub last: Rc<CoreBlock>,
}

impl Drop for CoreGuard {
    #[cycle(statement)]
    fn drop(self) {
        let CoreGuard {
            source: _,
            handlers: _,
            other: _,
            last: _,
        } = self;
    }
}

impl CoreGuard {
    /// The number of its handlers.
    pub fn len(&self) -> usize
        ensures { result ≡ length (handlers_in self.now) }
    {
        self.handlers.len()
    }

    /// The handler at a place.
    pub fn handler(&self, at: usize) -> &CoreHandler
        requires { at < length (handlers_in self.now) }
        ensures { result.now ≡ get_or (handlers_in self.now) at result.now }
    {
        &self.handlers[at]
    }
}

/// What an `except` takes, the name that it binds, and its block.
#[cycle(statement)]
pub struct CoreHandler {
    pub class: Option<Rc<CoreExpr>>,
    pub name: Option<SrcText>,
    pub body: Rc<CoreBlock>,
}

impl Drop for CoreHandler {
    #[cycle(statement)]
    fn drop(self) {
        let CoreHandler {
            class: _,
            name: _,
            body: _,
        } = self;
    }
}

/// A condition and its block, at `if` or `elif`.
#[cycle(statement)]
pub struct CoreBranch {
    pub at: Pos,
    pub condition: Rc<CoreExpr>,
    pub body: Rc<CoreBlock>,
}

impl Drop for CoreBranch {
    #[cycle(statement)]
    fn drop(self) {
        let CoreBranch {
            at: _,
            condition: _,
            body: _,
        } = self;
    }
}

/// A function (Language Reference, function definitions).
#[cycle(statement)]
pub struct CoreFn {
    /// The function of the source.
    pub source: Rc<Function>,
    /// Where the word `def` stands.
    pub at: Pos,
    pub name: SrcText,
    /// Its parameters.
    pub params: Rc<Vec<CoreParam>>,
    /// Its parameters and the names that it binds, but for those that it declares global.
    pub locals: Names,
    /// Whether its body has a `yield`.
    pub yields: bool,
    pub body: Rc<CoreBlock>,
}

impl Drop for CoreFn {
    #[cycle(statement)]
    fn drop(self) {
        let CoreFn {
            source: _,
            at: _,
            name: _,
            params: _,
            locals: _,
            yields: _,
            body: _,
        } = self;
    }
}

/// A parameter's name, and whether it has a default.
pub struct CoreParam {
    pub name: SrcText,
    pub has_default: bool,
}

impl Drop for CoreParam {
    fn drop(self) {
        let CoreParam {
            name: _,
            has_default: _,
        } = self;
    }
}

/// A class (Language Reference, class definitions).
#[cycle(statement)]
pub struct CoreClass {
    /// Where the word `class` stands.
    pub at: Pos,
    pub name: SrcText,
    pub body: Rc<CoreBlock>,
}

impl Drop for CoreClass {
    #[cycle(statement)]
    fn drop(self) {
        let CoreClass {
            at: _,
            name: _,
            body: _,
        } = self;
    }
}

/// What takes a value.
pub enum CoreTarget {
    Single(CoreSingle),
    /// The value is unpacked.
    Unpack(Rc<Vec<CoreSingle>>),
}

impl Drop for CoreTarget {
    fn drop(self) {
        match self {
            CoreTarget::Single(_) => {}
            CoreTarget::Unpack(_) => {}
        }
    }
}

/// What takes one value, at its first token.
pub struct CoreSingle {
    pub at: Pos,
    pub kind: CoreSingleKind,
}

impl Drop for CoreSingle {
    fn drop(self) {
        let CoreSingle { at: _, kind: _ } = self;
    }
}

/// The forms of what takes one value.
pub enum CoreSingleKind {
    Name(SrcText),
    Attribute(Rc<CoreExpr>, SrcText),
    Subscript(Rc<CoreExpr>, Rc<CoreExpr>),
}

impl Drop for CoreSingleKind {
    fn drop(self) {
        match self {
            CoreSingleKind::Name(_) => {}
            CoreSingleKind::Attribute(_, _) => {}
            CoreSingleKind::Subscript(_, _) => {}
        }
    }
}

/// What is done with the value that a `yield` is given when its body goes on (Language Reference, yield expressions).
pub enum CoreUse {
    /// Nothing.
    NoUse,
    /// It is assigned: the targets of the source, and those that stand for them.
    Targets(Rc<Vec<Target>>, Rc<Vec<CoreTarget>>),
    /// It is returned.
    Return,
}

impl Drop for CoreUse {
    fn drop(self) {
        match self {
            CoreUse::NoUse => {}
            CoreUse::Targets(_, _) => {}
            CoreUse::Return => {}
        }
    }
}

/// What the failure of an assert shows beside its message.
pub enum Template {
    /// Nothing.
    Plain,
    /// What its condition was, whose parts are kept as temporaries.
    Explain(Rc<Expr>),
}

impl Drop for Template {
    fn drop(self) {
        match self {
            Template::Plain => {}
            Template::Explain(_) => {}
        }
    }
}
