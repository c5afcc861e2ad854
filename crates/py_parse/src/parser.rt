ghost use Rattle.std.specs.Prelude.{◌≡◌, Some, Err};
ghost use Rattle.parsing.specs.Answer.{finish};
ghost use Rattle.parsing.specs.Reading.{Bad, Deep};
ghost use Rattle.py_source.specs.Limits.{most_levels};
ghost use Rattle.py_tokens.specs.Layout.{EndsText};
ghost use Rattle.py_tree.specs.Statements.{block};
ghost use Rattle.statement_readers.specs.py_grammar.Context.{misplaced, in_module};
ghost use Rattle.statement_readers.specs.py_grammar.Sources.{source_read};
ghost use Rattle.statement_readers.specs.py_grammar.Verdict.{Verdict, IsVerdict, verdict_on, verdict_by};
ghost use Rattle.py_cursor.specs.Parser.{Gives};
ghost use Rattle.statement_readers.specs.Words.{source};
ghost use Rattle.py_parse.specs.Judged.{verdict_of, IsJudged, Answers};

use crate::blocks::source;
use crate::fault::SyntaxFault;
use py_context::first_misplaced;
use py_cursor::{Parser, Sign, Stop, begins};
use py_tokens::{Op, Token};
use py_tree::{Module, Stmt};
use std::alloc::Global;
use std::rc::Rc;

/// Words and signs of the whole language that this one doesn't have, or not there.
const UNSUPPORTED: [Sign; 15] = [
    Sign::Op(Op::Async),
    Sign::Op(Op::Await),
    Sign::Op(Op::Lambda),
    Sign::Op(Op::Nonlocal),
    Sign::Op(Op::For),
    Sign::Op(Op::With),
    Sign::Op(Op::From),
    Sign::Op(Op::Star),
    Sign::Op(Op::DoubleStar),
    Sign::Op(Op::ColonEqual),
    Sign::Op(Op::At),
    Sign::Op(Op::Slash),
    Sign::Op(Op::SlashEqual),
    Sign::Op(Op::AtEqual),
    Sign::Op(Op::Ellipsis),
];

/// The statements that all the tokens are.
fn whole(p: &mut Parser<'_>) -> Option<Vec<Stmt>>
    ensures { Gives (λ stmts. block stmts.items) result p.new (finish (source p.old.rest.now)) }
{
    let Some(stmts) = source(p) else {
        return None;
    };
    if !p.rest.is_empty() {
        p.stop = Stop::Bad(p.rest);
        return None;
    }
    Some(stmts)
}

/// The fault at the first of the tokens. There is one: the tokens of a text end with its end.
#[tactic(auto, using(crate::proofs::Faults::fault_rules))]
fn fault_at(tokens: &[Token]) -> SyntaxFault
    ensures { verdict_of (Err result) ≡ verdict_by (Bad tokens.now) }
{
    let [first, ..] = tokens else {
        return SyntaxFault::OutOfMemory;
    };
    if begins(tokens, &UNSUPPORTED) {
        SyntaxFault::Unsupported(first.at)
    } else {
        SyntaxFault::Unexpected(first.at)
    }
}

/// The first of the tokens stands too deep.
fn too_deep_at(tokens: &[Token]) -> SyntaxFault
    ensures { verdict_of (Err result) ≡ verdict_by (Deep tokens.now) }
{
    let [first, ..] = tokens else {
        return SyntaxFault::OutOfMemory;
    };
    SyntaxFault::Nesting(first.at)
}

/// The module of the statements, where each stands where it may.
#[tactic(auto, using(crate::proofs::Faults::place_rules))]
fn placed(alloc: Global, stmts: Vec<Stmt>) -> Result<Module, SyntaxFault>
    ensures { Answers (Some (verdict_on (block stmts.items) (misplaced in_module (block stmts.items)))) result }
{
    match first_misplaced(alloc, &stmts)? {
        Some(at) => Err(SyntaxFault::Context(at)),
        None => Ok(Module {
            body: Rc::new(alloc, stmts)?,
        }),
    }
}

/// The verdict that the reader's answer is.
#[tactic(auto, using(crate::proofs::Verdicts::verdict_rules))]
fn judged(alloc: Global, tokens: &[Token]) -> Result<Module, SyntaxFault>
    ensures { Answers (verdict_by (source_read most_levels tokens.now)) result }
{
    let mut p = Parser::new(alloc, tokens);
    if let Some(stmts) = whole(&mut p) {
        return placed(alloc, stmts);
    }
    match p.stop {
        Stop::Bad(rest) => Err(fault_at(rest)),
        Stop::Deep(rest) => Err(too_deep_at(rest)),
        Stop::Memory => Err(SyntaxFault::OutOfMemory),
    }
}

/// The tree that the tokens of a source are (Language Reference, full grammar specification).
#[tactic(auto, using(crate::proofs::Verdicts::parse_rules))]
pub fn parse(alloc: Global, tokens: &[Token]) -> Result<Module, SyntaxFault>
    requires { EndsText tokens.now }
    // The answer is the verdict on the tokens, unless memory ran out,
    ensures verdict { IsJudged tokens.now result }
    // and they have no other.
    ensures only { (v : Verdict) → IsVerdict tokens.now v → Answers (Some v) result }
{
    judged(alloc, tokens)
}
