// The source of a file.

ghost use Rattle.std.specs.Prelude.{◌≡◌, ◌==◌, IfOk, count_by};
ghost use Rattle.py_tokens.specs.Layout.{EndsText};
ghost use Rattle.file_source.specs.Reading.{HasTokens, IsSourceVerdict, source_seen};
ghost use Rattle.file_source.specs.Sources.{IsSource, line_behind};

use py_parse::{SyntaxFault, parse};
use py_source::{SourceFault, SyntaxKind};
use py_tokens::{LexFault, Token, tokens};
use py_tree::Module;
use seq::OutOfMemory;
use std::alloc::Global;

/// How many line ends are among bytes.
fn line_ends(bytes: &[u8]) -> usize
    ensures { result ≡ count_by (λ b. b == 10) bytes.now }
{
    bytes.iter().filter(|b| **b == b'\n').count()
}

/// The line, from 1, of what stands behind these bytes.
fn line_of(front: &[u8]) -> u32
    ensures { result ≡ line_behind front.now }
{
    let ends = line_ends(front);
    match u32::try_from(ends) {
        Ok(ends) => ends.saturating_add(1),
        Err(_) => u32::MAX,
    }
}

/// The tokens of a text, which the bytes are.
fn text_tokens(alloc: Global, text: &str) -> Result<Result<Vec<Token>, SourceFault>, OutOfMemory>
    ensures { IfOk result (λ t. HasTokens text.now t) }
{
    match tokens(alloc, text) {
        Ok(tokens) => Ok(Ok(tokens)),
        Err(LexFault::Bad(at, kind)) => Ok(Err(SourceFault::Syntax(at, SyntaxKind::from(kind)))),
        Err(LexFault::OutOfMemory) => Err(OutOfMemory),
    }
}

/// The tokens of a file, or its fault.
fn tokens_of(alloc: Global, bytes: &[u8]) -> Result<Result<Vec<Token>, SourceFault>, OutOfMemory>
    ensures { IfOk result (λ t. HasTokens bytes.now t) }
{
    match str::from_utf8(bytes) {
        Ok(text) => text_tokens(alloc, text),
        Err(e) => Ok(Err(SourceFault::NotUtf8(line_of(&bytes[..e.valid_up_to()])))),
    }
}

/// The tree that tokens are, or their fault.
#[tactic(auto, using(crate::proofs::Read::verdicts))]
fn tree_of(alloc: Global, tokens: &[Token]) -> Result<Result<Module, SourceFault>, OutOfMemory>
    requires { EndsText tokens.now }
    ensures { IfOk result (λ m. IsSourceVerdict tokens.now (source_seen m)) }
{
    match parse(alloc, tokens) {
        Ok(module) => Ok(Ok(module)),
        Err(SyntaxFault::Unexpected(at)) => {
            Ok(Err(SourceFault::Syntax(at, SyntaxKind::Unexpected)))
        }
        Err(SyntaxFault::Unsupported(at)) => {
            Ok(Err(SourceFault::Syntax(at, SyntaxKind::Unsupported)))
        }
        Err(SyntaxFault::Context(at)) => Ok(Err(SourceFault::Syntax(at, SyntaxKind::Context))),
        Err(SyntaxFault::Nesting(at)) => Ok(Err(SourceFault::Syntax(at, SyntaxKind::Nesting))),
        Err(SyntaxFault::OutOfMemory) => Err(OutOfMemory),
    }
}

/// The tree that a file's bytes are, or their fault.
pub fn source_of(alloc: Global, bytes: &[u8]) -> Result<Result<Module, SourceFault>, OutOfMemory>
    ensures { IfOk result (λ m. IsSource bytes.now (source_seen m)) }
{
    match tokens_of(alloc, bytes)? {
        Ok(tokens) => tree_of(alloc, &tokens),
        Err(fault) => Ok(Err(fault)),
    }
}

/// A law: bytes say one thing.
pub fn one_source()
    ensures { (bytes : List ℕ) (a b : Result Block Fault) → IsSource bytes a → IsSource bytes b → a ≡ b }
{}

/// A law: they say something.
pub fn has_source()
    ensures { (bytes : List ℕ) → (said : Result Block Fault) × IsSource bytes said }
{}

ghost use Rattle.std.specs.Prelude.{List, ℕ, Result};
ghost use Rattle.py_source.specs.declared.fault.SourceFault.{SourceFault as Fault};
ghost use Rattle.py_tree.specs.Statements.{Block};
