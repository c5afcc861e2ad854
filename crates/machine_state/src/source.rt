// Sources.

ghost use Rattle.std.specs.Prelude.{◌≡◌, IfOk, option_map};
ghost use Rattle.machine_state.specs.Coded.{coded_of};
ghost use Rattle.machine_state.specs.Lines.{source_line, told_line};

use crate::lines::{line_by_starts, starts_of};
use py_core::Core;
use py_source::SourceFault;
use seq::{OutOfMemory, PyText};
use std::alloc::Global;
use std::marker::Model;

/// The code of a source, or why it has none.
pub enum SourceCode {
    Code(Core),
    Fault(SourceFault),
}

impl Drop for SourceCode {
    fn drop(self) {
        match self {
            SourceCode::Code(_) => {}
            SourceCode::Fault(_) => {}
        }
    }
}

/// A source: its file's path and bytes, and its code. It keeps where its lines begin.
pub struct SourceFile {
    path: PyText,
    bytes: Vec<u8>,
    starts: Vec<usize>,
    code: SourceCode,
}

impl Drop for SourceFile {
    fn drop(self) {
        let SourceFile {
            path: _,
            bytes: _,
            starts: _,
            code: _,
        } = self;
    }
}

impl Model for SourceFile {
    ghost use Rattle.core_meaning.specs.py_world.World.{CodedSource};
    ghost use Rattle.py_core.specs.declared.stmt.Core.{Core};

    ghost Value = { CodedSource Core };

    ghost use Rattle.py_core.specs.contracts.stmt.CoreStmtKind as kind;
    ghost use Rattle.py_core.specs.contracts.stmt.CoreBlock as block;
    ghost use Rattle.py_tree.specs.contracts.expr.ExprKind as source_expression;
    ghost use Rattle.py_tree.specs.contracts.stmt.StmtKind as statement;
    ghost use Rattle.std.specs.Coded.{codes};

    ghost coded = { Prim.hlevel (codes, kind.the_row.coded, block.the_row.coded, source_expression.the_row.coded, statement.the_row.coded) };

    ghost use Rattle.machine_state.specs.Coded.{coded_of};

    ghost view = { λ s. record { path = s.path; bytes = s.bytes.items; code = coded_of s.code } };

    ghost use Rattle.machine_state.specs.Lines.{without_mark, HasStarts};

    ghost invariant = { λ s. HasStarts (without_mark s.bytes.items) s.starts.items };
}

impl SourceFile {
    /// A file by its path relative to the root, with its bytes and its code.
    pub fn new(
        alloc: Global,
        path: PyText,
        bytes: Vec<u8>,
        code: SourceCode,
    ) -> Result<Self, OutOfMemory>
        ensures { IfOk result (λ s. s ≡ record { path = path; bytes = bytes.items; code = coded_of code }) }
    {
        match starts_of(alloc, &bytes) {
            Ok(starts) => Ok(SourceFile {
                path,
                bytes,
                starts,
                code,
            }),
            Err(fault) => {
                drop(code);
                Err(fault)
            }
        }
    }

    /// The line with this number, from 1, without its end. Bytes that are not UTF-8 have none.
    pub fn line(&self, number: u32) -> Option<&str>
        ensures { option_map told_line result ≡ source_line self.now.bytes number }
    {
        line_by_starts(&self.bytes, &self.starts, number)
    }

    /// Its path, relative to the root, its parts joined by `/`.
    pub fn path(&self) -> &PyText
        ensures { result.now ≡ self.now.path }
    {
        &self.path
    }

    /// Its bytes.
    pub fn bytes(&self) -> &[u8]
        ensures { result.now ≡ self.now.bytes }
    {
        &self.bytes
    }

    /// Its code, or the fault for which it has none.
    pub fn code(&self) -> &SourceCode
        ensures { coded_of result.now ≡ self.now.code }
    {
        &self.code
    }
}
