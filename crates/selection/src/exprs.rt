ghost use Rattle.std.specs.Prelude.{◌≡◌, IfOk, IfErr};
ghost use Rattle.mark_expr.specs.Text.{is_inline_space};
ghost use Rattle.selection.specs.Exprs as meant;

use crate::fault::{Flag, SelectionFault};
use cli_words::Options;
use mark_expr::{ExprFault, How, MarkExpr, PyName, matches, read_expr};
use std::alloc::Global;

/// The expressions of `-k` and `-m`, where they are given.
#[derive(Drop)]
pub struct Exprs {
    pub keyword: Option<MarkExpr>,
    pub marks: Option<MarkExpr>,
}

fn is_blank(byte: u8) -> bool
    ensures { result ≡ is_inline_space byte }
{
    byte == b' ' || byte == b'\t'
}

/// Whether a value is empty or of spaces and tabs alone.
fn is_blank_value(text: &str) -> bool
    ensures { result ≡ meant.is_blank_value text.now }
{
    text.as_bytes().iter().all(|byte| is_blank(*byte))
}

/// The fault of an expression as that of its option.
fn fault_seen(flag: Flag, fault: ExprFault) -> SelectionFault
    ensures { result ≡ meant.fault_seen flag fault }
{
    match fault {
        ExprFault::Bad(column) => SelectionFault::Wrong(flag, column),
        ExprFault::Nesting => SelectionFault::TooDeep(flag),
        ExprFault::OutOfMemory => SelectionFault::OutOfMemory,
    }
}

/// The expression that the value of an option is, if it isn't blank.
fn read_value(alloc: Global, flag: Flag, value: &str) -> Result<Option<MarkExpr>, SelectionFault>
    ensures { meant.IsValueRead flag (meant.answer_for value.now) result }
{
    if is_blank_value(value) {
        return Ok(None);
    }
    match read_expr(alloc, value) {
        Ok(expr) => Ok(Some(expr)),
        Err(fault) => Err(fault_seen(flag, fault)),
    }
}

/// Reads the expressions of options. The fault is that of `-k`, or else that of `-m`; `OutOfMemory` may come in place of either.
pub fn read_exprs(alloc: Global, options: &Options) -> Result<Exprs, SelectionFault>
    ensures exprs { IfOk result (meant.AreExprs options.now) }
    ensures refused { IfErr result (meant.IsRefused options.now) }
{
    let keyword = read_value(alloc, Flag::Keyword, options.keyword.text())?;
    let marks = read_value(alloc, Flag::Marks, options.marks.text())?;
    Ok(Exprs { keyword, marks })
}

/// Whether an expression accepts one of these names.
fn accepts(expr: &Option<MarkExpr>, names: &[PyName], how: How) -> bool
    ensures { result ≡ meant.accepts how names.now (meant.tree_seen expr.now) }
{
    match expr {
        None => true,
        Some(expr) => matches(expr, names, how),
    }
}

/// Whether an item is selected, by the names that `-k` looks at and those of its marks (pytest's reference, "Command-line Flags").
pub fn is_selected(exprs: &Exprs, keyword_names: &[PyName], mark_names: &[PyName]) -> bool
    ensures { (o : Options) → meant.AreExprs o exprs.now → result ≡ meant.is_selected o keyword_names.now mark_names.now }
{
    let by_name = accepts(&exprs.keyword, keyword_names, How::Part);
    let by_mark = accepts(&exprs.marks, mark_names, How::Whole);
    by_name && by_mark
}
