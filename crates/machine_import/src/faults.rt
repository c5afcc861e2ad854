// What imports raise.

ghost use Rattle.std.specs.Prelude.{◌≡◌, ◌++◌, IfOk, OnOk};
ghost use Rattle.std.specs.List.{flat_map};
ghost use Rattle.machine_state.specs.py_world.Imports as imports;
ghost use Rattle.machine_import.specs.Dotted.{dotted_part};

use machine_names::names::raise_about;
use py_core::SrcText;
use py_source::SourceFault;
use py_values::class::ExcClass;
use py_values::end::{Raise, push_ascii};
use seq::{OutOfMemory, PyText};
use std::alloc::Global;

/// Puts names behind others, with a `.` before each.
fn push_parts(out: &mut Vec<char>, names: &[SrcText]) -> Result<(), OutOfMemory>
    ensures { OnOk result (out.new.items ≡ out.old.items ++ flat_map dotted_part names.now) }
{
    for name in names {
        push_ascii(out, ".")?;
        out.extend_from_slice(name.chars())?;
    }
    Ok(())
}

/// A dotted name as it is written.
#[tactic(auto, using(crate::proofs::Texts::dotted_cut, crate::proofs::Texts::dotted_none))]
fn dotted_text(alloc: Global, dotted: &[SrcText]) -> Result<Vec<char>, OutOfMemory>
    ensures { IfOk result (λ t. t.items ≡ imports.dotted_text dotted.now) }
{
    let mut text = Vec::new(alloc);
    match dotted {
        [first, others @ ..] => {
            text.extend_from_slice(first.chars())?;
            push_parts(&mut text, others)?;
            Ok(text)
        }
        [] => Ok(text),
    }
}

/// There is no module of a dotted name.
pub fn no_module(alloc: Global, dotted: &[SrcText]) -> Result<Raise, OutOfMemory>
    ensures { IfOk result (λ r. r ≡ imports.no_module dotted.now) }
{
    let text = dotted_text(alloc, dotted)?;
    raise_about(
        alloc,
        ExcClass::ModuleNotFoundError,
        "No module named '",
        &text,
        "'",
    )
}

/// There is no source of a path.
pub fn no_source(alloc: Global, path: &PyText) -> Result<Raise, OutOfMemory>
    ensures { IfOk result (λ r. r ≡ imports.no_module (path.now ∷ [])) }
{
    raise_about(
        alloc,
        ExcClass::ModuleNotFoundError,
        "No module named '",
        path.chars(),
        "'",
    )
}

ghost use Rattle.std.specs.Prelude.{◌∷◌, []};

/// A module has no such name, and there is no module of that name in it.
pub fn not_imported(alloc: Global, name: &SrcText) -> Result<Raise, OutOfMemory>
    ensures { IfOk result (λ r. r ≡ imports.not_imported name.now) }
{
    raise_about(
        alloc,
        ExcClass::ImportError,
        "cannot import name '",
        name.chars(),
        "'",
    )
}

/// A source has a fault.
pub fn source_error(alloc: Global, path: &PyText, fault: SourceFault) -> Result<Raise, OutOfMemory>
    ensures { IfOk result (λ r. r ≡ imports.source_error path.now fault) }
{
    let number = fault.line().to_string(alloc)?;
    let mut text = Vec::new(alloc);
    push_ascii(&mut text, fault.text())?;
    push_ascii(&mut text, " (")?;
    text.extend_from_slice(path.chars())?;
    push_ascii(&mut text, ", line ")?;
    push_ascii(&mut text, number.as_str())?;
    push_ascii(&mut text, ")")?;
    let raise = Raise::from_chars(alloc, ExcClass::SyntaxError, &text)?;
    Ok(raise)
}
