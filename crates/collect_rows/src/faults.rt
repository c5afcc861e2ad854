// What is told of a fault of rows.

ghost use Rattle.std.specs.Prelude.{◌≡◌, ◌++◌, IfOk, OnOk};
ghost use Rattle.std.specs.Fmt.{decimal};
ghost use Rattle.fixture_definitions.specs.collect_params.param_rows.declared.fault.RowFault.TheVariants as fault;
ghost use Rattle.collect_rows.specs.Rows as rows;

use collection_nodes::Mentions;
use param_rows::RowFault;
use py_values::end::push_ascii;
use seq::{OutOfMemory, PyText};
use std::alloc::Global;

fn push_number(alloc: Global, text: &mut Vec<char>, number: usize) -> Result<(), OutOfMemory>
    ensures { OnOk result (text.new.items ≡ text.old.items ++ decimal number) }
{
    let digits = format!(in alloc; "{number}")?;
    push_ascii(text, digits.as_str())
}

fn width_text(alloc: Global, wanted: usize, given: usize) -> Result<Vec<char>, OutOfMemory>
    ensures { IfOk result (λ t. t.items ≡ codes "ValueError: " ++ (codes "expected " ++ (decimal wanted ++ (codes " values, got " ++ decimal given)))) }
{
    let mut text = Vec::new(alloc);
    push_ascii(&mut text, "ValueError: ")?;
    push_ascii(&mut text, "expected ")?;
    push_number(alloc, &mut text, wanted)?;
    push_ascii(&mut text, " values, got ")?;
    push_number(alloc, &mut text, given)?;
    Ok(text)
}

ghost use Rattle.std.specs.Prelude.{codes};

/// The text of a fault of a name.
fn named_text(alloc: Global, what: &str, name: &[char]) -> Result<Vec<char>, OutOfMemory>
    ensures { IfOk result (λ t. t.items ≡ codes "ValueError: " ++ (what.now ++ (name.now ++ codes "'"))) }
{
    let mut text = Vec::new(alloc);
    push_ascii(&mut text, "ValueError: ")?;
    push_ascii(&mut text, what)?;
    text.extend_from_slice(name)?;
    push_ascii(&mut text, "'")?;
    Ok(text)
}

fn many_text(alloc: Global) -> Result<Vec<char>, OutOfMemory>
    ensures { IfOk result (λ t. t.items ≡ codes "ValueError: " ++ codes "too many items") }
{
    let mut text = Vec::new(alloc);
    push_ascii(&mut text, "ValueError: ")?;
    push_ascii(&mut text, "too many items")?;
    Ok(text)
}

/// What is told of a fault; want of memory is handed on.
pub fn fault_text(alloc: Global, names: &Mentions, why: RowFault) -> Result<PyText, OutOfMemory>
    ensures told { IfOk result (λ t. t ≡ rows.fault_text names.now why) }
    ensures memory { IfOk result (λ t. why ≡ fault.OutOfMemory → ⊥) }
{
    let text = match why {
        RowFault::Width(wanted, given) => width_text(alloc, wanted, given)?,
        RowFault::Duplicate(name) => {
            named_text(alloc, "duplicate parameter '", names.text(name))?
        }
        RowFault::NoArgument(name) => named_text(alloc, "no argument '", names.text(name))?,
        RowFault::TooMany => many_text(alloc)?,
        RowFault::OutOfMemory => return Err(OutOfMemory),
    };
    Ok(PyText::from_vec(text))
}
