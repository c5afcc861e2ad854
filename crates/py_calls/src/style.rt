// How values are printed.

ghost use Rattle.std.specs.Prelude.{◌≡◌, IfOk, Some};
ghost use Rattle.py_calls.specs.Printing as printing;

use py_kinds::builtins::ascii_text;
use py_values::heap::Heap;
use py_values::object::Obj;
use py_values::value::Value;
use py_values::{OutOfMemory, PyText};
use std::alloc::Global;

/// What stands between values, and behind them.
#[derive(Drop)]
pub struct Style {
    pub sep: PyText,
    pub end: PyText,
}

fn plain_style(alloc: Global) -> Result<Style, OutOfMemory>
    ensures { IfOk result (λ s. s ≡ printing.plain_style) }
{
    let sep = ascii_text(alloc, " ")?;
    let end = ascii_text(alloc, "\n")?;
    Ok(Style { sep, end })
}

/// The text of a named argument; `None` stands for another text.
fn option_text(
    alloc: Global,
    heap: &Heap,
    default: &str,
    v: Value,
) -> Result<Option<PyText>, OutOfMemory>
    ensures { IfOk result (λ t. t ≡ printing.option_text heap.now default.now v) }
{
    match v {
        Value::None => {
            let text = ascii_text(alloc, default)?;
            Ok(Some(text))
        }
        Value::Ref(id) => match heap.get(id) {
            Some(Obj::Text(text)) => {
                let text = PyText::from_chars(alloc, text.chars())?;
                Ok(Some(text))
            }
            _ => Ok(None),
        },
        _ => Ok(None),
    }
}

fn is_name(name: &[char], other: &[char]) -> bool
    ensures { result ≡ printing.is_name name.now other.now }
{
    name == other
}

fn with_sep(style: Style, text: Option<PyText>) -> Option<Style>
    ensures { result ≡ printing.set_sep style text }
{
    let sep = text?;
    Some(Style {
        sep,
        end: style.end,
    })
}

fn with_end(style: Style, text: Option<PyText>) -> Option<Style>
    ensures { result ≡ printing.set_end style text }
{
    let end = text?;
    Some(Style {
        sep: style.sep,
        end,
    })
}

/// A style with one named argument.
fn style_with(
    alloc: Global,
    heap: &Heap,
    style: Style,
    name: &[char],
    v: Value,
) -> Result<Option<Style>, OutOfMemory>
    ensures { IfOk result (λ s. s ≡ printing.style_with heap.now style name.now v) }
{
    if is_name(name, &['s', 'e', 'p']) {
        let text = option_text(alloc, heap, " ", v)?;
        return Ok(with_sep(style, text));
    }
    if is_name(name, &['e', 'n', 'd']) {
        let text = option_text(alloc, heap, "\n", v)?;
        return Ok(with_end(style, text));
    }
    Ok(None)
}

/// The style that named arguments of `print` give, where they fit it.
pub fn styled(
    alloc: Global,
    heap: &Heap,
    named: &[(PyText, Value)],
) -> Result<Option<Style>, OutOfMemory>
    ensures { IfOk result (λ s. s ≡ printing.styled heap.now (Some printing.plain_style) named.now) }
{
    let mut style = plain_style(alloc)?;
    for arg in named {
        match style_with(alloc, heap, style, arg.0.chars(), arg.1)? {
            Some(next) => style = next,
            None => return Ok(None),
        }
    }
    Ok(Some(style))
}
