// The text of a failed assert.

ghost use Rattle.std.specs.Prelude.{◌≡◌, ◌++◌, [], IfOk, OnOk};
ghost use Rattle.py_tree.specs.Trees.{tree};
ghost use Rattle.py_world.specs.Explained as world;

use crate::parts::show_part;
use crate::shows::Fact;
use crate::values::value_text;
use py_tree::Expr;
use py_values::end::push_ascii;
use py_values::heap::Heap;
use py_values::object::Obj;
use py_values::value::Value;
use seq::{OutOfMemory, PyText};
use std::alloc::Global;

/// Puts the space before a fact behind others.
#[tactic(auto, using(crate::proofs::Lines::indent_more, crate::proofs::Lines::indent_all))]
fn push_indent(out: &mut Vec<char>, depth: usize) -> Result<(), OutOfMemory>
    ensures { OnOk result (out.new.items ≡ out.old.items ++ world.fact_indent [] [] depth) }
{
    for _ in 0..depth {
        push_ascii(out, "  ")?;
    }
    Ok(())
}

/// Puts the word before a fact behind others: it is another one where no fact less deep stands right before it.
fn push_word(out: &mut Vec<char>, is_deeper: bool) -> Result<(), OutOfMemory>
    ensures { OnOk result (out.new.items ≡ out.old.items ++ fact_word is_deeper) }
{
    if is_deeper {
        push_ascii(out, "where ")
    } else {
        push_ascii(out, "and   ")
    }
}

ghost use Rattle.assert_explain.specs.Lines.{fact_line, fact_word};

/// Puts the line of a fact behind others.
fn push_line(out: &mut Vec<char>, above: usize, fact: &Fact) -> Result<(), OutOfMemory>
    ensures { OnOk result (out.new.items ≡ out.old.items ++ fact_line above fact.now) }
{
    push_ascii(out, "\n +")?;
    push_indent(out, fact.depth())?;
    push_word(out, above < fact.depth())?;
    out.extend_from_slice(fact.text())?;
    Ok(())
}

/// Puts the lines of facts behind others.
#[tactic(auto, using(crate::proofs::Lines::line_more, crate::proofs::Lines::lines_all))]
fn push_lines(out: &mut Vec<char>, facts: &[Fact]) -> Result<(), OutOfMemory>
    ensures { OnOk result (out.new.items ≡ out.old.items ++ world.fact_lines [] [] 0 facts.now) }
{
    let mut above = 0;
    for fact in facts {
        push_line(out, above, fact)?;
        above = fact.depth();
    }
    Ok(())
}

/// The message: its own text where it is one.
fn message_text(alloc: Global, heap: &Heap, v: Value) -> Result<Vec<char>, OutOfMemory>
    ensures { IfOk result (λ t. t.items ≡ world.message_shown heap.now v) }
{
    let Value::Ref(id) = v else {
        return value_text(alloc, heap, v);
    };
    match heap.get(id) {
        Some(Obj::Text(text)) => Ok(Vec::from_slice(alloc, text.chars())?),
        _ => value_text(alloc, heap, v),
    }
}

/// The message, where there is one, on a line of its own.
fn message_before(
    alloc: Global,
    heap: &Heap,
    message: Option<Value>,
) -> Result<Vec<char>, OutOfMemory>
    ensures { IfOk result (λ t. t.items ≡ world.message_before heap.now message) }
{
    match message {
        Some(v) => {
            let mut text = message_text(alloc, heap, v)?;
            push_ascii(&mut text, "\n")?;
            Ok(text)
        }
        None => Ok(Vec::new(alloc)),
    }
}

/// Puts what is shown of a condition behind others.
#[tactic(auto, using(crate::proofs::Lines::lines_aside))]
fn push_condition(
    alloc: Global,
    out: &mut Vec<char>,
    condition: &Expr,
    kept: &[Option<Value>],
    heap: &Heap,
) -> Result<(), OutOfMemory>
    ensures { OnOk result (out.new.items ≡ out.old.items ++ world.condition_text heap.now kept.now (tree condition.now)) }
{
    let shows = show_part(alloc, heap, kept, 0, condition)?;
    push_ascii(out, "assert ")?;
    out.extend_from_slice(shows.text())?;
    push_lines(out, shows.facts())
}

/// The text of a failed assert, from its condition, what was kept of the condition's parts, the message, and the objects.
#[tactic(auto, unfolding(py_world::specs::Explained::explanation))]
pub fn explain(
    alloc: Global,
    condition: &Expr,
    kept: &[Option<Value>],
    message: Option<Value>,
    heap: &Heap,
) -> Result<PyText, OutOfMemory>
    ensures { IfOk result (λ t. t ≡ world.explanation (tree condition.now) kept.now message heap.now) }
{
    let mut out = message_before(alloc, heap, message)?;
    push_condition(alloc, &mut out, condition, kept, heap)?;
    PyText::from_chars(alloc, &out)
}
