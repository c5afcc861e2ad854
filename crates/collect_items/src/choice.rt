// The items that `-k` and `-m` choose.

ghost use Rattle.std.specs.Prelude.{◌≡◌, ◌++◌, ◌∷◌, ◌<◌, [], All, IfOk, OnOk, length};
ghost use Rattle.selection.specs.Exprs.{AreExprs};
ghost use Rattle.collect_items.specs.Chosen as choice;

use cli_words::Options;
use collect_marks::names::{keyword_names, mark_names};
use collection_nodes::narrow;
use py_values::heap::Heap;
use selection::{Exprs, is_selected};
use seq::{OutOfMemory, PyText, Seq};
use std::alloc::Global;
use test_suite::Item;

/// Whether the expressions of these options choose an item.
fn is_chosen(
    alloc: Global,
    options: &Options,
    exprs: &Exprs,
    heap: &Heap,
    item: &Item,
) -> Result<bool, OutOfMemory>
    requires { AreExprs options.now exprs.now }
    ensures { IfOk result (λ b. b ≡ choice.is_chosen options.now heap.now item.now) }
{
    let path = PyText::from_str(alloc, item.file.text())?;
    let marks = item.marks.items();
    let keywords = keyword_names(alloc, heap, &path, &item.test, item.id.as_ref(), marks)?;
    let names = mark_names(alloc, heap, marks)?;
    Ok(is_selected(exprs, &keywords, &names))
}

fn push_number(chosen: &mut Seq<u32>, number: usize) -> Result<(), OutOfMemory>
    ensures { OnOk result (chosen.new ≡ chosen.old ++ number ∷ []) }
{
    let one = narrow(number)?;
    chosen.push(one)
}

fn push_chosen(
    alloc: Global,
    chosen: &mut Seq<u32>,
    options: &Options,
    exprs: &Exprs,
    heap: &Heap,
    items: &[Item],
    number: usize,
) -> Result<(), OutOfMemory>
    requires { AreExprs options.now exprs.now }
    ensures same { OnOk result (chosen.new ≡ chosen.old ++ choice.chosen options.now heap.now items.now (number ∷ [])) }
    ensures within { OnOk result (All (λ one. one < length items.now) chosen.old → All (λ one. one < length items.now) chosen.new) }
{
    let Some(item) = items.get(number) else {
        // Numbers are those of items.
        return Err(OutOfMemory);
    };
    if is_chosen(alloc, options, exprs, heap, item)? {
        push_number(chosen, number)?;
    }
    Ok(())
}

/// Of some items by number, those that the expressions of these options choose.
pub fn chosen(
    alloc: Global,
    options: &Options,
    exprs: &Exprs,
    heap: &Heap,
    items: &[Item],
    numbers: &[usize],
) -> Result<Seq<u32>, OutOfMemory>
    requires { AreExprs options.now exprs.now }
    ensures same { IfOk result (λ n. n ≡ choice.chosen options.now heap.now items.now numbers.now) }
    ensures within { IfOk result (λ n. All (λ one. one < length items.now) n) }
{
    let mut chosen = Seq::new(alloc);
    for number in numbers {
        push_chosen(alloc, &mut chosen, options, exprs, heap, items, *number)?;
    }
    Ok(chosen)
}
