// The rows of a test.

ghost use Rattle.std.specs.Prelude.{◌≡◌, ◌<◌, IfOk, length, map};
ghost use Rattle.collect_fixtures.specs.Tables.{all_numbers};
ghost use Rattle.collect_rows.specs.Rows as rows;
ghost use Rattle.collect_rows.specs.Seen.{seen_list};

use crate::faults::fault_text;
use crate::given::{rows_given, rows_or_empty};
use crate::lists::{fixture_lists, marks_of, names_known};
use crate::row::{ItemRow, TestRows};
use collect_fixtures::{closure_unless_fault, names_bound};
use collection_nodes::Mentions;
use fixture_definitions::{Definition, FoundTest};
use fixture_table::Table;
use param_rows::{ParamMark, ParamRow, PyId};
use py_values::heap::Heap;
use py_values::value::Value;
use seq::{OutOfMemory, PyText, Seq};
use std::alloc::Global;

/// Rows that were made, as items have them; or what stands for an empty list.
fn made_rows(
    alloc: Global,
    names: &Mentions,
    definitions: &[Definition],
    bound: &[u32],
    lists: &[(u32, Vec<PyId>)],
    made: &[ParamRow<Value>],
) -> Result<Seq<ItemRow>, OutOfMemory>
    ensures { IfOk result (λ r. r ≡ rows.rows_or_empty names.now bound.now (map (rows.row_given names.now definitions.now (map seen_list lists.now)) made.now)) }
{
    let given = rows_given(alloc, names, definitions, lists, made)?;
    rows_or_empty(alloc, names, bound, given)
}

/// A law: the rows and the fault of lists are those that `param_rows` makes of them.
fn lists_seen()
    ensures rows { (fixtures : List (ℕ × Vec Id Global)) (marks : List (ParamMark PyValue)) → rows_of fixtures marks ≡ rows.rows_over (map seen_list fixtures) marks }
    ensures fault { (fixtures : List (ℕ × Vec Id Global)) (marks : List (ParamMark PyValue)) (known : List ℕ) → first_fault fixtures marks known ≡ rows.rows_fault (map seen_list fixtures) marks known }
{}

ghost use Rattle.std.specs.Prelude.{ℕ, List};
ghost use Rattle.std.specs.declared.alloc.Global.{Global};
ghost use Rattle.std.specs.declared.vec.Vec.{Vec};
ghost use Rattle.fixture_definitions.specs.collect_params.param_rows.Faults.{first_fault};
ghost use Rattle.fixture_definitions.specs.collect_params.param_rows.Ids.{Id};
ghost use Rattle.fixture_definitions.specs.collect_params.param_rows.Rows.{rows_of};
ghost use Rattle.fixture_definitions.specs.collect_params.param_rows.declared.param.ParamMark.{ParamMark};
ghost use Rattle.py_values.specs.declared.value.Value.{Value as PyValue};

/// The rows of these lists, or their fault.
pub fn rows_of_lists(
    alloc: Global,
    names: &Mentions,
    definitions: &[Definition],
    bound: &[u32],
    known: &[u32],
    lists: &[(u32, Vec<PyId>)],
    marks: &[ParamMark<Value>],
) -> Result<TestRows, OutOfMemory>
    ensures { IfOk result (λ r. r ≡ rows.rows_unless names.now (rows.rows_fault (map seen_list lists.now) marks.now known.now) (rows.rows_or_empty names.now bound.now (map (rows.row_given names.now definitions.now (map seen_list lists.now)) (rows.rows_over (map seen_list lists.now) marks.now)))) }
{
    lists_seen();
    match param_rows::rows(alloc, lists, marks, known) {
        Ok(made) => {
            let all = made_rows(alloc, names, definitions, bound, lists, &made)?;
            Ok(TestRows::Rows(all))
        }
        Err(why) => Ok(TestRows::Fault(fault_text(alloc, names, why)?)),
    }
}

/// A law: beside an empty list `param_rows` finds the faults of marks alone, since it makes no row.
fn no_rows_beside_an_empty_list()
    ensures { (ids : Vec Id Global) (marks : List (ParamMark PyValue)) (known : List ℕ) → ids.items ≡ [] → first_fault ((0, ids) ∷ []) marks known ≡ row_faults.marks_fault known [] marks }
{}

ghost use Rattle.std.specs.Prelude.{◌∷◌, [], option_map};
ghost use Rattle.fixture_definitions.specs.collect_params.param_rows.Faults as row_faults;

/// The text of the first fault of these `parametrize` marks, however many rows they give.
pub fn marks_fault(
    alloc: Global,
    names: &Mentions,
    known: &[u32],
    marks: &[ParamMark<Value>],
) -> Result<Option<PyText>, OutOfMemory>
    ensures { IfOk result (λ fault. fault ≡ option_map (rows.fault_text names.now) (row_faults.marks_fault known.now [] marks.now)) }
{
    no_rows_beside_an_empty_list();
    let mut lists = Vec::new(alloc);
    lists.push((0, Vec::new(alloc)))?;
    match param_rows::rows(alloc, &lists, marks, known) {
        Ok(_) => Ok(None),
        Err(why) => {
            let text = fault_text(alloc, names, why)?;
            Ok(Some(text))
        }
    }
}

/// The numbers of the names that a test's rows bind.
pub fn numbers_bound(
    alloc: Global,
    names: &Mentions,
    test: &FoundTest,
) -> Result<Seq<u32>, OutOfMemory>
    ensures { IfOk result (λ numbers. numbers ≡ all_numbers names.now (tables.names_bound test.now)) }
{
    let bound = names_bound(alloc, test)?;
    names.numbers(alloc, bound.items())
}

ghost use Rattle.collect_fixtures.specs.Tables as tables;

/// The rows of a test at a node, or their fault.
#[tactic(auto, unfolding(crate::specs::Rows::test_rows))]
pub fn test_rows(
    alloc: Global,
    heap: &Heap,
    table: &Table,
    names: &Mentions,
    definitions: &[Definition],
    item: u32,
    test: &FoundTest,
) -> Result<TestRows, OutOfMemory>
    requires same { length definitions.now ≡ length table.now.defs }
    requires item { item < length table.now.nodes }
    ensures { IfOk result (λ r. r ≡ rows.test_rows heap.now table.now names.now definitions.now item test.now) }
{
    let bound = numbers_bound(alloc, names, test)?;
    let closure = closure_unless_fault(
        alloc,
        table,
        names,
        item,
        bound.items(),
        test.uses.items(),
        test.arguments.items(),
    )?;
    let known = names_known(alloc, table, definitions.len(), names, item, test, &closure)?;
    let lists = fixture_lists(alloc, heap, definitions, &closure)?;
    let marks = marks_of(alloc, heap, names, test.parametrized.items())?;
    rows_of_lists(
        alloc,
        names,
        definitions,
        bound.items(),
        &known,
        &lists,
        &marks,
    )
}
