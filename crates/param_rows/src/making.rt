ghost use Rattle.std.specs.Prelude.{◌≡◌, ◌≤◌, ◌<◌, ◌+◌, ◌++◌, ◌⊎◌, ℕ, [], map, length, None, Some, All, IfOk, IfErr, OnOk, is_some};
ghost use Rattle.std.specs.List.{flat_map, enumerate_from, list_all};
ghost use Rattle.param_rows.specs.declared.fault.RowFault.TheVariants.{OutOfMemory as NoMemory};
ghost use Rattle.param_rows.specs.Rows.{ParameterSet, set_choice, param_choice, fixture_choices, mark_choices, choice_lists, product, is_named, rows_of};
ghost use Rattle.param_rows.specs.Steps.{with_choice, rows_in};
ghost use Rattle.param_rows.specs.Faults.{first_fault};
ghost use Rattle.param_rows.specs.Limits.{most_rows};

use crate::checking::check_marks;
use crate::counting::{MOST_ROWS, count};
use crate::fault::RowFault;
use crate::id::PyId;
use crate::joining::RowMaker;
use crate::param::{Pairs, ParamMark, ParamRow, ParamSet};
use seq::{OutOfMemory, Seq};
use std::alloc::Global;

impl RowMaker {
    /// Appends the rows with one set before them.
    fn push_set<V: Copy>(
        &self,
        rows: &mut Vec<ParamRow<V>>,
        names: &[u32],
        set: &ParamSet<V>,
        rest: &[ParamRow<V>],
    ) -> Result<(), OutOfMemory>
        ensures { OnOk result (rows.new.items ≡ rows.old.items ++ map (with_choice self.now.named (set_choice names.now set.now)) rest.now) }
    {
        for row in rest {
            rows.push(self.with_set(names, set, row)?)?;
        }
        Ok(())
    }

    /// Appends the rows with one parameter before them.
    fn push_param<V: Copy>(
        &self,
        rows: &mut Vec<ParamRow<V>>,
        param: (u32, u32),
        id: &PyId,
        rest: &[ParamRow<V>],
    ) -> Result<(), OutOfMemory>
        ensures { OnOk result (rows.new.items ≡ rows.old.items ++ map (with_choice self.now.named (param_choice param.0 (param.1, id.now))) rest.now) }
    {
        for row in rest {
            rows.push(self.with_param(param, id, row)?)?;
        }
        Ok(())
    }

    /// The rows with each set of a mark before them.
    fn with_mark<V: Copy>(
        &self,
        mark: &ParamMark<V>,
        rest: &[ParamRow<V>],
    ) -> Result<Vec<ParamRow<V>>, OutOfMemory>
        ensures { IfOk result (λ rows. rows.items ≡ flat_map (λ choice. map (with_choice self.now.named choice) rest.now) (mark_choices mark.now)) }
    {
        let mut rows = Vec::new(self.alloc);
        for set in mark.sets.items() {
            self.push_set(&mut rows, mark.names.items(), set, rest)?;
        }
        Ok(rows)
    }

    /// The rows with each parameter of a fixture before them.
    fn with_fixture<V: Copy>(
        &self,
        fixture: u32,
        ids: &[PyId],
        rest: &[ParamRow<V>],
    ) -> Result<Vec<ParamRow<V>>, OutOfMemory>
        requires { length ids.now ≤ most_rows }
        ensures { IfOk result (λ rows. rows.items ≡ flat_map (λ choice. map (with_choice self.now.named choice) rest.now) (map (param_choice fixture) (enumerate_from 0 ids.now))) }
    {
        let mut rows = Vec::new(self.alloc);
        for number in 0..ids.len() {
            self.push_param(&mut rows, (fixture, number as u32), &ids[number], rest)?;
        }
        Ok(rows)
    }

    /// The one row of no lists.
    fn no_choice<V: Copy>(&self) -> Result<Vec<ParamRow<V>>, OutOfMemory>
        ensures { IfOk result (λ rows. rows.items ≡ rows_in self.now.named []) }
    {
        let mut rows = Vec::new(self.alloc);
        rows.push(ParamRow {
            bound: Seq::new(self.alloc),
            fixture_params: Pairs::new(self.alloc),
            id: None,
            marks: Seq::new(self.alloc),
        })?;
        Ok(rows)
    }

    fn rows_of_marks<V: Copy>(
        &self,
        marks: &[ParamMark<V>],
    ) -> Result<Vec<ParamRow<V>>, OutOfMemory>
        ensures { IfOk result (λ rows. rows.items ≡ rows_in self.now.named (map mark_choices marks.now)) }
    {
        let mut rows = self.no_choice()?;
        let mut at = marks.len();
        while at > 0 {
            at -= 1;
            rows = self.with_mark(&marks[at], &rows)?;
        }
        Ok(rows)
    }

    fn rows_of<V: Copy>(
        &self,
        fixtures: &[(u32, Vec<PyId>)],
        marks: &[ParamMark<V>],
    ) -> Result<Vec<ParamRow<V>>, OutOfMemory>
        requires { All (λ fixture. length (fixture_choices {V = V} fixture) ≤ most_rows) fixtures.now }
        ensures { IfOk result (λ rows. rows.items ≡ rows_in self.now.named (choice_lists fixtures.now marks.now)) }
    {
        let mut rows = self.rows_of_marks(marks)?;
        let mut at = fixtures.len();
        while at > 0 {
            at -= 1;
            let (fixture, ids) = &fixtures[at];
            rows = self.with_fixture(*fixture, ids, &rows)?;
        }
        Ok(rows)
    }
}

fn all_named<V>(sets: &[ParamSet<V>]) -> bool
    ensures { result ≡ list_all (λ set. is_some set.id) sets.now }
{
    sets.iter().all(|set| set.id.is_some())
}

/// Whether each set has an id.
fn is_named<V>(marks: &[ParamMark<V>]) -> bool
    ensures { result ≡ is_named marks.now }
{
    marks.iter().all(|mark| all_named(mark.sets.items()))
}

/// The rows of a test with these parametrised fixtures, in closure order with the ids of their parameters, and these marks, the
/// nearest first. `known` are the names that are asked for.
pub fn rows<V: Copy>(
    alloc: Global,
    fixtures: &[(u32, Vec<PyId>)],
    marks: &[ParamMark<V>],
    known: &[u32],
) -> Result<Vec<ParamRow<V>>, RowFault>
    ensures sound { OnOk result (first_fault fixtures.now marks.now known.now ≡ None) }
    ensures rows { IfOk result (λ rows. rows.items ≡ rows_of fixtures.now marks.now) }
    ensures fault { IfErr result (λ fault. fault ≡ NoMemory ⊎ first_fault fixtures.now marks.now known.now ≡ Some fault) }
{
    check_marks(alloc, marks, known)?;
    let many = count(fixtures, marks);
    if many > MOST_ROWS {
        return Err(RowFault::TooMany);
    }
    if many == 0 {
        return Ok(Vec::new(alloc));
    }
    let making = RowMaker {
        alloc,
        named: is_named(marks),
    };
    Ok(making.rows_of(fixtures, marks)?)
}
