ghost use Rattle.std.specs.Prelude.{◌≡◌, ◌++◌, ◌∷◌, None, Some, IfOk, OnOk, if◌then◌else◌};
ghost use Rattle.std.specs.List.{zip};
ghost use Rattle.std.specs.Option.{option_copied};
ghost use Rattle.param_rows.specs.Rows.{dash_joined, set_choice, param_choice};
ghost use Rattle.param_rows.specs.Steps.{with_choice};

use crate::id::PyId;
use crate::param::{Pairs, ParamRow, ParamSet};
use seq::{OutOfMemory, Seq};
use std::alloc::Global;

/// Two ids with `-` between them.
fn joined(alloc: Global, id: &PyId, rest: &PyId) -> Result<PyId, OutOfMemory>
    ensures { IfOk result (λ new. new ≡ id.now ++ 45 ∷ rest.now) }
{
    let mut chars = Vec::from_slice(alloc, id.chars())?;
    chars.push('-')?;
    chars.extend_from_slice(rest.chars())?;
    Ok(PyId::from_vec(chars))
}

fn copied(alloc: Global, id: &Option<PyId>) -> Result<Option<PyId>, OutOfMemory>
    ensures { IfOk result (λ new. new ≡ id.now) }
{
    match id {
        Some(id) => Ok(Some(PyId::from_chars(alloc, id.chars())?)),
        None => Ok(None),
    }
}

/// An id before what follows.
fn id_before(alloc: Global, id: &PyId, rest: &Option<PyId>) -> Result<Option<PyId>, OutOfMemory>
    ensures { IfOk result (λ new. new ≡ dash_joined (Some id.now) rest.now) }
{
    match rest {
        Some(rest) => Ok(Some(joined(alloc, id, rest)?)),
        None => Ok(Some(PyId::from_chars(alloc, id.chars())?)),
    }
}

/// A set's id, if it has one, before what follows.
fn set_id_before(
    alloc: Global,
    id: &Option<PyId>,
    rest: &Option<PyId>,
) -> Result<Option<PyId>, OutOfMemory>
    ensures { IfOk result (λ new. new ≡ dash_joined id.now rest.now) }
{
    match id {
        Some(id) => id_before(alloc, id, rest),
        None => copied(alloc, rest),
    }
}

fn marks_before<V: Copy>(alloc: Global, one: &[V], other: &[V]) -> Result<Seq<V>, OutOfMemory>
    ensures { IfOk result (λ new. new ≡ one.now ++ other.now) }
{
    let mut marks = Vec::from_slice(alloc, one)?;
    marks.extend_from_slice(other)?;
    Ok(Seq::from_vec(marks))
}

/// The names with their values.
fn bound<V: Copy>(alloc: Global, names: &[u32], values: &[V]) -> Result<Vec<(u32, V)>, OutOfMemory>
    ensures { IfOk result (λ pairs. pairs.items ≡ zip names.now values.now) }
{
    let mut pairs = Vec::new(alloc);
    for at in 0..names.len().min(values.len()) {
        pairs.push((names[at], values[at]))?;
    }
    Ok(pairs)
}

/// The names with their values, before the pairs that follow.
fn bound_before<V: Copy>(
    alloc: Global,
    names: &[u32],
    values: &[V],
    rest: &[(u32, V)],
) -> Result<Seq<(u32, V)>, OutOfMemory>
    ensures { IfOk result (λ new. new ≡ zip names.now values.now ++ rest.now) }
{
    let mut pairs = bound(alloc, names, values)?;
    pairs.extend_from_slice(rest)?;
    Ok(Seq::from_vec(pairs))
}

fn pair_before(alloc: Global, pair: (u32, u32), rest: &[(u32, u32)]) -> Result<Pairs, OutOfMemory>
    ensures { IfOk result (λ new. new ≡ pair ∷ rest.now) }
{
    let mut pairs = Vec::new(alloc);
    pairs.push(pair)?;
    pairs.extend_from_slice(rest)?;
    Ok(Pairs::from_vec(pairs))
}

/// How rows are made.
#[derive(Clone, Copy)]
pub struct RowMaker {
    pub alloc: Global,
    /// Whether they have ids.
    pub named: bool,
}

impl RowMaker {
    /// A row with a set of a mark before it.
    pub fn with_set<V: Copy>(
        &self,
        names: &[u32],
        set: &ParamSet<V>,
        row: &ParamRow<V>,
    ) -> Result<ParamRow<V>, OutOfMemory>
        ensures { IfOk result (λ new. new ≡ with_choice self.now.named (set_choice names.now set.now) row.now) }
    {
        let id = if self.named {
            set_id_before(self.alloc, &set.id, &row.id)?
        } else {
            None
        };
        Ok(ParamRow {
            bound: bound_before(self.alloc, names, set.values.items(), row.bound.items())?,
            fixture_params: row.fixture_params.copied(self.alloc)?,
            id,
            marks: marks_before(self.alloc, set.marks.items(), row.marks.items())?,
        })
    }

    /// A row with a parameter of a fixture before it.
    pub fn with_param<V: Copy>(
        &self,
        param: (u32, u32),
        id: &PyId,
        row: &ParamRow<V>,
    ) -> Result<ParamRow<V>, OutOfMemory>
        ensures { IfOk result (λ new. new ≡ with_choice self.now.named (param_choice param.0 (param.1, id.now)) row.now) }
    {
        let id = if self.named {
            id_before(self.alloc, id, &row.id)?
        } else {
            None
        };
        Ok(ParamRow {
            bound: row.bound.copied(self.alloc)?,
            fixture_params: pair_before(self.alloc, param, row.fixture_params.items())?,
            id,
            marks: row.marks.copied(self.alloc)?,
        })
    }
}
