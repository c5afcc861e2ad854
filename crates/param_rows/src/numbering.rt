ghost use Rattle.std.specs.Prelude.{◌≡◌, ◌≢◌, ◌++◌, ◌∷◌, [], AllPairs, IfOk, OnOk, None, Some, not, true};
ghost use Rattle.std.specs.Fmt.{decimal};
ghost use Rattle.std.specs.Map.{lookup};
ghost use Rattle.param_rows.specs.Taken.{TakenTo, HaveSameIds, TellsMade};
ghost use Rattle.param_rows.specs.Ids.{same_id, has_id, ends_in_digit, joint, numbered, first_free, made_of, unique_of};

use crate::id::PyId;
use crate::taken::{IdSet, IdTable};
use seq::OutOfMemory;
use std::alloc::Global;

/// Appends a number in decimal digits.
fn push_number(alloc: Global, chars: &mut Vec<char>, number: usize) -> Result<(), OutOfMemory>
    ensures { OnOk result (chars.new.items ≡ chars.old.items ++ decimal number) }
{
    let text = format!(in alloc; "{number}")?;
    for digit in text.as_bytes() {
        chars.push(*digit as char)?;
    }
    Ok(())
}

fn ends_in_digit(id: &[char]) -> bool
    ensures { result ≡ ends_in_digit id.now }
{
    match id.last() {
        Some(last) => last.is_ascii_digit(),
        None => false,
    }
}

/// Appends `_` where the id ends in a digit.
fn push_joint(id: &mut Vec<char>) -> Result<(), OutOfMemory>
    ensures { OnOk result (id.new.items ≡ id.old.items ++ joint id.old.items) }
{
    if ends_in_digit(id) {
        id.push('_')?;
    }
    Ok(())
}

/// The id with a number behind it, after `_` where it ends in a digit.
#[tactic(auto, unfolding(crate::specs::Ids::numbered))]
fn numbered(alloc: Global, id: &PyId, number: usize) -> Result<PyId, OutOfMemory>
    ensures { IfOk result (λ one. one ≡ numbered id.now number) }
{
    let mut chars = Vec::from_slice(alloc, id.chars())?;
    push_joint(&mut chars)?;
    push_number(alloc, &mut chars, number)?;
    Ok(PyId::from_vec(chars))
}

fn is_free(taken: &IdSet, id: &PyId) -> bool
    ensures { result ≡ not (has_id id.now taken.now) }
{
    !taken.has(id)
}

/// The id with the first number whose result is neither among the ids given nor already made, and the number behind it. All
/// numbers below `from` are taken.
fn first_free(
    alloc: Global,
    ids: &[PyId],
    made: &[PyId],
    taken: &IdSet,
    id: &PyId,
    from: usize,
) -> Result<(PyId, usize), OutOfMemory>
    requires same { HaveSameIds taken.now (ids.now ++ made.now) }
    requires below { TakenTo (ids.now ++ made.now) id.now from }
    ensures value { IfOk result (λ found. found.0 ≡ first_free (ids.now ++ made.now) id.now) }
    ensures next { IfOk result (λ found. TakenTo (ids.now ++ (made.now ++ found.0 ∷ [])) id.now found.1) }
{
    for number in from..ids.len() + made.len() + 1 {
        let one = numbered(alloc, id, number)?;
        if is_free(taken, &one) {
            return Ok((one, number + 1));
        }
    }
    unreachable!()
}

/// What an occurrence of an id that is repeated becomes.
fn numbered_from(
    alloc: Global,
    ids: &[PyId],
    made: &[PyId],
    table: &mut IdTable,
    id: &PyId,
    from: usize,
) -> Result<PyId, OutOfMemory>
    requires tells { TellsMade ids.now made.now table.old }
    requires number { lookup (same_id id.now) table.old.numbers ≡ Some from }
    ensures value { IfOk result (λ one. one ≡ made_of ids.now made.now id.now) }
    ensures table { IfOk result (λ one. TellsMade ids.now (made.now ++ one ∷ []) table.new) }
{
    let (one, next) = first_free(alloc, ids, made, &table.taken, id, from)?;
    table.make(alloc, id, &one, next)?;
    Ok(one)
}

/// An id that stands among those given once stays.
fn stays(
    alloc: Global,
    ids: &[PyId],
    made: &[PyId],
    table: &IdTable,
    id: &PyId,
) -> Result<PyId, OutOfMemory>
    requires tells { TellsMade ids.now made.now table.now }
    requires given { has_id id.now ids.now ≡ true }
    requires number { lookup (same_id id.now) table.now.numbers ≡ None }
    ensures value { IfOk result (λ one. one ≡ made_of ids.now made.now id.now) }
    ensures table { IfOk result (λ one. TellsMade ids.now (made.now ++ one ∷ []) table.now) }
{
    let same = PyId::from_chars(alloc, id.chars())?;
    Ok(same)
}

/// What an occurrence of an id becomes.
fn made_of(
    alloc: Global,
    ids: &[PyId],
    made: &[PyId],
    table: &mut IdTable,
    id: &PyId,
) -> Result<PyId, OutOfMemory>
    requires tells { TellsMade ids.now made.now table.old }
    requires given { has_id id.now ids.now ≡ true }
    ensures value { IfOk result (λ one. one ≡ made_of ids.now made.now id.now) }
    ensures table { IfOk result (λ one. TellsMade ids.now (made.now ++ one ∷ []) table.new) }
{
    match table.number(id) {
        Some(from) => numbered_from(alloc, ids, made, table, id, from),
        None => stays(alloc, ids, made, table, id),
    }
}

/// The ids, each occurrence of one that occurs more than once with a number behind it.
pub fn unique_ids(alloc: Global, ids: &[PyId]) -> Result<Vec<PyId>, OutOfMemory>
    ensures value { IfOk result (λ made. made.items ≡ unique_of ids.now) }
    ensures distinct { IfOk result (λ made. AllPairs (λ one other. one ≢ other) made.items) }
{
    let mut table = IdTable::of(alloc, ids)?;
    let mut made = Vec::new(alloc);
    for id in ids {
        made.push(made_of(alloc, ids, &made, &mut table, id)?)?;
    }
    Ok(made)
}
