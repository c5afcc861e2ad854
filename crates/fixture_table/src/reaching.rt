ghost use Rattle.std.specs.Prelude.{◌≡◌, ◌<◌, ◌≤◌, ◌||◌, ◌==◌, ℕ, List, [], length, true, IfOk, OnOk, slice_index_or};
ghost use Rattle.session_types.specs.Numbers.{among};
ghost use Rattle.fixture_table.specs.Marks.{Marks, Below, IsPrefixOf, row_of};
ghost use Rattle.fixture_table.specs.Faults.{RequestPath};

use seq::{OutOfMemory, Seq};
use std::alloc::Global;

/// Marks what isn't marked yet, and lists it.
pub fn mark_all(
    seen: &mut Vec<bool>,
    reached: &mut Vec<usize>,
    more: &[usize],
) -> Result<(), OutOfMemory>
    requires below { Below more.now (length seen.old.items) }
    requires marks { Marks seen.old.items reached.old.items }
    ensures marks { OnOk result (Marks seen.new.items reached.new.items) }
    ensures members { OnOk result ((e : ℕ) → among e reached.new.items ≡ (among e reached.old.items || among e more.now)) }
    ensures keeps { OnOk result (IsPrefixOf reached.old.items reached.new.items) }
    ensures size { length seen.new.items ≡ length seen.old.items }
{
    for one in more {
        mark_one(seen, reached, *one)?;
    }
    Ok(())
}

fn mark_one(seen: &mut Vec<bool>, reached: &mut Vec<usize>, one: usize) -> Result<(), OutOfMemory>
    requires below { one < length seen.old.items }
    requires marks { Marks seen.old.items reached.old.items }
    ensures marks { OnOk result (Marks seen.new.items reached.new.items) }
    ensures members { OnOk result ((e : ℕ) → among e reached.new.items ≡ (among e reached.old.items || (one == e))) }
    ensures keeps { OnOk result (IsPrefixOf reached.old.items reached.new.items) }
    ensures size { length seen.new.items ≡ length seen.old.items }
{
    if seen[one] {
        return Ok(());
    }
    reached.push(one)?;
    seen[one] = true;
    Ok(())
}

/// Marks what a definition asks for.
fn mark_asked(
    seen: &mut Vec<bool>,
    reached: &mut Vec<usize>,
    asks: &[Seq<usize>],
    at: usize,
) -> Result<(), OutOfMemory>
    requires at { at < length asks.now }
    requires below { (d : ℕ) → Below (row_of asks.now d) (length seen.old.items) }
    requires marks { Marks seen.old.items reached.old.items }
    ensures marks { OnOk result (Marks seen.new.items reached.new.items) }
    ensures members { OnOk result ((e : ℕ) → among e reached.new.items ≡ (among e reached.old.items || among e (row_of asks.now at))) }
    ensures keeps { OnOk result (IsPrefixOf reached.old.items reached.new.items) }
    ensures size { length seen.new.items ≡ length seen.old.items }
{
    mark_all(seen, reached, asks[at].items())
}

/// Whether a definition is reached from itself.
pub fn is_reached(alloc: Global, asks: &[Seq<usize>], from: usize) -> Result<bool, OutOfMemory>
    requires from { from < length asks.now }
    requires below { (d : ℕ) → Below (row_of asks.now d) (length asks.now) }
    ensures yes { IfOk result (λ b. b ≡ true → RequestPath (row_of asks.now) from from) }
    ensures no { IfOk result (λ b. RequestPath (row_of asks.now) from from → b ≡ true) }
{
    let mut seen = vec![in alloc; false; asks.len()]?;
    let mut reached = Vec::new(alloc);
    mark_asked(&mut seen, &mut reached, asks, from)?;
    for place in 0..usize::MAX {
        if place >= reached.len() {
            return Ok(seen[from]);
        }
        let at = reached[place];
        mark_asked(&mut seen, &mut reached, asks, at)?;
    }
    Ok(seen[from])
}
