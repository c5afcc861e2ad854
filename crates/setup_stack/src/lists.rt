ghost use Rattle.std.specs.Prelude.{◌≡◌, ℕ, List, [], ◌∷◌, ◌++◌, map, IfOk, OnOk};
ghost use Rattle.std.specs.Option.{option_to_list};
ghost use Rattle.session_types.specs.Numbers.{among, with_number};
ghost use Rattle.session_rules.specs.Demand.{is_same};
ghost use Rattle.setup_stack.specs.Grants.{bases_of, orders_of};

use crate::answers::Grant;
use seq::{OutOfMemory, Seq};
use session_types::{Bases, Numbers};
use std::alloc::Global;

fn has_number(numbers: &[u64], number: u64) -> bool
    ensures { result ≡ among number numbers.now }
{
    numbers.iter().any(|one| *one == number)
}

/// Adds a number that isn't there.
fn add_number(out: &mut Numbers, number: u64) -> Result<(), OutOfMemory>
    ensures { OnOk result (out.new ≡ with_number number out.old) }
{
    if has_number(out.items(), number) {
        return Ok(());
    }
    out.push(number)
}

/// The numbers of those that were given, each once.
pub fn orders_of<V>(alloc: Global, given: &[Grant<V>]) -> Result<Numbers, OutOfMemory>
    ensures { IfOk result (λ numbers. numbers ≡ orders_of given.now []) }
{
    let mut out = Numbers::new(alloc);
    for one in given {
        add_number(&mut out, one.order)?;
    }
    Ok(out)
}

/// The numbers of those that were given, and of all on which they depend.
pub fn bases_of<V>(alloc: Global, given: &[Grant<V>]) -> Result<Bases, OutOfMemory>
    ensures { IfOk result (λ numbers. numbers ≡ bases_of given.now []) }
{
    let mut out = Bases::new(alloc);
    for one in given {
        out.add(alloc, one.order)?;
        out.add_all(alloc, &one.bases)?;
    }
    Ok(out)
}

/// The values that were given.
pub fn values_of<V: Copy>(alloc: Global, given: &[Grant<V>]) -> Result<Vec<V>, OutOfMemory>
    ensures { IfOk result (λ values. values.items ≡ map (λ one. one.value) given.now) }
{
    let mut out = Vec::new(alloc);
    for one in given {
        out.push(one.value)?;
    }
    Ok(out)
}

/// Whether two parameters are the same.
pub fn is_same(one: Option<u32>, other: Option<u32>) -> bool
    ensures { result ≡ is_same one other }
{
    match (one, other) {
        (None, None) => true,
        (None, Some(_)) => false,
        (Some(_), None) => false,
        (Some(x), Some(y)) => x == y,
    }
}

/// Appends an exception, where there is one.
pub fn push_if<E: Drop>(raised: &mut Seq<E>, one: Option<E>) -> Result<(), OutOfMemory>
    ensures { OnOk result (raised.new ≡ raised.old ++ option_to_list one) }
{
    match one {
        None => Ok(()),
        Some(thrown) => raised.push(thrown),
    }
}

/// A list of one.
pub fn alone<E: Drop>(alloc: Global, one: E) -> Result<Seq<E>, OutOfMemory>
    ensures { IfOk result (λ list. list ≡ one ∷ []) }
{
    let mut list = Seq::new(alloc);
    list.push(one)?;
    Ok(list)
}
