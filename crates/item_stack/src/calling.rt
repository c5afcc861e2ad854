// The values that a test's call takes.

ghost use Rattle.std.specs.Prelude.{◌≡◌, IfOk};
ghost use Rattle.item_stack.specs.Answers.{value_given, values_given};

use seq::{OutOfMemory, Seq};
use session_types::DefId;
use setup_stack::Grant;
use std::alloc::Global;

/// The value that answered a definition's demand.
fn value_given<V: Copy>(given: &[Grant<V>], def: DefId) -> Option<V>
    ensures { result ≡ value_given def given.now }
{
    let mut rest = given;
    'given: while let Some((grant, others)) = rest.split_first() {
        if def.number() == grant.def.number() {
            return Some(grant.value);
        }
        rest = others;
    }
    None
}

fn value_of<V: Copy>(given: &[Grant<V>], argument: Option<DefId>) -> Option<V>
    ensures { result ≡ argument_given given.now argument }
{
    match argument {
        Some(def) => value_given(given, def),
        None => None,
    }
}

ghost use Rattle.item_stack.specs.Answers.{argument_given};

/// The values of a test's arguments, where each has one: of each the one that answered the demand of its definition.
pub fn values_given<V: Copy>(
    alloc: Global,
    given: &[Grant<V>],
    asked: &[Option<DefId>],
) -> Result<Option<Seq<V>>, OutOfMemory>
    ensures { IfOk result (λ values. values ≡ values_given given.now asked.now) }
{
    let mut values = Seq::new(alloc);
    let mut rest = asked;
    'asked: while let Some((argument, others)) = rest.split_first() {
        let Some(value) = value_of(given, *argument) else {
            return Ok(None);
        };
        values.push(value)?;
        rest = others;
    }
    Ok(Some(values))
}
