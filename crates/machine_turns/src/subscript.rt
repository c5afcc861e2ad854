// The subscript of a value.

ghost use Rattle.std.specs.Prelude.{◌≡◌, ℕ, IfOk};
ghost use Rattle.machine_state.specs.py_items.Items.{subscript_of};
ghost use Rattle.machine_state.specs.py_world.Outcome.{operated};
ghost use Rattle.machine_state.specs.Frames.{machine_rest, site_now, state_of, Follows};
ghost use Rattle.machine_state.specs.Work.{Falls};

use machine_state::machine::{Machine, Origin, TurnEnd};
use machine_state::subscript_made;
use py_values::index::Index;
use py_values::value::Value;
use seq::OutOfMemory;

/// A subscript of a value: its step, its cost, and its end.
pub fn subscript(m: &mut Machine, x: Value, index: &Index) -> Result<TurnEnd, OutOfMemory>
    ensures next { IfOk result (λ t. Follows t m.new m.old.left (operated (subscript_of m.old.heap x index.now) (site_now m.old) (state_of m.old) (machine_rest m.old))) }
    ensures work { IfOk result (λ t. (work : ℕ) → Falls t m.new m.old.left work) }
{
    if !m.spend() {
        return Ok(TurnEnd::Exhausted(m.trace(Origin::Code)?));
    }
    let made = subscript_made(m.alloc, &m.heap, x, index, m.left)?;
    m.pay(made, Origin::Code)
}
