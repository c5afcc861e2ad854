// The frames of a body that goes on, over the end of a call by the runner.

ghost use Rattle.std.specs.Prelude.{IfOk};
ghost use Rattle.machine_frames.specs.Remaining.{Woken};

use machine_state::frame::{CallerFrame, Frame};
use machine_state::frozen::FrozenBody;
use machine_state::locals::Locals;
use machine_state::stack::ControlStack;
use seq::OutOfMemory;
use std::alloc::Global;

/// Nothing waits but the frames of a frozen frame, where it is out, over the end of a call by the runner. What was kept with them.
pub fn wake_frames(
    stack: &mut ControlStack,
    number: usize,
    alloc: Global,
) -> Result<Option<FrozenBody>, OutOfMemory>
    ensures { IfOk result (λ body. Woken body number stack.old stack.new) }
{
    let caller = CallerFrame {
        from: None,
        locals: Locals::new(alloc),
        temps: Vec::new(alloc),
    };
    stack.clear();
    stack.push(Frame::Caller(caller))?;
    Ok(stack.thaw(number))
}
