// Parts, blocks and bodies begin.

ghost use Rattle.std.specs.Prelude.{◌≡◌, ◌+◌, [], ◌∷◌, IfOk, Some};
ghost use Rattle.machine_state.specs.core_meaning.Expressions.{eval};
ghost use Rattle.machine_state.specs.core_meaning.Statements.{core_block_body};
ghost use Rattle.py_core.specs.Blocks.{stmts_in};
ghost use Rattle.machine_state.specs.py_world.Outcome.{call_end};
ghost use Rattle.machine_state.specs.py_world.Site.{trace_of};
ghost use Rattle.machine_state.specs.py_world.World.{state};
ghost use Rattle.machine_state.specs.Places.{depth_of, scene_in, site_of};
ghost use Rattle.machine_state.specs.Frames.{after_stack, handled_exception, layers_of, outer_of, machine_rest, site_now, state_of, todo, world_of};
ghost use Rattle.machine_state.specs.Work.{block_work, doing_work, frame_work, stack_work, weight};

use machine_state::frame::{CallerFrame, End, FlowFrame, Frame};
use machine_state::locals::Locals;
use machine_state::machine::{Machine, NextAction};
use machine_state::place::{Location, Place};
use py_core::{CoreBlock, CoreExpr};
use seq::OutOfMemory;
use std::mem;
use std::rc::Rc;

/// Puts a frame on the stack, and goes on with an expression.
pub fn descend(m: &mut Machine, frame: Frame, e: &Rc<CoreExpr>) -> Result<NextAction, OutOfMemory>
    ensures next { IfOk result (λ d. todo d m.new
        ≡ eval e.now.value (site_of m.old.here (outer_of (frame ∷ m.old.stack.own)) (handled_exception (frame ∷ m.old.stack.own))) (state_of m.old) (after_stack (frame ∷ m.old.stack.own) m.old.here)) }
    ensures left { m.new.left ≡ m.old.left }
    ensures work { IfOk result (λ d. doing_work d + stack_work m.new ≡ weight e.now.value + (frame_work frame + stack_work m.old)) }
{
    m.stack.push(frame)?;
    Ok(NextAction::Evaluate(e.clone()?))
}

/// Begins a block.
pub fn begin_block(m: &mut Machine, b: Rc<CoreBlock>) -> Result<NextAction, OutOfMemory>
    ensures next { IfOk result (λ d. todo d m.new ≡ core_block_body (layers_of m.old.stack.own) b.value (site_now m.old).scene (state_of m.old) (machine_rest m.old)) }
    ensures left { m.new.left ≡ m.old.left }
    ensures work { IfOk result (λ d. doing_work d + stack_work m.new ≡ block_work (stmts_in b.value) + stack_work m.old) }
{
    let frame = FlowFrame::Block(b, 0, m.here.line);
    m.stack.push(Frame::Flow(frame))?;
    Ok(NextAction::Back(End::Next))
}

/// Opens a body without local names, over where the machine was.
fn open_body(m: &mut Machine, place: Place) -> Result<CallerFrame, OutOfMemory>
    ensures caller { IfOk result (λ c. c ≡ record { from = Some m.old.here; locals = m.old.locals; temps = m.old.temps }) }
    ensures opened { IfOk result (λ c. (m.new.temps.items ≡ []) × (m.new ≡ record m.old { here = record { place = place; around = depth_of m.old.here; line = 0 }; locals = []; temps = m.new.temps })) }
    ensures left { m.new.left ≡ m.old.left }
{
    let around = m.here.depth()?;
    let here = Location {
        place,
        around,
        line: 0,
    };
    let none = Vec::new(m.alloc);
    let names = Locals::new(m.alloc);
    let here = mem::replace(&mut m.here, here);
    let locals = mem::replace(&mut m.locals, names);
    let temps = mem::replace(&mut m.temps, none);
    Ok(CallerFrame {
        from: Some(here),
        locals,
        temps,
    })
}

/// Begins the body of a class, or of a module that is loaded in mid-run; behind it the names, temporaries and place around it are
/// there again.
pub fn begin_body(
    m: &mut Machine,
    place: Place,
    body: Rc<CoreBlock>,
) -> Result<NextAction, OutOfMemory>
    ensures next { IfOk result (λ d. todo d m.new ≡ core_block_body [] body.value (scene_in place (depth_of m.old.here) (trace_of (site_now m.old)) (handled_exception m.old.stack.own)) (state [] [] (world_of m.old))
        (λ o. machine_rest m.old (call_end (state_of m.old) o))) }
    ensures left { m.new.left ≡ m.old.left }
    ensures work { IfOk result (λ d. doing_work d + stack_work m.new ≡ block_work (stmts_in body.value) + 1 + stack_work m.old) }
{
    let caller = open_body(m, place)?;
    m.stack.push(Frame::Caller(caller))?;
    begin_block(m, body)
}
