// Which frames of a body that has stopped go on.

ghost use Rattle.std.specs.Prelude.{◌≡◌, ◌++◌, List, [], ◌∷◌, IfOk, OnOk, if◌then◌else◌};
ghost use Rattle.machine_state.specs.Kept as kept;
ghost use Rattle.machine_state.specs.declared.frame.Frame.{Frame};

use crate::frame::{FlowFrame, Frame, ModuleFrame, SimpleFrame, UnwindFrame};
use crate::frozen::FrozenBody;
use frame_stacks::Stacks;
use seq::OutOfMemory;
use std::alloc::Global;

/// What becomes of a frame of a body that has stopped: it is kept, it is passed, or the body ends there.
#[derive(Clone, Copy, PartialEq, Eq)]
pub enum Part {
    Kept,
    Passed,
    Ended,
}

fn simple_part(frame: &SimpleFrame) -> Part
    ensures { result ≡ kept.simple_part frame.now }
{
    match frame {
        SimpleFrame::Receive(_, _) => Part::Kept,
        SimpleFrame::Forget => Part::Passed,
        SimpleFrame::Assign(_) => Part::Passed,
        SimpleFrame::Targets(_, _, _) => Part::Passed,
        SimpleFrame::Augment(_, _, _) => Part::Passed,
        SimpleFrame::Store(_) => Part::Passed,
        SimpleFrame::Raise => Part::Passed,
        SimpleFrame::Throw => Part::Passed,
        SimpleFrame::Return => Part::Passed,
        SimpleFrame::Fail => Part::Passed,
        SimpleFrame::Explain(_) => Part::Passed,
        SimpleFrame::Yield(_) => Part::Passed,
    }
}

fn flow_part(frame: &FlowFrame) -> Part
    ensures { result ≡ kept.flow_part frame.now }
{
    match frame {
        FlowFrame::Block(_, _, _) => Part::Kept,
        FlowFrame::Branch(_, _, _, _, _) => Part::Passed,
        FlowFrame::Test(_, _) => Part::Passed,
        FlowFrame::Iterable(_, _) => Part::Passed,
        FlowFrame::Taken(_, _, _) => Part::Passed,
        FlowFrame::Context(_, _) => Part::Passed,
        FlowFrame::Turn(_, _, _) => Part::Ended,
        FlowFrame::ForTurn(_, _, _, _) => Part::Ended,
        FlowFrame::Raises(_, _, _) => Part::Ended,
    }
}

fn unwind_part(frame: &UnwindFrame) -> Part
    ensures { result ≡ kept.unwind_part frame.now }
{
    match frame {
        UnwindFrame::Guarded(_, _) => Part::Kept,
        UnwindFrame::Catch(_, _) => Part::Passed,
        UnwindFrame::Handling(_, _) => Part::Passed,
        UnwindFrame::Named(_) => Part::Passed,
        UnwindFrame::Last(_) => Part::Passed,
        UnwindFrame::Again(_) => Part::Passed,
    }
}

fn module_part(frame: &ModuleFrame) -> Part
    ensures { result ≡ kept.module_part frame.now }
{
    match frame {
        ModuleFrame::Load(_, _) => Part::Ended,
        ModuleFrame::Import(_, _, _) => Part::Passed,
        ModuleFrame::From(_, _, _) => Part::Passed,
        ModuleFrame::Each(_, _, _, _, _) => Part::Passed,
    }
}

fn part_of(frame: &Frame) -> Part
    ensures { result ≡ kept.part_of frame.now }
{
    match frame {
        Frame::Operand(_) => Part::Passed,
        Frame::Chain(_) => Part::Passed,
        Frame::Call(_) => Part::Passed,
        Frame::Item(_) => Part::Passed,
        Frame::Simple(frame) => simple_part(frame),
        Frame::Target(_) => Part::Passed,
        Frame::Flow(frame) => flow_part(frame),
        Frame::Unwind(frame) => unwind_part(frame),
        Frame::Define(_) => Part::Passed,
        Frame::Module(frame) => module_part(frame),
        Frame::Caller(_) => Part::Ended,
        Frame::New(_) => Part::Ended,
    }
}

/// What a `yield` is given is used on this line.
fn place(frame: &mut Frame, line: u32)
    ensures { frame.new ≡ kept.received_on line frame.old }
{
    match frame {
        Frame::Simple(SimpleFrame::Receive(_, at)) => *at = line,
        _ => {}
    }
}

/// Puts the next frame of a body behind those so far, where it is kept; whether there are more.
#[tactic(auto, using(crate::proofs::Kept::keeps, crate::proofs::Kept::passes, crate::proofs::Kept::ends))]
fn keep(frames: &mut Vec<Frame>, frame: Frame, line: u32) -> Result<bool, OutOfMemory>
    ensures { IfOk result (λ more. (below : List Frame) → frames.new.items ++ (if more then kept.frames_kept line below else []) ≡ frames.old.items ++ kept.frames_kept line (frame ∷ below)) }
{
    match part_of(&frame) {
        Part::Kept => {
            let mut frame = frame;
            place(&mut frame, line);
            frames.push(frame)?;
            Ok(true)
        }
        Part::Passed => {
            drop(frame);
            Ok(true)
        }
        Part::Ended => {
            drop(frame);
            Ok(false)
        }
    }
}

/// Takes the frames of a body up to its end; those that are kept, the innermost first.
pub fn take_kept(
    stacks: &mut Stacks<Frame, FrozenBody>,
    line: u32,
    alloc: Global,
) -> Result<Vec<Frame>, OutOfMemory>
    ensures frames { IfOk result (λ frames. frames.items ≡ kept.frames_kept line stacks.old.own) }
    ensures frozen { stacks.new.frozen ≡ stacks.old.frozen }
{
    let mut frames = Vec::new(alloc);
    'down: loop {
        let Some(frame) = stacks.pop() else {
            return Ok(frames);
        };
        if !keep(&mut frames, frame, line)? {
            return Ok(frames);
        }
    }
}

/// Puts frames on the own stack, the last first.
pub fn put_back(
    stacks: &mut Stacks<Frame, FrozenBody>,
    frames: Vec<Frame>,
) -> Result<(), OutOfMemory>
    ensures own { OnOk result (stacks.new.own ≡ frames.items ++ stacks.old.own) }
    ensures frozen { stacks.new.frozen ≡ stacks.old.frozen }
{
    let mut frames = frames;
    'back: loop {
        let Some(frame) = frames.pop() else {
            return Ok(());
        };
        stacks.push(frame)?;
    }
}
