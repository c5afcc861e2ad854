// Bodies that stop at a `yield`, and how they begin and go on.

use crate::act::values_at;
use crate::told::{MemoryResult, copied, ended_told, repr_told};
use py_machine::{
    Begun, BegunOut, Frozen, Sent, World, abandon, begin, call, heap, is_out, resume,
};
use py_values::value::Value;
use py_world::{Ended, Outcome, Thrown};
use std::alloc::Global;

/// Gives up a frame that should be out; a world without it is spent, and the rows behind tell it.
fn give_up_one(world: &mut World, frozen: Frozen) {
    if is_out(world, &frozen) {
        abandon(world, frozen);
    } else {
        py_machine::give_up(world, frozen);
    }
}

/// Gives a frame up, where there is one.
pub fn give_up(world: &mut World, frame: Option<Frozen>) {
    match frame {
        Some(frozen) => give_up_one(world, frozen),
        None => {}
    }
}

/// Keeps the frame of a body that has stopped; the one before is given up.
fn keep(world: &mut World, frame: &mut Option<Frozen>, frozen: Frozen) {
    let before = frame.replace(frozen);
    give_up(world, before);
}

/// What is told of a begin or a resumption.
fn begun_told(
    alloc: Global,
    world: &mut World,
    frame: &mut Option<Frozen>,
    begun: Begun,
) -> MemoryResult<String> {
    let Begun { out, steps } = begun;
    match out {
        BegunOut::Yielded(v, frozen) => {
            keep(world, frame, frozen);
            let text = repr_told(alloc, heap(world), v)?;
            Ok(format!(in alloc; "yields {text}, {steps} steps")?)
        }
        BegunOut::Over(out) => ended_told(alloc, world, &Ended { out, steps }),
    }
}

/// What is told of a begin that is spelled as a path, a name and arguments.
pub fn begin_told(
    alloc: Global,
    world: &mut World,
    frame: &mut Option<Frozen>,
    spelled: &str,
    budget: u64,
) -> MemoryResult<String> {
    let before = frame.take();
    give_up(world, before);
    let values = values_at(alloc, world, spelled)?;
    let Some((f, args)) = values.split_first() else {
        return copied(alloc, "no name");
    };
    let begun = begin(world, *f, args, budget)?;
    begun_told(alloc, world, frame, begun)
}

/// What is told of the body that is out when it goes on.
fn resume_told(
    alloc: Global,
    world: &mut World,
    frame: &mut Option<Frozen>,
    sent: Sent,
    budget: u64,
) -> MemoryResult<String> {
    match frame.take() {
        Some(frozen) => resumed_told(alloc, world, frame, frozen, sent, budget),
        None => {
            drop(sent);
            copied(alloc, "no frame")
        }
    }
}

/// What is told of a frame that should be out when it goes on.
fn resumed_told(
    alloc: Global,
    world: &mut World,
    frame: &mut Option<Frozen>,
    frozen: Frozen,
    sent: Sent,
    budget: u64,
) -> MemoryResult<String> {
    if is_out(world, &frozen) {
        let begun = resume(world, frozen, sent, budget)?;
        return begun_told(alloc, world, frame, begun);
    }
    drop(sent);
    py_machine::give_up(world, frozen);
    copied(alloc, "not out")
}

/// What is told where a value is sent, which is spelled as a path and a name or a number, or `None` without it.
pub fn send_told(
    alloc: Global,
    world: &mut World,
    frame: &mut Option<Frozen>,
    spelled: &str,
    budget: u64,
) -> MemoryResult<String> {
    let values = values_at(alloc, world, spelled)?;
    let v = values.first().copied().unwrap_or(Value::None);
    resume_told(alloc, world, frame, Sent::Value(v), budget)
}

/// What a call raises that is spelled as a path, a name and arguments.
fn raised_by(alloc: Global, world: &mut World, spelled: &str) -> MemoryResult<Option<Thrown>> {
    let values = values_at(alloc, world, spelled)?;
    let Some((f, args)) = values.split_first() else {
        return Ok(None);
    };
    let Ended { out, steps: _ } = call(world, *f, args, 1000)?;
    match out {
        Outcome::Raised(thrown) => Ok(Some(thrown)),
        Outcome::Value(_) | Outcome::Exhausted(_) => Ok(None),
    }
}

/// What is told where an exception is thrown: what a call raises that is spelled so.
pub fn throw_told(
    alloc: Global,
    world: &mut World,
    frame: &mut Option<Frozen>,
    spelled: &str,
    budget: u64,
) -> MemoryResult<String> {
    match raised_by(alloc, world, spelled)? {
        Some(thrown) => resume_told(alloc, world, frame, Sent::Throw(thrown), budget),
        None => copied(alloc, "raises nothing"),
    }
}

/// What is told where the body that is out is given up.
pub fn abandon_told(
    alloc: Global,
    world: &mut World,
    frame: &mut Option<Frozen>,
) -> MemoryResult<String> {
    match frame.take() {
        Some(frozen) => {
            give_up_one(world, frozen);
            copied(alloc, "given up")
        }
        None => copied(alloc, "no frame"),
    }
}
