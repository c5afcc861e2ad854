// The world.

ghost use Rattle.std.specs.Prelude.{◌≡◌, ◌≤◌, [], None, IfOk, OnOk, chars, length, slice_get, option_map};
ghost use Rattle.core_rules.specs.Keeps.{FramesBehind};
ghost use Rattle.lower_law.specs.py_world.Names.{names_in};
ghost use Rattle.lower_law.specs.py_world.Runs.{source_at};
ghost use Rattle.lower_law.specs.py_world.World as seen;
ghost use Rattle.lower_law.specs.source_meaning.Meaning.{source_begin, source_call, source_module, source_resume};
ghost use Rattle.py_machine.specs.Worlds.{empty, fault_in, fault_of, carried_source, spent_world, with_source, IsLowered};

use crate::resuming::{Begun, Frozen, Sent};
use crate::{calls, load, yields};
use machine_frames::frozen;
use machine_load::Ended;
use machine_runner::sources::text_of;
use machine_state::locals::Locals;
use machine_state::machine::Machine;
use machine_state::modules::ModuleTable;
use machine_state::place::{Location, Place};
use machine_state::source::{SourceCode, SourceFile};
use machine_state::sources::SourceTable;
use machine_state::stack::ControlStack;
use machine_state::traces::Traces;
use py_core::Core;
use py_kinds::builtins::first_heap;
use py_source::SourceFault;
use py_values::heap::Heap;
use py_values::object::Obj;
use py_values::value::{ObjId, Value};
use runner_values as objects;
use runner_values::{New, add};
use seq::{OutOfMemory, PyText};
use std::alloc::Global;
use std::marker::Model;
use std::mem;

/// The sources, the modules that are loaded, the heap, and what was printed.
pub struct World {
    machine: Machine,
}

impl Drop for World {
    fn drop(self) {
        let World { machine: _ } = self;
    }
}

impl Model for World {
    ghost use Rattle.lower_law.specs.source_meaning.Meaning.{SourceWorld};
    ghost use Rattle.source_meaning.proofs.Codes.{world_code};

    ghost Value = { SourceWorld };

    ghost coded = { world_code };

    ghost use Rattle.machine_state.specs.Frames.{world_of};
    ghost use Rattle.lower_law.specs.View.{Sound, source_view};

    ghost view = { λ w. source_view (world_of w.machine) };

    ghost invariant = { λ w. Sound (world_of w.machine) };
}

/// The place of a module's object.
pub type ModuleId = ObjId;

impl World {
    /// A world without sources. Its heap has the objects of the built-in names.
    pub fn new(alloc: Global) -> Result<Self, OutOfMemory>
        ensures { IfOk result (λ w. w ≡ empty) }
    {
        let here = Location {
            place: Place::Module(PyText::from_chars(alloc, &[])?, 0),
            around: 0,
            line: 0,
        };
        Ok(World {
            machine: Machine {
                alloc,
                sources: SourceTable::new(alloc),
                modules: ModuleTable::new(alloc),
                heap: first_heap(alloc)?,
                codes: Vec::new(alloc),
                printed: Vec::new(alloc),
                traces: Traces::new(alloc),
                stack: ControlStack::new(alloc)?,
                locals: Locals::new(alloc),
                temps: Vec::new(alloc),
                here,
                left: 0,
            },
        })
    }
}

/// Adds a source under a path that has none.
pub fn add_source(
    world: &mut World,
    path: &str,
    bytes: &[u8],
    code: Result<Core, SourceFault>,
) -> Result<(), OutOfMemory>
    requires absent { source_at (chars path.now) world.old.sources ≡ None }
    requires lowered { IsLowered code }
    ensures { OnOk result (world.new ≡ with_source (record { path = chars path.now; bytes = bytes.now; code = carried_source code }) world.old) }
{
    let alloc = world.machine.alloc;
    let path = text_of(alloc, path)?;
    let bytes = Vec::from_slice(alloc, bytes)?;
    let code = source_code(code);
    let source = SourceFile::new(alloc, path, bytes, code)?;
    match world.machine.sources.push(source) {
        Ok(()) => Ok(()),
        Err(fault) => {
            forget_code(&mut world.machine);
            Err(fault)
        }
    }
}

fn source_code(code: Result<Core, SourceFault>) -> SourceCode
    requires { IsLowered code }
    ensures code { coded_view (coded_of result) ≡ carried_source code }
    ensures lowered { Stands (coded_of result) }
{
    match code {
        Ok(core) => SourceCode::Code(core),
        Err(fault) => SourceCode::Fault(fault),
    }
}

ghost use Rattle.lower_law.specs.View.{coded_view};
ghost use Rattle.machine_state.specs.Coded.{coded_of};
ghost use Rattle.py_machine.specs.Worlds.{Stands};

/// The fault of the source of a path, where it has one.
pub fn fault(world: &World, path: &str) -> Option<SourceFault>
    ensures { result ≡ fault_of (source_at (chars path.now) world.now.sources) }
{
    fault_in(&world.machine.sources, path)
}

/// Why a source has no code.
fn source_fault(source: &SourceFile) -> Option<SourceFault>
    ensures { result ≡ fault_in source.now.code }
{
    match source.code() {
        SourceCode::Code(_) => None,
        SourceCode::Fault(fault) => Some(*fault),
    }
}

fn fault_in(all: &SourceTable, path: &str) -> Option<SourceFault>
    ensures { result ≡ fault_of (source_at (chars path.now) all.now) }
{
    match all.find_text(path) {
        Some(source) => source_fault(source),
        None => None,
    }
}

/// The line with this number, from 1, of the source of a path, without its end.
pub fn line<'w>(world: &'w World, path: &str, number: u32) -> Option<&'w str>
    ensures { option_map told_line result ≡ line_at (chars path.now) number world.now.sources }
{
    line_in(&world.machine.sources, path, number)
}

fn line_in<'w>(all: &'w SourceTable, path: &str, number: u32) -> Option<&'w str>
    ensures { option_map told_line result ≡ line_at (chars path.now) number all.now }
{
    match all.find_text(path) {
        Some(source) => source.line(number),
        None => None,
    }
}

ghost use Rattle.machine_runner.specs.Lines.{line_at, told_line};

/// The objects.
pub fn heap(world: &World) -> &Heap
    ensures { result.now ≡ world.now.heap }
{
    &world.machine.heap
}

/// The text that was printed since the last take.
pub fn take_printed(world: &mut World) -> Vec<u8>
    ensures printed { result.items ≡ world.old.printed }
    ensures same { world.new ≡ seen.world_with_printed [] world.old }
{
    let none = Vec::new(world.machine.alloc);
    mem::replace(&mut world.machine.printed, none)
}

/// The name of a module at a place, with its value, in order of first binding.
pub fn names(world: &World, id: ModuleId, at: usize) -> Option<(&PyText, Value)>
    requires { IsModule (slice_get world.now.heap id.at) }
    ensures { option_map told_name result ≡ slice_get (names_in (slice_get world.now.heap id.at)) at }
{
    match world.machine.heap.get(id) {
        Some(Obj::Module(found)) => match found.names.entry(at) {
            Some((name, v)) => Some((name.text(), *v)),
            None => None,
        },
        _ => None,
    }
}

ghost use Rattle.py_machine.specs.Worlds.{IsModule, told_name};

/// Calls a value with arguments, within a budget of steps.
pub fn call(world: &mut World, f: Value, args: &[Value], budget: u64) -> Result<Ended, OutOfMemory>
    ensures told { IfOk result (λ e. (e, world.new) ≡ source_call f args.now budget world.old) }
    ensures steps { IfOk result (λ e. e.steps ≤ budget) }
    ensures frames { OnOk result (world.new.frozen ≡ world.old.frozen) }
{
    match calls::call(&mut world.machine, f, args, budget) {
        Ok(ended) => Ok(ended),
        Err(fault) => {
            forget_code(&mut world.machine);
            Err(fault)
        }
    }
}

/// Begins a value with arguments, within a budget of steps: the body of a yield function, or of a method that is one, runs until it stops
/// at a `yield` or is over; another value is called.
pub fn begin(world: &mut World, f: Value, args: &[Value], budget: u64) -> Result<Begun, OutOfMemory>
    ensures told { IfOk result (λ b. (told_begun b, world.new) ≡ source_begin f args.now budget world.old) }
    ensures steps { IfOk result (λ b. b.steps ≤ budget) }
    ensures frames { IfOk result (λ b. FramesBehind (told_begun b).out world.old.frozen world.new.frozen) }
{
    match yields::begin(&mut world.machine, f, args, budget) {
        Ok(begun) => Ok(begun),
        Err(fault) => {
            forget_code(&mut world.machine);
            Err(fault)
        }
    }
}

/// Goes on with a body that has stopped at a `yield` and is out, with what it is given there, within a new budget of steps.
pub fn resume(
    world: &mut World,
    frozen: Frozen,
    sent: Sent,
    budget: u64,
) -> Result<Begun, OutOfMemory>
    requires out { is_out frozen world.old ≡ true }
    ensures told { IfOk result (λ b. (told_begun b, world.new) ≡ source_resume frozen (sent_of sent) budget world.old) }
    ensures steps { IfOk result (λ b. b.steps ≤ budget) }
    ensures frames { IfOk result (λ b. FramesBehind (told_begun b).out (abandon_of frozen world.old).frozen world.new.frozen) }
{
    let number = frozen.spend();
    match yields::resume(&mut world.machine, number, sent, budget) {
        Ok(begun) => Ok(begun),
        Err(fault) => {
            forget_code(&mut world.machine);
            Err(fault)
        }
    }
}

/// Whether a frozen frame is out in this world.
pub fn is_out(world: &World, frozen: &Frozen) -> bool
    ensures { result ≡ is_out frozen.now world.now }
{
    frozen::is_out(&world.machine, frozen.number())
}

/// Gives up a body that has stopped at a `yield` and is out: nothing of it runs any more.
pub fn abandon(world: &mut World, frozen: Frozen)
    requires out { is_out frozen world.old ≡ true }
    ensures { world.new ≡ abandon_of frozen world.old }
{
    let number = frozen.spend();
    frozen::abandon(&mut world.machine, number);
}

ghost use Rattle.std.specs.Prelude.{true};
ghost use Rattle.lower_law.specs.py_world.Resuming.{abandon_of, is_out};
ghost use Rattle.py_machine.specs.Yields.{sent_of, told_begun};

/// Lets a frozen frame go behind want of memory: the world is spent, nothing of its code runs any more, and no frame is out. Takes no memory.
pub fn give_up(world: &mut World, frozen: Frozen)
    ensures { world.new ≡ spent_world world.old }
{
    let _number = frozen.spend();
    forget_code(&mut world.machine);
}

/// Gives up all code, in a machine that want of memory stopped.
fn forget_code(m: &mut Machine)
    ensures same { m.new ≡ record m.old { sources = m.new.sources; codes = m.new.codes; stack = m.new.stack } }
    ensures sources { m.new.sources ≡ [] }
    ensures codes { m.new.codes.items ≡ [] }
    ensures frozen { m.new.stack.frozen ≡ [] }
{
    m.sources = SourceTable::new(m.alloc);
    m.codes = Vec::new(m.alloc);
    m.stack.forget();
}

/// Executes a module, at most once per world, within a budget of steps. A path without code gives `None` at no step.
pub fn run_module(world: &mut World, path: &str, budget: u64) -> Result<Ended, OutOfMemory>
    ensures told { IfOk result (λ e. (e, world.new) ≡ source_module (chars path.now) budget world.old) }
    ensures steps { IfOk result (λ e. e.steps ≤ budget) }
    ensures frames { OnOk result (world.new.frozen ≡ world.old.frozen) }
{
    match load::load(&mut world.machine, path, budget) {
        Ok(ended) => Ok(ended),
        Err(fault) => {
            forget_code(&mut world.machine);
            Err(fault)
        }
    }
}

/// Gives the language an object: no code of the sources runs for it. Behind want of memory the heap may have objects more.
pub fn make(world: &mut World, new: &New) -> Result<Value, OutOfMemory>
    requires { ClassIsThere new.now world.old.heap }
    ensures given { IfOk result (λ v. IsGiven new.now v world.old.heap world.new.heap) }
    ensures same { world.new ≡ seen.world_with_heap world.new.heap world.old }
{
    add(world.machine.alloc, &mut world.machine.heap, new)
}

ghost use Rattle.runner_values.specs.Given.{ClassIsThere, IsGiven};

/// Closes a `request`: every later `addfinalizer` on it raises. Another value is left as it is.
pub fn close_request(world: &mut World, request: Value)
    ensures { world.new ≡ seen.world_with_heap (request_closed request world.old.heap) world.old }
{
    objects::close_request(&mut world.machine.heap, request);
}

/// Gives and removes the latest finalizer of a `request`, where it has one. Another value has none, and is left as it is.
pub fn take_finalizer(world: &mut World, request: Value) -> Option<Value>
    ensures taken { (result, world.new.heap) ≡ finalizer_taken request world.old.heap }
    ensures same { world.new ≡ seen.world_with_heap world.new.heap world.old }
{
    objects::take_finalizer(&mut world.machine.heap, request)
}

ghost use Rattle.runner_values.specs.Requests.{finalizer_taken, request_closed};
