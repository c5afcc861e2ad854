// Modules begin.

ghost use Rattle.std.specs.Prelude.{◌≡◌, [], ℕ, List, IfOk, OnOk};
ghost use Rattle.run_tree.specs.Todo.{Done};
ghost use Rattle.py_world.specs.ModuleNames.{module_object};
ghost use Rattle.py_world.specs.Outcome.{call_end};
ghost use Rattle.py_world.specs.Runs as runs;
ghost use Rattle.py_world.specs.Site.{around_of, no_call};
ghost use Rattle.machine_state.specs.core_meaning.Statements.{core_block_body};
ghost use Rattle.machine_state.specs.Frames.{machine_rest, site_now, state_of, todo, world_of};

use machine_state::frame::{CallerFrame, End, FlowFrame, Frame, ModuleFrame};
use machine_state::locals::Locals;
use machine_state::machine::{Machine, NextAction};
use machine_state::place::{Location, Place};
use machine_state::traces::copy_text;
use py_core::CoreBlock;
use py_values::end::push_ascii;
use py_values::names::{Name, Names};
use py_values::object::{ModuleObj, Obj};
use py_values::value::{ObjId, Value};
use py_world::{Load, module_name};
use seq::{OutOfMemory, PyText};
use std::alloc::Global;
use std::mem;
use std::rc::Rc;

/// The object of a module that begins, the text of whose name is this object.
fn module_object(alloc: Global, path: &PyText, named: ObjId) -> Result<Obj, OutOfMemory>
    ensures { IfOk result (λ o. o ≡ module_object path.now named.at) }
{
    let mut key = Vec::new(alloc);
    push_ascii(&mut key, "__name__")?;
    let mut names = Names::new(alloc);
    names.bind(Name::from_chars(alloc, &key)?, Value::Ref(named))?;
    Ok(Obj::Module(ModuleObj {
        path: copy_text(alloc, path)?,
        names,
    }))
}

/// Makes the object of a module that begins, whose load runs from here on.
fn make_module(m: &mut Machine, path: &PyText) -> Result<ObjId, OutOfMemory>
    ensures place { IfOk result (λ id. id.at ≡ runs.module_place path.now (world_of m.old)) }
    ensures world { OnOk result (world_of m.new ≡ runs.with_module path.now (world_of m.old)) }
    ensures same { m.new ≡ record m.old { heap = m.new.heap; modules = m.new.modules } }
{
    let name = module_name(m.alloc, path.chars())?;
    let named = m.heap.add(Obj::Text(name))?;
    let object = module_object(m.alloc, path, named)?;
    let running = copy_text(m.alloc, path)?;
    let id = m.heap.add(object)?;
    m.modules.put(running, Load::Running(id))?;
    Ok(id)
}

/// Puts a module in place whose load the runner begins, where nothing is open and no name is bound.
pub fn begin_load(m: &mut Machine, path: PyText, body: Rc<CoreBlock>) -> Result<(), OutOfMemory>
    requires stack { m.old.stack.own ≡ [] }
    requires locals { m.old.locals ≡ [] }
    requires temps { m.old.temps.items ≡ [] }
    ensures next { OnOk result (todo (NextAction.Back End.Next) m.new
        ≡ core_block_body [] body.value (runs.module_scene path (runs.module_place path (world_of m.old)) no_call) (runs.start (runs.with_module path (world_of m.old))) (λ o. Done (runs.module_end path (runs.module_place path (world_of m.old)) o))) }
    ensures left { m.new.left ≡ m.old.left }
{
    let id = make_module(m, &path)?;
    let shown = copy_text(m.alloc, &path)?;
    m.here = Location {
        place: Place::Module(shown, id.at),
        around: 0,
        line: 0,
    };
    let load = ModuleFrame::Load(path, id.at);
    m.stack.push(Frame::Module(load))?;
    m.stack.push(Frame::Flow(FlowFrame::Block(body, 0, 0)))?;
    Ok(())
}

/// Opens the body of a module over where the machine was.
fn open(m: &mut Machine, here: Location) -> CallerFrame
    ensures caller { result ≡ record { from = Some m.old.here; locals = m.old.locals; temps = m.old.temps } }
    ensures bare { m.new.temps.items ≡ [] }
    ensures opened { m.new ≡ record m.old { here = here; locals = []; temps = m.new.temps } }
{
    let names = Locals::new(m.alloc);
    let none = Vec::new(m.alloc);
    let here = mem::replace(&mut m.here, here);
    let locals = mem::replace(&mut m.locals, names);
    let temps = mem::replace(&mut m.temps, none);
    CallerFrame {
        from: Some(here),
        locals,
        temps,
    }
}

ghost use Rattle.std.specs.Prelude.{Some};

/// Begins the body of a module that the code loads.
pub fn begin_by_code(
    m: &mut Machine,
    path: PyText,
    body: Rc<CoreBlock>,
) -> Result<NextAction, OutOfMemory>
    ensures next { IfOk result (λ d. todo d m.new
        ≡ core_block_body [] body.value (runs.module_scene path (runs.module_place path (world_of m.old)) (around_of (site_now m.old))) (runs.start (runs.with_module path (world_of m.old)))
        (λ o. machine_rest m.old (call_end (state_of m.old) (runs.module_end path (runs.module_place path (world_of m.old)) o)))) }
    ensures left { m.new.left ≡ m.old.left }
{
    let around = m.here.depth()?;
    let id = make_module(m, &path)?;
    let shown = copy_text(m.alloc, &path)?;
    let caller = open(
        m,
        Location {
            place: Place::Module(shown, id.at),
            around,
            line: 0,
        },
    );
    m.stack.push(Frame::Caller(caller))?;
    let load = ModuleFrame::Load(path, id.at);
    m.stack.push(Frame::Module(load))?;
    m.stack.push(Frame::Flow(FlowFrame::Block(body, 0, 0)))?;
    Ok(NextAction::Back(End::Next))
}
