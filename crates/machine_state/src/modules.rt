// The modules whose load has begun.

ghost use Rattle.std.specs.Prelude.{◌≡◌, [], List, ℕ, OnOk, map, option_copied};
ghost use Rattle.std.specs.List.{list_any};
ghost use Rattle.core_meaning.specs.py_world.Runs.{failed, is_running, load_at, with_load};
ghost use Rattle.machine_state.specs.Failing.{failed_at, load_runs};

use crate::traces::copy_trace;
use core_meaning::{Load, Trace};
use indexmap::IndexMap;
use py_values::value::Value;
use seq::{OutOfMemory, PyText};
use std::alloc::Global;
use std::marker::Model;

/// How far the loads of modules are, by the paths of their files, in the order in which they began.
pub struct ModuleTable {
    map: IndexMap<PyText, Load>,
}

impl Drop for ModuleTable {
    fn drop(self) {
        let ModuleTable { map: _ } = self;
    }
}

impl Model for ModuleTable {
    ghost use Rattle.std.specs.Prelude.{List, ℕ};
    ghost use Rattle.core_meaning.specs.py_world.declared.load.Load.{Load};

    ghost Value = { List (List ℕ × Load) };

    ghost view = { λ t. t.map.entries };
}

impl ModuleTable {
    /// No load has begun.
    pub fn new(alloc: Global) -> Self
        ensures { result ≡ [] }
    {
        ModuleTable {
            map: IndexMap::new(alloc),
        }
    }

    /// How far the load of the module of a path is.
    pub fn find(&self, path: &PyText) -> Option<&Load>
        ensures { option_copied result ≡ load_at path.now self.now }
    {
        self.map.get(path)
    }

    /// Says how far the load of the module of a path is: one that is there keeps its place, another comes last.
    pub fn put(&mut self, path: PyText, load: Load) -> Result<(), OutOfMemory>
        ensures { OnOk result (self.new ≡ with_load path load self.old) }
    {
        self.map.insert(path, load)?;
        Ok(())
    }

    /// Whether a load is running.
    pub fn any_running(&self) -> bool
        ensures { result ≡ list_any is_running self.now }
    {
        any_runs(self.map.values().as_slice())
    }

    /// The loads that are running have failed.
    pub fn fail_running(
        &mut self,
        alloc: Global,
        exc: Value,
        trace: &Trace,
    ) -> Result<(), OutOfMemory>
        ensures { OnOk result (self.new ≡ map (failed exc trace.now) self.old) }
    {
        fail_each(&mut self.map, alloc, exc, trace)
    }
}

/// Whether one of these loads is running.
fn any_runs(loads: &[Load]) -> bool
    ensures { result ≡ list_any load_runs loads.now }
{
    loads.iter().any(|load| runs(load))
}

/// Whether a load is running.
fn runs(load: &Load) -> bool
    ensures { result ≡ load_runs load.now }
{
    match load {
        Load::Running(_) => true,
        Load::Loaded(_) | Load::Failed(_, _) => false,
    }
}

/// A load that is running has failed.
fn fail(load: &mut Load, alloc: Global, exc: Value, trace: &Trace) -> Result<(), OutOfMemory>
    ensures { OnOk result ((path : List ℕ) → failed exc trace.now (path, load.old) ≡ (path, load.new)) }
{
    if runs(load) {
        let kept = copy_trace(alloc, trace)?;
        *load = Load::Failed(exc, kept);
    }
    Ok(())
}

/// The load at a place has failed, where it is running.
#[tactic(auto, using(crate::proofs::Failing::fails_there, crate::proofs::Failing::fails_nowhere))]
fn fail_at(
    map: &mut IndexMap<PyText, Load>,
    alloc: Global,
    at: usize,
    exc: Value,
    trace: &Trace,
) -> Result<(), OutOfMemory>
    ensures { OnOk result (map.new.entries ≡ failed_at exc trace.now at map.old.entries) }
{
    match map.get_index_mut(at) {
        Some(load) => fail(load, alloc, exc, trace),
        None => Ok(()),
    }
}

/// The loads that are running have failed.
#[tactic(auto, using(crate::proofs::Failing::fails_more, crate::proofs::Failing::fails_all))]
fn fail_each(
    modules: &mut IndexMap<PyText, Load>,
    alloc: Global,
    exc: Value,
    trace: &Trace,
) -> Result<(), OutOfMemory>
    ensures { OnOk result (modules.new.entries ≡ map (failed exc trace.now) modules.old.entries) }
{
    for at in 0..modules.len() {
        fail_at(modules, alloc, at, exc, trace)?;
    }
    Ok(())
}
