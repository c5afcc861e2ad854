// The hooks of conftests.

ghost use Rattle.std.specs.Prelude.{◌≡◌, option_copied};
ghost use Rattle.test_suite.specs.Hooks as hooks;

use hook_order::Impl;
use py_values::value::Value;
use py_world::TraceFrame;
use seq::{PyText, Seq};
use std::alloc::Global;

/// What the function of a hook takes, of the arguments that its hook has (pytest's reference, "Hooks").
#[derive(Clone, Copy, PartialEq, Eq)]
pub enum HookArgument {
    /// `item`; of the hook that makes ids `val`
    First,
    /// `nextitem`; of the hook that makes ids `argname`
    Second,
}

/// An implementation of a hook in a conftest.
pub struct Hook {
    pub function: Value,
    /// The arguments of its function, in order.
    pub arguments: Seq<HookArgument>,
    /// The bytes of the path of the folder whose items it serves, with all below, with its slash; that of the root is empty.
    pub folder: Seq<u8>,
    /// The place of its function's `def`.
    pub defined: TraceFrame,
}

impl Drop for Hook {
    fn drop(self) {
        let Hook {
            function: _,
            arguments: _,
            folder: _,
            defined: _,
        } = self;
    }
}

impl Hook {
    /// A hook without function: that of a number that no other has. Takes no memory.
    pub fn none(alloc: Global) -> Self
        ensures { result ≡ hooks.no_hook }
    {
        Hook {
            function: Value::None,
            arguments: Seq::new(alloc),
            folder: Seq::new(alloc),
            defined: TraceFrame {
                path: PyText::from_vec(Vec::new(alloc)),
                line: 0,
                name: PyText::from_vec(Vec::new(alloc)),
            },
        }
    }
}

/// The implementations of hooks, in hook order: of those around the phases of items, the built-in ones among them, and of the one that makes
/// ids. The code of one of a conftest is its place among the hooks.
pub struct HookTable {
    pub hooks: Seq<Hook>,
    pub set_up: Seq<Impl>,
    pub call: Seq<Impl>,
    pub teardown: Seq<Impl>,
    /// Of the hook that makes ids.
    pub ids: Seq<Impl>,
}

impl Drop for HookTable {
    fn drop(self) {
        let HookTable {
            hooks: _,
            set_up: _,
            call: _,
            teardown: _,
            ids: _,
        } = self;
    }
}

impl HookTable {
    /// Without any implementation. Takes no memory.
    pub fn new(alloc: Global) -> Self
        ensures { result ≡ hooks.no_hooks }
    {
        HookTable {
            hooks: Seq::new(alloc),
            set_up: Seq::new(alloc),
            call: Seq::new(alloc),
            teardown: Seq::new(alloc),
            ids: Seq::new(alloc),
        }
    }

    /// The hook with a code, where there is one.
    pub fn hook(&self, code: u32) -> Option<&Hook>
        ensures { option_copied result ≡ hooks.hook_with_code self.now code }
    {
        self.hooks.items().get(code as usize)
    }

    /// The hook with a code, or else `none`, which has no function.
    pub fn hook_or<'h>(&'h self, code: u32, none: &'h Hook) -> &'h Hook
        requires none { none.now ≡ hooks.no_hook }
        ensures { result.now ≡ hooks.hook_at self.now code }
    {
        match self.hook(code) {
            Some(hook) => hook,
            None => none,
        }
    }
}
