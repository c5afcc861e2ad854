// Items and fixtures by number.

ghost use Rattle.std.specs.Prelude.{◌≡◌, option_copied};
ghost use Rattle.test_suite.specs.Suites as suites;

use crate::fixture::Fixture;
use crate::hook::HookTable;
use crate::item::Item;
use seq::Seq;
use session_types::DefId;

/// The items, the fixtures and the hooks of a run.
pub struct Suite {
    /// All items of all test files; an item's number is its place.
    pub items: Seq<Item>,
    /// The fixtures, by the numbers of their definitions.
    pub fixtures: Seq<Fixture>,
    /// How many nodes stand before those of the items.
    pub outer: u32,
    /// The implementations of the hooks around their phases.
    pub hooks: HookTable,
}

impl Drop for Suite {
    fn drop(self) {
        let Suite {
            items: _,
            fixtures: _,
            outer: _,
            hooks: _,
        } = self;
    }
}

impl Suite {
    /// The item with a node, where there is one.
    pub fn item(&self, node: u32) -> Option<&Item>
        ensures { option_copied result ≡ suites.item_of_node self.now node }
    {
        match node.checked_sub(self.outer) {
            Some(number) => self.items.items().get(number as usize),
            None => None,
        }
    }

    /// The fixture of a definition, where there is one.
    pub fn fixture(&self, def: DefId) -> Option<&Fixture>
        ensures { option_copied result ≡ suites.fixture_of_definition self.now def }
    {
        self.fixtures.items().get(def.number() as usize)
    }
}
