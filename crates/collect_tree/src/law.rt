// Laws of the collection.

ghost use Rattle.std.specs.Prelude.{◌≡◌, ℕ, List, length};
ghost use Rattle.cli_words.specs.declared.options.Options.{Options};
ghost use Rattle.py_load.specs.Reading.{ReadFile};
ghost use Rattle.fixture_world.specs.report_rules.Collected.{Collected, Whole};
ghost use Rattle.fixture_world.specs.report_rules.Fits.{IsFit};
ghost use Rattle.fixture_world.specs.runtest_rules.Language.{python};
ghost use Rattle.session_rules.specs.World.{Rules};
ghost use Rattle.test_suite.specs.Suites.{fixture_at};
ghost use Rattle.test_suite.specs.declared.suite.Suite.{Suite};
ghost use Rattle.collect_tree.specs.Collection.{collect};

/// A law: the closures of what is collected fit any rules of its fixtures, and no two selected items have one node.
pub fn what_is_collected_fits()
    ensures { (options : Options) (sources : List ReadFile) (c : Collected python Suite) → collect options sources ≡ Whole c
        → (rules : Rules python) → rules.depth ≡ length c.table.fixtures → ((d : ℕ) → rules.scope d ≡ (fixture_at c.table d).scope) → IsFit rules c.selected }
{}
