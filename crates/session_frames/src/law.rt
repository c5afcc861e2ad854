ghost use Rattle.std.specs.Prelude.{◌≡◌, ℕ, List, false};
ghost use Rattle.cli_words.specs.declared.options.Options.{Options};
ghost use Rattle.collect_tree.specs.Collection.{collect};
ghost use Rattle.collect_tree.specs.py_load.Reading.{ReadFile};
ghost use Rattle.collect_tree.specs.runtest_rules.py_world.Resuming.{is_out};
ghost use Rattle.collect_tree.specs.runtest_rules.Language.{python};
ghost use Rattle.collect_tree.specs.runtest_rules.Rules.{rules};
ghost use Rattle.collect_tree.specs.runtest_rules.report_rules.Collected.{Collected, Whole};
ghost use Rattle.collect_tree.specs.runtest_rules.test_suite.declared.suite.Suite.{Suite};
ghost use Rattle.session_rules.specs.BuiltIns.{HaveBuiltIns};
ghost use Rattle.session_rules.specs.Frames.{KeepsFrames};
ghost use Rattle.session_rules.specs.World.{Item};

use conftest_hooks::built_ins_are_there;
use core_rules::source_code_keeps_its_world;

/// A law: what fixtures and tests of sources do tells which frames stand at a `yield` behind it.
pub fn sources_keep_their_frames()
    ensures { (options : Options) (suite : Suite) → KeepsFrames (rules options suite) is_out }
{}

/// A law: behind a collection no frame stands at a `yield`.
pub fn collection_leaves_no_frame_out()
    ensures { (options : Options) (sources : List ReadFile) (c : Collected python Suite) → collect options sources ≡ Whole c → (n : ℕ) → is_out n c.world ≡ false }
{
    source_code_keeps_its_world();
}

/// A law: the hooks of each item have the runner's own implementations, under the rules of what is collected.
pub fn hooks_have_the_built_ins()
    ensures { (options : Options) (sources : List ReadFile) (c : Collected python Suite) → collect options sources ≡ Whole c → (item : Item) → HaveBuiltIns (rules options c.table) item }
{
    built_ins_are_there();
}
