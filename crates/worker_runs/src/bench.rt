// What workers share.

ghost use Rattle.std.specs.Prelude.{◌≡◌, ◌<◌, ◌^◌, ℕ, [], true, IfOk, List, OnOk, length, map};
ghost use Rattle.cli_words.specs.declared.options.Options.{Options};
ghost use Rattle.report_rules.specs.Collected.{Collected, FixtureTexts, report_language};
ghost use Rattle.report_rules.specs.Groups as grouped;
ghost use Rattle.session_rules.specs.World.{Rules};
ghost use Rattle.share_files.specs.Deal.{RisesFrom};
ghost use Rattle.worker_runs.specs.Threads.{thread_reports};

use report_parts::ItemReport;
use seq::OutOfMemory;
use share_files::Feed;
use std::alloc::Global;

/// What is shared by workers, and from which each sets up a session of its own.
pub trait Bench {
    type World;

    type Value;

    type Thrown;

    type Rest;

    /// The nodes and definitions of a collection.
    type Table;

    /// What is collected from it: one collection, whoever collects it.
    ghost collects: { Self → Collected (report_language Self.World Self.Value Self.Thrown Self.Rest) Self.Table → Type 0 };

    /// What the fixtures, hooks and tests of a table do.
    ghost rules: { Self → Self.Table → Rules (report_language Self.World Self.Value Self.Thrown Self.Rest) };

    /// The names of a definition of a table.
    ghost fixture: { Self → Self.Table → ℕ → FixtureTexts };

    /// The options by which items are reported. No maxfail stops a session of workers.
    ghost options: { Self → Options };

    /// The number of groups.
    ghost groups: { Self → ℕ };

    /// The number of items of each group, of what is collected: something is.
    fn sizes(&self) -> &[u32]
        ensures collected { (c : Collected (report_language Self.World Self.Value Self.Thrown Self.Rest) Self.Table) × collects self.now c }
        ensures whole { (options self.now).maxfail ≡ 0 }
        ensures groups { length result.now ≡ groups self.now }
        ensures few { groups self.now < 2 ^ 32 }
        ensures sizes { (c : Collected (report_language Self.World Self.Value Self.Thrown Self.Rest) Self.Table) → collects self.now c → result.now ≡ map (λ group. length group) (grouped.groups c.selected) };

    /// Sets up a session, runs the items of the groups that the feed gives, in order, and ends it. The reports are those of one thread on
    /// these items, from what is collected. Workers are given numbers that rise. A group is drawn when the last item of the one before has
    /// been called and is about to be torn down, and not earlier, so that another worker may take what a slow test would hold.
    fn run<F: Feed>(&self, alloc: Global, feed: &mut F) -> Result<Vec<ItemReport>, OutOfMemory>
        requires limit { F.limit feed.old ≡ groups self.now }
        requires fresh { F.given feed.old ≡ [] }
        ensures feed { (F.origin feed.new ≡ F.origin feed.old) × (F.limit feed.new ≡ F.limit feed.old) }
        ensures ended { OnOk result (F.ended feed.new ≡ true) }
        ensures reports { IfOk result (λ reports. RisesFrom 0 (F.given feed.new) → (c : Collected (report_language Self.World Self.Value Self.Thrown Self.Rest) Self.Table) → collects self.now c
            → reports.items ≡ thread_reports (rules self.now c.table) (fixture self.now c.table) (options self.now) c (F.given feed.new)) };
}
