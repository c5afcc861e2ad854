ghost use Rattle.std.specs.Prelude.{◌≡◌, ℕ, List, [], map};
ghost use Rattle.fixture_sessions.specs.FixtureRows.{fixture_ran, fixture_rows};
ghost use Rattle.report_rules.specs.Collected.{report_language};
ghost use Rattle.report_rules.specs.Rows.{Task, task_item, ran, session_rows};
ghost use Rattle.session_rules.specs.Fits.{Distinct};
ghost use Rattle.session_rules.specs.Session.{has_stopped, reaches};
ghost use Rattle.session_rules.specs.World.{Rules};

use report_rules::Tests;

/// The session of one thread is the loop over its items, whatever hooks serve them, where no two items have one node.
pub fn fixture_sessions_are_sessions<W: Tests>()
    ensures rows { (rules : Rules (report_language W W.Value W.Thrown W.Rest)) (world : W) (maxfail : ℕ) (tasks : List Task) → Distinct (map task_item tasks)
        → session_rows rules world maxfail tasks ≡ fixture_rows rules world maxfail tasks }
    ensures journal { (rules : Rules (report_language W W.Value W.Thrown W.Rest)) (world : W) (maxfail : ℕ) (tasks : List Task) → Distinct (map task_item tasks)
        → (ran rules world maxfail tasks).events ≡ (fixture_ran rules world maxfail tasks).state.events }
    ensures world { (rules : Rules (report_language W W.Value W.Thrown W.Rest)) (world : W) (maxfail : ℕ) (tasks : List Task) → Distinct (map task_item tasks)
        → (ran rules world maxfail tasks).world ≡ (fixture_ran rules world maxfail tasks).state.world }
    ensures stopped { (rules : Rules (report_language W W.Value W.Thrown W.Rest)) (world : W) (maxfail : ℕ) (tasks : List Task) → Distinct (map task_item tasks)
        → has_stopped maxfail (ran rules world maxfail tasks) ≡ reaches maxfail (fixture_ran rules world maxfail tasks).bad }
    ensures ended { (rules : Rules (report_language W W.Value W.Thrown W.Rest)) (world : W) (maxfail : ℕ) (tasks : List Task)
        → (fixture_ran rules world maxfail tasks).state.live ≡ [] }
{}
