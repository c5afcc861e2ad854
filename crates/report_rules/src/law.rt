ghost use Rattle.std.specs.Prelude.{◌≡◌, ◌⊎◌, ◌<◌, ℕ, Bool, List, [], true, flat_map, length};
ghost use Rattle.std.specs.List.{list_any};
ghost use Rattle.cli_words.specs.declared.options.Options.{Options};
ghost use Rattle.edge_io.specs.Files.{File};
ghost use Rattle.report_rules.specs.Alone.{AreAsOneThread};
ghost use Rattle.report_rules.specs.Answer.{PrintedAnswer, Failed, is_bad};
ghost use Rattle.report_rules.specs.Collected.{Collected, FixtureTexts, Profile, SelectedItem, ends_badly, report_language};
ghost use Rattle.report_rules.specs.Fits.{IsFit};
ghost use Rattle.report_rules.specs.Headline.{Headline, IsSound};
ghost use Rattle.report_rules.specs.Groups.{files_in, group_at, groups, items_of};
ghost use Rattle.report_rules.specs.Once.{AreReported, AreRows};
ghost use Rattle.report_rules.specs.Report.{IsOfOneThread, IsReport, IsReportBy, IsTaken, places_told, report, reports_told, rows_reported, sessions, reached_maxfail, workers_of};
ghost use Rattle.report_rules.specs.Rows.{ReportRow, Task, session_rows};
ghost use Rattle.report_rules.specs.Items.{item_report};
ghost use Rattle.report_rules.specs.Placed.{ArePlaced};
ghost use Rattle.report_rules.specs.Shares.{by_group, tasks_from, worked};
ghost use Rattle.session_types.specs.Members.{IsMember};
ghost use Rattle.session_rules.specs.Events.{Lawful};
ghost use Rattle.session_rules.specs.Frames.{KeepsFrames, SameFrames};
ghost use Rattle.session_rules.specs.World.{Rules};
ghost use Rattle.session_rules.specs.Reports.{IsTestProtocol};
ghost use Rattle.session_types.specs.declared.scope.Scope.{Scope};
ghost use Rattle.share_files.specs.Deal.{Every, Share, times};

/// A world that fixtures act on, with what a collection makes of sources.
pub trait Tests {
    type Value;

    type Thrown;

    type Rest;

    type Source;

    type Table;

    /// A file's bytes have this tree, or this fault.
    ghost holds: { List ℕ → Self.Source → Type 0 };
}

/// The headline. Words ask for a text, words or files are refused, collection refuses them, a conftest raised, or it is the report of what
/// collection selects of the files: these items are distinct, and reported each once, in the stated order; each is called once, unless a
/// hook raised before it; the journal of each session is lawful; behind each no frozen frame is out, and each frame goes on once; with
/// workers each report has the place that the assignment gives it, and each worker's rows are those of one thread on the items of its
/// groups.
pub fn what_a_report_tells<W: Tests>()
    ensures { (is_out : W.Rest → W → Bool) (profile : Profile (report_language W W.Value W.Thrown W.Rest) W.Source W.Table) → IsSound W.holds is_out profile → (taken words : List (List ℕ)) (files : List File) (answer : PrintedAnswer)
        → IsReportBy W.holds profile taken words files answer → Headline W.holds is_out profile taken words files answer }
{}

/// Where each file has a tree or a fault, all words and files have a report.
pub fn every_run_has_a_report<W: Tests>()
    ensures { ((bytes : List ℕ) → (source : W.Source) × W.holds bytes source)
        → (profile : Profile (report_language W W.Value W.Thrown W.Rest) W.Source W.Table) (words : List (List ℕ)) (files : List File)
        → (answer : PrintedAnswer) × IsReport W.holds profile words files answer }
{}

/// By the groups that workers took, words and files have one report.
pub fn reports_are_one<W: Tests>()
    ensures { ((bytes : List ℕ) (a b : W.Source) → W.holds bytes a → W.holds bytes b → a ≡ b)
        → (profile : Profile (report_language W W.Value W.Thrown W.Rest) W.Source W.Table) (taken words : List (List ℕ)) (files : List File) (a b : PrintedAnswer)
        → IsReportBy W.holds profile taken words files a → IsReportBy W.holds profile taken words files b → a ≡ b }
{}

/// Words that ask for no workers have one report.
pub fn one_thread_has_one_report<W: Tests>()
    ensures { ((bytes : List ℕ) (a b : W.Source) → W.holds bytes a → W.holds bytes b → a ≡ b)
        → (profile : Profile (report_language W W.Value W.Thrown W.Rest) W.Source W.Table) (words : List (List ℕ)) (files : List File) (a b : PrintedAnswer)
        → IsOfOneThread words → IsReport W.holds profile words files a → IsReport W.holds profile words files b → a ≡ b }
{}

/// The groups have the items of each file once, in their order; each file that has items is one of the files; no group is empty, and
/// two items are of one group exactly where they are of one file.
pub fn groups_part_the_items()
    ensures items { (chosen : List SelectedItem) (file : ℕ) → items_of (flat_map (λ group. group) (groups chosen)) file ≡ items_of chosen file }
    ensures files { (chosen : List SelectedItem) (file : ℕ) → (times file (files_in chosen) ≡ 1) ⊎ ((times file (files_in chosen) ≡ 0) × (items_of chosen file ≡ [])) }
    ensures filled { (chosen : List SelectedItem) (g : ℕ) → g < length (groups chosen) → group_at (groups chosen) g ≡ [] → ⊥ }
    ensures one_file { (chosen : List SelectedItem) (g : ℕ) (c d : SelectedItem) → IsMember c (group_at (groups chosen) g) → IsMember d (group_at (groups chosen) g) → c.file ≡ d.file }
    ensures one_group { (chosen : List SelectedItem) (g h : ℕ) (c d : SelectedItem) → IsMember c (group_at (groups chosen) g) → IsMember d (group_at (groups chosen) h) → c.file ≡ d.file → g ≡ h }
{}

/// The rows of a session: its tasks in order, each once, with the phases of its item; all, or up to where maxfail was reached.
pub fn rows_are_of_items<W: Tests>()
    ensures { (rules : Rules (report_language W W.Value W.Thrown W.Rest)) (world : W) (maxfail : ℕ) (tasks : List Task)
        → AreRows maxfail 0 tasks (session_rows rules world maxfail tasks) }
{}

/// What a run reports: the items that collection selects, each once, in the stated order.
pub fn items_are_reported_once<W: Tests>()
    ensures { (rules : Rules (report_language W W.Value W.Thrown W.Rest)) (options : Options) (c : Collected (report_language W W.Value W.Thrown W.Rest) W.Table) (taken : List (List ℕ))
        → IsTaken options c taken → AreReported rules options c (rows_reported rules options c taken) }
{}

/// The journal of each session of a run is lawful.
pub fn every_journal_is_lawful<W: Tests>()
    ensures { (rules : Rules (report_language W W.Value W.Thrown W.Rest)) (options : Options) (c : Collected (report_language W W.Value W.Thrown W.Rest) W.Table) (taken : List (List ℕ))
        → IsFit rules c.selected → IsTaken options c taken → Every (λ s. Lawful s.events) (sessions rules options c taken) }
{}

/// At the end of each session of a run exactly those frozen frames are out that were where collection ended.
pub fn no_frame_is_left_out<W: Tests>()
    ensures { (rules : Rules (report_language W W.Value W.Thrown W.Rest)) (is_out : W.Rest → W → Bool) → KeepsFrames rules is_out → (options : Options) (c : Collected (report_language W W.Value W.Thrown W.Rest) W.Table) (taken : List (List ℕ))
        → IsFit rules c.selected → IsTaken options c taken → Every (λ s. SameFrames is_out c.world s.world) (sessions rules options c taken) }
{}

/// Of the rows that a run with workers reports, those of a worker are the rows of one thread on the items of its groups.
pub fn workers_are_as_one_thread<W: Tests>()
    ensures { (rules : Rules (report_language W W.Value W.Thrown W.Rest)) (c : Collected (report_language W W.Value W.Thrown W.Rest) W.Table) (workers : ℕ) (taken : List (List ℕ))
        → Share (length (groups c.selected)) workers taken → AreAsOneThread rules c taken (by_group 0 (length (groups c.selected)) (worked rules c.world (tasks_from (groups c.selected) 0 taken))) }
{}

/// A report shows a failure or an error exactly where a phase of its item was counted as one.
pub fn what_is_shown_is_what_was_counted<W: Tests>()
    ensures { (options : Options) (scope : ℕ → Scope) (fixture : ℕ → FixtureTexts) (row : ReportRow (report_language W W.Value W.Thrown W.Rest))
        → IsTestProtocol row.task.chosen.item.node row.ends → is_bad (item_report options scope fixture row) ≡ list_any (λ e. ends_badly e.phase e.told) row.ends }
{}

/// A run that stopped early has failed.
pub fn a_stopped_run_fails<W: Tests>()
    ensures { (profile : Profile (report_language W W.Value W.Thrown W.Rest) W.Source W.Table) (options : Options) (c : Collected (report_language W W.Value W.Thrown W.Rest) W.Table) (taken : List (List ℕ))
        → reached_maxfail (profile.rules options c.table) options c ≡ true → (report W.holds profile options c taken).1 ≡ Failed }
{}

/// With workers each report has one place: in a group that the worker took, its item one of that group. Without, there is none.
pub fn places_agree<W: Tests>()
    ensures placed { (rules : Rules (report_language W W.Value W.Thrown W.Rest)) (options : Options) (c : Collected (report_language W W.Value W.Thrown W.Rest) W.Table) (taken : List (List ℕ))
        → (workers_of options c ≡ 0 → ⊥) → IsTaken options c taken → ArePlaced c taken (rows_reported rules options c taken) }
    ensures as_many { (profile : Profile (report_language W W.Value W.Thrown W.Rest) W.Source W.Table) (options : Options) (c : Collected (report_language W W.Value W.Thrown W.Rest) W.Table) (taken : List (List ℕ))
        → (workers_of options c ≡ 0 → ⊥) → IsTaken options c taken → length (places_told W.holds profile options c taken) ≡ length (reports_told W.holds profile options c taken) }
    ensures none { (profile : Profile (report_language W W.Value W.Thrown W.Rest) W.Source W.Table) (options : Options) (c : Collected (report_language W W.Value W.Thrown W.Rest) W.Table) (taken : List (List ℕ))
        → workers_of options c ≡ 0 → places_told W.holds profile options c taken ≡ [] }
{}
