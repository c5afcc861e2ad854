ghost use Rattle.std.specs.Prelude.{◌≡◌, ℕ, ◌<◌, Bool, List, [], Option, true, reverse};
ghost use Rattle.hook_order.specs.declared.implementation.Impl.{Impl};
ghost use Rattle.hook_order.specs.declared.answers.Inner.{Inner};
ghost use Rattle.hook_order.specs.HookCall.{CallsEach, FindsFirst, HookCall};
ghost use Rattle.session_rules.specs.Hooks.{HookRunner, first_call, hook_call};
ghost use Rattle.session_rules.specs.HookFollows.{Agrees, RunnerFollows, HookView, itself};
ghost use Rattle.session_rules.specs.Request.{RequestFinalizers, new_request, added_all, closed};
ghost use Rattle.session_types.specs.Members.{IsMember};
ghost use Rattle.session_rules.specs.BuiltIns.{BuiltInTurn, HasBuiltIns};
ghost use Rattle.session_rules.specs.Events.{Lawful};
ghost use Rattle.session_rules.specs.World.{Frame, Item, Phase, Exceptions, Rules, language};
ghost use Rattle.session_rules.specs.Teardown.{SessionState};
ghost use Rattle.session_rules.specs.Demand.{Refused, demand};
ghost use Rattle.session_rules.specs.Session.{HookPlace, hook_runner, session, initial_state};
ghost use Rattle.session_rules.specs.Reports.{IsSessionReport};
ghost use Rattle.session_rules.specs.Frames.{AreAlikeWhereOut, KeepsFrames, Resumptions, SameFrames, with_resumptions};
ghost use Rattle.session_rules.specs.Fits.{HasFixtureClosure, Distinct, IsWellScoped, IsValidClosure};

use hook_order::Runner;

/// A world that fixtures act on, its values, its exceptions, what remains behind a `yield`, and what a phase tells at its end. What
/// functions, their rests, finalizers, hooks and tests do to it are rules, which depend on what was collected.
pub trait Acts {
    type Value;

    type Thrown;

    type Rest;

    type Told;

    /// Whether what a phase tells is a failure or an error.
    ghost is_bad: { Phase → Self.Told → Bool };
}

/// The events of every session are lawful, whatever its fixtures, hooks and tests do or raise.
pub fn every_journal_is_lawful<W: Acts>()
    ensures { (rules : Rules (language W W.Value W.Thrown W.Rest W.Told W.is_bad)) (maxfail : ℕ) (items : List Item) (world : W) → ((item : Item) → IsMember item items → HasFixtureClosure rules item) → Distinct items → Lawful (session rules maxfail items (initial_state world)).events }
{}

/// A session reports the items in order, each once: its set-up, its call where that raised nothing, and its teardown; all of them,
/// or up to the first with which maxfail is reached. What is counted is what these phases tell, and the journal is the events of
/// these phases, in order.
pub fn every_item_is_reported_once<W: Acts>()
    ensures { (rules : Rules (language W W.Value W.Thrown W.Rest W.Told W.is_bad)) (maxfail : ℕ) (items : List Item) (world : W) → IsSessionReport maxfail items (session rules maxfail items (initial_state world)) }
{}

/// At the end of a session exactly those frozen frames are out that were at its start, whatever is raised.
pub fn no_frame_is_left_out<W: Acts>()
    ensures { (rules : Rules (language W W.Value W.Thrown W.Rest W.Told W.is_bad)) (is_out : W.Rest → W → Bool) → KeepsFrames rules is_out → (maxfail : ℕ) (items : List Item) (world : W) → ((item : Item) → IsMember item items → HasFixtureClosure rules item) → SameFrames is_out world (session rules maxfail items (initial_state world)).world }
{}

/// No frozen frame that isn't out goes on or is given up, and one that is out is given up only where it stands at a further `yield`: a
/// session is the same, whatever else the rules would do with a frame. So each frame goes on once: behind it, it is out no more.
pub fn frames_go_on_once<W: Acts>()
    ensures { (rules : Rules (language W W.Value W.Thrown W.Rest W.Told W.is_bad)) (is_out : W.Rest → W → Bool) → KeepsFrames rules is_out → (others : Resumptions (language W W.Value W.Thrown W.Rest W.Told W.is_bad)) → AreAlikeWhereOut rules is_out others
        → (maxfail : ℕ) (items : List Item) (world : W) → session (with_resumptions others rules) maxfail items (initial_state world) ≡ session rules maxfail items (initial_state world) }
{}

/// In the hook call of a phase whose implementations have the runner's own (`HasBuiltIns`), the built-in one is called once, or another
/// raised before it.
pub fn the_built_in_has_one_turn<W: Acts>()
    ensures { (rules : Rules (language W W.Value W.Thrown W.Rest W.Told W.is_bad)) (phase : Phase) (item : Item) (next : Option ℕ) → HasBuiltIns phase (rules.hooks phase item.node)
        → (s : SessionState (language W W.Value W.Thrown W.Rest W.Told W.is_bad)) → BuiltInTurn rules phase item next s }
{}

/// A demand that is refused says why.
pub fn refusals_tell<W: Acts>()
    ensures { (rules : Rules (language W W.Value W.Thrown W.Rest W.Told W.is_bad)) (item : Item) (depth d : ℕ) (s : SessionState (language W W.Value W.Thrown W.Rest W.Told W.is_bad)) → (demand rules item depth d s).answer ≡ Refused [] → ⊥ }
{}

/// A demand is the same at any depth that what it asks for doesn't pass.
pub fn depth_does_not_matter<W: Acts>()
    ensures { (rules : Rules (language W W.Value W.Thrown W.Rest W.Told W.is_bad)) (item : Item) (one other d : ℕ) (s : SessionState (language W W.Value W.Thrown W.Rest W.Told W.is_bad)) → IsWellScoped rules item one d → IsWellScoped rules item other d → demand rules item one d s ≡ demand rules item other d s }
{}

/// A closure without fault is what the demands need: nothing that it reaches goes deeper than there are definitions, and nothing
/// asks for narrower scope.
pub fn closures_are_settled<W: Acts>()
    ensures { (rules : Rules (language W W.Value W.Thrown W.Rest W.Told W.is_bad)) (item : Item) (ds : List ℕ) → IsValidClosure rules item ds → (d : ℕ) → IsMember d ds → IsWellScoped rules item rules.depth d }
{}

/// What hook_order's calls do and answer are the hook calls of a session, where their runner does what the session says of each
/// implementation, or wants memory.
pub fn hook_calls_agree<R: Runner>()
    ensures all { (runner : HookRunner R R.Got R.Exc R.Frozen) → RunnerFollows itself R.calls R.begins R.resumes (λ place. runner)
        → (impls : List Impl) (before after : R) (end : Inner R.Got R.Exc) (values : List R.Got)
        → HookCall (CallsEach R.calls) R.begins R.resumes impls before end values after → Agrees {Z = R.Frozen} itself (hook_call runner impls before) before end values after }
    ensures first { (runner : HookRunner R R.Got R.Exc R.Frozen) → RunnerFollows itself R.calls R.begins R.resumes (λ place. runner)
        → (impls : List Impl) (before after : R) (end : Inner R.Got R.Exc) (values : List R.Got)
        → HookCall (FindsFirst R.calls) R.begins R.resumes impls before end values after → Agrees {Z = R.Frozen} itself (first_call runner impls before) before end values after }
{}

/// The same of a runner that is read as the state of a session, where it holds besides the phase, the item and the next item.
pub fn hook_calls_are_a_sessions<R: Runner, W: Acts>()
    ensures { (rules : Rules (language W W.Value W.Thrown W.Rest W.Told W.is_bad))
        (view : HookView R R.Got R.Exc R.Frozen (SessionState (language W W.Value W.Thrown W.Rest W.Told W.is_bad)) HookPlace W.Value (Exceptions (language W W.Value W.Thrown W.Rest W.Told W.is_bad)) (Frame (language W W.Value W.Thrown W.Rest W.Told W.is_bad)))
        → RunnerFollows view R.calls R.begins R.resumes (hook_runner rules)
        → (impls : List Impl) (before after : R) (end : Inner R.Got R.Exc) (values : List R.Got)
        → HookCall (CallsEach R.calls) R.begins R.resumes impls before end values after → Agrees view (hook_call (hook_runner rules (view.place before)) impls (view.state before)) before end values after }
{}

/// The finalizers of a `request` are those that were added while it was open, latest first; once its instance is going, none is
/// added.
pub fn finalizers_are_latest_first<W: Acts>()
    ensures latest { (fs : List W.Value) → added_all fs new_request ≡ record { is_open = true; finalizers = reverse fs } }
    ensures going { (fs : List W.Value) (request : RequestFinalizers W.Value) → added_all fs (closed request) ≡ closed request }
{}
