ghost use Rattle.std.specs.Prelude.{◌≡◌, ℕ, ◌+◌, ◌<◌, ◌^◌, ◌++◌, List, [], ◌∷◌, length, map, None, Some, IfOk, OnOk};
ghost use Rattle.std.specs.Option.{option_map};
ghost use Rattle.session_types.specs.Members.{IsMember};
ghost use Rattle.session_types.specs.Live.{dependents, find, down_order, not_on, instance_number, instance_by_number, instance_numbers, without};
ghost use Rattle.session_types.specs.declared.instance.Instance.{Instance};
ghost use Rattle.session_rules.specs.Teardown.{down_all, down_more, down_one, some_raised, session_step};
ghost use Rattle.session_rules.specs.Demand.{answer_of, call_fixture_func, demand, replace, reply, set_up, settle};
ghost use Rattle.session_rules.specs.Fits.{IsWellScoped};
ghost use Rattle.session_rules.specs.Frames.{StandsWith};
ghost use Rattle.session_rules.specs.Session.{demand_closure};
ghost use Rattle.fixture_table.specs.Tree.{IsTree};
ghost use Rattle.fixture_table.specs.Nearest.{def_at};
ghost use Rattle.live_chains.specs.declared.id.LiveId.{LiveId};
ghost use Rattle.live_chains.specs.Chained.{Apart, id_order, ids_without};
ghost use Rattle.setup_stack.specs.Asking.{IsWithinDepth, IsReady, IsTurn, goes_or_ends, wants, wants_then};
ghost use Rattle.setup_stack.specs.Borne.{answer_with, event_for, without_all};
ghost use Rattle.fixture_instances.specs.Items.{item_for_session, def_scope_node};
ghost use Rattle.setup_stack.specs.Making.{made_with};
ghost use Rattle.setup_stack.specs.Scopes.{HasScopes};
ghost use Rattle.setup_stack.specs.Standing.{AllStand, IsCached};
ghost use Rattle.setup_stack.specs.Views.{answer_in, grants_of, stack_state};
ghost use Rattle.fixture_instances.specs.Views.{live_instance, live_instances, set_up_end, told_of};

use crate::answers::{Answer, Grant};
use crate::frame::{AskFrame, Turn, hand, next_of, open};
use crate::lists::{bases_of, is_same, orders_of, values_of};
use crate::making::{SetUpOutcome, make, tell};
use crate::marks::is_marked;
use crate::standing::{note, stays};
use crate::tearing::{close_request, tear};
use fixture_instances::{
    CachedResult, Executor, ItemRef, LiveFixtures, SetUpEnd, parameter_in, place_of,
};
use fixture_table::Table;
use live_chains::LiveId;
use seq::{OutOfMemory, Seq, push_all};
use session_types::{Bases, DefId, Event, Instance, Made, Numbers};
use std::alloc::Global;

/// The live instances, the journal, and what answered the demands of the item at hand.
pub struct SetupStack<V, E, R> {
    pub live: LiveFixtures<V, E, R>,
    pub events: Seq<Event>,
    pub given: Seq<Grant<V>>,
    /// The instance of the item's class, where it has one.
    pub own: Option<V>,
}

/// Whether anything was raised.
fn has_any<E>(raised: &[E]) -> bool
    ensures { result ≡ some_raised raised.now }
{
    match raised {
        [] => false,
        [_, ..] => true,
    }
}

/// One goes down: its `request` closes, what remains is resumed, and then its finalizers are called.
fn down<W: Executor>(
    alloc: Global,
    stack: &mut SetupStack<W::Value, W::Thrown, W::Rest>,
    world: &mut W,
    setting: &W::Setting,
    id: LiveId,
    raised: &mut Seq<W::Thrown>,
) -> Result<(), OutOfMemory>
    requires live { IsMember id stack.old.live.ids }
    requires frames { StandsWith (stack_state (W.rules setting.now) world.old stack.old) W.is_out [] }
    ensures state { OnOk result (stack_state (W.rules setting.now) world.new stack.new ≡ (down_one (W.rules setting.now) (instance_by_number id.order (live_instances (W.rules setting.now) stack.old.live.live)) (stack_state (W.rules setting.now) world.old stack.old)).state) }
    ensures raised { OnOk result (raised.new ≡ raised.old ++ (down_one (W.rules setting.now) (instance_by_number id.order (live_instances (W.rules setting.now) stack.old.live.live)) (stack_state (W.rules setting.now) world.old stack.old)).raised) }
    ensures ids { OnOk result (stack.new.live.ids ≡ ids_without id.order stack.old.live.ids) }
    ensures live { OnOk result (stack.new.live.live ≡ without id.order stack.old.live.live) }
{
    let request = stack.live.held(id).request;
    let finalizers = close_request(alloc, world, setting, request)?;
    let Instance {
        def,
        param: _param,
        node: _node,
        scope: _scope,
        order,
        bases: _bases,
        slot,
    } = stack.live.take(id);
    let CachedResult {
        kept: _kept,
        rest,
        request: _request,
    } = slot;
    let more = tear(alloc, world, setting, def, rest, finalizers.items())?;
    let any = has_any(more.items());
    stack.events.push(Event::DownBegins(order))?;
    stack.events.push(Event::Down(order, any))?;
    push_all(raised, more)?;
    Ok(())
}

/// These go down in order, whatever raises.
fn down_each<W: Executor>(
    alloc: Global,
    stack: &mut SetupStack<W::Value, W::Thrown, W::Rest>,
    world: &mut W,
    setting: &W::Setting,
    ids: &[LiveId],
    raised: &mut Seq<W::Thrown>,
) -> Result<(), OutOfMemory>
    requires live { (id : LiveId) → IsMember id ids.now → IsMember id stack.old.live.ids }
    requires once { Apart id_order ids.now }
    requires frames { StandsWith (stack_state (W.rules setting.now) world.old stack.old) W.is_out [] }
    ensures down { OnOk result (session_step raised.new (stack_state (W.rules setting.now) world.new stack.new) ≡ down_more (W.rules setting.now) (map id_order ids.now) raised.old (stack_state (W.rules setting.now) world.old stack.old)) }
    ensures live { OnOk result (stack.new.live.live ≡ without_all (map id_order ids.now) stack.old.live.live) }
    ensures frames { OnOk result (StandsWith (stack_state (W.rules setting.now) world.new stack.new) W.is_out []) }
{
    for id in ids {
        down(alloc, stack, world, setting, *id, raised)?;
    }
    Ok(())
}

/// What isn't for these nodes goes down, whatever raises.
pub(crate) fn leave<W: Executor>(
    alloc: Global,
    stack: &mut SetupStack<W::Value, W::Thrown, W::Rest>,
    world: &mut W,
    setting: &W::Setting,
    chain: &[u32],
) -> Result<Seq<W::Thrown>, OutOfMemory>
    requires frames { StandsWith (stack_state (W.rules setting.now) world.old stack.old) W.is_out [] }
    ensures down { IfOk result (λ raised. session_step raised (stack_state (W.rules setting.now) world.new stack.new) ≡ down_all (W.rules setting.now) (not_on chain.now (live_instances (W.rules setting.now) stack.old.live.live)) (stack_state (W.rules setting.now) world.old (record stack.old { given = [] }))) }
    ensures frames { OnOk result (StandsWith (stack_state (W.rules setting.now) world.new stack.new) W.is_out []) }
{
    let going = stack.live.off_of(alloc, chain)?;
    stack.given = Seq::new(alloc);
    let mut raised = Seq::new(alloc);
    down_each(alloc, stack, world, setting, &going, &mut raised)?;
    Ok(raised)
}

/// A definition's function is called for an item with the values that it was given.
fn begin<W: Executor>(
    alloc: Global,
    world: &mut W,
    setting: &W::Setting,
    table: &Table,
    item: &ItemRef<W::Value>,
    def: DefId,
    own: Option<W::Value>,
    given: &[Grant<W::Value>],
) -> Result<SetUpOutcome<W::Value, W::Thrown, W::Rest>, OutOfMemory>
    requires known { W.knows setting.now table.now item.now }
    requires def { def < length table.now.defs }
    ensures made { IfOk result (λ made. made_with (W.rules setting.now) made.held world.new ≡ call_fixture_func (W.rules setting.now) (item_for_session table.now item.now) def (grants_of (W.rules setting.now) given.now) own ((W.rules setting.now).ask item.now.node def ((item_for_session table.now item.now).parameter def) world.old)) }
    ensures told { IfOk result (λ made. made.told ≡ told_of made.held.kept) }
{
    let values = values_of(alloc, given)?;
    let request = world.ask(setting, table, item, def)?;
    let end = world.begin(setting, table, item, def, own, &values, request)?;
    let made = make(alloc, world, setting, table, item, def, request, end)?;
    Ok(made)
}

/// The event of one that comes up, or fails to.
fn event_for<V, E, R>(bases: Numbers, instance: &Instance<CachedResult<V, E, R>>) -> Event
    ensures { result ≡ event_for bases instance.now }
{
    let birth = Made {
        n: instance.order,
        def: instance.def,
        param: instance.param,
        node: instance.node,
        bases,
    };
    match &instance.slot.kept {
        SetUpEnd::Value(_) => Event::Up(birth),
        SetUpEnd::Failure(_) => Event::UpFailed(birth),
    }
}

/// One comes up, or fails to.
fn bear<V, E, R>(
    stack: &mut SetupStack<V, E, R>,
    instance: Instance<CachedResult<V, E, R>>,
    bases: Numbers,
) -> Result<(), OutOfMemory>
    requires room { 0 < stack.old.live.spare }
    requires count { stack.old.live.next + 1 < 2 ^ 64 }
    requires order { instance.order ≡ stack.old.live.next }
    requires free { find instance.def instance.node stack.old.live.live ≡ None }
    ensures live { OnOk result (stack.new.live.live ≡ stack.old.live.live ++ instance ∷ []) }
    ensures next { OnOk result (stack.new.live.next ≡ stack.old.live.next + 1) }
    ensures events { OnOk result (stack.new.events ≡ stack.old.events ++ event_for bases instance ∷ []) }
    ensures given { OnOk result (stack.new.given ≡ stack.old.given) }
    ensures own { OnOk result (stack.new.own ≡ stack.old.own) }
{
    let event = event_for(bases, &instance);
    let _id = stack.live.link(instance);
    stack.events.push(event)?;
    Ok(())
}

/// What is answered of one that was set up.
fn answer_with<V, E>(
    def: DefId,
    order: u64,
    bases: Bases,
    told: SetUpEnd<V, Seq<E>>,
) -> Answer<V, E>
    ensures { result ≡ answer_with def order bases told }
{
    match told {
        SetUpEnd::Value(value) => Answer::Given(Grant {
            def,
            order,
            value,
            bases,
        }),
        SetUpEnd::Failure(raised) => Answer::Refused(raised),
    }
}

/// None lives on its scope node: one is reserved, its function is called, and it comes up or fails to.
fn set_up<W: Executor>(
    alloc: Global,
    stack: &mut SetupStack<W::Value, W::Thrown, W::Rest>,
    world: &mut W,
    setting: &W::Setting,
    table: &Table,
    item: &ItemRef<W::Value>,
    def: DefId,
    given: &[Grant<W::Value>],
) -> Result<Answer<W::Value, W::Thrown>, OutOfMemory>
    requires known { W.knows setting.now table.now item.now }
    requires scopes { HasScopes (W.rules setting.now) table.now }
    requires tree { IsTree table.now.nodes }
    requires def { def < length table.now.defs }
    requires node { item.now.node < length table.now.nodes }
    requires free { find def (def_scope_node table.now item.now def) stack.old.live.live ≡ None }
    requires frames { StandsWith (stack_state (W.rules setting.now) world.old stack.old) W.is_out [] }
    ensures answer { IfOk result (λ answer. answer_in (W.rules setting.now) answer ≡ (set_up (W.rules setting.now) (item_for_session table.now item.now) def (grants_of (W.rules setting.now) given.now) (stack_state (W.rules setting.now) world.old stack.old)).answer) }
    ensures state { OnOk result (stack_state (W.rules setting.now) world.new stack.new ≡ (set_up (W.rules setting.now) (item_for_session table.now item.now) def (grants_of (W.rules setting.now) given.now) (stack_state (W.rules setting.now) world.old stack.old)).state) }
    ensures frames { OnOk result (StandsWith (stack_state (W.rules setting.now) world.new stack.new) W.is_out []) }
{
    let direct = orders_of(alloc, given)?;
    let bases = bases_of(alloc, given)?;
    let copy = bases.copied(alloc)?;
    stack.live.reserve()?;
    let order = stack.live.next();
    let made = begin(alloc, world, setting, table, item, def, stack.own, given)?;
    let SetUpOutcome { held, told } = made;
    let instance = Instance {
        def,
        param: parameter_in(item.params.items(), def),
        node: place_of(table, item, def),
        scope: table.def(def).scope,
        order,
        bases,
        slot: held,
    };
    bear(stack, instance, direct)?;
    Ok(answer_with(def, order, copy, told))
}

/// The answer of one that lives: its value, or its exception, which is raised again with its trace.
fn found<W: Executor>(
    alloc: Global,
    stack: &SetupStack<W::Value, W::Thrown, W::Rest>,
    world: &W,
    setting: &W::Setting,
    id: LiveId,
) -> Result<Answer<W::Value, W::Thrown>, OutOfMemory>
    requires { IsMember id stack.now.live.ids }
    ensures { IfOk result (λ answer. option_map (λ i. answer_of (live_instance (W.rules setting.now) i) (set_up_end (W.rules setting.now) i.slot.kept)) (instance_by_number id.order stack.now.live.live) ≡ Some (answer_in (W.rules setting.now) answer)) }
{
    let told = tell(alloc, world, &stack.live.held(id).kept)?;
    let one = stack.live.get(id);
    let bases = one.bases.copied(alloc)?;
    Ok(answer_with(one.def, one.order, bases, told))
}

/// The one that lives has another parameter: it goes down with all that depend on it. Where that raises nothing, another is set up.
fn replace<W: Executor>(
    alloc: Global,
    stack: &mut SetupStack<W::Value, W::Thrown, W::Rest>,
    world: &mut W,
    setting: &W::Setting,
    table: &Table,
    item: &ItemRef<W::Value>,
    def: DefId,
    given: &[Grant<W::Value>],
    id: LiveId,
) -> Result<Answer<W::Value, W::Thrown>, OutOfMemory>
    requires known { W.knows setting.now table.now item.now }
    requires scopes { HasScopes (W.rules setting.now) table.now }
    requires tree { IsTree table.now.nodes }
    requires def { def < length table.now.defs }
    requires node { item.now.node < length table.now.nodes }
    requires there { option_map instance_number (find def (def_scope_node table.now item.now def) stack.old.live.live) ≡ Some id.order }
    requires frames { StandsWith (stack_state (W.rules setting.now) world.old stack.old) W.is_out [] }
    ensures answer { IfOk result (λ answer. answer_in (W.rules setting.now) answer ≡ (replace (W.rules setting.now) (item_for_session table.now item.now) def (grants_of (W.rules setting.now) given.now) (down_all (W.rules setting.now) (dependents id.order (live_instances (W.rules setting.now) stack.old.live.live)) (stack_state (W.rules setting.now) world.old stack.old))).answer) }
    ensures state { OnOk result (stack_state (W.rules setting.now) world.new stack.new ≡ (replace (W.rules setting.now) (item_for_session table.now item.now) def (grants_of (W.rules setting.now) given.now) (down_all (W.rules setting.now) (dependents id.order (live_instances (W.rules setting.now) stack.old.live.live)) (stack_state (W.rules setting.now) world.old stack.old))).state) }
    ensures frames { OnOk result (StandsWith (stack_state (W.rules setting.now) world.new stack.new) W.is_out []) }
{
    stack.live.is_in_order();
    let ids = stack.live.dependents_of(alloc, id)?;
    let mut raised = Seq::new(alloc);
    down_each(alloc, stack, world, setting, &ids, &mut raised)?;
    if has_any(raised.items()) {
        return Ok(Answer::Refused(raised));
    }
    let answer = set_up(alloc, stack, world, setting, table, item, def, given)?;
    Ok(answer)
}

/// One lives on its scope node: with the same parameter it answers, with another it is replaced.
fn settle_found<W: Executor>(
    alloc: Global,
    stack: &mut SetupStack<W::Value, W::Thrown, W::Rest>,
    world: &mut W,
    setting: &W::Setting,
    table: &Table,
    item: &ItemRef<W::Value>,
    def: DefId,
    given: &[Grant<W::Value>],
    id: LiveId,
) -> Result<Answer<W::Value, W::Thrown>, OutOfMemory>
    requires known { W.knows setting.now table.now item.now }
    requires scopes { HasScopes (W.rules setting.now) table.now }
    requires tree { IsTree table.now.nodes }
    requires def { def < length table.now.defs }
    requires node { item.now.node < length table.now.nodes }
    requires live { IsMember id stack.old.live.ids }
    requires there { option_map instance_number (find def (def_scope_node table.now item.now def) stack.old.live.live) ≡ Some id.order }
    requires frames { StandsWith (stack_state (W.rules setting.now) world.old stack.old) W.is_out [] }
    ensures answer { IfOk result (λ answer. answer_in (W.rules setting.now) answer ≡ (settle (W.rules setting.now) (item_for_session table.now item.now) def (grants_of (W.rules setting.now) given.now) (find def (def_scope_node table.now item.now def) (live_instances (W.rules setting.now) stack.old.live.live)) (stack_state (W.rules setting.now) world.old stack.old)).answer) }
    ensures state { OnOk result (stack_state (W.rules setting.now) world.new stack.new ≡ (settle (W.rules setting.now) (item_for_session table.now item.now) def (grants_of (W.rules setting.now) given.now) (find def (def_scope_node table.now item.now def) (live_instances (W.rules setting.now) stack.old.live.live)) (stack_state (W.rules setting.now) world.old stack.old)).state) }
    ensures frames { OnOk result (StandsWith (stack_state (W.rules setting.now) world.new stack.new) W.is_out []) }
{
    stack.live.is_in_order();
    if is_same(
        stack.live.get(id).param,
        parameter_in(item.params.items(), def),
    ) {
        let answer = found(alloc, stack, world, setting, id)?;
        return Ok(answer);
    }
    let answer = replace(alloc, stack, world, setting, table, item, def, given, id)?;
    Ok(answer)
}

/// What was given to a definition's arguments is there: it is found or made.
fn settle<W: Executor>(
    alloc: Global,
    stack: &mut SetupStack<W::Value, W::Thrown, W::Rest>,
    world: &mut W,
    setting: &W::Setting,
    table: &Table,
    item: &ItemRef<W::Value>,
    def: DefId,
    given: &[Grant<W::Value>],
) -> Result<Answer<W::Value, W::Thrown>, OutOfMemory>
    requires known { W.knows setting.now table.now item.now }
    requires scopes { HasScopes (W.rules setting.now) table.now }
    requires tree { IsTree table.now.nodes }
    requires def { def < length table.now.defs }
    requires node { item.now.node < length table.now.nodes }
    requires frames { StandsWith (stack_state (W.rules setting.now) world.old stack.old) W.is_out [] }
    ensures answer { IfOk result (λ answer. answer_in (W.rules setting.now) answer ≡ (settle (W.rules setting.now) (item_for_session table.now item.now) def (grants_of (W.rules setting.now) given.now) (find def (def_scope_node table.now item.now def) (live_instances (W.rules setting.now) stack.old.live.live)) (stack_state (W.rules setting.now) world.old stack.old)).answer) }
    ensures state { OnOk result (stack_state (W.rules setting.now) world.new stack.new ≡ (settle (W.rules setting.now) (item_for_session table.now item.now) def (grants_of (W.rules setting.now) given.now) (find def (def_scope_node table.now item.now def) (live_instances (W.rules setting.now) stack.old.live.live)) (stack_state (W.rules setting.now) world.old stack.old)).state) }
    ensures frames { OnOk result (StandsWith (stack_state (W.rules setting.now) world.new stack.new) W.is_out []) }
{
    match stack.live.find(def, place_of(table, item, def)) {
        None => {
            let answer = set_up(alloc, stack, world, setting, table, item, def, given)?;
            Ok(answer)
        }
        Some(id) => {
            let answer = settle_found(alloc, stack, world, setting, table, item, def, given, id)?;
            Ok(answer)
        }
    }
}

/// It is found or made, and was given nothing.
fn settle_bare<W: Executor>(
    alloc: Global,
    stack: &mut SetupStack<W::Value, W::Thrown, W::Rest>,
    world: &mut W,
    setting: &W::Setting,
    table: &Table,
    item: &ItemRef<W::Value>,
    def: DefId,
) -> Result<Answer<W::Value, W::Thrown>, OutOfMemory>
    requires known { W.knows setting.now table.now item.now }
    requires scopes { HasScopes (W.rules setting.now) table.now }
    requires tree { IsTree table.now.nodes }
    requires def { def < length table.now.defs }
    requires node { item.now.node < length table.now.nodes }
    requires frames { StandsWith (stack_state (W.rules setting.now) world.old stack.old) W.is_out [] }
    ensures answer { IfOk result (λ answer. answer_in (W.rules setting.now) answer ≡ (settle (W.rules setting.now) (item_for_session table.now item.now) def [] (find def (def_scope_node table.now item.now def) (live_instances (W.rules setting.now) stack.old.live.live)) (stack_state (W.rules setting.now) world.old stack.old)).answer) }
    ensures state { OnOk result (stack_state (W.rules setting.now) world.new stack.new ≡ (settle (W.rules setting.now) (item_for_session table.now item.now) def [] (find def (def_scope_node table.now item.now def) (live_instances (W.rules setting.now) stack.old.live.live)) (stack_state (W.rules setting.now) world.old stack.old)).state) }
    ensures frames { OnOk result (StandsWith (stack_state (W.rules setting.now) world.new stack.new) W.is_out []) }
{
    let none = Seq::new(alloc);
    let answer = settle(alloc, stack, world, setting, table, item, def, none.items())?;
    Ok(answer)
}

/// It is found or made, and is marked where it stands from here on. Where one goes down, nothing is marked.
fn settle_noted<W: Executor>(
    alloc: Global,
    stack: &mut SetupStack<W::Value, W::Thrown, W::Rest>,
    world: &mut W,
    setting: &W::Setting,
    table: &Table,
    item: &ItemRef<W::Value>,
    def: DefId,
    given: &[Grant<W::Value>],
    marks: &mut Vec<bool>,
) -> Result<Answer<W::Value, W::Thrown>, OutOfMemory>
    requires known { W.knows setting.now table.now item.now }
    requires scopes { HasScopes (W.rules setting.now) table.now }
    requires tree { IsTree table.now.nodes }
    requires def { def < length table.now.defs }
    requires node { item.now.node < length table.now.nodes }
    requires stand { AllStand (W.rules setting.now) (item_for_session table.now item.now) (live_instances (W.rules setting.now) stack.old.live.live) marks.old.items }
    requires frames { StandsWith (stack_state (W.rules setting.now) world.old stack.old) W.is_out [] }
    ensures answer { IfOk result (λ answer. answer_in (W.rules setting.now) answer ≡ (settle (W.rules setting.now) (item_for_session table.now item.now) def (grants_of (W.rules setting.now) given.now) (find def (def_scope_node table.now item.now def) (live_instances (W.rules setting.now) stack.old.live.live)) (stack_state (W.rules setting.now) world.old stack.old)).answer) }
    ensures state { OnOk result (stack_state (W.rules setting.now) world.new stack.new ≡ (settle (W.rules setting.now) (item_for_session table.now item.now) def (grants_of (W.rules setting.now) given.now) (find def (def_scope_node table.now item.now def) (live_instances (W.rules setting.now) stack.old.live.live)) (stack_state (W.rules setting.now) world.old stack.old)).state) }
    ensures stand { OnOk result (AllStand (W.rules setting.now) (item_for_session table.now item.now) (live_instances (W.rules setting.now) stack.new.live.live) marks.new.items) }
    ensures frames { OnOk result (StandsWith (stack_state (W.rules setting.now) world.new stack.new) W.is_out []) }
{
    let keeps = stays(&stack.live, table, item, def);
    let answer = settle(alloc, stack, world, setting, table, item, def, given)?;
    if keeps {
        note(alloc, marks, table, item, def, &answer)?;
        return Ok(answer);
    }
    marks.clear();
    Ok(answer)
}

/// What stands is found again, and is handed to the one that asks for it.
fn again<W: Executor>(
    alloc: Global,
    stack: &mut SetupStack<W::Value, W::Thrown, W::Rest>,
    world: &mut W,
    setting: &W::Setting,
    table: &Table,
    item: &ItemRef<W::Value>,
    below: &mut Vec<AskFrame<W::Value>>,
    top: AskFrame<W::Value>,
    next: DefId,
) -> Result<Turn<W::Value, W::Thrown>, OutOfMemory>
    requires known { W.knows setting.now table.now item.now }
    requires scopes { HasScopes (W.rules setting.now) table.now }
    requires tree { IsTree table.now.nodes }
    requires node { item.now.node < length table.now.nodes }
    requires deep { IsWithinDepth (W.rules setting.now) (item_for_session table.now item.now) (length table.now.defs) (W.rules setting.now).depth below.old.items top }
    requires next { wants top ≡ next ∷ wants_then top }
    requires stands { IsCached (W.rules setting.now) (item_for_session table.now item.now) (live_instances (W.rules setting.now) stack.old.live.live) next }
    requires frames { StandsWith (stack_state (W.rules setting.now) world.old stack.old) W.is_out [] }
    ensures turn { IfOk result (λ turn. IsTurn (W.rules setting.now) (item_for_session table.now item.now) (length table.now.defs) below.old.items top (stack_state (W.rules setting.now) world.old stack.old) turn below.new.items (stack_state (W.rules setting.now) world.new stack.new)) }
    ensures state { OnOk result (stack_state (W.rules setting.now) world.new stack.new ≡ stack_state (W.rules setting.now) world.old stack.old) }
    ensures frames { OnOk result (StandsWith (stack_state (W.rules setting.now) world.new stack.new) W.is_out []) }
{
    let answer = settle_bare(alloc, stack, world, setting, table, item, next)?;
    below.push(top)?;
    let turn = hand(below, answer)?;
    Ok(turn)
}

/// The one that asks goes on: it asks for what comes next, or it is found or made and answers the one below.
fn turn<W: Executor>(
    alloc: Global,
    stack: &mut SetupStack<W::Value, W::Thrown, W::Rest>,
    world: &mut W,
    setting: &W::Setting,
    table: &Table,
    item: &ItemRef<W::Value>,
    below: &mut Vec<AskFrame<W::Value>>,
    top: AskFrame<W::Value>,
    marks: &mut Vec<bool>,
) -> Result<Turn<W::Value, W::Thrown>, OutOfMemory>
    requires known { W.knows setting.now table.now item.now }
    requires scopes { HasScopes (W.rules setting.now) table.now }
    requires tree { IsTree table.now.nodes }
    requires node { item.now.node < length table.now.nodes }
    requires deep { IsWithinDepth (W.rules setting.now) (item_for_session table.now item.now) (length table.now.defs) (W.rules setting.now).depth below.old.items top }
    requires stand { AllStand (W.rules setting.now) (item_for_session table.now item.now) (live_instances (W.rules setting.now) stack.old.live.live) marks.old.items }
    requires frames { StandsWith (stack_state (W.rules setting.now) world.old stack.old) W.is_out [] }
    ensures turn { IfOk result (λ turn. IsTurn (W.rules setting.now) (item_for_session table.now item.now) (length table.now.defs) below.old.items top (stack_state (W.rules setting.now) world.old stack.old) turn below.new.items (stack_state (W.rules setting.now) world.new stack.new)) }
    ensures stand { OnOk result (AllStand (W.rules setting.now) (item_for_session table.now item.now) (live_instances (W.rules setting.now) stack.new.live.live) marks.new.items) }
    ensures frames { OnOk result (StandsWith (stack_state (W.rules setting.now) world.new stack.new) W.is_out []) }
{
    match next_of(&top) {
        Some(next) => {
            if is_marked(marks.as_slice(), next.number() as usize) {
                let turn = again(alloc, stack, world, setting, table, item, below, top, next)?;
                return Ok(turn);
            }
            let frame = open(alloc, table, item, next)?;
            below.push(top)?;
            Ok(Turn::Goes(frame))
        }
        None => {
            let answer = settle_noted(
                alloc,
                stack,
                world,
                setting,
                table,
                item,
                top.def,
                top.given.items(),
                marks,
            )?;
            let turn = hand(below, answer)?;
            Ok(turn)
        }
    }
}

/// A definition's arguments are demanded in order, and then it is found or made. The first fault is the answer. What is marked stands,
/// and is not demanded again.
pub(crate) fn demand<W: Executor>(
    alloc: Global,
    stack: &mut SetupStack<W::Value, W::Thrown, W::Rest>,
    world: &mut W,
    setting: &W::Setting,
    table: &Table,
    item: &ItemRef<W::Value>,
    def: DefId,
    marks: &mut Vec<bool>,
) -> Result<Answer<W::Value, W::Thrown>, OutOfMemory>
    requires known { W.knows setting.now table.now item.now }
    requires scopes { HasScopes (W.rules setting.now) table.now }
    requires tree { IsTree table.now.nodes }
    requires node { item.now.node < length table.now.nodes }
    requires ready { IsReady (W.rules setting.now) (item_for_session table.now item.now) (length table.now.defs) (W.rules setting.now).depth def }
    requires stand { AllStand (W.rules setting.now) (item_for_session table.now item.now) (live_instances (W.rules setting.now) stack.old.live.live) marks.old.items }
    requires frames { StandsWith (stack_state (W.rules setting.now) world.old stack.old) W.is_out [] }
    ensures stand { OnOk result (AllStand (W.rules setting.now) (item_for_session table.now item.now) (live_instances (W.rules setting.now) stack.new.live.live) marks.new.items) }
    ensures answer { IfOk result (λ answer. demand (W.rules setting.now) (item_for_session table.now item.now) (W.rules setting.now).depth def (stack_state (W.rules setting.now) world.old stack.old) ≡ reply (answer_in (W.rules setting.now) answer) (stack_state (W.rules setting.now) world.new stack.new)) }
    ensures frames { OnOk result (StandsWith (stack_state (W.rules setting.now) world.new stack.new) W.is_out []) }
{
    if is_marked(marks.as_slice(), def.number() as usize) {
        let answer = settle_bare(alloc, stack, world, setting, table, item, def)?;
        return Ok(answer);
    }
    let mut below = Vec::new(alloc);
    let mut top = open(alloc, table, item, def)?;
    'asking: loop {
        match turn(
            alloc, stack, world, setting, table, item, &mut below, top, marks,
        )? {
            Turn::Goes(next) => top = next,
            Turn::Done(answer) => return Ok(answer),
        }
    }
}

/// Demands a definition and notes what was given. The exceptions of a refusal, where it is refused.
pub(crate) fn demand_noted<W: Executor>(
    alloc: Global,
    stack: &mut SetupStack<W::Value, W::Thrown, W::Rest>,
    world: &mut W,
    setting: &W::Setting,
    table: &Table,
    item: &ItemRef<W::Value>,
    def: DefId,
    marks: &mut Vec<bool>,
) -> Result<Option<Seq<W::Thrown>>, OutOfMemory>
    requires known { W.knows setting.now table.now item.now }
    requires scopes { HasScopes (W.rules setting.now) table.now }
    requires tree { IsTree table.now.nodes }
    requires node { item.now.node < length table.now.nodes }
    requires ready { IsReady (W.rules setting.now) (item_for_session table.now item.now) (length table.now.defs) (W.rules setting.now).depth def }
    requires stand { AllStand (W.rules setting.now) (item_for_session table.now item.now) (live_instances (W.rules setting.now) stack.old.live.live) marks.old.items }
    requires frames { StandsWith (stack_state (W.rules setting.now) world.old stack.old) W.is_out [] }
    ensures stand { OnOk result (AllStand (W.rules setting.now) (item_for_session table.now item.now) (live_instances (W.rules setting.now) stack.new.live.live) marks.new.items) }
    ensures noted { IfOk result (λ refused. (ds : List ℕ) → demand_closure (W.rules setting.now) (item_for_session table.now item.now) (def ∷ ds) (stack_state (W.rules setting.now) world.old stack.old) ≡ goes_or_ends (demand_closure (W.rules setting.now) (item_for_session table.now item.now) ds) refused (stack_state (W.rules setting.now) world.new stack.new)) }
    ensures frames { OnOk result (StandsWith (stack_state (W.rules setting.now) world.new stack.new) W.is_out []) }
{
    let answer = demand(alloc, stack, world, setting, table, item, def, marks)?;
    match answer {
        Answer::Refused(raised) => Ok(Some(raised)),
        Answer::Given(grant) => {
            stack.given.push(grant)?;
            Ok(None)
        }
    }
}
