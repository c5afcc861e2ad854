ghost use Rattle.std.specs.Prelude.{◌≡◌, ◌<◌, Bool, true, length, IfOk, OnOk};
ghost use Rattle.session_rules.specs.Frames.{KeepsFrames};
ghost use Rattle.session_rules.specs.World.{Phase, Rules, language};
ghost use Rattle.fixture_table.specs.Tables.{TableValue};
ghost use Rattle.fixture_instances.specs.declared.items.ItemRef.{ItemRef};
ghost use Rattle.fixture_instances.specs.Views.{body_end};
ghost use Rattle.fixture_instances.specs.Items.{parameter_in};

use crate::ends::BodyEnd;
use crate::items::ItemRef;
use fixture_table::Table;
use seq::{OutOfMemory, Seq};
use session_types::DefId;

/// A world in which the functions of fixtures run.
///
/// What each call does and answers are rules, which depend on a setting: the limits of a run and the rows of its items.
pub trait Executor {
    type Value: Copy;

    /// An exception with its trace.
    type Thrown: Drop;

    /// What remains of a body that stands at its `yield`.
    type Rest;

    /// What a phase tells at its end.
    type Told;

    /// What the rules depend on.
    type Setting;

    /// Whether what a phase tells is a failure or an error.
    ghost is_bad: { Phase → Self.Told → Bool };

    ghost rules: { Self.Setting → Rules (language Self Self.Value Self.Thrown Self.Rest Self.Told is_bad) };

    /// Whether this is the table of the fixtures and this is an item that the setting speaks of.
    ghost knows: { Self.Setting → TableValue → ItemRef Self.Value → Type 0 };

    /// Whether what remains of a body is out.
    ghost is_out: { Self.Rest → Self → Bool };

    /// The world in which what remains of a body is let go behind want of memory: it is spent.
    ghost given_up: { Self.Rest → Self → Self };

    /// Whether a definition's function has a `yield`.
    fn yields(
        &self,
        setting: &Self::Setting,
        table: &Table,
        item: &ItemRef<Self::Value>,
        def: DefId,
    ) -> bool
        requires known { knows setting.now table.now item.now }
        requires def { def < length table.now.defs }
        ensures { result ≡ (rules setting.now).yields def };

    /// Makes the `request` that a definition's function takes in this item, where it takes one.
    fn ask(
        &mut self,
        setting: &Self::Setting,
        table: &Table,
        item: &ItemRef<Self::Value>,
        def: DefId,
    ) -> Result<Option<Self::Value>, OutOfMemory>
        requires known { knows setting.now table.now item.now }
        requires def { def < length table.now.defs }
        ensures request { IfOk result (λ request. request ≡ ((rules setting.now).ask item.now.node def (parameter_in item.now.params def) self.old).request) }
        ensures world { OnOk result (self.new ≡ ((rules setting.now).ask item.now.node def (parameter_in item.now.params def) self.old).world) };

    /// Calls a definition's function for an item, with this instance of the item's class, these values and this `request`.
    fn begin(
        &mut self,
        setting: &Self::Setting,
        table: &Table,
        item: &ItemRef<Self::Value>,
        def: DefId,
        own: Option<Self::Value>,
        values: &[Self::Value],
        request: Option<Self::Value>,
    ) -> Result<BodyEnd<Self::Value, Self::Thrown, Self::Rest>, OutOfMemory>
        requires known { knows setting.now table.now item.now }
        requires def { def < length table.now.defs }
        ensures how { IfOk result (λ end. body_end (rules setting.now) end ≡ ((rules setting.now).begin item.now.node def (parameter_in item.now.params def) own values.now request self.old).how) }
        ensures world { OnOk result (self.new ≡ ((rules setting.now).begin item.now.node def (parameter_in item.now.params def) own values.now request self.old).world) };

    /// `fixture 'NAME' did not yield`
    fn did_not_yield(
        &mut self,
        setting: &Self::Setting,
        table: &Table,
        item: &ItemRef<Self::Value>,
        def: DefId,
    ) -> Result<Self::Thrown, OutOfMemory>
        requires known { knows setting.now table.now item.now }
        requires def { def < length table.now.defs }
        ensures thrown { IfOk result (λ thrown. thrown ≡ ((rules setting.now).did_not_yield def self.old).thrown) }
        ensures world { OnOk result (self.new ≡ ((rules setting.now).did_not_yield def self.old).world) };

    /// Resumes what remains behind a `yield`, with the sent value None. It is spent, whatever is answered.
    fn resume(
        &mut self,
        setting: &Self::Setting,
        rest: Self::Rest,
    ) -> Result<BodyEnd<Self::Value, Self::Thrown, Self::Rest>, OutOfMemory>
        requires out { is_out rest self.old ≡ true }
        ensures how { IfOk result (λ end. body_end (rules setting.now) end ≡ ((rules setting.now).resume rest self.old).how) }
        ensures world { OnOk result (self.new ≡ ((rules setting.now).resume rest self.old).world) };

    /// Gives up what remains behind a `yield`. Takes no memory.
    fn abandon(&mut self, setting: &Self::Setting, rest: Self::Rest)
        requires out { is_out rest self.old ≡ true }
        ensures { self.new ≡ (rules setting.now).abandon rest self.old };

    /// Lets go what remains behind a `yield` where memory was wanted: the world is spent. Takes no memory.
    fn give_up(&mut self, rest: Self::Rest)
        ensures { self.new ≡ given_up rest self.old };

    /// `fixture function has more than one 'yield'`
    fn yielded_again(
        &mut self,
        setting: &Self::Setting,
        def: DefId,
    ) -> Result<Self::Thrown, OutOfMemory>
        ensures thrown { IfOk result (λ thrown. thrown ≡ ((rules setting.now).yielded_again def self.old).thrown) }
        ensures world { OnOk result (self.new ≡ ((rules setting.now).yielded_again def self.old).world) };

    /// Closes a `request`, which takes no further finalizers, and gives those that it had, latest first.
    fn close(
        &mut self,
        setting: &Self::Setting,
        request: Self::Value,
    ) -> Result<Seq<Self::Value>, OutOfMemory>
        ensures finalizers { IfOk result (λ finalizers. finalizers ≡ ((rules setting.now).close request self.old).finalizers) }
        ensures world { OnOk result (self.new ≡ ((rules setting.now).close request self.old).world) };

    /// Calls a finalizer, and answers the exception that it raised.
    fn finalize(
        &mut self,
        setting: &Self::Setting,
        finalizer: Self::Value,
    ) -> Result<Option<Self::Thrown>, OutOfMemory>
        ensures raised { IfOk result (λ raised. raised ≡ ((rules setting.now).finalize finalizer self.old).raised) }
        ensures world { OnOk result (self.new ≡ ((rules setting.now).finalize finalizer self.old).world) };

    /// A copy of an exception with its trace.
    fn copied(&self, thrown: &Self::Thrown) -> Result<Self::Thrown, OutOfMemory>
        ensures { IfOk result (λ copy. copy ≡ thrown.now) };

    ghost keeps: { (setting : Self.Setting) → KeepsFrames (rules setting) is_out };
}
