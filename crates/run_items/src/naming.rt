// The names of fixtures and the ids of their parameters, as a report has them.

ghost use Rattle.std.specs.Prelude.{◌≡◌, ℕ, ◌++◌, ◌∷◌, IfOk, List, OnOk, encode_utf8_all, option_map};
ghost use Rattle.run_items.specs.Texts.{fixture_texts, texts_of};
ghost use Rattle.fixture_world.specs.fixture_calls.Arguments.{names_request};
ghost use Rattle.fixture_world.specs.Items.{id_in};
ghost use Rattle.test_suite.specs.Suites.{fixture_at};

use report_parts::Text;
use seq::{OutOfMemory, PyText, Seq, encoded};
use session_types::{DefId, Scope};
use std::alloc::Global;
use test_suite::{FixtureParam, Suite};

/// The scope of a definition.
pub(crate) fn fixture_scope(suite: &Suite, def: DefId) -> Scope
    ensures { result ≡ (fixture_at suite.now def).scope }
{
    match suite.fixture(def) {
        Some(fixture) => fixture.scope,
        None => Scope::Function,
    }
}

/// The name of a definition's fixture.
pub(crate) fn fixture_name(alloc: Global, suite: &Suite, def: DefId) -> Result<Text, OutOfMemory>
    ensures { IfOk result (λ name. name ≡ (fixture_texts suite.now def).name) }
{
    match suite.fixture(def) {
        Some(fixture) => encoded(alloc, fixture.name.chars()),
        None => encoded(alloc, &[]),
    }
}

fn is_spelled(letters: &[char], name: &[char]) -> bool
    ensures { result ≡ name_eq letters.now name.now }
{
    letters == name
}

ghost use Rattle.py_values.specs.Names.{name_eq};

/// Whether a name is `request`.
fn names_request(name: &[char]) -> bool
    ensures { result ≡ names_request name.now }
{
    is_spelled(&['r', 'e', 'q', 'u', 'e', 's', 't'], name)
}

/// The text of a name goes behind the others, unless it is `request`.
fn push_text(alloc: Global, texts: &mut Seq<Text>, name: &PyText) -> Result<(), OutOfMemory>
    ensures { OnOk result ((names : List (List ℕ)) → texts.new ++ texts_of names ≡ texts.old ++ texts_of (name.now ∷ names)) }
{
    if names_request(name.chars()) {
        return Ok(());
    }
    let text = encoded(alloc, name.chars())?;
    texts.push(text)?;
    Ok(())
}

fn texts_of(alloc: Global, names: &[PyText]) -> Result<Seq<Text>, OutOfMemory>
    ensures { IfOk result (λ texts. texts ≡ texts_of names.now) }
{
    let mut texts = Seq::new(alloc);
    for name in names {
        push_text(alloc, &mut texts, name)?;
    }
    Ok(texts)
}

/// The names of the arguments of a definition's fixture, without `request`.
pub(crate) fn argument_names(
    alloc: Global,
    suite: &Suite,
    def: DefId,
) -> Result<Seq<Text>, OutOfMemory>
    ensures { IfOk result (λ names. names ≡ (fixture_texts suite.now def).arguments) }
{
    match suite.fixture(def) {
        Some(fixture) => texts_of(alloc, fixture.arguments.items()),
        None => Ok(Seq::new(alloc)),
    }
}

/// The id of the parameter that stands there for a definition.
pub(crate) fn param_id<'a>(params: &'a [FixtureParam], def: DefId) -> Option<&'a str>
    ensures { option_map (λ id. id.now) result ≡ id_in params.now def }
{
    for param in params {
        if def.number() == param.def.number() {
            return Some(param.id.text());
        }
    }
    None
}
