// The names of fixtures, by number.

ghost use Rattle.std.specs.Prelude.{◌≡◌, IfOk, OnOk, fold};
ghost use Rattle.test_session.specs.Collections as shown;

use collection_nodes::Mentions;
use fixture_definitions::but_request;
use seq::{OutOfMemory, PyText, Seq};
use std::alloc::Global;
use test_suite::Fixture;

/// Mentions the names of a fixture: its own and those that it asks for.
fn mention(alloc: Global, names: &mut Mentions, fixture: &Fixture) -> Result<(), OutOfMemory>
    ensures { OnOk result (names.new ≡ shown.with_fixture names.old fixture.now) }
{
    let arguments = but_request(alloc, fixture.arguments.items())?;
    names.mention(alloc, fixture.name.chars())?;
    names.mention_all(alloc, arguments.items())
}

fn mention_all(alloc: Global, names: &mut Mentions, fixtures: &[Fixture]) -> Result<(), OutOfMemory>
    ensures { OnOk result (names.new ≡ fold shown.with_fixture names.old fixtures.now) }
{
    for fixture in fixtures {
        mention(alloc, names, fixture)?;
    }
    Ok(())
}

/// The names of fixtures and of what they ask for, each once, in the order in which they are met: so the table numbers them.
pub(crate) fn fixture_names(alloc: Global, fixtures: &[Fixture]) -> Result<Seq<PyText>, OutOfMemory>
    ensures { IfOk result (λ names. names ≡ shown.fixture_names fixtures.now) }
{
    let mut names = Mentions::new(alloc);
    mention_all(alloc, &mut names, fixtures)?;
    names.texts(alloc)
}
