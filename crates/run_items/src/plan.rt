// What the run of items depends on.

use fixture_table::Table;
use fixture_world::RunSetting;

/// What the run of items depends on: the limit of steps and the suite, and the table of the suite's fixtures.
#[derive(Drop)]
pub struct Plan {
    pub run: RunSetting,
    pub table: Table,
}
