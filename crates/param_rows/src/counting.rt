ghost use Rattle.std.specs.Prelude.{◌≡◌, ◌≤◌, ◌*◌, suc, min, map, length};
ghost use Rattle.param_rows.specs.Limits.{most_rows};
ghost use Rattle.param_rows.specs.Rows.{fixture_choices, mark_choices, product, choice_lists};

use crate::id::PyId;
use crate::param::ParamMark;

/// How many rows a test has at most.
pub const MOST_ROWS: usize = 65_536;

/// The product, or one more than the limit where it is larger.
fn times(total: usize, more: usize) -> usize
    ensures { result ≡ min (total * more) (suc most_rows) }
{
    total.saturating_mul(more).min(MOST_ROWS + 1)
}

fn times_fixtures<V>(total: usize, fixtures: &[(u32, Vec<PyId>)]) -> usize
    requires { total ≤ suc most_rows }
    ensures { result ≡ min (total * length (product (map (fixture_choices {V = V}) fixtures.now))) (suc most_rows) }
{
    let mut total = total;
    for (_, ids) in fixtures {
        total = times(total, ids.len());
    }
    total
}

fn times_marks<V>(total: usize, marks: &[ParamMark<V>]) -> usize
    requires { total ≤ suc most_rows }
    ensures { result ≡ min (total * length (product (map mark_choices marks.now))) (suc most_rows) }
{
    let mut total = total;
    for mark in marks {
        total = times(total, mark.sets.items().len());
    }
    total
}

/// How many rows there are, or one more than the limit where there are more.
pub fn count<V>(fixtures: &[(u32, Vec<PyId>)], marks: &[ParamMark<V>]) -> usize
    ensures { result ≡ min (length (product (choice_lists fixtures.now marks.now))) (suc most_rows) }
{
    times_marks(times_fixtures::<V>(1, fixtures), marks)
}
