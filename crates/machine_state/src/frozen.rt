// Frozen frames.

use crate::locals::Locals;
use crate::place::Location;

/// What is kept of a body that has stopped at a `yield` beside its stack: its names, and where it is.
#[derive(Drop)]
pub struct FrozenBody {
    pub locals: Locals,
    pub here: Location,
}
