ghost use Rattle.std.specs.Prelude.{◌≡◌};

use link_cells::CellId;

/// The name of a live instance. It names it until it is unlinked.
#[derive(Clone, Copy, PartialEq, Eq)]
pub struct LiveId {
    order: u64,
    cell: CellId,
}

impl LiveId {
    pub(crate) fn new(order: u64, cell: CellId) -> LiveId
        ensures { result ≡ record { order = order; cell = cell } }
    {
        LiveId { order, cell }
    }

    /// The number of the instance in order of set-up.
    pub fn order(self) -> u64
        ensures { result ≡ self.order }
    {
        self.order
    }

    pub(crate) fn cell(self) -> CellId
        ensures { result ≡ self.cell }
    {
        self.cell
    }
}
