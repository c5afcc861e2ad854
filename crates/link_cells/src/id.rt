ghost use Rattle.std.specs.Prelude.{◌≡◌};

/// The name of a cell. It names its value until the cell is unlinked.
#[derive(Clone, Copy, PartialEq, Eq)]
pub struct CellId {
    cell: usize,
}

impl CellId {
    pub(crate) fn new(cell: usize) -> CellId
        ensures { result ≡ record { cell = cell } }
    {
        CellId { cell }
    }

    pub(crate) fn cell(self) -> usize
        ensures { result ≡ self.cell }
    {
        self.cell
    }
}
