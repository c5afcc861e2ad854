ghost use Rattle.std.specs.Prelude.{◌≡◌, ℕ, ◌≤◌, IfOk};

use crate::rule::{Counts, DrawnOnce, Range};
use atomic_table::{Seat, Table};
use seq::OutOfMemory;
use std::alloc::Global;
use std::marker::Model;

/// The shared word, at first the number of workers, and the seat of all of them. Contracts see how many groups and workers there
/// are.
#[derive(Drop)]
pub struct Draws {
    pub(crate) table: Table<(), Range, Counts, DrawnOnce, Global>,
    pub(crate) seat: Seat<(), Range>,
    pub(crate) counts: Counts,
}

impl Model for Draws {
    ghost use Rattle.share_files.specs.declared.rule.Counts.{Counts};
    ghost use Rattle.share_files.specs.Fed.{IsUndrawn};

    ghost Value = { Counts };

    ghost view = { λ d. d.counts };

    ghost invariant = { λ d. IsUndrawn d.table.shared.table_id d.table.shared.key d.seat.table_id d.seat.me d.counts };
}

impl Draws {
    /// For this many groups and workers.
    pub fn new(alloc: Global, groups: u32, workers: u32) -> Result<Draws, OutOfMemory>
        requires { (1 ≤ workers) × (workers ≤ groups) }
        ensures { IfOk result (λ draws. draws ≡ record { groups = groups; workers = workers }) }
    {
        let counts = Counts { groups, workers };
        let (table, seat) = Table::of_words(alloc, &[workers as u64], &counts)?;
        Ok(Draws {
            table,
            seat,
            counts,
        })
    }
}
