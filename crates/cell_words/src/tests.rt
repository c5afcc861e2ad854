ghost use Rattle.std.specs.Prelude.{◌≡◌, ◌<◌};

use crate::{CellWords, Steps};
use seq::OutOfMemory;
use std::alloc::Global;
use std::marker::Brand;
use std::sync::ledger::{Blank, Ledger};
use std::test::Fail;

/// What a few writes gave back, and what stands there then.
fn written<L: Ledger>(alloc: Global, blank: Blank) -> Result<[u32; 5], OutOfMemory>
    requires name { blank.name ≡ L.name }
    requires parts { blank.parts ≡ L.parts }
    requires share { 0 < blank.parts }
{
    let mut steps = Steps::<L>::new(blank);
    let mut words = CellWords::new(alloc)?;
    words.grow_cells(1)?;
    words.grow_cells(2)?;
    words.grow_heads(3)?;
    let cell = words.swap_cell(1, 7, &mut steps);
    let head = words.swap_head(0, 8, &mut steps);
    Ok([cell, head, *words.cell(0), *words.cell(1), *words.head(0)])
}

#[test]
fn a_write_gives_back_what_stood_there(rt: HostRuntime) -> Result<(), Fail> {
    let got = written::<Brand>(rt.alloc(), Blank::new(1))?;
    assert_eq!(rt; got, [2, 3, 1, 7, 8]);
    Ok(())
}
