use crate::Stacks;
use seq::OutOfMemory;
use std::alloc::Global;
use std::test::Fail;

/// A body stops below so many frames, is frozen, and goes on or is given up.
fn item(stacks: &mut Stacks<u32, u8>, depth: u32, goes_on: bool) -> Result<(), OutOfMemory> {
    for at in 0..depth {
        stacks.push(at)?;
    }
    let number = stacks.freeze(7)?;
    stacks.push(depth)?;
    if goes_on {
        stacks.thaw(number);
    } else {
        stacks.abandon(number);
    }
    stacks.clear();
    Ok(())
}

/// The number of cells behind two items, and behind so many more.
fn counts(alloc: Global, more: u32) -> Result<(usize, usize), OutOfMemory> {
    let mut stacks = Stacks::new(alloc)?;
    item(&mut stacks, 90, true)?;
    item(&mut stacks, 90, false)?;
    let few = stacks.cells();
    for at in 0..more {
        item(&mut stacks, 90, at % 3 != 0)?;
    }
    Ok((few, stacks.cells()))
}

/// What is left of two frozen stacks, where the first goes on over a value and the second is forgotten.
fn left(alloc: Global) -> Result<[Option<u32>; 5], OutOfMemory> {
    let mut stacks: Stacks<u32, u8> = Stacks::new(alloc)?;
    stacks.push(1)?;
    stacks.push(2)?;
    let first = stacks.freeze(8)?;
    stacks.push(3)?;
    stacks.freeze(9)?;
    stacks.push(4)?;
    let body = stacks.thaw(first);
    stacks.forget();
    stacks.replace_top(5);
    Ok([
        body.map(|b| b as u32),
        stacks.pop(),
        stacks.pop(),
        stacks.pop(),
        stacks.pop(),
    ])
}

#[test]
fn cells_are_used_again(rt: HostRuntime) -> Result<(), Fail> {
    let (few, many) = counts(rt.alloc(), 1000)?;
    assert_eq!(rt; few, many);
    assert_eq!(rt; few, 91);
    Ok(())
}

#[test]
fn a_frozen_stack_goes_on_in_front(rt: HostRuntime) -> Result<(), Fail> {
    let got = left(rt.alloc())?;
    assert_eq!(rt; got, [Some(8), Some(5), Some(1), Some(4), None]);
    Ok(())
}
