ghost use Rattle.std.specs.Prelude.{◌≡◌, ℕ, ◌+◌, ◌<◌, ◌≤◌, [], IfOk, OnOk};
ghost use Rattle.session_types.specs.Members.{IsMember};
ghost use Rattle.session_types.specs.declared.instance.Instance.{Instance};

use live_chains::{Chains, Dying, LiveId, PlainChains, Steps};
use seq::OutOfMemory;
use session_types::{Bases, DefId, Instance, Scope};
use std::alloc::Global;
use std::marker::Brand;
use std::sync::ledger::{Blank, Ledger};

/// A fixture to be set up; its definition is its number.
#[derive(Clone, Copy)]
struct Row {
    scope: Scope,
    node: u32,
    bases: &'static [u64],
}

/// The instances in chains, and in a plain list.
#[derive(Drop)]
struct Both {
    chains: Chains,
    plain: PlainChains,
}

fn made(alloc: Global, row: Row, order: u32) -> Result<Instance, OutOfMemory>
    ensures { IfOk result (λ i. (i.order ≡ order) × (i.def ≡ order) × (i.node ≡ row.node)) }
{
    Ok(Instance {
        def: DefId::new(order),
        param: None,
        node: row.node,
        scope: row.scope,
        order: u64::from(order),
        bases: Bases::from_numbers(alloc, row.bases)?,
        slot: 0,
    })
}

/// Sets one up in the chains.
fn link_new<L: Ledger>(
    chains: &mut Chains,
    instance: Instance,
    steps: &mut Steps<L>,
) -> Result<(), OutOfMemory>
    requires { (j : Instance ℕ) → IsMember j chains.old.live → j.order < instance.order }
    ensures { OnOk result ((j : Instance ℕ) → IsMember j chains.new.live → j.order < instance.order + 1) }
{
    chains.reserve(1)?;
    match chains.find(instance.def, instance.node) {
        None => {
            let _id = chains.link(instance, steps);
            Ok(())
        }
        Some(_) => Ok(()),
    }
}

/// Sets one up in the plain list.
fn link_plain(plain: &mut PlainChains, instance: Instance) -> Result<(), OutOfMemory>
    requires { (j : Instance ℕ) → IsMember j plain.old.live → j.order < instance.order }
    ensures { OnOk result ((j : Instance ℕ) → IsMember j plain.new.live → j.order < instance.order + 1) }
{
    plain.reserve(1)?;
    let _number = plain.link(instance);
    Ok(())
}

fn link_both<L: Ledger>(
    alloc: Global,
    both: &mut Both,
    row: Row,
    order: u32,
    steps: &mut Steps<L>,
) -> Result<(), OutOfMemory>
    requires chains { (j : Instance ℕ) → IsMember j both.old.chains.live → j.order < order }
    requires plain { (j : Instance ℕ) → IsMember j both.old.plain.live → j.order < order }
    ensures chains { OnOk result ((j : Instance ℕ) → IsMember j both.new.chains.live → j.order < order + 1) }
    ensures plain { OnOk result ((j : Instance ℕ) → IsMember j both.new.plain.live → j.order < order + 1) }
{
    let one = made(alloc, row, order)?;
    link_new(&mut both.chains, one, steps)?;
    let other = made(alloc, row, order)?;
    link_plain(&mut both.plain, other)?;
    Ok(())
}

/// Tears one down in the chains and in the plain list. Whether both had it.
fn unlink_both<L: Ledger>(both: &mut Both, rows: &[Row], order: u64, steps: &mut Steps<L>) -> bool {
    let Some((def, node)) = place_of(rows, order) else {
        return false;
    };
    let one = match both.chains.find(def, node) {
        Some(id) => Some(both.chains.unlink(id, steps).order),
        None => None,
    };
    let other = match both.plain.find(def, node) {
        Some(number) => Some(both.plain.unlink(number).order),
        None => None,
    };
    one == Some(order) && other == Some(order)
}

/// The definition and the node of the one of this number.
fn place_of(rows: &[Row], order: u64) -> Option<(DefId, u32)> {
    let def = u32::try_from(order).ok()?;
    let row = rows.get(def as usize)?;
    Some((DefId::new(def), row.node))
}

fn set_up<L: Ledger>(
    alloc: Global,
    rows: &[Row],
    steps: &mut Steps<L>,
) -> Result<Both, OutOfMemory> {
    let chains = Chains::new(alloc)?;
    let plain = PlainChains::new(alloc);
    let mut both = Both { chains, plain };
    for order in 0..2000u32 {
        let Some(row) = rows.get(order as usize) else {
            break;
        };
        link_both(alloc, &mut both, *row, order, steps)?;
    }
    Ok(both)
}

/// Numbers by the chains, and by the plain list.
#[derive(Drop)]
struct NumberLists {
    chains: Vec<u64>,
    plain: Vec<u64>,
}

impl NumberLists {
    fn is(&self, numbers: &[u64]) -> bool {
        self.chains.as_slice() == numbers && self.plain.as_slice() == numbers
    }
}

/// What goes down.
fn down_of(alloc: Global, both: &Both, which: &Dying<'_>) -> Result<NumberLists, OutOfMemory> {
    let mut chains = Vec::new(alloc);
    for id in &both.chains.down_of(alloc, which)? {
        chains.push(id.order())?;
    }
    let plain = both.plain.down_of(alloc, which)?;
    Ok(NumberLists { chains, plain })
}

/// What is to go down, by number.
#[derive(Clone, Copy)]
enum Which<'w> {
    Dependents(u64),
    NotOn(&'w [u32]),
}

fn going(
    alloc: Global,
    both: &Both,
    rows: &[Row],
    which: Which,
) -> Result<NumberLists, OutOfMemory> {
    match which {
        Which::NotOn(chain) => down_of(alloc, both, &Dying::NotOn(chain)),
        Which::Dependents(order) => {
            let (def, node) = place_of(rows, order).unwrap_or((DefId::new(0), 0));
            match both.chains.find(def, node) {
                Some(id) => down_of(alloc, both, &Dying::Dependents(id)),
                None => down_of(alloc, both, &Dying::NotOn(&[])),
            }
        }
    }
}

/// What goes down, and what is left then.
#[derive(Drop)]
struct Seen {
    down: NumberLists,
    left: NumberLists,
    all_there: bool,
}

/// Sets all up, tears those that are gone down, and then what goes down.
fn run<L: Ledger>(
    alloc: Global,
    blank: Blank,
    rows: &[Row],
    gone: &[u64],
    which: Which,
) -> Result<Seen, OutOfMemory>
    requires name { blank.name ≡ L.name }
    requires parts { blank.parts ≡ L.parts }
    requires share { 0 < blank.parts }
{
    let mut steps = Steps::<L>::new(blank);
    let mut both = set_up(alloc, rows, &mut steps)?;
    let mut all_there = true;
    for order in gone {
        all_there &= unlink_both(&mut both, rows, *order, &mut steps);
    }
    let down = going(alloc, &both, rows, which)?;
    for order in &down.chains {
        all_there &= unlink_both(&mut both, rows, *order, &mut steps);
    }
    let left = down_of(alloc, &both, &Dying::NotOn(&[]))?;
    Ok(Seen {
        down,
        left,
        all_there,
    })
}

/// Whether these go down in this order, and these are left.
fn goes(
    alloc: Global,
    rows: &[Row],
    gone: &[u64],
    which: Which,
    down: &[u64],
    left: &[u64],
) -> Result<bool, OutOfMemory> {
    let seen = run::<Brand>(alloc, Blank::new(1), rows, gone, which)?;
    Ok(seen.all_there && seen.down.is(down) && seen.left.is(left))
}

const MIXED: [Row; 7] = [
    Row {
        scope: Scope::Session,
        node: 0,
        bases: &[],
    },
    Row {
        scope: Scope::Module,
        node: 2,
        bases: &[0],
    },
    Row {
        scope: Scope::Function,
        node: 4,
        bases: &[1, 0],
    },
    Row {
        scope: Scope::Session,
        node: 0,
        bases: &[],
    },
    Row {
        scope: Scope::Class,
        node: 3,
        bases: &[1, 0],
    },
    Row {
        scope: Scope::Function,
        node: 4,
        bases: &[4, 1, 0],
    },
    Row {
        scope: Scope::Module,
        node: 2,
        bases: &[3],
    },
];

const MODULES: [Row; 2] = [
    Row {
        scope: Scope::Module,
        node: 2,
        bases: &[],
    },
    Row {
        scope: Scope::Module,
        node: 5,
        bases: &[0],
    },
];

const SESSIONS: [Row; 4] = [
    Row {
        scope: Scope::Session,
        node: 0,
        bases: &[],
    },
    Row {
        scope: Scope::Session,
        node: 0,
        bases: &[0],
    },
    Row {
        scope: Scope::Session,
        node: 0,
        bases: &[0, 1],
    },
    Row {
        scope: Scope::Session,
        node: 0,
        bases: &[],
    },
];

/// What is set up, what of it is torn down first, what is to go down, what goes down in order, and what is left.
const GOES: [(&[Row], &[u64], Which<'static>, &[u64], &[u64]); 8] = [
    (&MIXED, &[], Which::NotOn(&[]), &[5, 2, 4, 6, 1, 3, 0], &[]),
    (&MIXED, &[], Which::NotOn(&[0]), &[5, 2, 4, 6, 1], &[3, 0]),
    (
        &MIXED,
        &[],
        Which::NotOn(&[0, 2]),
        &[5, 2, 4],
        &[6, 1, 3, 0],
    ),
    (&MIXED, &[], Which::Dependents(0), &[5, 2, 4, 1, 0], &[6, 3]),
    (&MIXED, &[3], Which::Dependents(1), &[5, 2, 4, 1], &[6, 0]),
    (&MODULES, &[], Which::NotOn(&[0, 5]), &[1, 0], &[]),
    (&SESSIONS, &[1], Which::Dependents(0), &[2, 0], &[3]),
    (&SESSIONS, &[0], Which::Dependents(1), &[2, 1], &[3]),
];

/// What is to go down in the first case that comes out otherwise.
fn wrong_case(alloc: Global) -> Result<Option<&'static [u64]>, OutOfMemory> {
    for (rows, gone, which, down, left) in &GOES {
        if !goes(alloc, rows, gone, *which, down, left)? {
            return Ok(Some(*down));
        }
    }
    Ok(None)
}

#[test]
fn what_goes_down_is_that_of_the_plain_list(rt: HostRuntime) {
    assert_eq!(rt; wrong_case(rt.alloc()), Ok(None));
}

/// A thousand of one scope, a hundred of which depend on the 500th.
fn thousand(alloc: Global) -> Result<Vec<Row>, OutOfMemory> {
    let mut rows = Vec::new(alloc);
    for order in 0..1000u32 {
        let bases: &'static [u64] = if order / 100 == 7 { &[499] } else { &[] };
        rows.push(Row {
            scope: Scope::Function,
            node: order,
            bases,
        })?;
    }
    Ok(rows)
}

/// The 500th and those that depend on it where these are asked for, and all others where not, the latest first.
fn thousand_of(alloc: Global, dependents: bool) -> Result<Vec<u64>, OutOfMemory> {
    let mut numbers = Vec::new(alloc);
    for back in 0..1000u64 {
        let order = 999 - back;
        if (order / 100 == 7 || order == 499) == dependents {
            numbers.push(order)?;
        }
    }
    Ok(numbers)
}

/// Whether 101 of the thousand go down, and the others are left.
fn is_long_chain_left(alloc: Global) -> Result<bool, OutOfMemory> {
    let rows = thousand(alloc)?;
    let down = thousand_of(alloc, true)?;
    let left = thousand_of(alloc, false)?;
    let goes = goes(alloc, &rows, &[], Which::Dependents(499), &down, &left)?;
    Ok(goes && down.len() == 101)
}

#[test]
fn a_long_chain_is_left_without_what_went_down(rt: HostRuntime) {
    assert!(rt; matches!(is_long_chain_left(rt.alloc()), Ok(true)));
}
