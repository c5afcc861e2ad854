use param_rows::{
    ItemKeys, ParamMark, ParamNumbers, ParamRow, ParamSet, ParamSets, Params, PyId, RowFault,
    regroup, rows, unique_ids,
};
use seq::OutOfMemory;
use session_types::Scope;
use std::alloc::Global;

fn id(alloc: Global, text: &str) -> Result<PyId, OutOfMemory> {
    let mut chars = Vec::new(alloc);
    for letter in text.chars() {
        chars.push(letter)?;
    }
    PyId::from_chars(alloc, &chars)
}

fn ids(alloc: Global, texts: &[&str]) -> Result<Vec<PyId>, OutOfMemory> {
    let mut made = Vec::new(alloc);
    for text in texts {
        made.push(id(alloc, text)?)?;
    }
    Ok(made)
}

fn same_ids(one: &[PyId], other: &[PyId]) -> bool {
    if one.len() != other.len() {
        return false;
    }
    for at in 0..one.len() {
        if one[at].chars() != other[at].chars() {
            return false;
        }
    }
    true
}

/// Ids as they are given, and as they are told apart.
const NUMBERED: [(&[&str], &[&str]); 8] = [
    (&[], &[]),
    (&["a", "a", "b"], &["a0", "a1", "b"]),
    (&["0", "0"], &["0_0", "0_1"]),
    (&["a", "a", "a0"], &["a1", "a2", "a0"]),
    (&["a0", "b", "a0"], &["a0_0", "b", "a0_1"]),
    (&["1", "1", "1_", "1_"], &["1_0", "1_1", "1_2", "1_3"]),
    (&["", ""], &["0", "1"]),
    (&["é", "x", "é", "x"], &["é0", "x0", "é1", "x1"]),
];

fn are_numbered(alloc: Global, given: &[&str], wanted: &[&str]) -> Result<bool, OutOfMemory> {
    let given = ids(alloc, given)?;
    let wanted = ids(alloc, wanted)?;
    let made = unique_ids(alloc, &given)?;
    Ok(same_ids(&made, &wanted))
}

/// What is wanted of the first row that doesn't hold.
fn wrong_ids(alloc: Global) -> Result<Option<&'static [&'static str]>, OutOfMemory> {
    for (given, wanted) in &NUMBERED {
        if !are_numbered(alloc, given, wanted)? {
            return Ok(Some(*wanted));
        }
    }
    Ok(None)
}

#[test]
fn equal_ids_are_numbered(rt: HostRuntime) {
    assert_eq!(rt; wrong_ids(rt.alloc()), Ok(None));
}

#[derive(Clone, Copy)]
struct SetCase<'c> {
    values: &'c [u32],
    id: &'c str,
    marks: &'c [u32],
}

#[derive(Clone, Copy)]
struct MarkCase<'c> {
    names: &'c [u32],
    sets: &'c [SetCase<'c>],
}

#[derive(Clone, Copy)]
struct RowCase<'c> {
    bound: &'c [(u32, u32)],
    fixture_params: &'c [(u32, u32)],
    id: &'c str,
    marks: &'c [u32],
}

fn numbers(alloc: Global, items: &[u32]) -> Result<ParamNumbers, OutOfMemory> {
    Ok(ParamNumbers::from_vec(Vec::from_slice(alloc, items)?))
}

/// An id, or none where the text is `?`.
fn maybe_id(alloc: Global, text: &str) -> Result<Option<PyId>, OutOfMemory> {
    if text == "?" {
        return Ok(None);
    }
    Ok(Some(id(alloc, text)?))
}

fn mark(alloc: Global, case: MarkCase) -> Result<ParamMark, OutOfMemory> {
    let mut sets = Vec::new(alloc);
    for set in case.sets {
        sets.push(ParamSet {
            values: numbers(alloc, set.values)?,
            id: maybe_id(alloc, set.id)?,
            marks: numbers(alloc, set.marks)?,
        })?;
    }
    Ok(ParamMark {
        names: numbers(alloc, case.names)?,
        sets: ParamSets::from_vec(sets),
    })
}

fn made(
    alloc: Global,
    fixtures: &[(u32, &[&str])],
    marks: &[MarkCase],
    known: &[u32],
) -> Result<Vec<ParamRow>, RowFault> {
    let mut lists = Vec::new(alloc);
    for (fixture, texts) in fixtures {
        lists
            .push((*fixture, ids(alloc, texts)?))
            .map_err(OutOfMemory::from)?;
    }
    let mut all = Vec::new(alloc);
    for case in marks {
        all.push(mark(alloc, *case)?).map_err(OutOfMemory::from)?;
    }
    rows(alloc, &lists, &all, known)
}

fn same_row(alloc: Global, row: &ParamRow, case: RowCase) -> Result<bool, OutOfMemory> {
    let id = match (&row.id, maybe_id(alloc, case.id)?) {
        (Some(one), Some(other)) => one.chars() == other.chars(),
        (None, None) => true,
        _ => false,
    };
    Ok(
        id && row.bound.items() == case.bound
            && row.fixture_params.items() == case.fixture_params
            && row.marks.items() == case.marks,
    )
}

fn same_rows(
    alloc: Global,
    made: Result<Vec<ParamRow>, RowFault>,
    cases: &[RowCase],
) -> Result<bool, RowFault> {
    let made = made?;
    if made.len() != cases.len() {
        return Ok(false);
    }
    for at in 0..made.len() {
        if !same_row(alloc, &made[at], cases[at])? {
            return Ok(false);
        }
    }
    Ok(true)
}

/// From the nearest up: name 3 of "a" and "a", name 2 of 2, name 1 of 0 and 0, as `unique_ids` tells them apart.
const NEAREST: [MarkCase<'static>; 3] = [
    MarkCase {
        names: &[3],
        sets: &[
            SetCase {
                values: &[10],
                id: "a0",
                marks: &[],
            },
            SetCase {
                values: &[11],
                id: "a1",
                marks: &[],
            },
        ],
    },
    MarkCase {
        names: &[2],
        sets: &[SetCase {
            values: &[20],
            id: "2",
            marks: &[],
        }],
    },
    MarkCase {
        names: &[1],
        sets: &[
            SetCase {
                values: &[30],
                id: "0_0",
                marks: &[],
            },
            SetCase {
                values: &[31],
                id: "0_1",
                marks: &[],
            },
        ],
    },
];

/// The nearest mark is the outermost loop.
const LOOPS: [RowCase<'static>; 4] = [
    RowCase {
        bound: &[(3, 10), (2, 20), (1, 30)],
        fixture_params: &[],
        id: "a0-2-0_0",
        marks: &[],
    },
    RowCase {
        bound: &[(3, 10), (2, 20), (1, 31)],
        fixture_params: &[],
        id: "a0-2-0_1",
        marks: &[],
    },
    RowCase {
        bound: &[(3, 11), (2, 20), (1, 30)],
        fixture_params: &[],
        id: "a1-2-0_0",
        marks: &[],
    },
    RowCase {
        bound: &[(3, 11), (2, 20), (1, 31)],
        fixture_params: &[],
        id: "a1-2-0_1",
        marks: &[],
    },
];

const FIXTURES: [(u32, &[&str]); 2] = [(7, &["p", "q"]), (4, &["s"])];

const PAIRS: [MarkCase<'static>; 1] = [MarkCase {
    names: &[5, 6],
    sets: &[
        SetCase {
            values: &[1, 2],
            id: "one-2",
            marks: &[],
        },
        SetCase {
            values: &[3, 4],
            id: "named",
            marks: &[8, 9],
        },
    ],
}];

const UNMADE: [MarkCase<'static>; 1] = [MarkCase {
    names: &[5],
    sets: &[
        SetCase {
            values: &[1],
            id: "1",
            marks: &[],
        },
        SetCase {
            values: &[2],
            id: "?",
            marks: &[],
        },
    ],
}];

const EMPTY: [MarkCase<'static>; 2] = [
    MarkCase {
        names: &[5, 6],
        sets: &[
            SetCase {
                values: &[1, 2],
                id: "one-2",
                marks: &[],
            },
            SetCase {
                values: &[3, 4],
                id: "named",
                marks: &[8, 9],
            },
        ],
    },
    MarkCase {
        names: &[3],
        sets: &[],
    },
];

const WITH_FIXTURES: [RowCase<'static>; 4] = [
    RowCase {
        bound: &[(5, 1), (6, 2)],
        fixture_params: &[(7, 0), (4, 0)],
        id: "p-s-one-2",
        marks: &[],
    },
    RowCase {
        bound: &[(5, 3), (6, 4)],
        fixture_params: &[(7, 0), (4, 0)],
        id: "p-s-named",
        marks: &[8, 9],
    },
    RowCase {
        bound: &[(5, 1), (6, 2)],
        fixture_params: &[(7, 1), (4, 0)],
        id: "q-s-one-2",
        marks: &[],
    },
    RowCase {
        bound: &[(5, 3), (6, 4)],
        fixture_params: &[(7, 1), (4, 0)],
        id: "q-s-named",
        marks: &[8, 9],
    },
];

const FIXTURES_ALONE: [RowCase<'static>; 2] = [
    RowCase {
        bound: &[],
        fixture_params: &[(7, 0), (4, 0)],
        id: "p-s",
        marks: &[],
    },
    RowCase {
        bound: &[],
        fixture_params: &[(7, 1), (4, 0)],
        id: "q-s",
        marks: &[],
    },
];

const NOTHING: [RowCase<'static>; 1] = [RowCase {
    bound: &[],
    fixture_params: &[],
    id: "?",
    marks: &[],
}];

const WITHOUT_IDS: [RowCase<'static>; 2] = [
    RowCase {
        bound: &[(5, 1)],
        fixture_params: &[],
        id: "?",
        marks: &[],
    },
    RowCase {
        bound: &[(5, 2)],
        fixture_params: &[],
        id: "?",
        marks: &[],
    },
];

/// What is multiplied, parameters of fixtures, marks from the nearest up, the names that are known, and the rows.
const PRODUCTS: [(
    &str,
    &[(u32, &[&str])],
    &[MarkCase<'static>],
    &[u32],
    &[RowCase<'static>],
); 7] = [
    ("three marks", &[], &NEAREST, &[1, 2, 3], &LOOPS),
    (
        "fixtures and a mark",
        &FIXTURES,
        &PAIRS,
        &[3, 5, 6],
        &WITH_FIXTURES,
    ),
    ("fixtures alone", &FIXTURES, &[], &[], &FIXTURES_ALONE),
    ("nothing", &[], &[], &[], &NOTHING),
    ("no ids", &[], &UNMADE, &[3, 5, 6], &WITHOUT_IDS),
    ("no sets", &FIXTURES, &EMPTY, &[3, 5, 6], &[]),
    ("no parameters", &[(7, &[])], &PAIRS, &[3, 5, 6], &[]),
];

/// The first product that isn't as wanted.
fn wrong_product(alloc: Global) -> Result<Option<&'static str>, RowFault> {
    for (name, fixtures, marks, known, wanted) in &PRODUCTS {
        let made = made(alloc, fixtures, marks, known);
        if !same_rows(alloc, made, wanted)? {
            return Ok(Some(*name));
        }
    }
    Ok(None)
}

#[test]
fn rows_are_products(rt: HostRuntime) {
    assert_eq!(rt; wrong_product(rt.alloc()), Ok(None));
}

/// A mark with these names, and sets with so many values.
fn shaped(alloc: Global, names: &[u32], widths: &[usize]) -> Result<ParamMark, OutOfMemory> {
    let mut sets = Vec::new(alloc);
    let values = [0, 0, 0];
    for width in widths {
        let width = (*width).min(3);
        sets.push(ParamSet {
            values: numbers(alloc, &values[..width])?,
            id: None,
            marks: numbers(alloc, &[])?,
        })?;
    }
    Ok(ParamMark {
        names: numbers(alloc, names)?,
        sets: ParamSets::from_vec(sets),
    })
}

fn fault(alloc: Global, shapes: &[(&[u32], &[usize])]) -> Option<RowFault> {
    let mut marks = Vec::new(alloc);
    for (names, widths) in shapes {
        match shaped(alloc, names, widths) {
            Ok(mark) => {
                if marks.push(mark).is_err() {
                    return Some(RowFault::OutOfMemory);
                }
            }
            Err(_) => return Some(RowFault::OutOfMemory),
        }
    }
    rows(alloc, &[], &marks, &[1, 2]).err()
}

/// Marks, each with its names and how many values its sets have, and the first fault where the names 1 and 2 are known.
const FAULTS: [(&[(&[u32], &[usize])], Option<RowFault>); 6] = [
    (&[(&[1, 2], &[2, 1, 0])], Some(RowFault::Width(2, 1))),
    (
        &[(&[1], &[1]), (&[1, 2], &[1])],
        Some(RowFault::Width(2, 1)),
    ),
    (&[(&[1], &[1]), (&[1], &[1])], Some(RowFault::Duplicate(1))),
    (
        &[(&[3, 2, 3], &[3]), (&[1], &[2])],
        Some(RowFault::Duplicate(3)),
    ),
    (
        &[(&[2, 9, 8], &[]), (&[1], &[2])],
        Some(RowFault::NoArgument(9)),
    ),
    (&[(&[1], &[1]), (&[2], &[1])], None),
];

/// What is wanted of the first row that doesn't hold.
fn wrong_fault(alloc: Global) -> Option<Option<RowFault>> {
    for (shapes, wanted) in &FAULTS {
        if fault(alloc, shapes) != *wanted {
            return Some(*wanted);
        }
    }
    None
}

#[test]
fn the_first_fault_is_named(rt: HostRuntime) {
    assert_eq!(rt; wrong_fault(rt.alloc()), None);
}

fn wide(alloc: Global, name: u32, many: u32) -> Result<ParamMark, OutOfMemory> {
    let mut sets = Vec::new(alloc);
    for value in 0..many {
        sets.push(ParamSet {
            values: numbers(alloc, &[value])?,
            id: None,
            marks: numbers(alloc, &[])?,
        })?;
    }
    Ok(ParamMark {
        names: numbers(alloc, &[name])?,
        sets: ParamSets::from_vec(sets),
    })
}

fn how_many(alloc: Global, sizes: &[u32]) -> Result<usize, RowFault> {
    let mut marks = Vec::new(alloc);
    let mut known = Vec::new(alloc);
    let mut name = 0;
    for size in sizes {
        marks
            .push(wide(alloc, name, *size)?)
            .map_err(OutOfMemory::from)?;
        known.push(name).map_err(OutOfMemory::from)?;
        name = name.wrapping_add(1);
    }
    Ok(rows(alloc, &[], &marks, &known)?.len())
}

/// How many sets each mark has, and how many rows they make.
const SIZES: [(&[u32], Result<usize, RowFault>); 5] = [
    (&[256, 256], Ok(65536)),
    (&[65537], Err(RowFault::TooMany)),
    (&[256, 257], Err(RowFault::TooMany)),
    (
        &[1000, 1000, 1000, 1000, 1000, 1000, 1000],
        Err(RowFault::TooMany),
    ),
    (&[1000, 1000, 0, 1000], Ok(0)),
];

/// The sizes of the first row that doesn't hold.
fn wrong_size(alloc: Global) -> Option<&'static [u32]> {
    for (sizes, wanted) in &SIZES {
        if how_many(alloc, sizes) != *wanted {
            return Some(*sizes);
        }
    }
    None
}

#[test]
fn past_the_limit_no_row_is_made(rt: HostRuntime) {
    assert_eq!(rt; wrong_size(rt.alloc()), None);
}

#[derive(Clone, Copy)]
struct ItemCase<'c> {
    file: u32,
    class: Option<u32>,
    params: &'c [(Scope, u32, u32)],
}

fn order(alloc: Global, cases: &[ItemCase]) -> Result<Vec<usize>, OutOfMemory> {
    let mut items = Vec::new(alloc);
    for case in cases {
        items.push(ItemKeys {
            file: case.file,
            class: case.class,
            params: Params::from_vec(Vec::from_slice(alloc, case.params)?),
        })?;
    }
    regroup(alloc, &items)
}

const S0: (Scope, u32, u32) = (Scope::Session, 1, 0);

const S1: (Scope, u32, u32) = (Scope::Session, 1, 1);

const T0: (Scope, u32, u32) = (Scope::Session, 2, 0);

const T1: (Scope, u32, u32) = (Scope::Session, 2, 1);

const M0: (Scope, u32, u32) = (Scope::Module, 3, 0);

const M1: (Scope, u32, u32) = (Scope::Module, 3, 1);

const C0: (Scope, u32, u32) = (Scope::Class, 4, 0);

const C1: (Scope, u32, u32) = (Scope::Class, 4, 1);

const F0: (Scope, u32, u32) = (Scope::Function, 5, 0);

const F1: (Scope, u32, u32) = (Scope::Function, 5, 1);

const THREE_FILES: [ItemCase<'static>; 7] = [
    ItemCase {
        file: 1,
        class: None,
        params: &[S0],
    },
    ItemCase {
        file: 1,
        class: None,
        params: &[S1],
    },
    ItemCase {
        file: 2,
        class: None,
        params: &[],
    },
    ItemCase {
        file: 2,
        class: None,
        params: &[S0],
    },
    ItemCase {
        file: 2,
        class: None,
        params: &[S1],
    },
    ItemCase {
        file: 3,
        class: None,
        params: &[S0],
    },
    ItemCase {
        file: 3,
        class: None,
        params: &[S1],
    },
];

const TWO_FIXTURES: [ItemCase<'static>; 8] = [
    ItemCase {
        file: 1,
        class: None,
        params: &[S0, T0],
    },
    ItemCase {
        file: 1,
        class: None,
        params: &[S0, T1],
    },
    ItemCase {
        file: 1,
        class: None,
        params: &[S1, T0],
    },
    ItemCase {
        file: 2,
        class: None,
        params: &[T1],
    },
    ItemCase {
        file: 2,
        class: None,
        params: &[S0, T1],
    },
    ItemCase {
        file: 2,
        class: None,
        params: &[S0, T0],
    },
    ItemCase {
        file: 3,
        class: None,
        params: &[S1, F0, T0],
    },
    ItemCase {
        file: 3,
        class: None,
        params: &[T1],
    },
];

const MODULES: [ItemCase<'static>; 6] = [
    ItemCase {
        file: 1,
        class: None,
        params: &[M0],
    },
    ItemCase {
        file: 1,
        class: None,
        params: &[M1],
    },
    ItemCase {
        file: 2,
        class: None,
        params: &[M0],
    },
    ItemCase {
        file: 1,
        class: None,
        params: &[M1],
    },
    ItemCase {
        file: 1,
        class: None,
        params: &[M0],
    },
    ItemCase {
        file: 1,
        class: None,
        params: &[M1],
    },
];

const BROAD_FIRST: [ItemCase<'static>; 5] = [
    ItemCase {
        file: 1,
        class: None,
        params: &[S0, M0],
    },
    ItemCase {
        file: 1,
        class: None,
        params: &[S1, M1],
    },
    ItemCase {
        file: 1,
        class: None,
        params: &[S0, M1],
    },
    ItemCase {
        file: 1,
        class: None,
        params: &[S1, M0],
    },
    ItemCase {
        file: 1,
        class: None,
        params: &[S0, M0],
    },
];

const CLASSES: [ItemCase<'static>; 9] = [
    ItemCase {
        file: 1,
        class: Some(1),
        params: &[C0],
    },
    ItemCase {
        file: 1,
        class: Some(1),
        params: &[C1],
    },
    ItemCase {
        file: 1,
        class: Some(1),
        params: &[C0],
    },
    ItemCase {
        file: 1,
        class: Some(2),
        params: &[C1],
    },
    ItemCase {
        file: 1,
        class: Some(2),
        params: &[C0],
    },
    ItemCase {
        file: 1,
        class: Some(2),
        params: &[C1],
    },
    ItemCase {
        file: 1,
        class: None,
        params: &[C0],
    },
    ItemCase {
        file: 1,
        class: None,
        params: &[C1],
    },
    ItemCase {
        file: 1,
        class: None,
        params: &[C0],
    },
];

const FUNCTIONS: [ItemCase<'static>; 3] = [
    ItemCase {
        file: 1,
        class: None,
        params: &[F0],
    },
    ItemCase {
        file: 1,
        class: None,
        params: &[F1],
    },
    ItemCase {
        file: 1,
        class: None,
        params: &[F0],
    },
];

/// Items, and the order in which those with one parameter, or with parameters of several scopes, stand side by side.
const ORDERS: [(&[ItemCase<'static>], &[usize]); 7] = [
    (&THREE_FILES, &[0, 3, 5, 1, 4, 6, 2]),
    (&TWO_FIXTURES, &[0, 5, 1, 4, 2, 6, 3, 7]),
    (&MODULES, &[0, 1, 2, 3, 5, 4]),
    (&[], &[]),
    (&BROAD_FIRST, &[0, 4, 3, 2, 1]),
    (&CLASSES, &[0, 2, 1, 3, 5, 4, 6, 7, 8]),
    (&FUNCTIONS, &[0, 1, 2]),
];

/// The order that is wanted of the first items that stand otherwise.
fn wrong_order(alloc: Global) -> Result<Option<&'static [usize]>, OutOfMemory> {
    for (items, wanted) in &ORDERS {
        let places = order(alloc, items)?;
        if places.as_slice() != *wanted {
            return Ok(Some(*wanted));
        }
    }
    Ok(None)
}

#[test]
fn items_with_one_parameter_stand_side_by_side(rt: HostRuntime) {
    assert_eq!(rt; wrong_order(rt.alloc()), Ok(None));
}
