ghost use Rattle.std.specs.Prelude.{◌≡◌, ◌++◌, ◌⊎◌, ◌≤◌, ◌*◌, min, ℕ, [], length, None, Some, IfOk, IfErr, OnOk};
ghost use Rattle.param_rows.specs.declared.fault.RowFault.TheVariants.{OutOfMemory as NoMemory};
ghost use Rattle.param_rows.specs.Faults.{among, width_fault, first_repeated, first_unknown, mark_fault, marks_fault};

use crate::fault::RowFault;
use crate::param::{ParamMark, ParamSet};
use seq::OutOfMemory;
use std::alloc::Global;

fn among(names: &[u32], name: u32) -> bool
    ensures { result ≡ among name names.now }
{
    names.iter().any(|one| *one == name)
}

/// The first set with another number of values than the mark has names.
fn width_fault<V>(mark: &ParamMark<V>) -> Option<RowFault>
    ensures { result ≡ width_fault mark.now }
{
    let wanted = mark.names.items().len();
    for set in mark.sets.items() {
        let many = set.values.items().len();
        if many != wanted {
            return Some(RowFault::Width(wanted, many));
        }
    }
    None
}

/// The first name that stands before, if there is one; else the names are appended to the earlier ones.
fn first_repeated(earlier: &mut Vec<u32>, names: &[u32]) -> Result<Option<u32>, OutOfMemory>
    ensures found { IfOk result (λ found. found ≡ first_repeated earlier.old.items names.now) }
    ensures names { IfOk result (λ found. found ≡ None → earlier.new.items ≡ earlier.old.items ++ names.now) }
{
    for name in names {
        if among(earlier, *name) {
            return Ok(Some(*name));
        }
        earlier.push(*name)?;
    }
    Ok(None)
}

/// The first name that nobody asks for.
fn first_unknown(known: &[u32], names: &[u32]) -> Option<u32>
    ensures { result ≡ first_unknown known.now names.now }
{
    for name in names {
        if !among(known, *name) {
            return Some(*name);
        }
    }
    None
}

/// Refuses a mark with a fault; else its names are appended to the earlier ones.
fn check_mark<V>(earlier: &mut Vec<u32>, mark: &ParamMark<V>, known: &[u32]) -> Result<(), RowFault>
    ensures ok { OnOk result (mark_fault known.now earlier.old.items mark.now ≡ None) }
    ensures names { OnOk result (earlier.new.items ≡ earlier.old.items ++ mark.now.names) }
    ensures err { IfErr result (λ fault. fault ≡ NoMemory ⊎ mark_fault known.now earlier.old.items mark.now ≡ Some fault) }
{
    if let Some(fault) = width_fault(mark) {
        return Err(fault);
    }
    if let Some(name) = first_repeated(earlier, mark.names.items())? {
        return Err(RowFault::Duplicate(name));
    }
    match first_unknown(known, mark.names.items()) {
        Some(name) => Err(RowFault::NoArgument(name)),
        None => Ok(()),
    }
}

/// Refuses the marks where one has a fault.
pub fn check_marks<V>(alloc: Global, marks: &[ParamMark<V>], known: &[u32]) -> Result<(), RowFault>
    ensures ok { OnOk result (marks_fault known.now [] marks.now ≡ None) }
    ensures err { IfErr result (λ fault. fault ≡ NoMemory ⊎ marks_fault known.now [] marks.now ≡ Some fault) }
{
    let mut earlier = Vec::new(alloc);
    for mark in marks {
        check_mark(&mut earlier, mark, known)?;
    }
    Ok(())
}
