ghost use Rattle.std.specs.Prelude.{◌≡◌, ◌∷◌, [], IfOk, IfSome, length};
ghost use Rattle.edge_io.specs.Files.{InOrder, paths_of};
ghost use Rattle.share_files.specs.Work.{held_lists};
ghost use Rattle.test_session.specs.Collections.{CanRun};
ghost use Rattle.test_session.specs.Stacks.{IsSpent, NoneOut};

use crate::kept::KeptReports;
use crate::one_group::OneGroup;
use cli_words::{Options, read_words};
use edge_io::{Files, LoadFault, SureTree, load_files};
use py_values::object::Obj;
use py_values::value::Value;
use report_parts::{ItemReport, PhaseEnd};
use selection::read_exprs;
use seq::{OutOfMemory, PyText};
use std::alloc::Global;
use test_session::{
    Collected, ModuleId, RunEnd, World, collect, heap, line, load_module, names, run,
};

/// A tree of a conftest and one file.
fn two_files(alloc: Global, conftest: &str, path: &str, text: &str) -> Result<Files, LoadFault>
    ensures { IfOk result (λ files. InOrder (paths_of files)) }
{
    let above = String::from_str(alloc, "conftest.py")?;
    let hooks = Vec::from_slice(alloc, conftest.as_bytes())?;
    let path = String::from_str(alloc, path)?;
    let bytes = Vec::from_slice(alloc, text.as_bytes())?;
    let mut pairs = Vec::new(alloc);
    pairs.push((above, hooks))?;
    pairs.push((path, bytes))?;
    let mut tree = SureTree::new(alloc, pairs);
    load_files(alloc, &mut tree)
}

/// The options of one word.
fn options_of(alloc: Global, word: &str) -> Option<Options> {
    let Ok(word) = String::from_str(alloc, word) else {
        return None;
    };
    let mut words = Vec::new(alloc);
    let Ok(()) = words.push(word) else {
        return None;
    };
    match read_words(alloc, &words) {
        Ok(options) => Some(options),
        Err(_) => None,
    }
}

/// What is collected of a tree with these options.
fn collected_in(alloc: Global, files: &Files, options: &Options) -> Option<Collected>
    requires order { InOrder (paths_of files.now) }
    ensures runs { IfSome result CanRun }
    ensures none_out { IfSome result (λ c. NoneOut c.world) }
{
    let Ok(exprs) = read_exprs(alloc, options) else {
        return None;
    };
    match collect(alloc, files, options, &exprs) {
        Ok(collected) => Some(collected),
        Err(_) => None,
    }
}

/// What is collected of a conftest and one file.
fn collected_of(
    alloc: Global,
    conftest: &str,
    path: &str,
    text: &str,
    options: &Options,
) -> Option<Collected>
    ensures runs { IfSome result CanRun }
    ensures none_out { IfSome result (λ c. NoneOut c.world) }
{
    match two_files(alloc, conftest, path, text) {
        Ok(files) => collected_in(alloc, &files, options),
        Err(_) => None,
    }
}

/// The group of the first place.
fn first_place(alloc: Global) -> Result<Vec<Vec<u32>>, OutOfMemory>
    ensures { IfOk result (λ groups. held_lists groups.items ≡ (0 ∷ []) ∷ []) }
{
    let mut group = Vec::new(alloc);
    group.push(0)?;
    let mut groups = Vec::new(alloc);
    groups.push(group)?;
    Ok(groups)
}

/// Runs the one item that was collected; the end of the run. No frame is out behind it.
fn ended(
    collected: &mut Collected,
    groups: &[Vec<u32>],
    to: &mut KeptReports,
    options: &Options,
) -> Option<RunEnd>
    requires runs { CanRun collected.old }
    requires one { length collected.old.items.items ≡ 1 }
    requires first { held_lists groups.now ≡ (0 ∷ []) ∷ [] }
    requires none_out { NoneOut collected.old.world }
    ensures spent { IsSpent collected.new.stack }
    ensures none_out { IfSome result (λ end. NoneOut collected.new.world) }
{
    let mut feed = OneGroup::Waiting;
    match run(collected, groups, &mut feed, to, options) {
        Ok(end) => Some(end),
        Err(_) => None,
    }
}

/// The report of the one item that was collected, which runs.
fn report_of(
    alloc: Global,
    collected: &mut Collected,
    groups: &[Vec<u32>],
    options: &Options,
) -> Option<Vec<ItemReport>>
    requires runs { CanRun collected.old }
    requires one { length collected.old.items.items ≡ 1 }
    requires first { held_lists groups.now ≡ (0 ∷ []) ∷ [] }
    requires none_out { NoneOut collected.old.world }
    ensures { IsSpent collected.new.stack }
{
    let mut to = KeptReports {
        reports: Vec::new(alloc),
    };
    match ended(collected, groups, &mut to, options) {
        Some(RunEnd::Done) => Some(to.reports),
        Some(RunEnd::Stopped) => None,
        None => None,
    }
}

/// Whether a report is that of an item that passed.
fn passed(reports: &[ItemReport]) -> bool {
    match reports {
        [report] => {
            matches!(&report.setup, PhaseEnd::Passed)
                && matches!(&report.call, PhaseEnd::Passed)
                && matches!(&report.teardown, PhaseEnd::Passed)
        }
        _ => false,
    }
}

/// The value of the name at a place of a module, where it is this name.
fn value_at(alloc: Global, world: &World, id: ModuleId, at: usize, wanted: &str) -> Option<Value> {
    let Some(Obj::Module(_)) = heap(world).get(id) else {
        return None;
    };
    let Ok(wanted) = PyText::from_str(alloc, wanted) else {
        return None;
    };
    match names(world, id, at) {
        Some((name, v)) => {
            if *name == wanted {
                return Some(v);
            }
            None
        }
        None => None,
    }
}

/// Whether a module has three names, and the second is 1.
fn has_counted(alloc: Global, world: &World, id: ModuleId, third: &str) -> bool {
    value_at(alloc, world, id, 0, "__name__").is_some()
        && value_at(alloc, world, id, 1, "N") == Some(Value::Int(1))
        && value_at(alloc, world, id, 2, third).is_some()
}

/// Whether a module is loaded already, and has its names.
fn is_as_left(alloc: Global, world: &mut World, path: &str, third: &str) -> bool {
    match line(world, path, 1) {
        Some(_) => {
            // A budget of no step: it isn't executed again.
            match load_module(world, path, 0) {
                Ok(id) => has_counted(alloc, world, id, third),
                Err(_) => false,
            }
        }
        None => false,
    }
}

/// Whether a collected test runs, and leaves its module and the conftest as it must.
fn runs(alloc: Global, collected: &mut Collected, options: &Options) -> bool
    requires runs { CanRun collected.old }
    requires none_out { NoneOut collected.old.world }
    ensures { IsSpent collected.new.stack }
{
    if collected.items.len() != 1 {
        return false;
    }
    let Ok(groups) = first_place(alloc) else {
        return false;
    };
    match report_of(alloc, collected, &groups, options) {
        Some(reports) => {
            passed(&reports)
                && is_as_left(alloc, &mut collected.world, "test_a.py", "test_n")
                && is_as_left(alloc, &mut collected.world, "conftest.py", "pytest")
        }
        None => false,
    }
}

/// Collects a conftest and a file, and runs its test.
fn collects_and_runs(alloc: Global, conftest: &str, source: &str) -> bool {
    let Some(options) = options_of(alloc, "test_a.py") else {
        return false;
    };
    match collected_of(alloc, conftest, "test_a.py", source, &options) {
        Some(collected) => {
            let mut collected = collected;
            let fine = runs(alloc, &mut collected, &options);
            collected.close();
            fine
        }
        None => false,
    }
}

/// Behind a run the module is as its test left it.
#[test]
fn a_run_leaves_its_module(rt: HostRuntime) {
    let conftest = "N = 1\nimport pytest\n";
    let source = "N = 0\n\ndef test_n():\n    global N\n    N = N + 1\n    assert N == 1\n";
    assert!(rt; collects_and_runs(rt.alloc(), conftest, source));
}

/// What stands behind the `yield` of a fixture has run once, and so has what stands behind that of a wrapper.
#[test]
fn a_run_leaves_no_frame_out(rt: HostRuntime) {
    let conftest =
        "N = 0\nimport pytest\n\n@pytest.hookimpl(wrapper=True)\ndef pytest_runtest_teardown(item):\n    global N\n    got = yield\n    N = N + 1\n    return got\n";
    let source =
        "N = 0\n\ndef test_n(up):\n    assert N == 0\n\nimport pytest\n\n@pytest.fixture\ndef up():\n    global N\n    yield\n    N = N + 1\n";
    assert!(rt; collects_and_runs(rt.alloc(), conftest, source));
}
