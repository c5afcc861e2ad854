use crate::case::{Case, Each, Outside};
use crate::run::{Run, copied, run_case};
use std::alloc::{AllocError, Global};
use std::thread::Threads;

/// No case has so many calls.
const CALLS_MOST: u64 = 100_000;

/// The outside of a case, of which a call fails.
fn with_fault(case: &Case, call: u64) -> Outside {
    let mut outside = case.outside;
    match case.each {
        Each::TreeCall => outside.tree_fails = call,
        Each::Put => outside.sink_fails = call,
        Each::Nothing | Each::Prefix => {}
    }
    outside
}

/// The status of a run in which a call failed, where it is this one for a fault.
fn status_of(outside: Outside, fault: u8) -> u8 {
    if outside.wants_memory { 12 } else { fault }
}

/// Whether a run has ended as it must where this call failed. Where the tree failed nothing is written; where the sink did not the whole
/// report, but a prefix of it, and nothing is put behind it.
fn is_cut(case: &Case, run: &Run, whole: &Run, call: u64) -> bool {
    match case.each {
        Each::TreeCall => run.status == status_of(case.outside, 13) && run.output.is_empty(),
        Each::Put => {
            run.status == status_of(case.outside, 14)
                && run.puts == call
                && run.output.len() < whole.output.len()
                && whole.output.starts_with(&run.output)
        }
        Each::Nothing | Each::Prefix => false,
    }
}

/// Lets each call of the outside fail in turn, and says which does not end its run as it must, where the whole run came to this.
pub fn check_calls<R: Threads + Sync>(
    rt: &R,
    alloc: Global,
    case: &Case,
    whole: &Run,
) -> Result<String, AllocError> {
    for call in 1..=CALLS_MOST {
        let files = copied(alloc, &case.files)?;
        let came = run_case(rt, alloc, case, files, with_fault(case, call))?;
        if came.status == whole.status && came.output == whole.output {
            return match call {
                1 => String::from_str(alloc, "it makes no such call\n"),
                _ => Ok(String::new(alloc)),
            };
        }
        if !is_cut(case, &came, whole, call) {
            return format!(in alloc;
                "its call {call} failed, and it ended otherwise, with {}\n",
                came.status
            );
        }
    }
    String::from_str(alloc, "it makes too many calls\n")
}
