// Rows on how a phase has ended: the phase, and with what it is done the marks of the item, a blank, and the classes of the exceptions with
// commas between them.

use crate::collection::marks::all_marks;
use crate::objects::{added, class_by, exception_without_args};
use crate::spelled::MemoryResult;
use collect_marks::says::xfail_of;
use collect_marks::verdict::{call_verdict, set_up_verdict, teardown_verdict};
use py_values::heap::Heap;
use py_values::value::Value;
use std::alloc::Global;

fn raised(alloc: Global, heap: &mut Heap, spelled: &str) -> MemoryResult<Vec<Value>> {
    let mut all = Vec::new(alloc);
    for part in spelled.split(',') {
        if !part.is_empty() {
            let exception = exception_without_args(alloc, class_by(part));
            all.push(added(heap, exception)?)?;
        }
    }
    Ok(all)
}

/// How a phase has ended that raised these exceptions, under these marks.
fn verdict_told(
    alloc: Global,
    heap: &Heap,
    phase: &str,
    marks: &[Value],
    raised: &[Value],
) -> MemoryResult<String> {
    let xfail = xfail_of(alloc, heap, marks)?;
    let verdict = match phase {
        "set-up" => set_up_verdict(heap, xfail.as_ref(), raised),
        "call" => call_verdict(heap, xfail.as_ref(), raised),
        _ => teardown_verdict(heap, raised),
    };
    Ok(format!(in alloc; "{verdict:?}")?)
}

/// How a phase has ended.
pub fn verdict(alloc: Global, phase: &str, spelled: &str) -> MemoryResult<String> {
    let mut heap = Heap::new(alloc)?;
    let (marks, exceptions) = spelled.split_once(' ').unwrap_or((spelled, ""));
    let marks = all_marks(alloc, &mut heap, marks)?;
    let raised = raised(alloc, &mut heap, exceptions)?;
    verdict_told(alloc, &heap, phase, marks.items(), &raised)
}
