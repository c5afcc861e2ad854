// The places of reports.

ghost use Rattle.std.specs.Prelude.{◌≡◌, ◌≤◌, ◌^◌, ◌++◌, IfOk, OnOk, length, replicate, slice_index};
ghost use Rattle.share_files.specs.Work.{held_lists};
ghost use Rattle.worker_runs.specs.Places as placing;

use report_parts::Place;
use seq::OutOfMemory;
use std::alloc::Global;

/// The number of items of a group; one behind the last has none.
fn size_at(sizes: &[u32], group: u32) -> u32
    ensures { result ≡ slice_index sizes.now group }
{
    match sizes.get(group as usize) {
        Some(size) => *size,
        None => 0,
    }
}

/// The place of a group's reports, once for each.
fn push_place(places: &mut Vec<Place>, place: Place, count: u32) -> Result<(), OutOfMemory>
    ensures { OnOk result (places.new.items ≡ places.old.items ++ replicate count place) }
{
    for _ in 0..count {
        places.push(place)?;
    }
    Ok(())
}

/// The places of a worker's reports.
fn push_places(
    places: &mut Vec<Place>,
    sizes: &[u32],
    worker: u32,
    taken: &[u32],
) -> Result<(), OutOfMemory>
    ensures { OnOk result (places.new.items ≡ places.old.items ++ placing.worker_places sizes.now worker taken.now) }
{
    for group in taken {
        let size = size_at(sizes, *group);
        push_place(
            places,
            Place {
                group: *group,
                worker,
            },
            size,
        )?;
    }
    Ok(())
}

/// The places of the reports of all workers, where each took these groups, in order.
pub fn places_from(
    alloc: Global,
    sizes: &[u32],
    taken: &[Vec<u32>],
) -> Result<Vec<Place>, OutOfMemory>
    requires { length taken.now ≤ 2 ^ 32 }
    ensures { IfOk result (λ all. all.items ≡ placing.places_from sizes.now 0 (held_lists taken.now)) }
{
    let mut all = Vec::new(alloc);
    for (worker, list) in taken.iter().enumerate() {
        push_places(&mut all, sizes, worker as u32, list.as_slice())?;
    }
    Ok(all)
}
