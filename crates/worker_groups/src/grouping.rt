// Numbers by their files.

ghost use Rattle.std.specs.Prelude.{◌≡◌, ◌<◌, ◌≤◌, ◌*◌, ℕ, [], IfOk, length, map};
ghost use Rattle.std.specs.List.{filter};
ghost use Rattle.report_rules.specs.Collected.{SelectedItem};
ghost use Rattle.report_rules.specs.Groups as of_report;
ghost use Rattle.runtest_loop.specs.Fed.{numbers_in_range, unfed};
ghost use Rattle.share_files.specs.Deal.{Every};
ghost use Rattle.worker_groups.specs.Numbers.{file_place, is_at_place, is_elsewhere, number_groups};

use seq::{OutOfMemory, Seq};
use std::alloc::Global;

/// The place of the file of an item.
fn file_place(places: &[usize], number: u32) -> usize
    ensures { result ≡ file_place places.now number }
{
    match places.get(number as usize) {
        Some(place) => *place,
        None => 0,
    }
}

/// Numbers of one file, and the others, in order.
#[derive(Drop)]
struct Parted {
    mine: Vec<u32>,
    others: Vec<u32>,
}

/// Parts the numbers of the file at this place from the others.
fn part(
    alloc: Global,
    places: &[usize],
    place: usize,
    numbers: &[u32],
) -> Result<Parted, OutOfMemory>
    ensures mine { IfOk result (λ parted. parted.mine.items ≡ filter (is_at_place places.now place) numbers.now) }
    ensures others { IfOk result (λ parted. parted.others.items ≡ filter (is_elsewhere places.now place) numbers.now) }
{
    let mut mine = Vec::new(alloc);
    let mut others = Vec::new(alloc);
    for number in numbers {
        if file_place(places, *number) == place {
            mine.push(*number)?;
        } else {
            others.push(*number)?;
        }
    }
    Ok(Parted { mine, others })
}

/// The numbers of each file, the files in the order of their first numbers.
fn grouped(alloc: Global, places: &[usize], numbers: &[u32]) -> Result<Vec<Seq<u32>>, OutOfMemory>
    ensures { IfOk result (λ groups. groups.items ≡ number_groups places.now numbers.now) }
{
    let mut groups = Vec::new(alloc);
    let mut rest = Vec::from_slice(alloc, numbers)?;
    'files: while let Some(first) = rest.first() {
        let place = file_place(places, *first);
        let parted = part(alloc, places, place, rest.as_slice())?;
        groups.push(Seq::from_vec(parted.mine))?;
        rest = parted.others;
    }
    Ok(groups)
}

/// Groups the numbers of items by their files, whose places these are by the items' numbers.
pub fn worker_groups(
    alloc: Global,
    places: &[usize],
    numbers: &[u32],
) -> Result<Vec<Seq<u32>>, OutOfMemory>
    ensures groups { IfOk result (λ groups. groups.items ≡ number_groups places.now numbers.now) }
    ensures report { IfOk result (λ groups. (chosen : ℕ → SelectedItem) → ((n : ℕ) → (chosen n).file ≡ file_place places.now n) → map (λ ns. map chosen ns) groups.items ≡ of_report.groups (map chosen numbers.now)) }
    ensures in_range { IfOk result (λ groups. (count : ℕ) → Every (λ n. n < count) numbers.now → numbers_in_range count groups.items) }
    ensures few { IfOk result (λ groups. unfed groups.items [] ≤ 2 * length numbers.now) }
{
    let groups = grouped(alloc, places, numbers)?;
    Ok(groups)
}

/// The number of items of each group.
pub fn sizes_of(alloc: Global, groups: &[Seq<u32>]) -> Result<Vec<u32>, OutOfMemory>
    requires { Every (λ group. length group < 4294967296) groups.now }
    ensures { IfOk result (λ sizes. sizes.items ≡ map (λ group. length group) groups.now) }
{
    let mut sizes = Vec::new(alloc);
    for group in groups {
        sizes.push(group.items().len() as u32)?;
    }
    Ok(sizes)
}
