ghost use Rattle.std.specs.Prelude.{◌≡◌, ℕ, ◌||◌, ◌==◌, ◌<◌, ◌≤◌, Bool, List, false, length, OnOk, slice_index_or, vec_len};
ghost use Rattle.setup_stack.specs.Standing.{is_marked};

use seq::OutOfMemory;

/// Whether a number is marked.
pub fn is_marked(marks: &[bool], number: usize) -> bool
    ensures { result ≡ is_marked marks.now number }
{
    number < marks.len() && marks[number]
}

/// Makes room for the mark of a number.
fn make_room(marks: &mut Vec<bool>, number: usize) -> Result<(), OutOfMemory>
    ensures same { OnOk result ((e : ℕ) → is_marked marks.new.items e ≡ is_marked marks.old.items e) }
    ensures room { OnOk result (number < vec_len marks.new) }
{
    'room: while marks.len() <= number {
        marks.push(false)?;
    }
    Ok(())
}

/// Marks a number.
pub fn mark(marks: &mut Vec<bool>, number: usize) -> Result<(), OutOfMemory>
    ensures { OnOk result ((e : ℕ) → is_marked marks.new.items e ≡ (is_marked marks.old.items e || (number == e))) }
{
    make_room(marks, number)?;
    marks[number] = true;
    Ok(())
}
