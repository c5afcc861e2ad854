ghost use Rattle.std.specs.Prelude.{◌≡◌, ◌∷◌, [], ◌<◌, ℕ, length, OnOk, slice_index_or, false};
ghost use Rattle.collect_words.specs.Files.{each_once, includes_number};

use seq::{OutOfMemory, Seq};
use std::alloc::Global;
use std::marker::Model;

/// Numbers, each once, with a mark for each. Contracts see it as the list.
#[derive(Drop)]
pub struct NumberSet {
    numbers: Vec<usize>,
    marks: Vec<bool>,
}

impl Model for NumberSet {
    ghost use Rattle.std.specs.Prelude.{◌≡◌, List, ℕ, false, slice_index_or};
    ghost use Rattle.collect_words.specs.Files.{includes_number};

    ghost Value = { List ℕ };

    ghost view = { λ taken. taken.numbers.items };

    ghost invariant = { λ taken. (number : ℕ) → slice_index_or taken.marks.items number false ≡ includes_number number taken.numbers.items };
}

/// Marks for all numbers up to this one.
fn reach(marks: &mut Vec<bool>, number: usize) -> Result<(), OutOfMemory>
    ensures same { (place : ℕ) → slice_index_or marks.new.items place false ≡ slice_index_or marks.old.items place false }
    ensures long { OnOk result (number < length marks.new.items) }
{
    while marks.len() <= number {
        marks.push(false)?;
    }
    Ok(())
}

impl NumberSet {
    /// The empty set.
    pub fn new(alloc: Global) -> Self
        ensures { result ≡ [] }
    {
        NumberSet {
            numbers: Vec::new(alloc),
            marks: Vec::new(alloc),
        }
    }

    /// Whether a number was taken.
    fn has(&self, number: usize) -> bool
        ensures { result ≡ includes_number number self.now }
    {
        number < self.marks.len() && self.marks[number]
    }

    /// Takes a number, if it wasn't taken before.
    pub fn take(&mut self, number: usize) -> Result<(), OutOfMemory>
        ensures { OnOk result (self.new ≡ each_once self.old (number ∷ [])) }
    {
        if self.has(number) {
            return Ok(());
        }
        reach(&mut self.marks, number)?;
        self.numbers.push(number)?;
        self.marks[number] = true;
        Ok(())
    }

    /// The numbers.
    pub fn into_seq(self) -> Seq<usize>
        ensures { result ≡ self }
    {
        let NumberSet { numbers, .. } = self;
        Seq::from_vec(numbers)
    }
}
