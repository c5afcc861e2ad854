// Texts by number.

ghost use Rattle.std.specs.Prelude.{◌≡◌, [], IfOk, OnOk, map};
ghost use Rattle.collection_nodes.specs.Texts as texts;

use indexmap::IndexSet;
use py_values::names::Name;
use seq::{OutOfMemory, PyText, Seq};
use std::alloc::Global;
use std::marker::Model;

/// Texts by number: each stands once, in the order of their first mention.
#[derive(Drop)]
pub struct Mentions {
    set: IndexSet<Name>,
}

impl Model for Mentions {
    ghost use Rattle.std.specs.Prelude.{List, ℕ};

    ghost Value = { List (List ℕ) };

    ghost view = { λ m. m.set.keys };
}

impl Mentions {
    /// No name is mentioned yet.
    pub fn new(alloc: Global) -> Self
        ensures { result ≡ [] }
    {
        Mentions {
            set: IndexSet::new(alloc),
        }
    }

    /// One more text is mentioned.
    pub fn mention(&mut self, alloc: Global, text: &[char]) -> Result<(), OutOfMemory>
        ensures { OnOk result (self.new ≡ texts.with_mention self.old text.now) }
    {
        let name = Name::from_chars(alloc, text)?;
        self.set.insert(name)?;
        Ok(())
    }

    /// Others are mentioned behind these.
    pub fn mention_all(&mut self, alloc: Global, more: &[PyText]) -> Result<(), OutOfMemory>
        ensures { OnOk result (self.new ≡ texts.with_mentions self.old more.now) }
    {
        for text in more {
            self.mention(alloc, text.chars())?;
        }
        Ok(())
    }

    /// The number of a text; 0 where it isn't there.
    pub fn number(&self, alloc: Global, text: &[char]) -> Result<u32, OutOfMemory>
        ensures { IfOk result (λ n. n ≡ texts.number_among self.now text.now) }
    {
        let name = Name::from_chars(alloc, text)?;
        narrow(self.set.get_index_of(&name).unwrap_or(0))
    }

    /// The numbers of texts.
    pub fn numbers(&self, alloc: Global, some: &[PyText]) -> Result<Seq<u32>, OutOfMemory>
        ensures { IfOk result (λ numbers. numbers ≡ map (texts.number_among self.now) some.now) }
    {
        let mut numbers = Seq::new(alloc);
        for text in some {
            let number = self.number(alloc, text.chars())?;
            numbers.push(number)?;
        }
        Ok(numbers)
    }

    /// The text with a number, or an empty one.
    pub fn text(&self, number: u32) -> &[char]
        ensures { result.now ≡ texts.text_numbered self.now number }
    {
        match self.set.get_index(number as usize) {
            Some(name) => name.text().chars(),
            None => &[],
        }
    }

    /// The texts, by number.
    pub fn texts(&self, alloc: Global) -> Result<Seq<PyText>, OutOfMemory>
        ensures { IfOk result (λ list. list ≡ self.now) }
    {
        let mut list = Seq::new(alloc);
        for number in 0..self.count()? {
            let text = PyText::from_chars(alloc, self.text(number))?;
            list.push(text)?;
        }
        Ok(list)
    }

    /// How many there are.
    pub fn count(&self) -> Result<u32, OutOfMemory>
        ensures { IfOk result (λ n. n ≡ length self.now) }
    {
        narrow(self.set.len())
    }
}

ghost use Rattle.std.specs.Prelude.{length};

/// A number as nodes and names have it.
pub fn narrow(number: usize) -> Result<u32, OutOfMemory>
    ensures { IfOk result (λ n. n ≡ number) }
{
    match u32::try_from(number) {
        Ok(number) => Ok(number),
        // No memory holds so many.
        Err(_) => Err(OutOfMemory),
    }
}
