// What is shown of parts.

ghost use Rattle.std.specs.Prelude.{◌≡◌, ◌++◌, ◌∷◌, [], suc, IfOk, OnOk};
ghost use Rattle.py_world.specs.Explained as world;
ghost use Rattle.py_world.specs.Explained.{shows};
ghost use Rattle.assert_explain.specs.Texts.{called_with, in_parens, joined_with};

use crate::counts::behind;
use py_values::end::push_ascii;
use seq::{OutOfMemory, PyText};
use std::alloc::Global;
use std::marker::Model;

/// A fact about a value, and how deep it stands below others, from 1.
#[derive(Drop)]
pub struct Fact {
    depth: usize,
    text: PyText,
}

impl Model for Fact {
    ghost use Rattle.py_world.specs.Explained.{Fact as Said};

    ghost Value = { Said };

    ghost view = { λ f. record { depth = f.depth; text = f.text } };
}

impl Fact {
    /// Under how many nodes of the condition it lies.
    pub fn depth(&self) -> usize
        ensures { result ≡ self.now.depth }
    {
        self.depth
    }

    /// What it shows.
    pub fn text(&self) -> &[char]
        ensures { result.now ≡ self.now.text }
    {
        self.text.chars()
    }

    /// The same fact.
    fn copied(&self, alloc: Global) -> Result<Self, OutOfMemory>
        ensures { IfOk result (λ f. f ≡ self.now) }
    {
        Ok(Fact {
            depth: self.depth,
            text: PyText::from_chars(alloc, self.text.chars())?,
        })
    }

    /// The fact one level deeper.
    fn below(&self, alloc: Global) -> Result<Self, OutOfMemory>
        ensures { IfOk result (λ f. f ≡ record { depth = suc self.now.depth; text = self.now.text }) }
    {
        Ok(Fact {
            depth: behind(self.depth, 1)?,
            text: PyText::from_chars(alloc, self.text.chars())?,
        })
    }
}

/// Puts facts behind others.
fn push_facts(alloc: Global, facts: &mut Vec<Fact>, others: &[Fact]) -> Result<(), OutOfMemory>
    ensures { OnOk result (facts.new.items ≡ facts.old.items ++ others.now) }
{
    for fact in others {
        facts.push(fact.copied(alloc)?)?;
    }
    Ok(())
}

/// Puts facts one level deeper behind others.
#[tactic(auto, using(crate::proofs::Facts::below_more, crate::proofs::Facts::below_all))]
fn push_below(alloc: Global, facts: &mut Vec<Fact>, others: &[Fact]) -> Result<(), OutOfMemory>
    ensures { OnOk result (facts.new.items ≡ facts.old.items ++ world.facts_below others.now) }
{
    for fact in others {
        facts.push(fact.below(alloc)?)?;
    }
    Ok(())
}

/// What is shown of a part: its text, and facts, each before those below it.
#[derive(Drop)]
pub struct Explanation {
    text: Vec<char>,
    facts: Vec<Fact>,
}

impl Model for Explanation {
    ghost use Rattle.py_world.specs.Explained.{Explanation as Said};

    ghost Value = { Said };

    ghost view = { λ s. record { text = s.text.items; facts = s.facts.items } };
}

impl Explanation {
    /// A text without facts.
    pub fn from_text(alloc: Global, text: Vec<char>) -> Self
        ensures { result ≡ shows text.items [] }
    {
        Explanation {
            text,
            facts: Vec::new(alloc),
        }
    }

    /// The condition with its values.
    pub fn text(&self) -> &[char]
        ensures { result.now ≡ self.now.text }
    {
        &self.text
    }

    /// What is shown below it, in order.
    pub fn facts(&self) -> &[Fact]
        ensures { result.now ≡ self.now.facts }
    {
        &self.facts
    }

    /// The same.
    pub fn copied(&self, alloc: Global) -> Result<Self, OutOfMemory>
        ensures { IfOk result (λ s. s ≡ self.now) }
    {
        let mut facts = Vec::new(alloc);
        push_facts(alloc, &mut facts, &self.facts)?;
        let text = Vec::from_slice(alloc, &self.text)?;
        Ok(Explanation { text, facts })
    }

    /// Puts characters behind the text.
    pub fn push_text(&mut self, text: &str) -> Result<(), OutOfMemory>
        ensures { OnOk result (self.new ≡ shows (self.old.text ++ text.now) self.old.facts) }
    {
        push_ascii(&mut self.text, text)
    }

    /// Puts what is shown of another part behind.
    pub fn push(&mut self, alloc: Global, other: &Explanation) -> Result<(), OutOfMemory>
        ensures { OnOk result (self.new ≡ shows (self.old.text ++ other.now.text) (self.old.facts ++ other.now.facts)) }
    {
        self.text.extend_from_slice(&other.text)?;
        push_facts(alloc, &mut self.facts, &other.facts)?;
        Ok(())
    }

    /// Puts the arguments of a call behind what is called.
    #[tactic(auto, using(crate::proofs::Facts::called_next))]
    pub fn push_call(&mut self, alloc: Global, given: &Explanation) -> Result<(), OutOfMemory>
        ensures { OnOk result (self.new ≡ called_with self.old given.now) }
    {
        self.push_text("(")?;
        self.push(alloc, given)?;
        self.push_text(")")
    }

    /// Puts a word and what is shown of another part behind; the first one stands alone.
    #[tactic(auto, using(crate::proofs::Facts::joined_first, crate::proofs::Facts::joined_next))]
    pub fn push_joined(
        &mut self,
        alloc: Global,
        first: bool,
        word: &str,
        other: Explanation,
    ) -> Result<(), OutOfMemory>
        ensures { OnOk result (self.new ≡ joined_with word.now first self.old other) }
    {
        if first {
            *self = other;
            return Ok(());
        }
        self.push_text(word)?;
        self.push(alloc, &other)
    }

    /// The same behind characters.
    pub fn behind(self, alloc: Global, front: &str, name: &[char]) -> Result<Self, OutOfMemory>
        ensures { IfOk result (λ s. s ≡ shows (name.now ++ (front.now ++ self.text)) self.facts) }
    {
        let mut text = Vec::from_slice(alloc, name)?;
        push_ascii(&mut text, front)?;
        text.extend_from_slice(&self.text)?;
        Ok(Explanation {
            text,
            facts: self.facts,
        })
    }

    /// The same in parentheses.
    pub fn in_parens(self, alloc: Global) -> Result<Self, OutOfMemory>
        ensures { IfOk result (λ s. s ≡ in_parens self) }
    {
        let mut text = Vec::new(alloc);
        push_ascii(&mut text, "(")?;
        text.extend_from_slice(&self.text)?;
        push_ascii(&mut text, ")")?;
        Ok(Explanation {
            text,
            facts: self.facts,
        })
    }

    /// A value's text, with the one fact of how it came.
    pub fn came_from(alloc: Global, text: Vec<char>, how: &Explanation) -> Result<Self, OutOfMemory>
        ensures { IfOk result (λ s. s ≡ world.came_from text.items how.now.text how.now.facts) }
    {
        let mut said = Vec::from_slice(alloc, &text)?;
        push_ascii(&mut said, " = ")?;
        said.extend_from_slice(&how.text)?;
        let mut facts = Vec::new(alloc);
        facts.push(Fact {
            depth: 1,
            text: PyText::from_chars(alloc, &said)?,
        })?;
        push_below(alloc, &mut facts, &how.facts)?;
        Ok(Explanation { text, facts })
    }

    /// Two operands with a word between them.
    pub fn pair(
        alloc: Global,
        left: &Explanation,
        word: &str,
        right: &Explanation,
    ) -> Result<Self, OutOfMemory>
        ensures { IfOk result (λ s. s ≡ world.pair_shows word.now left.now right.now) }
    {
        let mut pair = left.copied(alloc)?;
        pair.push_text(" ")?;
        pair.push_text(word)?;
        pair.push_text(" ")?;
        pair.push(alloc, right)?;
        Ok(pair)
    }
}
