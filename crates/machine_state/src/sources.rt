// The sources, by their paths.

ghost use Rattle.std.specs.Prelude.{◌≡◌, ◌++◌, ◌∷◌, [], All, None, OnOk, chars, length, option_copied, true};
ghost use Rattle.std.specs.Hash as fed;
ghost use Rattle.std.specs.List.{fold};
ghost use Rattle.core_meaning.specs.py_world.Runs.{source_at};
ghost use Rattle.machine_state.specs.Spelled.{is_letter, is_text};
ghost use Rattle.py_values.specs.Names.{name_eq};

use crate::source::SourceFile;
use indexmap::{Equivalent, IndexSet};
use seq::{OutOfMemory, PyText};
use std::alloc::Global;
use std::hash::{Hash, Hasher};
use std::marker::Model;

/// The sources in their order, each found by its path.
pub struct SourceTable {
    set: IndexSet<SourceFile>,
}

impl Drop for SourceTable {
    fn drop(self) {
        let SourceTable { set: _ } = self;
    }
}

impl Model for SourceTable {
    ghost use Rattle.std.specs.Prelude.{◌≡◌, All, List, true};
    ghost use Rattle.core_meaning.specs.py_world.World.{CodedSource};
    ghost use Rattle.py_core.specs.declared.stmt.Core.{Core};
    ghost use Rattle.machine_state.specs.Spelled.{is_text};

    ghost Value = { List (CodedSource Core) };

    ghost use Rattle.py_core.specs.contracts.stmt.CoreStmtKind as kind;
    ghost use Rattle.py_core.specs.contracts.stmt.CoreBlock as block;
    ghost use Rattle.py_tree.specs.contracts.expr.ExprKind as source_expression;
    ghost use Rattle.py_tree.specs.contracts.stmt.StmtKind as statement;
    ghost use Rattle.std.specs.Coded.{codes};

    ghost coded = { Prim.hlevel (codes, kind.the_row.coded, block.the_row.coded, source_expression.the_row.coded, statement.the_row.coded) };

    ghost view = { λ t. t.set.keys };

    ghost invariant = { λ t. All (λ (x : CodedSource Core). is_text x.path ≡ true) t.set.keys };
}

impl SourceTable {
    /// No source is there.
    pub fn new(alloc: Global) -> Self
        ensures { result ≡ [] }
    {
        SourceTable {
            set: IndexSet::new(alloc),
        }
    }

    /// The source of a path.
    #[tactic(auto, using(crate::proofs::Spelled::source_got))]
    pub fn find(&self, path: &PyText) -> Option<&SourceFile>
        ensures { option_copied result ≡ source_at path.now self.now }
    {
        self.set.get(path)
    }

    /// The source of a path that is given in UTF-8.
    #[tactic(auto, using(crate::proofs::Spelled::source_got))]
    pub fn find_text(&self, path: &str) -> Option<&SourceFile>
        ensures { option_copied result ≡ source_at (chars path.now) self.now }
    {
        self.set.get(PathText { text: path })
    }

    /// Puts a source behind the others, where none of its path is there.
    pub fn push(&mut self, source: SourceFile) -> Result<(), OutOfMemory>
        requires absent { source_at source.path self.old ≡ None }
        ensures { OnOk result (self.new ≡ self.old ++ source ∷ []) }
    {
        know_text(source.path().chars());
        self.set.insert(source)?;
        Ok(())
    }

    /// The paths are texts.
    pub fn know_paths(&self)
        ensures { All (λ (x : CodedSource Core). is_text x.path ≡ true) self.now }
    {
        let _ = self.set.len();
    }
}

ghost use Rattle.core_meaning.specs.py_world.World.{CodedSource};
ghost use Rattle.py_core.specs.declared.stmt.Core.{Core};

/// A character is one that UTF-8 spells.
fn know_char(c: char)
    ensures { is_letter c ≡ true }
{
    let _ = c;
}

/// A text of characters is one that UTF-8 spells. Takes no time.
#[tactic(auto, using(crate::proofs::Spelled::text_more, crate::proofs::Spelled::text_all))]
pub fn know_text(chars: &[char])
    ensures { is_text chars.now ≡ true }
{
    for c in chars {
        know_char(*c);
    }
}

/// Sources are told apart by their paths.
impl PartialEq for SourceFile {
    ghost use Rattle.std.specs.Prelude.{nat_eq};
    ghost use Rattle.std.specs.Cmp.{on_per, partial_equiv_from_equiv};
    ghost use Rattle.std.specs.Cmp.Lexicographic.{pointwise, nat_list_eq_equiv};
    ghost use Rattle.core_meaning.specs.py_world.World.{CodedSource};
    ghost use Rattle.py_core.specs.declared.stmt.Core.{Core};

    ghost eq = { λ a b. pointwise nat_eq a.path b.path };

    ghost laws = { on_per (λ (s : CodedSource Core). s.path) (partial_equiv_from_equiv nat_list_eq_equiv) };

    fn eq(&self, other: &SourceFile) -> bool {
        self.path().chars() == other.path().chars()
    }
}

impl Eq for SourceFile {
    ghost use Rattle.std.specs.Cmp.{on_equiv};
    ghost use Rattle.std.specs.Cmp.Lexicographic.{nat_list_eq_equiv};
    ghost use Rattle.core_meaning.specs.py_world.World.{CodedSource};
    ghost use Rattle.py_core.specs.declared.stmt.Core.{Core};

    ghost laws = { on_equiv (λ (s : CodedSource Core). s.path) nat_list_eq_equiv };
}

impl Hash for SourceFile {
    ghost use Rattle.std.proofs.Common.{ap, sym};
    ghost use Rattle.std.specs.Hash as fed;
    ghost use Rattle.std.specs.Cmp.Lexicographic.{same_text};

    ghost hash_input = { λ s. fed.slice fed.char s.path };

    ghost respects_eq = { λ x y h. ap (fed.slice fed.char) (same_text x.path y.path (sym h)) };

    fn hash<H: Hasher>(&self, state: &mut H) {
        self.path().chars().hash(state);
    }
}

impl Equivalent<SourceFile> for &PyText {
    ghost use Rattle.std.specs.Prelude.{nat_eq};
    ghost use Rattle.std.proofs.Common.{ap, sym};
    ghost use Rattle.std.specs.Hash as fed;
    ghost use Rattle.std.specs.Cmp.Lexicographic.{nat_list_eq_equiv, pointwise, same_text};

    ghost equivalent = { λ q k. pointwise nat_eq q.now k.path };

    ghost respects_hash = { λ q k h. ap (fed.slice fed.char) (same_text q.now k.path (sym h)) };

    ghost respects_eq = { λ q x y. nat_list_eq_equiv.congr q.now x.path y.path };

    fn equivalent(&self, key: &SourceFile) -> bool {
        self.chars() == key.path().chars()
    }
}

/// A path in UTF-8, by which a source is found.
#[derive(Clone, Copy)]
struct PathText<'a> {
    text: &'a str,
}

impl<'a> PartialEq for PathText<'a> {
    ghost use Rattle.std.specs.Str.{bytes_eq};
    ghost use Rattle.std.specs.Cmp.{on_per, partial_equiv_from_equiv};
    ghost use Rattle.std.specs.Cmp.Lexicographic.{nat_list_eq_equiv};
    ghost use Rattle.machine_state.specs.declared.sources.PathText.{PathText};

    ghost eq = { λ a b. bytes_eq a.text.now b.text.now };

    ghost laws = { on_per (λ (p : PathText). p.text.now) (partial_equiv_from_equiv nat_list_eq_equiv) };

    fn eq(&self, other: &PathText<'a>) -> bool {
        self.text == other.text
    }
}

impl<'a> Eq for PathText<'a> {
    ghost use Rattle.std.specs.Cmp.{on_equiv};
    ghost use Rattle.std.specs.Cmp.Lexicographic.{nat_list_eq_equiv};
    ghost use Rattle.machine_state.specs.declared.sources.PathText.{PathText};

    ghost laws = { on_equiv (λ (p : PathText). p.text.now) nat_list_eq_equiv };
}

impl<'a> Hash for PathText<'a> {
    ghost use Rattle.std.specs.Prelude.{List, ℕ};
    ghost use Rattle.std.proofs.Common.{ap, sym};
    ghost use Rattle.std.specs.Cmp.Lexicographic.{bytes_decides};
    ghost use Rattle.std.specs.Prelude.{chars};
    ghost use Rattle.std.specs.Hash as fed;

    ghost hash_input = { λ p. fed.slice fed.char (chars p.text.now) };

    ghost respects_eq = { λ x y h. ap (λ (bs : List ℕ). fed.slice fed.char (chars bs)) ((bytes_decides x.text.now y.text.now).0 h) };

    fn hash<H: Hasher>(&self, state: &mut H) {
        feed_letters(self.text, state);
    }
}

impl<'a> Equivalent<SourceFile> for PathText<'a> {
    ghost use Rattle.std.specs.Prelude.{chars, nat_eq};
    ghost use Rattle.std.proofs.Common.{ap, sym};
    ghost use Rattle.std.specs.Hash as fed;
    ghost use Rattle.std.specs.Cmp.Lexicographic.{nat_list_eq_equiv, pointwise, same_text};

    ghost equivalent = { λ q k. pointwise nat_eq (chars q.text.now) k.path };

    ghost respects_hash = { λ q k h. ap (fed.slice fed.char) (same_text (chars q.text.now) k.path (sym h)) };

    ghost respects_eq = { λ q x y. nat_list_eq_equiv.congr (chars q.text.now) x.path y.path };

    fn equivalent(&self, key: &SourceFile) -> bool {
        is_spelled(self.text, key.path().chars())
    }
}

/// How many characters a text has.
fn letter_count(text: &str) -> usize
    ensures { result ≡ length (chars text.now) }
{
    text.chars().count()
}

/// Feeds the characters of a text to a hasher, as a list of them is fed.
fn feed_letters<H: Hasher>(text: &str, state: &mut H)
    ensures { state.new ≡ fold H.write state.old (fed.slice fed.char (chars text.now)) }
{
    state.write_usize(letter_count(text));
    for c in text.chars() {
        c.hash(state);
    }
}

/// Whether a text is spelled with these characters.
fn is_spelled(text: &str, letters: &[char]) -> bool
    ensures { result ≡ name_eq (chars text.now) letters.now }
{
    let mut at = 0;
    for c in text.chars() {
        if at >= letters.len() {
            return false;
        }
        if letters[at] != c {
            return false;
        }
        at += 1;
    }
    at == letters.len()
}
