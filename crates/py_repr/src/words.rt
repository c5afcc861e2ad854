// Texts within quotes, ranges, and the names of objects.

ghost use Rattle.std.specs.Prelude.{◌≡◌, ◌<◌, ◌++◌, OnOk, fold, slice_get, pos};
ghost use Rattle.std.specs.Ordering.{int_eq};
ghost use Rattle.py_repr.specs.Adding.{add};
ghost use Rattle.py_repr.specs.Symbols.{glyphs};
ghost use Rattle.py_repr.specs.Words as words;
ghost use Rattle.py_kinds.specs.Builtins.{builtin_name};
ghost use Rattle.py_kinds.specs.Kinds as kinds;

use crate::shower::Shower;
use py_kinds::builtins::builtin_name;
use py_kinds::kinds::class_name;
use py_values::builtin::Builtin;
use py_values::class::ClassRef;
use py_values::heap::Heap;
use py_values::object::Obj;
use py_values::range::RangeObj;
use py_values::value::ObjId;
use seq::OutOfMemory;

fn is_one(n: i128) -> bool
    ensures { result ≡ int_eq n (pos 1) }
{
    n == 1
}

/// A digit to the base 16.
pub fn hex_digit(n: u8) -> char
    requires { n < 16 }
    ensures { result ≡ words.hex_digit n }
{
    if n < 10 {
        char::from(b'0' + n)
    } else {
        char::from(b'a' - 10 + n)
    }
}

fn has(c: char, text: &[char]) -> bool
    ensures { result ≡ words.has c text.now }
{
    text.iter().any(|d| *d == c)
}

/// The quote in which a text is shown.
pub fn quote_of(text: &[char]) -> char
    ensures { result ≡ words.quote_of text.now }
{
    match (has('\'', text), has('"', text)) {
        (true, false) => '"',
        _ => '\'',
    }
}

#[tactic(auto, using(crate::proofs::Making::showing))]
impl Shower {
    fn push_hex(&mut self, n: u8) -> Result<(), OutOfMemory>
        ensures { OnOk result (self.new ≡ fold add self.old (glyphs (words.hex n))) }
    {
        self.push_ascii("\\x")?;
        self.push(hex_digit(n / 16))?;
        self.push(hex_digit(n % 16))?;
        Ok(())
    }

    /// Puts a character of a text within its quotes.
    fn push_escaped(&mut self, quote: char, c: char) -> Result<(), OutOfMemory>
        ensures { OnOk result (self.new ≡ fold add self.old (glyphs (words.escaped quote c))) }
    {
        if c == quote || c == '\\' {
            self.push('\\')?;
            self.push(c)?;
        } else if c == '\n' {
            self.push_ascii("\\n")?;
        } else if c == '\r' {
            self.push_ascii("\\r")?;
        } else if c == '\t' {
            self.push_ascii("\\t")?;
        } else if c < ' ' || c == '\u{7f}' {
            self.push_hex(c as u8)?;
        } else {
            self.push(c)?;
        }
        Ok(())
    }

    fn push_body(&mut self, quote: char, text: &[char]) -> Result<(), OutOfMemory>
        ensures { OnOk result (self.new ≡ fold add self.old (glyphs (words.escaped_text quote text.now))) }
    {
        for c in text {
            self.push_escaped(quote, *c)?;
        }
        Ok(())
    }

    /// Puts a text within its quotes.
    pub fn push_quoted(&mut self, text: &[char]) -> Result<(), OutOfMemory>
        ensures { OnOk result (self.new ≡ fold add self.old (glyphs (words.quoted_text text.now))) }
    {
        let quote = quote_of(text);
        self.push(quote)?;
        self.push_body(quote, text)?;
        self.push(quote)?;
        Ok(())
    }

    /// Puts a text between two others.
    pub fn push_between(
        &mut self,
        front: &str,
        text: &[char],
        back: &str,
    ) -> Result<(), OutOfMemory>
        ensures { OnOk result (self.new ≡ fold add self.old (glyphs (front.now ++ (text.now ++ back.now)))) }
    {
        self.push_ascii(front)?;
        self.push_chars(text)?;
        self.push_ascii(back)?;
        Ok(())
    }

    #[tactic(auto, using(crate::proofs::Making::showing), unfolding(crate::specs::Words::range_end_by))]
    fn push_range_end(&mut self, step: i128) -> Result<(), OutOfMemory>
        ensures { OnOk result (self.new ≡ fold add self.old (glyphs (words.range_end_by step))) }
    {
        if is_one(step) {
            self.push_ascii(")")?;
            return Ok(());
        }
        self.push_ascii(", ")?;
        self.push_number(step)?;
        self.push_ascii(")")?;
        Ok(())
    }

    #[tactic(auto, using(crate::proofs::Making::showing), unfolding(crate::specs::Words::number_behind))]
    fn push_number_behind(&mut self, front: &str, n: i128) -> Result<(), OutOfMemory>
        ensures { OnOk result (self.new ≡ fold add self.old (glyphs (words.number_behind front.now n))) }
    {
        self.push_ascii(front)?;
        self.push_number(n)?;
        Ok(())
    }

    #[tactic(auto, using(crate::proofs::Making::showing), unfolding(crate::specs::Words::range_front))]
    fn push_range_front(&mut self, start: i128, stop: i128) -> Result<(), OutOfMemory>
        ensures { OnOk result (self.new ≡ fold add self.old (glyphs (words.range_front start stop))) }
    {
        self.push_number_behind("range(", start)?;
        self.push_number_behind(", ", stop)?;
        Ok(())
    }

    /// Puts a range.
    pub fn push_range(&mut self, range: &RangeObj) -> Result<(), OutOfMemory>
        ensures { OnOk result (self.new ≡ fold add self.old (glyphs (words.range_repr range.now))) }
    {
        self.push_range_front(range.start, range.stop)?;
        self.push_range_end(range.step)?;
        Ok(())
    }

    #[tactic(auto, unfolding(crate::specs::Words::object_end))]
    fn push_object_end(&mut self) -> Result<(), OutOfMemory>
        ensures { OnOk result (self.new ≡ fold add self.old (glyphs words.object_end)) }
    {
        self.push_ascii(" object>")?;
        Ok(())
    }

    /// Puts an object of a kind.
    pub fn push_kind(&mut self, name: &str) -> Result<(), OutOfMemory>
        ensures { OnOk result (self.new ≡ fold add self.old (glyphs (words.object_text name.now))) }
    {
        self.push_ascii("<")?;
        self.push_ascii(name)?;
        self.push_object_end()?;
        Ok(())
    }

    #[tactic(auto, using(crate::proofs::Making::showing), unfolding(crate::specs::Words::function_text))]
    fn push_function_name(&mut self, name: &str) -> Result<(), OutOfMemory>
        ensures { OnOk result (self.new ≡ fold add self.old (glyphs (words.function_text name.now))) }
    {
        self.push_ascii("<built-in function ")?;
        self.push_ascii(name)?;
        self.push_ascii(">")?;
        Ok(())
    }

    #[tactic(auto, unfolding(crate::specs::Words::nameless_text))]
    fn push_nameless(&mut self) -> Result<(), OutOfMemory>
        ensures { OnOk result (self.new ≡ fold add self.old (glyphs words.nameless_text)) }
    {
        self.push_ascii("<built-in function>")?;
        Ok(())
    }

    /// Puts a built-in function.
    pub fn push_builtin(&mut self, which: Builtin) -> Result<(), OutOfMemory>
        ensures { OnOk result (self.new ≡ fold add self.old (glyphs (words.builtin_text (builtin_name which)))) }
    {
        match builtin_name(which) {
            Some(name) => self.push_function_name(name)?,
            None => self.push_nameless()?,
        }
        Ok(())
    }

    /// Puts the name of a class of the heap.
    fn push_class(&mut self, heap: &Heap, class: ObjId) -> Result<(), OutOfMemory>
        ensures { OnOk result (self.new ≡ fold add self.old (glyphs (kinds.class_name_at (slice_get heap.now class.at)))) }
    {
        match heap.get(class) {
            Some(Obj::Class(c)) => self.push_chars(c.name.chars())?,
            _ => self.push_ascii("object")?,
        }
        Ok(())
    }

    /// Puts the name of an exception's class.
    pub fn push_class_ref(&mut self, heap: &Heap, class: ClassRef) -> Result<(), OutOfMemory>
        ensures { OnOk result (self.new ≡ fold add self.old (glyphs (kinds.class_ref_name heap.now class))) }
    {
        match class {
            ClassRef::Builtin(c) => self.push_ascii(class_name(c))?,
            ClassRef::Defined(id) => self.push_class(heap, id)?,
        }
        Ok(())
    }

    /// Puts an instance of a class of the heap.
    pub fn push_instance(&mut self, heap: &Heap, class: ObjId) -> Result<(), OutOfMemory>
        ensures { OnOk result (self.new ≡ fold add self.old (glyphs (words.object_text (kinds.class_name_at (slice_get heap.now class.at))))) }
    {
        self.push_ascii("<")?;
        self.push_class(heap, class)?;
        self.push_object_end()?;
        Ok(())
    }

    /// Puts the name of a function of the heap.
    fn push_function(&mut self, heap: &Heap, id: ObjId) -> Result<(), OutOfMemory>
        ensures { OnOk result (self.new ≡ fold add self.old (glyphs (words.function_name_at (slice_get heap.now id.at)))) }
    {
        match heap.get(id) {
            Some(Obj::Function(f)) => self.push_chars(f.name.chars())?,
            _ => self.push_ascii("object")?,
        }
        Ok(())
    }

    /// Puts a method.
    #[tactic(auto, using(crate::proofs::Making::showing), unfolding(crate::specs::Words::method_text))]
    pub fn push_method(&mut self, heap: &Heap, function: ObjId) -> Result<(), OutOfMemory>
        ensures { OnOk result (self.new ≡ fold add self.old
            (glyphs (words.method_text (words.function_name_at (slice_get heap.now function.at))))) }
    {
        self.push_ascii("<bound method ")?;
        self.push_function(heap, function)?;
        self.push_ascii(">")?;
        Ok(())
    }
}
