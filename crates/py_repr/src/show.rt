// What is shown of a value.

ghost use Rattle.std.specs.Prelude.{◌≡◌, ◌++◌, ◌∷◌, [], ◌<◌, ◌-◌, OnOk, fold, true, if◌then◌else◌, codes, slice_get};
ghost use Rattle.py_repr.specs.Adding.{add};
ghost use Rattle.py_repr.specs.Symbols.{glyphs};
ghost use Rattle.py_repr.specs.Repr.{item_row, pairs_row, pair_repr, obj_repr, repr_to, exception_repr, args_repr, list_repr, tuple_repr, tuple_end, dict_repr, is_around, message_by, obj_str, str_to};
ghost use Rattle.py_repr.specs.Repr as told;
ghost use Rattle.py_values.specs.declared.value.Value.TheVariants as val;

use crate::shower::Shower;
use py_kinds::classes::root_of;
use py_values::class::{ClassRef, ExcClass};
use py_values::dict::{Dict, Pair};
use py_values::heap::Heap;
use py_values::object::Obj;
use py_values::throw::args_in;
use py_values::value::{ObjId, Value};
use seq::OutOfMemory;

/// Whether an object is one of those around it.
fn is_around(around: &Vec<ObjId>, id: ObjId) -> bool
    ensures { result ≡ told.is_around around.now.items id }
{
    around.iter().any(|d| d.at == id.at)
}

fn is_key_error(class: Option<ExcClass>) -> bool
    ensures { result ≡ told.is_key_error class }
{
    match class {
        Some(class) => class == ExcClass::KeyError,
        None => false,
    }
}

#[tactic(auto, using(crate::proofs::Making::showing))]
impl Shower {
    fn comma(&mut self, first: bool) -> Result<(), OutOfMemory>
        ensures { OnOk result (self.new ≡ fold add self.old (if first then [] else glyphs (codes ", "))) }
    {
        if first {
            return Ok(());
        }
        self.push_ascii(", ")?;
        Ok(())
    }

    fn close_tuple(&mut self, vs: &[Value]) -> Result<(), OutOfMemory>
        ensures { OnOk result (self.new ≡ fold add self.old (glyphs (tuple_end vs.now))) }
    {
        match vs {
            [_] => self.push_ascii(",)")?,
            _ => self.push_ascii(")")?,
        }
        Ok(())
    }

    /// Shows the repr of a value, to a depth.
    #[cycle(show)]
    pub fn show(
        &mut self,
        heap: &Heap,
        around: &mut Vec<ObjId>,
        v: Value,
        depth: usize,
    ) -> Result<(), OutOfMemory>
        ensures text { OnOk result (self.new ≡ fold add self.old (repr_to depth heap.now around.old.items v)) }
        ensures same { OnOk result (around.new.items ≡ around.old.items) }
    {
        if self.is_cut() {
            return Ok(());
        }
        if depth == 0 {
            self.push_deep()?;
            return Ok(());
        }
        match v {
            Value::None => self.push_ascii("None")?,
            Value::Bool(true) => self.push_ascii("True")?,
            Value::Bool(false) => self.push_ascii("False")?,
            Value::Int(n) => self.push_number(n)?,
            Value::Ref(id) => self.show_obj(heap, around, id, depth - 1)?,
        }
        Ok(())
    }

    /// Shows the repr of an object.
    #[cycle(show)]
    fn show_obj(
        &mut self,
        heap: &Heap,
        around: &mut Vec<ObjId>,
        id: ObjId,
        depth: usize,
    ) -> Result<(), OutOfMemory>
        ensures text { OnOk result (self.new ≡ fold add self.old
            (obj_repr heap.now (repr_to depth heap.now (around.old.items ++ id ∷ [])) (repr_to depth heap.now around.old.items) (is_around around.old.items id) (slice_get heap.now id.at))) }
        ensures same { OnOk result (around.new.items ≡ around.old.items) }
    {
        match heap.get(id) {
            Some(Obj::Text(t)) => self.push_quoted(t.chars())?,
            Some(Obj::List(vs)) => self.show_list(heap, around, id, vs.items(), depth)?,
            Some(Obj::Tuple(vs)) => self.show_tuple(heap, around, id, vs.items(), depth)?,
            Some(Obj::Dict(d)) => self.show_dict(heap, around, id, d, depth)?,
            Some(Obj::Range(r)) => self.push_range(r)?,
            Some(Obj::Function(f)) => self.push_between("<function ", f.name.chars(), ">")?,
            Some(Obj::Method(m)) => self.push_method(heap, m.function)?,
            Some(Obj::Builtin(b)) => self.push_builtin(b.which)?,
            Some(Obj::Class(c)) => self.push_between("<class '", c.name.chars(), "'>")?,
            Some(Obj::Instance(i)) => self.push_instance(heap, i.class)?,
            Some(Obj::Exception(e)) => {
                self.show_exception(heap, around, e.class, args_in(heap, e.args), depth)?;
            }
            Some(Obj::Module(m)) => self.push_between("<module '", m.path.chars(), "'>")?,
            Some(Obj::Fixture(_)) => self.push_kind("fixture")?,
            Some(Obj::MarkMaker | Obj::Mark(_) | Obj::Hook(_)) => {
                self.push_kind("mark")?;
            }
            Some(Obj::Param(_)) => self.push_kind("param")?,
            Some(Obj::Request(_)) => self.push_kind("request")?,
            Some(Obj::Raises(_)) => self.push_kind("raises")?,
            Some(Obj::Info(_)) => self.push_kind("info")?,
            Some(Obj::Item(_)) => self.push_kind("item")?,
            None => self.push_ascii("<object>")?,
        }
        Ok(())
    }

    /// Shows the repr of an exception.
    #[cycle(show)]
    fn show_exception(
        &mut self,
        heap: &Heap,
        around: &mut Vec<ObjId>,
        class: ClassRef,
        args: &[Value],
        depth: usize,
    ) -> Result<(), OutOfMemory>
        ensures text { OnOk result (self.new ≡ fold add self.old (exception_repr heap.now (repr_to depth heap.now around.old.items) class args.now)) }
        ensures same { OnOk result (around.new.items ≡ around.old.items) }
    {
        self.push_class_ref(heap, class)?;
        self.show_args(heap, around, args, depth)?;
        Ok(())
    }

    /// Shows values within parentheses.
    #[cycle(show)]
    fn show_args(
        &mut self,
        heap: &Heap,
        around: &mut Vec<ObjId>,
        args: &[Value],
        depth: usize,
    ) -> Result<(), OutOfMemory>
        ensures text { OnOk result (self.new ≡ fold add self.old (args_repr (repr_to depth heap.now around.old.items) args.now)) }
        ensures same { OnOk result (around.new.items ≡ around.old.items) }
    {
        self.push_ascii("(")?;
        self.show_row(heap, around, args, depth)?;
        self.push_ascii(")")?;
        Ok(())
    }

    /// Shows a list.
    #[cycle(show)]
    fn show_list(
        &mut self,
        heap: &Heap,
        around: &mut Vec<ObjId>,
        id: ObjId,
        vs: &[Value],
        depth: usize,
    ) -> Result<(), OutOfMemory>
        ensures text { OnOk result (self.new ≡ fold add self.old
            (list_repr (repr_to depth heap.now (around.old.items ++ id ∷ [])) (is_around around.old.items id) vs.now)) }
        ensures same { OnOk result (around.new.items ≡ around.old.items) }
    {
        if is_around(around, id) {
            self.push_ascii("[...]")?;
            return Ok(());
        }
        self.push_ascii("[")?;
        self.show_inner(heap, around, id, vs, depth)?;
        self.push_ascii("]")?;
        Ok(())
    }

    /// Shows a tuple.
    #[cycle(show)]
    fn show_tuple(
        &mut self,
        heap: &Heap,
        around: &mut Vec<ObjId>,
        id: ObjId,
        vs: &[Value],
        depth: usize,
    ) -> Result<(), OutOfMemory>
        ensures text { OnOk result (self.new ≡ fold add self.old
            (tuple_repr (repr_to depth heap.now (around.old.items ++ id ∷ [])) (is_around around.old.items id) vs.now)) }
        ensures same { OnOk result (around.new.items ≡ around.old.items) }
    {
        if is_around(around, id) {
            self.push_ascii("(...)")?;
            return Ok(());
        }
        self.push_ascii("(")?;
        self.show_inner(heap, around, id, vs, depth)?;
        self.close_tuple(vs)?;
        Ok(())
    }

    /// Shows a dict.
    #[cycle(show)]
    fn show_dict(
        &mut self,
        heap: &Heap,
        around: &mut Vec<ObjId>,
        id: ObjId,
        dict: &Dict,
        depth: usize,
    ) -> Result<(), OutOfMemory>
        ensures text { OnOk result (self.new ≡ fold add self.old
            (dict_repr (repr_to depth heap.now (around.old.items ++ id ∷ [])) (is_around around.old.items id) dict.now)) }
        ensures same { OnOk result (around.new.items ≡ around.old.items) }
    {
        if is_around(around, id) {
            self.push_ascii("{...}")?;
            return Ok(());
        }
        self.push_ascii("{")?;
        self.show_inner_pairs(heap, around, id, dict, depth)?;
        self.push_ascii("}")?;
        Ok(())
    }

    /// Shows values inside an object.
    #[cycle(show)]
    fn show_inner(
        &mut self,
        heap: &Heap,
        around: &mut Vec<ObjId>,
        id: ObjId,
        vs: &[Value],
        depth: usize,
    ) -> Result<(), OutOfMemory>
        ensures text { OnOk result (self.new ≡ fold add self.old
            (item_row true (repr_to depth heap.now (around.old.items ++ id ∷ [])) vs.now)) }
        ensures same { OnOk result (around.new.items ≡ around.old.items) }
    {
        around.push(id)?;
        self.show_row(heap, around, vs, depth)?;
        around.pop();
        Ok(())
    }

    /// Shows pairs inside an object.
    #[cycle(show)]
    fn show_inner_pairs(
        &mut self,
        heap: &Heap,
        around: &mut Vec<ObjId>,
        id: ObjId,
        dict: &Dict,
        depth: usize,
    ) -> Result<(), OutOfMemory>
        ensures text { OnOk result (self.new ≡ fold add self.old
            (pairs_row true (repr_to depth heap.now (around.old.items ++ id ∷ [])) dict.now)) }
        ensures same { OnOk result (around.new.items ≡ around.old.items) }
    {
        around.push(id)?;
        self.show_pairs(heap, around, dict, depth)?;
        around.pop();
        Ok(())
    }

    /// Shows values with a comma between them.
    #[cycle(show)]
    fn show_row(
        &mut self,
        heap: &Heap,
        around: &mut Vec<ObjId>,
        vs: &[Value],
        depth: usize,
    ) -> Result<(), OutOfMemory>
        ensures text { OnOk result (self.new ≡ fold add self.old (item_row true (repr_to depth heap.now around.old.items) vs.now)) }
        ensures same { OnOk result (around.new.items ≡ around.old.items) }
    {
        let mut first = true;
        for v in vs {
            if self.is_cut() {
                return Ok(());
            }
            self.comma(first)?;
            first = false;
            self.show(heap, around, *v, depth)?;
        }
        Ok(())
    }

    /// Shows pairs with a comma between them.
    #[cycle(show)]
    fn show_pairs(
        &mut self,
        heap: &Heap,
        around: &mut Vec<ObjId>,
        dict: &Dict,
        depth: usize,
    ) -> Result<(), OutOfMemory>
        ensures text { OnOk result (self.new ≡ fold add self.old (pairs_row true (repr_to depth heap.now around.old.items) dict.now)) }
        ensures same { OnOk result (around.new.items ≡ around.old.items) }
    {
        let mut first = true;
        for i in 0..dict.len() {
            if self.is_cut() {
                return Ok(());
            }
            let Some(pair) = dict.pair(i) else {
                return Ok(());
            };
            self.comma(first)?;
            first = false;
            self.show_pair(heap, around, *pair, depth)?;
        }
        Ok(())
    }

    /// Shows a pair.
    #[cycle(show)]
    fn show_pair(
        &mut self,
        heap: &Heap,
        around: &mut Vec<ObjId>,
        pair: Pair,
        depth: usize,
    ) -> Result<(), OutOfMemory>
        ensures text { OnOk result (self.new ≡ fold add self.old (pair_repr (repr_to depth heap.now around.old.items) pair)) }
        ensures same { OnOk result (around.new.items ≡ around.old.items) }
    {
        self.show(heap, around, pair.key, depth)?;
        self.push_ascii(": ")?;
        self.show(heap, around, pair.value, depth)?;
        Ok(())
    }

    /// Shows the repr of a value around which nothing stands.
    pub fn show_alone(&mut self, heap: &Heap, v: Value, depth: usize) -> Result<(), OutOfMemory>
        ensures { OnOk result (self.new ≡ fold add self.old (repr_to depth heap.now [] v)) }
    {
        let mut around = Vec::new(self.allocator());
        self.show(heap, &mut around, v, depth)
    }

    /// Shows values within parentheses around which nothing stands.
    fn show_args_alone(
        &mut self,
        heap: &Heap,
        args: &[Value],
        depth: usize,
    ) -> Result<(), OutOfMemory>
        ensures { OnOk result (self.new ≡ fold add self.old (args_repr (repr_to depth heap.now []) args.now)) }
    {
        let mut around = Vec::new(self.allocator());
        self.show_args(heap, &mut around, args, depth)
    }

    /// Shows the text of a value, to a depth.
    #[cycle(text)]
    pub fn show_str(&mut self, heap: &Heap, v: Value, depth: usize) -> Result<(), OutOfMemory>
        ensures { OnOk result (self.new ≡ fold add self.old (str_to depth heap.now v)) }
    {
        if depth == 0 {
            self.push_deep()?;
            return Ok(());
        }
        match v {
            Value::Ref(id) => self.show_obj_str(heap, id, depth)?,
            _ => self.show_alone(heap, v, depth)?,
        }
        Ok(())
    }

    /// Shows the text of an object.
    #[cycle(text)]
    fn show_obj_str(&mut self, heap: &Heap, id: ObjId, depth: usize) -> Result<(), OutOfMemory>
        requires { 0 < depth }
        ensures { OnOk result (self.new ≡ fold add self.old
            (obj_str heap.now (repr_to (depth - 1) heap.now []) (str_to (depth - 1) heap.now) (repr_to depth heap.now [] (val.Ref id)) (slice_get heap.now id.at))) }
    {
        match heap.get(id) {
            Some(Obj::Text(t)) => self.push_chars(t.chars())?,
            Some(Obj::Exception(e)) => {
                let key = is_key_error(root_of(heap, e.class));
                self.show_message(heap, key, args_in(heap, e.args), depth - 1)?;
            }
            _ => self.show_alone(heap, Value::Ref(id), depth)?,
        }
        Ok(())
    }

    /// Shows the message of an exception.
    #[cycle(text)]
    fn show_message(
        &mut self,
        heap: &Heap,
        key: bool,
        args: &[Value],
        depth: usize,
    ) -> Result<(), OutOfMemory>
        ensures { OnOk result (self.new ≡ fold add self.old
            (message_by (repr_to depth heap.now []) (str_to depth heap.now) key args.now)) }
    {
        match args {
            [] => {}
            [v] => self.show_one(heap, key, *v, depth)?,
            _ => self.show_args_alone(heap, args, depth)?,
        }
        Ok(())
    }

    /// Shows the message of an exception with one argument.
    #[cycle(text)]
    fn show_one(
        &mut self,
        heap: &Heap,
        key: bool,
        v: Value,
        depth: usize,
    ) -> Result<(), OutOfMemory>
        ensures { OnOk result (self.new ≡ fold add self.old
            (if key then repr_to depth heap.now [] v else str_to depth heap.now v)) }
    {
        if key {
            self.show_alone(heap, v, depth)?;
        } else {
            self.show_str(heap, v, depth)?;
        }
        Ok(())
    }
}
