// Values that rows spell.

use crate::objects::{
    added, builtin_class, builtin_function, class_by, exception_without_args, function, module,
};
use crate::special::{full_dict, nested, nested_exception, numbers, own_list, repeated, spaces};
use py_kinds::keys::{KeyResult, key_within};
use py_values::class::ClassRef;
use py_values::dict::Dict;
use py_values::heap::Heap;
use py_values::object::Obj;
use py_values::range::RangeObj;
use py_values::rows::Values;
use py_values::throw::throw_with;
use py_values::value::Value;
use py_values::{OutOfMemory, PyText};
use std::alloc::Global;

/// What can only want memory.
pub type MemoryResult<T> = Result<T, OutOfMemory>;

/// The operands of a row, in a heap of their own.
#[derive(Drop)]
pub struct Operands {
    pub heap: Heap,
    pub values: Vec<Value>,
}

/// A copy of a text.
pub fn copied(alloc: Global, text: &str) -> MemoryResult<String> {
    Ok(String::from_str(alloc, text)?)
}

/// The characters of a text.
pub fn characters(alloc: Global, spelled: &str) -> MemoryResult<Vec<char>> {
    Ok(spelled.chars().collect(alloc)?)
}

/// A text of the language.
pub fn text(alloc: Global, spelled: &str) -> MemoryResult<PyText> {
    PyText::from_str(alloc, spelled)
}

/// A number that a row gives, or 0.
pub fn count(spelled: &str) -> usize {
    spelled.parse::<usize>().unwrap_or(0)
}

/// A number with its sign, or 0.
pub fn whole(spelled: &str) -> i128 {
    spelled.parse::<i128>().unwrap_or(0)
}

/// The value at a place; `None` where there is none.
fn value_at(values: &[Value], place: usize) -> Value {
    match values.get(place) {
        Some(v) => *v,
        None => Value::None,
    }
}

/// How many numbers there are from a start by a step before a stop.
fn range_length(start: i128, stop: i128, step: i128) -> usize {
    let goes_on = if step > 0 { start < stop } else { start > stop };
    if !goes_on {
        return 0;
    }
    let last = start.abs_diff(stop).saturating_sub(1);
    let steps = last.checked_div(step.unsigned_abs()).unwrap_or(0);
    usize::try_from(steps.saturating_add(1)).unwrap_or(0)
}

fn range_of(start: i128, stop: i128, step: i128) -> Obj {
    Obj::Range(RangeObj {
        start,
        stop,
        step,
        length: range_length(start, stop, step),
    })
}

/// A range by its start, stop and step with commas between them.
fn range(spelled: &str) -> Obj {
    let (start, rest) = spelled.split_once(',').unwrap_or(("0", ""));
    let (stop, step) = rest.split_once(',').unwrap_or(("0", "1"));
    range_of(whole(start), whole(stop), whole(step))
}

/// Binds a key of a dict to a value, where the value can be a key.
pub fn put(
    alloc: Global,
    heap: &Heap,
    dict: &mut Dict,
    from: Value,
    to: Value,
) -> MemoryResult<()> {
    match key_within(alloc, heap, from, u64::MAX)? {
        Some(KeyResult::Key(plain)) => dict.put(plain, from, to),
        Some(KeyResult::Fault(_, _)) | None => Ok(()),
    }
}

/// A dict of keys and values in turn.
fn dict(alloc: Global, heap: &Heap, items: &[Value]) -> MemoryResult<Obj> {
    let mut dict = Dict::new(alloc);
    for n in 0..items.len() / 2 {
        let (from, to) = (value_at(items, 2 * n), value_at(items, 2 * n + 1));
        put(alloc, heap, &mut dict, from, to)?;
    }
    Ok(Obj::Dict(dict))
}

/// `None`, a boolean or a number.
fn plain(part: &str) -> Option<Value> {
    match part {
        "None" => Some(Value::None),
        "True" => Some(Value::Bool(true)),
        "False" => Some(Value::Bool(false)),
        _ => match part.parse::<i128>() {
            Ok(n) => Some(Value::Int(n)),
            Err(_) => None,
        },
    }
}

impl Operands {
    /// The operand at a place; `None` where there is none.
    pub fn at(&self, place: usize) -> Value {
        value_at(&self.values, place)
    }

    /// The last so many values, which are taken away.
    pub fn taken(&mut self, alloc: Global, count: usize) -> MemoryResult<Vec<Value>> {
        let mut items = Vec::new(alloc);
        let from = self.values.len().saturating_sub(count);
        for place in from..self.values.len() {
            items.push(self.at(place))?;
        }
        self.values.truncate(from);
        Ok(items)
    }

    /// The last so many values as a row, by how many they are.
    fn elements(&mut self, alloc: Global, spelled: &str) -> MemoryResult<Values> {
        Ok(Values::from_vec(self.taken(alloc, count(spelled))?))
    }

    fn pairs(&mut self, alloc: Global, spelled: &str) -> MemoryResult<Obj> {
        let items = self.taken(alloc, count(spelled).saturating_mul(2))?;
        dict(alloc, &self.heap, &items)
    }

    fn object(&mut self, alloc: Global, kind: char, rest: &str) -> MemoryResult<Obj> {
        match kind {
            'R' => Ok(range(rest)),
            'L' => Ok(Obj::List(self.elements(alloc, rest)?)),
            'T' => Ok(Obj::Tuple(self.elements(alloc, rest)?)),
            'D' => self.pairs(alloc, rest),
            'F' => function(alloc, rest, Values::new(alloc)),
            'M' => module(alloc, rest),
            'B' => Ok(builtin_function()),
            'C' => builtin_class(alloc, rest),
            _ => Ok(Obj::Text(text(alloc, rest)?)),
        }
    }

    /// An exception, by how many of the values before it are its arguments, and its class.
    fn exception(&mut self, alloc: Global, spelled: &str) -> MemoryResult<Value> {
        match spelled.split_once(' ') {
            Some((args, class)) => {
                let args = self.elements(alloc, args)?;
                let class = ClassRef::Builtin(class_by(class));
                throw_with(alloc, &mut self.heap, class, args)
            }
            None => added(
                &mut self.heap,
                exception_without_args(alloc, class_by(spelled)),
            ),
        }
    }

    /// The value that a part spells, by its first character and the rest.
    fn value(&mut self, alloc: Global, kind: char, rest: &str) -> MemoryResult<Value> {
        match kind {
            '@' => Ok(self.at(count(rest))),
            'X' => self.exception(alloc, rest),
            '*' => repeated(alloc, self, count(rest)),
            'O' => own_list(alloc, &mut self.heap),
            '(' => nested(alloc, &mut self.heap, count(rest)),
            '!' => nested_exception(alloc, &mut self.heap, count(rest)),
            'K' => full_dict(alloc, &mut self.heap, count(rest)),
            'N' => numbers(alloc, &mut self.heap, count(rest)),
            'S' => spaces(alloc, &mut self.heap, count(rest)),
            _ => {
                let object = self.object(alloc, kind, rest)?;
                added(&mut self.heap, object)
            }
        }
    }

    fn part_value(&mut self, alloc: Global, part: &str) -> MemoryResult<Value> {
        if let Some(v) = plain(part) {
            return Ok(v);
        }
        let kind = part.chars().next().unwrap_or(' ');
        self.value(alloc, kind, part.strip_prefix(kind).unwrap_or(""))
    }

    /// Puts the value that a part spells behind the others.
    pub fn push(&mut self, alloc: Global, part: &str) -> MemoryResult<()> {
        let v = self.part_value(alloc, part)?;
        Ok(self.values.push(v)?)
    }

    fn push_all(&mut self, alloc: Global, spelled: &str) -> MemoryResult<()> {
        if spelled.is_empty() {
            return Ok(());
        }
        for part in spelled.split('|') {
            self.push(alloc, part)?;
        }
        Ok(())
    }

    /// The operands that a row spells, with `|` between their parts; nothing spells none. A part is
    ///
    /// - `None`, a boolean or a number;
    /// - `'` and a text, or `R` and a range's start, stop and step;
    /// - `L`, `T` or `D` and how many of the values before it are the elements of a list, a tuple or a dict (keys and values in turn);
    /// - `@` and the place of a value before it, for that value again, or `*` and how many times the value before it is repeated;
    /// - `O`, a list that holds 1 and itself; `(`, 1 within so many tuples; `!`, 7 within so many exceptions; `K`, a dict of so many
    ///   keys; `N`, a list of so many numbers; `S`, a text of so many spaces;
    /// - `X`, how many of the values before it are an exception's arguments, a blank and its class, or `X` and the class of an
    ///   exception that has no `args`;
    /// - `F` and a function's name, `M` and a module's path, `C` and the name of a built-in class, or `B`, the built-in function
    ///   `print`.
    pub fn of(alloc: Global, spelled: &str) -> MemoryResult<Operands> {
        let heap = Heap::new(alloc)?;
        let values = Vec::new(alloc);
        let mut all = Operands { heap, values };
        match all.push_all(alloc, spelled) {
            Ok(()) => Ok(all),
            Err(error) => {
                drop(all);
                Err(error)
            }
        }
    }
}
