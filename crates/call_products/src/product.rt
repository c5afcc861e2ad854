// What a call makes: new objects, and what is made in the heap that has them.

ghost use Rattle.std.specs.Prelude.{◌≡◌, ◌++◌, [], IfOk, OnOk, Some};
ghost use Rattle.py_values.specs.Ends.{steps_of, cost_of, finished};
ghost use Rattle.call_products.specs.Products as products;

use py_operands::faults;
use py_values::OutOfMemory;
use py_values::class::ExcClass;
use py_values::end::{Effect, OpEnd, Raise, finish, push_ascii};
use py_values::heap::Heap;
use py_values::object::Obj;
use py_values::value::{ObjId, Value};
use seq::Seq;
use std::alloc::Global;

/// Objects in a row.
pub type Objs = Seq<Obj>;

/// What a call makes, with its cost in steps, before the heap has it: new objects, which stand behind the heap's last one, and
/// what is made in the heap that has them.
#[derive(Drop)]
pub struct Product {
    pub objects: Objs,
    pub made: Effect,
}

/// What is made without other objects.
pub fn plain(alloc: Global, made: Effect) -> Product
    ensures { result ≡ products.plain made }
{
    Product {
        objects: Seq::from_vec(Vec::new(alloc)),
        made,
    }
}

/// What fails with a text of ASCII characters, behind so many steps.
pub fn failed(alloc: Global, class: ExcClass, text: &str, cost: u64) -> Result<Product, OutOfMemory>
    ensures { IfOk result (λ p. p ≡ products.failed class text.now cost) }
{
    let raise = Raise::from_ascii(alloc, class, text)?;
    Ok(plain(alloc, Effect::Fail(raise, cost)))
}

/// The error that a text or a list would be past the greatest length, behind so many steps.
pub fn too_long(alloc: Global, cost: usize) -> Result<Product, OutOfMemory>
    ensures { IfOk result (λ p. p ≡ products.too_long cost) }
{
    let made = faults::too_long(alloc, cost as u64)?;
    Ok(plain(alloc, made))
}

/// The error that a call's arguments don't fit it, behind so many steps.
pub fn wrong(alloc: Global, name: &str, cost: u64) -> Result<Product, OutOfMemory>
    ensures { IfOk result (λ p. p ≡ products.wrong name.now cost) }
{
    let mut text = Vec::new(alloc);
    push_ascii(&mut text, "wrong arguments for ")?;
    push_ascii(&mut text, name)?;
    let raise = Raise::from_chars(alloc, ExcClass::TypeError, &text)?;
    Ok(plain(alloc, Effect::Fail(raise, cost)))
}

/// So many places behind one another, from one on. No heap has more places than numbers.
pub fn refs(alloc: Global, from: usize, count: usize) -> Result<Vec<Value>, OutOfMemory>
    ensures { IfOk result (λ v. v.items ≡ products.refs_from from count) }
{
    let mut values = Vec::new(alloc);
    for i in 0..count {
        let Some(at) = from.checked_add(i) else {
            return Err(OutOfMemory);
        };
        values.push(Value::Ref(ObjId { at }))?;
    }
    Ok(values)
}

/// A product under a budget, if anything.
pub fn product_within(product: Product, budget: u64) -> Option<Product>
    ensures { result ≡ products.product_within budget product }
{
    if budget < product.made.cost() {
        drop(product);
        None
    } else {
        Some(product)
    }
}

/// Puts objects behind those of a heap.
pub fn add_all(heap: &mut Heap, objects: Objs) -> Result<(), OutOfMemory>
    ensures { OnOk result (heap.new ≡ heap.old ++ objects) }
{
    for object in objects.into_vec() {
        heap.add(object)?;
    }
    Ok(())
}

/// Puts new objects into the heap, and what is made in the heap that has them.
fn finish_behind(heap: &mut Heap, objects: Objs, made: Effect) -> Result<OpEnd, OutOfMemory>
    ensures end { IfOk result (λ e. (e, heap.new) ≡ finished (heap.old ++ objects) (Some made)) }
    ensures cost { IfOk result (λ e. steps_of e ≡ cost_of made) }
{
    match add_all(heap, objects) {
        Ok(()) => finish(heap, Some(made)),
        Err(error) => {
            drop(made);
            Err(error)
        }
    }
}

/// Puts a product into the heap; nothing is put where the budget doesn't suffice.
pub fn finish_product(heap: &mut Heap, product: Option<Product>) -> Result<OpEnd, OutOfMemory>
    ensures end { IfOk result (λ e. (e, heap.new) ≡ products.product_finished heap.old product) }
    ensures cost { IfOk result (λ e. steps_of e ≡ products.product_cost product) }
{
    match product {
        Some(Product { objects, made }) => finish_behind(heap, objects, made),
        None => Ok(OpEnd::Exhausted),
    }
}
