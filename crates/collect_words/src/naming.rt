ghost use Rattle.std.specs.Prelude.{◌≡◌, ◌++◌, Some, bytes_eq};
ghost use Rattle.collect_words.specs.Keys.{Leaves};
ghost use Rattle.collect_words.specs.Nodes.{class_front, id_end, is_class, is_named, plain_part, whole_part};

use crate::nodes::ItemNames;
use seq::ByteText;

/// What is left of a text behind a front, if it begins so.
fn left_behind<'a>(text: &'a [u8], front: &[u8]) -> Option<&'a [u8]>
    ensures { Leaves front.now text.now result }
{
    if !text.starts_with(front) {
        return None;
    }
    Some(&text[front.len()..])
}

/// What is left of a text behind a class and `::`; without a class it is all.
fn left_behind_class<'a>(part: &'a [u8], class: &Option<ByteText>) -> Option<&'a [u8]>
    ensures { Leaves (class_front class.now) part.now result }
{
    let Some(class) = class else {
        return Some(part);
    };
    let Some(left) = left_behind(part, class.text().as_bytes()) else {
        return None;
    };
    left_behind(left, b"::")
}

fn is_class(part: &[u8], class: &Option<ByteText>) -> bool
    ensures { result ≡ is_class part.now class.now }
{
    match class {
        Some(class) => class.text().as_bytes() == part,
        None => false,
    }
}

fn is_plain(part: &[u8], item: &ItemNames) -> bool
    ensures { result ≡ bytes_eq (plain_part item.now) part.now }
{
    let Some(left) = left_behind_class(part, &item.class) else {
        return false;
    };
    item.function.text().as_bytes() == left
}

/// Whether a text is a function with an id in brackets.
fn is_with(text: &[u8], function: &[u8], id: &[u8]) -> bool
    ensures { result ≡ bytes_eq (function.now ++ id_end (Some id.now)) text.now }
{
    let Some(left) = left_behind(text, function) else {
        return false;
    };
    let Some(left) = left_behind(left, b"[") else {
        return false;
    };
    let Some(left) = left_behind(left, id) else {
        return false;
    };
    b"]".as_slice() == left
}

fn is_function(text: &[u8], function: &[u8], id: &Option<ByteText>) -> bool
    ensures { result ≡ bytes_eq (function.now ++ id_end id.now) text.now }
{
    match id {
        Some(id) => is_with(text, function, id.text().as_bytes()),
        None => function == text,
    }
}

fn is_whole(part: &[u8], item: &ItemNames) -> bool
    ensures { result ≡ bytes_eq (whole_part item.now) part.now }
{
    let Some(left) = left_behind_class(part, &item.class) else {
        return false;
    };
    is_function(left, item.function.text().as_bytes(), &item.id)
}

/// Whether a part behind `::` names an item: by its node id, with its id or without, or by its class.
#[tactic(auto, unfolding(crate::specs::Nodes::is_named))]
pub fn is_named(part: &[u8], item: &ItemNames) -> bool
    ensures { result ≡ is_named part.now item.now }
{
    is_class(part, &item.class) || is_plain(part, item) || is_whole(part, item)
}
