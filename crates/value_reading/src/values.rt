//! Values, and what arrays and objects hold.

ghost use Rattle.std.specs.Prelude.{◌≡◌, ◌<◌, ◌≤◌, ◌++◌, ◌∷◌, [], length, IfOk, OnOk};
ghost use Rattle.serde_json.specs.declared.value.Value.{Value};
ghost use Rattle.serde_json.specs.View.{view, items_view, members_view};
ghost use Rattle.value_reading.specs.Lexed.{IsRead, ItemsAreRead, MembersAreRead};

use crate::numbers::{read_number, whole_at};
use crate::passing::{is_over, next_byte, pass_word};
use crate::strings::{copy_name, copy_string};
use crate::unread::Unread;
use serde_json::{Map, Number, Value};
use std::alloc::Global;

/// Passes the value that begins there. Its arrays and objects may nest `levels` deep. It stands within what calls it,
/// and only arrays and objects take a call: most values are strings and numbers.
#[cycle(value)]
#[inline(always)]
pub fn read_value(alloc: Global, text: &str, at: &mut usize, levels: usize) -> Result<Value, Unread>
    ensures value { IfOk result (λ v. IsRead levels text.now at.old at.new (view v)) }
    ensures bounds { OnOk result ((at.old < at.new) × (at.new ≤ length text.now)) }
{
    match next_byte(text, at) {
        b'"' => Ok(Value::String(copy_string(alloc, text, at)?)),
        b'[' => {
            if levels == 0 {
                return Err(Unread::Unusual);
            }
            *at += 1;
            Ok(Value::Array(read_items(alloc, text, at, levels - 1)?))
        }
        b'{' => {
            if levels == 0 {
                return Err(Unread::Unusual);
            }
            *at += 1;
            Ok(Value::Object(read_members(alloc, text, at, levels - 1)?))
        }
        b't' => {
            pass_word(text, at, b"true")?;
            Ok(Value::Bool(true))
        }
        b'f' => {
            pass_word(text, at, b"false")?;
            Ok(Value::Bool(false))
        }
        b'n' => {
            pass_word(text, at, b"null")?;
            Ok(Value::Null)
        }
        _ => Ok(Value::Number(read_number(text, at)?)),
    }
}

/// Passes the rest of an array, from behind its bracket on.
#[cycle(value)]
#[inline(never)]
fn read_items(
    alloc: Global,
    text: &str,
    at: &mut usize,
    levels: usize,
) -> Result<Vec<Value>, Unread>
    ensures items { IfOk result
        (λ v. ItemsAreRead levels text.now at.old at.new (items_view v.items)) }
    ensures bounds { OnOk result ((at.old < at.new) × (at.new ≤ length text.now)) }
{
    let mut found = Vec::new(alloc);
    if next_byte(text, at) == b']' {
        *at += 1;
        return Ok(found);
    }
    while *at < text.len() {
        push_item(alloc, text, at, levels, &mut found)?;
        if is_over(text, at, b']')? {
            return Ok(found);
        }
    }
    Err(Unread::Unusual)
}

/// Passes the rest of an object, from behind its brace on.
#[cycle(value)]
#[inline(never)]
fn read_members(
    alloc: Global,
    text: &str,
    at: &mut usize,
    levels: usize,
) -> Result<Map<String, Value>, Unread>
    ensures members { IfOk result
        (λ m. MembersAreRead levels text.now at.old at.new (members_view m.entries)) }
    ensures bounds { OnOk result ((at.old < at.new) × (at.new ≤ length text.now)) }
{
    let mut found = Map::new(alloc);
    if next_byte(text, at) == b'}' {
        *at += 1;
        return Ok(found);
    }
    while *at < text.len() {
        let key = copy_name(alloc, text, at)?;
        let member = read_value(alloc, text, at, levels)?;
        drop(found.insert(key, member)?);
        if is_over(text, at, b'}')? {
            return Ok(found);
        }
    }
    Err(Unread::Unusual)
}

/// Passes an item, and pushes it. A whole number, of which an array can have many, is passed without a call.
#[cycle(value)]
#[inline(always)]
fn push_item(
    alloc: Global,
    text: &str,
    at: &mut usize,
    levels: usize,
    found: &mut Vec<Value>,
) -> Result<(), Unread>
    ensures item { OnOk result ((v : Value) × IsRead levels text.now at.old at.new (view v)
        × (found.new.items ≡ found.old.items ++ v ∷ [])) }
    ensures bounds { OnOk result ((at.old < at.new) × (at.new ≤ length text.now)) }
{
    next_byte(text, at);
    match whole_at(text, *at) {
        Some((number, end)) => {
            *at = end;
            found.push(Value::Number(Number::from(number)))?;
        }
        None => {
            let item = read_value(alloc, text, at, levels)?;
            found.push(item)?;
        }
    }
    Ok(())
}
