//! Members of a table of the document, by name and type.

ghost use Rattle.std.specs.Prelude.{◌≡◌, option_map, option_copied, length};
ghost use Rattle.toml.specs.Data.{get_member};
ghost use Rattle.toml.specs.View.{view, items_view, array_view, table_view};
ghost use Rattle.table_reading.specs.Fields.{text_at, integer_at, are_tables, tables_at, says, one_says};
ghost use Rattle.table_reading.specs.Limits.{items_len};

use toml::value::Array;
use toml::{Table, Value};

/// The member of that name.
pub(crate) fn member<'a>(table: &'a Table, name: &str) -> Option<&'a Value>
    ensures { option_map (λ v. view v.now) result ≡ get_member name.now (table_view table.now) }
{
    table.get(name)
}

/// The member of that name, where it is a string.
pub fn text_at<'a>(table: &'a Table, name: &str) -> Option<&'a str>
    ensures { option_copied result ≡ text_at name.now (table_view table.now) }
{
    member(table, name)?.as_str()
}

/// The member of that name, where it is a whole number.
pub(crate) fn integer_at(step: &Table, name: &str) -> Option<i64>
    ensures { result ≡ integer_at name.now (table_view step.now) }
{
    member(step, name)?.as_integer()
}

/// The items of the member, where it is a list of tables; no items where there is no such member.
pub fn tables_at<'a>(table: &'a Table, name: &str) -> Option<&'a [Value]>
    ensures { option_map (λ items. items_view items.now) result
        ≡ tables_at name.now (table_view table.now) }
{
    match member(table, name) {
        Some(Value::Array(items)) if are_tables(items) => Some(items.as_slice()),
        Some(_) => None,
        None => Some(&[]),
    }
}

fn are_tables(items: &Array) -> bool
    ensures { result ≡ are_tables (array_view items.now) }
{
    for item in items {
        if !item.is_table() {
            return false;
        }
    }
    true
}

/// Whether one of the tables has the text at that name.
pub fn one_says(name: &str, text: &str, tables: &[Value]) -> bool
    ensures { result ≡ one_says name.now text.now (items_view tables.now) }
{
    for table in tables {
        if says(name, text, table) {
            return true;
        }
    }
    false
}

fn says(name: &str, text: &str, table: &Value) -> bool
    ensures { result ≡ says name.now text.now (view table.now) }
{
    match table {
        Value::Table(table) => match text_at(table, name) {
            Some(said) => said == text,
            None => false,
        },
        _ => false,
    }
}

/// How many items there are.
pub fn count_of(items: &[Value]) -> usize
    ensures number { result ≡ items_len (items_view items.now) }
    ensures length { result ≡ length items.now }
{
    items.len()
}
