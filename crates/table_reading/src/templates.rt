//! Templates made of values of the document.

ghost use Rattle.std.specs.Prelude.{◌≡◌, true, IfOk, IfErr};
ghost use Rattle.toml.specs.View.{view, items_view, array_view, table_view};
ghost use Rattle.method_templates.specs.Form.{shape_of, shapes_of, parts_of};
ghost use Rattle.table_reading.specs.References.{is_known, is_place_known, are_places_known, are_parts_known};
ghost use Rattle.table_reading.specs.Inner.Seen.{Breaks};
ghost use Rattle.table_reading.specs.Templates.{is_template, items_are_templates, members_are_templates, shape_of_text, shape_from, shapes_from, parts_from};

use crate::fault::FaultKind;
use crate::lookup::one_says;
use crate::word::{Word, word_of};
use json_values::{Json, Text};
use method_templates::{Form, Template, is_escaped};
use std::alloc::Global;
use std::collections::BTreeMap;
use toml::Value;
use toml::value::Array;

/// The template that the value stands for, where each reference in it is to a known register, by a JSON Pointer.
#[cycle(template)]
pub(crate) fn template_of(
    alloc: Global,
    value: &Value,
    earlier: &[Value],
) -> Result<Template, FaultKind>
    requires { is_template (view value.now) ≡ true }
    ensures ok { IfOk result (λ template. (template ≡ shape_from (view value.now))
        × (is_place_known (items_view earlier.now) (shape_from (view value.now)) ≡ true)) }
    ensures refused { IfErr result
        (Breaks (is_place_known (items_view earlier.now) (shape_from (view value.now)))) }
{
    let form = match value {
        Value::String(text) => form_of_text(alloc, text.as_str(), earlier)?,
        Value::Integer(number) => Form::Plain(Json::integer(*number)),
        Value::Boolean(truth) => Form::Plain(Json::boolean(*truth)),
        Value::Array(items) => Form::List(templates_of(alloc, items, earlier)?),
        Value::Table(members) => Form::Members(member_templates_of(alloc, members, earlier)?),
        Value::Float(_) | Value::Datetime(_) => unreachable!(),
    };
    Ok(Template { form })
}

fn form_of_text(alloc: Global, text: &str, earlier: &[Value]) -> Result<Form, FaultKind>
    ensures ok { IfOk result (λ form. (shape_of form ≡ shape_of_text text.now)
        × (is_place_known (items_view earlier.now) (shape_of_text text.now) ≡ true)) }
    ensures refused { IfErr result
        (Breaks (is_place_known (items_view earlier.now) (shape_of_text text.now))) }
{
    match word_of(text) {
        Word::Literal(text) => Ok(Form::Plain(Json::string(Text::copy_of(alloc, text)?))),
        Word::Null => Ok(Form::Plain(Json::null())),
        Word::Place { name, pointer } => {
            if !is_known(earlier, name) || !is_escaped(pointer) {
                return Err(FaultKind::Register);
            }
            Ok(Form::Place {
                name: Text::copy_of(alloc, name)?,
                pointer: Text::copy_of(alloc, pointer)?,
            })
        }
    }
}

#[cycle(template)]
fn templates_of(alloc: Global, items: &Array, earlier: &[Value]) -> Result<Vec<Template>, FaultKind>
    requires { items_are_templates (array_view items.now) ≡ true }
    ensures ok { IfOk result (λ made. (shapes_of made.items ≡ shapes_from (array_view items.now))
        × (are_places_known (items_view earlier.now) (shapes_from (array_view items.now)) ≡ true)) }
    ensures refused { IfErr result
        (Breaks (are_places_known (items_view earlier.now) (shapes_from (array_view items.now)))) }
{
    let mut templates = Vec::with_capacity(alloc, items.len())?;
    for item in items {
        templates.push(template_of(alloc, item, earlier)?)?;
    }
    Ok(templates)
}

#[cycle(template)]
fn member_templates_of(
    alloc: Global,
    members: &toml::Table,
    earlier: &[Value],
) -> Result<BTreeMap<String, Template>, FaultKind>
    requires { members_are_templates (table_view members.now) ≡ true }
    ensures ok { IfOk result (λ made. (parts_of made.entries ≡ parts_from (table_view members.now))
        × (are_parts_known (items_view earlier.now) (parts_from (table_view members.now)) ≡ true)) }
    ensures refused { IfErr result
        (Breaks (are_parts_known (items_view earlier.now) (parts_from (table_view members.now)))) }
{
    let mut templates = BTreeMap::new(alloc);
    for (name, member) in members.iter() {
        let template = template_of(alloc, member, earlier)?;
        match name.clone() {
            Ok(name) => drop(templates.insert(name, template)?),
            Err(error) => {
                drop(template);
                return Err(FaultKind::from(error));
            }
        }
    }
    Ok(templates)
}

/// Whether a template may refer to the register.
fn is_known(earlier: &[Value], name: &str) -> bool
    ensures { result ≡ is_known (items_view earlier.now) name.now }
{
    name == "params" || one_says("to", name, earlier)
}
