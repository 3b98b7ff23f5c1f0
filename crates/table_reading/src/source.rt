//! Values of the document that are templates.

ghost use Rattle.std.specs.Prelude.{◌≡◌};
ghost use Rattle.toml.specs.View.{view, array_view, table_view};
ghost use Rattle.table_reading.specs.Limits.{is_shallow};
ghost use Rattle.method_templates.specs.Shape.{depth, shapes_depth, parts_depth};
ghost use Rattle.table_reading.specs.Templates.{is_template, items_are_templates, members_are_templates, shape_from, shapes_from, parts_from, template_in};
ghost use Rattle.table_reading.specs.Inner.Seen.{within_if};

use method_templates::DEEPEST_TEMPLATE;
use std::marker::Model;
use toml::Value;
use toml::value::Array;

/// A value in which no float and no date stands.
#[derive(Drop)]
pub(crate) struct Source<'a> {
    pub(crate) value: &'a Value,
    shallow: bool,
}

impl<'a> Model for Source<'a> {
    ghost use Rattle.std.specs.Prelude.{◌≡◌, true};
    ghost use Rattle.toml.specs.View.{view as data_of};
    ghost use Rattle.table_reading.specs.Limits.{is_shallow};
    ghost use Rattle.method_templates.specs.Shape.{Shape, coded_shape};
    ghost use Rattle.table_reading.specs.Templates.{is_template, shape_from};

    ghost Value = { Shape };

    ghost coded = { coded_shape };

    ghost view = { λ s. shape_from (data_of s.value.now) };

    ghost invariant = { λ s. (is_template (data_of s.value.now) ≡ true)
        × (s.shallow ≡ is_shallow (shape_from (data_of s.value.now))) };
}

impl<'a> Source<'a> {
    /// The value as a template; none where a float or a date stands in it.
    pub(crate) fn of(value: &'a Value) -> Option<Source<'a>>
        ensures { result ≡ template_in (view value.now) }
    {
        let shallow = is_within(value, DEEPEST_TEMPLATE)?;
        Some(Source { value, shallow })
    }

    /// Whether it is no deeper than a template may be.
    pub(crate) fn is_shallow(&self) -> bool
        ensures { result ≡ is_shallow self.now }
    {
        self.shallow
    }
}

/// Whether the template is at most so many levels deep, a scalar being one level; none where a float or a date stands in it.
#[cycle(levels)]
fn is_within(value: &Value, levels: u32) -> Option<bool>
    ensures { result ≡ within_if (is_template (view value.now)) levels
        (depth (shape_from (view value.now))) }
{
    let inside = levels.saturating_sub(1);
    match value {
        Value::Float(_) | Value::Datetime(_) => None,
        Value::Array(items) => Some(items_are_within(items, inside)? && 1 <= levels),
        Value::Table(members) => Some(members_are_within(members, inside)? && 1 <= levels),
        Value::String(_) | Value::Integer(_) | Value::Boolean(_) => Some(1 <= levels),
    }
}

#[cycle(levels)]
fn items_are_within(items: &Array, levels: u32) -> Option<bool>
    ensures { result ≡ within_if (items_are_templates (array_view items.now)) levels
        (shapes_depth (shapes_from (array_view items.now))) }
{
    let mut within = true;
    for item in items {
        within = is_within(item, levels)? && within;
    }
    Some(within)
}

#[cycle(levels)]
fn members_are_within(members: &toml::Table, levels: u32) -> Option<bool>
    ensures { result ≡ within_if (members_are_templates (table_view members.now)) levels
        (parts_depth (parts_from (table_view members.now))) }
{
    let mut within = true;
    for (_, member) in members.iter() {
        within = is_within(member, levels)? && within;
    }
    Some(within)
}
