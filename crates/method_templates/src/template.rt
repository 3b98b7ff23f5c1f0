//! Templates of values.

use json_values::{Json, Text};
use std::collections::BTreeMap;
use std::marker::Model;

/// A value with places to be filled.
#[cycle(template)]
#[derive(Debug, Drop)]
pub struct Template {
    pub form: Form,
}

#[cycle(template)]
#[derive(Debug, Drop)]
pub enum Form {
    /// A value that stands for itself.
    Plain(Json),
    /// A place in a register.
    Place { name: Text, pointer: Text },
    /// An array of what the templates stand for.
    List(Vec<Template>),
    /// An object of what the templates stand for.
    Members(BTreeMap<String, Template>),
}

impl Model for Template {
    ghost use Rattle.method_templates.specs.Shape.{Shape, coded_shape, size_of};

    ghost Value = { Shape };

    ghost coded = { coded_shape };

    ghost use Rattle.method_templates.specs.Form.{shape_of};

    ghost view = { λ t. shape_of t.form };

    ghost size = { size_of };

    ghost use Rattle.method_templates.specs.Inner.FormFalls.{deep_le-size};

    ghost size_decreases = { λ a h. deep_le-size a.form };
}
