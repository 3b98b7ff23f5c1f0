//! The fields of a table, by which the one is found that is missing, unknown or of a wrong type.
use toml::{Table, Value};

/// What the value of a field has to be.
#[derive(Clone, Copy)]
pub enum Form {
    Text,
    Number,
    /// No float and no date stands in it.
    Template,
    /// The same, where there is such a field.
    OptionalTemplate,
    /// `fail` or `keep`, where there is such a field.
    OnError,
    /// A list of calls.
    Calls,
    /// A list of tables, where there is such a field.
    Tables,
}

/// A field that an entry may have.
pub type Field = (&'static str, Form);

/// A field at fault, and what is wrong with it.
#[derive(Clone, Copy)]
pub struct FieldFault<'a> {
    pub name: &'a str,
    pub cause: &'static str,
}

/// The fields of a document of that version.
pub fn fields_of_document(version: i64) -> &'static [Field] {
    if version == 1 {
        &[("version", Form::Number), ("method", Form::Tables)]
    } else {
        &[
            ("version", Form::Number),
            ("opening", Form::Tables),
            ("method", Form::Tables),
        ]
    }
}

/// The fields of a method.
pub fn fields_of_method() -> &'static [Field] {
    &[("name", Form::Text), ("step", Form::Tables)]
}

/// The fields of a step of the kind.
pub fn fields_of_step(kind: &str) -> &'static [Field] {
    match kind {
        "set" => &[
            ("kind", Form::Text),
            ("to", Form::Text),
            ("value", Form::Template),
        ],
        "add" => &[
            ("kind", Form::Text),
            ("to", Form::Text),
            ("left", Form::Template),
            ("right", Form::Template),
        ],
        "skip" => &[
            ("kind", Form::Text),
            ("left", Form::Template),
            ("right", Form::Template),
            ("count", Form::Number),
        ],
        "call" => &[
            ("kind", Form::Text),
            ("to", Form::Text),
            ("method", Form::Text),
            ("params", Form::OptionalTemplate),
            ("on_error", Form::OnError),
        ],
        "calls" => &[
            ("kind", Form::Text),
            ("to", Form::Text),
            ("list", Form::Calls),
            ("on_error", Form::OnError),
        ],
        "each" => &[
            ("kind", Form::Text),
            ("to", Form::Text),
            ("over", Form::Template),
            ("method", Form::Text),
            ("on_error", Form::OnError),
        ],
        "notify" => &[
            ("kind", Form::Text),
            ("method", Form::Text),
            ("params", Form::OptionalTemplate),
        ],
        "answer" => &[("kind", Form::Text), ("value", Form::Template)],
        "fail" => &[
            ("kind", Form::Text),
            ("code", Form::Number),
            ("message", Form::Text),
        ],
        _ => &[("kind", Form::Text)],
    }
}

/// The first field at fault: an unknown one, or else one that is missing or of a wrong type.
pub fn field_fault<'a>(fields: &[Field], entry: &'a Table) -> Option<FieldFault<'a>> {
    for (name, _) in entry.iter() {
        if !is_known(fields, name.as_str()) {
            return Some(FieldFault {
                name: name.as_str(),
                cause: "no such field stands here",
            });
        }
    }
    for (name, form) in fields {
        let cause = match entry.get(*name) {
            Some(value) if fits(*form, value) => "",
            Some(_) => wrong_type(*form),
            None if is_optional(*form) => "",
            None => "the field is missing",
        };
        if !cause.is_empty() {
            return Some(FieldFault { name, cause });
        }
    }
    None
}

fn is_known(fields: &[Field], name: &str) -> bool {
    fields.iter().any(|(known, _)| *known == name)
}

fn is_optional(form: Form) -> bool {
    matches!(form, Form::OptionalTemplate | Form::OnError | Form::Tables)
}

fn wrong_type(form: Form) -> &'static str {
    match form {
        Form::Text => "the field isn't a string",
        Form::Number => "the field isn't a whole number",
        Form::Template | Form::OptionalTemplate => "a float or a date stands in the field",
        Form::OnError => "the field is neither \"fail\" nor \"keep\"",
        Form::Calls => "the field isn't a list of calls",
        Form::Tables => "the field isn't a list of tables",
    }
}

fn fits(form: Form, value: &Value) -> bool {
    match form {
        Form::Text => value.is_str(),
        Form::Number => value.is_integer(),
        Form::Template | Form::OptionalTemplate => is_template(value, DEEPEST),
        Form::OnError => matches!(value.as_str(), Some("fail" | "keep")),
        Form::Calls => are_calls(value),
        Form::Tables => are_tables(value),
    }
}

fn are_tables(value: &Value) -> bool {
    match value {
        Value::Array(items) => items.iter().all(|item| item.is_table()),
        _ => false,
    }
}

fn are_calls(value: &Value) -> bool {
    match value {
        Value::Array(items) => items.iter().all(is_call),
        _ => false,
    }
}

fn is_call(value: &Value) -> bool {
    let Value::Table(call) = value else {
        return false;
    };
    for (name, value) in call.iter() {
        let fits = match name.as_str() {
            "method" => value.is_str(),
            "params" => is_template(value, DEEPEST),
            _ => false,
        };
        if !fits {
            return false;
        }
    }
    call.get("method").is_some()
}

/// More levels than a document has.
const DEEPEST: u32 = 100;

/// Whether no float and no date stands in the value.
#[cycle(levels)]
fn is_template(value: &Value, levels: u32) -> bool {
    if levels == 0 {
        return true;
    }
    match value {
        Value::Float(_) | Value::Datetime(_) => false,
        Value::Array(items) => {
            for item in items {
                if !is_template(item, levels - 1) {
                    return false;
                }
            }
            true
        }
        Value::Table(members) => {
            for (_, member) in members.iter() {
                if !is_template(member, levels - 1) {
                    return false;
                }
            }
            true
        }
        Value::String(_) | Value::Integer(_) | Value::Boolean(_) => true,
    }
}
