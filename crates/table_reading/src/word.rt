//! What a string is in a template.

ghost use Rattle.std.specs.Prelude.{◌≡◌};
ghost use Rattle.table_reading.specs.Templates.{name_in, pointer_in, shape_of_text, shape_after_dollar};
ghost use Rattle.table_reading.specs.Inner.Words.{word_shape};

/// A string of a template.
pub(crate) enum Word<'a> {
    Literal(&'a str),
    Null,
    Place { name: &'a str, pointer: &'a str },
}

/// What the string stands for.
pub(crate) fn word_of(text: &str) -> Word<'_>
    ensures { word_shape result ≡ shape_of_text text.now }
{
    match text.strip_prefix('$') {
        None => Word::Literal(text),
        Some(rest) => word_after_dollar(rest),
    }
}

fn word_after_dollar(text: &str) -> Word<'_>
    ensures { word_shape result ≡ shape_after_dollar text.now }
{
    if text.starts_with('$') {
        Word::Literal(text)
    } else if text == "null" {
        Word::Null
    } else {
        let (name, pointer) = parts_of(text);
        Word::Place { name, pointer }
    }
}

/// What stands before the first `/`, and what begins there.
fn parts_of(text: &str) -> (&str, &str)
    ensures name { result.0.now ≡ name_in text.now }
    ensures pointer { result.1.now ≡ pointer_in text.now }
{
    match text.find('/') {
        Some(place) => text.split_at(place),
        None => (text, ""),
    }
}
