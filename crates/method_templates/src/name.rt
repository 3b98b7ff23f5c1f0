//! The names of registers.

ghost use Rattle.std.specs.Prelude.{◌≡◌, ◌≤◌, length, IfOk};

use crate::limits::LONGEST_REGISTER;
use json_values::Text;
use std::alloc::{AllocError, Global};
use std::marker::Model;

/// The name of a register, seen by contracts as the list of its bytes. One as long as those of tables takes no memory of
/// its own.
#[derive(Drop)]
pub(crate) struct Name {
    form: NameForm,
}

#[derive(Drop)]
pub(crate) enum NameForm {
    /// The first bytes of these, and how many.
    Short([u8; LONGEST_REGISTER], usize),
    Long(Text),
}

impl Model for Name {
    ghost use Rattle.std.specs.Prelude.{ℕ, List};
    ghost use Rattle.method_templates.specs.Inner.Name.{bytes_of, IsName};

    ghost Value = { List ℕ };

    ghost view = { λ n. bytes_of n.form };

    ghost invariant = { λ n. IsName n.form };
}

impl Name {
    /// A copy of the text.
    pub(crate) fn copy_of(alloc: Global, text: &str) -> Result<Name, AllocError>
        ensures { IfOk result (λ name. name ≡ text.now) }
    {
        if text.len() <= LONGEST_REGISTER {
            Ok(Name::short(text.as_bytes()))
        } else {
            let text = Text::copy_of(alloc, text)?;
            Ok(Name {
                form: NameForm::Long(text),
            })
        }
    }

    /// A name as short as those of tables.
    pub(crate) fn short(text: &[u8]) -> Name
        requires { length text.now ≤ LONGEST_REGISTER }
        ensures { result ≡ text.now }
    {
        let mut bytes = [0; LONGEST_REGISTER];
        bytes[..text.len()].copy_from_slice(text);
        Name {
            form: NameForm::Short(bytes, text.len()),
        }
    }

    /// Its bytes.
    pub(crate) fn as_bytes(&self) -> &[u8]
        ensures { result.now ≡ self.now }
    {
        match &self.form {
            NameForm::Short(bytes, len) => &bytes[..*len],
            NameForm::Long(text) => text.as_bytes(),
        }
    }
}
