//! Words of others, shown so that none of them passes for a line of the program.
use std::fmt;

/// A text that is shown with its control characters escaped.
#[derive(Clone, Copy)]
pub struct Shown<'a> {
    pub text: &'a str,
}

impl fmt::Display for Shown<'_> {
    fn fmt<W: fmt::Write>(&self, f: &mut fmt::Formatter<W>) -> fmt::Result {
        for character in self.text.chars() {
            if character.is_control() {
                write!(f, "{}", character.escape_default())?;
            } else {
                f.write_char(character)?;
            }
        }
        Ok(())
    }
}

/// Whether it is shown otherwise than it stands.
pub(crate) fn has_control(text: &str) -> bool {
    text.contains(char::is_control)
}
