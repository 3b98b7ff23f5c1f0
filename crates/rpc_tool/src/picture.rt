//! A picture of what goes between two sides, line by line: the other side at the left, and the peer at the right.
use std::alloc::{AllocError, Global};

/// So many characters are between the two sides, but for what a longer text takes.
const WIDTH: usize = 32;

/// A picture as text.
#[derive(Drop)]
pub struct Picture {
    pub text: String,
}

impl Picture {
    /// Nothing is drawn yet.
    pub fn new(alloc: Global) -> Picture {
        Picture {
            text: String::new(alloc),
        }
    }

    /// The peer sends this. The note stands at its side.
    pub fn sends(&mut self, label: &str, note: &str) -> Result<(), AllocError> {
        self.line(["<- ", label, "-"], '-', note)
    }

    /// The other side sends this.
    pub fn hears(&mut self, label: &str) -> Result<(), AllocError> {
        self.line(["-- ", label, ">"], '-', "")
    }

    /// Nothing goes between the sides.
    pub fn rests(&mut self, note: &str) -> Result<(), AllocError> {
        self.line(["   ", "", " "], ' ', note)
    }

    /// A line: what begins it, its text and what ends it, and in between as much as its width asks for.
    fn line(
        &mut self,
        [head, label, tail]: [&str; 3],
        fill: char,
        note: &str,
    ) -> Result<(), AllocError> {
        for part in ["  |", head, label, " "] {
            self.text.push_str(part)?;
        }
        for _ in label.chars().count()..WIDTH {
            self.text.push(fill)?;
        }
        let between = if note.is_empty() { "" } else { "  " };
        for part in [tail, "|", between, note, "\n"] {
            self.text.push_str(part)?;
        }
        Ok(())
    }
}
