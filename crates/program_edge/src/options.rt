//! The options of a command line, as data. A program states each of its own once, as a constant, and reads it by that.

/// An option without a value.
#[derive(Clone, Copy)]
pub struct FlagOption {
    /// Its name, which stands behind `--`.
    pub name: &'static str,
    pub help: &'static str,
}

/// An option whose value is any text.
#[derive(Clone, Copy)]
pub struct TextOption {
    pub name: &'static str,
    /// What help calls its value.
    pub value_name: &'static str,
    pub help: &'static str,
    /// Whether a command line without it is refused.
    pub is_required: bool,
}

/// An option whose value is a number.
#[derive(Clone, Copy)]
pub struct NumberOption {
    pub name: &'static str,
    /// What help calls its value.
    pub value_name: &'static str,
    pub help: &'static str,
    /// The least number that isn't refused.
    pub least: u32,
    /// The greatest number that isn't refused.
    pub greatest: u32,
    /// The digits of the number that stands where none is asked for.
    pub usual: &'static str,
}

/// Options without a value, of which a command line has one at most.
#[derive(Clone, Copy)]
pub struct FlagGroup {
    /// The name of the group. No option has it.
    pub name: &'static str,
    pub flags: &'static [FlagOption],
}

/// An option whose value is one of several words.
#[derive(Clone, Copy)]
pub struct ChoiceOption {
    pub name: &'static str,
    /// What help calls its value.
    pub value_name: &'static str,
    pub help: &'static str,
    pub words: &'static [&'static str],
    /// The word that stands where none is asked for, or an empty one, which help doesn't name.
    pub usual: &'static str,
}

/// An option of any kind.
#[derive(Clone, Copy)]
pub enum CommandOption {
    Flag(FlagOption),
    OneFlag(FlagGroup),
    Text(TextOption),
    Number(NumberOption),
    Choice(ChoiceOption),
}
