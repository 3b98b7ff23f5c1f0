//! What a command line asks for.

/// What a command line asks the program to do.
#[derive(Clone, Copy)]
pub enum Subcommand<'a> {
    /// Serves standard input and output until the input ends.
    Serve(ServeOptions<'a>),
    /// Plays the whole of standard input.
    Play(PlayOptions<'a>),
    /// Judges the table of methods in this file.
    Check(CheckOptions<'a>),
    /// Judges the recording on standard input.
    Judge(JudgeOptions<'a>),
}

/// How much of its input the program takes.
#[derive(Clone, Copy)]
pub struct LimitOptions {
    /// How many bytes a content may have, from 1 to 16,777,216.
    pub content: u32,
    /// How many calls may come, from 1 to 1,000,000.
    pub calls: u32,
}

/// How `serve` runs methods.
#[derive(Clone, Copy)]
pub struct ServeOptions<'a> {
    /// The file of the table of methods; without one there are no methods.
    pub table: Option<&'a str>,
    /// How many threads run methods, from 1 to 64.
    pub workers: u32,
    /// Whether each line of the input is one content, and each content written is one line.
    pub lines: bool,
    pub limits: LimitOptions,
    /// Whether standard error says more than one line.
    pub explain: bool,
}

/// How `play` reads its input, runs methods and writes its output.
#[derive(Clone, Copy)]
pub struct PlayOptions<'a> {
    /// The file of the table of methods; without one there are no methods.
    pub table: Option<&'a str>,
    /// Whether the input is taken to its end before the first method runs.
    pub lazy: bool,
    /// Whether of the methods that can go on the last goes on, and not the first.
    pub last: bool,
    /// How many bytes each piece of the input has, from 1 to 65,536; the last may have fewer.
    pub piece: u32,
    /// Whether each line of the input is one content, and each content written is one line.
    pub lines: bool,
    pub limits: LimitOptions,
    /// Whether standard error says more than one line.
    pub explain: bool,
}

/// What `judge` holds a recording against.
#[derive(Clone, Copy)]
pub struct JudgeOptions<'a> {
    /// The name of the rules; an empty one for those of the recording.
    pub rules: &'a str,
    /// The name of the framing; an empty one for that of the recording.
    pub framing: &'a str,
}

/// What `check` judges.
#[derive(Clone, Copy)]
pub struct CheckOptions<'a> {
    /// The file of the table of methods.
    pub table: &'a str,
    /// Whether the table is drawn, and standard error says more than one line where it is refused.
    pub explain: bool,
}
