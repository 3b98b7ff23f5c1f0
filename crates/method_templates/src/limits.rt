//! The limits of tables.

/// Methods of a table.
pub const MOST_METHODS: usize = 256;

/// Steps of a method, and of the opening.
pub const MOST_STEPS: usize = 64;

/// Steps that a `skip` passes over.
pub const LONGEST_SKIP: u32 = 64;

/// Calls that one step makes at once.
pub const MOST_LISTED: usize = 16;

/// Calls of one run, which has at most `MOST_STEPS` steps of `MOST_LISTED` calls.
pub const MOST_CALLS: u32 = 1024;

/// Bytes of the name of a method, of the table or of the other side.
pub const LONGEST_NAME: usize = 128;

/// Bytes of the name of a register.
pub const LONGEST_REGISTER: usize = 32;

/// Levels of a template.
pub const DEEPEST_TEMPLATE: u32 = 16;
