//! Lines whose meaning a reader sees: laws about definitions. Each is the contract of a function that does nothing.

ghost use Rattle.recorded_talks.specs.Worked.{WorkedHeads, WorkedLines};

/// What first lines say.
pub fn worked_heads()
    ensures { WorkedHeads }
{}

/// What the others say.
pub fn worked_lines()
    ensures { WorkedLines }
{}
