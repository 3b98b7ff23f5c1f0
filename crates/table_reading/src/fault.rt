//! Why a text is refused as a table.

ghost use Rattle.std.specs.Prelude.{◌≡◌};
ghost use Rattle.table_reading.specs.Fault.{fault_name, in_document, in_method};

use std::alloc::{AllocError, AllocFailed};

/// What is wrong with a table.
#[derive(Clone, Copy, Debug, PartialEq, Eq)]
pub enum FaultKind {
    /// The bytes aren't a TOML document in UTF-8.
    NotToml,
    /// `version` is missing or isn't the whole number 1 or 2.
    Version,
    /// A field is missing, unknown or of a wrong type; another word for `on_error`; a float or a date; an opening in version 1.
    Field,
    /// A method's name breaks the rule for names, or is used before.
    Name,
    /// `kind` is missing, isn't a string or names no kind of step of the table's version.
    Step,
    /// A register or a reference breaks its rule, or no earlier step sets the register.
    Register,
    /// The code of a `fail` is one of the reserved ones.
    Code,
    /// A number of methods, steps or calls, a count, a length or a depth is out of range.
    Limit,
    /// A growth was refused.
    Memory,
}

impl FaultKind {
    /// The name by which reports speak of it.
    pub fn name(self) -> &'static str
        ensures { result.now ≡ fault_name self }
    {
        match self {
            FaultKind::NotToml => "NotToml",
            FaultKind::Version => "Version",
            FaultKind::Field => "Field",
            FaultKind::Name => "Name",
            FaultKind::Step => "Step",
            FaultKind::Register => "Register",
            FaultKind::Code => "Code",
            FaultKind::Limit => "Limit",
            FaultKind::Memory => "Memory",
        }
    }
}

/// Why a text is refused, and where: `method` and `step` count from 1, and are 0 where the fault stands outside a method or a step.
/// A step of the opening has the method 0.
#[derive(Clone, Copy, Debug, PartialEq, Eq)]
pub struct TableFault {
    pub kind: FaultKind,
    pub method: u32,
    pub step: u32,
}

/// A fault that stands outside the methods.
pub fn in_document(kind: FaultKind) -> TableFault
    ensures { result ≡ in_document kind }
{
    in_method(0, kind)
}

/// A fault of a method that stands outside its steps.
pub fn in_method(method: u32, kind: FaultKind) -> TableFault
    ensures { result ≡ in_method method kind }
{
    TableFault {
        kind,
        method,
        step: 0,
    }
}

impl From<AllocError> for FaultKind {
    ghost use Rattle.std.specs.Prelude.{◌≡◌};
    ghost use Rattle.table_reading.specs.declared.fault.FaultKind.TheVariants as fault;

    ghost from_gives = { λ _ made. made ≡ fault.Memory };

    fn from(_: AllocError) -> FaultKind {
        FaultKind::Memory
    }
}

impl From<AllocError> for TableFault {
    ghost use Rattle.std.specs.Prelude.{◌≡◌};
    ghost use Rattle.table_reading.specs.Fault.{in_document};
    ghost use Rattle.table_reading.specs.declared.fault.FaultKind.TheVariants as fault;

    ghost from_gives = { λ _ made. made ≡ in_document fault.Memory };

    fn from(_: AllocError) -> TableFault {
        in_document(FaultKind::Memory)
    }
}

impl<T: Drop> From<AllocFailed<T>> for FaultKind {
    ghost use Rattle.std.specs.Prelude.{◌≡◌};
    ghost use Rattle.table_reading.specs.declared.fault.FaultKind.TheVariants as fault;

    ghost from_gives = { λ _ made. made ≡ fault.Memory };

    fn from(_: AllocFailed<T>) -> FaultKind {
        FaultKind::Memory
    }
}

impl<T: Drop> From<AllocFailed<T>> for TableFault {
    ghost use Rattle.std.specs.Prelude.{◌≡◌};
    ghost use Rattle.table_reading.specs.Fault.{in_document};
    ghost use Rattle.table_reading.specs.declared.fault.FaultKind.TheVariants as fault;

    ghost from_gives = { λ _ made. made ≡ in_document fault.Memory };

    fn from(_: AllocFailed<T>) -> TableFault {
        in_document(FaultKind::Memory)
    }
}
