//! The table of methods: what each method does, step by step, read from a TOML text and judged once.
#![tactic(auto)]

mod law;
mod methods;
mod table;

pub use law::{text_without_faults_is_a_table, told_fault_is_the_first_shown};
pub use method_templates::{
    FillFault, ListedCall, OnError, Registers, Step, Template, fill, limits_of_tables_in_figures,
};
pub use table::Table;
pub use table_reading::{FaultKind, TableFault};
