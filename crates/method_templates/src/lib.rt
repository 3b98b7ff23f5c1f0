//! The steps of a method, the templates in them, and the registers that fill these. Nothing here knows how a step is written.
#![tactic(auto)]

mod filling;
mod law;
mod limits;
mod locals;
mod name;
mod naming;
mod registers;
mod step;
mod template;

pub use filling::{FillFault, fill, fill_integer, fill_lent, lend_whole, take_whole};
pub use law::limits_of_tables_in_figures;
pub use limits::{
    DEEPEST_TEMPLATE, LONGEST_NAME, LONGEST_REGISTER, LONGEST_SKIP, MOST_CALLS, MOST_LISTED,
    MOST_METHODS, MOST_STEPS,
};
pub use locals::Locals;
pub use naming::{is_escaped, is_method_name, is_name_length, is_register_name};
pub use registers::Registers;
pub use step::{ListedCall, OnError, Step};
pub use template::{Form, Template};
