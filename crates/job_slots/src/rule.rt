//! The rule of the table of slots.
use crate::turns::Turns;
use crate::view::View;
use atomic_table::{Seat, Shared, Table, TableRule};
use std::alloc::Global;

/// The rule of a table of job slots: the lawful slot table. It is told how many slots there are.
pub struct SlotRule;

impl<J: Turns> TableRule<Option<J>, View<J>, usize> for SlotRule {
    ghost use Rattle.std.specs.Prelude.{replicate};
    ghost use Rattle.job_slots.specs.declared.view.Look.TheVariants.{Free};
    ghost use Rattle.job_slots.specs.declared.view.View.TheVariants.{Clerk};
    ghost use Rattle.job_slots.specs.Lawful.{LawfulTable};

    ghost holds = { λ _. LawfulTable J.turned };

    ghost first = { λ slots. Clerk (replicate slots Free) 0 };
}

pub(crate) type SlotTable<J> = Table<Option<J>, View<J>, usize, SlotRule, Global>;

pub(crate) type SharedSlots<J> = Shared<Option<J>, View<J>, usize, SlotRule>;

pub(crate) type Place<J> = Seat<Option<J>, View<J>>;
