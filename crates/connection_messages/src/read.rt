//! From contents to units.

pub(crate) mod batch;
pub(crate) mod call;
pub(crate) mod compact;
pub(crate) mod entry;
pub(crate) mod envelope;
pub(crate) mod number;
pub(crate) mod reply;
pub(crate) mod rooms;
pub(crate) mod unit;
