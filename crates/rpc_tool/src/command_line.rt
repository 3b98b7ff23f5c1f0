//! What `rpc_tool` is asked to do: the words of its command line, read. Nothing here stands on the peer.

mod commands;
mod notes;
mod reading;
mod subcommand;

pub(crate) use reading::read;
pub(crate) use subcommand::{
    CheckOptions, JudgeOptions, LimitOptions, PlayOptions, ServeOptions, Subcommand,
};
