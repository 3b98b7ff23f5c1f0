//! A server whose client waits for each answer before its next request, so that every thread of the server goes to sleep
//! and is woken for each of them. A wake-up that is lost would leave a request without its answer. Or its client sends so many
//! requests ahead that its reader has to wait until there is room for the next.
mod client;
mod rounds;
mod serving;

pub use rounds::{Rounds, Server};
pub use serving::go_round;
